//! An SDU as far as it was received.

ghost use Rattle.std.specs.Prelude.{◌≡◌, ◌-◌, ◌≤◌, true, false, ◌&&◌, ◌||◌, ◌==◌, length, IfSome, if◌then◌else◌, Some, nat_lt};
ghost use Rattle.protocol.specs.Reading.{max_sdu};
ghost use Rattle.protocol.specs.Receiving.{nothing_held, complete, has_hole, missing_from, held_from, data_end, marks_end, clashes_with, clashes as clash, received, reception, limit as limit_of, gap_end as gap_end_of};
ghost use Rattle.rlc_rx.specs.Flags.{tally, NoneFrom, EndsAt, bounds};
ghost use Rattle.rlc_rx.specs.DataPdus.{data_pdu_of};

use crate::data_pdus::DataPdu;
use crate::flags::{find_flag, put};
use protocol::MAX_SDU;
use std::mem;

/// SOend of a gap that reaches the last byte, where that is not known.
const TO_THE_END: u16 = 0xFFFF;

/// The bytes of one SDU that were received, and its length once an end was marked.
#[derive(Clone, Copy)]
pub(crate) struct Slot {
    pub(crate) bytes: [u8; MAX_SDU],
    /// Which of the bytes are held.
    // No `[Option<u8>; MAX_SDU]`: a complete SDU is handed up as a slice of `bytes`, without a copy.
    held: [bool; MAX_SDU],
    /// How many are.
    count: usize,
    /// One past the highest that is.
    top: usize,
    known_end: Option<usize>,
    /// A poll came with this SDU that is not answered yet.
    poll: bool,
    ghost room: { (length bytes ≡ 502) × (length held ≡ 502) },
    ghost counted: { count ≡ tally held },
    ghost short: { top ≤ 502 },
    ghost beyond: { NoneFrom top held },
    ghost highest: { EndsAt top held },
    ghost bounded: { bounds known_end top ≡ true },
}

/// Bytes that are missing, from `so_start` to `so_end`, and one past them.
#[derive(Clone, Copy)]
pub(crate) struct Gap {
    pub(crate) so_start: u16,
    pub(crate) so_end: u16,
    pub(crate) stop: usize,
}

// An end and whether it is marked stand side by side, as in the definition that this is equal to.
/// Whether data up to `end` passes the known end, reaches it unmarked, or marks another one.
fn misfits(known_end: Option<usize>, end: usize, marked: bool) -> bool
    ensures { result ≡ clashes_with known_end end marked }
{
    known_end.is_some_and(|known| known < end || if marked { end != known } else { end == known })
}

impl Slot {
    ghost use Rattle.rlc_rx.specs.Gaps.{gap_at};
    ghost use Rattle.rlc_rx.specs.Receptions.{handed};
    ghost use Rattle.rlc_rx.specs.Slots.{partial_of};

    pub(crate) fn new() -> Slot
        ensures { (partial_of result ≡ nothing_held) × (result.poll ≡ false) }
    {
        Slot {
            bytes: [0; MAX_SDU],
            held: [false; MAX_SDU],
            count: 0,
            top: 0,
            known_end: None,
            poll: false,
        }
    }

    /// Forgets the SDU; the slot is another one's.
    pub(crate) fn reset(&mut self)
        ensures { (partial_of self.new ≡ nothing_held) × (self.new.poll ≡ false) }
    {
        self.held = [false; MAX_SDU];
        self.count = 0;
        self.top = 0;
        self.known_end = None;
        self.poll = false;
    }

    /// No byte is held.
    pub(crate) fn is_empty(&self) -> bool
        ensures { result ≡ (held_from (partial_of self.now) max_sdu 0 == max_sdu) }
    {
        self.top == 0
    }

    /// All bytes up to the end, which is known, are held.
    pub(crate) fn is_complete(&self) -> bool
        ensures { result ≡ complete (partial_of self.now) }
    {
        self.known_end == Some(self.count)
    }

    /// The SDU's length, if it is complete.
    pub(crate) fn complete_length(&self) -> Option<usize>
        ensures value { handed result self.now.bytes ≡ reception (partial_of self.now) }
        ensures short { IfSome result (λ length. length ≤ 502) }
    {
        self.is_complete().then_some(self.count)
    }

    /// A byte is missing before one that is held.
    pub(crate) fn has_hole(&self) -> bool
        ensures { result ≡ has_hole (partial_of self.now) }
    {
        self.count < self.top
    }

    // Two numbers and no range: the definition takes a number and a width.
    /// The first byte from `from` to before `to` that is missing, or else `to`.
    pub(crate) fn missing_from(&self, from: usize, to: usize) -> usize
        requires ordered { from ≤ to }
        requires room { to ≤ 502 }
        ensures { result ≡ missing_from (partial_of self.now) (to - from) from }
    {
        find_flag(&self.held, false, from, to)
    }

    /// The first byte from `from` to before `to` that is held, or else `to`.
    fn held_from(&self, from: usize, to: usize) -> usize
        requires ordered { from ≤ to }
        requires room { to ≤ 502 }
        ensures { result ≡ held_from (partial_of self.now) (to - from) from }
    {
        find_flag(&self.held, true, from, to)
    }

    /// Whether an end is marked before a byte that is held.
    fn cuts_off(&self, end: usize, marked: bool) -> bool
        requires { end ≤ 502 }
        ensures { result ≡ (marked && nat_lt (held_from (partial_of self.now) (max_sdu - end) end) max_sdu) }
    {
        marked && end < self.top
    }

    /// Whether the data passes the known end, reaches it unmarked, marks another one, or marks an end before a
    /// byte that is held.
    pub(crate) fn clashes(&self, pdu: &DataPdu) -> bool
        ensures { result ≡ clash (partial_of self.now) (data_pdu_of pdu.now) }
    {
        let end = pdu.end();
        let marked = pdu.marks_end();
        misfits(self.known_end, end, marked) || self.cuts_off(end, marked)
    }

    /// The end that is known once the PDU was received.
    fn end_after(&self, pdu: &DataPdu) -> Option<usize>
        ensures { result ≡ (if marks_end (data_pdu_of pdu.now).segment then Some (data_end (data_pdu_of pdu.now)) else self.now.known_end) }
    {
        if pdu.marks_end() {
            Some(pdu.end())
        } else {
            self.known_end
        }
    }

    /// Keeps the bytes that are new, and learns the end that the PDU marks.
    pub(crate) fn receive(&mut self, pdu: &DataPdu)
        requires { clash (partial_of self.old) (data_pdu_of pdu.now) ≡ false }
        ensures sdu { partial_of self.new ≡ received (data_pdu_of pdu.now) (partial_of self.old) }
        ensures poll { self.new.poll ≡ (self.old.poll || (data_pdu_of pdu.now).poll) }
    {
        let top = self.top;
        let poll = self.poll || pdu.header.poll;
        self.known_end = self.end_after(pdu);
        self.count += put(
            &mut self.bytes,
            &mut self.held,
            top,
            pdu.offset(),
            pdu.payload,
        );
        self.top = top.max(pdu.end());
        self.poll = poll;
    }

    /// Takes the poll, if there is one, to answer it.
    pub(crate) fn answer_poll(&mut self) -> bool
        ensures answer { result ≡ self.old.poll }
        ensures sdu { partial_of self.new ≡ partial_of self.old }
        ensures poll { self.new.poll ≡ false }
    {
        mem::replace(&mut self.poll, false)
    }

    /// The bytes that the SDU may still get: to its known end, or to the longest SDU's.
    pub(crate) fn limit(&self) -> usize
        ensures value { result ≡ limit_of (partial_of self.now) }
        ensures short { result ≤ 502 }
    {
        self.known_end.unwrap_or(MAX_SDU)
    }

    /// SOend of a gap that stops before byte `stop`.
    fn gap_end(&self, stop: usize) -> u16
        requires some { 1 ≤ stop }
        requires short { stop ≤ 502 }
        ensures { result ≡ gap_end_of (partial_of self.now) stop }
    {
        match self.known_end {
            None if stop == MAX_SDU => TO_THE_END,
            _ => (stop - 1) as u16,
        }
    }

    /// The first gap from byte `from` on. Where the end is not known there is one that reaches it.
    pub(crate) fn gap_from(&self, from: usize) -> Option<Gap>
        requires { from ≤ limit_of (partial_of self.now) }
        ensures { result ≡ gap_at (partial_of self.now) from }
    {
        let limit = self.limit();
        let start = self.missing_from(from, limit);
        if start < limit {
            let stop = self.held_from(start, limit);
            return Some(Gap {
                so_start: start as u16,
                so_end: self.gap_end(stop),
                stop,
            });
        }
        self.known_end.is_none().then_some(Gap {
            so_start: limit as u16,
            so_end: TO_THE_END,
            stop: limit,
        })
    }
}
