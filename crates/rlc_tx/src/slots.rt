//! The place of an SDU in the window.

ghost use Rattle.std.specs.Prelude.{◌≡◌, ℕ, ◌+◌, ◌-◌, ◌<◌, ◌≤◌, true, false, ◌&&◌, ◌||◌, not, length, take, drop, if◌then◌else◌, nat_eq, nat_le, nat_lt};
ghost use Rattle.protocol.specs.Pdus.{encode_pdcp};
ghost use Rattle.protocol.specs.Sending.{acknowledge, exhausted, has, byte_from, is_pending, is_unsent, names_byte, newly_pending, segment_at, sent_run, unsent_sdu};
ghost use Rattle.rlc_tx.specs.Considered.{counted_once, has_counted, considered_next};
ghost use Rattle.rlc_tx.specs.Marks.{Begun, Unbegun, NoneBelow, pending_in, bounded};
ghost use Rattle.wire.specs.Counts.{count_of, sn_of};
ghost use Rattle.wire.specs.Views.{missing_of, segment_of};

use crate::marks::{Mark, count_front, replace};
use crate::plans::Run;
use protocol::MAX_SDU;
use std::ops::Range;
use wire::{Missing, RlcCount, Segment, Sn};

/// An SDU of the window, and what became of its bytes.
// A rule of the project: an SDU's bytes are an array that starts as zeros, with their number beside it.
#[derive(Clone, Copy)]
pub(crate) struct Slot {
    /// Its bytes, the first `size` of these.
    bytes: [u8; MAX_SDU],
    size: usize,
    /// Of each byte, beside the bytes and not in pairs with them: a PDU copies its bytes as a slice.
    marks: [Mark; MAX_SDU],
    /// How many bytes were sent. They are the first ones, since bytes are sent in their order.
    sent: usize,
    /// How many of them are pending.
    pending: usize,
    /// No byte before this one is pending.
    low: usize,
    acknowledged: bool,
    /// None: it was never considered for retransmission.
    retx_count: Option<u16>,
    ghost stored: { length bytes ≡ 502 },
    ghost placed: { length marks ≡ 502 },
    ghost short: { size ≤ 502 },
    ghost within: { sent ≤ size },
    ghost begun: { Begun marks sent },
    ghost unbegun: { Unbegun marks sent },
    ghost counted: { pending ≡ pending_in marks },
    ghost low_begun: { low ≤ sent },
    ghost none_below: { NoneBelow marks low },
    ghost few: { bounded acknowledged pending retx_count ≡ true },
}

/// What a grant leaves for data that begins at this byte of its SDU: the header has an SO unless that is the first.
fn room(grant: usize, from: usize) -> usize
    ensures { result ≡ grant - (if nat_eq from 0 then 2 else 4) }
{
    let header = if from == 0 { 2 } else { 4 };
    grant.saturating_sub(header)
}

/// RETX_COUNT after an entry was considered: the first time sets it to 0, and later bytes that newly become pending
/// raise it, unless its report has changed it before.
fn raised(retx_count: Option<u16>, counted: bool, newly: bool) -> Option<u16>
    requires { bounded false 502 retx_count ≡ true }
    ensures { result ≡ counted_once counted retx_count newly }
{
    if counted {
        return retx_count;
    }
    Some(retx_count.map_or(0, |count| count + u16::from(newly)))
}

/// Whether a report has changed RETX_COUNT, before an entry was considered or with it.
fn has_changed(retx_count: Option<u16>, counted: bool, newly: bool) -> bool
    ensures { result ≡ has_counted counted retx_count newly }
{
    counted || retx_count.is_none_or(|_| newly)
}

impl Slot {
    ghost use Rattle.rlc_tx.specs.Plans.{run_of, run_at, Leads};
    ghost use Rattle.rlc_tx.specs.Slots.{sdu_of};

    /// An SDU of which nothing was sent: the first `size` of these bytes.
    fn unsent(bytes: [u8; MAX_SDU], size: usize) -> Slot
        requires { size ≤ 502 }
        ensures { sdu_of result ≡ unsent_sdu (take size bytes) }
    {
        Slot {
            bytes,
            size,
            marks: [Mark::Unsent; MAX_SDU],
            sent: 0,
            pending: 0,
            low: 0,
            acknowledged: false,
            retx_count: None,
        }
    }

    /// A place that no SDU has.
    pub(crate) fn empty() -> Slot {
        Slot::unsent([0; MAX_SDU], 0)
    }

    /// The SDU of a packet, with its PDCP header.
    pub(crate) fn new(sn: Sn, packet: &[u8]) -> Slot
        requires { length packet.now ≤ 500 }
        ensures { sdu_of result ≡ unsent_sdu (encode_pdcp (sn_of sn) packet.now) }
    {
        let [high, low] = sn.value().to_be_bytes();
        let size = 2 + packet.len();
        let mut bytes = [0; MAX_SDU];
        bytes[0] = 128 + high;
        bytes[1] = low;
        bytes[2..size].copy_from_slice(packet);
        Slot::unsent(bytes, size)
    }

    pub(crate) fn has_pending(&self) -> bool
        ensures { result ≡ has is_pending (sdu_of self.now) }
    {
        self.pending > 0
    }

    pub(crate) fn has_unsent(&self) -> bool
        ensures { result ≡ has is_unsent (sdu_of self.now) }
    {
        self.sent < self.size
    }

    /// A byte of it was sent.
    pub(crate) fn is_begun(&self) -> bool
        ensures { result ≡ has (λ m. not (is_unsent m)) (sdu_of self.now) }
    {
        self.sent > 0
    }

    /// How many of its bytes are to be sent.
    pub(crate) fn left(&self) -> usize
        ensures { result ≡ self.now.pending + (self.now.size - self.now.sent) }
    {
        self.pending + (self.size - self.sent)
    }

    /// Something of it is to be sent.
    pub(crate) fn has_left(&self) -> bool
        ensures { result ≡ has (λ m. is_unsent m || is_pending m) (sdu_of self.now) }
    {
        self.left() > 0
    }

    /// RETX_COUNT has reached maxRetx.
    pub(crate) fn is_exhausted(&self, max_retx: u8) -> bool
        ensures { result ≡ exhausted max_retx self.now.retx_count }
    {
        self.retx_count
            .is_some_and(|count| count >= u16::from(max_retx))
    }

    pub(crate) fn is_acknowledged(&self) -> bool
        ensures { result ≡ self.now.acknowledged }
    {
        self.acknowledged
    }

    fn first_pending(&self) -> usize
        requires { has is_pending (sdu_of self.now) ≡ true }
        ensures value { result ≡ byte_from is_pending (sdu_of self.now) 0 }
        ensures within { result < self.now.size }
    {
        self.low + count_front(&self.marks[self.low..self.sent], Mark::Sent)
    }

    /// The first run of pending bytes that a grant holds.
    pub(crate) fn pending_run(&self, count: RlcCount, grant: usize) -> Run
        requires { has is_pending (sdu_of self.now) ≡ true }
        ensures { run_of result ≡ run_at false is_pending (sdu_of self.now) grant (count_of count) }
    {
        let from = self.first_pending();
        let most = room(grant, from).min(self.size - from);
        let end = from + most;
        Run {
            count,
            from,
            size: count_front(&self.marks[from..end], Mark::Pending),
            new: false,
        }
    }

    /// The first run of unsent bytes that a grant holds.
    pub(crate) fn unsent_run(&self, count: RlcCount, grant: usize) -> Run
        ensures { run_of result ≡ run_at true is_unsent (sdu_of self.now) grant (count_of count) }
    {
        let from = self.sent;
        Run {
            count,
            from,
            size: room(grant, from).min(self.size - from),
            new: true,
        }
    }

    // That a run leads the bytes of its kind is a fact about both, and so asked by name.
    /// Which segment of it a run is.
    pub(crate) fn segment(&self, run: Run) -> Segment
        requires { Leads (run_of run) (sdu_of self.now) }
        ensures { segment_of result ≡ segment_at run.from run.size (length (sdu_of self.now).bytes) }
    {
        let so = run.from as u16;
        match (run.from == 0, run.from + run.size == self.size) {
            (true, true) => Segment::Whole,
            (true, false) => Segment::First,
            (false, true) => Segment::Last { so },
            (false, false) => Segment::Middle { so },
        }
    }

    /// The bytes of a run.
    pub(crate) fn data(&self, run: Run) -> &[u8]
        requires { Leads (run_of run) (sdu_of self.now) }
        ensures { result.now ≡ take run.size (drop run.from (sdu_of self.now).bytes) }
    {
        let Run { from, size, .. } = run;
        let to = from + size;
        &self.bytes[from..to]
    }

    /// A run of its bytes was sent. What is sent again was not sent too often before.
    pub(crate) fn send(&mut self, run: Run)
        requires front { Leads (run_of run) (sdu_of self.old) }
        requires few { bounded self.old.acknowledged 0 self.old.retx_count ≡ true }
        ensures { sdu_of self.new ≡ sent_run (run_of run) (sdu_of self.old) }
    {
        let Run {
            from,
            size,
            new,
            ..
        } = run;
        let to = from + size;
        if new {
            replace(&mut self.marks[from..to], Mark::Unsent, Mark::Sent);
            self.sent = to;
        } else {
            self.pending -= replace(&mut self.marks[from..to], Mark::Pending, Mark::Sent);
            self.low = to;
        }
    }

    /// The bytes sent that an entry names.
    fn named(&self, missing: Missing) -> Range<usize>
        ensures from { result.start ≤ result.end }
        ensures to { result.end ≤ self.now.sent }
        ensures names { (i : ℕ) → i < self.now.sent → (nat_le result.start i && nat_lt i result.end) ≡ names_byte (missing_of missing) i }
    {
        match missing {
            Missing::Every => 0..self.sent,
            Missing::Span { so_start, so_end } => {
                let to = (usize::from(so_end) + 1).min(self.sent);
                to.min(usize::from(so_start))..to
            }
        }
    }

    /// The named bytes that were sent become pending. Answers whether the report, which `counted` says
    /// it has before, has now changed RETX_COUNT: one report does so at most once.
    pub(crate) fn consider(&mut self, missing: Missing, counted: bool) -> bool
        requires { self.old.acknowledged ≡ false }
        ensures after { sdu_of self.new ≡ considered_next counted (names_byte (missing_of missing)) (sdu_of self.old) }
        ensures done { result ≡ has_counted counted self.old.retx_count (newly_pending (names_byte (missing_of missing)) (sdu_of self.old)) }
    {
        let Range { start, end } = self.named(missing);
        let newly = replace(&mut self.marks[start..end], Mark::Sent, Mark::Pending);
        let done = has_changed(self.retx_count, counted, newly > 0);
        self.retx_count = raised(self.retx_count, counted, newly > 0);
        self.pending += newly;
        self.low = self.low.min(start);
        done
    }

    /// Nothing of it is pending any more.
    pub(crate) fn acknowledge(&mut self)
        ensures { sdu_of self.new ≡ acknowledge (sdu_of self.old) }
    {
        self.acknowledged = true;
        if self.pending > 0 {
            let (low, sent) = (self.low, self.sent);
            self.pending -= replace(&mut self.marks[low..sent], Mark::Pending, Mark::Sent);
        }
    }
}
