//! A status report as it is built, entry by entry: plain numbers, while its bytes are in a buffer that is lent
//! for each step.

ghost use Rattle.std.specs.Prelude.{◌≡◌, ◌+◌, ◌<◌, ◌≤◌, true, length};
ghost use Rattle.protocol.specs.Drafts.{opened, add, close};
ghost use Rattle.protocol.specs.Pdus.{encode_entry};
ghost use Rattle.protocol.specs.Bytes.{put_at};
ghost use Rattle.protocol.specs.Reading.{decode};
ghost use Rattle.protocol.specs.declared.faults.End.TheVariants.{Near};
ghost use Rattle.wire.specs.Counts.{sn_of};
ghost use Rattle.wire.specs.Headers.{headed, ended};
ghost use Rattle.wire.specs.Views.{entry_of, checked};

use crate::entries::in_order;
use crate::numbers::Sn;
use crate::pdus::{Entry, Missing};
use crate::reading::Reader;
use crate::writing::put_bytes;
use protocol::{End, Fault, Refusal};

/// A status report that takes entries.
// A rule of the project: plain numbers, with the buffer lent for each step.
#[derive(Drop)]
pub struct Draft {
    /// The bytes that it has so far.
    pub(crate) size: usize,
    /// Where its last entry begins, once there is one.
    pub(crate) last: usize,
    ghost headed: { 3 ≤ size },
    ghost inside: { last + 2 ≤ size },
    ghost behind: { (3 < size → 3 ≤ last) },
}

/// A status report that is complete: the first `size` bytes of its buffer.
#[derive(Drop)]
pub struct Closed {
    pub(crate) size: usize,
}

/// Why a draft is not closed, and the draft, which stays open.
#[derive(Drop)]
pub struct NotClosed {
    pub fault: Fault,
    pub draft: Draft,
}

impl From<NotClosed> for Fault {
    ghost from_gives = { λ refused fault. fault ≡ refused.fault };

    fn from(refused: NotClosed) -> Fault {
        refused.fault
    }
}

impl Closed {
    /// The report's length: it is the first `size` bytes of the buffer that it was closed in.
    pub fn size(&self) -> usize
        ensures { result ≡ self.now.size }
    {
        self.size
    }
}

/// Writes an entry from byte `place` on, with E1 set.
fn put_entry(buffer: &mut [u8], place: usize, entry: Entry)
    requires { place + length (encode_entry true (entry_of entry)) ≤ length buffer.old }
    ensures { buffer.new ≡ put_at place (encode_entry true (entry_of entry)) buffer.old }
{
    let number = entry.nack_sn.value();
    let first = (number / 16) as u8;
    let second = (number % 16) as u8 * 16 + 8;
    match entry.missing {
        Missing::Every => put_bytes(buffer, place, &[first, second]),
        Missing::Span { so_start, so_end } => {
            let [a, b] = so_start.to_be_bytes();
            let [c, d] = so_end.to_be_bytes();
            put_bytes(buffer, place, &[first, second + 4, a, b, c, d]);
        }
    }
}

/// Writes a status report's header; `more` says that entries follow.
fn put_header(buffer: &mut [u8], ack_sn: Sn, more: bool)
    requires { 3 ≤ length buffer.old }
    ensures { buffer.new ≡ headed (sn_of ack_sn) more buffer.old }
{
    let [high, low] = ack_sn.value().to_be_bytes();
    let e1 = 128 * u8::from(more);
    put_bytes(buffer, 0, &[high, low, e1]);
}

/// Clears E1 of the entry at `place`: no other follows.
fn end_entries(buffer: &mut [u8], place: usize)
    requires { place + 1 < length buffer.old }
    ensures { buffer.new ≡ ended place buffer.old }
{
    let flags = buffer[place + 1];
    buffer[place + 1] = flags - flags / 8 % 2 * 8;
}

/// Whether the near end reads these bytes as a status report.
fn check_status(bytes: &[u8]) -> Result<(), Fault>
    ensures { result ≡ checked (decode Near bytes.now) }
{
    let end = End::Near;
    // Neither `?` nor `map`: the borrow checker does not cover letting a PDU go there.
    match (Reader { end, bytes }).read() {
        Ok(_) => Ok(()),
        Err(fault) => Err(fault),
    }
}

impl Draft {
    ghost use Rattle.wire.specs.Drafted.{draft_of, added, closing};

    /// A draft with no entry.
    pub fn open() -> Draft
        ensures { draft_of result ≡ opened }
    {
        Draft { size: 3, last: 0 }
    }

    /// Adds an entry behind the others.
    pub fn add(&mut self, entry: Entry, buffer: &mut [u8]) -> Result<(), Fault>
        ensures { added result (draft_of self.new) buffer.new ≡ add (entry_of entry) (draft_of self.old) buffer.old }
    {
        let length = entry.size();
        let place = self.size;
        let room = buffer.len();
        if room < place || room - place < length {
            return Err(Refusal::ShortBuffer.at(0));
        }
        if !in_order(entry.missing) {
            return Err(Refusal::InvalidEntry.at(place));
        }
        put_entry(buffer, place, entry);
        *self = Draft {
            size: place + length,
            last: place,
        };
        Ok(())
    }

    /// Writes the header and ends the entries, if the near end then reads the report.
    pub fn close(self, ack_sn: Sn, buffer: &mut [u8]) -> Result<Closed, NotClosed>
        ensures { closing (draft_of self) result buffer.new ≡ close (sn_of ack_sn) (draft_of self) buffer.old }
    {
        let size = self.size;
        if buffer.len() < size {
            return Err(NotClosed {
                fault: Refusal::ShortBuffer.at(0),
                draft: self,
            });
        }
        if size == 3 {
            put_header(buffer, ack_sn, false);
            return Ok(Closed { size });
        }
        self.close_entries(ack_sn, buffer)
    }

    fn close_entries(self, ack_sn: Sn, buffer: &mut [u8]) -> Result<Closed, NotClosed>
        requires { (3 < self.size) × (self.size ≤ length buffer.old) }
        ensures { closing (draft_of self) result buffer.new ≡ close (sn_of ack_sn) (draft_of self) buffer.old }
    {
        let size = self.size;
        let place = self.last;
        let header = [buffer[0], buffer[1], buffer[2]];
        let flags = buffer[place + 1];
        end_entries(buffer, place);
        put_header(buffer, ack_sn, true);
        match check_status(&buffer[..size]) {
            Ok(()) => Ok(Closed { size }),
            Err(fault) => {
                put_bytes(buffer, 0, &header);
                buffer[place + 1] = flags;
                Err(NotClosed { fault, draft: self })
            }
        }
    }
}
