//! The reader of received PDUs.

ghost use Rattle.std.specs.Prelude.{◌≡◌, ◌<◌, length, IfOk};
ghost use Rattle.protocol.specs.Reading.{decode, read_amd, read_status};
ghost use Rattle.wire.specs.Views.{header_length, segment_in, segment_read, read_of, Placed};

use crate::bits::{has_bit, word};
use crate::entries::{Entries, check_entries};
use crate::numbers::Sn;
use crate::pdus::{Part, Pdu, Segment};
use protocol::{End, Fault, Refusal};

/// The P bit of an AMD PDU's first byte.
const POLL: u32 = 6;

/// The E1 bit of a status report's third byte.
const E1: u32 = 7;

/// A received PDU, and the end that reads it.
#[derive(Drop)]
pub struct Reader<'a> {
    pub end: End,
    pub bytes: &'a [u8],
}

/// The segment that an AMD PDU carries, whose header and first byte of data are there.
fn find_segment(bytes: &[u8]) -> Result<Segment, Fault>
    ensures value { segment_read result ≡ segment_in bytes.now }
    ensures room { IfOk result (λ segment. header_length segment < length bytes.now) }
{
    let size = bytes.len();
    if size <= 2 {
        return Err(Refusal::Malformed.at(size));
    }
    // SI and SO make the segment together, so no conversion of SI alone does.
    let si = bytes[0] / 16 % 4;
    if si >= 2 && size <= 4 {
        return Err(Refusal::Malformed.at(size));
    }
    Ok(match si {
        0 => Segment::Whole,
        1 => Segment::First,
        2 => Segment::Last { so: word(bytes, 2) },
        _ => Segment::Middle { so: word(bytes, 2) },
    })
}

// Where the data stands is a fact about what was read and the bytes it was read from: each reader says it by name.

/// An AMD PDU, whose D/C bit was looked at.
fn read_amd<'a>(bytes: &'a [u8]) -> Result<Pdu<'a>, Fault>
    ensures value { read_of result ≡ read_amd bytes.now }
    ensures places { Placed bytes.now result }
{
    let segment = find_segment(bytes)?;
    let place = segment.header_length();
    let part = &bytes[place..];
    segment.check_offset(part.len())?;
    let poll = has_bit(bytes[0], POLL);
    let sn = Sn::new(word(bytes, 0));
    let data = Part { bytes: part, place };
    Ok(match segment {
        Segment::Whole => Pdu::Whole { poll, sn, data },
        Segment::First => Pdu::First { poll, sn, data },
        Segment::Middle { so } => Pdu::Middle { poll, sn, so, data },
        Segment::Last { so } => Pdu::Last { poll, sn, so, data },
    })
}

/// A status report, whose D/C bit and CPT were looked at.
fn read_status<'a>(bytes: &'a [u8]) -> Result<Pdu<'a>, Fault>
    ensures value { read_of result ≡ read_status bytes.now }
    ensures places { Placed bytes.now result }
{
    let size = bytes.len();
    if size < 3 {
        return Err(Refusal::Malformed.at(size));
    }
    let ack_sn = Sn::new(word(bytes, 0));
    let more = has_bit(bytes[2], E1);
    check_entries(bytes, ack_sn, more)?;
    let rest = more.then_some(&bytes[3..]);
    Ok(Pdu::Status {
        ack_sn,
        entries: Entries { rest },
    })
}

impl<'a> Reader<'a> {
    /// The PDU, or its first fault.
    pub fn read(self) -> Result<Pdu<'a>, Fault>
        ensures value { read_of result ≡ decode self.entry.end self.entry.bytes.now }
        ensures places { Placed self.entry.bytes.now result }
    {
        let Reader { end, bytes } = self;
        if bytes.is_empty() {
            return Err(Refusal::WrongKind.at(0));
        }
        match end {
            End::Near if bytes[0] < 16 => read_status(bytes),
            End::Far if bytes[0] >= 128 => read_amd(bytes),
            _ => Err(Refusal::WrongKind.at(0)),
        }
    }
}
