//! What a PDU says.

ghost use Rattle.std.specs.Prelude.{◌≡◌, true, length};
ghost use Rattle.protocol.specs.Pdus.{encode_entry};
ghost use Rattle.wire.specs.Views.{entry_of, so_of, header_length};

use crate::entries::Entries;
use crate::numbers::Sn;

/// A part of the bytes read, and the offset at which it begins there.
#[derive(Drop)]
pub struct Part<'a> {
    pub bytes: &'a [u8],
    pub place: usize,
}

/// The bytes of an SDU that an entry of a status report names.
#[derive(Clone, Copy)]
pub enum Missing {
    Every,
    /// From byte `so_start` to byte `so_end`, both included; 0xFFFF is the SDU's last byte.
    Span { so_start: u16, so_end: u16 },
}

/// An entry of a status report.
#[derive(Clone, Copy)]
pub struct Entry {
    pub nack_sn: Sn,
    pub missing: Missing,
}

/// Which bytes of its SDU an AMD PDU carries: those of a segment begin at byte `so`.
#[derive(Clone, Copy)]
pub enum Segment {
    Whole,
    First,
    Middle { so: u16 },
    Last { so: u16 },
}

/// The header of an AMD PDU.
#[derive(Clone, Copy)]
pub struct Header {
    pub poll: bool,
    pub sn: Sn,
    pub segment: Segment,
}

/// A PDU that was read. The data field of an AMD PDU is a part of the bytes read.
// A rule of the project: each kind of PDU is a case, which borrows the data field.
#[derive(Drop)]
pub enum Pdu<'a> {
    Whole {
        poll: bool,
        sn: Sn,
        data: Part<'a>,
    },
    First {
        poll: bool,
        sn: Sn,
        data: Part<'a>,
    },
    Middle {
        poll: bool,
        sn: Sn,
        so: u16,
        data: Part<'a>,
    },
    Last {
        poll: bool,
        sn: Sn,
        so: u16,
        data: Part<'a>,
    },
    Status {
        ack_sn: Sn,
        entries: Entries<'a>,
    },
}

/// An AMD PDU that was read, of whatever kind.
#[derive(Drop)]
pub struct Amd<'a> {
    pub header: Header,
    pub data: Part<'a>,
}

/// A status report that was read.
#[derive(Drop)]
pub struct Status<'a> {
    pub ack_sn: Sn,
    pub entries: Entries<'a>,
}

impl<'a> TryFrom<Pdu<'a>> for Amd<'a> {
    ghost use Rattle.wire.specs.Views.{pdu_of, amd_or_status};

    type Error = Status<'a>;

    ghost try_from_gives = { λ pdu result. amd_or_status result ≡ pdu_of pdu };

    fn try_from(pdu: Pdu<'a>) -> Result<Amd<'a>, Status<'a>> {
        let (poll, sn, segment, data) = match pdu {
            Pdu::Whole { poll, sn, data } => (poll, sn, Segment::Whole, data),
            Pdu::First { poll, sn, data } => (poll, sn, Segment::First, data),
            Pdu::Middle { poll, sn, so, data } => (poll, sn, Segment::Middle { so }, data),
            Pdu::Last { poll, sn, so, data } => (poll, sn, Segment::Last { so }, data),
            Pdu::Status { ack_sn, entries } => return Err(Status { ack_sn, entries }),
        };
        let header = Header { poll, sn, segment };
        Ok(Amd { header, data })
    }
}

impl Entry {
    /// How many bytes it has in a status report.
    pub fn size(self) -> usize
        ensures { result ≡ length (encode_entry true (entry_of self)) }
    {
        match self.missing {
            Missing::Every => 2,
            Missing::Span { .. } => 6,
        }
    }
}

impl Segment {
    /// SO, which a middle and a last segment have.
    pub fn so(self) -> Option<u16>
        ensures { result ≡ so_of self }
    {
        match self {
            Segment::Whole | Segment::First => None,
            Segment::Middle { so } | Segment::Last { so } => Some(so),
        }
    }

    /// How many bytes stand before the data.
    pub(crate) fn header_length(self) -> usize
        ensures { result ≡ header_length self }
    {
        match self {
            Segment::Whole | Segment::First => 2,
            Segment::Middle { .. } | Segment::Last { .. } => 4,
        }
    }
}
