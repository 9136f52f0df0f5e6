//! Why a call is refused, and where.

ghost use Rattle.std.specs.Prelude.{◌≡◌};
ghost use Rattle.protocol.specs.Refusals.{number, layer, at};

use std::fmt;

/// The end of the link that reads a PDU.
#[derive(Clone, Copy)]
pub enum End {
    /// Sends data, reads status reports.
    Near,
    /// Receives data, sends status reports.
    Far,
}

#[derive(Clone, Copy)]
pub enum Layer {
    Rlc,
    Pdcp,
    Link,
}

/// The grounds of a refusal, in the order in which they are checked.
#[derive(Clone, Copy, Debug)]
pub enum Refusal {
    /// The link has failed.
    LinkFailed,
    /// A packet's length is outside 1 to 500.
    PacketLength,
    /// The transmitting window has no room.
    WindowFull,
    /// All packets that a link may carry were accepted.
    PacketLimit,
    /// A grant's size is outside 5 to 512.
    GrantSize,
    /// The buffer is too short.
    ShortBuffer,
    /// A packet waits to be collected.
    PacketDue,
    /// The PDU is empty or of a kind that this end does not read.
    WrongKind,
    /// The PDU ends too early or too late.
    Malformed,
    /// The segment offset is 0, or the data passes the longest SDU.
    Offset,
    /// The PDU contradicts what is known of the SDU's end, or numbers an SDU past the limit.
    EndClash,
    /// An entry of a status report is invalid.
    InvalidEntry,
    /// The SDU is too short or no PDCP data PDU.
    NotPdcpData,
    /// The COUNT is out of range.
    CountRange,
    /// The buffer is shorter than the packet to collect.
    ShortCollect,
    /// A setting is out of range.
    Setting,
}

impl Refusal {
    /// This refusal, of the byte at `place`.
    pub fn at(self, place: usize) -> Fault
        ensures { result ≡ at self place }
    {
        Fault {
            refusal: self,
            place,
        }
    }

    pub fn number(self) -> u8
        ensures { result ≡ number self }
    {
        self as u8 + 1
    }

    pub fn layer(self) -> Layer
        ensures { result ≡ layer self }
    {
        match self {
            Refusal::PacketLength
            | Refusal::PacketLimit
            | Refusal::NotPdcpData
            | Refusal::CountRange
            | Refusal::ShortCollect => Layer::Pdcp,
            Refusal::Setting => Layer::Link,
            _ => Layer::Rlc,
        }
    }
}

/// A refusal with the place that it is about, a byte's offset in the PDU.
#[derive(Clone, Copy, Debug)]
pub struct Fault {
    pub refusal: Refusal,
    pub place: usize,
}

impl fmt::Display for End {
    fn fmt<W: fmt::Write>(&self, f: &mut fmt::Formatter<W>) -> fmt::Result {
        f.write_str(match self {
            End::Near => "near",
            End::Far => "far",
        })
    }
}

impl fmt::Display for Layer {
    fn fmt<W: fmt::Write>(&self, f: &mut fmt::Formatter<W>) -> fmt::Result {
        f.write_str(match self {
            Layer::Rlc => "RLC",
            Layer::Pdcp => "PDCP",
            Layer::Link => "link",
        })
    }
}

impl fmt::Display for Refusal {
    fn fmt<W: fmt::Write>(&self, f: &mut fmt::Formatter<W>) -> fmt::Result {
        f.write_str(match self {
            Refusal::LinkFailed => "the link has failed",
            Refusal::PacketLength => "a packet's length is outside 1 to 500",
            Refusal::WindowFull => "the transmitting window has no room",
            Refusal::PacketLimit => "all packets that a link may carry were accepted",
            Refusal::GrantSize => "a grant's size is outside 5 to 512",
            Refusal::ShortBuffer => "the buffer is too short",
            Refusal::PacketDue => "a packet waits to be collected",
            Refusal::WrongKind => "empty, or of a kind that this end does not read",
            Refusal::Malformed => "it ends too early or too late",
            Refusal::Offset => "SO is 0, or the data passes byte 501",
            Refusal::EndClash => "it contradicts what is known of the SDU's end",
            Refusal::InvalidEntry => "an entry is invalid",
            Refusal::NotPdcpData => "too short, or no PDCP data",
            Refusal::CountRange => "the COUNT is out of range",
            Refusal::ShortCollect => "the buffer is shorter than the packet",
            Refusal::Setting => "a setting is out of range",
        })
    }
}
