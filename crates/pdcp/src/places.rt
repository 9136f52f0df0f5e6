//! The memory of one packet.

ghost use Rattle.std.specs.Prelude.{◌≡◌, ◌≤◌, length, is_some, Some, None};
ghost use Rattle.protocol.specs.Bytes.{put};
ghost use Rattle.std.specs.Option.{unwrap_or};

use protocol::MAX_PACKET;

/// A packet that was read: at most 500 bytes, which are copied only where it is stored.
#[derive(Clone, Copy)]
pub(crate) struct Packet<'a> {
    pub(crate) bytes: &'a [u8],
    ghost short: { length bytes.now ≤ 500 },
}

/// Room for one packet.
// An array beside a size, and no `Option` of a vector: that is made and moved whole, however short the packet is.
#[derive(Clone, Copy)]
pub(crate) struct Place {
    /// The packet stands at the start.
    bytes: [u8; MAX_PACKET],
    /// None: the place is empty.
    size: Option<usize>,
    ghost wide: { length bytes ≡ 500 },
    ghost inside: { unwrap_or size 0 ≤ 500 },
}

/// Writes `bytes` at the buffer's start.
fn write(buffer: &mut [u8], bytes: &[u8])
    requires { length bytes.now ≤ length buffer.old }
    ensures { buffer.new ≡ put bytes.now buffer.old }
{
    buffer[..bytes.len()].copy_from_slice(bytes);
}

impl Place {
    ghost use Rattle.pdcp.specs.Places.{packet_in, copied_out};

    pub(crate) fn empty() -> Place
        ensures { packet_in result ≡ None }
    {
        Place {
            bytes: [0; MAX_PACKET],
            size: None,
        }
    }

    pub(crate) fn fill(&mut self, packet: &Packet)
        ensures { packet_in self.new ≡ Some packet.now.bytes.now }
    {
        let bytes = packet.bytes;
        write(&mut self.bytes, bytes);
        self.size = Some(bytes.len());
    }

    /// Whether the place holds a packet.
    pub(crate) fn is_full(&self) -> bool
        ensures { result ≡ is_some (packet_in self.now) }
    {
        self.size.is_some()
    }

    /// Writes the packet at the buffer's start, answers its length and empties the place;
    /// none: there is no packet, or it is longer than the buffer.
    pub(crate) fn copy_out(&mut self, buffer: &mut [u8]) -> Option<usize>
        ensures { (result, buffer.new, packet_in self.new) ≡ copied_out (packet_in self.old) buffer.old }
    {
        let size = self.size?;
        if buffer.len() < size {
            return None;
        }
        write(buffer, &self.bytes[..size]);
        self.size = None;
        Some(size)
    }
}
