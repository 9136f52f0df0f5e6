//! The writer of AMD PDUs.

ghost use Rattle.std.specs.Prelude.{◌≡◌, ◌+◌, ◌≤◌, length, Ok};
ghost use Rattle.protocol.specs.Bytes.{put_at};
ghost use Rattle.protocol.specs.Pdus.{amd};
ghost use Rattle.protocol.specs.Reading.{offset_fault};
ghost use Rattle.protocol.specs.Refusals.{unless};
ghost use Rattle.protocol.specs.Writing.{data_fault, write};
ghost use Rattle.wire.specs.Views.{segment_of, amd_of, header_bytes};

use crate::pdus::{Header, Segment};
use protocol::{Fault, MAX_SDU, Refusal};

/// Writes `bytes` from byte `at` of the buffer on.
pub(crate) fn put_bytes(buffer: &mut [u8], at: usize, bytes: &[u8])
    requires { at + length bytes.now ≤ length buffer.old }
    ensures { buffer.new ≡ put_at at bytes.now buffer.old }
{
    let end = at + bytes.len();
    buffer[at..end].copy_from_slice(bytes);
}

/// Writes a header at the buffer's start.
fn put_header(buffer: &mut [u8], header: Header)
    requires { length (header_bytes header) ≤ length buffer.old }
    ensures { buffer.new ≡ put_at 0 (header_bytes header) buffer.old }
{
    let si = match header.segment {
        Segment::Whole => 0,
        Segment::First => 1,
        Segment::Last { .. } => 2,
        Segment::Middle { .. } => 3,
    };
    let [high, low] = header.sn.value().to_be_bytes();
    let first = 128 + 64 * u8::from(header.poll) + 16 * si + high;
    match header.segment.so() {
        None => put_bytes(buffer, 0, &[first, low]),
        Some(so) => {
            let [so_high, so_low] = so.to_be_bytes();
            put_bytes(buffer, 0, &[first, low, so_high, so_low]);
        }
    }
}

impl Segment {
    /// Whether an SDU can have this many bytes at the segment's offset.
    pub(crate) fn check_offset(self, length: usize) -> Result<(), Fault>
        ensures { result ≡ unless (offset_fault (segment_of self) length) (Ok tt) }
    {
        match self.so() {
            None if length > MAX_SDU => Err(Refusal::Offset.at(0)),
            Some(so) if so == 0 || length > MAX_SDU || usize::from(so) + length > MAX_SDU => {
                Err(Refusal::Offset.at(2))
            }
            _ => Ok(()),
        }
    }

    /// The same of the data of a PDU to be written, of which there must be some.
    fn check_data(self, length: usize) -> Result<(), Fault>
        ensures { result ≡ unless (data_fault (segment_of self) length) (Ok tt) }
    {
        if length == 0 {
            return Err(Refusal::Malformed.at(self.header_length()));
        }
        self.check_offset(length)
    }
}

/// Writes an AMD PDU at the buffer's start, and answers its length.
pub fn write_amd(header: Header, data: &[u8], buffer: &mut [u8]) -> Result<usize, Fault>
    ensures { (result, buffer.new) ≡ write (amd (amd_of header «data».now)) buffer.old }
{
    let start = header.segment.header_length();
    let room = buffer.len();
    if room < start || room - start < data.len() {
        return Err(Refusal::ShortBuffer.at(0));
    }
    header.segment.check_data(data.len())?;
    put_header(buffer, header);
    put_bytes(buffer, start, data);
    Ok(start + data.len())
}
