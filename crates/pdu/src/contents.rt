//! PDUs as they are shown and written back.

ghost use Rattle.std.specs.Prelude.{◌≡◌};
ghost use Rattle.pdu.specs.Shown.{Reads};
ghost use Rattle.pdu.specs.declared.contents.Failure.TheVariants.{Refused, NoMemory};
ghost use Rattle.protocol.specs.Reading.{decode};

use crate::differences::Comparison;
use crate::requests::Request;
use std::alloc::{AllocError, Global};
use thiserror::Error;
use wire::{Amd, Draft, Entry, Fault, Header, Part, Reader, Sn, Status, write_amd};

/// A PDU that was read.
#[derive(Drop)]
pub(crate) enum Content<'a> {
    Amd { header: Header, data: Part<'a> },
    Status { ack_sn: Sn, entries: Vec<Entry> },
}

/// Why a PDU is not shown, or not written back.
#[derive(Debug, Drop, Error)]
pub(crate) enum Failure {
    #[error("refused by {} ({}) at byte {}: {}", .0.refusal.number(), .0.refusal.layer(), .0.place, .0.refusal)]
    Refused(Fault),
    #[error("no memory")]
    NoMemory,
}

impl From<Fault> for Failure {
    ghost from_gives = { λ fault r. r ≡ Refused fault };

    fn from(fault: Fault) -> Failure {
        Failure::Refused(fault)
    }
}

impl From<AllocError> for Failure {
    ghost from_gives = { λ _ r. r ≡ NoMemory };

    fn from(_: AllocError) -> Failure {
        Failure::NoMemory
    }
}

/// Writes a status report at the buffer's start, and answers its length.
fn write_status(ack_sn: Sn, entries: &[Entry], buffer: &mut [u8]) -> Result<usize, Fault> {
    let mut draft = Draft::open();
    for entry in entries {
        draft.add(*entry, buffer)?;
    }
    Ok(draft.close(ack_sn, buffer)?.size())
}

impl<'a> Content<'a> {
    pub(crate) fn read(heap: Global, request: &'a Request) -> Result<Content<'a>, Failure>
        ensures { Reads (decode request.now.end request.now.bytes.items) result }
    {
        let reader = Reader {
            end: request.end,
            bytes: request.bytes.as_slice(),
        };
        Ok(match Amd::try_from(reader.read()?) {
            Ok(Amd { header, data }) => Content::Amd { header, data },
            Err(Status { ack_sn, entries }) => Content::Status {
                ack_sn,
                entries: entries.collect(heap)?,
            },
        })
    }

    /// Writes the PDU into a buffer of its own, as long as the bytes read, and compares the two.
    pub(crate) fn write_back(&self, heap: Global, bytes: &[u8]) -> Result<Comparison, Failure> {
        let mut buffer = vec![in heap; 0; bytes.len()]?;
        let size = match self {
            Content::Amd { header, data } => write_amd(*header, data.bytes, buffer.as_mut_slice())?,
            Content::Status { ack_sn, entries } => {
                write_status(*ack_sn, entries.as_slice(), buffer.as_mut_slice())?
            }
        };
        buffer.truncate(size);
        Ok(Comparison::new(heap, buffer.as_slice(), bytes)?)
    }
}
