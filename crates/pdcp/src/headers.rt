//! The reader of PDCP's data header.

ghost use Rattle.std.specs.Prelude.{◌≡◌};
ghost use Rattle.pdcp.specs.Headers.{read_of, Placed};
ghost use Rattle.protocol.specs.Reading.{decode_pdcp};

use protocol::{Fault, Refusal};
use wire::{Part, Sn};

/// The D/C bit of a data PDU's first byte.
const DATA: u8 = 128;

/// The header's length.
const HEADER: usize = 2;

/// A data PDU that was read. Its packet is a part of the bytes read.
#[derive(Drop)]
pub struct DataPdu<'a> {
    pub sn: Sn,
    pub packet: Part<'a>,
}

/// An SDU's number and packet; refused without a byte of packet, or with D/C 0.
pub fn read_data<'a>(sdu: &'a [u8]) -> Result<DataPdu<'a>, Fault>
    ensures value { read_of result ≡ decode_pdcp sdu.now }
    ensures places { Placed sdu.now result }
{
    if sdu.len() <= HEADER || sdu[0] < DATA {
        return Err(Refusal::NotPdcpData.at(0));
    }
    let sn = Sn::new(u16::from_be_bytes([sdu[0], sdu[1]]));
    let packet = Part {
        bytes: &sdu[HEADER..],
        place: HEADER,
    };
    Ok(DataPdu { sn, packet })
}
