//! What is printed.

use crate::contents::Content;
use crate::differences::{Comparison, Difference};
use crate::requests::Request;
use std::fmt;

/// The most bytes that are shown of a part.
const SHOWN: usize = 16;

/// Bytes in hexadecimal, of many the first ones and their number.
// Not `hex_digits::Hex`, which prints all of them, and in lower case.
#[derive(Drop)]
struct Hex<'a>(&'a [u8]);

impl fmt::Display for Hex<'_> {
    fn fmt<W: fmt::Write>(&self, f: &mut fmt::Formatter<W>) -> fmt::Result {
        let count = self.0.len();
        if count == 0 {
            return write!(f, "-");
        }
        for byte in self.0.iter().take(SHOWN) {
            write!(f, "{byte:02X}")?;
        }
        if count > SHOWN {
            write!(f, ".. ({count} bytes)")?;
        }
        Ok(())
    }
}

impl fmt::Display for Request {
    fn fmt<W: fmt::Write>(&self, f: &mut fmt::Formatter<W>) -> fmt::Result {
        let end = self.end;
        let bytes = Hex(self.bytes.as_slice());
        write!(f, "{end} {bytes}")
    }
}

impl fmt::Display for Content<'_> {
    fn fmt<W: fmt::Write>(&self, f: &mut fmt::Formatter<W>) -> fmt::Result {
        match self {
            Content::Amd { header, data } => {
                let count = data.bytes.len();
                let unit = if count == 1 { "byte" } else { "bytes" };
                let place = data.place;
                let bytes = Hex(data.bytes);
                write!(
                    f,
                    "{header}, {count} {unit} of data from byte {place} on: {bytes}"
                )
            }
            Content::Status { ack_sn, entries } => {
                let sn = ack_sn.value();
                write!(f, "status report: ACK_SN {sn}")?;
                if entries.is_empty() {
                    return write!(f, ", no NACK");
                }
                for entry in entries {
                    write!(f, ", {entry}")?;
                }
                Ok(())
            }
        }
    }
}

impl fmt::Display for Comparison {
    fn fmt<W: fmt::Write>(&self, f: &mut fmt::Formatter<W>) -> fmt::Result {
        match self {
            Comparison::Equal => f.write_str("equal"),
            Comparison::Length(size) => write!(f, "differs in length: {size} bytes"),
            Comparison::Differs(list) => {
                write!(f, "differs in reserved bits")?;
                let mut mark = ": ";
                for Difference { place, bits } in list {
                    write!(f, "{mark}byte {place} has {bits:02X}")?;
                    mark = ", ";
                }
                Ok(())
            }
        }
    }
}
