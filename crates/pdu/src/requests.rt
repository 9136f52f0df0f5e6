//! The lines of the input.

use hex_digits::{BadHex, decode};
use std::alloc::Global;
use thiserror::Error;
use wire::End;

/// What a line asks for: the bytes of a PDU, and the end that is to read them.
#[derive(Drop)]
pub(crate) struct Request {
    pub(crate) end: End,
    pub(crate) bytes: Vec<u8>,
}

/// Why a line is not answered.
#[derive(Debug, Drop, Error)]
pub(crate) enum BadLine {
    #[error("unknown end, neither near nor far")]
    UnknownEnd,
    #[error("no bytes after the end")]
    NoBytes,
    #[error("more than two words")]
    MoreWords,
    #[error(transparent)]
    Digits(#[from] BadHex),
}

impl Request {
    /// The request of a line; none if the line is empty.
    pub(crate) fn parse(heap: Global, line: &str) -> Result<Option<Request>, BadLine> {
        let mut words = line.split_whitespace();
        let end = match words.next() {
            None => return Ok(None),
            Some("near") => End::Near,
            Some("far") => End::Far,
            Some(_) => return Err(BadLine::UnknownEnd),
        };
        let bytes = match words.next().ok_or(BadLine::NoBytes)? {
            "-" => Vec::new(heap),
            digits => decode(heap, digits.as_bytes())?,
        };
        match words.next() {
            None => Ok(Some(Request { end, bytes })),
            Some(_) => Err(BadLine::MoreWords),
        }
    }
}
