//! The lines of a script.

use hex_digits::{BadHex, decode};
use std::alloc::Global;
use std::str::FromStr;
use thiserror::Error;

/// The kinds of air that a script names.
#[derive(Clone, Copy, Debug, PartialEq, Eq)]
pub(crate) enum Kind {
    Pipe,
    Pool,
}

#[derive(Drop)]
pub(crate) enum Command {
    Start { kind: Kind, mask: u64 },
    Put(Vec<u8>),
    Skip,
    Take(u16),
}

/// Why a line is no command.
#[derive(Clone, Copy, Debug, PartialEq, Eq, Error)]
pub(crate) enum BadLine {
    #[error("too many words")]
    MoreWords,
    #[error("a line is air KIND MASK, put BYTES, skip or take DRAW")]
    UnknownVerb,
    #[error("an air is pipe or pool")]
    UnknownKind,
    #[error("the mask has 1 to 16 hexadecimal digits")]
    BadMask,
    #[error("put takes bytes, two hexadecimal digits each")]
    BadBytes,
    #[error("take takes a draw, 0 to 65535")]
    BadDraw,
    #[error("no memory")]
    NoMemory,
}

impl From<BadHex> for BadLine {
    fn from(bad: BadHex) -> BadLine {
        match bad {
            BadHex::NoMemory => BadLine::NoMemory,
            BadHex::OddDigits | BadHex::BadDigit => BadLine::BadBytes,
        }
    }
}

impl FromStr for Kind {
    type Err = BadLine;

    fn from_str(word: &str) -> Result<Kind, BadLine> {
        match word {
            "pipe" => Ok(Kind::Pipe),
            "pool" => Ok(Kind::Pool),
            _ => Err(BadLine::UnknownKind),
        }
    }
}

impl Command {
    /// The command of a line.
    pub(crate) fn parse(heap: Global, line: &str) -> Result<Command, BadLine> {
        // An absent word is read as an empty one, which is no kind, mask or draw.
        let mut words = line.split_whitespace();
        match (words.next(), words.next(), words.next(), words.next()) {
            (_, _, _, Some(_)) => Err(BadLine::MoreWords),
            (Some("air"), kind, mask, _) => Command::start(kind.unwrap_or(""), mask.unwrap_or("")),
            (Some("put"), digits, None, _) => Ok(Command::Put(decode(
                heap,
                digits.unwrap_or("").as_bytes(),
            )?)),
            (Some("skip"), None, _, _) => Ok(Command::Skip),
            (Some("take"), draw, None, _) => draw
                .unwrap_or("")
                .parse()
                .map(Command::Take)
                .map_err(|_| BadLine::BadDraw),
            _ => Err(BadLine::UnknownVerb),
        }
    }

    fn start(kind: &str, mask: &str) -> Result<Command, BadLine> {
        let mask = u64::from_str_radix(mask, 16).map_err(|_| BadLine::BadMask)?;
        let kind = kind.parse()?;
        Ok(Command::Start { kind, mask })
    }
}
