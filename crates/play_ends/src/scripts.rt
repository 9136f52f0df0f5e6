//! The lines of a script.

use hex_digits::{BadHex, decode};
use std::alloc::Global;
use std::str::FromStr;
use thiserror::Error;
use timers::Settings;

#[derive(Drop)]
pub(crate) enum Command {
    Near(Settings),
    Far(Settings),
    Give(Vec<u8>),
    Spend(usize),
    Read(Vec<u8>),
    Tick,
    Collect,
}

/// Why a line is no command.
#[derive(Clone, Copy, Debug, Error)]
pub(crate) enum BadLine {
    #[error("a line is near, far, give, grant, read, tick or collect")]
    UnknownVerb,
    #[error("near takes pollPDU, maxRetx and t-PollRetransmit")]
    NearSettings,
    #[error("far takes t-Reassembly, t-StatusProhibit and t-Reordering")]
    FarSettings,
    #[error("a setting is a number, or - if it may be absent")]
    BadSetting,
    #[error("pollPDU is at most 255")]
    LargePollPdu,
    #[error("grant takes a size")]
    BadSize,
    #[error("bytes have two hexadecimal digits each")]
    BadBytes,
}

impl From<BadHex> for BadLine {
    fn from(_: BadHex) -> BadLine {
        BadLine::BadBytes
    }
}

/// Settings before any are read; an end's own are then written over them.
pub(crate) const DEFAULTS: Settings = Settings {
    poll_pdu: None,
    max_retx: 4,
    t_poll_retransmit: 40,
    t_reassembly: 20,
    t_status_prohibit: 1,
    t_reordering: None,
};

/// The number that a word gives; this fault if there is no word or it is no number.
fn number<N: FromStr>(word: Option<&str>, fault: BadLine) -> Result<N, BadLine>
where
    N::Err: Drop,
{
    word.and_then(|word| word.parse().ok()).ok_or(fault)
}

/// A setting that may be absent.
fn optional(word: Option<&str>) -> Result<Option<u16>, BadLine> {
    match word {
        Some("-") => Ok(None),
        _ => number(word, BadLine::BadSetting).map(Some),
    }
}

/// The same of at most 255.
fn small(word: Option<&str>) -> Result<Option<u8>, BadLine> {
    optional(word)?
        .map(u8::try_from)
        .transpose()
        .map_err(|_| BadLine::LargePollPdu)
}

/// The bytes of a word of digits; none without a word.
fn bytes(heap: Global, digits: Option<&str>) -> Result<Vec<u8>, BadHex> {
    match digits {
        Some(digits) => decode(heap, digits.as_bytes()),
        None => Ok(Vec::new(heap)),
    }
}

impl Command {
    fn near(
        poll_pdu: Option<&str>,
        max_retx: Option<&str>,
        timer: Option<&str>,
    ) -> Result<Command, BadLine> {
        Ok(Command::Near(Settings {
            poll_pdu: small(poll_pdu)?,
            max_retx: number(max_retx, BadLine::NearSettings)?,
            t_poll_retransmit: number(timer, BadLine::NearSettings)?,
            ..DEFAULTS
        }))
    }

    fn far(
        reassembly: Option<&str>,
        prohibit: Option<&str>,
        reordering: Option<&str>,
    ) -> Result<Command, BadLine> {
        Ok(Command::Far(Settings {
            t_reordering: optional(reordering)?,
            t_reassembly: number(reassembly, BadLine::FarSettings)?,
            t_status_prohibit: number(prohibit, BadLine::FarSettings)?,
            ..DEFAULTS
        }))
    }

    /// The command of a line.
    pub(crate) fn parse(heap: Global, line: &str) -> Result<Command, BadLine> {
        let mut words = line.split_whitespace();
        match (words.next(), words.next(), words.next(), words.next()) {
            (Some("near"), poll_pdu, max_retx, timer) => Command::near(poll_pdu, max_retx, timer),
            (Some("far"), reassembly, prohibit, reordering) => {
                Command::far(reassembly, prohibit, reordering)
            }
            (Some("give"), digits, None, _) => Ok(Command::Give(bytes(heap, digits)?)),
            (Some("grant"), size, None, _) => number(size, BadLine::BadSize).map(Command::Spend),
            (Some("read"), digits, None, _) => Ok(Command::Read(bytes(heap, digits)?)),
            (Some("tick"), None, _, _) => Ok(Command::Tick),
            (Some("collect"), None, _, _) => Ok(Command::Collect),
            _ => Err(BadLine::UnknownVerb),
        }
    }
}
