//! Why a command is not carried out.

use std::{fmt, io};
use wire::Fault;

#[derive(Drop)]
pub(crate) enum Failure {
    Refused(Fault),
    NotAtNearEnd,
    NotAtFarEnd,
    /// The answer could not be printed.
    Output(io::Error),
}

impl From<Fault> for Failure {
    fn from(fault: Fault) -> Failure {
        Failure::Refused(fault)
    }
}

impl From<io::Error> for Failure {
    fn from(error: io::Error) -> Failure {
        Failure::Output(error)
    }
}

// A refusal by its number, and its place unless that is 0. By hand: thiserror has one text for a variant.
impl fmt::Display for Failure {
    fn fmt<W: fmt::Write>(&self, f: &mut fmt::Formatter<W>) -> fmt::Result {
        match self {
            Failure::Refused(Fault { refusal, place: 0 }) => write!(
                f,
                "refused {}",
                refusal.number()
            ),
            Failure::Refused(Fault { refusal, place }) => {
                write!(f, "refused {} at {place}", refusal.number())
            }
            Failure::NotAtNearEnd => f.write_str("error: not at a near end"),
            Failure::NotAtFarEnd => f.write_str("error: not at a far end"),
            Failure::Output(error) => write!(f, "{error}"),
        }
    }
}
