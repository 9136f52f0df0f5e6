//! What an end sends, as text.

ghost use Rattle.std.specs.Prelude.{ℕ};

use crate::failures::Failure;
use hex_digits::Hex;
use std::fmt;
use wire::{Fault, Grant};

/// A PDU's length and its bytes.
#[derive(Clone, Copy)]
struct Sent<'a>(&'a [u8]);

impl fmt::Display for Sent<'_> {
    fn fmt<W: fmt::Write>(&self, f: &mut fmt::Formatter<W>) -> fmt::Result {
        write!(f, "length {}", self.0.len())?;
        if self.0.is_empty() {
            return Ok(());
        }
        write!(f, " {}", Hex(self.0))
    }
}

/// Has an end spend a grant of this size, and prints what it sent.
pub(crate) fn show_spent<F>(rt: &impl Print, size: usize, spend: F) -> Result<(), Failure>
where
    F: FnOnce(Grant, &mut [u8]) -> Result<usize, Fault>,
    requires { F.IsAlwaysCallable spend }
{
    let mut buffer = [0; 512];
    let grant = Grant::open(size)?;
    let length = spend(grant, &mut buffer)?.min(buffer.len());
    println!(rt; "  {}", Sent(&buffer[..length]))?;
    Ok(())
}
