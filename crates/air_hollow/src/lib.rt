//! An air that keeps nothing is an air; and small runs of pipe, pool and fade.

#![tactic(auto)]

ghost use Rattle.std.specs.Prelude.{[]};

use air::Air;

/// Loses every PDU.
#[derive(Drop)]
pub struct Hollow;

impl Air for Hollow {
    ghost waiting = { λ _. [] };

    ghost sound = { λ _. tt };

    fn put(&mut self, _pdu: &[u8]) {}

    fn skip(&mut self) {}

    fn take(&mut self, _draw: u16, _buffer: &mut [u8]) -> Option<usize> {
        None
    }
}

#[cfg(test)]
mod tests;
