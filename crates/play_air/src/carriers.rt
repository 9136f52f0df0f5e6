//! The air of a script: a pipe or a pool, under a fade.

ghost use Rattle.std.specs.Prelude.{◌≤◌, IfSome};

use crate::scripts::Kind;
use air::{Air, CAPACITY, Fade, Pipe, Pool};
use hex_digits::Hex;
use std::fmt;

// An enum and no `dyn Air`: what waits is not asked of the trait.
#[derive(Drop)]
pub(crate) enum Carrier {
    Pipe(Fade<Pipe>),
    Pool(Fade<Pool>),
}

/// A Take; what any air lets out fits a PDU's buffer.
fn take_from<A: Air>(air: &mut A, draw: u16, buffer: &mut [u8]) -> Option<usize>
    ensures { IfSome result (λ n. n ≤ 520) }
{
    air.take(draw, buffer)
}

impl Carrier {
    /// A new air of this kind, under this mask.
    pub(crate) fn new(kind: Kind, mask: u64) -> Self {
        match kind {
            Kind::Pipe => Carrier::Pipe(Fade::new(Pipe::new(), mask)),
            Kind::Pool => Carrier::Pool(Fade::new(Pool::new(), mask)),
        }
    }

    pub(crate) fn put(&mut self, pdu: &[u8]) {
        match self {
            Carrier::Pipe(air) => air.put(pdu),
            Carrier::Pool(air) => air.put(pdu),
        }
    }

    pub(crate) fn skip(&mut self) {
        match self {
            Carrier::Pipe(air) => air.skip(),
            Carrier::Pool(air) => air.skip(),
        }
    }

    pub(crate) fn take(&mut self, draw: u16, buffer: &mut [u8]) -> Option<usize>
        ensures { IfSome result (λ n. n ≤ 520) }
    {
        match self {
            Carrier::Pipe(air) => take_from(air, draw, buffer),
            Carrier::Pool(air) => take_from(air, draw, buffer),
        }
    }

    /// The k-th PDU that waits, oldest first, and its age.
    fn get(&self, k: usize) -> Option<(&[u8], u8)> {
        match self {
            Carrier::Pipe(air) => air.below().get(k),
            Carrier::Pool(air) => air.below().get(k),
        }
    }
}

/// What waits, oldest first, each with its age.
impl fmt::Display for Carrier {
    fn fmt<W: fmt::Write>(&self, f: &mut fmt::Formatter<W>) -> fmt::Result {
        write!(f, "waits:")?;
        for (pdu, age) in (0..CAPACITY).map_while(|k| self.get(k)) {
            let bytes = Hex(pdu);
            write!(f, " {bytes}@{age}")?;
        }
        Ok(())
    }
}
