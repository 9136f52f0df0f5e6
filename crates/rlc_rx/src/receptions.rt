//! What becomes of a PDU.

ghost use Rattle.std.specs.Prelude.{◌<◌, ◌≤◌};

/// An SDU that has become complete: where the far end has its bytes until the next PDU is read.
// No slice: it would keep the far end lent, and then no clause could say in which state `read` leaves it.
#[derive(Clone, Copy)]
pub struct Completed {
    pub(crate) place: usize,
    pub(crate) length: usize,
    ghost inside: { place < 16 },
    ghost short: { length ≤ 502 },
}

/// What became of a PDU that was read.
#[derive(Clone, Copy)]
pub enum Reception {
    /// It lay outside the window, or had no byte that was new.
    Discarded,
    /// Its new bytes were kept.
    Kept,
    /// Its SDU has become complete.
    HandedUp(Completed),
}
