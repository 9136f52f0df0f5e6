//! PDUs in fixed memory, oldest first.

ghost use Rattle.std.specs.Prelude.{◌≡◌, ◌<◌, ◌≤◌, length, take};
ghost use Rattle.air.specs.Queues.{Each, Pairs, Stored, Apart, Carried, Older, capacity};

mod edits;

use crate::airs::MAX_PDU;
use crate::entries::Entry;

/// How many PDUs a queue holds.
pub const CAPACITY: usize = 8;

/// Up to 8 PDUs, oldest first. A PDU stays where it stands in the store; only its entry moves.
// No vector of PDUs: up to 7 of them would move as one leaves, and a Put or Take took five to seven times as long.
#[derive(Drop)]
pub struct Queue {
    store: [[u8; MAX_PDU]; CAPACITY],
    // Those held, oldest first, and then the free places.
    entries: [Entry; CAPACITY],
    held: usize,
    ghost room: { Stored store },
    ghost bounded: { (length entries ≡ capacity) × (held ≤ capacity) },
    ghost placed: { Each (λ e. e.place < capacity) entries },
    ghost apart: { Pairs Apart entries },
    ghost carried: { Each Carried (take held entries) },
    ghost older: { Pairs Older (take held entries) },
}
