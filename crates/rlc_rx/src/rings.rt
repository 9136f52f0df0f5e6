//! The slots of a window's 16 counts, each at its count modulo 16.

ghost use Rattle.std.specs.Prelude.{◌≡◌, ◌+◌, ◌-◌, ◌%◌, ◌≤◌, false, not, ◌||◌, nat_lt, slice_set};
ghost use Rattle.protocol.specs.Receiving.{nothing_held, complete, clashes, received};
ghost use Rattle.protocol.specs.Rings.{in_ring};
ghost use Rattle.protocol.specs.Searching.{seek};
ghost use Rattle.rlc_rx.specs.DataPdus.{data_pdu_of};
ghost use Rattle.rlc_rx.specs.Slots.{partials, polls};
ghost use Rattle.rlc_rx.specs.Rings.{Cleared};

use crate::data_pdus::DataPdu;
use crate::slots::Slot;
use protocol::WINDOW_SIZE;

// The loops go over counts and not over slots, since these wrap round the ring. Here and below a function takes two
// numbers and no range, because the definition that it is equal to takes a number and a width.

/// Makes room for the counts from `from` to before `to`.
pub(crate) fn clear(slots: &mut [Slot; WINDOW_SIZE], from: u32, to: u32)
    requires window { to ≤ from + 16 }
    requires ordered { from ≤ to }
    ensures sdus { Cleared nothing_held from to (partials slots.old) (partials slots.new) }
    ensures flags { Cleared false from to (polls slots.old) (polls slots.new) }
{
    for x in from..to {
        slots[x as usize % WINDOW_SIZE].reset();
    }
}

/// The slot of count x receives a PDU.
pub(crate) fn receive(slots: &mut [Slot; WINDOW_SIZE], x: u32, pdu: &DataPdu)
    requires { clashes (in_ring (partials slots.old) x nothing_held) (data_pdu_of pdu.now) ≡ false }
    ensures sdus { partials slots.new ≡ slice_set (partials slots.old) (x % 16) (received (data_pdu_of pdu.now) (in_ring (partials slots.old) x nothing_held)) }
    ensures flags { polls slots.new ≡ slice_set (polls slots.old) (x % 16) (in_ring (polls slots.old) x false || (data_pdu_of pdu.now).poll) }
{
    slots[x as usize % WINDOW_SIZE].receive(pdu);
}

/// The first count from `from` to before `to` that is not complete, or else `to`.
pub(crate) fn incomplete_from(slots: &[Slot; WINDOW_SIZE], from: u32, to: u32) -> u32
    requires ordered { from ≤ to }
    ensures { result ≡ seek (λ x. not (complete (in_ring (partials slots.now) x nothing_held))) (to - from) from }
{
    (from..to)
        .find(
            |&x|
                ensures { result ≡ not (complete (in_ring (partials slots.entry.now) x nothing_held)) }
            { !slots[x as usize % WINDOW_SIZE].is_complete() },
        )
        .unwrap_or(to)
}

/// Answers the polls of the counts from `from` to before `to`, and whether there was one.
pub(crate) fn answer_polls(slots: &mut [Slot; WINDOW_SIZE], from: u32, to: u32) -> bool
    requires window { to ≤ from + 16 }
    requires ordered { from ≤ to }
    ensures answer { result ≡ nat_lt (seek (λ x. in_ring (polls slots.old) x false) (to - from) from) to }
    ensures sdus { partials slots.new ≡ partials slots.old }
    ensures flags { Cleared false from to (polls slots.old) (polls slots.new) }
{
    let mut answered = false;
    for x in from..to {
        answered |= slots[x as usize % WINDOW_SIZE].answer_poll();
    }
    answered
}
