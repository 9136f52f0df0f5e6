//! The window of the counts that the far end may still receive.

ghost use Rattle.std.specs.Prelude.{◌≡◌, ◌+◌, ◌<◌, ◌≤◌, ◌≢◌, length, max, if◌then◌else◌, false, not, ◌&&◌, ◌||◌, ◌==◌, nat_eq, nat_le, nat_lt};
ghost use Rattle.protocol.specs.Numbers.{sn_modulus, count_from};
ghost use Rattle.protocol.specs.Receiving.{Reporting, new_far, complete, has_hole, discards, clashes as clash, kept, advanced, incomplete_from, reception, answering};
ghost use Rattle.protocol.specs.Timers.{Timer, stopped};
ghost use Rattle.rlc_rx.specs.DataPdus.{data_pdu_of};
ghost use Rattle.rlc_rx.specs.Slots.{partial_of, partials};
ghost use Rattle.wire.specs.Counts.{sn_of, count_of};

use crate::data_pdus::DataPdu;
use crate::receptions::{Completed, Reception};
use crate::rings::{answer_polls, clear, incomplete_from, receive};
use crate::slots::Slot;
use protocol::WINDOW_SIZE;
use wire::{RlcCount, Sn};

/// The window's variables, and its SDUs.
#[derive(Drop)]
pub(crate) struct Window {
    /// The lowest count that is not complete; the window of 16 begins here.
    pub(crate) rx_next: RlcCount,
    /// One past the highest count seen.
    rx_next_highest: RlcCount,
    /// A report speaks of the counts below this one.
    pub(crate) rx_highest_status: RlcCount,
    /// RX_Next_Highest as t-Reassembly was started.
    rx_next_status_trigger: RlcCount,
    /// The SDU of each count in the window, at the count modulo 16: memory is fixed.
    slots: [Slot; WINDOW_SIZE],
    ghost places: { length slots ≡ 16 },
    ghost status_from: { count_of rx_next ≤ count_of rx_highest_status },
    ghost status_to: { count_of rx_highest_status ≤ count_of rx_next_highest },
    ghost window: { count_of rx_next_highest ≤ count_of rx_next + 16 },
    ghost seen: { count_of rx_next_highest ≤ 1000000 },
    ghost trigger: { count_of rx_next_status_trigger ≤ count_of rx_next_highest },
}

/// The variable, moved on to `to` where it is `x`.
fn moved(variable: RlcCount, x: RlcCount, to: RlcCount) -> RlcCount
    ensures { count_of result ≡ (if nat_eq (count_of variable) (count_of x) then count_of to else count_of variable) }
{
    if variable == x { to } else { variable }
}

impl Window {
    ghost use Rattle.rlc_rx.specs.Receptions.{sdu_in, reception_in};
    ghost use Rattle.rlc_rx.specs.Windows.{sdus_of, far_with, window_of, Takes, Answers, stored, Waits, IsInWindow, IsSeen, IsInRange, MovesPast, trigger_passed};

    /// The window of a far end that has received nothing.
    pub(crate) fn new() -> Window
        ensures { window_of result ≡ new_far }
    {
        let first = RlcCount::first();
        Window {
            rx_next: first,
            rx_next_highest: first,
            rx_highest_status: first,
            rx_next_status_trigger: first,
            slots: [Slot::new(); WINDOW_SIZE],
        }
    }

    /// The count that a number stands for in the window.
    pub(crate) fn count(&self, sn: Sn) -> RlcCount
        ensures { count_of result ≡ count_from sn_modulus (count_of self.now.rx_next) (sn_of sn) }
    {
        sn.rlc_count(self.rx_next).unwrap()
    }

    /// The slot of a count that was seen.
    pub(crate) fn slot(&self, x: u32) -> &Slot
        requires { IsSeen self.now x }
        ensures { partial_of result.now ≡ sdus_of self.now x }
    {
        &self.slots[x as usize % WINDOW_SIZE]
    }

    /// Whether the data lies outside the window, or has no byte that is new.
    pub(crate) fn is_discarded(&self, x: RlcCount, pdu: &DataPdu) -> bool
        requires { count_of self.now.rx_next ≤ count_of x }
        ensures { result ≡ discards (window_of self.now) (count_of x) (data_pdu_of pdu.now) }
    {
        let count = x.value();
        if count - self.rx_next.value() >= WINDOW_SIZE as u32 {
            return true;
        }
        if x >= self.rx_next_highest {
            return false;
        }
        let end = pdu.end();
        let slot = self.slot(count);
        end <= slot.missing_from(pdu.offset(), end)
    }

    /// Whether the data clashes with what is known of its SDU.
    pub(crate) fn clashes(&self, x: RlcCount, pdu: &DataPdu) -> bool
        requires { count_of self.now.rx_next ≤ count_of x }
        ensures { result ≡ clash (sdus_of self.now (count_of x)) (data_pdu_of pdu.now) }
    {
        x < self.rx_next_highest && self.slot(x.value()).clashes(pdu)
    }

    /// The count x, which lies in the window, is seen.
    fn see(&mut self, x: RlcCount)
        requires { IsInWindow self.old (count_of x) }
        ensures highest { count_of self.new.rx_next_highest ≡ max (count_of self.old.rx_next_highest) (count_of x + 1) }
        ensures next { count_of self.new.rx_next ≡ count_of self.old.rx_next }
        ensures status { count_of self.new.rx_highest_status ≡ count_of self.old.rx_highest_status }
        ensures trigger { count_of self.new.rx_next_status_trigger ≡ count_of self.old.rx_next_status_trigger }
        ensures slots { self.new.slots ≡ self.old.slots }
    {
        if self.rx_next_highest <= x {
            self.rx_next_highest = x.saturating_plus(1);
        }
    }

    /// Keeps what is new of the data of count x, which is then seen.
    pub(crate) fn keep(&mut self, x: RlcCount, pdu: &DataPdu)
        requires inside { IsInWindow self.old (count_of x) }
        requires fits { clash (sdus_of self.old (count_of x)) (data_pdu_of pdu.now) ≡ false }
        ensures { Takes (kept (count_of x) (data_pdu_of pdu.now)) self.old self.new }
    {
        let seen = self.rx_next_highest.value();
        let count = x.value();
        clear(&mut self.slots, seen, seen.max(count + 1));
        receive(&mut self.slots, count, pdu);
        self.see(x);
    }

    /// What became of the data of count x, which was kept.
    pub(crate) fn reception(&self, x: RlcCount) -> Reception
        ensures { reception_in self.now result ≡ reception (stored self.now (count_of x)) }
    {
        let place = x.value() as usize % WINDOW_SIZE;
        // No `map_or`: its closure would need a `requires` for what the type `Completed` keeps.
        match self.slots[place].complete_length() {
            Some(length) => Reception::HandedUp(Completed { place, length }),
            None => Reception::Kept,
        }
    }

    /// The bytes of an SDU that has become complete.
    pub(crate) fn sdu(&self, completed: &Completed) -> &[u8]
        ensures { result.now ≡ sdu_in self.now completed.now }
    {
        let Completed { place, length } = *completed;
        let bytes = &self.slots[place].bytes;
        &bytes[..length]
    }

    /// The first count from `from` on that is not complete.
    fn incomplete_from(&self, from: RlcCount) -> RlcCount
        requires { IsInRange self.now (count_of from) }
        ensures { count_of result ≡ incomplete_from (window_of self.now) (count_of from) }
    {
        let start = from.value();
        let found = incomplete_from(&self.slots, start, self.rx_next_highest.value());
        from.saturating_plus(found - start)
    }

    /// RX_Next and RX_Highest_Status move past the count x, if that is complete.
    fn move_past(&mut self, x: RlcCount)
        requires seen { IsSeen self.old (count_of x) }
        requires waits { (count_of self.old.rx_highest_status ≢ count_of x) → Waits self.old }
        ensures { MovesPast (count_of x) self.old self.new }
    {
        if !self.slot(x.value()).is_complete() {
            return;
        }
        let to = self.incomplete_from(x);
        self.rx_next = moved(self.rx_next, x, to);
        self.rx_highest_status = moved(self.rx_highest_status, x, to);
    }

    /// The variables move past the count x, if that is complete; answers the polls that they pass, and whether there
    /// was one.
    pub(crate) fn advance(&mut self, x: RlcCount) -> bool
        requires seen { IsSeen self.old (count_of x) }
        requires waits { (count_of self.old.rx_highest_status ≢ count_of x) → Waits self.old }
        ensures state { Answers result (λ f. answering f.rx_next (advanced (count_of x) f)) self.old self.new }
        ensures sdus { partials self.new.slots ≡ partials self.old.slots }
        ensures waits { Waits self.new }
    {
        let low = self.rx_next.value();
        self.move_past(x);
        answer_polls(&mut self.slots, low, self.rx_highest_status.value())
    }

    /// Whether nothing below the trigger is missing.
    pub(crate) fn is_settled(&self) -> bool
        ensures { result ≡ (nat_le (count_of self.now.rx_next_status_trigger) (count_of self.now.rx_next) || (count_of self.now.rx_next_status_trigger == count_of self.now.rx_next + 1 && not (has_hole (sdus_of self.now (count_of self.now.rx_next))))) }
    {
        // By number, since one is added; so below.
        let next = self.rx_next.value();
        let trigger = self.rx_next_status_trigger.value();
        trigger <= next || (trigger == next + 1 && !self.slot(next).has_hole())
    }

    /// Whether something from `low` on is missing.
    pub(crate) fn is_awaited(&self, low: RlcCount) -> bool
        requires { IsInRange self.now (count_of low) }
        ensures { result ≡ (nat_lt (count_of low + 1) (count_of self.now.rx_next_highest) || (count_of self.now.rx_next_highest == count_of low + 1 && has_hole (sdus_of self.now (count_of low)))) }
    {
        let high = self.rx_next_highest.value();
        let from = low.value();
        from + 1 < high || (high == from + 1 && self.slot(from).has_hole())
    }

    /// What is below RX_Next_Highest is waited for from now on.
    pub(crate) fn set_trigger(&mut self)
        ensures trigger { self.new.rx_next_status_trigger ≡ self.old.rx_next_highest }
        ensures next { self.new.rx_next ≡ self.old.rx_next }
        ensures highest { self.new.rx_next_highest ≡ self.old.rx_next_highest }
        ensures status { self.new.rx_highest_status ≡ self.old.rx_highest_status }
        ensures slots { self.new.slots ≡ self.old.slots }
    {
        self.rx_next_status_trigger = self.rx_next_highest;
    }

    /// RX_Highest_Status moves to the first count from the trigger on that is not complete; answers the polls that it
    /// passes.
    pub(crate) fn pass_trigger(&mut self)
        requires { count_of self.old.rx_next ≤ count_of self.old.rx_next_status_trigger }
        ensures state { (t_reassembly : Timer) (reporting : Reporting) (t_status_prohibit : Timer) → far_with self.new stopped reporting t_status_prohibit ≡ trigger_passed (far_with self.old t_reassembly reporting t_status_prohibit) }
        ensures waits { Waits self.new }
    {
        let low = self.rx_next.value();
        let status = self.incomplete_from(self.rx_next_status_trigger);
        answer_polls(&mut self.slots, low, status.value());
        self.rx_highest_status = status;
    }
}
