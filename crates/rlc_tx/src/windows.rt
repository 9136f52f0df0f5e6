//! The window of the transmitting side, with its SDUs.

ghost use Rattle.std.specs.Prelude.{◌≡◌, ℕ, ◌+◌, ◌-◌, ◌%◌, ◌<◌, ◌≤◌, true, false, ◌||◌, length, is_some, nat_le};
ghost use Rattle.protocol.specs.Searching.{update};
ghost use Rattle.protocol.specs.Sending.{window_size, new_near, advanced, acknowledge as acknowledged, considered_all, exhausted, highest_sent, marked, names_byte, top as top_of};
ghost use Rattle.rlc_tx.specs.Considered.{considered_next, counted_by};
ghost use Rattle.rlc_tx.specs.Marks.{bounded};
ghost use Rattle.std.specs.Option.{option_map};
ghost use Rattle.wire.specs.Counts.{count_of};
ghost use Rattle.wire.specs.Views.{missing_of};

use crate::plans::Run;
use crate::slots::Slot;
use protocol::WINDOW_SIZE;
use wire::{Missing, RlcCount};

/// The place of a count in a ring.
pub(crate) fn place(count: RlcCount) -> usize
    ensures { result ≡ count_of count % window_size }
{
    count.value() as usize % WINDOW_SIZE
}

/// The SDUs from TX_Next_Ack on, before TX_Next.
#[derive(Drop)]
pub(crate) struct Window {
    pub(crate) tx_next_ack: RlcCount,
    pub(crate) tx_next: RlcCount,
    /// Each at its count modulo 16: memory is fixed.
    slots: [Slot; WINDOW_SIZE],
    ghost ordered: { count_of tx_next_ack ≤ count_of tx_next },
    ghost bounded: { count_of tx_next ≤ count_of tx_next_ack + 16 },
    ghost few: { count_of tx_next ≤ 1000000 },
    ghost ring: { length slots ≡ 16 },
}

impl Window {
    ghost use Rattle.rlc_tx.specs.Plans.{run_of, Leads};
    ghost use Rattle.rlc_tx.specs.Slots.{sdu_of};
    ghost use Rattle.rlc_tx.specs.Searches.{GivesAt, IsFirst, exhausted_in};
    ghost use Rattle.rlc_tx.specs.Windows.{bare, sdus_in, with_sdu, Holds};

    pub(crate) fn new() -> Window
        ensures { bare result ≡ new_near }
    {
        let first = RlcCount::first();
        Window {
            tx_next_ack: first,
            tx_next: first,
            slots: [Slot::empty(); WINDOW_SIZE],
        }
    }

    pub(crate) fn is_full(&self) -> bool
        ensures { result ≡ nat_le (count_of self.now.tx_next_ack + window_size) (count_of self.now.tx_next) }
    {
        self.len() >= WINDOW_SIZE as u32
    }

    /// How many SDUs are in it.
    pub(crate) fn len(&self) -> u32
        ensures { result ≡ count_of self.now.tx_next - count_of self.now.tx_next_ack }
    {
        self.tx_next.value() - self.tx_next_ack.value()
    }

    /// The count `k` after TX_Next_Ack.
    pub(crate) fn count(&self, k: u32) -> RlcCount
        requires { k ≤ 16 }
        ensures { count_of result ≡ count_of self.now.tx_next_ack + k }
    {
        self.tx_next_ack.saturating_plus(k)
    }

    // That the window holds a count is a fact about two values, and so no invariant of either: it is asked by name.
    /// The slot of a count.
    pub(crate) fn slot(&self, count: RlcCount) -> &Slot
        requires { Holds self.now (count_of count) }
        ensures { sdu_of result.now ≡ sdus_in self.now (count_of count) }
    {
        &self.slots[place(count)]
    }

    /// The first count whose SDU is wanted.
    pub(crate) fn first<F: Fn(RlcCount, &Slot) -> bool>(&self, wanted: F) -> Option<RlcCount>
        requires { F.IsAlwaysCallable wanted }
        ensures { IsFirst (GivesAt F.Fn wanted self.now) self.now (option_map count_of result) }
    {
        // A chain's `find` leaves open that each count that it tests lies in the window, which `slot` asks.
        for k in 0..self.len() {
            let count = self.count(k);
            if wanted(count, self.slot(count)) {
                return Some(count);
            }
        }
        None
    }

    /// One past the highest count of which a byte was sent.
    pub(crate) fn top(&self) -> RlcCount
        ensures { count_of result ≡ top_of (bare self.now) }
    {
        self.first(|_, slot| !slot.is_begun())
            .unwrap_or(self.tx_next)
    }

    /// The highest count of which a byte was sent and that is not acknowledged.
    fn highest(&self) -> Option<RlcCount>
        ensures { option_map count_of result ≡ highest_sent (bare self.now) }
    {
        let begun = self.top().value() - self.tx_next_ack.value();
        // As in `first`, a chain leaves open that each count that it tests lies in the window.
        for k in (0..begun).rev() {
            let count = self.count(k);
            if !self.slot(count).is_acknowledged() {
                return Some(count);
            }
        }
        None
    }

    /// The RETX_COUNT of one of its SDUs has reached maxRetx.
    fn is_exhausted(&self, max_retx: u8) -> bool
        ensures { result ≡ exhausted_in max_retx self.now }
    {
        self.first(|_, slot| slot.is_exhausted(max_retx)).is_some()
    }

    /// Whether the link has failed: it had before, or RETX_COUNT has now reached maxRetx.
    pub(crate) fn has_failed(&self, failed: bool, max_retx: u8) -> bool
        ensures { result ≡ (failed || exhausted_in max_retx self.now) }
    {
        failed || self.is_exhausted(max_retx)
    }

    /// One SDU more.
    pub(crate) fn push(&mut self, slot: Slot)
        requires room { count_of self.old.tx_next < count_of self.old.tx_next_ack + 16 }
        requires few { count_of self.old.tx_next < 1000000 }
        ensures first { count_of self.new.tx_next_ack ≡ count_of self.old.tx_next_ack }
        ensures next { count_of self.new.tx_next ≡ count_of self.old.tx_next + 1 }
        ensures sdus { (x : ℕ) → sdus_in self.new x ≡ update (sdus_in self.old) (count_of self.old.tx_next) (sdu_of slot) x }
    {
        self.slots[place(self.tx_next)] = slot;
        self.tx_next = self.tx_next.saturating_plus(1);
    }

    /// It begins at the lowest count that is not acknowledged.
    pub(crate) fn advance(&mut self)
        ensures { bare self.new ≡ advanced (bare self.old) }
    {
        self.tx_next_ack = self
            .first(|_, slot| !slot.is_acknowledged())
            .unwrap_or(self.tx_next);
    }

    /// A run of bytes was sent.
    pub(crate) fn send(&mut self, run: Run)
        requires held { Holds self.old (count_of run.count) }
        requires front { Leads (run_of run) (sdus_in self.old (count_of run.count)) }
        requires few { bounded (sdus_in self.old (count_of run.count)).acknowledged 0 (sdus_in self.old (count_of run.count)).retx_count ≡ true }
        ensures { bare self.new ≡ marked (run_of run) (bare self.old) }
    {
        let slots = &mut self.slots;
        slots[place(run.count)].send(run);
    }

    /// Bytes of an SDU are considered for retransmission; answers whether the report has now changed its RETX_COUNT.
    pub(crate) fn consider(&mut self, count: RlcCount, missing: Missing, counted: bool) -> bool
        requires held { Holds self.old (count_of count) }
        requires open { (sdus_in self.old (count_of count)).acknowledged ≡ false }
        ensures after { bare self.new ≡ with_sdu (bare self.old) (count_of count) (considered_next counted (names_byte (missing_of missing)) (sdus_in self.old (count_of count))) }
        ensures done { result ≡ counted_by counted (names_byte (missing_of missing)) (sdus_in self.old (count_of count)) }
    {
        let slots = &mut self.slots;
        slots[place(count)].consider(missing, counted)
    }

    /// An SDU is acknowledged.
    pub(crate) fn acknowledge(&mut self, count: RlcCount)
        requires { Holds self.old (count_of count) }
        ensures { bare self.new ≡ with_sdu (bare self.old) (count_of count) (acknowledged (sdus_in self.old (count_of count))) }
    {
        let slots = &mut self.slots;
        slots[place(count)].acknowledge();
    }

    /// All bytes of the highest SDU that was sent and is not acknowledged are considered for retransmission.
    pub(crate) fn repeat_highest(&mut self)
        ensures { bare self.new ≡ considered_all (highest_sent (bare self.old)) (bare self.old) }
    {
        if let Some(count) = self.highest() {
            self.consider(count, Missing::Every, false);
        }
    }
}
