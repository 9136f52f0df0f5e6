//! The packets that are stored, in fixed memory, each operation by the list of what is stored.

ghost use Rattle.std.specs.Prelude.{◌≡◌, ◌+◌, ◌<◌, ◌≤◌, false, [], length, is_some, find, count_by, nat_lt, ◌&&◌};
ghost use Rattle.pdcp.specs.Places.{has_place, under};
ghost use Rattle.protocol.specs.Reordering.{is_stored, insert, due_of};
ghost use Rattle.protocol.specs.Sending.{packet_limit, window_size};
ghost use Rattle.std.specs.List.{range_with_len};
ghost use Rattle.std.specs.Option.{option_map};
ghost use Rattle.wire.specs.Counts.{count_of};

use crate::places::{Packet, Place};
use protocol::WINDOW_SIZE;
use wire::PdcpCount;

/// The number of places, and of the COUNTs from RX_DELIV on that are accepted.
pub(crate) const WINDOW: u32 = WINDOW_SIZE as u32;

/// Packets by COUNT. The place of a COUNT is its remainder: stored COUNTs are less than 16 apart.
#[derive(Drop)]
pub(crate) struct Store {
    places: [Place; WINDOW_SIZE],
    /// The lowest COUNT that has a place.
    first: u32,
    ghost sized: { length places ≡ window_size },
    ghost low: { first ≤ packet_limit },
}

impl Store {
    ghost use Rattle.pdcp.specs.Stores.{stored_of, Near, lowest_of, taken};

    pub(crate) fn new() -> Store
        ensures { stored_of result ≡ [] }
    {
        Store {
            places: [Place::empty(); WINDOW_SIZE],
            first: 0,
        }
    }

    /// Whether this COUNT has a place.
    fn reaches(&self, count: u32) -> bool
        ensures { result ≡ has_place self.now.first count }
    {
        count >= self.first && count - self.first < WINDOW
    }

    /// Whether a packet stands at the place of this COUNT.
    fn is_full(&self, count: u32) -> bool
        ensures { result ≡ is_some (under self.now.places count) }
    {
        self.places[(count % WINDOW) as usize].is_full()
    }

    /// Whether a packet is stored under this COUNT.
    pub(crate) fn contains(&self, count: u32) -> bool
        ensures { result ≡ is_stored (stored_of self.now) count }
    {
        self.reaches(count) && self.is_full(count)
    }

    /// Gives this COUNT a place. Only COUNTs of which none is stored lose theirs.
    fn reach(&mut self, count: u32)
        requires near { Near count (stored_of self.old) }
        requires limit { count < packet_limit }
        ensures same { stored_of self.new ≡ stored_of self.old }
        ensures reached { (self.new.first ≤ count) × (count < self.new.first + window_size) }
    {
        if count < self.first {
            self.first = count;
        } else if count - self.first >= WINDOW {
            self.first = count - (WINDOW - 1);
        }
    }

    /// Stores a packet under a COUNT that is less than 16 away from every stored one.
    pub(crate) fn insert(&mut self, count: PdcpCount, packet: &Packet)
        requires new { is_stored (stored_of self.old) (count_of count) ≡ false }
        requires near { Near (count_of count) (stored_of self.old) }
        requires limit { count_of count < packet_limit }
        ensures { stored_of self.new ≡ insert (record { count = count_of count; packet = packet.now.bytes.now }) (stored_of self.old) }
    {
        self.reach(count.value());
        let places = &mut self.places;
        places[(count.value() % WINDOW) as usize].fill(packet);
    }

    /// The lowest COUNT of the window at whose place a packet stands.
    fn first_full(&self) -> Option<u32>
        ensures { result ≡ find (λ c. is_some (under self.now.places c)) (range_with_len self.now.first window_size) }
    {
        (self.first..self.first + WINDOW).find(|count| self.is_full(*count))
    }

    /// The lowest COUNT under which a packet is stored.
    pub(crate) fn lowest(&self) -> Option<PdcpCount>
        ensures { option_map count_of result ≡ lowest_of (stored_of self.now) }
    {
        let lowest = self.first_full()?;
        Some(PdcpCount::first().saturating_plus(lowest))
    }

    /// How many packets are stored under COUNTs below this one.
    pub(crate) fn count_below(&self, count: PdcpCount) -> usize
        ensures { result ≡ length (due_of (count_of count) (stored_of self.now)) }
    {
        let end = count.value();
        // Before the window nothing is stored, so nothing is looked at.
        if end <= self.first {
            return 0;
        }
        self.full_below(end)
    }

    /// At how many places of the window a packet stands under a COUNT below this one.
    fn full_below(&self, end: u32) -> usize
        ensures { result ≡ count_by (λ c. nat_lt c end && is_some (under self.now.places c)) (range_with_len self.now.first window_size) }
    {
        (self.first..self.first + WINDOW)
            .filter(|count| *count < end && self.is_full(*count))
            .count()
    }

    /// Writes the packet of this COUNT at the buffer's start, answers its length and removes it;
    /// none: there is no such packet, or it is longer than the buffer.
    pub(crate) fn take(&mut self, count: PdcpCount, buffer: &mut [u8]) -> Option<usize>
        ensures { (result, buffer.new, stored_of self.new) ≡ taken (count_of count) buffer.old (stored_of self.old) }
    {
        if !self.reaches(count.value()) {
            return None;
        }
        let places = &mut self.places;
        places[(count.value() % WINDOW) as usize].copy_out(buffer)
    }
}
