//! What a queue does, each operation by the list of what waits.

ghost use Rattle.std.specs.Prelude.{◌≡◌, ◌+◌, ◌-◌, ◌<◌, ◌≤◌, [], ◌∷◌, ◌++◌, map, length, slice_index_or, slice_set};
ghost use Rattle.air.specs.Kept.{put_in, Took};
ghost use Rattle.air.specs.Queues.{Each, capacity, raised};
ghost use Rattle.air.specs.Waits.{held_entries, waits};
ghost use Rattle.protocol.specs.Airs.{max_pdu, age_limit, aged};
ghost use Rattle.protocol.specs.Bytes.{put};
ghost use Rattle.std.specs.Option.{option_map};
ghost use Rattle.std.specs.List.{remove, slice_get};

use super::{CAPACITY, Queue};
use crate::airs::{AGE_LIMIT, MAX_PDU, carries, takes};
use crate::entries::Entry;

/// Writes `bytes` at the buffer's start.
fn write(buffer: &mut [u8], bytes: &[u8])
    requires { length bytes.now ≤ length buffer.old }
    ensures { buffer.new ≡ put bytes.now buffer.old }
{
    buffer[0..bytes.len()].copy_from_slice(bytes);
}

fn write_at(store: &mut [[u8; MAX_PDU]; CAPACITY], place: usize, bytes: &[u8])
    requires within { place < length store.old }
    requires fits { length bytes.now ≤ length (slice_index_or store.old place []) }
    ensures { store.new ≡ slice_set store.old place (put bytes.now (slice_index_or store.old place [])) }
{
    write(&mut store[place], bytes);
}

fn raise(entries: &mut [Entry])
    requires { Each (λ e. e.age < 255) entries.old }
    ensures { entries.new ≡ map raised entries.old }
{
    for entry in entries.iter_mut() {
        entry.age += 1;
    }
}

impl Queue {
    pub(crate) fn new() -> Self
        ensures { waits result ≡ [] }
    {
        let mut entries = [Entry {
            place: 0,
            length: 0,
            age: 0,
        }; CAPACITY];
        // By number: each entry's place is its own.
        for i in 0..CAPACITY {
            entries[i].place = i;
        }
        Queue {
            store: [[0; MAX_PDU]; CAPACITY],
            entries,
            held: 0,
        }
    }

    pub(crate) fn len(&self) -> usize
        ensures { result ≡ length (waits self.now) }
    {
        self.held
    }

    fn remove(&mut self, k: usize)
        requires { k < self.old.held }
        ensures after { waits self.new ≡ remove (waits self.old) k }
        ensures entries { held_entries self.new ≡ remove (held_entries self.old) k }
        ensures held { self.new.held ≡ self.old.held - 1 }
    {
        let held = self.held;
        self.entries[k..held].rotate_left(1);
        self.held -= 1;
    }

    /// Loses what would now reach the age limit, which only the oldest can.
    fn expire(&mut self)
        ensures after { aged (waits self.new) ≡ aged (waits self.old) }
        ensures young { Each (λ e. e.age + 1 < age_limit) (held_entries self.new) }
    {
        if self.held > 0 && self.entries[0].age + 1 == AGE_LIMIT {
            self.remove(0);
        }
    }

    /// Makes all that waits older by one.
    pub(crate) fn grow_older(&mut self)
        ensures after { waits self.new ≡ aged (waits self.old) }
        ensures old { Each (λ e. 1 ≤ e.age) (held_entries self.new) }
    {
        self.expire();
        let held = self.held;
        raise(&mut self.entries[0..held]);
    }

    fn push(&mut self, pdu: &[u8])
        requires room { self.old.held < capacity }
        requires carried { (1 ≤ length pdu.now) × (length pdu.now ≤ max_pdu) }
        requires old { Each (λ e. 1 ≤ e.age) (held_entries self.old) }
        ensures { waits self.new ≡ waits self.old ++ record { pdu = pdu.entry.now; age = 0 } ∷ [] }
    {
        let held = self.held;
        let place = self.entries[held].place;
        write_at(&mut self.store, place, pdu);
        self.entries[held] = Entry {
            place,
            length: pdu.len(),
            age: 0,
        };
        self.held += 1;
    }

    /// Makes all that waits older, and adds the PDU if an air carries it; a full queue loses its oldest.
    pub(crate) fn put(&mut self, pdu: &[u8])
        ensures { waits self.new ≡ put_in pdu.now (waits self.old) }
    {
        self.grow_older();
        if !carries(pdu) {
            return;
        }
        if self.held == CAPACITY {
            self.remove(0);
        }
        self.push(pdu);
    }

    /// The k-th PDU from the oldest, counted from 0, and its age.
    pub(crate) fn get(&self, k: usize) -> Option<(&[u8], u8)>
        ensures { option_map (λ w. record { pdu = w.0.now; age = w.1 }) result ≡ slice_get (waits self.now) k }
    {
        if k >= self.held {
            return None;
        }
        let Entry { place, length, age } = self.entries[k];
        let bytes = &self.store[place];
        Some((&bytes[0..length], age))
    }

    /// Lets the k-th PDU out, which stays if `keeps`.
    pub(crate) fn take(
        &mut self,
        k: usize,
        keeps: bool,
        draw: u16,
        buffer: &mut [u8],
    ) -> Option<usize>
        ensures { Took k keeps draw buffer.old result buffer.new (waits self.old) (waits self.new) }
    {
        if !takes(draw, buffer) {
            return None;
        }
        let Some((pdu, _)) = self.get(k) else {
            return None;
        };
        let length = pdu.len();
        write(buffer, pdu);
        if !keeps {
            self.remove(k);
        }
        Some(length)
    }
}
