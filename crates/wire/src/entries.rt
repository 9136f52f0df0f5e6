//! The entries of a status report.

ghost use Rattle.std.specs.Prelude.{◌≡◌, ◌≤◌, not, ◌&&◌, length, drop, IfSome};
ghost use Rattle.protocol.specs.Reading.{in_order as ordered, valid};
ghost use Rattle.std.specs.Iterator.{YieldsFirstBy, item_count};
ghost use Rattle.std.specs.Bool.{then_some};
ghost use Rattle.std.specs.Option.{option_map, option_or};
ghost use Rattle.wire.specs.Counts.{sn_of};
ghost use Rattle.wire.specs.Views.{missing_of, entry_of, found_of, found_at, checked_entries};

use crate::bits::{has_bit, word};
use crate::numbers::Sn;
use crate::pdus::{Entry, Missing};
use protocol::{Fault, Refusal};

/// Flags in an entry's second byte: whether another entry follows, whether SOstart and SOend do,
/// and one that no valid entry has.
const E1: u32 = 3;

const E2: u32 = 2;

const E3: u32 = 1;

/// An entry at the start of some bytes, its length there and its flags.
#[derive(Drop)]
pub(crate) struct Found {
    pub(crate) entry: Entry,
    pub(crate) size: usize,
    pub(crate) e1: bool,
    pub(crate) e3: bool,
}

/// The entry at the start of these bytes, or none where they end within it.
pub(crate) fn find_entry(bytes: &[u8]) -> Option<Found>
    ensures value { option_map found_of result ≡ found_at bytes.now }
    ensures bound { IfSome result (λ f. (2 ≤ f.size) × (f.size ≤ length bytes.now)) }
{
    let left = bytes.len();
    if left < 2 {
        return None;
    }
    let flags = bytes[1];
    let nack_sn = Sn::new(word(bytes, 0) / 16);
    let e1 = has_bit(flags, E1);
    let e3 = has_bit(flags, E3);
    if !has_bit(flags, E2) {
        let entry = Entry {
            nack_sn,
            missing: Missing::Every,
        };
        return Some(Found {
            entry,
            size: 2,
            e1,
            e3,
        });
    }
    if left < 6 {
        return None;
    }
    let missing = Missing::Span {
        so_start: word(bytes, 2),
        so_end: word(bytes, 4),
    };
    let entry = Entry { nack_sn, missing };
    Some(Found {
        entry,
        size: 6,
        e1,
        e3,
    })
}

/// Whether the span, if any, holds a byte.
pub(crate) fn in_order(missing: Missing) -> bool
    ensures { result ≡ ordered (missing_of missing) }
{
    match missing {
        Missing::Every => true,
        Missing::Span { so_start, so_end } => so_start <= so_end,
    }
}

/// Whether a status report with this ACK_SN may have this entry.
fn is_valid(ack_sn: Sn, entry: Entry, e3: bool) -> bool
    ensures { result ≡ (not e3 && valid (sn_of ack_sn) (entry_of entry)) }
{
    let behind = (ack_sn.value() + 4096 - entry.nack_sn.value()) % 4096;
    !e3 && 1 <= behind && behind <= 2048 && in_order(entry.missing)
}

/// The place of the first invalid entry, once the entry at `place` was looked at.
// No `or` of two places: what it makes at each entry doubles the time of a long report.
fn first_invalid(invalid: Option<usize>, fine: bool, place: usize) -> Option<usize>
    ensures { result ≡ option_or invalid (then_some (not fine) place) }
{
    match invalid {
        None if !fine => Some(place),
        _ => invalid,
    }
}

/// Looks at all entries: first whether the PDU ends with the last of them, then for the first invalid one.
pub(crate) fn check_entries(bytes: &[u8], ack_sn: Sn, e1: bool) -> Result<(), Fault>
    requires { 3 ≤ length bytes.now }
    ensures { result ≡ checked_entries (sn_of ack_sn) e1 (drop 3 bytes.now) }
{
    let size = bytes.len();
    let mut rest = &bytes[3..];
    let mut more = e1;
    let mut invalid = None;
    // Not over `Entries`, with a flag beside the rest: a cut entry, at which those end, is a fault here, and so are
    // bytes behind the last one.
    while more {
        let place = size - rest.len();
        let Some(found) = find_entry(rest) else {
            return Err(Refusal::Malformed.at(size));
        };
        let Found {
            entry,
            size: length,
            e1: follows,
            e3,
        } = found;
        invalid = first_invalid(invalid, is_valid(ack_sn, entry, e3), place);
        rest = &rest[length..];
        more = follows;
    }
    if !rest.is_empty() {
        return Err(Refusal::Malformed.at(size - rest.len()));
    }
    invalid.map_or(Ok(()), |place| Err(Refusal::InvalidEntry.at(place)))
}

/// The entries of a status report that are to come.
#[derive(Drop)]
pub struct Entries<'a> {
    /// What is left of the PDU, if an entry begins there.
    pub(crate) rest: Option<&'a [u8]>,
}

impl Iterator for Entries<'_> {
    ghost use Rattle.wire.specs.Views.{entry_of, entries_of};

    type Item = Entry;

    ghost next_gives = { YieldsFirstBy entry_of entries_of };

    ghost remaining = { item_count entries_of };

    fn next(&mut self) -> Option<Entry> {
        let rest = self.rest?;
        let Found {
            entry,
            size,
            e1,
            e3: _,
        } = find_entry(rest)?;
        self.rest = e1.then_some(&rest[size..]);
        Some(entry)
    }
}
