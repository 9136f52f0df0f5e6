//! What is missing of an SDU, as a status report names it.

ghost use Rattle.std.specs.Prelude.{◌≡◌, ℕ, ◌≤◌};
ghost use Rattle.protocol.specs.Drafts.{fill};
ghost use Rattle.protocol.specs.Receiving.{limit, sdu_entries, entries_length};
ghost use Rattle.rlc_rx.specs.Slots.{partial_of};
ghost use Rattle.std.specs.Iterator.{YieldsFirstBy, item_count};
ghost use Rattle.std.specs.Option.{unwrap_or};
ghost use Rattle.wire.specs.Drafted.{draft_of, added};
ghost use Rattle.wire.specs.Counts.{count_of};
ghost use Rattle.wire.specs.Views.{entry_of};

use crate::slots::Slot;
use wire::{Draft, Entry, Fault, Missing, RlcCount};

/// The entries of the SDU of a count, which is not complete, in order.
#[derive(Drop)]
pub(crate) struct SduEntries<'a> {
    slot: &'a Slot,
    count: RlcCount,
    /// Where the next gap is sought; none behind the last one.
    from: Option<usize>,
    ghost inside: { unwrap_or from 0 ≤ limit (partial_of slot.now) },
}

impl<'a> Iterator for SduEntries<'a> {
    ghost use Rattle.rlc_rx.specs.Entries.{entries_left};

    type Item = Entry;

    ghost next_gives = { YieldsFirstBy entry_of entries_left };

    ghost remaining = { item_count entries_left };

    fn next(&mut self) -> Option<Entry> {
        let from = self.from.take()?;
        let nack_sn = self.count.sn();
        if self.slot.is_empty() {
            let missing = Missing::Every;
            return Some(Entry { nack_sn, missing });
        }
        let gap = self.slot.gap_from(from)?;
        self.from = (gap.stop < self.slot.limit()).then_some(gap.stop);
        let missing = Missing::Span {
            so_start: gap.so_start,
            so_end: gap.so_end,
        };
        Some(Entry { nack_sn, missing })
    }
}

impl<'a> SduEntries<'a> {
    ghost use Rattle.rlc_rx.specs.Entries.{entries_left};

    /// The entries of the SDU in a slot, which is that of this count.
    pub(crate) fn new(slot: &'a Slot, count: RlcCount) -> SduEntries<'a>
        ensures { entries_left result ≡ sdu_entries (count_of count) (partial_of slot.entry.now) }
    {
        SduEntries {
            slot,
            count,
            from: Some(0),
        }
    }

    /// How many bytes they have.
    pub(crate) fn bytes(self) -> usize
        ensures { result ≡ entries_length (entries_left self.entry) }
    {
        // A `sum` would ask for a bound on how many entries come.
        let mut length = 0;
        for entry in self {
            length += entry.size();
        }
        length
    }

    /// Adds them to a report.
    pub(crate) fn add_to(self, draft: &mut Draft, buffer: &mut [u8]) -> Result<(), Fault>
        ensures { added result (draft_of draft.new) buffer.new ≡ fill (entries_left self.entry) (draft_of draft.old) buffer.old }
    {
        for entry in self {
            draft.add(entry, buffer)?;
        }
        Ok(())
    }
}
