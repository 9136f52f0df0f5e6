//! Reading a status report.

ghost use Rattle.std.specs.Prelude.{◌≡◌, ℕ, ◌<◌, ◌≤◌, nat_lt};
ghost use Rattle.rlc_tx.specs.Touches.{named_of, settled, settled_to, counted_of, counted_if, touch_at, named_touch, entered, touched};
ghost use Rattle.protocol.specs.Numbers.{stale};
ghost use Rattle.protocol.specs.Sending.{answered, names_byte, named, considered_in, reported, reads, with_sdus};
ghost use Rattle.protocol.specs.Reading.{decode};
ghost use Rattle.protocol.specs.declared.faults.End.TheVariants.{Near};
ghost use Rattle.rlc_tx.specs.Ends.{near_of, polling_of, set_by, state_of, after, read_by};
ghost use Rattle.rlc_tx.specs.Touches.{named_sdu};
ghost use Rattle.rlc_tx.specs.Windows.{sdus_in, bare, with_sdu, Holds};
ghost use Rattle.wire.specs.Counts.{count_of};
ghost use Rattle.wire.specs.Views.{missing_of, entry_of, entries_of};

use crate::ends::{NearEnd, Polling, Report};
use crate::windows::{Window, place};
use protocol::WINDOW_SIZE;
use wire::{End, Entries, Entry, Fault, Pdu, Reader, Refusal, RlcCount};

/// What the entries of a report read so far say of an SDU.
#[derive(Clone, Copy, PartialEq, Eq)]
enum Touch {
    /// None names it.
    Unnamed,
    /// One names it.
    Named,
    /// One has changed its RETX_COUNT, which one report does at most once.
    Counted,
}

impl Touch {
    /// Named, by an entry with which RETX_COUNT has changed or not.
    // By a flag: with this choice in its caller, the proof there falls into two.
    fn named(counted: bool) -> Touch
        ensures { result ≡ counted_if counted }
    {
        if counted {
            Touch::Counted
        } else {
            Touch::Named
        }
    }
}

impl Window {
    /// An ACK count that lies beyond TX_Next is an old one.
    fn is_stale(&self, ack: RlcCount) -> bool
        ensures { result ≡ stale (count_of self.now.tx_next) (count_of ack) }
    {
        ack > self.tx_next
    }

    /// An entry is considered for an SDU of the window that is not acknowledged. Answers what is to be noted of it.
    fn consider_named(&mut self, count: RlcCount, entry: Entry, touch: Touch) -> Touch
        requires { Holds self.old (count_of count) }
        ensures sdus { bare self.new ≡ with_sdus (bare self.old) (named_sdu (count_of count) (names_byte (missing_of entry.missing)) (counted_of touch) (sdus_in self.old)) }
        ensures touch { result ≡ named_touch (names_byte (missing_of entry.missing)) (counted_of touch) (sdus_in self.old (count_of count)) }
    {
        if self.slot(count).is_acknowledged() {
            return Touch::Named;
        }
        let counted = touch == Touch::Counted;
        Touch::named(self.consider(count, entry.missing, counted))
    }

    /// One entry.
    fn consider_entry(&mut self, touches: &mut [Touch; WINDOW_SIZE], entry: Entry)
        ensures sdus { bare self.new ≡ with_sdus (bare self.old) (entered (bare self.old) (entry_of entry) touches.old) }
        ensures touches { (x : ℕ) → Holds self.old x → touch_at touches.new x ≡ touched (bare self.old) (entry_of entry) touches.old x }
    {
        let Some(count) = entry.nack_sn.rlc_count(self.tx_next_ack) else {
            return;
        };
        if count >= self.tx_next {
            return;
        }
        let place = place(count);
        touches[place] = self.consider_named(count, entry, touches[place]);
    }

    /// All entries, in order. Answers what is noted of each SDU, at its count modulo 16: it lives as long as the
    /// report, and so beside the window's slots.
    fn consider_entries(&mut self, entries: Entries) -> [Touch; WINDOW_SIZE]
        ensures sdus { bare self.new ≡ with_sdus (bare self.old) (considered_in (bare self.old) (entries_of entries.entry)) }
        ensures named { (x : ℕ) → Holds self.old x → named_of (touch_at result x) ≡ named (bare self.old) (entries_of entries.entry) x }
    {
        let mut touches = [Touch::Unnamed; WINDOW_SIZE];
        for entry in entries {
            self.consider_entry(&mut touches, entry);
        }
        touches
    }

    /// An SDU below the ACK count that no entry names is acknowledged, if all of it was sent.
    fn acknowledge_one(&mut self, count: RlcCount, ack: RlcCount, touch: Touch)
        requires { Holds self.old (count_of count) }
        ensures { bare self.new ≡ with_sdu (bare self.old) (count_of count) (settled (nat_lt (count_of count) (count_of ack)) (named_of touch) (sdus_in self.old (count_of count))) }
    {
        let below = count < ack;
        let named = touch != Touch::Unnamed;
        let unsent = self.slot(count).has_unsent();
        if below && !named && !unsent {
            self.acknowledge(count);
        }
    }

    /// Every SDU that a report acknowledges.
    fn acknowledge_all(&mut self, ack: RlcCount, touches: &[Touch; WINDOW_SIZE])
        ensures { bare self.new ≡ with_sdus (bare self.old) (settled_to (count_of self.old.tx_next_ack) (count_of self.old.tx_next) (count_of ack) touches.now (sdus_in self.old)) }
    {
        // Over counts: an iterator over the slots would hold the window that each turn changes.
        for k in 0..self.len() {
            let count = self.count(k);
            self.acknowledge_one(count, ack, touches[place(count)]);
        }
    }
}

impl Polling {
    /// t-PollRetransmit stops if a report of this ACK count answers the last poll.
    fn note_report(&mut self, ack: RlcCount)
        ensures { polling_of self.new ≡ answered (count_of ack) (polling_of self.old) }
    {
        self.t_poll_retransmit.stop_if(self.poll_sn < ack);
    }
}

impl NearEnd {
    /// A report that is not stale.
    fn report(&mut self, ack: RlcCount, entries: Entries)
        requires { count_of ack ≤ (near_of self.old).tx_next }
        ensures { state_of self.new ≡ after (λ s. reported s (count_of ack) (entries_of entries.entry)) (state_of self.old) }
    {
        let touches = self.window.consider_entries(entries);
        self.failed = self.window.has_failed(self.failed, self.settings.max_retx);
        self.window.acknowledge_all(ack, &touches);
        self.window.advance();
        self.polling.note_report(ack);
    }

    /// Reads a PDU that has arrived.
    pub fn read(&mut self, bytes: &[u8]) -> Result<Report, Fault>
        ensures { (result, state_of self.new) ≡ read_by (reads (set_by self.old) (decode Near bytes.now) (near_of self.old)) (state_of self.old) }
    {
        let reader = Reader {
            end: End::Near,
            bytes,
        };
        let Pdu::Status { ack_sn, entries } = reader.read()? else {
            return Err(Refusal::WrongKind.at(0));
        };
        let Some(ack) = ack_sn.rlc_count(self.window.tx_next_ack) else {
            return Ok(Report::Stale);
        };
        if self.window.is_stale(ack) {
            return Ok(Report::Stale);
        }
        self.report(ack, entries);
        Ok(Report::Taken)
    }
}
