//! PDCP at the far end: its variables and its calls.

ghost use Rattle.std.specs.Prelude.{◌≡◌, ◌+◌, ◌<◌, ◌≤◌, true, [], length};
ghost use Rattle.pdcp.specs.Stores.{stored_of, Below};
ghost use Rattle.protocol.specs.Reordering.{new_pdcp, due, counted, tick_pdcp, unstored_from, storing, delivering, reordering, accepted};
ghost use Rattle.protocol.specs.Sending.{packet_limit, window_size};
ghost use Rattle.protocol.specs.Timers.{runs};
ghost use Rattle.std.specs.Option.{option_map};
ghost use Rattle.timers.specs.Views.{settings_of, timer_of};
ghost use Rattle.wire.specs.Counts.{count_of};

use crate::headers::read_data;
use crate::places::Packet;
use crate::stores::{Store, WINDOW};
use protocol::{Fault, MAX_SDU, PACKET_LIMIT, Refusal};
use timers::{Settings, Timer};
use wire::PdcpCount;

/// PDCP at the far end.
#[derive(Drop)]
pub struct Receiver {
    settings: Settings,
    /// The lowest COUNT that may still come.
    rx_deliv: PdcpCount,
    /// One past the highest COUNT that came.
    rx_next: PdcpCount,
    /// Where t-Reordering began.
    rx_reord: PdcpCount,
    t_reordering: Timer,
    /// Those below RX_DELIV are due.
    store: Store,
    ghost delivered: { count_of rx_deliv ≤ count_of rx_next },
    ghost begun: { count_of rx_reord ≤ count_of rx_next },
    ghost limited: { count_of rx_next ≤ packet_limit },
    ghost timed: { (runs (timer_of t_reordering) ≡ true → count_of rx_deliv ≤ count_of rx_reord) },
    // So no two stored COUNTs are 16 apart once nothing is due.
    ghost within: { Below (count_of rx_deliv + window_size) (stored_of store) },
}

impl Receiver {
    ghost use Rattle.pdcp.specs.Stores.{lowest_of};
    ghost use Rattle.pdcp.specs.Views.{pdcp_of, state_of, after, answered, receives, collects_into, Awaited};

    pub fn new(settings: Settings) -> Receiver
        ensures { state_of result ≡ (settings_of settings, new_pdcp) }
    {
        let first = PdcpCount::first();
        Receiver {
            settings,
            rx_deliv: first,
            rx_next: first,
            rx_reord: first,
            t_reordering: Timer::Stopped,
            store: Store::new(),
        }
    }

    /// How many packets are due.
    pub fn due(&self) -> usize
        ensures { result ≡ length (due (pdcp_of self.now)) }
    {
        self.store.count_below(self.rx_deliv)
    }

    /// Refuses a COUNT out of range, discards one below RX_DELIV or stored, and takes any other packet.
    fn take_counted(&mut self, count: Option<PdcpCount>, packet: &Packet) -> Result<(), Fault>
        requires { due (pdcp_of self.old) ≡ [] }
        ensures { (result, state_of self.new) ≡ answered (counted (settings_of self.old.settings) (option_map count_of count) packet.now.bytes.now (pdcp_of self.old)) (state_of self.old) }
    {
        let count = count.ok_or(Refusal::CountRange.at(0))?;
        if count.value() >= self.rx_deliv.value() + WINDOW || count.value() >= PACKET_LIMIT {
            return Err(Refusal::CountRange.at(0));
        }
        if count < self.rx_deliv || self.store.contains(count.value()) {
            return Ok(());
        }
        self.accept(count, packet);
        Ok(())
    }

    /// Takes an SDU that RLC hands up; none is taken while a packet is due.
    pub fn receive(&mut self, sdu: &[u8]) -> Result<(), Fault>
        ensures { (result, state_of self.new) ≡ receives sdu.now (state_of self.old) }
    {
        if self.due() > 0 {
            return Err(Refusal::PacketDue.at(0));
        }
        if sdu.len() > MAX_SDU {
            return Err(Refusal::NotPdcpData.at(0));
        }
        let pdu = read_data(sdu)?;
        let count = pdu.sn.pdcp_count(self.rx_deliv);
        let packet = Packet {
            bytes: pdu.packet.bytes,
        };
        self.take_counted(count, &packet)
    }

    /// One Tick: when t-Reordering runs out, the COUNTs below RX_REORD that are missing are given up.
    pub fn tick(&mut self)
        ensures { state_of self.new ≡ after tick_pdcp (state_of self.old) }
    {
        if self.t_reordering.tick() {
            self.rx_deliv = self.next_missing(self.rx_reord);
            self.start_reordering();
        }
    }

    /// Writes the lowest due packet at the buffer's start, answers its length and removes it; none: none is due.
    pub fn collect(&mut self, buffer: &mut [u8]) -> Result<Option<usize>, Fault>
        ensures { (result, buffer.new, state_of self.new) ≡ collects_into buffer.old (state_of self.old) }
    {
        let Some(count) = self.lowest_due() else {
            return Ok(None);
        };
        let length = self.store.take(count, buffer);
        length.map(Some).ok_or(Refusal::ShortCollect.at(0))
    }

    /// The first COUNT from `from` on that is not stored.
    fn next_missing(&self, from: PdcpCount) -> PdcpCount
        requires { count_of from ≤ count_of self.now.rx_next }
        ensures { count_of result ≡ unstored_from (pdcp_of self.now) (count_of from) }
    {
        let end = self.rx_next.value();
        let missing = (from.value()..end)
            .find(|&count| !self.store.contains(count))
            .unwrap_or(end);
        PdcpCount::first().saturating_plus(missing)
    }

    /// t-Reordering starts if it does not run and a COUNT below RX_NEXT is missing.
    fn start_reordering(&mut self)
        ensures { state_of self.new ≡ after reordering (state_of self.old) }
    {
        if !self.t_reordering.is_running() && self.rx_deliv < self.rx_next {
            self.rx_reord = self.rx_next;
            self.t_reordering = Timer::start(self.settings.t_reordering);
        }
    }

    /// RX_DELIV moves; t-Reordering stops once it has passed RX_REORD.
    fn deliver(&mut self, deliv: PdcpCount)
        requires from { count_of self.old.rx_deliv ≤ count_of deliv }
        requires to { count_of deliv ≤ count_of self.old.rx_next }
        ensures { state_of self.new ≡ after (λ _. delivering (count_of deliv)) (state_of self.old) }
    {
        self.rx_deliv = deliv;
        let passed = self.rx_reord <= deliv;
        self.t_reordering.stop_if(passed);
    }

    /// Stores a packet; RX_NEXT moves past it.
    fn keep(&mut self, count: PdcpCount, packet: &Packet)
        requires { Awaited (count_of count) (pdcp_of self.old) }
        ensures { state_of self.new ≡ after (λ _. storing (count_of count) packet.now.bytes.now) (state_of self.old) }
    {
        self.store.insert(count, packet);
        if self.rx_next <= count {
            self.rx_next = count.saturating_plus(1);
        }
    }

    /// Takes a packet that is not discarded.
    fn accept(&mut self, count: PdcpCount, packet: &Packet)
        requires { Awaited (count_of count) (pdcp_of self.old) }
        ensures { state_of self.new ≡ after (λ s. accepted s (count_of count) packet.now.bytes.now) (state_of self.old) }
    {
        self.keep(count, packet);
        let deliv = if count == self.rx_deliv {
            self.next_missing(count)
        } else {
            self.rx_deliv
        };
        self.deliver(deliv);
        self.start_reordering();
    }

    /// The lowest COUNT that is due.
    fn lowest_due(&self) -> Option<PdcpCount>
        ensures { option_map count_of result ≡ lowest_of (due (pdcp_of self.now)) }
    {
        self.store.lowest().filter(|lowest| *lowest < self.rx_deliv)
    }
}
