//! The near end.

ghost use Rattle.std.specs.Prelude.{◌≡◌, ◌+◌, ◌<◌, ◌≤◌, false, length};
ghost use Rattle.protocol.specs.Sending.{new_near, gives, given, highest_sent, considered_all, failed_if, tick_near};
ghost use Rattle.rlc_tx.specs.Windows.{Untired, sdus_in};
ghost use Rattle.wire.specs.Counts.{count_of};

use crate::slots::Slot;
use crate::windows::Window;
use protocol::{MAX_PACKET, PACKET_LIMIT};
use timers::{Settings, Timer};
use wire::{Fault, PdcpCount, Refusal, RlcCount};

/// What the near end keeps for its polls.
#[derive(Clone, Copy)]
pub(crate) struct Polling {
    /// POLL_SN: the highest count of which a byte had been sent when the last poll was.
    pub(crate) poll_sn: RlcCount,
    pub(crate) pdu_without_poll: u8,
    pub(crate) owed: bool,
    pub(crate) t_poll_retransmit: Timer,
}

/// What became of a status report.
#[derive(Clone, Copy, Debug, PartialEq, Eq)]
pub enum Report {
    /// Its ACK count lies beyond TX_Next: it is an old one, and changes nothing.
    Stale,
    Taken,
}

/// The near end of a link. Its memory is fixed.
#[derive(Drop)]
pub struct NearEnd {
    pub(crate) settings: Settings,
    /// TX_NEXT: the COUNT of the next packet.
    pub(crate) pdcp_tx_next: PdcpCount,
    pub(crate) window: Window,
    pub(crate) polling: Polling,
    pub(crate) failed: bool,
    ghost numbers: { settings.max_retx ≤ 255 },
    ghost together: { count_of pdcp_tx_next ≡ count_of window.tx_next },
    ghost untired: { (failed ≡ false → Untired settings.max_retx (sdus_in window)) },
}

impl NearEnd {
    ghost use Rattle.timers.specs.Views.{settings_of};
    ghost use Rattle.rlc_tx.specs.Ends.{near_of, state_of, after, given_by, count_answered};

    pub fn new(settings: Settings) -> NearEnd
        ensures { state_of result ≡ (settings_of settings, new_near) }
    {
        NearEnd {
            settings,
            pdcp_tx_next: PdcpCount::first(),
            window: Window::new(),
            polling: Polling {
                poll_sn: RlcCount::first(),
                pdu_without_poll: 0,
                owed: false,
                t_poll_retransmit: Timer::Stopped,
            },
            failed: false,
        }
    }

    /// The packet becomes the next SDU, under the COUNT that is answered.
    pub fn give(&mut self, packet: &[u8]) -> Result<PdcpCount, Fault>
        ensures { (count_answered result, state_of self.new) ≡ given_by (gives packet.now (near_of self.old)) (state_of self.old) }
    {
        if self.failed {
            return Err(Refusal::LinkFailed.at(0));
        }
        if packet.is_empty() || packet.len() > MAX_PACKET {
            return Err(Refusal::PacketLength.at(0));
        }
        if self.window.is_full() {
            return Err(Refusal::WindowFull.at(0));
        }
        if self.pdcp_tx_next.value() >= PACKET_LIMIT {
            return Err(Refusal::PacketLimit.at(0));
        }
        Ok(self.accept(packet))
    }

    fn accept(&mut self, packet: &[u8]) -> PdcpCount
        requires short { length packet.now ≤ 500 }
        requires room { (near_of self.old).tx_next < (near_of self.old).tx_next_ack + 16 }
        requires few { (near_of self.old).pdcp_tx_next < 1000000 }
        ensures count { count_of result ≡ (near_of self.old).pdcp_tx_next }
        ensures state { state_of self.new ≡ after (λ _. given packet.now) (state_of self.old) }
    {
        let count = self.pdcp_tx_next;
        let slot = Slot::new(count.sn(), packet);
        self.window.push(slot);
        self.pdcp_tx_next = count.saturating_plus(1);
        count
    }

    /// All bytes of the highest SDU that was sent and is not acknowledged are to be sent again.
    fn repeat(&mut self)
        ensures { state_of self.new ≡ after (λ s n. failed_if s (considered_all (highest_sent n) n)) (state_of self.old) }
    {
        self.window.repeat_highest();
        self.failed = self.window.has_failed(self.failed, self.settings.max_retx);
    }

    /// One Tick: when t-PollRetransmit runs out a poll is owed, and something to send it with.
    pub fn tick(&mut self)
        ensures { state_of self.new ≡ after tick_near (state_of self.old) }
    {
        if self.polling.t_poll_retransmit.tick() {
            self.polling.owed = true;
            if self.window.first(|_, slot| slot.has_left()).is_none() {
                self.repeat();
            }
        }
    }
}
