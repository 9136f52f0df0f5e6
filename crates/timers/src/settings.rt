//! The settings of a link.

ghost use Rattle.std.specs.Prelude.{◌≡◌};
ghost use Rattle.protocol.specs.Settings.{between, between_if, in_range};
ghost use Rattle.timers.specs.Views.{settings_of};

/// What a link runs by. Timers are set in Ticks.
#[derive(Clone, Copy)]
pub struct Settings {
    /// PDUs of new bytes until a poll; none: the number is never reached.
    pub poll_pdu: Option<u8>,
    /// Retransmissions of one SDU until the link fails.
    pub max_retx: u8,
    pub t_poll_retransmit: u16,
    pub t_reassembly: u16,
    pub t_status_prohibit: u16,
    /// None: t-Reordering never runs out.
    pub t_reordering: Option<u16>,
}

fn is_timer(n: u16) -> bool
    ensures { result ≡ between 1 10000 n }
{
    (1..=10_000).contains(&n)
}

impl Settings {
    /// Whether each is in its range: pollPDU 1 to 255, maxRetx 1 to 32, timers 1 to 10,000.
    pub fn in_range(self) -> bool
        ensures { result ≡ in_range (settings_of self) }
    {
        self.poll_pdu.is_none_or(|n| n >= 1)
            && (1..=32).contains(&self.max_retx)
            && is_timer(self.t_poll_retransmit)
            && is_timer(self.t_reassembly)
            && is_timer(self.t_status_prohibit)
            && self.t_reordering.is_none_or(is_timer)
    }
}
