//! Timers.

ghost use Rattle.std.specs.Prelude.{◌≡◌};
ghost use Rattle.protocol.specs.Timers.{started, runs, runs_out, ticked, stopped_if};
ghost use Rattle.timers.specs.Views.{timer_of};

/// A timer counts the Ticks of its own end: one of n runs out in the n-th Tick after its start.
#[derive(Clone, Copy)]
pub enum Timer {
    Stopped,
    /// Ticks left, the one in which it runs out among them.
    Running { left: u16 },
    /// It runs, and never runs out.
    Endless,
}

impl Timer {
    /// A timer just started; without a setting it never runs out.
    pub fn start(setting: Option<u16>) -> Timer
        ensures { timer_of result ≡ started setting }
    {
        // A rule of the project: an absent setting is taken apart where the timer starts.
        match setting {
            Some(left) => Timer::Running { left },
            None => Timer::Endless,
        }
    }

    pub fn is_running(self) -> bool
        ensures { result ≡ runs (timer_of self) }
    {
        !matches!(self, Timer::Stopped)
    }

    pub fn stop_if(&mut self, condition: bool)
        ensures { timer_of self.new ≡ stopped_if condition (timer_of self.old) }
    {
        if condition {
            *self = Timer::Stopped;
        }
    }

    /// One Tick; answers whether the timer runs out in it.
    pub fn tick(&mut self) -> bool
        ensures { (timer_of self.new ≡ ticked (timer_of self.old)) × (result ≡ runs_out (timer_of self.old)) }
    {
        match *self {
            Timer::Running { left } if left > 1 => {
                *self = Timer::Running { left: left - 1 };
                false
            }
            Timer::Running { .. } => {
                *self = Timer::Stopped;
                true
            }
            Timer::Stopped | Timer::Endless => false,
        }
    }
}
