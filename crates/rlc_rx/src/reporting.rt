//! Whether a status report is wanted, and whether t-StatusProhibit bars it.

ghost use Rattle.std.specs.Prelude.{◌≡◌};
ghost use Rattle.protocol.specs.Receiving.{reports, triggered_if};
ghost use Rattle.rlc_rx.specs.Reports.{reporting_of, event_taken};

#[derive(Clone, Copy)]
pub(crate) enum Reporting {
    Quiet,
    Wanted,
    Barred,
    BarredWanted,
}

/// What changes it.
#[derive(Clone, Copy)]
pub(crate) enum Event {
    /// A status report is asked for.
    Trigger,
    /// A grant was spent here.
    Grant,
    /// t-StatusProhibit has run out.
    Timer,
}

impl Reporting {
    /// Whether a grant writes a report.
    pub(crate) fn reports(self) -> bool
        ensures { result ≡ reports (reporting_of self) }
    {
        matches!(self, Reporting::Wanted)
    }

    // A rule of the project: the machine matches its own state and the event together, and changes in place.
    pub(crate) fn on(&mut self, event: Event)
        ensures { reporting_of self.new ≡ event_taken event (reporting_of self.old) }
    {
        *self = match (*self, event) {
            (Reporting::Quiet, Event::Trigger) => Reporting::Wanted,
            (Reporting::Barred, Event::Trigger) => Reporting::BarredWanted,
            (Reporting::Wanted, Event::Grant) => Reporting::Barred,
            (Reporting::Barred, Event::Timer) => Reporting::Quiet,
            (Reporting::BarredWanted, Event::Timer) => Reporting::Wanted,
            (state, _) => state,
        };
    }

    pub(crate) fn trigger_if(&mut self, condition: bool)
        ensures { reporting_of self.new ≡ triggered_if condition (reporting_of self.old) }
    {
        if condition {
            self.on(Event::Trigger);
        }
    }
}
