//! Which PDU a grant would send.

ghost use Rattle.std.specs.Prelude.{◌≡◌, ◌+◌, ◌≤◌, true, false, ◌||◌, Some};
ghost use Rattle.protocol.specs.Sending.{served, counted, nothing_to_send, marked, polls};
ghost use Rattle.rlc_tx.specs.Ends.{near_of, set_by, unless_reached};
ghost use Rattle.rlc_tx.specs.Plans.{run_of, plan_of, planned, Leads};
ghost use Rattle.std.specs.Option.{option_map};
ghost use Rattle.wire.specs.Counts.{count_of};

use crate::ends::NearEnd;
use crate::plans::{Plan, Run};
use wire::Grant;

/// A number of PDUs with one more, which counts if its bytes are new; none: the limit is reached.
fn count_below(limit: u8, without: u8, new: bool) -> Option<u8>
    ensures { result ≡ unless_reached (Some limit) (counted (Some limit) new without) }
{
    without
        .checked_add(u8::from(new))
        .filter(|without| *without < limit)
}

impl NearEnd {
    /// The bytes that a grant serves: pending ones of the lowest count that has any, and else unsent ones.
    fn next_run(&self, grant: usize) -> Option<Run>
        ensures { option_map run_of result ≡ served (near_of self.now) grant }
    {
        if let Some(count) = self.window.first(|_, slot| slot.has_pending()) {
            return Some(self.window.slot(count).pending_run(count, grant));
        }
        let count = self.window.first(|_, slot| slot.has_unsent())?;
        Some(self.window.slot(count).unsent_run(count, grant))
    }

    /// PDU_WITHOUT_POLL with one PDU more, which counts if its bytes are new; none: pollPDU is reached.
    pub(crate) fn without_poll(&self, new: bool) -> Option<u8>
        ensures { result ≡ unless_reached self.now.settings.poll_pdu (counted self.now.settings.poll_pdu new self.now.polling.pdu_without_poll) }
    {
        let without = self.polling.pdu_without_poll;
        // A rule of the project: an absent pollPDU is taken apart where the limit is tested.
        match self.settings.poll_pdu {
            Some(limit) => count_below(limit, without, new),
            None => Some(without),
        }
    }

    /// Whether nothing is to be sent once this run was.
    fn is_last(&self, run: Run) -> bool
        requires { Leads (run_of run) ((near_of self.now).sdu (count_of run.count)) }
        ensures { result ≡ nothing_to_send (marked (run_of run) (near_of self.now)) }
    {
        self.window
            .first(|count, slot| slot.left() > run.size_in(count))
            .is_none()
    }

    /// P: enough PDUs went without one, nothing is left to send, or a poll is owed.
    fn is_poll(&self, run: Run) -> bool
        requires { Leads (run_of run) ((near_of self.now).sdu (count_of run.count)) }
        ensures { result ≡ polls (set_by self.now) (run_of run) (near_of self.now) }
    {
        let reached = self.without_poll(run.new).is_none();
        let last = self.is_last(run);
        reached || last || self.polling.owed
    }

    /// The PDU that a grant of this size would send.
    pub(crate) fn plan_for(&self, grant: usize) -> Option<Plan>
        requires { 5 ≤ grant }
        ensures { plan_of result ≡ planned (set_by self.now) (near_of self.now) grant }
    {
        let run = self.next_run(grant)?;
        let poll = self.is_poll(run);
        Some(Plan { run, poll })
    }

    /// The PDU that a grant would send; none: there is nothing to send. Nothing changes.
    pub fn plan(&self, grant: &Grant) -> Option<Plan>
        ensures { plan_of result ≡ planned (set_by self.now) (near_of self.now) grant.now.size }
    {
        self.plan_for(grant.size())
    }
}
