//! Spending a grant.

ghost use Rattle.std.specs.Prelude.{◌≡◌, false, length, Ok};
ghost use Rattle.protocol.specs.Bytes.{put};
ghost use Rattle.protocol.specs.Pdus.{amd, encode};
ghost use Rattle.protocol.specs.Sending.{counted, reached, marked, amd_of_run, spent, polls, spends};
ghost use Rattle.rlc_tx.specs.Ends.{near_of, set_by, state_of, after, polling_of, spent_by, polled_by};
ghost use Rattle.rlc_tx.specs.Plans.{run_of, Serves};
ghost use Rattle.wire.specs.Counts.{count_of};

use crate::ends::{NearEnd, Polling};
use crate::plans::{Plan, Run};
use timers::Timer;
use wire::{Fault, Grant, Header, Refusal, write_amd};

impl NearEnd {
    /// Writes a PDU at the buffer's start.
    fn write(&self, plan: Plan, buffer: &mut [u8]) -> Result<usize, Fault>
        requires run { Serves (near_of self.now) (length buffer.old) (run_of plan.run) }
        requires poll { plan.poll ≡ polls (set_by self.now) (run_of plan.run) (near_of self.now) }
        ensures size { result ≡ Ok (length (encode (amd (amd_of_run (set_by self.now) (run_of plan.run) (near_of self.now))))) }
        ensures buffer { buffer.new ≡ put (encode (amd (amd_of_run (set_by self.now) (run_of plan.run) (near_of self.now)))) buffer.old }
    {
        let Plan { run, poll } = plan;
        let slot = self.window.slot(run.count);
        let header = Header {
            poll,
            sn: run.count.sn(),
            segment: slot.segment(run),
        };
        write_amd(header, slot.data(run), buffer)
    }

    /// The bytes of a run are sent ones.
    fn mark(&mut self, run: Run)
        requires run { Serves (near_of self.old) 512 (run_of run) }
        requires alive { self.old.failed ≡ false }
        ensures { state_of self.new ≡ after (λ _. marked (run_of run)) (state_of self.old) }
    {
        self.window.send(run);
    }

    /// The polls of a near end that has just sent a PDU, with P or without.
    fn polled(&self, poll: bool, new: bool) -> Polling
        requires { poll ≡ false → reached self.now.settings.poll_pdu (counted self.now.settings.poll_pdu new self.now.polling.pdu_without_poll) ≡ false }
        ensures { polling_of result ≡ polled_by (set_by self.now) poll new (near_of self.now) }
    {
        if poll {
            return Polling {
                poll_sn: self.window.top().previous(),
                pdu_without_poll: 0,
                owed: false,
                t_poll_retransmit: Timer::start(Some(self.settings.t_poll_retransmit)),
            };
        }
        Polling {
            pdu_without_poll: self.without_poll(new).unwrap_or(0),
            ..self.polling
        }
    }

    /// A PDU was sent.
    fn note_sent(&mut self, plan: Plan)
        requires run { Serves (near_of self.old) 512 (run_of plan.run) }
        requires poll { plan.poll ≡ polls (set_by self.old) (run_of plan.run) (near_of self.old) }
        requires alive { self.old.failed ≡ false }
        ensures { state_of self.new ≡ after (λ s. spent s (run_of plan.run)) (state_of self.old) }
    {
        let Plan { run, poll } = plan;
        self.mark(run);
        self.polling = self.polled(poll, run.new);
    }

    /// Sends the PDU that the grant allows, if there is one: it is written at the buffer's start, and its
    /// length is answered.
    pub fn spend(&mut self, grant: Grant, buffer: &mut [u8]) -> Result<usize, Fault>
        ensures { (result, state_of self.new, buffer.new) ≡ spent_by (spends (set_by self.old) grant.size (length buffer.old) (near_of self.old)) (state_of self.old) buffer.old }
    {
        let size = grant.size();
        grant.give_back();
        if self.failed {
            return Err(Refusal::LinkFailed.at(0));
        }
        if buffer.len() < size {
            return Err(Refusal::ShortBuffer.at(0));
        }
        let Some(plan) = self.plan_for(size) else {
            // The rules' answer where nothing is sent: a length of 0.
            return Ok(0);
        };
        let length = self.write(plan, buffer)?;
        self.note_sent(plan);
        Ok(length)
    }
}
