//! The far end's receiving side.

ghost use Rattle.std.specs.Prelude.{◌≡◌, ◌-◌, ◌≤◌, true, false, length, Ok};
ghost use Rattle.protocol.specs.Bytes.{put};
ghost use Rattle.protocol.specs.Drafts.{fill};
ghost use Rattle.protocol.specs.Pdus.{encode};
ghost use Rattle.protocol.specs.Receiving.{new_far, clashes, received, taken, awaited, given_up, tick_reassembly, tick_prohibit, tick_far, report_from, report, report_pdu};
ghost use Rattle.protocol.specs.Timers.{runs};
ghost use Rattle.rlc_rx.specs.DataPdus.{data_pdu_of};
ghost use Rattle.rlc_rx.specs.Windows.{stored, Waits, IsInWindow, IsInRange};
ghost use Rattle.timers.specs.Views.{timer_of, settings_of};
ghost use Rattle.wire.specs.Drafted.{draft_of};
ghost use Rattle.wire.specs.Counts.{sn_of, count_of};

use crate::data_pdus::DataPdu;
use crate::entries::SduEntries;
use crate::receptions::{Completed, Reception};
use crate::reporting::{Event, Reporting};
use crate::windows::Window;
use protocol::PACKET_LIMIT;
use timers::{Settings, Timer};
use wire::{Amd, Draft, End, Fault, Grant, Reader, Refusal, RlcCount};

/// RLC's receiving side: it puts SDUs together from segments, and reports what is missing.
#[derive(Drop)]
pub struct FarEnd {
    settings: Settings,
    window: Window,
    t_reassembly: Timer,
    reporting: Reporting,
    t_status_prohibit: Timer,
    ghost waits: { Waits window },
    ghost triggered: { (runs (timer_of t_reassembly) ≡ true → count_of window.rx_next ≤ count_of window.rx_next_status_trigger) },
}

impl FarEnd {
    ghost use Rattle.rlc_rx.specs.Receptions.{sdu_at, answer_of, receiving, reading};
    ghost use Rattle.rlc_rx.specs.Spending.{Listed, spending};
    ghost use Rattle.rlc_rx.specs.Views.{far_of, state_of, state_after};

    /// A far end that has received nothing.
    pub fn new(settings: Settings) -> FarEnd
        ensures { state_of result ≡ (settings_of settings, new_far) }
    {
        FarEnd {
            settings,
            window: Window::new(),
            t_reassembly: Timer::Stopped,
            reporting: Reporting::Quiet,
            t_status_prohibit: Timer::Stopped,
        }
    }

    /// Starts t-Reassembly if it does not run and something from `low` on is missing.
    fn await_from(&mut self, low: RlcCount)
        requires { IsInRange self.old.window (count_of low) }
        ensures state { state_of self.new ≡ state_after (λ s. awaited s (count_of low)) (state_of self.old) }
        ensures slots { self.new.window.slots ≡ self.old.window.slots }
    {
        if !self.t_reassembly.is_running() && self.window.is_awaited(low) {
            self.window.set_trigger();
            self.t_reassembly = Timer::start(Some(self.settings.t_reassembly));
        }
    }

    /// All steps with the data of count x.
    fn take(&mut self, x: RlcCount, pdu: &DataPdu)
        requires inside { IsInWindow self.old.window (count_of x) }
        requires fits { clashes ((far_of self.old).sdu (count_of x)) (data_pdu_of pdu.now) ≡ false }
        ensures state { state_of self.new ≡ state_after (λ s. taken s (count_of x) (data_pdu_of pdu.now)) (state_of self.old) }
        ensures held { stored self.new.window (count_of x) ≡ received (data_pdu_of pdu.now) ((far_of self.old).sdu (count_of x)) }
    {
        self.window.keep(x, pdu);
        let answered = self.window.advance(x);
        let settled = self.window.is_settled();
        self.t_reassembly.stop_if(settled);
        self.reporting.trigger_if(answered);
        let low = self.window.rx_next;
        self.await_from(low);
    }

    /// What becomes of a data PDU.
    fn receive(&mut self, pdu: &DataPdu) -> Result<Reception, Fault>
        ensures { (answer_of self.new result, state_of self.new) ≡ receiving (data_pdu_of pdu.now) (state_of self.old) }
    {
        let x = self.window.count(pdu.header.sn);
        if self.window.is_discarded(x, pdu) {
            self.reporting.trigger_if(pdu.header.poll);
            return Ok(Reception::Discarded);
        }
        if self.window.clashes(x, pdu) || x.value() >= PACKET_LIMIT {
            return Err(Refusal::EndClash.at(pdu.so_place()));
        }
        self.take(x, pdu);
        Ok(self.window.reception(x))
    }

    /// Reads a PDU that has arrived.
    pub fn read(&mut self, bytes: &[u8]) -> Result<Reception, Fault>
        ensures { (answer_of self.new result, state_of self.new) ≡ reading bytes.now (state_of self.old) }
    {
        let reader = Reader {
            end: End::Far,
            bytes,
        };
        let Ok(pdu) = Amd::try_from(reader.read()?) else {
            return Err(Refusal::WrongKind.at(0));
        };
        self.receive(&DataPdu {
            header: pdu.header,
            payload: pdu.data.bytes,
        })
    }

    /// The bytes of an SDU that has become complete, until the next PDU is read.
    pub fn sdu(&self, completed: &Completed) -> &[u8]
        ensures { result.now ≡ sdu_at self.now completed.now }
    {
        self.window.sdu(completed)
    }

    /// Adds the entries of the incomplete SDUs to a draft, in `most` bytes, and answers the count that is acknowledged up to.
    fn list_missing(
        &self,
        most: usize,
        draft: &mut Draft,
        buffer: &mut [u8],
    ) -> Result<RlcCount, Fault>
        ensures { Listed (report_from (far_of self.now) ((far_of self.now).rx_highest_status - (far_of self.now).rx_next) (far_of self.now).rx_next most) (draft_of draft.old) buffer.old result (draft_of draft.new) buffer.new }
    {
        let first = self.window.rx_next;
        let start = first.value();
        // Two ways out, an answer before the last SDU and a fault: a loop says them more plainly than `try_fold`.
        let mut room = most;
        for x in start..self.window.rx_highest_status.value() {
            let slot = self.window.slot(x);
            if slot.is_complete() {
                continue;
            }
            let count = first.saturating_plus(x - start);
            let length = SduEntries::new(slot, count).bytes();
            if length > room {
                return Ok(count);
            }
            SduEntries::new(slot, count).add_to(draft, buffer)?;
            room -= length;
        }
        Ok(self.window.rx_highest_status)
    }

    /// Writes the report that a grant of this size holds at the buffer's start, and answers its length.
    fn write_report(&self, size: usize, buffer: &mut [u8]) -> Result<usize, Fault>
        requires least { 5 ≤ size }
        requires room { size ≤ length buffer.old }
        ensures answer { result ≡ Ok (length (encode (report_pdu (report (far_of self.now) size)))) }
        ensures written { buffer.new ≡ put (encode (report_pdu (report (far_of self.now) size))) buffer.old }
    {
        let mut draft = Draft::open();
        let ack = self.list_missing(size - 3, &mut draft, buffer)?;
        draft
            .close(ack.sn(), buffer)
            .map(|closed| closed.size())
            .map_err(|refused| refused.fault)
    }

    /// Spends a grant: writes a status report at the buffer's start, if one is wanted, and answers its length.
    pub fn spend(&mut self, grant: Grant, buffer: &mut [u8]) -> Result<usize, Fault>
        ensures { (result, buffer.new, state_of self.new) ≡ spending grant.size buffer.old (state_of self.old) }
    {
        let size = grant.size();
        grant.give_back();
        if buffer.len() < size {
            return Err(Refusal::ShortBuffer.at(0));
        }
        if !self.reporting.reports() {
            // The rules' answer where nothing is sent: a length of 0.
            return Ok(0);
        }
        let length = self.write_report(size, buffer)?;
        self.reporting.on(Event::Grant);
        self.t_status_prohibit = Timer::start(Some(self.settings.t_status_prohibit));
        Ok(length)
    }

    /// t-Reassembly has run out: what is missing below the trigger is reported, and what lies beyond is waited for.
    fn give_up(&mut self)
        requires { count_of self.old.window.rx_next ≤ count_of self.old.window.rx_next_status_trigger }
        ensures { state_of self.new ≡ state_after given_up (state_of self.old) }
    {
        self.window.pass_trigger();
        self.t_reassembly = Timer::Stopped;
        self.reporting.on(Event::Trigger);
        let low = self.window.rx_highest_status;
        self.await_from(low);
    }

    fn tick_reassembly(&mut self)
        ensures { state_of self.new ≡ state_after tick_reassembly (state_of self.old) }
    {
        if self.t_reassembly.tick() {
            self.give_up();
        }
    }

    fn tick_prohibit(&mut self)
        ensures { state_of self.new ≡ state_after (λ _. tick_prohibit) (state_of self.old) }
    {
        if self.t_status_prohibit.tick() {
            self.reporting.on(Event::Timer);
        }
    }

    /// One Tick of this end.
    pub fn tick(&mut self)
        ensures { state_of self.new ≡ state_after tick_far (state_of self.old) }
    {
        self.tick_reassembly();
        self.tick_prohibit();
    }
}
