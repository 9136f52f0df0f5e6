//! A script at a near end.

use crate::failures::Failure;
use crate::scripts::Command;
use crate::shown::show_spent;
use rlc_tx::{NearEnd, Report};
use timers::Settings;

#[derive(Drop)]
pub(crate) struct NearSide {
    end: NearEnd,
}

impl NearSide {
    pub(crate) fn new(settings: Settings) -> NearSide {
        NearSide {
            end: NearEnd::new(settings),
        }
    }

    /// Carries a command out, and prints its answer.
    pub(crate) fn obey(&mut self, rt: &impl Print, command: Command) -> Result<(), Failure> {
        match command {
            Command::Give(packet) => {
                let count = self.end.give(packet.as_slice())?;
                println!(rt; "  COUNT {}", count.value())?;
            }
            Command::Spend(size) => {
                show_spent(rt, size, |grant, buffer| self.end.spend(grant, buffer))?;
            }
            Command::Read(bytes) => match self.end.read(bytes.as_slice())? {
                Report::Stale => println!(rt; "  stale")?,
                Report::Taken => println!(rt; "  taken")?,
            },
            Command::Tick => {
                self.end.tick();
                println!(rt; "  ok")?;
            }
            _ => return Err(Failure::NotAtNearEnd),
        }
        Ok(())
    }
}
