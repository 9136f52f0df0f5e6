//! A script at a far end: RLC's receiving side, and PDCP above it.

use crate::failures::Failure;
use crate::scripts::Command;
use crate::shown::show_spent;
use hex_digits::Hex;
use pdcp::Receiver;
use rlc_rx::{FarEnd, Reception};
use timers::Settings;
use wire::Refusal;

#[derive(Drop)]
pub(crate) struct FarSide {
    end: FarEnd,
    pdcp: Receiver,
}

impl FarSide {
    pub(crate) fn new(settings: Settings) -> FarSide {
        FarSide {
            end: FarEnd::new(settings),
            pdcp: Receiver::new(settings),
        }
    }

    fn read(&mut self, rt: &impl Print, bytes: &[u8]) -> Result<(), Failure> {
        if self.pdcp.due() > 0 {
            return Err(Refusal::PacketDue.at(0).into());
        }
        match self.end.read(bytes)? {
            Reception::Discarded => println!(rt; "  discarded")?,
            Reception::Kept => println!(rt; "  kept")?,
            Reception::HandedUp(completed) => {
                self.pdcp.receive(self.end.sdu(&completed))?;
                println!(rt; "  handed up {}", self.pdcp.due())?;
            }
        }
        Ok(())
    }

    fn collect(&mut self, rt: &impl Print) -> Result<(), Failure> {
        let mut buffer = [0; 500];
        match self.pdcp.collect(&mut buffer)? {
            Some(length) => {
                let packet = &buffer[..length.min(buffer.len())];
                println!(rt; "  collected {}", Hex(packet))?;
            }
            None => println!(rt; "  none")?,
        }
        Ok(())
    }

    /// Carries a command out, and prints its answer.
    pub(crate) fn obey(&mut self, rt: &impl Print, command: Command) -> Result<(), Failure> {
        match command {
            Command::Spend(size) => {
                show_spent(rt, size, |grant, buffer| self.end.spend(grant, buffer))
            },
            Command::Read(bytes) => self.read(rt, bytes.as_slice()),
            Command::Collect => self.collect(rt),
            Command::Tick => {
                self.end.tick();
                self.pdcp.tick();
                println!(rt; "  ok")?;
                Ok(())
            }
            _ => Err(Failure::NotAtFarEnd),
        }
    }
}
