//! Plays a script at one end of a link, near or far. A line of it is one of these, with bytes in hexadecimal:
//!
//!     near POLLPDU MAXRETX T-POLLRETRANSMIT             starts a new near end; `-` is an absent pollPDU
//!     far T-REASSEMBLY T-STATUSPROHIBIT T-REORDERING    starts a new far end; `-` is an absent t-Reordering
//!     grant SIZE, read BYTES, tick                      at that end
//!     give BYTES                                        at a near end
//!     collect                                           at a far end
//!
//! Each line prints its answer, and what is sent or collected. Nothing is carried from one end to the other.

#![tactic(auto)]

mod failures;
mod far;
mod near;
mod scripts;
mod shown;

use failures::Failure;
use far::FarSide;
use near::NearSide;
use scripts::{Command, DEFAULTS};
use std::io;

/// The end that a script plays at.
#[derive(Drop)]
enum Side {
    Near(NearSide),
    Far(FarSide),
}

impl Side {
    /// Carries a command out, and prints its answer.
    fn obey(&mut self, rt: &impl Print, command: Command) -> Result<(), Failure> {
        // A new end first: every other command is for the end that stands then.
        match command {
            Command::Near(settings) => {
                *self = Side::Near(NearSide::new(settings));
                println!(rt; "  ok")?;
                return Ok(());
            }
            Command::Far(settings) => {
                *self = Side::Far(FarSide::new(settings));
                println!(rt; "  ok")?;
                return Ok(());
            }
            _ => {}
        }
        match self {
            Side::Near(near) => near.obey(rt, command),
            Side::Far(far) => far.obey(rt, command),
        }
    }
}

/// The same; a command that is not carried out prints why.
fn play(rt: &impl Print, side: &mut Side, command: Command) -> io::Result<()> {
    match side.obey(rt, command) {
        Ok(()) => Ok(()),
        Err(Failure::Output(error)) => Err(error),
        Err(failure) => println!(rt; "  {failure}"),
    }
}

fn run(rt: &HostRuntime) -> anyhow::Result<()> {
    let heap = rt.alloc();
    let mut side = Side::Near(NearSide::new(DEFAULTS));
    for line in rt.lines(heap) {
        let line = line?;
        rt.println(line.as_str())?;
        match Command::parse(heap, line.as_str()) {
            Ok(command) => play(rt, &mut side, command)?,
            Err(bad) => println!(rt; "  error: {bad}")?,
        }
    }
    Ok(())
}

fn main(rt: HostRuntime) -> anyhow::Result<()> {
    run(&rt)
}
