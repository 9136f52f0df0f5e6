//! Plays a script over an air: a line of it is `air pipe MASK`, `air pool MASK`, `put BYTES`, `skip` or
//! `take DRAW`, with the mask and the bytes in hexadecimal. Each Take prints what it lets out, and each
//! line prints what waits, oldest first, as `BYTES@AGE`. Before the first `air` line stands a pipe that fades nothing.

#![tactic(auto)]

mod carriers;
mod scripts;

use air::MAX_PDU;
use carriers::Carrier;
use hex_digits::Hex;
use scripts::{Command, Kind};
use std::io;

/// Makes a Take, and prints what it lets out and what then waits, as one text: a print is a write of its own.
fn take(rt: &impl Print, carrier: &mut Carrier, draw: u16) -> io::Result<()> {
    let mut buffer = [0; MAX_PDU];
    match carrier.take(draw, &mut buffer) {
        Some(length) => println!(rt; "  out: {}\n  {carrier}", Hex(&buffer[..length])),
        None => println!(rt; "  out: none\n  {carrier}"),
    }
}

/// Carries a command out, and prints what comes out and what waits.
fn obey(rt: &impl Print, carrier: &mut Carrier, command: Command) -> io::Result<()> {
    match command {
        Command::Start { kind, mask } => *carrier = Carrier::new(kind, mask),
        Command::Put(pdu) => carrier.put(pdu.as_slice()),
        Command::Skip => carrier.skip(),
        Command::Take(draw) => return take(rt, carrier, draw),
    }
    println!(rt; "  {carrier}")
}

fn run(rt: &HostRuntime) -> anyhow::Result<()> {
    let heap = rt.alloc();
    let mut carrier = Carrier::new(Kind::Pipe, 0);
    for line in rt.lines(heap) {
        let line = line?;
        rt.println(line.as_str())?;
        match Command::parse(heap, line.as_str()) {
            Ok(command) => obey(rt, &mut carrier, command)?,
            Err(fault) => println!(rt; "  error: {fault}")?,
        }
    }
    Ok(())
}

fn main(rt: HostRuntime) -> anyhow::Result<()> {
    run(&rt)
}
