//! Shows PDUs. Each line of the input has an end of the link, `near` or `far`, and the bytes that it
//! reads in hexadecimal, `-` for none. The answer is the PDU's fields or its refusal, and whether what was
//! read gives the same bytes when it is written back.

#![tactic(auto)]

mod contents;
mod differences;
mod requests;
mod show;

use contents::Content;
use requests::Request;
use std::io;
use std::io::{BufRead, BufReader};

fn answer(rt: &HostRuntime, request: &Request) -> io::Result<()> {
    println!(rt; "{request}")?;
    let content = match Content::read(rt.alloc(), request) {
        Ok(content) => content,
        Err(failure) => return println!(rt; "  {failure}"),
    };
    println!(rt; "  {content}")?;
    match content.write_back(rt.alloc(), request.bytes.as_slice()) {
        Ok(comparison) => println!(rt; "  written back: {comparison}"),
        Err(failure) => println!(rt; "  written back: {failure}"),
    }
}

fn main(rt: HostRuntime) -> io::Result<()> {
    let lines = BufReader::new(rt.alloc(), rt.stdin())?.lines(rt.alloc());
    for (number, line) in (1u64..).zip(lines) {
        let line = match line {
            Ok(line) => line,
            Err(error) => return println!(rt; "line {number}: {error}"),
        };
        match Request::parse(rt.alloc(), line.as_str()) {
            Ok(Some(request)) => answer(&rt, &request)?,
            Ok(None) => {}
            Err(bad) => println!(rt; "line {number}: {bad}")?,
        }
    }
    Ok(())
}
