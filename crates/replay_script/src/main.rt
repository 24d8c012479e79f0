// Runs a script of calls, one on a line of standard input, and prints what each call returned and wrote.
#![tactic(auto)]

mod answer;
mod error;
mod output;
mod session;

use crate::session::Session;
use scripts::error::ParseError;
use scripts::parse::{other_double, parse};
use std::io;
use std::io::{BufRead, BufReader};

// One line of the script: its command is run, or what was expected is printed.
fn run_line(rt: &HostRuntime, session: &mut Session, number: usize, line: &[u8]) -> io::Result<()> {
    match parse(line, other_double(line), rt.alloc()) {
        Ok(Some(command)) => session.run(rt, &command),
        Ok(None) => Ok(()),
        Err(ParseError::Expected(expected)) => println!(rt; "error {number}: expected {expected}"),
        Err(ParseError::Memory(error)) => Err(io::Error::from(error)),
    }
}

fn run_script(rt: &HostRuntime) -> io::Result<()> {
    let mut session = Session::new();
    let lines = BufReader::new(rt.alloc(), rt.stdin())?.split(rt.alloc(), b'\n');
    for (i, line) in lines.enumerate() {
        run_line(rt, &mut session, i.wrapping_add(1), line?.as_slice())?;
    }
    Ok(())
}

fn main(rt: HostRuntime) -> anyhow::Result<()> {
    run_script(&rt)?;
    Ok(())
}
