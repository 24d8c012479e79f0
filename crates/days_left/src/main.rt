// The days left of each node's certificate, for a renewal job. Arguments: today's day, and the number of days up to
// which a certificate is to be renewed. Input: lines of a node and the day on which its certificate ends.
#![tactic(auto)]

use anyhow::anyhow;
use renewals::entry::enter_line;
use renewals::problem::Problem;
use renewals::renewal::{counts, remaining, verdict};
use sources::certificates::Certificates;
use std::io::{BufRead, BufReader};
use std::{env, io};

// Today's day and the number of days.
fn arguments(rt: &HostRuntime) -> Option<(u32, u32)> {
    let mut args = env::args(rt).ok()?.skip(1);
    let today = args.next()?.parse().ok()?;
    let limit = args.next()?.parse().ok()?;
    args.next().is_none().then_some((today, limit))
}

// Enters each line. A line that is not entered is reported where it is met, and the rest goes on. Lines are split as
// bytes, so that one that is no UTF-8 is reported too, and does not end the program.
fn read_entries(rt: &HostRuntime, certificates: &mut Certificates) -> io::Result<()> {
    let lines = BufReader::new(rt.alloc(), rt.stdin())?.split(rt.alloc(), b'\n');
    for (i, line) in lines.enumerate() {
        if let Err(problem) = enter_line(certificates, &line?) {
            println!(rt; "line {}: {problem}", i + 1)?;
        }
    }
    Ok(())
}

fn print_list(rt: &HostRuntime, certificates: &Certificates, limit: u32) -> io::Result<()> {
    let entries = remaining(rt.alloc(), certificates)?;
    for entry in &entries {
        let verdict = verdict(entry.days_left, limit);
        println!(rt; "{} {}{verdict}", entry.node, entry.days_left)?;
    }
    rt.println(counts(&entries, limit))
}

fn main(rt: HostRuntime) -> anyhow::Result<()> {
    let Some((today, limit)) = arguments(&rt) else {
        eprintln!(rt; "usage: days_left TODAY DAYS")?;
        return Err(anyhow!("the arguments are not two numbers"));
    };
    let mut certificates = Certificates::new();
    if let Err(fault) = certificates.set_today(today) {
        let problem = Problem::from(fault);
        eprintln!(rt; "today: {problem}")?;
        return Err(anyhow!("today was refused"));
    }
    read_entries(&rt, &mut certificates)?;
    print_list(&rt, &certificates, limit)?;
    Ok(())
}
