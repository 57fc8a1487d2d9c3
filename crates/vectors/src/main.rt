//! Runs tables of cases and compares each answer with the one that is wanted.
//!
//! The tables are the standard input, line by line. `#` begins a comment, and `table NAME` a table. A case is lines that begin with
//! `> ` and ask, and behind them the lines that are wanted; an empty line, or the next line that asks, ends it. A line that
//! begins with `+ ` goes on with the line before it, and one with `* COUNT FIRST ` does so COUNT times, with the numbers from
//! FIRST on. `~` and two hexadecimal digits stand for a byte, `~#` for the number, and `~x` for its three hexadecimal digits.
#![tactic(auto)]

mod acls;
mod bindings;
mod cases;
mod facts;
mod faults;
mod frames;
mod header_fields;
mod hops;
mod learning;
mod lines;
mod locators;
mod messages;
mod mirrors;
mod opening;
mod packets;
mod rows;
mod runner;
mod schemas;
mod scripts;
mod sessions;
mod texts;
mod transactions;
mod values;

use cases::Cases;
use faults::CaseFault;
use std::alloc::Global;
use std::io::{self, BufRead, BufReader};

/// Why the tables are not gone through to their end.
#[derive(Debug, Drop)]
enum TablesFault {
    Case(CaseFault),
    /// A line is not read, or not written.
    Outside(io::Error),
}

impl From<CaseFault> for TablesFault {
    fn from(fault: CaseFault) -> TablesFault {
        TablesFault::Case(fault)
    }
}

impl From<io::Error> for TablesFault {
    fn from(error: io::Error) -> TablesFault {
        TablesFault::Outside(error)
    }
}

/// Takes a line, and says where an answer is not the wanted one.
fn take_line(
    rt: &impl Print,
    alloc: Global,
    cases: &mut Cases,
    line: &str,
) -> Result<(), TablesFault> {
    if let Some(difference) = cases.take(alloc, line)? {
        println!(rt; "{difference}")?;
    }
    Ok(())
}

/// Goes through all lines, and says how many cases of each table gave what is wanted.
fn go_through<R: BufRead + Drop>(
    rt: &impl Print,
    alloc: Global,
    input: R,
    cases: &mut Cases,
) -> Result<(), TablesFault> {
    'lines: for line in input.lines(alloc) {
        take_line(rt, alloc, cases, line?.as_str())?;
    }
    take_line(rt, alloc, cases, "")?;
    let summary = cases.summary()?;
    println!(rt; "{summary} give what is wanted")?;
    Ok(())
}

fn main(rt: HostRuntime) -> Result<(), TablesFault> {
    let alloc = rt.alloc();
    let input = BufReader::new(alloc, rt.stdin())?;
    let mut cases = Cases::new(alloc);
    go_through(&rt, alloc, input, &mut cases)
}
