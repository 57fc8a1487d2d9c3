//! The program: its words, its standard input and output, and the exit status.
#![tactic(auto)]

use fabric_replay::run;
use std::process::ExitCode;
use std::{env, io};
use vtep_base::{ReadSource, Status, WriteSink};

/// The words of the program, behind its name.
fn words(rt: &HostRuntime) -> io::Result<Vec<String>> {
    let mut words = Vec::new(rt.alloc());
    for word in env::args(rt)?.skip(1) {
        words.push(word)?;
    }
    Ok(words)
}

fn main(rt: HostRuntime) -> ExitCode {
    let Ok(words) = words(&rt) else {
        return ExitCode::from(Status::NoMemory.number());
    };
    let mut source = ReadSource::new(rt.stdin());
    let mut sink = WriteSink::new(rt.stdout());
    ExitCode::from(run(rt.alloc(), &words, &mut source, &mut sink).number())
}
