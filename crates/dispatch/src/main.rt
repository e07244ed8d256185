//! Replays the picks of a scheduler that serves a plan: whether the rule allows each of them.
//!
//! Reads a trace on standard input, one event a line, and prints `allowed: N picks` or the first
//! line that is refused. Ends with status 0 if each event is allowed, 3 if a line is refused, and 1
//! if a read, a write or an allocation failed. A trace whose events are allowed may have more
//! lines: where the premises of the law of windows fail, if it has guarantees, and where a limit is
//! passed, if it has a group with one.
#![tactic(auto)]

mod accounts;
mod budget;
mod events;
mod fault;
mod input;
mod laws;
mod leaves;
mod limits;
mod premises;
mod replay;
mod reservation;
mod scheduler;

use premises::{Premises, put_limit, put_premises, tell_premises};
use replay::{Finding, put_finding, replay, status_of};
use std::alloc::Global;
use std::io;
use std::io::{Read, Write};
use std::process::ExitCode;

// Reads a trace to its end, and replays it.
fn finding_on<R: Read>(alloc: Global, reader: &mut R) -> io::Result<(Finding, Premises)> {
    let mut text = Vec::new(alloc);
    reader.read_to_end(&mut text)?;
    let finding = replay(alloc, text.as_slice())?;
    Ok((finding, tell_premises(alloc, text.as_slice())?))
}

// Prints the line of a finding, that on the premises, and that on the limit.
fn print_finding<W: Write>(
    alloc: Global,
    writer: &mut W,
    finding: Finding,
    premises: Premises,
) -> io::Result<()> {
    let mut answer = Vec::new(alloc);
    put_finding(finding, &mut answer)?;
    if status_of(finding) == 0 && premises.has_terms {
        put_premises(premises, &mut answer)?;
    }
    if status_of(finding) == 0 && premises.group.limit > 0 {
        put_limit(premises, &mut answer)?;
    }
    writer.write_all(answer.as_slice())
}

// The exit status of a failure, which is printed on standard error.
fn failed(rt: &impl Eprint, error: io::Error) -> ExitCode {
    let _ = eprintln!(rt; "dispatch: {error}");
    ExitCode::from(1)
}

fn main(rt: HostRuntime) -> ExitCode {
    let (finding, premises) = match finding_on(rt.alloc(), &mut rt.reader()) {
        Ok(found) => found,
        Err(error) => return failed(&rt, error),
    };
    match print_finding(rt.alloc(), &mut io::writer(&rt), finding, premises) {
        Ok(()) => ExitCode::from(status_of(finding)),
        Err(error) => failed(&rt, error),
    }
}
