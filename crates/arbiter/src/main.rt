//! `arbiter run` reads a script on standard input and writes the answer to each line.
//! `arbiter check` reads one certified text and writes whether its amounts are the plan.
#![tactic(auto)]

mod asked;
mod failure;
mod job;
mod memory;
mod status;
mod told;
mod version;
mod words;

use asked::behind_name;
use bw_streams::{Output, Watched};
use job::do_job;
use std::io;
use std::process::ExitCode;
use told::{bad_arguments, memory_refused};

// Does the job of the words on standard input and standard output.
fn main(rt: HostRuntime) -> ExitCode {
    let args = match std::env::args(&rt) {
        Ok(args) => args,
        Err(error) => return ExitCode::from(bad_arguments(&rt, error.kind())),
    };
    let Ok(words) = args.collect::<Vec<String>>(rt.alloc()) else {
        return ExitCode::from(memory_refused(&rt));
    };
    let Ok(output) = Output::new(rt.alloc(), io::writer(&rt)) else {
        return ExitCode::from(memory_refused(&rt));
    };
    let mut reader = Watched::new(rt.reader());
    let mut writer = Watched::new(output);
    let status = do_job(&rt, behind_name(words.as_slice()), &mut reader, &mut writer);
    // after a fault the rest of the buffer is not written
    let _ = writer.into_inner().end();
    ExitCode::from(status)
}
