//! The end of a job: the text that is printed, and the exit status.
ghost use Rattle.std.specs.Prelude.{◌≡◌, ◌≢◌, is_ok, if◌then◌else◌};
ghost use Rattle.bw_streams.specs.Watched.{HasNoFault};
ghost use Rattle.arbiter.specs.Failure.{what_failed};
ghost use Rattle.arbiter.specs.Told.{EndsWithoutJob};
ghost use Rattle.bw_text_check.specs.CheckText.{check_status};

use crate::failure::{Failure, explained};
use crate::status::status_of_words;
use crate::words::WordsFault;
use bw_model::HostFault;
use bw_shell::status_of_run;
use bw_streams::{RunFault, Watched, send_line};
use bw_text_check::status_of_check;
use std::io::{ErrorKind, Write};

// Exit status of arguments that are not text, or of a host that is refused.
const USAGE_STATUS: u8 = 2;

// Prints on standard error what failed, and the reason if it is known.
fn told(rt: &impl Eprint, failure: Failure) -> RunFault
    ensures { result ≡ what_failed failure }
{
    let fault = failure.fault();
    let _ = match failure.reason() {
        Some(reason) => eprintln!(rt; "arbiter: {fault}: {reason}"),
        None => eprintln!(rt; "arbiter: {fault}"),
    };
    fault
}

/// Exit status of a run or of a printed text: 0, or 1 after a failure, which is printed on standard
/// error.
pub fn run_ended(rt: &impl Eprint, outcome: Result<(), Failure>) -> u8
    ensures { result ≡ (if is_ok outcome then 0 else 1) }
{
    match outcome {
        Ok(()) => status_of_run(&Ok(())),
        Err(failure) => status_of_run(&Err(told(rt, failure))),
    }
}

/// Exit status of a check: 0 if the text is accepted, 3 if it is not, and 1 after a failure, which
/// is printed on standard error.
pub fn check_ended(rt: &impl Eprint, outcome: Result<bool, Failure>) -> u8
    ensures { result ≡ check_status outcome }
{
    match outcome {
        Ok(accepted) => status_of_check(&Ok(accepted)),
        Err(failure) => status_of_check(&Err(told(rt, failure))),
    }
}

/// Exit status of a host that is refused, 2. The fault is printed on standard error.
pub fn host_refused(rt: &impl Eprint, fault: HostFault) -> u8
    ensures { result ≡ 2 }
{
    let _ = eprintln!(rt; "error {} {}", fault.number(), fault.name());
    USAGE_STATUS
}

/// Exit status of words that give no job: 0 for help, or 1 if help cannot be written, 2 for words
/// that are refused, and 1 if an allocation failed. Help alone is written.
pub fn no_job<R, W: Write>(
    rt: &impl Eprint,
    fault: WordsFault,
    reader: &Watched<R>,
    writer: &mut Watched<W>,
) -> u8
    requires { HasNoFault writer.old }
    ensures { EndsWithoutJob W.contents fault writer.old writer.new result }
{
    let status = status_of_words(&fault);
    match fault {
        WordsFault::Help(text) => {
            let sent = send_line(writer, text.as_bytes());
            run_ended(rt, explained(sent, reader, writer))
        }
        WordsFault::Usage(text) => {
            let _ = eprint!(rt; "{text}");
            status
        }
        WordsFault::Memory => memory_refused(rt),
    }
}

/// Exit status where an allocation failed before a job was known, 1.
pub fn memory_refused(rt: &impl Eprint) -> u8
    ensures { result ≡ 1 }
{
    run_ended(rt, Err(Failure::memory()))
}

/// Exit status of arguments that cannot be read: 1 if an allocation failed, and 2 if one of them is
/// not text.
pub fn bad_arguments(rt: &impl Eprint, kind: ErrorKind) -> u8
    ensures memory { kind ≡ ErrorKind.OutOfMemory → result ≡ 1 }
    ensures text { kind ≢ ErrorKind.OutOfMemory → result ≡ 2 }
{
    if kind == ErrorKind::OutOfMemory {
        return memory_refused(rt);
    }
    let _ = eprintln!(rt; "arbiter: bad arguments");
    USAGE_STATUS
}
