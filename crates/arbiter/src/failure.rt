//! Faults with their reasons, as they are printed.
ghost use Rattle.std.specs.Prelude.{◌≡◌, Ok, MatchResult, IsErrAnd};
ghost use Rattle.arbiter.specs.Failure.{what_failed};

use bw_streams::{READ_CALLS, RunFault, Watched};
use std::io::{Error, ErrorKind};

// EIO of errno(3), which has no kind.
const DEVICE_FAILED: i32 = 5;

// EBADF of errno(3), which has no kind.
const NOT_OPEN: i32 = 9;

/// A fault, and its reason if it is known.
#[derive(Clone, Copy)]
pub struct Failure {
    fault: RunFault,
    reason: Option<&'static str>,
}

impl Failure {
    ghost use Rattle.std.specs.Prelude.{◌≡◌};
    ghost use Rattle.arbiter.specs.Failure.{what_failed};
    ghost use Rattle.bw_streams.specs.declared.fault.RunFault.TheVariants.{Memory};

    /// An allocation failed.
    pub fn memory() -> Failure
        ensures { what_failed result ≡ Memory }
    {
        Failure {
            fault: RunFault::Memory,
            reason: None,
        }
    }

    /// The fault of a run or of a check, with the reason that its reader or writer remembers.
    pub fn of<R, W>(fault: RunFault, reader: &Watched<R>, writer: &Watched<W>) -> Failure
        ensures { what_failed result ≡ fault }
    {
        let reason = match fault {
            RunFault::Read => read_reason(reader),
            RunFault::Write => write_reason(writer),
            RunFault::Memory => None,
        };
        Failure { fault, reason }
    }

    /// The fault.
    pub fn fault(&self) -> RunFault
        ensures { result ≡ what_failed self.now }
    {
        self.fault
    }

    /// The reason, as `it is a directory`.
    pub fn reason(&self) -> Option<&'static str> {
        self.reason
    }
}

/// The outcome of a job over a reader and a writer, a fault with its reason.
pub fn explained<T, R, W>(
    outcome: Result<T, RunFault>,
    reader: &Watched<R>,
    writer: &Watched<W>,
) -> Result<T, Failure>
    ensures { MatchResult outcome (λ value. result ≡ Ok value)
        (λ fault. IsErrAnd result (λ failure. what_failed failure ≡ fault)) }
{
    match outcome {
        Ok(value) => Ok(value),
        Err(fault) => Err(Failure::of(fault, reader, writer)),
    }
}

// Reason of a read fault. If no call failed, the read calls are spent or the certified text is too
// long.
fn read_reason<R>(reader: &Watched<R>) -> Option<&'static str> {
    match reader.error() {
        Some(error) => reason_of(error),
        None if reader.reads() == READ_CALLS => Some("too many read calls"),
        None => Some("the text is longer than 4 MiB"),
    }
}

// Reason of a write fault. If no call failed, a write took no bytes.
fn write_reason<W>(writer: &Watched<W>) -> Option<&'static str> {
    match writer.error() {
        Some(error) => reason_of(error),
        None => Some("it takes no bytes"),
    }
}

// Reason of a failed call on standard input or output, by the kind of its error.
fn reason_of(error: Error) -> Option<&'static str> {
    match error.kind() {
        ErrorKind::IsADirectory => Some("it is a directory"),
        ErrorKind::WouldBlock => Some("it would have to wait"),
        ErrorKind::StorageFull => Some("no space is left"),
        ErrorKind::QuotaExceeded => Some("the disk quota is used up"),
        ErrorKind::FileTooLarge => Some("the file would be too large"),
        ErrorKind::BrokenPipe => Some("nobody reads it any more"),
        ErrorKind::WriteZero => Some("it takes no bytes"),
        ErrorKind::Interrupted => Some("a signal interrupted it"),
        ErrorKind::PermissionDenied => Some("it is not permitted"),
        ErrorKind::TimedOut => Some("it took too long"),
        ErrorKind::OutOfMemory => Some("the system is out of memory"),
        ErrorKind::NotConnected | ErrorKind::ConnectionReset | ErrorKind::ConnectionAborted => Some(
            "the connection is gone",
        ),
        _ => reason_of_number(error.raw_os_error()),
    }
}

// Reason of an error that has no kind, by its number of errno(3).
fn reason_of_number(number: Option<i32>) -> Option<&'static str> {
    match number {
        Some(DEVICE_FAILED) => Some("the device failed"),
        Some(NOT_OPEN) => Some("it is not open for this"),
        _ => None,
    }
}
