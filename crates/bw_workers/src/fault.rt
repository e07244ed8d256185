//! Refusals of `serve`.
ghost use Rattle.std.specs.Prelude.{◌≡◌};
ghost use Rattle.bw_workers.specs.Faults.{serve_fault_number, serve_fault_name};

use std::alloc::{AllocError, AllocFailed};
use thiserror::Error;

/// Refusals of `serve`. What the workers drew is lost.
#[derive(Clone, Copy, Debug, PartialEq, Eq, Error)]
pub enum ServeFault {
    /// 70: a thread could not be spawned. The others ran to their end.
    #[error("NotStarted")]
    NotStarted,
    /// 71: an allocation failed. The threads that were spawned ran to their end.
    #[error("OutOfMemory")]
    OutOfMemory,
}

impl ServeFault {
    /// The number of the refusal in output.
    pub fn number(self) -> u8
        ensures { result ≡ serve_fault_number self }
    {
        match self {
            ServeFault::NotStarted => 70,
            ServeFault::OutOfMemory => 71,
        }
    }

    /// The name of the refusal in output.
    pub fn name(self) -> &'static str
        ensures { result.now ≡ serve_fault_name self }
    {
        match self {
            ServeFault::NotStarted => "NotStarted",
            ServeFault::OutOfMemory => "OutOfMemory",
        }
    }
}

impl From<AllocError> for ServeFault {
    ghost use Rattle.std.specs.Prelude.{◌≡◌};
    ghost use Rattle.bw_workers.specs.declared.fault.ServeFault.TheVariants.{OutOfMemory};

    ghost from_gives = { λ _ e. e ≡ OutOfMemory };

    fn from(_refused: AllocError) -> ServeFault {
        ServeFault::OutOfMemory
    }
}

impl<T: Drop> From<AllocFailed<T>> for ServeFault {
    ghost use Rattle.std.specs.Prelude.{◌≡◌};
    ghost use Rattle.bw_workers.specs.declared.fault.ServeFault.TheVariants.{OutOfMemory};

    ghost from_gives = { λ _ e. e ≡ OutOfMemory };

    fn from(_: AllocFailed<T>) -> ServeFault {
        ServeFault::OutOfMemory
    }
}
