//! Why a line of a script is refused.
ghost use Rattle.std.specs.Prelude.{◌≡◌, ◌≤◌, ◌<◌, length};
ghost use Rattle.bw_commands.specs.Faults.{script_fault_number, script_fault_name};

use bw_hierarchy::Fault;
use bw_workers::ServeFault;
use std::alloc::AllocError;
use thiserror::Error;

/// Why a line of a script is refused. A refused line changes nothing.
#[derive(Clone, Copy, Debug, PartialEq, Eq, Error)]
pub enum ScriptFault {
    /// The number of `demand` is not `0`, nor decimal digits that begin with another one.
    #[error("BadNumber")]
    BadNumber,
    /// The call on the hierarchy was refused.
    #[error("{0}")]
    Call(Fault),
    /// A thread of a period could not be spawned.
    #[error("NotStarted")]
    NotStarted,
    /// An allocation failed.
    #[error("OutOfMemory")]
    OutOfMemory,
    /// Unknown command, or wrong number of arguments.
    #[error("BadCommand")]
    BadCommand,
    /// The line is not UTF-8.
    #[error("BadText")]
    BadText,
    /// The line has more than 65536 bytes.
    #[error("LineTooLong")]
    LineTooLong,
}

impl From<Fault> for ScriptFault {
    ghost use Rattle.std.specs.Prelude.{◌≡◌};
    ghost use Rattle.bw_commands.specs.declared.fault.ScriptFault.TheVariants.{Call};

    ghost from_gives = { λ fault e. e ≡ Call fault };

    fn from(fault: Fault) -> ScriptFault {
        ScriptFault::Call(fault)
    }
}

impl From<AllocError> for ScriptFault {
    ghost use Rattle.std.specs.Prelude.{◌≡◌};
    ghost use Rattle.bw_commands.specs.declared.fault.ScriptFault.TheVariants.{OutOfMemory};

    ghost from_gives = { λ _ e. e ≡ OutOfMemory };

    fn from(_: AllocError) -> ScriptFault {
        ScriptFault::OutOfMemory
    }
}

impl From<ServeFault> for ScriptFault {
    ghost use Rattle.std.specs.Prelude.{◌≡◌};
    ghost use Rattle.bw_commands.specs.Faults.{of_serve_fault};

    ghost from_gives = { λ fault e. e ≡ of_serve_fault fault };

    fn from(fault: ServeFault) -> ScriptFault {
        match fault {
            ServeFault::NotStarted => ScriptFault::NotStarted,
            ServeFault::OutOfMemory => ScriptFault::OutOfMemory,
        }
    }
}

impl ScriptFault {
    /// The number that is printed.
    pub fn number(self) -> u8
        ensures value { result ≡ script_fault_number self }
        ensures small { result < 100 }
    {
        match self {
            ScriptFault::BadNumber => 11,
            ScriptFault::Call(fault) => fault.number(),
            ScriptFault::NotStarted => 70,
            ScriptFault::OutOfMemory => 71,
            ScriptFault::BadCommand => 80,
            ScriptFault::BadText => 81,
            ScriptFault::LineTooLong => 82,
        }
    }

    /// The name that is printed.
    pub fn name(self) -> &'static str
        ensures value { result.now ≡ script_fault_name self }
        ensures short { length result.now ≤ 20 }
    {
        match self {
            ScriptFault::BadNumber => "BadNumber",
            ScriptFault::Call(fault) => fault.name(),
            ScriptFault::NotStarted => "NotStarted",
            ScriptFault::OutOfMemory => "OutOfMemory",
            ScriptFault::BadCommand => "BadCommand",
            ScriptFault::BadText => "BadText",
            ScriptFault::LineTooLong => "LineTooLong",
        }
    }
}
