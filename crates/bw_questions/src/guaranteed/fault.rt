//! Refusals of a question about a group.
ghost use Rattle.std.specs.Prelude.{◌≡◌};
ghost use Rattle.bw_questions.specs.Fault.{guarantee_fault_number, guarantee_fault_name};

use std::alloc::AllocError;
use thiserror::Error;

/// Refusals of a question about a group, in the order in which they are tested.
#[derive(Clone, Copy, Debug, PartialEq, Eq, Error)]
pub enum GuaranteeFault {
    /// 20: there is no such group.
    #[error("NotFound")]
    NotFound,
    /// 71: an allocation failed.
    #[error("OutOfMemory")]
    OutOfMemory,
}

impl GuaranteeFault {
    /// The number of the refusal in output: 20 or 71.
    pub fn number(self) -> u8
        ensures { result ≡ guarantee_fault_number self }
    {
        match self {
            GuaranteeFault::NotFound => 20,
            GuaranteeFault::OutOfMemory => 71,
        }
    }

    /// The name of the refusal in output.
    pub fn name(self) -> &'static str
        ensures { result.now ≡ guarantee_fault_name self }
    {
        match self {
            GuaranteeFault::NotFound => "NotFound",
            GuaranteeFault::OutOfMemory => "OutOfMemory",
        }
    }
}

impl From<AllocError> for GuaranteeFault {
    ghost use Rattle.bw_questions.specs.declared.guaranteed.fault.GuaranteeFault.TheVariants.{OutOfMemory};

    ghost from_gives = { λ _ e. e ≡ OutOfMemory };

    fn from(_: AllocError) -> GuaranteeFault {
        GuaranteeFault::OutOfMemory
    }
}
