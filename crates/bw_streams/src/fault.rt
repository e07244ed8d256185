//! Why a run ends early.
use std::alloc::AllocError;
use thiserror::Error;

/// Why a run over a script, or the check of a certified text, ended early.
#[derive(Clone, Copy, Debug, PartialEq, Eq, Error)]
pub enum RunFault {
    /// A read failed, `READ_CALLS` reads did not reach the end, or a certified text is longer than
    /// 4 MiB.
    #[error("read fault")]
    Read,
    /// A write or a flush failed, or a write took no bytes. The text written is a prefix of the
    /// answers.
    #[error("write fault")]
    Write,
    /// An allocation failed: before the first read of a script, or before the first write of the
    /// answer to a certified text.
    #[error("out of memory")]
    Memory,
}

impl From<AllocError> for RunFault {
    ghost use Rattle.std.specs.Prelude.{◌≡◌};
    ghost use Rattle.bw_streams.specs.declared.fault.RunFault.TheVariants.{Memory};

    ghost from_gives = { λ _ e. e ≡ Memory };

    fn from(_: AllocError) -> RunFault {
        RunFault::Memory
    }
}
