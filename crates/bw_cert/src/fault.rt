//! The faults of a certified text.
ghost use Rattle.std.specs.Prelude.{◌≡◌};
ghost use Rattle.bw_cert.specs.Faults.{cert_fault_number, cert_fault_name};

use bw_model::{HostFault, InstanceFault};
use std::alloc::{AllocError, AllocFailed};
use thiserror::Error;

/// The first fault of a certified text, read from the first line to the last, or a lack of memory.
#[derive(Clone, Copy, Debug, PartialEq, Eq, Error)]
pub enum CertFault {
    /// Line 1 has processors, a period or a slice, the last two in microseconds, of no host.
    #[error("{0}")]
    Host(HostFault),
    /// Line 1 announces more than 16,384 groups, or the rows make no instance. Never its
    /// `OutOfMemory`.
    #[error("{0}")]
    Instance(InstanceFault),
    /// Line 1 does not have six words, or the line of a group not seven. Single spaces part words.
    #[error("BadLine")]
    BadLine,
    /// A word is not of its form. Line 1 begins with `bw 1`. A number is plain decimal and fits its
    /// column. A flag is `0` or `1`. A level is `-` or `NUM/DEN@PLACE` with NUM and DEN above 0.
    #[error("BadField")]
    BadField,
    /// Line 1 or the line of a group is missing, or has no newline.
    #[error("CutShort")]
    CutShort,
    /// Bytes follow the lines that line 1 announces.
    #[error("Trailing")]
    Trailing,
    /// Memory was refused. The text may have any fault or none.
    #[error("OutOfMemory")]
    OutOfMemory,
}

impl CertFault {
    /// The number that is printed: 1 to 10, 40 to 43 or 71.
    pub fn number(self) -> u8
        ensures { result ≡ cert_fault_number self }
    {
        match self {
            CertFault::Host(fault) => fault.number(),
            CertFault::Instance(fault) => fault.number(),
            CertFault::BadLine => 40,
            CertFault::BadField => 41,
            CertFault::CutShort => 42,
            CertFault::Trailing => 43,
            CertFault::OutOfMemory => 71,
        }
    }

    /// The name that is printed.
    pub fn name(self) -> &'static str
        ensures { result.now ≡ cert_fault_name self }
    {
        match self {
            CertFault::Host(fault) => fault.name(),
            CertFault::Instance(fault) => fault.name(),
            CertFault::BadLine => "BadLine",
            CertFault::BadField => "BadField",
            CertFault::CutShort => "CutShort",
            CertFault::Trailing => "Trailing",
            CertFault::OutOfMemory => "OutOfMemory",
        }
    }
}

impl From<AllocError> for CertFault {
    ghost use Rattle.bw_cert.specs.declared.fault.CertFault.TheVariants.{OutOfMemory};

    ghost from_gives = { λ _ e. e ≡ OutOfMemory };

    fn from(_: AllocError) -> CertFault {
        CertFault::OutOfMemory
    }
}

impl<T: Drop> From<AllocFailed<T>> for CertFault {
    ghost use Rattle.bw_cert.specs.declared.fault.CertFault.TheVariants.{OutOfMemory};

    ghost from_gives = { λ _ e. e ≡ OutOfMemory };

    fn from(_: AllocFailed<T>) -> CertFault {
        CertFault::OutOfMemory
    }
}
