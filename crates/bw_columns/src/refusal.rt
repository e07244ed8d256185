//! The refusals of a call, and their numbers.
ghost use Rattle.std.specs.Prelude.{◌≡◌, ◌<◌};
ghost use Rattle.bw_columns.specs.Numbers.{number_of_refusal};

use bw_files::FileFault;
use bw_model::{HostFault, InstanceFault};
use std::alloc::AllocError;

/// The refusals of a call, in the order of the tests.
#[derive(Clone, Copy, Debug, PartialEq, Eq)]
pub enum Refusal {
    /// 50: not one entry in each column for each row.
    WrongLength,
    /// 1 to 3.
    Host(HostFault),
    /// 4 to 10, and 71 if memory was refused.
    Instance(InstanceFault),
    /// 20: the group is no row.
    NotFound,
    /// 13 to 15: a group's quota, own period or burst.
    Setting(FileFault),
}

impl Refusal {
    /// The number that is answered, above 0.
    pub fn number(self) -> u32
        ensures value { result ≡ number_of_refusal self }
        ensures positive { 0 < result }
    {
        match self {
            Refusal::WrongLength => 50,
            Refusal::Host(fault) => u32::from(fault.number()),
            Refusal::Instance(fault) => u32::from(fault.number()),
            Refusal::NotFound => 20,
            Refusal::Setting(fault) => u32::from(fault.number()),
        }
    }
}

impl From<AllocError> for Refusal {
    ghost use Rattle.bw_model.specs.declared.instance_fault.InstanceFault.TheVariants.{OutOfMemory};
    ghost use Rattle.bw_columns.specs.declared.refusal.Refusal.TheVariants.{Instance};

    ghost from_gives = { λ _ e. e ≡ Instance OutOfMemory };

    fn from(_: AllocError) -> Refusal {
        Refusal::Instance(InstanceFault::OutOfMemory)
    }
}

impl From<FileFault> for Refusal {
    ghost use Rattle.bw_columns.specs.declared.refusal.Refusal.TheVariants.{Setting};

    ghost from_gives = { λ fault e. e ≡ Setting fault };

    fn from(fault: FileFault) -> Refusal {
        Refusal::Setting(fault)
    }
}
