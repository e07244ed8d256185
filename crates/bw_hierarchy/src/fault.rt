//! Faults of calls on a hierarchy.
ghost use Rattle.std.specs.Prelude.{◌≡◌};
ghost use Rattle.bw_hierarchy.specs.Faults.{hierarchy_fault_number, hierarchy_fault_name};

use bw_files::FileFault;
use bw_tree::TreeFault;
use std::alloc::AllocError;
use thiserror::Error;

/// Fault of a call on a hierarchy. A refused call changes nothing.
///
/// A failed allocation is [`TreeFault::OutOfMemory`].
#[derive(Clone, Copy, Debug, PartialEq, Eq, Error)]
pub enum Fault {
    /// Fault of the tree, or a failed allocation.
    #[error("{0}")]
    Tree(TreeFault),
    /// Fault of a text or a number for a file.
    #[error("{0}")]
    File(FileFault),
    /// 30: the group has no such file.
    #[error("NoSuchFile")]
    NoSuchFile,
    /// 31: the file cannot be written.
    #[error("ReadOnly")]
    ReadOnly,
    /// 33: the burst is above the quota.
    #[error("BurstAboveQuota")]
    BurstAboveQuota,
}

impl From<TreeFault> for Fault {
    ghost use Rattle.std.specs.Prelude.{◌≡◌};
    ghost use Rattle.bw_hierarchy.specs.declared.fault.Fault.TheVariants.{Tree};

    ghost from_gives = { λ fault e. e ≡ Tree fault };

    fn from(fault: TreeFault) -> Fault {
        Fault::Tree(fault)
    }
}

impl From<FileFault> for Fault {
    ghost use Rattle.std.specs.Prelude.{◌≡◌};
    ghost use Rattle.bw_hierarchy.specs.declared.fault.Fault.TheVariants.{File};

    ghost from_gives = { λ fault e. e ≡ File fault };

    fn from(fault: FileFault) -> Fault {
        Fault::File(fault)
    }
}

impl From<AllocError> for Fault {
    ghost use Rattle.std.specs.Prelude.{◌≡◌};
    ghost use Rattle.bw_tree.specs.declared.fault.TreeFault.TheVariants.{OutOfMemory};
    ghost use Rattle.bw_hierarchy.specs.declared.fault.Fault.TheVariants.{Tree};

    ghost from_gives = { λ _ e. e ≡ Tree OutOfMemory };

    fn from(_: AllocError) -> Fault {
        Fault::Tree(TreeFault::OutOfMemory)
    }
}

impl Fault {
    /// Number of the fault: 30, 31, 33, or that of the tree's or the file's fault.
    pub fn number(self) -> u8
        ensures { result ≡ hierarchy_fault_number self }
    {
        match self {
            Fault::Tree(fault) => fault.number(),
            Fault::File(fault) => fault.number(),
            Fault::NoSuchFile => 30,
            Fault::ReadOnly => 31,
            Fault::BurstAboveQuota => 33,
        }
    }

    /// Name of the fault, the variant's.
    pub fn name(self) -> &'static str
        ensures { result.now ≡ hierarchy_fault_name self }
    {
        match self {
            Fault::Tree(fault) => fault.name(),
            Fault::File(fault) => fault.name(),
            Fault::NoSuchFile => "NoSuchFile",
            Fault::ReadOnly => "ReadOnly",
            Fault::BurstAboveQuota => "BurstAboveQuota",
        }
    }
}
