//! The faults whose numbers are answered, and their names.
ghost use Rattle.std.specs.Prelude.{◌≡◌, IfSome, IfNone};
ghost use Rattle.bw_cert.specs.Faults.{cert_fault_number};
ghost use Rattle.bw_check.specs.Faults.{check_fault_number};
ghost use Rattle.bw_hierarchy.specs.Faults.{hierarchy_fault_number};
ghost use Rattle.bw_exports.specs.Names.{number_of_fault, name_of_fault, IsNumberOfNone};

use bw_cert::CertFault;
use bw_check::CheckFault;
use bw_commands::ScriptFault;
use bw_files::FileFault;
use bw_hierarchy::Fault as CallFault;
use bw_model::{HostFault, InstanceFault};
use bw_tree::TreeFault;

/// A fault that a call of the library answers, or that it writes for a refused line.
#[derive(Clone, Copy, Debug, PartialEq, Eq)]
pub(crate) enum Fault {
    /// Of a host, rows or a certified text: 1 to 10, 40 to 43 and 71.
    Asked(CertFault),
    /// Of a path, a file or a value: 7 to 9, 11 to 17, 20 to 28, 30, 31, 33 and 71.
    Called(CallFault),
    /// Of claimed amounts: 50 to 58.
    Claimed(CheckFault),
    /// 80: a line of a script is no command.
    BadCommand,
    /// 81: a line of a script is not UTF-8.
    BadText,
    /// 82: a line of a script is too long.
    LineTooLong,
}

impl Fault {
    /// The name that is printed.
    pub(crate) fn name(self) -> &'static str
        ensures name { result.now ≡ name_of_fault self }
    {
        match self {
            Fault::Asked(fault) => fault.name(),
            Fault::Called(fault) => fault.name(),
            Fault::Claimed(fault) => fault.name(),
            Fault::BadCommand => ScriptFault::BadCommand.name(),
            Fault::BadText => ScriptFault::BadText.name(),
            Fault::LineTooLong => ScriptFault::LineTooLong.name(),
        }
    }
}

// The fault of a host, rows or a certified text with this number.
fn asked_fault(number: u32) -> Option<CertFault>
    ensures some { IfSome result (λ fault. cert_fault_number fault ≡ number) }
    ensures none { IfNone result (IsNumberOfNone cert_fault_number number) }
{
    match number {
        1 => Some(CertFault::Host(HostFault::BadProcessors)),
        2 => Some(CertFault::Host(HostFault::BadPeriod)),
        3 => Some(CertFault::Host(HostFault::BadSlice)),
        4 => Some(CertFault::Instance(InstanceFault::TooMany)),
        5 => Some(CertFault::Instance(InstanceFault::BadParent)),
        6 => Some(CertFault::Instance(InstanceFault::BadWeight)),
        7 => Some(CertFault::Instance(InstanceFault::TooDeep)),
        8 => Some(CertFault::Instance(InstanceFault::InnerDemand)),
        9 => Some(CertFault::Instance(InstanceFault::DemandTooLarge)),
        10 => Some(CertFault::Instance(InstanceFault::RootLimited)),
        40 => Some(CertFault::BadLine),
        41 => Some(CertFault::BadField),
        42 => Some(CertFault::CutShort),
        43 => Some(CertFault::Trailing),
        71 => Some(CertFault::OutOfMemory),
        _ => None,
    }
}

// The fault of a path, a file or a value with this number.
fn called_fault(number: u32) -> Option<CallFault>
    ensures some { IfSome result (λ fault. hierarchy_fault_number fault ≡ number) }
    ensures none { IfNone result (IsNumberOfNone hierarchy_fault_number number) }
{
    match number {
        7 => Some(CallFault::Tree(TreeFault::TooDeep)),
        8 => Some(CallFault::Tree(TreeFault::InnerDemand)),
        9 => Some(CallFault::Tree(TreeFault::DemandTooLarge)),
        11 => Some(CallFault::File(FileFault::BadNumber)),
        12 => Some(CallFault::File(FileFault::WeightOutOfRange)),
        13 => Some(CallFault::File(FileFault::QuotaTooSmall)),
        14 => Some(CallFault::File(FileFault::QuotaTooLarge)),
        15 => Some(CallFault::File(FileFault::PeriodOutOfRange)),
        16 => Some(CallFault::File(FileFault::TooManyWords)),
        17 => Some(CallFault::File(FileFault::Empty)),
        20 => Some(CallFault::Tree(TreeFault::NotFound)),
        21 => Some(CallFault::Tree(TreeFault::Exists)),
        22 => Some(CallFault::Tree(TreeFault::BadName)),
        23 => Some(CallFault::Tree(TreeFault::HasChildren)),
        24 => Some(CallFault::Tree(TreeFault::HasDemand)),
        25 => Some(CallFault::Tree(TreeFault::ParentHasDemand)),
        26 => Some(CallFault::Tree(TreeFault::RootFixed)),
        27 => Some(CallFault::Tree(TreeFault::TreeFull)),
        28 => Some(CallFault::Tree(TreeFault::IdsSpent)),
        30 => Some(CallFault::NoSuchFile),
        31 => Some(CallFault::ReadOnly),
        33 => Some(CallFault::BurstAboveQuota),
        71 => Some(CallFault::Tree(TreeFault::OutOfMemory)),
        _ => None,
    }
}

// The fault of claimed amounts with this number.
fn claimed_fault(number: u32) -> Option<CheckFault>
    ensures some { IfSome result (λ fault. check_fault_number fault ≡ number) }
    ensures none { IfNone result (IsNumberOfNone check_fault_number number) }
{
    match number {
        50 => Some(CheckFault::WrongLength),
        51 => Some(CheckFault::OverLimit),
        52 => Some(CheckFault::OverDemand),
        53 => Some(CheckFault::SumDiffers),
        54 => Some(CheckFault::FlagWithoutLimit),
        55 => Some(CheckFault::NotGreatest),
        56 => Some(CheckFault::LevelMissing),
        57 => Some(CheckFault::LastMarkAbove),
        58 => Some(CheckFault::NextMarkNotAbove),
        _ => None,
    }
}

/// The fault of a number, or None if no fault has it.
pub(crate) fn fault_of(number: u32) -> Option<Fault>
    ensures some { IfSome result (λ fault. number_of_fault fault ≡ number) }
    ensures none { IfNone result (IsNumberOfNone number_of_fault number) }
{
    if let Some(fault) = asked_fault(number) {
        return Some(Fault::Asked(fault));
    }
    if let Some(fault) = called_fault(number) {
        return Some(Fault::Called(fault));
    }
    if let Some(fault) = claimed_fault(number) {
        return Some(Fault::Claimed(fault));
    }
    match number {
        80 => Some(Fault::BadCommand),
        81 => Some(Fault::BadText),
        82 => Some(Fault::LineTooLong),
        _ => None,
    }
}
