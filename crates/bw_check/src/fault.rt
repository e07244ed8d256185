//! The faults of amounts and their certificate.
ghost use Rattle.std.specs.Prelude.{◌≡◌};
ghost use Rattle.bw_check.specs.Faults.{check_fault_number, check_fault_name};

use thiserror::Error;

/// The faults of amounts and their certificate, in the order of the tests.
#[derive(Clone, Copy, Debug, PartialEq, Eq, Error)]
pub enum CheckFault {
    /// Not one amount, one flag and one level for each row.
    #[error("WrongLength")]
    WrongLength,
    /// An amount above the group's limit, or above the capacity at the root.
    #[error("OverLimit")]
    OverLimit,
    /// An amount above the demand of a leaf.
    #[error("OverDemand")]
    OverDemand,
    /// An amount that is not the sum of the children's.
    #[error("SumDiffers")]
    SumDiffers,
    /// A flag at a group that has no limit.
    #[error("FlagWithoutLimit")]
    FlagWithoutLimit,
    /// An amount of the root that is not its bound.
    #[error("NotGreatest")]
    NotGreatest,
    /// A group that shares something out and has no level.
    #[error("LevelMissing")]
    LevelMissing,
    /// A child whose last slice costs more than its parent's level.
    #[error("LastMarkAbove")]
    LastMarkAbove,
    /// A child below its bound whose next slice costs no more than its parent's level.
    #[error("NextMarkNotAbove")]
    NextMarkNotAbove,
}

impl CheckFault {
    /// The number that is printed, 50 to 58.
    pub fn number(self) -> u8
        ensures { result ≡ check_fault_number self }
    {
        match self {
            CheckFault::WrongLength => 50,
            CheckFault::OverLimit => 51,
            CheckFault::OverDemand => 52,
            CheckFault::SumDiffers => 53,
            CheckFault::FlagWithoutLimit => 54,
            CheckFault::NotGreatest => 55,
            CheckFault::LevelMissing => 56,
            CheckFault::LastMarkAbove => 57,
            CheckFault::NextMarkNotAbove => 58,
        }
    }

    /// The name that is printed.
    pub fn name(self) -> &'static str
        ensures { result.now ≡ check_fault_name self }
    {
        match self {
            CheckFault::WrongLength => "WrongLength",
            CheckFault::OverLimit => "OverLimit",
            CheckFault::OverDemand => "OverDemand",
            CheckFault::SumDiffers => "SumDiffers",
            CheckFault::FlagWithoutLimit => "FlagWithoutLimit",
            CheckFault::NotGreatest => "NotGreatest",
            CheckFault::LevelMissing => "LevelMissing",
            CheckFault::LastMarkAbove => "LastMarkAbove",
            CheckFault::NextMarkNotAbove => "NextMarkNotAbove",
        }
    }
}
