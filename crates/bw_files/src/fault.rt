//! Faults of a text that is written into a group's file.
ghost use Rattle.std.specs.Prelude.{◌≡◌};
ghost use Rattle.bw_files.specs.Faults.{file_fault_number, file_fault_name};

use thiserror::Error;

/// Fault of a text that is written into a group's file.
#[derive(Clone, Copy, Debug, PartialEq, Eq, Error)]
pub enum FileFault {
    /// 11: a word is not a number.
    #[error("BadNumber")]
    BadNumber,
    /// 12: the weight is outside 1 to 10000.
    #[error("WeightOutOfRange")]
    WeightOutOfRange,
    /// 13: the quota is below 1000 microseconds.
    #[error("QuotaTooSmall")]
    QuotaTooSmall,
    /// 14: the quota or the burst is above 10^15 microseconds.
    #[error("QuotaTooLarge")]
    QuotaTooLarge,
    /// 15: the period is outside 1000 to 1000000 microseconds.
    #[error("PeriodOutOfRange")]
    PeriodOutOfRange,
    /// 16: the text has more words than its file takes.
    #[error("TooManyWords")]
    TooManyWords,
    /// 17: the text has no word.
    #[error("Empty")]
    Empty,
}

impl FileFault {
    /// Number of the fault, 11 to 17.
    pub fn number(self) -> u8
        ensures { result ≡ file_fault_number self }
    {
        match self {
            FileFault::BadNumber => 11,
            FileFault::WeightOutOfRange => 12,
            FileFault::QuotaTooSmall => 13,
            FileFault::QuotaTooLarge => 14,
            FileFault::PeriodOutOfRange => 15,
            FileFault::TooManyWords => 16,
            FileFault::Empty => 17,
        }
    }

    /// Name of the fault, the variant's.
    pub fn name(self) -> &'static str
        ensures { result.now ≡ file_fault_name self }
    {
        match self {
            FileFault::BadNumber => "BadNumber",
            FileFault::WeightOutOfRange => "WeightOutOfRange",
            FileFault::QuotaTooSmall => "QuotaTooSmall",
            FileFault::QuotaTooLarge => "QuotaTooLarge",
            FileFault::PeriodOutOfRange => "PeriodOutOfRange",
            FileFault::TooManyWords => "TooManyWords",
            FileFault::Empty => "Empty",
        }
    }
}
