//! Faults of a trace.
ghost use Rattle.std.specs.Prelude.{◌≡◌};
ghost use Rattle.dispatch.specs.Faults.{input_fault_number, input_fault_name};

use thiserror::Error;

/// Why a line is no line of a trace, or why it does not fit those before it.
#[derive(Clone, Copy, Debug, PartialEq, Eq, Error)]
pub enum InputFault {
    /// 11: a word is no number of 64 bits.
    #[error("BadNumber")]
    BadNumber,
    /// 20: there is no leaf or no processor of this number.
    #[error("NotFound")]
    NotFound,
    /// 40: the line has not the words of one of the six kinds.
    #[error("BadLine")]
    BadLine,
    /// 41: a number is out of range.
    #[error("BadField")]
    BadField,
    /// 42: the last line has no newline.
    #[error("CutShort")]
    CutShort,
}

impl InputFault {
    /// Number of the fault.
    pub fn number(self) -> u8
        ensures { result ≡ input_fault_number self }
    {
        match self {
            InputFault::BadNumber => 11,
            InputFault::NotFound => 20,
            InputFault::BadLine => 40,
            InputFault::BadField => 41,
            InputFault::CutShort => 42,
        }
    }

    /// Name of the fault, the variant's.
    pub fn name(self) -> &'static str
        ensures { result.now ≡ input_fault_name self }
    {
        match self {
            InputFault::BadNumber => "BadNumber",
            InputFault::NotFound => "NotFound",
            InputFault::BadLine => "BadLine",
            InputFault::BadField => "BadField",
            InputFault::CutShort => "CutShort",
        }
    }
}
