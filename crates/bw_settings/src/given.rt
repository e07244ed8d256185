//! Whether a group gets so much for an owner's number.
ghost use Rattle.std.specs.Prelude.{◌≡◌, ◌<◌, length, IfOk};
ghost use Rattle.bw_settings.specs.Following.{follows_of, AreOneEach, AreOnPath};
ghost use Rattle.bw_settings.specs.Settings.{IsAnswered};

use crate::following::Following;
use crate::laws::greater_settings_give_no_less;
use crate::numbered::{Numbered, instance_at};
use bw_machine::Count;
use bw_model::Instance;
use bw_questions::{Measure, gets};
use std::alloc::{AllocError, Global};

/// Whether an owner's number is enough.
#[derive(Clone, Copy, Debug, PartialEq, Eq)]
pub(crate) enum Answer {
    /// The group gets the amount.
    Enough,
    /// It gets less, and so it does for each lesser number.
    TooLittle,
    /// Logarithms do not tell a weight.
    NoWeight,
}

/// Whether a group gets at least so many slices for an owner's number.
///
/// # Errors
/// `AllocError` if memory was refused.
pub(crate) fn answer_at(
    alloc: Global,
    instance: &Instance,
    following: &Following<'_>,
    measure: Measure,
    group: u32,
    amount: u64,
    number: u64,
) -> Result<Answer, AllocError>
    requires row { group < length instance.now.rows }
    requires columns { AreOneEach instance.now (follows_of following.now) }
    requires path { AreOnPath instance.now.rows following.now.formulas.now group }
    ensures { IfOk result
        (IsAnswered measure instance.now (follows_of following.now) group amount number) }
{
    let _rows = instance.rows();
    greater_settings_give_no_less();
    let other = match instance_at(alloc, instance, following, number)? {
        Numbered::NoWeight => return Ok(Answer::NoWeight),
        Numbered::Made(other) => other,
    };
    let enough = gets(alloc, &other, measure, group, amount, &mut Count::none())?;
    Ok(if enough {
        Answer::Enough
    } else {
        Answer::TooLittle
    })
}
