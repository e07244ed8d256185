//! The least number that an owner sets for a goal, by halving.
ghost use Rattle.std.specs.Prelude.{◌≡◌, ◌<◌, ◌≤◌, length, IfOk};
ghost use Rattle.bw_settings.specs.Following.{follows_of, AreOneEach, AreOnPath};
ghost use Rattle.bw_settings.specs.Settings.{IsLeastSetting, GivesAt};

use crate::following::Following;
use crate::given::{Answer, answer_at};
use bw_model::Instance;
use bw_questions::Measure;
use std::alloc::{AllocError, Global};

/// The setting of an owner for a goal.
#[derive(Clone, Copy, Debug, PartialEq, Eq)]
pub(crate) enum Setting {
    /// The least number with which the group gets the amount.
    Least(u64),
    /// No number of those that were asked about does.
    NoNumber,
    /// Logarithms do not tell a weight. Tests try each number, and each has a weight.
    Untold,
}

// The least number, where the last one is known to be enough.
fn least_up_to(
    alloc: Global,
    instance: &Instance,
    following: &Following<'_>,
    measure: Measure,
    group: u32,
    amount: u64,
    first: u64,
    last: u64,
) -> Result<Setting, AllocError>
    requires row { group < length instance.now.rows }
    requires columns { AreOneEach instance.now (follows_of following.now) }
    requires path { AreOnPath instance.now.rows following.now.formulas.now group }
    requires order { first ≤ last }
    requires enough { GivesAt measure instance.now (follows_of following.now) group amount last }
    ensures { IfOk result
        (IsLeastSetting measure instance.now (follows_of following.now) group amount first last) }
{
    let (mut low, mut high) = (first, last);
    while low < high {
        let middle = low + (high - low) / 2;
        match answer_at(alloc, instance, following, measure, group, amount, middle)? {
            Answer::Enough => high = middle,
            Answer::TooLittle => low = middle + 1,
            Answer::NoWeight => return Ok(Setting::Untold),
        }
    }
    Ok(Setting::Least(high))
}

// The least number from `first` to `last`, by one plan and one for each halving of the range.
fn least_setting(
    alloc: Global,
    instance: &Instance,
    following: &Following<'_>,
    measure: Measure,
    group: u32,
    amount: u64,
    first: u64,
    last: u64,
) -> Result<Setting, AllocError>
    requires row { group < length instance.now.rows }
    requires columns { AreOneEach instance.now (follows_of following.now) }
    requires path { AreOnPath instance.now.rows following.now.formulas.now group }
    ensures { IfOk result
        (IsLeastSetting measure instance.now (follows_of following.now) group amount first last) }
{
    if first > last {
        return Ok(Setting::NoNumber);
    }
    match answer_at(alloc, instance, following, measure, group, amount, last)? {
        Answer::Enough => least_up_to(
            alloc, instance, following, measure, group, amount, first, last,
        ),
        Answer::TooLittle => Ok(Setting::NoNumber),
        Answer::NoWeight => Ok(Setting::Untold),
    }
}

// The least number, where this one is known to be enough. It is likely to be the least.
fn least_below(
    alloc: Global,
    instance: &Instance,
    following: &Following<'_>,
    measure: Measure,
    group: u32,
    amount: u64,
    first: u64,
    near: u64,
) -> Result<Setting, AllocError>
    requires row { group < length instance.now.rows }
    requires columns { AreOneEach instance.now (follows_of following.now) }
    requires path { AreOnPath instance.now.rows following.now.formulas.now group }
    requires order { first ≤ near }
    requires enough { GivesAt measure instance.now (follows_of following.now) group amount near }
    ensures { IfOk result
        (IsLeastSetting measure instance.now (follows_of following.now) group amount first near) }
{
    if near == first {
        return Ok(Setting::Least(near));
    }
    let lesser = near - 1;
    match answer_at(alloc, instance, following, measure, group, amount, lesser)? {
        Answer::Enough => least_up_to(
            alloc, instance, following, measure, group, amount, first, lesser,
        ),
        Answer::TooLittle => Ok(Setting::Least(near)),
        Answer::NoWeight => Ok(Setting::Untold),
    }
}

/// The least number from `first` to `last` that an owner can set with which a group gets at least
/// so many slices, all else as it is.
///
/// The weights of some rows follow the number, each by its formula: they are at the group, above it
/// or below it. That of the root stays. `near` is tried first, and then the number below it.
///
/// # Errors
/// `AllocError` if memory was refused.
pub(crate) fn least_near(
    alloc: Global,
    instance: &Instance,
    following: &Following<'_>,
    measure: Measure,
    group: u32,
    amount: u64,
    first: u64,
    last: u64,
    near: u64,
) -> Result<Setting, AllocError>
    requires row { group < length instance.now.rows }
    requires columns { AreOneEach instance.now (follows_of following.now) }
    requires path { AreOnPath instance.now.rows following.now.formulas.now group }
    ensures { IfOk result
        (IsLeastSetting measure instance.now (follows_of following.now) group amount first last) }
{
    if near < first || last < near {
        return least_setting(
            alloc, instance, following, measure, group, amount, first, last,
        );
    }
    match answer_at(alloc, instance, following, measure, group, amount, near)? {
        Answer::Enough => least_below(
            alloc, instance, following, measure, group, amount, first, near,
        ),
        Answer::TooLittle if near == last => Ok(Setting::NoNumber),
        Answer::TooLittle => {
            least_setting(
                alloc,
                instance,
                following,
                measure,
                group,
                amount,
                near + 1,
                last,
            )
        }
        Answer::NoWeight => Ok(Setting::Untold),
    }
}
