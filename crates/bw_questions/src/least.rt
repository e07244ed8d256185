//! The least values, by halving: what a value reaches, each greater one does.
ghost use Rattle.std.specs.Prelude.{◌≡◌, ◌+◌, ◌<◌, ◌≤◌, ◌↔◌, None, length, IfOk, OnOk, IsTrue};
ghost use Rattle.bw_questions.specs.Change.{with_weight, with_limit, with_processors, changed};
ghost use Rattle.bw_questions.specs.Change.{greatest_of};
ghost use Rattle.bw_questions.specs.Least.{Reaches, IsLeast, IsLeastLimit, Rises};
ghost use Rattle.bw_questions.specs.Plans.{ArePlans, halvings_of};

mod changed;
mod setting;

use crate::laws::{
    capacity_takes_nothing, limit_only_cuts, raised_limits_serve_no_less, raised_weight_alone_gains,
};
use bw_machine::Count;
use bw_model::Instance;
use bw_model::limits::{MAX_PROCESSORS, MAX_WEIGHT, MIN_WEIGHT};
use bw_plan::{plan, there_is_one_plan};
use changed::{changed, relimited};
use setting::{Setting, greatest};
use std::alloc::{AllocError, Global};

/// Whether the plan gives a group at least so many slices of one period. It makes one plan, and
/// counts it.
///
/// # Errors
/// `AllocError` if memory was refused.
pub(crate) fn reaches(
    alloc: Global,
    instance: &Instance,
    group: u32,
    amount: u64,
    plans: &mut Count,
) -> Result<bool, AllocError>
    requires { group < length instance.now.rows }
    ensures reached { IfOk result (λ enough. IsTrue enough ↔ Reaches instance.now group amount) }
    ensures plans { plans.new.steps ≡ plans.old.steps + 1 }
{
    // its contract says that this is an instance
    let _rows = instance.rows();
    *plans = plans.one_more();
    let plan = plan(alloc, instance)?;
    Ok(plan.amounts[group as usize] >= amount)
}

// The least value of a setting that reaches an amount, by one plan for each halving. Splits of the
// parent alone would cost less, but the contract would have to repeat how a plan is made.
fn least(
    alloc: Global,
    instance: &Instance,
    setting: Setting,
    group: u32,
    amount: u64,
    plans: &mut Count,
) -> Result<Option<u64>, AllocError>
    requires row { group < length instance.now.rows }
    requires rises { Rises instance.now setting group amount }
    ensures least { IfOk result (IsLeast
        (λ v. Reaches (changed instance.now setting group v) group amount)
        1 (greatest_of setting)) }
    ensures plans { ArePlans (halvings_of setting) plans.old.steps plans.new.steps }
    ensures some { OnOk result (plans.old.steps < plans.new.steps) }
{
    let greatest = greatest(setting);
    // Each value below `low` falls short. `high` and each one above it reach the amount.
    let mut low = 1;
    let mut high = greatest + 1;
    while low < high {
        let middle = low + (high - low) / 2;
        let tried = changed(alloc, instance, setting, group, middle)?;
        if reaches(alloc, &tried, group, amount, plans)? {
            high = middle;
        } else {
            low = middle + 1;
        }
    }
    Ok(if low > greatest { None } else { Some(low) })
}

/// The least weight with which the plan gives a group at least so many slices, all else as it is.
/// None: no weight from 1 to 10000 does.
///
/// It makes at most 14 plans. The root has no siblings, so its weight changes nothing.
///
/// # Errors
/// `AllocError` if memory was refused.
pub fn least_weight(
    alloc: Global,
    instance: &Instance,
    group: u32,
    amount: u64,
    plans: &mut Count,
) -> Result<Option<u64>, AllocError>
    requires { group < length instance.now.rows }
    ensures least { IfOk result (IsLeast
        (λ w. Reaches (with_weight instance.now group w) group amount) MIN_WEIGHT MAX_WEIGHT) }
    ensures plans { ArePlans 14 plans.old.steps plans.new.steps }
    ensures some { OnOk result (plans.old.steps < plans.new.steps) }
{
    let _rows = instance.rows();
    there_is_one_plan();
    raised_limits_serve_no_less();
    raised_weight_alone_gains();
    least(alloc, instance, Setting::Weight, group, amount, plans)
}

/// The least number of processors with which the plan gives a group at least so many slices, all
/// else as it is: groups, period and slice. None: no number from 1 to 64 does.
///
/// It makes at most 7 plans.
///
/// # Errors
/// `AllocError` if memory was refused.
pub fn least_processors(
    alloc: Global,
    instance: &Instance,
    group: u32,
    amount: u64,
    plans: &mut Count,
) -> Result<Option<u64>, AllocError>
    requires { group < length instance.now.rows }
    ensures least { IfOk result (IsLeast
        (λ n. Reaches (with_processors instance.now n) group amount) 1 MAX_PROCESSORS) }
    ensures plans { ArePlans 7 plans.old.steps plans.new.steps }
    ensures some { OnOk result (plans.old.steps < plans.new.steps) }
{
    let _rows = instance.rows();
    there_is_one_plan();
    capacity_takes_nothing();
    least(alloc, instance, Setting::Processors, group, amount, plans)
}

// Whether a group without its limit reaches an amount.
fn reaches_unlimited(
    alloc: Global,
    instance: &Instance,
    group: u32,
    amount: u64,
    plans: &mut Count,
) -> Result<bool, AllocError>
    requires row { group < length instance.now.rows }
    requires below_root { 0 < group }
    ensures reached { IfOk result (λ enough. IsTrue enough
        ↔ Reaches (with_limit instance.now group None) group amount) }
    ensures plans { ArePlans 1 plans.old.steps plans.new.steps }
    ensures one { OnOk result (plans.new.steps ≡ plans.old.steps + 1) }
{
    let unlimited = relimited(alloc, instance, group, None)?;
    reaches(alloc, &unlimited, group, amount, plans)
}

/// The least limit of a group, in slices, with which the plan gives it at least so many slices, all
/// else as it is. None: no limit does, and nor does the group without one.
///
/// It makes one plan, of the instance without this limit. A limit only cuts, so the least one is
/// the amount itself. The root has no limit but the capacity.
///
/// # Errors
/// `AllocError` if memory was refused.
pub fn least_limit(
    alloc: Global,
    instance: &Instance,
    group: u32,
    amount: u64,
    plans: &mut Count,
) -> Result<Option<u64>, AllocError>
    requires row { group < length instance.now.rows }
    requires below_root { 0 < group }
    ensures least { IfOk result (IsLeastLimit instance.now group amount) }
    ensures plans { ArePlans 1 plans.old.steps plans.new.steps }
    ensures one { OnOk result (plans.new.steps ≡ plans.old.steps + 1) }
{
    let _rows = instance.rows();
    there_is_one_plan();
    limit_only_cuts();
    let enough = reaches_unlimited(alloc, instance, group, amount, plans)?;
    Ok(if enough { Some(amount) } else { None })
}
