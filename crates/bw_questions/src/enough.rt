//! Whether a group gets so much, by the plan or by its guarantee.
ghost use Rattle.std.specs.Prelude.{◌<◌, ◌↔◌, length, IfOk, IsTrue};
ghost use Rattle.bw_questions.specs.Gets.{Gets, IsGuaranteedSo};

use crate::from_root::Measure;
use crate::guaranteed::busy_instance;
use crate::least::reaches;
use bw_machine::Count;
use bw_model::Instance;
use bw_plan::there_is_one_plan;
use std::alloc::{AllocError, Global};

// Whether a group is guaranteed at least so many slices of one period.
fn is_guaranteed(
    alloc: Global,
    instance: &Instance,
    group: u32,
    amount: u64,
    plans: &mut Count,
) -> Result<bool, AllocError>
    requires { group < length instance.now.rows }
    ensures { IfOk result
        (λ enough. IsTrue enough ↔ IsGuaranteedSo instance.now group amount) }
{
    let _rows = instance.rows();
    there_is_one_plan();
    let busy = busy_instance(alloc, instance, group)?;
    reaches(alloc, &busy, group, amount, plans)
}

/// Whether a group gets at least so many slices of one period, by the plan or by its guarantee. It
/// makes one plan.
///
/// # Errors
/// `AllocError` if memory was refused.
pub fn gets(
    alloc: Global,
    instance: &Instance,
    measure: Measure,
    group: u32,
    amount: u64,
    plans: &mut Count,
) -> Result<bool, AllocError>
    requires { group < length instance.now.rows }
    ensures { IfOk result (λ enough. IsTrue enough ↔ Gets measure instance.now group amount) }
{
    match measure {
        Measure::Planned => reaches(alloc, instance, group, amount, plans),
        Measure::Guaranteed => is_guaranteed(alloc, instance, group, amount, plans),
    }
}
