//! The groups to blame, from the root down.
ghost use Rattle.std.specs.Prelude.{◌≡◌, ℕ, ◌<◌, true, false, Some, length, slice_index, IfOk};
ghost use Rattle.bw_model.specs.Groups.{parent_of};
ghost use Rattle.bw_model.specs.Plan.{IsPlan};
ghost use Rattle.bw_demand.specs.Demands.{demands_of, IsGathered};
ghost use Rattle.bw_questions.specs.Reasons.{AreBlamed};

use bw_demand::Gathered;
use bw_model::Instance;
use bw_plan::Plan;
use std::alloc::{AllocError, Global};

// The group to blame for a group: itself, or if it lacks something that of the group above.
fn blamed_of(instance: &Instance, g: u32, lacks: bool, blamed: &[u32]) -> u32
    requires row { g < length instance.now.rows }
    requires before { length blamed.now ≡ g }
    ensures here { lacks ≡ false → result ≡ g }
    ensures above { lacks ≡ true → (p : ℕ) → parent_of instance.now.rows g ≡ Some p
        → result ≡ slice_index blamed.now p }
{
    match instance.parent(g) {
        Some(parent) if lacks => blamed[parent as usize],
        _ => g,
    }
}

/// The group to blame for each group's amount: the nearest from the group up that gets all that it
/// can be given.
///
/// # Errors
/// `AllocError` if memory was refused.
pub(crate) fn blamed_groups(
    alloc: Global,
    instance: &Instance,
    gathered: &Gathered,
    plan: &Plan,
) -> Result<Vec<u32>, AllocError>
    requires gathered { IsGathered instance.now (demands_of gathered.now) }
    requires plan { IsPlan instance.now plan.now.amounts.items }
    ensures { IfOk result (λ blamed. AreBlamed instance.now gathered.now.most.items
        plan.now.amounts.items blamed.items) }
{
    let count = instance.group_count();
    let mut blamed: Vec<u32> = Vec::with_capacity(alloc, count as usize)?;
    for g in 0..count {
        let lacks = plan.amounts[g as usize] < gathered.most[g as usize];
        let group = blamed_of(instance, g, lacks, blamed.as_slice());
        blamed.push(group)?;
    }
    Ok(blamed)
}
