//! The reason of each group.
ghost use Rattle.std.specs.Prelude.{◌≡◌, ◌≤◌, IfOk};
ghost use Rattle.bw_model.specs.Plan.{IsPlan};
ghost use Rattle.bw_demand.specs.Demands.{demands_of, IsGathered};
ghost use Rattle.bw_questions.specs.Reasons.{FitsReason, AreReasons};

mod blamed;
mod laws;
mod reason;

use blamed::blamed_groups;
use bw_demand::Gathered;
use bw_model::Instance;
use bw_plan::Plan;
pub use laws::{
    blamed_gains_or_is_clear, blamed_has_its_limit, only_the_blamed_limit_helps,
    there_is_one_reason,
};
pub use reason::Reason;
use std::alloc::{AllocError, Global};

// The reason of a group by its want, its amount and the group to blame.
fn reason_of(g: u32, want: u64, amount: u64, blamed: u32) -> Reason
    requires { amount ≤ want }
    ensures { FitsReason g want amount blamed result }
{
    if want == 0 {
        Reason::NothingAsked
    } else if amount == want {
        Reason::AllWanted
    } else if blamed == 0 {
        Reason::HostFull
    } else if blamed == g {
        Reason::OwnLimit
    } else {
        Reason::LimitAbove(blamed)
    }
}

/// Why each group gets what it gets, one reason per row.
///
/// `gathered` and `plan` are the instance's own. The time grows with the number of rows.
///
/// # Errors
/// `AllocError` if memory was refused.
pub fn reasons(
    alloc: Global,
    instance: &Instance,
    gathered: &Gathered,
    plan: &Plan,
) -> Result<Vec<Reason>, AllocError>
    requires gathered { IsGathered instance.now (demands_of gathered.now) }
    requires plan { IsPlan instance.now plan.now.amounts.items }
    ensures { IfOk result (λ reasons. AreReasons instance.now (demands_of gathered.now)
        plan.now.amounts.items reasons.items) }
{
    let count = instance.group_count();
    let blamed = blamed_groups(alloc, instance, gathered, plan)?;
    let mut reasons: Vec<Reason> = Vec::with_capacity(alloc, count as usize)?;
    for g in 0..count {
        let at = g as usize;
        reasons.push(reason_of(g, gathered.want[at], plan.amounts[at], blamed[at]))?;
    }
    Ok(reasons)
}
