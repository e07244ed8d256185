//! The answer to `plan`.
ghost use Rattle.std.specs.Prelude.{◌≡◌};
ghost use Rattle.bw_commands.specs.Answers.{Answers};
ghost use Rattle.bw_commands.specs.Planned.{IsPlanText};

use super::line::{Line, put_lines};
use bw_hierarchy::{Fault, Hierarchy};
use bw_plan::plan_levels;
use std::alloc::Global;
use std::thread::Threads;

/// Appends the answer to `plan`: for each group, in order of creation, what it gets in slices of
/// one period, and its path.
///
/// # Errors
///
/// `OutOfMemory` if an allocation failed.
pub fn put_plan<H: Threads + Sync>(
    rt: &H,
    alloc: Global,
    hierarchy: &mut Hierarchy,
    answer: &mut Vec<u8>,
) -> Result<(), Fault>
    ensures answers { Answers (IsPlanText hierarchy.old) answer.old answer.new result }
    ensures same { hierarchy.new ≡ hierarchy.old }
{
    let snapshot = hierarchy.take_snapshot()?;
    let plan = plan_levels(rt, alloc, &snapshot.instance)?;
    let line = Line::Amount(plan.amounts.as_slice());
    put_lines(alloc, line, hierarchy.tree(), answer)?;
    hierarchy.keep(snapshot);
    Ok(())
}
