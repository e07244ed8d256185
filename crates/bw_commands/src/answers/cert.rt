//! The answer to `cert`.
ghost use Rattle.std.specs.Prelude.{◌≡◌};
ghost use Rattle.bw_commands.specs.Answers.{Answers};
ghost use Rattle.bw_commands.specs.CertifiedPlan.{IsCertifiedPlan};

use bw_cert::{certify_gathered, write_certified};
use bw_demand::gather_rows;
use bw_hierarchy::{Fault, Hierarchy};
use bw_plan::plan_gathered;
use std::alloc::Global;
use std::thread::Threads;

/// Appends the answer to `cert`: the certified text of the plan.
///
/// # Errors
///
/// `OutOfMemory` if an allocation failed.
pub fn put_certified<H: Threads + Sync>(
    rt: &H,
    alloc: Global,
    hierarchy: &mut Hierarchy,
    answer: &mut Vec<u8>,
) -> Result<(), Fault>
    ensures answers { Answers (IsCertifiedPlan hierarchy.old) answer.old answer.new result }
    ensures same { hierarchy.new ≡ hierarchy.old }
{
    let snapshot = hierarchy.take_snapshot()?;
    let instance = &snapshot.instance;
    let gathered = gather_rows(alloc, instance)?;
    let plan = plan_gathered(rt, alloc, instance, &gathered)?;
    let amounts = plan.amounts.as_slice();
    let certificate = certify_gathered(alloc, instance, gathered, &plan)?;
    let text = write_certified(alloc, instance, amounts, &certificate)?;
    answer.extend_from_slice(text.as_bytes())?;
    hierarchy.keep(snapshot);
    Ok(())
}
