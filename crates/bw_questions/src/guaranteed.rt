//! The least amount of a group over all demands of the others.
ghost use Rattle.std.specs.Prelude.{IfOk, IfErr};
ghost use Rattle.bw_questions.specs.Guarantee.{IsGuaranteed};
ghost use Rattle.bw_questions.specs.Fault.{IsRefused};

mod busy;
mod fault;

pub(crate) use busy::busy_instance;
use bw_model::Instance;
use bw_plan::plan;
pub use fault::GuaranteeFault;
use std::alloc::Global;

/// The amount that a group is guaranteed, in slices of one period: 0 to 64000.
///
/// The group gets no less, whatever the groups that are not under it ask for. For some demands of
/// theirs it gets no more: those of the plan in which each of their leaves asks for 1000000 slices.
/// The group's own demand, the demands below it, all weights, limits and the host are as they are.
///
/// # Errors
///
/// - [`GuaranteeFault::NotFound`]
/// - [`GuaranteeFault::OutOfMemory`]
pub fn guarantee(alloc: Global, instance: &Instance, group: u32) -> Result<u64, GuaranteeFault>
    ensures ok { IfOk result (IsGuaranteed instance.now group) }
    ensures err { IfErr result (IsRefused instance.now group) }
{
    if group as usize >= instance.rows().len() {
        return Err(GuaranteeFault::NotFound);
    }
    let busy = busy_instance(alloc, instance, group)?;
    let planned = plan(alloc, &busy)?;
    let amounts = planned.amounts.as_slice();
    Ok(amounts[group as usize])
}
