//! One period, and the answer to `period`.
ghost use Rattle.std.specs.Prelude.{◌≡◌, ◌≤◌, ◌++◌, ℕ, List, OnOk, OnErr, IfErr};
ghost use Rattle.std.specs.Vec.{vec_capacity};
ghost use Rattle.bw_commands.specs.Faults.{error_line};
ghost use Rattle.bw_commands.specs.Period.{IsPeriod};
ghost use Rattle.bw_commands.specs.Script.{Period, IsAllowedFailure};

use crate::fault::ScriptFault;
use bw_demand::gather_rows;
use bw_hierarchy::Hierarchy;
use bw_plan::plan_gathered;
use bw_streams::put_number_line;
use bw_workers::{Gate, serve};
use std::alloc::Global;
use std::rt::Clock;
use std::sync::Wait;
use std::thread::Threads;

/// Serves one period and appends the answer: the slices that the workers drew at the root.
///
/// Then it counts the period for each group, and notes what the group left of its limit.
///
/// # Errors
///
/// The hierarchy is then unchanged:
/// - `NotStarted` if a thread could not be spawned.
/// - `OutOfMemory` if an allocation failed.
#[tactic(auto, unfolding(crate::specs::Faults::error_line))]
pub fn serve_period<G: Gate, H: Threads + Wait + Clock + Sync>(
    rt: &H,
    alloc: Global,
    hierarchy: &mut Hierarchy,
    gate: &G,
    answer: &mut Vec<u8>,
) -> Result<(), ScriptFault>
    ensures ok { OnOk result
        ((text : List ℕ) × IsPeriod hierarchy.old (G.used gate.now) text hierarchy.new
        × (answer.new.items ≡ answer.old.items ++ text)) }
    ensures err { OnErr result (hierarchy.new ≡ hierarchy.old) }
    ensures spare { IfErr result (λ fault. IsAllowedFailure Period (error_line fault)) }
    ensures room { vec_capacity answer.old ≤ vec_capacity answer.new }
{
    let snapshot = hierarchy.take_snapshot()?;
    let gathered = gather_rows(alloc, &snapshot.instance)?;
    let plan = plan_gathered(rt, alloc, &snapshot.instance, &gathered)?;
    let served = serve(rt, alloc, &snapshot.instance, &plan, gate)?;
    put_number_line(b"served ", served.drawn[0], answer)?;
    hierarchy.book(snapshot, &gathered, &served.drawn)?;
    Ok(())
}
