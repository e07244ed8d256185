//! The changes that a script makes to a hierarchy.
ghost use Rattle.std.specs.Prelude.{◌≡◌, ℕ, Bool, IfErr};
ghost use Rattle.bw_text.specs.Number.{number_spelled};
ghost use Rattle.bw_commands.specs.Parsed.{change_of};
ghost use Rattle.bw_commands.specs.Script.{outcome_of_command, demand_outcome, ok_line};
ghost use Rattle.bw_commands.specs.Script.{Performs, IsRefusedBy};
ghost use Rattle.bw_commands.specs.State.{in_state};

use crate::command::Change;
use crate::fault::ScriptFault;
use bw_hierarchy::Hierarchy;
use bw_text::{NumberFault, read_number};

/// Makes a change, whose answer is `ok`.
///
/// # Errors
///
/// The refusal of the change; the hierarchy stays. With the number 71 an allocation failed.
#[tactic(auto, unfolding(crate::specs::Script::mkdir_outcome, crate::specs::Script::rmdir_outcome, crate::specs::Script::write_outcome))]
#[inline(always)]
pub(crate) fn apply_change(hierarchy: &mut Hierarchy, change: Change<'_>) -> Result<(), ScriptFault>
    ensures performs { (uses : ℕ → Bool) → Performs (in_state uses hierarchy.old)
        (outcome_of_command (in_state uses hierarchy.old) (change_of change.entry)) result ok_line
        (in_state uses hierarchy.new) }
    ensures refused { (uses : ℕ → Bool) → IfErr result (IsRefusedBy (in_state uses hierarchy.old)
        (outcome_of_command (in_state uses hierarchy.old) (change_of change.entry))) }
{
    match change {
        Change::Mkdir { path } => {
            let _id = hierarchy.mkdir(path)?;
            Ok(())
        }
        Change::Rmdir { path } => Ok(hierarchy.rmdir(path)?),
        Change::Demand { path, number } => demand(hierarchy, path, number),
        Change::Write { path, file, text } => Ok(hierarchy.write_file(
            path,
            file,
            text.as_bytes(),
        )?),
    }
}

// `demand P N`
#[tactic(auto, unfolding(crate::specs::Script::demand_outcome))]
fn demand(hierarchy: &mut Hierarchy, path: &str, number: &str) -> Result<(), ScriptFault>
    ensures performs { (uses : ℕ → Bool) → Performs (in_state uses hierarchy.old)
        (demand_outcome (in_state uses hierarchy.old) path.now (number_spelled number.now)) result
        ok_line (in_state uses hierarchy.new) }
    ensures refused { (uses : ℕ → Bool) → IfErr result (IsRefusedBy (in_state uses hierarchy.old)
        (demand_outcome (in_state uses hierarchy.old) path.now (number_spelled number.now))) }
{
    let demand = match read_number(number.as_bytes()) {
        Ok(demand) => demand,
        Err(NumberFault::BadForm) => return Err(ScriptFault::BadNumber),
        // above every demand that a group may have
        Err(NumberFault::TooGreat) => u64::MAX,
    };
    Ok(hierarchy.set_demand(path, demand)?)
}
