//! Formats `error N NAME` for a refused line of a script, into preallocated space.
ghost use Rattle.std.specs.Prelude.{◌≡◌, ◌≤◌, []};
ghost use Rattle.std.specs.Vec.{vec_capacity};
ghost use Rattle.bw_commands.specs.Faults.{error_line};

use crate::fault::ScriptFault;
use bw_streams::put_refusal;

/// Greatest length of a refusal, in bytes.
pub const REFUSAL_BYTES: usize = 64;

ghost use Rattle.bw_commands.specs.declared.refusal.TheConstants.{REFUSAL_BYTES};

/// Appends the line of a refusal to an empty buffer. It allocates nothing.
#[tactic(auto, unfolding(crate::specs::Faults::error_line))]
pub fn put_error(answer: &mut Vec<u8>, fault: ScriptFault)
    requires empty { answer.old.items ≡ [] }
    requires room { REFUSAL_BYTES ≤ vec_capacity answer.old }
    ensures items { answer.new.items ≡ error_line fault }
    ensures room { REFUSAL_BYTES ≤ vec_capacity answer.new }
{
    let _ = put_refusal(fault.number(), fault.name(), answer);
}
