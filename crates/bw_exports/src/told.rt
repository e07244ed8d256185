//! The groups after a script, and its refused lines, as columns of numbers.
ghost use Rattle.std.specs.Prelude.{◌≡◌, ◌≤◌, ◌&&◌, length, nat_le, IfOk};
ghost use Rattle.bw_model.specs.declared.limits.TheConstants.{MAX_GROUPS};
ghost use Rattle.bw_columns.specs.Groups.{columns_of, AreLong};
ghost use Rattle.bw_exports.specs.Script.{line_numbers, fault_numbers};
ghost use Rattle.bw_exports.specs.ScriptTold.{IsTold};

use bw_columns::{GroupColumns, group_columns};
use bw_commands::{RefusedLine, read_script};
use bw_hierarchy::Fault;
use bw_model::HostShape;
use std::alloc::{AllocError, Global};

/// The groups after a script, and its refused lines, by column.
#[derive(Drop)]
pub(crate) struct Told {
    pub(crate) groups: GroupColumns,
    pub(crate) lines: Vec<u64>,
    pub(crate) faults: Vec<u32>,
}

// The numbers of refused lines.
fn refused_lines(alloc: Global, refused: &[RefusedLine]) -> Result<Vec<u64>, AllocError>
    ensures { IfOk result (λ v. v.items ≡ line_numbers refused.now) }
{
    refused.iter().map(|refused| refused.line).collect(alloc)
}

// The numbers of their faults.
fn refused_faults(alloc: Global, refused: &[RefusedLine]) -> Result<Vec<u32>, AllocError>
    ensures { IfOk result (λ v. v.items ≡ fault_numbers refused.now) }
{
    refused
        .iter()
        .map(|refused| u32::from(refused.fault.number()))
        .collect(alloc)
}

/// Reads a script. `hash_key` is as in [`read_script`].
///
/// # Errors
/// The fault of a failed allocation.
pub(crate) fn told_by(
    alloc: Global,
    shape: HostShape,
    hash_key: u64,
    text: &[u8],
) -> Result<Told, Fault>
    ensures told { IfOk result (λ t. IsTold shape text.now t) }
    ensures long { IfOk result (λ t. AreLong (columns_of t.groups)) }
    ensures few { IfOk result (λ t. length t.groups.parents.items ≤ MAX_GROUPS) }
    ensures each { IfOk result (λ t. length t.faults.items ≡ length t.lines.items) }
{
    let read = read_script(alloc, shape, hash_key, text)?;
    let refused = read.refused.as_slice();
    Ok(Told {
        groups: group_columns(alloc, read.reader.hierarchy())?,
        lines: refused_lines(alloc, refused)?,
        faults: refused_faults(alloc, refused)?,
    })
}

impl Told {
    /// Whether there is room for so many groups, bytes of names and refused lines.
    pub(crate) fn fits(&self, groups: usize, names: usize, refused: usize) -> bool
        ensures { result ≡ (nat_le (length self.now.groups.parents.items) groups
            && nat_le (length self.now.groups.names.items) names
            && nat_le (length self.now.lines.items) refused) }
    {
        self.groups.parents.len() <= groups
            && self.groups.names.len() <= names
            && self.lines.len() <= refused
    }
}
