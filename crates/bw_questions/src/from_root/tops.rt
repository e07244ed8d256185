//! The greatest weight that each row may have.
ghost use Rattle.std.specs.Prelude.{◌≡◌, ◌<◌, length, slice_index_or, false, IfOk};
ghost use Rattle.bw_questions.specs.FromRoot.{AreTops, top_of};

use bw_model::Instance;
use bw_model::limits::MAX_WEIGHT;
use std::alloc::{AllocError, Global};

// The greatest weight of a row: the greatest of all if it may change, else its own.
fn top_of(instance: &Instance, may: &[bool], g: u32) -> u64
    requires row { g < length instance.now.rows }
    requires may { length may.now ≡ length instance.now.rows }
    ensures { result ≡ top_of instance.now.rows may.now g }
{
    if may[g as usize] {
        MAX_WEIGHT
    } else {
        instance.row(g).weight
    }
}

/// The greatest weight that each row may have.
///
/// # Errors
/// `AllocError` if memory was refused.
pub(crate) fn tops_of(
    alloc: Global,
    instance: &Instance,
    may: &[bool],
) -> Result<Vec<u64>, AllocError>
    requires { length may.now ≡ length instance.now.rows }
    ensures { IfOk result (λ tops. AreTops instance.now.rows may.now tops.items) }
{
    let count = instance.rows().len();
    let mut tops = vec![in alloc; 0u64; count]?;
    for g in 0..count {
        tops[g] = top_of(instance, may, g as u32);
    }
    Ok(tops)
}
