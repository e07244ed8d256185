//! Wants and greatest amounts, from the deepest groups up.
ghost use Rattle.std.specs.Prelude.{IfOk};
ghost use Rattle.bw_demand.specs.Demands.{demands_of, IsGathered};
ghost use Rattle.bw_demand.specs.ByDepth.{AreByDepth};

use crate::depths::levels;
use crate::gathered::Gathered;
use crate::one_row::{gather_row, ungathered};
use bw_model::Instance;
use std::alloc::{AllocError, Global};

// Gathers the rows of each depth, the deepest first.
fn gather_depths(
    alloc: Global,
    instance: &Instance,
    depths: &[Vec<u32>],
) -> Result<Gathered, AllocError>
    requires depths { AreByDepth instance.now.rows depths.now }
    ensures { IfOk result (λ gathered. IsGathered instance.now (demands_of gathered)) }
{
    let rows = instance.rows();
    let mut gathered = ungathered(alloc, rows)?;
    // the children of a row are one deeper, so each want is whole when its row comes
    for depth in (0..depths.len()).rev() {
        let groups = depths[depth].as_slice();
        for k in 0..groups.len() {
            gather_row(instance, groups[k], &mut gathered);
        }
    }
    Ok(gathered)
}

/// The wants, the mosts and the tight flags of an instance, in slices of one period.
///
/// The time grows with the number of rows.
///
/// # Errors
/// `AllocError` if memory was refused.
pub fn gather(alloc: Global, instance: &Instance) -> Result<Gathered, AllocError>
    ensures { IfOk result (λ gathered. IsGathered instance.now (demands_of gathered)) }
{
    let depths = levels(alloc, instance)?;
    gather_depths(alloc, instance, depths.as_slice())
}
