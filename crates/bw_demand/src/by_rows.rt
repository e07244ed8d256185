//! Wants and greatest amounts, from the last row up.
ghost use Rattle.std.specs.Prelude.{IfOk};
ghost use Rattle.bw_demand.specs.Demands.{demands_of, IsGathered};

use crate::gathered::Gathered;
use crate::one_row::{gather_row, ungathered};
use bw_model::Instance;
use std::alloc::{AllocError, Global};

/// [`gather`](crate::gather) without lists by depth, from the last row up.
///
/// Each row comes after its parent, so every want is whole when its row comes. The rows are read
/// one after another, which is the fastest order in memory.
///
/// # Errors
/// `AllocError` if memory was refused.
pub fn gather_rows(alloc: Global, instance: &Instance) -> Result<Gathered, AllocError>
    ensures { IfOk result (λ gathered. IsGathered instance.now (demands_of gathered)) }
{
    let rows = instance.rows();
    let mut gathered = ungathered(alloc, rows)?;
    for g in (0..rows.len()).rev() {
        gather_row(instance, g as u32, &mut gathered);
    }
    Ok(gathered)
}
