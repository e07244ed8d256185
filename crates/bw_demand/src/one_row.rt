//! One row of a gathering.
ghost use Rattle.std.specs.Prelude.{◌≡◌, false, nat_lt, min, map, IfOk};
ghost use Rattle.std.specs.Option.{option_map_or};
ghost use Rattle.bw_demand.specs.Demands.{demands_of};
ghost use Rattle.bw_demand.specs.OneRow.{ungathered, with_row, CanGather};

use crate::gathered::Gathered;
use bw_model::{Instance, Row};
use std::alloc::{AllocError, Global};

// The slices that a limit leaves of a want.
fn cut_at(limit: Option<u64>, want: u64) -> u64
    ensures { result ≡ option_map_or (min want) limit want }
{
    match limit {
        None => want,
        Some(limit) => want.min(limit),
    }
}

// Whether a limit is below a want.
fn is_below(limit: Option<u64>, want: u64) -> bool
    ensures { result ≡ option_map_or (λ l. nat_lt l want) limit false }
{
    match limit {
        None => false,
        Some(limit) => limit < want,
    }
}

// The demand of each row.
fn demands_of(alloc: Global, rows: &[Row]) -> Result<Vec<u64>, AllocError>
    ensures { IfOk result (λ demands. demands.items ≡ map (λ row. row.demand) rows.now) }
{
    rows.iter().map(|row| row.demand).collect(alloc)
}

/// The start of a gathering: each row wants its own demand, every most is 0, and no flag is set.
pub(crate) fn ungathered(alloc: Global, rows: &[Row]) -> Result<Gathered, AllocError>
    ensures { IfOk result (λ gathered. demands_of gathered ≡ ungathered rows.now) }
{
    let want = demands_of(alloc, rows)?;
    let most = vec![in alloc; 0u64; rows.len()]?;
    let tight = vec![in alloc; false; rows.len()]?;
    Ok(Gathered { want, most, tight })
}

/// Gathers one row: its most is its want cut at its limit, and is added to the want of its parent.
pub(crate) fn gather_row(instance: &Instance, g: u32, gathered: &mut Gathered)
    requires { CanGather instance.now (demands_of gathered.old) g }
    ensures { demands_of gathered.new ≡ with_row instance.now (demands_of gathered.old) g }
{
    let wanted = gathered.want[g as usize];
    let limit = instance.limit(g);
    let given = cut_at(limit, wanted);
    gathered.most[g as usize] = given;
    gathered.tight[g as usize] = is_below(limit, wanted);
    if let Some(parent) = instance.parent(g) {
        gathered.want[parent as usize] += given;
    }
}
