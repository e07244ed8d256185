//! The limiting groups of an instance, from the root down.
ghost use Rattle.std.specs.Prelude.{◌≡◌, ℕ, ◌<◌, ◌≤◌, ◌&&◌, ◌||◌, Some, false, not, length};
ghost use Rattle.std.specs.Prelude.{slice_index_or, IfOk, if◌then◌else◌};
ghost use Rattle.std.specs.Option.{option_map_or};
ghost use Rattle.bw_model.specs.Demand.{limiting_groups, demand_outside};
ghost use Rattle.bw_model.specs.Groups.{parent_of};
ghost use Rattle.bw_demand.specs.Demands.{demands_of, IsGathered};
ghost use Rattle.bw_demand.specs.Limits.{AreGreatest};

use crate::gathered::{Gathered, Limiting};
use bw_model::{Instance, Row};
use std::alloc::{AllocError, Global};

// Whether the parent of a row is covered: tight, or under a tight group.
fn is_parent_covered(rows: &[Row], covered: &[bool], g: usize) -> bool
    requires within { g < length rows.now }
    requires parent { (p : ℕ) → parent_of rows.now g ≡ Some p → p < length covered.now }
    ensures { result
        ≡ option_map_or (λ p. slice_index_or covered.now p false) (parent_of rows.now g) false }
{
    match rows[g].parent {
        None => false,
        Some(parent) => covered[parent as usize],
    }
}

fn is_limiting(tight: bool, above: bool) -> bool
    ensures { result ≡ (tight && not above) }
{
    tight && !above
}

fn is_covered(tight: bool, above: bool) -> bool
    ensures { result ≡ (tight || above) }
{
    tight || above
}

// The slices that a row adds to the demands outside the limiting groups.
fn demand_if_outside(covered: bool, demand: u64) -> u64
    ensures value { result ≡ (if covered then 0 else demand) }
    ensures bound { result ≤ demand }
{
    if covered { 0 } else { demand }
}

/// The limiting groups of an instance, and the demands outside them in slices of one period.
///
/// `gathered` is the instance's own gathering. The time grows with the number of rows.
///
/// # Errors
/// `AllocError` if memory was refused.
pub fn limiting(
    alloc: Global,
    instance: &Instance,
    gathered: &Gathered,
) -> Result<Limiting, AllocError>
    requires gathered { IsGathered instance.now (demands_of gathered.now) }
    ensures groups { IfOk result
        (λ l. l.groups.items ≡ limiting_groups instance.now gathered.now.most.items) }
    ensures rest { IfOk result (λ l. l.rest ≡ demand_outside instance.now.rows l.groups.items) }
    ensures greatest { IfOk result (λ l. AreGreatest instance.now l.groups.items l.rest) }
{
    let rows = instance.rows();
    let mut groups: Vec<u32> = Vec::new(alloc);
    let mut rest = 0u64;
    // Whether each row or one of its ancestors is tight.
    let mut covered = vec![in alloc; false; rows.len()]?;
    for g in 0..rows.len() {
        let tight = gathered.tight[g];
        let above = is_parent_covered(rows, covered.as_slice(), g);
        let here = is_covered(tight, above);
        covered[g] = here;
        // a row with children has no demand
        rest += demand_if_outside(here, rows[g].demand);
        if is_limiting(tight, above) {
            groups.push(g as u32)?;
        }
    }
    Ok(Limiting { groups, rest })
}
