//! The instance of a round: leaves that ask for everything, or for what they used.
ghost use Rattle.std.specs.Prelude.{◌≡◌, ◌<◌, length, map, IfOk};
ghost use Rattle.bw_model.specs.declared.row.Row.{Row};
ghost use Rattle.bw_model.specs.Groups.{IsInstance};
ghost use Rattle.bw_questions.specs.HeldRule.{demand_where, row_asking, is_hungry, round_of};
ghost use Rattle.bw_questions.specs.HeldRule.{everyone};

use bw_model::limits::MAX_DEMAND;
use bw_model::{Instance, Row};
use std::alloc::{AllocError, Global};

// The row of a group. A leaf that is hungry asks for the greatest demand.
fn row_asking(reading: &Instance, g: u32, is_hungry: bool) -> Row
    requires { g < length reading.now.rows }
    ensures { result ≡
        row_asking reading.now.rows (λ h. demand_where reading.now.rows is_hungry h) g }
{
    let row = reading.row(g);
    let demand = if is_hungry && reading.is_leaf(g) {
        MAX_DEMAND
    } else {
        row.demand
    };
    Row { demand, ..row }
}

// The rows of a round.
fn rows_asking(alloc: Global, reading: &Instance, hungry: &[bool]) -> Result<Vec<Row>, AllocError>
    requires { length hungry.now ≡ length reading.now.rows }
    ensures { IfOk result (λ rows. rows.items ≡ (round_of reading.now hungry.now).rows) }
{
    let count = reading.rows().len();
    let mut rows: Vec<Row> = Vec::with_capacity(alloc, count)?;
    for g in 0..count {
        rows.push(row_asking(reading, g as u32, hungry[g]))?;
    }
    Ok(rows)
}

/// The instance of a round: a hungry leaf asks for 1000000 slices, another for what it used.
///
/// # Errors
/// `AllocError` if memory was refused.
pub(crate) fn round_of(
    alloc: Global,
    reading: &Instance,
    hungry: &[bool],
) -> Result<Instance, AllocError>
    requires { length hungry.now ≡ length reading.now.rows }
    ensures round { IfOk result (λ round. round ≡ round_of reading.now hungry.now) }
    ensures valid { IfOk result IsInstance }
{
    // its contract says that the reading is valid
    let _rows = reading.rows();
    let rows = rows_asking(alloc, reading, hungry)?;
    Instance::of_valid(alloc, rows, reading.shape())
}

/// The instance in which each leaf asks for 1000000 slices.
///
/// # Errors
/// `AllocError` if memory was refused.
pub(crate) fn everyone(alloc: Global, instance: &Instance) -> Result<Instance, AllocError>
    ensures everyone { IfOk result (λ busy. busy ≡ everyone instance.now) }
    ensures valid { IfOk result IsInstance }
{
    let hungry = vec![in alloc; true; instance.rows().len()]?;
    round_of(alloc, instance, hungry.as_slice())
}

/// The demands of an instance, one per row.
///
/// # Errors
/// `AllocError` if memory was refused.
pub(crate) fn demands_of(alloc: Global, instance: &Instance) -> Result<Vec<u64>, AllocError>
    ensures { IfOk result
        (λ demands. demands.items ≡ map (λ (r : Row). r.demand) instance.now.rows) }
{
    instance.rows().iter().map(|row| row.demand).collect(alloc)
}
