//! The limits of a round.
ghost use Rattle.std.specs.Prelude.{◌≡◌, ◌<◌, ◌≤◌, length, map, IfOk, Some, slice_index};
ghost use Rattle.std.specs.Prelude.{◌&&◌, not, if◌then◌else◌};
ghost use Rattle.std.specs.List.{range_with_len};
ghost use Rattle.bw_model.specs.declared.limits.TheConstants.{MAX_DEMAND};
ghost use Rattle.bw_model.specs.Groups.{row_of, is_leaf};
ghost use Rattle.bw_questions.specs.HeldRule.{headroom, leaf_limit, own_limit, round_limit};

use bw_model::{Instance, Row};
use std::alloc::{AllocError, Global};

// Slices that a leaf used and an eighth of them, at most its own limit. One slice is the least
// eighth, so that a leaf that used few slices or none can use more.
fn headroom(row: &Row) -> u64
    requires { row.now.demand ≤ MAX_DEMAND }
    ensures { result ≡ headroom row.now }
{
    let room = row.demand + row.demand.div_ceil(8).max(1);
    match row.limit {
        None => room,
        Some(limit) => room.min(limit),
    }
}

/// The limit of a leaf in a round that is not calm, in slices.
pub(crate) fn leaf_limit(row: &Row, is_hungry: bool, floor: u64, amount: u64) -> u64
    requires { row.now.demand ≤ MAX_DEMAND }
    ensures { result ≡ leaf_limit row.now is_hungry floor amount }
{
    let held = if is_hungry || amount < row.demand {
        amount
    } else {
        headroom(row)
    };
    held.max(floor)
}

// The limit of a row: a leaf's is that of the round unless it is calm, and another group keeps its
// own.
fn row_limit(
    reading: &Instance,
    g: u32,
    calm: bool,
    is_hungry: bool,
    floor: u64,
    amount: u64,
) -> Option<u64>
    requires { g < length reading.now.rows }
    ensures { result ≡ (if is_leaf reading.now.rows g && not calm
        then Some (leaf_limit (row_of reading.now.rows g) is_hungry floor amount)
        else own_limit reading.now.rows g) }
{
    // its contract says that the demands are in range
    let _rows = reading.rows();
    let row = reading.row(g);
    if reading.is_leaf(g) && !calm {
        Some(leaf_limit(&row, is_hungry, floor, amount))
    } else {
        row.limit
    }
}

/// The limits of a round, one per row.
///
/// # Errors
/// `AllocError` if memory was refused.
pub(crate) fn limits_of(
    alloc: Global,
    reading: &Instance,
    calm: bool,
    hungry: &[bool],
    floors: &[u64],
    amounts: &[u64],
) -> Result<Vec<Option<u64>>, AllocError>
    requires flags { length hungry.now ≡ length reading.now.rows }
    requires floors { length floors.now ≡ length reading.now.rows }
    requires amounts { length amounts.now ≡ length reading.now.rows }
    ensures { IfOk result (λ limits. limits.items ≡
        map (round_limit reading.now calm hungry.now floors.now amounts.now)
        (range_with_len 0 (length reading.now.rows))) }
{
    let count = reading.rows().len();
    let mut limits: Vec<Option<u64>> = Vec::with_capacity(alloc, count)?;
    for g in 0..count {
        limits.push(row_limit(reading, g as u32, calm, hungry[g], floors[g], amounts[g]))?;
    }
    Ok(limits)
}
