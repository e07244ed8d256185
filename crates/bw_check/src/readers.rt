//! Readers of one row of a host's groups.
ghost use Rattle.std.specs.Prelude.{◌≡◌, ◌<◌, length, IfSome};
ghost use Rattle.bw_model.specs.Groups.{AreTreeRows, row_of, weight_of, parent_of};
ghost use Rattle.bw_model.specs.Groups.{demand_of, limit_of};

use bw_model::{HostShape, Row};

fn row(rows: &[Row], g: u32) -> Row
    requires { g < length rows.now }
    ensures { result ≡ row_of rows.now g }
{
    rows[g as usize]
}

/// The row of the parent, which is before those of its children. The root has none.
pub(crate) fn parent(rows: &[Row], g: u32) -> Option<u32>
    requires tree { AreTreeRows rows.now }
    requires within { g < length rows.now }
    ensures value { result ≡ parent_of rows.now g }
    ensures before { IfSome result (λ p. p < g) }
{
    row(rows, g).parent
}

/// The weight of a group.
pub(crate) fn weight(rows: &[Row], g: u32) -> u64
    requires { g < length rows.now }
    ensures { result ≡ weight_of rows.now g }
{
    row(rows, g).weight
}

/// The demand of a group in slices per period.
pub(crate) fn demand(rows: &[Row], g: u32) -> u64
    requires { g < length rows.now }
    ensures { result ≡ demand_of rows.now g }
{
    row(rows, g).demand
}

/// The limit of a group in slices per period. At the root it is the capacity of the host.
pub(crate) fn limit(shape: HostShape, rows: &[Row], g: u32) -> Option<u64>
    requires { g < length rows.now }
    ensures { result ≡ limit_of (record { shape = shape; rows = rows.now }) g }
{
    if g == 0 {
        Some(shape.capacity())
    } else {
        row(rows, g).limit
    }
}
