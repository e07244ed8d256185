//! Rows of a text that are those of an instance. One pass shows their order, as it mostly can.
ghost use Rattle.std.specs.Prelude.{◌≡◌, ◌+◌, ◌<◌, ◌≤◌, true, length, slice_index, IsTrue};
ghost use Rattle.std.specs.Prelude.{IfOk, IfErr, IfSome};
ghost use Rattle.bw_model.specs.Groups.{IsInstance, row_of, demand_of};
ghost use Rattle.bw_model.specs.Refusal.{refusal, IsRefused};
ghost use Rattle.bw_cert.specs.Order.{IsInRange, IsPlaced, IsInOrder, AreInOrder};

use bw_model::limits::{MAX_DEMAND, MAX_DEPTH, MAX_GROUPS, MAX_WEIGHT, MIN_WEIGHT};
use bw_model::{HostShape, Instance, InstanceFault, Row};
use std::alloc::{AllocError, Global};

fn row_at(rows: &[Row], g: usize) -> Row
    requires { g < length rows.now }
    ensures { result ≡ row_of rows.now g }
{
    rows[g]
}

fn is_in_range(row: Row) -> bool
    ensures { IsTrue result → IsInRange row }
{
    row.weight >= MIN_WEIGHT && row.weight <= MAX_WEIGHT && row.demand <= MAX_DEMAND
}

// The depth of a row below its parent, if that is an earlier row without a demand.
fn depth_below(rows: &[Row], depths: &[u8], parent: u32, g: usize) -> Option<u8>
    requires within { g < length rows.now }
    requires one_each { length depths.now ≡ length rows.now }
    ensures before { IfSome result (λ depth. parent < g) }
    ensures idle { IfSome result (λ depth. demand_of rows.now parent ≡ 0) }
    ensures depth { IfSome result (λ depth. depth ≡ slice_index depths.now parent + 1) }
    ensures shallow { IfSome result (λ depth. depth ≤ MAX_DEPTH) }
{
    let parent = parent as usize;
    if parent >= g || row_at(rows, parent).demand > 0 {
        return None;
    }
    let above = depths[parent];
    if u64::from(above) >= MAX_DEPTH {
        return None;
    }
    Some(above + 1)
}

// The depth of a row that is in order, by the depths of the rows before it.
fn depth_in_order(rows: &[Row], depths: &[u8], row: Row, g: usize) -> Option<u8>
    requires within { g < length rows.now }
    requires one_each { length depths.now ≡ length rows.now }
    ensures in_range { IfSome result (λ depth. IsInRange row) }
    ensures placed { IfSome result (IsPlaced rows.now depths.now g row.parent) }
    ensures unlimited { IfSome result (λ depth. g ≡ 0 → row.limit ≡ None) }
{
    if !is_in_range(row) {
        return None;
    }
    match row.parent {
        Some(parent) => depth_below(rows, depths, parent, g),
        None => {
            if g > 0 || row.limit.is_some() {
                return None;
            }
            Some(0)
        }
    }
}

// Whether each row is in order.
fn are_in_order(alloc: Global, rows: &[Row]) -> Result<bool, AllocError>
    ensures { IfOk result (λ ordered. ordered ≡ true → AreInOrder rows.now) }
{
    let mut depths = vec![in alloc; 0u8; rows.len()]?;
    for g in 0..rows.len() {
        let row = row_at(rows, g);
        let Some(depth) = depth_in_order(rows, depths.as_slice(), row, g) else {
            return Ok(false);
        };
        depths[g] = depth;
    }
    Ok(true)
}

// Whether the rows are seen to be those of an instance.
fn is_instance(alloc: Global, rows: &[Row], shape: HostShape) -> bool
    ensures { IsTrue result → IsInstance (record { shape = shape; rows = rows.now }) }
{
    // its contract says that the host is in range
    let _slice_us = shape.slice_us();
    if rows.is_empty() || rows.len() > MAX_GROUPS {
        return false;
    }
    match are_in_order(alloc, rows) {
        Ok(ordered) => ordered,
        Err(_) => false,
    }
}

// The rows of an instance that is made by all tests, which name the fault if there is one.
fn tested_rows(alloc: Global, rows: Vec<Row>, shape: HostShape) -> Result<Vec<Row>, InstanceFault>
    ensures same { IfOk result (λ tested. tested.items ≡ rows.items) }
    ensures valid { IfOk result
        (λ tested. IsInstance (record { shape = shape; rows = tested.items })) }
    ensures err { IfErr result (IsRefused (refusal rows.items)) }
{
    let instance = Instance::new(alloc, rows, shape)?;
    match instance.rows().to_vec(alloc) {
        Ok(rows) => Ok(rows),
        Err(_) => Err(InstanceFault::OutOfMemory),
    }
}

/// Rows that are those of an instance. Where they are not in order, [`Instance::new`] names the
/// fault.
pub(crate) fn valid_rows(
    alloc: Global,
    rows: Vec<Row>,
    shape: HostShape,
) -> Result<Vec<Row>, InstanceFault>
    ensures same { IfOk result (λ valid. valid.items ≡ rows.items) }
    ensures valid { IfOk result
        (λ valid. IsInstance (record { shape = shape; rows = valid.items })) }
    ensures err { IfErr result (IsRefused (refusal rows.items)) }
{
    if is_instance(alloc, rows.as_slice(), shape) {
        return Ok(rows);
    }
    tested_rows(alloc, rows, shape)
}
