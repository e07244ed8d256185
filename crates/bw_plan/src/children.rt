//! The children of a group as lists, in order of creation.
ghost use Rattle.std.specs.Prelude.{◌≡◌, ◌<◌, ◌≤◌, length, map, max, min, slice_index, All};
ghost use Rattle.std.specs.Prelude.{EachIndex, IfOk};
ghost use Rattle.bw_model.specs.Groups.{children_of, weight_of};
ghost use Rattle.bw_model.specs.Plan.{child_weights};

use bw_model::limits::{MAX_CAPACITY, MAX_WEIGHT};
use bw_model::{Instance, Row};
use smallvec::SmallVec;
use std::alloc::{AllocError, Global};

/// One number for each child of a group. Up to eight numbers are stored in place.
pub type ChildValues = SmallVec<u64, 8>;

/// As [`ChildValues`], with 16 bits for each number. A split reads four of them at once.
pub(crate) type NarrowValues = SmallVec<u16, 8>;

fn weights_of(alloc: Global, rows: &[Row], places: &[u32]) -> Result<ChildValues, AllocError>
    requires { All (λ place. place < length rows.now) places.now }
    ensures items { IfOk result (λ weights. weights.items ≡ map (weight_of rows.now) places.now) }
    ensures room { IfOk result (λ weights. weights.capacity ≡ max 8 (length places.now)) }
{
    let mut weights = SmallVec::with_capacity(alloc, places.len())?;
    for place in places {
        weights.push_reserved(rows[*place as usize].weight);
    }
    Ok(weights)
}

fn values_at(alloc: Global, values: &[u64], places: &[u32]) -> Result<ChildValues, AllocError>
    requires { All (λ place. place < length values.now) places.now }
    ensures items { IfOk result (λ picked. picked.items ≡ map (slice_index values.now) places.now) }
    ensures room { IfOk result (λ picked. picked.capacity ≡ max 8 (length places.now)) }
{
    let mut picked = SmallVec::with_capacity(alloc, places.len())?;
    for place in places {
        picked.push_reserved(values[*place as usize]);
    }
    Ok(picked)
}

/// The weights of the children of a group, 1 to 10,000 each.
///
/// # Errors
/// `AllocError` if memory was refused.
pub fn child_weights(alloc: Global, instance: &Instance, g: u32) -> Result<ChildValues, AllocError>
    requires { g < length instance.now.rows }
    ensures { IfOk result (λ weights. weights.items ≡ child_weights instance.now.rows g) }
{
    weights_of(alloc, instance.rows(), instance.children(g))
}

/// The values of the children of a group, from one value per row.
///
/// # Errors
/// `AllocError` if memory was refused.
pub fn child_values(
    alloc: Global,
    instance: &Instance,
    values: &[u64],
    g: u32,
) -> Result<ChildValues, AllocError>
    requires row { g < length instance.now.rows }
    requires one_each { length values.now ≡ length instance.now.rows }
    ensures { IfOk result
        (λ picked. picked.items ≡ map (slice_index values.now) (children_of instance.now.rows g)) }
{
    values_at(alloc, values, instance.children(g))
}

fn narrow_weights_of(
    alloc: Global,
    rows: &[Row],
    places: &[u32],
) -> Result<NarrowValues, AllocError>
    requires places { All (λ place. place < length rows.now) places.now }
    requires light { EachIndex rows.now (λ k. weight_of rows.now k ≤ MAX_WEIGHT) }
    ensures items { IfOk result (λ weights. weights.items ≡ map (weight_of rows.now) places.now) }
    ensures room { IfOk result (λ weights. weights.capacity ≡ max 8 (length places.now)) }
{
    let mut weights = SmallVec::with_capacity(alloc, places.len())?;
    for place in places {
        weights.push_reserved(rows[*place as usize].weight as u16);
    }
    Ok(weights)
}

fn cut_values_at(
    alloc: Global,
    values: &[u64],
    places: &[u32],
    bound: u64,
) -> Result<NarrowValues, AllocError>
    requires places { All (λ place. place < length values.now) places.now }
    requires bound { bound ≤ MAX_CAPACITY }
    ensures items { IfOk result (λ picked. picked.items
        ≡ map (λ place. min (slice_index values.now place) bound) places.now) }
    ensures room { IfOk result (λ picked. picked.capacity ≡ max 8 (length places.now)) }
{
    let mut picked = SmallVec::with_capacity(alloc, places.len())?;
    for place in places {
        picked.push_reserved(values[*place as usize].min(bound) as u16);
    }
    Ok(picked)
}

/// [`child_weights`] with 16 bits each.
///
/// # Errors
/// `AllocError` if memory was refused.
pub(crate) fn narrow_child_weights(
    alloc: Global,
    instance: &Instance,
    g: u32,
) -> Result<NarrowValues, AllocError>
    requires { g < length instance.now.rows }
    ensures { IfOk result (λ weights. weights.items ≡ child_weights instance.now.rows g) }
{
    narrow_weights_of(alloc, instance.rows(), instance.children(g))
}

/// [`child_values`] with 16 bits each, every value cut at a bound.
///
/// # Errors
/// `AllocError` if memory was refused.
pub(crate) fn cut_child_values(
    alloc: Global,
    instance: &Instance,
    values: &[u64],
    g: u32,
    bound: u64,
) -> Result<NarrowValues, AllocError>
    requires row { g < length instance.now.rows }
    requires one_each { length values.now ≡ length instance.now.rows }
    requires bound { bound ≤ MAX_CAPACITY }
    ensures { IfOk result (λ picked. picked.items
        ≡ map (λ child. min (slice_index values.now child) bound)
        (children_of instance.now.rows g)) }
{
    cut_values_at(alloc, values, instance.children(g), bound)
}
