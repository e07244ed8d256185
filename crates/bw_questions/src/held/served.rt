//! Amounts and limits of a round for a scheduler: one of each for each row.
ghost use Rattle.std.specs.Prelude.{◌≡◌, ℕ, ◌<◌, ◌≤◌, ◌*◌, length, map, IfOk, slice_index};
ghost use Rattle.std.specs.Prelude.{EachIndex};
ghost use Rattle.std.specs.List.{range_with_len};
ghost use Rattle.std.specs.Option.{option_map};
ghost use Rattle.bw_questions.specs.HeldRule.{own_limit};
ghost use Rattle.bw_questions.specs.Reading.{limit_at};
ghost use Rattle.bw_questions.specs.Served.{IsServedRound, IsServedLimit, IsLeastPart};
ghost use Rattle.bw_questions.specs.Served.{amount_in, beside, full_amount, lesser, part_of};
ghost use Rattle.bw_questions.specs.Served.{served_amount, sum_of_full};

use super::asking::round_of;
use super::calm::is_calm;
use super::floors;
use super::limits::leaf_limit;
use bw_model::Instance;
use bw_model::limits::{MAX_CAPACITY, MAX_GROUPS};
use bw_plan::plan;
use std::alloc::{AllocError, Global};

/// Amounts and limits of a round for a scheduler.
#[derive(Debug, Drop)]
pub struct Served {
    /// One amount per row, in slices: the plan, or its part beside others' plans if that is more.
    pub amounts: Vec<u64>,
    /// One limit per row, in slices: a leaf's part of limits, another group's own limit.
    pub limits: Vec<Option<u64>>,
}

// The part that a leaf has of a limit. The plan gives the limit's row `above` and the leaf
// `amount`, and the round limits the leaf to `held`.
fn part_of(calm: bool, limit: u64, above: u64, amount: u64, held: u64) -> u64
    ensures { result ≡ part_of calm limit above amount held }
{
    if calm || above == 0 {
        return limit;
    }
    let part = u128::from(limit) * u128::from(amount) / u128::from(above);
    part.max(u128::from(held)).min(u128::from(limit)) as u64
}

// The part that a leaf has of the own limit of row `a`, if that has one.
fn part_at(
    reading: &Instance,
    calm: bool,
    planned: &[u64],
    a: u32,
    amount: u64,
    held: u64,
) -> Option<u64>
    requires row { a < length reading.now.rows }
    requires each { length planned.now ≡ length reading.now.rows }
    ensures { result ≡ option_map
        (λ limit. part_of calm limit (slice_index planned.now a) amount held)
        (own_limit reading.now.rows a) }
{
    match reading.row(a).limit {
        None => None,
        Some(limit) => Some(part_of(calm, limit, planned[a as usize], amount, held)),
    }
}

// The lesser of two parts, of which there may be none.
fn lesser(one: Option<u64>, other: Option<u64>) -> Option<u64>
    ensures { result ≡ lesser one other }
{
    match (one, other) {
        (Some(part), Some(least)) => Some(part.min(least)),
        (None, other) => other,
        (one, None) => one,
    }
}

// The least part of a leaf over the limits at or above it.
fn least_part(reading: &Instance, calm: bool, planned: &[u64], leaf: u32, held: u64) -> Option<u64>
    requires row { leaf < length reading.now.rows }
    requires each { length planned.now ≡ length reading.now.rows }
    ensures { IsLeastPart reading.now.rows (λ a limit.
        part_of calm limit (slice_index planned.now a) (slice_index planned.now leaf) held)
        leaf result }
{
    // its contract says that the rows are a tree
    let _rows = reading.rows();
    let amount = planned[leaf as usize];
    let path = reading.path_up(leaf);
    let groups = path.as_slice();
    let mut found = None;
    for k in 0..groups.len() {
        let part = part_at(reading, calm, planned, groups[k], amount, held);
        found = lesser(found, part);
    }
    found
}

// The limit that a row is given.
fn served_limit(
    reading: &Instance,
    calm: bool,
    hungry: &[bool],
    floors: &[u64],
    planned: &[u64],
    g: u32,
) -> Option<u64>
    requires row { g < length reading.now.rows }
    requires flags { length hungry.now ≡ length reading.now.rows }
    requires floors { length floors.now ≡ length reading.now.rows }
    requires planned { length planned.now ≡ length reading.now.rows }
    ensures { IsServedLimit reading.now hungry.now calm floors.now planned.now g result }
{
    // its contract says that the demands are in range
    let _rows = reading.rows();
    let row = reading.row(g);
    if !reading.is_leaf(g) {
        return row.limit;
    }
    let at = g as usize;
    let held = leaf_limit(&row, hungry[at], floors[at], planned[at]);
    least_part(reading, calm, planned, g, held)
}

// The limits that the rows are given.
fn served_limits(
    alloc: Global,
    reading: &Instance,
    calm: bool,
    hungry: &[bool],
    floors: &[u64],
    planned: &[u64],
) -> Result<Vec<Option<u64>>, AllocError>
    requires flags { length hungry.now ≡ length reading.now.rows }
    requires floors { length floors.now ≡ length reading.now.rows }
    requires planned { length planned.now ≡ length reading.now.rows }
    ensures long { IfOk result (λ limits. length limits.items ≡ length reading.now.rows) }
    ensures limits { IfOk result (λ limits. (g : ℕ) → g < length reading.now.rows
        → IsServedLimit reading.now hungry.now calm floors.now planned.now g
        (limit_at limits.items g)) }
{
    let count = reading.rows().len();
    let mut limits: Vec<Option<u64>> = Vec::with_capacity(alloc, count)?;
    for g in 0..count {
        limits.push(served_limit(reading, calm, hungry, floors, planned, g as u32))?;
    }
    Ok(limits)
}

// The amount of a leaf that the plan gives no less than its floor, 0 of any other row.
fn full_amount(reading: &Instance, floors: &[u64], planned: &[u64], amounts: &[u64], g: u32) -> u64
    requires row { g < length reading.now.rows }
    requires floors { length floors.now ≡ length reading.now.rows }
    requires planned { length planned.now ≡ length reading.now.rows }
    requires amounts { length amounts.now ≡ length reading.now.rows }
    requires small { EachIndex amounts.now (λ k. slice_index amounts.now k ≤ MAX_CAPACITY) }
    ensures amount { result ≡ full_amount reading.now.rows floors.now planned.now amounts.now g }
    ensures small { result ≤ MAX_CAPACITY }
{
    let at = g as usize;
    if reading.is_leaf(g) && !(planned[at] < floors[at]) {
        amounts[at]
    } else {
        0
    }
}

// The amounts of such leaves, added up.
fn sum_of_full(reading: &Instance, floors: &[u64], planned: &[u64], amounts: &[u64]) -> u64
    requires floors { length floors.now ≡ length reading.now.rows }
    requires planned { length planned.now ≡ length reading.now.rows }
    requires amounts { length amounts.now ≡ length reading.now.rows }
    requires small { EachIndex amounts.now (λ g. slice_index amounts.now g ≤ MAX_CAPACITY) }
    ensures sum { result ≡ sum_of_full reading.now.rows floors.now planned.now amounts.now }
    ensures small { result ≤ MAX_GROUPS * MAX_CAPACITY }
{
    let mut sum = 0;
    for g in 0..reading.rows().len() {
        sum += full_amount(reading, floors, planned, amounts, g as u32);
    }
    sum
}

// A floor beside leaves that are planned more than theirs in all.
fn beside(theirs: u64, given: u64, floor: u64) -> u64
    requires theirs { theirs ≤ MAX_GROUPS * MAX_CAPACITY }
    requires given { given ≤ MAX_GROUPS * MAX_CAPACITY }
    requires floor { floor ≤ MAX_CAPACITY }
    ensures { result ≡ beside theirs given floor }
{
    if theirs == 0 {
        floor
    } else {
        floor * given.max(theirs) / theirs
    }
}

// The amount of a row that is planned `amount`.
fn served_amount(theirs: u64, given: u64, floor: u64, amount: u64) -> u64
    requires theirs { theirs ≤ MAX_GROUPS * MAX_CAPACITY }
    requires given { given ≤ MAX_GROUPS * MAX_CAPACITY }
    requires floor { floor ≤ MAX_CAPACITY }
    ensures { result ≡ served_amount theirs given floor amount }
{
    if amount < floor {
        beside(theirs, given, floor)
    } else {
        amount
    }
}

// The amounts that the rows are given.
fn served_amounts(
    alloc: Global,
    reading: &Instance,
    floors: &[u64],
    planned: &[u64],
) -> Result<Vec<u64>, AllocError>
    requires floors { length floors.now ≡ length reading.now.rows }
    requires planned { length planned.now ≡ length reading.now.rows }
    requires low { EachIndex floors.now (λ g. slice_index floors.now g ≤ MAX_CAPACITY) }
    requires small { EachIndex planned.now (λ g. slice_index planned.now g ≤ MAX_CAPACITY) }
    ensures { IfOk result (λ amounts. amounts.items
        ≡ map (amount_in reading.now.rows floors.now planned.now)
        (range_with_len 0 (length reading.now.rows))) }
{
    let theirs = sum_of_full(reading, floors, planned, floors);
    let given = sum_of_full(reading, floors, planned, planned);
    let count = reading.rows().len();
    let mut amounts: Vec<u64> = Vec::with_capacity(alloc, count)?;
    for g in 0..count {
        amounts.push(served_amount(theirs, given, floors[g], planned[g]))?;
    }
    Ok(amounts)
}

/// Amounts and limits of the next round for a scheduler, from what each leaf used in the last one.
///
/// The reading and the flags are those of [`super::hold`], as are the plan and the limits of the
/// round. A row's floor is what it gets where each leaf asks for everything. Its amount is its
/// plan, if that is no less. Else it is its floor times what the leaves of which that is so are
/// planned, over their floors: a leaf that comes has its part beside them at once. So the amounts
/// may be above the capacity together.
///
/// A leaf's limit is its least part of the limits at or above it. In a calm round, and where the
/// plan gives the group with the limit nothing, the part is the limit. Else it is as much of it as
/// the leaf has of that group's plan, or its limit of the round if that is more.
///
/// # Errors
/// `AllocError` if memory was refused.
pub fn serve(alloc: Global, reading: &Instance, hungry: &[bool]) -> Result<Served, AllocError>
    requires { length hungry.now ≡ length reading.now.rows }
    ensures { IfOk result
        (λ s. IsServedRound reading.now hungry.now s.amounts.items s.limits.items) }
{
    // its contract says that the reading is valid
    let _rows = reading.rows();
    let round = round_of(alloc, reading, hungry)?;
    let planned = plan(alloc, &round)?.amounts;
    let calm = is_calm(&round, planned.as_slice());
    let floors = floors(alloc, reading)?;
    let limits = served_limits(
        alloc,
        reading,
        calm,
        hungry,
        floors.as_slice(),
        planned.as_slice(),
    )?;
    let amounts = served_amounts(alloc, reading, floors.as_slice(), planned.as_slice())?;
    Ok(Served { amounts, limits })
}
