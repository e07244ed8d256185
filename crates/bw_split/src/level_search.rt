//! The split by a level of cost: a search for the level in rounds, then the parts, with one slice
//! each of the rest.
ghost use Rattle.std.specs.Prelude.{◌≡◌, ◌+◌, ◌*◌, ◌<◌, ◌≤◌, ℕ, length, sum, slice_index};
ghost use Rattle.std.specs.Prelude.{EachIndex, IfOk, IsTrue};
ghost use Rattle.bw_model.specs.Split.{IsBestSplit};
ghost use Rattle.bw_split.specs.Conditions.{AreWeights, CanSplit, NeedsNoSearch};
ghost use Rattle.bw_split.specs.Levels.{taken, taken_by_all};

use crate::at_level::{takes, test_level};
use crate::counted::Tally;
use crate::ends::Ends;
use crate::guess::guess_after;
use crate::limits::{COARSE, GREATEST_LEVEL, MAX_PART, MAX_ROUNDS, STEPS, WIDEST};
use crate::narrow::sum_of;
use crate::pair::first_of_two;
use bw_model::limits::MAX_WEIGHT;
use std::alloc::{AllocError, Global};

// The upper end of a search, in steps.
#[derive(Clone, Copy)]
struct Upper {
    level: u64,
    // About how many slices the children would take there above the amount, if they had no maxima.
    over: u64,
}

// A level at which the children take the amount or more: the last mark of the greatest maximum, or
// of the amount, at the least weight.
fn upper_level(amount: u64, weights: &[u16], most: &[u16]) -> Upper
    requires can { CanSplit amount weights.now most.now }
    ensures in_range { result.level ≤ GREATEST_LEVEL }
    ensures enough { amount ≤ taken_by_all result.level weights.now most.now }
{
    let mut whole: u32 = 0;
    let mut least = MAX_WEIGHT as u16;
    let mut greatest: u16 = 0;
    for i in 0..weights.len() {
        whole += u32::from(weights[i]);
        least = least.min(weights[i]);
        greatest = greatest.max(most[i]);
    }
    let mark = 2 * u64::from(greatest).min(amount) * STEPS;
    let level = mark.saturating_sub(STEPS).div_ceil(u64::from(least));
    let unbounded = (level / COARSE).saturating_mul(u64::from(whole)) / (2 * STEPS / COARSE);
    Upper {
        level,
        over: unbounded.saturating_sub(amount),
    }
}

// A level, in steps, and the slices of the amount above what the children take there.
#[derive(Clone, Copy)]
struct Found {
    level: u64,
    rest: u64,
}

// The guess, moved to between two levels so that each end is at most `reach` steps from it.
fn trial(level: u64, above: u64, reach: u64, guess: u64) -> u64
    requires apart { level + 1 < above }
    requires in_range { above ≤ GREATEST_LEVEL }
    requires wide { above ≤ level + 2 * reach }
    requires short { reach ≤ GREATEST_LEVEL }
    ensures inside { (level < result) × (result < above) }
    ensures from_level { result ≤ level + reach }
    ensures from_above { above ≤ result + reach }
{
    let least = above.saturating_sub(reach).max(level + 1);
    let greatest = (level + reach).min(above - 1);
    guess.max(least).min(greatest)
}

// A level at which the children take at most the amount, and one step above it the amount or more.
//
// Each trial is a guess by how far the two ends are off, moved so far that halving would still end
// within the rounds left.
fn search_level(amount: u64, weights: &[u16], most: &[u16], work: &mut Tally) -> Found
    requires can { CanSplit amount weights.now most.now }
    requires some { 0 < amount }
    ensures in_range { result.level < GREATEST_LEVEL }
    ensures rest { result.rest + taken_by_all result.level weights.now most.now ≡ amount }
    ensures enough { amount ≤ taken_by_all (result.level + 1) weights.now most.now }
    ensures rounds { work.new.rounds ≤ work.old.rounds + MAX_ROUNDS }
    ensures picks { work.new.picks ≡ work.old.picks }
    ensures searched { work.old.rounds < work.new.rounds }
{
    let mut level = 0;
    let mut rest = amount;
    let upper = upper_level(amount, weights, most);
    let mut above = upper.level;
    let mut ends = Ends::new(amount, upper.over);
    let mut reach = WIDEST;
    for _round in 0..MAX_ROUNDS {
        if above - level == 1 {
            return Found { level, rest };
        }
        if rest == 0 {
            return Found { level, rest };
        }
        reach /= 2;
        let even = ends.even_guess(level, above);
        let guess = guess_after(ends.repeats(), even, level, above, weights, most);
        let middle = trial(level, above, reach, guess);
        let total = test_level(middle, weights, most, work);
        if total > amount {
            ends = ends.after_lowering(total - amount);
            above = middle;
        } else {
            ends = ends.after_raising(amount - total, middle - level, above - middle);
            level = middle;
            rest = amount - total;
        }
    }
    Found { level, rest }
}

// The level of an amount, with the slices above it. An amount of 0 needs no search.
fn find_level(amount: u64, weights: &[u16], most: &[u16], work: &mut Tally) -> Found
    requires { CanSplit amount weights.now most.now }
    ensures in_range { result.level < GREATEST_LEVEL }
    ensures rest { result.rest + taken_by_all result.level weights.now most.now ≡ amount }
    ensures enough { amount ≤ taken_by_all (result.level + 1) weights.now most.now }
    ensures rounds { work.new.rounds ≤ work.old.rounds + MAX_ROUNDS }
    ensures picks { work.new.picks ≡ work.old.picks }
    ensures counted { work.old.rounds ≤ work.new.rounds }
    ensures no_search { amount ≡ 0 → work.new.rounds ≡ work.old.rounds }
    ensures searched { 0 < amount → work.old.rounds < work.new.rounds }
{
    if amount == 0 {
        return Found { level: 0, rest: 0 };
    }
    search_level(amount, weights, most, work)
}

// One slice more than a part, where it is given one. Only this function adds a pick.
fn part_with(part: u16, more: bool, work: &mut Tally) -> u16
    requires room { IsTrue more → part < MAX_PART }
    ensures more { IsTrue more → result ≡ part + 1 }
    ensures same { (IsTrue more → ⊥) → result ≡ part }
    ensures rounds { work.new.rounds ≡ work.old.rounds }
    ensures picks { work.new.picks ≤ work.old.picks + 1 }
    ensures counted { work.old.picks ≤ work.new.picks }
{
    if more {
        work.add_pick();
        part + 1
    } else {
        part
    }
}

// Writes in the place of each maximum, from a child on, what its child takes at a level.
fn write_rest(from: usize, level: u64, weights: &[u16], most: &mut [u16])
    requires level_in_range { level ≤ GREATEST_LEVEL }
    requires one_each { length most.old ≡ length weights.now }
    requires weights_in_range { AreWeights weights.now }
    ensures len { length most.new ≡ length most.old }
    ensures written { EachIndex weights.now (λ k. from ≤ k → slice_index most.new k
        ≡ taken level (slice_index weights.now k) (slice_index most.old k)) }
    ensures others { (k : ℕ) → k < from → slice_index most.new k ≡ slice_index most.old k }
{
    for i in from..weights.len() {
        most[i] = takes(level, weights[i], most[i]);
    }
}

// Writes in the place of each maximum what its child takes at a level.
//
// The rest goes, one slice each, to the first children in order that take one more a step above the
// level. Their next marks are equal in cost, a tie, which goes to the earlier sibling.
fn write_parts(found: Found, amount: u64, weights: &[u16], most: &mut [u16], work: &mut Tally)
    requires can { CanSplit amount weights.now most.old }
    requires in_range { found.level < GREATEST_LEVEL }
    requires rest { found.rest + taken_by_all found.level weights.now most.old ≡ amount }
    requires enough { amount ≤ taken_by_all (found.level + 1) weights.now most.old }
    ensures best { IsBestSplit amount weights.now most.old most.new }
    ensures rounds { work.new.rounds ≡ work.old.rounds }
    ensures picks { work.new.picks ≤ work.old.picks + length weights.now }
    ensures counted { work.old.picks ≤ work.new.picks }
{
    let mut left = found.rest;
    for i in 0..weights.len() {
        if left == 0 {
            // a loop of its own, which the compiler turns into vectors
            write_rest(i, found.level, weights, most);
            return;
        }
        let part = takes(found.level, weights[i], most[i]);
        let more = takes(found.level + 1, weights[i], most[i]) > part;
        left -= u64::from(more);
        most[i] = part_with(part, more, work);
    }
}

// Writes the split of an amount among at most two children in the place of their maxima.
fn share_among_few(amount: u64, weights: &[u16], most: &mut [u16])
    requires can { CanSplit amount weights.now most.old }
    requires scarce { amount < sum most.old }
    requires few { length weights.now ≤ 2 }
    ensures { IsBestSplit amount weights.now most.old most.new }
{
    if weights.len() == 2 {
        let first = first_of_two(amount, weights, most);
        most[0] = first as u16;
        most[1] = (amount - first) as u16;
    } else {
        most[0] = amount as u16;
    }
}

/// Writes the best split of an amount below the sum of the maxima in their place, with the rounds
/// and picks added to a count.
pub(crate) fn share_by_level(amount: u64, weights: &[u16], most: &mut [u16], work: &mut Tally)
    requires can { CanSplit amount weights.now most.old }
    requires scarce { amount < sum most.old }
    ensures best { IsBestSplit amount weights.now most.old most.new }
    ensures rounds { work.new.rounds ≤ work.old.rounds + MAX_ROUNDS }
    ensures picks { work.new.picks ≤ work.old.picks + length weights.now }
    ensures counted { (work.old.rounds ≤ work.new.rounds) × (work.old.picks ≤ work.new.picks) }
    ensures no_search { NeedsNoSearch amount weights.now most.old
        → work.new.rounds ≡ work.old.rounds }
    ensures searched { (NeedsNoSearch amount weights.now most.old → ⊥)
        → work.old.rounds < work.new.rounds }
{
    if weights.len() <= 2 {
        share_among_few(amount, weights, most);
        return;
    }
    let reached = find_level(amount, weights, most, work);
    write_parts(reached, amount, weights, most, work);
}

/// [`split`](crate::split), with the rounds and picks added to a count.
pub(crate) fn split_with(
    alloc: Global,
    amount: u64,
    weights: &[u16],
    most: &[u16],
    work: &mut Tally,
) -> Result<Vec<u16>, AllocError>
    requires { CanSplit amount weights.now most.now }
    ensures best { IfOk result (λ parts. IsBestSplit amount weights.now most.now parts.items) }
    ensures rounds { work.new.rounds ≤ work.old.rounds + MAX_ROUNDS }
    ensures picks { work.new.picks ≤ work.old.picks + length weights.now }
    ensures counted { (work.old.rounds ≤ work.new.rounds) × (work.old.picks ≤ work.new.picks) }
    ensures no_search { NeedsNoSearch amount weights.now most.now
        → work.new.rounds ≡ work.old.rounds }
    ensures searched { (NeedsNoSearch amount weights.now most.now → ⊥)
        → work.old.rounds < work.new.rounds }
{
    if sum_of(most) <= amount {
        return most.to_vec(alloc);
    }
    if weights.len() <= 2 {
        let mut parts = most.to_vec(alloc)?;
        share_among_few(amount, weights, parts.as_mut_slice());
        return Ok(parts);
    }
    let found = find_level(amount, weights, most, work);
    let mut parts = most.to_vec(alloc)?;
    write_parts(found, amount, weights, parts.as_mut_slice(), work);
    Ok(parts)
}
