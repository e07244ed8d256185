//! The split of an amount, and the count of its rounds and picks, which contracts alone see.
//!
//! Only this module can begin the count of a search: `Tally::new` and the tally of a [`Work`] are
//! private to it.
ghost use Rattle.std.specs.Prelude.{◌≡◌, ◌+◌, ◌<◌, ◌≤◌, length, sum, IfOk};
ghost use Rattle.bw_model.specs.Split.{IsBestSplit};
ghost use Rattle.bw_split.specs.Conditions.{CanSplit, NeedsNoSearch};

use crate::level_search::{share_by_level, split_with};
use crate::limits::MAX_ROUNDS;
use crate::narrow::{narrowed, sum_of, widened};
use bw_machine::Count;
use bw_model::limits::MAX_WEIGHT;
use std::alloc::{AllocError, Global};
use std::marker::Model;

/// Ghost state: rounds and picks of a search, without data at run time.
///
/// A round is one test of a level on all children. A pick is one slice given after the search.
#[derive(Drop)]
pub(crate) struct Tally {
    rounds: Count,
    picks: Count,
}

impl Model for Tally {
    ghost use Rattle.bw_split.specs.Counts.{Done};

    ghost Value = { Done };

    ghost view = { λ tally. record { rounds = tally.rounds.steps; picks = tally.picks.steps } };
}

impl Tally {
    // A tally of nothing. Only this module can begin one, so a search adds to the one it is given.
    fn new() -> Tally
        ensures rounds { result.rounds ≡ 0 }
        ensures picks { result.picks ≡ 0 }
    {
        Tally {
            rounds: Count::none(),
            picks: Count::none(),
        }
    }

    /// Counts one test of a level on all children.
    pub(crate) fn add_round(&mut self)
        ensures rounds { self.new.rounds ≡ self.old.rounds + 1 }
        ensures picks { self.new.picks ≡ self.old.picks }
    {
        self.rounds = self.rounds.one_more();
    }

    /// Counts one slice given after the search.
    pub(crate) fn add_pick(&mut self)
        ensures rounds { self.new.rounds ≡ self.old.rounds }
        ensures picks { self.new.picks ≡ self.old.picks + 1 }
    {
        self.picks = self.picks.one_more();
    }

    // Adds another tally.
    fn add(&mut self, other: &Tally)
        ensures rounds { self.new.rounds ≡ self.old.rounds + other.now.rounds }
        ensures picks { self.new.picks ≡ self.old.picks + other.now.picks }
    {
        self.rounds = self.rounds.with(&other.rounds);
        self.picks = self.picks.with(&other.picks);
    }
}

/// Ghost state: rounds and picks of the splits that were given it, without data at run time.
///
/// Only [`split_counted`] and [`split_scarce`] add to it, what their search has counted, and
/// [`Work::add`], what another count has.
#[derive(Drop)]
pub struct Work {
    tally: Tally,
}

impl Model for Work {
    ghost use Rattle.bw_split.specs.Counts.{Done};

    ghost Value = { Done };

    ghost view = { λ work. work.tally };
}

impl Work {
    /// Makes a count of no rounds and no picks. Allocates nothing.
    pub fn new() -> Work
        ensures rounds { result.rounds ≡ 0 }
        ensures picks { result.picks ≡ 0 }
    {
        Work {
            tally: Tally::new(),
        }
    }

    /// Adds the rounds and picks of another count, as of a piece of work in another thread.
    pub fn add(&mut self, piece: &Work)
        ensures rounds { self.new.rounds ≡ self.old.rounds + piece.now.rounds }
        ensures picks { self.new.picks ≡ self.old.picks + piece.now.picks }
    {
        self.tally.add(&piece.tally);
    }
}

/// [`split`] of lists of 16 bits, with its rounds and picks added to a count.
///
/// A round is counted for each level that was tested on all children, at most [`MAX_ROUNDS`]. A
/// pick is counted for each slice that was given after the search, at most one a child. There is no
/// round if the amount is 0 or the sum of the maxima, or with at most two children; else at least
/// one.
///
/// # Errors
/// `AllocError` if memory was refused.
pub fn split_counted(
    alloc: Global,
    amount: u64,
    weights: &[u16],
    most: &[u16],
    work: &mut Work,
) -> Result<Vec<u16>, AllocError>
    requires { CanSplit amount weights.now most.now }
    ensures best { IfOk result (λ parts. IsBestSplit amount weights.now most.now parts.items) }
    ensures rounds { work.new.rounds ≤ work.old.rounds + MAX_ROUNDS }
    ensures picks { work.new.picks ≤ work.old.picks + length weights.now }
    ensures counted { (work.old.rounds ≤ work.new.rounds) × (work.old.picks ≤ work.new.picks) }
    ensures no_search { NeedsNoSearch amount weights.now most.now
        → work.new.rounds ≡ work.old.rounds }
    ensures searched { (NeedsNoSearch amount weights.now most.now → ⊥)
        → work.old.rounds < work.new.rounds }
{
    split_with(alloc, amount, weights, most, &mut work.tally)
}

// Writes the best split of an amount in the place of the maxima.
fn share_in_place(amount: u64, weights: &[u16], most: &mut [u16])
    requires { CanSplit amount weights.now most.old }
    ensures { IsBestSplit amount weights.now most.old most.new }
{
    if sum_of(most) <= amount {
        return;
    }
    share_by_level(amount, weights, most, &mut Tally::new());
}

/// The best split of an amount of slices among siblings, one part for each.
///
/// Of all lists that add up to the amount, with no part above its maximum, the best one has the
/// least cost. The cost is the sum of the parts squared, each over its weight. A tie goes to the
/// list that is lexicographically greatest. [`can_split`](crate::can_split) tests the condition.
///
/// cgroup-v2.rst, 'Weights': a parent's resource is distributed by the ratio of the weights.
///
/// # Errors
/// `AllocError` if memory was refused.
pub fn split(
    alloc: Global,
    amount: u64,
    weights: &[u64],
    most: &[u64],
) -> Result<Vec<u64>, AllocError>
    requires { CanSplit amount weights.now most.now }
    ensures best { IfOk result (λ parts. IsBestSplit amount weights.now most.now parts.items) }
{
    let narrow_weights = narrowed(alloc, weights, MAX_WEIGHT)?;
    let mut parts = narrowed(alloc, most, amount)?;
    share_in_place(amount, narrow_weights.as_slice(), parts.as_mut_slice());
    widened(alloc, parts.as_slice())
}

/// [`split_counted`] of an amount that is known to be below the sum of the maxima, without adding
/// them up.
///
/// The parts are written in the place of the maxima, so they take no memory.
pub fn split_scarce(amount: u64, weights: &[u16], most: &mut [u16], work: &mut Work)
    requires can { CanSplit amount weights.now most.old }
    requires scarce { amount < sum most.old }
    ensures best { IsBestSplit amount weights.now most.old most.new }
    ensures rounds { work.new.rounds ≤ work.old.rounds + MAX_ROUNDS }
    ensures picks { work.new.picks ≤ work.old.picks + length weights.now }
    ensures counted { (work.old.rounds ≤ work.new.rounds) × (work.old.picks ≤ work.new.picks) }
    ensures no_search { NeedsNoSearch amount weights.now most.old
        → work.new.rounds ≡ work.old.rounds }
    ensures searched { (NeedsNoSearch amount weights.now most.old → ⊥)
        → work.old.rounds < work.new.rounds }
{
    share_by_level(amount, weights, most, &mut work.tally)
}
