//! Guesses of the search for a level. Any guess is right, and a good one saves rounds.
ghost use Rattle.std.specs.Prelude.{◌≡◌, ◌<◌, ◌≤◌, length, IfSome};
ghost use Rattle.bw_split.specs.Conditions.{AreWeights};

use crate::at_level::takes;
use crate::limits::{GREATEST_LEVEL, STEPS};
use bw_model::limits::{MAX_WEIGHT, MIN_WEIGHT};

// A mark of a child between two levels: its last one up to the guess, or else its next one. If
// neither lies between them, the level in the middle.
fn mark_near(guess: u64, level: u64, above: u64, weight: u16, most: u16) -> u64
    requires guess { guess ≤ GREATEST_LEVEL }
    requires apart { level < above }
    requires in_range { above ≤ GREATEST_LEVEL }
    requires weight_in_range { (MIN_WEIGHT ≤ weight) × (weight ≤ MAX_WEIGHT) }
    ensures { result < above }
{
    let taken = u64::from(takes(guess, weight, most));
    let weight = u64::from(weight);
    let last = ((2 * taken).saturating_sub(1) * STEPS).div_ceil(weight);
    let next = ((2 * taken + 1) * STEPS).div_ceil(weight);
    if level < last && last < above {
        last
    } else if next < above {
        next
    } else {
        level + (above - level) / 2
    }
}

// The first child that takes more one step below the upper level than at the lower level. So it has
// a mark between them.
fn undecided(level: u64, above: u64, weights: &[u16], most: &[u16]) -> Option<usize>
    requires apart { level < above }
    requires in_range { above ≤ GREATEST_LEVEL }
    requires one_each { length most.now ≡ length weights.now }
    requires weights_in_range { AreWeights weights.now }
    ensures { IfSome result (λ child. child < length weights.now) }
{
    for i in 0..weights.len() {
        if takes(above - 1, weights[i], most[i]) > takes(level, weights[i], most[i]) {
            return Some(i);
        }
    }
    None
}

/// The guess after so many tests in a row that found no new total; after none, the even guess.
///
/// Children of one weight, as all with the default weight, have their marks at the same levels. No
/// even guess finds a place between two of these. So the guess goes to a mark of an undecided
/// child. Without one, it is the step below the upper level.
pub(crate) fn guess_after(
    repeats: u64,
    guess: u64,
    level: u64,
    above: u64,
    weights: &[u16],
    most: &[u16],
) -> u64
    requires guess { guess ≤ above }
    requires apart { level < above }
    requires in_range { above ≤ GREATEST_LEVEL }
    requires one_each { length most.now ≡ length weights.now }
    requires weights_in_range { AreWeights weights.now }
    ensures { result ≤ above }
{
    if repeats == 0 {
        return guess;
    }
    match undecided(level, above, weights, most) {
        Some(i) => mark_near(guess, level, above, weights[i], most[i]),
        None => above - 1,
    }
}
