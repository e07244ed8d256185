//! The slices that children take at a level of cost.
ghost use Rattle.std.specs.Prelude.{◌≡◌, ◌+◌, ◌*◌, ◌/◌, ◌<◌, ◌≤◌, length};
ghost use Rattle.bw_split.specs.Conditions.{AreWeights};
ghost use Rattle.bw_split.specs.Levels.{taken, taken_by_all};

use crate::counted::Tally;
use crate::limits::{FINE, GREATEST_LEVEL, LOW_LEVELS, LOW_PART, MAX_CHILDREN, STEPS};
use bw_model::limits::MAX_WEIGHT;

// The slices without a maximum at a low level. It is taken apart into parts and steps.
fn low_slices_at(level: u64, weight: u32) -> u32
    requires low { level < LOW_LEVELS }
    requires weight_in_range { weight ≤ MAX_WEIGHT }
    ensures { result ≡ (level * weight + STEPS) / (2 * STEPS) }
{
    let parts = (level / LOW_PART) as u32;
    let by_steps = (level % LOW_PART) as u32 * weight / LOW_PART as u32;
    (parts * weight + by_steps + (STEPS / LOW_PART) as u32) / (2 * STEPS / LOW_PART) as u32
}

// The slices without a maximum at any level. It is taken apart into whole costs and steps, and the
// steps once more.
fn slices_at(level: u64, weight: u32) -> u32
    requires level_in_range { level ≤ GREATEST_LEVEL }
    requires weight_in_range { weight ≤ MAX_WEIGHT }
    ensures { result ≡ (level * weight + STEPS) / (2 * STEPS) }
{
    let costs = (level / STEPS) as u32;
    let steps = (level % STEPS) as u32;
    let by_fine = steps % FINE * weight / FINE;
    let by_steps = (steps / FINE * weight + by_fine) / (STEPS as u32 / FINE);
    (costs * weight + by_steps + 1) / 2
}

/// The slices that a child takes at a level: as many as have their mark `(2k - 1) / weight` at or
/// below the level, and at most its maximum. A level is a number of steps of the cost `1 / STEPS`.
///
/// `(2k - 1) / weight <= level / STEPS` says `2k * STEPS <= level * weight + STEPS`. So k is at
/// most `(level * weight + STEPS) / (2 * STEPS)`, rounded down.
///
/// Each product has 32 bits, so a vector of the processor makes four at once. A child takes two
/// products at a low level, else three. The compiler makes a loop of each case.
pub(crate) fn takes(level: u64, weight: u16, most: u16) -> u16
    requires level_in_range { level ≤ GREATEST_LEVEL }
    requires weight_in_range { weight ≤ MAX_WEIGHT }
    ensures taken { result ≡ taken level weight most }
{
    let weight = u32::from(weight);
    let slices = if level < LOW_LEVELS {
        low_slices_at(level, weight)
    } else {
        slices_at(level, weight)
    };
    slices.min(u32::from(most)) as u16
}

/// The slices that all children take at a level. Only this function adds a round.
pub(crate) fn test_level(level: u64, weights: &[u16], most: &[u16], work: &mut Tally) -> u64
    requires level_in_range { level ≤ GREATEST_LEVEL }
    requires one_each { length most.now ≡ length weights.now }
    requires few { length weights.now ≤ MAX_CHILDREN }
    requires weights_in_range { AreWeights weights.now }
    ensures all { result ≡ taken_by_all level weights.now most.now }
    ensures rounds { work.new.rounds ≡ work.old.rounds + 1 }
    ensures picks { work.new.picks ≡ work.old.picks }
{
    work.add_round();
    let mut total: u32 = 0;
    for i in 0..weights.len() {
        total += u32::from(takes(level, weights[i], most[i]));
    }
    u64::from(total)
}
