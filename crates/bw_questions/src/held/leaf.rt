//! Readings of a leaf that a scheduler serves: it counts how long tasks waited, so no hunger is
//! guessed.
ghost use Rattle.std.specs.Prelude.{◌≡◌, ◌≤◌, ◌<◌, ◌^◌};
ghost use Rattle.bw_questions.specs.LeafReadings.{asked_ns, leaf_reading, was_idle};

use super::reading::{Reading, slices_of_time};
use bw_model::HostShape;

/// Counts of a leaf in a round, in nanoseconds.
#[derive(Clone, Copy)]
pub struct LeafTimes {
    /// The time that passed.
    pub passed: u64,
    /// The time of processors that its tasks used.
    pub used: u64,
    /// The time that its tasks waited for a processor, added up.
    pub waited: u64,
    /// The time in which one or more of them waited.
    pub some_waited: u64,
}

// Whether the leaf was idle for more than a twentieth of the round: it neither used a processor nor
// waited. Less may be a slice that is not counted yet.
fn was_idle(times: LeafTimes) -> bool
    ensures { result ≡ was_idle times }
{
    20 * (u128::from(times.used) + u128::from(times.some_waited)) < 19 * u128::from(times.passed)
}

// The nanoseconds that the leaf asks for.
fn asked_ns(times: LeafTimes) -> u128
    ensures value { result ≡ asked_ns times }
    ensures bound { result < 2 ^ 97 }
    ensures no_less { times.used ≤ result }
{
    if was_idle(times) {
        u128::from(times.used)
    } else {
        u128::from(times.used) + u128::from(times.waited)
    }
}

/// The reading of a leaf that a scheduler serves.
///
/// A leaf that was idle had all that it asked for. Another asks for what it would have used if no
/// task had waited.
pub fn leaf_reading(shape: HostShape, times: LeafTimes) -> Reading
    requires passed { 1 ≤ times.passed }
    ensures value { result ≡ leaf_reading shape times }
    ensures no_less { result.used ≤ result.asked }
{
    let used = slices_of_time(shape, times.passed, u128::from(times.used));
    let asked = slices_of_time(shape, times.passed, asked_ns(times));
    Reading {
        used,
        asked,
        is_hungry: used < asked,
        is_guess: false,
    }
}
