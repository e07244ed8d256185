//! Readings of a group in a round: the slices that it used, and those that it asks for.
ghost use Rattle.std.specs.Prelude.{◌≡◌, ◌<◌, ◌≤◌, ◌^◌, length};
ghost use Rattle.bw_questions.specs.Hunger.{AreSums, tell, is_stopped, has_waited, is_guess};
ghost use Rattle.bw_questions.specs.Hunger.{is_hungry, could_use, asks_for_all, slices_of_time};
ghost use Rattle.bw_questions.specs.Hunger.{used_slices, asked_slices, reading_in, sums_of};
ghost use Rattle.bw_model.specs.Host.{IsHost};
ghost use Rattle.bw_model.specs.declared.limits.TheConstants.{MAX_DEMAND};

use super::tasks::{TaskSums, sums_of};
use bw_model::HostShape;
use bw_model::limits::MAX_DEMAND;

/// Counts of a group in a round.
#[derive(Clone, Copy)]
pub struct RoundTimes {
    /// Nanoseconds that passed.
    pub passed_ns: u64,
    /// Microseconds that the group used.
    pub used_us: u64,
    /// Microseconds in which some task of it waited for a processor.
    pub waited_us: u64,
    /// Its tasks at the end.
    pub tasks: u32,
    /// Whether it was throttled at a limit of its own.
    pub is_throttled: bool,
    /// Microseconds that a limit of its own allowed it; the greatest number for none.
    pub allowed_us: u64,
}

/// The slices that a group used in a round, and those that it asks for.
#[derive(Clone, Copy)]
pub struct Reading {
    /// Slices of one period that it used, rounded up: 0 to 1000000.
    pub used: u64,
    /// Slices that it asks for: 1000000 for everything.
    pub asked: u64,
    /// Whether it would have used more.
    pub is_hungry: bool,
    /// Whether that is a guess, since its tasks that were there at both readings tell too little.
    pub is_guess: bool,
}

// Whether the tasks ran for so many twentieths of what the group used, which is above 0.
fn tell(parts: u64, times: RoundTimes, tasks: TaskSums) -> bool
    requires few { parts < 2 ^ 5 }
    requires sums { AreSums tasks }
    ensures { result ≡ tell parts times tasks }
{
    times.used_us > 0 && u128::from(parts) * (1000 * u128::from(times.used_us)) <= 20 * tasks.ran
}

// Whether a limit of its own stopped the group: the kernel counts that where a quota period ends.
fn is_stopped(times: RoundTimes) -> bool
    ensures { result ≡ is_stopped times }
{
    times.is_throttled || times.allowed_us <= times.used_us
}

// Whether tasks of the group waited for a hundredth of the round.
fn has_waited(times: RoundTimes) -> bool
    ensures { result ≡ has_waited times }
{
    u128::from(times.passed_ns) <= 100 * (1000 * u128::from(times.waited_us))
}

// Whether it is a guess if the group would have used more.
fn is_guess(times: RoundTimes, tasks: TaskSums) -> bool
    requires { AreSums tasks }
    ensures { result ≡ is_guess times tasks }
{
    !is_stopped(times) && has_waited(times) && !tell(10, times, tasks)
}

// Whether the group would have used more.
fn is_hungry(times: RoundTimes, tasks: TaskSums) -> bool
    requires { AreSums tasks }
    ensures { result ≡ is_hungry times tasks }
{
    if is_stopped(times) {
        return true;
    }
    if !has_waited(times) {
        return false;
    }
    if tell(10, times, tasks) {
        tasks.starved > 0
    } else {
        u128::from(times.passed_ns) <= 2 * (1000 * u128::from(times.waited_us))
    }
}

// The most nanoseconds that the group could have used, and no less than it used.
fn could_use(times: RoundTimes, tasks: TaskSums) -> u128
    requires sums { AreSums tasks }
    requires came { tasks.count ≤ times.tasks }
    ensures value { result ≡ could_use times tasks }
    ensures bound { result < 2 ^ 97 }
{
    let passed = u128::from(times.passed_ns);
    let most = if is_stopped(times) {
        u128::from(times.tasks) * passed
    } else {
        tasks.could_run + u128::from(u64::from(times.tasks) - tasks.count) * passed
    };
    most.max(1000 * u128::from(times.used_us))
}

// Whether the group asks for everything, if it is hungry.
fn asks_for_all(shape: HostShape, times: RoundTimes, tasks: TaskSums, most: u128) -> bool
    requires sums { AreSums tasks }
    requires most { most ≡ could_use times tasks }
    ensures { result ≡ asks_for_all shape.processors times tasks }
{
    !tell(19, times, tasks) || u128::from(shape.processors()) * u128::from(times.passed_ns) <= most
}

// Processor time of a round as slices of one period, rounded up, and at most 1000000.
pub(super) fn slices_of_time(shape: HostShape, passed: u64, time: u128) -> u64
    requires passed { 1 ≤ passed }
    requires time { time < 2 ^ 97 }
    ensures value { result ≡ slices_of_time shape passed time }
    ensures bound { result ≤ MAX_DEMAND }
    ensures host { IsHost shape }
{
    let slice = u128::from(passed) * u128::from(shape.slice_us());
    let slices = (time * u128::from(shape.period_us()) + (slice - 1)) / slice;
    slices.min(u128::from(MAX_DEMAND)) as u64
}

// The slices that the group asks for, where it used so many.
fn asked_slices(
    shape: HostShape,
    times: RoundTimes,
    tasks: TaskSums,
    hungry: bool,
    used: u64,
) -> u64
    requires passed { 1 ≤ times.passed_ns }
    requires sums { AreSums tasks }
    requires came { tasks.count ≤ times.tasks }
    requires hungry { hungry ≡ is_hungry times tasks }
    requires used { used ≡ used_slices shape times }
    ensures value { result ≡ asked_slices shape times tasks }
    ensures no_less { used ≤ result }
{
    if !hungry {
        return used;
    }
    let most = could_use(times, tasks);
    if asks_for_all(shape, times, tasks, most) {
        return MAX_DEMAND;
    }
    slices_of_time(shape, times.passed_ns, most)
}

/// The reading of a group, from what its tasks did that were there at both readings: the
/// nanoseconds that each ran, and waited for a processor.
pub fn reading_of(shape: HostShape, times: RoundTimes, ran: &[u64], waited: &[u64]) -> Reading
    requires passed { 1 ≤ times.passed_ns }
    requires one_each { length waited.now ≡ length ran.now }
    requires few { length ran.now ≤ times.tasks }
    ensures value { result ≡ reading_in shape times (sums_of times.passed_ns ran.now waited.now) }
    ensures no_less { result.used ≤ result.asked }
{
    let tasks = sums_of(times.passed_ns, ran, waited);
    let used = slices_of_time(shape, times.passed_ns, 1000 * u128::from(times.used_us));
    let is_hungry = is_hungry(times, tasks);
    let asked = asked_slices(shape, times, tasks, is_hungry, used);
    Reading {
        used,
        asked,
        is_hungry,
        is_guess: is_guess(times, tasks),
    }
}
