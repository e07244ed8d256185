//! The slices that a group or a leaf used in a round and asks for, called from C.
ghost use Rattle.std.specs.Prelude.{◌≡◌, ◌<◌, ◌≤◌, ◌==◌, ◌&&◌, nat_le, not, length, true};
ghost use Rattle.bw_columns.specs.Asked.{asked_host};
ghost use Rattle.bw_questions.specs.Hunger.{used_slices, asked_slices, is_hungry, is_guess};
ghost use Rattle.bw_questions.specs.Hunger.{sums_of};
ghost use Rattle.bw_columns.specs.Certificates.{flag_number};
ghost use Rattle.bw_exports.specs.Units.{reading_refusal, times_of, leaf_times_of};
ghost use Rattle.bw_questions.specs.LeafReadings.{leaf_reading};

use bw_columns::Refusal;
use bw_files::FileFault;
use bw_model::HostShape;
use bw_questions::{LeafTimes, RoundTimes, leaf_reading, reading_of};

/// The slices that a group used in a round, whether it would have used more, and what it asks for.
///
/// The host is that of [`crate::plan_calls::arbiter_plan`]. In a round of `passed_ns` nanoseconds
/// the group used `used_us` microseconds, some task of it waited for `waited_us`, and it has
/// `tasks` at the end. `throttled` is not 0 if it was throttled at a limit of its own. That allowed
/// it `allowed_us` microseconds, the greatest number for no limit. `ran` and `waited` have the
/// nanoseconds of each task that was there at both readings.
///
/// The answer is 0 if the four numbers are written. `used` is the slices of one period that it
/// used, rounded up. `hungry` is 1 if it would have used more, else 0. `guess` is 1 where that is a
/// guess. `asked` is what it asks for: what it used, or if it is hungry the most that its tasks
/// could have used, or 1000000 for everything. A refusal leaves each unchanged.
///
/// # Errors
/// The answer is the number of the first refusal: 50 if `ran` and `waited` differ in length or have
/// more entries than `tasks`, 1 to 3 of the host, or 15 if no time passed.
#[unsafe(no_mangle)]
pub extern "C" fn arbiter_reading(
    processors: u64,
    period_us: u64,
    slice_us: u64,
    passed_ns: u64,
    used_us: u64,
    waited_us: u64,
    tasks: u32,
    throttled: u32,
    allowed_us: u64,
    ran: &[u64],
    waited: &[u64],
    used: &mut u64,
    asked: &mut u64,
    hungry: &mut u32,
    guess: &mut u32,
) -> u32
    ensures number { result ≡ reading_refusal
        ((length waited.now == length ran.now) && nat_le (length ran.now) tasks)
        (asked_host processors period_us slice_us) passed_ns }
    ensures used { result ≡ 0 → used.new ≡ used_slices (asked_host processors period_us slice_us)
        (times_of passed_ns used_us waited_us tasks throttled allowed_us) }
    ensures asked { result ≡ 0 → asked.new ≡ asked_slices
        (asked_host processors period_us slice_us)
        (times_of passed_ns used_us waited_us tasks throttled allowed_us)
        (sums_of passed_ns ran.now waited.now) }
    ensures hungry { result ≡ 0 → hungry.new ≡ flag_number (is_hungry
        (times_of passed_ns used_us waited_us tasks throttled allowed_us)
        (sums_of passed_ns ran.now waited.now)) }
    ensures guess { result ≡ 0 → guess.new ≡ flag_number (is_guess
        (times_of passed_ns used_us waited_us tasks throttled allowed_us)
        (sums_of passed_ns ran.now waited.now)) }
    ensures no_less { result ≡ 0 → used.new ≤ asked.new }
    ensures used_kept { 0 < result → used.new ≡ used.old }
    ensures asked_kept { 0 < result → asked.new ≡ asked.old }
    ensures hungry_kept { 0 < result → hungry.new ≡ hungry.old }
    ensures guess_kept { 0 < result → guess.new ≡ guess.old }
{
    if waited.len() != ran.len() || ran.len() > tasks as usize {
        return Refusal::WrongLength.number();
    }
    let shape = match HostShape::new(processors, period_us, slice_us) {
        Ok(shape) => shape,
        Err(fault) => return u32::from(fault.number()),
    };
    if passed_ns == 0 {
        return u32::from(FileFault::PeriodOutOfRange.number());
    }
    let times = RoundTimes {
        passed_ns,
        used_us,
        waited_us,
        tasks,
        is_throttled: throttled != 0,
        allowed_us,
    };
    let reading = reading_of(shape, times, ran, waited);
    *used = reading.used;
    *asked = reading.asked;
    *hungry = u32::from(reading.is_hungry);
    *guess = u32::from(reading.is_guess);
    0
}

/// The slices that a leaf of a scheduler used in a round, and those that it asks for.
///
/// The host is that of [`crate::plan_calls::arbiter_plan`]. In a round of `passed_ns` nanoseconds
/// the leaf used `used_ns`. Its tasks waited for a processor for `waited_ns`, added up, and one or
/// more of them for `some_ns`. The answer is 0 if the two numbers are written. `used` is the slices
/// of one period that it used, rounded up: 0 to 1000000. `asked` is what it used, if it was idle
/// for more than a twentieth of the round. Else it is what it would have used if no task had
/// waited. A refusal leaves both unchanged.
///
/// # Errors
/// The answer is the number of the first refusal: 1 to 3 of the host, or 15 if no time passed.
#[unsafe(no_mangle)]
pub extern "C" fn arbiter_leaf_reading(
    processors: u64,
    period_us: u64,
    slice_us: u64,
    passed_ns: u64,
    used_ns: u64,
    waited_ns: u64,
    some_ns: u64,
    used: &mut u64,
    asked: &mut u64,
) -> u32
    ensures number { result
        ≡ reading_refusal true (asked_host processors period_us slice_us) passed_ns }
    ensures used { result ≡ 0 → used.new ≡ (leaf_reading (asked_host processors period_us slice_us)
        (leaf_times_of passed_ns used_ns waited_ns some_ns)).used }
    ensures asked { result ≡ 0 → asked.new
        ≡ (leaf_reading (asked_host processors period_us slice_us)
        (leaf_times_of passed_ns used_ns waited_ns some_ns)).asked }
    ensures no_less { result ≡ 0 → used.new ≤ asked.new }
    ensures used_kept { 0 < result → used.new ≡ used.old }
    ensures asked_kept { 0 < result → asked.new ≡ asked.old }
{
    let shape = match HostShape::new(processors, period_us, slice_us) {
        Ok(shape) => shape,
        Err(fault) => return u32::from(fault.number()),
    };
    if passed_ns == 0 {
        return u32::from(FileFault::PeriodOutOfRange.number());
    }
    let times = LeafTimes {
        passed: passed_ns,
        used: used_ns,
        waited: waited_ns,
        some_waited: some_ns,
    };
    let reading = leaf_reading(shape, times);
    *used = reading.used;
    *asked = reading.asked;
    0
}
