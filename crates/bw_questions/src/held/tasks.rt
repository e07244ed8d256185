//! Tasks of a group in a round: which were starved, and how long they ran and could have run.
ghost use Rattle.std.specs.Prelude.{◌≡◌, ◌<◌, ◌^◌, length};
ghost use Rattle.bw_questions.specs.Hunger.{is_starved, could_run, starved_one, sums_of, AreSums};

/// Sums of what the tasks of a group did in a round. Times are in nanoseconds.
#[derive(Clone, Copy)]
pub(crate) struct TaskSums {
    /// Tasks that were there at both readings.
    pub(crate) count: u64,
    /// Nanoseconds that they ran.
    pub(crate) ran: u128,
    /// Nanoseconds that they could have run.
    pub(crate) could_run: u128,
    /// Those of them that were starved.
    pub(crate) starved: u64,
}

// Whether a task is starved: it waited for a hundredth of the round or more, and slept for no
// longer than that and than a twentieth of the round.
fn is_starved(passed: u64, ran: u64, waited: u64) -> bool
    ensures { result ≡ is_starved passed ran waited }
{
    let slept = passed.saturating_sub(ran).saturating_sub(waited);
    u128::from(passed) <= 100 * u128::from(waited)
        && slept <= waited
        && 20 * u128::from(slept) <= u128::from(passed)
}

// The nanoseconds that a task could have run: the whole round if it is starved.
fn could_run(passed: u64, ran: u64, waited: u64) -> u64
    ensures { result ≡ could_run passed ran waited }
{
    if is_starved(passed, ran, waited) {
        passed
    } else {
        ran
    }
}

// 1 for a starved task.
fn starved_one(passed: u64, ran: u64, waited: u64) -> u64
    ensures value { result ≡ starved_one passed ran waited }
    ensures bound { result < 2 }
{
    if is_starved(passed, ran, waited) {
        1
    } else {
        0
    }
}

/// The sums of the tasks of a group, from the nanoseconds that each ran and waited in a round.
pub(crate) fn sums_of(passed: u64, ran: &[u64], waited: &[u64]) -> TaskSums
    requires one_each { length waited.now ≡ length ran.now }
    requires few { length ran.now < 2 ^ 32 }
    ensures sums { result ≡ sums_of passed ran.now waited.now }
    ensures count { result.count ≡ length ran.now }
    ensures bound { AreSums result }
{
    let (mut total, mut most, mut starved) = (0u128, 0u128, 0u64);
    for k in 0..ran.len() {
        total += u128::from(ran[k]);
        most += u128::from(could_run(passed, ran[k], waited[k]));
        starved += starved_one(passed, ran[k], waited[k]);
    }
    TaskSums {
        count: ran.len() as u64,
        ran: total,
        could_run: most,
        starved,
    }
}
