//! Harm and guesses of the last rounds of a loop that holds a plan.
ghost use Rattle.std.specs.Prelude.{◌≡◌, sum, IfSome, IfNone};
ghost use Rattle.bw_owned.specs.Judged.{last_rounds, greatest_sum, IsJudged, IsSumTooGreat};

use crate::harm::{MOST_SLICES, ServedSlices, lost_slices};

/// Rounds under limits that judge them.
pub const JUDGED_ROUNDS: usize = 60;

/// Slices of the last rounds by which limits are judged.
#[derive(Clone, Copy, Debug, PartialEq, Eq)]
pub struct JudgedSlices {
    /// Slices that they served too little, 0 where they did no harm.
    pub lost: u64,
    /// Slices that were used where hunger was a guess, above those where it was none.
    pub guessed: u64,
}

// The sum of numbers.
fn sum_of(values: &[u64]) -> u128
    ensures { result ≡ sum values.now }
{
    let mut total = 0u128;
    for k in 0..values.len() {
        total += u128::from(values[k]);
    }
    total
}

// The sum of the numbers of the last rounds.
fn last_sum(values: &[u64]) -> u128
    ensures { result ≡ sum (last_rounds values.now) }
{
    let begin = values.len().saturating_sub(JUDGED_ROUNDS);
    sum_of(&values[begin..])
}

/// Harm and guesses of the last rounds under limits, beside rounds without limits.
///
/// Each column has the slices of all groups in each round: those that were used and planned, those
/// used by groups that were hungry for sure, and those of which that was a guess. The last 60 of
/// each are judged. With fewer under limits there is no harm and no guess. None says that a sum is
/// above [`MOST_SLICES`].
pub fn judge(
    free_used: &[u64],
    free_planned: &[u64],
    held_used: &[u64],
    held_planned: &[u64],
    sure: &[u64],
    guesses: &[u64],
) -> Option<JudgedSlices>
    ensures some { IfSome result (λ j. IsJudged free_used.now free_planned.now held_used.now
        held_planned.now sure.now guesses.now j.lost j.guessed) }
    ensures none { IfNone result (IsSumTooGreat free_used.now free_planned.now held_used.now
        held_planned.now sure.now guesses.now) }
{
    let (used, planned) = (last_sum(free_used), last_sum(free_planned));
    let (under, allowed) = (last_sum(held_used), last_sum(held_planned));
    let (known, guessed) = (last_sum(sure), last_sum(guesses));
    let greatest = used
        .max(planned)
        .max(under.max(allowed))
        .max(known.max(guessed));
    if greatest > u128::from(MOST_SLICES) {
        return None;
    }
    if held_used.len() < JUDGED_ROUNDS {
        return Some(JudgedSlices {
            lost: 0,
            guessed: 0,
        });
    }
    let free = ServedSlices {
        used: used as u64,
        planned: planned as u64,
    };
    let held = ServedSlices {
        used: under as u64,
        planned: allowed as u64,
    };
    Some(JudgedSlices {
        lost: lost_slices(free, held),
        guessed: guessed.saturating_sub(known) as u64,
    })
}
