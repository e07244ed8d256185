//! Demands of a round of a loop, and judgements of its last rounds, called from C.
ghost use Rattle.std.specs.Prelude.{◌≡◌, ◌<◌, ◌∷◌, [], length};
ghost use Rattle.bw_columns.specs.Asked.{are_of_length};
ghost use Rattle.bw_owned.specs.Round.{AreRoundColumns};
ghost use Rattle.bw_exports.specs.Held.{length_refusal, IsJudgedRefused};
ghost use Rattle.bw_owned.specs.Swings.{AreSwingsCounted};
ghost use Rattle.bw_owned.specs.Judged.{IsJudged};
ghost use Rattle.bw_owned.specs.Harm.{IsLost};
ghost use Rattle.bw_exports.specs.Owned.{slices_of, IsSumTooGreat};

use crate::fit::are_all;
use bw_check::CheckFault;
use bw_model::InstanceFault;
use bw_owned::{MOST_SLICES, ServedSlices, count_swings, judge, lost_slices, write_round};

/// Slices that a round asks for each leaf, and those that it was not served in the last one.
///
/// `used`, `asked` and `hungry` are those of [`crate::reading_calls::arbiter_reading`] for each
/// leaf, and `planned` has the slices that the plan of the last round gave it, 0 for none.
///
/// The answer is 0 if the columns are written. `demands` and `all` are `used` and `hungry` of
/// [`crate::held_calls::arbiter_hold`]. Of a leaf that asks for everything they are what it used
/// and 1, else what it asks for and 0. So the round asks for it what its reading does. `unserved`
/// has what a leaf used less than its plan, and 0 if it is not hungry. A refusal leaves each column
/// unchanged.
///
/// # Errors
/// The answer is 50 if the columns differ in length.
#[unsafe(no_mangle)]
pub extern "C" fn arbiter_round(
    planned: &[u64],
    used: &[u64],
    asked: &[u64],
    hungry: &[u8],
    demands: &mut [u64],
    all: &mut [u8],
    unserved: &mut [u64],
) -> u32
    ensures number { result ≡ length_refusal (are_of_length (length used.now) (planned.now
        ∷ asked.now ∷ hungry.now ∷ demands.old ∷ all.old ∷ unserved.old ∷ [])) }
    ensures round { result ≡ 0 → AreRoundColumns planned.now used.now asked.now hungry.now
        demands.new all.new unserved.new }
    ensures demands_kept { 0 < result → demands.new ≡ demands.old }
    ensures all_kept { 0 < result → all.new ≡ all.old }
    ensures unserved_kept { 0 < result → unserved.new ≡ unserved.old }
{
    if !are_all(
        used.len(),
        &[
            planned.len(),
            asked.len(),
            hungry.len(),
            demands.len(),
            all.len(),
            unserved.len(),
        ],
    ) {
        return u32::from(CheckFault::WrongLength.number());
    }
    write_round(planned, used, asked, hungry, demands, all, unserved);
    0
}

/// For how many rounds in a row numbers go back, and turn: limits, or what is asked for.
///
/// `now` has the number of each group in this round, `last` that in the last one, and `before` that
/// in the one before. A number goes back if it is that of two rounds before to a twentieth of the
/// greater, and a quarter of the greater or more off the last. It turns if it rose and falls, or
/// fell and rises.
///
/// The answer is 0 if the columns are written. `backs` and `turns` have the rounds in a row up to
/// the last one, and then one more, or 0 where it did not. A count stops at its greatest value. A
/// refusal leaves both unchanged.
///
/// # Errors
/// The answer is 50 if the columns differ in length.
#[unsafe(no_mangle)]
pub extern "C" fn arbiter_swings(
    now: &[u64],
    last: &[u64],
    before: &[u64],
    backs: &mut [u64],
    turns: &mut [u64],
) -> u32
    ensures number { result ≡ length_refusal (are_of_length (length now.now) (last.now
        ∷ before.now ∷ backs.old ∷ turns.old ∷ [])) }
    ensures swings { result ≡ 0 → AreSwingsCounted now.now last.now before.now backs.old turns.old
        backs.new turns.new }
    ensures backs_kept { 0 < result → backs.new ≡ backs.old }
    ensures turns_kept { 0 < result → turns.new ≡ turns.old }
{
    if !are_all(
        now.len(),
        &[last.len(), before.len(), backs.len(), turns.len()],
    ) {
        return u32::from(CheckFault::WrongLength.number());
    }
    count_swings(now, last, before, backs, turns);
    0
}

/// Slices of the last rounds that limits served too little, and those that are guesses.
///
/// The columns have the slices of all groups in each round, the last round last. `free_used` and
/// `free_planned` are of rounds without limits, the others of rounds under limits. `sure` has what
/// groups used that were hungry for sure, `guesses` what those used of which that was a guess. The
/// last 60 rounds of each kind are judged.
///
/// The answer is 0 if both numbers are written. `lost` is that of
/// [`crate::round_calls::arbiter_lost`]. `guessed` is by how much the guesses are more than what
/// was sure. Both are 0 where fewer than 60 rounds were under limits. A refusal leaves both
/// unchanged.
///
/// # Errors
/// The answer is 50 if columns of one kind of rounds differ in length, else 9 if a sum of the last
/// rounds is above 2^60.
#[unsafe(no_mangle)]
pub extern "C" fn arbiter_judged(
    free_used: &[u64],
    free_planned: &[u64],
    held_used: &[u64],
    held_planned: &[u64],
    sure: &[u64],
    guesses: &[u64],
    lost: &mut u64,
    guessed: &mut u64,
) -> u32
    ensures told { result ≡ 0 → IsJudged free_used.now free_planned.now held_used.now
        held_planned.now sure.now guesses.now lost.new guessed.new }
    ensures refused { 0 < result → IsJudgedRefused free_used.now free_planned.now held_used.now
        held_planned.now sure.now guesses.now result }
    ensures lost_kept { 0 < result → lost.new ≡ lost.old }
    ensures guessed_kept { 0 < result → guessed.new ≡ guessed.old }
{
    let of_free = are_all(free_used.len(), &[free_planned.len()]);
    let of_held = are_all(
        held_used.len(),
        &[held_planned.len(), sure.len(), guesses.len()],
    );
    if !of_free || !of_held {
        return u32::from(CheckFault::WrongLength.number());
    }
    match judge(
        free_used,
        free_planned,
        held_used,
        held_planned,
        sure,
        guesses,
    ) {
        Some(found) => {
            *lost = found.lost;
            *guessed = found.guessed;
            0
        }
        None => u32::from(InstanceFault::DemandTooLarge.number()),
    }
}

/// Slices that rounds under limits served too little, beside rounds without limits: 0 for no harm.
///
/// Limits do harm where the part of the plan that is served is more than a twentieth of the plan
/// below that of the rounds without limits. With so many slices more they would do none. A plan of
/// nothing is served. The sums are of the slices that groups used, and that they were planned.
///
/// The answer is 0 if `lost` is written. A refusal leaves it unchanged.
///
/// # Errors
/// The answer is 9 if a sum is above 2^60.
#[unsafe(no_mangle)]
pub extern "C" fn arbiter_lost(
    free_used: u64,
    free_planned: u64,
    held_used: u64,
    held_planned: u64,
    lost: &mut u64,
) -> u32
    ensures lost { result ≡ 0
        → IsLost (slices_of free_used free_planned) (slices_of held_used held_planned) lost.new }
    ensures refused { 0 < result → IsSumTooGreat free_used free_planned held_used held_planned }
    ensures number { 0 < result → result ≡ 9 }
    ensures kept { 0 < result → lost.new ≡ lost.old }
{
    if free_used > MOST_SLICES || free_planned > MOST_SLICES {
        return u32::from(InstanceFault::DemandTooLarge.number());
    }
    if held_used > MOST_SLICES || held_planned > MOST_SLICES {
        return u32::from(InstanceFault::DemandTooLarge.number());
    }
    let free = ServedSlices {
        used: free_used,
        planned: free_planned,
    };
    let held = ServedSlices {
        used: held_used,
        planned: held_planned,
    };
    *lost = lost_slices(free, held);
    0
}
