//! `arbiter_let_go`: which groups a loop lets go of, and why, called from C.
ghost use Rattle.std.specs.Prelude.{◌≡◌, ◌<◌, ◌∷◌, [], length};
ghost use Rattle.bw_columns.specs.Asked.{are_of_length};
ghost use Rattle.bw_exports.specs.Held.{length_refusal, IsLetGoTold};

use bw_check::CheckFault;
use bw_owned::let_go;

// Whether each column has so many entries.
fn are_fit(
    count: usize,
    turns: &[u64],
    moved: &[u64],
    left: &[u64],
    guessed: &[u64],
    go: &[u8],
) -> bool
    ensures { result ≡ are_of_length count (turns.now ∷ moved.now ∷ left.now ∷ guessed.now
        ∷ go.now ∷ []) }
{
    turns.len() == count
        && moved.len() == count
        && left.len() == count
        && guessed.len() == count
        && go.len() == count
}

/// Which groups a loop lets go of, since limits do harm to them, and why.
///
/// `backs` and `turns` are those of [`crate::round_calls::arbiter_swings`]: of the limit of each
/// group, and of what it asks for. `moved` has by how much its use changed in the last rounds,
/// `left` what it left of its plans, and `guessed` what it used where its hunger was a guess, all
/// in slices. `lost` and `guesses` are those of [`crate::round_calls::arbiter_judged`].
///
/// The answer is 0 if `go` and `reason` are written: 1 in `go` for a group that goes, else 0.
/// `reason` is the first of these. 1: a limit went back for 60 rounds. Of the groups whose demand
/// turned for as long one goes, or else of those with such a limit: the one whose use changed most.
/// 2: slices were lost. The groups go that left most, as few as come to `lost`. 3: hunger was
/// guessed. The groups go that used most on a guess, as few as come to `guesses`. 0: nobody goes.
/// Of equal groups the first goes. A refusal leaves both unchanged.
///
/// # Errors
/// The answer is 50 if the columns differ in length.
#[unsafe(no_mangle)]
pub extern "C" fn arbiter_let_go(
    backs: &[u64],
    turns: &[u64],
    moved: &[u64],
    left: &[u64],
    guessed: &[u64],
    lost: u64,
    guesses: u64,
    go: &mut [u8],
    reason: &mut u32,
) -> u32
    ensures number { result ≡ length_refusal (are_of_length (length backs.now) (turns.now
        ∷ moved.now ∷ left.now ∷ guessed.now ∷ go.old ∷ [])) }
    ensures told { result ≡ 0 → IsLetGoTold backs.now turns.now moved.now left.now guessed.now lost
        guesses go.new reason.new }
    ensures go_kept { 0 < result → go.new ≡ go.old }
    ensures reason_kept { 0 < result → reason.new ≡ reason.old }
{
    if !are_fit(backs.len(), turns, moved, left, guessed, go) {
        return u32::from(CheckFault::WrongLength.number());
    }
    *reason = let_go(backs, turns, moved, left, guessed, lost, guesses, go).number();
    0
}
