//! Which groups a loop lets go of, since limits do harm to them.
ghost use Rattle.std.specs.Prelude.{◌≡◌, ◌+◌, ◌<◌, ◌≤◌, ℕ, length, slice_index};
ghost use Rattle.bw_owned.specs.LetGo.{counted, is_long, any_long, reason_of, swinging};
ghost use Rattle.bw_owned.specs.LetGo.{reason_number, IsNextOf, AreLetGo, GoFor};

use crate::judged::JUDGED_ROUNDS;

/// Why groups are let go.
#[derive(Clone, Copy, Debug, PartialEq, Eq)]
pub enum LetGoReason {
    /// 0: nobody is.
    Nothing,
    /// 1: limits went back and forth for too long.
    Swings,
    /// 2: slices were lost under limits.
    Losses,
    /// 3: hunger was mostly a guess.
    Guesses,
}

impl LetGoReason {
    /// The number of the reason, 0 to 3.
    pub fn number(self) -> u32
        ensures { result ≡ reason_number self }
    {
        match self {
            LetGoReason::Nothing => 0,
            LetGoReason::Swings => 1,
            LetGoReason::Losses => 2,
            LetGoReason::Guesses => 3,
        }
    }
}

// The slices that a group counts for: its own, and one at least.
fn counted(slices: u64) -> u128
    ensures { result ≡ counted slices }
{
    u128::from(slices.max(1))
}

// The one that goes next, where one more of the groups is looked at.
fn next_with(
    least: u64,
    counts: &[u64],
    slices: &[u64],
    go: &[u8],
    found: Option<usize>,
    k: usize,
) -> Option<usize>
    requires counts { length counts.now ≡ length slices.now }
    requires go { length go.now ≡ length slices.now }
    requires here { k < length slices.now }
    requires before { IsNextOf least counts.now slices.now go.now k found }
    ensures { IsNextOf least counts.now slices.now go.now (k + 1) result }
{
    if counts[k] < least || go[k] != 0 {
        return found;
    }
    let Some(other) = found else {
        return Some(k);
    };
    if slices[other] < slices[k] {
        Some(k)
    } else {
        found
    }
}

// The group in question that goes next: of those that do not go yet the one with most slices.
fn next_of(least: u64, counts: &[u64], slices: &[u64], go: &[u8]) -> Option<usize>
    requires counts { length counts.now ≡ length slices.now }
    requires go { length go.now ≡ length slices.now }
    ensures { IsNextOf least counts.now slices.now go.now (length slices.now) result }
{
    let mut found = None;
    for k in 0..slices.len() {
        found = next_with(least, counts, slices, go, found, k);
    }
    found
}

// Lets nobody go.
fn hold_all(go: &mut [u8])
    ensures long { length go.new ≡ length go.old }
    ensures each { (k : ℕ) → k < length go.old → slice_index go.new k ≡ 0 }
{
    for k in 0..go.len() {
        go[k] = 0;
    }
}

// Lets those with most slices go, of the groups in question: as few as count for what is needed.
fn let_most_go(needed: u64, least: u64, counts: &[u64], slices: &[u64], go: &mut [u8])
    requires counts { length counts.now ≡ length slices.now }
    requires room { length go.old ≡ length slices.now }
    ensures long { length go.new ≡ length go.old }
    ensures go { AreLetGo needed least counts.now slices.now go.new }
{
    hold_all(go);
    let mut gone = 0u128;
    while gone < u128::from(needed) {
        let Some(next) = next_of(least, counts, slices, go) else {
            return;
        };
        go[next] = 1;
        gone += counted(slices[next]);
    }
}

// Whether one went on for too long.
fn any_long(counts: &[u64]) -> bool
    ensures { result ≡ any_long counts.now }
{
    counts.iter().any(|rounds| *rounds >= JUDGED_ROUNDS as u64)
}

// Why groups go.
fn reason_of(backs: &[u64], lost: u64, guesses: u64) -> LetGoReason
    ensures { result ≡ reason_of backs.now lost guesses }
{
    if any_long(backs) {
        return LetGoReason::Swings;
    }
    if lost > 0 {
        return LetGoReason::Losses;
    }
    if guesses > 0 {
        return LetGoReason::Guesses;
    }
    LetGoReason::Nothing
}

// Lets that one go whose use changed most, of those whose limits go back and forth.
fn let_one_go(backs: &[u64], turns: &[u64], moved: &[u64], go: &mut [u8])
    requires backs { length backs.now ≡ length moved.now }
    requires turns { length turns.now ≡ length moved.now }
    requires room { length go.old ≡ length moved.now }
    ensures long { length go.new ≡ length go.old }
    ensures go { AreLetGo 1 JUDGED_ROUNDS (swinging backs.now turns.now) moved.now go.new }
{
    if any_long(turns) {
        let_most_go(1, JUDGED_ROUNDS as u64, turns, moved, go);
    } else {
        let_most_go(1, JUDGED_ROUNDS as u64, backs, moved, go);
    }
}

/// Marks the groups to which limits did harm, and says why: a loop holds them no longer.
///
/// Each column has a number of each group. `backs` and `turns` are the rounds in a row in which its
/// limit went back, and in which what it asked for turned. `moved` has by how much its use changed
/// in the last rounds, `left` what it left of its plans, `guessed` what it used on a guess. `lost`
/// and `guesses` are those of [`crate::judge`].
///
/// Where a limit went back for 60 rounds, one group goes: of those whose demand turned for as long,
/// or else of those with such a limit, the one whose use changed most. Else the groups go that left
/// most, as few as come to `lost`. Else those that used most on a guess, up to `guesses`. Of equal
/// ones the first goes. It looks at all groups for each one that goes.
pub fn let_go(
    backs: &[u64],
    turns: &[u64],
    moved: &[u64],
    left: &[u64],
    guessed: &[u64],
    lost: u64,
    guesses: u64,
    go: &mut [u8],
) -> LetGoReason
    requires turns { length turns.now ≡ length backs.now }
    requires moved { length moved.now ≡ length backs.now }
    requires left { length left.now ≡ length backs.now }
    requires guessed { length guessed.now ≡ length backs.now }
    requires room { length go.old ≡ length backs.now }
    ensures reason { result ≡ reason_of backs.now lost guesses }
    ensures go { GoFor result backs.now turns.now moved.now left.now guessed.now lost guesses
        go.new }
{
    let reason = reason_of(backs, lost, guesses);
    match reason {
        LetGoReason::Nothing => hold_all(go),
        LetGoReason::Swings => let_one_go(backs, turns, moved, go),
        LetGoReason::Losses => let_most_go(lost, 1, left, left, go),
        LetGoReason::Guesses => let_most_go(guesses, 1, guessed, guessed, go),
    }
    reason
}
