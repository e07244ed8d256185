//! Numbers that go back and forth from round to round, such as limits.
ghost use Rattle.std.specs.Prelude.{◌≡◌, length};
ghost use Rattle.bw_owned.specs.Swings.{apart, went_back, has_turned, in_a_row};
ghost use Rattle.bw_owned.specs.Swings.{AreSwingsCounted};

// The distance of two numbers.
fn apart(one: u64, other: u64) -> u64
    ensures { result ≡ apart one other }
{
    if one < other {
        other - one
    } else {
        one - other
    }
}

// Whether a number went back: it is that of two rounds before to a twentieth, and a quarter off
// the last.
fn went_back(now: u64, last: u64, before: u64) -> bool
    ensures { result ≡ went_back now last before }
{
    now != last
        && 20 * u128::from(apart(now, before)) <= u128::from(now.max(before))
        && u128::from(now.max(last)) <= 4 * u128::from(apart(now, last))
}

// Whether a number that rose falls, or one that fell rises.
fn has_turned(now: u64, last: u64, before: u64) -> bool
    ensures { result ≡ has_turned now last before }
{
    before < last && now < last || last < before && last < now
}

// The rounds in a row in which a number did something, after one more.
fn in_a_row(did: bool, rounds: u64) -> u64
    ensures { result ≡ in_a_row did rounds }
{
    if did { rounds.saturating_add(1) } else { 0 }
}

/// Counts the rounds in a row in which each number went back, and in which it turned.
///
/// A number stands beside those of the last round and of the one before. It went back if it is that
/// of two rounds before to a twentieth, and a quarter off the last. It turned if it rose and falls,
/// or fell and rises.
pub fn count_swings(now: &[u64], last: &[u64], before: &[u64], backs: &mut [u64], turns: &mut [u64])
    requires last { length last.now ≡ length now.now }
    requires before { length before.now ≡ length now.now }
    requires backs { length backs.old ≡ length now.now }
    requires turns { length turns.old ≡ length now.now }
    ensures { AreSwingsCounted now.now last.now before.now backs.old turns.old backs.new
        turns.new }
{
    for k in 0..now.len() {
        backs[k] = in_a_row(went_back(now[k], last[k], before[k]), backs[k]);
        turns[k] = in_a_row(has_turned(now[k], last[k], before[k]), turns[k]);
    }
}
