//! Weights of `cpu.shares`, as container runtimes write them.
ghost use Rattle.std.specs.Prelude.{◌≡◌, ◌-◌, ◌<◌, ◌≤◌, ◌^◌, ◌⊎◌, IfSome, IfNone};
ghost use Rattle.bw_model.specs.declared.limits.TheConstants.{MIN_WEIGHT, MAX_WEIGHT};
ghost use Rattle.bw_owned.specs.Shares.{linear_weight, curve, height};
ghost use Rattle.bw_owned.specs.Logarithm.{IsLogarithmBelow, IsLogarithmWithin};
ghost use Rattle.bw_owned.specs.Shares.{IsLeastAbove, IsUntold, IsLogarithmicWeight};

use crate::logarithm::{UNIT, logarithm_above, logarithm_below};
use bw_model::limits::{MAX_WEIGHT, MIN_WEIGHT};

/// Least `cpu.shares` of a group (`MIN_SHARES` of the kernel).
pub const MIN_SHARES: u64 = 2;

/// Greatest `cpu.shares` of a group (`MAX_SHARES` of the kernel).
pub const MAX_SHARES: u64 = 262_144;

/// `cpu.shares` of a group that nobody set.
pub const DEFAULT_SHARES: u64 = 1024;

/// `cpu.weight` of a group that nobody set.
pub const DEFAULT_WEIGHT: u64 = 100;

/// The weight that runc before 1.3.2 and crun before 1.23 write for shares: 1 to 10000.
///
/// Shares below 2 count as 2, and shares above 262144 as 262144.
pub fn linear_weight(shares: u64) -> u64
    ensures value { result ≡ linear_weight shares }
    ensures range { (MIN_WEIGHT ≤ result) × (result ≤ MAX_WEIGHT) }
{
    let bounded = shares.max(MIN_SHARES).min(MAX_SHARES);
    MIN_WEIGHT + (bounded - MIN_SHARES) * (MAX_WEIGHT - MIN_WEIGHT) / (MAX_SHARES - MIN_SHARES)
}

// The curve at shares, by their logarithm and that of 10.
fn curve(ten: u64, shares: u64) -> u128
    requires { (ten < 2 ^ 41) × (shares < 2 ^ 41) }
    ensures { result ≡ curve ten shares }
{
    let shares = u128::from(shares);
    u128::from(ten) * (shares * shares + 125 * u128::from(UNIT) * shares)
}

// A weight, as it is compared with the curve.
fn height(ten: u64, weight: u64) -> u128
    requires { (ten < 2 ^ 41) × (weight < 2 ^ 41) }
    ensures { result ≡ height ten weight }
{
    let unit = u128::from(UNIT);
    unit * unit * (612 * u128::from(weight) + 126 * u128::from(ten))
}

// The least weight that is shown to be on or above the curve, or the greatest weight, and the
// logarithm that shows that the weight before it is not.
#[derive(Clone, Copy)]
struct Candidate {
    weight: u64,
    // units that are at most the logarithm of the weight
    least: u64,
    // units that are at most the logarithm of the weight before it
    before: u64,
}

// The nearest weight to the curve, looked for by halving.
fn nearest(ten: u64, shares: u64) -> Candidate
    requires { (ten < 2 ^ 41) × (shares < 2 ^ 41) }
    ensures range { (2 ≤ result.weight) × (result.weight ≤ MAX_WEIGHT) }
    ensures bound { result.least < 2 ^ 41 }
    ensures least { IsLogarithmBelow result.least result.weight }
    ensures close { IsLogarithmWithin result.least result.weight }
    ensures on { (result.weight ≡ MAX_WEIGHT) ⊎ (curve ten shares ≤ height ten result.least) }
    ensures before { IsLogarithmWithin result.before (result.weight - 1) }
    ensures under { (result.weight ≡ 2) ⊎ (height ten result.before < curve ten shares) }
{
    let most = curve(ten, shares);
    let (mut under, mut before) = (MIN_WEIGHT, logarithm_below(MIN_WEIGHT));
    let (mut above, mut least) = (MAX_WEIGHT, logarithm_below(MAX_WEIGHT));
    while under + 1 < above {
        let middle = (under + above) / 2;
        let units = logarithm_below(middle);
        if most <= height(ten, units) {
            above = middle;
            least = units;
        } else {
            under = middle;
            before = units;
        }
    }
    Candidate {
        weight: above,
        least,
        before,
    }
}

// The weight on the curve between 3 and 262143 shares, rounded up.
fn weight_between(shares: u64) -> Option<u64>
    requires { (MIN_SHARES < shares) × (shares < MAX_SHARES) }
    ensures weight { IfSome result (IsLeastAbove shares) }
    ensures none { IfNone result (IsUntold shares) }
    ensures range { IfSome result (λ weight. (MIN_WEIGHT ≤ weight) × (weight ≤ MAX_WEIGHT)) }
{
    let (ten_most, shares_most) = (logarithm_above(10), logarithm_above(shares));
    let (ten_least, shares_least) = (logarithm_below(10), logarithm_below(shares));
    let Candidate { weight, least, .. } = nearest(ten_most, shares_most);
    if curve(ten_most, shares_most) > height(ten_most, least) {
        return None;
    }
    if height(ten_least, logarithm_above(weight - 1)) >= curve(ten_least, shares_least) {
        return None;
    }
    Some(weight)
}

/// The weight that runc from 1.3.2 on and crun from 1.23 on write for shares: 1 to 10000.
///
/// None says that a weight is so near the curve that logarithms to 36 binary digits do not tell on
/// which side it is. Tests try each number of shares, and each has a weight.
pub fn logarithmic_weight(shares: u64) -> Option<u64>
    ensures weight { IfSome result (IsLogarithmicWeight shares) }
    ensures none { IfNone result (IsUntold shares) }
    ensures range { IfSome result (λ weight. (MIN_WEIGHT ≤ weight) × (weight ≤ MAX_WEIGHT)) }
{
    if shares <= MIN_SHARES {
        return Some(MIN_WEIGHT);
    }
    if shares >= MAX_SHARES {
        return Some(MAX_WEIGHT);
    }
    if shares == DEFAULT_SHARES {
        return Some(DEFAULT_WEIGHT);
    }
    weight_between(shares)
}
