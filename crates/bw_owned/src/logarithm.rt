//! Logarithms to the base 2 of whole numbers, enclosed between whole numbers of units of 2^-36.
//!
//! A number is squared 36 times, as a mantissa and an exponent. Each mantissa is rounded down for
//! the lower end, and up for the upper end.
ghost use Rattle.std.specs.Prelude.{ℕ, ◌+◌, ◌*◌, ◌^◌, ◌<◌, ◌≤◌};
ghost use Rattle.bw_owned.specs.Logarithm.{IsLogarithmBelow, IsLogarithmAbove};
ghost use Rattle.bw_owned.specs.Logarithm.{IsLogarithmWithin, IsLogarithmNear};

/// Binary digits of a unit's fraction: a unit is 2^-36.
pub const SCALE_DIGITS: u32 = 36;

/// Units in 1.
pub const UNIT: u64 = 68_719_476_736;

/// The mantissa of 1.
const ONE: u128 = 4_611_686_018_427_387_904;

/// Twice that mantissa.
const TWO: u128 = 9_223_372_036_854_775_808;

// mantissa / ONE * 2^exponent
#[derive(Clone, Copy)]
struct Power {
    mantissa: u128,
    exponent: u64,
}

// A number of 1 to 262143, rounded down.
fn power_of(x: u64) -> Power
    requires { (1 ≤ x) × (x < 262144) }
    ensures range { (ONE ≤ result.mantissa) × (result.mantissa < TWO) }
    ensures exponent { result.exponent ≤ 17 }
    ensures below { result.mantissa * 2 ^ result.exponent ≤ ONE * x }
    ensures above { ONE * x ≤ (result.mantissa + 1) * 2 ^ result.exponent }
{
    let mut mantissa = u128::from(x) * ONE;
    for exponent in 0..17u64 {
        if mantissa < TWO {
            return Power { mantissa, exponent };
        }
        mantissa /= 2;
    }
    Power {
        mantissa,
        exponent: 17,
    }
}

// At most the square.
fn square_below(power: Power) -> Power
    requires range { (ONE ≤ power.mantissa) × (power.mantissa < TWO) }
    requires exponent { power.exponent < 2 ^ 62 }
    ensures range { (ONE ≤ result.mantissa) × (result.mantissa < TWO) }
    ensures exponent { result.exponent ≤ 2 * power.exponent + 1 }
    ensures below { (v : ℕ) → power.mantissa * 2 ^ power.exponent ≤ ONE * v
        → result.mantissa * 2 ^ result.exponent ≤ ONE * (v * v) }
    // less than the square by one part in ONE
    ensures close { power.mantissa * power.mantissa * 2 ^ (2 * power.exponent)
        ≤ result.mantissa * (ONE + 1) * 2 ^ result.exponent }
{
    let mantissa = power.mantissa * power.mantissa / ONE;
    let exponent = 2 * power.exponent;
    if mantissa < TWO {
        return Power { mantissa, exponent };
    }
    Power {
        mantissa: mantissa / 2,
        exponent: exponent + 1,
    }
}

// At least the square.
fn square_above(power: Power) -> Power
    requires range { (ONE ≤ power.mantissa) × (power.mantissa ≤ TWO) }
    requires exponent { power.exponent < 2 ^ 62 }
    ensures range { (ONE ≤ result.mantissa) × (result.mantissa ≤ TWO) }
    ensures exponent { result.exponent ≤ 2 * power.exponent + 1 }
    ensures above { (v : ℕ) → ONE * v ≤ power.mantissa * 2 ^ power.exponent
        → ONE * (v * v) ≤ result.mantissa * 2 ^ result.exponent }
    // more than the square by two parts in ONE
    ensures close { result.mantissa * (ONE * ONE) * 2 ^ result.exponent
        ≤ power.mantissa * power.mantissa * (ONE + 2) * 2 ^ (2 * power.exponent) }
{
    let mantissa = (power.mantissa * power.mantissa + (ONE - 1)) / ONE;
    let exponent = 2 * power.exponent;
    if mantissa <= TWO {
        return Power { mantissa, exponent };
    }
    Power {
        mantissa: (mantissa + 1) / 2,
        exponent: exponent + 1,
    }
}

/// Units that are at most the logarithm of a number of 1 to 262143, and less than two below it.
pub fn logarithm_below(x: u64) -> u64
    requires { (1 ≤ x) × (x < 262144) }
    ensures below { IsLogarithmBelow result x }
    ensures close { IsLogarithmWithin result x }
    ensures bound { result < 2 ^ 41 }
{
    let mut power = power_of(x);
    for i in 0..SCALE_DIGITS {
        power = square_below(power);
    }
    power.exponent
}

/// Units that are at least the logarithm of a number of 1 to 262143, and less than two above it.
pub fn logarithm_above(x: u64) -> u64
    requires { (1 ≤ x) × (x < 262144) }
    ensures above { IsLogarithmAbove result x }
    ensures close { IsLogarithmNear result x }
    ensures bound { result < 2 ^ 41 }
{
    let below = power_of(x);
    let mut power = Power {
        mantissa: below.mantissa + 1,
        exponent: below.exponent,
    };
    for i in 0..SCALE_DIGITS {
        power = square_above(power);
    }
    power.exponent + 1
}
