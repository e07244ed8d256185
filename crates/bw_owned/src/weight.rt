//! Weights of numbers that owners set.
ghost use Rattle.std.specs.Prelude.{◌≡◌, ◌≤◌, IfSome, IfNone};
ghost use Rattle.bw_model.specs.declared.limits.TheConstants.{MIN_WEIGHT, MAX_WEIGHT};
ghost use Rattle.bw_owned.specs.declared.shares.TheConstants.{MAX_SHARES};
ghost use Rattle.bw_owned.specs.Shares.{bounded, IsUntold, IsLogarithmicWeight};
ghost use Rattle.bw_owned.specs.Weights.{bounded_weight, weight_of_unit_shares};
ghost use Rattle.bw_owned.specs.Weights.{IsOwnedWeight, IsUntoldNumber};

use crate::formula::WeightFormula;
use crate::request::shares_of_request;
use crate::shares::{
    DEFAULT_SHARES, DEFAULT_WEIGHT, MAX_SHARES, MIN_SHARES, linear_weight, logarithmic_weight,
};
use bw_model::limits::{MAX_WEIGHT, MIN_WEIGHT};

// The nearest weight that the kernel takes.
fn bounded_weight(weight: u64) -> u64
    ensures { result ≡ bounded_weight weight }
{
    weight.max(MIN_WEIGHT).min(MAX_WEIGHT)
}

// The weight that systemd takes for shares of a unit.
fn weight_of_unit_shares(shares: u64) -> u64
    ensures { result ≡ weight_of_unit_shares shares }
{
    // (more shares than these have the greatest weight)
    let counted = shares.min(MAX_SHARES);
    bounded_weight(counted * DEFAULT_WEIGHT / DEFAULT_SHARES)
}

// The weight of shares within their range, whatever shares are given.
fn bounded_logarithmic_weight(shares: u64) -> Option<u64>
    ensures weight { IfSome result (IsLogarithmicWeight (bounded shares)) }
    ensures none { IfNone result (IsUntold (bounded shares)) }
    ensures range { IfSome result (λ weight. (MIN_WEIGHT ≤ weight) × (weight ≤ MAX_WEIGHT)) }
{
    logarithmic_weight(shares.max(MIN_SHARES).min(MAX_SHARES))
}

/// The weight of a number that an owner set, 1 to 10000.
///
/// None says that a weight by logarithms is so near the curve that those to 36 binary digits do not
/// tell on which side it is. Tests try each number of shares, and each has a weight.
pub fn owned_weight(formula: WeightFormula, number: u64) -> Option<u64>
    ensures weight { IfSome result (IsOwnedWeight formula number) }
    ensures none { IfNone result (IsUntoldNumber formula number) }
    ensures range { IfSome result (λ weight. (MIN_WEIGHT ≤ weight) × (weight ≤ MAX_WEIGHT)) }
{
    match formula {
        WeightFormula::SharesLinear => Some(linear_weight(number)),
        WeightFormula::SharesLogarithmic => bounded_logarithmic_weight(number),
        WeightFormula::RequestLinear => Some(linear_weight(shares_of_request(number))),
        WeightFormula::RequestLogarithmic => logarithmic_weight(shares_of_request(number)),
        WeightFormula::UnitShares => Some(weight_of_unit_shares(number)),
        WeightFormula::UnitWeight => Some(bounded_weight(number)),
    }
}
