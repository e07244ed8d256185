//! The least number that gives a weight.
ghost use Rattle.std.specs.Prelude.{◌≡◌, ◌≤◌, ℕ, IfSome, IfNone};
ghost use Rattle.bw_model.specs.declared.limits.TheConstants.{MAX_WEIGHT};
ghost use Rattle.bw_owned.specs.Least.{first_number, last_number, IsLeastNumber};
ghost use Rattle.bw_owned.specs.Weights.{IsUntoldNumber};

use crate::formula::WeightFormula;
use crate::request::MAX_REQUEST;
use crate::shares::{MAX_SHARES, MIN_SHARES};
use crate::weight::owned_weight;
use bw_model::limits::{MAX_WEIGHT, MIN_WEIGHT};

// The least number that an owner can set.
fn first_number(formula: WeightFormula) -> u64
    ensures { result ≡ first_number formula }
{
    match formula {
        WeightFormula::SharesLinear
        | WeightFormula::SharesLogarithmic
        | WeightFormula::UnitShares => MIN_SHARES,
        WeightFormula::RequestLinear | WeightFormula::RequestLogarithmic => 0,
        WeightFormula::UnitWeight => MIN_WEIGHT,
    }
}

// A number that has the greatest weight.
fn last_number(formula: WeightFormula) -> u64
    ensures { result ≡ last_number formula }
{
    match formula {
        WeightFormula::SharesLinear
        | WeightFormula::SharesLogarithmic
        | WeightFormula::UnitShares => MAX_SHARES,
        WeightFormula::RequestLinear | WeightFormula::RequestLogarithmic => MAX_REQUEST,
        WeightFormula::UnitWeight => MAX_WEIGHT,
    }
}

/// The least number of those that an owner can set whose weight is at least `weight`.
///
/// At most 18 weights are worked out. None says that one of them is not told, as
/// [`owned_weight`](crate::owned_weight) has it.
pub fn least_number(formula: WeightFormula, weight: u64) -> Option<u64>
    requires { weight ≤ MAX_WEIGHT }
    ensures some { IfSome result (IsLeastNumber formula weight) }
    ensures none { IfNone result ((number : ℕ) × IsUntoldNumber formula number) }
{
    let mut low = first_number(formula);
    let mut high = last_number(formula);
    while low < high {
        let middle = (low + high) / 2;
        let Some(given) = owned_weight(formula, middle) else {
            return None;
        };
        if given < weight {
            low = middle + 1;
        } else {
            high = middle;
        }
    }
    Some(high)
}
