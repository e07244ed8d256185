//! `cpu.shares` of requests, as kubelet writes them.
ghost use Rattle.std.specs.Prelude.{◌≡◌, ◌≤◌};
ghost use Rattle.bw_owned.specs.declared.shares.TheConstants.{MIN_SHARES, MAX_SHARES};
ghost use Rattle.bw_owned.specs.Requests.{shares_of_request, weight_of_request};
ghost use Rattle.bw_owned.specs.Requests.{number_for_request};

use crate::formula::WeightFormula;
use crate::shares::MIN_SHARES;
use bw_model::limits::{MAX_WEIGHT, MIN_WEIGHT};

/// Thousandths of a CPU that are requested for each unit of `CPUWeight=`.
pub const WEIGHT_REQUEST: u64 = 10;

/// Least request in thousandths of a CPU that has the greatest shares.
pub const MAX_REQUEST: u64 = 256_000;

/// The `cpu.shares` that kubelet writes for a request in thousandths of a CPU: 2 to 262144.
pub fn shares_of_request(request: u64) -> u64
    ensures value { result ≡ shares_of_request request }
    ensures range { (MIN_SHARES ≤ result) × (result ≤ MAX_SHARES) }
{
    let counted = request.min(MAX_REQUEST);
    (counted * 1024 / 1000).max(MIN_SHARES)
}

// The `CPUWeight=` of a request: 100 for each CPU, rounded up.
fn weight_of_request(request: u64) -> u64
    ensures { result ≡ weight_of_request request }
{
    request
        .div_ceil(WEIGHT_REQUEST)
        .max(MIN_WEIGHT)
        .min(MAX_WEIGHT)
}

/// The number that is written for a request in thousandths of a CPU, where an owner sets what a
/// formula takes.
///
/// Shares are those that kubelet has, and a request is itself. `CPUWeight=` is 100 for each CPU,
/// rounded up.
pub fn number_for_request(formula: WeightFormula, request: u64) -> u64
    ensures { result ≡ number_for_request formula request }
{
    match formula {
        WeightFormula::SharesLinear
        | WeightFormula::SharesLogarithmic
        | WeightFormula::UnitShares => shares_of_request(request),
        WeightFormula::RequestLinear | WeightFormula::RequestLogarithmic => request,
        WeightFormula::UnitWeight => weight_of_request(request),
    }
}
