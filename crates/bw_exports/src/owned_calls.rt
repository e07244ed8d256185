//! The numbers, weights and limits of what owners set, called from C.
ghost use Rattle.std.specs.Prelude.{◌≡◌, ◌<◌};
ghost use Rattle.bw_owned.specs.Formulas.{weight_formula_number, IsNumberOfNoFormula};
ghost use Rattle.bw_owned.specs.Formulas.{limit_formula_number};
ghost use Rattle.bw_exports.specs.Owned.{IsNumberTold, IsWeightTold, IsLimitTold};

use bw_columns::limit_number;
use bw_files::FileFault;
use bw_owned::{LimitFormula, WeightFormula, number_for_request, owned_limit, owned_weight};

/// The number that is written for a request in thousandths of a CPU, for one of six formulas.
///
/// The formulas are those of [`crate::owned_calls::arbiter_owned_weight`]. For 1, 2 and 5 it
/// is kubelet's shares, for 3 and 4 the request itself. For 6 it is 100 for each CPU, rounded up,
/// and 1 to 10000.
///
/// The answer is 0 if `number` is written. A refusal leaves it unchanged.
///
/// # Errors
/// The answer is 11 if no formula has the number.
#[unsafe(no_mangle)]
pub extern "C" fn arbiter_owned_number(formula: u32, request: u64, number: &mut u64) -> u32
    ensures told { result ≡ 0 → IsNumberTold formula request number.new }
    ensures refused { 0 < result → IsNumberOfNoFormula weight_formula_number formula }
    ensures answer { 0 < result → result ≡ 11 }
    ensures kept { 0 < result → number.new ≡ number.old }
{
    let Some(by) = WeightFormula::of_number(formula) else {
        return u32::from(FileFault::BadNumber.number());
    };
    *number = number_for_request(by, request);
    0
}

/// The weight, 1 to 10000, of a number that an owner set, by one of six formulas.
///
/// 1 and 2 are of `cpu.shares` as container runtimes convert them, 3 and 4 of a request in
/// thousandths of a CPU with kubelet's shares. 5 and 6 are of `CPUShares=` and `CPUWeight=` of a
/// unit. The weight would be 0 if logarithms to 36 binary digits did not tell it. Tests try each
/// number of shares, and all are told.
///
/// The answer is 0 if `weight` is written. A refusal leaves it unchanged.
///
/// # Errors
/// The answer is 11 if no formula has the number.
#[unsafe(no_mangle)]
pub extern "C" fn arbiter_owned_weight(formula: u32, number: u64, weight: &mut u64) -> u32
    ensures told { result ≡ 0 → IsWeightTold formula number weight.new }
    ensures refused { 0 < result → IsNumberOfNoFormula weight_formula_number formula }
    ensures number { 0 < result → result ≡ 11 }
    ensures kept { 0 < result → weight.new ≡ weight.old }
{
    let Some(by) = WeightFormula::of_number(formula) else {
        return u32::from(FileFault::BadNumber.number());
    };
    *weight = owned_weight(by, number).unwrap_or(0);
    0
}

/// The quota and the own period, in microseconds, of a number that an owner set, by one of four
/// formulas.
///
/// 1 is of a limit in thousandths of a CPU, as kubelet converts it. 2 and 3 are of `NanoCpus` and
/// `CpuQuota` of docker, and 4 of `CPUQuotaPerSecUSec` of a unit. `own_period_us` is the period
/// that was set beside it, 0 for none. The quota is the greatest number for no limit.
///
/// The answer is 0 if `quota` and `period` are written. A refusal leaves both unchanged.
///
/// # Errors
/// The answer is 11 if no formula has the number.
#[unsafe(no_mangle)]
pub extern "C" fn arbiter_owned_limit(
    formula: u32,
    number: u64,
    own_period_us: u64,
    quota: &mut u64,
    period: &mut u64,
) -> u32
    ensures told { result ≡ 0 → IsLimitTold formula number own_period_us quota.new period.new }
    ensures refused { 0 < result → IsNumberOfNoFormula limit_formula_number formula }
    ensures number { 0 < result → result ≡ 11 }
    ensures quota_kept { 0 < result → quota.new ≡ quota.old }
    ensures period_kept { 0 < result → period.new ≡ period.old }
{
    let Some(by) = LimitFormula::of_number(formula) else {
        return u32::from(FileFault::BadNumber.number());
    };
    let limit = owned_limit(by, number, own_period_us);
    *quota = limit_number(limit.quota);
    *period = limit.period_us;
    0
}
