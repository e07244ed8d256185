//! The weights with which all goals of a host and its rows are met.
ghost use Rattle.std.specs.Prelude.{◌≡◌, true, length, IfOk};
ghost use Rattle.bw_columns.specs.Requests.{IsReplyTo, groups_for, row_count};
ghost use Rattle.bw_columns.specs.Certificates.{flags_in};
ghost use Rattle.bw_columns.specs.FromRoot.{IsFromRootTold, IsToldOfRoot, measure_of, weights_of};

use crate::asked_instance::Request;
use crate::claim::flags_of;
use crate::refusal::Refusal;
use bw_model::Instance;
use bw_questions::{Measure, Tuned, tune};
use std::alloc::{AllocError, Global};

/// The number for no goal.
pub const NO_GOAL: u64 = 18_446_744_073_709_551_615;

/// The answer to goals of rows, by column.
#[derive(Drop)]
pub struct FromRootColumns {
    /// The weight of each row: 1 to 10,000.
    pub weights: Vec<u64>,
    /// A row whose goals, with those below it, no weights meet together; [`NO_GOAL`] if all are
    /// met.
    pub unmet: u64,
}

/// The measure that a number names: the plan for 0, the guarantee for any other.
pub fn measure_of(number: u32) -> Measure
    ensures { result ≡ measure_of number }
{
    if number == 0 {
        Measure::Planned
    } else {
        Measure::Guaranteed
    }
}

// The weight of each row.
fn weights_of(alloc: Global, instance: &Instance) -> Result<Vec<u64>, AllocError>
    ensures { IfOk result (λ weights. weights.items ≡ weights_of instance.now.rows) }
{
    instance.rows().iter().map(|row| row.weight).collect(alloc)
}

// The answer of an instance, by column.
fn told(alloc: Global, instance: &Instance, tuned: &Tuned) -> Result<FromRootColumns, AllocError>
    ensures { IfOk result (λ t. IsToldOfRoot instance.now tuned.now t.weights.items t.unmet) }
{
    match tuned {
        Tuned::Met(tuned) => Ok(FromRootColumns {
            weights: weights_of(alloc, tuned)?,
            unmet: NO_GOAL,
        }),
        Tuned::Unmet(group) => Ok(FromRootColumns {
            weights: weights_of(alloc, instance)?,
            unmet: u64::from(*group),
        }),
    }
}

/// The weights with which all goals of a host and its rows are met.
///
/// `goals` has the least slices that each row is to get by the measure, 0 for none. `may` is not 0
/// for a row whose weight may change.
///
/// # Errors
/// The refusals of [`Request::instance`].
pub fn from_root_of(
    alloc: Global,
    request: &Request<'_>,
    goals: &[u64],
    may: &[u8],
    measure: Measure,
) -> Result<FromRootColumns, Refusal>
    requires goals { request.now.fit ≡ true → length goals.now ≡ row_count request.now }
    requires may { request.now.fit ≡ true → length may.now ≡ row_count request.now }
    ensures told { IfOk result (λ t. IsFromRootTold measure (groups_for request.now)
        goals.now (flags_in may.now) t.weights.items t.unmet) }
    ensures weights { IfOk result
        (λ t. length t.weights.items ≡ row_count request.now) }
    ensures reply { IsReplyTo request.now result }
{
    let instance = request.instance(alloc)?;
    let flags = flags_of(alloc, may)?;
    let tuned = tune(alloc, &instance, goals, flags.as_slice(), measure)?;
    let told = told(alloc, &instance, &tuned)?;
    Ok(told)
}
