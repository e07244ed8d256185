//! The greatest limits of rows away from all goals, with which the goals of a host and its rows can
//! be met.
ghost use Rattle.std.specs.Prelude.{◌≡◌, ◌<◌, true, length, map, IfOk};
ghost use Rattle.bw_columns.specs.Requests.{IsReplyTo, groups_for, row_count};
ghost use Rattle.bw_columns.specs.Certificates.{flags_in};
ghost use Rattle.bw_columns.specs.OtherLimits.{AreOtherLimitsTold, number_of_row};
ghost use Rattle.bw_columns.specs.OtherLimits.{cut_number, cut_numbers};

use crate::asked_instance::Request;
use crate::claim::flags_of;
use crate::columns::limit_number;
use crate::refusal::Refusal;
use bw_model::Instance;
use bw_questions::{Limited, Measure, limit_others};
use std::alloc::{AllocError, Global};

/// Limits with which goals can be met, by column.
#[derive(Drop)]
pub struct OtherLimitColumns {
    /// The limit of each row in slices of one period, [`NO_LIMIT`](crate::NO_LIMIT) for none.
    pub limits: Vec<u64>,
    /// 1 if goals can be met with them. 0 if no limits will do, and these are those of the rows.
    pub met: u32,
}

// The limit of each row.
fn own_numbers(alloc: Global, instance: &Instance) -> Result<Vec<u64>, AllocError>
    ensures { IfOk result (λ numbers. numbers.items ≡ map number_of_row instance.now.rows) }
{
    instance
        .rows()
        .iter()
        .map(|row| limit_number(row.limit))
        .collect(alloc)
}

// The limit that a row has with one that is to be in force.
fn cut_number(instance: &Instance, limits: &[u64], h: u32) -> u64
    requires row { h < length instance.now.rows }
    requires limits { length limits.now ≡ length instance.now.rows }
    ensures { result ≡ cut_number instance.now limits.now h }
{
    let own = instance.row(h).limit;
    let capacity = instance.shape().capacity();
    let full = match own {
        None => capacity,
        Some(own) => capacity.min(own),
    };
    let limit = limits[h as usize];
    if limit < full {
        limit
    } else {
        limit_number(own)
    }
}

// The limit of each row with those that are to be in force.
fn cut_numbers(alloc: Global, instance: &Instance, limits: &[u64]) -> Result<Vec<u64>, AllocError>
    requires { length limits.now ≡ length instance.now.rows }
    ensures { IfOk result (λ numbers. numbers.items ≡ cut_numbers instance.now limits.now) }
{
    let count = instance.rows().len();
    let mut numbers = Vec::with_capacity(alloc, count)?;
    for h in 0..count {
        numbers.push(cut_number(instance, limits, h as u32))?;
    }
    Ok(numbers)
}

/// The greatest limits of rows away from all goals with which goals of a host and its rows can be
/// met.
///
/// Goals, rows that may change and measure are those of [`from_root_of`](crate::from_root_of).
/// `lowest` has the lowest limit in slices that each row may get.
///
/// # Errors
/// The refusals of [`Request::instance`].
pub fn other_limits_of(
    alloc: Global,
    request: &Request<'_>,
    goals: &[u64],
    may: &[u8],
    lowest: &[u64],
    measure: Measure,
) -> Result<OtherLimitColumns, Refusal>
    requires goals { request.now.fit ≡ true → length goals.now ≡ row_count request.now }
    requires may { request.now.fit ≡ true → length may.now ≡ row_count request.now }
    requires lowest { request.now.fit ≡ true → length lowest.now ≡ row_count request.now }
    ensures told { IfOk result (λ t. AreOtherLimitsTold measure (groups_for request.now)
        goals.now (flags_in may.now) lowest.now t.limits.items t.met) }
    ensures limits { IfOk result
        (λ t. length t.limits.items ≡ row_count request.now) }
    ensures reply { IsReplyTo request.now result }
{
    let instance = request.instance(alloc)?;
    let flags = flags_of(alloc, may)?;
    let limited = limit_others(alloc, &instance, goals, flags.as_slice(), lowest, measure)?;
    match limited {
        Limited::Met(limits) => Ok(OtherLimitColumns {
            limits: cut_numbers(alloc, &instance, limits.as_slice())?,
            met: 1,
        }),
        Limited::Unmet => Ok(OtherLimitColumns {
            limits: own_numbers(alloc, &instance)?,
            met: 0,
        }),
    }
}
