//! Amounts and limits of a round for a scheduler, of a host and its rows.
ghost use Rattle.std.specs.Prelude.{◌≡◌, true, length, IfOk};
ghost use Rattle.bw_columns.specs.Requests.{IsReplyTo, groups_for, row_count};
ghost use Rattle.bw_columns.specs.Certificates.{flags_in};
ghost use Rattle.bw_columns.specs.Served.{IsServedColumns};

use crate::asked_instance::Request;
use crate::claim::flags_of;
use crate::held::limit_numbers;
use crate::refusal::Refusal;
use bw_questions::serve;
use std::alloc::Global;

/// Amounts and limits of a round for a scheduler, one entry in each column for each row.
#[derive(Drop)]
pub struct ServedColumns {
    /// Amounts in slices of one period.
    pub amounts: Vec<u64>,
    /// Limits in slices of one period, the greatest number for none.
    pub limits: Vec<u64>,
}

/// The amounts and limits of a host, its rows and their flags: 0 for a leaf that would not have
/// used more.
///
/// # Errors
/// The refusals of [`Request::instance`].
pub fn served_of(
    alloc: Global,
    request: &Request<'_>,
    hungry: &[u8],
) -> Result<ServedColumns, Refusal>
    requires { request.now.fit ≡ true → length hungry.now ≡ row_count request.now }
    ensures served { IfOk result (λ s. IsServedColumns (groups_for request.now)
        (flags_in hungry.now) s.amounts.items s.limits.items) }
    ensures amounts { IfOk result
        (λ s. length s.amounts.items ≡ row_count request.now) }
    ensures limits { IfOk result
        (λ s. length s.limits.items ≡ row_count request.now) }
    ensures reply { IsReplyTo request.now result }
{
    let instance = request.instance(alloc)?;
    let tested = flags_of(alloc, hungry)?;
    let served = serve(alloc, &instance, tested.as_slice())?;
    Ok(ServedColumns {
        limits: limit_numbers(alloc, served.limits.as_slice())?,
        amounts: served.amounts,
    })
}
