//! The limits of a round of a host and its rows.
ghost use Rattle.std.specs.Prelude.{◌≡◌, true, length, map, IfOk};
ghost use Rattle.bw_columns.specs.Held.{IsHeldRound, AreHeldLong};
ghost use Rattle.bw_columns.specs.Requests.{IsReplyTo, groups_for, row_count};
ghost use Rattle.bw_columns.specs.Asked.{limit_number};
ghost use Rattle.bw_columns.specs.Certificates.{columns_in, flags_in};

use crate::asked_instance::Request;
use crate::certificate::{CertificateColumns, certificate_columns};
use crate::claim::flags_of;
use crate::columns::limit_number;
use crate::refusal::Refusal;
use bw_questions::hold;
use std::alloc::{AllocError, Global};

/// The limits of a round, with its demands and its certified plan, one entry in each column for
/// each row.
#[derive(Drop)]
pub struct HeldColumns {
    /// Limits in slices of one period, the greatest number for none.
    pub limits: Vec<u64>,
    /// Demands in slices of one period: 0 to 1,000,000.
    pub demands: Vec<u64>,
    /// The plan of the demands, in slices of one period.
    pub amounts: Vec<u64>,
    /// The certificate of the amounts.
    pub certificate: CertificateColumns,
}

/// Each limit as a number, the greatest for none.
///
/// # Errors
/// `AllocError` if memory was refused.
pub(crate) fn limit_numbers(alloc: Global, limits: &[Option<u64>]) -> Result<Vec<u64>, AllocError>
    ensures { IfOk result (λ numbers. numbers.items ≡ map limit_number limits.now) }
{
    limits
        .iter()
        .map(|limit| limit_number(*limit))
        .collect(alloc)
}

/// The round of a host, its rows and their flags: 0 for a leaf that would not have used more.
///
/// # Errors
/// The refusals of [`Request::instance`].
pub fn held_of(alloc: Global, request: &Request<'_>, hungry: &[u8]) -> Result<HeldColumns, Refusal>
    requires { request.now.fit ≡ true → length hungry.now ≡ row_count request.now }
    ensures held { IfOk result (λ h. IsHeldRound (groups_for request.now)
        (flags_in hungry.now) h.limits.items h.demands.items h.amounts.items
        (columns_in h.certificate)) }
    ensures long { IfOk result (λ h. AreHeldLong h (row_count request.now)) }
    ensures reply { IsReplyTo request.now result }
{
    let instance = request.instance(alloc)?;
    let tested = flags_of(alloc, hungry)?;
    let held = hold(alloc, &instance, tested.as_slice())?;
    Ok(HeldColumns {
        limits: limit_numbers(alloc, held.limits.as_slice())?,
        certificate: certificate_columns(alloc, &held.certificate)?,
        demands: held.demands,
        amounts: held.amounts,
    })
}
