//! The plan of a host and its rows, with a certificate.
ghost use Rattle.std.specs.Prelude.{◌≡◌, length, IfOk};
ghost use Rattle.bw_columns.specs.Certified.{IsCertifiedPlan};
ghost use Rattle.bw_columns.specs.Requests.{IsReplyTo, groups_for, row_count};
ghost use Rattle.bw_columns.specs.Certificates.{columns_in, AreClaimedLong};

use crate::asked_instance::Request;
use crate::certificate::{CertificateColumns, certificate_columns};
use crate::refusal::Refusal;
use bw_cert::certify_gathered;
use bw_demand::gather_rows;
use bw_plan::plan_rows;
use std::alloc::Global;

/// A plan with its certificate, one entry in each column for each row.
#[derive(Drop)]
pub struct CertifiedColumns {
    /// The plan, in slices of one period.
    pub amounts: Vec<u64>,
    /// The certificate of the amounts.
    pub certificate: CertificateColumns,
}

/// The plan of a host and its rows, with its certificate.
///
/// # Errors
/// The refusals of [`Request::instance`].
pub fn certified_plan_of(alloc: Global, request: &Request<'_>) -> Result<CertifiedColumns, Refusal>
    ensures held { IfOk result (λ f. IsCertifiedPlan (groups_for request.now)
        f.amounts.items (columns_in f.certificate)) }
    ensures long { IfOk result (λ f. length f.amounts.items ≡ row_count request.now) }
    ensures certificate_long { IfOk result
        (λ f. AreClaimedLong (columns_in f.certificate) (row_count request.now)) }
    ensures reply { IsReplyTo request.now result }
{
    let instance = request.instance(alloc)?;
    let gathered = gather_rows(alloc, &instance)?;
    let plan = plan_rows(alloc, &instance, &gathered)?;
    let certificate = certify_gathered(alloc, &instance, gathered, &plan)?;
    Ok(CertifiedColumns {
        certificate: certificate_columns(alloc, &certificate)?,
        amounts: plan.amounts,
    })
}
