//! The verdict on amounts by a claimed certificate, and on a certified text.
ghost use Rattle.std.specs.Prelude.{◌≡◌, IfOk, IfErr, OnOk};
ghost use Rattle.bw_model.specs.Plan.{IsPlan};
ghost use Rattle.bw_check.specs.declared.verdict.Verdict.TheVariants.{Accepted};
ghost use Rattle.bw_cert.specs.Reading.{Fails, certified_of};
ghost use Rattle.bw_cert.specs.Spelling.{text_lines, HoldsPlan};
ghost use Rattle.bw_columns.specs.Asked.{groups_asked, Answers};
ghost use Rattle.bw_columns.specs.Certificates.{claimed_of};
ghost use Rattle.bw_columns.specs.Numbers.{number_of_refusal};
ghost use Rattle.bw_columns.specs.Checked.{claim_refusal_of, IsVerdictOnClaim, IsVerdictIn};

use crate::asked_instance::{Host, instance_of};
use crate::claim::Claim;
use crate::columns::Columns;
use crate::refusal::Refusal;
use bw_cert::{CertFault, read_certified};
use bw_check::{Verdict, check};
use bw_machine::Count;
use std::alloc::Global;

/// The verdict on amounts by a claimed certificate.
///
/// # Errors
/// `WrongLength` if the columns of the claimed levels differ in length, then the refusals of
/// [`instance_of`].
pub fn verdict_of(
    alloc: Global,
    host: Host,
    columns: &Columns<'_>,
    amounts: &[u64],
    claim: &Claim<'_>,
) -> Result<Verdict, Refusal>
    ensures verdict { IfOk result (IsVerdictOnClaim (groups_asked host columns.now)
        amounts.now (claimed_of claim.now)) }
    ensures plan { IfOk result
        (λ v. v ≡ Accepted → IsPlan (groups_asked host columns.now) amounts.now) }
    ensures none { OnOk result (claim_refusal_of host columns.now claim.now ≡ 0) }
    ensures err { IfErr result
        (λ e. Answers (claim_refusal_of host columns.now claim.now) (number_of_refusal e)) }
{
    if !claim.is_even() {
        return Err(Refusal::WrongLength);
    }
    let instance = instance_of(alloc, host, columns)?;
    let certificate = claim.certificate(alloc)?;
    Ok(check(alloc, &instance, amounts, &certificate, &mut Count::none())?)
}

/// The verdict on a certified text.
///
/// # Errors
/// The fault of the text if it is none, or `OutOfMemory`.
pub fn verdict_in(alloc: Global, text: &[u8]) -> Result<Verdict, CertFault>
    ensures verdict { IfOk result (IsVerdictIn (certified_of (text_lines text.now))) }
    ensures plan { IfOk result (λ v. v ≡ Accepted → HoldsPlan text.now) }
    ensures err { IfErr result (λ e. Fails e (certified_of (text_lines text.now))) }
{
    let certified = read_certified(alloc, text)?;
    Ok(check(
        alloc,
        &certified.instance,
        certified.amounts.as_slice(),
        &certified.certificate,
        &mut Count::none(),
    )?)
}
