//! The check of amounts by their certificate.
ghost use Rattle.std.specs.Prelude.{◌≡◌, ◌≤◌, ◌+◌, ◌*◌, ◌↔◌, IfOk, OnOk, length};
ghost use Rattle.bw_model.specs.Certificate.{certified_of, IsAccepted};
ghost use Rattle.bw_model.specs.Groups.{IsInstance};
ghost use Rattle.bw_model.specs.Plan.{IsPlan};
ghost use Rattle.bw_check.specs.Verdict.{AreOnePerRow, IsVerdict};
ghost use Rattle.bw_check.specs.Visits.{AreVisits};
ghost use Rattle.bw_check.specs.declared.verdict.Verdict.TheVariants.{Accepted};

use crate::conditions::{OF_ROWS, are_one_per_row, first_group, has_one_of_each};
use crate::fault::CheckFault;
use crate::one_pass::are_certified;
use crate::tables::tables_of;
use crate::verdict::Verdict;
use bw_machine::Count;
use bw_model::{Certificate, HostShape, Instance, Row};
use std::alloc::{AllocError, Global};

/// Whether the certificate shows that the amounts, in slices, are the plan; else the first fault by
/// its number, then by its row.
///
/// Amounts, flags and levels may be any numbers. A visit of a row is counted for each turn of a
/// loop over the rows. There are at most 13 visits of each row, and two at least where the
/// certificate is accepted.
///
/// # Errors
/// `AllocError` if memory was refused.
pub fn check(
    alloc: Global,
    instance: &Instance,
    amounts: &[u64],
    certificate: &Certificate,
    visits: &mut Count,
) -> Result<Verdict, AllocError>
    ensures verdict { IfOk result
        (IsVerdict instance.now amounts.now (certified_of certificate.now)) }
    ensures exact { IfOk result (λ v. (v ≡ Accepted)
        ↔ IsAccepted instance.now amounts.now (certified_of certificate.now)) }
    ensures plan { IfOk result (λ v. v ≡ Accepted → IsPlan instance.now amounts.now) }
    ensures visits { AreVisits instance.now.rows 13 visits.old.steps visits.new.steps }
    ensures twice { IfOk result (λ v. v ≡ Accepted
        → visits.old.steps + 2 * length instance.now.rows ≤ visits.new.steps) }
{
    if !are_one_per_row(instance, amounts, certificate) {
        return Ok(Verdict::Refused {
            fault: CheckFault::WrongLength,
            group: 0,
        });
    }
    let (shape, rows) = (instance.shape(), instance.rows());
    let shown = are_certified(alloc, shape, rows, amounts, certificate, visits)?;
    if shown {
        return Ok(Verdict::Accepted);
    }
    first_fault(alloc, instance, amounts, certificate, visits)
}

// The verdict by one test of all rows for each fault.
fn first_fault(
    alloc: Global,
    instance: &Instance,
    amounts: &[u64],
    certificate: &Certificate,
    visits: &mut Count,
) -> Result<Verdict, AllocError>
    requires { AreOnePerRow instance.now.rows amounts.now (certified_of certificate.now) }
    ensures verdict { IfOk result
        (IsVerdict instance.now amounts.now (certified_of certificate.now)) }
    ensures exact { IfOk result (λ v. (v ≡ Accepted)
        ↔ IsAccepted instance.now amounts.now (certified_of certificate.now)) }
    ensures plan { IfOk result (λ v. v ≡ Accepted → IsPlan instance.now amounts.now) }
    ensures visits { AreVisits instance.now.rows 11 visits.old.steps visits.new.steps }
    ensures once { OnOk result (visits.old.steps + length instance.now.rows ≤ visits.new.steps) }
{
    // its contract says that the rows are those of an instance
    let _rows = instance.rows();
    let tables = tables_of(alloc, instance, amounts, certificate, visits)?;
    for fault in OF_ROWS {
        if let Some(group) = first_group(instance, amounts, certificate, &tables, fault, visits) {
            return Ok(Verdict::Refused { fault, group });
        }
    }
    Ok(Verdict::Accepted)
}

/// [`check`] of the rows of an instance. It makes the instance, with its lists of children, only if
/// one pass over the rows does not accept.
///
/// # Errors
/// `AllocError` if memory was refused.
pub fn check_rows(
    alloc: Global,
    shape: HostShape,
    rows: Vec<Row>,
    amounts: &[u64],
    certificate: &Certificate,
    visits: &mut Count,
) -> Result<Verdict, AllocError>
    requires valid { IsInstance (record { shape = shape; rows = rows.items }) }
    ensures verdict { IfOk result (IsVerdict (record { shape = shape; rows = rows.items })
        amounts.now (certified_of certificate.now)) }
    ensures exact { IfOk result (λ v. (v ≡ Accepted)
        ↔ IsAccepted (record { shape = shape; rows = rows.items }) amounts.now
        (certified_of certificate.now)) }
    ensures plan { IfOk result
        (λ v. v ≡ Accepted → IsPlan (record { shape = shape; rows = rows.items }) amounts.now) }
    ensures visits { AreVisits rows.items 13 visits.old.steps visits.new.steps }
{
    if !has_one_of_each(rows.as_slice(), amounts, certificate) {
        return Ok(Verdict::Refused {
            fault: CheckFault::WrongLength,
            group: 0,
        });
    }
    let shown = are_certified(alloc, shape, rows.as_slice(), amounts, certificate, visits)?;
    if shown {
        return Ok(Verdict::Accepted);
    }
    let instance = Instance::of_valid(alloc, rows, shape)?;
    first_fault(alloc, &instance, amounts, certificate, visits)
}
