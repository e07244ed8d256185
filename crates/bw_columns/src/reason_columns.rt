//! Reasons as columns of numbers.
ghost use Rattle.std.specs.Prelude.{◌≡◌, ◌≤◌, length, map, IfOk};
ghost use Rattle.bw_columns.specs.Reasoned.{reason_number, blamed_row, blamed_rows};

use bw_model::limits::MAX_GROUPS;
use bw_questions::Reason;
use std::alloc::{AllocError, Global};

fn reason_number(reason: Reason) -> u8
    ensures { result ≡ reason_number reason }
{
    match reason {
        Reason::NothingAsked => 0,
        Reason::AllWanted => 1,
        Reason::OwnLimit => 2,
        Reason::LimitAbove(_) => 3,
        Reason::HostFull => 4,
    }
}

fn blamed_row(g: u32, reason: Reason) -> u32
    ensures { result ≡ blamed_row g reason }
{
    match reason {
        Reason::LimitAbove(above) => above,
        Reason::NothingAsked | Reason::AllWanted | Reason::OwnLimit | Reason::HostFull => g,
    }
}

/// The number of each reason, 0 to 4.
pub(crate) fn reason_numbers(alloc: Global, reasons: &[Reason]) -> Result<Vec<u8>, AllocError>
    ensures { IfOk result (λ numbers. numbers.items ≡ map reason_number reasons.now) }
{
    reasons
        .iter()
        .map(|reason| reason_number(*reason))
        .collect(alloc)
}

/// The row that each reason blames.
pub(crate) fn blamed_rows(alloc: Global, reasons: &[Reason]) -> Result<Vec<u32>, AllocError>
    requires { length reasons.now ≤ MAX_GROUPS }
    ensures { IfOk result (λ rows. rows.items ≡ blamed_rows reasons.now) }
{
    let mut rows = Vec::with_capacity(alloc, reasons.len())?;
    for g in 0..reasons.len() {
        rows.push(blamed_row(g as u32, reasons[g]))?;
    }
    Ok(rows)
}
