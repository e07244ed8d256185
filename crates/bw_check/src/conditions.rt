//! One test for each fault, and the search for the first group that has it.
ghost use Rattle.std.specs.Prelude.{◌≡◌, ◌<◌, ◌≤◌, ◌↔◌, IsTrue, length};
ghost use Rattle.bw_model.specs.Certificate.{certified_of};
ghost use Rattle.bw_model.specs.Groups.{IsInstance, is_leaf, sum_of_children};
ghost use Rattle.bw_check.specs.declared.fault.CheckFault.TheVariants.{LastMarkAbove};
ghost use Rattle.bw_check.specs.Faults.{check_fault_number};
ghost use Rattle.bw_check.specs.Levels.{AreSmall, IsFirst};
ghost use Rattle.bw_check.specs.Tables.{AreTables};
ghost use Rattle.bw_check.specs.Verdict.{AreOnePerRow, IsWithinLimit, IsWithinDemand};
ghost use Rattle.bw_check.specs.Verdict.{IsChildrenSum, IsFlagLimited, HasLevel, IsFree};
ghost use Rattle.bw_check.specs.Visits.{AreVisits};
ghost use Rattle.bw_check.specs.declared.fault.CheckFault.{CheckFault};

use crate::fault::CheckFault;
use crate::marks::{is_last_mark_kept, is_next_mark_kept};
use crate::readers::{demand, limit};
use crate::tables::Tables;
use bw_machine::Count;
use bw_model::{Certificate, HostShape, Instance, Row};

/// The faults of single groups, in order.
pub const OF_ROWS: [CheckFault; 8] = [
    CheckFault::OverLimit,
    CheckFault::OverDemand,
    CheckFault::SumDiffers,
    CheckFault::FlagWithoutLimit,
    CheckFault::NotGreatest,
    CheckFault::LevelMissing,
    CheckFault::LastMarkAbove,
    CheckFault::NextMarkNotAbove,
];

/// Whether there is one amount, one flag and one level for each row.
pub fn are_one_per_row(instance: &Instance, amounts: &[u64], certificate: &Certificate) -> bool
    ensures each { IsTrue result
        ↔ AreOnePerRow instance.now.rows amounts.now (certified_of certificate.now) }
    ensures valid { IsInstance instance.now }
{
    has_one_of_each(instance.rows(), amounts, certificate)
}

/// Whether there is one amount, one flag and one level for each row.
pub(crate) fn has_one_of_each(rows: &[Row], amounts: &[u64], certificate: &Certificate) -> bool
    ensures { IsTrue result ↔ AreOnePerRow rows.now amounts.now (certified_of certificate.now) }
{
    let count = rows.len();
    amounts.len() == count && certificate.tight.len() == count && certificate.levels.len() == count
}

/// Whether the amount of a group is at most its limit.
pub(crate) fn is_within_limit(shape: HostShape, rows: &[Row], amounts: &[u64], g: u32) -> bool
    requires one_each { length amounts.now ≡ length rows.now }
    requires within { g < length rows.now }
    ensures { IsTrue result
        ↔ IsWithinLimit (record { shape = shape; rows = rows.now }) amounts.now g }
{
    match limit(shape, rows, g) {
        None => true,
        Some(limit) => amounts[g as usize] <= limit,
    }
}

/// Whether the amount of a leaf is at most its demand.
pub(crate) fn is_within_demand(rows: &[Row], amounts: &[u64], leaf: bool, g: u32) -> bool
    requires one_each { length amounts.now ≡ length rows.now }
    requires leaf { leaf ≡ is_leaf rows.now g }
    requires within { g < length rows.now }
    ensures { IsTrue result ↔ IsWithinDemand rows.now amounts.now g }
{
    !leaf || amounts[g as usize] <= demand(rows, g)
}

/// Whether the amount of an inner group is the sum of its children's.
pub(crate) fn is_children_sum(rows: &[Row], amounts: &[u64], leaf: bool, sum: u128, g: u32) -> bool
    requires one_each { length amounts.now ≡ length rows.now }
    requires leaf { leaf ≡ is_leaf rows.now g }
    requires sum { sum ≡ sum_of_children rows.now amounts.now g }
    requires within { g < length rows.now }
    ensures { IsTrue result ↔ IsChildrenSum rows.now amounts.now g }
{
    let _rows = rows;
    leaf || u128::from(amounts[g as usize]) == sum
}

/// Whether a group has a limit, or no flag.
pub(crate) fn is_flag_limited(
    shape: HostShape,
    rows: &[Row],
    certificate: &Certificate,
    g: u32,
) -> bool
    requires flags_each { length certificate.now.tight.items ≡ length rows.now }
    requires within { g < length rows.now }
    ensures { IsTrue result ↔ IsFlagLimited (record { shape = shape; rows = rows.now })
        (certified_of certificate.now) g }
{
    !certificate.tight[g as usize] || limit(shape, rows, g).is_some()
}

/// Whether a group has a level, or shares nothing out.
pub(crate) fn has_level(
    rows: &[Row],
    amounts: &[u64],
    certificate: &Certificate,
    leaf: bool,
    g: u32,
) -> bool
    requires one_per_row { AreOnePerRow rows.now amounts.now (certified_of certificate.now) }
    requires leaf { leaf ≡ is_leaf rows.now g }
    requires within { g < length rows.now }
    ensures { IsTrue result ↔ HasLevel rows.now amounts.now (certified_of certificate.now) g }
{
    let _rows = rows;
    leaf || amounts[g as usize] == 0 || certificate.levels[g as usize].is_some()
}

// Whether a group is free of a fault. Marks are read only if the amounts are small.
fn is_free(
    instance: &Instance,
    amounts: &[u64],
    certificate: &Certificate,
    tables: &Tables,
    fault: CheckFault,
    g: u32,
) -> bool
    requires tables { AreTables instance.now amounts.now (certified_of certificate.now) tables.now }
    requires small { check_fault_number LastMarkAbove ≤ check_fault_number fault
        → AreSmall amounts.now }
    requires within { g < length instance.now.rows }
    ensures { IsTrue result ↔ IsFree instance.now amounts.now (certified_of certificate.now)
        tables.now.bounds.items fault g }
{
    let (shape, rows, leaf) = (instance.shape(), instance.rows(), instance.is_leaf(g));
    match fault {
        CheckFault::WrongLength => are_one_per_row(instance, amounts, certificate),
        CheckFault::OverLimit => is_within_limit(shape, rows, amounts, g),
        CheckFault::OverDemand => is_within_demand(rows, amounts, leaf, g),
        CheckFault::SumDiffers => {
            is_children_sum(rows, amounts, leaf, tables.sums[g as usize], g)
        }
        CheckFault::FlagWithoutLimit => is_flag_limited(shape, rows, certificate, g),
        CheckFault::NotGreatest => u128::from(amounts[0]) == tables.bounds[0],
        CheckFault::LevelMissing => has_level(rows, amounts, certificate, leaf, g),
        CheckFault::LastMarkAbove => {
            is_last_mark_kept(rows, amounts, certificate, &tables.siblings.places, g)
        }
        CheckFault::NextMarkNotAbove => {
            let bound = tables.bounds[g as usize];
            is_next_mark_kept(
                rows,
                amounts,
                certificate,
                &tables.siblings.places,
                bound,
                g,
            )
        }
    }
}

/// The first row of a group that has a fault.
pub fn first_group(
    instance: &Instance,
    amounts: &[u64],
    certificate: &Certificate,
    tables: &Tables,
    fault: CheckFault,
    visits: &mut Count,
) -> Option<u32>
    requires tables { AreTables instance.now amounts.now (certified_of certificate.now) tables.now }
    requires small { check_fault_number LastMarkAbove ≤ check_fault_number fault
        → AreSmall amounts.now }
    ensures first { IsFirst (IsFree instance.now amounts.now (certified_of certificate.now)
        tables.now.bounds.items fault) (length instance.now.rows) result }
    ensures visits { AreVisits instance.now.rows 1 visits.old.steps visits.new.steps }
{
    for g in 0..instance.group_count() {
        *visits = visits.one_more();
        if !is_free(instance, amounts, certificate, tables, fault, g) {
            return Some(g);
        }
    }
    None
}
