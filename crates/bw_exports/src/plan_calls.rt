//! The plan of a tree's rows, its certificate, figures and reasons, and the groups that limit it,
//! called from C.
ghost use Rattle.std.specs.Prelude.{◌≡◌, ◌<◌, length, ◌∷◌, []};
ghost use Rattle.bw_model.specs.Plan.{IsPlan};
ghost use Rattle.bw_columns.specs.Asked.{Answers, asked_host, asked_table, groups_in};
ghost use Rattle.bw_columns.specs.Asked.{asked_number_with, are_of_length, asked_number_where};
ghost use Rattle.bw_columns.specs.Certificates.{claimed_columns};
ghost use Rattle.bw_columns.specs.Certified.{IsCertifiedPlan};
ghost use Rattle.bw_columns.specs.Figured.{AreFigureColumns};
ghost use Rattle.bw_columns.specs.Reasoned.{AreReasonColumns};
ghost use Rattle.bw_exports.specs.Limited.{IsListed};

use crate::fit::are_all;
use bw_columns::{
    Columns, Host, Request, certified_plan_of, figures_of, limiting_of, plan_of, reasons_of,
    write_certificate, write_front,
};
use std::alloc::Global;

/// The plan of the rows of a tree, in slices of one period.
///
/// The host has 1 to 64 processors, and a period of 1,000 to 1,000,000 microseconds. Its slice is
/// at least 1,000 microseconds and divides the period. All columns and the amounts have one length.
///
/// Row g of the columns is a group: its parent's row, its weight of 1 to 10,000, its limit and its
/// demand in slices. The greatest number means no parent, or no limit.
///
/// The answer is 0 if the amounts are the plan. A refusal leaves the amounts unchanged.
///
/// # Errors
/// The answer is the number of the first refusal: 50 if lengths differ, 1 to 3 of the host, 4 to 10
/// of the rows, or 71 if memory was refused.
#[unsafe(no_mangle)]
pub extern "C" fn arbiter_plan(
    alloc: Global,
    processors: u64,
    period_us: u64,
    slice_us: u64,
    parents: &[u32],
    weights: &[u64],
    limits: &[u64],
    demands: &[u64],
    amounts: &mut [u64],
) -> u32
    ensures number { Answers
        (asked_number_with (length amounts.old) (asked_host processors period_us slice_us)
        (asked_table parents.now weights.now limits.now demands.now)) result }
    ensures plan { result ≡ 0
        → IsPlan (groups_in (asked_host processors period_us slice_us)
        (asked_table parents.now weights.now limits.now demands.now)) amounts.new }
    ensures kept { 0 < result → amounts.new ≡ amounts.old }
{
    let fit = amounts.len() == parents.len();
    let host = Host::new(processors, period_us, slice_us);
    let columns = Columns::new(parents, weights, limits, demands);
    match plan_of(alloc, &Request { fit, host, columns }) {
        Ok(plan) => {
            amounts.copy_from_slice(plan.amounts.as_slice());
            0
        }
        Err(refusal) => refusal.number(),
    }
}

/// The plan of the rows, as [`crate::plan_calls::arbiter_plan`] has them, with a certificate that
/// [`crate::check_call::arbiter_check`] accepts.
///
/// The answer is 0 if the amounts are the plan and the other columns its certificate. A flag is 1
/// if the group's own limit is below its want, else 0. The level `num / den` at `place` is the
/// greatest cost of a child's last slice. All three numbers are 0 if the group shares nothing out.
/// A refusal leaves each column unchanged.
///
/// # Errors
/// The numbers of `arbiter_plan`, with 50 also if a column does not have the rows' length.
#[unsafe(no_mangle)]
pub extern "C" fn arbiter_certify(
    alloc: Global,
    processors: u64,
    period_us: u64,
    slice_us: u64,
    parents: &[u32],
    weights: &[u64],
    limits: &[u64],
    demands: &[u64],
    amounts: &mut [u64],
    flags: &mut [u8],
    nums: &mut [u64],
    dens: &mut [u64],
    places: &mut [u32],
) -> u32
    ensures number { Answers (asked_number_where
        (are_of_length (length parents.now)
        (amounts.old ∷ flags.old ∷ nums.old ∷ dens.old ∷ places.old ∷ []))
        (asked_host processors period_us slice_us)
        (asked_table parents.now weights.now limits.now demands.now)) result }
    ensures plan { result ≡ 0 → IsCertifiedPlan
        (groups_in (asked_host processors period_us slice_us)
        (asked_table parents.now weights.now limits.now demands.now))
        amounts.new (claimed_columns flags.new nums.new dens.new places.new) }
    ensures amounts_kept { 0 < result → amounts.new ≡ amounts.old }
    ensures flags_kept { 0 < result → flags.new ≡ flags.old }
    ensures nums_kept { 0 < result → nums.new ≡ nums.old }
    ensures dens_kept { 0 < result → dens.new ≡ dens.old }
    ensures places_kept { 0 < result → places.new ≡ places.old }
{
    let fit = are_all(
        parents.len(),
        &[
            amounts.len(),
            flags.len(),
            nums.len(),
            dens.len(),
            places.len(),
        ],
    );
    let host = Host::new(processors, period_us, slice_us);
    let columns = Columns::new(parents, weights, limits, demands);
    match certified_plan_of(alloc, &Request { fit, host, columns }) {
        Ok(found) => {
            amounts.copy_from_slice(found.amounts.as_slice());
            write_certificate(&found.certificate, flags, nums, dens, places);
            0
        }
        Err(refusal) => refusal.number(),
    }
}

/// The figures of each group, of the rows that [`crate::plan_calls::arbiter_plan`] has.
///
/// If the answer is 0, each column has one entry for each row, in slices of one period where it is
/// no number of groups and no weight:
///
/// - `wants`: what the group would take without its own limit: its demand if it has no children,
///   otherwise the sum of what they can be given.
/// - `mosts`: what it can be given at most: its want cut at its own limit, of the root at the
///   capacity.
/// - `tights`: 1 if its own limit is below its want, of the root the capacity, otherwise 0.
/// - `actives`: the number of its children that can be given a slice.
/// - `active_weights`: the weights of these children, added up.
/// - `withheld`: what its own limit withholds of its want, as `throttled_usec` counts it. 0 for the
///   root.
///
/// A refusal leaves each column unchanged.
///
/// # Errors
/// The numbers of `arbiter_plan`, with 50 also if a column does not have the rows' length.
#[unsafe(no_mangle)]
pub extern "C" fn arbiter_figures(
    alloc: Global,
    processors: u64,
    period_us: u64,
    slice_us: u64,
    parents: &[u32],
    weights: &[u64],
    limits: &[u64],
    demands: &[u64],
    wants: &mut [u64],
    mosts: &mut [u64],
    tights: &mut [u8],
    actives: &mut [u32],
    active_weights: &mut [u64],
    withheld: &mut [u64],
) -> u32
    ensures number { Answers (asked_number_where
        (are_of_length (length parents.now) (wants.old ∷ mosts.old ∷ tights.old ∷ actives.old
        ∷ active_weights.old ∷ withheld.old ∷ []))
        (asked_host processors period_us slice_us)
        (asked_table parents.now weights.now limits.now demands.now)) result }
    ensures figures { result ≡ 0 → AreFigureColumns
        (groups_in (asked_host processors period_us slice_us)
        (asked_table parents.now weights.now limits.now demands.now))
        wants.new mosts.new tights.new actives.new active_weights.new withheld.new }
    ensures wants_kept { 0 < result → wants.new ≡ wants.old }
    ensures mosts_kept { 0 < result → mosts.new ≡ mosts.old }
    ensures tights_kept { 0 < result → tights.new ≡ tights.old }
    ensures actives_kept { 0 < result → actives.new ≡ actives.old }
    ensures active_weights_kept { 0 < result → active_weights.new ≡ active_weights.old }
    ensures withheld_kept { 0 < result → withheld.new ≡ withheld.old }
{
    let fit = are_all(
        parents.len(),
        &[
            wants.len(),
            mosts.len(),
            tights.len(),
            actives.len(),
            active_weights.len(),
            withheld.len(),
        ],
    );
    let host = Host::new(processors, period_us, slice_us);
    let columns = Columns::new(parents, weights, limits, demands);
    match figures_of(alloc, &Request { fit, host, columns }) {
        Ok(found) => {
            wants.copy_from_slice(found.wants.as_slice());
            mosts.copy_from_slice(found.mosts.as_slice());
            tights.copy_from_slice(found.tights.as_slice());
            actives.copy_from_slice(found.figures.active.as_slice());
            active_weights.copy_from_slice(found.figures.active_weight.as_slice());
            withheld.copy_from_slice(found.figures.withheld.as_slice());
            0
        }
        Err(refusal) => refusal.number(),
    }
}

/// Why each group gets what it gets, of the rows that [`crate::plan_calls::arbiter_plan`] has.
///
/// If the answer is 0, each row has the number of its reason, and the row that the reason blames:
///
/// - 0: the group wants nothing.
/// - 1: it gets all that it wants.
/// - 2: it gets its own limit.
/// - 3: the group in `blamed`, above it, gets its limit, and no group between the two does.
/// - 4: the host gives out its capacity, and no group from this one up gets its limit.
///
/// Of any reason but 3 `blamed` has the group's own row. A refusal leaves both unchanged.
///
/// # Errors
/// The numbers of `arbiter_plan`, with 50 also if a column does not have the rows' length.
#[unsafe(no_mangle)]
pub extern "C" fn arbiter_reasons(
    alloc: Global,
    processors: u64,
    period_us: u64,
    slice_us: u64,
    parents: &[u32],
    weights: &[u64],
    limits: &[u64],
    demands: &[u64],
    reasons: &mut [u8],
    blamed: &mut [u32],
) -> u32
    ensures number { Answers (asked_number_where
        (are_of_length (length parents.now) (reasons.old ∷ blamed.old ∷ []))
        (asked_host processors period_us slice_us)
        (asked_table parents.now weights.now limits.now demands.now)) result }
    ensures reasons { result ≡ 0 → AreReasonColumns
        (groups_in (asked_host processors period_us slice_us)
        (asked_table parents.now weights.now limits.now demands.now)) reasons.new blamed.new }
    ensures reasons_kept { 0 < result → reasons.new ≡ reasons.old }
    ensures blamed_kept { 0 < result → blamed.new ≡ blamed.old }
{
    let fit = are_all(parents.len(), &[reasons.len(), blamed.len()]);
    let host = Host::new(processors, period_us, slice_us);
    let columns = Columns::new(parents, weights, limits, demands);
    match reasons_of(alloc, &Request { fit, host, columns }) {
        Ok(found) => {
            reasons.copy_from_slice(found.numbers.as_slice());
            blamed.copy_from_slice(found.blamed.as_slice());
            0
        }
        Err(refusal) => refusal.number(),
    }
}

/// The limiting groups of the rows, as [`crate::plan_calls::arbiter_plan`] has them.
///
/// Their limits and the demands outside them add up to the greatest total.
///
/// If the answer is 0, the first `count` of `groups` are the rows of these groups in order, and the
/// others are unchanged. `rest` is the sum of the demands of the leaves under none of them, in
/// slices of one period. A refusal leaves all three unchanged.
///
/// # Errors
/// The numbers of `arbiter_plan`, with 50 also if `groups` does not have the rows' length.
#[unsafe(no_mangle)]
pub extern "C" fn arbiter_limiting(
    alloc: Global,
    processors: u64,
    period_us: u64,
    slice_us: u64,
    parents: &[u32],
    weights: &[u64],
    limits: &[u64],
    demands: &[u64],
    groups: &mut [u32],
    count: &mut u32,
    rest: &mut u64,
) -> u32
    ensures number { Answers
        (asked_number_with (length groups.old) (asked_host processors period_us slice_us)
        (asked_table parents.now weights.now limits.now demands.now)) result }
    ensures limiting { result ≡ 0 → IsListed
        (groups_in (asked_host processors period_us slice_us)
        (asked_table parents.now weights.now limits.now demands.now))
        groups.old groups.new count.new rest.new }
    ensures groups_kept { 0 < result → groups.new ≡ groups.old }
    ensures count_kept { 0 < result → count.new ≡ count.old }
    ensures rest_kept { 0 < result → rest.new ≡ rest.old }
{
    let fit = groups.len() == parents.len();
    let host = Host::new(processors, period_us, slice_us);
    let columns = Columns::new(parents, weights, limits, demands);
    match limiting_of(alloc, &Request { fit, host, columns }) {
        Ok(found) => {
            write_front(groups, found.groups.as_slice());
            *count = found.groups.len() as u32;
            *rest = found.rest;
            0
        }
        Err(refusal) => refusal.number(),
    }
}
