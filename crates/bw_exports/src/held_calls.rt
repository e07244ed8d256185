//! The next round of a loop that sets limits, and of a scheduler, called from C.
ghost use Rattle.std.specs.Prelude.{◌≡◌, ◌<◌, ◌∷◌, [], length};
ghost use Rattle.bw_columns.specs.Asked.{Answers, are_of_length, asked_host, asked_table};
ghost use Rattle.bw_columns.specs.Asked.{groups_in, asked_number_where};
ghost use Rattle.bw_columns.specs.Certificates.{claimed_columns, flags_in};
ghost use Rattle.bw_columns.specs.Held.{IsHeldRound};
ghost use Rattle.bw_columns.specs.Served.{IsServedColumns};

use crate::fit::are_all;
use bw_columns::{Columns, Host, Request, held_of, served_of, write_certificate};
use std::alloc::Global;

/// The limits of the next round, from what each leaf used in the last one.
///
/// The rows are those of [`crate::plan_calls::arbiter_plan`], with the slices that each leaf used,
/// rounded up, in the place of its demand. `hungry` is not 0 if the leaf would have used more.
///
/// The answer is 0 if the columns are written. `demands` are those of the round: 1,000,000 at a
/// hungry leaf, else what it used. `amounts` is their plan, and `held` each leaf's limit for the
/// next round, in slices. If the plan gives each leaf its demand or its own limit, that is its own
/// limit, the greatest number for none, as in any round of another group. The other columns are the
/// certificate, as [`crate::plan_calls::arbiter_certify`] has them. A refusal leaves each column
/// unchanged.
///
/// # Errors
/// The numbers of `arbiter_plan`, with 50 also if a column does not have the rows' length.
#[unsafe(no_mangle)]
pub extern "C" fn arbiter_hold(
    alloc: Global,
    processors: u64,
    period_us: u64,
    slice_us: u64,
    parents: &[u32],
    weights: &[u64],
    limits: &[u64],
    used: &[u64],
    hungry: &[u8],
    held: &mut [u64],
    demands: &mut [u64],
    amounts: &mut [u64],
    flags: &mut [u8],
    nums: &mut [u64],
    dens: &mut [u64],
    places: &mut [u32],
) -> u32
    ensures number { Answers (asked_number_where
        (are_of_length (length parents.now) (hungry.now ∷ held.old ∷ demands.old ∷ amounts.old
        ∷ flags.old ∷ nums.old ∷ dens.old ∷ places.old ∷ []))
        (asked_host processors period_us slice_us)
        (asked_table parents.now weights.now limits.now used.now)) result }
    ensures round { result ≡ 0 → IsHeldRound
        (groups_in (asked_host processors period_us slice_us)
        (asked_table parents.now weights.now limits.now used.now))
        (flags_in hungry.now) held.new demands.new amounts.new
        (claimed_columns flags.new nums.new dens.new places.new) }
    ensures held_kept { 0 < result → held.new ≡ held.old }
    ensures demands_kept { 0 < result → demands.new ≡ demands.old }
    ensures amounts_kept { 0 < result → amounts.new ≡ amounts.old }
    ensures flags_kept { 0 < result → flags.new ≡ flags.old }
    ensures nums_kept { 0 < result → nums.new ≡ nums.old }
    ensures dens_kept { 0 < result → dens.new ≡ dens.old }
    ensures places_kept { 0 < result → places.new ≡ places.old }
{
    let fit = are_all(
        parents.len(),
        &[
            hungry.len(),
            held.len(),
            demands.len(),
            amounts.len(),
            flags.len(),
            nums.len(),
            dens.len(),
            places.len(),
        ],
    );
    let host = Host::new(processors, period_us, slice_us);
    let columns = Columns::new(parents, weights, limits, used);
    match held_of(alloc, &Request { fit, host, columns }, hungry) {
        Ok(round) => {
            held.copy_from_slice(round.limits.as_slice());
            demands.copy_from_slice(round.demands.as_slice());
            amounts.copy_from_slice(round.amounts.as_slice());
            write_certificate(&round.certificate, flags, nums, dens, places);
            0
        }
        Err(refusal) => refusal.number(),
    }
}

/// Amounts and limits of the next round for a scheduler, from what each leaf used in the last one.
///
/// The rows and `hungry` are those of [`crate::held_calls::arbiter_hold`]. The answer is 0 if the
/// columns are written. `amounts` are the plan of the round. A row that is planned less than its
/// floor, which it gets if each leaf asks for everything, has as much beside the plans of the
/// others as its floor is beside theirs. So they may be above the capacity together. `most` has
/// limits, the greatest number for none: of a leaf, its least part of the limits at or above it,
/// and of another group its own. All are in slices. A refusal leaves each column unchanged.
///
/// # Errors
/// The numbers of `arbiter_plan`, with 50 also if a column does not have the rows' length.
#[unsafe(no_mangle)]
pub extern "C" fn arbiter_serve(
    alloc: Global,
    processors: u64,
    period_us: u64,
    slice_us: u64,
    parents: &[u32],
    weights: &[u64],
    limits: &[u64],
    used: &[u64],
    hungry: &[u8],
    amounts: &mut [u64],
    most: &mut [u64],
) -> u32
    ensures number { Answers (asked_number_where
        (are_of_length (length parents.now) (hungry.now ∷ amounts.old ∷ most.old ∷ []))
        (asked_host processors period_us slice_us)
        (asked_table parents.now weights.now limits.now used.now)) result }
    ensures round { result ≡ 0 → IsServedColumns
        (groups_in (asked_host processors period_us slice_us)
        (asked_table parents.now weights.now limits.now used.now))
        (flags_in hungry.now) amounts.new most.new }
    ensures amounts_kept { 0 < result → amounts.new ≡ amounts.old }
    ensures most_kept { 0 < result → most.new ≡ most.old }
{
    let fit = are_all(parents.len(), &[hungry.len(), amounts.len(), most.len()]);
    let host = Host::new(processors, period_us, slice_us);
    let columns = Columns::new(parents, weights, limits, used);
    match served_of(alloc, &Request { fit, host, columns }, hungry) {
        Ok(round) => {
            amounts.copy_from_slice(round.amounts.as_slice());
            most.copy_from_slice(round.limits.as_slice());
            0
        }
        Err(refusal) => refusal.number(),
    }
}
