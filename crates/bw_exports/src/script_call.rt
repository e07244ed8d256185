//! `arbiter_script`: a script is read, called from C.
ghost use Rattle.std.specs.Prelude.{◌≡◌, ◌==◌, ◌∷◌, ◌&&◌, [], length};
ghost use Rattle.bw_columns.specs.Asked.{are_of_length, asked_host};
ghost use Rattle.bw_columns.specs.Groups.{columns_with};
ghost use Rattle.bw_exports.specs.Script.{IsScriptAnswer, room_of};

use crate::fit::are_all;
use crate::told::told_by;
use bw_columns::{Refusal, write_front, write_groups};
use bw_model::HostShape;
use std::alloc::{AllocError, Global};

// Whether the columns of the groups are of one length, and those of the refused lines.
fn are_even(
    parents: &[u32],
    weights: &[u64],
    limits: &[u64],
    demands: &[u64],
    quotas: &[u64],
    periods: &[u64],
    bursts: &[u64],
    carries: &[u64],
    lines: &[u64],
    faults: &[u32],
) -> bool
    ensures { result ≡ (are_of_length (length parents.now) (weights.now ∷ limits.now ∷ demands.now
        ∷ quotas.now ∷ periods.now ∷ bursts.now ∷ carries.now ∷ [])
        && length lines.now == length faults.now) }
{
    let of_groups = [
        weights.len(),
        limits.len(),
        demands.len(),
        quotas.len(),
        periods.len(),
        bursts.len(),
        carries.len(),
    ];
    are_all(parents.len(), &of_groups) && lines.len() == faults.len()
}

/// Reads a script, as `arbiter run` does on a host: the groups after its last line by column, and
/// the refused lines.
///
/// The host is that of [`crate::plan_calls::arbiter_plan`]. `hash_key` is a number that whoever
/// writes the script cannot know: one who does can choose names that take long. No answer depends
/// on it. A line that only asks for an answer changes nothing. Each leaf uses the slices of its
/// periods: `period` leaves of the limit of each group what the plan does not give it.
///
/// The answer is 0 if all columns are written. Group g of `count` groups, in order of creation, is
/// entry g of `parents`, `weights`, `limits` and `demands`, as `arbiter_plan` takes them, with the
/// limits of the next period. Its quota and burst are in microseconds of each own period, and its
/// carry in slices. The greatest number means no parent, limit or quota. `names` has the last name
/// of each group, each with a newline behind it, in `names_count` bytes. Line `refused_lines[i]` of
/// the script, where the first line is 1, is refused by the number `refused_faults[i]`, for each of
/// `refused_count` lines. What stands behind the written entries is unchanged.
///
/// # Errors
/// The answer is 50 if the columns of the groups or of the refused lines differ in length, then 1
/// to 3 of the host, then 71 if memory was refused, or 50 if a column is too short. All that the
/// call may write is then unchanged.
#[unsafe(no_mangle)]
pub extern "C" fn arbiter_script(
    alloc: Global,
    processors: u64,
    period_us: u64,
    slice_us: u64,
    hash_key: u64,
    text: &[u8],
    parents: &mut [u32],
    weights: &mut [u64],
    limits: &mut [u64],
    demands: &mut [u64],
    quotas: &mut [u64],
    periods: &mut [u64],
    bursts: &mut [u64],
    carries: &mut [u64],
    names: &mut [u8],
    refused_lines: &mut [u64],
    refused_faults: &mut [u32],
    count: &mut u32,
    names_count: &mut u64,
    refused_count: &mut u64,
) -> u32
    ensures { IsScriptAnswer (asked_host processors period_us slice_us) text.now
        (room_of (columns_with parents.old weights.old limits.old demands.old quotas.old periods.old
        bursts.old carries.old names.old)
        refused_lines.old refused_faults.old count.old names_count.old refused_count.old)
        (room_of (columns_with parents.new weights.new limits.new demands.new quotas.new periods.new
        bursts.new carries.new names.new)
        refused_lines.new refused_faults.new count.new names_count.new refused_count.new)
        result }
{
    if !are_even(
        parents,
        weights,
        limits,
        demands,
        quotas,
        periods,
        bursts,
        carries,
        refused_lines,
        refused_faults,
    ) {
        return Refusal::WrongLength.number();
    }
    let shape = match HostShape::new(processors, period_us, slice_us) {
        Ok(shape) => shape,
        Err(fault) => return u32::from(fault.number()),
    };
    let told = match told_by(alloc, shape, hash_key, text) {
        Ok(told) => told,
        Err(_) => return Refusal::from(AllocError).number(),
    };
    if !told.fits(parents.len(), names.len(), refused_lines.len()) {
        return Refusal::WrongLength.number();
    }
    write_groups(
        &told.groups,
        parents,
        weights,
        limits,
        demands,
        quotas,
        periods,
        bursts,
        carries,
        names,
    );
    write_front(refused_lines, told.lines.as_slice());
    write_front(refused_faults, told.faults.as_slice());
    *count = told.groups.parents.len() as u32;
    *names_count = told.groups.names.len() as u64;
    *refused_count = told.lines.len() as u64;
    0
}
