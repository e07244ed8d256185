//! `arbiter_check`: the checker, called from C.
ghost use Rattle.std.specs.Prelude.{◌≡◌};
ghost use Rattle.bw_model.specs.Plan.{IsPlan};
ghost use Rattle.bw_columns.specs.Asked.{asked_host, asked_table, groups_in};
ghost use Rattle.bw_columns.specs.Certificates.{claimed_number, claimed_columns};
ghost use Rattle.bw_exports.specs.Checked.{IsOutcome};

use bw_check::Verdict;
use bw_columns::{Claim, Columns, Host, verdict_of};
use std::alloc::Global;

/// Whether the flags and levels show that the amounts are the plan of the rows, as
/// [`crate::plan_calls::arbiter_plan`] has them.
///
/// A flag that is not 0 says that the group's own limit bounds its amount. The level of a group is
/// `num / den` at `place`, and none if `num` or `den` is 0. Amounts, flags and levels may be any
/// numbers.
///
/// The answer is 0 if they do, and then the amounts are the plan. If it is 50 to 58, the number of
/// a fault of the amounts and their certificate, `row` is the row of the group that has the fault.
/// `row` is unchanged if the answer is 0 or a refusal.
///
/// # Errors
/// The numbers of `arbiter_plan`, with 50 also if the columns of the levels differ in length.
#[unsafe(no_mangle)]
pub extern "C" fn arbiter_check(
    alloc: Global,
    processors: u64,
    period_us: u64,
    slice_us: u64,
    parents: &[u32],
    weights: &[u64],
    limits: &[u64],
    demands: &[u64],
    amounts: &[u64],
    flags: &[u8],
    nums: &[u64],
    dens: &[u64],
    places: &[u32],
    row: &mut u32,
) -> u32
    ensures outcome { IsOutcome
        (claimed_number (asked_host processors period_us slice_us)
        (asked_table parents.now weights.now limits.now demands.now)
        (claimed_columns flags.now nums.now dens.now places.now))
        (groups_in (asked_host processors period_us slice_us)
        (asked_table parents.now weights.now limits.now demands.now))
        amounts.now (claimed_columns flags.now nums.now dens.now places.now)
        row.old row.new result }
    ensures plan { result ≡ 0 → IsPlan
        (groups_in (asked_host processors period_us slice_us)
        (asked_table parents.now weights.now limits.now demands.now))
        amounts.now }
{
    let host = Host::new(processors, period_us, slice_us);
    let columns = Columns::new(parents, weights, limits, demands);
    let claim = Claim {
        flags,
        nums,
        dens,
        places,
    };
    match verdict_of(alloc, host, &columns, amounts, &claim) {
        Ok(Verdict::Accepted) => 0,
        Ok(Verdict::Refused { fault, group }) => {
            *row = group;
            u32::from(fault.number())
        }
        Err(refusal) => refusal.number(),
    }
}
