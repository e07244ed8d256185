//! `arbiter_rest`: what the rest of a host is given beside a plan, called from C.
ghost use Rattle.std.specs.Prelude.{◌≡◌, ◌<◌};
ghost use Rattle.bw_exports.specs.Held.{IsRestTold, IsRestRefused};

use bw_check::CheckFault;
use bw_model::InstanceFault;
use bw_owned::{MOST_TOLD, rest_share};

/// Slices that the rest of a host is given beside a plan, by weights up the tree.
///
/// The plan is of so many slices, of which `planned` are planned. `own` has the weight of the
/// planned groups' top, then of each group above it but the root; 0 is an idle group, and counts as
/// 1. `others` has the weights of the groups beside each. Tasks of the root are one group more
/// beside the last ones, of weight 100. At each level others have their part by weights beside what
/// the group has, rounded up, at most 10^9 slices together.
///
/// The answer is 0 if both numbers are written. `guarantee` is what all levels come to above the
/// plan's slices. `amount` is what the plan leaves, or the guarantee if that is more. A refusal
/// leaves both unchanged.
///
/// # Errors
/// The answer is 50 if the columns differ in length, else 9 if the plan is of more than 10^9
/// slices.
#[unsafe(no_mangle)]
pub extern "C" fn arbiter_rest(
    slices: u64,
    planned: u64,
    own: &[u64],
    others: &[u64],
    amount: &mut u64,
    guarantee: &mut u64,
) -> u32
    ensures told { result ≡ 0
        → IsRestTold slices planned own.now others.now amount.new guarantee.new }
    ensures refused { 0 < result → IsRestRefused slices own.now others.now result }
    ensures amount_kept { 0 < result → amount.new ≡ amount.old }
    ensures guarantee_kept { 0 < result → guarantee.new ≡ guarantee.old }
{
    if others.len() != own.len() {
        return u32::from(CheckFault::WrongLength.number());
    }
    if slices > MOST_TOLD {
        return u32::from(InstanceFault::DemandTooLarge.number());
    }
    let share = rest_share(slices, planned, own, others);
    *amount = share.amount;
    *guarantee = share.guarantee;
    0
}
