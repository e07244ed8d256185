//! `arbiter_pod_amount`: the amount of a pod, called from C.
ghost use Rattle.std.specs.Prelude.{◌≡◌, ◌≢◌, ◌<◌, length};
ghost use Rattle.bw_exports.specs.Owned.{IsPodTold};

use bw_check::CheckFault;
use bw_owned::pod_amount;

/// The most that the parts of a pod take at any time: of requests, limits or another resource.
///
/// Parts stand in the order in which they start. A kind is 1 for an init container, 2 for a
/// sidecar, and any other number for a container. An init container ends before the next part
/// starts. An amount beyond the greatest number is that number.
///
/// The answer is 0 if `amount` is written. A refusal leaves it unchanged.
///
/// # Errors
/// The answer is 50 if the columns differ in length.
#[unsafe(no_mangle)]
pub extern "C" fn arbiter_pod_amount(kinds: &[u8], amounts: &[u64], amount: &mut u64) -> u32
    ensures told { result ≡ 0 → IsPodTold kinds.now amounts.now amount.new }
    ensures refused { 0 < result → length kinds.now ≢ length amounts.now }
    ensures number { 0 < result → result ≡ 50 }
    ensures kept { 0 < result → amount.new ≡ amount.old }
{
    if kinds.len() != amounts.len() {
        return u32::from(CheckFault::WrongLength.number());
    }
    *amount = pod_amount(kinds, amounts).min(u128::from(u64::MAX)) as u64;
    0
}
