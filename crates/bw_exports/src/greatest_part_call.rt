//! `arbiter_greatest_part`: the greatest amount of one part of a pod, called from C.
ghost use Rattle.std.specs.Prelude.{◌≡◌, ◌<◌};
ghost use Rattle.bw_exports.specs.Owned.{IsPartTold, IsNoPart};

use bw_check::CheckFault;
use bw_columns::limit_number;
use bw_owned::greatest_part;

/// The greatest amount of one part with which a pod takes no more than some room.
///
/// The columns are those of [`crate::pod_amount_call::arbiter_pod_amount`]. The answer does not
/// read the part's own amount. It is the greatest number if the other parts alone take more.
///
/// The answer is 0 if `greatest` is written. A refusal leaves it unchanged.
///
/// # Errors
/// The answer is 50 if the columns differ in length, or have no such part.
#[unsafe(no_mangle)]
pub extern "C" fn arbiter_greatest_part(
    kinds: &[u8],
    amounts: &[u64],
    part: u32,
    room: u64,
    greatest: &mut u64,
) -> u32
    ensures told { result ≡ 0 → IsPartTold kinds.now amounts.now part room greatest.new }
    ensures refused { 0 < result → IsNoPart kinds.now amounts.now part }
    ensures number { 0 < result → result ≡ 50 }
    ensures kept { 0 < result → greatest.new ≡ greatest.old }
{
    if kinds.len() != amounts.len() || part as usize >= amounts.len() {
        return u32::from(CheckFault::WrongLength.number());
    }
    *greatest = limit_number(greatest_part(kinds, amounts, part as usize, room));
    0
}
