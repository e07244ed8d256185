//! `arbiter_check_text`: the checker of certified texts, called from C.
ghost use Rattle.std.specs.Prelude.{◌≡◌};
ghost use Rattle.bw_cert.specs.Reading.{certified_of};
ghost use Rattle.bw_cert.specs.Spelling.{text_lines, HoldsPlan};
ghost use Rattle.bw_exports.specs.Texts.{IsTextOutcome};

use bw_check::Verdict;
use bw_columns::verdict_in;
use std::alloc::Global;

/// Whether a certified text shows that its amounts are the plan: the text that `arbiter check`
/// reads.
///
/// The answer is 0 if it does, and then the amounts are the plan of the text's instance. If it is
/// 51 to 58, the number of a fault of the amounts and their certificate, `row` is the row of the
/// group that has the fault. `row` is unchanged otherwise.
///
/// # Errors
/// The answer is 1 to 10 or 40 to 43 if it is no certified text, 71 if memory was refused.
#[unsafe(no_mangle)]
pub extern "C" fn arbiter_check_text(alloc: Global, text: &[u8], row: &mut u32) -> u32
    ensures outcome { IsTextOutcome (certified_of (text_lines text.now)) row.old row.new result }
    ensures plan { result ≡ 0 → HoldsPlan text.now }
{
    match verdict_in(alloc, text) {
        Ok(Verdict::Accepted) => 0,
        Ok(Verdict::Refused { fault, group }) => {
            *row = group;
            u32::from(fault.number())
        }
        Err(fault) => u32::from(fault.number()),
    }
}
