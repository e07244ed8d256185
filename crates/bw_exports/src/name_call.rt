//! `arbiter_name`: the name of an answered number, called from C.
ghost use Rattle.std.specs.Prelude.{◌≡◌, ◌≤◌};
ghost use Rattle.bw_exports.specs.Names.{IsNameTold};

use crate::fault::fault_of;
use crate::room::write_name;

/// The name of a number that another call answered, as `arbiter check` prints it.
///
/// The answer is the number of characters of the name, 1 to 16, or 0 if the number is of no fault.
/// The name is written to the beginning of `name`, with a 0 behind it, if there is room for both.
/// Otherwise, and if the answer is 0, `name` is unchanged.
#[unsafe(no_mangle)]
pub extern "C" fn arbiter_name(number: u32, name: &mut [u8]) -> u32
    ensures told { IsNameTold number name.old name.new result }
    ensures short { result ≤ 16 }
{
    match fault_of(number) {
        Some(fault) => {
            let text = fault.name().as_bytes();
            write_name(name, text);
            text.len() as u32
        }
        None => 0,
    }
}
