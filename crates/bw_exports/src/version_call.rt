//! `arbiter_version`: the version of the library, called from C.
ghost use Rattle.std.specs.Prelude.{◌≡◌, codes};
ghost use Rattle.bw_exports.specs.Names.{with_name};

use crate::room::write_name;

/// The version of the library. A test compares it with the program's.
const VERSION: &str = "1.0.0";

/// The version of the library, as `ARBITER_VERSION` has it for a header.
///
/// The answer is 5, the number of its characters. The version is written to the beginning of
/// `version`, with a 0 behind it, if there is room for both. Otherwise `version` is unchanged.
#[unsafe(no_mangle)]
pub extern "C" fn arbiter_version(version: &mut [u8]) -> u32
    ensures told { version.new ≡ with_name (codes "1.0.0") version.old }
    ensures count { result ≡ 5 }
{
    let text = VERSION.as_bytes();
    write_name(version, text);
    text.len() as u32
}
