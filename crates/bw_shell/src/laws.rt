//! The limits of a line and of a refusal, as numbers. The definitions take them from the code.
ghost use Rattle.std.specs.Prelude.{◌≡◌};

use bw_commands::{LINE_BYTES, REFUSAL_BYTES};

/// States the limits: a line of a script has up to 65536 bytes, and the line of a refusal 64.
pub fn script_numbers()
    ensures line { LINE_BYTES ≡ 65536 }
    ensures refusal { REFUSAL_BYTES ≡ 64 }
{}
