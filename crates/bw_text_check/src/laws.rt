//! The limit of a text, as a number. The definitions take it from the code.
ghost use Rattle.std.specs.Prelude.{◌≡◌};

use crate::text_check::TEXT_BYTES;

/// States the limit: a certified text has up to 4 MiB.
pub fn text_numbers()
    ensures { TEXT_BYTES ≡ 4194304 }
{}
