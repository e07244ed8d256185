//! The limits of reading, as numbers. The definitions take them from the code.
ghost use Rattle.std.specs.Prelude.{◌≡◌};

use crate::reading::{PIECE_BYTES, READ_CALLS};

/// States the limits: up to 2^32 read calls, each for up to 64 KiB.
pub fn reads_are_limited()
    ensures calls { READ_CALLS ≡ 4294967296 }
    ensures piece { PIECE_BYTES ≡ 65536 }
{}
