//! The limits of reading.
ghost use Rattle.std.specs.Prelude.{◌≡◌, IfOk, vec_len};

use std::alloc::{AllocError, Global};

/// Maximum number of read calls of one run.
pub const READ_CALLS: u64 = 4294967296;

/// Number of bytes that one read asks for.
pub const PIECE_BYTES: usize = 65536;

ghost use Rattle.bw_streams.specs.declared.reading.TheConstants.{PIECE_BYTES};

/// Allocates the buffer of one read.
///
/// # Errors
///
/// `AllocError` if the allocation failed.
pub fn piece_room(alloc: Global) -> Result<Vec<u8>, AllocError>
    ensures { IfOk result (λ v. vec_len v ≡ PIECE_BYTES) }
{
    vec![in alloc; 0u8; PIECE_BYTES]
}
