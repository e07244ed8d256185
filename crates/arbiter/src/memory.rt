//! Keeps freed memory for the next line of a script.
use std::alloc::Global;

// Size of the block in bytes, 16 MiB. By mallopt(3) the C library keeps freed memory up to twice
// the largest block freed so far.
const LARGEST_FREED: usize = 16777216;

/// Allocates and frees an unused block of 16 MiB, so that the C library keeps up to 32 MiB of freed
/// memory for later lines. Without it, each `plan` or `period` of a large tree takes its lists from
/// the system again, page by page. If the allocation fails, nothing else changes.
pub fn keep_freed(alloc: Global) {
    let _ = Vec::<u8>::with_capacity(alloc, LARGEST_FREED);
}
