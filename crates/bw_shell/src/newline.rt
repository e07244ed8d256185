//! The end of a line.
ghost use Rattle.std.specs.Prelude.{◌≡◌, ◌≤◌, length, map, take};
ghost use Rattle.std.specs.Simd.Lanes.{mask_l};
ghost use Rattle.memchr.specs.Find.{IsFirstByte, is_byte};

use memchr::memchr;
use std::simd::prelude::*;

// Number of bytes in which most lines end.
const NEAR: usize = 32;

/// Place of the first newline. Most lines are short, and need no more than one load.
#[inline(always)]
pub(crate) fn newline(bytes: &[u8]) -> Option<usize>
    ensures { IsFirstByte (is_byte 10) bytes.now result }
{
    if bytes.len() >= NEAR {
        let found = newlines_near(bytes);
        if found != 0 {
            return Some(found.trailing_zeros() as usize);
        }
    }
    memchr(b'\n', bytes)
}

// The newlines among the first bytes: bit k is set if the byte at k is one.
#[inline(always)]
fn newlines_near(bytes: &[u8]) -> u64
    requires { NEAR ≤ length bytes.now }
    ensures { result ≡ mask_l (map (is_byte 10) (take NEAR bytes.now)) }
{
    u8x32::from_slice(bytes)
        .simd_eq(u8x32::splat(b'\n'))
        .to_bitmask()
}
