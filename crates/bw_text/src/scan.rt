//! Searches for two bytes, many bytes at a time.
ghost use Rattle.std.specs.Prelude.{◌≡◌, ◌+◌, ◌≤◌, ◌<◌, ℕ, false, length, slice_index, map};
ghost use Rattle.std.specs.List.{position_or_len};
ghost use Rattle.std.specs.Simd.Lanes.{chunk, mask_l};
ghost use Rattle.bw_text.specs.Words.{is_either};

use std::simd::prelude::*;

// Bytes of a load: a narrow, a middle and a wide one.
const NARROW: usize = 8;

const MIDDLE: usize = 16;

const WIDE: usize = 32;

/// Number of bytes in front of the first that is one of two. It is all bytes if none is.
///
/// It tests up to 32 bytes at a time, with no set-up. So it suits short words too.
pub fn len_before(text: &[u8], one: u8, other: u8) -> usize
    ensures { result ≡ position_or_len (is_either one other) text.now }
{
    let len = text.len();
    if len < NARROW {
        len_by_one(text, one, other)
    } else if len < MIDDLE {
        len_by::<NARROW>(text, one, other)
    } else if len < WIDE {
        len_by::<MIDDLE>(text, one, other)
    } else {
        len_by::<WIDE>(text, one, other)
    }
}

/// Places of two bytes among N bytes, at most 64: bit k is set if the byte k after `at` is one of
/// them.
#[inline(always)]
pub fn places_among<const N: usize>(text: &[u8], at: usize, one: u8, other: u8) -> u64
    requires room { at + N ≤ length text.now }
    requires few { N ≤ 64 }
    ensures { result ≡ mask_l (map (is_either one other) (chunk at N text.now)) }
{
    let bytes = Simd::<u8, N>::from_slice(&text[at..]);
    (bytes.simd_eq(Simd::splat(one)) | bytes.simd_eq(Simd::splat(other))).to_bitmask()
}

// Number of bytes in front of the first of the two, tested one by one.
#[inline(always)]
fn len_by_one(text: &[u8], one: u8, other: u8) -> usize
    ensures { result ≡ position_or_len (is_either one other) text.now }
{
    for at in 0..text.len() {
        if is_either(one, other, text[at]) {
            return at;
        }
    }
    text.len()
}

fn is_either(one: u8, other: u8, byte: u8) -> bool
    ensures { result ≡ is_either one other byte }
{
    byte == one || byte == other
}

// Number of bytes in front of the first of the two, tested N at a time.
#[inline(always)]
fn len_by<const N: usize>(text: &[u8], one: u8, other: u8) -> usize
    requires some { 1 ≤ N }
    requires few { N ≤ 64 }
    requires room { N ≤ length text.now }
    ensures { result ≡ position_or_len (is_either one other) text.now }
{
    // the last load may overlap the one before it
    let last = text.len() - N;
    let mut at = 0;
    while at < last {
        let run = run_among::<N>(text, at, one, other);
        if run < N {
            return at + run;
        }
        at += N;
    }
    last + run_among::<N>(text, last, one, other)
}

// Number of bytes in front of the first of the two among N bytes, or N.
#[inline(always)]
fn run_among<const N: usize>(text: &[u8], at: usize, one: u8, other: u8) -> usize
    requires room { at + N ≤ length text.now }
    requires few { N ≤ 64 }
    ensures { result ≡ position_or_len (is_either one other) (chunk at N text.now) }
{
    let places = places_among::<N>(text, at, one, other);
    if places == 0 {
        N
    } else {
        places.trailing_zeros() as usize
    }
}
