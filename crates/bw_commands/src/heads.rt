//! Comparison of the front of a text with a few bytes, four at a time.
ghost use Rattle.std.specs.Prelude.{◌≡◌, ◌≤◌, ◌+◌, true, length, take};
ghost use Rattle.std.specs.Int.{w32, from_le_bytes};
ghost use Rattle.std.specs.Simd.Lanes.{chunk};

// The four bytes at a place, as a number.
#[inline(always)]
fn word_at(text: &[u8], at: usize) -> u32
    requires { at + 4 ≤ length text.now }
    ensures { result ≡ from_le_bytes w32 (chunk at 4 text.now) }
{
    match text[at..].first_chunk::<4>() {
        Some(four) => u32::from_le_bytes(*four),
        None => 0,
    }
}

// Whether the same four bytes stand at a place of two texts.
#[inline(always)]
fn same_four(one: &[u8], other: &[u8], at: usize) -> bool
    requires one { at + 4 ≤ length one.now }
    requires other { at + 4 ≤ length other.now }
    ensures same { result ≡ true → chunk at 4 one.now ≡ chunk at 4 other.now }
    ensures only { chunk at 4 one.now ≡ chunk at 4 other.now → result ≡ true }
{
    word_at(one, at) == word_at(other, at)
}

/// Whether a text begins with these 4 to 8 bytes.
#[inline(always)]
pub(crate) fn begins_with(text: &[u8], front: &[u8]) -> bool
    requires least { 4 ≤ length front.now }
    requires most { length front.now ≤ 8 }
    requires room { length front.now ≤ length text.now }
    ensures same { result ≡ true → take (length front.now) text.now ≡ front.now }
    ensures only { take (length front.now) text.now ≡ front.now → result ≡ true }
{
    if !same_four(text, front, 0) {
        return false;
    }
    same_four(text, front, front.len() - 4)
}
