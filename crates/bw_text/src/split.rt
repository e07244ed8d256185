//! Words between white bytes, and the parts round a byte.
ghost use Rattle.std.specs.Prelude.{◌≡◌, ℕ, ◌≤◌, ◌<◌, ◌==◌, ◌∷◌, [], not, length, slice_index};
ghost use Rattle.std.specs.Prelude.{MatchOption};
ghost use Rattle.std.specs.List.{slice_split};
ghost use Rattle.bw_text.specs.Words.{is_white, words};

use memchr::memchr;

fn is_white(b: u8) -> bool
    ensures { result ≡ is_white b }
{
    b == b' ' || b == b'\t' || b == b'\n'
}

// Number of bytes at the front that are white, or that are not.
fn run_len(text: &[u8], white: bool) -> usize
    ensures bound { result ≤ length text.now }
    ensures run { (k : ℕ) → k < result → is_white (slice_index text.now k) ≡ white }
    ensures end { result < length text.now → is_white (slice_index text.now result) ≡ not white }
{
    for (i, b) in text.iter().enumerate() {
        if is_white(*b) != white {
            return i;
        }
    }
    text.len()
}

/// Returns the first word of a text and the rest; `None` if the text is blank.
///
/// Spaces, tabs and newlines end a word.
pub fn next_word(text: &[u8]) -> Option<(&[u8], &[u8])>
    ensures { MatchOption result (words text.now ≡ [])
        (λ p. words text.now ≡ p.0.now ∷ words p.1.now) }
{
    let (_, text) = text.split_at(run_len(text, true));
    let (word, rest) = text.split_at(run_len(text, false));
    if word.is_empty() {
        None
    } else {
        Some((word, rest))
    }
}

/// Splits a text at the first `byte`; `None` if the text does not have it.
///
/// A plain loop, for the words of a line. [`split_line`] is for long texts.
pub fn split_once(text: &[u8], byte: u8) -> Option<(&[u8], &[u8])>
    ensures { MatchOption result (slice_split (λ b. b == byte) text.now ≡ text.now ∷ [])
        (λ p. slice_split (λ b. b == byte) text.now
        ≡ p.0.now ∷ slice_split (λ b. b == byte) p.1.now) }
{
    for (i, b) in text.iter().enumerate() {
        if *b == byte {
            return Some((&text[..i], &text[i + 1..]));
        }
    }
    None
}

/// Splits a text at its first newline; `None` if it has none.
///
/// `memchr` tests many bytes at a time. It pays off in long texts.
pub fn split_line(text: &[u8]) -> Option<(&[u8], &[u8])>
    ensures { MatchOption result (slice_split (λ b. b == 10) text.now ≡ text.now ∷ [])
        (λ p. slice_split (λ b. b == 10) text.now ≡ p.0.now ∷ slice_split (λ b. b == 10) p.1.now) }
{
    let end = memchr(b'\n', text)?;
    Some((&text[..end], &text[end + 1..]))
}
