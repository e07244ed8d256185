//! Numbers in decimal digits.
ghost use Rattle.std.specs.Prelude.{◌≡◌, ℕ, ◌+◌, ◌-◌, ◌*◌, ◌<◌, ◌≤◌, ◌^◌, ◌==◌, ◌&&◌, ◌||◌, not};
ghost use Rattle.std.specs.Prelude.{nat_lt, length, slice_index, List, Ok, MatchOption, OnErr};
ghost use Rattle.std.specs.Prelude.{◌++◌, is_ok, if◌then◌else◌};
ghost use Rattle.std.specs.Prelude.{string_bytes, string_len, string_capacity};
ghost use Rattle.std.specs.List.{list_all};
ghost use Rattle.std.specs.Char.{is_ascii_digit};
ghost use Rattle.std.specs.Fmt.{decimal};
ghost use Rattle.bw_text.specs.Number.{digits_read, number_read};

use itoa::Buffer;
use std::alloc::AllocError;

/// Why a word is no number of 64 bits.
#[derive(Clone, Copy, Debug, PartialEq, Eq)]
pub enum NumberFault {
    /// The word is not `0` and not digits of which the first is not `0`.
    BadForm,
    /// The number is above `u64::MAX`.
    TooGreat,
}

/// Reads a number, 0 to `u64::MAX`: `0`, or decimal digits of which the first is not `0`.
///
/// # Errors
///
/// The first that applies:
/// - [`NumberFault::BadForm`] if the word is no such digits.
/// - [`NumberFault::TooGreat`] if the number is above `u64::MAX`.
#[inline(always)]
pub fn read_number(word: &[u8]) -> Result<u64, NumberFault>
    ensures { result ≡ number_read word.now }
{
    if !begins_as_number(word) {
        return Err(NumberFault::BadForm);
    }
    digits_read(word)
}

fn are_digits(word: &[u8]) -> bool
    ensures { result ≡ list_all is_ascii_digit word.now }
{
    word.iter().all(|b| b.is_ascii_digit())
}

// Whether a word is not empty, and no `0` at its front is followed by another byte.
fn begins_as_number(word: &[u8]) -> bool
    ensures { result
        ≡ (nat_lt 0 (length word.now)
        && (length word.now == 1 || not (slice_index word.now 0 == 48))) }
{
    !word.is_empty() && (word.len() == 1 || word[0] != b'0')
}

// Appends a digit to a number; `None` above `u64::MAX`.
fn push_digit(n: u64, digit: u8) -> Option<u64>
    requires { (48 ≤ digit) × (digit ≤ 57) }
    ensures { MatchOption result (2 ^ 64 ≤ n * 10 + (digit - 48))
        (λ m. (m ≡ n * 10 + (digit - 48)) × (m < 2 ^ 64)) }
{
    n.checked_mul(10)?.checked_add(u64::from(digit - b'0'))
}

// Number of digits that make no number above `u64::MAX`.
const SHORT_DIGITS: usize = 19;

fn digits_read(word: &[u8]) -> Result<u64, NumberFault>
    ensures { result ≡ digits_read word.now }
{
    if word.len() <= SHORT_DIGITS {
        return short_read(word);
    }
    long_read(word)
}

// Reads digits that are too few for a number that is too great.
fn short_read(word: &[u8]) -> Result<u64, NumberFault>
    requires { length word.now ≤ SHORT_DIGITS }
    ensures { result ≡ digits_read word.now }
{
    let mut n: u64 = 0;
    for b in word {
        if !b.is_ascii_digit() {
            return Err(NumberFault::BadForm);
        }
        n = n * 10 + u64::from(*b - b'0');
    }
    Ok(n)
}

// Reads digits in one pass. A number that is too great costs a second pass.
fn long_read(word: &[u8]) -> Result<u64, NumberFault>
    ensures { result ≡ digits_read word.now }
{
    let mut n: u64 = 0;
    for b in word {
        if !b.is_ascii_digit() {
            return Err(NumberFault::BadForm);
        }
        let Some(next) = push_digit(n, *b) else {
            return Err(too_great(word));
        };
        n = next;
    }
    Ok(n)
}

// Fault of a word whose first digits are too great a number. A later byte may be no digit.
fn too_great(word: &[u8]) -> NumberFault
    ensures { result
        ≡ (if list_all is_ascii_digit word.now then NumberFault.TooGreat else NumberFault.BadForm) }
{
    if are_digits(word) {
        NumberFault::TooGreat
    } else {
        NumberFault::BadForm
    }
}

/// Appends a number in decimal digits.
///
/// # Errors
///
/// `AllocError` if the text has too little room and memory is refused. The text is then unchanged.
pub fn push_number(out: &mut String, n: u64) -> Result<(), AllocError>
    ensures bytes { string_bytes out.new
        ≡ (if is_ok result then string_bytes out.old ++ decimal n else string_bytes out.old) }
    ensures full { OnErr result (string_capacity out.old
        < string_len out.old + length (decimal n)) }
{
    let mut buffer = Buffer::new();
    out.push_str(buffer.format(n))
}

/// Law: std's decimal digits of a number are read as it, and a word that is read is those digits.
pub fn one_spelling()
    ensures written { (n : ℕ) → n < 2 ^ 64 → number_read (decimal n) ≡ Ok n }
    ensures only { (word : List ℕ) (n : ℕ) → number_read word ≡ Ok n
        → (word ≡ decimal n) × (n < 2 ^ 64) }
{}
