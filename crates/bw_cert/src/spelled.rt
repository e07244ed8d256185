//! Reads the line of a group in one pass, if it is spelled as certified texts are.
//!
//! `None` says nothing of a line: it is then read word by word.
ghost use Rattle.std.specs.Prelude.{◌≡◌, ◌≢◌, ◌<◌, ◌≤◌, ◌+◌, ◌^◌, ◌++◌, ◌∷◌, length};
ghost use Rattle.std.specs.Prelude.{slice_index, IsTrue, IfSome};
ghost use Rattle.std.specs.Option.{option_map};
ghost use Rattle.std.specs.Fmt.{decimal};
ghost use Rattle.bw_model.specs.Marks.{price_of};
ghost use Rattle.bw_cert.specs.Spelling.{parent_word, limit_word, flag_word, level_word, row_words};
ghost use Rattle.bw_cert.specs.Spelling.{line, group_words, IsSmallRow, IsSmallLevel};

use crate::groups::GroupLine;
use bw_model::{Mark, Row};

// Bytes of the loop for numbers, which the compiler unrolls.
const SHORT: usize = 8;

// Bytes that a line may take: seven short numbers, a long one and a flag. So its length is tested
// once.
const ROOM: usize = 80;

// The number that begins with a digit from 1, and the text after the byte behind it.
#[inline(always)]
fn digits_before(text: &[u8], end: u8) -> Option<(u64, &[u8])>
    requires room { SHORT ≤ length text.now }
    requires first { (48 < slice_index text.now 0) × (slice_index text.now 0 < 58) }
    ensures spelled { IfSome result (λ p. text.now ≡ decimal p.0 ++ end ∷ p.1.now) }
    ensures small { IfSome result (λ p. p.0 < 2 ^ 64) }
    ensures near { IfSome result (λ p. length text.now ≤ length p.1.now + SHORT) }
{
    let mut n = u64::from(text[0] - b'0');
    for i in 1..SHORT {
        let b = text[i];
        if !b.is_ascii_digit() {
            if b != end {
                return None;
            }
            return Some((n, &text[i + 1..]));
        }
        n = n * 10 + u64::from(b - b'0');
    }
    None
}

// The number before a byte, and the text after it. The number has up to 7 digits.
#[inline(always)]
fn number_before(text: &[u8], end: u8) -> Option<(u64, &[u8])>
    requires room { SHORT ≤ length text.now }
    ensures spelled { IfSome result (λ p. text.now ≡ decimal p.0 ++ end ∷ p.1.now) }
    ensures small { IfSome result (λ p. p.0 < 2 ^ 64) }
    ensures near { IfSome result (λ p. length text.now ≤ length p.1.now + SHORT) }
{
    match text[0] {
        b'1'..=b'9' => digits_before(text, end),
        b'0' if text[1] == end => Some((0, &text[2..])),
        _ => None,
    }
}

// Whether the digits before the byte at `i` are a number, and this byte is the one behind it.
fn ends_number(text: &[u8], i: usize, end: u8) -> bool
    requires { i < length text.now }
    ensures byte { IsTrue result → slice_index text.now i ≡ end }
    ensures some { IsTrue result → 0 < i }
    ensures first { IsTrue result → 1 < i → slice_index text.now 0 ≢ 48 }
{
    text[i] == end && i > 0 && (i == 1 || text[0] != b'0')
}

// The number before a byte, and the text after it. The number has up to 18 digits, so 64 bits.
#[inline(never)]
fn long_number_before(text: &[u8], end: u8) -> Option<(u64, &[u8])>
    ensures spelled { IfSome result (λ p. text.now ≡ decimal p.0 ++ end ∷ p.1.now) }
    ensures small { IfSome result (λ p. p.0 < 2 ^ 64) }
    ensures near { IfSome result (λ p. length text.now ≤ length p.1.now + 19) }
{
    let mut n: u64 = 0;
    for i in 0..text.len().min(19) {
        let b = text[i];
        if !b.is_ascii_digit() {
            if !ends_number(text, i, end) {
                return None;
            }
            return Some((n, &text[i + 1..]));
        }
        n = n * 10 + u64::from(b - b'0');
    }
    None
}

// The text behind two bytes.
fn behind(text: &[u8], one: u8, other: u8) -> Option<&[u8]>
    requires room { 2 ≤ length text.now }
    ensures spelled { IfSome result (λ rest. text.now ≡ one ∷ other ∷ rest.now) }
    ensures near { IfSome result (λ rest. length text.now ≤ length rest.now + 2) }
{
    if text[0] == one && text[1] == other {
        Some(&text[2..])
    } else {
        None
    }
}

// The row of a parent.
fn parent_before(text: &[u8]) -> Option<(Option<u32>, &[u8])>
    requires room { SHORT ≤ length text.now }
    ensures spelled { IfSome result (λ p. text.now ≡ parent_word p.0 ++ 32 ∷ p.1.now) }
    ensures small { IfSome result (λ p. IfSome p.0 (λ n. n < 2 ^ 32)) }
    ensures near { IfSome result (λ p. length text.now ≤ length p.1.now + SHORT) }
{
    if let Some(rest) = behind(text, b'-', b' ') {
        return Some((None, rest));
    }
    let (n, rest) = number_before(text, b' ')?;
    if n > 4_294_967_295 {
        return None;
    }
    Some((Some(n as u32), rest))
}

// A limit in slices, which may have more digits than other numbers.
fn limit_before(text: &[u8]) -> Option<(Option<u64>, &[u8])>
    requires room { 4 ≤ length text.now }
    ensures spelled { IfSome result (λ p. text.now ≡ limit_word p.0 ++ 32 ∷ p.1.now) }
    ensures small { IfSome result (λ p. IfSome p.0 (λ n. n < 2 ^ 64)) }
    ensures near { IfSome result (λ p. length text.now ≤ length p.1.now + 19) }
{
    if let Some(rest) = behind(text, b'm', b'a') {
        let rest = behind(rest, b'x', b' ')?;
        return Some((None, rest));
    }
    let (n, rest) = long_number_before(text, b' ')?;
    Some((Some(n), rest))
}

// A row, and the space after it.
fn row_before(text: &[u8]) -> Option<(Row, &[u8])>
    requires room { 43 ≤ length text.now }
    ensures spelled { IfSome result (λ p. text.now ≡ row_words p.0 ++ p.1.now) }
    ensures small { IfSome result (λ p. IsSmallRow p.0) }
    ensures near { IfSome result (λ p. length text.now ≤ length p.1.now + 43) }
{
    let (parent, text) = parent_before(text)?;
    let (weight, text) = number_before(text, b' ')?;
    let (limit, text) = limit_before(text)?;
    let (demand, text) = number_before(text, b' ')?;
    let row = Row {
        parent,
        weight,
        limit,
        demand,
    };
    Some((row, text))
}

fn flag_before(text: &[u8]) -> Option<(bool, &[u8])>
    requires room { 2 ≤ length text.now }
    ensures spelled { IfSome result (λ p. text.now ≡ flag_word p.0 ++ 32 ∷ p.1.now) }
    ensures near { IfSome result (λ p. length text.now ≤ length p.1.now + 2) }
{
    if let Some(rest) = behind(text, b'0', b' ') {
        return Some((false, rest));
    }
    let rest = behind(text, b'1', b' ')?;
    Some((true, rest))
}

fn mark_before(text: &[u8]) -> Option<(Mark, &[u8])>
    requires room { 24 ≤ length text.now }
    ensures spelled { IfSome result
        (λ p. text.now ≡ level_word (Some (price_of p.0)) ++ 10 ∷ p.1.now) }
    ensures small { IfSome result (λ p. IsSmallLevel (price_of p.0)) }
{
    let (num, text) = number_before(text, b'/')?;
    let (den, text) = number_before(text, b'@')?;
    let (place, text) = number_before(text, b'\n')?;
    if place > 4_294_967_295 {
        return None;
    }
    let mark = Mark::new(num, den, place as u32)?;
    Some((mark, text))
}

// A level, and the newline after it.
fn level_before(text: &[u8]) -> Option<(Option<Mark>, &[u8])>
    requires room { 24 ≤ length text.now }
    ensures spelled { IfSome result
        (λ p. text.now ≡ level_word (option_map price_of p.0) ++ 10 ∷ p.1.now) }
    ensures small { IfSome result (λ p. IfSome (option_map price_of p.0) IsSmallLevel) }
{
    if let Some(rest) = behind(text, b'-', b'\n') {
        return Some((None, rest));
    }
    let (mark, rest) = mark_before(text)?;
    Some((Some(mark), rest))
}

/// The values of the first line, and the text after it.
pub(crate) fn spelled_group(text: &[u8]) -> Option<(GroupLine, &[u8])>
    ensures spelled { IfSome result (λ p. text.now ≡ line (group_words p.0.row p.0.amount p.0.flag
        (option_map price_of p.0.level)) ++ p.1.now) }
    ensures small_row { IfSome result (λ p. IsSmallRow p.0.row) }
    ensures small_amount { IfSome result (λ p. p.0.amount < 2 ^ 64) }
    ensures small_level { IfSome result
        (λ p. IfSome (option_map price_of p.0.level) IsSmallLevel) }
{
    if text.len() < ROOM {
        return None;
    }
    let (row, text) = row_before(text)?;
    let (amount, text) = number_before(text, b' ')?;
    let (flag, text) = flag_before(text)?;
    let (level, text) = level_before(text)?;
    let group = GroupLine {
        row,
        amount,
        flag,
        level,
    };
    Some((group, text))
}
