//! Appends text to an answer, whose buffer grows as needed. Where it has space, no call fails or
//! allocates.
ghost use Rattle.std.specs.Prelude.{◌≡◌, ◌≤◌, ◌<◌, ◌+◌, ◌/◌, ◌%◌, ◌++◌, [], ◌∷◌, codes, length};
ghost use Rattle.std.specs.Prelude.{vec_len};
ghost use Rattle.std.specs.Prelude.{OnOk, OnErr};
ghost use Rattle.std.specs.Vec.{vec_capacity};
ghost use Rattle.std.specs.Fmt.{decimal};
ghost use Rattle.bw_streams.specs.Answers.{number_line, refusal_line};

use itoa::Buffer;
use std::alloc::AllocError;

/// Appends bytes for which the buffer has space.
#[inline(always)]
pub fn put(answer: &mut Vec<u8>, bytes: &[u8])
    requires { vec_len answer.old + length bytes.now ≤ vec_capacity answer.old }
    ensures items { answer.new.items ≡ answer.old.items ++ bytes.now }
    ensures room { vec_capacity answer.old ≤ vec_capacity answer.new }
{
    let _ = answer.extend_from_slice(bytes);
}

/// Appends a number in decimal, 1 to 20 digits, for which the buffer has space.
///
/// Up to eight digits are written into the buffer, without a copy.
#[inline(always)]
pub fn put_digits(number: u64, answer: &mut Vec<u8>)
    requires { vec_len answer.old + 20 ≤ vec_capacity answer.old }
    ensures items { answer.new.items ≡ answer.old.items ++ decimal number }
    ensures len { vec_len answer.new ≤ vec_len answer.old + 20 }
    ensures room { vec_capacity answer.old ≤ vec_capacity answer.new }
{
    match number {
        0..=9_999 => put_few(number, answer),
        10_000..=99_999_999 => {
            put_few(number / 10_000, answer);
            put_two(number / 100 % 100, answer);
            put_two(number % 100, answer);
        }
        _ => put_long(number, answer),
    }
}

// Appends a number of up to four digits.
fn put_few(number: u64, answer: &mut Vec<u8>)
    requires few { number < 10_000 }
    requires space { vec_len answer.old + 4 ≤ vec_capacity answer.old }
    ensures items { answer.new.items ≡ answer.old.items ++ decimal number }
    ensures len { vec_len answer.new ≤ vec_len answer.old + 4 }
    ensures room { vec_capacity answer.old ≤ vec_capacity answer.new }
{
    match number {
        0..=99 => put_short(number, answer),
        _ => {
            put_short(number / 100, answer);
            put_two(number % 100, answer);
        }
    }
}

// Appends a number of one digit or two.
#[tactic(auto, using(crate::proofs::Digits::two_digits, std::proofs::lemmas::Fmt::decimal_digit))]
fn put_short(number: u64, answer: &mut Vec<u8>)
    requires short { number < 100 }
    requires space { vec_len answer.old + 2 ≤ vec_capacity answer.old }
    ensures items { answer.new.items ≡ answer.old.items ++ decimal number }
    ensures len { vec_len answer.new ≤ vec_len answer.old + 2 }
    ensures room { vec_capacity answer.old ≤ vec_capacity answer.new }
{
    match number {
        0..=9 => answer.push_reserved(b'0' + number as u8),
        _ => put_two(number, answer),
    }
}

// Appends the two last digits of a number, also where the first of them is `0`.
fn put_two(last: u64, answer: &mut Vec<u8>)
    requires short { last < 100 }
    requires space { vec_len answer.old + 2 ≤ vec_capacity answer.old }
    ensures items { answer.new.items
        ≡ answer.old.items ++ (48 + last / 10) ∷ (48 + last % 10) ∷ [] }
    ensures len { vec_len answer.new ≡ vec_len answer.old + 2 }
    ensures room { vec_capacity answer.old ≤ vec_capacity answer.new }
{
    answer.push_reserved(b'0' + (last / 10) as u8);
    answer.push_reserved(b'0' + (last % 10) as u8);
}

// Appends a number of any length by one copy.
#[inline(never)]
fn put_long(number: u64, answer: &mut Vec<u8>)
    requires { vec_len answer.old + 20 ≤ vec_capacity answer.old }
    ensures items { answer.new.items ≡ answer.old.items ++ decimal number }
    ensures len { vec_len answer.new ≤ vec_len answer.old + 20 }
    ensures room { vec_capacity answer.old ≤ vec_capacity answer.new }
{
    let mut buffer = Buffer::new();
    put(answer, buffer.format(number).as_bytes());
}

/// Appends a word and a number in decimal, 1 to 20 digits.
///
/// # Errors
///
/// `AllocError` if an allocation failed; the answer is unchanged.
pub fn put_number(word: &[u8], number: u64, answer: &mut Vec<u8>) -> Result<(), AllocError>
    ensures ok { OnOk result (answer.new.items ≡ answer.old.items ++ (word.now ++ decimal number)) }
    ensures len { OnOk result (vec_len answer.new ≤ vec_len answer.old + length word.now + 20) }
    ensures full { OnErr result (vec_capacity answer.old
        < vec_len answer.old + length word.now + 20) }
    ensures err { OnErr result (answer.new.items ≡ answer.old.items) }
    ensures room { vec_capacity answer.old ≤ vec_capacity answer.new }
{
    answer.reserve(word.len() + 20)?;
    put(answer, word);
    put_digits(number, answer);
    Ok(())
}

/// Appends a space, the last word of a line and a newline.
///
/// # Errors
///
/// `AllocError` if an allocation failed; the answer is unchanged.
pub fn put_last_word(word: &[u8], answer: &mut Vec<u8>) -> Result<(), AllocError>
    ensures ok { OnOk result (answer.new.items
        ≡ answer.old.items ++ (codes " " ++ word.now ++ 10 ∷ [])) }
    ensures full { OnErr result (vec_capacity answer.old
        < vec_len answer.old + length word.now + 2) }
    ensures err { OnErr result (answer.new.items ≡ answer.old.items) }
    ensures room { vec_capacity answer.old ≤ vec_capacity answer.new }
{
    answer.reserve(word.len() + 2)?;
    put(answer, b" ");
    put(answer, word);
    put(answer, b"\n");
    Ok(())
}

/// Appends a line with a word and a number.
///
/// # Errors
///
/// `AllocError` if an allocation failed; the answer is unchanged.
#[inline(always)]
pub fn put_number_line(word: &[u8], number: u64, answer: &mut Vec<u8>) -> Result<(), AllocError>
    ensures ok { OnOk result (answer.new.items ≡ answer.old.items ++ number_line word.now number) }
    ensures full { OnErr result (vec_capacity answer.old
        < vec_len answer.old + length word.now + 21) }
    ensures err { OnErr result (answer.new.items ≡ answer.old.items) }
    ensures room { vec_capacity answer.old ≤ vec_capacity answer.new }
{
    answer.reserve(word.len() + 21)?;
    put(answer, word);
    put_digits(number, answer);
    answer.push_reserved(b'\n');
    Ok(())
}

/// Appends the line that a refusal prints, by its number and its name. It needs space for at most
/// 28 bytes more than the name has.
///
/// # Errors
///
/// `AllocError` if an allocation failed; the answer is unchanged.
pub fn put_refusal(number: u8, name: &str, answer: &mut Vec<u8>) -> Result<(), AllocError>
    ensures ok { OnOk result (answer.new.items ≡ answer.old.items ++ refusal_line number name.now) }
    ensures full { OnErr result (vec_capacity answer.old
        < vec_len answer.old + length name.now + 28) }
    ensures err { OnErr result (answer.new.items ≡ answer.old.items) }
    ensures room { vec_capacity answer.old ≤ vec_capacity answer.new }
{
    answer.reserve(name.len() + 28)?;
    put_number(b"error ", u64::from(number), answer)?;
    put_last_word(name.as_bytes(), answer)?;
    Ok(())
}
