//! Reads the texts that are written into a group's files.
ghost use Rattle.std.specs.Prelude.{◌≡◌, ◌≤◌, ◌∷◌, [], ℕ, Ok, IfOk, IfSome};
ghost use Rattle.bw_model.specs.Quota.{IsValid};
ghost use Rattle.bw_model.specs.declared.limits.TheConstants.{MIN_PERIOD_US, MAX_PERIOD_US};
ghost use Rattle.bw_text.specs.Words.{words};
ghost use Rattle.bw_files.specs.Values.{IsWeightText, IsBurstText, IsMaxText};
ghost use Rattle.bw_files.specs.Reading.{capped, capped_asked, number_at, quota_at, quota_in};
ghost use Rattle.bw_files.specs.Reading.{weight_of, burst_of, max_of};
ghost use Rattle.bw_files.specs.declared.reading.MaxWrite.{MaxWrite};

use crate::fault::FileFault;
use crate::ranges::{check_burst, check_period, check_quota, check_weight};
use bw_model::Quota;
use bw_text::{NumberFault, next_word, read_number};

/// Values that a text of `cpu.max` sets. The period may be left out.
#[derive(Clone, Copy, Debug, PartialEq, Eq)]
pub struct MaxWrite {
    /// No limit, or 1000 to 10^15 microseconds in each period.
    pub quota: Quota,
    /// Length of a period, 1000 to 1000000 microseconds.
    pub period: Option<u64>,
}

// Reads a number. `u64::MAX`, which is above each range, replaces a greater one.
fn number(word: &[u8]) -> Result<u64, FileFault>
    ensures { result ≡ capped (number_at word.now) }
{
    match read_number(word) {
        Ok(n) => Ok(n),
        Err(NumberFault::TooGreat) => Ok(u64::MAX),
        Err(NumberFault::BadForm) => Err(FileFault::BadNumber),
    }
}

// Reads `max` as `None`, any other word as a number.
fn quota_word(word: &[u8]) -> Result<Option<u64>, FileFault>
    ensures { result ≡ capped_asked (quota_at word.now) }
{
    if word == b"max".as_slice() {
        return Ok(None);
    }
    Ok(Some(number(word)?))
}

fn quota_in(asked: Option<u64>) -> Result<Quota, FileFault>
    ensures { result ≡ quota_in asked }
{
    match asked {
        None => Ok(Quota::Max),
        Some(n) => check_quota(n),
    }
}

fn weight(text: &[u8]) -> Result<u64, FileFault>
    ensures { result ≡ weight_of (words text.now) }
{
    let Some((word, rest)) = next_word(text) else {
        return Err(FileFault::Empty);
    };
    match next_word(rest) {
        None => check_weight(number(word)?),
        Some(_) => Err(FileFault::TooManyWords),
    }
}

fn burst(text: &[u8]) -> Result<u64, FileFault>
    ensures { result ≡ burst_of (words text.now) }
{
    let Some((word, rest)) = next_word(text) else {
        return Err(FileFault::Empty);
    };
    match next_word(rest) {
        None => check_burst(number(word)?),
        Some(_) => Err(FileFault::TooManyWords),
    }
}

// Values of a `cpu.max` of one word: a quota and no period.
fn max_of_one_word(first: &[u8]) -> Result<MaxWrite, FileFault>
    ensures { result ≡ max_of (first.now ∷ []) }
{
    let asked = quota_word(first)?;
    let quota = quota_in(asked)?;
    Ok(MaxWrite {
        quota,
        period: None,
    })
}

// Values of a `cpu.max` of two words: a quota and a period.
fn max_of_two_words(first: &[u8], second: &[u8]) -> Result<MaxWrite, FileFault>
    ensures { result ≡ max_of (first.now ∷ second.now ∷ []) }
{
    let asked = quota_word(first)?;
    let n = number(second)?;
    let quota = quota_in(asked)?;
    let period = check_period(n)?;
    Ok(MaxWrite {
        quota,
        period: Some(period),
    })
}

fn max(text: &[u8]) -> Result<MaxWrite, FileFault>
    ensures { result ≡ max_of (words text.now) }
{
    let Some((first, rest)) = next_word(text) else {
        return Err(FileFault::Empty);
    };
    let Some((second, rest)) = next_word(rest) else {
        return max_of_one_word(first);
    };
    if next_word(rest).is_some() {
        return Err(FileFault::TooManyWords);
    }
    max_of_two_words(first, second)
}

/// Reads a text of `cpu.weight`: a weight, 1 to 10000 (cgroup-v2.rst, "CPU Interface Files").
///
/// # Errors
///
/// The first that applies:
/// - [`FileFault::Empty`]
/// - [`FileFault::TooManyWords`]
/// - [`FileFault::BadNumber`]
/// - [`FileFault::WeightOutOfRange`]
pub fn read_weight(text: &[u8]) -> Result<u64, FileFault>
    // A number is read if and only if it is the weight of the text.
    ensures found { IfOk result (λ n. IsWeightText text.now n) }
    ensures only { (n : ℕ) → IsWeightText text.now n → result ≡ Ok n }
    // Which fault is returned.
    ensures exact { result ≡ weight_of (words text.now) }
{
    weight(text)
}

/// Reads a text of `cpu.max.burst`: a burst, 0 to 10^15 microseconds.
///
/// Source: cgroup-v2.rst, "CPU Interface Files".
///
/// # Errors
///
/// The first that applies:
/// - [`FileFault::Empty`]
/// - [`FileFault::TooManyWords`]
/// - [`FileFault::BadNumber`]
/// - [`FileFault::QuotaTooLarge`]
pub fn read_burst(text: &[u8]) -> Result<u64, FileFault>
    // A number is read if and only if it is the burst of the text.
    ensures found { IfOk result (λ n. IsBurstText text.now n) }
    ensures only { (n : ℕ) → IsBurstText text.now n → result ≡ Ok n }
    // Which fault is returned.
    ensures exact { result ≡ burst_of (words text.now) }
{
    burst(text)
}

/// Reads a text of `cpu.max`: a quota, and optionally a period, both in microseconds.
///
/// Source: cgroup-v2.rst, "CPU Interface Files".
///
/// # Errors
///
/// The first that applies:
/// - [`FileFault::Empty`]
/// - [`FileFault::TooManyWords`]
/// - [`FileFault::BadNumber`], of either word
/// - [`FileFault::QuotaTooSmall`]
/// - [`FileFault::QuotaTooLarge`]
/// - [`FileFault::PeriodOutOfRange`]
pub fn read_max(text: &[u8]) -> Result<MaxWrite, FileFault>
    // A value is read if and only if it is the value of the text.
    ensures found { IfOk result (λ m. IsMaxText text.now m) }
    ensures only { (m : MaxWrite) → IsMaxText text.now m → result ≡ Ok m }
    // Which fault is returned.
    ensures exact { result ≡ max_of (words text.now) }
    ensures valid { IfOk result (λ m. IsValid m.quota
        × IfSome m.period (λ n. (MIN_PERIOD_US ≤ n) × (n ≤ MAX_PERIOD_US))) }
{
    max(text)
}
