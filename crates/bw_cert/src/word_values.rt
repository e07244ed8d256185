//! The values of single words of a certified text. A word not of its form is a `BadField`.
ghost use Rattle.std.specs.Prelude.{◌≡◌, ◌==◌, ◌∷◌, [], MatchOption, Err};
ghost use Rattle.std.specs.Option.{option_map};
ghost use Rattle.std.specs.List.{slice_split};
ghost use Rattle.bw_model.specs.Marks.{price_of};
ghost use Rattle.bw_cert.specs.Reading.{seen, number_at, u32_at, parent_at, limit_at, flag_at};
ghost use Rattle.bw_cert.specs.Reading.{level_in_word, in_two};

use crate::fault::CertFault;
use bw_model::Mark;
use bw_text::{read_number, split_once};

/// A plain decimal number of 64 bits.
pub(crate) fn number(word: &[u8]) -> Result<u64, CertFault>
    ensures { result ≡ number_at word.now }
{
    match read_number(word) {
        Ok(n) => Ok(n),
        Err(_) => Err(CertFault::BadField),
    }
}

/// A plain decimal number of 32 bits.
pub(crate) fn u32_number(word: &[u8]) -> Result<u32, CertFault>
    ensures { result ≡ u32_at word.now }
{
    let n = number(word)?;
    if n > 4_294_967_295 {
        return Err(CertFault::BadField);
    }
    Ok(n as u32)
}

/// The row of a parent, `-` for none.
pub(crate) fn parent(word: &[u8]) -> Result<Option<u32>, CertFault>
    ensures { result ≡ parent_at word.now }
{
    if word == b"-".as_slice() {
        return Ok(None);
    }
    Ok(Some(u32_number(word)?))
}

/// A limit in slices, `max` for none.
pub(crate) fn limit(word: &[u8]) -> Result<Option<u64>, CertFault>
    ensures { result ≡ limit_at word.now }
{
    if word == b"max".as_slice() {
        return Ok(None);
    }
    Ok(Some(number(word)?))
}

/// A flag, `1` or `0`.
pub(crate) fn flag(word: &[u8]) -> Result<bool, CertFault>
    ensures { result ≡ flag_at word.now }
{
    if word == b"0".as_slice() {
        return Ok(false);
    }
    if word == b"1".as_slice() {
        return Ok(true);
    }
    Err(CertFault::BadField)
}

// The parts before and after a byte that the word has once.
fn split_in_two(word: &[u8], byte: u8) -> Option<(&[u8], &[u8])>
    ensures { MatchOption result
        (in_two (slice_split (λ b. b == byte) word.now) ≡ Err CertFault.BadField)
        (λ p. slice_split (λ b. b == byte) word.now ≡ p.0.now ∷ p.1.now ∷ []) }
{
    let (front, back) = split_once(word, byte)?;
    match split_once(back, byte) {
        None => Some((front, back)),
        Some(_) => None,
    }
}

/// A level `NUM/DEN@PLACE`, `-` for none.
#[tactic(auto, unfolding(crate::specs::Reading::mark_at))]
pub(crate) fn level(word: &[u8]) -> Result<Option<Mark>, CertFault>
    ensures { seen (option_map price_of) result ≡ level_in_word word.now }
{
    if word == b"-".as_slice() {
        return Ok(None);
    }
    let Some((num, others)) = split_in_two(word, b'/') else {
        return Err(CertFault::BadField);
    };
    let Some((den, place)) = split_in_two(others, b'@') else {
        return Err(CertFault::BadField);
    };
    let num = number(num)?;
    let den = number(den)?;
    let place = u32_number(place)?;
    match Mark::new(num, den, place) {
        None => Err(CertFault::BadField),
        Some(mark) => Ok(Some(mark)),
    }
}
