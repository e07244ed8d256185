//! Comparison of a text with a fixed word.
ghost use Rattle.std.specs.Prelude.{◌≡◌};
ghost use Rattle.std.specs.Str.{bytes_eq};

/// Whether a text is this word.
///
/// It is compared in place: for a short word a call of the library's comparison takes longer.
#[inline(always)]
pub fn is_word(text: &str, word: &'static str) -> bool
    ensures { result ≡ bytes_eq text.now word.now }
{
    let (bytes, wanted) = (text.as_bytes(), word.as_bytes());
    if bytes.len() != wanted.len() {
        return false;
    }
    for at in 0..wanted.len() {
        if bytes[at] != wanted[at] {
            return false;
        }
    }
    true
}
