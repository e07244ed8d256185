//! The words of a line. Spaces and tabs stand between them.
ghost use Rattle.std.specs.Prelude.{◌≡◌, ◌≤◌, ◌<◌, length, not, position, IfSome, IsCharBoundary};
ghost use Rattle.bw_commands.specs.Word.{is_blank, word_len_of, blank_len_of, first_word};
ghost use Rattle.bw_commands.specs.Word.{after_word};

use bw_text::len_before;

fn is_blank(byte: u8) -> bool
    ensures { result ≡ is_blank byte }
{
    byte == b' ' || byte == b'\t'
}

fn first_other(text: &[u8]) -> Option<usize>
    ensures value { result ≡ position (λ b. not (is_blank b)) text.now }
    ensures within { IfSome result (λ n. n < length text.now) }
{
    text.iter().position(|b| !is_blank(*b))
}

// The number of bytes before the first blank. It is not inlined, since it is much code, and a line
// calls it for each of its words.
#[inline(never)]
fn word_len(text: &str) -> usize
    ensures value { result ≡ word_len_of text.now }
    ensures boundary { IsCharBoundary text.now result }
{
    len_before(text.as_bytes(), b' ', b'\t')
}

// The number of blanks before the first word.
#[inline(always)]
fn blank_len(text: &str) -> usize
    ensures value { result ≡ blank_len_of text.now }
    ensures boundary { IsCharBoundary text.now result }
{
    first_other(text.as_bytes()).unwrap_or(text.len())
}

/// The first word, and what stands after it.
#[tactic(auto, unfolding(crate::specs::Word::first_word, crate::specs::Word::after_word))]
#[inline(always)]
pub fn split_word(text: &str) -> (&str, &str)
    ensures word { result.0.now ≡ first_word text.now }
    ensures rest { result.1.now ≡ after_word text.now }
{
    let (_, text) = text.split_at(blank_len(text));
    text.split_at(word_len(text))
}
