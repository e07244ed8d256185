//! The words of a short text, by the places of its blanks.
//!
//! All bytes are tested for blanks at once. Then each word takes a few instructions, where a search
//! byte after byte takes some for each byte.
ghost use Rattle.std.specs.Prelude.{◌≡◌, ◌+◌, ◌-◌, ◌*◌, ◌≤◌, length, take, drop};
ghost use Rattle.std.specs.Str.{IsCharBoundary};
ghost use Rattle.std.specs.Simd.Lanes.{chunk};
ghost use Rattle.bw_commands.specs.Word.{blanks_of, blank_len_of, word_len_of};
ghost use Rattle.bw_commands.specs.Word.{first_word, after_word, end_of};

use crate::heads::begins_with;
use bw_text::places_among;

// Bytes of a narrow load, and of a middle one.
const NARROW: usize = 8;

const MIDDLE: usize = 16;

/// Bytes of the widest load.
pub const WIDE: usize = 32;

/// Least length of a text whose blanks are marked.
pub const LEAST_MARKED: usize = 8;

/// Greatest length of a text whose blanks are marked: a number has a bit for each byte, and one
/// more.
pub const MOST_MARKED: usize = 63;

ghost use Rattle.bw_commands.specs.declared.marked.TheConstants.{NARROW, MIDDLE, WIDE};
ghost use Rattle.bw_commands.specs.declared.marked.TheConstants.{LEAST_MARKED, MOST_MARKED};

/// A text with the places of its blanks.
#[derive(Clone, Copy)]
pub struct Marked<'a> {
    text: &'a str,
    // bit k is set if the byte at k is a blank
    blanks: u64,
    ghost short: { length text.now ≤ MOST_MARKED },
    ghost marks: { blanks ≡ blanks_of text.now },
}

impl<'a> Marked<'a> {
    ghost use Rattle.std.specs.Prelude.{◌≡◌, ◌≤◌, length, take, drop};
    ghost use Rattle.std.specs.Str.{IsCharBoundary};
    ghost use Rattle.bw_commands.specs.Word.{word_len_of, first_word, after_word, end_of};
    ghost use Rattle.std.specs.Prelude.{◌<◌, List, ℕ, true, MatchOption, IfSome, IsSome};
    ghost use Rattle.std.specs.Prelude.{◌++◌, ◌-◌, slice_index};
    ghost use Rattle.bw_commands.specs.Plain.{IsWord, BeginsWith};

    /// Marks the blanks of a text.
    pub fn new(text: &'a str) -> Marked<'a>
        requires some { LEAST_MARKED ≤ length text.now }
        requires few { length text.now ≤ MOST_MARKED }
        ensures { result.text.now ≡ text.now }
    {
        Marked {
            text,
            blanks: blanks_of(text.as_bytes()),
        }
    }

    /// Marks the blanks of the end of a text, by one load.
    #[inline(always)]
    pub fn at_end(text: &str, end: &'a str) -> Marked<'a>
        requires some { WIDE ≤ length text.now }
        requires few { length end.now ≤ WIDE }
        requires end { end.now ≡ end_of (length end.now) text.now }
        ensures { result.text.now ≡ end.now }
    {
        let bytes = text.as_bytes();
        let last = blanks_at::<WIDE>(bytes, bytes.len() - WIDE);
        Marked {
            text: end,
            blanks: last >> (WIDE - end.len()),
        }
    }

    /// Marks the blanks of the first bytes of a text, by one load.
    #[inline(always)]
    pub fn at_front(text: &'a str, len: usize) -> Marked<'a>
        requires some { WIDE ≤ length text.now }
        requires few { len ≤ WIDE }
        requires boundary { IsCharBoundary text.now len }
        ensures { result.text.now ≡ take len text.now }
    {
        let near = blanks_at::<WIDE>(text.as_bytes(), 0);
        let (front, _) = text.split_at(len);
        Marked {
            text: front,
            blanks: near & ((1 << len) - 1),
        }
    }

    /// Returns the text.
    pub fn text(self) -> &'a str
        ensures { result.now ≡ self.entry.text.now }
    {
        self.text
    }

    // The number of bytes before the first blank.
    #[inline(always)]
    fn word_len(self) -> usize
        ensures value { result ≡ word_len_of self.entry.text.now }
        ensures boundary { IsCharBoundary self.entry.text.now result }
    {
        if self.blanks == 0 {
            self.text.len()
        } else {
            self.blanks.trailing_zeros() as usize
        }
    }

    // The parts in front of a place and behind it.
    #[inline(always)]
    fn split_at(self, place: usize) -> (&'a str, Marked<'a>)
        requires { IsCharBoundary self.text.now place }
        ensures front { result.0.now ≡ take place self.entry.text.now }
        ensures behind { result.1.text.now ≡ drop place self.entry.text.now }
    {
        let (front, text) = self.text.split_at(place);
        let blanks = self.blanks >> place;
        (front, Marked { text, blanks })
    }

    /// The first word and what stands behind the blank after it, if the text begins with these.
    #[inline(always)]
    pub fn front_word(self) -> Option<(&'a str, Marked<'a>)>
        ensures found { IfSome result
            (λ p. BeginsWith self.entry.text.now p.0.now p.1.text.now) }
        ensures only { (word rest : List ℕ) → BeginsWith self.entry.text.now word rest
            → IsSome result }
    {
        if self.blanks == 0 {
            return None;
        }
        let len = self.word_len();
        if len == 0 {
            return None;
        }
        let (word, _) = self.text().split_at(len);
        let (_, rest) = self.split_at(len + 1);
        Some((word, rest))
    }

    /// The first word and what stands behind it, if the text begins with a word.
    #[inline(always)]
    pub fn word_and_text(self) -> Option<(&'a str, &'a str)>
        ensures { MatchOption result (word_len_of self.entry.text.now ≡ 0)
            (λ p. (0 < word_len_of self.entry.text.now)
            × (p.0.now ≡ take (word_len_of self.entry.text.now) self.entry.text.now)
            × (p.1.now ≡ drop (word_len_of self.entry.text.now) self.entry.text.now)) }
    {
        let len = self.word_len();
        if len == 0 {
            return None;
        }
        let (word, rest) = self.split_at(len);
        Some((word, rest.text))
    }

    /// Whether the text is a word.
    #[inline(always)]
    pub fn is_word(self) -> bool
        ensures word { result ≡ true → IsWord self.entry.text.now }
        ensures only { IsWord self.entry.text.now → result ≡ true }
    {
        self.blanks == 0 && !self.text.is_empty()
    }

    /// Returns the text behind these bytes, if it begins with them. The last of them is a space.
    #[inline(always)]
    pub fn behind(self, front: &'static str) -> Option<Marked<'a>>
        requires least { 4 ≤ length front.now }
        requires most { length front.now ≤ LEAST_MARKED }
        requires room { LEAST_MARKED ≤ length self.text.now }
        requires space { slice_index front.now (length front.now - 1) ≡ 32 }
        ensures { MatchOption result
            ((rest : List ℕ) → self.entry.text.now ≡ front.now ++ rest → ⊥)
            (λ m. self.entry.text.now ≡ front.now ++ m.text.now) }
    {
        if !begins_with(self.text.as_bytes(), front.as_bytes()) {
            return None;
        }
        let (_, rest) = self.split_at(front.len());
        Some(rest)
    }

    /// The first word, and what stands after it.
    #[tactic(auto, unfolding(crate::specs::Word::first_word, crate::specs::Word::after_word))]
    #[inline(always)]
    pub fn split_word(self) -> (&'a str, Marked<'a>)
        ensures word { result.0.now ≡ first_word self.entry.text.now }
        ensures rest { result.1.text.now ≡ after_word self.entry.text.now }
    {
        let (_, words) = self.split_at(blank_len(self.text, self.blanks));
        words.split_at(words.word_len())
    }
}

// The number of blanks before the first word of a text, by the places of its blanks.
#[inline(always)]
fn blank_len(text: &str, blanks: u64) -> usize
    requires short { length text.now ≤ MOST_MARKED }
    requires marks { blanks ≡ blanks_of text.now }
    ensures value { result ≡ blank_len_of text.now }
    ensures boundary { IsCharBoundary text.now result }
{
    blanks.trailing_ones() as usize
}

// The places of the blanks of a text.
#[inline(always)]
fn blanks_of(text: &[u8]) -> u64
    requires some { LEAST_MARKED ≤ length text.now }
    requires few { length text.now ≤ MOST_MARKED }
    ensures { result ≡ blanks_of text.now }
{
    let len = text.len();
    if len < MIDDLE {
        blanks_by::<NARROW>(text)
    } else if len < WIDE {
        blanks_by::<MIDDLE>(text)
    } else {
        blanks_by::<WIDE>(text)
    }
}

// The places of the blanks of a text of N to 2 N bytes, from those of its first and of its last N.
// The first and the last may overlap.
#[inline(always)]
fn blanks_by<const N: usize>(text: &[u8]) -> u64
    requires wide { N ≤ WIDE }
    requires some { N ≤ length text.now }
    requires few { length text.now ≤ 2 * N }
    ensures { result ≡ blanks_of text.now }
{
    let (front, last) = (
        blanks_at::<N>(text, 0),
        blanks_at::<N>(text, text.len() - N),
    );
    last >> (2 * N - text.len()) << N | front
}

// The places of the blanks among N bytes.
#[inline(always)]
fn blanks_at<const N: usize>(text: &[u8], at: usize) -> u64
    requires room { at + N ≤ length text.now }
    requires few { N ≤ 64 }
    ensures { result ≡ blanks_of (chunk at N text.now) }
{
    places_among::<N>(text, at, b' ', b'\t')
}
