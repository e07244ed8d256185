//! Hash of a path. A group is found by that of its whole path.
ghost use Rattle.std.specs.Prelude.{◌≡◌, ◌<◌, ◌^◌};
ghost use Rattle.bw_tree.specs.Keys.{value_with, with_byte, with_bytes, with_words, number};
ghost use Rattle.bw_tree.specs.Nodes.{no_text_hash};

use std::hash::{BuildHasher, RandomState};

// The greatest prime below 2^32: the product of two values below it is less than 2^64.
const PRIME: u64 = 4_294_967_291;

// From here on three bytes wait, after the one.
const FULL: u32 = 0x0100_0000;

// Hash of a text that may go on: the value at the seed of the polynomial whose coefficients are 1
// and the text's words of four bytes. No byte of a text is 255, so each word is below the prime.
// The last word has fewer bytes, and a one before them. So two texts of at most n bytes have one
// number at n points at most.
#[derive(Clone, Copy, Debug)]
pub(crate) struct PathHash {
    // value of the whole words
    value: u32,
    // one, and after it the bytes of the last word, at most three
    waiting: u32,
}

impl PathHash {
    // Hash of no text.
    pub(crate) fn empty() -> PathHash
        ensures { result ≡ no_text_hash }
    {
        PathHash {
            value: 1,
            waiting: 1,
        }
    }

    // Hash of the text and one more byte.
    #[tactic(auto, unfolding(crate::specs::Keys::with_byte))]
    pub(crate) fn with_byte(self, seed: u64, byte: u8) -> PathHash
        ensures { result ≡ with_byte seed self byte }
    {
        let waiting = self.waiting.wrapping_mul(256).wrapping_add(u32::from(byte));
        if self.waiting < FULL {
            return PathHash {
                value: self.value,
                waiting,
            };
        }
        PathHash {
            value: value_with(seed, self.value, waiting),
            waiting: 1,
        }
    }

    // Hash of the text and more bytes.
    pub(crate) fn with_bytes(self, seed: u64, bytes: &[u8]) -> PathHash
        ensures { result ≡ with_bytes seed self bytes.now }
    {
        if self.waiting == 1 {
            return PathHash::after_words(seed, self.value, bytes);
        }
        self.with_each(seed, bytes)
    }

    // Hash of the text and more bytes, byte by byte.
    #[tactic(auto, unfolding(crate::specs::Keys::with_bytes))]
    fn with_each(self, seed: u64, bytes: &[u8]) -> PathHash
        ensures { result ≡ with_bytes seed self bytes.now }
    {
        bytes
            .iter()
            .fold(self, |hash, byte| hash.with_byte(seed, *byte))
    }

    // Hash of whole words that have this value and of more bytes, four of them at a time.
    fn after_words(seed: u64, value: u32, bytes: &[u8]) -> PathHash
        ensures { result ≡ with_bytes seed (record { value = value; waiting = 1 }) bytes.now }
    {
        let (words, rest) = bytes.as_chunks::<4>();
        let value = with_words(seed, value, words);
        PathHash { value, waiting: 1 }.with_each(seed, rest)
    }

    // Number that stands for the whole text: the key of the group with this path.
    #[tactic(auto, unfolding(crate::specs::Keys::number))]
    pub(crate) fn number(self, seed: u64) -> u64
        ensures { result ≡ number seed self }
    {
        u64::from(value_with(seed, value_with(seed, self.value, self.waiting), 0))
    }

    // Hash of a whole text.
    pub(crate) fn of_text(seed: u64, text: &[u8]) -> PathHash
        ensures { result ≡ with_bytes seed no_text_hash text.now }
    {
        PathHash::after_words(seed, 1, text)
    }
}

// Point that the keys give: below the prime, and as good as random where they are.
pub(crate) fn seed_of(keys: RandomState) -> u64 {
    keys.hash_one("") % PRIME
}

// The value of the polynomial with more coefficients, which are words of four bytes.
#[tactic(auto, unfolding(crate::specs::Keys::with_words))]
fn with_words(seed: u64, value: u32, words: &[[u8; 4]]) -> u32
    ensures { result ≡ with_words seed value words.now }
{
    words.iter().fold(value, |value, word| {
        value_with(seed, value, u32::from_be_bytes(*word))
    })
}

// The value of the polynomial with one more coefficient.
fn value_with(seed: u64, value: u32, word: u32) -> u32
    ensures { result ≡ value_with seed value word }
{
    let sum = u64::from(value)
        .wrapping_mul(seed)
        .wrapping_add(u64::from(word));
    (sum % PRIME) as u32
}
