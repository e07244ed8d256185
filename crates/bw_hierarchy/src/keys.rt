//! Keys of the hash by which groups are found, for callers that have a number for them.
use std::hash::RandomState;
use std::io::Result;
use std::random::RandomSource;

// Gives the bytes of a number. The bytes behind them stay as they are.
#[derive(Clone, Copy)]
struct OneNumber {
    number: u64,
}

impl RandomSource for OneNumber {
    fn fill_bytes(&self, buf: &mut [u8]) -> Result<()> {
        for (byte, part) in buf.iter_mut().zip(&self.number.to_le_bytes()) {
            *byte = *part;
        }
        Ok(())
    }
}

/// Keys that follow from a number, the same ones each time.
///
/// # Cost
///
/// One who knows the number can choose names that meet. Each is then compared with those before it.
///
/// # Errors
///
/// None. The type is that of `RandomState::new`, which hands on an error of its source.
pub fn keys_of(number: u64) -> Result<RandomState> {
    RandomState::new(&OneNumber { number })
}
