//! Keys of the hash by which groups are found.
use std::hash::RandomState;
use std::io::Result;
use std::random::RandomSource;
use std::rt::Clock;

// Random bytes of the system. Where it has none, the time since 1970 in nanoseconds stands in. The
// time is no secret, but a script that was written before the run cannot know it.
#[derive(Drop)]
struct KeySource<'a, H> {
    rt: &'a H,
}

impl<H: RandomSource + Clock> RandomSource for KeySource<'_, H> {
    fn fill_bytes(&self, buf: &mut [u8]) -> Result<()> {
        if self.rt.fill_bytes(buf).is_ok() {
            return Ok(());
        }
        let time = match self.rt.since_1970() {
            Ok(time) => time.as_nanos(),
            Err(_) => 0,
        };
        for (byte, part) in buf.iter_mut().zip(&time.to_le_bytes()) {
            *byte = *part;
        }
        Ok(())
    }
}

/// Keys for the names of one run.
///
/// # Errors
///
/// None. The type is that of `RandomState::new`, which hands on an error of its source.
pub(crate) fn hash_keys<H: RandomSource + Clock>(rt: &H) -> Result<RandomState> {
    RandomState::new(&KeySource { rt })
}
