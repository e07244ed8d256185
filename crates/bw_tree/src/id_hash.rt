//! Hash of an id, for the map of groups.
ghost use Rattle.std.specs.Prelude.{◌≡◌, slice_index};

use std::hash::{BuildHasher, Hasher};

// An odd number near 2^64 over the golden ratio. Ids in turn get hashes that are far apart.
const SPREAD: u64 = 0x9e37_79b9_7f4a_7c15;

// Makes the hashers of a map by id. A tree gives its ids itself, so they need no secret.
#[derive(Clone, Copy, Debug)]
pub(crate) struct IdHashes;

impl BuildHasher for IdHashes {
    ghost use Rattle.bw_tree.specs.declared.id_hash.IdHasher.{IdHasher};

    type Hasher = IdHasher;

    ghost build_hasher = { λ _. record { id = 0 } };

    fn build_hasher(&self) -> IdHasher {
        IdHasher { id: 0 }
    }
}

// Hasher of one id. Its hash is the id times a number.
#[derive(Clone, Copy, Debug)]
pub(crate) struct IdHasher {
    id: u64,
}

impl Hasher for IdHasher {
    ghost use Rattle.std.specs.Prelude.{◌*◌, ◌%◌, ◌^◌};
    ghost use Rattle.std.specs.Int.{w64, from_le_bytes};
    ghost use Rattle.bw_tree.specs.declared.id_hash.TheConstants.{SPREAD};

    ghost write = { λ _ bytes. record { id = from_le_bytes w64 bytes } };

    ghost finish = { λ s. s.id * SPREAD % 2 ^ 64 };

    fn finish(&self) -> u64 {
        self.id.wrapping_mul(SPREAD)
    }

    fn write(&mut self, bytes: &[u8]) {
        let [a, b, c, d] = [at(bytes, 0), at(bytes, 1), at(bytes, 2), at(bytes, 3)];
        let [e, f, g, h] = [at(bytes, 4), at(bytes, 5), at(bytes, 6), at(bytes, 7)];
        self.id = u64::from_le_bytes([a, b, c, d, e, f, g, h]);
    }

    fn write_u64(&mut self, id: u64) {
        self.id = id;
    }
}

// Byte at a place, 0 behind the last one.
fn at(bytes: &[u8], place: usize) -> u8
    ensures { result ≡ slice_index bytes.now place }
{
    match bytes.get(place) {
        None => 0,
        Some(byte) => *byte,
    }
}
