//! The key of a process's maps.
use crate::hasher::KeyedHasher;
use std::hash::BuildHasher;
use std::random::RandomSource;

/// Two numbers that the hashes of a map depend on. Who chooses the keys of a map and doesn't know these can't choose keys
/// whose hashes collide. No answer depends on them: what a map has, and in which order, is the same under each key.
#[derive(Clone, Copy, Debug, PartialEq, Eq)]
pub struct HashKey {
    state: u64,
    factor: u64,
}

impl HashKey {
    /// A key that is known to all, for tests and for maps whose keys nobody chooses: the digits of pi after the point.
    pub fn fixed() -> HashKey {
        HashKey {
            state: 0x243f_6a88_85a3_08d3,
            factor: 0x1319_8a2e_0370_7344,
        }
    }

    /// A key of the system's random bytes; where the system gives none, the fixed key.
    pub fn random(rt: &impl RandomSource) -> HashKey {
        let mut bytes = [0; 16];
        if rt.fill_bytes(&mut bytes).is_err() {
            return HashKey::fixed();
        }
        let numbers = u128::from_le_bytes(bytes);
        HashKey {
            state: (numbers & 0xffff_ffff_ffff_ffff) as u64,
            factor: (numbers >> 64) as u64,
        }
    }
}

impl BuildHasher for HashKey {
    ghost use Rattle.hash_key.specs.private.Hashing.{with_key};

    type Hasher = KeyedHasher;

    ghost build_hasher = { λ key. with_key key.state key.factor };

    #[inline(always)]
    fn build_hasher(&self) -> KeyedHasher {
        KeyedHasher::of(self.state, self.factor)
    }
}
