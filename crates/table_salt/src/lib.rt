//! What a run salts its hash tables with.
//!
//! Whoever writes the log chooses the keys of our tables. If the hash of a key could be foreseen, chosen keys would all
//! have one hash, and each look-up would walk through all of them. So the hash of every key begins with random bytes that
//! are drawn once a run. No reply depends on them: the contracts of the tables hold for every hash.
#![tactic(auto)]

use std::hash::{BuildHasher, FoldHasher, Hasher};
use std::io;
use std::random::RandomSource;

/// Where the hash of each key begins.
#[derive(Clone, Copy)]
pub struct Salt {
    start: FoldHasher,
}

impl Salt {
    /// A salt of random bytes from the system. It fails if the system gives none.
    pub fn drawn(rt: &impl RandomSource) -> io::Result<Salt> {
        let mut bytes = [0; 16];
        rt.fill_bytes(&mut bytes)?;
        let mut start = FoldHasher::default();
        start.write(&bytes);
        Ok(Salt { start })
    }

    /// The salt that is the same in every run, for tests.
    pub fn fixed() -> Salt {
        Salt {
            start: FoldHasher::default(),
        }
    }
}

impl BuildHasher for Salt {
    type Hasher = FoldHasher;

    ghost build_hasher = { λ s. s.start };

    fn build_hasher(&self) -> FoldHasher {
        self.start
    }
}
