//! Blocks that were read lately.
ghost use Rattle.std.specs.Prelude.{◌≡◌, ◌⊎◌, ◌≤◌, ◌+◌, ℕ, List, [], length, IfOk, IsTrue};
ghost use Rattle.std.specs.List.{Contains};
ghost use Rattle.std.specs.NonZero.{non_zero_usize_get};
ghost use Rattle.block_cache.specs.Cached.{IsHeld, IsOfBlock, range};

use flow_base::{Bytes, NoMemory};
use lru::LruCache;
use std::alloc::Global;
use std::marker::Model;
use std::num::NonZeroUsize;

/// How many bytes a block has.
pub const BLOCK: usize = 4096;

/// How many blocks are held at most.
const MOST: usize = 1024;

/// Blocks that were read lately, each by its number. Of more than are held at most, the one that was
/// used least lately goes.
#[derive(Drop)]
pub struct Blocks {
    held: LruCache<u64, Bytes>,
}

impl Model for Blocks {
    ghost use Rattle.std.specs.Prelude.{◌≡◌, ℕ, List};
    ghost use Rattle.block_cache.specs.Cached.{AreWhole};

    ghost Value = { List (ℕ × List ℕ) };

    ghost view = { λ b. b.held.entries };

    ghost invariant = { λ b. AreWhole b.held.entries };
}

impl Blocks {
    /// No block.
    pub fn new(alloc: Global) -> Result<Blocks, NoMemory>
        ensures { IfOk result (λ blocks. blocks ≡ []) }
    {
        let held = LruCache::sparse(alloc, most())?;
        Ok(Blocks { held })
    }

    /// Fills a piece from a place in a block on, and says whether the block is held.
    pub fn copy_held(&mut self, number: u64, from: usize, piece: &mut [u8]) -> bool
        requires within { from + length piece.old ≤ 4096 }
        ensures held { IsTrue result → IsOfBlock self.old number from piece.new }
        ensures exact { IsHeld number self.old → IsTrue result }
        ensures no_more { (n : ℕ) (held : List ℕ) → Contains self.new (n, held)
            → Contains self.old (n, held) }
        ensures no_fewer { (n : ℕ) → IsHeld n self.old → IsHeld n self.new }
    {
        let Some(block) = self.held.get(&number) else {
            return false;
        };
        copy_from(block.as_slice(), from, piece);
        true
    }

    /// Holds a block, if there is memory for it.
    pub fn keep(&mut self, number: u64, block: Bytes)
        requires whole { length block ≡ 4096 }
        ensures no_more { (n : ℕ) (held : List ℕ) → Contains self.new (n, held)
            → Contains self.old (n, held) ⊎ ((n ≡ number) × (held ≡ block)) }
    {
        match self.held.put(number, block) {
            Ok(_) => {}
            Err(_) => {}
        }
    }
}

// How many blocks are held at most.
fn most() -> NonZeroUsize
    ensures { non_zero_usize_get result ≡ 1024 }
{
    match NonZeroUsize::new(MOST) {
        Some(most) => most,
        None => unreachable!(),
    }
}

/// Fills a piece from a place in a block on.
pub fn copy_from(block: &[u8], from: usize, piece: &mut [u8])
    requires within { from + length piece.old ≤ length block.now }
    ensures { piece.new ≡ range from (length piece.new) block.now }
{
    piece.copy_from_slice(&block[from..from + piece.len()]);
}
