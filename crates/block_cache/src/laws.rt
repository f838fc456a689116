//! What keeps a cache true to its disk.
ghost use Rattle.std.specs.Prelude.{◌≡◌, ◌≤◌, ℕ, List, take};
ghost use Rattle.block_cache.specs.Cached.{Cached, IsCacheOf};

/// A cache of a disk is one of whatever reads the same before its firm place, as the disk does after
/// a commit. With a later firm place it is one of the same disk.
pub fn caches_outlive_commits()
    ensures kept { (old new : List ℕ) (cache : Cached) → IsCacheOf old cache
        → take cache.firm new ≡ take cache.firm old → IsCacheOf new cache }
    ensures raised { (bytes : List ℕ) (cache : Cached) (firm : ℕ) → IsCacheOf bytes cache
        → cache.firm ≤ firm → IsCacheOf bytes (record cache { firm = firm }) }
{}
