//! Pages: the ids of the blocks of 16 places.
ghost use Rattle.std.specs.Prelude.{◌≡◌, ◌↔◌, ◌⊎◌, ◌+◌, ◌-◌, ◌<◌, ◌≤◌, ◌^◌, ℕ, false, true, length, slice_index, IsTrue};
ghost use Rattle.std.specs.Vec.{vec_len, vec_capacity};

use crate::block::Block;
use crate::blocks;
use crate::pool::Pool;
use crate::slot::Slot;

/// How many places a page has.
pub const PLACES: usize = 16;

/// The ids of the blocks of 16 places.
#[derive(Clone, Copy)]
pub struct Page {
    pub ids: [u32; PLACES],
    ghost size: { length ids ≡ 16 },
}

impl Page {
    ghost use Rattle.reduce_source.specs.BitsOf.{HasBit};
    ghost use Rattle.reduce_source.specs.Blocks.{words_of};
    ghost use Rattle.reduce_source.specs.Owners.{AreHeldBy, AreKept};
    ghost use Rattle.reduce_source.specs.Pages.{PutsPage};

    /// A page of the ids 0.
    pub fn empty() -> Page
        ensures { (k : ℕ) → slice_index result.ids k ≡ 0 }
    {
        Page { ids: [0; PLACES] }
    }

    /// The page with the blocks of two, each joined in the room that was made for it. `object` is
    /// whose page this is.
    pub fn join(&self, blocks: &mut Pool<Block>, object: u32, other: &Page) -> Page
        requires held { AreHeldBy object blocks.old.slots.items (slice_index self.now.ids) }
        requires other { AreKept object blocks.old.slots.items (slice_index other.now.ids) }
        requires room { vec_len blocks.old.slots + 16 ≤ vec_capacity blocks.old.slots }
        requires few { vec_len blocks.old.slots + 16 < 2 ^ 32 }
        ensures bits { (k j : ℕ) → k < 16
            → HasBit (words_of blocks.new.slots.items (slice_index result.ids k)) j
            ↔ (HasBit (words_of blocks.old.slots.items (slice_index self.now.ids k)) j
            ⊎ HasBit (words_of blocks.old.slots.items (slice_index other.now.ids k)) j) }
        ensures puts { PutsPage object 16 (slice_index self.now.ids) (slice_index result.ids)
            blocks.old.slots blocks.new.slots }
    {
        let mut ids = self.ids;
        for place in 0..PLACES {
            ids[place] = blocks::join(blocks, object, ids[place], other.ids[place]);
        }
        Page { ids }
    }

    /// The page with one more bit at a place, marked in the room that was made for it. `object` is
    /// whose page this is.
    pub fn mark(&self, blocks: &mut Pool<Block>, object: u32, place: usize, bit: usize) -> Page
        requires place { place < 16 }
        requires bit { bit < 512 }
        requires room { vec_len blocks.old.slots < vec_capacity blocks.old.slots }
        requires few { vec_len blocks.old.slots < 2 ^ 32 - 1 }
        requires held { AreHeldBy object blocks.old.slots.items (slice_index self.now.ids) }
        ensures bits { (k j : ℕ) → k < 16
            → HasBit (words_of blocks.new.slots.items (slice_index result.ids k)) j
            ↔ (HasBit (words_of blocks.old.slots.items (slice_index self.now.ids k)) j
            ⊎ ((k ≡ place) × (j ≡ bit))) }
        ensures puts { PutsPage object 16 (slice_index self.now.ids) (slice_index result.ids)
            blocks.old.slots blocks.new.slots }
    {
        let mut ids = self.ids;
        ids[place] = blocks::mark(blocks, object, ids[place], bit);
        Page { ids }
    }

    /// Whether each bit of its blocks is a bit of another's at the same place.
    pub fn is_within(&self, slots: &[Slot<Block>], large: &Page) -> bool
        ensures yes { result ≡ true → (k j : ℕ) → k < 16
            → HasBit (words_of slots.now (slice_index self.now.ids k)) j
            → HasBit (words_of slots.now (slice_index large.now.ids k)) j }
        ensures no { result ≡ false → (k j : ℕ) × (k < 16) × (j < 512)
            × HasBit (words_of slots.now (slice_index self.now.ids k)) j
            × ¬ HasBit (words_of slots.now (slice_index large.now.ids k)) j }
    {
        for place in 0..PLACES {
            let covered = blocks::is_within(slots, self.ids[place], large.ids[place]);
            if !covered {
                return false;
            }
        }
        true
    }

    /// Whether it has the same ids as another.
    pub fn is_same(&self, other: &Page) -> bool
        ensures { IsTrue result ↔ (self.now.ids ≡ other.now.ids) }
    {
        self.ids == other.ids
    }
}
