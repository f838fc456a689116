//! The pools of the blocks and pages of all sets. A page is the ids of the blocks of 16 places. The
//! list of a set has the ids of its pages, so what counts for it is the flattened list: the ids of
//! its pages, one page after the other. Blocks are joined and shared by these. Pages only keep the
//! lists, and are shared themselves: sets with the same 16 ids may have the same page.
ghost use Rattle.std.specs.Prelude.{◌≡◌, ◌↔◌, ◌⊎◌, ◌<◌, ℕ, [], false, true, slice_index, IsTrue};
ghost use Rattle.reduce_source.specs.BitsOf.{HasBit};
ghost use Rattle.reduce_source.specs.Slots.{owner_of};
ghost use Rattle.reduce_source.specs.Blocks.{id_on};
ghost use Rattle.reduce_source.specs.Owners.{AreHeldBy, AreKept, IsKept, MayHave};

use crate::block::Block;
use crate::blocks;
use crate::page::Page;
use crate::pool::{Pool, slot_of};
use crate::slot::Slot;
use std::alloc::Global;

/// The blocks and pages of all sets.
#[derive(Drop)]
pub struct Pools {
    pub blocks: Pool<Block>,
    pub pages: Pool<Page>,
}

impl Pools {
    ghost use Rattle.reduce_source.specs.Pools.{Fits, ReplacesPage, page_id, words_on};

    /// No blocks and no pages.
    pub fn new(alloc: Global) -> Pools
        ensures blocks { result.blocks.slots.items ≡ [] }
        ensures pages { result.pages.slots.items ≡ [] }
    {
        Pools {
            blocks: Pool::new(alloc),
            pages: Pool::new(alloc),
        }
    }

    /// The id of a page with the blocks of two, each joined, in place of the page `mine` of an
    /// object. A page is changed or made only if neither has the ids of the joined blocks.
    pub fn join(&mut self, object: u32, mine: u32, other: u32) -> u32
        requires mine { MayHave object (owner_of self.old.pages.slots.items mine) }
        requires other { IsKept object (owner_of self.old.pages.slots.items other) }
        requires held { AreHeldBy object self.old.blocks.slots.items (page_id self.old mine) }
        requires kept { AreKept object self.old.blocks.slots.items (page_id self.old other) }
        requires room { Fits 1 self.old }
        ensures bits { (k j : ℕ) → k < 16 → HasBit (words_on self.new result k) j
            ↔ (HasBit (words_on self.old mine k) j ⊎ HasBit (words_on self.old other k) j) }
        ensures replaces { ReplacesPage object mine result self.old self.new }
    {
        if mine == other {
            return mine;
        }
        let old = page_of(&self.pages.slots, mine);
        let more = page_of(&self.pages.slots, other);
        let joined = old.join(&mut self.blocks, object, &more);
        let has_all = joined.is_same(&old);
        if has_all {
            return mine;
        }
        let gives_all = joined.is_same(&more);
        if gives_all {
            return self.pages.take_over(object, mine, other);
        }
        self.pages.put(object, mine, joined)
    }

    /// The id of a page with the blocks of the page `mine` of an object and one bit more.
    pub fn mark(&mut self, object: u32, mine: u32, place: usize, bit: usize) -> u32
        requires place { place < 16 }
        requires bit { bit < 512 }
        requires held { AreHeldBy object self.old.blocks.slots.items (page_id self.old mine) }
        requires room { Fits 1 self.old }
        ensures bits { (k j : ℕ) → k < 16 → HasBit (words_on self.new result k) j
            ↔ (HasBit (words_on self.old mine k) j ⊎ ((k ≡ place) × (j ≡ bit))) }
        ensures replaces { ReplacesPage object mine result self.old self.new }
    {
        let old = page_of(&self.pages.slots, mine);
        let page = old.mark(&mut self.blocks, object, place, bit);
        self.pages.put(object, mine, page)
    }

    /// Whether a page has a bit at a place.
    pub fn has_bit(&self, id: u32, place: usize, bit: usize) -> bool
        requires place { place < 16 }
        requires bit { bit < 512 }
        ensures { IsTrue result ↔ HasBit (words_on self.now id place) bit }
    {
        let page = page_of(&self.pages.slots, id);
        blocks::has_bit(&self.blocks.slots, page.ids[place], bit)
    }

    /// Whether each bit of one page is a bit of another.
    pub fn is_within(&self, small: u32, large: u32) -> bool
        ensures yes { result ≡ true → (k j : ℕ) → k < 16 → HasBit (words_on self.now small k) j
            → HasBit (words_on self.now large k) j }
        ensures no { result ≡ false → (k j : ℕ) × (k < 16) × (j < 512)
            × HasBit (words_on self.now small k) j × ¬ HasBit (words_on self.now large k) j }
    {
        if small == large {
            return true;
        }
        let few = page_of(&self.pages.slots, small);
        let many = page_of(&self.pages.slots, large);
        few.is_within(&self.blocks.slots, &many)
    }
}

/// The page with an id. The id 0 is that of a page of the ids 0.
fn page_of(slots: &[Slot<Page>], id: u32) -> Page
    ensures { (k : ℕ) → slice_index result.ids k ≡ id_on slots.now id k }
{
    match slot_of(slots, id) {
        None => Page::empty(),
        Some(slot) => slot.value,
    }
}
