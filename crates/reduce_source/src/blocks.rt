//! The blocks of all sets, in a pool. The id 0 is that of no bits.
ghost use Rattle.std.specs.Prelude.{◌≡◌, ◌↔◌, ◌⊎◌, ◌-◌, ◌<◌, ◌^◌, ℕ, false, true, IsTrue};
ghost use Rattle.std.specs.Vec.{vec_len, vec_capacity};
ghost use Rattle.reduce_source.specs.BitsOf.{HasBit};
ghost use Rattle.reduce_source.specs.Slots.{owner_of};
ghost use Rattle.reduce_source.specs.Blocks.{words_of};
ghost use Rattle.reduce_source.specs.Owners.{IsKept, MayHave, Replaces};

use crate::block::Block;
use crate::pool::{Pool, slot_of};
use crate::slot::Slot;

/// The id of a block with the bits of two, in place of the block `mine` of an object. A block is
/// changed or made only if neither has the bits of both.
pub fn join(blocks: &mut Pool<Block>, object: u32, mine: u32, other: u32) -> u32
    requires mine { MayHave object (owner_of blocks.old.slots.items mine) }
    requires other { IsKept object (owner_of blocks.old.slots.items other) }
    requires room { vec_len blocks.old.slots < vec_capacity blocks.old.slots }
    requires few { vec_len blocks.old.slots < 2 ^ 32 - 1 }
    ensures bits { (j : ℕ) → HasBit (words_of blocks.new.slots.items result) j
        ↔ (HasBit (words_of blocks.old.slots.items mine) j
        ⊎ HasBit (words_of blocks.old.slots.items other) j) }
    ensures replaces { Replaces object mine result blocks.old.slots blocks.new.slots }
{
    if mine == other {
        return mine;
    }
    let Some(old) = slot_of(&blocks.slots, mine) else {
        return blocks.take_over(object, mine, other);
    };
    let Some(more) = slot_of(&blocks.slots, other) else {
        return mine;
    };
    let has_all = more.value.is_within(&old.value);
    if has_all {
        return mine;
    }
    let gives_all = old.value.is_within(&more.value);
    if gives_all {
        return blocks.take_over(object, mine, other);
    }
    let both = old.value.union(&more.value);
    blocks.put(object, mine, both)
}

/// The id of a block with the bits of the block `mine` of an object and one more.
pub fn mark(blocks: &mut Pool<Block>, object: u32, mine: u32, bit: usize) -> u32
    requires bit { bit < 512 }
    requires room { vec_len blocks.old.slots < vec_capacity blocks.old.slots }
    requires few { vec_len blocks.old.slots < 2 ^ 32 - 1 }
    ensures bits { (j : ℕ) → HasBit (words_of blocks.new.slots.items result) j
        ↔ (HasBit (words_of blocks.old.slots.items mine) j ⊎ (j ≡ bit)) }
    ensures replaces { Replaces object mine result blocks.old.slots blocks.new.slots }
{
    let block = match slot_of(&blocks.slots, mine) {
        None => Block::empty().with_bit(bit),
        Some(slot) => slot.value.with_bit(bit),
    };
    blocks.put(object, mine, block)
}

/// Whether the block with an id has a bit.
pub fn has_bit(slots: &[Slot<Block>], id: u32, bit: usize) -> bool
    requires { bit < 512 }
    ensures { IsTrue result ↔ HasBit (words_of slots.now id) bit }
{
    match slot_of(slots, id) {
        None => false,
        Some(slot) => slot.value.has_bit(bit),
    }
}

/// Whether each bit of one block is a bit of another.
pub fn is_within(slots: &[Slot<Block>], small: u32, large: u32) -> bool
    ensures yes { result ≡ true → (j : ℕ) → HasBit (words_of slots.now small) j
        → HasBit (words_of slots.now large) j }
    ensures no { result ≡ false
        → (j : ℕ) × (j < 512) × HasBit (words_of slots.now small) j
        × ¬ HasBit (words_of slots.now large) j }
{
    if small == large {
        return true;
    }
    match slot_of(slots, small) {
        None => true,
        Some(few) => match slot_of(slots, large) {
            None => few.value.is_within(&Block::empty()),
            Some(many) => few.value.is_within(&many.value),
        },
    }
}
