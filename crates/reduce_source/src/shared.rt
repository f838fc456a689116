//! The sets of all objects, and the blocks and pages that they share.
ghost use Rattle.std.specs.Prelude.{◌≡◌, ◌↔◌, ◌⊎◌, ◌+◌, ◌-◌, ◌/◌, ◌*◌, ◌<◌, ◌≤◌, ◌^◌, [], ℕ, false, true, length, max, slice_index_or, IsTrue, OnOk};
ghost use Rattle.flow_base.specs.declared.types.Flow.{Flow as AFlow};
ghost use Rattle.reach_model.specs.Flows.{source, target};
ghost use Rattle.reduce_source.specs.IdLists.{AreHeld};

use crate::ids::{self, Ids};
use crate::page::PLACES;
use crate::pools::Pools;
use flow_base::{Flow, NoMemory};
use std::alloc::Global;

/// A set of numbers for each object.
#[derive(Drop)]
pub struct Shared {
    pools: Pools,
    sets: Vec<Ids>,
    /// How many pages a set may have.
    width: usize,
    ghost sound: { AreHeld sets.items pools width },
}

impl Shared {
    ghost use Rattle.reduce_source.specs.Pools.{Adds, Fits, HasSameValues};
    ghost use Rattle.reduce_source.specs.Shelves.{HasNumber, IsWide, IsAsWide, ids_of};

    /// Empty sets.
    pub fn new(alloc: Global) -> Shared
        ensures none { (v n : ℕ) → ¬ HasNumber result v n }
    {
        Shared {
            pools: Pools::new(alloc),
            sets: Vec::new(alloc),
            width: 0,
        }
    }

    /// Whether an object has a number.
    pub fn has_number(&self, object: usize, number: u64) -> bool
        ensures { IsTrue result ↔ HasNumber self.now object number }
    {
        ids::has_number(&self.pools, ids_at(&self.sets, object), number)
    }

    /// Whether each number of one object is a number of another.
    pub fn is_within(&self, small: usize, large: usize) -> bool
        ensures yes { result ≡ true → (n : ℕ) → HasNumber self.now small n
            → HasNumber self.now large n }
        ensures no { result ≡ false
            → (n : ℕ) × HasNumber self.now small n × ¬ HasNumber self.now large n }
    {
        let large = ids_at(&self.sets, large);
        ids::is_within(&self.pools, ids_at(&self.sets, small), large)
    }

    /// Gives one object the numbers of another, in the room that was made for it.
    pub fn join(&mut self, into: u32, with: u32)
        requires object { into < length self.old.sets.items }
        requires places { length (ids_of self.old with) ≤ length (ids_of self.old into) }
        requires room { Fits (length (ids_of self.old with)) self.old.pools }
        ensures sets { (v n : ℕ) → HasNumber self.new v n
            ↔ (HasNumber self.old v n ⊎ ((v ≡ into) × HasNumber self.old with n)) }
        ensures shape { IsAsWide self.old self.new }
        ensures adds { Adds (length (ids_of self.old with)) self.old.pools self.new.pools }
    {
        let alloc = *self.sets.allocator();
        // The list is taken out, so that the other one can be read while it is changed.
        let mut joined = std::mem::replace(&mut self.sets[into as usize], Ids::new(alloc));
        joined.join(&mut self.pools, into, ids_at(&self.sets, with as usize));
        self.sets[into as usize] = joined;
    }

    /// Gives an object a number, in the room that was made for it.
    pub fn mark(&mut self, object: u32, number: u64)
        requires object { object < length self.old.sets.items }
        requires place { number / 8192 < length (ids_of self.old object) }
        requires room { Fits 1 self.old.pools }
        ensures sets { (v n : ℕ) → HasNumber self.new v n
            ↔ (HasNumber self.old v n ⊎ ((v ≡ object) × (n ≡ number))) }
        ensures shape { IsAsWide self.old self.new }
        ensures adds { Adds 1 self.old.pools self.new.pools }
    {
        self.sets[object as usize].mark(&mut self.pools, object, number);
    }

    /// Makes a set for each of this many objects.
    pub fn grow(&mut self, alloc: Global, objects: usize) -> Result<(), NoMemory>
        ensures objects { OnOk result (objects ≤ length self.new.sets.items) }
        ensures more { length self.old.sets.items ≤ length self.new.sets.items }
        ensures same { (v n : ℕ) → HasNumber self.new v n ↔ HasNumber self.old v n }
        ensures places { (v : ℕ) → ids_of self.new v ≡ ids_of self.old v }
        ensures rest { (self.new.pools ≡ self.old.pools) × (self.new.width ≡ self.old.width) }
    {
        while self.sets.len() < objects {
            self.sets.push(Ids::new(alloc))?;
        }
        Ok(())
    }

    /// Lets sets have this many pages.
    pub fn allow(&mut self, pages: usize)
        ensures width { self.new.width ≡ max self.old.width pages }
        ensures same { (v n : ℕ) → HasNumber self.new v n ↔ HasNumber self.old v n }
        ensures rest { (self.new.pools ≡ self.old.pools) × (self.new.sets ≡ self.old.sets) }
    {
        self.width = self.width.max(pages);
    }

    /// Gives the sets of both ends of these flows all the pages that they may have.
    pub fn widen_ends(&mut self, flows: &[Flow]) -> Result<(), NoMemory>
        requires ends { (k : ℕ) (d : AFlow) → k < length flows.now
            → (source (slice_index_or flows.now k d) < length self.old.sets.items)
            × (target (slice_index_or flows.now k d) < length self.old.sets.items) }
        ensures wide { OnOk result
            ((k : ℕ) (d : AFlow) → k < length flows.now
            → IsWide self.new (slice_index_or flows.now k d)) }
        ensures same { (v n : ℕ) → HasNumber self.new v n ↔ HasNumber self.old v n }
        ensures objects { length self.new.sets.items ≡ length self.old.sets.items }
        ensures rest { (self.new.pools ≡ self.old.pools) × (self.new.width ≡ self.old.width) }
    {
        for flow in flows {
            self.widen(flow.from.0 as usize)?;
            self.widen(flow.to.0 as usize)?;
        }
        Ok(())
    }

    /// Gives the set of an object all the pages that it may have.
    fn widen(&mut self, object: usize) -> Result<(), NoMemory>
        requires object { object < length self.old.sets.items }
        ensures wide { OnOk result (self.new.width ≤ length (ids_of self.new object)) }
        ensures longer { (v : ℕ) → length (ids_of self.old v) ≤ length (ids_of self.new v) }
        ensures same { (v n : ℕ) → HasNumber self.new v n ↔ HasNumber self.old v n }
        ensures objects { length self.new.sets.items ≡ length self.old.sets.items }
        ensures rest { (self.new.pools ≡ self.old.pools) × (self.new.width ≡ self.old.width) }
    {
        let places = self.width;
        match self.sets[object].grow(places) {
            Ok(()) => Ok(()),
            Err(fault) => Err(fault),
        }
    }

    /// Makes room for the pages and blocks of this many unions, each after a mark. It fails if memory
    /// does, or if there could be as many pages or blocks as there are ids.
    pub fn make_room(&mut self, unions: usize) -> Result<(), NoMemory>
        ensures room { OnOk result (Fits (unions * (self.new.width + 1)) self.new.pools) }
        ensures same { (v n : ℕ) → HasNumber self.new v n ↔ HasNumber self.old v n }
        ensures rest { (self.new.sets ≡ self.old.sets) × (self.new.width ≡ self.old.width) }
        ensures values { HasSameValues self.old.pools self.new.pools }
    {
        let pages = self.width.saturating_add(1).saturating_mul(unions);
        self.pools.pages.reserve(pages)?;
        self.pools.blocks.reserve(pages.saturating_mul(PLACES))?;
        Ok(())
    }
}

/// The ids of the set of an object. An object past the end has none.
fn ids_at(sets: &[Ids], object: usize) -> &[u32]
    ensures { result.now ≡ slice_index_or sets.now object [] }
{
    match sets.get(object) {
        None => [].as_slice(),
        Some(ids) => ids.as_slice(),
    }
}
