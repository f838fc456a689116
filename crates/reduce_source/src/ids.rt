//! A set of numbers as a list of ids of pages, by place. A page has the ids of 16 blocks, and a block
//! has a bit for each of 512 numbers: the number n is the bit n % 512 of the block at the place
//! n / 512 % 16 of the page at the place n / 8192.
ghost use Rattle.std.specs.Prelude.{◌≡◌, ◌↔◌, ◌⊎◌, ◌/◌, ◌<◌, ◌≤◌, ℕ, List, [], false, true, length, max, slice_index, IsTrue, OnOk};
ghost use Rattle.reduce_source.specs.Pools.{AreHeldIn, AreKeptIn, ChangesBoth, Fits, Has};

use crate::page::PLACES;
use crate::pools::Pools;
use flow_base::NoMemory;
use std::alloc::Global;
use std::marker::Model;

/// How many numbers a block has a bit for.
const BITS: u64 = 512;

/// How many numbers a page has bits for.
const NUMBERS: u64 = BITS * PLACES as u64;

/// The ids of the pages of a set. A place past the end has the id 0.
#[derive(Drop)]
pub struct Ids {
    ids: Vec<u32>,
}

impl Model for Ids {
    ghost Value = { List ℕ };

    ghost view = { λ a. a.ids.items };
}

impl Ids {
    /// No ids.
    pub fn new(alloc: Global) -> Ids
        ensures { result ≡ [] }
    {
        Ids {
            ids: Vec::new(alloc),
        }
    }

    /// The ids, by place.
    pub fn as_slice(&self) -> &[u32]
        ensures { result.now ≡ self.now }
    {
        self.ids.as_slice()
    }

    /// Takes all numbers of another set in, in the room that was made for it. `object` is whose set
    /// this is.
    pub fn join(&mut self, pools: &mut Pools, object: u32, more: &[u32])
        requires held { AreHeldIn object pools.old self.old }
        requires more { AreKeptIn object pools.old more.now }
        requires places { length more.now ≤ length self.old }
        requires room { Fits (length more.now) pools.old }
        ensures set { (n : ℕ) → Has pools.new self.new n
            ↔ (Has pools.old self.old n ⊎ Has pools.old more.now n) }
        ensures held { AreHeldIn object pools.new self.new }
        ensures places { length self.new ≡ length self.old }
        ensures changes { ChangesBoth object (length more.now) pools.old pools.new }
    {
        for place in 0..more.len() {
            self.ids[place] = pools.join(object, self.ids[place], more[place]);
        }
    }

    /// Takes a number in, in the room that was made for it. `object` is whose set this is.
    pub fn mark(&mut self, pools: &mut Pools, object: u32, number: u64)
        requires held { AreHeldIn object pools.old self.old }
        requires place { number / 8192 < length self.old }
        requires room { Fits 1 pools.old }
        ensures set { (n : ℕ) → Has pools.new self.new n
            ↔ (Has pools.old self.old n ⊎ (n ≡ number)) }
        ensures held { AreHeldIn object pools.new self.new }
        ensures places { length self.new ≡ length self.old }
        ensures changes { ChangesBoth object 1 pools.old pools.new }
    {
        let page = (number / NUMBERS) as usize;
        let place = (number / BITS % PLACES as u64) as usize;
        self.ids[page] = pools.mark(object, self.ids[page], place, (number % BITS) as usize);
    }

    /// Makes this many places, each with the id 0 at first.
    pub fn grow(&mut self, places: usize) -> Result<(), NoMemory>
        ensures room { OnOk result (places ≤ length self.new) }
        ensures most { length self.new ≤ max (length self.old) places }
        ensures longer { length self.old ≤ length self.new }
        ensures same { (place : ℕ) → slice_index self.new place ≡ slice_index self.old place }
    {
        // Exactly, since each union goes over all places: to copy them once more costs no more than that.
        self.ids
            .reserve_exact(places.saturating_sub(self.ids.len()))?;
        while self.ids.len() < places {
            self.ids.push(0)?;
        }
        Ok(())
    }
}

/// Whether the set with these ids has a number.
pub fn has_number(pools: &Pools, ids: &[u32], number: u64) -> bool
    ensures { IsTrue result ↔ Has pools.now ids.now number }
{
    let page = id_at(ids, (number / NUMBERS) as usize);
    let place = (number / BITS % PLACES as u64) as usize;
    pools.has_bit(page, place, (number % BITS) as usize)
}

/// Whether each number of one set is a number of another.
pub fn is_within(pools: &Pools, small: &[u32], large: &[u32]) -> bool
    ensures yes { result ≡ true → (n : ℕ) → Has pools.now small.now n
        → Has pools.now large.now n }
    ensures no { result ≡ false
        → (n : ℕ) × Has pools.now small.now n × ¬ Has pools.now large.now n }
{
    for place in 0..small.len() {
        let covered = pools.is_within(small[place], id_at(large, place));
        if !covered {
            return false;
        }
    }
    true
}

/// The id at a place.
fn id_at(ids: &[u32], place: usize) -> u32
    ensures { result ≡ slice_index ids.now place }
{
    match ids.get(place) {
        None => 0,
        Some(id) => *id,
    }
}
