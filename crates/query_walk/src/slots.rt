//! Objects by place, for places below a number.
ghost use Rattle.std.specs.Prelude.{◌≡◌, ◌+◌, ◌*◌, ◌<◌, ◌↔◌, [], ℕ, List, length, slice_index_or, IfOk, IfSome, IfNone, IsTrue, OnOk, vec_len};
ghost use Rattle.query_walk.specs.Arrivals.{IsLeastFrom, NoneFrom, SitsAt, arrival, place_after};
ghost use Rattle.query_walk.specs.Slots.{IsFree, Sits, SitsToo, object_at};

use crate::bits::Bits;
use crate::page::Page;
use flow_base::NoMemory;
use std::alloc::Global;
use std::marker::Model;

/// Places below a number, at each of which one object may sit. The next place that is taken is found by bits, and memory
/// for objects is taken by pages of 1,024 places, so a few objects take little of it.
#[derive(Drop)]
pub struct Slots {
    alloc: Global,
    places: u64,
    bits: Bits,
    pages: Vec<Page>,
}

impl Model for Slots {
    ghost use Rattle.std.specs.Prelude.{ℕ, ◌*◌, ◌<◌, length};
    ghost use Rattle.query_walk.specs.Bits.{IsSet};
    ghost use Rattle.query_walk.specs.Slots.{Slots};

    ghost Value = { Slots };

    ghost view = { λ s. record { places = s.places; bits = s.bits; pages = s.pages.items } };

    ghost invariant = { λ s. (s.places < 64 * length s.bits) × (s.places < 1024 * length s.pages.items)
        × ((p : ℕ) → IsSet s.bits p → p < s.places) };
}

impl Slots {
    /// The places below a number, of which none is taken.
    pub fn new(alloc: Global, places: u64) -> Result<Slots, NoMemory>
        ensures { IfOk result (λ made. (p x : ℕ) → ¬ Sits made p x) }
    {
        let bits = Bits::new(alloc, places)?;
        let pages = empty_pages(alloc, places / 1024 + 1)?;
        Ok(Slots {
            alloc,
            places,
            bits,
            pages,
        })
    }

    /// Whether a place has a slot that isn't taken.
    pub fn is_free(&self, place: u64) -> bool
        ensures { IsTrue result ↔ IsFree self.now place }
    {
        place < self.places && !self.bits.has(place)
    }

    /// Puts an object at a place.
    pub fn put(&mut self, place: u64, object: u32) -> Result<(), NoMemory>
        requires { IsFree self.old place }
        ensures { OnOk result (SitsToo self.old place object self.new) }
    {
        self.pages[(place / 1024) as usize].put(self.alloc, (place % 1024) as usize, object)?;
        self.bits.set(place);
        Ok(())
    }

    /// The object at the first taken place after another one.
    pub fn next(&self, after: Option<u64>) -> Option<(u64, u32)>
        ensures some { IfSome result (λ a.
            IsLeastFrom (SitsAt self.now) (place_after after) (arrival a.0 a.1)) }
        ensures none { IfNone result (NoneFrom (SitsAt self.now) (place_after after)) }
    {
        match after {
            None => self.first_from(0),
            Some(place) if place < self.places => self.first_from(place + 1),
            Some(_) => None,
        }
    }

    /// The object at the first taken place from one on.
    fn first_from(&self, from: u64) -> Option<(u64, u32)>
        ensures some { IfSome result (λ a. IsLeastFrom (SitsAt self.now) from (arrival a.0 a.1)) }
        ensures none { IfNone result (NoneFrom (SitsAt self.now) from) }
    {
        match self.bits.next(from) {
            None => None,
            Some(place) => Some((place, self.object(place))),
        }
    }

    /// The object at a place, or 0 if there is none.
    fn object(&self, place: u64) -> u32
        ensures { result ≡ object_at self.now.pages place }
    {
        match self.pages.get((place / 1024) as usize) {
            Some(page) => page.get((place % 1024) as usize),
            None => 0,
        }
    }
}

/// This many pages without an object.
fn empty_pages(alloc: Global, count: u64) -> Result<Vec<Page>, NoMemory>
    ensures { IfOk result (λ pages. vec_len pages ≡ count) }
{
    let mut pages = Vec::new(alloc);
    for _ in 0..count {
        pages.push(Page::new(alloc))?;
    }
    Ok(pages)
}
