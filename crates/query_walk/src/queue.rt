//! A heap of arrivals.
ghost use Rattle.std.specs.Prelude.{◌≡◌, [], IfSome, IfNone, OnOk};
ghost use Rattle.std.specs.List.{Contains};
ghost use Rattle.query_walk.specs.Arrivals.{
  AddsArrival,
  IsLeastFrom,
  NoneFrom,
  StayFrom,
  arrival,
  place_after,
};

use crate::arrivals::is_after;
use flow_base::NoMemory;
use std::alloc::Global;
use std::cmp::Reverse;
use std::collections::BinaryHeap;
use std::marker::Model;

/// Arrivals in a heap, the least place first.
#[derive(Drop)]
pub struct Queue {
    heap: BinaryHeap<Reverse<(u64, u32)>>,
}

impl Model for Queue {
    ghost use Rattle.std.specs.Prelude.{List, ℕ};
    ghost use Rattle.std.specs.BinaryHeap.{IsHeap, heap_items};
    ghost use Rattle.query_walk.specs.Arrivals.{Arrival, by_place};

    ghost Value = { List Arrival };

    ghost view = { λ c. heap_items c.heap };

    ghost invariant = { λ c. IsHeap by_place (heap_items c.heap) };
}

impl Queue {
    /// No arrivals.
    pub fn new(alloc: Global) -> Queue
        ensures { result ≡ [] }
    {
        Queue {
            heap: BinaryHeap::new(alloc),
        }
    }

    /// Lets an arrival wait.
    pub fn put(&mut self, place: u64, object: u32) -> Result<(), NoMemory>
        ensures { OnOk result
            (AddsArrival (Contains self.old) (arrival place object) (Contains self.new)) }
    {
        self.heap.push(Reverse((place, object)))?;
        Ok(())
    }

    /// The first arrival after a place. Earlier ones wait no longer.
    pub fn next(&mut self, after: Option<u64>) -> Option<(u64, u32)>
        ensures some { IfSome result (λ a.
            IsLeastFrom (Contains self.old) (place_after after) (arrival a.0 a.1)) }
        ensures none { IfNone result (NoneFrom (Contains self.old) (place_after after)) }
        ensures stay { StayFrom (Contains self.old) (place_after after) (Contains self.new) }
    {
        while let Some(least) = self.heap.peek() {
            let first = least.0;
            if is_after(first.0, after) {
                return Some(first);
            }
            self.heap.pop();
        }
        None
    }
}
