//! Objects that wait to be reached, by the place of the flow that enters them.
ghost use Rattle.std.specs.Prelude.{◌≡◌, ◌↔◌, ◌≤◌, IfOk, IfSome, IfNone, IsTrue, OnOk};
ghost use Rattle.query_walk.specs.Arrivals.{
  AddsArrival,
  Arrival,
  IsDue,
  IsLeastFrom,
  NoneFrom,
  StayFrom,
  arrival,
  place_after,
  sooner,
};

use crate::queue::Queue;
use crate::slots::Slots;
use flow_base::NoMemory;
use std::alloc::Global;
use std::marker::Model;

/// Arrivals that wait, the least place first. A place among the first ones has a slot for one object, so most arrivals
/// are found by the bits of their places. The others wait in a heap.
#[derive(Drop)]
pub struct Arrivals {
    slots: Slots,
    queue: Queue,
}

impl Model for Arrivals {
    ghost use Rattle.query_walk.specs.Arrivals.{Held};

    ghost Value = { Held };

    ghost view = { λ c. record { slots = c.slots; heap = c.queue } };
}

impl Arrivals {
    /// None wait. There are a quarter more slots than rows, since some flows have no row of their own.
    pub fn new(alloc: Global, rows: u64) -> Result<Arrivals, NoMemory>
        ensures { IfOk result (λ made. (a : Arrival) → ¬ IsDue made a) }
    {
        let slots = Slots::new(alloc, rows.saturating_add(rows / 4))?;
        let queue = Queue::new(alloc);
        Ok(Arrivals { slots, queue })
    }

    /// Lets an object wait that a flow at a place enters.
    pub fn put(&mut self, place: u64, object: u32) -> Result<(), NoMemory>
        ensures { OnOk result
            (AddsArrival (IsDue self.old) (arrival place object) (IsDue self.new)) }
    {
        if self.slots.is_free(place) {
            self.slots.put(place, object)?;
            return Ok(());
        }
        self.queue.put(place, object)?;
        Ok(())
    }

    /// The first arrival after a place. Earlier ones may wait no longer.
    pub fn next(&mut self, after: Option<u64>) -> Option<(u64, u32)>
        ensures some { IfSome result (λ a.
            IsLeastFrom (IsDue self.old) (place_after after) (arrival a.0 a.1)) }
        ensures none { IfNone result (NoneFrom (IsDue self.old) (place_after after)) }
        ensures stay { StayFrom (IsDue self.old) (place_after after) (IsDue self.new) }
    {
        let queued = self.queue.next(after);
        sooner(self.slots.next(after), queued)
    }
}

/// The one of two arrivals that has the lesser place, or the only one that is there.
fn sooner(one: Option<(u64, u32)>, other: Option<(u64, u32)>) -> Option<(u64, u32)>
    ensures { result ≡ sooner one other }
{
    match (one, other) {
        (Some(a), Some(b)) => { if b.0 < a.0 { other } else { one } }
        (Some(_), None) => one,
        (None, _) => other,
    }
}

/// Whether a place comes after another one.
pub fn is_after(place: u64, after: Option<u64>) -> bool
    ensures { IsTrue result ↔ (place_after after ≤ place) }
{
    match after {
        None => true,
        Some(before) => before < place,
    }
}
