//! Accepts that were recorded before their connects.
//!
//! If a connect and its accept return at once, either record can be the first. An accept that comes first waits for its connect, but no
//! longer than a tick of the clock: the connect of one that waited longer isn't in the log.
ghost use Rattle.std.specs.Prelude.{◌≡◌, ◌↔◌, ◌++◌, ◌∷◌, [], drop, true, option_map, OnOk};
ghost use Rattle.order_rules.specs.Doors as doors;
ghost use Rattle.order_rules.specs.Doors.{fresh, first_name, is_some_early};

use flow_base::{Bytes, NoMemory};
use std::alloc::Global;
use std::collections::VecDeque;
use std::marker::Model;

/// For how many milliseconds an accept waits: a tick of the clock by which a usual kernel stamps entries.
const TICK: u64 = 4;

/// An accept that waits: the name of its connection, and the time of its node then.
#[derive(Drop)]
pub struct Early {
    pub name: Bytes,
    pub time: u64,
}

/// The accepts that wait at a place, the earliest first.
#[derive(Drop)]
pub struct Queue {
    items: VecDeque<Early>,
}

impl Model for Queue {
    ghost use Rattle.std.specs.Prelude as std;
    ghost use Rattle.order_rules.specs.declared.early.Early as item;

    ghost Value = { std.List item.Early };

    ghost view = { λ a. a.items.items };
}

impl Queue {
    /// No accept waits.
    pub fn new(alloc: Global) -> Queue
        ensures { result ≡ [] }
    {
        Queue {
            items: VecDeque::new(alloc),
        }
    }

    /// Whether no accept waits.
    pub fn is_empty(&self) -> bool
        ensures { (result ≡ true) ↔ (self.now ≡ []) }
    {
        self.items.is_empty()
    }

    /// The name of the first that waits still.
    pub fn first(&self, now: u64) -> Option<&[u8]>
        ensures { option_map (λ name. name.now) result ≡ first_name (fresh now self.now) }
    {
        match self.items.get(self.passed(now)) {
            Some(early) => Some(early.name.as_slice()),
            None => None,
        }
    }

    /// One more accept waits, and the older ones if they wait still.
    pub fn push(&mut self, early: Early) -> Result<(), NoMemory>
        ensures { OnOk result (self.new ≡ fresh early.time self.old ++ early ∷ []) }
    {
        self.pass(early.time);
        self.items.push_back(early)?;
        Ok(())
    }

    /// The first that waits still is taken out. Whether there was one.
    pub fn take(&mut self, now: u64) -> bool
        ensures left { self.new ≡ drop 1 (fresh now self.old) }
        ensures taken { result ≡ is_some_early (fresh now self.old) }
    {
        self.pass(now);
        self.items.pop_front().is_some()
    }

    // Those that wait no more are forgotten.
    fn pass(&mut self, now: u64)
        ensures { self.new ≡ fresh now self.old }
    {
        for _ in 0..self.passed(now) {
            let _ = self.items.pop_front();
        }
    }

    // How many wait no more.
    fn passed(&self, now: u64) -> usize
        ensures { drop result self.now ≡ fresh now self.now }
    {
        for count in 0..self.items.len() {
            if is_fresh(now, &self.items[count]) {
                return count;
            }
        }
        self.items.len()
    }
}

// Whether an accept waits still.
fn is_fresh(now: u64, early: &Early) -> bool
    ensures { result ≡ doors.is_fresh now early.now }
{
    now.saturating_sub(early.time) <= TICK
}
