//! The slots of the events of a node that wait.
//!
//! That of the event that was put last stands apart too, since most lines are of the event of the line before.
ghost use Rattle.std.specs.Prelude.{◌≡◌, ℕ, [], None, Some, OnOk, if◌then◌else◌};
ghost use Rattle.std.specs.Map.{lookup};
ghost use Rattle.order_place.specs.Places.{is_event};
ghost use Rattle.order_place.specs.Events.{latest_but};

use crate::slot::Slot;
use flow_base::NoMemory;
use std::alloc::Global;
use std::collections::BTreeMap;
use std::marker::Model;

/// The slots of the events that wait, each by its time and its serial number: that of the latest of them, unless it was forgotten,
/// and those of all.
#[derive(Drop)]
pub struct Events {
    latest: Option<((u64, u32), Slot)>,
    all: BTreeMap<(u64, u32), Slot>,
}

impl Model for Events {
    ghost use Rattle.std.specs.Prelude.{List, ℕ};
    ghost use Rattle.order_place.specs.declared.slot.Slot.{Slot};
    ghost use Rattle.order_place.specs.Events.{IsLatest};

    ghost Value = { List ((ℕ × ℕ) × Slot) };

    ghost view = { λ a. a.all.entries };

    ghost invariant = { λ a. IsLatest a.latest a.all.entries };
}

impl Events {
    /// No event waits.
    pub fn new(alloc: Global) -> Events
        ensures { result ≡ [] }
    {
        Events {
            latest: None,
            all: BTreeMap::new(alloc),
        }
    }

    /// The slot of an event, if it waits.
    pub fn get(&self, ms: u64, serial: u32) -> Option<Slot>
        ensures { result ≡ lookup (is_event (ms, serial)) self.now }
    {
        match self.latest {
            Some((event, slot)) if event.0 == ms && event.1 == serial => Some(slot),
            _ => found(&self.all, ms, serial),
        }
    }

    /// An event waits, and has this slot.
    pub fn put(&mut self, ms: u64, serial: u32, slot: Slot) -> Result<(), NoMemory>
        ensures { OnOk result ((other : ℕ × ℕ) → lookup (is_event other) self.new
            ≡ (if is_event (ms, serial) other then Some slot
            else lookup (is_event other) self.old)) }
    {
        self.all.insert((ms, serial), slot)?;
        self.latest = Some(((ms, serial), slot));
        Ok(())
    }

    /// An event waits no longer.
    pub fn forget(&mut self, ms: u64, serial: u32)
        ensures { (other : ℕ × ℕ) → lookup (is_event other) self.new
            ≡ (if is_event (ms, serial) other then None
            else lookup (is_event other) self.old) }
    {
        self.latest = latest_but(self.latest, ms, serial);
        let _ = self.all.remove(&(ms, serial));
    }
}

// The slot of an event, if it waits.
fn found(all: &BTreeMap<(u64, u32), Slot>, ms: u64, serial: u32) -> Option<Slot>
    ensures { result ≡ lookup (is_event (ms, serial)) all.now.entries }
{
    match all.get(&(ms, serial)) {
        Some(slot) => Some(*slot),
        None => None,
    }
}

// The latest event, unless it is this one.
fn latest_but(
    latest: Option<((u64, u32), Slot)>,
    ms: u64,
    serial: u32,
) -> Option<((u64, u32), Slot)>
    ensures { result ≡ latest_but (ms, serial) latest }
{
    match latest {
        Some((event, _)) if event.0 == ms && event.1 == serial => None,
        _ => latest,
    }
}
