//! The places that sockets were bound to, and what waits there: connects to be accepted, or accepts that were recorded before their
//! connects. Both at once never wait at a place.
ghost use Rattle.std.specs.Prelude.{◌≡◌, ◌&&◌, ℕ, List, Bool, true, false, None, Some, max, option_map, IfOk, OnOk, if◌then◌else◌};
ghost use Rattle.order_rules.specs.Deeds.{is_known, is_one};
ghost use Rattle.order_rules.specs.Doors as doors;
ghost use Rattle.order_rules.specs.Doors.{nobody, fresh, one_more, one_less, one_in, found_name, wait_name};
ghost use Rattle.order_rules.specs.Known.{no_meetings, is_place_at, waits_at};

use crate::address::is_any;
use crate::early::{Early, Queue};
use flow_base::{Bytes, NoMemory};
use std::alloc::Global;
use std::collections::{BTreeMap, BTreeSet};
use std::marker::Model;

/// For how many milliseconds connects wait, since the first of them. It has to be long, since a server may be busy; but one that nobody
/// accepts isn't to give its name to others for ever.
const PATIENCE: u64 = 20_000;

/// Connects that wait at a place: the name that their connections share, how many they are, and the time of the node at the first.
#[derive(Drop)]
pub struct Wait {
    pub name: Bytes,
    pub count: u64,
    pub since: u64,
}

/// What waits at a place.
#[derive(Drop)]
pub enum Door {
    Connects(Wait),
    Accepts(Queue),
}

/// The places that sockets were bound to, what waits at some of them, and the time of the node.
#[derive(Drop)]
pub struct Doors {
    alloc: Global,
    places: BTreeSet<Bytes>,
    waits: BTreeMap<Bytes, Door>,
    clock: u64,
}

impl Model for Doors {
    ghost use Rattle.order_rules.specs.Known.{Meetings};

    ghost Value = { Meetings };

    ghost view = { λ a. record {
      places = a.places.keys;
      waits = a.waits.entries;
      clock = a.clock;
    } };
}

impl Doors {
    /// No socket was bound, nothing waits, and no time has come.
    pub fn new(alloc: Global) -> Doors
        ensures { result ≡ no_meetings }
    {
        Doors {
            alloc,
            places: BTreeSet::new(alloc),
            waits: BTreeMap::new(alloc),
            clock: 0,
        }
    }

    /// No socket was bound, nothing waits, and no time has come.
    pub fn clear(&mut self)
        ensures { self.new ≡ no_meetings }
    {
        self.places.clear();
        self.waits.clear();
        self.clock = 0;
    }

    /// A time has come.
    pub fn pass(&mut self, ms: u64)
        ensures { self.new ≡ record self.old { clock = max self.old.clock ms } }
    {
        self.clock = self.clock.max(ms);
    }

    /// Whether a socket was bound to a place.
    pub fn is_place(&self, place: &Bytes) -> bool
        ensures { result ≡ is_place_at self.now place.now }
    {
        self.places.contains(place)
    }

    /// A socket was bound to a place, unless it was to port 0: then the kernel has chosen one that the log doesn't say.
    pub fn add_place(&mut self, place: Bytes) -> Result<(), NoMemory>
        ensures places { OnOk result ((other : List ℕ) → is_place_at self.new other
            ≡ (if is_known place && is_one place other then true
            else is_place_at self.old other)) }
        ensures waits { OnOk result (self.new.waits ≡ self.old.waits) }
        ensures clock { OnOk result (self.new.clock ≡ self.old.clock) }
    {
        if is_any(place.as_slice()) {
            return Ok(());
        }
        self.places.insert(place)?;
        Ok(())
    }

    /// The name of the connection that a connect to a place takes part in, if it isn't one of its own.
    pub fn found(&self, place: &Bytes) -> Option<&[u8]>
        ensures { option_map (λ name. name.now) result
            ≡ found_name self.now.clock (waits_at self.now place.now) }
    {
        match self.waits.get(place)? {
            Door::Connects(wait) => waiting_name(self.clock, wait),
            Door::Accepts(queue) => queue.first(self.clock),
        }
    }

    /// The name of the connects that wait at a place.
    pub fn name(&self, place: &Bytes) -> Option<&[u8]>
        ensures { option_map (λ name. name.now) result
            ≡ wait_name self.now.clock (waits_at self.now place.now) }
    {
        match self.waits.get(place)? {
            Door::Connects(wait) => waiting_name(self.clock, wait),
            Door::Accepts(_) => None,
        }
    }

    /// A connect has come to a place. This is the name of its connection, if nothing waits there.
    pub fn knock(&mut self, place: Bytes, name: Bytes) -> Result<(), NoMemory>
        ensures waits { OnOk result ((other : List ℕ) → waits_at self.new other
            ≡ (if is_one place other then one_more self.old.clock name (waits_at self.old place)
            else waits_at self.old other)) }
        ensures places { OnOk result (self.new.places ≡ self.old.places) }
        ensures clock { OnOk result (self.new.clock ≡ self.old.clock) }
    {
        let door = self.take(&place);
        let door = with_connect(self.clock, name, door)?;
        self.put(place, door)
    }

    /// A peer was accepted at a place. This is the name of the connection if no connect waits there, if it can have one.
    pub fn leave(&mut self, place: Bytes, own: Option<Bytes>) -> Result<(), NoMemory>
        ensures waits { OnOk result ((other : List ℕ) → waits_at self.new other
            ≡ (if is_one place other then one_in self.old.clock own (waits_at self.old place)
            else waits_at self.old other)) }
        ensures places { OnOk result (self.new.places ≡ self.old.places) }
        ensures clock { OnOk result (self.new.clock ≡ self.old.clock) }
    {
        let door = self.take(&place);
        let door = with_accept(self.alloc, self.clock, own, door)?;
        self.put(place, door)
    }

    // What waits at a place, which is taken out.
    fn take(&mut self, place: &Bytes) -> Door
        ensures here { result ≡ waits_at self.old place.now }
        ensures others { (other : List ℕ) → is_one place.now other ≡ false
            → waits_at self.new other ≡ waits_at self.old other }
        ensures places { self.new.places ≡ self.old.places }
        ensures clock { self.new.clock ≡ self.old.clock }
    {
        match self.waits.remove(place) {
            Some(door) => door,
            None => Door::Accepts(Queue::new(self.alloc)),
        }
    }

    // What waits at a place is put back, unless it is nothing.
    fn put(&mut self, place: Bytes, door: Door) -> Result<(), NoMemory>
        ensures waits { OnOk result ((other : List ℕ) → waits_at self.new other
            ≡ (if is_one place other then door else waits_at self.old other)) }
        ensures places { OnOk result (self.new.places ≡ self.old.places) }
        ensures clock { OnOk result (self.new.clock ≡ self.old.clock) }
    {
        if is_empty(&door) {
            let _ = self.waits.remove(&place);
            return Ok(());
        }
        self.waits.insert(place, door)?;
        Ok(())
    }
}

// Whether connects wait still.
fn is_waiting(now: u64, wait: &Wait) -> bool
    ensures { result ≡ doors.is_waiting now wait.now }
{
    now.saturating_sub(wait.since) <= PATIENCE
}

// The name of connects, if they wait still.
fn waiting_name(now: u64, wait: &Wait) -> Option<&[u8]>
    ensures { option_map (λ name. name.now) result
        ≡ (if doors.is_waiting now wait.now then Some wait.now.name else None) }
{
    if is_waiting(now, wait) {
        Some(wait.name.as_slice())
    } else {
        None
    }
}

// Whether nothing waits.
fn is_empty(door: &Door) -> bool
    ensures { result ≡ true → door.now ≡ nobody }
{
    match door {
        Door::Connects(_) => false,
        Door::Accepts(queue) => queue.is_empty(),
    }
}

// One more connect has come.
fn with_connect(now: u64, name: Bytes, door: Door) -> Result<Door, NoMemory>
    ensures { IfOk result (λ made. made ≡ one_more now name door) }
{
    match door {
        Door::Connects(wait) if is_waiting(now, &wait) => with_one(wait),
        Door::Connects(_) => Ok(first_wait(now, name)),
        Door::Accepts(queue) => Ok(taken(now, name, queue)),
    }
}

// One more connect waits with these.
fn with_one(wait: Wait) -> Result<Door, NoMemory>
    ensures { IfOk result (λ made. made ≡ doors.joined wait) }
{
    match wait.count.checked_add(1) {
        Some(count) => Ok(Door::Connects(Wait {
            name: wait.name,
            count,
            since: wait.since,
        })),
        None => Err(NoMemory),
    }
}

// A connect is the first that waits.
fn first_wait(now: u64, name: Bytes) -> Door
    ensures { result ≡ doors.first_wait now name }
{
    Door::Connects(Wait {
        name,
        count: 1,
        since: now,
    })
}

// A connect takes the first accept that waits still, or waits itself.
fn taken(now: u64, name: Bytes, mut queue: Queue) -> Door
    ensures { result ≡ doors.taken now name (fresh now queue) }
{
    if queue.take(now) {
        return Door::Accepts(queue);
    }
    first_wait(now, name)
}

// One more accept has come.
fn with_accept(alloc: Global, now: u64, own: Option<Bytes>, door: Door) -> Result<Door, NoMemory>
    ensures { IfOk result (λ made. made ≡ one_in now own door) }
{
    match door {
        Door::Connects(wait) if is_waiting(now, &wait) => Ok(without_one(alloc, wait)),
        Door::Connects(_) => alone(now, own, Queue::new(alloc)),
        Door::Accepts(queue) => alone(now, own, queue),
    }
}

// An accept finds no connect, but these accepts.
fn alone(now: u64, own: Option<Bytes>, queue: Queue) -> Result<Door, NoMemory>
    ensures { IfOk result (λ made. made ≡ Door.Accepts (doors.lined_up now own queue)) }
{
    let queue = lined_up(now, own, queue)?;
    Ok(Door::Accepts(queue))
}

// An accept takes one of the connects that wait.
fn without_one(alloc: Global, wait: Wait) -> Door
    ensures { result ≡ one_less wait }
{
    if wait.count <= 1 {
        return Door::Accepts(Queue::new(alloc));
    }
    Door::Connects(Wait {
        name: wait.name,
        count: wait.count - 1,
        since: wait.since,
    })
}

// An accept waits, if its connection has a name.
fn lined_up(now: u64, own: Option<Bytes>, mut queue: Queue) -> Result<Queue, NoMemory>
    ensures { IfOk result (λ made. made ≡ doors.lined_up now own queue) }
{
    match own {
        Some(name) => {
            queue.push(Early { name, time: now })?;
            Ok(queue)
        }
        None => Ok(queue),
    }
}
