//! Objects by number, and the flows between them, within their limits.
ghost use Rattle.std.specs.Prelude.{◌≡◌, ◌≤◌, ◌<◌, ◌+◌, ◌++◌, ◌&&◌, not, position, ◌^◌, ◌∷◌, [], List, Option, Some, None, Err, true, length, OnOk, OnErr, IfOk, vec_len, vec_capacity};
ghost use Rattle.std.specs.List.{list_any};
ghost use Rattle.flow_base.specs.declared.types.Key.{Key};
ghost use Rattle.flow_base.specs.declared.limits.Full.{Full};
ghost use Rattle.flow_base.specs.contracts.types.KeyPartialEq.TheImpl.{ghosts};
ghost use Rattle.acts.specs.declared.link.Link.{Link};
ghost use Rattle.flow_base.specs.declared.faults.Refused.TheVariants as refused;
ghost use Rattle.acts.specs.Keys.{put_new};
ghost use Rattle.acts.specs.Flows.{with_ends, number_in, flow_at, flow_if};
ghost use Rattle.acts.specs.LookBack.{as_number, full_by, full_with};

use crate::act::Taken;
use crate::link::Link;
use crate::look_back::room::put_last;
use flow_base::{EntityId, Flow, Full, Key, Limit, NoMemory, Refused, Stamp, equal_keys_are_one};
use std::alloc::Global;
use std::marker::Model;

/// The objects that flows know, by number, and the flows.
#[derive(Drop)]
pub struct Graph {
    objects: Vec<Key>,
    flows: Vec<Flow>,
    most_objects: u32,
    most_flows: u64,
}

impl Model for Graph {
    ghost use Rattle.std.specs.Prelude.{◌≤◌, ◌<◌, ◌^◌, length};
    ghost use Rattle.acts.specs.LookBack.{Graphed};

    ghost Value = { Graphed };

    ghost view = { λ a. record { objects = a.objects.items; flows = a.flows.items; most_objects = a.most_objects; most_flows = a.most_flows } };

    ghost invariant = { λ a. (length a.objects.items ≤ a.most_objects) × (a.most_objects < 2 ^ 32) × (length a.flows.items ≤ a.most_flows) };
}

impl Graph {
    /// No flows, with these limits on the numbers of objects and flows.
    pub fn new(alloc: Global, most_objects: u32, most_flows: u64) -> Graph
        ensures { result ≡ record {
          objects = [];
          flows = [];
          most_objects = most_objects;
          most_flows = most_flows;
        } }
    {
        Graph {
            objects: Vec::new(alloc),
            flows: Vec::new(alloc),
            most_objects,
            most_flows,
        }
    }

    /// The objects by number.
    pub fn objects(&self) -> &[Key]
        ensures { result.now ≡ self.now.objects }
    {
        self.objects.as_slice()
    }

    /// How many objects there are.
    pub fn known(&self) -> u32
        ensures { result ≡ length self.now.objects }
    {
        self.objects.len() as u32
    }

    /// The flows in their order.
    pub fn flows(&self) -> &[Flow]
        ensures { result.now ≡ self.now.flows }
    {
        self.flows.as_slice()
    }

    /// Appends the flow of a link, and those of its ends that are new. If it is refused, nothing has changed.
    pub fn add(&mut self, taken: &Taken, link: Link) -> Result<(), Refused>
        ensures objects { OnOk result (self.new.objects ≡ with_ends self.old.objects (Some link)) }
        ensures flows { OnOk result (self.new.flows
            ≡ self.old.flows ++ flow_at self.new.objects taken.now
            (length self.old.flows) link ∷ []) }
        ensures limits { (self.new.most_objects ≡ self.old.most_objects)
            × (self.new.most_flows ≡ self.old.most_flows) }
        ensures fits { OnOk result (full_with self.old link ≡ None) }
        ensures full { (full : Full) → result ≡ Err (refused.Full full)
            → full_with self.old link ≡ Some full }
        ensures err { OnErr result (self.new ≡ self.old) }
    {
        if let Some(full) = self.full_with(&link) {
            return Err(Refused::Full(full));
        }
        self.objects.reserve(2)?;
        self.flows.reserve(1)?;
        let place = self.flows.len() as u64;
        let from = enter(&mut self.objects, link.from);
        let to = enter(&mut self.objects, link.to);
        let flow = Flow {
            from,
            to,
            how: link.how,
            at: Stamp {
                ms: taken.ms,
                place,
            },
            serial: taken.serial,
        };
        put_last(&mut self.flows, flow);
        Ok(())
    }

    // The limit that one more link would pass.
    fn full_with(&self, link: &Link) -> Option<Full>
        ensures { result ≡ full_with self.now link.now }
    {
        full_by(
            self.most_objects,
            self.most_flows,
            self.objects.len() + count_new(self.objects.as_slice(), link),
            self.flows.len(),
        )
    }
}

// The limit that this many objects, or one more flow, would pass.
fn full_by(most_objects: u32, most_flows: u64, objects: usize, flows: usize) -> Option<Full>
    ensures { result ≡ full_by most_objects most_flows objects (flows + 1) }
{
    if objects > most_objects as usize {
        return Some(Full {
            limit: Limit::Entities,
            number: u64::from(most_objects),
        });
    }
    if flows as u64 >= most_flows {
        return Some(Full {
            limit: Limit::Flows,
            number: most_flows,
        });
    }
    None
}

// How many of the two ends of a link are new.
fn count_new(objects: &[Key], link: &Link) -> usize
    ensures count { length (with_ends objects.now (Some link.now)) ≡ length objects.now + result }
    ensures few { result ≤ 2 }
{
    equal_keys_are_one();
    let from_known = is_known(objects, &link.from);
    let to_known = is_known(objects, &link.to);
    count_ends(from_known, to_known, link.to == link.from)
}

// How many of two ends are new. Equal ends count once.
fn count_ends(from_known: bool, to_known: bool, same: bool) -> usize
    ensures count { result ≡ as_number (not from_known) + as_number (not to_known && not same) }
    ensures few { result ≤ 2 }
{
    usize::from(!from_known) + usize::from(!to_known && !same)
}

// Whether a key has a number.
fn is_known(objects: &[Key], key: &Key) -> bool
    ensures { result ≡ list_any (ghosts.eq key.now) objects.now }
{
    objects.iter().any(|known| key == known)
}

// The number of a key, which is appended if it is new.
fn enter(objects: &mut Vec<Key>, key: Key) -> EntityId
    requires room { vec_len objects.old < vec_capacity objects.old }
    requires fits { length objects.old.items < 2 ^ 32 }
    ensures objects { objects.new.items ≡ put_new ghosts.eq objects.old.items key }
    ensures id { result.0 ≡ number_in objects.new.items key }
    ensures there { list_any (ghosts.eq key) objects.new.items ≡ true }
    ensures len { vec_len objects.new ≤ vec_len objects.old + 1 }
    ensures room { vec_capacity objects.old ≤ vec_capacity objects.new }
{
    equal_keys_are_one();
    let place = place_of(objects.as_slice(), &key);
    if place == objects.len() {
        put_last(objects, key);
    }
    EntityId(place as u32)
}

// The first place of a key, or else the number of all.
fn place_of(objects: &[Key], key: &Key) -> usize
    ensures place { result ≡ number_in objects.now key.now }
    ensures within { result ≤ length objects.now }
{
    match find(objects, key) {
        Some(place) => place,
        None => objects.len(),
    }
}

// The first place of a key.
fn find(objects: &[Key], key: &Key) -> Option<usize>
    ensures { result ≡ position (ghosts.eq key.now) objects.now }
{
    objects.iter().position(|known| key == known)
}
