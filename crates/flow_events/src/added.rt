//! The objects and flows that an event adds.
ghost use Rattle.std.specs.Prelude.{◌≡◌, ◌≤◌, ◌<◌, ◌≢◌, ◌++◌, ◌∷◌, [], Some, length, reverse, OnOk, IfOk, IfSome, IsNone, position};
ghost use Rattle.flow_base.specs.contracts.types.KeyPartialEq.TheImpl.{ghosts};
ghost use Rattle.std.specs.List.{position_or_len};
ghost use Rattle.acts.specs.Keys.{put_new};
ghost use Rattle.acts.specs.Flows.{number_in, with_ends};
ghost use Rattle.flow_events.specs.Added.{AddsEnds, AddsFlow, AddsKey, IfFull, IsPast, StayNew, StayNumbered, objects_in};

use crate::parts::{empty, turn};
use acts::Link;
use entity_names::Entities;
use flow_base::{
    EntityId, Flow, Full, Key, Limit, List, NoMemory, Refused, Stamp, equal_keys_are_one,
};
use std::alloc::Global;
use std::marker::Model;

/// The objects and flows that an event adds.
#[derive(Drop)]
pub struct Added {
    keys: List<Key>,
    flows: List<Flow>,
}

impl Model for Added {
    ghost use Rattle.flow_events.specs.Added.{Additions};

    ghost Value = { Additions };

    ghost view = { λ a. record { keys = a.keys; flows = a.flows } };
}

impl Added {
    /// Nothing.
    pub fn new(alloc: Global) -> Added
        ensures { result ≡ record { keys = []; flows = [] } }
    {
        Added {
            keys: List::new(alloc),
            flows: List::new(alloc),
        }
    }

    /// Takes all out, and keeps the memory of the lists.
    pub fn clear(&mut self)
        ensures { self.new ≡ record { keys = []; flows = [] } }
    {
        empty(&mut self.keys);
        empty(&mut self.flows);
    }

    /// Puts the last object first.
    pub fn turn(&mut self, alloc: Global) -> Result<(), NoMemory>
        ensures ok { OnOk result
            (self.new ≡ record self.old { keys = reverse self.old.keys }) }
    {
        let _ = &self.flows;
        turn(alloc, &mut self.keys)
    }

    /// The objects.
    pub fn keys(&self) -> &[Key]
        ensures { result.now ≡ self.now.keys }
    {
        let _ = &self.flows;
        self.keys.as_slice()
    }

    /// The flows.
    pub fn flows(&self) -> &[Flow]
        ensures { result.now ≡ self.now.flows }
    {
        let _ = &self.keys;
        self.flows.as_slice()
    }

    /// Takes the last object out.
    pub fn pop_key(&mut self) -> Option<Key>
        ensures some { IfSome result (λ key. self.old.keys ≡ self.new.keys ++ key ∷ []) }
        ensures none { IsNone result → (self.old.keys ≡ []) × (self.new.keys ≡ []) }
        ensures flows { self.new.flows ≡ self.old.flows }
    {
        let _ = &self.flows;
        self.keys.pop()
    }

    #[tactic(auto, using(crate::proofs::Numbering::known_number, crate::proofs::Numbering::new_number, crate::proofs::Numbering::known_stays, crate::proofs::Numbering::new_comes, crate::proofs::Numbering::still_fits, crate::proofs::Numbering::still_new))]
    // The number of a key: the next number, if the key is new.
    fn number(&mut self, entities: &Entities, most: u32, key: Key) -> Result<EntityId, Refused>
        requires limit { most ≡ entities.now.limit }
        requires fits { length (objects_in entities.now self.old) ≤ most }
        ensures keys { OnOk result (AddsKey entities.now self.old self.new key) }
        ensures new { OnOk result (StayNew entities.now self.old self.new) }
        ensures id { IfOk result
            (λ (id : EntityId). id.0 ≡ number_in (objects_in entities.now self.old) key) }
        ensures full { IfFull result
            (λ full. IsPast most full (put_new ghosts.eq (objects_in entities.now self.old) key)) }
        ensures fits { OnOk result (length (objects_in entities.now self.new) ≤ most) }
        ensures flows { self.new.flows ≡ self.old.flows }
    {
        equal_keys_are_one();
        if let Some(id) = entities.id(&key) {
            return Ok(id);
        }
        let place = entities.count() as usize + put_new(&mut self.keys, key)?;
        if place >= most as usize {
            return Err(Refused::Full(Full {
                limit: Limit::Entities,
                number: u64::from(most),
            }));
        }
        Ok(EntityId(place as u32))
    }

    /// How many flows were added.
    pub fn count(&self) -> u64
        ensures { result ≡ length self.now.flows }
    {
        let _ = &self.keys;
        self.flows.as_slice().len() as u64
    }

    /// Adds the flow of a link, and those of its ends that are new.
    pub fn link(
        &mut self,
        entities: &Entities,
        most: u32,
        link: Link,
        at: Stamp,
        serial: u32,
    ) -> Result<(), Refused>
        requires limit { most ≡ entities.now.limit }
        requires fits { length (objects_in entities.now self.old) ≤ most }
        requires ends { link.from ≢ link.to }
        ensures keys { OnOk result (AddsEnds entities.now self.old self.new (Some link)) }
        ensures new { OnOk result (StayNew entities.now self.old self.new) }
        ensures flows { OnOk result
            (AddsFlow entities.now self.old self.new at serial (Some link)) }
        ensures numbered { OnOk result (StayNumbered entities.now at self.old self.new) }
        ensures full { IfFull result
            (λ full. IsPast most full (with_ends (objects_in entities.now self.old) (Some link))) }
        ensures fits { OnOk result (length (objects_in entities.now self.new) ≤ most) }
    {
        equal_keys_are_one();
        let from = self.number(entities, most, link.from)?;
        let to = self.number(entities, most, link.to)?;
        self.flows.push(Flow {
            from,
            to,
            how: link.how,
            at,
            serial,
        })?;
        Ok(())
    }
}

// The place of a key among these, after which it is put if it is new. They are the new keys of one event, so they are few.
fn put_new(keys: &mut List<Key>, key: Key) -> Result<usize, NoMemory>
    ensures keys { OnOk result (keys.new ≡ put_new ghosts.eq keys.old key) }
    ensures place { IfOk result (λ place. place ≡ position_or_len (ghosts.eq key) keys.old) }
    ensures within { IfOk result (λ place. place < length keys.new) }
    ensures few { IfOk result (λ place. place ≤ length keys.old) }
{
    match find(keys.as_slice(), &key) {
        Some(place) => Ok(place),
        None => {
            let place = keys.as_slice().len();
            keys.push(key)?;
            Ok(place)
        }
    }
}

// The place of a key among these.
fn find(keys: &[Key], key: &Key) -> Option<usize>
    ensures { result ≡ position (ghosts.eq key.now) keys.now }
{
    keys.iter().position(|known| key == known)
}
