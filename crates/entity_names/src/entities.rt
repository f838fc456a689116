//! The table of objects and names.
ghost use Rattle.std.specs.Prelude.{◌≡◌, ◌≤◌, ◌<◌, ◌+◌, ◌^◌, ◌↔◌, ℕ, [], ◌∷◌, ◌++◌, List, Option, Some, None, Err, true, false, length, drop, not, nat_le, ◌||◌, OnOk, OnErr, IfOk, IfErr, option_map, position, slice_get, is_some, nat_eq, ◌≢◌, ◌⊎◌, IsOk, vec_capacity, min, IfSome, if◌then◌else◌};
ghost use Rattle.std.specs.List.{list_any};
ghost use Rattle.std.specs.Option.{option_map_or};
ghost use Rattle.std.specs.Cmp.Lexicographic.{pointwise};
ghost use Rattle.flow_base.specs.declared.types.Key.{Key};
ghost use Rattle.flow_base.specs.contracts.types.KeyPartialEq.TheImpl.{ghosts};
ghost use Rattle.flow_base.specs.declared.limits.Full.{Full};
ghost use Rattle.acts.specs.Keys.{put_new};
ghost use Rattle.flow_base.specs.declared.types.EntityId.{EntityId};
ghost use Rattle.flow_base.specs.declared.faults.Refused.TheVariants as fault;
ghost use Rattle.entity_names.specs.Known.{NamesAs, ids_where, HasPlace, full_at, names_at, saved_at, capacity_at, with_name_within, AreNew, pairs_of};

use crate::key_names::{Named, Names};
use crate::saving::{names_from, save_from, set_apart};
use acts::copy_key;
use flow_base::{
    Bytes, EntityId, Full, Key, Limit, Limits, List, NoMemory, Refused, equal_keys_are_one,
};
use indexmap::{IndexMap, IndexSet};
use std::alloc::Global;
use std::marker::Model;
use table_salt::Salt;

/// The objects by number, and the names of keys, known or not.
#[derive(Drop)]
pub struct Entities {
    keys: IndexSet<Key, Salt>,
    names: IndexMap<Key, Names, Salt>,
    /// How many entries of `names` stand in its first part.
    saved: usize,
    limit: u32,
    most_names: usize,
}

impl Model for Entities {
    ghost use Rattle.std.specs.Prelude.{◌≤◌, ◌<◌, ◌^◌, length};
    ghost use Rattle.entity_names.specs.Known.{Known, AreSaved};
    ghost use Rattle.indexmap.specs.IndexSet as set;

    ghost Value = { Known };

    ghost view = { λ a. record { keys = a.keys.keys; limit = a.limit; most_names = a.most_names; names = a.names.entries; spare = set.spare a.keys } };

    ghost invariant = { λ a. (length a.keys.keys ≤ a.limit) × ((a.limit < 2 ^ 32) × ((a.most_names ≤ 16) × AreSaved a.saved a.names.entries)) };
}

impl Entities {
    /// No objects and no names, and room for no more of them than the limits say.
    pub fn new(alloc: Global, salt: Salt, limits: &Limits) -> Entities
        ensures keys { result.keys ≡ [] }
        ensures limit { result.limit ≡ limits.now.entities }
        ensures most_names { result.most_names ≡ limits.now.names }
        ensures names { NamesAs result [] }
        ensures saved { (k : Key) → saved_at result k ≡ 0 }
    {
        Entities {
            keys: IndexSet::with_hasher(alloc, salt),
            names: IndexMap::with_hasher(alloc, salt),
            saved: 0,
            limit: limits.entities,
            most_names: limits.names,
        }
    }

    /// How many objects are known.
    pub fn count(&self) -> u32
        ensures { result ≡ length self.now.keys }
    {
        self.keys.len() as u32
    }

    /// The key of an object.
    pub fn key(&self, id: EntityId) -> &Key
        requires { id.0 < length self.now.keys }
        ensures { slice_get self.now.keys id.0 ≡ Some result.now }
    {
        match self.keys.get_index(id.0 as usize) {
            Some(key) => key,
            None => unreachable!(),
        }
    }

    /// The number of a key, if it is known.
    pub fn id(&self, key: &Key) -> Option<EntityId>
        ensures place { option_map (λ (id : EntityId). id.0) result
            ≡ position (ghosts.eq key.now) self.now.keys }
        ensures known { is_some result ≡ list_any (ghosts.eq key.now) self.now.keys }
    {
        match self.keys.get_index_of(key) {
            Some(index) => Some(EntityId(index as u32)),
            None => None,
        }
    }

    /// The number of a key: the next number, if the key is new.
    pub fn enter(&mut self, key: Key) -> Result<EntityId, Refused>
        ensures keys { OnOk result (self.new.keys ≡ put_new ghosts.eq self.old.keys key) }
        ensures id { IfOk result (λ (id : EntityId). position (ghosts.eq key) self.new.keys
            ≡ Some id.0) }
        ensures full { (full : Full) → (result ≡ Err (fault.Full full))
            ↔ ((full ≡ full_at self.old.limit)
            × ((list_any (ghosts.eq key) self.old.keys ≡ false)
            × (length self.old.keys ≡ self.old.limit))) }
        ensures room { 1 ≤ self.old.spare
            → IfErr result (λ e. e ≡ fault.Full (full_at self.old.limit)) }
        ensures spare { self.old.spare ≤ self.new.spare + 1 }
        ensures err { OnErr result (self.new.keys ≡ self.old.keys) }
        ensures rest { self.new ≡ record self.old { keys = self.new.keys; spare = self.new.spare } }
    {
        if let Some(id) = self.id(&key) {
            return Ok(id);
        }
        if self.count() == self.limit {
            return Err(Refused::Full(Full {
                limit: Limit::Entities,
                number: u64::from(self.limit),
            }));
        }
        match self.keys.insert_full(key) {
            Ok((index, _)) => Ok(EntityId(index as u32)),
            Err(_) => Err(Refused::NoMemory),
        }
    }

    /// The objects that have exactly this name, ascending.
    pub fn find(&self, text: &[u8]) -> Result<List<EntityId>, NoMemory>
        ensures { IfOk result (λ ids. ids ≡ ids_where
            (λ key. list_any (pointwise nat_eq text.now) (names_at self.now key)) 0 self.now.keys) }
    {
        let mut ids = List::new(*self.names.allocator());
        let mut next = 0;
        for key in self.keys.iter() {
            if self.has_name(key, text) {
                ids.push(EntityId(next))?;
            }
            next += 1;
        }
        Ok(ids)
    }

    /// Whether a key has exactly this name.
    pub fn has_name(&self, key: &Key, text: &[u8]) -> bool
        ensures { result ≡ list_any (pointwise nat_eq text.now) (names_at self.now key.now) }
    {
        match self.names.get(key) {
            Some(names) => is_listed(names.as_slice(), text),
            None => false,
        }
    }

    /// Makes room for more keys, and for one more name for each of these.
    pub fn reserve(&mut self, keys: usize, named: &[Key]) -> Result<(), NoMemory>
        ensures rest { self.new ≡ record self.old {
          names = self.new.names;
          spare = self.new.spare;
        } }
        ensures names { (k : Key) → names_at self.new k ≡ names_at self.old k }
        ensures saved { (k : Key) → saved_at self.new k ≡ saved_at self.old k }
        ensures spare { OnOk result (keys ≤ self.new.spare) }
        ensures room { OnOk result ((k : Key) → list_any (ghosts.eq k) named.now ≡ true
            → min self.old.most_names (length (names_at self.old k) + length named.now)
            ≤ capacity_at self.new k) }
    {
        for key in named {
            self.make_room(key, named.len())?;
        }
        self.keys.reserve(keys)?;
        Ok(())
    }

    /// Makes room for more names of a key, up to the most that are kept.
    fn make_room(&mut self, key: &Key, more: usize) -> Result<(), NoMemory>
        ensures rest { self.new ≡ record self.old { names = self.new.names } }
        ensures names { (k : Key) → names_at self.new k ≡ names_at self.old k }
        ensures saved { (k : Key) → saved_at self.new k ≡ saved_at self.old k }
        ensures room { OnOk result ((k : Key) → ghosts.eq k key.now ≡ true
            → min self.old.most_names (length (names_at self.old k) + more)
            ≤ capacity_at self.new k) }
        ensures capacity { (k : Key) → capacity_at self.old k ≤ capacity_at self.new k }
    {
        equal_keys_are_one();
        let alloc = *self.names.allocator();
        let more = more.min(self.most_names);
        match self.names.get_mut(key) {
            Some(names) => match names.reserve(alloc, more) {
                Ok(()) => Ok(()),
                Err(fault) => Err(fault),
            },
            None => {
                let mut names = Names::new();
                names.reserve(alloc, more)?;
                match self.names.insert(copy_key(key)?, names) {
                    Ok(_) => Ok(()),
                    Err(_) => Err(NoMemory),
                }
            }
        }
    }

    /// The names of a key, if it has any.
    pub fn names(&self, key: &Key) -> Option<&[Bytes]>
        ensures names { option_map_or (λ (list : _). list.now) result []
            ≡ names_at self.now key.now }
        ensures some { IfSome result (λ list. list.now ≢ []) }
    {
        match self.names.get(key) {
            Some(names) if !names.as_slice().is_empty() => Some(names.as_slice()),
            _ => None,
        }
    }

    #[tactic(auto, using(crate::proofs::Names::one_more))]
    /// Gives a key a name. One that it has, and one past the most that a key may have, changes nothing.
    pub fn add_name(&mut self, key: Key, text: Bytes) -> Result<(), NoMemory>
        ensures ok { OnOk result ((k : Key) → names_at self.new k
            ≡ (if ghosts.eq key k then with_name_within self.old.most_names
            (names_at self.old k) text else names_at self.old k)) }
        ensures next { OnOk result ((given : List (Key × List ℕ)) → NamesAs self.old given
            → NamesAs self.new (given ++ (key, text) ∷ [])) }
        ensures err { OnErr result ((k : Key) → names_at self.new k ≡ names_at self.old k) }
        ensures rest { self.new ≡ record self.old { names = self.new.names } }
        ensures room { HasPlace self.old key → IsOk result }
        ensures capacity { (k : Key) → capacity_at self.old k ≤ capacity_at self.new k }
        ensures saved { (k : Key) → saved_at self.new k ≡ saved_at self.old k }
    {
        equal_keys_are_one();
        if !self.has_need(&key, text.as_slice()) {
            return Ok(());
        }
        let alloc = *self.names.allocator();
        self.saved = set_apart(&mut self.names, self.saved, &key);
        match self.names.get_mut(&key) {
            Some(names) => match names.push(alloc, text) {
                Ok(()) => Ok(()),
                Err(fault) => Err(fault),
            },
            None => match self.names.insert(key, Names::of_one(text)) {
                Ok(_) => Ok(()),
                Err(_) => Err(NoMemory),
            },
        }
    }

    /// Whether a key lacks this name and has a place for it.
    fn has_need(&self, key: &Key, text: &[u8]) -> bool
        ensures { not result
            ≡ list_any (pointwise nat_eq text.now) (names_at self.now key.now)
            || nat_le self.now.most_names (length (names_at self.now key.now)) }
    {
        match self.names.get(key) {
            Some(names) => {
                let texts = names.as_slice();
                texts.len() < self.most_names && !is_listed(texts, text)
            }
            None => self.most_names > 0,
        }
    }

    /// The names of each key that came since the mark, in the order in which they came.
    pub fn new_names(&self) -> Result<List<Named>, NoMemory>
        ensures { IfOk result (λ found. AreNew self.now (pairs_of found)) }
    {
        names_from(&self.names, self.saved)
    }

    /// Moves the mark to now: all names of each key are there at the mark. It takes no memory.
    pub fn mark_saved(&mut self)
        ensures names { (k : Key) → names_at self.new k ≡ names_at self.old k }
        ensures saved { (k : Key) → saved_at self.new k ≡ length (names_at self.new k) }
        ensures capacity { (k : Key) → capacity_at self.new k ≡ capacity_at self.old k }
        ensures rest { self.new ≡ record self.old { names = self.new.names } }
    {
        save_from(&mut self.names, self.saved);
        self.saved = self.names.len();
    }

    /// The keys of the objects from this number on.
    pub fn copy_from(&self, first: u32) -> Result<List<Key>, NoMemory>
        ensures { IfOk result (λ keys. keys ≡ drop first self.now.keys) }
    {
        let alloc = *self.names.allocator();
        let first = self.keys.len().min(first as usize);
        copy_keys(alloc, &self.keys.as_slice()[first..])
    }
}

/// Copies of these keys.
fn copy_keys(alloc: Global, keys: &[Key]) -> Result<List<Key>, NoMemory>
    ensures { IfOk result (λ copies. copies ≡ keys.now) }
{
    let mut copies = List::new(alloc);
    for key in keys {
        copies.push(copy_key(key)?)?;
    }
    Ok(copies)
}

/// Whether these bytes are among the names.
fn is_listed(list: &[Bytes], text: &[u8]) -> bool
    ensures { result ≡ list_any (pointwise nat_eq text.now) list.now }
{
    list.iter().any(|name| text == name.as_slice())
}
