//! What the acts of an event do to each part of the tables. Nothing here takes memory.
ghost use Rattle.std.specs.Prelude.{◌≡◌, ◌≤◌, ◌<◌, ◌+◌, ◌-◌, ◌^◌, ◌∷◌, ◌++◌, [], List, length, reverse};
ghost use Rattle.flow_base.specs.declared.types.Key.{Key};
ghost use Rattle.acts.specs.declared.act.Act.{Act};
ghost use Rattle.acts.specs.Keys.{put_new};
ghost use Rattle.flow_base.specs.contracts.types.KeyPartialEq.TheImpl.{ghosts};
ghost use Rattle.proc_table.specs.Table.{StandsFor};
ghost use Rattle.entity_names.specs.Known.{HasPlace, names_at, capacity_at};
ghost use Rattle.flow_events.specs.Births.{BornAs};
ghost use Rattle.flow_events.specs.Entering.{AddsNames, ChangesKeys, Covers, SavedAlike, entered, pair_of, pairs_of};

use crate::added::Added;
use crate::births::Births;
use crate::given::Given;
use crate::lives::live_on;
use acts::{Act, each_beginning_is_an_act};
use entity_names::Entities;
use flow_base::{Key, List, equal_keys_are_one};
use proc_table::Procs;

/// What these acts, the oldest first, do to lives.
pub fn live_through(procs: &mut Procs, acts: &[Act])
    requires room { length acts.now ≤ procs.old.spare }
    ensures next { (before : List Act) → length before + length acts.now < 2 ^ 64 - 1
        → StandsFor procs.old before → StandsFor procs.new (reverse acts.now ++ before) }
{
    each_beginning_is_an_act();
    for act in acts {
        live_on(procs, act);
    }
}

/// What these acts, the oldest first, do to births.
pub fn bear_through(births: &mut Births, acts: &[Act])
    requires room { length acts.now ≤ births.old.spare }
    ensures next { (before : List Act) → length before + length acts.now < 2 ^ 64 - 1
        → BornAs births.old before → BornAs births.new (reverse acts.now ++ before) }
{
    for act in acts {
        births.act(act);
    }
}

// Gives a key a name for which there is a place.
fn give(entities: &mut Entities, given: Given)
    requires place { HasPlace entities.old given.key }
    ensures next { AddsNames entities.old entities.new (pair_of given ∷ []) }
    ensures more { (key : Key)
        → length (names_at entities.new key) ≤ length (names_at entities.old key) + 1 }
    ensures capacity { (key : Key) → capacity_at entities.old key ≤ capacity_at entities.new key }
    ensures saved { SavedAlike entities.old entities.new }
    ensures rest { entities.new ≡ record entities.old { names = entities.new.names } }
{
    match entities.add_name(given.key, given.text) {
        Ok(()) => {}
        Err(_) => unreachable!(),
    }
}

/// Gives keys these names, the newest of which stands first. None is left.
pub fn give_all(entities: &mut Entities, given: &mut List<Given>)
    requires room { Covers entities.old given.old }
    ensures next { AddsNames entities.old entities.new (pairs_of given.old) }
    ensures saved { SavedAlike entities.old entities.new }
    ensures rest { entities.new ≡ record entities.old { names = entities.new.names } }
{
    equal_keys_are_one();
    while let Some(one) = given.pop() {
        give(entities, one);
    }
}

/// Enters a key for which there is room.
pub fn enter(entities: &mut Entities, key: Key)
    requires room { 1 ≤ entities.old.spare }
    requires fits { length (put_new ghosts.eq entities.old.keys key) ≤ entities.old.limit }
    ensures keys { entities.new.keys ≡ put_new ghosts.eq entities.old.keys key }
    ensures spare { entities.old.spare ≤ entities.new.spare + 1 }
    ensures rest { ChangesKeys entities.old entities.new }
{
    match entities.enter(key) {
        Ok(_) => {}
        Err(_) => unreachable!(),
    }
}

/// Enters the objects, the newest of which stands first. None is left, and the flows stay.
pub fn enter_all(entities: &mut Entities, added: &mut Added)
    requires room { length added.old.keys ≤ entities.old.spare }
    requires fits { length (entered entities.old.keys added.old.keys) ≤ entities.old.limit }
    ensures keys { entities.new.keys ≡ entered entities.old.keys added.old.keys }
    ensures rest { ChangesKeys entities.old entities.new }
    ensures flows { added.new.flows ≡ added.old.flows }
{
    while let Some(key) = added.pop_key() {
        enter(entities, key);
    }
}
