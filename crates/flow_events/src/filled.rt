//! Tables that are filled from the rows of a store, one row after the other.
//!
//! A later row decides over an earlier one. A Life row empties the descriptors of its pid, unless it goes on with the
//! life before it.
ghost use Rattle.std.specs.Prelude.{◌≡◌, ◌≤◌, ◌==◌, ◌&&◌, ◌∷◌, ◌++◌, ℕ, [], List, Option, None, Some, OnOk, IfOk, not, length, fold, if◌then◌else◌};
ghost use Rattle.flow_base.specs.declared.limits.Limits.{Limits};
ghost use Rattle.acts.specs.Holding.{is_at};
ghost use Rattle.fd_table.specs.Table.{Becomes};
ghost use Rattle.flow_events.specs.Filling.{HasRows, IsWithin, ObjectFits, Takes};
ghost use Rattle.row_codec.specs.declared.rows.StoreRow.TheVariants as row;
ghost use Rattle.store_check.specs.Store.{keys};
ghost use Rattle.stored.specs.Words.{goes_on};

use crate::births::Births;
use crate::passes::enter;
use acts::{Held, copy_key};
use entity_names::Entities;
use fd_table::Fds;
use flow_base::{Bytes, FileId, Key, Limits, NoMemory};
use proc_table::{Life, Procs};
use row_codec::{StateRow, StoreRow};
use std::alloc::Global;
use table_salt::Salt;

/// What was filled so far.
#[derive(Drop)]
pub struct Filled {
    pub procs: Procs,
    pub fds: Fds,
    pub births: Births,
    pub entities: Entities,
    pub flows: u64,
    pub acts: u64,
}

/// What these rows say.
pub fn fill_all(
    alloc: Global,
    salt: Salt,
    limits: &Limits,
    rows: &[StoreRow],
) -> Result<Filled, NoMemory>
    requires fits { length (keys rows.now) ≤ limits.now.entities }
    ensures rows { IfOk result (λ filled. HasRows filled rows.now) }
    ensures within { IfOk result (IsWithin limits.now) }
{
    let mut filled = Filled::new(alloc, salt, limits);
    for row in rows {
        filled.fill(row)?;
    }
    Ok(filled)
}

impl Filled {
    /// No rows.
    pub fn new(alloc: Global, salt: Salt, limits: &Limits) -> Filled
        ensures rows { HasRows result [] }
        ensures within { IsWithin limits.now result }
    {
        Filled {
            procs: Procs::new(alloc, salt),
            fds: Fds::new(alloc, salt),
            births: Births::new(alloc, salt),
            entities: Entities::new(alloc, salt, limits),
            flows: 0,
            acts: 0,
        }
    }

    /// Takes what one more row says.
    pub fn fill(&mut self, row: &StoreRow) -> Result<(), NoMemory>
        requires fits { ObjectFits self.old row.now }
        ensures takes { OnOk result (Takes self.old self.new row.now) }
        ensures within { (limits : Limits) → IsWithin limits self.old → IsWithin limits self.new }
    {
        match row {
            StoreRow::Entity { key } => self.fill_key(key),
            StoreRow::Name { key, text } => self.fill_name(key, text),
            StoreRow::Life { pid, life } => self.fill_life(*pid, *life),
            StoreRow::Held { pid, fd, held } => self.fill_held(*pid, *fd, held),
            StoreRow::Address { act, bytes } => self.fill_address(*act, bytes),
            StoreRow::Born { file, born } => self.fill_births(*file, *born),
            StoreRow::State(state) => Ok(self.fill_counts(state)),
            StoreRow::Kept(_) => Ok(()),
            StoreRow::Extend(_) => Ok(()),
            StoreRow::Waiting { .. } => Ok(()),
        }
    }

    #[tactic(auto, using(crate::proofs::Filling::key_filled))]
    fn fill_key(&mut self, key: &Key) -> Result<(), NoMemory>
        requires fits { ObjectFits self.old (row.Entity key.now) }
        ensures takes { OnOk result (Takes self.old self.new (row.Entity key.now)) }
        ensures within { (limits : Limits) → IsWithin limits self.old → IsWithin limits self.new }
    {
        let key = copy_key(key)?;
        self.entities.reserve(1, &[])?;
        enter(&mut self.entities, key);
        Ok(())
    }

    #[tactic(auto, using(crate::proofs::Filling::name_filled))]
    fn fill_name(&mut self, key: &Key, text: &Bytes) -> Result<(), NoMemory>
        ensures takes { OnOk result (Takes self.old self.new (row.Name key.now text.now)) }
        ensures within { (limits : Limits) → IsWithin limits self.old → IsWithin limits self.new }
    {
        self.entities.add_name(copy_key(key)?, text.copy()?)?;
        Ok(())
    }

    fn fill_life(&mut self, pid: u32, life: Life) -> Result<(), NoMemory>
        ensures takes { OnOk result (Takes self.old self.new (row.Life pid life)) }
        ensures within { (limits : Limits) → IsWithin limits self.old → IsWithin limits self.new }
    {
        self.procs.reserve(1)?;
        let goes_on = goes_on(self.procs.at(pid).copied(), life);
        clear_unless(&mut self.fds, goes_on, pid);
        self.procs.put(pid, life);
        Ok(())
    }

    fn fill_held(&mut self, pid: u32, fd: u32, held: &Option<Held>) -> Result<(), NoMemory>
        ensures takes { OnOk result (Takes self.old self.new (row.Held pid fd held.now)) }
        ensures within { (limits : Limits) → IsWithin limits self.old → IsWithin limits self.new }
    {
        self.fds.reserve(1, 0)?;
        hold(&mut self.fds, pid, fd, held)?;
        Ok(())
    }

    fn fill_address(&mut self, act: u64, bytes: &Bytes) -> Result<(), NoMemory>
        ensures takes { OnOk result (Takes self.old self.new (row.Address act bytes.now)) }
        ensures within { (limits : Limits) → IsWithin limits self.old → IsWithin limits self.new }
    {
        self.fds.reserve(0, 1)?;
        self.fds.set_address(act, bytes.copy()?);
        Ok(())
    }

    #[tactic(auto, using(crate::proofs::Filling::births_filled))]
    fn fill_births(&mut self, file: FileId, born: u64) -> Result<(), NoMemory>
        ensures takes { OnOk result (Takes self.old self.new (row.Born file born)) }
        ensures within { (limits : Limits) → IsWithin limits self.old → IsWithin limits self.new }
    {
        self.births.reserve(1)?;
        self.births.put(file, born);
        Ok(())
    }

    #[tactic(auto, using(crate::proofs::Filling::counts_filled))]
    fn fill_counts(&mut self, state: &StateRow)
        ensures takes { Takes self.old self.new (row.State state.now) }
        ensures within { (limits : Limits) → IsWithin limits self.old → IsWithin limits self.new }
    {
        self.flows = state.flows;
        self.acts = state.acts;
    }
}

// Whether a life goes on with the last one of its pid, if there is one.
fn goes_on(before: Option<Life>, now: Life) -> bool
    ensures { result ≡ goes_on before now }
{
    match before {
        Some(before) => now.live && before.life == now.life,
        None => false,
    }
}

// Empties the descriptors of a pid whose life doesn't go on.
fn clear_unless(fds: &mut Fds, goes_on: bool, pid: u32)
    ensures held { Becomes fds.old fds.new (λ p n h. if not goes_on && pid == p then None else h) }
    ensures addresses { fds.new.addresses ≡ fds.old.addresses }
{
    if !goes_on {
        fds.clear(pid);
    }
}

// Makes a descriptor hold this or nothing.
fn hold(fds: &mut Fds, pid: u32, fd: u32, held: &Option<Held>) -> Result<(), NoMemory>
    requires room { 1 ≤ fds.old.spare }
    ensures held { OnOk result (Becomes fds.old fds.new
        (λ p n h. if is_at pid fd p n then held.now else h)) }
    ensures addresses { fds.new.addresses ≡ fds.old.addresses }
{
    match held {
        Some(held) => fds.set(pid, fd, held.copy()?),
        None => fds.close(pid, fd),
    }
    Ok(())
}
