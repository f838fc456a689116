//! How often each file number was born.
//!
//! Acts leave no count at the end of its numbers, but a store might say one. A count stays there then.
ghost use Rattle.std.specs.Prelude.{◌≡◌, ◌≤◌, ◌+◌, [], OnOk, IfOk};
ghost use Rattle.flow_events.specs.Births.{BearsAct, BornAs, CountsBirth, SetsBirths, born_at, births_of, births_in};

use acts::Act;
use flow_base::{FileId, NoMemory, equal_files_are_one};
use indexmap::IndexMap;
use std::alloc::Global;
use std::marker::Model;
use table_salt::Salt;

/// How often each file number was born.
#[derive(Drop)]
pub struct Births {
    counts: IndexMap<FileId, u64, Salt>,
}

impl Model for Births {
    ghost use Rattle.flow_events.specs.Births.{Table};
    ghost use Rattle.indexmap.specs.IndexMap as index;

    ghost Value = { Table };

    ghost view = { λ a. record { all = a.counts.entries; spare = index.spare a.counts } };
}

impl Births {
    /// No file was born.
    pub fn new(alloc: Global, salt: Salt) -> Births
        ensures { BornAs result [] }
    {
        Births {
            counts: IndexMap::with_hasher(alloc, salt),
        }
    }

    /// What its hashes begin with, for further tables of the same run.
    pub fn salt(&self) -> Salt {
        *self.counts.hasher()
    }

    /// Makes the room at least `more`.
    pub fn reserve(&mut self, more: usize) -> Result<(), NoMemory>
        ensures same { self.new.all ≡ self.old.all }
        ensures ok { OnOk result (more ≤ self.new.spare) }
        ensures spare { self.old.spare ≤ self.new.spare }
    {
        self.counts.reserve(more)?;
        Ok(())
    }

    /// How often a file number was born.
    pub fn count(&self, id: FileId) -> u64
        ensures { result ≡ born_at self.now id }
    {
        match self.counts.get(&id) {
            Some(count) => *count,
            None => 0,
        }
    }

    /// A file with this number was born. It takes no memory.
    fn add(&mut self, id: FileId)
        requires room { 1 ≤ self.old.spare }
        ensures added { CountsBirth self.old self.new id }
        ensures spare { self.old.spare ≤ self.new.spare + 1 }
    {
        equal_files_are_one();
        let count = self.count(id).saturating_add(1);
        match self.counts.insert(id, count) {
            Ok(_) => {}
            Err(_) => unreachable!(),
        }
    }

    /// Sets how often a file number was born. It takes no memory.
    pub fn put(&mut self, id: FileId, count: u64)
        requires room { 1 ≤ self.old.spare }
        ensures put { SetsBirths self.old self.new id count }
        ensures spare { self.old.spare ≤ self.new.spare + 1 }
    {
        match self.counts.insert(id, count) {
            Ok(_) => {}
            Err(_) => unreachable!(),
        }
    }

    /// What an act does to births. It takes no memory.
    pub fn act(&mut self, act: &Act)
        requires room { 1 ≤ self.old.spare }
        ensures next { BearsAct self.old self.new act.now }
        ensures spare { self.old.spare ≤ self.new.spare + 1 }
    {
        if let Act::Birth { file } = act {
            if let Some(id) = file.file {
                self.add(id);
            }
        }
    }
}

// How many births an act is.
fn births_of(act: &Act) -> usize
    ensures births { result ≡ births_of act.now }
    ensures few { result ≤ 1 }
{
    match act {
        Act::Birth { .. } => 1,
        _ => 0,
    }
}

/// How many of these acts are births.
pub fn births_in(acts: &[Act]) -> usize
    ensures { result ≡ births_in acts.now }
{
    let mut births = 0;
    for act in acts {
        births += births_of(act);
    }
    births
}

/// How often each file number was born in one event. Most events have no births, and then there is no table.
#[derive(Drop)]
pub struct Fresh {
    table: Option<Box<Births>>,
}

impl Model for Fresh {
    ghost use Rattle.std.specs.Prelude.{option_map};
    ghost use Rattle.flow_events.specs.Births.{Table, table_if};

    ghost Value = { Table };

    ghost view = { λ a. table_if (option_map (λ b. b.value) a.table) };
}

impl Fresh {
    /// No file was born yet, and there is room for no birth.
    pub fn none() -> Fresh
        ensures { BornAs result [] }
    {
        Fresh { table: None }
    }

    /// No file was born yet, and there is room for this many births.
    pub fn new(alloc: Global, salt: Salt, more: usize) -> Result<Fresh, NoMemory>
        ensures births { IfOk result (λ fresh. BornAs fresh []) }
        ensures room { IfOk result (λ fresh. more ≤ fresh.spare) }
    {
        if more == 0 {
            return Ok(Fresh { table: None });
        }
        let mut births = Births::new(alloc, salt);
        births.reserve(more)?;
        Ok(Fresh {
            table: Some(Box::new(alloc, births)?),
        })
    }

    /// How often a file number was born.
    pub fn count(&self, id: FileId) -> u64
        ensures { result ≡ born_at self.now id }
    {
        match &self.table {
            Some(births) => births.count(id),
            None => 0,
        }
    }

    /// What an act does to births. If it is a birth, there must be room for it. It takes no memory.
    pub fn bear(&mut self, act: &Act)
        requires room { births_of act.now ≤ self.old.spare }
        ensures next { BearsAct self.old self.new act.now }
        ensures spare { self.old.spare ≤ self.new.spare + births_of act.now }
    {
        if let Act::Birth { .. } = act {
            match &mut self.table {
                Some(births) => births.act(act),
                None => unreachable!(),
            }
        }
    }
}
