//! What is remembered of the acts since a mark, so that a commit writes what changed and not all tables.
//!
//! A pid that an act names is remembered with the last life that it had at the mark: whether its life goes on since then
//! decides whether its descriptors are written anew.
ghost use Rattle.std.specs.Prelude.{◌≡◌, ◌≤◌, ◌<◌, ◌+◌, ◌^◌, ◌==◌, ◌||◌, ◌++◌, ◌∷◌, ℕ, [], List, Some, false, OnOk, length, option_copied, reverse};
ghost use Rattle.flow_base.specs.declared.types.FileId.{FileId};
ghost use Rattle.acts.specs.declared.act.Act.{Act};
ghost use Rattle.acts.specs.Births.{has_number, is_birth_of};
ghost use Rattle.acts.specs.Flows.{objects};
ghost use Rattle.proc_table.specs.Table.{StandsFor as LivesAs};
ghost use Rattle.fd_table.specs.Table.{address_at};
ghost use Rattle.stored.specs.Batch.{names_pid};
ghost use Rattle.flow_events.specs.Since.{AddsHeld, ArePids, AreFiles, DiffersInFiles, DiffersInNamed, DiffersInPids, DiffersInSlots, DiffersInSockets, HasEach, HasRoom, HasRoomFor, HasThose, HasTouched, IsMarked, IsSameMemory, IsSince, NotesPid, NotesFile, NotesSocket, RemembersTheSame, StillHas, any_may_put, any_touches, changes_address, is_address, is_since, is_touched, pid_in};
ghost use Rattle.flow_events.specs.Remembering.{NotesEvent};

use crate::plan::NewAddress;
use crate::slots::Slots;
use acts::Act;
use fd_table::Fds;
use flow_base::{Bytes, FileId, NoMemory, equal_files_are_one};
use indexmap::{IndexMap, IndexSet};
use proc_table::{Life, Procs};
use std::alloc::Global;
use std::marker::Model;
use table_salt::Salt;

/// What is remembered of the acts since a mark.
#[derive(Drop)]
pub struct Since {
    /// How many objects there were at the mark.
    known: u32,
    /// Each pid that was named, with its last life at the mark.
    pids: IndexMap<u32, Option<Life>, Salt>,
    /// The file numbers that were born.
    files: IndexSet<FileId, Salt>,
    /// The sockets that got another address.
    sockets: IndexSet<u64, Salt>,
    /// The descriptors that were touched while they held something.
    slots: Slots,
    /// The descriptors at which something was put.
    puts: Slots,
}

impl Model for Since {
    ghost use Rattle.flow_events.specs.Since.{Memory};
    ghost use Rattle.indexmap.specs.IndexMap as map;
    ghost use Rattle.indexmap.specs.IndexSet as set;

    ghost Value = { Memory };

    ghost view = { λ a. record {
      known = a.known;
      pids = a.pids.entries;
      files = a.files.keys;
      sockets = a.sockets.keys;
      slots = a.slots;
      puts = a.puts;
      pid_spare = map.spare a.pids;
      file_spare = set.spare a.files;
      socket_spare = set.spare a.sockets;
    } };
}

impl Since {
    /// Nothing is remembered: the mark is now, with this many objects.
    pub fn new(alloc: Global, salt: Salt, known: u32) -> Since
        ensures { (before : List Act) → known ≡ length (objects before)
            → IsSince result before [] }
    {
        Since {
            known,
            pids: IndexMap::with_hasher(alloc, salt),
            files: IndexSet::with_hasher(alloc, salt),
            sockets: IndexSet::with_hasher(alloc, salt),
            slots: Slots::new(alloc, salt),
            puts: Slots::new(alloc, salt),
        }
    }

    /// Nothing is remembered any more: the mark is now, with this many objects. It takes no memory.
    pub fn mark(&mut self, known: u32)
        ensures { (before : List Act) → known ≡ length (objects before)
            → IsSince self.new before [] }
    {
        self.known = known;
        self.pids.clear();
        self.files.clear();
        self.sockets.clear();
        self.slots.clear();
        self.puts.clear();
    }

    /// How many objects there were at the mark.
    pub fn known(&self) -> u32
        ensures { result ≡ self.now.known }
    {
        self.known
    }

    /// Each pid that was named, with its last life at the mark.
    pub fn pids(&self) -> &IndexMap<u32, Option<Life>, Salt>
        ensures { result.now.entries ≡ self.now.pids }
    {
        &self.pids
    }

    /// The file numbers that were born.
    pub fn files(&self) -> &[FileId]
        ensures { result.now ≡ self.now.files }
    {
        self.files.as_slice()
    }

    /// The sockets that got another address.
    pub fn sockets(&self) -> &[u64]
        ensures { result.now ≡ self.now.sockets }
    {
        self.sockets.as_slice()
    }

    /// The descriptors that were touched while they held something.
    pub fn slots(&self) -> &[(u32, u32)]
        ensures { result.now ≡ self.now.slots }
    {
        self.slots.as_slice()
    }

    /// Whether a descriptor was touched while it held something, or something was put there.
    pub fn touched(&self, pid: u32, fd: u32) -> bool
        ensures { result ≡ is_touched self.now (pid, fd) }
    {
        self.slots.has(pid, fd) || self.puts.has(pid, fd)
    }

    /// Whether this life of a pid goes on since the mark.
    pub fn goes_on(&self, pid: u32, life: &Life) -> bool
        ensures { result ≡ is_since (pid_in self.now pid) life.now }
    {
        match self.pids.get(&pid) {
            Some(Some(was)) => was.live && was.life == life.life,
            _ => false,
        }
    }

    /// Makes room for this many acts, and for one address.
    pub fn reserve(&mut self, acts: usize) -> Result<(), NoMemory>
        requires few { acts < 2 ^ 63 }
        ensures same { IsSameMemory self.old self.new }
        ensures room { OnOk result (HasRoom self.new acts) }
        ensures address { OnOk result (1 ≤ self.new.socket_spare) }
    {
        self.pids.reserve(2 * acts)?;
        self.files.reserve(acts)?;
        self.sockets.reserve(1)?;
        Ok(())
    }

    /// Notes the descriptors that these acts touch, and those at which they may put something. They hold what they do
    /// before the acts.
    pub fn note_slots(&mut self, fds: &Fds, acts: &[Act]) -> Result<(), NoMemory>
        ensures adds { AddsHeld fds.now self.old.slots self.new.slots }
        ensures stay { StillHas self.old.puts self.new.puts }
        ensures noted { OnOk result (HasThose fds.now self.new.slots (any_touches acts.now)) }
        ensures put { OnOk result (HasEach self.new.puts (any_may_put acts.now)) }
        ensures rest { DiffersInSlots self.old self.new }
    {
        self.slots.note_acts(fds, acts)?;
        self.puts.put_acts(acts)
    }

    // Remembers a pid as it stands, unless it is remembered already.
    fn note_pid(&mut self, procs: &Procs, pid: u32)
        requires room { 1 ≤ self.old.pid_spare }
        ensures pids { NotesPid self.old self.new procs.now (λ p. pid == p) }
        ensures spare { self.old.pid_spare ≤ self.new.pid_spare + 1 }
        ensures rest { DiffersInPids self.old self.new }
    {
        if self.pids.contains_key(&pid) {
            return;
        }
        let last = procs.at(pid).copied();
        if self.pids.insert(pid, last).is_err() {
            unreachable!();
        }
    }

    // Remembers that a file number was born.
    fn note_file(&mut self, id: FileId)
        requires room { 1 ≤ self.old.file_spare }
        ensures files { NotesFile self.old self.new (λ f. has_number (Some id) f) }
        ensures spare { self.old.file_spare ≤ self.new.file_spare + 1 }
        ensures rest { DiffersInFiles self.old self.new }
    {
        equal_files_are_one();
        match self.files.insert_full(id) {
            Ok(_) => {}
            Err(_) => unreachable!(),
        }
    }

    #[tactic(auto, using(crate::proofs::SinceLaws::both_noted))]
    // Remembers two pids.
    fn note_both(&mut self, procs: &Procs, first: u32, second: u32)
        requires room { 2 ≤ self.old.pid_spare }
        ensures pids { NotesPid self.old self.new procs.now (λ p. first == p || second == p) }
        ensures spare { self.old.pid_spare ≤ self.new.pid_spare + 2 }
        ensures rest { DiffersInPids self.old self.new }
    {
        self.note_pid(procs, first);
        self.note_pid(procs, second);
    }

    // Remembers the pids that an act names.
    fn note_pids(&mut self, procs: &Procs, act: &Act)
        requires room { 2 ≤ self.old.pid_spare }
        ensures pids { NotesPid self.old self.new procs.now (names_pid act.now) }
        ensures spare { self.old.pid_spare ≤ self.new.pid_spare + 2 }
        ensures rest { DiffersInPids self.old self.new }
    {
        match act {
            Act::See { pid, ppid, .. } => self.note_both(procs, *pid, *ppid),
            Act::Fork { pid, child } => self.note_both(procs, *pid, *child),
            Act::End { pid } => self.note_pid(procs, *pid),
            Act::Exec { pid } => self.note_pid(procs, *pid),
            Act::Set { pid, .. } => self.note_pid(procs, *pid),
            Act::SetBoth { pid, .. } => self.note_pid(procs, *pid),
            Act::Copy { pid, .. } => self.note_pid(procs, *pid),
            Act::Close { pid, .. } => self.note_pid(procs, *pid),
            Act::Mark { pid, .. } => self.note_pid(procs, *pid),
            Act::Address { pid, .. } => self.note_pid(procs, *pid),
            Act::Birth { .. } => {}
            Act::Move { pid, .. } => self.note_pid(procs, *pid),
        }
    }

    // Remembers the file number of a birth.
    fn note_birth(&mut self, act: &Act)
        requires room { 1 ≤ self.old.file_spare }
        ensures files { NotesFile self.old self.new (is_birth_of act.now) }
        ensures spare { self.old.file_spare ≤ self.new.file_spare + 1 }
        ensures rest { DiffersInFiles self.old self.new }
    {
        if let Act::Birth { file } = act {
            if let Some(id) = file.file {
                self.note_file(id);
            }
        }
    }

    // Remembers what an act is about.
    fn note_act(&mut self, procs: &Procs, act: &Act)
        requires room { HasRoom self.old 1 }
        ensures pids { NotesPid self.old self.new procs.now (names_pid act.now) }
        ensures files { NotesFile self.old self.new (is_birth_of act.now) }
        ensures room { (acts : ℕ) → HasRoom self.old (acts + 1) → HasRoom self.new acts }
        ensures rest { DiffersInNamed self.old self.new }
    {
        self.note_pids(procs, act);
        self.note_birth(act);
    }

    /// Remembers what these acts, the oldest first, are about. The lives are those before the acts.
    pub fn note_acts(&mut self, procs: &Procs, acts: &[Act])
        requires room { HasRoom self.old (length acts.now) }
        ensures pids { (before now : List Act) → LivesAs procs.now (now ++ before)
            → ArePids self.old before now → ArePids self.new before (reverse acts.now ++ now) }
        ensures files { (before now : List Act)
            → AreFiles self.old before now → AreFiles self.new before (reverse acts.now ++ now) }
        ensures rest { DiffersInNamed self.old self.new }
    {
        for act in acts {
            self.note_act(procs, act);
        }
    }

    // Remembers that a socket got another address.
    fn note_socket(&mut self, socket: u64)
        requires room { 1 ≤ self.old.socket_spare }
        ensures sockets { NotesSocket self.old self.new (λ s. s == socket) }
        ensures rest { DiffersInSockets self.old self.new }
    {
        match self.sockets.insert_full(socket) {
            Ok(_) => {}
            Err(_) => unreachable!(),
        }
    }

    /// Remembers the socket of a new address, unless it has this address already.
    pub fn note_address(&mut self, fds: &Fds, address: &Option<NewAddress>)
        requires room { 1 ≤ self.old.socket_spare }
        ensures sockets { NotesSocket self.old self.new
            (changes_address (address_at fds.now) address.now) }
        ensures rest { DiffersInSockets self.old self.new }
    {
        if let Some(new) = address {
            if !has_address(fds.address(new.socket), &new.bytes) {
                self.note_socket(new.socket);
            }
        }
    }
}

/// Remembers these acts, the oldest first, with the address that they give, if anything is remembered. Lives and
/// descriptors are those before the acts.
pub fn note_event(
    since: &mut Option<Since>,
    procs: &Procs,
    fds: &Fds,
    acts: &[Act],
    address: &Option<NewAddress>,
)
    requires room { HasRoomFor since.old (length acts.now) }
    requires touched { HasTouched since.old fds.now acts.now }
    ensures { NotesEvent since.old since.new procs.now fds.now acts.now address.now }
{
    if let Some(since) = since {
        since.note_acts(procs, acts);
        since.note_address(fds, address);
    }
}

#[tactic(auto, using(crate::proofs::SlotLaws::slots_noted))]
/// Makes room for these acts, and for one address, and notes the descriptors that they touch, if anything is remembered.
/// Descriptors hold what they do before the acts.
pub fn reserve_event(since: &mut Option<Since>, fds: &Fds, acts: &[Act]) -> Result<(), NoMemory>
    ensures same { RemembersTheSame fds.now since.old since.new }
    ensures room { OnOk result (HasRoomFor since.new (length acts.now)) }
    ensures touched { OnOk result (HasTouched since.new fds.now acts.now) }
{
    match since {
        Some(since) => {
            since.note_slots(fds, acts)?;
            since.reserve(acts.len())
        }
        None => Ok(()),
    }
}

/// Makes the mark now, with this many objects, if anything is remembered. It takes no memory.
pub fn mark_event(since: &mut Option<Since>, known: u32)
    ensures { IsMarked known since.old since.new }
{
    if let Some(since) = since {
        since.mark(known);
    }
}

// Whether this is the address.
fn has_address(address: Option<&Bytes>, bytes: &Bytes) -> bool
    ensures { result ≡ is_address (option_copied address.entry) bytes.now }
{
    match address {
        Some(address) => address == bytes,
        None => false,
    }
}
