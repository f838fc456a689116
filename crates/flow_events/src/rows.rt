//! The table rows of a commit: what changed since the mark.
//!
//! Each kind of rows is collected in a map first, so that its rows ascend. Of a process whose life goes on since the mark
//! only the descriptors are written that an act touched, however many others it holds.
ghost use Rattle.std.specs.Prelude.{◌≡◌, ◌++◌, ◌==◌, ◌||◌, ◌<◌, ℕ, [], List, map, OnOk, IfOk, Some, None, option_copied, if◌then◌else◌};
ghost use Rattle.row_codec.specs.declared.rows.StoreRow.TheVariants as row;
ghost use Rattle.std.specs.List.Sorted.{IsStrictlySortedBy};
ghost use Rattle.std.specs.Map.{keys_of};
ghost use Rattle.std.specs.Ordering.{nat_cmp};
ghost use Rattle.flow_events.specs.Since.{has_slot, is_touched};
ghost use Rattle.proc_table.specs.Table.{at};
ghost use Rattle.fd_table.specs.Table.{held_at, address_at};
ghost use Rattle.entity_names.specs.Known.{pairs_of};
ghost use Rattle.stored.specs.Batch.{name_row, life_row, held_row, address_row, born_row};
ghost use Rattle.flow_events.specs.Births.{born_at};
ghost use Rattle.flow_events.specs.Rows.{AreParts, Puts, PutsEach, SayLives, SayHeld, SayAddresses, SayBirths, SayRemembered, TellRemembered, life_word, address_word, births_word, slot_word, found, slot_cmp, is_live, live_in, is_written, lost_word, kept_word, live_word, parts_of, goes_on, only_if, touched_word, word_in};

use crate::births::Births;
use crate::parts::newest_first;
use crate::since::Since;
use acts::Held;
use entity_names::{Entities, Named};
use fd_table::{FdEntry, Fds};
use flow_base::{Bytes, FileId, Key, List, NoMemory, equal_files_are_one};
use proc_table::{Life, Procs};
use row_codec::StoreRow;
use std::alloc::Global;
use std::collections::BTreeMap;

/// The rows of objects, which stand before the rows of flows in a batch, and the other rows, which stand after them.
#[derive(Drop)]
pub struct TableRows {
    pub entities: List<StoreRow>,
    pub others: List<StoreRow>,
}

/// How many rows there is room for after those of tables: what waits, and the State.
const BEHIND: usize = 64;

// No rows, and room for this many. A list that grows by and by is copied again and again.
fn room_for(alloc: Global, count: usize) -> Result<List<StoreRow>, NoMemory>
    ensures { IfOk result (λ rows. rows ≡ []) }
{
    Ok(List::from_vec(Vec::with_capacity(alloc, count)?))
}

/// An Entity row for each key.
fn entity_rows(alloc: Global, keys: List<Key>) -> Result<List<StoreRow>, NoMemory>
    ensures { IfOk result (λ rows. rows ≡ map row.Entity keys) }
{
    let mut rows = room_for(alloc, keys.as_slice().len())?;
    let mut keys = newest_first(alloc, keys)?;
    while let Some(key) = keys.pop() {
        rows.push(StoreRow::Entity { key })?;
    }
    Ok(rows)
}

/// Appends a Name row for each name.
fn push_names(alloc: Global, rows: &mut List<StoreRow>, names: List<Named>) -> Result<(), NoMemory>
    ensures { OnOk result (rows.new ≡ rows.old ++ map name_row (pairs_of names)) }
{
    let mut names = newest_first(alloc, names)?;
    while let Some(Named { key, text }) = names.pop() {
        rows.push(StoreRow::Name { key, text })?;
    }
    Ok(())
}

/// Appends a Life row for each life.
fn push_lives(rows: &mut List<StoreRow>, lives: BTreeMap<u32, Life>) -> Result<(), NoMemory>
    ensures { OnOk result (rows.new ≡ rows.old ++ map life_row lives.entries) }
{
    let mut lives = lives;
    while let Some((pid, life)) = lives.pop_first() {
        rows.push(StoreRow::Life { pid, life })?;
    }
    Ok(())
}

/// Appends a Held row for each descriptor.
fn push_held(
    rows: &mut List<StoreRow>,
    held: BTreeMap<(u32, u32), Option<Held>>,
) -> Result<(), NoMemory>
    ensures { OnOk result (rows.new ≡ rows.old ++ map held_row held.entries) }
{
    let mut all = held;
    while let Some(((pid, fd), held)) = all.pop_first() {
        rows.push(StoreRow::Held { pid, fd, held })?;
    }
    Ok(())
}

/// Appends an Address row for each address.
fn push_addresses(
    rows: &mut List<StoreRow>,
    addresses: BTreeMap<u64, Bytes>,
) -> Result<(), NoMemory>
    ensures { OnOk result (rows.new ≡ rows.old ++ map address_row addresses.entries) }
{
    let mut addresses = addresses;
    while let Some((act, bytes)) = addresses.pop_first() {
        rows.push(StoreRow::Address { act, bytes })?;
    }
    Ok(())
}

/// Appends a Born row for each file number.
fn push_births(rows: &mut List<StoreRow>, births: BTreeMap<FileId, u64>) -> Result<(), NoMemory>
    ensures { OnOk result (rows.new ≡ rows.old ++ map born_row births.entries) }
{
    let mut births = births;
    while let Some((file, born)) = births.pop_first() {
        rows.push(StoreRow::Born { file, born })?;
    }
    Ok(())
}

// Puts the last life of a pid, if it has one.
fn put_life(lives: &mut BTreeMap<u32, Life>, procs: &Procs, pid: u32) -> Result<(), NoMemory>
    ensures { OnOk result
        (Puts nat_cmp lives.old.entries lives.new.entries pid (at procs.now pid)) }
{
    if let Some(life) = procs.at(pid) {
        lives.insert(pid, *life)?;
    }
    Ok(())
}

/// The last life of each pid that was named, if it has one.
fn lives_of(alloc: Global, since: &Since, procs: &Procs) -> Result<BTreeMap<u32, Life>, NoMemory>
    ensures say { IfOk result (λ lives. SayLives (life_word since.now procs.now) lives.entries) }
    ensures found { IfOk result (λ lives. (p : ℕ) →
        found nat_cmp lives.entries p ≡ life_word since.now procs.now p) }
{
    let mut lives = BTreeMap::new(alloc);
    for pid in since.pids().keys() {
        put_life(&mut lives, procs, *pid)?;
    }
    Ok(lives)
}

// Puts the address of a socket, if it has one.
fn put_address(addresses: &mut BTreeMap<u64, Bytes>, fds: &Fds, socket: u64) -> Result<(), NoMemory>
    ensures { OnOk result (Puts nat_cmp addresses.old.entries addresses.new.entries
        socket (address_at fds.now socket)) }
{
    if let Some(bytes) = fds.address(socket) {
        addresses.insert(socket, bytes.copy()?)?;
    }
    Ok(())
}

/// The address of each socket that got another one.
fn addresses_of(alloc: Global, since: &Since, fds: &Fds) -> Result<BTreeMap<u64, Bytes>, NoMemory>
    ensures { IfOk result (λ addresses.
        SayAddresses (address_word since.now fds.now) addresses.entries) }
{
    let mut addresses = BTreeMap::new(alloc);
    for socket in since.sockets() {
        put_address(&mut addresses, fds, *socket)?;
    }
    Ok(addresses)
}

// Puts how often a file number was born.
fn put_births(
    counts: &mut BTreeMap<FileId, u64>,
    births: &Births,
    file: FileId,
) -> Result<(), NoMemory>
    ensures { OnOk result (Puts ⟦<FileId as Ord>⟧.cmp counts.old.entries counts.new.entries
        file (Some (born_at births.now file))) }
{
    counts.insert(file, births.count(file))?;
    Ok(())
}

/// How often each file number was born that was born since the mark.
fn births_of(
    alloc: Global,
    since: &Since,
    births: &Births,
) -> Result<BTreeMap<FileId, u64>, NoMemory>
    ensures { IfOk result (λ counts.
        SayBirths (births_word since.now births.now) counts.entries) }
{
    equal_files_are_one();
    let mut counts = BTreeMap::new(alloc);
    for file in since.files() {
        put_births(&mut counts, births, *file)?;
    }
    Ok(counts)
}

// Whether a life goes on.
fn is_live(life: Option<&Life>) -> bool
    ensures { result ≡ is_live (option_copied life.entry) }
{
    match life {
        Some(life) => life.live,
        None => false,
    }
}

// Puts that a descriptor holds nothing, if its pid is live.
fn put_lost(
    held: &mut BTreeMap<(u32, u32), Option<Held>>,
    lives: &BTreeMap<u32, Life>,
    slot: (u32, u32),
) -> Result<(), NoMemory>
    ensures { OnOk result (Puts slot_cmp held.old.entries held.new.entries
        slot (lost_word lives.now.entries slot)) }
{
    if is_live(lives.get(&slot.0)) {
        held.insert(slot, None)?;
    }
    Ok(())
}

/// The descriptors among these whose pid is live, holding nothing.
fn lost_of(
    alloc: Global,
    slots: &[(u32, u32)],
    lives: &BTreeMap<u32, Life>,
) -> Result<BTreeMap<(u32, u32), Option<Held>>, NoMemory>
    ensures sorted { IfOk result (λ held. IsStrictlySortedBy slot_cmp (keys_of held.entries)) }
    ensures found { IfOk result (λ held. (q : ℕ × ℕ) → found slot_cmp held.entries q
        ≡ (if has_slot slots.now q.0 q.1 then lost_word lives.now.entries q else None)) }
{
    let mut held = BTreeMap::new(alloc);
    for slot in slots {
        put_lost(&mut held, lives, *slot)?;
    }
    Ok(held)
}

// Puts what a descriptor holds, if it was touched or all are written.
fn put_entry(
    held: &mut BTreeMap<(u32, u32), Option<Held>>,
    since: &Since,
    pid: u32,
    all: bool,
    entry: FdEntry,
) -> Result<(), NoMemory>
    ensures { OnOk result (Puts slot_cmp held.old.entries held.new.entries (pid, entry.fd)
        (only_if (all || is_touched since.now (pid, entry.fd)) (Some (Some entry.held)))) }
{
    if all || since.touched(pid, entry.fd) {
        held.insert((pid, entry.fd), Some(entry.held))?;
    }
    Ok(())
}

// Puts what all descriptors of a pid hold that hold something, or only what those do that were touched.
fn put_entries(
    held: &mut BTreeMap<(u32, u32), Option<Held>>,
    since: &Since,
    fds: &Fds,
    pid: u32,
    all: bool,
) -> Result<(), NoMemory>
    ensures { OnOk result (PutsEach slot_cmp held.old.entries held.new.entries
        (λ q. if pid == q.0 then touched_word all since.now fds.now q else None)) }
{
    let mut entries = fds.entries(pid)?;
    while let Some(entry) = entries.pop() {
        put_entry(held, since, pid, all, entry)?;
    }
    Ok(())
}

// Whether the last life of a pid goes on since the mark.
fn goes_on(since: &Since, pid: u32, life: Option<&Life>) -> bool
    ensures { result ≡ goes_on since.now pid (option_copied life.entry) }
{
    match life {
        Some(life) => since.goes_on(pid, life),
        None => false,
    }
}

// Puts what is to be written of a pid, if it is live.
fn put_pid(
    held: &mut BTreeMap<(u32, u32), Option<Held>>,
    since: &Since,
    fds: &Fds,
    lives: &BTreeMap<u32, Life>,
    pid: u32,
) -> Result<(), NoMemory>
    ensures { OnOk result (PutsEach slot_cmp held.old.entries held.new.entries
        (λ q. if pid == q.0 then live_word since.now lives.now.entries fds.now q else None)) }
{
    let life = lives.get(&pid);
    if is_live(life) {
        let all = !goes_on(since, pid, life);
        put_entries(held, since, fds, pid, all)?;
    }
    Ok(())
}

/// What is to be written of the descriptors of the pids that are live by these lives: what each holds, of a life that goes
/// on if it was touched; nothing, of one that was touched and holds nothing.
fn held_of(
    alloc: Global,
    since: &Since,
    fds: &Fds,
    lives: &BTreeMap<u32, Life>,
) -> Result<BTreeMap<(u32, u32), Option<Held>>, NoMemory>
    ensures { IfOk result (λ held. SayHeld (λ q. if live_in lives.now.entries q.0
        then word_in since.now fds.now (found nat_cmp lives.now.entries q.0) q else None)
        held.entries) }
{
    let mut held = lost_of(alloc, since.slots(), lives)?;
    for pid in lives.keys() {
        put_pid(&mut held, since, fds, lives, *pid)?;
    }
    Ok(held)
}

/// What the rows say, by kind.
#[derive(Drop)]
struct Collected {
    keys: List<Key>,
    names: List<Named>,
    lives: BTreeMap<u32, Life>,
    held: BTreeMap<(u32, u32), Option<Held>>,
    addresses: BTreeMap<u64, Bytes>,
    births: BTreeMap<FileId, u64>,
}

// What changed since the mark.
fn collect(
    alloc: Global,
    since: &Since,
    procs: &Procs,
    fds: &Fds,
    births: &Births,
    entities: &Entities,
) -> Result<Collected, NoMemory>
    ensures { IfOk result (λ all. SayRemembered since.now procs.now fds.now births.now
        entities.now (parts_of all)) }
{
    let lives = lives_of(alloc, since, procs)?;
    let held = held_of(alloc, since, fds, &lives)?;
    Ok(Collected {
        keys: entities.copy_from(since.known())?,
        names: entities.new_names()?,
        lives,
        held,
        addresses: addresses_of(alloc, since, fds)?,
        births: births_of(alloc, since, births)?,
    })
}

// The rows that say it.
fn lay(alloc: Global, all: Collected) -> Result<TableRows, NoMemory>
    ensures { IfOk result (λ rows. AreParts rows (parts_of all)) }
{
    let Collected {
        keys,
        names,
        lives,
        held,
        addresses,
        births,
    } = all;
    let entities = entity_rows(alloc, keys)?;
    let count = BEHIND
        .saturating_add(names.as_slice().len())
        .saturating_add(lives.len())
        .saturating_add(held.len())
        .saturating_add(addresses.len())
        .saturating_add(births.len());
    let mut others = room_for(alloc, count)?;
    push_names(alloc, &mut others, names)?;
    push_lives(&mut others, lives)?;
    push_held(&mut others, held)?;
    push_addresses(&mut others, addresses)?;
    push_births(&mut others, births)?;
    Ok(TableRows { entities, others })
}

/// The rows that say what changed since the mark.
pub fn since_rows(
    alloc: Global,
    since: &Since,
    procs: &Procs,
    fds: &Fds,
    births: &Births,
    entities: &Entities,
) -> Result<TableRows, NoMemory>
    ensures { IfOk result
        (TellRemembered since.now procs.now fds.now births.now entities.now) }
{
    lay(alloc, collect(alloc, since, procs, fds, births, entities)?)
}

impl TableRows {
    /// No rows.
    pub fn none(alloc: Global) -> TableRows
        ensures entities { result.entities ≡ [] }
        ensures others { result.others ≡ [] }
    {
        TableRows {
            entities: List::new(alloc),
            others: List::new(alloc),
        }
    }
}
