//! Rows of a store, and their reading.
ghost use Rattle.std.specs.Prelude.{◌≡◌};
ghost use Rattle.row_codec.specs.Parsing.{Gives, GivesIfMemory};
ghost use Rattle.row_codec.specs.Fields.{kept_at, extend_at};
ghost use Rattle.row_codec.specs.Rows.{entity_at, kept_row_at, extend_row_at, name_at};
ghost use Rattle.row_codec.specs.Rows.{life_row_at, held_row_at, address_row_at, born_at};
ghost use Rattle.row_codec.specs.Rows.{waiting_at, state_row_at, row_at};

use crate::fault::{NoSpelling, RowRead};
use crate::keys::{file, key};
use crate::lives::life;
use crate::marks::mark;
use crate::numbers::{byte, flag, link, n4, n8};
use crate::objects::holding;
use crate::state::{StateRow, state};
use crate::texts::{lines, text};
use acts::Held;
use flow_base::{Bytes, EntityId, FileId, Key, List};
use proc_table::Life;
use reach_rows::Mark;
use std::alloc::Global;

/// A kept row: its ends, its first flow, and its links.
#[derive(Clone, Copy, Debug, PartialEq, Eq)]
pub struct KeptRow {
    pub from: EntityId,
    pub to: EntityId,
    pub mark: Mark,
    /// The index of the greatest earlier row with the same target.
    pub before_to: Option<u64>,
    /// The index of the greatest earlier row with the same source.
    pub before_from: Option<u64>,
}

/// A later last flow of the row with this index.
#[derive(Clone, Copy, Debug, PartialEq, Eq)]
pub struct ExtendRow {
    pub row: u64,
    pub mark: Mark,
}

/// A row of a store.
#[derive(Drop)]
pub enum StoreRow {
    /// The next object.
    Entity {
        key: Key,
    },
    /// The next kept row.
    Kept(KeptRow),
    /// The last flow of a kept row.
    Extend(ExtendRow),
    /// A name of an object.
    Name {
        key: Key,
        text: Bytes,
    },
    /// The last life of a pid.
    Life {
        pid: u32,
        life: Life,
    },
    /// What a descriptor holds, or that it holds nothing.
    Held {
        pid: u32,
        fd: u32,
        held: Option<Held>,
    },
    /// The address of the socket that an act made.
    Address {
        act: u64,
        bytes: Bytes,
    },
    /// How many births of a file number there were.
    Born {
        file: FileId,
        born: u64,
    },
    /// The lines of an event that waits; the time is in milliseconds.
    Waiting {
        ms: u64,
        serial: u32,
        closed: bool,
        lines: List<Bytes>,
    },
    /// The counts, the clock and the unfinished line, at the end of a batch.
    State(StateRow),
}

/// The row that a prefix of the bytes spells, and the bytes after it.
pub fn row(alloc: Global, bytes: &[u8]) -> Result<(StoreRow, &[u8]), RowRead>
    ensures { GivesIfMemory (λ x. (x.0, x.1.now)) result (row_at bytes.now) }
{
    let (tag, rest) = byte(bytes)?;
    match tag {
        1 => entity(alloc, rest),
        2 => Ok(kept_row(rest)?),
        3 => Ok(extend_row(rest)?),
        4 => name(alloc, rest),
        5 => Ok(life_row(rest)?),
        6 => held_row(alloc, rest),
        7 => address_row(alloc, rest),
        8 => Ok(born(rest)?),
        9 => waiting(alloc, rest),
        10 => state_row(alloc, rest),
        _ => Err(RowRead::Malformed),
    }
}

/// The fields of a Kept row.
pub fn kept(bytes: &[u8]) -> Result<(KeptRow, &[u8]), NoSpelling>
    ensures { Gives (λ x. (x.0, x.1.now)) result (kept_at bytes.now) }
{
    let (from, rest) = n4(bytes)?;
    let (to, rest) = n4(rest)?;
    let (mark, rest) = mark(rest)?;
    let (before_to, rest) = link(rest)?;
    let (before_from, rest) = link(rest)?;
    let row = KeptRow {
        from: EntityId(from),
        to: EntityId(to),
        mark,
        before_to,
        before_from,
    };
    Ok((row, rest))
}

/// The fields of an Extend row.
pub fn extend(bytes: &[u8]) -> Result<(ExtendRow, &[u8]), NoSpelling>
    ensures { Gives (λ x. (x.0, x.1.now)) result (extend_at bytes.now) }
{
    let (row, rest) = n8(bytes)?;
    let (mark, rest) = mark(rest)?;
    Ok((ExtendRow { row, mark }, rest))
}

fn entity(alloc: Global, bytes: &[u8]) -> Result<(StoreRow, &[u8]), RowRead>
    ensures { GivesIfMemory (λ x. (x.0, x.1.now)) result (entity_at bytes.now) }
{
    let (key, rest) = key(alloc, bytes)?;
    Ok((StoreRow::Entity { key }, rest))
}

fn name(alloc: Global, bytes: &[u8]) -> Result<(StoreRow, &[u8]), RowRead>
    ensures { GivesIfMemory (λ x. (x.0, x.1.now)) result (name_at bytes.now) }
{
    let (key, rest) = key(alloc, bytes)?;
    let (text, rest) = text(alloc, rest)?;
    Ok((StoreRow::Name { key, text }, rest))
}

fn life_row(bytes: &[u8]) -> Result<(StoreRow, &[u8]), NoSpelling>
    ensures { Gives (λ x. (x.0, x.1.now)) result (life_row_at bytes.now) }
{
    let (pid, rest) = n4(bytes)?;
    let (life, rest) = life(rest)?;
    Ok((StoreRow::Life { pid, life }, rest))
}

fn held_row(alloc: Global, bytes: &[u8]) -> Result<(StoreRow, &[u8]), RowRead>
    ensures { GivesIfMemory (λ x. (x.0, x.1.now)) result (held_row_at bytes.now) }
{
    let (pid, rest) = n4(bytes)?;
    let (fd, rest) = n4(rest)?;
    let (held, rest) = holding(alloc, rest)?;
    Ok((StoreRow::Held { pid, fd, held }, rest))
}

fn address_row(alloc: Global, bytes: &[u8]) -> Result<(StoreRow, &[u8]), RowRead>
    ensures { GivesIfMemory (λ x. (x.0, x.1.now)) result (address_row_at bytes.now) }
{
    let (act, rest) = n8(bytes)?;
    let (bytes, rest) = text(alloc, rest)?;
    Ok((StoreRow::Address { act, bytes }, rest))
}

fn born(bytes: &[u8]) -> Result<(StoreRow, &[u8]), NoSpelling>
    ensures { Gives (λ x. (x.0, x.1.now)) result (born_at bytes.now) }
{
    let (file, rest) = file(bytes)?;
    let (born, rest) = n8(rest)?;
    Ok((StoreRow::Born { file, born }, rest))
}

fn waiting(alloc: Global, bytes: &[u8]) -> Result<(StoreRow, &[u8]), RowRead>
    ensures { GivesIfMemory (λ x. (x.0, x.1.now)) result (waiting_at bytes.now) }
{
    let (ms, rest) = n8(bytes)?;
    let (serial, rest) = n4(rest)?;
    let (closed, rest) = flag(rest)?;
    let (lines, rest) = lines(alloc, rest)?;
    let row = StoreRow::Waiting {
        ms,
        serial,
        closed,
        lines,
    };
    Ok((row, rest))
}

fn kept_row(bytes: &[u8]) -> Result<(StoreRow, &[u8]), NoSpelling>
    ensures { Gives (λ x. (x.0, x.1.now)) result (kept_row_at bytes.now) }
{
    let (row, rest) = kept(bytes)?;
    Ok((StoreRow::Kept(row), rest))
}

fn extend_row(bytes: &[u8]) -> Result<(StoreRow, &[u8]), NoSpelling>
    ensures { Gives (λ x. (x.0, x.1.now)) result (extend_row_at bytes.now) }
{
    let (row, rest) = extend(bytes)?;
    Ok((StoreRow::Extend(row), rest))
}

fn state_row(alloc: Global, bytes: &[u8]) -> Result<(StoreRow, &[u8]), RowRead>
    ensures { GivesIfMemory (λ x. (x.0, x.1.now)) result (state_row_at bytes.now) }
{
    let (state, rest) = state(alloc, bytes)?;
    Ok((StoreRow::State(state), rest))
}
