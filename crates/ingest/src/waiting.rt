//! A joiner made again from the Waiting rows of a store.
//!
//! Each line of a group is read and taken again, and an end after the lines of a group that was closed. Nothing is released
//! meanwhile, so the groups must be such as a joiner keeps: what would be released, dropped or never held is no group of a
//! store that an engine wrote.
ghost use Rattle.std.specs.Prelude.{◌≡◌, ◌≢◌, ◌↔◌, ◌∷◌, [], ℕ, List, Some, None, true, false};
ghost use Rattle.std.specs.Prelude.{IfOk, OnOk, IsTrue, MatchOption, length, ⊤};
ghost use Rattle.flow_base.specs.declared.limits.Limits.{Limits};
ghost use Rattle.record_join.specs.Events.{Joining, seen_time, waits};
ghost use Rattle.record_join.specs.StandsFor.{NothingRipe, StandsFor};
ghost use Rattle.stored.specs.Reading.{clock_of};
ghost use Rattle.stored.specs.Words.{groups_of, group_in};
ghost use Rattle.ingest.specs.LineRecords.{record_of};
ghost use Rattle.ingest.specs.Waiting.{AreSoundWaiting, AscendByKey, StandsForClosed, waiting_by};
ghost use Rattle.ingest.specs.Waiting.{Closes, IsLineOf, PutRecords, PutLines, PutGroups};

use audit_lex::{EventKey, Lexed, lex};
use audit_record::{Body, Record, read_record};
use flow_base::{Bytes, Limits, NoMemory};
use record_join::{Join, JoinClock, Taken, a_joiner_is_made_again, states_are_sound};
use row_codec::{StateRow, StoreRow};
use std::alloc::Global;
use stored::tables_are_restored;

/// The joiner of what waits by the rows that close a batch, or `None` if they aren't sound.
pub fn restore_join(
    alloc: Global,
    limits: &Limits,
    state: &StateRow,
    rows: &[StoreRow],
) -> Result<Option<Join>, NoMemory>
    requires ascend { AscendByKey rows.now }
    ensures exact { IfOk result (λ found. MatchOption found
        (¬ AreSoundWaiting limits.now state.now rows.now)
        (λ join. AreSoundWaiting limits.now state.now rows.now)) }
    ensures stands { IfOk result (λ found. MatchOption found ⊤
        (λ join. StandsFor limits.now join (waiting_by limits.now state.now rows.now))) }
    ensures quiet { IfOk result (λ found. MatchOption found ⊤ (λ join. NothingRipe join)) }
    ensures history { IfOk result (λ found. MatchOption found ⊤
        (λ join. StandsForClosed limits.now state.now rows.now join)) }
{
    a_joiner_is_made_again();
    states_are_sound();
    tables_are_restored();
    let mut again = Join::resume(alloc, limits, clock_in(state));
    if !put_rows(alloc, limits, &mut again, rows)? {
        return Ok(None);
    }
    if again.ripe() {
        return Ok(None);
    }
    Ok(Some(again))
}

// How far joining had come by a State.
fn clock_in(state: &StateRow) -> JoinClock
    ensures { result ≡ clock_of state.now }
{
    let seen = if state.seen {
        Some(state.greatest)
    } else {
        None
    };
    let released = if state.released {
        Some(EventKey {
            ms: state.released_ms,
            serial: state.released_serial,
        })
    } else {
        None
    };
    JoinClock {
        seen,
        released,
        effective: state.effective,
    }
}

// Takes the groups of rows in again, or says that they aren't sound.
fn put_rows(
    alloc: Global,
    limits: &Limits,
    join: &mut Join,
    rows: &[StoreRow],
) -> Result<bool, NoMemory>
    ensures { IfOk result (λ put. PutGroups put limits.now (groups_of rows.now) join.old join.new) }
{
    for row in rows {
        if !put_row(alloc, limits, join, row)? {
            return Ok(false);
        }
    }
    Ok(true)
}

// The same of the group of a row, if it is a Waiting row.
fn put_row(
    alloc: Global,
    limits: &Limits,
    join: &mut Join,
    row: &StoreRow,
) -> Result<bool, NoMemory>
    ensures { IfOk result (λ put. PutGroups put limits.now (group_in row.now) join.old join.new) }
{
    match row {
        StoreRow::Waiting {
            ms,
            serial,
            closed,
            lines,
        } => {
            let key = EventKey {
                ms: *ms,
                serial: *serial,
            };
            put_group(alloc, limits, join, key, *closed, lines.as_slice())
        }
        _ => Ok(true),
    }
}

// Takes the lines of a group in again, and an end after those of a closed one.
fn put_group(
    alloc: Global,
    limits: &Limits,
    join: &mut Join,
    key: EventKey,
    closed: bool,
    lines: &[Bytes],
) -> Result<bool, NoMemory>
    ensures { IfOk result (λ put. PutGroups put limits.now
        ((key, record { closed = closed; lines = lines.now }) ∷ []) join.old join.new) }
{
    if lines.is_empty() {
        return Ok(false);
    }
    if !put_lines(alloc, limits, join, key, lines)? {
        return Ok(false);
    }
    if closed {
        return Ok(close_again(alloc, join, key)?);
    }
    Ok(true)
}

// Closes a group that waits, or says that an event is ripe before.
fn close_again(alloc: Global, join: &mut Join, key: EventKey) -> Result<bool, NoMemory>
    ensures { IfOk result (λ put. (limits : Limits) (s : Joining)
        → waits key s.waiting ≡ true → Closes put limits key s join.old join.new) }
{
    if join.ripe() {
        return Ok(false);
    }
    let end = Record {
        key,
        line: Bytes::new(alloc),
        body: Body::Eoe,
    };
    join.take(end)?;
    Ok(true)
}

// Takes the records of lines of a key in again.
fn put_lines(
    alloc: Global,
    limits: &Limits,
    join: &mut Join,
    key: EventKey,
    lines: &[Bytes],
) -> Result<bool, NoMemory>
    ensures { IfOk result (λ put. PutLines put limits.now key lines.now join.old join.new) }
{
    for line in lines {
        if !put_line(alloc, limits, join, key, line.as_slice())? {
            return Ok(false);
        }
    }
    Ok(true)
}

// The same of one line.
fn put_line(
    alloc: Global,
    limits: &Limits,
    join: &mut Join,
    key: EventKey,
    line: &[u8],
) -> Result<bool, NoMemory>
    ensures { IfOk result (λ put. PutLines put limits.now key (line.now ∷ []) join.old join.new) }
{
    let Some(item) = read_again(alloc, limits, key, line)? else {
        return Ok(false);
    };
    Ok(put_record(join, item)?)
}

// The record of a line, if it is a used one of this key.
fn read_again(
    alloc: Global,
    limits: &Limits,
    key: EventKey,
    line: &[u8],
) -> Result<Option<Record>, NoMemory>
    ensures own { IfOk result (λ found. MatchOption found
        (¬ IsLineOf limits.now.line key line.now)
        (λ item. IsLineOf limits.now.line key line.now)) }
    ensures spelled { IfOk result (λ found. MatchOption found ⊤
        (λ item. record_of limits.now.line line.now ≡ Some item)) }
{
    let Lexed::Used(used) = lex(line, limits.line) else {
        return Ok(None);
    };
    if used.key != key {
        return Ok(None);
    }
    let item = read_record(alloc, &used)?;
    Ok(Some(item))
}

// Takes a record in again, or says that a joiner wouldn't hold it or would release an event before.
fn put_record(join: &mut Join, item: Record) -> Result<bool, NoMemory>
    ensures { IfOk result (λ put. (limits : Limits)
        → PutRecords put limits (item ∷ []) join.old join.new) }
{
    if join.ripe() {
        return Ok(false);
    }
    if !is_seen(join.clock(), item.key.ms) {
        return Ok(false);
    }
    match join.take(item)? {
        Taken::Held => Ok(true),
        Taken::Closed | Taken::Excess => Ok(false),
    }
}

// Whether this time, or a later one, was seen.
fn is_seen(clock: JoinClock, ms: u64) -> bool
    ensures { IsTrue result ↔ (seen_time clock.seen ms ≡ clock.seen) }
{
    match clock.seen {
        Some(seen) => ms <= seen,
        None => false,
    }
}
