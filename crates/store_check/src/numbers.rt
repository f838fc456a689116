//! The numbers that rows name, and the counts of a State.
ghost use Rattle.std.specs.Prelude.{◌↔◌, ◌≡◌, ◌+◌, ◌≤◌, IsTrue};
ghost use Rattle.store_check.specs.Store.{place_in, time_in, act_in, act_in_key, act_in_object};
ghost use Rattle.store_check.specs.Store.{number_in, greater};
ghost use Rattle.store_check.specs.Conditions.{HasCounts, begun};
ghost use Rattle.store_check.specs.Tables.{IsBelow, IsWithin};

use acts::Object;
use flow_base::{Bytes, Key};
use row_codec::{StateRow, StoreRow};

/// The place of a row's mark, if it has one.
pub fn place_of(row: &StoreRow) -> Option<u64>
    ensures { result ≡ place_in row.now }
{
    match row {
        StoreRow::Kept(row) => Some(row.mark.at.place),
        StoreRow::Extend(row) => Some(row.mark.at.place),
        _ => None,
    }
}

/// The time of a row's mark in milliseconds, if it has one.
pub fn time_of(row: &StoreRow) -> Option<u64>
    ensures { result ≡ time_in row.now }
{
    match row {
        StoreRow::Kept(row) => Some(row.mark.at.ms),
        StoreRow::Extend(row) => Some(row.mark.at.ms),
        _ => None,
    }
}

/// The act that a row names, if it names one.
pub fn act_of(row: &StoreRow) -> Option<u64>
    ensures { result ≡ act_in row.now }
{
    match row {
        StoreRow::Entity { key } => act_of_key(key),
        StoreRow::Name { key, .. } => act_of_key(key),
        StoreRow::Held {
            held: Some(held),
            ..
        } => act_of_object(&held.object),
        StoreRow::Address { act, .. } => Some(*act),
        _ => None,
    }
}

fn act_of_key(key: &Key) -> Option<u64>
    ensures { result ≡ act_in_key key.now }
{
    match key {
        Key::Made { act } => Some(*act),
        _ => None,
    }
}

fn act_of_object(object: &Object) -> Option<u64>
    ensures { result ≡ act_in_object object.now }
{
    match object {
        Object::File(_) => None,
        Object::Pipe(act) => Some(*act),
        Object::Sock(act) => Some(*act),
    }
}

/// The number of a row's life or birth, if it has one.
pub fn number_of(row: &StoreRow) -> Option<u64>
    ensures { result ≡ number_in row.now }
{
    match row {
        StoreRow::Life { life, .. } => Some(life.life),
        StoreRow::Born { born, .. } => Some(*born),
        _ => None,
    }
}

/// The greater of two numbers, either of which may be missing.
pub fn greater_of(old: Option<u64>, new: Option<u64>) -> Option<u64>
    ensures { result ≡ greater old new }
{
    match (old, new) {
        (Some(old), Some(new)) => Some(old.max(new)),
        (None, Some(new)) => Some(new),
        (old, None) => old,
    }
}

/// Whether a number is below a bound; one that is missing is.
pub fn is_below(number: Option<u64>, bound: u64) -> bool
    ensures { IsTrue result ↔ IsBelow number bound }
{
    match number {
        None => true,
        Some(number) => number < bound,
    }
}

/// Whether a number isn't above a bound; one that is missing isn't.
pub fn is_within(number: Option<u64>, bound: u64) -> bool
    ensures { IsTrue result ↔ IsWithin number bound }
{
    match number {
        None => true,
        Some(number) => number <= bound,
    }
}

/// Whether the counts of a State are within their bounds and go with each other.
pub fn has_counts(state: &StateRow) -> bool
    ensures { IsTrue result ↔ HasCounts state.now }
{
    let most = 1 << 60;
    // Past 2^60 (acts past 2^62) later sums could overflow.
    if state.taken > most || state.part > most || state.excess > most || state.events > most {
        return false;
    }
    if state.late > most || state.unmapped > most || state.flows > most || state.acts > 1 << 62 {
        return false;
    }
    if state.greatest > most || state.released_ms > most || state.effective > most {
        return false;
    }
    let classes = classes_of(state.used, state.other, state.blank, state.malformed);
    u128::from(state.lines) == classes
        && took_bytes(state.lines, begun_of(state.long, &state.tail), state.taken)
}

fn classes_of(used: u64, other: u64, blank: u64, malformed: u64) -> u128
    ensures { result ≡ used + other + blank + malformed }
{
    u128::from(used) + u128::from(other) + u128::from(blank) + u128::from(malformed)
}

/// 1 if a line has begun that hasn't ended.
fn begun_of(long: bool, tail: &Bytes) -> u8
    ensures { result ≡ begun long tail.now }
{
    if long || !tail.as_slice().is_empty() {
        1
    } else {
        0
    }
}

fn took_bytes(lines: u64, more: u8, taken: u64) -> bool
    ensures { IsTrue result ↔ (lines + more ≤ taken) }
{
    u128::from(lines) + u128::from(more) <= u128::from(taken)
}
