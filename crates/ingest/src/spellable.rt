//! Whether rows of a commit can be spelled.
//!
//! A text of 2^32 bytes or more has no spelling. The rows of an engine have one unless a text or a list is that long.
ghost use Rattle.std.specs.Prelude.{◌≡◌, ◌↔◌, ◌<◌, ◌^◌, length, IsTrue};
ghost use Rattle.std.specs.List.{All, AllByRecursion};
ghost use Rattle.row_codec.specs.Rows.{CanBeHeld, CanBeSpelled, CanBeState, IsShortKey};
ghost use Rattle.row_codec.specs.Fields.{FitsLink};
ghost use Rattle.row_codec.specs.Keys.{IsFileKey};
ghost use Rattle.row_codec.specs.State.{IsTail, IsUnset};
ghost use Rattle.row_codec.specs.Tables.{FitsText};

use acts::Object;
use flow_base::{Bytes, Key};
use row_codec::{StateRow, StoreRow};

/// Whether all of these rows can be spelled.
pub fn can_be_spelled(rows: &[StoreRow]) -> bool
    ensures { IsTrue result ↔ All CanBeSpelled rows.now }
{
    for row in rows {
        if !has_spelling(row) {
            return false;
        }
    }
    true
}

/// Whether all rows of both lists can be spelled.
pub fn are_spelled(rows: &[StoreRow], others: &[StoreRow]) -> bool
    ensures { IsTrue result ↔ (All CanBeSpelled rows.now × All CanBeSpelled others.now) }
{
    can_be_spelled(rows) && can_be_spelled(others)
}

// Whether a row can be spelled.
fn has_spelling(row: &StoreRow) -> bool
    ensures { IsTrue result ↔ CanBeSpelled row.now }
{
    match row {
        StoreRow::Entity { key } => is_short_key(key),
        StoreRow::Kept(kept) => is_link(kept.before_to) && is_link(kept.before_from),
        StoreRow::Extend(_) => true,
        StoreRow::Name { key, text } => is_short_key(key) && is_short(text),
        StoreRow::Life { .. } => true,
        StoreRow::Held { held, .. } => match held {
            Some(held) => can_be_held(&held.object),
            None => true,
        },
        StoreRow::Address { bytes, .. } => is_short(bytes),
        StoreRow::Born { .. } => true,
        StoreRow::Waiting { lines, .. } => {
            lines.as_slice().len() < 1 << 32 && are_short(lines.as_slice())
        }
        StoreRow::State(state) => can_be_state(state),
    }
}

fn is_short(text: &Bytes) -> bool
    ensures { IsTrue result ↔ FitsText text.now }
{
    text.as_slice().len() < 1 << 32
}

fn are_short(texts: &[Bytes]) -> bool
    ensures { IsTrue result ↔ AllByRecursion FitsText texts.now }
{
    texts.iter().all(|text| text.as_slice().len() < 1 << 32)
}

fn is_link(link: Option<u64>) -> bool
    ensures { IsTrue result ↔ FitsLink link }
{
    match link {
        Some(row) => row < u64::MAX,
        None => true,
    }
}

fn is_short_key(key: &Key) -> bool
    ensures { IsTrue result ↔ IsShortKey key.now }
{
    match key {
        Key::Path { path } => is_short(path),
        Key::Address { bytes } => is_short(bytes),
        _ => true,
    }
}

fn is_file_key(key: &Key) -> bool
    ensures { IsTrue result ↔ IsFileKey key.now }
{
    match key {
        Key::Inode { .. } | Key::Path { .. } | Key::Lost { .. } => true,
        Key::Process { .. } | Key::Address { .. } | Key::Made { .. } => false,
    }
}

fn can_be_held(object: &Object) -> bool
    ensures { IsTrue result ↔ CanBeHeld object.now }
{
    match object {
        Object::File(key) => is_short_key(key) && is_file_key(key),
        _ => true,
    }
}

fn is_unset(flag: bool, number: u64) -> bool
    ensures { IsTrue result ↔ IsUnset flag number }
{
    flag || number == 0
}

fn is_tail(long: bool, tail: &Bytes) -> bool
    ensures { IsTrue result ↔ IsTail long tail.now }
{
    !long || tail.as_slice().is_empty()
}

fn can_be_state(state: &StateRow) -> bool
    ensures { IsTrue result ↔ CanBeState state.now }
{
    is_unset(state.seen, state.greatest)
        && is_unset(state.released, state.released_ms)
        && is_unset(state.released, u64::from(state.released_serial))
        && is_tail(state.long, &state.tail)
        && is_short(&state.tail)
        && state.bad.as_slice().len() < 1 << 32
}
