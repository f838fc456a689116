//! The order of the rows in a batch.
ghost use Rattle.std.specs.Prelude.{◌↔◌, ◌≡◌, IsTrue};
ghost use Rattle.store_check.specs.Order.{tag, IsBefore, MayFollow, AreOrdered, EndInState};

use flow_base::FileId;
use row_codec::StoreRow;

/// The tag of a row.
fn tag_of(row: &StoreRow) -> u8
    ensures { result ≡ tag row.now }
{
    match row {
        StoreRow::Entity { .. } => 1,
        StoreRow::Kept(_) => 2,
        StoreRow::Extend(_) => 3,
        StoreRow::Name { .. } => 4,
        StoreRow::Life { .. } => 5,
        StoreRow::Held { .. } => 6,
        StoreRow::Address { .. } => 7,
        StoreRow::Born { .. } => 8,
        StoreRow::Waiting { .. } => 9,
        StoreRow::State(_) => 10,
    }
}

/// Whether a row may follow another one.
fn may_follow(previous: &StoreRow, row: &StoreRow) -> bool
    ensures { IsTrue result ↔ MayFollow previous.now row.now }
{
    match (previous, row) {
        (StoreRow::Extend(a), StoreRow::Extend(b)) => a.row < b.row,
        (StoreRow::Life { pid: a, .. }, StoreRow::Life { pid: b, .. }) => a < b,
        (StoreRow::Held { pid: p, fd: f, .. }, StoreRow::Held { pid: q, fd: g, .. }) => {
            p < q || (p == q && f < g)
        }
        (StoreRow::Address { act: a, .. }, StoreRow::Address { act: b, .. }) => a < b,
        (StoreRow::Born { file: f, .. }, StoreRow::Born { file: g, .. }) => is_before(f, g),
        (
            StoreRow::Waiting {
                ms: m,
                serial: s,
                ..
            },
            StoreRow::Waiting {
                ms: n,
                serial: t,
                ..
            },
        ) => m < n || (m == n && s < t),
        (StoreRow::State(_), StoreRow::State(_)) => false,
        _ => tag_of(previous) <= tag_of(row),
    }
}

/// Whether a file number comes before another one, by device and then by inode.
fn is_before(f: &FileId, g: &FileId) -> bool
    ensures { IsTrue result ↔ IsBefore f.now g.now }
{
    let (a, b) = (f.device, g.device);
    a.major < b.major
        || (a.major == b.major && (a.minor < b.minor || (a.minor == b.minor && f.ino < g.ino)))
}

/// Whether each row may follow the one before it.
pub fn are_ordered(rows: &[StoreRow]) -> bool
    ensures { IsTrue result ↔ AreOrdered rows.now }
{
    for i in 1..rows.len() {
        if !may_follow(&rows[i - 1], &rows[i]) {
            return false;
        }
    }
    true
}

/// Whether the last row is a State.
pub fn end_in_state(rows: &[StoreRow]) -> bool
    ensures { IsTrue result ↔ EndInState rows.now }
{
    match rows.last() {
        Some(row) => tag_of(row) == 10,
        None => false,
    }
}
