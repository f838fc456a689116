//! The ends, the place and the time of a Kept row against the tables.
ghost use Rattle.std.specs.Prelude.{◌↔◌, ◌≡◌, ◌<◌, ◌+◌, ◌^◌, IsTrue, max, suc};
ghost use Rattle.store_check.specs.Conditions.{IsLater, HasEnds};
ghost use Rattle.store_check.specs.Tables.{IsAfterTop};

use flow_base::Stamp;
use row_codec::KeptRow;

/// Whether a stamp has a greater place and no smaller time.
pub fn is_later(before: Stamp, now: Stamp) -> bool
    ensures { IsTrue result ↔ IsLater before now }
{
    before.place < now.place && before.ms <= now.ms
}

/// Whether a stamp is later than the last Kept row, if there is one.
pub fn is_after_top(top: Option<Stamp>, at: Stamp) -> bool
    ensures { IsTrue result ↔ IsAfterTop top at }
{
    match top {
        None => true,
        Some(top) => is_later(top, at),
    }
}

/// Whether the ends of a Kept row differ, are objects, and number new objects one after the other,
/// the source first.
pub fn has_ends(objects: usize, seen: u32, row: &KeptRow) -> bool
    ensures { IsTrue result ↔ HasEnds objects seen row.now }
{
    let (from, to) = (row.from.0, row.to.0);
    let next = u64::from(from) + 1;
    from != to
        && (from as usize) < objects
        && (to as usize) < objects
        && from <= seen
        && u64::from(to) <= next.max(u64::from(seen))
}

/// How many objects the Kept rows name with one row more.
pub fn seen_with(seen: u32, row: &KeptRow) -> u32
    requires from { row.now.from.0 + 1 < 2 ^ 32 }
    requires to { row.now.to.0 + 1 < 2 ^ 32 }
    ensures { result ≡ max seen (max (suc row.now.from.0) (suc row.now.to.0)) }
{
    seen.max(row.from.0 + 1).max(row.to.0 + 1)
}
