//! All that is ripe at once, and a whole list of records.
ghost use Rattle.std.specs.Prelude.{◌≡◌, [], ◌∷◌, ◌++◌, map, OnOk, IfOk};
ghost use Rattle.record_join.specs.StandsFor.{NothingRipe, StandsFor, WhereStands};
ghost use Rattle.record_join.specs.History.{Came, Settle, start, events, released_after, left_after};

use crate::event::Event;
use crate::join::Join;
use audit_record::Record;
use flow_base::{Limits, List, NoMemory};
use std::alloc::Global;

/// Appends the events that are ripe to those found. If allocation fails, the event that was released last is lost,
/// so what was taken has to be taken again by another joiner.
pub fn release_ripe(join: &mut Join, found: &mut List<Event>) -> Result<(), NoMemory>
    ensures stands { OnOk result (WhereStands join.old
        (λ limits s. StandsFor limits join.new (left_after limits s))) }
    ensures found { OnOk result (WhereStands join.old
        (λ limits s. found.new ≡ found.old ++ released_after limits s)) }
    ensures nothing { OnOk result (NothingRipe join.new) }
{
    while let Some(event) = join.next() {
        found.push(event)?;
    }
    Ok(())
}

/// The events of a whole list of records that is settled at its end.
pub fn join_all(alloc: Global, limits: &Limits, items: Vec<Record>) -> Result<List<Event>, NoMemory>
    ensures { IfOk result (λ found. found ≡ events limits.now start
        (map Came items.items ++ Settle ∷ [])) }
{
    let mut join = Join::new(alloc, limits);
    let mut found = List::new(alloc);
    for item in items {
        join.take(item)?;
        release_ripe(&mut join, &mut found)?;
    }
    join.settle();
    release_ripe(&mut join, &mut found)?;
    Ok(found)
}
