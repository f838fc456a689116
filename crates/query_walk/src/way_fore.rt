//! The walk forward, which reads the rows out of each object that it reaches by their links.
//!
//! An object is reached at the place of a last flow into it. Then its rows are read, and their targets wait by the places
//! of their last flows, if these come after it and the targets weren't reached yet. The object that waits at the least
//! place is taken next.
ghost use Rattle.std.specs.Prelude.{◌≡◌, ◌↔◌, ℕ, ◌<◌, ◌≤◌, length, IfOk, IfSome, IsTrue, OnOk};
ghost use Rattle.reach_model.specs.Flows.{place};
ghost use Rattle.reach_model.specs.Marks.{IsMarked};
ghost use Rattle.reach_model.specs.Numbers.{known as known_of};
ghost use Rattle.reach_model.specs.Paths.{IsSince};
ghost use Rattle.reach_model.specs.Rows.{firsts};
ghost use Rattle.reach_rows.specs.Kept.{AreRows, row_of_kept};
ghost use Rattle.query_walk.specs.Arrivals.{AddsLed, AddsOver, AreAtBelow, IsDue, place_after};
ghost use Rattle.query_walk.specs.Fault.{IsWalkOver};
ghost use Rattle.query_walk.specs.Links.{CountsFrom, CountsFromMarked};
ghost use Rattle.query_walk.specs.Walks.{SameRows};
ghost use Rattle.query_walk.specs.WayFore.{IsForeOver, ReachesAt, ReachesIfNew};

use crate::arrivals::{Arrivals, is_after};
use crate::fault::WalkFault;
use crate::links::link_below;
use crate::marks::Marks;
use flow_base::{EntityId, NoMemory};
use reach_rows::{Row, Rows, Steps};
use std::alloc::Global;
use std::sync::ledger::Ledger;

/// What a walk forward has found: the objects that are reached, and the arrivals that wait.
#[derive(Drop)]
pub struct WayFore {
    pub marks: Marks,
    pub waiting: Arrivals,
}

/// What `of` reaches by last flows no earlier than `since`.
pub fn walk_fore<W: Rows, L: Ledger>(
    alloc: Global,
    rows: &mut W,
    of: EntityId,
    since: Option<u64>,
    steps: &mut Steps<L>,
) -> Result<WayFore, WalkFault>
    requires known { of.0 < W.known rows.old }
    ensures len { IfOk result (λ fore. length fore.marks ≡ W.known rows.old) }
    ensures itself { IfOk result (λ fore. IsMarked fore.marks of.0) }
    ensures exact { IfOk result (λ fore.
        IsForeOver (W.rows rows.old) (W.known rows.old) of.0 since fore.marks) }
    ensures steps { IfOk result (λ fore.
        CountsFromMarked (W.rows rows.old) fore.marks steps.old steps.new) }
    ensures lawful { IfOk result (λ _. IfSome (W.rows rows.old) AreRows) }
    ensures told { IfSome (W.rows rows.old) (λ R. known_of (firsts R) ≡ W.known rows.old) }
    ensures same { SameRows W.rows W.count W.known rows.old rows.new }
    ensures cause { IsWalkOver W.rows W.faults W.spent rows.old rows.new result }
    ensures alike { W.alike rows.old rows.new }
{
    let mut fore = begin_fore(alloc, rows, of, since, steps)?;
    let mut after = None;
    while let Some(next) = fore.waiting.next(after) {
        after = Some(next.0);
        arrive(&mut fore, rows, next, since, steps)?;
    }
    Ok(fore)
}

/// The object alone, and the arrivals of all its flows into others.
fn begin_fore<W: Rows, L: Ledger>(
    alloc: Global,
    rows: &mut W,
    of: EntityId,
    since: Option<u64>,
    steps: &mut Steps<L>,
) -> Result<WayFore, WalkFault>
    requires known { of.0 < W.known rows.old }
    ensures len { IfOk result (λ fore. length fore.marks ≡ W.known rows.old) }
    ensures marks { IfOk result (λ fore. (v : ℕ) → IsMarked fore.marks v ↔ (v ≡ of.0)) }
    ensures below { IfOk result (λ fore. AreAtBelow (W.known rows.old) (IsDue fore.waiting)) }
    ensures waits { IfOk result (λ fore.
        AddsOver (W.rows rows.old) fore.marks (λ _. ⊥) of.0 0 since (IsDue fore.waiting)) }
    ensures steps { IfOk result (λ _. CountsFrom (W.rows rows.old) of.0 steps.old steps.new) }
    ensures lawful { IfOk result (λ _. IfSome (W.rows rows.old) AreRows) }
    ensures told { IfSome (W.rows rows.old) (λ R. known_of (firsts R) ≡ W.known rows.old) }
    ensures same { SameRows W.rows W.count W.known rows.old rows.new }
    ensures cause { IsWalkOver W.rows W.faults W.spent rows.old rows.new result }
    ensures alike { W.alike rows.old rows.new }
{
    let marks = Marks::only(alloc, of, rows.known())?;
    let mut waiting = Arrivals::new(alloc, rows.count())?;
    leave(&mut waiting, &marks, rows, of, None, since, steps)?;
    Ok(WayFore { marks, waiting })
}

/// An object is entered at a place. If it wasn't reached before, it is now.
fn arrive<W: Rows, L: Ledger>(
    fore: &mut WayFore,
    rows: &mut W,
    at: (u64, u32),
    since: Option<u64>,
    steps: &mut Steps<L>,
) -> Result<(), WalkFault>
    requires known { at.1 < W.known rows.old }
    requires len { length fore.old.marks ≡ W.known rows.old }
    ensures len { length fore.new.marks ≡ length fore.old.marks }
    ensures marks { (u : ℕ) → IsMarked fore.old.marks u → IsMarked fore.new.marks u }
    ensures below { IfOk result (λ _. AreAtBelow (W.known rows.old) (IsDue fore.old.waiting)
        → AreAtBelow (W.known rows.old) (IsDue fore.new.waiting)) }
    ensures again { IsMarked fore.old.marks at.1
        → (fore.new ≡ fore.old) × (steps.new ≡ steps.old) }
    ensures first { IfOk result (λ _.
        ReachesIfNew (W.rows rows.old) at.0 at.1 since fore.old steps.old fore.new steps.new) }
    ensures same { SameRows W.rows W.count W.known rows.old rows.new }
    ensures cause { IsWalkOver W.rows W.faults W.spent rows.old rows.new result }
    ensures alike { W.alike rows.old rows.new }
{
    if fore.marks.has(EntityId(at.1)) {
        return Ok(());
    }
    reach(fore, rows, at, since, steps)
}

/// Marks an object that is reached at a place, and lets the arrivals of its later flows wait.
fn reach<W: Rows, L: Ledger>(
    fore: &mut WayFore,
    rows: &mut W,
    at: (u64, u32),
    since: Option<u64>,
    steps: &mut Steps<L>,
) -> Result<(), WalkFault>
    requires known { at.1 < W.known rows.old }
    requires len { length fore.old.marks ≡ W.known rows.old }
    ensures len { length fore.new.marks ≡ length fore.old.marks }
    ensures marks { (u : ℕ) → IsMarked fore.old.marks u → IsMarked fore.new.marks u }
    ensures below { IfOk result (λ _. AreAtBelow (W.known rows.old) (IsDue fore.old.waiting)
        → AreAtBelow (W.known rows.old) (IsDue fore.new.waiting)) }
    ensures reached { IfOk result (λ _.
        ReachesAt (W.rows rows.old) at.0 at.1 since fore.old steps.old fore.new steps.new) }
    ensures same { SameRows W.rows W.count W.known rows.old rows.new }
    ensures cause { IsWalkOver W.rows W.faults W.spent rows.old rows.new result }
    ensures alike { W.alike rows.old rows.new }
{
    fore.marks.set(EntityId(at.1));
    leave(
        &mut fore.waiting,
        &fore.marks,
        rows,
        EntityId(at.1),
        Some(at.0),
        since,
        steps,
    )?;
    Ok(())
}

/// Reads the rows that leave an object. If their last flows come after a place and are no earlier than `since`, their
/// targets wait, unless they are marked.
fn leave<W: Rows, L: Ledger>(
    waiting: &mut Arrivals,
    marks: &Marks,
    rows: &mut W,
    of: EntityId,
    after: Option<u64>,
    since: Option<u64>,
    steps: &mut Steps<L>,
) -> Result<(), WalkFault>
    requires known { of.0 < W.known rows.old }
    requires len { length marks.now ≡ W.known rows.old }
    ensures below { IfOk result (λ _. AreAtBelow (W.known rows.old) (IsDue waiting.old)
        → AreAtBelow (W.known rows.old) (IsDue waiting.new)) }
    ensures exact { IfOk result (λ _. AddsOver (W.rows rows.old) marks.now (IsDue waiting.old) of.0
        (place_after after) since (IsDue waiting.new)) }
    ensures steps { IfOk result (λ _. CountsFrom (W.rows rows.old) of.0 steps.old steps.new) }
    ensures lawful { IfSome (W.rows rows.old) AreRows }
    ensures same { SameRows W.rows W.count W.known rows.old rows.new }
    ensures cause { IsWalkOver W.rows W.faults W.spent rows.old rows.new result }
    ensures alike { W.alike rows.old rows.new }
{
    let mut link = link_below(rows.last_from(of), rows.count());
    while let Some(index) = link {
        let row = rows.row(index, steps)?;
        wait(waiting, marks, &row, after, since)?;
        link = link_below(row.before_from, index);
    }
    Ok(())
}

/// Lets the target of a row wait, if it isn't marked and the row's last flow comes after a place and is no earlier than
/// `since`.
fn wait(
    waiting: &mut Arrivals,
    marks: &Marks,
    row: &Row,
    after: Option<u64>,
    since: Option<u64>,
) -> Result<(), NoMemory>
    requires { row.now.to.0 < length marks.now }
    ensures { OnOk result (AddsLed marks.now (IsDue waiting.old) row.now.from.0 (place_after after)
        since (row_of_kept row.now).last (IsDue waiting.new)) }
{
    if !marks.has(row.to) && is_wanted(row, after, since) {
        waiting.put(row.last.at.place, row.to.0)?;
    }
    Ok(())
}

/// Whether the last flow of a row comes after a place and is no earlier than a time.
fn is_wanted(row: &Row, after: Option<u64>, since: Option<u64>) -> bool
    ensures { IsTrue result ↔ ((place_after after ≤ place (row_of_kept row.now).last)
        × IsSince since (row_of_kept row.now).last) }
{
    is_after(row.last.at.place, after) && is_since(row, since)
}

/// Whether the last flow of a row is no earlier than a time.
fn is_since(row: &Row, since: Option<u64>) -> bool
    ensures { IsTrue result ↔ IsSince since (row_of_kept row.now).last }
{
    match since {
        None => true,
        Some(time) => time <= row.last.at.ms,
    }
}
