//! The walk backward, which follows the links from row to earlier row with the same target.
//!
//! Rows are taken in descending order. When a row is taken, the row that it links to waits, and if its source is found by
//! it, so does the last earlier row into that source. So of each object that was found exactly one row waits, until there
//! are none left, and each row into such an object is read once: later rows when it is found, earlier ones when they are
//! taken.
ghost use Rattle.std.specs.Prelude.{◌≡◌, ◌↔◌, ◌+◌, ℕ, ◌<◌, [], length, IfOk, IfSome, IsTrue};
ghost use Rattle.reach_model.specs.Marks.{IsMarked};
ghost use Rattle.reach_model.specs.Numbers.{known as known_of};
ghost use Rattle.reach_model.specs.Paths.{IsUntil};
ghost use Rattle.reach_model.specs.Rows.{firsts};
ghost use Rattle.reach_rows.specs.Kept.{AreRows, row_of_kept};
ghost use Rattle.query_walk.specs.Fault.{IsWalkOver};
ghost use Rattle.query_walk.specs.Links.{CountsIntoMarked};
ghost use Rattle.query_walk.specs.Walks.{SameRows};
ghost use Rattle.query_walk.specs.WayBack.{CountsBack, Finds, FindsAt, FindsIfNew, IsBackOver, LastWaits, StepsBack};

use crate::candidates::Candidates;
use crate::fault::WalkFault;
use crate::links::{last_into_before, link_below};
use crate::marks::Marks;
use flow_base::{EntityId, Flow, NoMemory};
use reach_rows::{Row, Rows, Steps};
use std::alloc::Global;
use std::sync::ledger::Ledger;

/// What a walk backward has found: the objects that reach the end, the rows that wait to be read, and for each object
/// except the end the flow by which it was found, in the order in which they were found.
#[derive(Drop)]
pub struct WayBack {
    pub marks: Marks,
    pub waiting: Candidates,
    pub hops: Vec<Flow>,
}

/// What reaches `of` by first flows no later than `until`.
pub fn walk_back<W: Rows, L: Ledger>(
    alloc: Global,
    rows: &mut W,
    of: EntityId,
    until: Option<u64>,
    steps: &mut Steps<L>,
) -> Result<WayBack, WalkFault>
    requires known { of.0 < W.known rows.old }
    ensures len { IfOk result (λ back. length back.marks ≡ W.known rows.old) }
    ensures itself { IfOk result (λ back. IsMarked back.marks of.0) }
    ensures exact { IfOk result (IsBackOver (W.rows rows.old) (W.known rows.old) of.0 until) }
    ensures steps { IfOk result (λ back.
        CountsIntoMarked (W.rows rows.old) back.marks steps.old steps.new) }
    ensures told { IfSome (W.rows rows.old) (λ R. known_of (firsts R) ≡ W.known rows.old) }
    ensures same { SameRows W.rows W.count W.known rows.old rows.new }
    ensures cause { IsWalkOver W.rows W.faults W.spent rows.old rows.new result }
    ensures alike { W.alike rows.old rows.new }
{
    let mut back = begin_back(alloc, rows, of)?;
    let mut below = rows.count();
    while let Some(index) = back.waiting.next(below) {
        below = index;
        take_row(&mut back, rows, index, until, steps)?;
    }
    Ok(back)
}

/// The object alone, of which the last row waits.
fn begin_back<W: Rows>(alloc: Global, rows: &W, of: EntityId) -> Result<WayBack, NoMemory>
    requires known { of.0 < W.known rows.now }
    ensures len { IfOk result (λ back. length back.marks ≡ W.known rows.now) }
    ensures marks { IfOk result (λ back. (u : ℕ) → IsMarked back.marks u ↔ (u ≡ of.0)) }
    ensures room { IfOk result (λ back. back.waiting.rows ≡ W.count rows.now) }
    ensures waits { IfOk result (λ back. LastWaits (W.rows rows.now) of.0 back.waiting) }
    ensures hops { IfOk result (λ back. back.hops.items ≡ []) }
    ensures told { IfSome (W.rows rows.now) (λ R. known_of (firsts R) ≡ W.known rows.now) }
{
    let marks = Marks::only(alloc, of, rows.known())?;
    let count = rows.count();
    let mut waiting = Candidates::new(alloc, count)?;
    waiting.put(link_below(rows.last_into(of), count));
    let hops = Vec::new(alloc);
    Ok(WayBack {
        marks,
        waiting,
        hops,
    })
}

/// Reads a row into a marked object, after which the row that it links to waits. Its source is marked, unless its first
/// flow is too late.
fn take_row<W: Rows, L: Ledger>(
    back: &mut WayBack,
    rows: &mut W,
    index: u64,
    until: Option<u64>,
    steps: &mut Steps<L>,
) -> Result<(), WalkFault>
    requires index { index < W.count rows.old }
    requires len { length back.old.marks ≡ W.known rows.old }
    requires room { back.old.waiting.rows ≡ W.count rows.old }
    requires counted { IfSome (W.rows rows.old) (λ R. length R ≡ W.count rows.old) }
    requires lawful { IfSome (W.rows rows.old) AreRows }
    ensures len { length back.new.marks ≡ length back.old.marks }
    ensures room { back.new.waiting.rows ≡ back.old.waiting.rows }
    ensures marks { (u : ℕ) → IsMarked back.old.marks u → IsMarked back.new.marks u }
    ensures exact { IfOk result (λ _.
        StepsBack (W.rows rows.old) (W.known rows.old) index until back.old back.new) }
    ensures steps { IfOk result (λ _.
        CountsBack (W.rows rows.old) index back.old steps.old back.new steps.new) }
    ensures same { SameRows W.rows W.count W.known rows.old rows.new }
    ensures cause { IsWalkOver W.rows W.faults W.spent rows.old rows.new result }
    ensures alike { W.alike rows.old rows.new }
{
    let row = rows.row(index, steps)?;
    back.waiting.put(link_below(row.before_to, index));
    take_source(back, rows, &row, index, until, steps)?;
    Ok(())
}

/// Marks the source of a row whose target is marked, unless it is marked already or the first flow is too late.
fn take_source<W: Rows, L: Ledger>(
    back: &mut WayBack,
    rows: &mut W,
    row: &Row,
    index: u64,
    until: Option<u64>,
    steps: &mut Steps<L>,
) -> Result<(), WalkFault>
    requires index { index < W.count rows.old }
    requires ends { (row.now.from.0 < W.known rows.old) × (row.now.to.0 < W.known rows.old) }
    requires len { length back.old.marks ≡ W.known rows.old }
    requires room { back.old.waiting.rows ≡ W.count rows.old }
    ensures len { length back.new.marks ≡ length back.old.marks }
    ensures room { back.new.waiting.rows ≡ back.old.waiting.rows }
    ensures marks { (u : ℕ) → IsMarked back.old.marks u → IsMarked back.new.marks u }
    ensures found { IfOk result (λ _. FindsIfNew (W.rows rows.old) index (row_of_kept row.now).first
        until back.old steps.old back.new steps.new) }
    ensures others { ¬ Finds back.old.marks until (row_of_kept row.now).first
        → (back.new ≡ back.old) × (steps.new ≡ steps.old) × (rows.new ≡ rows.old) }
    ensures same { SameRows W.rows W.count W.known rows.old rows.new }
    ensures cause { IsWalkOver W.rows W.faults W.spent rows.old rows.new result }
    ensures alike { W.alike rows.old rows.new }
{
    if is_found(&back.marks, row, until) {
        return find(back, rows, row, index, steps);
    }
    Ok(())
}

/// Whether the source of a row is found by it.
fn is_found(marks: &Marks, row: &Row, until: Option<u64>) -> bool
    requires ends { (row.now.from.0 < length marks.now) × (row.now.to.0 < length marks.now) }
    ensures { IsTrue result ↔ Finds marks.now until (row_of_kept row.now).first }
{
    marks.has(row.to) && !marks.has(row.from) && is_until(row, until)
}

/// Whether the first flow of a row is no later than a time.
fn is_until(row: &Row, until: Option<u64>) -> bool
    ensures { IsTrue result ↔ IsUntil until (row_of_kept row.now).first }
{
    match until {
        None => true,
        Some(time) => row.first.at.ms <= time,
    }
}

/// Marks the source of a row. The last row into it before this one waits, and the later ones are read.
fn find<W: Rows, L: Ledger>(
    back: &mut WayBack,
    rows: &mut W,
    row: &Row,
    index: u64,
    steps: &mut Steps<L>,
) -> Result<(), WalkFault>
    requires index { index < W.count rows.old }
    requires source { row.now.from.0 < W.known rows.old }
    requires len { length back.old.marks ≡ W.known rows.old }
    requires room { back.old.waiting.rows ≡ W.count rows.old }
    ensures len { length back.new.marks ≡ length back.old.marks }
    ensures room { back.new.waiting.rows ≡ back.old.waiting.rows }
    ensures marks { (u : ℕ) → IsMarked back.old.marks u → IsMarked back.new.marks u }
    ensures found { IfOk result (λ _. FindsAt (W.rows rows.old) index (row_of_kept row.now).first
        back.old steps.old back.new steps.new) }
    ensures same { SameRows W.rows W.count W.known rows.old rows.new }
    ensures cause { IsWalkOver W.rows W.faults W.spent rows.old rows.new result }
    ensures alike { W.alike rows.old rows.new }
{
    back.marks.set(row.from);
    back.hops.push(row.first_flow())?;
    let link = last_into_before(rows, row.from, index, steps)?;
    back.waiting.put(link);
    Ok(())
}
