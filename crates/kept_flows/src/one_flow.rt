//! Flows on their way from the verdict to the rows and the tables.
ghost use Rattle.std.specs.Prelude.{◌≡◌, ◌<◌, ◌≤◌, ◌+◌, ◌^◌, ◌∷◌, List, length, OnErr, OnOk};
ghost use Rattle.flow_base.specs.declared.types.Flow.{Flow as AFlow};
ghost use Rattle.reach_model.specs.Rows.{Row as ARow};
ghost use Rattle.reach_rows.specs.Kept.{GoesOn, known_after};
ghost use Rattle.query_walk.specs.Walks.{SameRows};
ghost use Rattle.kept_flows.specs.KeptFlows.{AreTiedTo, SameFaults, TakesIn, kept_of};
ghost use Rattle.kept_flows.specs.Taking.{
  HasRoomFor,
  UsesRoom,
  MayTakeIn,
  MayTake,
  Takes,
  BringsOnly,
  MayPut,
  Puts,
  PutsSomehow,
};

use flow_base::{Flow, NoMemory};
use reach_model::Verdict;
use reach_rows::{Keep, Reducer, verdicts_make_the_rows};

/// Takes in the flows that come next. If allocation fails the tables and the rows are as before: room for
/// all of the flows is made first, and from there on nothing fails.
pub fn take_all<M: Reducer, K: Keep>(
    reducer: &mut M,
    rows: &mut K,
    flows: &[Flow],
) -> Result<(), NoMemory>
    requires tied { AreTiedTo M.stands_for M.holds K.rows K.count K.known reducer.old rows.old }
    requires next { MayTakeIn (kept_of M.mode K.rows K.count K.known rows.old) flows.now }
    ensures tied { AreTiedTo M.stands_for M.holds K.rows K.count K.known reducer.new rows.new }
    ensures taken { OnOk result (TakesIn (kept_of M.mode K.rows K.count K.known rows.old) flows.now
        (kept_of M.mode K.rows K.count K.known rows.new)) }
    ensures objects { OnOk result (K.known rows.new ≡ known_after (K.known rows.old) flows.now) }
    ensures count { K.count rows.new ≤ K.count rows.old + length flows.now }
    ensures brings { BringsOnly (K.rows rows.old) flows.now (K.rows rows.new) }
    ensures same { OnErr result (SameRows K.rows K.count K.known rows.old rows.new) }
    ensures faults { SameFaults K.faults K.spent rows.old rows.new }
    ensures alike { K.alike rows.old rows.new }
{
    // Most events make no flow.
    if flows.is_empty() {
        return Ok(());
    }
    make_room(reducer, rows, flows)?;
    put_all(reducer, rows, flows);
    Ok(())
}

/// Makes room for these flows. The tables and the rows stay as they are.
fn make_room<M: Reducer, K: Keep>(
    reducer: &mut M,
    rows: &mut K,
    flows: &[Flow],
) -> Result<(), NoMemory>
    ensures covers { OnOk result (M.covers reducer.new flows.now) }
    ensures room { OnOk result (K.has_room rows.new (length flows.now)) }
    ensures stands { (R : List ARow) → M.stands_for reducer.old R → M.stands_for reducer.new R }
    ensures holds { (R : List ARow) → M.holds reducer.old R → M.holds reducer.new R }
    ensures same { SameRows K.rows K.count K.known rows.old rows.new }
    ensures faults { SameFaults K.faults K.spent rows.old rows.new }
    ensures alike { K.alike rows.old rows.new }
{
    reducer.reserve(flows)?;
    rows.reserve(flows.len())
}

/// Puts each of these flows, for which there is room.
fn put_all<M: Reducer, K: Keep>(reducer: &mut M, rows: &mut K, flows: &[Flow])
    requires tied { AreTiedTo M.stands_for M.holds K.rows K.count K.known reducer.old rows.old }
    requires next { MayTakeIn (kept_of M.mode K.rows K.count K.known rows.old) flows.now }
    requires covers { M.covers reducer.old flows.now }
    requires room { K.has_room rows.old (length flows.now) }
    ensures tied { AreTiedTo M.stands_for M.holds K.rows K.count K.known reducer.new rows.new }
    ensures taken { TakesIn (kept_of M.mode K.rows K.count K.known rows.old) flows.now
        (kept_of M.mode K.rows K.count K.known rows.new) }
    ensures objects { K.known rows.new ≡ known_after (K.known rows.old) flows.now }
    ensures count { K.count rows.new ≤ K.count rows.old + length flows.now }
    ensures brings { BringsOnly (K.rows rows.old) flows.now (K.rows rows.new) }
    ensures faults { SameFaults K.faults K.spent rows.old rows.new }
    ensures alike { K.alike rows.old rows.new }
{
    for flow in flows {
        put(reducer, rows, flow);
    }
}

/// Puts the flow that comes next, by the verdict on it.
fn put<M: Reducer, K: Keep>(reducer: &mut M, rows: &mut K, flow: &Flow)
    requires tied { AreTiedTo M.stands_for M.holds K.rows K.count K.known reducer.old rows.old }
    requires next { MayTake (kept_of M.mode K.rows K.count K.known rows.old) flow.now }
    requires covers { (rest : List AFlow) × M.covers reducer.old (flow.now ∷ rest) }
    requires room { HasRoomFor (K.has_room rows.old) 1 }
    ensures tied { AreTiedTo M.stands_for M.holds K.rows K.count K.known reducer.new rows.new }
    ensures taken { Takes (kept_of M.mode K.rows K.count K.known rows.old) flow.now
        (kept_of M.mode K.rows K.count K.known rows.new) }
    ensures puts { PutsSomehow K.rows K.count K.known rows.old flow.now rows.new }
    ensures covers { (rest : List AFlow) → M.covers reducer.old (flow.now ∷ rest)
        → M.covers reducer.new rest }
    ensures room { UsesRoom (K.has_room rows.old) (K.has_room rows.new) }
    ensures faults { SameFaults K.faults K.spent rows.old rows.new }
    ensures alike { K.alike rows.old rows.new }
{
    verdicts_make_the_rows();
    let verdict = reducer.decide(flow);
    put_row(rows, flow, verdict);
    reducer.note(flow, verdict);
}

/// Does to the rows what a verdict says.
fn put_row<K: Keep>(rows: &mut K, flow: &Flow, verdict: Verdict)
    requires room { HasRoomFor (K.has_room rows.old) 1 }
    requires goes_on { GoesOn (K.known rows.old) flow.now }
    requires puts { MayPut K.rows K.count K.known rows.old flow.now verdict }
    ensures puts { Puts K.rows K.count K.known rows.old flow.now verdict rows.new }
    ensures room { UsesRoom (K.has_room rows.old) (K.has_room rows.new) }
    ensures faults { SameFaults K.faults K.spent rows.old rows.new }
    ensures alike { K.alike rows.old rows.new }
{
    match verdict {
        Verdict::Drop => {}
        Verdict::Add => rows.add(flow),
        Verdict::Extend { row } => rows.extend(row, flow),
    }
}
