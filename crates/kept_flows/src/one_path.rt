//! One path, from the mode's leave to its flows.
ghost use Rattle.std.specs.Prelude.{◌≡◌, ◌<◌, IfOk};
ghost use Rattle.query_walk.specs.Fault.{IsWalkOver};
ghost use Rattle.query_walk.specs.Walks.{SameRows};
ghost use Rattle.kept_flows.specs.Answering.{ShowsOver};

use flow_base::{EntityId, Flow, List};
use query_walk::{WalkFault, path};
use reach_rows::{
    Question, Reducer, Rows, Steps, first_flows_are_told, what_is_allowed_is_answerable,
};
use std::alloc::Global;
use std::sync::ledger::{Blank, Ledger};

/// How one object reached another.
#[derive(Drop)]
pub enum Way {
    /// The mode doesn't answer by which path this object reaches others.
    NotKept,
    /// No path leads from the first object to the second.
    Nowhere,
    /// Along these flows, in their order. They are none if the two objects are the same.
    Along(List<Flow>),
}

/// How one object reached another by flows no later than `until`, if the mode that kept the rows answers that.
///
/// A mode answers it exactly if it answers what the object reaches by all flows. The rows that are read are counted from
/// nothing.
pub fn find_way<M: Reducer, W: Rows, L: Ledger>(
    alloc: Global,
    reducer: &M,
    rows: &mut W,
    from: EntityId,
    to: EntityId,
    until: Option<u64>,
    blank: Blank,
) -> Result<Way, WalkFault>
    requires known { (from.0 < W.known rows.old) × (to.0 < W.known rows.old) }
    requires name { blank.name ≡ L.name }
    requires parts { blank.parts ≡ L.parts }
    requires one { blank.parts ≡ 1 }
    ensures exact { IfOk result (λ way. ShowsOver M.mode (W.rows rows.old) from.0 to.0 until way) }
    ensures cause { IsWalkOver W.rows W.faults W.spent rows.old rows.new result }
    ensures same { SameRows W.rows W.count W.known rows.old rows.new }
    ensures alike { W.alike rows.old rows.new }
{
    first_flows_are_told();
    what_is_allowed_is_answerable();
    let question = Question::Fore {
        of: from,
        since: None,
    };
    let first = rows.first(from);
    let allowed = reducer.allowed(&question, first);
    if !allowed {
        return Ok(Way::NotKept);
    }
    let mut steps = Steps::<L>::new(blank);
    match path(alloc, rows, from, to, until, &mut steps)? {
        None => Ok(Way::Nowhere),
        Some(flows) => Ok(Way::Along(flows)),
    }
}
