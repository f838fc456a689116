//! A path from one object to another.
//!
//! The walk is the one that finds what reaches the second object. When an object is first marked, the flow that marked it
//! is kept as its hop. So the hops are as many as the objects of the answer, and to follow them from any of these objects
//! takes one pass over them, from the hop that was found last to the hop that was found first.
ghost use Rattle.std.specs.Prelude.{◌≡◌, ◌<◌, [], IfOk, Some};
ghost use Rattle.query_walk.specs.Fault.{IsWalkOver};
ghost use Rattle.query_walk.specs.Walks.{SameRows, StepsTo};
ghost use Rattle.query_walk.specs.Ways.{IsTrace, ShowsPath};

use crate::fault::WalkFault;
use crate::way_back::walk_back;
use flow_base::{EntityId, Flow, List, NoMemory};
use reach_rows::{Rows, Steps};
use std::alloc::Global;
use std::sync::ledger::Ledger;

/// A path from one object to another by first flows no later than `until`, in milliseconds, or `None` if there is no such
/// path. The places of its flows ascend. The path from an object to itself has no flow.
///
/// Of several paths it returns one: each object is left by the row of the greatest index that still reaches the end. Only
/// rows that enter an object which reaches the end are read, and the steps are no more than these rows.
pub fn path<W: Rows, L: Ledger>(
    alloc: Global,
    rows: &mut W,
    from: EntityId,
    to: EntityId,
    until: Option<u64>,
    steps: &mut Steps<L>,
) -> Result<Option<List<Flow>>, WalkFault>
    requires known { (from.0 < W.known rows.old) × (to.0 < W.known rows.old) }
    ensures exact { IfOk result (λ found. ShowsPath (W.rows rows.old) from.0 to.0 until found) }
    ensures itself { IfOk result (λ found. from.0 ≡ to.0 → found ≡ Some []) }
    ensures steps { IfOk result (λ _. StepsTo (W.rows rows.old) to.0 until steps.old steps.new) }
    ensures same { SameRows W.rows W.count W.known rows.old rows.new }
    ensures cause { IsWalkOver W.rows W.faults W.spent rows.old rows.new result }
    ensures alike { W.alike rows.old rows.new }
{
    if from.0 == to.0 {
        return Ok(Some(List::new(alloc)));
    }
    let back = walk_back(alloc, rows, to, until, steps)?;
    if !back.marks.has(from) {
        return Ok(None);
    }
    Ok(Some(trace(alloc, &back.hops, from)?))
}

/// The path on which the hops lead from an object. They were found from the last flow to the first.
fn trace(alloc: Global, hops: &[Flow], from: EntityId) -> Result<List<Flow>, NoMemory>
    ensures { IfOk result (λ path. IsTrace hops.now from.0 path) }
{
    let mut path = List::new(alloc);
    let mut at = from;
    for index in (0..hops.len()).rev() {
        let hop = hops[index];
        if hop.from.0 == at.0 {
            path.push(hop)?;
            at = hop.to;
        }
    }
    Ok(path)
}
