//! Rows of an earlier run on their way into new tables.
ghost use Rattle.std.specs.Prelude.{◌≡◌, ◌≤◌, ◌^◌, [], OnOk};
ghost use Rattle.query_walk.specs.Fault.{IsWalkOver};
ghost use Rattle.query_walk.specs.Walks.{SameRows};
ghost use Rattle.kept_flows.specs.KeptFlows.{AreTiedTo};

use query_walk::WalkFault;
use reach_rows::{Reducer, Rows, Steps};
use std::sync::ledger::{Blank, Ledger};

/// The rows from which nothing was restored, and why.
#[derive(Drop)]
pub struct Unrestored<K> {
    pub fault: WalkFault,
    pub rows: K,
}

/// Recalls each row in order into new tables. Reading changes no rows.
pub fn recall_all<M: Reducer, W: Rows, L: Ledger>(
    reducer: &mut M,
    rows: &mut W,
    blank: Blank,
) -> Result<(), WalkFault>
    requires stands { M.stands_for reducer.old [] }
    requires holds { M.holds reducer.old [] }
    requires few { W.count rows.old ≤ 2 ^ 63 }
    requires name { blank.name ≡ L.name }
    requires parts { blank.parts ≡ L.parts }
    requires one { blank.parts ≡ 1 }
    ensures tied { OnOk result
        (AreTiedTo M.stands_for M.holds W.rows W.count W.known reducer.new rows.new) }
    ensures cause { IsWalkOver W.rows W.faults W.spent rows.old rows.new result }
    ensures same { SameRows W.rows W.count W.known rows.old rows.new }
    ensures alike { W.alike rows.old rows.new }
{
    let _ = rows.known();
    let mut steps = Steps::<L>::new(blank);
    for index in 0..rows.count() {
        let row = rows.row(index, &mut steps)?;
        reducer.recall(&row)?;
    }
    Ok(())
}
