//! Rows that are found by their links.
ghost use Rattle.std.specs.Prelude.{◌≡◌, ◌<◌, ◌≤◌, IfOk, IfSome};
ghost use Rattle.query_walk.specs.Fault.{IsWalkOver};
ghost use Rattle.query_walk.specs.Links.{CountsInto, LinksInto, link_below};
ghost use Rattle.query_walk.specs.Walks.{SameRows};

use crate::fault::WalkFault;
use flow_base::EntityId;
use reach_rows::{Rows, Steps};
use std::sync::ledger::Ledger;

/// A link if it names a row below a bound, and otherwise none. Links of rows that aren't observable may lead anywhere, and
/// a walk that follows only those that go down ends.
pub fn link_below(link: Option<u64>, bound: u64) -> Option<u64>
    ensures { result ≡ link_below link bound }
{
    match link {
        Some(index) if index < bound => Some(index),
        _ => None,
    }
}

/// The greatest row before an index that enters an object. The rows from the index on that enter it are read.
pub fn last_into_before<W: Rows, L: Ledger>(
    rows: &mut W,
    of: EntityId,
    before: u64,
    steps: &mut Steps<L>,
) -> Result<Option<u64>, WalkFault>
    requires known { of.0 < W.known rows.old }
    requires before { before ≤ W.count rows.old }
    ensures low { IfOk result (λ link. IfSome link (λ index. index < before)) }
    ensures exact { IfOk result (λ link. LinksInto (W.rows rows.old) of.0 before link) }
    ensures steps { IfOk result (λ _. CountsInto
        (W.rows rows.old) of.0 before steps.old steps.new) }
    ensures same { SameRows W.rows W.count W.known rows.old rows.new }
    ensures cause { IsWalkOver W.rows W.faults W.spent rows.old rows.new result }
    ensures alike { W.alike rows.old rows.new }
{
    let mut link = link_below(rows.last_into(of), rows.count());
    while let Some(index) = link {
        if index < before {
            return Ok(Some(index));
        }
        let row = rows.row(index, steps)?;
        link = link_below(row.before_to, index);
    }
    Ok(None)
}
