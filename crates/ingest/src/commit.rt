//! The rows of a commit.
ghost use Rattle.std.specs.Prelude.{IfOk};
ghost use Rattle.ingest.specs.Committing.{ArePut};

use crate::waiting_rows::put_waiting;
use flow_base::NoMemory;
use flow_events::{TableRows, Tables};
use record_join::Join;
use row_codec::{StateRow, StoreRow};
use std::alloc::Global;

/// The rows that the batch of a commit has besides those of flows: the objects, and what stands after the rows of flows,
/// which are the other rows of tables, what waits, and the State.
pub fn rows_around(
    alloc: Global,
    tables: &Tables,
    join: &Join,
    state: StateRow,
) -> Result<TableRows, NoMemory>
    ensures { IfOk result (λ rows. ArePut tables.now.entities.most_names tables.now join.now state
        rows.entities rows.others) }
{
    let mut rows = tables.rows(alloc)?;
    put_waiting(alloc, join, &mut rows.others)?;
    rows.others.push(StoreRow::State(state))?;
    Ok(rows)
}
