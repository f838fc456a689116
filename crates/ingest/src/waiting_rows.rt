//! What waits, as the Waiting rows of a commit.
ghost use Rattle.std.specs.Prelude.{◌≡◌, ◌++◌, IfOk, OnOk, map};
ghost use Rattle.record_join.specs.StandsFor.{WhereStands};
ghost use Rattle.stored.specs.Batch.{waiting_row};
ghost use Rattle.ingest.specs.WaitingRows.{PutsWaiting, as_lines, lines_in, waiting_row_of};

use audit_record::Record;
use flow_base::{Bytes, List, NoMemory};
use record_join::{GroupView, Join, Parts};
use row_codec::StoreRow;
use std::alloc::Global;

/// Appends the Waiting rows of the groups that wait, the least key first.
pub fn put_waiting(alloc: Global, join: &Join, to: &mut List<StoreRow>) -> Result<(), NoMemory>
    ensures { OnOk result (WhereStands join.now (λ limits s. PutsWaiting s to.old to.new)) }
{
    put_groups(alloc, join.parts(), to)
}

// Appends the rows of groups.
fn put_groups(alloc: Global, parts: Parts<'_>, to: &mut List<StoreRow>) -> Result<(), NoMemory>
    ensures { OnOk result (to.new ≡ to.old ++ map waiting_row (as_lines parts.entry)) }
{
    let mut parts = parts;
    while let Some(group) = parts.next() {
        to.push(row_of(alloc, &group)?)?;
    }
    Ok(())
}

// A group that waits as its row.
fn row_of(alloc: Global, group: &GroupView<'_>) -> Result<StoreRow, NoMemory>
    ensures { IfOk result (λ row. row ≡ waiting_row_of group.now.key
        (record { closed = group.now.closed; records = group.now.records.now })) }
{
    Ok(StoreRow::Waiting {
        ms: group.key.ms,
        serial: group.key.serial,
        closed: group.closed,
        lines: lines_of(alloc, group.records)?,
    })
}

// The lines of records.
fn lines_of(alloc: Global, records: &[Record]) -> Result<List<Bytes>, NoMemory>
    ensures { IfOk result (λ lines. lines ≡ lines_in records.now) }
{
    let mut lines = List::new(alloc);
    for record in records {
        lines.push(Bytes::from_slice(alloc, record.line.as_slice())?)?;
    }
    Ok(lines)
}
