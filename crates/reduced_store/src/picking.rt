//! Rows that are moved from list to list, in their order.
ghost use Rattle.std.specs.Prelude.{◌≡◌, ◌++◌, ◌∷◌, [], OnOk, IfOk, filter, reverse};
ghost use Rattle.reduced_store.specs.Reading.{is_of_table, closes};

use flow_base::{List, NoMemory};
use row_codec::StoreRow;
use std::alloc::Global;

/// Moves the rows of a batch to the rows of tables and to those that close it. Kept and Extend rows
/// are dropped.
pub fn pick(
    alloc: Global,
    rows: List<StoreRow>,
    tables: &mut List<StoreRow>,
    closing: &mut List<StoreRow>,
) -> Result<(), NoMemory>
    ensures tables { OnOk result (tables.new ≡ tables.old ++ filter is_of_table rows) }
    ensures closing { OnOk result (closing.new ≡ closing.old ++ filter closes rows) }
{
    let mut turned = turned(alloc, rows)?;
    while let Some(row) = turned.pop() {
        put(row, tables, closing)?;
    }
    Ok(())
}

/// Moves rows to the end of others.
pub fn move_after(
    alloc: Global,
    rows: List<StoreRow>,
    to: &mut List<StoreRow>,
) -> Result<(), NoMemory>
    ensures { OnOk result (to.new ≡ to.old ++ rows) }
{
    let mut turned = turned(alloc, rows)?;
    while let Some(row) = turned.pop() {
        to.push(row)?;
    }
    Ok(())
}

// Appends a row to the list to which it belongs.
fn put(
    row: StoreRow,
    tables: &mut List<StoreRow>,
    closing: &mut List<StoreRow>,
) -> Result<(), NoMemory>
    ensures tables { OnOk result (tables.new ≡ tables.old ++ filter is_of_table (row ∷ [])) }
    ensures closing { OnOk result (closing.new ≡ closing.old ++ filter closes (row ∷ [])) }
{
    match row {
        StoreRow::Kept(_) | StoreRow::Extend(_) => Ok(()),
        StoreRow::Waiting { .. } | StoreRow::State(_) => closing.push(row),
        _ => tables.push(row),
    }
}

// The rows, the last one first. A list gives up its rows from its end, so they are turned twice.
fn turned(alloc: Global, rows: List<StoreRow>) -> Result<List<StoreRow>, NoMemory>
    ensures { IfOk result (λ turned. turned ≡ reverse rows) }
{
    let mut rows = rows;
    let mut turned = List::from_vec(Vec::with_capacity(alloc, rows.as_slice().len())?);
    while let Some(row) = rows.pop() {
        turned.push(row)?;
    }
    Ok(turned)
}
