//! The Extend rows of rows that were extended since the last commit.
ghost use Rattle.std.specs.Prelude.{◌≡◌, ◌≤◌, ◌++◌, ℕ, List, None, length, IfOk, OnOk};
ghost use Rattle.reach_rows.specs.declared.rows.Row.{Row as ARow};
ghost use Rattle.saved_rows.specs.Joining.{AreListed, extend_of, extends_in, mark_in};

use flow_base::{List, NoMemory};
use indexmap::IndexMap;
use reach_rows::Mark;
use row_codec::ExtendRow;
use std::alloc::Global;
use table_salt::Salt;

/// The Extend rows of these rows with their last marks, ascending.
pub fn extend_rows(
    alloc: Global,
    renewed: &IndexMap<u64, Mark, Salt>,
) -> Result<List<ExtendRow>, NoMemory>
    ensures { IfOk result (λ extends. (R : List ARow)
        → ((i : ℕ) → length R ≤ i → mark_in renewed.now.entries i ≡ None)
        → extends ≡ extends_in (mark_in renewed.now.entries) 0 R) }
{
    let listed = listed_rows(alloc, renewed)?;
    let mut extends = List::new(alloc);
    for row in &listed {
        put_extend(&mut extends, renewed, *row)?;
    }
    Ok(extends)
}

// The rows that are listed, ascending.
fn listed_rows(alloc: Global, renewed: &IndexMap<u64, Mark, Salt>) -> Result<Vec<u64>, NoMemory>
    ensures { IfOk result (λ rows. AreListed (mark_in renewed.now.entries) rows.items) }
{
    let mut rows = Vec::from_slice(alloc, renewed.keys().as_slice())?;
    rows.sort()?;
    Ok(rows)
}

// Appends the Extend row of a row, if it is listed.
fn put_extend(
    to: &mut List<ExtendRow>,
    renewed: &IndexMap<u64, Mark, Salt>,
    row: u64,
) -> Result<(), NoMemory>
    ensures { OnOk result (to.new
        ≡ to.old ++ extend_of (mark_in renewed.now.entries row) row) }
{
    match renewed.get(&row).copied() {
        Some(mark) => to.push(ExtendRow { row, mark }),
        None => Ok(()),
    }
}
