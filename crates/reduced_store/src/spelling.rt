//! Rows of a batch as bytes.
ghost use Rattle.std.specs.Prelude.{◌≡◌, ◌++◌, OnOk};
ghost use Rattle.std.specs.List.{All, flat_map};
ghost use Rattle.row_codec.specs.Rows.{row as spelling, CanBeSpelled, Fits};
ghost use Rattle.row_codec.specs.declared.rows.StoreRow.TheVariants.{Extend, Kept};
ghost use Rattle.saved_rows.specs.Saved.{as_kept};

use flow_base::{Bytes, NoMemory};
use reach_rows::Row;
use row_codec::{ExtendRow, KeptRow, StoreRow, write_row};

/// Appends the spellings of rows. At NoMemory a part of them may have been appended.
pub fn write_rows(rows: &[StoreRow], to: &mut Bytes) -> Result<(), NoMemory>
    requires { All CanBeSpelled rows.now }
    ensures bytes { OnOk result (to.new ≡ to.old ++ flat_map spelling rows.now) }
    ensures fit { OnOk result (All Fits rows.now) }
{
    for row in rows {
        write_row(row, to)?;
    }
    Ok(())
}

// Appends the spelling of the Kept row of a row.
fn write_one(row: &Row, to: &mut Bytes) -> Result<(), NoMemory>
    requires { CanBeSpelled (as_kept row.now) }
    ensures bytes { OnOk result (to.new ≡ to.old ++ spelling (as_kept row.now)) }
    ensures fits { OnOk result (Fits (as_kept row.now)) }
{
    write_row(&StoreRow::Kept(kept_row(row)), to)
}

/// Appends the spellings of the Kept rows of these rows, and makes no list of them. At NoMemory a part of them may have
/// been appended.
pub fn write_kept(rows: &[Row], to: &mut Bytes) -> Result<(), NoMemory>
    requires { All (λ r. CanBeSpelled (as_kept r)) rows.now }
    ensures bytes { OnOk result (to.new ≡ to.old ++ flat_map (λ r. spelling (as_kept r)) rows.now) }
    ensures fit { OnOk result (All (λ r. Fits (as_kept r)) rows.now) }
{
    for row in rows {
        write_one(row, to)?;
    }
    Ok(())
}

/// Appends the spellings of these Extend rows. At NoMemory a part of them may have been appended.
pub fn write_extends(rows: &[ExtendRow], to: &mut Bytes) -> Result<(), NoMemory>
    ensures bytes { OnOk result (to.new ≡ to.old ++ flat_map (λ e. spelling (Extend e)) rows.now) }
    ensures fit { OnOk result (All (λ e. Fits (Extend e)) rows.now) }
{
    for row in rows {
        write_row(&StoreRow::Extend(*row), to)?;
    }
    Ok(())
}

// A row as its Kept row says it.
fn kept_row(row: &Row) -> KeptRow
    ensures { Kept result ≡ as_kept row.now }
{
    KeptRow {
        from: row.from,
        to: row.to,
        mark: row.first,
        before_to: row.before_to,
        before_from: row.before_from,
    }
}
