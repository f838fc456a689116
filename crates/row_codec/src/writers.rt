//! Rows, written.
ghost use Rattle.std.specs.Prelude.{◌≡◌, ◌++◌, List, OnOk};
ghost use Rattle.std.specs.List.{All};
ghost use Rattle.row_codec.specs.declared.rows.StoreRow.{StoreRow as ARow};
ghost use Rattle.row_codec.specs.Fields as spelled;
ghost use Rattle.row_codec.specs.Fields.{FitsLink, FitsKept, FitsExtend};
ghost use Rattle.row_codec.specs.Rows.{row as spelling, CanBeSpelled, Fits};

use crate::keys::{put_file, put_key};
use crate::lives::put_life;
use crate::marks::put_mark;
use crate::numbers::{put_byte, put_flag, put_link, put_n4, put_n8};
use crate::objects::put_held;
use crate::rows::{ExtendRow, KeptRow, StoreRow};
use crate::state::put_state;
use crate::texts::{put_lines, put_text};
use flow_base::{Bytes, NoMemory};

/// Appends the one spelling of a row, which is read again as this row, whatever follows it.
///
/// At NoMemory a part of the spelling may have been appended.
pub fn write_row(row: &StoreRow, to: &mut Bytes) -> Result<(), NoMemory>
    requires { CanBeSpelled row.now }
    ensures bytes { OnOk result (to.new ≡ to.old ++ spelling row.now) }
    ensures fits { OnOk result (Fits row.now) }
{
    match row {
        StoreRow::Entity { key } => {
            put_byte(to, 1)?;
            put_key(to, key)
        }
        StoreRow::Kept(row) => {
            put_byte(to, 2)?;
            put_kept(to, row)
        }
        StoreRow::Extend(row) => {
            put_byte(to, 3)?;
            put_extend(to, row)
        }
        StoreRow::Name { key, text } => {
            put_byte(to, 4)?;
            put_key(to, key)?;
            put_text(to, text)
        }
        StoreRow::Life { pid, life } => {
            put_byte(to, 5)?;
            put_n4(to, *pid)?;
            put_life(to, life)
        }
        StoreRow::Held { pid, fd, held } => {
            put_byte(to, 6)?;
            put_n4(to, *pid)?;
            put_n4(to, *fd)?;
            put_held(to, held)
        }
        StoreRow::Address { act, bytes } => {
            put_byte(to, 7)?;
            put_n8(to, *act)?;
            put_text(to, bytes)
        }
        StoreRow::Born { file, born } => {
            put_byte(to, 8)?;
            put_file(to, file)?;
            put_n8(to, *born)
        }
        StoreRow::Waiting {
            ms,
            serial,
            closed,
            lines,
        } => {
            put_byte(to, 9)?;
            put_n8(to, *ms)?;
            put_n4(to, *serial)?;
            put_flag(to, *closed)?;
            put_lines(to, lines)
        }
        StoreRow::State(state) => {
            put_byte(to, 10)?;
            put_state(to, state)
        }
    }
}

/// Rows that have a spelling, as those that were read, can be written.
pub fn rows_that_fit_can_be_spelled()
    ensures { (rows : List ARow) → All Fits rows → All CanBeSpelled rows }
{}

/// Appends the fields of a Kept row.
fn put_kept(to: &mut Bytes, row: &KeptRow) -> Result<(), NoMemory>
    requires before_to { FitsLink row.now.before_to }
    requires before_from { FitsLink row.now.before_from }
    ensures bytes { OnOk result (to.new ≡ to.old ++ spelled.kept row.now) }
    ensures fits { OnOk result (FitsKept row.now) }
{
    put_n4(to, row.from.0)?;
    put_n4(to, row.to.0)?;
    put_mark(to, &row.mark)?;
    put_link(to, row.before_to)?;
    put_link(to, row.before_from)
}

/// Appends the fields of an Extend row.
fn put_extend(to: &mut Bytes, extend: &ExtendRow) -> Result<(), NoMemory>
    ensures bytes { OnOk result (to.new ≡ to.old ++ spelled.extend extend.now) }
    ensures fits { OnOk result (FitsExtend extend.now) }
{
    put_n8(to, extend.row)?;
    put_mark(to, &extend.mark)
}
