//! The payload of a batch: a header of six bytes, then rows to its end.
ghost use Rattle.std.specs.Prelude.{◌≡◌, ◌++◌, List, ℕ, OnOk, IfOk, IsErrOf};
ghost use Rattle.std.specs.List.{All, flat_map};
ghost use Rattle.reach_model.specs.declared.modes.Mode.{Mode};
ghost use Rattle.row_codec.specs.declared.fault.RowRead.TheVariants as RowRead;
ghost use Rattle.row_codec.specs.declared.rows.StoreRow.{StoreRow as ARow};
ghost use Rattle.row_codec.specs.Parsing.{Gives};
ghost use Rattle.row_codec.specs.Payload as payload;
ghost use Rattle.row_codec.specs.Payload.{mode_at, header_at, AreSpellings, IsPayload};
ghost use Rattle.row_codec.specs.Rows.{row as spelling, CanBeSpelled, Fits};

use crate::fault::{NoSpelling, RowRead};
use crate::numbers::{after, byte};
use crate::rows::{StoreRow, row};
use crate::writers::write_row;
use flow_base::{Bytes, List, NoMemory};
use reach_model::Mode;
use std::alloc::Global;

/// What the payload of a batch says.
#[derive(Drop)]
pub struct Payload {
    pub mode: Mode,
    pub rows: List<StoreRow>,
}

/// Reads a payload to its end.
///
/// Malformed means that the bytes are the payload of no mode and rows: another magic, version or
/// mode byte, or what follows isn't a list of rows.
pub fn read_payload(alloc: Global, bytes: &[u8]) -> Result<Payload, RowRead>
    ensures found { IfOk result (λ p. IsPayload p.mode p.rows bytes.now) }
    ensures malformed { IsErrOf result RowRead.Malformed → (mode : Mode) (rows : List ARow)
        → ¬ IsPayload mode rows bytes.now }
{
    let (mode, rest) = header(bytes)?;
    let rows = all_rows(alloc, rest)?;
    Ok(Payload { mode, rows })
}

/// Appends the payload of a batch.
///
/// At NoMemory a part of the payload may have been appended.
pub fn write_payload(mode: Mode, rows: &[StoreRow], to: &mut Bytes) -> Result<(), NoMemory>
    requires { All CanBeSpelled rows.now }
    ensures bytes { OnOk result
        (to.new ≡ to.old ++ (payload.header mode ++ flat_map spelling rows.now)) }
    ensures fit { OnOk result (All Fits rows.now) }
{
    put_header(mode, to)?;
    put_rows(rows, to)
}

/// A payload has one mode and one list of rows.
pub fn payloads_are_apart()
    ensures { (m n : Mode) (rows others : List ARow) (bytes : List ℕ)
        → IsPayload m rows bytes → IsPayload n others bytes → (m ≡ n) × (rows ≡ others) }
{}

/// The magic, the version and the mode.
fn header(bytes: &[u8]) -> Result<(Mode, &[u8]), NoSpelling>
    ensures { Gives (λ x. (x.0, x.1.now)) result (header_at bytes.now) }
{
    let rest = after(b'A', bytes)?;
    let rest = after(b'D', rest)?;
    let rest = after(b'L', rest)?;
    let rest = after(b'R', rest)?;
    let rest = after(VERSION, rest)?;
    mode(rest)
}

/// The version of the store.
const VERSION: u8 = 1;

/// The mode by its byte.
fn mode(bytes: &[u8]) -> Result<(Mode, &[u8]), NoSpelling>
    ensures { Gives (λ x. (x.0, x.1.now)) result (mode_at bytes.now) }
{
    let (number, rest) = byte(bytes)?;
    let mode = match number {
        1 => Mode::Plain,
        2 => Mode::Continuous,
        3 => Mode::Full,
        4 => Mode::Source,
        _ => return Err(NoSpelling),
    };
    Ok((mode, rest))
}

/// The rows that the bytes spell, to their end.
fn all_rows(alloc: Global, bytes: &[u8]) -> Result<List<StoreRow>, RowRead>
    ensures found { IfOk result (λ rows. AreSpellings rows bytes.now) }
    ensures malformed { IsErrOf result RowRead.Malformed → (rows : List ARow)
        → ¬ AreSpellings rows bytes.now }
{
    let mut rows = List::new(alloc);
    let mut rest = bytes;
    while !rest.is_empty() {
        let (next, after) = row(alloc, rest)?;
        rows.push(next)?;
        rest = after;
    }
    Ok(rows)
}

fn put_header(mode: Mode, to: &mut Bytes) -> Result<(), NoMemory>
    ensures { OnOk result (to.new ≡ to.old ++ payload.header mode) }
{
    to.append([b'A', b'D', b'L', b'R', VERSION, number_of(mode)].as_slice())
}

/// The byte of a mode.
fn number_of(mode: Mode) -> u8
    ensures { result ≡ payload.mode_number mode }
{
    match mode {
        Mode::Plain => 1,
        Mode::Continuous => 2,
        Mode::Full => 3,
        Mode::Source => 4,
    }
}

fn put_rows(rows: &[StoreRow], to: &mut Bytes) -> Result<(), NoMemory>
    requires { All CanBeSpelled rows.now }
    ensures bytes { OnOk result (to.new ≡ to.old ++ flat_map spelling rows.now) }
    ensures fit { OnOk result (All Fits rows.now) }
{
    for row in rows {
        write_row(row, to)?;
    }
    Ok(())
}
