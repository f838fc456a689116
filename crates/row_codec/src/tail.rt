//! The unfinished line of a State row and its malformed lines, read and written.
ghost use Rattle.std.specs.Prelude.{◌≡◌, ◌++◌, ◌<◌, ◌^◌, OnOk, length};
ghost use Rattle.std.specs.List.{flat_map, AllByRecursion};
ghost use Rattle.row_codec.specs.Parsing.{Gives, GivesIfMemory, list_at, many_at};
ghost use Rattle.row_codec.specs.State as states;
ghost use Rattle.row_codec.specs.State.{bad_at, tail_bytes_at, tail_at, tail_in};
ghost use Rattle.row_codec.specs.State.{FitsBad, FitsTail, IsTail};
ghost use Rattle.row_codec.specs.Tables.{FitsText};

use crate::fault::{NoSpelling, RowRead};
use crate::numbers::{byte, flag, n4, n8, put_byte, put_flag, put_n4, put_n8};
use crate::state::StateRow;
use crate::texts::{put_text, text};
use flow_base::{Bad, Bytes, List, NoMemory};
use std::alloc::Global;

/// The unfinished line of a State row, and the malformed lines that it lists.
#[derive(Drop)]
pub struct Lines {
    pub long: bool,
    pub tail: Bytes,
    pub bad: List<Bad>,
}

/// The tail and the list.
pub fn read_tail(alloc: Global, bytes: &[u8]) -> Result<(Lines, &[u8]), RowRead>
    ensures { GivesIfMemory (λ x. (x.0, x.1.now)) result (tail_at bytes.now) }
{
    let ((long, tail), rest) = tail_bytes(alloc, bytes)?;
    let (bad, rest) = listed(alloc, rest)?;
    Ok((Lines { long, tail, bad }, rest))
}

/// Whether the line is too long already, and else its bytes so far.
fn tail_bytes(alloc: Global, bytes: &[u8]) -> Result<((bool, Bytes), &[u8]), RowRead>
    ensures { GivesIfMemory (λ x. ((x.0.0, x.0.1), x.1.now)) result (tail_bytes_at bytes.now) }
{
    let (long, rest) = flag(bytes)?;
    let (tail, rest) = text(alloc, rest)?;
    if long && !tail.as_slice().is_empty() {
        return Err(RowRead::Malformed);
    }
    Ok(((long, tail), rest))
}

/// The malformed lines: their number in four bytes, then each.
fn listed(alloc: Global, bytes: &[u8]) -> Result<(List<Bad>, &[u8]), RowRead>
    ensures { GivesIfMemory (λ x. (x.0, x.1.now)) result (list_at bad_at bytes.now) }
{
    let (count, rest) = n4(bytes)?;
    all_bad(alloc, count, rest)
}

/// This many malformed lines.
fn all_bad(alloc: Global, count: u32, bytes: &[u8]) -> Result<(List<Bad>, &[u8]), RowRead>
    ensures { GivesIfMemory (λ x. (x.0, x.1.now)) result (many_at bad_at count bytes.now) }
{
    let mut listed = List::new(alloc);
    let mut rest = bytes;
    for _ in 0..count {
        let (line, after) = bad(rest)?;
        listed.push(line)?;
        rest = after;
    }
    Ok((listed, rest))
}

/// A malformed line: its number, and a byte for its fault.
fn bad(bytes: &[u8]) -> Result<(Bad, &[u8]), NoSpelling>
    ensures { Gives (λ x. (x.0, x.1.now)) result (bad_at bytes.now) }
{
    let (line, rest) = n8(bytes)?;
    let (fault, rest) = byte(rest)?;
    Ok((Bad { line, fault }, rest))
}

/// Appends the tail and the list of a State row.
pub fn put_tail(to: &mut Bytes, state: &StateRow) -> Result<(), NoMemory>
    requires none { IsTail state.now.long state.now.tail }
    requires tail { FitsText state.now.tail }
    requires bad { length state.now.bad < 2 ^ 32 }
    ensures bytes { OnOk result (to.new ≡ to.old ++ states.tail (tail_in state.now)) }
    ensures fits { OnOk result (FitsTail (tail_in state.now)) }
{
    put_flag(to, state.long)?;
    put_text(to, &state.tail)?;
    put_n4(to, state.bad.as_slice().len() as u32)?;
    put_listed(to, state.bad.as_slice())
}

/// Appends malformed lines.
fn put_listed(to: &mut Bytes, listed: &[Bad]) -> Result<(), NoMemory>
    ensures bytes { OnOk result (to.new ≡ to.old ++ flat_map states.bad listed.now) }
    ensures fits { OnOk result (AllByRecursion FitsBad listed.now) }
{
    for bad in listed {
        put_bad(to, bad)?;
    }
    Ok(())
}

/// Appends a malformed line.
fn put_bad(to: &mut Bytes, bad: &Bad) -> Result<(), NoMemory>
    ensures bytes { OnOk result (to.new ≡ to.old ++ states.bad bad.now) }
    ensures fits { OnOk result (FitsBad bad.now) }
{
    put_n8(to, bad.line)?;
    put_byte(to, bad.fault)
}
