//! Texts and lists of them, read and written.
ghost use Rattle.std.specs.Prelude.{◌≡◌, ◌++◌, OnOk};
ghost use Rattle.row_codec.specs.Parsing as parsing;
ghost use Rattle.row_codec.specs.Parsing.{GivesIfMemory, text_at, many_at};
ghost use Rattle.row_codec.specs.Tables as tables;
ghost use Rattle.row_codec.specs.Tables.{lines_at, FitsText, FitsLines};

use crate::fault::RowRead;
use crate::numbers::{n4, put_n4};
use flow_base::{Bytes, List, NoMemory};
use std::alloc::Global;

/// A text: its length in four bytes, then its bytes.
#[tactic(auto, unfolding(crate::specs::Parsing::text_at))]
pub fn text(alloc: Global, bytes: &[u8]) -> Result<(Bytes, &[u8]), RowRead>
    ensures { GivesIfMemory (λ x. (x.0, x.1.now)) result (text_at bytes.now) }
{
    let (length, rest) = n4(bytes)?;
    let length = length as usize;
    if rest.len() < length {
        return Err(RowRead::Malformed);
    }
    let (text, rest) = rest.split_at(length);
    Ok((Bytes::from_slice(alloc, text)?, rest))
}

/// Lines: their number in four bytes, then each as a text.
pub fn lines(alloc: Global, bytes: &[u8]) -> Result<(List<Bytes>, &[u8]), RowRead>
    ensures { GivesIfMemory (λ x. (x.0, x.1.now)) result (lines_at bytes.now) }
{
    let (count, rest) = n4(bytes)?;
    texts(alloc, count, rest)
}

/// This many texts.
fn texts(alloc: Global, count: u32, bytes: &[u8]) -> Result<(List<Bytes>, &[u8]), RowRead>
    ensures { GivesIfMemory (λ x. (x.0, x.1.now)) result (many_at text_at count bytes.now) }
{
    let mut lines = List::new(alloc);
    let mut rest = bytes;
    for _ in 0..count {
        let (line, after) = text(alloc, rest)?;
        lines.push(line)?;
        rest = after;
    }
    Ok((lines, rest))
}

/// Appends a text.
#[tactic(auto, unfolding(crate::specs::Parsing::text))]
pub fn put_text(to: &mut Bytes, bytes: &Bytes) -> Result<(), NoMemory>
    requires { FitsText bytes.now }
    ensures { OnOk result (to.new ≡ to.old ++ parsing.text bytes.now) }
{
    put_n4(to, bytes.as_slice().len() as u32)?;
    to.append(bytes.as_slice())
}

/// Appends lines.
pub fn put_lines(to: &mut Bytes, lines: &List<Bytes>) -> Result<(), NoMemory>
    requires { FitsLines lines.now }
    ensures { OnOk result (to.new ≡ to.old ++ tables.lines lines.now) }
{
    put_n4(to, lines.as_slice().len() as u32)?;
    for line in lines.as_slice() {
        put_text(to, line)?;
    }
    Ok(())
}
