//! Lines as they were.
ghost use Rattle.std.specs.Prelude.{◌≡◌, ◌++◌, drop, IfOk};
ghost use Rattle.order_text.specs.Stamp.{line_of};
ghost use Rattle.order_text.specs.Seen.{stamp_seen, kept_seen};
ghost use Rattle.order_text.specs.Undo.{restored, undone};

use crate::mark::{Kept, last_mark};
use crate::stamp::{Stamp, read_stamp};
use crate::write::write_parts;
use flow_base::{Bytes, NoMemory};
use std::alloc::Global;

/// A line as it was before it was changed; another line as it is.
pub fn undo(alloc: Global, line: &[u8]) -> Result<Bytes, NoMemory>
    ensures { IfOk result (λ made. made ≡ undone line.now) }
{
    let mut made = Bytes::new(alloc);
    write_undone(&mut made, line)?;
    Ok(made)
}

/// Appends a line as it was before it was changed; another line as it is.
pub fn write_undone(out: &mut Bytes, line: &[u8]) -> Result<(), NoMemory>
    ensures { IfOk result (λ _. out.new ≡ out.old ++ undone line.now) }
{
    let Some(stamp) = read_stamp(line) else {
        return out.append(line);
    };
    match last_mark(stamp.rest) {
        None => out.append(line),
        Some((rest, kept)) => write_restored(out, &stamp, rest, kept),
    }
}

// Appends the line of a stamp with what a mark keeps and with what stands before the mark.
fn write_restored(
    out: &mut Bytes,
    stamp: &Stamp<'_>,
    rest: &[u8],
    kept: Kept<'_>,
) -> Result<(), NoMemory>
    ensures { IfOk result (λ _. out.new ≡ out.old ++ line_of (record (stamp_seen stamp.now) {
      time = (kept_seen kept.entry).time;
      rest = restored rest.now (kept_seen kept.entry).part;
    })) }
{
    let before = Stamp {
        time: kept.time,
        ..*stamp
    };
    match kept.part {
        None => write_parts(out, &Stamp { rest, ..before }),
        Some((count, part)) => {
            write_parts(
                out,
                &Stamp {
                    rest: part,
                    ..before
                },
            )?;
            out.append(after(rest, count as usize))
        }
    }
}

// What stands after this many bytes.
fn after(text: &[u8], count: usize) -> &[u8]
    ensures { result.now ≡ drop count text.now }
{
    match text.get(count..) {
        Some(rest) => rest,
        None => &text[..0],
    }
}
