//! Lines as they are written.
ghost use Rattle.std.specs.Prelude.{◌≡◌, ◌≤◌, ◌++◌, length, is_some, IfOk};
ghost use Rattle.order_text.specs.Stamp.{line_of};
ghost use Rattle.order_text.specs.Seen.{stamp_seen};
ghost use Rattle.order_text.specs.Undo.{raised, risen, rewritten, fitting, written_by};

use crate::mark::{last_mark, write_change, write_mark};
use crate::rewrite::{Rewrite, fitting};
use crate::stamp::Stamp;
use flow_base::{Bytes, NoMemory};

/// Appends a line of this stamp as it is written after times up to this one, in milliseconds and as a text, with a rewrite
/// if a mark can keep what that replaces. Says whether it could.
pub fn write_stamped(
    out: &mut Bytes,
    time: &[u8],
    ms: u64,
    line: &[u8],
    stamp: &Stamp<'_>,
    change: Option<Rewrite>,
) -> Result<bool, NoMemory>
    ensures text { IfOk result (λ _. out.new ≡ out.old
        ++ written_by time.now ms line.now (stamp_seen stamp.now) (fitting change stamp.now.rest.now)) }
    ensures told { IfOk result (λ told. told ≡ is_some (fitting change stamp.now.rest.now)) }
{
    match fitting(change, stamp.rest) {
        None => {
            write_plain(out, time, ms, line, stamp)?;
            Ok(false)
        }
        Some(rewrite) => {
            write_rewritten(out, time, ms, stamp, &rewrite)?;
            Ok(true)
        }
    }
}

// Appends a line of this stamp, with a greater time if its own would fall.
fn write_plain(
    out: &mut Bytes,
    time: &[u8],
    ms: u64,
    line: &[u8],
    stamp: &Stamp<'_>,
) -> Result<(), NoMemory>
    ensures { IfOk result (λ _. out.new
        ≡ out.old ++ written_by time.now ms line.now (stamp_seen stamp.now) None) }
{
    if stamp.ms < ms {
        return write_raised(out, time, ms, stamp);
    }
    if last_mark(stamp.rest).is_some() {
        return write_raised(out, stamp.time, stamp.ms, stamp);
    }
    out.append(line)
}

// Appends the line of a stamp with this time, and the mark that keeps the time before.
fn write_raised(out: &mut Bytes, time: &[u8], ms: u64, stamp: &Stamp<'_>) -> Result<(), NoMemory>
    ensures { IfOk result (λ _. out.new
        ≡ out.old ++ line_of (raised (stamp_seen stamp.now) time.now ms)) }
{
    let made = Stamp { time, ms, ..*stamp };
    write_parts(out, &made)?;
    write_mark(out, stamp.time, stamp.serial)
}

// Appends the line of a stamp with a rewrite, and the mark that keeps what stood there.
fn write_rewritten(
    out: &mut Bytes,
    time: &[u8],
    ms: u64,
    stamp: &Stamp<'_>,
    rewrite: &Rewrite,
) -> Result<(), NoMemory>
    requires { rewrite.now.len ≤ length stamp.now.rest.now }
    ensures { IfOk result (λ _. out.new
        ≡ out.old ++ line_of (rewritten (stamp_seen stamp.now) time.now ms rewrite.now)) }
{
    let made = risen(stamp, time, ms);
    let text = rewrite.text.as_slice();
    write_parts(out, &Stamp { rest: text, ..made })?;
    out.append(&stamp.rest[rewrite.len..])?;
    write_change(out, stamp, text.len(), &stamp.rest[..rewrite.len])
}

// The parts of a line with this time, if theirs is less.
fn risen<'a>(stamp: &Stamp<'a>, time: &'a [u8], ms: u64) -> Stamp<'a>
    ensures { stamp_seen result ≡ risen (stamp_seen stamp.now) time.now ms }
{
    if stamp.ms >= ms {
        return *stamp;
    }
    Stamp { time, ms, ..*stamp }
}

/// Appends the line that has these parts.
pub fn write_parts(out: &mut Bytes, stamp: &Stamp<'_>) -> Result<(), NoMemory>
    ensures { IfOk result (λ _. out.new ≡ out.old ++ line_of (stamp_seen stamp.now)) }
{
    out.append(stamp.front)?;
    out.append(b"(")?;
    out.append(stamp.time)?;
    out.append(b":")?;
    out.append(stamp.serial)?;
    out.append(b")")?;
    out.append(stamp.rest)
}
