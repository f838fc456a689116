//! Marks: what they keep of a line that is written with a greater time or with a part rewritten.
ghost use Rattle.std.specs.Prelude.{◌≡◌, ◌++◌, ◌∷◌, length, drop, option_map, IfOk, OnOk};
ghost use Rattle.std.specs.Option.{option_and_then};
ghost use Rattle.order_text.specs.Cut.{first_cut};
ghost use Rattle.order_text.specs.Seen.{kept_seen};
ghost use Rattle.order_text.specs.Undo.{mark_of, change_mark, kept_stamp, kept_part, part_after, kept_in, last_mark};

use crate::cut::{at_first, at_last};
use crate::stamp::Stamp;
use audit_lex::dec32;
use flow_base::{Bytes, NoMemory};
use itoa::Buffer;

/// What a mark keeps: the text of a time, and if a part was rewritten, the count of the bytes in its place and the part.
#[derive(Clone, Copy)]
pub struct Kept<'a> {
    pub time: &'a [u8],
    pub part: Option<(u32, &'a [u8])>,
}

/// Appends the byte 0x1D and the mark that keeps a stamp.
pub fn write_mark(out: &mut Bytes, time: &[u8], serial: &[u8]) -> Result<(), NoMemory>
    ensures { IfOk result (λ _. out.new ≡ out.old ++ 29 ∷ mark_of time.now serial.now) }
{
    out.append(b"\x1dWAS={ audit(")?;
    write_kept(out, time, serial)
}

// Appends a stamp and the end of its mark.
fn write_kept(out: &mut Bytes, time: &[u8], serial: &[u8]) -> Result<(), NoMemory>
    ensures { IfOk result (λ _. out.new ≡ out.old ++ kept_stamp time.now serial.now) }
{
    out.append(time)?;
    out.append(b":")?;
    out.append(serial)?;
    out.append(b") }")
}

/// Appends the byte 0x1D and the mark that keeps a stamp and a part, in whose place that many bytes stand.
pub fn write_change(
    out: &mut Bytes,
    stamp: &Stamp<'_>,
    count: usize,
    part: &[u8],
) -> Result<(), NoMemory>
    ensures { IfOk result (λ _. out.new
        ≡ out.old ++ 29 ∷ change_mark stamp.now.time.now stamp.now.serial.now count part.now) }
{
    out.append(b"\x1dWAS={ audit(")?;
    out.append(stamp.time)?;
    out.append(b":")?;
    out.append(stamp.serial)?;
    out.append(b") ")?;
    write_part(out, count, part)
}

// Appends a count of bytes, the part that they stand for, and the end of their mark.
fn write_part(out: &mut Bytes, count: usize, part: &[u8]) -> Result<(), NoMemory>
    ensures { IfOk result (λ _. out.new ≡ out.old ++ kept_part count part.now) }
{
    let mut buffer = Buffer::new();
    out.append(buffer.format(count).as_bytes())?;
    out.append(b" ")?;
    out.append(part)?;
    out.append(b" }")
}

/// What stands before the last mark, and what it keeps.
pub fn last_mark(rest: &[u8]) -> Option<(&[u8], Kept<'_>)>
    ensures { option_map (λ p. (p.0.now, kept_seen p.1)) result ≡ last_mark rest.now }
{
    let (before, mark) = at_last(0x1d, rest)?;
    let kept = kept_in(mark)?;
    Some((before, kept))
}

// What a mark keeps.
fn kept_in(mark: &[u8]) -> Option<Kept<'_>>
    ensures { option_map kept_seen result ≡ kept_in mark.now }
{
    let text = mark.strip_prefix(b"WAS={ audit(")?;
    let (time, after) = at_first(b':', text)?;
    Some(Kept {
        time,
        part: part_after(after),
    })
}

// The part that is kept after the stamp in a mark.
fn part_after(after: &[u8]) -> Option<(u32, &[u8])>
    ensures { option_map (λ p. (p.0, p.1.now)) result
        ≡ option_and_then part_after (first_cut 41 after.now) }
{
    let (_, rest) = at_first(b')', after)?;
    let text = rest.strip_prefix(b" ")?;
    let (digits, ending) = at_first(b' ', text)?;
    let count = dec32(digits)?;
    let part = ending.strip_suffix(b" }")?;
    Some((count, part))
}
