//! Lines with another value.
ghost use Rattle.std.specs.Prelude.{◌≡◌, ◌++◌, ◌∷◌, [], IfOk};
ghost use Rattle.std.specs.List.{list_all};
ghost use Rattle.order_text.specs.Seen.{stamp_seen};
ghost use Rattle.order_rules.specs.Texts.{is_plain, written_text, is_lead_byte, is_lead, value_of, before_byte, rewrite_from, rewrite_rest, rewrite_line};

use flow_base::{Bytes, NoMemory};
use order_text::{Rewrite, Stamp, at_first, read_stamp};
use std::alloc::Global;

/// A line with another value in the first field after its stamp, if that has this name and not this value.
pub fn rewrite_line(
    alloc: Global,
    name: &[u8],
    value: &[u8],
    line: &[u8],
) -> Result<Option<Rewrite>, NoMemory>
    ensures { IfOk result (λ made. made ≡ rewrite_line name.now value.now line.now) }
{
    match read_stamp(line) {
        Some(stamp) => rewrite_rest(alloc, name, value, &stamp),
        None => Ok(None),
    }
}

fn rewrite_rest(
    alloc: Global,
    name: &[u8],
    value: &[u8],
    stamp: &Stamp<'_>,
) -> Result<Option<Rewrite>, NoMemory>
    ensures { IfOk result (λ made. made ≡ rewrite_rest name.now value.now (stamp_seen stamp.now)) }
{
    match at_first(b'=', stamp.rest) {
        Some((front, text)) => rewrite_from(alloc, name, value, front, text),
        None => Ok(None),
    }
}

fn rewrite_from(
    alloc: Global,
    name: &[u8],
    value: &[u8],
    front: &[u8],
    text: &[u8],
) -> Result<Option<Rewrite>, NoMemory>
    ensures { IfOk result (λ made. made ≡ rewrite_from name.now value.now (front.now, text.now)) }
{
    let old = value_of(text);
    if !is_lead(name, front) || old == value {
        return Ok(None);
    }
    let mut made = Bytes::from_slice(alloc, front)?;
    made.append(b"=")?;
    made.append(value)?;
    Ok(Some(Rewrite {
        len: front.len() + 1 + old.len(),
        text: made,
    }))
}

// Whether nothing but a colon, blanks and the name of a field stands there.
fn is_lead(name: &[u8], front: &[u8]) -> bool
    ensures { result ≡ is_lead name.now front.now }
{
    front.ends_with(name) && are_lead_bytes(&front[..front.len() - name.len()])
}

fn are_lead_bytes(text: &[u8]) -> bool
    ensures { result ≡ list_all is_lead_byte text.now }
{
    text.iter().all(|byte| *byte == b':' || *byte == b' ')
}

// The value that a text begins with.
fn value_of(text: &[u8]) -> &[u8]
    ensures { result.now ≡ value_of text.now }
{
    before_byte(0x1d, before_byte(b' ', text))
}

// What stands before the first such byte, or the whole text.
fn before_byte(byte: u8, text: &[u8]) -> &[u8]
    ensures { result.now ≡ before_byte byte text.now }
{
    match at_first(byte, text) {
        Some((before, _)) => before,
        None => text,
    }
}

/// A text as the kernel writes it.
pub fn written_text(alloc: Global, text: &[u8]) -> Result<Bytes, NoMemory>
    ensures { IfOk result (λ made. made ≡ written_text text.now) }
{
    if are_plain(text) {
        return quoted(alloc, text);
    }
    let digits = hex::encode_upper(alloc, text)?;
    Ok(Bytes::from_vec(digits.into_bytes()))
}

fn quoted(alloc: Global, text: &[u8]) -> Result<Bytes, NoMemory>
    ensures { IfOk result (λ made. made ≡ 34 ∷ (text.now ++ 34 ∷ [])) }
{
    let mut made = Bytes::from_slice(alloc, b"\"")?;
    made.append(text)?;
    made.append(b"\"")?;
    Ok(made)
}

fn are_plain(text: &[u8]) -> bool
    ensures { result ≡ list_all is_plain text.now }
{
    text.iter().all(|byte| is_plain(*byte))
}

fn is_plain(byte: u8) -> bool
    ensures { result ≡ is_plain byte }
{
    33 <= byte && byte <= 126 && byte != b'"'
}
