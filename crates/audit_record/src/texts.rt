//! Texts and bytes, copied and decoded by the values of their fields.
//!
//! A text stands between quotes, is absent by the word `(null)`, or is pairs of hex digits. It is put in place of another,
//! whose memory it uses if it stands between quotes. The answer says whether it was read: not if the value isn't spelled so,
//! or if it isn't there and must be; then the text is any.
ghost use Rattle.std.specs.Prelude.{◌≡◌, Some, IsSome, IfOk, OnOk, option_map};
ghost use Rattle.std.specs.Option.{option_and_then};
ghost use Rattle.audit_lex.specs.Values.{text_of, quoted_text, bytes_of};
ghost use Rattle.audit_lex.specs.LineFields.{text_if_there};
ghost use Rattle.audit_record.specs.Reading.{if_read};

use audit_lex::{is_bytes, quoted};
use flow_base::{Bytes, NoMemory};
use hex::FromHexError;
use std::alloc::Global;

/// Bytes that must be there.
pub fn needed_bytes(alloc: Global, value: Option<&[u8]>) -> Result<Option<Bytes>, NoMemory>
    ensures { IfOk result (λ bytes. bytes
        ≡ option_and_then bytes_of (option_map (λ text. text.now) value.entry)) }
{
    match value {
        Some(value) => read_bytes(alloc, value),
        None => Ok(None),
    }
}

/// A text that must be there. One that is absent by its word is read as `None`.
pub fn needed_text(
    alloc: Global,
    value: Option<&[u8]>,
    text: &mut Option<Bytes>,
) -> Result<bool, NoMemory>
    ensures { IfOk result (λ read. if_read read text.new
        ≡ option_and_then text_of (option_map (λ text. text.now) value.entry)) }
{
    match value {
        Some(value) => read_text(alloc, value, text),
        None => Ok(false),
    }
}

/// A text, if it is there.
pub fn offered_text(
    alloc: Global,
    value: Option<&[u8]>,
    text: &mut Option<Bytes>,
) -> Result<bool, NoMemory>
    ensures { IfOk result (λ read. if_read read text.new
        ≡ text_if_there (option_map (λ text. text.now) value.entry)) }
{
    match value {
        Some(value) => read_text(alloc, value, text),
        None => {
            *text = None;
            Ok(true)
        }
    }
}

/// Bytes in the memory of others, in place of these.
pub fn refill(room: &mut Bytes, bytes: &[u8]) -> Result<(), NoMemory>
    ensures { OnOk result (room.new ≡ bytes.now) }
{
    room.clear();
    room.append(bytes)
}

// The text that a value spells.
fn read_text(alloc: Global, value: &[u8], text: &mut Option<Bytes>) -> Result<bool, NoMemory>
    ensures { IfOk result (λ read. if_read read text.new ≡ text_of value.now) }
{
    match value {
        [b'"', ..] => read_quoted(alloc, value, text),
        b"(null)" => {
            *text = None;
            Ok(true)
        }
        _ => read_hex(alloc, value, text),
    }
}

// The text between quotes.
fn read_quoted(alloc: Global, value: &[u8], text: &mut Option<Bytes>) -> Result<bool, NoMemory>
    ensures { IfOk result (λ read. if_read read text.new
        ≡ option_map Some (quoted_text value.now)) }
{
    match quoted(value) {
        Some(inner) => {
            put_text(alloc, inner, text)?;
            Ok(true)
        }
        None => Ok(false),
    }
}

// A text in the memory of another, if there is one.
fn put_text(alloc: Global, inner: &[u8], text: &mut Option<Bytes>) -> Result<(), NoMemory>
    ensures { OnOk result (text.new ≡ Some inner.now) }
{
    match text {
        Some(room) => refill(room, inner),
        None => {
            *text = Some(Bytes::from_slice(alloc, inner)?);
            Ok(())
        }
    }
}

// The text in hex digits.
#[inline(never)]
fn read_hex(alloc: Global, value: &[u8], text: &mut Option<Bytes>) -> Result<bool, NoMemory>
    ensures { IfOk result (λ read. if_read read text.new
        ≡ option_map Some (bytes_of value.now)) }
{
    match read_bytes(alloc, value)? {
        Some(bytes) => {
            *text = Some(bytes);
            Ok(true)
        }
        None => Ok(false),
    }
}

// The bytes that a value spells.
fn read_bytes(alloc: Global, value: &[u8]) -> Result<Option<Bytes>, NoMemory>
    ensures { IfOk result (λ bytes. bytes ≡ bytes_of value.now) }
{
    if !is_bytes(value) {
        return Ok(None);
    }
    let bytes = decode(alloc, value)?;
    Ok(Some(bytes))
}

// The bytes of pairs of hex digits.
fn decode(alloc: Global, value: &[u8]) -> Result<Bytes, NoMemory>
    requires { IsSome (bytes_of value.now) }
    ensures { IfOk result (λ bytes. bytes_of value.now ≡ Some bytes) }
{
    match hex::decode(alloc, value) {
        Ok(bytes) => Ok(Bytes::from_vec(bytes)),
        Err(FromHexError::OutOfMemory) => Err(NoMemory),
        Err(_) => unreachable!(),
    }
}
