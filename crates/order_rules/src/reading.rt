//! What a line says: a call, a path, a text, an address.
ghost use Rattle.std.specs.Prelude.{◌≡◌, IfOk, option_map};
ghost use Rattle.std.specs.List.{list_any, slice_split};
ghost use Rattle.std.specs.Option.{option_and_then};
ghost use Rattle.audit_lex.specs.FieldTable.{name_of};
ghost use Rattle.audit_lex.specs.Values as values;
ghost use Rattle.order_rules.specs.Calls as calls;
ghost use Rattle.order_rules.specs.Lines as lines;
ghost use Rattle.order_rules.specs.Lines.{has_text, number_in, low_in, text_in, bytes_in, args_in, is_done, is_begun, act_in, call_in, is_blank, is_directory_mode, has_directory_mode, directory_name};

use crate::acts::{act_with, asks_with};
use crate::call::{Act, Args, Call};
use audit_lex::{Field, UsedLine, dec32, hex64, is_bytes, quoted};
use flow_base::{Bytes, NoMemory};
use hex::FromHexError;
use std::alloc::Global;

/// The call of a call's record.
pub fn call_in(used: &UsedLine<'_>) -> Option<Call>
    ensures { result ≡ call_in used.now.line.now }
{
    let pid = number_in(used, Field::Pid)?;
    let number = number_in(used, Field::Syscall)?;
    if !has_text(used, Field::Arch, b"c000003e") {
        return None;
    }
    let done = is_done(used);
    let args = args_in(used);
    Some(Call {
        pid,
        act: act_in(used, number, done, args),
        asks: asks_with(number, done, is_begun(used), args),
    })
}

// What a call of these arguments does, which is done or not.
fn act_in(used: &UsedLine<'_>, number: u32, done: bool, args: Args) -> Act
    requires done { done ≡ is_done used.now.line.now }
    requires args { args ≡ args_in used.now.line.now }
    ensures { result ≡ act_in used.now.line.now number }
{
    // The end of a process has no answer.
    if number == 231 {
        return Act::Ends;
    }
    if !done {
        return Act::Nothing;
    }
    act_with(number, number_in(used, Field::Exit), args)
}

// The arguments of a call.
fn args_in(used: &UsedLine<'_>) -> Args
    ensures { result ≡ args_in used.now.line.now }
{
    Args {
        first: low_in(used, Field::A0),
        second: low_in(used, Field::A1),
        third: low_in(used, Field::A2),
        fourth: low_in(used, Field::A3),
    }
}

// Whether a call has succeeded.
fn is_done(used: &UsedLine<'_>) -> bool
    ensures { result ≡ is_done used.now.line.now }
{
    has_text(used, Field::Success, b"yes")
}

// Whether a call has begun what isn't done so far.
fn is_begun(used: &UsedLine<'_>) -> bool
    ensures { result ≡ is_begun used.now.line.now }
{
    has_text(used, Field::Exit, b"-115")
}

/// Whether a path is that of what its call opened, by its record.
pub fn is_path_opened(used: &UsedLine<'_>) -> bool
    ensures { result ≡ lines.is_path_opened used.now.line.now }
{
    has_text(used, Field::Nametype, b"NORMAL") || has_text(used, Field::Nametype, b"CREATE")
}

/// The name that a path's record has, if it is a directory.
pub fn directory_name(alloc: Global, used: &UsedLine<'_>) -> Result<Option<Bytes>, NoMemory>
    ensures { IfOk result (λ name. name ≡ directory_name used.now.line.now) }
{
    if has_directory_mode(used.line) {
        text_in(alloc, used, Field::Name)
    } else {
        Ok(None)
    }
}

// Whether a word of a line begins as the mode of a directory does.
fn has_directory_mode(line: &[u8]) -> bool
    ensures { result ≡ has_directory_mode line.now }
{
    for word in line.split(|byte| *byte == b' ') {
        if word.starts_with(b"mode=04") {
            return true;
        }
    }
    false
}

// Whether a field has this text.
fn has_text(used: &UsedLine<'_>, field: Field, text: &[u8]) -> bool
    ensures { result ≡ has_text used.now.line.now (name_of field) text.now }
{
    match used.field(field) {
        None => false,
        Some(found) => found == text,
    }
}

// The number that a field spells.
fn number_in(used: &UsedLine<'_>, field: Field) -> Option<u32>
    ensures { result ≡ number_in used.now.line.now (name_of field) }
{
    dec32(used.field(field)?)
}

// The low 32 bits of the number that a field spells in hex digits.
fn low_in(used: &UsedLine<'_>, field: Field) -> Option<u32>
    ensures { result ≡ low_in used.now.line.now (name_of field) }
{
    let number = hex64(used.field(field)?)?;
    Some((number % 0x1_0000_0000) as u32)
}

/// The text that a field spells; none if it is absent by its word.
pub fn text_in(alloc: Global, used: &UsedLine<'_>, field: Field) -> Result<Option<Bytes>, NoMemory>
    ensures { IfOk result (λ text. text ≡ text_in used.now.line.now (name_of field)) }
{
    match used.field(field) {
        Some(value) => text_of(alloc, value),
        None => Ok(None),
    }
}

fn text_of(alloc: Global, value: &[u8]) -> Result<Option<Bytes>, NoMemory>
    ensures { IfOk result (λ text. text ≡ lines.inner (values.text_of value.now)) }
{
    match value {
        [b'"', ..] => copied(alloc, quoted(value)),
        b"(null)" => Ok(None),
        _ => bytes_of(alloc, value),
    }
}

/// A copy of a text, if there is one.
pub fn copied(alloc: Global, text: Option<&[u8]>) -> Result<Option<Bytes>, NoMemory>
    ensures { IfOk result (λ made. made ≡ option_map (λ t. t.now) text.entry) }
{
    match text {
        Some(text) => {
            let made = Bytes::from_slice(alloc, text)?;
            Ok(Some(made))
        }
        None => Ok(None),
    }
}

/// The bytes that a field spells.
pub fn bytes_in(alloc: Global, used: &UsedLine<'_>, field: Field) -> Result<Option<Bytes>, NoMemory>
    ensures { IfOk result (λ bytes. bytes ≡ bytes_in used.now.line.now (name_of field)) }
{
    match used.field(field) {
        Some(value) => bytes_of(alloc, value),
        None => Ok(None),
    }
}

// The bytes that pairs of hex digits spell.
fn bytes_of(alloc: Global, value: &[u8]) -> Result<Option<Bytes>, NoMemory>
    ensures { IfOk result (λ bytes. bytes ≡ values.bytes_of value.now) }
{
    if !is_bytes(value) {
        return Ok(None);
    }
    match hex::decode(alloc, value) {
        Ok(bytes) => Ok(Some(Bytes::from_vec(bytes))),
        Err(FromHexError::OutOfMemory) => Err(NoMemory),
        Err(_) => Ok(None),
    }
}
