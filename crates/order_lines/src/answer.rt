//! The record of a call with another answer.
//!
//!     : arch=c000003e syscall=57 success=yes exit=7 a0=0 ..        a fork that has begun the process 31337
//!     : arch=c000003e syscall=57 success=yes exit=31337 a0=0 ..    becomes this
ghost use Rattle.std.specs.Prelude.{◌≡◌, ◌++◌, decimal, drop, option_map, IfOk};
ghost use Rattle.order_lines.specs.Answers.{after_word, without_word, after_number, after_arch, answer_at, changed_front, answer_before, with_answer};

use crate::address::value_at;
use flow_base::{Bytes, NoMemory};
use itoa::Buffer;
use order_text::{Rewrite, at_first};
use std::alloc::Global;

/// How the text after a stamp is rewritten if the call of the record has this answer, beside another rewrite.
pub fn with_answer(
    alloc: Global,
    rest: &[u8],
    answer: u32,
    change: Option<Rewrite>,
) -> Result<Option<Rewrite>, NoMemory>
    ensures { IfOk result (λ made. made ≡ with_answer rest.now answer change) }
{
    match answer_at(rest) {
        None => Ok(change),
        Some(tail) => {
            let made = answer_before(alloc, rest, answer, change, tail)?;
            Ok(Some(made))
        }
    }
}

// A record with another answer, which begins this text.
fn answer_before(
    alloc: Global,
    rest: &[u8],
    answer: u32,
    change: Option<Rewrite>,
    tail: &[u8],
) -> Result<Rewrite, NoMemory>
    ensures { IfOk result (λ made. made ≡ answer_before rest.now answer change tail.now) }
{
    let at = rest.len().saturating_sub(tail.len());
    let mut text = changed_front(alloc, change, &rest[..at])?;
    let mut buffer = Buffer::new();
    text.append(buffer.format(answer).as_bytes())?;
    Ok(Rewrite {
        len: at + value_at(tail).len(),
        text,
    })
}

// What stands before an answer after a rewrite of the record's beginning.
fn changed_front(alloc: Global, change: Option<Rewrite>, front: &[u8]) -> Result<Bytes, NoMemory>
    ensures { IfOk result (λ made. made ≡ changed_front change front.now) }
{
    match change {
        None => Bytes::from_slice(alloc, front),
        Some(rewrite) => {
            let mut text = rewrite.text;
            text.append(after(rewrite.len, front))?;
            Ok(text)
        }
    }
}

// What stands after this many bytes.
fn after(len: usize, text: &[u8]) -> &[u8]
    ensures { result.now ≡ drop len text.now }
{
    match text.get(len..) {
        Some(rest) => rest,
        None => b"".as_slice(),
    }
}

// The text that begins with the answer of a call that has succeeded.
fn answer_at(rest: &[u8]) -> Option<&[u8]>
    ensures { option_map (λ t. t.now) result ≡ answer_at rest.now }
{
    let (_, number) = after_word(b": arch=", rest)?;
    let (_, text) = after_word(b"syscall=", number)?;
    without_word(b"per=", text).strip_prefix(b"success=yes exit=")
}

// A word after these bytes, and what stands after it and a blank.
fn after_word<'a>(lead: &[u8], text: &'a [u8]) -> Option<(&'a [u8], &'a [u8])>
    ensures { option_map (λ p. (p.0.now, p.1.now)) result ≡ after_word lead.now text.now }
{
    at_first(b' ', text.strip_prefix(lead)?)
}

// A text without its first word and a blank, if that begins so.
fn without_word<'a>(lead: &[u8], text: &'a [u8]) -> &'a [u8]
    ensures { result.now ≡ without_word lead.now text.now }
{
    match after_word(lead, text) {
        Some((_, after)) => after,
        None => text,
    }
}
