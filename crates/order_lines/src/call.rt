//! Calls of the 32-bit gate.
ghost use Rattle.std.specs.Prelude.{◌≡◌, option_map, IfOk};
ghost use Rattle.order_text.specs.Seen.{stamp_seen};
ghost use Rattle.order_lines.specs.Rules.{is_call, native_with, call_after, call_in, call_change, compat_of};

use crate::gate::native_of;
use audit_lex::dec32;
use flow_base::{Bytes, NoMemory};
use itoa::Buffer;
use order_text::{Rewrite, Stamp, at_first};
use std::alloc::Global;

/// The 64-bit call that a line of a 32-bit call is rewritten to.
pub fn compat_of(alloc: Global, stamp: &Stamp<'_>) -> Result<Option<Rewrite>, NoMemory>
    ensures { IfOk result (λ change. change ≡ compat_of (stamp_seen stamp.now)) }
{
    match call_in(stamp) {
        None => Ok(None),
        Some((digits, native)) => {
            let rewrite = call_change(alloc, digits, native)?;
            Ok(Some(rewrite))
        }
    }
}

// The digits of the number of a 32-bit call, and the number of the 64-bit call that stands for it.
fn call_in<'a>(stamp: &Stamp<'a>) -> Option<(&'a [u8], u32)>
    ensures { option_map (λ found. (found.0.now, found.1)) result ≡ call_in (stamp_seen stamp.now) }
{
    let text = stamp.rest.strip_prefix(b": arch=40000003 syscall=")?;
    call_after(stamp.front, text)
}

// The same, for a number that stands before a blank in the record of a call.
fn call_after<'a>(front: &[u8], text: &'a [u8]) -> Option<(&'a [u8], u32)>
    ensures { option_map (λ found. (found.0.now, found.1)) result ≡ call_after front.now text.now }
{
    if !is_call(front) {
        return None;
    }
    let (digits, _) = at_first(b' ', text)?;
    let number = dec32(digits)?;
    let native = native_of(number)?;
    Some((digits, native))
}

// Whether a line is the record of a call.
fn is_call(front: &[u8]) -> bool
    ensures { result ≡ is_call front.now }
{
    front.ends_with(b"type=SYSCALL msg=audit")
}

// The 64-bit call in place of a 32-bit one whose number has these digits.
fn call_change(alloc: Global, digits: &[u8], native: u32) -> Result<Rewrite, NoMemory>
    ensures { IfOk result (λ made. made ≡ call_change (digits.now, native)) }
{
    let mut text = Bytes::from_slice(alloc, b": arch=c000003e syscall=")?;
    let mut buffer = Buffer::new();
    text.append(buffer.format(native).as_bytes())?;
    Ok(Rewrite {
        len: 24 + digits.len(),
        text,
    })
}
