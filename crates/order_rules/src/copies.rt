//! Opens of descriptors by their names, which are written as copies.
//!
//!     : arch=c000003e syscall=257 success=yes exit=5 a0=ffffff9c a1=7ffc a2=0 ..   an open of /dev/fd/63
//!     : arch=c000003e syscall=72 success=yes exit=5 a0=3f a1=0 a2=0 ..             is fcntl(63, F_DUPFD)
ghost use Rattle.std.specs.Prelude.{◌≡◌, option_map, IfOk};
ghost use Rattle.order_rules.specs.Copies as copies;

use crate::call::{Act, Asks, Call};
use audit_lex::EventKey;
use flow_base::{Bytes, NoMemory};
use order_lines::Own;
use order_text::{Rewrite, at_first, read_stamp};
use std::alloc::Global;

/// What stands for the record of a descriptor's name: its event's call comes after it.
pub fn owning(own: Own) -> Call
    ensures { result ≡ copies.owning own }
{
    Call {
        pid: 0,
        act: Act::Nothing,
        asks: Asks::Owns { own },
    }
}

/// The descriptor that records before a call's own have named.
pub fn owned_by(asks: Asks) -> Option<Own>
    ensures { result ≡ copies.owned_by asks }
{
    match asks {
        Asks::Owns { own } => Some(own),
        _ => None,
    }
}

/// The record of a call as that of a copy, if the call has opened this descriptor by its name.
pub fn rewrite_call(
    alloc: Global,
    on: bool,
    owned: Option<Own>,
    line: &[u8],
    call: Option<Call>,
) -> Result<Option<Rewrite>, NoMemory>
    ensures { IfOk result (λ made. made ≡ copies.rewrite_call on owned line.now call) }
{
    match (owned, call) {
        (Some(own), Some(call)) if on => rewrite_open(alloc, own, line, call),
        _ => Ok(None),
    }
}

// The same, if the call is an open by the process whose descriptor it is.
fn rewrite_open(
    alloc: Global,
    own: Own,
    line: &[u8],
    call: Call,
) -> Result<Option<Rewrite>, NoMemory>
    ensures { IfOk result (λ made. made ≡ copies.open_as own line.now call.pid call.act) }
{
    match call.act {
        Act::Opens { fd: _, stays } if is_of(own, call.pid) => {
            copy_line(alloc, own.fd, stays, line)
        }
        _ => Ok(None),
    }
}

// Whether a name means a descriptor of this process, if it uses the name.
fn is_of(own: Own, pid: u32) -> bool
    ensures { result ≡ copies.is_of own pid }
{
    match own.pid {
        None => true,
        Some(of) => of == pid,
    }
}

// The record of a call as that of a copy of this descriptor.
fn copy_line(alloc: Global, fd: u8, stays: bool, line: &[u8]) -> Result<Option<Rewrite>, NoMemory>
    ensures { IfOk result (λ made. made ≡ copies.copy_line fd stays line.now) }
{
    match read_stamp(line) {
        Some(stamp) => copy_rest(alloc, fd, stays, stamp.rest),
        None => Ok(None),
    }
}

fn copy_rest(alloc: Global, fd: u8, stays: bool, rest: &[u8]) -> Result<Option<Rewrite>, NoMemory>
    ensures { IfOk result (λ made. made ≡ copies.copy_rest fd stays rest.now) }
{
    match words_of(rest) {
        Some((answer, after)) => {
            let text = copy_text(alloc, fd, stays, answer)?;
            Ok(Some(Rewrite {
                len: rest.len().saturating_sub(after.len()).saturating_sub(1),
                text,
            }))
        }
        None => Ok(None),
    }
}

// What the record of a copy says in place of what stood before its third argument.
fn copy_text(alloc: Global, fd: u8, stays: bool, answer: &[u8]) -> Result<Bytes, NoMemory>
    ensures { IfOk result (λ made. made ≡ copies.copy_text fd stays answer.now) }
{
    let mut made = Bytes::from_slice(alloc, b": arch=c000003e syscall=72 success=yes exit=")?;
    made.append(answer)?;
    made.append(b" a0=")?;
    let digits = hex::encode(alloc, &[fd])?;
    made.append(digits.as_bytes())?;
    made.append(command(stays))?;
    Ok(made)
}

// F_DUPFD, or F_DUPFD_CLOEXEC if an exec closes the copy.
fn command(stays: bool) -> &'static [u8]
    ensures { result.now ≡ copies.command stays }
{
    if stays { b" a1=0" } else { b" a1=406" }
}

// The answer of a call, and what stands after its second argument and a blank.
fn words_of(rest: &[u8]) -> Option<(&[u8], &[u8])>
    ensures { option_map (λ p. (p.0.now, p.1.now)) result ≡ copies.words_of rest.now }
{
    let (_, done) = at_first(b' ', rest.strip_prefix(b": arch=c000003e syscall=")?)?;
    let (answer, first) = at_first(b' ', done.strip_prefix(b"success=yes exit=")?)?;
    let after = after_args(first)?;
    Some((answer, after))
}

// What stands after the first two arguments of a call and a blank.
fn after_args(text: &[u8]) -> Option<&[u8]>
    ensures { option_map (λ t. t.now) result ≡ copies.after_args text.now }
{
    let (_, second) = at_first(b' ', text.strip_prefix(b"a0=")?)?;
    let (_, after) = at_first(b' ', second.strip_prefix(b"a1=")?)?;
    Some(after)
}
