//! Names of descriptors.
//!
//!     /dev/fd/N, /proc/self/fd/N, /proc/thread-self/fd/N   the descriptor N of the process that uses the name
//!     /proc/PID/fd/N                                       that of the process PID
//!     /dev/stdin, /dev/stdout, /dev/stderr                 the descriptors 0, 1 and 2 of the process that uses the name
//!
//! An open of such a name of a pipe gives another end of that pipe, so it is a copy of the descriptor.
ghost use Rattle.std.specs.Prelude.{◌≡◌, None, option_map};
ghost use Rattle.order_text.specs.Seen.{stamp_seen};
ghost use Rattle.order_lines.specs.Own as names;

use crate::address::before_byte;
use audit_lex::dec32;
use order_text::{Stamp, at_first};

/// A descriptor below 256, of this process, or of the one that uses its name.
#[derive(Clone, Copy, Debug, PartialEq, Eq)]
pub struct Own {
    pub fd: u8,
    pub pid: Option<u32>,
}

/// The descriptor that the first text between quotes names.
pub fn own_in(text: &[u8]) -> Option<Own>
    ensures { result ≡ names.own_in text.now }
{
    let (_, rest) = at_first(b'"', text)?;
    own_of(before_byte(b'"', rest))
}

/// Whether a line of this stamp is the record of a path that names a descriptor.
pub fn names_own(stamp: &Stamp<'_>) -> bool
    ensures { result ≡ names.names_own (stamp_seen stamp.now) }
{
    stamp.front.ends_with(b"type=PATH msg=audit") && own_in(stamp.rest).is_some()
}

// The descriptor that a name means.
fn own_of(name: &[u8]) -> Option<Own>
    ensures { result ≡ names.own_of name.now }
{
    match own_fd(name) {
        Some(fd) => Some(Own { fd, pid: None }),
        None => in_process(name),
    }
}

// The descriptor of the process that uses the name.
fn own_fd(name: &[u8]) -> Option<u8>
    ensures { result ≡ names.own_fd name.now }
{
    match standard(name) {
        Some(fd) => Some(fd),
        None => listed(name),
    }
}

// The descriptor of a standard stream.
fn standard(name: &[u8]) -> Option<u8>
    ensures { result ≡ names.standard name.now }
{
    if name == b"/dev/stdin".as_slice() {
        return Some(0);
    }
    if name == b"/dev/stdout".as_slice() {
        return Some(1);
    }
    if name == b"/dev/stderr".as_slice() {
        return Some(2);
    }
    None
}

// The descriptor whose number stands in a folder of the process's own descriptors.
fn listed(name: &[u8]) -> Option<u8>
    ensures { result ≡ names.listed name.now }
{
    if let Some(text) = name.strip_prefix(b"/dev/fd/") {
        return fd_of(text);
    }
    if let Some(text) = name.strip_prefix(b"/proc/self/fd/") {
        return fd_of(text);
    }
    fd_of(name.strip_prefix(b"/proc/thread-self/fd/")?)
}

// The descriptor of a process by its number.
fn in_process(name: &[u8]) -> Option<Own>
    ensures { result ≡ names.in_process name.now }
{
    let (digits, rest) = at_first(b'/', name.strip_prefix(b"/proc/")?)?;
    let pid = dec32(digits)?;
    let fd = fd_of(rest.strip_prefix(b"fd/")?)?;
    Some(Own { fd, pid: Some(pid) })
}

// The number below 256 that decimal digits spell.
fn fd_of(text: &[u8]) -> Option<u8>
    ensures { result ≡ names.fd_of text.now }
{
    let number = dec32(text)?;
    if number < 256 {
        Some(number as u8)
    } else {
        None
    }
}
