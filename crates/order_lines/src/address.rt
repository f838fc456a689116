//! Addresses of the kernel in netlink sockets.
ghost use Rattle.std.specs.Prelude.{◌≡◌, option_map, IfOk};
ghost use Rattle.order_text.specs.Seen.{stamp_seen};
ghost use Rattle.order_lines.specs.Rules.{is_address, before_byte, value_at, has_port_zero, is_kernel, kernel_at, kernel_after, kernel_in, no_address, join_of};

use flow_base::{Bytes, NoMemory};
use order_text::{Rewrite, Stamp, at_first};
use std::alloc::Global;

/// No address, to which a line with the address of the kernel is rewritten.
pub fn join_of(alloc: Global, stamp: &Stamp<'_>) -> Result<Option<Rewrite>, NoMemory>
    ensures { IfOk result (λ change. change ≡ join_of (stamp_seen stamp.now)) }
{
    match kernel_in(stamp) {
        None => Ok(None),
        Some(digits) => {
            let text = Bytes::from_slice(alloc, b": saddr=0100")?;
            Ok(Some(Rewrite {
                len: 8 + digits.len(),
                text,
            }))
        }
    }
}

// The digits of the address of the kernel, if a line has it.
fn kernel_in<'a>(stamp: &Stamp<'a>) -> Option<&'a [u8]>
    ensures { option_map (λ digits. digits.now) result ≡ kernel_in (stamp_seen stamp.now) }
{
    let text = stamp.rest.strip_prefix(b": saddr=")?;
    kernel_after(stamp.front, text)
}

// The same, for a text in the record of an address.
fn kernel_after<'a>(front: &[u8], text: &'a [u8]) -> Option<&'a [u8]>
    ensures { option_map (λ digits. digits.now) result ≡ kernel_after front.now text.now }
{
    if !is_address(front) {
        return None;
    }
    let value = value_at(text);
    if is_kernel(value) { Some(value) } else { None }
}

// Whether a line is the record of an address.
fn is_address(front: &[u8]) -> bool
    ensures { result ≡ is_address front.now }
{
    front.ends_with(b"type=SOCKADDR msg=audit")
}

/// The value at the beginning of a text.
pub fn value_at(text: &[u8]) -> &[u8]
    ensures { result.now ≡ value_at text.now }
{
    before_byte(0x1d, before_byte(b' ', text))
}

/// What stands before the first such byte, or the whole text.
pub fn before_byte(byte: u8, text: &[u8]) -> &[u8]
    ensures { result.now ≡ before_byte byte text.now }
{
    match at_first(byte, text) {
        Some((before, _)) => before,
        None => text,
    }
}

// Whether a value spells the address of the kernel: family 16, port id 0.
fn is_kernel(value: &[u8]) -> bool
    ensures { result ≡ is_kernel value.now }
{
    value.starts_with(b"1000") && has_port_zero(value)
}

// Whether the digits of the port id are zeros.
fn has_port_zero(value: &[u8]) -> bool
    ensures { result ≡ has_port_zero value.now }
{
    match value.get(8..16) {
        Some(port) => port == b"00000000".as_slice(),
        None => false,
    }
}
