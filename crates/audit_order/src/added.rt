//! Lines that the log lacks.
//!
//!     type=EOE msg=audit(1780992001.308:109):                             the end of an event
//!     type=SOCKADDR msg=audit(1780992001.308:109): saddr=0100<1D>ADDED=yes  the peer of an accept that didn't ask for its address
ghost use Rattle.std.specs.Prelude.{◌≡◌, IfOk, IfSome};
ghost use Rattle.order_text.specs.Laws.{IsOneLine};
ghost use Rattle.audit_order.specs.Lines.{IsEnd, IsPeer, IsAdded, Spells};

use flow_base::{Bytes, NoMemory};
use order_text::{Stamp, is_one_line, read_stamp};
use std::alloc::Global;

/// What stands before the stamp of a call's record.
const CALL: &[u8] = b"type=SYSCALL msg=audit";

/// The line that ends the event of a call, by the call's record.
pub fn end_of_call(alloc: Global, call: &[u8]) -> Result<Option<Bytes>, NoMemory>
    ensures { IfOk result (λ found. IfSome found IsEnd) }
{
    added_to(alloc, call, b"EOE", b"")
}

/// The record of the blank peer of an accept, by the call's record.
pub fn peer_of_call(alloc: Global, call: &[u8]) -> Result<Option<Bytes>, NoMemory>
    ensures { IfOk result (λ found. IfSome found IsPeer) }
{
    added_to(alloc, call, b"SOCKADDR", b"saddr=0100\x1dADDED=yes")
}

/// Whether this is the stamp of a call's record.
pub fn is_call(stamp: &Option<Stamp<'_>>) -> bool {
    match stamp {
        None => false,
        Some(stamp) => stamp.front.ends_with(CALL),
    }
}

/// Whether this is the stamp of an accept's record.
pub fn is_accept(stamp: &Option<Stamp<'_>>) -> bool {
    match stamp {
        None => false,
        Some(stamp) => {
            stamp.front.ends_with(CALL)
                && (stamp.rest.starts_with(b": arch=c000003e syscall=43 ")
                    || stamp.rest.starts_with(b": arch=c000003e syscall=288 "))
        }
    }
}

// A line of this kind in the event of a call.
fn added_to(alloc: Global, call: &[u8], kind: &[u8], says: &[u8]) -> Result<Option<Bytes>, NoMemory>
    ensures { IfOk result (λ found. IfSome found (IsAdded kind.now says.now)) }
{
    match read_stamp(call) {
        None => Ok(None),
        Some(stamp) => added_by(alloc, &stamp, kind, says),
    }
}

// The same in the event of a call of this stamp.
fn added_by(
    alloc: Global,
    stamp: &Stamp<'_>,
    kind: &[u8],
    says: &[u8],
) -> Result<Option<Bytes>, NoMemory>
    ensures { IfOk result (λ found. IfSome found (IsAdded kind.now says.now)) }
{
    match stamp.front.strip_suffix(CALL) {
        Some(node) if node.is_empty() || node.starts_with(b"node=") => {
            let line = added_line(alloc, node, kind, stamp, says)?;
            Ok(one_line(line))
        }
        _ => Ok(None),
    }
}

// A line if it is one line, as each is whose stamp is of a line.
fn one_line(line: Bytes) -> Option<Bytes>
    ensures { IfSome result (λ made. (made ≡ line) × IsOneLine made) }
{
    if is_one_line(line.as_slice()) {
        Some(line)
    } else {
        None
    }
}

// The line of this kind with the time and the serial number of a stamp.
fn added_line(
    alloc: Global,
    node: &[u8],
    kind: &[u8],
    stamp: &Stamp<'_>,
    says: &[u8],
) -> Result<Bytes, NoMemory>
    ensures { IfOk result (Spells kind.now says.now) }
{
    let mut line = Bytes::from_slice(alloc, node)?;
    line.append(b"type=")?;
    line.append(kind)?;
    line.append(b" msg=audit(")?;
    line.append(stamp.time)?;
    line.append(b":")?;
    line.append(stamp.serial)?;
    line.append(b"): ")?;
    line.append(says)?;
    Ok(line)
}
