//! Calls that move data through descriptors.
ghost use Rattle.std.specs.Prelude.{◌≡◌, ◌++◌, IfOk, OnOk};
ghost use Rattle.call_acts.specs.Answers.{fd};
ghost use Rattle.call_acts.specs.Records.{address};
ghost use Rattle.call_acts.specs.Transfers.{inward, outward, peer, reads, receives, writes, sends, passes, maps, maps_fd};

use crate::answers::{fd, has, is_ok, moved};
use crate::records::{address, mapped};
use acts::{Act, Thing};
use audit_record::{Record, Syscall};
use flow_base::{How, List, NoMemory};
use std::alloc::Global;

// The flag of a mapping that lies in no file, and the flag of a mapping that others share.
const ANONYMOUS: u64 = 0x20;

const SHARED: u64 = 1;
// The protection of a mapping that can be written.
const WRITABLE: u64 = 2;

/// Data goes from a thing to the caller.
pub fn inward(call: &Syscall, how: How, what: Thing) -> Act
    ensures { result ≡ inward call.now how what }
{
    Act::Move {
        pid: call.pid,
        inward: true,
        how,
        what,
    }
}

/// Data goes from the caller to a thing.
pub fn outward(call: &Syscall, how: How, what: Thing) -> Act
    ensures { result ≡ outward call.now how what }
{
    Act::Move {
        pid: call.pid,
        inward: false,
        how,
        what,
    }
}

/// A read takes from its descriptor.
pub fn read(call: &Syscall, done: &mut List<Act>) -> Result<(), NoMemory>
    ensures { OnOk result (done.new ≡ done.old ++ reads call.now) }
{
    if moved(call) {
        done.push(inward(call, How::Read, Thing::Fd(fd(call.a0))))?;
    }
    Ok(())
}

/// A receive takes from the address of its peer, or else from its descriptor.
pub fn receive(
    alloc: Global,
    records: &[Record],
    call: &Syscall,
    done: &mut List<Act>,
) -> Result<(), NoMemory>
    ensures { OnOk result (done.new ≡ done.old ++ receives records.now call.now) }
{
    if moved(call) {
        let peer = peer(alloc, records, call)?;
        done.push(inward(call, How::Read, peer))?;
    }
    Ok(())
}

/// A write gives to its descriptor.
pub fn write(call: &Syscall, done: &mut List<Act>) -> Result<(), NoMemory>
    ensures { OnOk result (done.new ≡ done.old ++ writes call.now) }
{
    if moved(call) {
        done.push(outward(call, How::Write, Thing::Fd(fd(call.a0))))?;
    }
    Ok(())
}

/// A send gives to the address of its peer, or else to its descriptor.
pub fn send(
    alloc: Global,
    records: &[Record],
    call: &Syscall,
    done: &mut List<Act>,
) -> Result<(), NoMemory>
    ensures { OnOk result (done.new ≡ done.old ++ sends records.now call.now) }
{
    if moved(call) {
        let peer = peer(alloc, records, call)?;
        done.push(outward(call, How::Write, peer))?;
    }
    Ok(())
}

// The address of the peer, if the event has one, else the descriptor of the first argument.
fn peer(alloc: Global, records: &[Record], call: &Syscall) -> Result<Thing, NoMemory>
    ensures { IfOk result (λ thing. thing ≡ peer call.now (address records.now)) }
{
    match address(alloc, records)? {
        Some(bytes) => Ok(Thing::Address(bytes)),
        None => Ok(Thing::Fd(fd(call.a0))),
    }
}

/// What moved is read from one descriptor and written to another.
pub fn pass(call: &Syscall, from: u64, to: u64, done: &mut List<Act>) -> Result<(), NoMemory>
    ensures { OnOk result (done.new ≡ done.old ++ passes call.now (fd from) (fd to)) }
{
    if moved(call) {
        done.push(inward(call, How::Read, Thing::Fd(fd(from))))?;
        done.push(outward(call, How::Write, Thing::Fd(fd(to))))?;
    }
    Ok(())
}

/// A mapping of a file reads from the descriptor that its record names, and may write to it.
pub fn map(
    records: &[Record],
    call: &Syscall,
    flags: u64,
    done: &mut List<Act>,
) -> Result<(), NoMemory>
    ensures { OnOk result (done.new ≡ done.old ++ maps records.now call.now flags) }
{
    if !is_ok(call) || has(flags, ANONYMOUS) {
        return Ok(());
    }
    match mapped(records) {
        Some(mapped) => map_fd(call, flags, mapped, done),
        None => Ok(()),
    }
}

// What is written to a shared mapping that can be written goes to its descriptor.
fn map_fd(call: &Syscall, flags: u64, mapped: u32, done: &mut List<Act>) -> Result<(), NoMemory>
    ensures { OnOk result (done.new ≡ done.old ++ maps_fd call.now flags mapped) }
{
    done.push(inward(call, How::Read, Thing::Fd(mapped)))?;
    if has(flags, SHARED) && has(call.a2, WRITABLE) {
        done.push(outward(call, How::Write, Thing::Fd(mapped)))?;
    }
    Ok(())
}
