//! Calls that copy, close and mark descriptors, and those that make pipes and sockets.
ghost use Rattle.std.specs.Prelude.{◌≡◌, ◌++◌, OnOk};
ghost use Rattle.call_acts.specs.Descriptors.{closes, dups, dups_to, dups_with_flags, copies_to, copies_to_other, controls, opens_pair, opens_socket, gets_address, binds, connects, accepts};
ghost use Rattle.call_acts.specs.Records.{address};

use crate::answers::{answered, fd, goes_on, has, is_ok};
use crate::records::{address, pair};
use acts::{Act, Opens};
use audit_record::{Record, Syscall};
use flow_base::{List, NoMemory};
use std::alloc::Global;

/// The flag that a descriptor closes at an exec, in the flags of all calls that open descriptors.
pub const CLOEXEC: u64 = 0x80000;

// The commands of fcntl that copy a descriptor, copy it with the mark, and set or take away the mark.
const COPY: u32 = 0;

const COPY_MARKED: u32 = 1030;

const MARK: u32 = 2;
// The mark among the flags of a descriptor.
const MARKED: u64 = 1;

/// A close.
pub fn close(call: &Syscall, done: &mut List<Act>) -> Result<(), NoMemory>
    ensures { OnOk result (done.new ≡ done.old ++ closes call.now) }
{
    if is_ok(call) {
        done.push(Act::Close {
            pid: call.pid,
            fd: fd(call.a0),
        })?;
    }
    Ok(())
}

/// A dup copies, also where its answer is the same descriptor. A copy has no mark.
pub fn dup(call: &Syscall, done: &mut List<Act>) -> Result<(), NoMemory>
    ensures { OnOk result (done.new ≡ done.old ++ dups call.now) }
{
    match answered(call) {
        Some(to) => copy_to(call, to, false, done),
        None => Ok(()),
    }
}

/// A dup2 copies to another descriptor, and does nothing if both are the same.
pub fn dup2(call: &Syscall, done: &mut List<Act>) -> Result<(), NoMemory>
    ensures { OnOk result (done.new ≡ done.old ++ dups_to call.now) }
{
    match answered(call) {
        Some(to) => copy_to_other(call, to, false, done),
        None => Ok(()),
    }
}

/// A dup3 is a dup2 with flags.
pub fn dup3(call: &Syscall, flags: u64, done: &mut List<Act>) -> Result<(), NoMemory>
    ensures { OnOk result (done.new ≡ done.old ++ dups_with_flags call.now flags) }
{
    match answered(call) {
        Some(to) => copy_to_other(call, to, has(flags, CLOEXEC), done),
        None => Ok(()),
    }
}

// The descriptor of the first argument is copied.
fn copy_to(call: &Syscall, to: u32, cloexec: bool, done: &mut List<Act>) -> Result<(), NoMemory>
    ensures { OnOk result (done.new ≡ done.old ++ copies_to call.now cloexec to) }
{
    done.push(Act::Copy {
        pid: call.pid,
        from: fd(call.a0),
        to,
        cloexec,
    })
}

fn copy_to_other(
    call: &Syscall,
    to: u32,
    cloexec: bool,
    done: &mut List<Act>,
) -> Result<(), NoMemory>
    ensures { OnOk result (done.new ≡ done.old ++ copies_to_other call.now cloexec to) }
{
    if fd(call.a0) == to {
        Ok(())
    } else {
        copy_to(call, to, cloexec, done)
    }
}

/// An fcntl copies a descriptor or marks it, by its command.
pub fn control(call: &Syscall, done: &mut List<Act>) -> Result<(), NoMemory>
    ensures { OnOk result (done.new ≡ done.old ++ controls call.now) }
{
    match (fd(call.a1), answered(call)) {
        (COPY, Some(to)) => copy_to(call, to, false, done),
        (COPY_MARKED, Some(to)) => copy_to(call, to, true, done),
        (MARK, _) if is_ok(call) => done.push(Act::Mark {
            pid: call.pid,
            fd: fd(call.a0),
            cloexec: has(call.a2, MARKED),
        }),
        _ => Ok(()),
    }
}

/// A pipe or a pair of sockets opens two descriptors.
pub fn open_pair(
    records: &[Record],
    call: &Syscall,
    flags: u64,
    done: &mut List<Act>,
) -> Result<(), NoMemory>
    ensures { OnOk result (done.new ≡ done.old ++ opens_pair records.now call.now flags) }
{
    match pair(records) {
        Some((first, second)) if is_ok(call) => done.push(Act::SetBoth {
            pid: call.pid,
            first,
            second,
            cloexec: has(flags, CLOEXEC),
        }),
        _ => Ok(()),
    }
}

/// A socket opens a descriptor.
pub fn open_socket(call: &Syscall, flags: u64, done: &mut List<Act>) -> Result<(), NoMemory>
    ensures { OnOk result (done.new ≡ done.old ++ opens_socket call.now flags) }
{
    match answered(call) {
        Some(fd) => done.push(Act::Set {
            pid: call.pid,
            fd,
            what: Opens::Socket {
                address: None,
                listener: None,
            },
            cloexec: has(flags, CLOEXEC),
        }),
        None => Ok(()),
    }
}

/// A bind gives its socket an address.
pub fn bind(
    alloc: Global,
    records: &[Record],
    call: &Syscall,
    done: &mut List<Act>,
) -> Result<(), NoMemory>
    ensures { OnOk result (done.new ≡ done.old ++ binds records.now call.now) }
{
    if is_ok(call) {
        give_address(alloc, records, call, done)
    } else {
        Ok(())
    }
}

/// A connect gives its socket an address, also where it goes on by itself.
pub fn connect(
    alloc: Global,
    records: &[Record],
    call: &Syscall,
    done: &mut List<Act>,
) -> Result<(), NoMemory>
    ensures { OnOk result (done.new ≡ done.old ++ connects records.now call.now) }
{
    if is_ok(call) || goes_on(call) {
        give_address(alloc, records, call, done)
    } else {
        Ok(())
    }
}

fn give_address(
    alloc: Global,
    records: &[Record],
    call: &Syscall,
    done: &mut List<Act>,
) -> Result<(), NoMemory>
    ensures { OnOk result (done.new ≡ done.old ++ gets_address call.now (address records.now)) }
{
    match address(alloc, records)? {
        Some(bytes) => done.push(Act::Address {
            pid: call.pid,
            fd: fd(call.a0),
            bytes,
        }),
        None => Ok(()),
    }
}

/// An accept opens a descriptor, whose listener is that of the first argument.
pub fn accept(
    alloc: Global,
    records: &[Record],
    call: &Syscall,
    flags: u64,
    done: &mut List<Act>,
) -> Result<(), NoMemory>
    ensures { OnOk result (done.new ≡ done.old ++ accepts records.now call.now flags) }
{
    let Some(to) = answered(call) else {
        return Ok(());
    };
    let address = address(alloc, records)?;
    done.push(Act::Set {
        pid: call.pid,
        fd: to,
        what: Opens::Socket {
            address,
            listener: Some(fd(call.a0)),
        },
        cloexec: has(flags, CLOEXEC),
    })
}
