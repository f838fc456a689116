//! The acts of an event.
ghost use Rattle.std.specs.Prelude.{◌≡◌, [], ◌++◌, OnOk, IfOk};
ghost use Rattle.call_acts.specs.Acts.{kind_acts, acts_by, row_of, event_acts, event_call, is_unmapped};

use crate::answers::fd;
use crate::calls::{Call, Row, call_of, flags_of, row_at};
use crate::descriptors::{
    accept, bind, close, connect, control, dup, dup2, dup3, open_pair, open_socket,
};
use crate::files::{alter_fd, alter_path, make, remove, rename};
use crate::open::open;
use crate::processes::{clone, exec, exit, fork};
use crate::records::call;
use crate::transfers::{map, pass, read, receive, send, write};
use acts::Act;
use audit_record::{Record, Syscall};
use flow_base::{Bytes, Limits, List, NoMemory};
use record_join::EventView;
use std::alloc::Global;

/// Makes the list the acts of an event, in order. Each call shows its caller first, also where it was refused or isn't in
/// the table. The acts that the list had before are dropped, and their memory is used again. If allocation fails, the
/// list may have any acts.
pub fn acts(
    alloc: Global,
    event: &EventView<'_>,
    limits: &Limits,
    done: &mut List<Act>,
) -> Result<(), NoMemory>
    ensures { OnOk result (done.new ≡ event_acts limits.now.path event.now.records.now) }
{
    let room = empty(done);
    if let Some(call) = call(event.records) {
        done.push(see(call, room)?)?;
        act(alloc, limits.path, event.records, call, done)?;
    }
    Ok(())
}

// Takes all acts out of the list. The program of a see among them is returned, since its memory serves the next see.
fn empty(done: &mut List<Act>) -> Option<Bytes>
    ensures { done.new ≡ [] }
{
    let mut room = None;
    while let Some(act) = done.pop() {
        room = program_of(act).or(room);
    }
    room
}

// The program of a see.
fn program_of(act: Act) -> Option<Bytes> {
    match act {
        Act::See { exe, .. } => exe,
        _ => None,
    }
}

/// The kind of call of an event's call.
pub fn event_call(event: &EventView<'_>) -> Option<Call>
    ensures { result ≡ event_call event.now.records.now }
{
    let call = call(event.records)?;
    call_of(call.arch, call.number)
}

/// Whether the event has a call that isn't in the table.
pub fn is_unmapped(event: &EventView<'_>) -> bool
    ensures { result ≡ is_unmapped event.now.records.now }
{
    match call(event.records) {
        Some(call) => row_of(call).is_none(),
        None => false,
    }
}

fn row_of(call: &Syscall) -> Option<Row>
    ensures { result ≡ row_of call.now }
{
    row_at(call.arch, call.number)
}

// The call shows its caller, whose program is put into the memory of an earlier one.
fn see(call: &Syscall, room: Option<Bytes>) -> Result<Act, NoMemory>
    ensures { IfOk result (λ act. act ≡ Act.See call.now.pid call.now.ppid call.now.exe) }
{
    let exe = match &call.exe {
        Some(exe) => Some(copy_into(room, exe)?),
        None => None,
    };
    Ok(Act::See {
        pid: call.pid,
        ppid: call.ppid,
        exe,
    })
}

// A copy of a text, in the memory of an earlier text if there is one.
fn copy_into(room: Option<Bytes>, text: &Bytes) -> Result<Bytes, NoMemory>
    ensures { IfOk result (λ made. made ≡ text.now) }
{
    match room {
        Some(mut made) => {
            made.clear();
            made.append(text.as_slice())?;
            Ok(made)
        }
        None => text.copy(),
    }
}

fn act(
    alloc: Global,
    limit: usize,
    records: &[Record],
    call: &Syscall,
    done: &mut List<Act>,
) -> Result<(), NoMemory>
    ensures { OnOk result (done.new ≡ done.old
        ++ acts_by limit records.now call.now (row_of call.now)) }
{
    match row_of(call) {
        Some(row) => {
            let flags = flags_of(row.flags, call);
            act_by(alloc, limit, records, call, flags, row.call, done)
        }
        None => Ok(()),
    }
}

// What a call of a kind did, with these flags.
fn act_by(
    alloc: Global,
    limit: usize,
    records: &[Record],
    call: &Syscall,
    flags: u64,
    kind: Call,
    done: &mut List<Act>,
) -> Result<(), NoMemory>
    ensures { OnOk result (done.new ≡ done.old
        ++ kind_acts limit records.now call.now flags kind) }
{
    match kind {
        Call::Read => read(call, done),
        Call::Receive => receive(alloc, records, call, done),
        Call::Write => write(call, done),
        Call::Send => send(alloc, records, call, done),
        Call::SendFile => pass(call, call.a1, call.a0, done),
        Call::Tee => pass(call, call.a0, call.a1, done),
        Call::Splice => pass(call, call.a0, call.a2, done),
        Call::Open => open(alloc, limit, records, call, flags, done),
        Call::Close => close(call, done),
        Call::Dup => dup(call, done),
        Call::Dup2 => dup2(call, done),
        Call::Dup3 => dup3(call, flags, done),
        Call::Fcntl => control(call, done),
        Call::Pair => open_pair(records, call, flags, done),
        Call::Socket => open_socket(call, flags, done),
        Call::Bind => bind(alloc, records, call, done),
        Call::Connect => connect(alloc, records, call, done),
        Call::Accept => accept(alloc, records, call, flags, done),
        Call::Exec => exec(alloc, limit, records, call, done),
        Call::Fork => fork(call, done),
        Call::Clone => clone(call, flags, done),
        Call::Exit => exit(call, done),
        Call::Map => map(records, call, flags, done),
        Call::AlterPath => alter_path(alloc, limit, records, call, done),
        Call::AlterFd => alter_fd(alloc, limit, records, call, done),
        Call::Rename => rename(alloc, limit, records, call, done),
        Call::Remove => remove(alloc, limit, records, call, done),
        Call::MakePath => make(alloc, limit, records, call, done),
    }
}
