//! What each act of an event does to descriptors and addresses, and which name it gives.
ghost use Rattle.std.specs.Prelude.{◌≡◌, ◌∷◌, ℕ, List, Option, Bool, IfOk, length, option_copied};
ghost use Rattle.acts.specs.declared.act.Act.{Act};
ghost use Rattle.acts.specs.declared.act.Act.TheVariants as act;
ghost use Rattle.acts.specs.declared.act.Opens.TheVariants as opens;
ghost use Rattle.acts.specs.Admitted.{Admitted};
ghost use Rattle.acts.specs.Holding.{holds, opened, address_of, addressed, socket_held};
ghost use Rattle.flow_base.specs.declared.types.Key.TheVariants as key;
ghost use Rattle.name_text.specs.Addresses.{text_of};
ghost use Rattle.acts.specs.Standing.{is_awaiting};
ghost use Rattle.proc_table.specs.Table.{StandsFor, standing_of, at};
ghost use Rattle.flow_events.specs.Acting.{ByBirths, ByDescriptors, ByLives, DoesAs, address_through, exe_name, pair_if, path_name, stated};
ghost use Rattle.flow_events.specs.Entering.{pair_of};
ghost use Rattle.flow_events.specs.Standing.{GivesAddress};

use crate::acting::{Acting, file_key};
use crate::births::{Births, Fresh};
use crate::change::Change;
use crate::given::Given;
use crate::plan::NewAddress;
use acts::{
    FileRef, Held, Object, Opens, copy_key, forks_hand_on, only_live_pids_hold, sees_hand_on,
    sockets_are_of_acts,
};
use fd_table::Fds;
use flow_base::{Bytes, Key, NoMemory};
use proc_table::Procs;
use std::alloc::Global;

/// A see that links a process gives it what its parent holds.
pub fn see_change(procs: &Procs, pid: u32, ppid: u32) -> Change
    ensures { (before : List Act) (exe : Option (List ℕ)) → StandsFor procs.now before
        → Admitted before → DoesAs result before (act.See pid ppid exe) }
{
    sees_hand_on();
    only_live_pids_hold();
    if procs.life(pid).is_some() {
        return Change::Nothing;
    }
    if ppid == pid {
        return Change::Nothing;
    }
    if procs.life(ppid).is_none() {
        return Change::Nothing;
    }
    Change::Share { pid, parent: ppid }
}

/// A fork that begins a life gives it what the caller holds.
pub fn fork_change(procs: &Procs, acting: &Acting, child: u32) -> Change
    ensures { ByLives procs.now acting.now
        (λ acts. DoesAs result acts (act.Fork acting.now.pid child)) }
{
    forks_hand_on();
    if child == acting.pid || is_awaiting(procs, child, acting.pid) {
        return Change::Nothing;
    }
    Change::Share {
        pid: child,
        parent: acting.pid,
    }
}

// Whether a pid is live and awaits this parent.
fn is_awaiting(procs: &Procs, child: u32, pid: u32) -> bool
    ensures { result ≡ is_awaiting (standing_of (at procs.now child)) pid }
{
    match procs.at(child) {
        Some(last) => last.live && last.awaits == Some(pid),
        None => false,
    }
}

/// What a new descriptor opens.
pub fn opened(
    alloc: Global,
    births: &Births,
    fresh: &Fresh,
    number: u64,
    what: &Opens,
) -> Result<Object, NoMemory>
    ensures { ByBirths births.now fresh.now
        (λ acts. number ≡ length acts → IfOk result (λ object. object ≡ opened acts what.now)) }
{
    match what {
        Opens::File(file) => Ok(Object::File(file_key(alloc, births, fresh, file)?)),
        Opens::Socket { .. } => Ok(Object::Sock(number)),
    }
}

/// A copy holds what the first descriptor held, or the lost one.
pub fn copy_change(
    fds: &Fds,
    acting: &Acting,
    from: u32,
    to: u32,
    cloexec: bool,
) -> Result<Change, NoMemory>
    ensures { ByDescriptors fds.now acting.now (λ acts. IfOk result
        (λ change. DoesAs change acts (act.Copy acting.now.pid from to cloexec))) }
{
    let object = match fds.held(acting.holder, from) {
        Some(object) => object.copy()?,
        None => Object::File(Key::Lost {
            pid: acting.pid,
            life: acting.life,
            fd: from,
        }),
    };
    Ok(Change::Set {
        pid: acting.pid,
        fd: to,
        held: Held { object, cloexec },
    })
}

// The socket that a descriptor of the process holds.
fn socket_at(fds: &Fds, acting: &Acting, fd: u32) -> Option<u64>
    ensures { ByDescriptors fds.now acting.now
        (λ acts. result ≡ socket_held (holds acts acting.now.pid fd)) }
{
    match fds.held(acting.holder, fd) {
        Some(Object::Sock(act)) => Some(*act),
        _ => None,
    }
}

/// If no socket is held at a descriptor, an address puts a new socket there.
pub fn address_change(fds: &Fds, acting: &Acting, fd: u32, number: u64) -> Change
    ensures { ByDescriptors fds.now acting.now (λ acts. number ≡ length acts
        → (bytes : List ℕ) → DoesAs result acts (act.Address acting.now.pid fd bytes)) }
{
    match socket_at(fds, acting, fd) {
        Some(_) => Change::Nothing,
        None => Change::Set {
            pid: acting.pid,
            fd,
            held: Held {
                object: Object::Sock(number),
                cloexec: false,
            },
        },
    }
}

/// An address is that of the socket that is held, or of the new one.
pub fn address_at(
    fds: &Fds,
    acting: &Acting,
    fd: u32,
    number: u64,
    bytes: &Bytes,
) -> Result<Option<NewAddress>, NoMemory>
    ensures { ByDescriptors fds.now acting.now (λ acts. number ≡ length acts
        → IfOk result (λ new. GivesAddress new acts (act.Address acting.now.pid fd bytes.now))) }
{
    Ok(Some(NewAddress {
        socket: socket_or(fds, acting, fd, number),
        bytes: bytes.copy()?,
    }))
}

// The socket that a descriptor of the process holds, or else the new one.
fn socket_or(fds: &Fds, acting: &Acting, fd: u32, number: u64) -> u64
    ensures { ByDescriptors fds.now acting.now
        (λ acts. number ≡ length acts → result ≡ addressed acts acting.now.pid fd) }
{
    match socket_at(fds, acting, fd) {
        Some(socket) => socket,
        None => number,
    }
}

/// A new socket has the address that is stated, or that of its listener.
pub fn socket_address(
    fds: &Fds,
    acting: &Acting,
    number: u64,
    address: &Option<Bytes>,
    listener: Option<u32>,
) -> Result<Option<NewAddress>, NoMemory>
    ensures { ByDescriptors fds.now acting.now (λ acts. number ≡ length acts
        → (fd : ℕ) (cloexec : Bool) → IfOk result (λ new. GivesAddress new acts
        (act.Set acting.now.pid fd (opens.Socket address.now listener) cloexec))) }
{
    sockets_are_of_acts();
    match stated(fds, acting, address, listener) {
        Some(bytes) => Ok(Some(NewAddress {
            socket: number,
            bytes: bytes.copy()?,
        })),
        None => Ok(None),
    }
}

// The address that is stated, or that of the listener.
fn stated<'a>(
    fds: &'a Fds,
    acting: &Acting,
    address: &'a Option<Bytes>,
    listener: Option<u32>,
) -> Option<&'a Bytes>
    ensures { ByDescriptors fds.now acting.now (λ acts. option_copied result
        ≡ stated (address_of acts) (holds acts acting.now.pid) address.now listener) }
{
    match (address, listener) {
        (Some(bytes), _) => Some(bytes),
        (None, Some(listener)) => heard(fds, acting, listener),
        (None, None) => None,
    }
}

// The address of a listener, if it is a socket with an address.
fn heard<'a>(fds: &'a Fds, acting: &Acting, listener: u32) -> Option<&'a Bytes>
    ensures { ByDescriptors fds.now acting.now (λ acts. option_copied result
        ≡ address_through (address_of acts) (socket_held (holds acts acting.now.pid listener))) }
{
    match socket_at(fds, acting, listener) {
        Some(socket) => fds.address(socket),
        None => None,
    }
}

/// A process is named by its program, if that is known.
pub fn see_name(acting: &Acting, exe: &Option<Bytes>) -> Result<Option<Given>, NoMemory>
    ensures { IfOk result (λ given. pair_if given ≡ exe_name acting.now exe.now) }
{
    match exe {
        None => Ok(None),
        Some(exe) => Ok(Some(Given {
            key: Key::Process {
                pid: acting.pid,
                life: acting.life,
            },
            text: exe.copy()?,
        })),
    }
}
