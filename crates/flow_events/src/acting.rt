//! What an event that is under way asks the tables.
//!
//! An event sees its process, has births and moves, and then at most one act of another kind. So after its first act
//! the process is in one life, and holds what one process holds in the tables: itself, or its parent if the see
//! linked them.
//!
//! The numbers of lives and births that acts leave aren't at their end, but a store might say such ones. They stay there.
ghost use Rattle.std.specs.Prelude.{◌≡◌, ◌<◌, ◌^◌, ◌-◌, ◌∷◌, List, Some, IfOk, false};
ghost use Rattle.acts.specs.declared.act.Act.{Act};
ghost use Rattle.acts.specs.declared.act.Act.TheVariants as act;
ghost use Rattle.acts.specs.declared.act.Thing.TheVariants as thing;
ghost use Rattle.acts.specs.Births.{born, file_key, path_or_none};
ghost use Rattle.acts.specs.Keys.{object_key, held_key, thing_key};
ghost use Rattle.acts.specs.Flows.{between, link_of};
ghost use Rattle.proc_table.specs.Table.{Table, standing_of, at};
ghost use Rattle.fd_table.specs.Table.{AddressesAs};
ghost use Rattle.flow_events.specs.Lives.{LivesBelow};
ghost use Rattle.flow_events.specs.Acting.{ByBirths, ByDescriptors, ByEvent, ByLives, SeesHolder, SeesLife, SeesLink, is_process, process_of};
ghost use Rattle.flow_events.specs.Added.{HasTwoEnds};

use crate::births::{Births, Fresh};
use acts::{FileRef, Link, Object, Thing, copy_key, only_live_pids_hold, sees_hand_on};
use fd_table::Fds;
use flow_base::{Bytes, FileId, How, Key, NoMemory};
use proc_table::Procs;
use std::alloc::Global;

/// The process of an event: its life, and the process whose descriptors it has.
#[derive(Clone, Copy)]
pub struct Acting {
    pub pid: u32,
    pub life: u64,
    pub holder: u32,
}

/// The process once it is seen.
pub fn see_acting(procs: &Procs, pid: u32, ppid: u32) -> Acting
    ensures pid { result.pid ≡ pid }
    ensures life { SeesLife procs.now pid ppid result.life }
    ensures held { SeesHolder procs.now pid ppid result.holder }
{
    sees_hand_on();
    only_live_pids_hold();
    if let Some(life) = procs.life(pid) {
        return Acting {
            pid,
            life,
            holder: pid,
        };
    }
    let life = next_life(procs, pid);
    let is_linked = ppid != pid && procs.life(ppid).is_some();
    Acting {
        pid,
        life,
        holder: if is_linked { ppid } else { pid },
    }
}

/// The link of the see: from its parent, if the see begins a life and the parent is another pid and live.
pub fn see_link(procs: &Procs, pid: u32, ppid: u32) -> Option<Link>
    ensures link { SeesLink procs.now pid ppid result }
    ensures ends { HasTwoEnds result }
{
    if ppid == pid || procs.life(pid).is_some() {
        return None;
    }
    let parent = procs.life(ppid)?;
    let life = next_life(procs, pid);
    Some(Link {
        from: Key::Process {
            pid: ppid,
            life: parent,
        },
        to: Key::Process { pid, life },
        how: How::Fork,
    })
}

// The number of the next life of a pid.
fn next_life(procs: &Procs, pid: u32) -> u64
    ensures { LivesBelow procs.now (2 ^ 64 - 1)
        → result ≡ (standing_of (at procs.now pid)).beginnings }
{
    match procs.at(pid) {
        Some(last) => last.life.saturating_add(1),
        None => 0,
    }
}

// How often a file number was born.
#[tactic(auto, using(crate::proofs::Numbers::born_both))]
fn born(births: &Births, fresh: &Fresh, id: FileId) -> u64
    ensures born { ByBirths births.now fresh.now (λ acts. result ≡ born acts id) }
    ensures few { ByBirths births.now fresh.now (λ acts. result < 2 ^ 64 - 1) }
{
    births.count(id).saturating_add(fresh.count(id))
}

/// The key of a file.
pub fn file_key(
    alloc: Global,
    births: &Births,
    fresh: &Fresh,
    file: &FileRef,
) -> Result<Key, NoMemory>
    ensures { ByBirths births.now fresh.now
        (λ acts. IfOk result (λ made. made ≡ file_key acts file.now)) }
{
    match file.file {
        Some(id) => Ok(Key::Inode {
            file: id,
            born: born(births, fresh, id),
        }),
        None => Ok(Key::Path {
            path: path_or_none(alloc, &file.path)?,
        }),
    }
}

#[tactic(auto, using(crate::proofs::Numbers::birth_counts))]
/// The key of a file that is born, once its birth counts.
pub fn birth_key(
    alloc: Global,
    births: &Births,
    fresh: &Fresh,
    file: &FileRef,
) -> Result<Key, NoMemory>
    ensures { ByBirths births.now fresh.now
        (λ acts. IfOk result (λ made. made ≡ file_key (act.Birth file.now ∷ acts) file.now)) }
{
    match file.file {
        Some(id) => Ok(Key::Inode {
            file: id,
            born: born(births, fresh, id).saturating_add(1),
        }),
        None => Ok(Key::Path {
            path: path_or_none(alloc, &file.path)?,
        }),
    }
}

// A copy of the path, or no bytes.
fn path_or_none(alloc: Global, path: &Option<Bytes>) -> Result<Bytes, NoMemory>
    ensures { IfOk result (λ made. made ≡ path_or_none path.now) }
{
    match path {
        Some(path) => path.copy(),
        None => Ok(Bytes::new(alloc)),
    }
}

// The key of an object that is held.
fn object_key(fds: &Fds, object: &Object) -> Result<Key, NoMemory>
    ensures { (acts : List Act) → AddressesAs fds.now acts
        → IfOk result (λ made. made ≡ object_key acts object.now) }
{
    match object {
        Object::File(key) => copy_key(key),
        Object::Pipe(act) => Ok(Key::Made { act: *act }),
        Object::Sock(act) => match fds.address(*act) {
            Some(bytes) => Ok(Key::Address {
                bytes: bytes.copy()?,
            }),
            None => Ok(Key::Made { act: *act }),
        },
    }
}

// The key of what a descriptor of the process holds, or of a descriptor of which nothing is known.
fn held_key(fds: &Fds, acting: &Acting, fd: u32) -> Result<Key, NoMemory>
    ensures { ByDescriptors fds.now acting.now
        (λ acts. IfOk result (λ made. made ≡ thing_key acts acting.now.pid (thing.Fd fd))) }
{
    match fds.held(acting.holder, fd) {
        Some(object) => object_key(fds, object),
        None => Ok(Key::Lost {
            pid: acting.pid,
            life: acting.life,
            fd,
        }),
    }
}

/// The key of a thing that the process names.
pub fn thing_key(
    alloc: Global,
    fds: &Fds,
    births: &Births,
    fresh: &Fresh,
    acting: &Acting,
    what: &Thing,
) -> Result<Key, NoMemory>
    ensures { (procs : Table) → ByEvent procs fds.now births.now fresh.now acting.now
        (λ acts. IfOk result (λ made. made ≡ thing_key acts acting.now.pid what.now)) }
{
    match what {
        Thing::Fd(fd) => held_key(fds, acting, *fd),
        Thing::File(file) => file_key(alloc, births, fresh, file),
        Thing::Address(bytes) => Ok(Key::Address {
            bytes: bytes.copy()?,
        }),
    }
}

/// Inward is from the thing to the process. A process is no thing.
pub fn between(inward: bool, thing: Key, acting: &Acting, how: How) -> Option<Link>
    ensures link { is_process thing ≡ false
        → result ≡ Some (between inward thing (process_of acting.now) how) }
    ensures ends { HasTwoEnds result }
{
    if matches!(&thing, Key::Process { .. }) {
        return None;
    }
    let process = Key::Process {
        pid: acting.pid,
        life: acting.life,
    };
    let (from, to) = if inward {
        (thing, process)
    } else {
        (process, thing)
    };
    Some(Link { from, to, how })
}

/// The link of a fork: to the child, unless the child is the caller or had this parent already.
pub fn fork_link(procs: &Procs, acting: &Acting, child: u32) -> Option<Link>
    ensures link { LivesBelow procs.now (2 ^ 64 - 1) → ByLives procs.now acting.now
        (λ acts. result ≡ link_of acts (act.Fork acting.now.pid child)) }
    ensures ends { HasTwoEnds result }
{
    if child == acting.pid {
        return None;
    }
    let life = match procs.at(child) {
        None => 0,
        Some(last) if last.live && last.awaits == Some(acting.pid) => {
            if last.linked {
                return None;
            }
            last.life
        }
        Some(last) => last.life.saturating_add(1),
    };
    Some(Link {
        from: Key::Process {
            pid: acting.pid,
            life: acting.life,
        },
        to: Key::Process { pid: child, life },
        how: How::Fork,
    })
}
