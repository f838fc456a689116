//! What an act does to descriptors, with the memory for it.
ghost use Rattle.std.specs.Prelude.{◌≡◌, ◌≤◌, ◌<◌, ◌+◌, ◌^◌, ℕ};
ghost use Rattle.acts.specs.declared.held.Object.TheVariants as object;
ghost use Rattle.fd_table.specs.Table.{held_at};
ghost use Rattle.flow_events.specs.Changes.{SetsBoth, changed, need};

use acts::{Held, Object};
use fd_table::Fds;

/// What an act does to descriptors.
#[derive(Drop)]
pub enum Change {
    Nothing,
    /// The descriptor holds this.
    Set {
        pid: u32,
        fd: u32,
        held: Held,
    },
    /// Two descriptors hold the ends of the pipe that this act made.
    Pair {
        pid: u32,
        first: u32,
        second: u32,
        act: u64,
        cloexec: bool,
    },
    Close {
        pid: u32,
        fd: u32,
    },
    Mark {
        pid: u32,
        fd: u32,
        cloexec: bool,
    },
    /// The marked descriptors close.
    Exec {
        pid: u32,
    },
    /// All descriptors close.
    Clear {
        pid: u32,
    },
    /// The process holds what its parent holds, and that alone.
    Share {
        pid: u32,
        parent: u32,
    },
}

/// How many changes of the table it may take.
pub fn need(change: &Change) -> usize
    ensures need { result ≡ need change.now }
    ensures few { result < 2 ^ 63 }
{
    match change {
        Change::Set { .. } => 1,
        Change::Pair { .. } => 2,
        Change::Close { .. } => 1,
        Change::Mark { .. } => 1,
        Change::Share { .. } => 1,
        _ => 0,
    }
}

/// Does the change. It takes no memory.
pub fn make_change(fds: &mut Fds, change: Change)
    requires room { need change ≤ fds.old.spare }
    ensures held { (p n : ℕ) → held_at fds.new p n ≡ changed change (held_at fds.old) p n }
    ensures addresses { fds.new.addresses ≡ fds.old.addresses }
    ensures spare { fds.old.spare ≤ fds.new.spare + need change }
    ensures address_spare { fds.new.address_spare ≡ fds.old.address_spare }
{
    match change {
        Change::Nothing => {}
        Change::Set { pid, fd, held } => fds.set(pid, fd, held),
        Change::Pair {
            pid,
            first,
            second,
            act,
            cloexec,
        } => set_both(
            fds,
            pid,
            first,
            second,
            end_of(act, cloexec),
            end_of(act, cloexec),
        ),
        Change::Close { pid, fd } => fds.close(pid, fd),
        Change::Mark { pid, fd, cloexec } => fds.mark(pid, fd, cloexec),
        Change::Exec { pid } => fds.on_exec(pid),
        Change::Clear { pid } => fds.clear(pid),
        Change::Share { pid, parent } => fds.share(pid, parent),
    }
}

// Two descriptors hold the same.
fn set_both(fds: &mut Fds, pid: u32, first: u32, second: u32, held: Held, again: Held)
    requires room { 2 ≤ fds.old.spare }
    requires same { again ≡ held }
    ensures held { SetsBoth fds.old fds.new pid first second held }
    ensures addresses { fds.new.addresses ≡ fds.old.addresses }
    ensures spare { fds.old.spare ≤ fds.new.spare + 2 }
    ensures address_spare { fds.new.address_spare ≡ fds.old.address_spare }
{
    fds.set(pid, second, again);
    fds.set(pid, first, held);
}

// An end of the pipe that this act made.
fn end_of(act: u64, cloexec: bool) -> Held
    ensures { result ≡ record { object = object.Pipe act; cloexec = cloexec } }
{
    Held {
        object: Object::Pipe(act),
        cloexec,
    }
}
