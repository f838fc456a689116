//! What an act links, by going over all acts before it.
ghost use Rattle.std.specs.Prelude.{◌≡◌, ◌<◌, ◌^◌, ◌-◌, ◌∷◌, ℕ, false, List, Option, Some, IfOk};
ghost use Rattle.acts.specs.declared.act.Act.TheVariants as act;
ghost use Rattle.acts.specs.Flows.{between, link_of};
ghost use Rattle.acts.specs.LookBack.{so_far, any_opens};

use crate::act::{Act, Taken};
use crate::link::Link;
use crate::look_back::keys::{key_of, process_key, thing_key};
use crate::look_back::lives::{forked, is_live, stands_after};
use flow_base::{How, Key, NoMemory};
use std::alloc::Global;

/// What the next act links after these, oldest first, if nothing was put at a descriptor.
pub fn link_of(alloc: Global, before: &[Taken], act: &Act) -> Result<Option<Link>, NoMemory>
    requires none_opened { any_opens (so_far before.now) ≡ false }
    ensures { IfOk result (λ link. link ≡ link_of (so_far before.now) act.now) }
{
    match act {
        Act::See { pid, ppid, .. } => Ok(parent_link(before, *pid, *ppid)),
        Act::Fork { pid, child } => Ok(child_link(before, *pid, *child)),
        Act::Move {
            pid,
            inward,
            how,
            what,
        } => {
            let thing = thing_key(alloc, before, *pid, what)?;
            Ok(Some(between(*inward, thing, process_key(before, *pid), *how)))
        }
        _ => Ok(None),
    }
}

/// The link of a see: from its parent, if the see begins a life and the parent is another pid and live.
fn parent_link(before: &[Taken], pid: u32, ppid: u32) -> Option<Link>
    ensures { (exe : Option (List ℕ))
        → result ≡ link_of (so_far before.now) (act.See pid ppid exe) }
{
    let standing = stands_after(before, pid);
    if standing.live || ppid == pid || !is_live(before, ppid) {
        return None;
    }
    Some(Link {
        from: process_key(before, ppid),
        to: Key::Process {
            pid,
            life: standing.beginnings,
        },
        how: How::Fork,
    })
}

/// The link of a fork: to the child, unless the child is the caller or had this parent already.
fn child_link(before: &[Taken], pid: u32, child: u32) -> Option<Link>
    ensures { result ≡ link_of (so_far before.now) (act.Fork pid child) }
{
    let standing = stands_after(before, child);
    let claimed = standing.live && standing.awaits == Some(pid);
    if child == pid || (claimed && standing.linked) {
        return None;
    }
    Some(Link {
        from: process_key(before, pid),
        to: key_of(child, forked(standing, pid)),
        how: How::Fork,
    })
}

/// Inward is from the thing to the process.
fn between(inward: bool, thing: Key, process: Key, how: How) -> Link
    ensures { result ≡ between inward thing process how }
{
    if inward {
        Link {
            from: thing,
            to: process,
            how,
        }
    } else {
        Link {
            from: process,
            to: thing,
            how,
        }
    }
}
