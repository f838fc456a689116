//! What an act of an event does, of whatever kind it is, except the see that comes first.
ghost use Rattle.std.specs.Prelude.{◌≡◌, ◌^◌, ◌-◌, IfOk, length};
ghost use Rattle.acts.specs.Keys.{given};
ghost use Rattle.acts.specs.Flows.{link_of};
ghost use Rattle.name_text.specs.Addresses.{text_of};
ghost use Rattle.flow_events.specs.Lives.{LivesBelow};
ghost use Rattle.call_acts.specs.Events.{IsOf};
ghost use Rattle.flow_events.specs.Acting.{ByBirths, ByDescriptors, ByEvent, IsNoSee, DoesAs, pair_if};
ghost use Rattle.flow_events.specs.Added.{HasTwoEnds};
ghost use Rattle.flow_events.specs.Entering.{NameAlike};
ghost use Rattle.flow_events.specs.Standing.{GivesAddress};

use crate::acting::{Acting, between, fork_link, thing_key};
use crate::births::{Births, Fresh};
use crate::change::Change;
use crate::effects::{
    address_at, address_change, copy_change, fork_change, opened, socket_address,
};
use crate::given::Given;
use crate::naming::{address_name, birth_name, file_name};
use crate::plan::NewAddress;
use acts::{Act, Held, Link, Opens, Thing};
use entity_names::Entities;
use fd_table::Fds;
use flow_base::NoMemory;
use proc_table::Procs;
use std::alloc::Global;

/// What an act links.
pub fn link_of(
    alloc: Global,
    procs: &Procs,
    fds: &Fds,
    births: &Births,
    fresh: &Fresh,
    acting: &Acting,
    act: &Act,
) -> Result<Option<Link>, NoMemory>
    requires of { IsOf acting.now.pid act.now }
    ensures link { LivesBelow procs.now (2 ^ 64 - 1)
        → ByEvent procs.now fds.now births.now fresh.now acting.now
        (λ acts. IfOk result (λ link. link ≡ link_of acts act.now)) }
    ensures ends { IfOk result HasTwoEnds }
{
    match act {
        Act::See { .. } => unreachable!(),
        Act::Fork { child, .. } => Ok(fork_link(procs, acting, *child)),
        Act::Move {
            inward,
            how,
            what,
            ..
        } => {
            let thing = thing_key(alloc, fds, births, fresh, acting, what)?;
            Ok(between(*inward, thing, acting, *how))
        }
        _ => Ok(None),
    }
}

/// The name that an act gives, if its key doesn't have it.
pub fn name_of(
    alloc: Global,
    entities: &Entities,
    births: &Births,
    fresh: &Fresh,
    act: &Act,
) -> Result<Option<Given>, NoMemory>
    requires kind { IsNoSee act.now }
    ensures { ByBirths births.now fresh.now (λ acts. IfOk result
        (λ name. NameAlike entities.now (given text_of acts act.now) (pair_if name))) }
{
    match act {
        Act::See { .. } => unreachable!(),
        Act::Birth { file } => birth_name(alloc, entities, births, fresh, file),
        Act::Set {
            what: Opens::File(file),
            ..
        } => file_name(alloc, entities, births, fresh, file),
        Act::Set {
            what: Opens::Socket {
                address: Some(bytes),
                ..
            },
            ..
        } => address_name(alloc, entities, bytes),
        Act::Move {
            what: Thing::File(file),
            ..
        } => file_name(alloc, entities, births, fresh, file),
        Act::Move {
            what: Thing::Address(bytes),
            ..
        } => address_name(alloc, entities, bytes),
        Act::Address { bytes, .. } => address_name(alloc, entities, bytes),
        _ => Ok(None),
    }
}

/// What an act does to descriptors.
pub fn change_of(
    alloc: Global,
    procs: &Procs,
    fds: &Fds,
    births: &Births,
    fresh: &Fresh,
    acting: &Acting,
    act: &Act,
    number: u64,
) -> Result<Change, NoMemory>
    requires of { IsOf acting.now.pid act.now }
    ensures { ByEvent procs.now fds.now births.now fresh.now acting.now
        (λ acts. number ≡ length acts → IfOk result (λ change. DoesAs change acts act.now)) }
{
    let pid = acting.pid;
    match act {
        Act::See { .. } => unreachable!(),
        Act::Birth { .. } | Act::Move { .. } => Ok(Change::Nothing),
        Act::Set {
            fd,
            what,
            cloexec,
            ..
        } => {
            let object = opened(alloc, births, fresh, number, what)?;
            Ok(Change::Set {
                pid,
                fd: *fd,
                held: Held {
                    object,
                    cloexec: *cloexec,
                },
            })
        }
        Act::SetBoth {
            first,
            second,
            cloexec,
            ..
        } => Ok(Change::Pair {
            pid,
            first: *first,
            second: *second,
            act: number,
            cloexec: *cloexec,
        }),
        Act::Copy {
            from,
            to,
            cloexec,
            ..
        } => copy_change(fds, acting, *from, *to, *cloexec),
        Act::Close { fd, .. } => Ok(Change::Close { pid, fd: *fd }),
        Act::Mark { fd, cloexec, .. } => Ok(Change::Mark {
            pid,
            fd: *fd,
            cloexec: *cloexec,
        }),
        Act::Exec { .. } => Ok(Change::Exec { pid }),
        Act::End { .. } => Ok(Change::Clear { pid }),
        Act::Address { fd, .. } => Ok(address_change(fds, acting, *fd, number)),
        Act::Fork { child, .. } => Ok(fork_change(procs, acting, *child)),
    }
}

/// The address that an act gives a socket.
pub fn address_of(
    fds: &Fds,
    acting: &Acting,
    act: &Act,
    number: u64,
) -> Result<Option<NewAddress>, NoMemory>
    requires of { IsOf acting.now.pid act.now }
    ensures { ByDescriptors fds.now acting.now
        (λ acts. number ≡ length acts → IfOk result (λ new. GivesAddress new acts act.now)) }
{
    match act {
        Act::Set { what, .. } => match what {
            Opens::Socket { address, listener } => {
                socket_address(fds, acting, number, address, *listener)
            }
            Opens::File(_) => Ok(None),
        },
        Act::Address { fd, bytes, .. } => address_at(fds, acting, *fd, number, bytes),
        _ => Ok(None),
    }
}
