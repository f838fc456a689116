//! What one process holds, by ascending descriptors.
//!
//! The two trees of a process are walked together, digit by digit, and empty trees are passed over.
//! So a walk takes time in proportion to the nodes of the trees that it walks.
ghost use Rattle.std.specs.Prelude.{◌≡◌, ◌<◌, ◌++◌, ℕ, map, OnOk, IfOk};
ghost use Rattle.fd_table.specs.Holdings.{held_by, held_in};
ghost use Rattle.fd_table.specs.Entries.{chosen, entry_of, entries_in, leaf, room_below, Ascends};

use crate::holdings::object_at;
use crate::node::Node;
use crate::numbers::FEW;
use crate::tree::Holding;
use crate::trees::node_at;
use acts::{Held, Object};
use flow_base::{List, NoMemory};
use std::alloc::Global;

/// What one descriptor holds.
#[derive(Drop)]
pub struct FdEntry {
    pub fd: u32,
    pub held: Held,
}

/// What a walk goes through, and what it leaves out.
#[derive(Clone, Copy)]
pub struct Course<'a> {
    pub nodes: &'a [Node],
    pub objects: &'a [Object],
    /// Descriptors below this are left out.
    pub least: u32,
    /// What an exec leaves open is left out too.
    pub closed_alone: bool,
}

/// What one process holds, or only that of it which an exec closes.
pub fn entries_of(
    alloc: Global,
    nodes: &[Node],
    objects: &[Object],
    holding: Holding,
    closed_alone: bool,
) -> Result<List<FdEntry>, NoMemory>
    ensures held { IfOk result (λ found. (n : ℕ) →
        entry_of found n ≡ chosen closed_alone (held_in nodes.now objects.now holding n)) }
    ensures ascends { IfOk result (λ found. Ascends (λ x y. x.fd < y.fd) found) }
{
    let mut found = List::new(alloc);
    let low = Course {
        nodes,
        objects,
        least: 0,
        closed_alone,
    };
    walk(&low, 3, holding.kept.low, holding.marked.low, 0, &mut found)?;
    let high = Course {
        nodes,
        objects,
        least: FEW,
        closed_alone,
    };
    walk(
        &high,
        8,
        holding.kept.high,
        holding.marked.high,
        0,
        &mut found,
    )?;
    Ok(found)
}

/// Appends what stands in two trees of this height, whose descriptors begin with the digits of
/// `first`.
fn walk(
    course: &Course<'_>,
    height: u8,
    kept: usize,
    marked: usize,
    first: u32,
    found: &mut List<FdEntry>,
) -> Result<(), NoMemory>
    requires { first < room_below height }
    ensures { OnOk result (found.new
        ≡ found.old ++ entries_in course.now height kept marked first) }
{
    if marked == 0 && (kept == 0 || course.closed_alone) {
        return Ok(());
    }
    if height == 0 {
        return push_leaf(course, kept, marked, first, found);
    }
    let open = node_at(course.nodes, kept);
    let closed = node_at(course.nodes, marked);
    for digit in 0..16u8 {
        let next = first * 16 + digit as u32;
        walk(
            course,
            height - 1,
            open.child(digit),
            closed.child(digit),
            next,
            found,
        )?;
    }
    Ok(())
}

/// Appends what two numbers say of a descriptor.
fn push_leaf(
    course: &Course<'_>,
    kept: usize,
    marked: usize,
    fd: u32,
    found: &mut List<FdEntry>,
) -> Result<(), NoMemory>
    ensures { OnOk result (found.new ≡ found.old ++ leaf course.now kept marked fd) }
{
    if fd < course.least {
        return Ok(());
    }
    if let Some(held) = copy_held(course, kept, marked)? {
        found.push(FdEntry { fd, held })?;
    }
    Ok(())
}

/// What two numbers say. The second is in the tree of the descriptors that an exec closes.
fn copy_held(course: &Course<'_>, kept: usize, marked: usize) -> Result<Option<Held>, NoMemory>
    ensures { IfOk result (λ held.
        held ≡ chosen course.now.closed_alone (held_by course.now.objects.now kept marked)) }
{
    let (object, cloexec) = match object_at(course.objects, kept) {
        Some(_) if course.closed_alone => return Ok(None),
        Some(object) => (object, false),
        None => match object_at(course.objects, marked) {
            Some(object) => (object, true),
            None => return Ok(None),
        },
    };
    Ok(Some(Held {
        object: object.copy()?,
        cloexec,
    }))
}

/// The descriptors of these entries.
pub fn descriptors(alloc: Global, entries: &[FdEntry]) -> Result<List<u32>, NoMemory>
    ensures { IfOk result (λ fds. fds ≡ map (λ e. e.fd) entries.now) }
{
    let mut fds = List::new(alloc);
    for entry in entries {
        fds.push(entry.fd)?;
    }
    Ok(fds)
}
