//! What each process holds, by the numbers of objects. A process that isn't in the map holds
//! nothing.
ghost use Rattle.std.specs.Prelude.{◌≡◌, ◌==◌, ◌+◌, ◌≤◌, ℕ, if◌then◌else◌, OnOk};
ghost use Rattle.std.specs.Vec.{vec_len, vec_capacity};
ghost use Rattle.indexmap.specs.IndexMap.{spare};
ghost use Rattle.fd_table.specs.Numbers.{IsLonger};
ghost use Rattle.fd_table.specs.Holdings.{bare, nothing};
ghost use Rattle.fd_table.specs.Processes.{holding_of, holders, AreChanged, StaySound, GetNumber, HasRoom, Fits};

use crate::holdings::{nothing, with_numbers};
use crate::node::Node;
use crate::tree::{Holding, Tree};
use acts::Object;
use flow_base::NoMemory;
use indexmap::IndexMap;
use table_salt::Salt;

/// What a process holds.
pub fn holding_of(processes: &IndexMap<u32, Holding, Salt>, pid: u32) -> Holding
    ensures { result ≡ holding_of processes.now.entries pid }
{
    match processes.get(&pid) {
        Some(holding) => *holding,
        None => nothing(),
    }
}

/// The process holds this from now on. It takes no memory.
pub fn put(processes: &mut IndexMap<u32, Holding, Salt>, pid: u32, holding: Holding)
    requires { 1 ≤ spare processes.old }
    ensures put { AreChanged processes.old.entries processes.new.entries
        (λ p h. if pid == p then holding else h) }
    ensures spare { spare processes.old ≤ spare processes.new + 1 }
{
    match processes.insert(pid, holding) {
        Ok(_) => {}
        Err(_) => unreachable!(),
    }
}

/// The process holds nothing from now on.
pub fn clear(processes: &mut IndexMap<u32, Holding, Salt>, pid: u32)
    ensures cleared { AreChanged processes.old.entries processes.new.entries
        (λ p h. if pid == p then nothing else h) }
    ensures spare { spare processes.old ≤ spare processes.new }
{
    processes.swap_remove(&pid);
}

/// The process holds nothing from now on that an exec closes.
pub fn unmark(processes: &mut IndexMap<u32, Holding, Salt>, pid: u32)
    ensures unmarked { AreChanged processes.old.entries processes.new.entries
        (λ p h. if pid == p then record { kept = h.kept; marked = bare } else h) }
    ensures spare { spare processes.old ≤ spare processes.new }
{
    if let Some(holding) = processes.get_mut(&pid) {
        holding.marked = Tree { low: 0, high: 0 };
    }
}

/// Gives a descriptor of a process these numbers in its two trees. It takes no memory.
pub fn change(
    processes: &mut IndexMap<u32, Holding, Salt>,
    nodes: &mut Vec<Node>,
    pid: u32,
    fd: u32,
    kept: usize,
    marked: usize,
)
    requires spare { 1 ≤ spare processes.old }
    requires room { vec_len nodes.old + 16 ≤ vec_capacity nodes.old }
    ensures longer { IsLonger 16 nodes.old.items nodes.new.items }
    ensures count { vec_len nodes.new ≤ vec_len nodes.old + 16 }
    ensures capacity { vec_capacity nodes.new ≡ vec_capacity nodes.old }
    ensures spare { spare processes.old ≤ spare processes.new + 1 }
    ensures sound { StaySound (holders processes.old.entries nodes.old.items)
        (holders processes.new.entries nodes.new.items) kept marked }
    ensures kept { GetNumber (λ h. h.kept) (holders processes.old.entries nodes.old.items)
        (holders processes.new.entries nodes.new.items) pid fd (kept, marked) kept }
    ensures marked { GetNumber (λ h. h.marked) (holders processes.old.entries nodes.old.items)
        (holders processes.new.entries nodes.new.items) pid fd (kept, marked) marked }
{
    let holding = holding_of(processes, pid);
    let holding = with_numbers(nodes, holding, fd, kept, marked);
    put(processes, pid, holding);
}

/// How many nodes one change may add: at most eight in each of the two trees.
const NODES: usize = 16;

/// Makes room for this many changes. It fails if memory does.
pub fn make_room(
    processes: &mut IndexMap<u32, Holding, Salt>,
    nodes: &mut Vec<Node>,
    objects: &mut Vec<Object>,
    changes: usize,
) -> Result<(), NoMemory>
    ensures ok { OnOk result (Fits changes processes.new nodes.new objects.new) }
    ensures keeps { (room : ℕ) → Fits room processes.old nodes.old objects.old
        → Fits room processes.new nodes.new objects.new }
    ensures processes { processes.new.entries ≡ processes.old.entries }
    ensures nodes { nodes.new.items ≡ nodes.old.items }
    ensures objects { objects.new.items ≡ objects.old.items }
{
    nodes.reserve(changes.saturating_mul(NODES))?;
    objects.reserve(changes)?;
    processes.reserve(changes)?;
    Ok(())
}
