//! Moving what all processes hold to new nodes and objects.
ghost use Rattle.std.specs.Prelude.{◌≡◌, ◌==◌, ◌≤◌, ◌+◌, ℕ, OnOk, IfOk, if◌then◌else◌};
ghost use Rattle.fd_table.specs.Moves.{StillMeans, HasMoved, shelf, shelf_of, TreeMeans, HoldingMeans, ProcessesMean};
ghost use Rattle.fd_table.specs.Processes.{AreChanged};

use crate::moving::{Moving, carry};
use crate::node::Node;
use crate::processes::holding_of;
use crate::tree::{Holding, Tree};
use acts::Object;
use flow_base::NoMemory;
use indexmap::IndexMap;
use std::alloc::Global;
use table_salt::Salt;

/// Moves one tree of numbers.
fn carry_tree(
    nodes: &[Node],
    objects: &[Object],
    moving: &mut Moving,
    tree: Tree,
) -> Result<Tree, NoMemory>
    requires { HasMoved (shelf_of nodes.now objects.now) moving.old }
    ensures moved { OnOk result (HasMoved (shelf_of nodes.now objects.now) moving.new) }
    ensures means { IfOk result (λ moved.
        TreeMeans (shelf_of nodes.now objects.now) (shelf moving.new) tree moved) }
    ensures still { OnOk result (StillMeans (shelf_of nodes.now objects.now)
        (shelf moving.old) (shelf moving.new)) }
{
    let low = carry(nodes, objects, moving, 3, tree.low)?;
    let high = carry(nodes, objects, moving, 8, tree.high)?;
    Ok(Tree { low, high })
}

/// Moves what one process holds.
fn carry_holding(
    nodes: &[Node],
    objects: &[Object],
    moving: &mut Moving,
    holding: Holding,
) -> Result<Holding, NoMemory>
    requires { HasMoved (shelf_of nodes.now objects.now) moving.old }
    ensures moved { OnOk result (HasMoved (shelf_of nodes.now objects.now) moving.new) }
    ensures means { IfOk result (λ moved.
        HoldingMeans (shelf_of nodes.now objects.now) (shelf moving.new) holding moved) }
    ensures still { OnOk result (StillMeans (shelf_of nodes.now objects.now)
        (shelf moving.old) (shelf moving.new)) }
{
    let kept = carry_tree(nodes, objects, moving, holding.kept)?;
    let marked = carry_tree(nodes, objects, moving, holding.marked)?;
    Ok(Holding { kept, marked })
}

/// Puts what a process holds.
fn enter(
    processes: &mut IndexMap<u32, Holding, Salt>,
    pid: u32,
    holding: Holding,
) -> Result<(), NoMemory>
    ensures { OnOk result (AreChanged processes.old.entries processes.new.entries
        (λ p h. if pid == p then holding else h)) }
{
    processes.insert(pid, holding)?;
    Ok(())
}

/// Moves what all processes hold.
pub fn carry_all(
    alloc: Global,
    nodes: &[Node],
    objects: &[Object],
    processes: &IndexMap<u32, Holding, Salt>,
    moving: &mut Moving,
) -> Result<IndexMap<u32, Holding, Salt>, NoMemory>
    requires { HasMoved (shelf_of nodes.now objects.now) moving.old }
    ensures { IfOk result (λ moved. ProcessesMean (shelf_of nodes.now objects.now)
        (shelf moving.new) processes.now.entries moved.entries) }
{
    let mut carried = IndexMap::with_hasher(alloc, *processes.hasher());
    for pid in processes.keys() {
        let holding = holding_of(processes, *pid);
        let moved = carry_holding(nodes, objects, moving, holding)?;
        enter(&mut carried, *pid, moved)?;
    }
    Ok(carried)
}
