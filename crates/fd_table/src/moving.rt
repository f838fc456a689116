//! Moving trees to new nodes and objects, so that those that no process holds any more are left.
//!
//! Each node and object that a process reaches is copied once, even if many trees share it. So the
//! new trees share what the old ones shared.
ghost use Rattle.std.specs.Prelude.{◌≡◌, ◌+◌, ◌<◌, ◌≤◌, ◌^◌, ℕ, suc, List, Option, Some, None, OnOk, IfOk, IfSome, length, get_or};
ghost use Rattle.fd_table.specs.declared.node.Node.{Node};
ghost use Rattle.fd_table.specs.Trees.{child};
ghost use Rattle.fd_table.specs.Moves.{Shelf, Means, TakesOver, StillMeans, HasMoved, MovedFrom, Notes, shelf, shelf_of};

use crate::holdings::object_at;
use crate::node::Node;
use crate::trees::node_at;
use acts::Object;
use flow_base::NoMemory;
use indexmap::IndexMap;
use std::alloc::Global;
use std::marker::Model;
use table_salt::Salt;

/// The nodes and objects that have moved, and the new id of each tree by its height and its old id.
/// The height is needed, since on the last level ids are numbers of objects.
#[derive(Drop)]
pub struct Moving {
    pub nodes: Vec<Node>,
    pub objects: Vec<Object>,
    pub moves: IndexMap<(u8, usize), usize, Salt>,
}

impl Moving {
    /// Nothing has moved.
    pub fn new(alloc: Global, salt: Salt) -> Moving
        ensures { (old : Shelf) → HasMoved old result }
    {
        Moving {
            nodes: Vec::new(alloc),
            objects: Vec::new(alloc),
            moves: IndexMap::with_hasher(alloc, salt),
        }
    }

    /// The new id of a tree that has moved.
    fn moved(&self, height: u8, id: usize) -> Option<usize>
        ensures { IfSome result (λ moved. MovedFrom self.now height id moved) }
    {
        self.moves.get(&(height, id)).copied()
    }

    /// Notes the new id of a tree. It fails if memory does.
    fn note(&mut self, height: u8, id: usize, moved: usize) -> Result<(), NoMemory>
        ensures nodes { self.new.nodes ≡ self.old.nodes }
        ensures objects { self.new.objects ≡ self.old.objects }
        ensures moved { OnOk result (Notes self.old self.new height id moved) }
    {
        self.moves.insert((height, id), moved)?;
        Ok(())
    }

    /// Copies an object, and gives its new number. It fails if memory does.
    fn move_object(&mut self, objects: &[Object], number: usize) -> Result<usize, NoMemory>
        ensures means { IfOk result (λ moved.
            (nodes : List Node) →
            Means (shelf_of nodes objects.now) (shelf self.new) 0 number moved) }
        ensures still { (old : Shelf) → StillMeans old (shelf self.old) (shelf self.new) }
        ensures moves { self.new.moves ≡ self.old.moves }
    {
        let object = match object_at(objects, number) {
            Some(object) => object.copy()?,
            None => return Ok(0),
        };
        self.objects.push(object)?;
        Ok(self.objects.len())
    }

    /// Appends a node whose children have moved, and gives its id. It fails if memory does.
    fn move_node(&mut self, node: Node) -> Result<usize, NoMemory>
        ensures means { IfOk result (λ moved. (old : Shelf) →
            TakesOver node.ids old (shelf self.old) (shelf self.new) moved) }
        ensures still { (old : Shelf) → StillMeans old (shelf self.old) (shelf self.new) }
        ensures moves { self.new.moves ≡ self.old.moves }
    {
        self.nodes.push(node)?;
        Ok(self.nodes.len())
    }
}

/// Moves a tree of this height, and gives its new id. A tree that moved before keeps its new id.
pub fn carry(
    nodes: &[Node],
    objects: &[Object],
    moving: &mut Moving,
    height: u8,
    id: usize,
) -> Result<usize, NoMemory>
    requires { HasMoved (shelf_of nodes.now objects.now) moving.old }
    ensures moved { OnOk result (HasMoved (shelf_of nodes.now objects.now) moving.new) }
    ensures means { IfOk result (λ moved.
        Means (shelf_of nodes.now objects.now) (shelf moving.new) height id moved) }
    ensures still { OnOk result (StillMeans (shelf_of nodes.now objects.now)
        (shelf moving.old) (shelf moving.new)) }
{
    if id == 0 {
        return Ok(0);
    }
    if let Some(moved) = moving.moved(height, id) {
        return Ok(moved);
    }
    if height == 0 {
        let moved = moving.move_object(objects, id)?;
        moving.note(0, id, moved)?;
        return Ok(moved);
    }
    let old = node_at(nodes, id);
    let mut node = Node::empty();
    for digit in 0..16u8 {
        let child = carry(nodes, objects, moving, height - 1, old.child(digit))?;
        node.set_child(digit, child);
    }
    let moved = moving.move_node(node)?;
    moving.note(height, id, moved)?;
    Ok(moved)
}
