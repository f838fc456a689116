//! Numbers by paths of digits, in nodes that never change.
//!
//! A tree is named by the id of its first node: the node at place k of the list has the id k + 1,
//! and the id 0 stands for the empty tree. A change appends new nodes for one path and shares all
//! others with the old tree, which stays as it was. So to copy a tree is to copy its id.
ghost use Rattle.std.specs.Prelude.{◌≡◌, ◌≢◌, ◌+◌, ◌<◌, ◌≤◌, ◌++◌, ◌∷◌, [], ℕ, List, length, get_or};
ghost use Rattle.std.specs.List.{All};
ghost use Rattle.std.specs.Vec.{vec_len, vec_capacity};
ghost use Rattle.fd_table.specs.Trees.{at, child, IsDigit, IsGrown, StaysKnown, StandsAt, OthersStay};

use crate::node::Node;

/// The node with an id, or else one without children.
#[tactic(auto, using(crate::proofs::TreeLemmas::children_there, crate::proofs::TreeLemmas::children_past))]
pub fn node_at(nodes: &[Node], id: usize) -> Node
    ensures { (d : ℕ) → get_or result.ids d 0 ≡ child nodes.now id d }
{
    if id == 0 || id > nodes.len() {
        return Node::empty();
    }
    nodes[id - 1]
}

/// The id of a child. It reads one number where the node stands, since a node is large.
#[tactic(auto, using(crate::proofs::TreeLemmas::children_there, crate::proofs::TreeLemmas::children_past))]
fn child(nodes: &[Node], id: usize, digit: u8) -> usize
    ensures { result ≡ child nodes.now id digit }
{
    if id == 0 || id > nodes.len() {
        return 0;
    }
    nodes[id - 1].child(digit)
}

/// The number at a path, or 0.
pub fn find(nodes: &[Node], id: usize, path: &[u8]) -> usize
    ensures { result ≡ at nodes.now id path.now }
{
    match path {
        [] => id,
        [first, rest @ ..] => find(nodes, child(nodes, id, *first), rest),
    }
}

/// The tree with this number at the path. It appends a node for each digit, and takes no memory.
pub fn put(nodes: &mut Vec<Node>, id: usize, path: &[u8], number: usize) -> usize
    requires digits { All IsDigit path.now }
    requires room { vec_len nodes.old + length path.now ≤ vec_capacity nodes.old }
    ensures grown { IsGrown (length path.now) nodes.old.items nodes.new.items }
    ensures capacity { vec_capacity nodes.new ≡ vec_capacity nodes.old }
    ensures known { StaysKnown nodes.old.items nodes.new.items id result path.now number }
    ensures here { StandsAt nodes.old.items nodes.new.items id result path.now number }
    ensures others { OthersStay nodes.old.items nodes.new.items id result path.now number }
{
    let (first, rest) = match path {
        [] => return number,
        [first, rest @ ..] => (*first, rest),
    };
    let mut node = node_at(nodes, id);
    let changed = put(nodes, child(nodes, id, first), rest, number);
    node.set_child(first, changed);
    add(nodes, node)
}

/// Appends a node, and gives its id.
fn add(nodes: &mut Vec<Node>, node: Node) -> usize
    requires room { vec_len nodes.old < vec_capacity nodes.old }
    ensures added { nodes.new.items ≡ nodes.old.items ++ node ∷ [] }
    ensures id { result ≡ length nodes.new.items }
    ensures capacity { vec_capacity nodes.new ≡ vec_capacity nodes.old }
{
    nodes.push_reserved(node);
    nodes.len()
}
