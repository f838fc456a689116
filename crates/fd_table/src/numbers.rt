//! Trees of numbers by descriptor.
//!
//! The path of a descriptor is its number in digits of four bits, most significant first, so that
//! descriptors near each other share nodes. Those below 4,096 have a tree of their own with paths
//! of three digits; paths in the other tree have eight.
ghost use Rattle.std.specs.Prelude.{◌≡◌, ◌==◌, ◌+◌, ◌<◌, ◌≤◌, ℕ, if◌then◌else◌};
ghost use Rattle.std.specs.List.{All};
ghost use Rattle.std.specs.Vec.{vec_len, vec_capacity};
ghost use Rattle.fd_table.specs.Trees.{IsDigit};
ghost use Rattle.fd_table.specs.Numbers.{short_path, long_path, number_at, StaysTree, GetsNumber, IsLonger};

use crate::node::Node;
use crate::tree::Tree;
use crate::trees::{find, put};

/// Descriptors below this have short paths.
pub const FEW: u32 = 4096;

/// The digits of a number below 4,096.
fn short_path(fd: u32) -> [u8; 3]
    requires { fd < 4096 }
    ensures path { result ≡ short_path fd }
    ensures digits { All IsDigit result }
{
    [(fd / 256) as u8, (fd / 16 % 16) as u8, (fd % 16) as u8]
}

/// The digits of a number of 32 bits.
fn long_path(fd: u32) -> [u8; 8]
    ensures path { result ≡ long_path fd }
    ensures digits { All IsDigit result }
{
    [
        (fd / 268_435_456) as u8,
        (fd / 16_777_216 % 16) as u8,
        (fd / 1_048_576 % 16) as u8,
        (fd / 65_536 % 16) as u8,
        (fd / 4096 % 16) as u8,
        (fd / 256 % 16) as u8,
        (fd / 16 % 16) as u8,
        (fd % 16) as u8,
    ]
}

/// The number of a descriptor. 0 stands for none.
pub fn number_of(nodes: &[Node], tree: Tree, fd: u32) -> usize
    ensures { result ≡ number_at nodes.now tree fd }
{
    if fd < FEW {
        find(nodes, tree.low, short_path(fd).as_slice())
    } else {
        find(nodes, tree.high, long_path(fd).as_slice())
    }
}

/// The tree with a number for a descriptor below 4,096.
fn with_low(nodes: &mut Vec<Node>, tree: Tree, fd: u32, number: usize) -> Tree
    requires low { fd < 4096 }
    requires room { vec_len nodes.old + 8 ≤ vec_capacity nodes.old }
    ensures longer { IsLonger 8 nodes.old.items nodes.new.items }
    ensures capacity { vec_capacity nodes.new ≡ vec_capacity nodes.old }
    ensures tree { StaysTree nodes.old.items nodes.new.items tree result number }
    ensures numbers { GetsNumber nodes.old.items nodes.new.items tree result fd number }
{
    let low = put(nodes, tree.low, short_path(fd).as_slice(), number);
    Tree {
        low,
        high: tree.high,
    }
}

/// The tree with a number for a descriptor from 4,096 on.
fn with_high(nodes: &mut Vec<Node>, tree: Tree, fd: u32, number: usize) -> Tree
    requires high { 4096 ≤ fd }
    requires room { vec_len nodes.old + 8 ≤ vec_capacity nodes.old }
    ensures longer { IsLonger 8 nodes.old.items nodes.new.items }
    ensures capacity { vec_capacity nodes.new ≡ vec_capacity nodes.old }
    ensures tree { StaysTree nodes.old.items nodes.new.items tree result number }
    ensures numbers { GetsNumber nodes.old.items nodes.new.items tree result fd number }
{
    let high = put(nodes, tree.high, long_path(fd).as_slice(), number);
    Tree {
        low: tree.low,
        high,
    }
}

/// The tree with a number for a descriptor. It takes no memory.
pub fn with_number(nodes: &mut Vec<Node>, tree: Tree, fd: u32, number: usize) -> Tree
    requires room { vec_len nodes.old + 8 ≤ vec_capacity nodes.old }
    ensures longer { IsLonger 8 nodes.old.items nodes.new.items }
    ensures capacity { vec_capacity nodes.new ≡ vec_capacity nodes.old }
    ensures tree { StaysTree nodes.old.items nodes.new.items tree result number }
    ensures numbers { GetsNumber nodes.old.items nodes.new.items tree result fd number }
{
    if fd < FEW {
        with_low(nodes, tree, fd, number)
    } else {
        with_high(nodes, tree, fd, number)
    }
}

/// The same, but a tree that has the number already stays as it is. It takes no memory.
pub fn set_number(nodes: &mut Vec<Node>, tree: Tree, fd: u32, number: usize) -> Tree
    requires room { vec_len nodes.old + 8 ≤ vec_capacity nodes.old }
    ensures longer { IsLonger 8 nodes.old.items nodes.new.items }
    ensures capacity { vec_capacity nodes.new ≡ vec_capacity nodes.old }
    ensures tree { StaysTree nodes.old.items nodes.new.items tree result number }
    ensures numbers { GetsNumber nodes.old.items nodes.new.items tree result fd number }
{
    if number_of(nodes, tree, fd) == number {
        return tree;
    }
    with_number(nodes, tree, fd, number)
}
