//! What a process holds, by the numbers of objects.
ghost use Rattle.std.specs.Prelude.{◌≡◌, ◌==◌, ◌+◌, ◌<◌, ◌≤◌, ℕ, Option, Some, None, option_copied, is_some, if◌then◌else◌};
ghost use Rattle.std.specs.Vec.{vec_len, vec_capacity};
ghost use Rattle.acts.specs.declared.held.Object.{Object as AnObject};
ghost use Rattle.fd_table.specs.Numbers.{IsLonger};
ghost use Rattle.fd_table.specs.Holdings.{object_at, nothing, StaysHolding, GetsIn};

use crate::node::Node;
use crate::numbers::{number_of, set_number};
use crate::tree::{Holding, Tree};
use acts::Object;

/// A process that holds nothing.
pub fn nothing() -> Holding
    ensures { result ≡ nothing }
{
    let none = Tree { low: 0, high: 0 };
    Holding {
        kept: none,
        marked: none,
    }
}

/// The object with a number; 0 is the number of none.
pub fn object_at(objects: &[Object], number: usize) -> Option<&Object>
    ensures { option_copied result ≡ object_at objects.now number }
{
    if number == 0 {
        return None;
    }
    objects.get(number - 1)
}

/// What a process holds, with other numbers at a descriptor. It takes no memory.
pub fn with_numbers(
    nodes: &mut Vec<Node>,
    holding: Holding,
    fd: u32,
    kept: usize,
    marked: usize,
) -> Holding
    requires room { vec_len nodes.old + 16 ≤ vec_capacity nodes.old }
    ensures longer { IsLonger 16 nodes.old.items nodes.new.items }
    ensures capacity { vec_capacity nodes.new ≡ vec_capacity nodes.old }
    ensures holding { StaysHolding nodes.old.items nodes.new.items holding result kept marked }
    ensures kept { GetsIn (λ h. h.kept) nodes.old.items nodes.new.items
        holding result fd (kept, marked) kept }
    ensures marked { GetsIn (λ h. h.marked) nodes.old.items nodes.new.items
        holding result fd (kept, marked) marked }
{
    let kept = set_number(nodes, holding.kept, fd, kept);
    let marked = set_number(nodes, holding.marked, fd, marked);
    Holding { kept, marked }
}
