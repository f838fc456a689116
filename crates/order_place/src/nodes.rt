//! What is kept of each node, by its name.
//!
//! What was kept last stands apart from the map, since most lines are of the node of the line before.
ghost use Rattle.std.specs.Prelude.{◌≡◌, ◌++◌, ℕ, List, [], Some, false, option_map, option_to_list, OnOk};
ghost use Rattle.std.specs.Map.{lookup};
ghost use Rattle.order_place.specs.Nodes.{is_node, is_of};

use flow_base::{Bytes, NoMemory};
use std::alloc::Global;
use std::collections::BTreeMap;
use std::marker::Model;

/// What is kept of each node: what was kept last, and the rest.
#[derive(Drop)]
pub struct Nodes<T> {
    last: Option<(Bytes, T)>,
    others: BTreeMap<Bytes, T>,
}

impl<T> Model for Nodes<T> {
    ghost use Rattle.std.specs.Prelude.{List, ℕ, ◌++◌, option_to_list};

    ghost Value = { List (List ℕ × T) };

    ghost view = { λ a. option_to_list a.last ++ a.others.entries };
}

impl<T: Drop> Nodes<T> {
    /// Nothing is kept.
    pub fn new(alloc: Global) -> Nodes<T>
        ensures { result ≡ [] }
    {
        Nodes {
            last: None,
            others: BTreeMap::new(alloc),
        }
    }

    /// What is kept of a node.
    pub fn get(&self, name: &Bytes) -> Option<&T>
        ensures { option_map (λ item. item.now) result ≡ lookup (is_node name.now) self.now }
    {
        match &self.last {
            Some((kept, item)) if name.cmp(kept).is_eq() => Some(item),
            _ => self.others.get(name),
        }
    }

    /// What is kept of a node, which is taken out.
    pub fn take(&mut self, name: &Bytes) -> Option<T>
        ensures here { result ≡ lookup (is_node name.now) self.old }
        ensures others { (other : List ℕ) → is_node name.now other ≡ false
            → lookup (is_node other) self.new ≡ lookup (is_node other) self.old }
    {
        if !is_of(name, &self.last) {
            return self.others.remove(name);
        }
        match self.last.take() {
            Some((_, item)) => Some(item),
            None => None,
        }
    }

    /// This is kept of a node.
    pub fn keep(&mut self, name: Bytes, item: T) -> Result<(), NoMemory>
        ensures here { OnOk result (lookup (is_node name) self.new ≡ Some item) }
        ensures others { OnOk result ((other : List ℕ) → is_node name other ≡ false
            → lookup (is_node other) self.new ≡ lookup (is_node other) self.old) }
    {
        put(&mut self.others, self.last.take())?;
        self.last = Some((name, item));
        Ok(())
    }
}

// Whether this is kept of a node.
fn is_of<T>(name: &Bytes, last: &Option<(Bytes, T)>) -> bool
    ensures { result ≡ is_of name.now last.now }
{
    match last {
        Some((kept, _)) => name.cmp(kept).is_eq(),
        None => false,
    }
}

// What was kept last joins the rest.
fn put<T: Drop>(others: &mut BTreeMap<Bytes, T>, last: Option<(Bytes, T)>) -> Result<(), NoMemory>
    ensures { OnOk result ((name : List ℕ) → lookup (is_node name) others.new.entries
        ≡ lookup (is_node name) (option_to_list last ++ others.old.entries)) }
{
    match last {
        Some((kept, item)) => {
            others.insert(kept, item)?;
            Ok(())
        }
        None => Ok(()),
    }
}
