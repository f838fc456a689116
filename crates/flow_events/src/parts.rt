//! The parts of a plan, put in the order in which they are done.
ghost use Rattle.std.specs.Prelude.{◌≡◌, [], IfOk, OnOk, map, reverse};

use crate::given::Given;
use acts::copy_key;
use flow_base::{Key, List, NoMemory};
use std::alloc::Global;

#[tactic(auto, using(crate::proofs::Turning::few_turned))]
/// Puts the last item first. Most lists have at most one item, and stay as they are.
#[inline]
pub fn turn<T: Drop>(alloc: Global, items: &mut List<T>) -> Result<(), NoMemory>
    ensures { OnOk result (items.new ≡ reverse items.old) }
{
    if items.as_slice().len() <= 1 {
        return Ok(());
    }
    let whole = std::mem::replace(items, List::new(alloc));
    *items = newest_first(alloc, whole)?;
    Ok(())
}

/// The items with the last one first.
#[inline(never)]
pub fn newest_first<T: Drop>(alloc: Global, items: List<T>) -> Result<List<T>, NoMemory>
    ensures { IfOk result (λ turned. turned ≡ reverse items) }
{
    let mut items = items;
    let mut turned = List::new(alloc);
    while let Some(item) = items.pop() {
        turned.push(item)?;
    }
    Ok(turned)
}

/// Takes all items out, and keeps their memory.
pub fn empty<T: Drop>(items: &mut List<T>)
    ensures { items.new ≡ [] }
{
    while let Some(_) = items.pop() {}
}

/// The keys that are named.
pub fn named_keys(alloc: Global, given: &[Given]) -> Result<List<Key>, NoMemory>
    ensures { IfOk result (λ keys. keys ≡ map (λ g. g.key) given.now) }
{
    let mut keys = List::new(alloc);
    for one in given {
        keys.push(copy_key(&one.key)?)?;
    }
    Ok(keys)
}
