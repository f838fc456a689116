//! Whether the places of the last flows of rows are distinct.
ghost use Rattle.std.specs.Prelude.{◌↔◌, IsTrue, IfOk, map, nat_eq};
ghost use Rattle.std.specs.List.{IsDistinct};
ghost use Rattle.reduced_store.specs.Filling.{place_of};

use flow_base::{NoMemory, Stamp};
use indexmap::IndexSet;
use std::alloc::Global;
use table_salt::Salt;

/// Whether no two of these stamps, those of the last flows of rows, have one place. They ascend unless a
/// row was extended, and then no set is made of them.
pub fn are_apart(alloc: Global, salt: Salt, lasts: &[Stamp]) -> Result<bool, NoMemory>
    ensures { IfOk result (λ apart. IsTrue apart
        ↔ IsDistinct nat_eq (map place_of lasts.now)) }
{
    if ascend(lasts) {
        return Ok(true);
    }
    let mut places = IndexSet::with_hasher(alloc, salt);
    for last in lasts {
        if !places.insert(last.place)? {
            return Ok(false);
        }
    }
    Ok(true)
}

// Whether each place is greater than the one before it. Then they are distinct.
fn ascend(lasts: &[Stamp]) -> bool
    ensures { IsTrue result → IsDistinct nat_eq (map place_of lasts.now) }
{
    for i in 1..lasts.len() {
        if lasts[i].place <= lasts[i - 1].place {
            return false;
        }
    }
    true
}
