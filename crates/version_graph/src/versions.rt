//! The tables of versions and links.
ghost use Rattle.std.specs.Prelude.{◌≡◌, ◌↔◌, ℕ, ◌≤◌, ◌+◌, ◌∷◌, ◌++◌, [], List, length, Some, OnOk, IsTrue};
ghost use Rattle.flow_base.specs.declared.types.Flow.{Flow as AFlow};
ghost use Rattle.indexmap.specs.IndexMap.{get, spare};
ghost use Rattle.reach_model.specs.Versions.{version, is_sealed};
ghost use Rattle.reach_model.specs.Pairs.{pair_eq};
ghost use Rattle.version_graph.specs.Links.{HasLink};
ghost use Rattle.version_graph.specs.Tables.{AreFew, HasRoom, StandsFor};

use crate::version::{Version, current_of, enter, leave};
use flow_base::{EntityId, Flow, NoMemory};
use indexmap::IndexMap;
use std::alloc::Global;
use table_salt::Salt;

/// The current version of each object, and the version that the last flow of each pair left.
#[derive(Drop)]
pub struct Versions {
    objects: IndexMap<u32, Version, Salt>,
    links: IndexMap<(u32, u32), u64, Salt>,
}

impl Versions {
    /// The tables of no flows.
    pub fn new(alloc: Global, salt: Salt) -> Versions
        ensures { StandsFor result [] }
    {
        Versions {
            objects: IndexMap::with_hasher(alloc, salt),
            links: IndexMap::with_hasher(alloc, salt),
        }
    }

    /// Makes room for these flows.
    pub fn reserve(&mut self, flows: &[Flow]) -> Result<(), NoMemory>
        ensures room { OnOk result (HasRoom self.new (length flows.now)) }
        ensures same { (K : List AFlow) → StandsFor self.old K → StandsFor self.new K }
    {
        // Two objects a flow.
        self.objects.reserve(2 * flows.len())?;
        self.links.reserve(flows.len())?;
        Ok(())
    }

    /// The current version of an object.
    pub fn current(&self, id: EntityId) -> u64
        ensures { (K : List AFlow) → StandsFor self.now K → result ≡ version K id.0 }
    {
        current_of(self.objects.get(&id.0)).number
    }

    /// Whether a flow has left the current version of an object, so that the next flow into it opens one.
    pub fn sealed(&self, id: EntityId) -> bool
        ensures { (K : List AFlow) → StandsFor self.now K → result ≡ is_sealed K id.0 }
    {
        current_of(self.objects.get(&id.0)).sealed
    }

    /// Whether a flow from one object to another stands after the last one into the former.
    pub fn linked(&self, from: EntityId, to: EntityId) -> bool
        ensures { (K : List AFlow) → StandsFor self.now K → IsTrue result ↔ HasLink K from.0 to.0 }
    {
        match self.links.get(&(from.0, to.0)) {
            None => false,
            Some(left) => *left == self.current(from),
        }
    }

    /// Takes in the next kept flow, in the room that was made for it.
    pub fn keep(&mut self, flow: &Flow)
        requires room { HasRoom self.old 1 }
        ensures next { (K : List AFlow) → StandsFor self.old K → AreFew K
            → StandsFor self.new (K ++ flow.now ∷ []) }
        ensures room { (n : ℕ) → HasRoom self.old (n + 1) → HasRoom self.new n }
    {
        enter(&mut self.objects, flow.to.0);
        let left = leave(&mut self.objects, flow.from.0);
        set_link(&mut self.links, (flow.from.0, flow.to.0), left);
    }
}

/// Sets the version that a pair left, in the room that was made for it.
fn set_link(links: &mut IndexMap<(u32, u32), u64, Salt>, pair: (u32, u32), left: u64)
    requires { 1 ≤ spare links.old }
    ensures here { get pair_eq links.new pair ≡ Some left }
    ensures others { (u v : ℕ) → ¬ ((pair.0 ≡ u) × (pair.1 ≡ v))
        → get pair_eq links.new (u, v) ≡ get pair_eq links.old (u, v) }
    ensures room { spare links.old ≤ spare links.new + 1 }
{
    match links.insert(pair, left) {
        Ok(_) => {}
        Err(_) => unreachable!(),
    }
}
