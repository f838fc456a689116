//! The acts so far, with their objects and flows.
ghost use Rattle.std.specs.Prelude.{◌≡◌, ◌∷◌, [], false, None, Some, Err, length, OnOk, OnErr};
ghost use Rattle.flow_base.specs.declared.limits.Full.{Full};
ghost use Rattle.flow_base.specs.declared.faults.Refused.TheVariants as refused;
ghost use Rattle.acts.specs.Flows.{acts_of, objects, flows};
ghost use Rattle.acts.specs.LookBack.{opens, full_at};

use crate::act::Taken;
use crate::look_back::graph::Graph;
use crate::look_back::links::link_of;
use crate::look_back::room::put_last;
use flow_base::{Flow, Key, Refused};
use std::alloc::Global;
use std::marker::Model;

/// Acts that put nothing at a descriptor, with the objects and flows that they make. Contracts see the acts, the newest
/// first, and the limits.
#[derive(Drop)]
pub struct Plain {
    taken: Vec<Taken>,
    graph: Graph,
}

impl Model for Plain {
    ghost use Rattle.std.specs.Prelude.{reverse};
    ghost use Rattle.acts.specs.LookBack.{Course, IsGraphOf};

    ghost Value = { Course };

    ghost view = { λ a. record { taken = reverse a.taken.items; most_objects = a.graph.most_objects; most_flows = a.graph.most_flows } };

    ghost invariant = { λ a. IsGraphOf a.taken.items a.graph };
}

impl Plain {
    /// No acts, with these limits on the numbers of objects and flows.
    pub fn new(alloc: Global, most_objects: u32, most_flows: u64) -> Plain
        ensures { result ≡ record {
          taken = [];
          most_objects = most_objects;
          most_flows = most_flows;
        } }
    {
        Plain {
            taken: Vec::new(alloc),
            graph: Graph::new(alloc, most_objects, most_flows),
        }
    }

    /// How many objects the flows know.
    pub fn known(&self) -> u32
        ensures { result ≡ length (objects (acts_of self.now.taken)) }
    {
        let _ = &self.taken;
        self.graph.known()
    }

    /// The objects by number.
    pub fn objects(&self) -> &[Key]
        ensures { result.now ≡ objects (acts_of self.now.taken) }
    {
        self.graph.objects()
    }

    /// The flows in their order.
    pub fn flows(&self) -> &[Flow]
        ensures { result.now ≡ flows self.now.taken }
    {
        self.graph.flows()
    }

    /// Takes the next act. If it is refused, nothing has changed.
    pub fn act(&mut self, taken: Taken) -> Result<(), Refused>
        requires opens_nothing { opens taken.act ≡ false }
        ensures taken { OnOk result (self.new ≡ record
            self.old { taken = taken ∷ self.old.taken }) }
        ensures fits { OnOk result (full_at self.old.most_objects self.old.most_flows
            (taken ∷ self.old.taken) ≡ None) }
        ensures full { (full : Full) → result ≡ Err (refused.Full full)
            → full_at self.old.most_objects self.old.most_flows (taken ∷ self.old.taken)
            ≡ Some full }
        ensures err { OnErr result (self.new ≡ self.old) }
    {
        let alloc = *self.taken.allocator();
        let link = link_of(alloc, self.taken.as_slice(), &taken.act)?;
        self.taken.reserve(1)?;
        if let Some(link) = link {
            self.graph.add(&taken, link)?;
        }
        put_last(&mut self.taken, taken);
        Ok(())
    }
}
