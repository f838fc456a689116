//! What rows in memory keep of each object, in 32 bytes each.
//!
//!     bytes   what stands there
//!     8       the time of the object's first flow
//!     8       its place
//!     6       the greatest row that enters the object, 2^48 - 1 for none
//!     6       the greatest row that leaves it, 2^48 - 1 for none
//!     1       whether the first flow leaves it
//!     3       nothing
ghost use Rattle.std.specs.Prelude.{◌≡◌, ◌≢◌, suc, ◌-◌, ◌<◌, ◌≤◌, ◌+◌, max, List, ◌∷◌, ◌++◌, [], OnOk, length, slice_index_or, vec_len, vec_capacity};
ghost use Rattle.flow_base.specs.declared.types.Flow.{Flow as AFlow};
ghost use Rattle.reach_model.specs.Flows.{source, target};
ghost use Rattle.reach_rows.specs.Kept.{IsLastOf, Enters, Leaves};
ghost use Rattle.reach_rows.specs.Objects.{AreObjects, HasLeft};
ghost use Rattle.reach_rows.specs.Packed.{KnownObjects, NONE, object_of_packed, objects_of_packed};

use crate::index48::Index48;
use crate::objects::Object;
use crate::packed::{NO_ROW, row_at};
use crate::questions::First;
use flow_base::{EntityId, Flow, NoMemory, Stamp};
use std::alloc::Global;
use std::marker::Model;
use std::mem::size_of;

const _: () = prove!(size_of::<PackedObject>() == 32);

/// What is known of an object. In this order of its fields no gap is between them.
#[derive(Clone, Copy)]
pub struct PackedObject {
    pub ms: u64,
    pub place: u64,
    pub last_into: Index48,
    pub last_from: Index48,
    pub out: bool,
}

impl PackedObject {
    /// What it stands for.
    fn object(&self) -> Object
        ensures { result ≡ object_of_packed self.now }
    {
        Object {
            first: First {
                at: Stamp {
                    ms: self.ms,
                    place: self.place,
                },
                out: self.out,
            },
            last_into: row_at(self.last_into),
            last_from: row_at(self.last_from),
        }
    }
}

/// What is known of each object.
#[derive(Drop)]
pub struct PackedObjects {
    objects: Vec<PackedObject>,
}

impl Model for PackedObjects {
    ghost Value = { KnownObjects };

    ghost view = { λ a. record {
      objects = objects_of_packed a.objects.items;
      room = vec_capacity a.objects - vec_len a.objects;
    } };
}

impl PackedObjects {
    /// No objects.
    pub fn new(alloc: Global) -> PackedObjects
        ensures { result.objects ≡ [] }
    {
        PackedObjects {
            objects: Vec::new(alloc),
        }
    }

    /// How many objects there are.
    pub fn len(&self) -> usize
        ensures { result ≡ length self.now.objects }
    {
        self.objects.len()
    }

    /// What is known of an object.
    pub fn object(&self, id: EntityId) -> Object
        requires { id.0 < length self.now.objects }
        ensures { result ≡ slice_index_or self.now.objects id.0 result }
    {
        self.objects[id.0 as usize].object()
    }

    /// The greatest row that enters an object, if it is known and some row does.
    pub fn last_into_of(&self, id: EntityId) -> Option<u64>
        ensures { (K : List AFlow) → AreObjects K self.now.objects
            → IsLastOf K (Enters id.0) result }
    {
        if (id.0 as usize) < self.len() {
            return self.object(id).last_into;
        }
        None
    }

    /// The greatest row that leaves an object, if it is known and some row does.
    pub fn last_from_of(&self, id: EntityId) -> Option<u64>
        ensures { (K : List AFlow) → AreObjects K self.now.objects
            → IsLastOf K (Leaves id.0) result }
    {
        if (id.0 as usize) < self.len() {
            return self.object(id).last_from;
        }
        None
    }

    /// Makes room for this many more objects.
    pub fn reserve(&mut self, more: usize) -> Result<(), NoMemory>
        ensures room { OnOk result (more ≤ self.new.room) }
        ensures objects { self.new.objects ≡ self.old.objects }
    {
        self.objects.reserve(more)?;
        Ok(())
    }

    /// Takes a row in at the object that its flow leaves.
    pub fn leave(&mut self, flow: &Flow, row: u64)
        requires known { source flow.now ≤ length self.old.objects }
        requires room { 1 ≤ self.old.room }
        requires row { row < NONE }
        ensures left { (K : List AFlow) → AreObjects K self.old.objects → length K ≡ row
            → source flow.now ≢ target flow.now → HasLeft K flow.now self.new.objects }
        ensures len { length self.new.objects
            ≡ max (length self.old.objects) (suc (source flow.now)) }
        ensures room { self.old.room ≤ self.new.room + 1 }
    {
        let id = flow.from.0 as usize;
        if id < self.objects.len() {
            self.objects[id].last_from = Index48::new(row);
        } else {
            self.objects.push_reserved(PackedObject {
                ms: flow.at.ms,
                place: flow.at.place,
                last_into: Index48::new(NO_ROW),
                last_from: Index48::new(row),
                out: true,
            });
        }
    }

    /// Takes a row in at the object that its flow enters, after the object that it leaves.
    pub fn enter(&mut self, flow: &Flow, row: u64)
        requires known { target flow.now ≤ length self.old.objects }
        requires room { 1 ≤ self.old.room }
        requires row { row < NONE }
        ensures objects { (K : List AFlow) → HasLeft K flow.now self.old.objects → length K ≡ row
            → source flow.now ≢ target flow.now → AreObjects (K ++ flow.now ∷ []) self.new.objects }
        ensures len { length self.new.objects
            ≡ max (length self.old.objects) (suc (target flow.now)) }
        ensures room { self.old.room ≤ self.new.room + 1 }
    {
        let id = flow.to.0 as usize;
        if id < self.objects.len() {
            self.objects[id].last_into = Index48::new(row);
        } else {
            self.objects.push_reserved(PackedObject {
                ms: flow.at.ms,
                place: flow.at.place,
                last_into: Index48::new(row),
                last_from: Index48::new(NO_ROW),
                out: false,
            });
        }
    }
}
