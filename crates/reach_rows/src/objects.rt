//! What rows in memory keep of each object: its first flow, and the greatest rows that enter and leave it.
ghost use Rattle.std.specs.Prelude.{◌≡◌, ◌≢◌, suc, ◌<◌, ◌≤◌, max, List, ◌∷◌, ◌++◌, [], length, vec_len, vec_capacity};
ghost use Rattle.flow_base.specs.declared.types.Flow.{Flow as AFlow};
ghost use Rattle.reach_model.specs.Flows.{source, target};
ghost use Rattle.reach_model.specs.Numbers.{known};
ghost use Rattle.reach_rows.specs.Kept.{IsLastOf, Enters, Leaves};
ghost use Rattle.reach_rows.specs.Objects.{AreObjects, HasLeft};

use crate::questions::First;
use flow_base::{EntityId, Flow};

/// What is known of an object.
#[derive(Clone, Copy)]
pub struct Object {
    pub first: First,
    pub last_into: Option<u64>,
    pub last_from: Option<u64>,
}

/// The greatest row that enters an object, if it is known and some row does.
pub fn last_into_of(objects: &[Object], id: EntityId) -> Option<u64>
    ensures { (K : List AFlow) → AreObjects K objects.now → IsLastOf K (Enters id.0) result }
{
    match objects.get(id.0 as usize) {
        Some(object) => object.last_into,
        None => None,
    }
}

/// The greatest row that leaves an object, if it is known and some row does.
pub fn last_from_of(objects: &[Object], id: EntityId) -> Option<u64>
    ensures { (K : List AFlow) → AreObjects K objects.now → IsLastOf K (Leaves id.0) result }
{
    match objects.get(id.0 as usize) {
        Some(object) => object.last_from,
        None => None,
    }
}

/// Takes a row in at the object that its flow leaves.
pub fn leave(objects: &mut Vec<Object>, flow: &Flow, row: u64)
    requires known { source flow.now ≤ vec_len objects.old }
    requires room { vec_len objects.old < vec_capacity objects.old }
    ensures left { (K : List AFlow) → AreObjects K objects.old.items → length K ≡ row
        → source flow.now ≢ target flow.now → HasLeft K flow.now objects.new.items }
    ensures len { vec_len objects.new ≡ max (vec_len objects.old) (suc (source flow.now)) }
    ensures room { vec_capacity objects.new ≡ vec_capacity objects.old }
{
    let id = flow.from.0 as usize;
    if id < objects.len() {
        objects[id].last_from = Some(row);
    } else {
        let first = First {
            at: flow.at,
            out: true,
        };
        objects.push_reserved(Object {
            first,
            last_into: None,
            last_from: Some(row),
        });
    }
}

/// Takes a row in at the object that its flow enters, after the object that it leaves.
pub fn enter(objects: &mut Vec<Object>, flow: &Flow, row: u64)
    requires known { target flow.now ≤ vec_len objects.old }
    requires room { vec_len objects.old < vec_capacity objects.old }
    ensures objects { (K : List AFlow) → HasLeft K flow.now objects.old.items → length K ≡ row
        → source flow.now ≢ target flow.now → AreObjects (K ++ flow.now ∷ []) objects.new.items }
    ensures len { vec_len objects.new ≡ max (vec_len objects.old) (suc (target flow.now)) }
    ensures room { vec_capacity objects.new ≡ vec_capacity objects.old }
{
    let id = flow.to.0 as usize;
    if id < objects.len() {
        objects[id].last_into = Some(row);
    } else {
        let first = First {
            at: flow.at,
            out: false,
        };
        objects.push_reserved(Object {
            first,
            last_into: Some(row),
            last_from: None,
        });
    }
}
