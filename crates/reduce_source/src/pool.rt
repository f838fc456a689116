//! Values that sets share, in one list. The id of a value is its place in it, from 1 on, in 32
//! bits; the id 0 is that of none. A value is changed only by the set that alone has it, and the
//! place of a value that no set has any more is used again.
ghost use Rattle.std.specs.Prelude.{◌≡◌, ◌-◌, ◌<◌, ◌≤◌, ◌^◌, ℕ, [], IfSome, OnOk, None, Some, true, length, ◌+◌};
ghost use Rattle.std.specs.Vec.{vec_len, vec_capacity};
ghost use Rattle.reduce_source.specs.Slots.{owner_of, value_of};
ghost use Rattle.reduce_source.specs.Owners.{IsAt, IsFree, IsKept, Notes, Puts, Replaces};
ghost use Rattle.reduce_source.specs.declared.slot.Owner.TheVariants as owners;

use crate::slot::{Owner, Slot};
use flow_base::NoMemory;
use std::alloc::Global;

/// Ids have 32 bits, and 0 is none.
const MOST_IDS: usize = 1 << 32;

/// Values that sets share.
#[derive(Drop)]
pub struct Pool<T> {
    pub slots: Vec<Slot<T>>,
    /// The id of the first place to use again, or 0.
    free: u32,
}

impl<T: Copy> Pool<T> {
    /// No values.
    pub fn new(alloc: Global) -> Pool<T>
        ensures { result.slots.items ≡ [] }
    {
        Pool {
            slots: Vec::new(alloc),
            free: 0,
        }
    }

    /// Makes room for this many values. It fails if memory does, or if there could be as many values
    /// as there are ids.
    pub fn reserve(&mut self, more: usize) -> Result<(), NoMemory>
        ensures room { OnOk result
            (vec_len self.new.slots + more ≤ vec_capacity self.new.slots) }
        ensures few { OnOk result (vec_len self.new.slots + more < 2 ^ 32) }
        ensures same { self.new.slots.items ≡ self.old.slots.items }
    {
        if more.saturating_add(self.slots.len()) >= MOST_IDS {
            return Err(NoMemory);
        }
        self.slots.reserve(more)?;
        Ok(())
    }

    /// Gives an object this value in place of its value `mine`, and returns the id: `mine` is
    /// changed if the object alone has it.
    pub fn put(&mut self, object: u32, mine: u32, value: T) -> u32
        requires room { vec_len self.old.slots < vec_capacity self.old.slots }
        requires few { vec_len self.old.slots < 2 ^ 32 - 1 }
        ensures value { value_of self.new.slots.items result ≡ Some value }
        ensures replaces { Replaces object mine result self.old.slots self.new.slots }
    {
        let slot = Slot {
            value,
            owner: Owner::One { object },
        };
        if is_alone(&self.slots, object, mine) {
            self.set(mine, slot);
            return mine;
        }
        self.add(slot)
    }

    /// Gives an object the value `other` in place of its value `mine`, and returns its id.
    pub fn take_over(&mut self, object: u32, mine: u32, other: u32) -> u32
        requires other { IsKept object (owner_of self.old.slots.items other) }
        ensures id { result ≡ other }
        ensures value { value_of self.new.slots.items other ≡ value_of self.old.slots.items other }
        ensures replaces { Replaces object mine other self.old.slots self.new.slots }
    {
        self.leave(object, mine);
        self.share(other);
        other
    }

    /// Notes that an object has a value no longer: if it was the only one, the place is used again.
    fn leave(&mut self, object: u32, id: u32)
        ensures notes { Notes id self.old.slots self.new.slots }
        ensures kept { IsKept object (owner_of self.old.slots.items id)
            → owner_of self.new.slots.items id ≡ owner_of self.old.slots.items id }
    {
        if is_alone(&self.slots, object, id) {
            self.set_owner(id, Owner::Nobody { next: self.free });
            self.free = id;
        }
    }

    /// Notes that more than one set may have a value.
    fn share(&mut self, id: u32)
        requires { id ≤ length self.old.slots.items }
        ensures notes { Notes id self.old.slots self.new.slots }
        ensures many { owner_of self.new.slots.items id ≡ owners.Many }
    {
        if id != 0 {
            self.set_owner(id, Owner::Many);
        }
    }

    /// Adds a value, in a place that no set has or else in the room that was made for it, and
    /// returns its id.
    fn add(&mut self, slot: Slot<T>) -> u32
        requires room { vec_len self.old.slots < vec_capacity self.old.slots }
        requires few { vec_len self.old.slots < 2 ^ 32 - 1 }
        ensures free { IsFree (owner_of self.old.slots.items result) }
        ensures puts { Puts result slot 1 self.old.slots self.new.slots }
    {
        match self.take_free() {
            None => {
                self.slots.push_reserved(slot);
                self.slots.len() as u32
            }
            Some(id) => {
                self.set(id, slot);
                id
            }
        }
    }

    /// The id of a place that no set has, taken out of the list of these.
    fn take_free(&mut self) -> Option<u32>
        ensures place { IfSome result (IsAt self.old.slots.items) }
        ensures free { IfSome result (λ id. IsFree (owner_of self.old.slots.items id)) }
        ensures same { self.new.slots ≡ self.old.slots }
    {
        let id = self.free;
        match slot_of(&self.slots, id) {
            None => None,
            Some(slot) => match slot.owner {
                Owner::Nobody { next } => {
                    self.free = next;
                    Some(id)
                }
                Owner::One { .. } => None,
                Owner::Many => None,
            },
        }
    }

    /// Puts a value in the place of another.
    fn set(&mut self, id: u32, slot: Slot<T>)
        requires { IsAt self.old.slots.items id }
        ensures { Puts id slot 0 self.old.slots self.new.slots }
    {
        self.slots[(id - 1) as usize] = slot;
    }

    /// Notes which sets have a value.
    fn set_owner(&mut self, id: u32, owner: Owner)
        requires { IsAt self.old.slots.items id }
        ensures notes { Notes id self.old.slots self.new.slots }
        ensures owner { owner_of self.new.slots.items id ≡ owner }
    {
        self.slots[(id - 1) as usize].owner = owner;
    }
}

/// Whether an object alone has the value with an id.
fn is_alone<T>(slots: &[Slot<T>], object: u32, id: u32) -> bool
    ensures alone { result ≡ true → owner_of slots.now id ≡ owners.One object }
    ensures place { result ≡ true → IsAt slots.now id }
{
    match slot_of(slots, id) {
        None => false,
        Some(slot) => match slot.owner {
            Owner::Nobody { .. } => false,
            Owner::One { object: only } => only == object,
            Owner::Many => false,
        },
    }
}

/// The value with an id and its owner, if there is one.
pub fn slot_of<T>(slots: &[Slot<T>], id: u32) -> Option<&Slot<T>>
    ensures none { result ≡ None → value_of slots.now id ≡ None }
    ensures place { IfSome result (λ slot. IsAt slots.now id) }
    ensures value { IfSome result (λ slot. value_of slots.now id ≡ Some slot.now.value) }
    ensures owner { IfSome result (λ slot. owner_of slots.now id ≡ slot.now.owner) }
{
    if id == 0 {
        return None;
    }
    slots.get((id - 1) as usize)
}
