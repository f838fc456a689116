//! What the descriptors of a process hold.
//!
//! What an exec leaves open stands in one map and what it closes in another, so that an exec clears one of them.
ghost use Rattle.std.specs.Prelude.{◌≡◌, ℕ, None, Some, true, option_map, IfOk, OnOk, IsTrue, if◌then◌else◌};
ghost use Rattle.order_rules.specs.Deeds.{is_same, at_exec, in_range, inherited};
ghost use Rattle.order_rules.specs.Known.{no_fds, held_of, with_mark};

use crate::held::{Held, Thing};
use flow_base::NoMemory;
use std::alloc::Global;
use std::collections::BTreeMap;
use std::marker::Model;

/// Of how many descriptors, by their numbers, a process that begins inherits what is known.
const INHERITED: u32 = 256;

/// What the descriptors of a process hold, as far as it is known.
#[derive(Drop)]
pub struct Fds {
    kept: BTreeMap<u32, Thing>,
    marked: BTreeMap<u32, Thing>,
}

impl Model for Fds {
    ghost use Rattle.order_rules.specs.Known.{Fds as Seen};

    ghost Value = { Seen };

    ghost view = { λ a. record { kept = a.kept.entries; marked = a.marked.entries } };
}

impl Fds {
    /// Nothing is known.
    pub fn new(alloc: Global) -> Fds
        ensures { result ≡ no_fds }
    {
        Fds {
            kept: BTreeMap::new(alloc),
            marked: BTreeMap::new(alloc),
        }
    }

    /// Whether nothing is known.
    pub fn is_empty(&self) -> bool
        ensures { result ≡ true → self.now ≡ no_fds }
    {
        self.kept.is_empty() && self.marked.is_empty()
    }

    /// What a descriptor names, and whether an exec leaves it open.
    pub fn get(&self, fd: u32) -> Option<(&Thing, bool)>
        ensures { option_map (λ p. with_mark p.1 p.0.now) result ≡ held_of self.now fd }
    {
        match self.kept.get(&fd) {
            Some(thing) => Some((thing, true)),
            None => match self.marked.get(&fd) {
                Some(thing) => Some((thing, false)),
                None => None,
            },
        }
    }

    /// A descriptor holds this from now on, or nothing that is known.
    pub fn set(&mut self, fd: u32, held: Option<Held>) -> Result<(), NoMemory>
        ensures { OnOk result ((n : ℕ) → held_of self.new n
            ≡ (if is_same fd n then held else held_of self.old n)) }
    {
        match held {
            Some(held) => self.put(fd, held),
            None => {
                self.remove(fd);
                Ok(())
            }
        }
    }

    // A descriptor holds nothing that is known from now on.
    fn remove(&mut self, fd: u32)
        ensures { (n : ℕ) → held_of self.new n
            ≡ (if is_same fd n then None else held_of self.old n) }
    {
        let _ = self.kept.remove(&fd);
        let _ = self.marked.remove(&fd);
    }

    // A descriptor holds this from now on.
    fn put(&mut self, fd: u32, held: Held) -> Result<(), NoMemory>
        ensures { OnOk result ((n : ℕ) → held_of self.new n
            ≡ (if is_same fd n then Some held else held_of self.old n)) }
    {
        if held.stays {
            let _ = self.marked.remove(&fd);
            self.kept.insert(fd, held.thing)?;
            return Ok(());
        }
        let _ = self.kept.remove(&fd);
        self.marked.insert(fd, held.thing)?;
        Ok(())
    }

    /// What an exec leaves open stays.
    pub fn exec(&mut self)
        ensures { (n : ℕ) → held_of self.new n ≡ at_exec (held_of self.old n) }
    {
        self.marked.clear();
    }

    /// The descriptors of a range hold nothing that is known from now on.
    pub fn close_range(&mut self, first: u32, last: u32)
        ensures { (n : ℕ) → held_of self.new n
            ≡ (if in_range first last n then None else held_of self.old n) }
    {
        self.kept.retain(|fd, _| !is_in_range(first, last, *fd));
        self.marked.retain(|fd, _| !is_in_range(first, last, *fd));
    }

    /// What a process that begins inherits of it: what is known of the descriptors below 256, so that there is a bound to what is kept
    /// for each child.
    pub fn inherit(&self) -> Result<Fds, NoMemory>
        ensures { IfOk result (λ made. (n : ℕ) → held_of made n
            ≡ inherited n (held_of self.now n)) }
    {
        let mut made = self.copy()?;
        made.keep_low();
        Ok(made)
    }

    // What isn't inherited is left out.
    fn keep_low(&mut self)
        ensures { (n : ℕ) → held_of self.new n ≡ inherited n (held_of self.old n) }
    {
        self.kept.retain(|fd, _| *fd < INHERITED);
        self.marked.retain(|fd, _| *fd < INHERITED);
    }

    // A second value.
    fn copy(&self) -> Result<Fds, NoMemory>
        ensures { IfOk result (λ made. made ≡ self.now) }
    {
        let kept = self.kept.clone()?;
        let marked = self.marked.clone()?;
        Ok(Fds { kept, marked })
    }
}

// Whether a descriptor is in a range.
fn is_in_range(first: u32, last: u32, fd: u32) -> bool
    ensures { result ≡ in_range first last fd }
{
    first <= fd && fd <= last
}
