//! What is known of the descriptors of a process.
ghost use Rattle.std.specs.Prelude.{◌≡◌, ℕ, None, Some, true, IfOk, OnOk, IfSome, option_map, is_some, if◌then◌else◌};
ghost use Rattle.std.specs.Map.{lookup};
ghost use Rattle.order_calls.specs.Deeds.{is_same, counts, gift_of, given, since, born, closed_in, is_regular};
ghost use Rattle.order_calls.specs.Known.{no_fds, at_run, thing_of, left_by};

use flow_base::NoMemory;
use std::alloc::Global;
use std::collections::BTreeMap;
use std::marker::Model;

/// What a descriptor holds, as a line said last.
#[derive(Clone, Copy, Debug, PartialEq, Eq)]
pub enum Thing {
    /// Something that isn't known to be a regular file.
    Other,
    /// A regular file, as an event of this time said, in milliseconds. If the process inherited it, it has it from this parent.
    File { since: u64, from: Option<u32> },
}

/// What lines said of the descriptors of a process, and whether it runs another program since.
#[derive(Drop)]
pub struct Held {
    said: BTreeMap<u32, Thing>,
    ran: bool,
}

impl Model for Held {
    ghost use Rattle.order_calls.specs.Known.{Fds};

    ghost Value = { Fds };

    ghost view = { λ a. record { said = a.said.entries; ran = a.ran } };
}

impl Held {
    /// Nothing was said.
    pub fn new(alloc: Global) -> Held
        ensures { result ≡ no_fds }
    {
        Held {
            said: BTreeMap::new(alloc),
            ran: false,
        }
    }

    /// What was last said of a descriptor.
    pub fn get(&self, fd: u32) -> Option<Thing>
        ensures { result ≡ thing_of self.now fd }
    {
        match self.said.get(&fd) {
            Some(thing) => Some(*thing),
            None => self.at_run(fd),
        }
    }

    // What is known of a descriptor of which nothing was said since the process began to run its program.
    fn at_run(&self, fd: u32) -> Option<Thing>
        ensures { result ≡ at_run self.now.ran fd }
    {
        if self.ran && fd != 0 {
            Some(Thing::Other)
        } else {
            None
        }
    }

    /// A descriptor holds this from now on.
    pub fn set(&mut self, fd: u32, thing: Thing) -> Result<(), NoMemory>
        ensures { OnOk result ((n : ℕ) → thing_of self.new n
            ≡ (if is_same fd n then Some thing else thing_of self.old n)) }
    {
        self.said.insert(fd, thing)?;
        Ok(())
    }

    /// What was said of the descriptors of a range holds no longer: they were closed.
    pub fn close_range(&mut self, first: u32, last: u32)
        ensures { (n : ℕ) → thing_of self.new n ≡ closed_in first last n (thing_of self.old n) }
    {
        self.said
            .retain(|fd, thing| close_if(first <= *fd && *fd <= last, thing));
    }

    /// The process began to run another program: the standard input alone is known to stay.
    pub fn run(&mut self) -> Result<(), NoMemory>
        ensures { OnOk result ((n : ℕ) → thing_of self.new n
            ≡ (if is_same 0 n then thing_of self.old 0 else Some Thing.Other)) }
    {
        let input = self.get(0);
        self.said.clear();
        self.ran = true;
        match input {
            Some(thing) => self.set(0, thing),
            None => Ok(()),
        }
    }

    /// What a child inherits that a process of this number and parent, which holds this, began at this time.
    pub fn gift(&self, ms: u64, pid: u32, parent: Option<u32>) -> Result<Held, NoMemory>
        ensures { IfOk result (λ made. (n : ℕ) → lookup (is_same n) made.said
            ≡ given ms pid parent (thing_of self.now n)) }
    {
        let mut held = self.copy()?;
        held.pass_on(ms, pid, parent);
        Ok(held)
    }

    // A second value.
    fn copy(&self) -> Result<Held, NoMemory>
        ensures { IfOk result (λ made. made ≡ self.now) }
    {
        let said = self.said.clone()?;
        Ok(Held {
            said,
            ran: self.ran,
        })
    }

    // What a child doesn't inherit is left out.
    fn pass_on(&mut self, ms: u64, pid: u32, parent: Option<u32>)
        ensures { (n : ℕ) → lookup (is_same n) self.new.said
            ≡ given ms pid parent (thing_of self.old n) }
    {
        self.said.retain(|_, thing| keep_as(thing, gift_of(ms, pid, parent, *thing)));
    }

    /// The process began at this time, with this gift: what was said of it before that is known no longer.
    pub fn begin(&mut self, ms: u64, gift: Held) -> Result<(), NoMemory>
        ensures { OnOk result ((n : ℕ) → thing_of self.new n
            ≡ born ms (thing_of self.old n) (lookup (is_same n) gift.said)) }
    {
        let mut gift = gift;
        gift.leave(self);
        self.forget(ms);
        self.said.append(&mut gift.said)?;
        Ok(())
    }

    // Nothing is known of the descriptors of which the other says something.
    fn leave(&mut self, other: &Held)
        ensures { (n : ℕ) → lookup (is_same n) self.new.said
            ≡ left_by (thing_of other.now n) (lookup (is_same n) self.old.said) }
    {
        self.said.retain(|fd, _| other.get(*fd).is_none());
    }

    // What was said before this time is known no longer.
    fn forget(&mut self, ms: u64)
        ensures said { (n : ℕ) → lookup (is_same n) self.new.said
            ≡ option_map (since ms) (lookup (is_same n) self.old.said) }
        ensures ran { self.new.ran ≡ self.old.ran }
    {
        self.said
            .retain(|_, thing| keep_as(thing, Some(since(ms, *thing))));
    }
}

impl Thing {
    /// Whether this is a regular file, for a process of this parent.
    pub fn is_regular(self, parent: Option<u32>) -> bool
        ensures { result ≡ is_regular parent (Some self) }
    {
        match self {
            Thing::Other => false,
            Thing::File { since: _, from } => counts(parent, from),
        }
    }
}

// Whether what a process of this parent holds counts, if it inherited it from this one.
fn counts(parent: Option<u32>, from: Option<u32>) -> bool
    ensures { result ≡ counts parent from }
{
    match from {
        None => true,
        Some(from) => parent == Some(from),
    }
}

// What a process of this parent gives to a child that begins at this time.
fn gift_of(ms: u64, pid: u32, parent: Option<u32>, thing: Thing) -> Option<Thing>
    ensures { result ≡ gift_of ms pid parent thing }
{
    match thing {
        Thing::Other => None,
        Thing::File { since, from } => {
            if since <= ms && counts(parent, from) {
                Some(Thing::File {
                    since,
                    from: Some(pid),
                })
            } else {
                None
            }
        }
    }
}

// What was said before this time is known no longer.
fn since(ms: u64, thing: Thing) -> Thing
    ensures { result ≡ since ms thing }
{
    match thing {
        Thing::Other => Thing::Other,
        Thing::File { since, from: _ } => { if ms <= since { thing } else { Thing::Other } }
    }
}

// A thing is no file any longer, if that is so. It stays in any case.
fn close_if(closes: bool, thing: &mut Thing) -> bool
    ensures kept { result ≡ true }
    ensures now { thing.new ≡ (if closes then Thing.Other else thing.old) }
{
    if closes {
        *thing = Thing::Other;
    }
    true
}

// A thing becomes another one, if there is one. Says whether there is.
fn keep_as(thing: &mut Thing, change: Option<Thing>) -> bool
    ensures kept { result ≡ is_some change }
    ensures now { IfSome change (λ other. thing.new ≡ other) }
{
    match change {
        Some(other) => {
            *thing = other;
            true
        }
        None => false,
    }
}
