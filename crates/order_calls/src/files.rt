//! Which descriptors are known to be regular files, by what lines said.
ghost use Rattle.std.specs.Prelude.{◌≡◌, ℕ, List, [], ◌∷◌, None, Some, false, is_some, IfOk, OnOk, if◌then◌else◌};
ghost use Rattle.std.specs.Map.{lookup};
ghost use Rattle.order_calls.specs.Deeds.{Event, Said, is_same, is_at, told, copy_of, given};
ghost use Rattle.order_calls.specs.Known.{nothing, fds_at, held_at, is_file_at, opened_at, Keeps, Becomes, Hears, StandsFor};

use crate::deed::Deed;
use crate::held::{Held, Thing};
use flow_base::NoMemory;
use std::alloc::Global;
use std::collections::BTreeMap;
use std::marker::Model;

/// Which descriptors are known to be regular files, and which were opened of whose kind nothing was said so far.
#[derive(Drop)]
pub struct Files {
    alloc: Global,
    held: BTreeMap<u32, Held>,
    opens: BTreeMap<(u64, u32), (u32, u32)>,
}

impl Model for Files {
    ghost use Rattle.order_calls.specs.Known.{Known};

    ghost Value = { Known };

    ghost view = { λ a. record { held = a.held.entries; opens = a.opens.entries } };
}

impl Files {
    /// Nothing was said.
    pub fn new(alloc: Global) -> Files
        ensures is { result ≡ nothing }
        ensures nothing { StandsFor result [] }
    {
        Files {
            alloc,
            held: BTreeMap::new(alloc),
            opens: BTreeMap::new(alloc),
        }
    }

    /// Nothing that was said holds any longer.
    pub fn clear(&mut self)
        ensures is { self.new ≡ nothing }
        ensures nothing { StandsFor self.new [] }
    {
        self.held.clear();
        self.opens.clear();
    }

    /// Whether a descriptor of a process of this parent is known to be a regular file.
    pub fn is_file(&self, pid: u32, parent: Option<u32>, fd: u32) -> bool
        ensures { result ≡ is_file_at self.now pid parent fd }
    {
        match self.get(pid, fd) {
            Some(thing) => thing.is_regular(parent),
            None => false,
        }
    }

    // What was last said of a descriptor of a process.
    fn get(&self, pid: u32, fd: u32) -> Option<Thing>
        ensures { result ≡ held_at self.now pid fd }
    {
        match self.held.get(&pid) {
            Some(held) => held.get(fd),
            None => None,
        }
    }

    /// Whether the call of an event opened a descriptor of whose kind nothing was said so far.
    pub fn awaits(&self, ms: u64, serial: u32) -> bool
        ensures { result ≡ is_some (opened_at self.now (ms, serial)) }
    {
        self.opens.get(&(ms, serial)).is_some()
    }

    /// A line of an event said this.
    pub fn hear(&mut self, ms: u64, serial: u32, said: Deed) -> Result<(), NoMemory>
        ensures hears { OnOk result (Hears self.old self.new (ms, serial) said) }
        ensures stands { OnOk result ((before : List Said) → StandsFor self.old before
            → StandsFor self.new (((ms, serial), said) ∷ before)) }
    {
        self.note(ms, serial, said)
    }

    // A line of an event said this.
    fn note(&mut self, ms: u64, serial: u32, said: Deed) -> Result<(), NoMemory>
        ensures { OnOk result (Hears self.old self.new (ms, serial) said) }
    {
        match said {
            Deed::Opens { pid, fd } => self.open(ms, serial, pid, fd),
            Deed::Names { file } => self.name(ms, serial, file),
            Deed::Ends => self.end(ms, serial),
            Deed::Closes { pid, fd } => self.close(pid, fd),
            Deed::ClosesRange { pid, first, last } => self.close_range(pid, first, last),
            Deed::Copies { pid, from, to } => self.copy(ms, pid, from, to),
            Deed::Runs { pid } => self.run(pid),
            Deed::Begins { pid } => self.begin(pid),
            Deed::Forks { pid, parent, child } => self.fork(ms, pid, parent, child),
        }
    }

    // The call of an event opened a descriptor.
    fn open(&mut self, ms: u64, serial: u32, pid: u32, fd: u32) -> Result<(), NoMemory>
        ensures { OnOk result (Hears self.old self.new (ms, serial) (Deed.Opens pid fd)) }
    {
        self.set(pid, fd, Thing::Other)?;
        self.opens.insert((ms, serial), (pid, fd))?;
        Ok(())
    }

    // What the call of an event opened is a regular file, or isn't.
    fn name(&mut self, ms: u64, serial: u32, file: bool) -> Result<(), NoMemory>
        ensures { OnOk result (Hears self.old self.new (ms, serial) (Deed.Names file)) }
    {
        match self.opens.remove(&(ms, serial)) {
            None => Ok(()),
            Some((pid, fd)) => self.set(pid, fd, told(ms, file)),
        }
    }

    // An event has no more lines.
    fn end(&mut self, ms: u64, serial: u32) -> Result<(), NoMemory>
        ensures { OnOk result (Hears self.old self.new (ms, serial) Deed.Ends) }
    {
        let _ = self.opens.remove(&(ms, serial));
        Ok(())
    }

    // A process closed a descriptor.
    fn close(&mut self, pid: u32, fd: u32) -> Result<(), NoMemory>
        ensures { OnOk result ((event : Event) →
            Hears self.old self.new event (Deed.Closes pid fd)) }
    {
        self.set(pid, fd, Thing::Other)
    }

    // A process closed the descriptors of a range.
    fn close_range(&mut self, pid: u32, first: u32, last: u32) -> Result<(), NoMemory>
        ensures { OnOk result ((event : Event) →
            Hears self.old self.new event (Deed.ClosesRange pid first last)) }
    {
        let mut held = self.take(pid);
        held.close_range(first, last);
        self.keep(pid, held)
    }

    // A process copied a descriptor.
    fn copy(&mut self, ms: u64, pid: u32, from: u32, to: u32) -> Result<(), NoMemory>
        ensures { OnOk result ((serial : ℕ) →
            Hears self.old self.new (ms, serial) (Deed.Copies pid from to)) }
    {
        let thing = copy_of(ms, self.get(pid, from));
        self.set(pid, to, thing)
    }

    // A process runs another program.
    fn run(&mut self, pid: u32) -> Result<(), NoMemory>
        ensures { OnOk result ((event : Event) →
            Hears self.old self.new event (Deed.Runs pid)) }
    {
        let mut held = self.take(pid);
        held.run()?;
        self.keep(pid, held)
    }

    // A process begins with nothing that is known, or has ended.
    fn begin(&mut self, pid: u32) -> Result<(), NoMemory>
        ensures { OnOk result ((event : Event) →
            Hears self.old self.new event (Deed.Begins pid)) }
    {
        let _ = self.held.remove(&pid);
        Ok(())
    }

    // A process began a child.
    fn fork(&mut self, ms: u64, pid: u32, parent: Option<u32>, child: u32) -> Result<(), NoMemory>
        ensures { OnOk result ((serial : ℕ) →
            Hears self.old self.new (ms, serial) (Deed.Forks pid parent child)) }
    {
        let gift = self.gift(ms, pid, parent)?;
        let mut held = self.take(child);
        held.begin(ms, gift)?;
        self.keep(child, held)
    }

    // What a child inherits from a process of this parent.
    fn gift(&self, ms: u64, pid: u32, parent: Option<u32>) -> Result<Held, NoMemory>
        ensures { IfOk result (λ made. (n : ℕ) → lookup (is_same n) made.said
            ≡ given ms pid parent (held_at self.now pid n)) }
    {
        match self.held.get(&pid) {
            Some(held) => held.gift(ms, pid, parent),
            None => Ok(Held::new(self.alloc)),
        }
    }

    // A descriptor holds this from now on.
    fn set(&mut self, pid: u32, fd: u32, thing: Thing) -> Result<(), NoMemory>
        ensures { OnOk result (Becomes self.old self.new (λ p n.
            if is_at pid fd p n then Some thing else held_at self.old p n)) }
    {
        let mut held = self.take(pid);
        held.set(fd, thing)?;
        self.keep(pid, held)
    }

    // What is kept of a process, which is taken out.
    fn take(&mut self, pid: u32) -> Held
        ensures here { result ≡ fds_at self.old pid }
        ensures others { (p : ℕ) → is_same pid p ≡ false → fds_at self.new p ≡ fds_at self.old p }
        ensures opens { self.new.opens ≡ self.old.opens }
    {
        match self.held.remove(&pid) {
            Some(held) => held,
            None => Held::new(self.alloc),
        }
    }

    // What is kept of a process is put back.
    fn keep(&mut self, pid: u32, held: Held) -> Result<(), NoMemory>
        ensures { OnOk result (Keeps self.old self.new pid held) }
    {
        self.held.insert(pid, held)?;
        Ok(())
    }
}

// What an event says that a call opened.
fn told(ms: u64, file: bool) -> Thing
    ensures { result ≡ told ms file }
{
    if file {
        Thing::File {
            since: ms,
            from: None,
        }
    } else {
        Thing::Other
    }
}

// What a copy holds that is made at this time.
fn copy_of(ms: u64, thing: Option<Thing>) -> Thing
    ensures { result ≡ copy_of ms thing }
{
    match thing {
        Some(Thing::File { since: _, from }) => Thing::File { since: ms, from },
        _ => Thing::Other,
    }
}
