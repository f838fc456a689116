//! Descriptors that were noted since a mark: those that were touched while they held something, so that a commit can say
//! which of them hold nothing any more, or those at which something was put, so that it says what these hold and no more.
ghost use Rattle.std.specs.Prelude.{◌≡◌, ◌==◌, ◌&&◌, ◌||◌, ℕ, [], OnOk, OnErr, is_some};
ghost use Rattle.std.specs.List.{list_any};
ghost use Rattle.acts.specs.Holding.{is_at};
ghost use Rattle.fd_table.specs.Table.{held_at, is_marked};
ghost use Rattle.flow_events.specs.Since.{AddsHeld, HasEach, HasThose, StillHas, any_may_put, any_touches, has_slot, may_put, touches};

use acts::Act;
use fd_table::Fds;
use flow_base::NoMemory;
use indexmap::IndexSet;
use std::alloc::Global;
use std::marker::Model;
use table_salt::Salt;

/// Descriptors, each with its pid.
#[derive(Drop)]
pub struct Slots {
    all: IndexSet<(u32, u32), Salt>,
}

impl Model for Slots {
    ghost use Rattle.std.specs.Prelude.{ℕ, List};

    ghost Value = { List (ℕ × ℕ) };

    ghost view = { λ a. a.all.keys };
}

impl Slots {
    /// No descriptors.
    pub fn new(alloc: Global, salt: Salt) -> Slots
        ensures { result ≡ [] }
    {
        Slots {
            all: IndexSet::with_hasher(alloc, salt),
        }
    }

    /// Forgets all. It takes no memory.
    pub fn clear(&mut self)
        ensures { self.new ≡ [] }
    {
        self.all.clear();
    }

    /// The descriptors.
    pub fn as_slice(&self) -> &[(u32, u32)]
        ensures { result.now ≡ self.now }
    {
        self.all.as_slice()
    }

    /// Whether a descriptor was noted.
    pub fn has(&self, pid: u32, fd: u32) -> bool
        ensures { result ≡ has_slot self.now pid fd }
    {
        self.all.contains(&(pid, fd))
    }

    // Puts a descriptor.
    fn put(&mut self, pid: u32, fd: u32) -> Result<(), NoMemory>
        ensures ok { OnOk result ((p n : ℕ) →
            has_slot self.new p n ≡ (is_at pid fd p n || has_slot self.old p n)) }
        ensures err { OnErr result (self.new ≡ self.old) }
    {
        self.all.insert((pid, fd))?;
        Ok(())
    }

    #[tactic(auto, using(crate::proofs::Noting::none_added, crate::proofs::Noting::put_noted, crate::proofs::Noting::none_noted, crate::proofs::Noting::some_object))]
    // Notes a descriptor, if it holds something.
    fn note(&mut self, fds: &Fds, pid: u32, fd: u32) -> Result<(), NoMemory>
        ensures adds { AddsHeld fds.now self.old self.new }
        ensures noted { OnOk result (HasThose fds.now self.new
            (λ p n held. is_at pid fd p n && is_some held)) }
    {
        if fds.held(pid, fd).is_none() {
            return Ok(());
        }
        self.put(pid, fd)
    }

    #[tactic(auto, using(crate::proofs::Noting::adds_again, crate::proofs::Noting::both_noted))]
    // Notes two descriptors.
    fn note_both(&mut self, fds: &Fds, pid: u32, first: u32, second: u32) -> Result<(), NoMemory>
        ensures adds { AddsHeld fds.now self.old self.new }
        ensures noted { OnOk result (HasThose fds.now self.new
            (λ p n held. (is_at pid first p n || is_at pid second p n) && is_some held)) }
    {
        self.note(fds, pid, first)?;
        self.note(fds, pid, second)
    }

    // Notes the descriptors that an exec closes.
    fn note_marked(&mut self, fds: &Fds, pid: u32) -> Result<(), NoMemory>
        ensures adds { AddsHeld fds.now self.old self.new }
        ensures noted { OnOk result (HasThose fds.now self.new
            (λ p n held. pid == p && is_marked held)) }
    {
        let marked = fds.marked(pid)?;
        for fd in marked.as_slice() {
            self.note(fds, pid, *fd)?;
        }
        Ok(())
    }

    // Notes the descriptors that an act touches.
    fn note_act(&mut self, fds: &Fds, act: &Act) -> Result<(), NoMemory>
        ensures adds { AddsHeld fds.now self.old self.new }
        ensures noted { OnOk result (HasThose fds.now self.new (touches act.now)) }
    {
        match act {
            Act::Exec { pid } => self.note_marked(fds, *pid),
            Act::Set { pid, fd, .. } => self.note(fds, *pid, *fd),
            Act::SetBoth {
                pid,
                first,
                second,
                ..
            } => self.note_both(fds, *pid, *first, *second),
            Act::Copy { pid, to, .. } => self.note(fds, *pid, *to),
            Act::Close { pid, fd } => self.note(fds, *pid, *fd),
            Act::Mark { pid, fd, .. } => self.note(fds, *pid, *fd),
            Act::Address { pid, fd, .. } => self.note(fds, *pid, *fd),
            _ => Ok(()),
        }
    }

    // Puts two descriptors.
    fn put_both(&mut self, pid: u32, first: u32, second: u32) -> Result<(), NoMemory>
        ensures stay { StillHas self.old self.new }
        ensures noted { OnOk result (HasEach self.new
            (λ p n. is_at pid first p n || is_at pid second p n)) }
    {
        self.put(pid, first)?;
        self.put(pid, second)
    }

    // Puts the descriptors at which an act may put something.
    fn put_act(&mut self, act: &Act) -> Result<(), NoMemory>
        ensures stay { StillHas self.old self.new }
        ensures noted { OnOk result (HasEach self.new (may_put act.now)) }
    {
        match act {
            Act::Set { pid, fd, .. } => self.put(*pid, *fd),
            Act::SetBoth {
                pid,
                first,
                second,
                ..
            } => self.put_both(*pid, *first, *second),
            Act::Copy { pid, to, .. } => self.put(*pid, *to),
            Act::Mark { pid, fd, .. } => self.put(*pid, *fd),
            Act::Address { pid, fd, .. } => self.put(*pid, *fd),
            _ => Ok(()),
        }
    }

    /// Puts the descriptors at which these acts may put something.
    pub fn put_acts(&mut self, acts: &[Act]) -> Result<(), NoMemory>
        ensures stay { StillHas self.old self.new }
        ensures noted { OnOk result (HasEach self.new (any_may_put acts.now)) }
    {
        for act in acts {
            self.put_act(act)?;
        }
        Ok(())
    }

    /// Notes the descriptors that these acts touch. They hold what they do before the acts.
    pub fn note_acts(&mut self, fds: &Fds, acts: &[Act]) -> Result<(), NoMemory>
        ensures adds { AddsHeld fds.now self.old self.new }
        ensures noted { OnOk result (HasThose fds.now self.new (any_touches acts.now)) }
    {
        for act in acts {
            self.note_act(fds, act)?;
        }
        Ok(())
    }
}
