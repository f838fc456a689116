//! The forks and the children of one process.
ghost use Rattle.std.specs.Prelude.{◌≡◌, ◌<◌, length, nat_lt, OnOk};
ghost use Rattle.std.specs.List.{list_any, filter, fold};
ghost use Rattle.order_kin.specs.Broods as broods;
ghost use Rattle.order_kin.specs.Broods.{no_brood, closed_brood, is_fork, is_answer, is_kid, forks_before, kids_before, settled, born, forked, least_of, sooner, next_of, may_be, with_kid, only_kid, told};

use flow_base::NoMemory;
use std::alloc::Global;
use std::marker::Model;

/// The most forks, and the most children, of a process that are kept.
const MOST: usize = 1_024;

/// The milliseconds before a fork from which on others are kept that may wait to be written.
const PAST: u64 = 60_000;

/// A fork: the time and the serial number of its event, and its answer.
#[derive(Clone, Copy, Debug, PartialEq, Eq)]
pub struct Fork {
    pub ms: u64,
    pub serial: u32,
    pub answer: u32,
}

/// A child: its number, and the time of its first call.
#[derive(Clone, Copy, Debug, PartialEq, Eq)]
pub struct Kid {
    pub pid: u32,
    pub ms: u64,
}

/// The children that may be that of a fork: none, one, or more.
#[derive(Clone, Copy, Debug, PartialEq, Eq)]
pub enum Found {
    Nobody,
    One { pid: u32 },
    More,
}

/// The forks and the children of a process, or that it isn't followed.
#[derive(Drop)]
pub struct Brood {
    closed: bool,
    forks: Vec<Fork>,
    kids: Vec<Kid>,
}

impl Model for Brood {
    ghost use Rattle.order_kin.specs.Broods.{Kept};

    ghost Value = { Kept };

    ghost view = { λ a. record { closed = a.closed; forks = a.forks.items; kids = a.kids.items } };
}

impl Brood {
    /// Neither a fork nor a child was seen.
    pub fn new(alloc: Global) -> Brood
        ensures { result ≡ no_brood }
    {
        Brood {
            closed: false,
            forks: Vec::new(alloc),
            kids: Vec::new(alloc),
        }
    }

    /// One more child was seen.
    pub fn bear(&mut self, kid: Kid) -> Result<(), NoMemory>
        ensures { OnOk result (self.new ≡ born kid self.old) }
    {
        if self.closed {
            return Ok(());
        }
        if self.has_answer(kid.pid) || self.kids.len() >= MOST {
            self.close();
            return Ok(());
        }
        self.kids.push(kid)?;
        Ok(())
    }

    /// One more fork was seen.
    pub fn fork(&mut self, fork: Fork) -> Result<(), NoMemory>
        ensures { OnOk result (self.new ≡ forked fork self.old) }
    {
        if self.closed {
            return Ok(());
        }
        if self.has_kid(fork.answer) || self.forks.len() >= MOST {
            self.close();
            return Ok(());
        }
        self.settle(fork.ms.saturating_sub(PAST));
        self.forks.push(fork)?;
        Ok(())
    }

    /// The child that the fork of an event has begun, if it can be told.
    pub fn told(&self, ms: u64, serial: u32) -> Option<u32>
        ensures { result ≡ told ms serial self.now }
    {
        if !self.has_fork(ms, serial) || self.forks_before(ms) > self.kids_before(ms) {
            return None;
        }
        match self.only_kid(ms, self.next(ms, serial)) {
            Found::One { pid } => Some(pid),
            _ => None,
        }
    }

    // The process isn't followed.
    fn close(&mut self)
        ensures { self.new ≡ closed_brood }
    {
        self.closed = true;
        self.forks.clear();
        self.kids.clear();
    }

    // Forks and children of before this time are left out, if there are as many children as forks.
    fn settle(&mut self, time: u64)
        ensures { self.new ≡ settled time self.old }
    {
        if self.forks_before(time) <= self.kids_before(time) {
            self.forks.retain(|fork| fork.ms >= time);
            self.kids.retain(|kid| kid.ms >= time);
        }
    }

    // Whether a fork has this answer.
    fn has_answer(&self, pid: u32) -> bool
        ensures { result ≡ list_any (is_answer pid) self.now.forks }
    {
        self.forks.iter().any(|fork| fork.answer == pid)
    }

    // Whether this is a child.
    fn has_kid(&self, pid: u32) -> bool
        ensures { result ≡ list_any (is_kid pid) self.now.kids }
    {
        self.kids.iter().any(|kid| kid.pid == pid)
    }

    // Whether this event is a fork.
    fn has_fork(&self, ms: u64, serial: u32) -> bool
        ensures { result ≡ list_any (is_fork ms serial) self.now.forks }
    {
        self.forks
            .iter()
            .any(|fork| fork.ms == ms && fork.serial == serial)
    }

    // How many forks were made before this time.
    fn forks_before(&self, time: u64) -> usize
        ensures { result ≡ forks_before time self.now.forks }
    {
        self.forks.iter().filter(|fork| fork.ms < time).count()
    }

    // How many children were there before this time.
    fn kids_before(&self, time: u64) -> usize
        ensures { result ≡ kids_before time self.now.kids }
    {
        self.kids.iter().filter(|kid| kid.ms < time).count()
    }

    // The time of the fork after that of an event.
    fn next(&self, ms: u64, serial: u32) -> Option<u64>
        ensures { result ≡ next_of ms serial self.now.forks }
    {
        let mut next = None;
        for fork in &self.forks {
            next = sooner(ms, serial, next, fork);
        }
        next
    }

    // The children that may be that of a fork of this time, if the next fork is this.
    fn only_kid(&self, ms: u64, next: Option<u64>) -> Found
        ensures { result ≡ only_kid ms next self.now.kids }
    {
        let mut found = Found::Nobody;
        for kid in &self.kids {
            found = with_kid(ms, next, found, kid);
        }
        found
    }
}

// The lesser of two times, if there is a first.
fn least_of(next: Option<u64>, time: u64) -> u64
    ensures { result ≡ least_of next time }
{
    match next {
        None => time,
        Some(next) => next.min(time),
    }
}

// The time of the fork after that of an event, with one more fork.
fn sooner(ms: u64, serial: u32, next: Option<u64>, fork: &Fork) -> Option<u64>
    ensures { result ≡ sooner ms serial next fork.now }
{
    let is_it = fork.ms == ms && fork.serial == serial;
    if is_it || fork.ms < ms {
        return next;
    }
    Some(least_of(next, fork.ms))
}

// Whether a child may be that of a fork of this time, if the next fork is this.
fn may_be(ms: u64, next: Option<u64>, kid: &Kid) -> bool
    ensures { result ≡ may_be ms next kid.now }
{
    match next {
        None => ms <= kid.ms,
        Some(next) => ms <= kid.ms && kid.ms < next,
    }
}

// One more child that may be that of a fork.
fn with_kid(ms: u64, next: Option<u64>, found: Found, kid: &Kid) -> Found
    ensures { result ≡ with_kid ms next found kid.now }
{
    if !may_be(ms, next, kid) {
        return found;
    }
    match found {
        Found::Nobody => Found::One { pid: kid.pid },
        _ => Found::More,
    }
}
