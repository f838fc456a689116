//! What was seen of a node: the times of its processes and of its events.
ghost use Rattle.std.specs.Prelude.{◌≡◌, ℕ, [], Some, IfOk, OnOk};
ghost use Rattle.order_calls.specs.Reads.{IsRead};
ghost use Rattle.order_text.specs.Seen.{stamp_seen};
ghost use Rattle.order_place.specs.Sights.{StandsFor};
ghost use Rattle.order_place.specs.Nodes.{fresh, booted};
ghost use Rattle.order_place.specs.Places.{call_at, own_time, SeesNext, Forgets, HoldsEvent, event_slot, first_slot, call_slot, calls_by, held_by, call_number, not_before, HoldsBack};

use crate::clock::Clock;
use crate::events::Events;
use crate::slot::{Slot, fork_number};
use audit_lex::UsedLine;
use flow_base::NoMemory;
use order_calls::{Call, Files, Takes};
use order_text::Stamp;
use std::alloc::Global;
use std::collections::BTreeMap;
use std::marker::Model;

/// The milliseconds within which a read of a regular file counts: a tick of the clock by which calls are entered.
const TICK: u64 = 4;

/// What was seen of a node since it was started: its clock, which descriptors are known to be regular files, the slot before which
/// no call of a process counts, and the slots of the events that wait.
#[derive(Drop)]
pub struct Node {
    clock: Clock,
    files: Files,
    calls: BTreeMap<u32, Slot>,
    events: Events,
}

impl Model for Node {
    ghost use Rattle.order_place.specs.Places.{Seen};

    ghost Value = { Seen };

    ghost view = { λ a. record {
      clock = a.clock;
      files = a.files;
      calls = a.calls.entries;
      events = a.events;
    } };
}

impl Node {
    /// Nothing was seen.
    pub fn new(alloc: Global) -> Node
        ensures fresh { result ≡ fresh }
        ensures nothing { StandsFor result [] }
    {
        Node {
            clock: Clock::new(),
            files: Files::new(alloc),
            calls: BTreeMap::new(alloc),
            events: Events::new(alloc),
        }
    }

    /// The time of the clock.
    pub fn clock(&self) -> u64
        ensures { result ≡ self.now.clock.time }
    {
        self.clock.time
    }

    /// The node was started: what was known of its processes, their descriptors and its clock is so no longer.
    pub fn start(&mut self)
        ensures { self.new ≡ booted self.old }
    {
        self.clock = Clock::new();
        self.files.clear();
        self.calls.clear();
    }

    /// Where the next line counts, which may have been read.
    pub fn see(
        &mut self,
        line: &[u8],
        used: &Option<UsedLine<'_>>,
        stamp: &Stamp<'_>,
    ) -> Result<Slot, NoMemory>
        requires is { IsRead line.now used.now }
        ensures { IfOk result (λ slot.
            SeesNext self.old self.new (stamp_seen stamp.now) line.now slot) }
    {
        let call = self.files.see_read(line, used, stamp.ms, stamp.number)?;
        let clock = self.clock.after(stamp.ms, stamp.number);
        let slot = self.slot_of(call, stamp, clock.time)?;
        self.clock = clock;
        Ok(slot)
    }

    /// The event was written, so its place is known no longer.
    pub fn forget(&mut self, ms: u64, serial: u32)
        ensures { Forgets self.old self.new (ms, serial) }
    {
        self.events.forget(ms, serial);
    }

    // Where the event of a line counts: where its first line does.
    fn slot_of(
        &mut self,
        call: Option<Call>,
        stamp: &Stamp<'_>,
        most: u64,
    ) -> Result<Slot, NoMemory>
        ensures slot { IfOk result (λ slot. slot
            ≡ event_slot self.old (stamp.now.ms, stamp.now.number) call) }
        ensures holds { OnOk result (HoldsEvent self.old self.new
            (stamp.now.ms, stamp.now.number) most call) }
    {
        if let Some(slot) = self.events.get(stamp.ms, stamp.number) {
            return Ok(slot);
        }
        let slot = self.first_slot(call, stamp.ms, stamp.number, most)?;
        self.events.put(stamp.ms, stamp.number, slot)?;
        Ok(slot)
    }

    // Where an event counts that begins with a line of this call. The calls of its process after it count no earlier, nor do those of
    // a child that it began, as far as the clock got.
    fn first_slot(
        &mut self,
        call: Option<Call>,
        ms: u64,
        serial: u32,
        most: u64,
    ) -> Result<Slot, NoMemory>
        ensures slot { IfOk result (λ slot. slot ≡ first_slot self.old (ms, serial) call) }
        ensures calls { OnOk result ((pid : ℕ) → call_at self.new pid
            ≡ calls_by self.old call (ms, serial) most pid) }
        ensures same { self.new ≡ record self.old { calls = self.new.calls } }
    {
        match call {
            None => Ok(Slot {
                time: ms,
                goes_by: serial,
            }),
            Some(call) => {
                let before = self.call_before(call.pid);
                let slot = self.call_slot(call, ms, serial, before);
                let held = Slot {
                    time: slot.time.min(most),
                    goes_by: serial,
                };
                self.hold_back(call.pid, held, before)?;
                self.hold_child_back(call.child, held)?;
                Ok(slot)
            }
        }
    }

    // A child's calls count no earlier than this, if there is one.
    fn hold_child_back(&mut self, child: Option<u32>, held: Slot) -> Result<(), NoMemory>
        ensures holds { OnOk result (HoldsBack self.old self.new child held) }
        ensures same { self.new ≡ record self.old { calls = self.new.calls } }
    {
        match child {
            None => Ok(()),
            Some(child) => self.hold_back(child, held, self.call_before(child)),
        }
    }

    // The calls of a process count no earlier than this, nor than before.
    fn hold_back(&mut self, pid: u32, held: Slot, before: Option<Slot>) -> Result<(), NoMemory>
        requires { before ≡ call_at self.old pid }
        ensures holds { OnOk result (HoldsBack self.old self.new (Some pid) held) }
        ensures same { self.new ≡ record self.old { calls = self.new.calls } }
    {
        let slot = held.later_of(before);
        self.calls.insert(pid, slot)?;
        Ok(())
    }

    // The slot before which no call of a process counts.
    fn call_before(&self, pid: u32) -> Option<Slot>
        ensures { result ≡ call_at self.now pid }
    {
        match self.calls.get(&pid) {
            Some(slot) => Some(*slot),
            None => None,
        }
    }

    // Where a call counts: not before its entry, nor before the process's call before it.
    fn call_slot(&self, call: Call, ms: u64, serial: u32, before: Option<Slot>) -> Slot
        requires { before ≡ call_at self.now call.pid }
        ensures { result ≡ call_slot self.now (ms, serial) call }
    {
        let time = not_before(own_time(self.clock.time, ms, call.takes), before);
        Slot {
            time,
            goes_by: call_number(time, serial, call.child, before),
        }
    }
}

// This time, but none before that of the process's call before.
fn not_before(time: u64, before: Option<Slot>) -> u64
    ensures { result ≡ not_before time before }
{
    match before {
        Some(before) => time.max(before.time),
        None => time,
    }
}

// The number by which a call goes among those of its time: a fork may go before the calls of its child.
fn call_number(time: u64, serial: u32, child: Option<u32>, before: Option<Slot>) -> u32
    ensures { result ≡ call_number time serial child before }
{
    match child {
        Some(_) => fork_number(time, serial, before),
        None => serial,
    }
}

// The time at which a call counts by itself: what it may have waited for at the time of the clock, and what stands in a regular
// file too, but at most a tick after its entry.
fn own_time(clock: u64, ms: u64, takes: Takes) -> u64
    ensures { result ≡ own_time clock ms takes }
{
    match takes {
        Takes::Nothing => ms,
        Takes::File => ms.max(clock.min(ms.saturating_add(TICK))),
        Takes::Awaited => ms.max(clock),
    }
}
