//! The joiner: groups that wait in the order of their keys, and what is released of them.
ghost use Rattle.std.specs.Prelude.{◌≡◌, ◌↔◌, [], false, OnOk, OnErr, IfOk, Some, None, option_map, OnSome, IfNone, is_some, length, suc, true};
ghost use Rattle.record_join.specs.Events.{enter, taken_as, settled, ripe_key, next_event, next_left, count_keys};
ghost use Rattle.record_join.specs.History.{start};
ghost use Rattle.record_join.specs.Keys.{EndsAt};
ghost use Rattle.record_join.specs.PutBack.{fresh};
ghost use Rattle.record_join.specs.StandsFor.{NothingRipe, StandsFor, WhereStands, event_seen, ripe_first};
ghost use Rattle.audit_record.specs.declared.types.Record.{Record};

use crate::clock::JoinClock;
use crate::event::{Event, EventView, Taken};
use crate::group::{Group, text_without};
use crate::group_map::Groups;
use crate::kinds::ends_event;
use crate::parts::Parts;
use crate::records::shorten;
use crate::spare::Spare;
use audit_lex::EventKey;
use audit_record::Record;
use flow_base::{Limits, NoMemory};
use std::alloc::Global;
use std::marker::Model;

/// Joins records into events. Only `exchange` and `take` need memory.
#[derive(Drop)]
pub struct Join {
    alloc: Global,
    groups: Groups,
    /// The bytes of all waiting lines.
    text: usize,
    clock: JoinClock,
    limits: Limits,
    spare: Spare,
}

impl Model for Join {
    ghost use Rattle.record_join.specs.StandsFor.{Joiner, Stands};

    ghost Value = { Joiner };

    ghost view = { λ j. record {
      groups = j.groups;
      text = j.text;
      clock = j.clock;
      limits = j.limits;
    } };

    ghost invariant = { λ j. Stands (record {
      groups = j.groups;
      text = j.text;
      clock = j.clock;
      limits = j.limits;
    }) };
}

impl Join {
    /// A joiner that has seen nothing.
    pub fn new(alloc: Global, limits: &Limits) -> Join
        ensures stands { StandsFor limits.now result start }
        ensures nothing { NothingRipe result }
    {
        let clock = JoinClock {
            seen: None,
            released: None,
            effective: 0,
        };
        Join::resume(alloc, limits, clock)
    }

    /// A joiner without groups that got as far as another. Its groups are put back by `take` of their records, and
    /// of an EOE after those that were closed.
    pub fn resume(alloc: Global, limits: &Limits, clock: JoinClock) -> Join
        ensures stands { StandsFor limits.now result (fresh clock) }
        ensures nothing { NothingRipe result }
    {
        Join {
            alloc,
            groups: Groups::new(alloc),
            text: 0,
            clock,
            limits: *limits,
            spare: Spare::new(alloc),
        }
    }

    /// How far joining got.
    pub fn clock(&self) -> JoinClock
        ensures { result ≡ self.now.clock }
    {
        self.clock
    }

    /// How many groups wait.
    pub fn waiting(&self) -> usize
        ensures { WhereStands self.now (λ limits s. result ≡ count_keys s.waiting) }
    {
        self.groups.len()
    }

    /// The waiting groups, the least key first.
    pub fn parts(&self) -> Parts<'_>
        ensures { result ≡ self.now.groups }
    {
        self.groups.parts()
    }

    /// Takes one more record, once all that is ripe is released, and leaves any record in its place, whose memory can be
    /// used. If allocation fails, nothing has changed. Ends and records in excess need no memory.
    #[inline(always)]
    pub fn exchange(&mut self, item: &mut Record) -> Result<Taken, NoMemory>
        requires nothing { NothingRipe self.old }
        ensures ok { IfOk result (λ taken. WhereStands self.old (λ limits s.
            taken ≡ taken_as limits s item.old)) }
        ensures stands { OnOk result (WhereStands self.old (λ limits s.
            StandsFor limits self.new (enter limits s item.old))) }
        ensures err { OnErr result (self.new ≡ self.old) }
        ensures same { OnErr result (item.new ≡ item.old) }
        ensures memory { OnErr result (WhereStands self.old (λ limits s.
            taken_as limits s item.old ≡ Taken.Held)) }
    {
        let key = item.key;
        if ends_event(item) {
            self.end(key);
            return Ok(Taken::Closed);
        }
        if self.groups.is_excess(&self.limits, item) {
            shorten(item);
            self.clock.see(key.ms);
            return Ok(Taken::Excess);
        }
        // The sum is exact, so that it never drifts from the lines that wait: they were within the limit.
        let text = self.text + item.line.as_slice().len();
        self.groups.hold(self.alloc, &mut self.spare, item)?;
        self.text = text;
        self.clock.see(key.ms);
        Ok(Taken::Held)
    }

    /// Takes a record as `exchange` does, and keeps the memory of none. If allocation fails, nothing has changed, and the
    /// record is lost: its caller keeps the line.
    pub fn take(&mut self, item: Record) -> Result<Taken, NoMemory>
        requires nothing { NothingRipe self.old }
        ensures ok { IfOk result (λ taken. WhereStands self.old (λ limits s.
            taken ≡ taken_as limits s item)) }
        ensures stands { OnOk result (WhereStands self.old (λ limits s.
            StandsFor limits self.new (enter limits s item))) }
        ensures err { OnErr result (self.new ≡ self.old) }
        ensures memory { OnErr result (WhereStands self.old (λ limits s.
            taken_as limits s item ≡ Taken.Held)) }
    {
        let mut item = item;
        self.exchange(&mut item)
    }

    /// Takes the end of the event of a key, as `exchange` does the record of an end. It says no more than its key, so that no
    /// record need be made of it. It needs no memory.
    pub fn end(&mut self, key: EventKey)
        ensures { (item : Record) → EndsAt key item
            → WhereStands self.old (λ limits s. StandsFor limits self.new (enter limits s item)) }
    {
        self.groups.close(&key);
        self.clock.see(key.ms);
    }

    /// Whether an event can be released.
    pub fn ripe(&self) -> bool
        ensures ripe { WhereStands self.now (λ limits s. result ≡ is_some (ripe_key limits s)) }
        ensures nothing { (result ≡ false) ↔ NothingRipe self.now }
    {
        self.least_ripe().is_some()
    }

    /// Borrows the event that is released next.
    pub fn peek(&self) -> Option<EventView<'_>>
        ensures { WhereStands self.now (λ limits s.
            option_map event_seen result ≡ next_event limits s) }
    {
        match self.least_ripe() {
            Some((key, group)) => Some(EventView {
                key: *key,
                ms: self.clock.time_of(*key),
                late: self.clock.is_late(*key),
                records: group.records.as_slice(),
            }),
            None => None,
        }
    }

    /// Releases the least group, if it is ripe.
    pub fn next(&mut self) -> Option<Event>
        ensures event { WhereStands self.old (λ limits s. result ≡ next_event limits s) }
        ensures stands { WhereStands self.old (λ limits s.
            StandsFor limits self.new (next_left limits s)) }
        ensures some { OnSome result (length self.old.groups ≡ suc (length self.new.groups)) }
        ensures none { IfNone result (self.new ≡ self.old) }
        ensures nothing { IfNone result (NothingRipe self.new) }
    {
        if !self.ripe() {
            return None;
        }
        Some(self.release())
    }

    /// Passes over the event that is released next, of which there is one. The memory of its list and of its records is
    /// kept for the next groups.
    pub fn pass(&mut self)
        requires ripe { WhereStands self.old (λ limits s. is_some (ripe_key limits s) ≡ true) }
        ensures stands { WhereStands self.old (λ limits s.
            StandsFor limits self.new (next_left limits s)) }
        ensures less { length self.old.groups ≡ suc (length self.new.groups) }
    {
        let event = self.release();
        self.spare.keep(event.records);
    }

    // Releases the least group, which is ripe.
    fn release(&mut self) -> Event
        requires ripe { WhereStands self.old (λ limits s. is_some (ripe_key limits s) ≡ true) }
        ensures event { WhereStands self.old (λ limits s. Some result ≡ next_event limits s) }
        ensures stands { WhereStands self.old (λ limits s.
            StandsFor limits self.new (next_left limits s)) }
        ensures less { length self.old.groups ≡ suc (length self.new.groups) }
    {
        let Some((key, group)) = self.groups.pop_first() else {
            unreachable!()
        };
        let event = Event {
            key,
            ms: self.clock.time_of(key),
            late: self.clock.is_late(key),
            records: group.records,
        };
        self.text = text_without(self.text, event.records.as_slice());
        self.clock.release(key);
        event
    }

    /// Marks every waiting group closed.
    pub fn settle(&mut self)
        ensures { WhereStands self.old (λ limits s. StandsFor limits self.new (settled s)) }
    {
        self.groups.close_all();
    }

    /// The least group, if it is ripe.
    fn least_ripe(&self) -> Option<(&EventKey, &Group)>
        ensures { option_map (λ p. (p.0.now, p.1.now)) result
            ≡ ripe_first self.now self.now.groups }
    {
        let (key, group) = self.groups.first()?;
        let crowded = self.groups.len() > self.limits.groups || self.text > self.limits.text;
        if group.closed || self.clock.is_past(key.ms) || crowded {
            Some((key, group))
        } else {
            None
        }
    }
}
