//! What is worked out of an event, act by act.
ghost use Rattle.std.specs.Prelude.{◌≡◌, ◌≤◌, ◌<◌, ◌+◌, ◌++◌, ◌^◌, [], All, IfOk, OnOk, length, map};
ghost use Rattle.acts.specs.Flows.{with_ends};
ghost use Rattle.call_acts.specs.Events.{IsCalmOf, IsOf};
ghost use Rattle.flow_events.specs.Acting.{SeesLink, pair_if};
ghost use Rattle.flow_events.specs.Births.{BornAs, births_of, births_in};
ghost use Rattle.flow_events.specs.Drafts.{ActPasses, AddsAct, AddsActs, AddsSee, DraftFits, DraftedActsPass, GrowsAtMost, IsEmpty};
ghost use Rattle.flow_events.specs.Drafts.{HasPlacesFor, SeePasses, StaysNew, StaysNumbered};
ghost use Rattle.flow_events.specs.Added.{AddsEnds, AddsFlow, HasTwoEnds, IfFull, IsPast, StayNew, StayNumbered, objects_in};
ghost use Rattle.flow_events.specs.Entering.{pair_of};

use crate::acting::Acting;
use crate::added::Added;
use crate::births::{Births, Fresh};
use crate::given::Given;
use crate::naming::new_exe;
use crate::parts::empty;
use crate::steps::{link_of, name_of};
use acts::{Act, Link};
use entity_names::Entities;
use fd_table::Fds;
use flow_base::{Bytes, List, NoMemory, Refused, Stamp};
use proc_table::Procs;
use std::alloc::Global;
use table_salt::Salt;

/// Appends a name, if there is one.
pub fn put_name(given: &mut List<Given>, name: Option<Given>) -> Result<(), NoMemory>
    ensures { OnOk result (map pair_of given.new ≡ map pair_of given.old ++ pair_if name) }
{
    if let Some(name) = name {
        given.push(name)?;
    }
    Ok(())
}

#[inline]
/// Adds the flow of a link, if there is one.
pub fn add_link(
    added: &mut Added,
    entities: &Entities,
    most: u32,
    link: Option<Link>,
    at: Stamp,
    serial: u32,
) -> Result<(), Refused>
    requires limit { most ≡ entities.now.limit }
    requires fits { length (objects_in entities.now added.old) ≤ most }
    requires ends { HasTwoEnds link }
    ensures keys { OnOk result (AddsEnds entities.now added.old added.new link) }
    ensures new { OnOk result (StayNew entities.now added.old added.new) }
    ensures flows { OnOk result (AddsFlow entities.now added.old added.new at serial link) }
    ensures numbered { OnOk result (StayNumbered entities.now at added.old added.new) }
    ensures full { IfFull result
        (λ full. IsPast most full (with_ends (objects_in entities.now added.old) link)) }
    ensures fits { OnOk result (length (objects_in entities.now added.new) ≤ most) }
    ensures more { OnOk result (length added.new.flows ≤ length added.old.flows + 1) }
{
    match link {
        Some(link) => added.link(entities, most, link, at, serial),
        None => Ok(()),
    }
}

/// What is worked out of an event.
#[derive(Drop)]
pub struct Draft {
    pub births: Fresh,
    pub given: List<Given>,
    pub added: Added,
}

/// What an act is worked out from.
#[derive(Drop)]
pub struct Ground<'a> {
    pub alloc: Global,
    pub procs: &'a Procs,
    pub fds: &'a Fds,
    pub births: &'a Births,
    pub entities: &'a Entities,
    /// How many objects there may be.
    pub most: u32,
    /// How many flows there were before the event.
    pub flows: u64,
    pub ms: u64,
    pub serial: u32,
}

impl Draft {
    /// Nothing.
    pub fn new(alloc: Global) -> Draft
        ensures { IsEmpty result }
    {
        Draft {
            births: Fresh::none(),
            given: List::new(alloc),
            added: Added::new(alloc),
        }
    }

    /// Takes all out, and keeps the memory of the lists.
    pub fn clear(&mut self)
        ensures { IsEmpty self.new }
    {
        self.births = Fresh::none();
        empty(&mut self.given);
        self.added.clear();
    }

    /// Makes room for this many births in an event that has none yet.
    pub fn expect(&mut self, alloc: Global, salt: Salt, more: usize) -> Result<(), NoMemory>
        ensures births { OnOk result (BornAs self.new.births []) }
        ensures room { OnOk result (more ≤ self.new.births.spare) }
        ensures rest { self.new ≡ record self.old { births = self.new.births } }
    {
        self.births = Fresh::new(alloc, salt, more)?;
        Ok(())
    }

    /// Works out the see that comes first, which links this.
    pub fn see(
        &mut self,
        ground: &Ground<'_>,
        acting: &Acting,
        ppid: u32,
        link: Option<Link>,
        exe: &Option<Bytes>,
    ) -> Result<(), Refused>
        requires limit { ground.now.most ≡ ground.now.entities.now.limit }
        requires fits { DraftFits ground.now self.old }
        requires flows { ground.now.flows + length self.old.added.flows < 2 ^ 64 }
        requires link { SeesLink ground.now.procs.now acting.now.pid ppid link }
        requires ends { HasTwoEnds link }
        ensures next { OnOk result (AddsSee ground.now acting.now ppid exe.now self.old self.new) }
        ensures new { OnOk result (StaysNew ground.now self.old self.new) }
        ensures fits { OnOk result (DraftFits ground.now self.new) }
        ensures more { OnOk result (GrowsAtMost self.old self.new 1) }
        ensures numbered { OnOk result (StaysNumbered ground.now self.old self.new) }
        ensures full { IfFull result (SeePasses ground.now acting.now ppid exe.now self.old) }
        ensures room { self.new.births ≡ self.old.births }
    {
        let name = new_exe(ground.entities, acting, exe)?;
        let at = Stamp {
            ms: ground.ms,
            place: ground.flows + self.added.count(),
        };
        put_name(&mut self.given, name)?;
        add_link(
            &mut self.added,
            ground.entities,
            ground.most,
            link,
            at,
            ground.serial,
        )?;
        Ok(())
    }

    /// Works out one more act, which is not the see that comes first.
    pub fn act(&mut self, ground: &Ground<'_>, acting: &Acting, act: &Act) -> Result<(), Refused>
        requires of { IsOf acting.now.pid act.now }
        requires limit { ground.now.most ≡ ground.now.entities.now.limit }
        requires fits { DraftFits ground.now self.old }
        requires room { births_of act.now ≤ self.old.births.spare }
        requires flows { ground.now.flows + length self.old.added.flows < 2 ^ 64 }
        ensures next { OnOk result (AddsAct ground.now acting.now act.now self.old self.new) }
        ensures new { OnOk result (StaysNew ground.now self.old self.new) }
        ensures fits { OnOk result (DraftFits ground.now self.new) }
        ensures more { OnOk result (GrowsAtMost self.old self.new 1) }
        ensures numbered { OnOk result (StaysNumbered ground.now self.old self.new) }
        ensures full { IfFull result (ActPasses ground.now acting.now act.now self.old) }
        ensures room { self.old.births.spare ≤ self.new.births.spare + births_of act.now }
    {
        let link = link_of(
            ground.alloc,
            ground.procs,
            ground.fds,
            ground.births,
            &self.births,
            acting,
            act,
        )?;
        let name = name_of(
            ground.alloc,
            ground.entities,
            ground.births,
            &self.births,
            act,
        )?;
        let at = Stamp {
            ms: ground.ms,
            place: ground.flows + self.added.count(),
        };
        put_name(&mut self.given, name)?;
        add_link(
            &mut self.added,
            ground.entities,
            ground.most,
            link,
            at,
            ground.serial,
        )?;
        self.births.bear(act);
        Ok(())
    }

    /// Works out births and moves, the oldest first.
    pub fn calm_acts(
        &mut self,
        ground: &Ground<'_>,
        acting: &Acting,
        acts: &[Act],
    ) -> Result<(), Refused>
        requires calm { All (IsCalmOf acting.now.pid) acts.now }
        requires limit { ground.now.most ≡ ground.now.entities.now.limit }
        requires fits { DraftFits ground.now self.old }
        requires room { births_in acts.now ≤ self.old.births.spare }
        requires flows { HasPlacesFor ground.now self.old (length acts.now) }
        ensures next { OnOk result (AddsActs ground.now acting.now acts.now self.old self.new) }
        ensures new { OnOk result (StaysNew ground.now self.old self.new) }
        ensures fits { OnOk result (DraftFits ground.now self.new) }
        ensures more { OnOk result (GrowsAtMost self.old self.new (length acts.now)) }
        ensures numbered { OnOk result (StaysNumbered ground.now self.old self.new) }
        ensures full { IfFull result (DraftedActsPass ground.now acting.now acts.now self.old) }
        ensures room { self.old.births.spare ≤ self.new.births.spare + births_in acts.now }
    {
        for act in acts {
            self.act(ground, acting, act)?;
        }
        Ok(())
    }
}
