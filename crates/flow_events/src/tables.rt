//! The tables of all that acts are about.
ghost use Rattle.std.specs.Prelude.{◌≡◌, ◌≤◌, ◌^◌, ℕ, [], List, None, Some, OnOk, IfOk, IfSome, length};
ghost use Rattle.flow_base.specs.declared.limits.Limits.{Limits};
ghost use Rattle.acts.specs.Keys.{all_given};
ghost use Rattle.acts.specs.Flows.{acts_of, objects, flows};
ghost use Rattle.call_acts.specs.Acts.{event_acts, is_unmapped};
ghost use Rattle.entity_names.specs.Known.{NamesAs};
ghost use Rattle.std.specs.Option.{option_map};
ghost use Rattle.flow_events.specs.Added.{IfFull};
ghost use Rattle.flow_events.specs.Following.{ActsFit, ActsPass, ActsPassObjects, PlansActs};
ghost use Rattle.flow_events.specs.Following.{EventFits, EventPasses, HasNumbersFor, PlansEvent, acts_of_event};
ghost use Rattle.call_acts.specs.Events.{IsEvent};
ghost use Rattle.store_check.specs.Store.{keys};
ghost use Rattle.flow_events.specs.Filling.{AreRestored, HasCountsOf};
ghost use Rattle.flow_events.specs.Remembering.{BeginsAnew, BeginsToRemember, GoesOnMarked, GoesOnSince, MarksAnew, MarksNow, StaysMarked, StaysSince};
ghost use Rattle.flow_events.specs.Rows.{AreRowsSince};
ghost use Rattle.flow_events.specs.Standing.{AddsFlows, AreSafe, ByTables, CountsTheSame, DiffersInRoom, GoesOnStanding};
ghost use Rattle.flow_events.specs.Standing.{HasGrown, HasLimits, HasRooms, IsReady, PlanFits, PlanFlows, StandsAsBefore, StandsFor};
ghost use Rattle.stored.specs.Words.{state_of};

use crate::births::Births;
use crate::change::{Change, make_change, need};
use crate::draft::Ground;
use crate::filled::{Filled, fill_all};
use crate::parts::named_keys;
use crate::passes::{bear_through, enter_all, give_all, live_through};
use crate::plan::{Plan, readdress};
use crate::rows::{TableRows, since_rows};
use crate::since::{Since, mark_event, note_event, reserve_event};
use crate::work::work_event;
use acts::{Act, each_beginning_is_an_act};
use call_acts::{acts_are_of_one_event, is_unmapped};
use entity_names::Entities;
use fd_table::Fds;
use flow_base::{Full, Limit, Limits, NoMemory, Refused};
use proc_table::Procs;
use record_join::EventView;
use row_codec::StoreRow;
use std::alloc::Global;
use std::mem::replace;
use table_salt::Salt;

// Whether an event with these acts has a call that is not in the table. One that does has its see alone, so the call
// is looked up only if there is no second act.
fn is_lone_unmapped(event: &EventView<'_>, acts: &[Act]) -> bool
    requires acts { (limit : ℕ) × (acts.now ≡ event_acts limit event.now.records.now) }
    ensures { result ≡ is_unmapped event.now.records.now }
{
    if acts.len() > 1 {
        return false;
    }
    is_unmapped(event)
}

// The mark moved to this many acts, if one was made before.
fn marked_at(marked: Option<u64>, acts: u64) -> Option<u64>
    ensures { result ≡ option_map (λ _. acts) marked }
{
    match marked {
        Some(_) => Some(acts),
        None => None,
    }
}

/// Lives, descriptors with addresses, births, and objects with names, after the acts so far.
#[derive(Drop)]
pub struct Tables {
    procs: Procs,
    fds: Fds,
    births: Births,
    entities: Entities,
    flows: u64,
    acts: u64,
    limits: Limits,
    /// What is remembered since the last mark, if anything is.
    since: Option<Since>,
    /// The acts at the last mark, if one was made.
    marked: Option<u64>,
}

impl Tables {
    /// No acts.
    pub fn new(alloc: Global, salt: Salt, limits: &Limits) -> Tables
        ensures stands { (text : List ℕ → List ℕ) → StandsFor text result [] }
        ensures safe { AreSafe result }
        ensures limits { HasLimits limits.now result }
        ensures unmarked { result.marked ≡ None }
    {
        Tables {
            procs: Procs::new(alloc, salt),
            fds: Fds::new(alloc, salt),
            births: Births::new(alloc, salt),
            entities: Entities::new(alloc, salt, limits),
            flows: 0,
            acts: 0,
            limits: *limits,
            since: None,
            marked: None,
        }
    }

    /// The tables that the rows of a store say. Its rows of flows aren't needed.
    pub fn restore(
        alloc: Global,
        salt: Salt,
        limits: &Limits,
        rows: &[StoreRow],
    ) -> Result<Tables, NoMemory>
        requires fits { length (keys rows.now) ≤ limits.now.entities }
        ensures stands { IfOk result (AreRestored limits.now rows.now) }
        ensures safe { IfSome (state_of rows.now) (λ s. s.flows ≤ 2 ^ 60) → IfOk result AreSafe }
        ensures limits { IfOk result (HasLimits limits.now) }
        ensures counts { IfOk result (HasCountsOf rows.now) }
        ensures unmarked { IfOk result (λ tables. tables.marked ≡ None) }
    {
        let Filled {
            procs,
            fds,
            births,
            entities,
            flows,
            acts,
        } = fill_all(alloc, salt, limits, rows)?;
        Ok(Tables {
            procs,
            fds,
            births,
            entities,
            flows,
            acts,
            limits: *limits,
            since: None,
            marked: None,
        })
    }

    /// From now on it is remembered what acts are about, and the mark is now. Till then nothing is, and it costs nothing.
    pub fn remember(&mut self, alloc: Global)
        ensures since { BeginsToRemember self.old self.new }
        ensures marks { MarksNow self.old self.new }
        ensures marked { self.new.marked ≡ Some self.old.acts }
        ensures counts { CountsTheSame self.old self.new }
        ensures safe { AreSafe self.old → AreSafe self.new }
        ensures limits { (limits : Limits) → HasLimits limits self.old → HasLimits limits self.new }
    {
        self.entities.mark_saved();
        self.since = Some(Since::new(alloc, self.births.salt(), self.entities.count()));
        self.marked = Some(self.acts);
    }

    /// All of it is saved: the mark is now. It takes no memory.
    pub fn mark_saved(&mut self)
        ensures since { BeginsAnew self.old self.new }
        ensures marks { MarksAnew self.old self.new }
        ensures marked { self.new.marked ≡ option_map (λ _. self.old.acts) self.old.marked }
        ensures counts { CountsTheSame self.old self.new }
        ensures safe { AreSafe self.old → AreSafe self.new }
        ensures limits { (limits : Limits) → HasLimits limits self.old → HasLimits limits self.new }
    {
        self.entities.mark_saved();
        mark_event(&mut self.since, self.entities.count());
        self.marked = marked_at(self.marked, self.acts);
    }

    /// The rows that say what changed since the mark, and none if nothing is remembered.
    pub fn rows(&self, alloc: Global) -> Result<TableRows, NoMemory>
        ensures { IfOk result (AreRowsSince self.now) }
    {
        match &self.since {
            Some(since) => since_rows(
                alloc,
                since,
                &self.procs,
                &self.fds,
                &self.births,
                &self.entities,
            ),
            None => Ok(TableRows::none(alloc)),
        }
    }

    /// The objects by number, and the names of keys.
    pub fn entities(&self) -> &Entities
        ensures same { result.now ≡ self.now.entities }
        ensures objects { ByTables self.now
            (λ text taken. result.now.keys ≡ objects (acts_of taken)) }
        ensures names { ByTables self.now
            (λ text taken. NamesAs result.now (all_given text (acts_of taken))) }
    {
        &self.entities
    }

    /// How many flows there were.
    pub fn flows(&self) -> u64
        ensures { ByTables self.now (λ text taken. result ≡ length (flows taken)) }
    {
        self.flows
    }

    /// How many acts there were.
    pub fn acts(&self) -> u64
        ensures { ByTables self.now (λ text taken. result ≡ length taken) }
    {
        self.acts
    }

    /// Works out what an event will do, into `plan`, and takes all the memory for it. The tables stand for the same acts as
    /// before. Of what the plan was before only its memory matters; if the event is refused, it may be anything.
    pub fn prepare(
        &mut self,
        alloc: Global,
        event: &EventView<'_>,
        plan: &mut Plan,
    ) -> Result<(), Refused>
        requires safe { AreSafe self.old }
        requires few { HasNumbersFor self.old (length (acts_of_event self.old.limits event.now)) }
        ensures plan { OnOk result (PlansEvent self.old event.now plan.new) }
        ensures acts { OnOk result (plan.new.acts ≡ acts_of_event self.old.limits event.now) }
        ensures flows { OnOk result (PlanFlows self.old event.now.ms plan.new) }
        ensures unmapped { OnOk result (plan.new.unmapped ≡ is_unmapped event.now.records.now) }
        ensures ready { OnOk result (IsReady self.new plan.new) }
        ensures same { StandsAsBefore self.old self.new }
        ensures safe { AreSafe self.new }
        ensures room { DiffersInRoom self.old self.new }
        ensures since { StaysSince self.old self.new }
        ensures marks { StaysMarked self.old self.new }
        ensures limits { (limits : Limits) → HasLimits limits self.old → HasLimits limits self.new }
        ensures fits { OnOk result (EventFits self.old event.now) }
        ensures full { IfFull result (EventPasses self.old event.now) }
    {
        acts_are_of_one_event();
        call_acts::acts(alloc, event, &self.limits, &mut plan.acts)?;
        plan.unmapped = is_lone_unmapped(event, plan.acts.as_slice());
        self.prepare_acts(alloc, event.ms, event.key.serial, plan)
    }

    #[tactic(auto, using(crate::proofs::Rooming::stands_still, crate::proofs::Rooming::since_stays, crate::proofs::Rooming::marks_stay))]
    /// Works out what the acts of the plan, which are of one event, the oldest first, will do, and takes all the memory for
    /// it. The tables stand for the same acts as before.
    pub fn prepare_acts(
        &mut self,
        alloc: Global,
        ms: u64,
        serial: u32,
        plan: &mut Plan,
    ) -> Result<(), Refused>
        requires event { IsEvent plan.old.acts }
        requires safe { AreSafe self.old }
        requires few { HasNumbersFor self.old (length plan.old.acts) }
        ensures plan { OnOk result (PlansActs self.old ms serial plan.old.acts plan.new) }
        ensures acts { plan.new.acts ≡ plan.old.acts }
        ensures flows { OnOk result (PlanFlows self.old ms plan.new) }
        ensures unmapped { plan.new.unmapped ≡ plan.old.unmapped }
        ensures ready { OnOk result (IsReady self.new plan.new) }
        ensures same { StandsAsBefore self.old self.new }
        ensures safe { AreSafe self.new }
        ensures room { DiffersInRoom self.old self.new }
        ensures since { StaysSince self.old self.new }
        ensures marks { StaysMarked self.old self.new }
        ensures limits { (limits : Limits) → HasLimits limits self.old → HasLimits limits self.new }
        ensures fits { OnOk result (ActsFit self.old ms serial plan.old.acts) }
        ensures full { IfFull result (ActsPass self.old ms serial plan.old.acts) }
    {
        self.plan(alloc, ms, serial, plan)?;
        if self.limits.flows < self.flows + plan.flows().len() as u64 {
            return Err(Refused::Full(Full {
                limit: Limit::Flows,
                number: self.limits.flows,
            }));
        }
        self.make_room(alloc, plan)?;
        Ok(())
    }

    // Works out what the acts of the plan will do.
    fn plan(&self, alloc: Global, ms: u64, serial: u32, plan: &mut Plan) -> Result<(), Refused>
        requires event { IsEvent plan.old.acts }
        requires safe { AreSafe self.now }
        requires few { HasNumbersFor self.now (length plan.old.acts) }
        ensures plan { OnOk result (PlansActs self.now ms serial plan.old.acts plan.new) }
        ensures acts { plan.new.acts ≡ plan.old.acts }
        ensures unmapped { plan.new.unmapped ≡ plan.old.unmapped }
        ensures fits { OnOk result (PlanFits self.now plan.new) }
        ensures flows { OnOk result (PlanFlows self.now ms plan.new) }
        ensures more { OnOk result
            (length plan.new.work.draft.added.flows ≤ length plan.old.acts) }
        ensures full { IfFull result (ActsPassObjects self.now ms serial plan.old.acts) }
    {
        each_beginning_is_an_act();
        let ground = Ground {
            alloc,
            procs: &self.procs,
            fds: &self.fds,
            births: &self.births,
            entities: &self.entities,
            most: self.limits.entities,
            flows: self.flows,
            ms,
            serial,
        };
        plan.work.clear();
        work_event(&ground, self.acts, plan.acts.as_slice(), &mut plan.work)?;
        plan.turn(alloc)?;
        Ok(())
    }

    /// Makes room for what was planned, and changes nothing else.
    pub fn make_room(&mut self, alloc: Global, plan: &Plan) -> Result<(), NoMemory>
        ensures rooms { OnOk result (HasRooms self.new plan.now) }
        ensures same { DiffersInRoom self.old self.new }
        ensures safe { AreSafe self.old → AreSafe self.new }
    {
        let acts = plan.acts.as_slice().len();
        let named = named_keys(alloc, plan.work.draft.given.as_slice())?;
        self.procs.reserve(acts)?;
        self.births.reserve(acts)?;
        self.fds
            .reserve(need(&plan.work.see) + need(&plan.work.last), 1)?;
        reserve_event(&mut self.since, &self.fds, plan.acts.as_slice())?;
        self.entities
            .reserve(plan.work.draft.added.keys().len(), named.as_slice())?;
        Ok(())
    }

    /// Does what was planned. It takes no memory, and the plan keeps its flows.
    pub fn apply(&mut self, plan: &mut Plan)
        requires ready { IsReady self.old plan.old }
        requires safe { AreSafe self.old }
        ensures next { GoesOnStanding self.old self.new plan.old }
        ensures flows { AddsFlows plan.old plan.new.work.draft.added.flows }
        ensures limits { (limits : Limits) → HasLimits limits self.old → HasLimits limits self.new }
        ensures since { GoesOnSince self.old self.new plan.old }
        ensures marks { GoesOnMarked self.old self.new plan.old }
        ensures safe { AreSafe self.new }
        ensures grown { HasGrown self.old self.new plan.old }
        ensures same { plan.new.work.draft.added.flows ≡ plan.old.work.draft.added.flows }
    {
        note_event(
            &mut self.since,
            &self.procs,
            &self.fds,
            plan.acts.as_slice(),
            &plan.work.address,
        );
        live_through(&mut self.procs, plan.acts.as_slice());
        bear_through(&mut self.births, plan.acts.as_slice());
        make_change(&mut self.fds, replace(&mut plan.work.see, Change::Nothing));
        make_change(&mut self.fds, replace(&mut plan.work.last, Change::Nothing));
        readdress(&mut self.fds, plan.work.address.take());
        give_all(&mut self.entities, &mut plan.work.draft.given);
        enter_all(&mut self.entities, &mut plan.work.draft.added);
        self.flows += plan.flows().len() as u64;
        self.acts += plan.acts.as_slice().len() as u64;
    }
}
