//! How an event is worked out: its see, the births and moves after it, and its last act.
ghost use Rattle.std.specs.Prelude.{◌≡◌, ◌≤◌, ◌<◌, ◌+◌, ◌^◌, All, IfErr, IfOk, OnOk, length};
ghost use Rattle.call_acts.specs.Events.{AreRest, IsCalmOf, IsEvent, IsOf};
ghost use Rattle.flow_events.specs.Added.{IfFull, IfLimit};
ghost use Rattle.flow_events.specs.Births.{births_in, births_of};
ghost use Rattle.flow_events.specs.Drafts.{DraftFits, GrowsAtMost, HasNewKeys, HasPlacesFor, IsNumbered, StaysNew, StaysNumbered};
ghost use Rattle.flow_events.specs.Working.{BeginsAs, BeginsWay, DoesEvent, DoesRest, EventIsPast, GoesOnWith, GoesPast, IsFresh, RestIsPast, SeeIsPast};

use crate::acting::Acting;
use crate::births::births_in;
use crate::change::Change;
use crate::draft::{Draft, Ground};
use crate::plan::NewAddress;
use crate::seeing::{Seen, see_process};
use crate::steps::{address_of, change_of};
use acts::Act;
use flow_base::{Bytes, Refused};
use std::alloc::Global;

/// What an event does to the tables.
#[derive(Drop)]
pub struct Worked {
    pub see: Change,
    pub last: Change,
    pub address: Option<NewAddress>,
    pub draft: Draft,
}

impl Worked {
    /// Nothing.
    pub fn new(alloc: Global) -> Worked
        ensures { IsFresh result }
    {
        Worked {
            see: Change::Nothing,
            last: Change::Nothing,
            address: None,
            draft: Draft::new(alloc),
        }
    }

    /// Takes all out, and keeps the memory of the lists.
    pub fn clear(&mut self)
        ensures { IsFresh self.new }
    {
        self.see = Change::Nothing;
        self.last = Change::Nothing;
        self.address = None;
        self.draft.clear();
    }
}

/// Begins an event by its see, with room for this many births. The process is as the see brings it into its life.
pub fn begin(
    ground: &Ground<'_>,
    pid: u32,
    ppid: u32,
    exe: &Option<Bytes>,
    more: usize,
    worked: &mut Worked,
) -> Result<Acting, Refused>
    requires limit { ground.now.most ≡ ground.now.entities.now.limit }
    requires fits { length ground.now.entities.now.keys ≤ ground.now.most }
    requires flows { ground.now.flows < 2 ^ 64 }
    requires fresh { IsFresh worked.old }
    ensures way { IfOk result (BeginsWay ground.now pid ppid exe.now worked.new.draft) }
    ensures see { OnOk result (BeginsAs ground.now pid ppid exe.now worked.new.see) }
    ensures last { worked.new.last ≡ worked.old.last }
    ensures address { worked.new.address ≡ worked.old.address }
    ensures pid { IfOk result (λ acting. acting.pid ≡ pid) }
    ensures room { OnOk result (more ≤ worked.new.draft.births.spare) }
    ensures new { OnOk result (HasNewKeys ground.now worked.new.draft) }
    ensures numbered { OnOk result (IsNumbered ground.now worked.new.draft) }
    ensures fits { OnOk result (DraftFits ground.now worked.new.draft) }
    ensures flows { OnOk result (length worked.new.draft.added.flows ≤ 1) }
    ensures full { IfFull result (SeeIsPast ground.now pid ppid exe.now) }
{
    let seen = see_process(ground.procs, pid, ppid);
    let Seen {
        acting,
        change,
        link,
    } = seen;
    worked
        .draft
        .expect(ground.alloc, ground.births.salt(), more)?;
    worked.draft.see(ground, &acting, ppid, link, exe)?;
    worked.see = change;
    Ok(acting)
}

/// Works out the acts after the see: births and moves, the oldest first, and then the last act.
pub fn go_on(
    ground: &Ground<'_>,
    acting: &Acting,
    acts: u64,
    front: &[Act],
    last: &Act,
    worked: &mut Worked,
) -> Result<(), Refused>
    requires few { acts + (length front.now + 2) < 2 ^ 64 }
    requires limit { ground.now.most ≡ ground.now.entities.now.limit }
    requires fits { DraftFits ground.now worked.old.draft }
    requires calm { All (IsCalmOf acting.now.pid) front.now }
    requires of { IsOf acting.now.pid last.now }
    requires room { births_in front.now + births_of last.now ≤ worked.old.draft.births.spare }
    requires flows { HasPlacesFor ground.now worked.old.draft (length front.now + 1) }
    ensures worked { OnOk result
        (GoesOnWith ground.now acting.now worked.old acts front.now last.now worked.new) }
    ensures new { OnOk result (StaysNew ground.now worked.old.draft worked.new.draft) }
    ensures numbered { OnOk result (StaysNumbered ground.now worked.old.draft worked.new.draft) }
    ensures fits { OnOk result (DraftFits ground.now worked.new.draft) }
    ensures more { OnOk result
        (GrowsAtMost worked.old.draft worked.new.draft (length front.now + 1)) }
    ensures full { IfErr result (λ why. IfLimit why
        (GoesPast ground.now acting.now worked.old.draft acts front.now last.now)) }
{
    worked.draft.calm_acts(ground, acting, front)?;
    let number = acts + 1 + front.len() as u64;
    let change = change_of(
        ground.alloc,
        ground.procs,
        ground.fds,
        ground.births,
        &worked.draft.births,
        acting,
        last,
        number,
    )?;
    let address = address_of(ground.fds, acting, last, number)?;
    worked.draft.act(ground, acting, last)?;
    worked.last = change;
    worked.address = address;
    Ok(())
}

/// Works out an event that sees its process and then does the rest, the oldest first.
pub fn work_out(
    ground: &Ground<'_>,
    acts: u64,
    pid: u32,
    ppid: u32,
    exe: &Option<Bytes>,
    rest: &[Act],
    worked: &mut Worked,
) -> Result<(), Refused>
    requires few { acts + (length rest.now + 2) < 2 ^ 64 }
    requires limit { ground.now.most ≡ ground.now.entities.now.limit }
    requires fits { length ground.now.entities.now.keys ≤ ground.now.most }
    requires rest { AreRest pid rest.now }
    requires flows { ground.now.flows + (length rest.now + 1) < 2 ^ 64 }
    requires fresh { IsFresh worked.old }
    ensures worked { OnOk result
        (DoesRest ground.now acts pid ppid exe.now rest.now worked.new) }
    ensures new { OnOk result (HasNewKeys ground.now worked.new.draft) }
    ensures numbered { OnOk result (IsNumbered ground.now worked.new.draft) }
    ensures fits { OnOk result (DraftFits ground.now worked.new.draft) }
    ensures more { OnOk result (length worked.new.draft.added.flows ≤ length rest.now + 1) }
    ensures full { IfErr result
        (λ why. IfLimit why (RestIsPast ground.now acts pid ppid exe.now rest.now)) }
{
    let acting = begin(ground, pid, ppid, exe, births_in(rest), worked)?;
    match rest {
        [] => Ok(()),
        [front @ .., last] => go_on(ground, &acting, acts, front, last, worked),
    }
}

/// Works out an event by its acts, oldest first, after this many earlier acts.
pub fn work_event(
    ground: &Ground<'_>,
    number: u64,
    acts: &[Act],
    worked: &mut Worked,
) -> Result<(), Refused>
    requires few { number + (length acts.now + 2) < 2 ^ 64 }
    requires limit { ground.now.most ≡ ground.now.entities.now.limit }
    requires fits { length ground.now.entities.now.keys ≤ ground.now.most }
    requires event { IsEvent acts.now }
    requires flows { ground.now.flows + (length acts.now + 1) < 2 ^ 64 }
    requires fresh { IsFresh worked.old }
    ensures worked { OnOk result (DoesEvent ground.now number acts.now worked.new) }
    ensures new { OnOk result (HasNewKeys ground.now worked.new.draft) }
    ensures numbered { OnOk result (IsNumbered ground.now worked.new.draft) }
    ensures fits { OnOk result (DraftFits ground.now worked.new.draft) }
    ensures more { OnOk result (length worked.new.draft.added.flows ≤ length acts.now) }
    ensures full { IfErr result (λ why. IfLimit why (EventIsPast ground.now number acts.now)) }
{
    match acts {
        [] => Ok(()),
        [Act::See { pid, ppid, exe }, rest @ ..] => {
            work_out(ground, number, *pid, *ppid, exe, rest, worked)
        }
        _ => unreachable!(),
    }
}
