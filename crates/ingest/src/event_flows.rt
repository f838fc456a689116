//! Records joined into events, and the flows of their acts.
//!
//! An event that is ripe is prepared by the tables, with all the memory for it. Then its flows are taken in, and last the
//! tables follow it, which can't fail: so an event that is refused has changed nothing, and stays in the joiner.
ghost use Rattle.std.specs.Prelude.{◌≡◌, ◌≤◌, ◌<◌, ◌+◌, ◌-◌, ◌*◌, ◌^◌, [], suc, List, None, Some, Err, true};
ghost use Rattle.std.specs.Prelude.{length, is_some, OnOk, IfOk, IfSome, OnErr, IfErr, slice_get};
ghost use Rattle.reduced_store.specs.OnDisk.{seen_rows};
ghost use Rattle.flow_base.specs.declared.limits.Full.{Full};
ghost use Rattle.reach_model.specs.Rows.{Row};
ghost use Rattle.record_join.specs.Events.{Joining, count_keys, ripe_key, next_event};
ghost use Rattle.record_join.specs.History.{start};
ghost use Rattle.record_join.specs.Keys.{EndsAt};
ghost use Rattle.record_join.specs.StandsFor.{NothingRipe, WhereStands, event_seen};
ghost use Rattle.record_join.specs.StandsFor.{StandsFor as JoinStandsFor};
ghost use Rattle.reach_rows.specs.Asked.{subject};
ghost use Rattle.flow_events.specs.Standing.{AreSafe, DiffersInRoom, HasLimits, IsReady, PlanFlows};
ghost use Rattle.query_walk.specs.declared.fault.WalkFault.TheVariants as walk;
ghost use Rattle.kept_flows.specs.Answering.{AlwaysTold, AnswersFor, NeverFail, ShowsFor};
ghost use Rattle.query_walk.specs.Walks.{SameRows};
ghost use Rattle.kept_flows.specs.KeptFlows.{kept_of};
ghost use Rattle.ingest.specs.Asking.{WalkHasCauses};
ghost use Rattle.ingest.specs.Bounds.{IsFew, IsBounded, StaysFew, OneMore};
ghost use Rattle.std.specs.List.{All};
ghost use Rattle.std.specs.Option.{option_map};
ghost use Rattle.row_codec.specs.Rows.{CanBeSpelled};
ghost use Rattle.kept_flows.specs.Committing.{CanCommit, CommitsRows};
ghost use Rattle.ingest.specs.Committing.{ArePut};
ghost use Rattle.ingest.specs.EventActs.{is_unmapped};
ghost use Rattle.ingest.specs.Events.{flows_in, objects_in, taken_in};
ghost use Rattle.ingest.specs.Following.{KeepTaken, KeptWith};
ghost use Rattle.ingest.specs.Following.{IsPlanFor, IsFullWith};
ghost use Rattle.ingest.specs.GoingOn.{EntersOne, ClosesAll, ReleasesAll};
ghost use Rattle.ingest.specs.GoingOn.{ReleasesNext};
ghost use Rattle.ingest.specs.GoingOn.{OwesRest, StaysJoined};
ghost use Rattle.ingest.specs.Naming.{named_in, names_in};
ghost use Rattle.ingest.specs.Owing.{NextPasses};
ghost use Rattle.ingest.specs.Rejoining.{RejoinsAlike, RejoinsFrom, StandsForLeft};
ghost use Rattle.ingest.specs.Replies.{KeepsSoMany};
ghost use Rattle.ingest.specs.Together.{GoTogether, GoWithPlan};
ghost use Rattle.ingest.specs.StandsFor.{JoinedStandsFor, WhereJoined, WhereWaiting};
ghost use Rattle.flow_base.specs.declared.faults.Refused.TheVariants as why;

use crate::commit::rows_around;
use crate::event_counts::EventCounts;
use acts::flows_of_acts_are_lawful;
use audit_lex::EventKey;
use audit_record::Record;
use batch_log::CommitFault;
use call_acts::{acts_are_few, acts_of_events_are_admitted};
use flow_base::{Bytes, EntityId, Key, Limits, List, NoMemory, Refused};
use flow_events::{Plan, TableRows, Tables};
use kept_flows::{KeptFlows, Unrestored, Way};
use outside::Disk;
use query_walk::WalkFault;
use reach_model::Mode;
use reach_rows::{Keep, Question, Reducer};
use record_join::{EventView, Join, JoinClock, Taken as Entered};
use reduced_store::Store;
use row_codec::{StateRow, StoreRow};
use std::alloc::Global;
use std::marker::Model;
use table_salt::Salt;

/// Joins records into events, and follows their flows.
#[derive(Drop)]
pub struct EventFlows<R: Reducer, K: Keep> {
    alloc: Global,
    join: Join,
    tables: Tables,
    /// What the event that is released will do. Between events only its memory matters.
    plan: Plan,
    kept: KeptFlows<R, K>,
    counts: EventCounts,
    /// The records that were dropped.
    excess: u64,
}

impl<R: Reducer, K: Keep> Model for EventFlows<R, K> {
    ghost use Rattle.ingest.specs.Parts.{Joined};
    ghost use Rattle.ingest.specs.StandsFor.{IsInTime};

    ghost Value = { Joined K };

    ghost view = { λ a. record {
      limits = a.tables.limits;
      join = a.join;
      tables = a.tables;
      kept = a.kept.kept;
      keep = a.kept.keep;
      counts = a.counts;
      excess = a.excess;
    } };

    ghost invariant = { λ a. IsInTime a.tables.limits a.join a.tables a.kept.kept };
}

impl<R: Reducer, K: Keep> EventFlows<R, K> {
    /// Nothing has come, by a new reducer and no rows.
    pub fn new(alloc: Global, salt: Salt, limits: &Limits, reducer: R, keep: K) -> EventFlows<R, K>
        requires stands { R.stands_for reducer [] }
        requires holds { R.holds reducer [] }
        requires none { IfSome (K.rows keep) (λ R. R ≡ []) }
        requires count { K.count keep ≡ 0 }
        requires known { K.known keep ≡ 0 }
        ensures stands { K.rows keep ≡ Some [] → JoinedStandsFor limits.now result start [] }
        ensures few { IsFew 0 result }
        ensures acts { result.tables.acts ≡ 0 }
        ensures keep { result.keep ≡ keep }
        ensures unmarked { result.tables.marked ≡ None }
    {
        EventFlows {
            alloc,
            join: Join::new(alloc, limits),
            tables: Tables::new(alloc, salt, limits),
            plan: Plan::new(alloc),
            kept: KeptFlows::new(reducer, keep),
            counts: EventCounts::new(),
            excess: 0,
        }
    }

    /// What an earlier run left: what waited, its tables, and the rows that kept its flows, each of which the new reducer
    /// recalls. The counts of events and of dropped records are those of the State.
    ///
    /// `StoreFault` means that a read of the rows failed during this call, or that the rows have stopped counting failed
    /// reads. `BadStore` comes only from rows that aren't observable, and `NoMemory` means want of memory. A refusal
    /// hands the rows back as they were.
    pub fn restore(
        alloc: Global,
        join: Join,
        tables: Tables,
        reducer: R,
        keep: K,
        state: &StateRow,
    ) -> Result<EventFlows<R, K>, Unrestored<K>>
    where
        R: Drop,
        requires stands { R.stands_for reducer [] }
        requires holds { R.holds reducer [] }
        requires waits { (s : Joining) × JoinStandsFor tables.limits join s }
        requires limits { HasLimits tables.limits tables }
        requires unmarked { tables.marked ≡ None }
        requires together { GoTogether join.clock.effective tables
            (kept_of R.mode K.rows K.count K.known keep) }
        ensures stands { IfOk result
            (StandsForLeft R.mode (K.rows keep) join tables state.now) }
        ensures join { IfOk result (λ again. again.join ≡ join) }
        ensures tables { IfOk result (λ again. again.tables ≡ tables) }
        ensures cause { RejoinsFrom K.rows K.faults K.spent keep result }
        ensures never { NeverFail K.faults K.spent → (S : List Row) → K.rows keep ≡ Some S
            → IfErr result (λ back. back.fault ≡ walk.NoMemory) }
        ensures same { IfErr result (λ back. SameRows K.rows K.count K.known keep back.rows) }
        ensures alike { RejoinsAlike K.alike keep result }
    {
        flows_of_acts_are_lawful();
        match KeptFlows::restore(reducer, keep) {
            Ok(kept) => Ok(EventFlows {
                alloc,
                join,
                tables,
                plan: Plan::new(alloc),
                kept,
                counts: EventCounts::restore(state),
                excess: state.excess,
            }),
            Err(back) => Err(back),
        }
    }

    /// The rows that keep the flows.
    pub fn into_keep(self) -> K
    where
        R: Drop,
        ensures { result ≡ self.keep }
    {
        self.kept.into_rows()
    }

    /// Gives the joiner the end of an event.
    pub fn end(&mut self, key: EventKey)
        ensures ends { (item : Record) → EndsAt key item → EntersOne item self.old self.new }
        ensures few { OneMore self.old self.new }
        ensures alike { K.alike self.old.keep self.new.keep }
        ensures marked { self.new.tables.marked ≡ self.old.tables.marked }
    {
        self.join.end(key);
    }

    /// Gives the joiner a record, in place of which any record stays, for its memory. If allocation fails nothing has changed.
    #[inline(always)]
    pub fn take(&mut self, item: &mut Record) -> Result<(), NoMemory>
        requires quiet { NothingRipe self.old.join }
        ensures ok { OnOk result (EntersOne item.old self.old self.new) }
        ensures few { OnOk result (OneMore self.old self.new) }
        ensures err { OnErr result (self.new ≡ self.old) }
        ensures alike { K.alike self.old.keep self.new.keep }
        ensures marked { self.new.tables.marked ≡ self.old.tables.marked }
    {
        let taken = self.join.exchange(item)?;
        if taken == Entered::Excess {
            self.excess = self.excess.saturating_add(1);
        }
        Ok(())
    }

    /// From now on it is remembered what acts are about.
    pub fn remember(&mut self)
        ensures same { self.new ≡ record self.old { tables = self.new.tables } }
        ensures stands { StaysJoined self.old self.new }
        ensures few { StaysFew self.old self.new }
        ensures marked { self.new.tables.marked ≡ Some self.old.tables.acts }
    {
        let _ = &self.join;
        self.tables.remember(self.alloc);
    }

    /// Closes all that waits.
    pub fn close(&mut self)
        ensures closed { ClosesAll self.old self.new }
        ensures few { StaysFew self.old self.new }
        ensures alike { K.alike self.old.keep self.new.keep }
        ensures marked { self.new.tables.marked ≡ self.old.tables.marked }
    {
        self.join.settle();
    }

    /// Releases all that is ripe. It stops at an event that would pass a limit, or for which allocation fails: this event
    /// and those after it are owed. It is asked after each line, so it is inlined, and what an event does isn't.
    #[inline(always)]
    pub fn release(&mut self) -> Result<(), Refused>
        requires few { IsBounded self.old }
        ensures quiet { OnOk result (NothingRipe self.new.join) }
        ensures few { StaysFew self.old self.new }
        ensures ok { OnOk result (ReleasesAll self.old self.new) }
        ensures owed { IfErr result (OwesRest self.old self.new) }
        ensures alike { K.alike self.old.keep self.new.keep }
        ensures marked { self.new.tables.marked ≡ self.old.tables.marked }
    {
        while self.join.ripe() {
            match self.follow() {
                Ok(()) => {}
                Err(why) => return Err(why),
            }
        }
        Ok(())
    }

    /// Whether an event is ripe.
    pub fn ripe(&self) -> bool
        ensures { WhereWaiting self.now (λ limits s released.
            result ≡ is_some (next_event limits s)) }
    {
        let _ = &self.tables;
        self.join.ripe()
    }

    /// The counts of events.
    pub fn counts(&self) -> EventCounts
        ensures { result ≡ self.now.counts }
    {
        self.counts
    }

    /// How many records were dropped.
    pub fn excess(&self) -> u64
        ensures { result ≡ self.now.excess }
    {
        self.excess
    }

    /// How many events wait.
    pub fn waiting(&self) -> u64
        ensures { WhereWaiting self.now (λ limits s released. result ≡ count_keys s.waiting) }
    {
        let _ = &self.tables;
        self.join.waiting() as u64
    }

    /// How many objects are known.
    pub fn known(&self) -> u32
        ensures { result ≡ length self.now.tables.entities.keys }
    {
        let _ = &self.join;
        self.tables.entities().count()
    }

    /// How many flows there were.
    pub fn flows(&self) -> u64
        ensures { WhereJoined self.now (λ limits events. result ≡ length (flows_in limits events)) }
    {
        let _ = &self.join;
        self.tables.flows()
    }

    /// How many acts there were.
    pub fn acts(&self) -> u64
        ensures { WhereJoined self.now (λ limits events.
            result ≡ length (taken_in limits events)) }
    {
        let _ = &self.join;
        self.tables.acts()
    }

    /// How far joining got.
    pub fn clock(&self) -> JoinClock
        ensures { WhereWaiting self.now (λ limits s released. result ≡ s.clock) }
    {
        let _ = &self.tables;
        self.join.clock()
    }

    /// The mode.
    pub fn mode(&self) -> Mode
        ensures { result ≡ R.mode }
    {
        let _ = &self.tables;
        self.kept.mode()
    }

    /// How many rows are kept of the flows.
    pub fn kept(&self) -> u64
        ensures { WhereJoined self.now (λ limits events.
            KeepsSoMany R.mode (flows_in limits events) result) }
    {
        let _ = self.kept.mode();
        self.kept.count()
    }

    /// The answer to a question about a known object, or `None` if the mode doesn't answer it. Asking changes nothing but
    /// the rows, which stay those of the same flows.
    pub fn ask(&mut self, question: &Question) -> Result<Option<List<EntityId>>, WalkFault>
        requires known { subject question.now < length self.old.tables.entities.keys }
        ensures exact { IfOk result (λ found. WhereJoined self.old (λ limits events.
            AnswersFor R.mode (flows_in limits events) question.now found)) }
        ensures cause { WalkHasCauses K.faults K.spent self.old self.new result }
        ensures never { NeverFail K.faults K.spent → WhereJoined self.old (λ limits events.
            IfErr result (λ why. why ≡ walk.NoMemory)) }
        ensures always { NeverFail K.faults K.spent → AlwaysTold K.rows
            → IfErr result (λ why. why ≡ walk.NoMemory) }
        ensures own { self.old.kept.told ≡ K.rows self.old.keep }
        ensures same { self.new ≡ record self.old { keep = self.new.keep } }
        ensures alike { K.alike self.old.keep self.new.keep }
    {
        self.kept.ask(self.alloc, question)
    }

    /// How one known object reached another, by flows no later than `until` in milliseconds. Asking changes nothing but the
    /// rows, which stay those of the same flows.
    pub fn path(
        &mut self,
        from: EntityId,
        to: EntityId,
        until: Option<u64>,
    ) -> Result<Way, WalkFault>
        requires from { from.0 < length self.old.tables.entities.keys }
        requires to { to.0 < length self.old.tables.entities.keys }
        ensures exact { IfOk result (λ way. WhereJoined self.old (λ limits events.
            ShowsFor R.mode (flows_in limits events) from.0 to.0 until way)) }
        ensures cause { WalkHasCauses K.faults K.spent self.old self.new result }
        ensures never { NeverFail K.faults K.spent → WhereJoined self.old (λ limits events.
            IfErr result (λ why. why ≡ walk.NoMemory)) }
        ensures always { NeverFail K.faults K.spent → AlwaysTold K.rows
            → IfErr result (λ why. why ≡ walk.NoMemory) }
        ensures own { self.old.kept.told ≡ K.rows self.old.keep }
        ensures same { self.new ≡ record self.old { keep = self.new.keep } }
        ensures alike { K.alike self.old.keep self.new.keep }
    {
        self.kept.path(self.alloc, from, to, until)
    }

    /// The known objects that have exactly this name, ascending.
    pub fn find(&self, text: &[u8]) -> Result<List<EntityId>, NoMemory>
        ensures { IfOk result (λ ids. WhereJoined self.now (λ limits events.
            ids ≡ named_in limits events text.now)) }
    {
        let _ = &self.join;
        self.tables.entities().find(text)
    }

    /// The key of a known object.
    pub fn key(&self, id: EntityId) -> &Key
        requires known { id.0 < length self.now.tables.entities.keys }
        ensures { WhereJoined self.now (λ limits events.
            slice_get (objects_in limits events) id.0 ≡ Some result.now) }
    {
        let _ = &self.join;
        self.tables.entities().key(id)
    }

    /// The names of a key, in the order in which they were first given.
    pub fn names(&self, key: &Key) -> &[Bytes]
        ensures { WhereJoined self.now (λ limits events.
            result.now ≡ names_in limits events key.now) }
    {
        let _ = &self.join;
        match self.tables.entities().names(key) {
            Some(names) => names,
            None => &[],
        }
    }

    // Follows the event that is released next. If it is refused, nothing has changed.
    #[inline(never)]
    fn follow(&mut self) -> Result<(), Refused>
        requires few { IsBounded self.old }
        requires ripe { WhereStands self.old.join (λ limits s.
            is_some (ripe_key limits s) ≡ true) }
        ensures next { OnOk result (ReleasesNext self.old self.new) }
        ensures less { OnOk result
            (length self.old.join.groups ≡ suc (length self.new.join.groups)) }
        ensures few { StaysFew self.old self.new }
        ensures refused { OnErr result (StaysJoined self.old self.new) }
        ensures full { (full : Full) → result ≡ Err (why.Full full)
            → WhereWaiting self.old (λ limits s released. NextPasses limits s released full) }
        ensures alike { K.alike self.old.keep self.new.keep }
        ensures marked { self.new.tables.marked ≡ self.old.tables.marked }
    {
        acts_are_few();
        acts_of_events_are_admitted();
        let Some(event) = self.join.peek() else {
            unreachable!()
        };
        match take_event(
            self.alloc,
            &mut self.tables,
            &mut self.kept,
            &event,
            &mut self.plan,
        ) {
            Ok(()) => {}
            Err(cause) => return Err(cause),
        }
        self.counts.count(event.late, self.plan.unmapped());
        self.tables.apply(&mut self.plan);
        let _ = self.join.pass();
        Ok(())
    }
}

impl<R: Reducer, D: Disk> EventFlows<R, Store<D>> {
    /// The rows of a commit of this State besides those of flows.
    pub fn rows_around(&self, state: StateRow) -> Result<TableRows, NoMemory>
        ensures put { IfOk result (λ rows. ArePut self.now.limits.names self.now.tables
            self.now.join state rows.entities rows.others) }
        ensures mode { self.now.kept.mode ≡ R.mode }
    {
        let _ = self.kept.mode();
        rows_around(self.alloc, &self.tables, &self.join, state)
    }

    /// Puts the rows of flows since the last commit on the disk, between rows of entities and others. Then all of the tables is
    /// saved, and the mark is now.
    ///
    /// It fails as `KeptFlows::commit` does, and then the tables are as before.
    pub fn save(&mut self, entities: &[StoreRow], others: &[StoreRow]) -> Result<(), CommitFault>
        requires entities { All CanBeSpelled entities.now }
        requires others { All CanBeSpelled others.now }
        requires can { CanCommit D.state self.old.keep }
        ensures can { OnOk result (CanCommit D.state self.new.keep) }
        ensures mode { self.old.kept.mode ≡ R.mode }
        ensures own { self.old.kept.told ≡ seen_rows D.state self.old.keep }
        ensures commits { CommitsRows D.state D.faults D.spent R.mode entities.now others.now
            self.old.keep self.new.keep result }
        ensures same { self.new
            ≡ record self.old { keep = self.new.keep; tables = self.new.tables } }
        ensures stands { StaysJoined self.old self.new }
        ensures few { StaysFew self.old self.new }
        ensures marked { OnOk result (self.new.tables.marked
            ≡ option_map (λ _. self.old.tables.acts) self.old.tables.marked) }
        ensures unmarked { OnErr result (self.new.tables ≡ self.old.tables) }
    {
        let _ = &self.join;
        self.kept.commit(self.alloc, entities, others)?;
        self.tables.mark_saved();
        Ok(())
    }
}

// Works out what an event does, into `plan`, with all the memory for it, and takes its flows in. If it is refused, nothing
// has changed, and the tables say the same as before in any case.
fn take_event<R: Reducer, K: Keep>(
    alloc: Global,
    tables: &mut Tables,
    kept: &mut KeptFlows<R, K>,
    event: &EventView<'_>,
    plan: &mut Plan,
) -> Result<(), Refused>
    requires together { GoTogether event.now.ms tables.old kept.old.kept }
    requires limits { HasLimits tables.old.limits tables.old }
    requires few { tables.old.acts + (2 * length event.now.records.now + 4 + 2) < 2 ^ 63 - 1 }
    ensures same { KeepTaken tables.old tables.new }
    ensures room { DiffersInRoom tables.old tables.new }
    ensures safe { AreSafe tables.new }
    ensures limits { HasLimits tables.old.limits tables.new }
    ensures acts { OnOk result
        (length plan.new.acts ≤ 4 + 2 * length event.now.records.now) }
    ensures kept { OnOk result
        (KeptWith tables.old (event_seen event.now) kept.old.kept kept.new.kept) }
    ensures refused { OnErr result (kept.new.kept ≡ kept.old.kept) }
    ensures alike { K.alike kept.old.keep kept.new.keep }
    ensures goes_on { OnOk result
        (GoWithPlan event.now.ms tables.old plan.new kept.new.kept) }
    ensures ready { OnOk result (IsReady tables.new plan.new) }
    ensures unmapped { OnOk result (plan.new.unmapped ≡ is_unmapped (event_seen event.now)) }
    ensures plan { OnOk result (IsPlanFor tables.old (event_seen event.now) plan.new) }
    ensures fits { OnOk result (IsFullWith tables.old (event_seen event.now) None) }
    ensures full { (full : Full) → result ≡ Err (why.Full full)
        → IsFullWith tables.old (event_seen event.now) (Some full) }
{
    flows_of_acts_are_lawful();
    match plan_event(alloc, tables, event, plan) {
        Ok(()) => {}
        Err(refused) => return Err(refused),
    }
    match kept.take(plan.flows()) {
        Ok(()) => Ok(()),
        Err(NoMemory) => Err(Refused::NoMemory),
    }
}

// Works out what an event does, into `plan`, with all the memory for it. The tables say the same as before.
#[inline(always)]
fn plan_event(
    alloc: Global,
    tables: &mut Tables,
    event: &EventView<'_>,
    plan: &mut Plan,
) -> Result<(), Refused>
    requires safe { AreSafe tables.old }
    requires limits { HasLimits tables.old.limits tables.old }
    requires few { tables.old.acts + (2 * length event.now.records.now + 4 + 2) < 2 ^ 63 - 1 }
    ensures same { KeepTaken tables.old tables.new }
    ensures room { DiffersInRoom tables.old tables.new }
    ensures safe { AreSafe tables.new }
    ensures limits { HasLimits tables.old.limits tables.new }
    ensures acts { OnOk result
        (length plan.new.acts ≤ 4 + 2 * length event.now.records.now) }
    ensures flows { OnOk result (PlanFlows tables.old event.now.ms plan.new) }
    ensures ready { OnOk result (IsReady tables.new plan.new) }
    ensures unmapped { OnOk result (plan.new.unmapped ≡ is_unmapped (event_seen event.now)) }
    ensures plan { OnOk result (IsPlanFor tables.old (event_seen event.now) plan.new) }
    ensures fits { OnOk result (IsFullWith tables.old (event_seen event.now) None) }
    ensures full { (full : Full) → result ≡ Err (why.Full full)
        → IsFullWith tables.old (event_seen event.now) (Some full) }
{
    acts_are_few();
    match tables.prepare(alloc, event, plan) {
        Ok(()) => Ok(()),
        Err(refused) => Err(refused),
    }
}
