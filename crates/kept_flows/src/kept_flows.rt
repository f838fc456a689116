//! A reducer with its rows.
ghost use Rattle.std.specs.Prelude.{◌≡◌, ◌<◌, ◌≤◌, ◌+◌, ◌^◌, [], List, length, Some};
ghost use Rattle.std.specs.List.{All};
ghost use Rattle.std.specs.Prelude.{IfOk, IfErr, IfSome, OnErr, OnOk};
ghost use Rattle.flow_base.specs.declared.types.Flow.{Flow as AFlow};
ghost use Rattle.reach_model.specs.Numbers.{known};
ghost use Rattle.reach_rows.specs.Asked.{subject};
ghost use Rattle.reach_rows.specs.Kept.{known_after};
ghost use Rattle.query_walk.specs.declared.fault.WalkFault.TheVariants as fault;
ghost use Rattle.reach_model.specs.Rows.{Row as ARow};
ghost use Rattle.query_walk.specs.Walks.{SameRows};
ghost use Rattle.row_codec.specs.Rows.{CanBeSpelled};
ghost use Rattle.reduced_store.specs.OnDisk.{seen_rows};
ghost use Rattle.kept_flows.specs.Committing.{CanCommit, CommitsRows};
ghost use Rattle.kept_flows.specs.KeptFlows.{StandsFor, TakesIn, SameFaults, HasCauses, kept_of};
ghost use Rattle.kept_flows.specs.Restoring.{StandsAgain, RestoresFrom, RestoresAlike};
ghost use Rattle.kept_flows.specs.Taking.{BringsOnly, MayTakeIn};
ghost use Rattle.kept_flows.specs.Answering.{AlwaysTold, AnswersBy, NeverFail, ShowsBy};

use crate::one_flow::take_all;
use crate::one_path::{Way, find_way};
use crate::one_question::answer;
use crate::restoring::{Unrestored, recall_all};
use batch_log::CommitFault;
use flow_base::{EntityId, Flow, List, NoMemory};
use outside::Disk;
use query_walk::WalkFault;
use reach_model::{Mode, first_flows_are_kept, lawful_flows_grow};
use reach_rows::{Keep, Question, Reducer, verdicts_make_the_rows};
use reduced_store::Store;
use row_codec::StoreRow;
use std::alloc::Global;
use std::marker::{Brand, Model};
use std::sync::ledger::Blank;

/// Flows in order, of which the rows of a mode are kept.
#[derive(Drop)]
pub struct KeptFlows<R: Reducer, K: Keep> {
    reducer: R,
    rows: K,
}

impl<R: Reducer, K: Keep> Model for KeptFlows<R, K> {
    ghost use Rattle.kept_flows.specs.KeptFlows.{OverRows, AreTiedTo, kept_of};

    ghost Value = { OverRows K };

    ghost view = { λ a. record {
      kept = kept_of R.mode K.rows K.count K.known a.rows;
      keep = a.rows;
    } };

    ghost invariant = { λ a. AreTiedTo R.stands_for R.holds K.rows K.count K.known a.reducer a.rows };
}

impl<R: Reducer, K: Keep> KeptFlows<R, K> {
    /// No flows, by a new reducer and no rows.
    pub fn new(reducer: R, rows: K) -> KeptFlows<R, K>
        requires stands { R.stands_for reducer [] }
        requires holds { R.holds reducer [] }
        requires none { IfSome (K.rows rows) (λ R. R ≡ []) }
        requires count { K.count rows ≡ 0 }
        requires known { K.known rows ≡ 0 }
        ensures none { K.rows rows ≡ Some [] → StandsFor result.kept [] }
        ensures kept { result.kept ≡ kept_of R.mode K.rows K.count K.known rows }
        ensures keep { result.keep ≡ rows }
    {
        lawful_flows_grow();
        verdicts_make_the_rows();
        KeptFlows { reducer, rows }
    }

    /// The flows of an earlier run, by a new reducer and the rows that were kept then. The reducer recalls each row in order.
    ///
    /// `StoreFault` means that a read of the rows failed during this call, or that the rows have stopped counting failed
    /// reads. `BadStore` comes only from rows that aren't observable, and `NoMemory` means want of memory. A refusal
    /// hands the rows back as they were.
    pub fn restore(reducer: R, rows: K) -> Result<KeptFlows<R, K>, Unrestored<K>>
    where
        R: Drop,
        requires stands { R.stands_for reducer [] }
        requires holds { R.holds reducer [] }
        requires few { K.count rows ≤ 2 ^ 63 }
        ensures stands { IfOk result (λ again. StandsAgain R.mode (K.rows rows) again.kept) }
        ensures kept { IfOk result (λ again.
            again.kept ≡ kept_of R.mode K.rows K.count K.known rows) }
        ensures cause { RestoresFrom K.rows K.faults K.spent rows result }
        ensures never { NeverFail K.faults K.spent → (S : List ARow) → K.rows rows ≡ Some S
            → IfErr result (λ back. back.fault ≡ fault.NoMemory) }
        ensures same { IfErr result (λ back. SameRows K.rows K.count K.known rows back.rows) }
        ensures alike { RestoresAlike K.alike rows result }
    {
        first_flows_are_kept();
        let mut reducer = reducer;
        let mut rows = rows;
        match recall_all::<R, K, Brand>(&mut reducer, &mut rows, Blank::new(1)) {
            Ok(()) => Ok(KeptFlows { reducer, rows }),
            Err(fault) => Err(Unrestored { fault, rows }),
        }
    }

    /// The rows, to be used elsewhere.
    pub fn into_rows(self) -> K
    where
        R: Drop,
        ensures { result ≡ self.keep }
    {
        self.rows
    }

    /// The mode.
    pub fn mode(&self) -> Mode
        ensures mode { result ≡ R.mode }
        ensures own { result ≡ self.now.kept.mode }
    {
        let _ = &self.rows;
        self.reducer.mode()
    }

    /// How many rows are kept.
    pub fn count(&self) -> u64
        ensures { result ≡ self.now.kept.count }
    {
        let _ = &self.reducer;
        self.rows.count()
    }

    /// How many objects the flows know.
    pub fn known(&self) -> u32
        ensures count { result ≡ self.now.kept.objects }
        ensures flows { (F : List AFlow) → StandsFor self.now.kept F → result ≡ known F }
    {
        let _ = &self.reducer;
        self.rows.known()
    }

    /// Takes in the flows that come next. The only error is want of memory, and then the kept flows are as before.
    /// Taking flows in reads no rows, so no read of them can fail.
    ///
    /// The kept flows need not stand for any flows, as rows that no log left don't. `taken` speaks of whatever flows they
    /// stand for.
    pub fn take(&mut self, flows: &[Flow]) -> Result<(), NoMemory>
        requires next { MayTakeIn self.old.kept flows.now }
        ensures taken { OnOk result (TakesIn self.old.kept flows.now self.new.kept) }
        ensures objects { OnOk result
            (self.new.kept.objects ≡ known_after self.old.kept.objects flows.now) }
        ensures count { self.new.kept.count ≤ self.old.kept.count + length flows.now }
        ensures brings { BringsOnly self.old.kept.told flows.now self.new.kept.told }
        ensures same { OnErr result (self.new.kept ≡ self.old.kept) }
        ensures faults { SameFaults K.faults K.spent self.old.keep self.new.keep }
        ensures alike { K.alike self.old.keep self.new.keep }
    {
        take_all(&mut self.reducer, &mut self.rows, flows)
    }

    /// The answer to a question about a known object, or `None` if the mode doesn't answer it.
    ///
    /// `StoreFault` means that a read of the rows failed during this call, or that the rows have stopped counting failed
    /// reads. `BadStore` comes only from rows that aren't observable, and `NoMemory` means want of memory. Whatever
    /// is returned, the kept flows are as before, so they stand for the same flows.
    pub fn ask(
        &mut self,
        alloc: Global,
        question: &Question,
    ) -> Result<Option<List<EntityId>>, WalkFault>
        requires known { subject question.now < self.old.kept.objects }
        ensures exact { IfOk result (λ found. AnswersBy R.mode self.old.kept question.now found) }
        ensures cause { HasCauses K.faults K.spent self.old self.new result }
        ensures never { NeverFail K.faults K.spent → (F : List AFlow) → StandsFor self.old.kept F
            → IfErr result (λ why. why ≡ fault.NoMemory) }
        ensures always { NeverFail K.faults K.spent → AlwaysTold K.rows
            → IfErr result (λ why. why ≡ fault.NoMemory) }
        ensures own { self.old.kept.told ≡ K.rows self.old.keep }
        ensures same { self.new.kept ≡ self.old.kept }
        ensures alike { K.alike self.old.keep self.new.keep }
    {
        answer::<R, K, Brand>(
            alloc,
            &self.reducer,
            &mut self.rows,
            question,
            Blank::new(1),
        )
    }

    /// How one known object reached another, by flows no later than `until` in milliseconds: along which path, or that
    /// there is none, or that the mode doesn't answer it. Source mode answers it for sources alone, and every other mode
    /// for all objects. Errors and what they leave are those of `ask`.
    pub fn path(
        &mut self,
        alloc: Global,
        from: EntityId,
        to: EntityId,
        until: Option<u64>,
    ) -> Result<Way, WalkFault>
        requires known { (from.0 < self.old.kept.objects) × (to.0 < self.old.kept.objects) }
        ensures exact { IfOk result (λ way. ShowsBy R.mode self.old.kept from.0 to.0 until way) }
        ensures cause { HasCauses K.faults K.spent self.old self.new result }
        ensures never { NeverFail K.faults K.spent → (F : List AFlow) → StandsFor self.old.kept F
            → IfErr result (λ why. why ≡ fault.NoMemory) }
        ensures always { NeverFail K.faults K.spent → AlwaysTold K.rows
            → IfErr result (λ why. why ≡ fault.NoMemory) }
        ensures own { self.old.kept.told ≡ K.rows self.old.keep }
        ensures same { self.new.kept ≡ self.old.kept }
        ensures alike { K.alike self.old.keep self.new.keep }
    {
        find_way::<R, K, Brand>(
            alloc,
            &self.reducer,
            &mut self.rows,
            from,
            to,
            until,
            Blank::new(1),
        )
    }
}

impl<R: Reducer, D: Disk> KeptFlows<R, Store<D>> {
    /// Puts the rows since the last commit on the disk of the store that keeps them, in one batch between rows before and rows
    /// behind.
    ///
    /// `StoreFault` means that a call on the disk failed: the batch may be there or not, and the disk has to be opened again. After
    /// `Full`, a limit that the batch would pass, and after `NoMemory`, want of memory, nothing has changed.
    pub fn commit(
        &mut self,
        alloc: Global,
        front: &[StoreRow],
        back: &[StoreRow],
    ) -> Result<(), CommitFault>
        requires front { All CanBeSpelled front.now }
        requires back { All CanBeSpelled back.now }
        requires can { CanCommit D.state self.old.keep }
        ensures can { OnOk result (CanCommit D.state self.new.keep) }
        ensures mode { self.old.kept.mode ≡ R.mode }
        ensures own { self.old.kept.told ≡ seen_rows D.state self.old.keep }
        ensures kept { self.new.kept ≡ self.old.kept }
        ensures commits { CommitsRows D.state D.faults D.spent R.mode front.now back.now
            self.old.keep self.new.keep result }
    {
        let mode = self.reducer.mode();
        self.rows.commit_rows(alloc, mode, front, back)
    }
}
