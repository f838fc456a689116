//! Runs that answer questions over a store, and take no log.
ghost use Rattle.std.specs.Prelude.{false, ◌≡◌, ◌⊎◌, ◌<◌, ◌+◌, ◌-◌, ℕ, List, [], None, Some, Err, IfErr, IsErrOf};
ghost use Rattle.flow_base.specs.declared.limits.Full.{Full};
ghost use Rattle.flow_base.specs.declared.limits.Limits.{Limits};
ghost use Rattle.outside.specs.Cause.{Rose};
ghost use Rattle.outside.specs.Disk.{OnlyLooks, UsesDisk};
ghost use Rattle.audit_lex.specs.History.{History};
ghost use Rattle.kept_flows.specs.Committing.{CanCommit};
ghost use Rattle.dialogue.specs.declared.halt.Halt.TheVariants as halt;
ghost use Rattle.dialogue.specs.declared.halt.StoreHalt.TheVariants as over;
ghost use Rattle.store_runs.specs.Refusals.{AlwaysRefuses, RefusesNoBatch, RefusesUnsound};
ghost use Rattle.store_runs.specs.Statuses.{store_status};
ghost use Rattle.dialogue.specs.Saves.{IsHiddenIn};
ghost use Rattle.dialogue.specs.StoreHalts.{HasStoreCauses, no_lengths, no_modes, no_place};
ghost use Rattle.store_runs.specs.Stores.{HasNoBatch, IsBadOrNone, IsOpenAt, IsQueried, IsQueryRun, IsRefusal, IsReopened, IsWrongIn, StoodAt, WaitsUnsoundly, WasFound};

use crate::ran::Ran;
use dialogue::{
    Halt, Session, StoreHalt, halt_of_open, halt_of_restore, halted, room_for_a_read, watch,
};
use flow_base::{Bytes, Limits, NoMemory};
use ingest::{
    Ingest, stops_stay, what_can_commit_still_can, what_fits_never_stops, what_is_saved_stays_saved,
};
use outside::{CleanSource, Disk, Sink, Source};
use reach_model::Mode;
use reach_rows::{Plain, Reducer};
use reduce_continuous::Continuous;
use reduce_source::Sources;
use reduced_store::{Opened, Store, a_store_reads_in_one_way, what_is_found_was_stored};
use std::alloc::Global;
use table_salt::Salt;

/// Opens a disk as a store, and answers questions over what it has, whose rows it reads from the disk. It
/// takes no log, and writes nothing on the disk.
pub fn query<D: Disk, Q: Source, O: Sink>(
    alloc: Global,
    salt: Salt,
    limits: &Limits,
    questions: &mut Q,
    out: &mut O,
    disk: D,
) -> Ran<D>
    ensures run { IsQueryRun (λ kept h. (part : ℕ) × StoodAt D.state limits.now kept disk h part)
        limits.now (Q.left questions.old) (Q.left questions.new) (O.written out.old)
        (O.written out.new) result.outcome }
    ensures looks { OnlyLooks (D.state disk) (D.state result.disk) }
    ensures refused { IsRefusal result.outcome
        → (questions.new ≡ questions.old) × (out.new ≡ out.old) }
    ensures always { AlwaysRefuses limits.now (D.state disk) None
        (store_status result.outcome) }
    ensures no_batch { RefusesNoBatch limits.now (D.state disk) (store_status result.outcome) }
    ensures causes { IfErr result.outcome (HasStoreCauses
        (Rose (Q.faults questions.old) (Q.faults questions.new) (Q.spent questions.new))
        (Rose (O.faults out.old) (O.faults out.new) (O.spent out.new))
        (Rose (D.faults disk) (D.faults result.disk) (D.spent result.disk))
        (¬ (D.state disk).told)
        (IsBadOrNone limits.now (D.state disk)) (IsWrongIn limits.now (D.state disk) None)
        no_lengths) }
    ensures uses { UsesDisk D.state D.faults D.spent disk result.disk
        (IsErrOf result.outcome (over.Run halt.StoreFault)) }
{
    a_store_reads_in_one_way();
    match Store::open_on(alloc, salt, limits, None, disk) {
        Err(back) => Ran {
            outcome: Err(halt_of_open(back.fault)),
            disk: back.disk,
        },
        Ok(opened) => query_opened(alloc, salt, limits, opened, questions, out),
    }
}

// Answers questions over an opened store.
fn query_opened<D: Disk, Q: Source, O: Sink>(
    alloc: Global,
    salt: Salt,
    limits: &Limits,
    opened: Opened<D>,
    questions: &mut Q,
    out: &mut O,
) -> Ran<D>
    requires found { WasFound limits.now opened }
    requires can { CanCommit D.state opened.store }
    ensures run { IsQueryRun (λ kept h. (part : ℕ) × IsOpenAt D.state limits.now kept opened h part)
        limits.now (Q.left questions.old) (Q.left questions.new) (O.written out.old)
        (O.written out.new) result.outcome }
    ensures looks { OnlyLooks (D.state opened.store.disk) (D.state result.disk) }
    ensures refused { IsRefusal result.outcome
        → (questions.new ≡ questions.old) × (out.new ≡ out.old) }
    ensures unsound { RefusesUnsound D.state limits.now opened
        (store_status result.outcome) }
    ensures none { opened.mode ≡ None → result.outcome ≡ Err (over.BadStore 0) }
    ensures causes { IfErr result.outcome (HasStoreCauses
        (Rose (Q.faults questions.old) (Q.faults questions.new) (Q.spent questions.new))
        (Rose (O.faults out.old) (O.faults out.new) (O.spent out.new))
        (Rose (D.faults opened.store.disk) (D.faults result.disk) (D.spent result.disk))
        (IsHiddenIn D.state opened.store)
        (λ place. WaitsUnsoundly limits.now opened place ⊎ HasNoBatch opened place)
        no_modes no_lengths) }
    ensures uses { UsesDisk D.state D.faults D.spent opened.store.disk result.disk
        (IsErrOf result.outcome (over.Run halt.StoreFault)) }
{
    match opened.mode {
        None => Ran {
            outcome: Err(StoreHalt::BadStore(0)),
            disk: opened.store.into_disk(),
        },
        Some(Mode::Plain) => query_with(alloc, salt, limits, Plain::new(), opened, questions, out),
        Some(Mode::Continuous) => query_with(
            alloc,
            salt,
            limits,
            Continuous::new(alloc, salt),
            opened,
            questions,
            out,
        ),
        Some(Mode::Full) => query_with(
            alloc,
            salt,
            limits,
            reduce_full::Full::new(alloc, salt),
            opened,
            questions,
            out,
        ),
        Some(Mode::Source) => {
            query_with(
                alloc,
                salt,
                limits,
                Sources::new(alloc),
                opened,
                questions,
                out,
            )
        }
    }
}

// Answers questions over an opened store, by new tables of its mode.
fn query_with<R: Reducer + Drop, D: Disk, Q: Source, O: Sink>(
    alloc: Global,
    salt: Salt,
    limits: &Limits,
    reducer: R,
    opened: Opened<D>,
    questions: &mut Q,
    out: &mut O,
) -> Ran<D>
    requires stands { R.stands_for reducer [] }
    requires holds { R.holds reducer [] }
    requires found { WasFound limits.now opened }
    requires mode { opened.mode ≡ Some R.mode }
    requires can { CanCommit D.state opened.store }
    ensures run { IsQueryRun (λ kept h. (part : ℕ) × IsOpenAt D.state limits.now kept opened h part)
        limits.now (Q.left questions.old) (Q.left questions.new) (O.written out.old)
        (O.written out.new) result.outcome }
    ensures looks { OnlyLooks (D.state opened.store.disk) (D.state result.disk) }
    ensures refused { IsRefusal result.outcome
        → (questions.new ≡ questions.old) × (out.new ≡ out.old) }
    ensures unsound { RefusesUnsound D.state limits.now opened
        (store_status result.outcome) }
    ensures causes { IfErr result.outcome (HasStoreCauses
        (Rose (Q.faults questions.old) (Q.faults questions.new) (Q.spent questions.new))
        (Rose (O.faults out.old) (O.faults out.new) (O.spent out.new))
        (Rose (D.faults opened.store.disk) (D.faults result.disk) (D.spent result.disk))
        (IsHiddenIn D.state opened.store)
        (λ place. WaitsUnsoundly limits.now opened place ⊎ HasNoBatch opened place)
        no_modes no_lengths) }
    ensures uses { UsesDisk D.state D.faults D.spent opened.store.disk result.disk
        (IsErrOf result.outcome (over.Run halt.StoreFault)) }
{
    what_can_commit_still_can::<D>();
    what_is_found_was_stored();
    match Ingest::restore(alloc, salt, limits, reducer, opened) {
        Err(back) => Ran {
            outcome: Err(halt_of_restore(back.why)),
            disk: back.keep.into_disk(),
        },
        Ok(engine) => query_engine(alloc, limits, engine, questions, out),
    }
}

// Answers questions with the engine of a store.
fn query_engine<R: Reducer + Drop, D: Disk, Q: Source, O: Sink>(
    alloc: Global,
    limits: &Limits,
    engine: Ingest<R, Store<D>>,
    questions: &mut Q,
    out: &mut O,
) -> Ran<D>
    requires can { CanCommit D.state engine.joined.keep }
    ensures queried { (h : History) (before : ℕ) (asked : List ℕ)
        → IsReopened D.state R.mode limits.now engine h before
        → Q.left questions.old ≡ Some asked
        → IsQueried limits.now R.mode h asked (Q.left questions.new) (O.written out.old)
        (O.written out.new) result.outcome }
    ensures looks { OnlyLooks (D.state engine.joined.keep.disk) (D.state result.disk) }
    ensures causes { IfErr result.outcome (HasStoreCauses
        (Rose (Q.faults questions.old) (Q.faults questions.new) (Q.spent questions.new))
        (Rose (O.faults out.old) (O.faults out.new) (O.spent out.new))
        (Rose (D.faults engine.joined.keep.disk) (D.faults result.disk) (D.spent result.disk))
        (IsHiddenIn D.state engine.joined.keep)
        no_place no_modes no_lengths) }
    ensures uses { UsesDisk D.state D.faults D.spent engine.joined.keep.disk result.disk
        (IsErrOf result.outcome (over.Run halt.StoreFault)) }
{
    let piece = match room_for_a_read(alloc) {
        Ok(piece) => piece,
        Err(NoMemory) => {
            return Ran {
                outcome: Err(StoreHalt::Run(Halt::NoMemory)),
                disk: engine.into_keep().into_disk(),
            };
        }
    };
    what_is_saved_stays_saved::<D>();
    stops_stay();
    what_fits_never_stops();
    let mut log = CleanSource::new(Bytes::new(alloc));
    let mut session = Session {
        alloc,
        engine,
        piece,
        batch: limits.batch,
        unsaved: 0,
    };
    let outcome = watch(&mut session, false, limits, &mut log, questions, out);
    Ran {
        outcome: halted(outcome),
        disk: session.engine.into_keep().into_disk(),
    }
}
