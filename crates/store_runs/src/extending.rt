//! Runs that take a log into a store: as a whole, or as questions ask for it.
ghost use Rattle.std.specs.Prelude.{Bool, true, false, ◌≡◌, ◌⊎◌, ◌≤◌, ◌<◌, ◌+◌, ◌-◌, length, drop, ⊤, ℕ, List, [], Some, Err, IfErr, IsErrOf, OnOk, OnErr};
ghost use Rattle.flow_base.specs.declared.limits.Full.{Full};
ghost use Rattle.flow_base.specs.declared.limits.Limits.{Limits};
ghost use Rattle.outside.specs.Cause.{Rose};
ghost use Rattle.outside.specs.Disk.{LeavesOnly, OnlyLooks, UsesDisk};
ghost use Rattle.audit_lex.specs.History.{History};
ghost use Rattle.ingest.specs.StandsFor.{StandsFor};
ghost use Rattle.reduced_store.specs.OnDisk.{OnDisk, SameBut};
ghost use Rattle.kept_flows.specs.Committing.{CanCommit};
ghost use Rattle.ingest.specs.Stops.{Stops};
ghost use Rattle.dialogue.specs.declared.halt.Halt.TheVariants as halt;
ghost use Rattle.dialogue.specs.declared.halt.StoreHalt.TheVariants as over;
ghost use Rattle.dialogue.specs.Course.{At, GoesUp, HasCauses, IsDue, kind_of, never};
ghost use Rattle.dialogue.specs.Dialogue.{Moment, asks, lines_in};
ghost use Rattle.dialogue.specs.Settles.{settles};
ghost use Rattle.store_runs.specs.Refusals.{AlwaysRefuses, RefusesUnsound};
ghost use Rattle.dialogue.specs.Saves.{AddsToStore, IsAllPutAway, IsHiddenIn, IsPutAway, IsReached, KeepsPace, LacksInStore, LeavesAllBut, PassesStore, RoseIn, Start, UsesStore, since};
ghost use Rattle.store_runs.specs.Statuses.{store_status};
ghost use Rattle.dialogue.specs.StoreHalts.{HasStoreCauses, IsRunDue, NamesNoBatch, is_shorter, no_modes, no_place, over_run, shorter_in};
ghost use Rattle.store_runs.specs.Stores.{HasBegun, HearsOut, IsBadIn, IsOpenAt, IsReduceRun, IsRefusal, IsReopened, IsShort, IsWatchRun, IsWrongIn, AreTold, AsksTold, LooksOrLacks, StoodAt, WaitsUnsoundly, WasFound, AddsFew, AddsIn, is_resumed};
ghost use Rattle.dialogue.specs.Runs.{HasTaken, LacksIn, WroteFront, WroteStat, begun_of, settled_all};

use crate::ran::Ran;
use batch_log::a_disk_reads_in_one_way;
use dialogue::{
    Halt, Saves, Session, StoreHalt, halt_of_open, halt_of_restore, halted, pass_over, reply_of,
    room_for_a_read, say, settle_all, take, watch,
};
use flow_base::{Limits, NoMemory};
use ingest::{
    Ingest, stops_stay, what_can_commit_still_can, what_fits_never_stops, what_is_saved_stays_saved,
};
use outside::{Disk, Sink, Source};
use reach_model::Mode;
use reach_rows::{Plain, Reducer};
use reduce_continuous::Continuous;
use reduce_source::Sources;
use reduced_store::{Opened, Store, a_store_reads_in_one_way, what_is_found_was_stored};
use report_json::Ask;
use row_codec::payloads_are_apart;
use std::alloc::Global;
use table_salt::Salt;

/// How a log is taken into a store.
#[derive(Clone, Copy, Debug, PartialEq, Eq)]
pub enum Taking {
    /// To its end. If it goes on, the bytes of this log that the store has taken are passed over.
    Whole { resume: bool },
    /// As questions ask for it.
    Asked,
}

/// Opens a disk as a store of a mode, and takes a log into it: to its end, after which the reply to
/// `stat` is written, or as questions ask for it, each of which is answered.
///
/// Whenever as many bytes were taken as the limit on a batch says, after each settle and at the end, all
/// that came is put on the disk. If a log's bytes that were taken before are passed over, a log that has
/// fewer of them is a short one.
pub fn extend<D: Disk, L: Source, Q: Source, O: Sink>(
    alloc: Global,
    salt: Salt,
    limits: &Limits,
    mode: Mode,
    taking: Taking,
    log: &mut L,
    questions: &mut Q,
    out: &mut O,
    disk: D,
) -> Ran<D>
    ensures reduced { (resume : Bool) → taking ≡ Taking.Whole resume
        → IsReduceRun resume (StoodAt D.state limits.now mode disk) limits.now mode
        (D.state disk) (D.state result.disk) (L.left log.old) (L.left log.new)
        (O.written out.old) (O.written out.new) result.outcome }
    ensures watched { taking ≡ Taking.Asked
        → IsWatchRun (StoodAt D.state limits.now mode disk) limits.now mode
        (D.state disk) (D.state result.disk) (L.left log.old) (L.left log.new)
        (Q.left questions.old) (O.written out.old) (O.written out.new) result.outcome }
    ensures heard { taking ≡ Taking.Asked → HearsOut (StoodAt D.state limits.now mode disk)
        limits.now mode (L.left log.old) (Q.left questions.old) (Q.left questions.new)
        result.outcome }
    ensures lacks { LooksOrLacks (is_resumed taking) (AsksTold taking (Q.left questions.old))
        (StoodAt D.state limits.now mode disk) limits.now mode (D.state disk)
        (D.state result.disk) (L.left log.old) (L.left log.new) limits.now.batch result.outcome }
    ensures adds { (resume : Bool) → taking ≡ Taking.Whole resume
        → AddsFew resume (StoodAt D.state limits.now mode disk) limits.now (D.state disk)
        (D.state result.disk) (L.left log.old) (L.left log.new) limits.now.batch 1 }
    ensures watch_adds { taking ≡ Taking.Asked → (asked : List ℕ)
        → Q.left questions.old ≡ Some asked
        → AddsFew false (StoodAt D.state limits.now mode disk) limits.now
        (D.state disk)
        (D.state result.disk) (L.left log.old) (L.left log.new)
        limits.now.batch (settles (asks limits.now (lines_in asked)) + 1) }
    ensures silent { (resume : Bool) → taking ≡ Taking.Whole resume
        → questions.new ≡ questions.old }
    ensures refused { IsRefusal result.outcome → (log.new ≡ log.old)
        × (questions.new ≡ questions.old) × (out.new ≡ out.old)
        × OnlyLooks (D.state disk) (D.state result.disk) }
    ensures always { AlwaysRefuses limits.now (D.state disk) (Some mode)
        (store_status result.outcome) }
    ensures causes { IfErr result.outcome (HasStoreCauses
        (Rose (L.faults log.old) (L.faults log.new) (L.spent log.new)
        ⊎ Rose (Q.faults questions.old) (Q.faults questions.new) (Q.spent questions.new))
        (Rose (O.faults out.old) (O.faults out.new) (O.spent out.new))
        (Rose (D.faults disk) (D.faults result.disk) (D.spent result.disk))
        (¬ (D.state disk).told)
        (IsBadIn limits.now (D.state disk)) (IsWrongIn limits.now (D.state disk) (Some mode))
        (shorter_in (is_resumed taking))) }
    ensures uses { UsesDisk D.state D.faults D.spent disk result.disk
        (IsErrOf result.outcome (over.Run halt.StoreFault)) }
{
    a_store_reads_in_one_way();
    match Store::open_on(alloc, salt, limits, Some(mode), disk) {
        Err(back) => Ran {
            outcome: Err(halt_of_open(back.fault)),
            disk: back.disk,
        },
        Ok(opened) => extend_opened(
            alloc, salt, limits, mode, taking, opened, log, questions, out,
        ),
    }
}

// Takes a log into an opened store.
fn extend_opened<D: Disk, L: Source, Q: Source, O: Sink>(
    alloc: Global,
    salt: Salt,
    limits: &Limits,
    mode: Mode,
    taking: Taking,
    opened: Opened<D>,
    log: &mut L,
    questions: &mut Q,
    out: &mut O,
) -> Ran<D>
    requires found { WasFound limits.now opened }
    requires mode { (m : Mode) → opened.mode ≡ Some m → m ≡ mode }
    requires can { CanCommit D.state opened.store }
    ensures reduced { (resume : Bool) → taking ≡ Taking.Whole resume
        → IsReduceRun resume (IsOpenAt D.state limits.now mode opened) limits.now mode
        (D.state opened.store.disk) (D.state result.disk) (L.left log.old) (L.left log.new)
        (O.written out.old) (O.written out.new) result.outcome }
    ensures watched { taking ≡ Taking.Asked
        → IsWatchRun (IsOpenAt D.state limits.now mode opened) limits.now mode
        (D.state opened.store.disk) (D.state result.disk) (L.left log.old) (L.left log.new)
        (Q.left questions.old) (O.written out.old) (O.written out.new) result.outcome }
    ensures heard { taking ≡ Taking.Asked → HearsOut (IsOpenAt D.state limits.now mode opened)
        limits.now mode (L.left log.old) (Q.left questions.old) (Q.left questions.new)
        result.outcome }
    ensures lacks { LacksIn (is_resumed taking) (AsksTold taking (Q.left questions.old))
        (IsOpenAt D.state limits.now mode opened) limits.now mode
        (D.state result.disk) (L.left log.old) (L.left log.new) limits.now.batch result.outcome }
    ensures adds { (resume : Bool) → taking ≡ Taking.Whole resume
        → AddsFew resume (IsOpenAt D.state limits.now mode opened) limits.now
        (D.state opened.store.disk) (D.state result.disk) (L.left log.old) (L.left log.new)
        limits.now.batch 1 }
    ensures watch_adds { taking ≡ Taking.Asked → (asked : List ℕ)
        → Q.left questions.old ≡ Some asked
        → AddsFew false (IsOpenAt D.state limits.now mode opened) limits.now
        (D.state opened.store.disk)
        (D.state result.disk) (L.left log.old) (L.left log.new)
        limits.now.batch (settles (asks limits.now (lines_in asked)) + 1) }
    ensures silent { (resume : Bool) → taking ≡ Taking.Whole resume
        → questions.new ≡ questions.old }
    ensures refused { IsRefusal result.outcome → (log.new ≡ log.old)
        × (questions.new ≡ questions.old) × (out.new ≡ out.old)
        × OnlyLooks (D.state opened.store.disk) (D.state result.disk) }
    ensures unsound { RefusesUnsound D.state limits.now opened
        (store_status result.outcome) }
    ensures causes { IfErr result.outcome (HasStoreCauses
        (Rose (L.faults log.old) (L.faults log.new) (L.spent log.new)
        ⊎ Rose (Q.faults questions.old) (Q.faults questions.new) (Q.spent questions.new))
        (Rose (O.faults out.old) (O.faults out.new) (O.spent out.new))
        (Rose (D.faults opened.store.disk) (D.faults result.disk) (D.spent result.disk))
        (IsHiddenIn D.state opened.store)
        (WaitsUnsoundly limits.now opened) no_modes (shorter_in (is_resumed taking))) }
    ensures uses { UsesDisk D.state D.faults D.spent opened.store.disk result.disk
        (IsErrOf result.outcome (over.Run halt.StoreFault)) }
{
    match mode {
        Mode::Plain => {
            extend_with(
                alloc,
                salt,
                limits,
                Plain::new(),
                taking,
                opened,
                log,
                questions,
                out,
            )
        }
        Mode::Continuous => {
            let tables = Continuous::new(alloc, salt);
            extend_with(
                alloc, salt, limits, tables, taking, opened, log, questions, out,
            )
        }
        Mode::Full => {
            let tables = reduce_full::Full::new(alloc, salt);
            extend_with(
                alloc, salt, limits, tables, taking, opened, log, questions, out,
            )
        }
        Mode::Source => {
            let tables = Sources::new(alloc);
            extend_with(
                alloc, salt, limits, tables, taking, opened, log, questions, out,
            )
        }
    }
}

// Takes a log into an opened store, by new tables of its mode.
fn extend_with<R: Reducer + Drop, D: Disk, L: Source, Q: Source, O: Sink>(
    alloc: Global,
    salt: Salt,
    limits: &Limits,
    tables: R,
    taking: Taking,
    opened: Opened<D>,
    log: &mut L,
    questions: &mut Q,
    out: &mut O,
) -> Ran<D>
    requires stands { R.stands_for tables [] }
    requires holds { R.holds tables [] }
    requires found { WasFound limits.now opened }
    requires mode { (m : Mode) → opened.mode ≡ Some m → m ≡ R.mode }
    requires can { CanCommit D.state opened.store }
    ensures reduced { (resume : Bool) → taking ≡ Taking.Whole resume
        → IsReduceRun resume (IsOpenAt D.state limits.now R.mode opened) limits.now R.mode
        (D.state opened.store.disk) (D.state result.disk) (L.left log.old) (L.left log.new)
        (O.written out.old) (O.written out.new) result.outcome }
    ensures watched { taking ≡ Taking.Asked
        → IsWatchRun (IsOpenAt D.state limits.now R.mode opened) limits.now R.mode
        (D.state opened.store.disk) (D.state result.disk) (L.left log.old) (L.left log.new)
        (Q.left questions.old) (O.written out.old) (O.written out.new) result.outcome }
    ensures heard { taking ≡ Taking.Asked → HearsOut (IsOpenAt D.state limits.now R.mode opened)
        limits.now R.mode (L.left log.old) (Q.left questions.old) (Q.left questions.new)
        result.outcome }
    ensures lacks { LacksIn (is_resumed taking) (AsksTold taking (Q.left questions.old))
        (IsOpenAt D.state limits.now R.mode opened) limits.now R.mode
        (D.state result.disk) (L.left log.old) (L.left log.new) limits.now.batch result.outcome }
    ensures adds { (resume : Bool) → taking ≡ Taking.Whole resume
        → AddsFew resume (IsOpenAt D.state limits.now R.mode opened) limits.now
        (D.state opened.store.disk) (D.state result.disk) (L.left log.old) (L.left log.new)
        limits.now.batch 1 }
    ensures watch_adds { taking ≡ Taking.Asked → (asked : List ℕ)
        → Q.left questions.old ≡ Some asked
        → AddsFew false (IsOpenAt D.state limits.now R.mode opened) limits.now
        (D.state opened.store.disk)
        (D.state result.disk) (L.left log.old) (L.left log.new)
        limits.now.batch (settles (asks limits.now (lines_in asked)) + 1) }
    ensures silent { (resume : Bool) → taking ≡ Taking.Whole resume
        → questions.new ≡ questions.old }
    ensures refused { IsRefusal result.outcome → (log.new ≡ log.old)
        × (questions.new ≡ questions.old) × (out.new ≡ out.old)
        × OnlyLooks (D.state opened.store.disk) (D.state result.disk) }
    ensures unsound { RefusesUnsound D.state limits.now opened
        (store_status result.outcome) }
    ensures causes { IfErr result.outcome (HasStoreCauses
        (Rose (L.faults log.old) (L.faults log.new) (L.spent log.new)
        ⊎ Rose (Q.faults questions.old) (Q.faults questions.new) (Q.spent questions.new))
        (Rose (O.faults out.old) (O.faults out.new) (O.spent out.new))
        (Rose (D.faults opened.store.disk) (D.faults result.disk) (D.spent result.disk))
        (IsHiddenIn D.state opened.store)
        (WaitsUnsoundly limits.now opened) no_modes (shorter_in (is_resumed taking))) }
    ensures uses { UsesDisk D.state D.faults D.spent opened.store.disk result.disk
        (IsErrOf result.outcome (over.Run halt.StoreFault)) }
{
    a_disk_reads_in_one_way();
    payloads_are_apart();
    what_can_commit_still_can::<D>();
    what_is_found_was_stored();
    match Ingest::restore(alloc, salt, limits, tables, opened) {
        Err(back) => Ran {
            outcome: Err(halt_of_restore(back.why)),
            disk: back.keep.into_disk(),
        },
        Ok(engine) => extend_engine(alloc, limits, engine, taking, log, questions, out),
    }
}

// Takes a log into the store of an engine.
fn extend_engine<R: Reducer + Drop, D: Disk, L: Source, Q: Source, O: Sink>(
    alloc: Global,
    limits: &Limits,
    engine: Ingest<R, Store<D>>,
    taking: Taking,
    log: &mut L,
    questions: &mut Q,
    out: &mut O,
) -> Ran<D>
    requires can { CanCommit D.state engine.joined.keep }
    ensures reduced { (resume : Bool) → taking ≡ Taking.Whole resume
        → IsReduceRun resume (IsReopened D.state R.mode limits.now engine) limits.now R.mode
        (D.state engine.joined.keep.disk) (D.state result.disk) (L.left log.old) (L.left log.new)
        (O.written out.old) (O.written out.new) result.outcome }
    ensures watched { taking ≡ Taking.Asked
        → IsWatchRun (IsReopened D.state R.mode limits.now engine) limits.now R.mode
        (D.state engine.joined.keep.disk) (D.state result.disk) (L.left log.old) (L.left log.new)
        (Q.left questions.old) (O.written out.old) (O.written out.new) result.outcome }
    ensures heard { taking ≡ Taking.Asked → HearsOut (IsReopened D.state R.mode limits.now engine)
        limits.now R.mode (L.left log.old) (Q.left questions.old) (Q.left questions.new)
        result.outcome }
    ensures lacks { LacksIn (is_resumed taking) (AsksTold taking (Q.left questions.old))
        (IsReopened D.state R.mode limits.now engine) limits.now R.mode
        (D.state result.disk) (L.left log.old) (L.left log.new) limits.now.batch result.outcome }
    ensures adds { (resume : Bool) → taking ≡ Taking.Whole resume
        → AddsFew resume (IsReopened D.state R.mode limits.now engine) limits.now
        (D.state engine.joined.keep.disk) (D.state result.disk) (L.left log.old) (L.left log.new)
        limits.now.batch 1 }
    ensures watch_adds { taking ≡ Taking.Asked → (asked : List ℕ)
        → Q.left questions.old ≡ Some asked
        → AddsFew false (IsReopened D.state R.mode limits.now engine) limits.now
        (D.state engine.joined.keep.disk)
        (D.state result.disk) (L.left log.old) (L.left log.new)
        limits.now.batch (settles (asks limits.now (lines_in asked)) + 1) }
    ensures silent { (resume : Bool) → taking ≡ Taking.Whole resume
        → questions.new ≡ questions.old }
    ensures causes { IfErr result.outcome (HasStoreCauses
        (Rose (L.faults log.old) (L.faults log.new) (L.spent log.new)
        ⊎ Rose (Q.faults questions.old) (Q.faults questions.new) (Q.spent questions.new))
        (Rose (O.faults out.old) (O.faults out.new) (O.spent out.new))
        (Rose (D.faults engine.joined.keep.disk) (D.faults result.disk) (D.spent result.disk))
        (IsHiddenIn D.state engine.joined.keep)
        no_place no_modes (shorter_in (is_resumed taking))) }
    ensures uses { UsesDisk D.state D.faults D.spent engine.joined.keep.disk result.disk
        (IsErrOf result.outcome (over.Run halt.StoreFault)) }
{
    a_disk_reads_in_one_way();
    payloads_are_apart();
    let piece = match room_for_a_read(alloc) {
        Ok(piece) => piece,
        Err(NoMemory) => {
            return Ran {
                outcome: Err(StoreHalt::Run(Halt::NoMemory)),
                disk: engine.into_keep().into_disk(),
            };
        }
    };
    let mut session = Session {
        alloc,
        engine,
        piece,
        batch: limits.batch,
        unsaved: 0,
    };
    let outcome = take_in(&mut session, limits, taking, log, questions, out);
    Ran {
        outcome,
        disk: session.engine.into_keep().into_disk(),
    }
}

// Takes a log into the store of a session's engine.
fn take_in<R: Reducer, D: Disk, L: Source, Q: Source, O: Sink>(
    session: &mut Session<R, Store<D>>,
    limits: &Limits,
    taking: Taking,
    log: &mut L,
    questions: &mut Q,
    out: &mut O,
) -> Result<(), StoreHalt>
    requires can { CanCommit D.state session.old.engine.joined.keep }
    ensures reduced { (resume : Bool) → taking ≡ Taking.Whole resume
        → IsReduceRun resume (IsReopened D.state R.mode limits.now session.old.engine)
        limits.now R.mode (D.state session.old.engine.joined.keep.disk)
        (D.state session.new.engine.joined.keep.disk) (L.left log.old) (L.left log.new)
        (O.written out.old) (O.written out.new) result }
    ensures watched { taking ≡ Taking.Asked
        → IsWatchRun (IsReopened D.state R.mode limits.now session.old.engine)
        limits.now R.mode (D.state session.old.engine.joined.keep.disk)
        (D.state session.new.engine.joined.keep.disk) (L.left log.old) (L.left log.new)
        (Q.left questions.old) (O.written out.old) (O.written out.new) result }
    ensures heard { taking ≡ Taking.Asked
        → HearsOut (IsReopened D.state R.mode limits.now session.old.engine)
        limits.now R.mode (L.left log.old) (Q.left questions.old) (Q.left questions.new) result }
    ensures lacks { LacksIn (is_resumed taking) (AsksTold taking (Q.left questions.old))
        (IsReopened D.state R.mode limits.now session.old.engine) limits.now R.mode
        (D.state session.new.engine.joined.keep.disk) (L.left log.old) (L.left log.new) session.old.batch result }
    ensures adds { (resume : Bool) → taking ≡ Taking.Whole resume
        → AddsIn resume (IsReopened D.state R.mode limits.now session.old.engine) limits.now
        (D.state session.old.engine.joined.keep.disk)
        (D.state session.new.engine.joined.keep.disk) (L.left log.old) (L.left log.new)
        session.old.unsaved session.old.batch 1 }
    ensures watch_adds { taking ≡ Taking.Asked → (asked : List ℕ)
        → Q.left questions.old ≡ Some asked
        → AddsIn false (IsReopened D.state R.mode limits.now session.old.engine) limits.now
        (D.state session.old.engine.joined.keep.disk)
        (D.state session.new.engine.joined.keep.disk) (L.left log.old) (L.left log.new)
        session.old.unsaved session.old.batch (settles (asks limits.now (lines_in asked)) + 1) }
    ensures silent { (resume : Bool) → taking ≡ Taking.Whole resume
        → questions.new ≡ questions.old }
    ensures causes { IfErr result (HasStoreCauses
        (Rose (L.faults log.old) (L.faults log.new) (L.spent log.new)
        ⊎ Rose (Q.faults questions.old) (Q.faults questions.new) (Q.spent questions.new))
        (Rose (O.faults out.old) (O.faults out.new) (O.spent out.new))
        (RoseIn D.faults D.spent session.old.engine.joined.keep session.new.engine.joined.keep)
        (IsHiddenIn D.state session.old.engine.joined.keep)
        no_place no_modes (shorter_in (is_resumed taking))) }
    ensures uses { UsesStore D.state D.faults D.spent
        session.old.engine.joined.keep session.new.engine.joined.keep }
{
    match taking {
        Taking::Whole { resume } => reduce(session, resume, log, out),
        Taking::Asked => halted(watch_on(session, limits, log, questions, out)),
    }
}

// Takes a log to its end, from its first byte on or after those that were taken before.
fn reduce<R: Reducer, D: Disk, L: Source, O: Sink>(
    session: &mut Session<R, Store<D>>,
    resume: bool,
    log: &mut L,
    out: &mut O,
) -> Result<(), StoreHalt>
    requires can { CanCommit D.state session.old.engine.joined.keep }
    ensures run { (limits : Limits)
        → IsReduceRun resume (IsReopened D.state R.mode limits session.old.engine) limits R.mode
        (D.state session.old.engine.joined.keep.disk) (D.state session.new.engine.joined.keep.disk)
        (L.left log.old) (L.left log.new) (O.written out.old) (O.written out.new) result }
    ensures lacks { (limits : Limits)
        → LacksIn resume ⊤ (IsReopened D.state R.mode limits session.old.engine) limits R.mode
        (D.state session.new.engine.joined.keep.disk) (L.left log.old) (L.left log.new)
        session.old.batch result }
    ensures adds { (limits : Limits)
        → AddsIn resume (IsReopened D.state R.mode limits session.old.engine) limits
        (D.state session.old.engine.joined.keep.disk)
        (D.state session.new.engine.joined.keep.disk) (L.left log.old) (L.left log.new)
        session.old.unsaved session.old.batch 1 }
    ensures causes { IfErr result (HasStoreCauses
        (Rose (L.faults log.old) (L.faults log.new) (L.spent log.new))
        (Rose (O.faults out.old) (O.faults out.new) (O.spent out.new))
        (RoseIn D.faults D.spent session.old.engine.joined.keep session.new.engine.joined.keep)
        (IsHiddenIn D.state session.old.engine.joined.keep)
        no_place no_modes (shorter_in resume)) }
    ensures uses { UsesStore D.state D.faults D.spent
        session.old.engine.joined.keep session.new.engine.joined.keep }
{
    a_disk_reads_in_one_way();
    payloads_are_apart();
    Store::<D>::saves_lawfully();
    begin_part(session, resume, log)?;
    reduce_all(session, log, out)?;
    Ok(())
}

// Begins another part of the log, or passes over what the store has taken of this one.
fn begin_part<R: Reducer, D: Disk, L: Source>(
    session: &mut Session<R, Store<D>>,
    resume: bool,
    log: &mut L,
) -> Result<(), StoreHalt>
    ensures begun { (limits : Limits) (h : History) (before : ℕ) (bytes : List ℕ)
        → IsReopened D.state R.mode limits session.old.engine h before
        → L.left log.old ≡ Some bytes
        → OnOk result (HasBegun D.state R.mode limits session.old.engine session.new.engine
        (L.left log.new) (begun_of resume h before bytes)) }
    ensures enough { (limits : Limits) (h : History) (before : ℕ) (bytes : List ℕ)
        → IsReopened D.state R.mode limits session.old.engine h before
        → L.left log.old ≡ Some bytes
        → OnOk result (HasTaken resume before bytes) }
    ensures short { (limits : Limits) (h : History) (before : ℕ) (bytes : List ℕ)
        → IsReopened D.state R.mode limits session.old.engine h before
        → L.left log.old ≡ Some bytes
        → (taken had : ℕ) → result ≡ Err (over.ShortLog taken had)
        → IsShort resume before bytes taken had }
    ensures left { (limits : Limits) (h : History) (before : ℕ) (bytes : List ℕ)
        → IsReopened D.state R.mode limits session.old.engine h before
        → L.left log.old ≡ Some bytes
        → LeavesAllBut (length bytes - length (begun_of resume h before bytes).log) bytes
        (L.left log.new) }
    ensures batch { session.new.batch ≡ session.old.batch }
    ensures unsaved { session.new.unsaved ≡ session.old.unsaved }
    ensures due { IfErr result (IsRunDue never) }
    ensures causes { IfErr result (HasStoreCauses
        (Rose (L.faults log.old) (L.faults log.new) (L.spent log.new)) ⊥ ⊥ ⊥
        no_place no_modes (shorter_in resume)) }
    ensures written { IfErr result NamesNoBatch }
    ensures alike { SameBut D.state D.faults D.spent
        session.old.engine.joined.keep session.new.engine.joined.keep }
    ensures counts { GoesUp
        (L.faults log.old) (L.faults log.new) (L.spent log.old) (L.spent log.new) }
{
    what_is_saved_stays_saved::<D>();
    if resume {
        let taken = session.engine.part_taken();
        return go_on(session.piece.as_mut_slice(), taken, log);
    }
    session.engine.new_part();
    Ok(())
}

// Passes over the bytes of a log that were taken before.
fn go_on<L: Source>(buf: &mut [u8], taken: u64, log: &mut L) -> Result<(), StoreHalt>
    requires { 0 < length buf.old }
    ensures enough { (bytes : List ℕ) → L.left log.old ≡ Some bytes
        → OnOk result (taken ≤ length bytes) }
    ensures passed { (bytes : List ℕ) → L.left log.old ≡ Some bytes
        → OnOk result (L.left log.new ≡ Some (drop taken bytes)) }
    ensures short { (bytes : List ℕ) → L.left log.old ≡ Some bytes → (all had : ℕ)
        → result ≡ Err (over.ShortLog all had)
        → (all ≡ taken) × (had ≡ length bytes) × (had < taken) }
    ensures left { (bytes : List ℕ) → L.left log.old ≡ Some bytes
        → LeavesAllBut taken bytes (L.left log.new) }
    ensures due { IfErr result (IsRunDue never) }
    ensures causes { IfErr result (HasStoreCauses
        (Rose (L.faults log.old) (L.faults log.new) (L.spent log.new)) ⊥ ⊥ ⊥
        no_place no_modes is_shorter) }
    ensures written { IfErr result NamesNoBatch }
    ensures counts { GoesUp
        (L.faults log.old) (L.faults log.new) (L.spent log.old) (L.spent log.new) }
{
    let had = pass_over(log, buf, taken)?;
    if had < taken {
        return Err(StoreHalt::ShortLog { taken, had });
    }
    Ok(())
}

// Takes the log to its end into the store, settles, and writes the reply to `stat`.
fn reduce_all<R: Reducer, D: Disk, L: Source, O: Sink>(
    session: &mut Session<R, Store<D>>,
    log: &mut L,
    out: &mut O,
) -> Result<(), Halt>
    requires can { CanCommit D.state session.old.engine.joined.keep }
    ensures stored { (start : Start (OnDisk D)) (limits : Limits) (m : Moment)
        → At (kind_of R.mode true (IsPutAway D.state start limits)) limits session.old.engine
        (L.left log.old) m
        → OnOk result (IsAllPutAway D.state start limits session.new.engine.joined.keep
        (settled_all m)) }
    ensures leaves { (start : Start (OnDisk D)) (limits : Limits) (m : Moment)
        → At (kind_of R.mode true (IsPutAway D.state start limits)) limits session.old.engine
        (L.left log.old) m
        → LeavesOnly (D.state start.rows.disk) (D.state session.new.engine.joined.keep.disk)
        (IsReached limits R.mode start.begun (since start.begun (settled_all m))) }
    ensures passes { (start : Start (OnDisk D)) (limits : Limits) (m : Moment)
        → At (kind_of R.mode true (IsPutAway D.state start limits)) limits session.old.engine
        (L.left log.old) m
        → (full : Full) → result ≡ Err (halt.Unwritten full)
        → PassesStore limits R.mode start.begun (since start.begun (settled_all m)) full }
    ensures whole { (start : Start (OnDisk D)) (limits : Limits) (m : Moment)
        → At (kind_of R.mode true (IsPutAway D.state start limits)) limits session.old.engine
        (L.left log.old) m
        → OnOk result (L.left log.new ≡ Some []) }
    ensures wrote { (start : Start (OnDisk D)) (limits : Limits) (m : Moment)
        → At (kind_of R.mode true (IsPutAway D.state start limits)) limits session.old.engine
        (L.left log.old) m
        → OnOk result (WroteStat limits R.mode (settled_all m).history
        (O.written out.old) (O.written out.new)) }
    ensures front { (start : Start (OnDisk D)) (limits : Limits) (m : Moment)
        → At (kind_of R.mode true (IsPutAway D.state start limits)) limits session.old.engine
        (L.left log.old) m
        → OnErr result (WroteFront limits R.mode (settled_all m).history
        (O.written out.old) (O.written out.new)) }
    ensures due { (start : Start (OnDisk D)) (limits : Limits) (m : Moment)
        → At (kind_of R.mode true (IsPutAway D.state start limits)) limits session.old.engine
        (L.left log.old) m
        → IfErr result (IsDue (Stops limits (settled_all m).history)) }
    ensures lacks { (start : Start (OnDisk D)) (limits : Limits) (m : Moment)
        → At (kind_of R.mode true (IsPutAway D.state start limits)) limits session.old.engine
        (L.left log.old) m
        → LacksInStore D.state start limits R.mode session.old.engine.joined.keep
        (L.left log.old) session.old.unsaved
        → IfErr result (λ why. LacksInStore D.state start limits R.mode
        session.new.engine.joined.keep (L.left log.new) session.old.batch) }
    ensures adds { (start : Start (OnDisk D)) (limits : Limits) (m : Moment) (most : ℕ)
        → At (kind_of R.mode true (IsPutAway D.state start limits)) limits session.old.engine
        (L.left log.old) m
        → KeepsPace (AddsToStore D.state start limits) session.old.batch
        session.old.engine.joined.keep session.old.unsaved (L.left log.old) most
        → KeepsPace (AddsToStore D.state start limits) session.old.batch
        session.new.engine.joined.keep 0 (L.left log.new) (most + session.old.batch) }
    ensures causes { IfErr result (HasCauses
        (Rose (L.faults log.old) (L.faults log.new) (L.spent log.new))
        (Rose (O.faults out.old) (O.faults out.new) (O.spent out.new))
        (RoseIn D.faults D.spent session.old.engine.joined.keep session.new.engine.joined.keep)
        (IsHiddenIn D.state session.old.engine.joined.keep) ⊤) }
    ensures uses { UsesStore D.state D.faults D.spent
        session.old.engine.joined.keep session.new.engine.joined.keep }
{
    stops_stay();
    Store::<D>::saves_lawfully();
    Store::<D>::reads_lawfully();
    Store::<D>::lacks_lawfully();
    let _taken = take(session, log, u64::MAX)?;
    let _settled = settle_all(session)?;
    write_stat(session.alloc, &mut session.engine, out)
}

// Writes the reply to `stat`.
fn write_stat<R: Reducer, D: Disk, O: Sink>(
    alloc: Global,
    engine: &mut Ingest<R, Store<D>>,
    out: &mut O,
) -> Result<(), Halt>
    ensures wrote { (limits : Limits) (h : History) → StandsFor limits engine.old h
        → OnOk result (WroteStat limits R.mode h (O.written out.old) (O.written out.new)) }
    ensures front { (limits : Limits) (h : History) → StandsFor limits engine.old h
        → OnErr result (WroteFront limits R.mode h (O.written out.old) (O.written out.new)) }
    ensures due { (limits : Limits) (h : History) → StandsFor limits engine.old h
        → IfErr result (IsDue never) }
    ensures causes { IfErr result
        (HasCauses ⊥ (Rose (O.faults out.old) (O.faults out.new) (O.spent out.new))
        (RoseIn D.faults D.spent engine.old.joined.keep engine.new.joined.keep)
        (IsHiddenIn D.state engine.old.joined.keep) ⊥) }
    ensures alike { SameBut D.state D.faults D.spent
        engine.old.joined.keep engine.new.joined.keep }
{
    Store::<D>::reads_lawfully();
    let reply = reply_of(engine, &Ask::Stat)?;
    say(alloc, out, &reply)
}

// Answers questions while they take a log into the store as another part, and saves all at the end.
fn watch_on<R: Reducer, D: Disk, L: Source, Q: Source, O: Sink>(
    session: &mut Session<R, Store<D>>,
    limits: &Limits,
    log: &mut L,
    questions: &mut Q,
    out: &mut O,
) -> Result<(), Halt>
    requires can { CanCommit D.state session.old.engine.joined.keep }
    ensures watched { IsWatchRun (IsReopened D.state R.mode limits.now session.old.engine)
        limits.now R.mode (D.state session.old.engine.joined.keep.disk)
        (D.state session.new.engine.joined.keep.disk) (L.left log.old) (L.left log.new)
        (Q.left questions.old) (O.written out.old) (O.written out.new) (over_run result) }
    ensures heard { HearsOut (IsReopened D.state R.mode limits.now session.old.engine)
        limits.now R.mode (L.left log.old) (Q.left questions.old) (Q.left questions.new)
        (over_run result) }
    ensures lacks { LacksIn false (AreTold (Q.left questions.old))
        (IsReopened D.state R.mode limits.now session.old.engine) limits.now R.mode (D.state session.new.engine.joined.keep.disk)
        (L.left log.old) (L.left log.new) session.old.batch (over_run result) }
    ensures adds { (asked : List ℕ) → Q.left questions.old ≡ Some asked
        → AddsIn false (IsReopened D.state R.mode limits.now session.old.engine) limits.now
        (D.state session.old.engine.joined.keep.disk)
        (D.state session.new.engine.joined.keep.disk) (L.left log.old) (L.left log.new)
        session.old.unsaved session.old.batch (settles (asks limits.now (lines_in asked)) + 1) }
    ensures causes { IfErr result (HasCauses
        (Rose (L.faults log.old) (L.faults log.new) (L.spent log.new)
        ⊎ Rose (Q.faults questions.old) (Q.faults questions.new) (Q.spent questions.new))
        (Rose (O.faults out.old) (O.faults out.new) (O.spent out.new))
        (RoseIn D.faults D.spent session.old.engine.joined.keep session.new.engine.joined.keep)
        (IsHiddenIn D.state session.old.engine.joined.keep) ⊤) }
    ensures uses { UsesStore D.state D.faults D.spent
        session.old.engine.joined.keep session.new.engine.joined.keep }
{
    what_is_saved_stays_saved::<D>();
    a_disk_reads_in_one_way();
    payloads_are_apart();
    Store::<D>::saves_lawfully();
    Store::<D>::lacks_lawfully();
    stops_stay();
    what_fits_never_stops();
    session.engine.new_part();
    watch(session, true, limits, log, questions, out)?;
    Store::save(&mut session.engine)
}
