//! The top call: from words, a log, questions and a sink to a status.
ghost use Rattle.std.specs.Prelude.{Bool, false, ⊤, ◌≡◌, ◌⊎◌, ◌+◌, ℕ, List, [], map, string_bytes, None, Some, OnOk, IfErr};
ghost use Rattle.outside.specs.Cause.{Rose};
ghost use Rattle.outside.specs.Disk.{OnlyLooks, UsesDisk};
ghost use Rattle.reach_model.specs.declared.modes.Mode.{Mode};
ghost use Rattle.audit_cli.specs.declared.words.Job.{Job};
ghost use Rattle.audit_cli.specs.Words.{IsInMemory, job_of, mode_for};
ghost use Rattle.dialogue.specs.Course.{HasCauses};
ghost use Rattle.dialogue.specs.Dialogue.{asks, lines_in};
ghost use Rattle.dialogue.specs.Settles.{settles};
ghost use Rattle.audit_cli.specs.Jobs.{JobTalked, KeepsLimit};
ghost use Rattle.audit_cli.specs.Claims.{WhereTold, WhereStandard, Finishes, WritesPrefix, StopsAtLimit, ReadsToEnd, FitsAtDone, IsComplete, ShortCause};
ghost use Rattle.audit_cli.specs.Headline.{Tells, TellsLog, LeavesQuestions};
ghost use Rattle.store_runs.specs.Refusals.{AlwaysRefuses, RefusesNoBatch};
ghost use Rattle.audit_cli.specs.Standard.{IsStandard, WithStandard};
ghost use Rattle.store_runs.specs.Statuses.{RefusesStore, StatusCause, store_status};
ghost use Rattle.dialogue.specs.StoreHalts.{no_modes, no_place};
ghost use Rattle.store_runs.specs.Stores.{AddsFew, AnswersAll, AreTold, EndsAs, HearsOut, IsBadIn, IsBadOrNone, IsQueryRun, IsReduceRun, IsWatchRun, IsWrongIn, LooksOrLacks, ReducesAll, RefusesAStore, StoodAt, WatchesAll};

use crate::back::back;
use crate::trial::trial;
use crate::words::{Job, WordsFault, read_words};
use batch_log::a_disk_reads_in_one_way;
use dialogue::{Halt, Session, room_for_a_read, watch};
use flow_base::{EntityId, Limits};
use ingest::{
    Ingest, a_store_of_a_history_is_no_bad_store, stops_stay, what_fits_never_stops,
    what_waits_is_sound,
};
use outside::{Disk, Sink, Source};
use reach_model::Mode;
use reach_rows::{Plain, Reducer, VecRows};
use reduce_continuous::Continuous;
use reduce_source::Sources;
use reduced_store::what_is_found_was_stored;
use std::alloc::Global;
use store_runs::{Ran, Status, Taking, extend, query, status_of, status_over_store};
use table_salt::Salt;

/// How a run ended, and the disk of its store. A job that keeps its rows in memory hands the disk
/// back as it came.
#[derive(Drop)]
pub struct Ended<D> {
    pub status: Status,
    pub disk: D,
}

// Does a job that keeps its rows in memory.
fn run<L: Source, Q: Source, O: Sink>(
    alloc: Global,
    salt: Salt,
    limits: &Limits,
    job: &Job,
    log: &mut L,
    questions: &mut Q,
    out: &mut O,
) -> Result<(), Halt>
    requires memory { IsInMemory job.now }
    ensures talked { (bytes asked : List ℕ) → TellsLog job.now (L.left log.old) bytes
        → Tells job.now (Q.left questions.old) asked
        → JobTalked limits.now job.now bytes asked (L.left log.new)
        (O.written out.old) (O.written out.new) result }
    ensures within { (bytes asked : List ℕ) → TellsLog job.now (L.left log.old) bytes
        → Tells job.now (Q.left questions.old) asked
        → OnOk result (KeepsLimit limits.now job.now bytes asked) }
    ensures left { (bytes asked : List ℕ) → TellsLog job.now (L.left log.old) bytes
        → Tells job.now (Q.left questions.old) asked
        → OnOk result (LeavesQuestions limits.now job.now bytes asked (Q.left questions.new)) }
    ensures whole { (of : ℕ) (bytes : List ℕ) → job.now ≡ Job.Back of
        → L.left log.old ≡ Some bytes → OnOk result (L.left log.new ≡ Some []) }
    ensures causes { IfErr result (HasCauses
        (Rose (L.faults log.old) (L.faults log.new) (L.spent log.new)
        ⊎ Rose (Q.faults questions.old) (Q.faults questions.new) (Q.spent questions.new))
        (Rose (O.faults out.old) (O.faults out.new) (O.spent out.new)) ⊥ ⊥ ⊥) }
    ensures other { (of : ℕ) → job.now ≡ Job.Back of → questions.new ≡ questions.old }
    ensures alone { (seed events : ℕ) → job.now ≡ Job.Trial seed events
        → (log.new ≡ log.old) × (questions.new ≡ questions.old) }
{
    match job {
        Job::Back(_) => run_in_mode(alloc, salt, limits, Mode::Plain, job, log, questions, out),
        Job::Watch { mode, log: _ } => run_in_mode(
            alloc, salt, limits, *mode, job, log, questions, out,
        ),
        Job::Trial { seed, events } => trial(alloc, salt, limits, *seed, *events, out),
        Job::WatchStore {
            mode: _,
            log: _,
            store: _,
        } => unreachable!(),
        Job::Reduce {
            mode: _,
            log: _,
            store: _,
            resume: _,
        } => unreachable!(),
        Job::Query { store: _ } => unreachable!(),
    }
}

// Does a job of one mode with a new engine of this mode.
fn run_in_mode<L: Source, Q: Source, O: Sink>(
    alloc: Global,
    salt: Salt,
    limits: &Limits,
    mode: Mode,
    job: &Job,
    log: &mut L,
    questions: &mut Q,
    out: &mut O,
) -> Result<(), Halt>
    requires mode { mode_for job.now ≡ Some mode }
    ensures talked { (bytes asked : List ℕ) → TellsLog job.now (L.left log.old) bytes
        → Tells job.now (Q.left questions.old) asked
        → JobTalked limits.now job.now bytes asked (L.left log.new)
        (O.written out.old) (O.written out.new) result }
    ensures within { (bytes asked : List ℕ) → TellsLog job.now (L.left log.old) bytes
        → Tells job.now (Q.left questions.old) asked
        → OnOk result (KeepsLimit limits.now job.now bytes asked) }
    ensures left { (bytes asked : List ℕ) → TellsLog job.now (L.left log.old) bytes
        → Tells job.now (Q.left questions.old) asked
        → OnOk result (LeavesQuestions limits.now job.now bytes asked (Q.left questions.new)) }
    ensures whole { (of : ℕ) (bytes : List ℕ) → job.now ≡ Job.Back of
        → L.left log.old ≡ Some bytes → OnOk result (L.left log.new ≡ Some []) }
    ensures causes { IfErr result (HasCauses
        (Rose (L.faults log.old) (L.faults log.new) (L.spent log.new)
        ⊎ Rose (Q.faults questions.old) (Q.faults questions.new) (Q.spent questions.new))
        (Rose (O.faults out.old) (O.faults out.new) (O.spent out.new)) ⊥ ⊥ ⊥) }
    ensures other { (of : ℕ) → job.now ≡ Job.Back of → questions.new ≡ questions.old }
{
    match mode {
        Mode::Plain => run_with(alloc, salt, limits, Plain::new(), job, log, questions, out),
        Mode::Continuous => run_with(
            alloc,
            salt,
            limits,
            Continuous::new(alloc, salt),
            job,
            log,
            questions,
            out,
        ),
        Mode::Full => run_with(
            alloc,
            salt,
            limits,
            reduce_full::Full::new(alloc, salt),
            job,
            log,
            questions,
            out,
        ),
        Mode::Source => run_with(
            alloc,
            salt,
            limits,
            Sources::new(alloc),
            job,
            log,
            questions,
            out,
        ),
    }
}

// Does a job with a new engine, which decides by these tables.
fn run_with<R: Reducer + Drop, L: Source, Q: Source, O: Sink>(
    alloc: Global,
    salt: Salt,
    limits: &Limits,
    reducer: R,
    job: &Job,
    log: &mut L,
    questions: &mut Q,
    out: &mut O,
) -> Result<(), Halt>
    requires mode { mode_for job.now ≡ Some R.mode }
    requires stands { R.stands_for reducer [] }
    requires holds { R.holds reducer [] }
    ensures talked { (bytes asked : List ℕ) → TellsLog job.now (L.left log.old) bytes
        → Tells job.now (Q.left questions.old) asked
        → JobTalked limits.now job.now bytes asked (L.left log.new)
        (O.written out.old) (O.written out.new) result }
    ensures within { (bytes asked : List ℕ) → TellsLog job.now (L.left log.old) bytes
        → Tells job.now (Q.left questions.old) asked
        → OnOk result (KeepsLimit limits.now job.now bytes asked) }
    ensures left { (bytes asked : List ℕ) → TellsLog job.now (L.left log.old) bytes
        → Tells job.now (Q.left questions.old) asked
        → OnOk result (LeavesQuestions limits.now job.now bytes asked (Q.left questions.new)) }
    ensures whole { (of : ℕ) (bytes : List ℕ) → job.now ≡ Job.Back of
        → L.left log.old ≡ Some bytes → OnOk result (L.left log.new ≡ Some []) }
    ensures causes { IfErr result (HasCauses
        (Rose (L.faults log.old) (L.faults log.new) (L.spent log.new)
        ⊎ Rose (Q.faults questions.old) (Q.faults questions.new) (Q.spent questions.new))
        (Rose (O.faults out.old) (O.faults out.new) (O.spent out.new)) ⊥ ⊥ ⊥) }
    ensures other { (of : ℕ) → job.now ≡ Job.Back of → questions.new ≡ questions.old }
{
    let piece = room_for_a_read(alloc)?;
    let engine = Ingest::new(alloc, salt, limits, reducer, VecRows::new(alloc));
    let mut session = Session {
        alloc,
        engine,
        piece,
        batch: u64::MAX,
        unsaved: 0,
    };
    match job {
        Job::Back(of) => back(&mut session, log, out, EntityId(*of)),
        Job::Watch { mode: _, log: _ } => watch(&mut session, true, limits, log, questions, out),
        Job::Trial { seed: _, events: _ } => unreachable!(),
        Job::WatchStore {
            mode: _,
            log: _,
            store: _,
        } => unreachable!(),
        Job::Reduce {
            mode: _,
            log: _,
            store: _,
            resume: _,
        } => unreachable!(),
        Job::Query { store: _ } => unreachable!(),
    }
}

/// Does what the words say, within these limits.
pub fn audit_run<L: Source, Q: Source, O: Sink, D: Disk>(
    alloc: Global,
    salt: Salt,
    limits: &Limits,
    words: &[String],
    log: &mut L,
    questions: &mut Q,
    out: &mut O,
    disk: D,
) -> Ended<D>
    ensures bad_words { result.status ≡ Status.BadWords
        → job_of (map string_bytes words.now) ≡ None }
    ensures refuses { job_of (map string_bytes words.now) ≡ None
        → (result.status ≡ Status.BadWords) ⊎ (result.status ≡ Status.NoMemory) }
    ensures untouched { job_of (map string_bytes words.now) ≡ None
        → (log.new ≡ log.old) × (questions.new ≡ questions.old) × (out.new ≡ out.old) }
    // A job that keeps its rows in memory, and words that name no job, leave the disk alone.
    ensures memory { (done : Job) → job_of (map string_bytes words.now) ≡ Some done
        → IsInMemory done → result.disk ≡ disk }
    ensures no_job { job_of (map string_bytes words.now) ≡ None → result.disk ≡ disk }
    ensures other { (of : ℕ) → job_of (map string_bytes words.now) ≡ Some (Job.Back of)
        → questions.new ≡ questions.old }
    ensures alone { (seed events : ℕ)
        → job_of (map string_bytes words.now) ≡ Some (Job.Trial seed events)
        → (log.new ≡ log.old) × (questions.new ≡ questions.old) }
    ensures causes { StatusCause
        (Rose (L.faults log.old) (L.faults log.new) (L.spent log.new)
        ⊎ Rose (Q.faults questions.old) (Q.faults questions.new) (Q.spent questions.new))
        (Rose (O.faults out.old) (O.faults out.new) (O.spent out.new))
        (Rose (D.faults disk) (D.faults result.disk) (D.spent result.disk))
        (¬ (D.state disk).told) result.status }
    ensures uses { UsesDisk D.state D.faults D.spent disk result.disk
        (result.status ≡ Status.StoreFault) }
    // At Done the bytes written in this call are those of the right replies.
    ensures headline { WhereTold limits.now (map string_bytes words.now) (L.left log.old)
        (Q.left questions.old)
        (Finishes result.status (L.left log.new) (O.written out.old) (O.written out.new)) }
    // With any status they are a prefix of them.
    ensures prefix { WhereTold limits.now (map string_bytes words.now) (L.left log.old)
        (Q.left questions.old) (WritesPrefix (O.written out.old) (O.written out.new)) }
    ensures whole { (of : ℕ) (bytes : List ℕ)
        → job_of (map string_bytes words.now) ≡ Some (Job.Back of) → L.left log.old ≡ Some bytes
        → result.status ≡ Status.Done → L.left log.new ≡ Some [] }
    // At most 65,536 bytes of the questions are read after a prefix that doesn't end them.
    ensures no_further { WhereTold limits.now (map string_bytes words.now) (L.left log.old)
        (Q.left questions.old) (ReadsToEnd result.status (Q.left questions.new)) }
    // A limit stops the run at one moment, up to which each question was answered.
    ensures full { WhereTold limits.now (map string_bytes words.now) (L.left log.old)
        (Q.left questions.old) (StopsAtLimit result.status
        (O.written out.old) (O.written out.new)) }
    ensures exact { WhereTold limits.now (map string_bytes words.now) (L.left log.old)
        (Q.left questions.old) (FitsAtDone result.status) }
    ensures complete { WhereTold limits.now (map string_bytes words.now) (L.left log.old)
        (Q.left questions.old) (IsComplete result.status
        (Rose (L.faults log.old) (L.faults log.new) (L.spent log.new)
        ⊎ (Rose (Q.faults questions.old) (Q.faults questions.new) (Q.spent questions.new)
        ⊎ Rose (O.faults out.old) (O.faults out.new) (O.spent out.new)))) }
    // Over a disk that reads as a store of a history, a crash of `reduce` leaves, once the disk is
    // synced, a store of that history and of the log up to some byte. At Done there is one of all of
    // it, settled, and the reply to `stat` was written.
    ensures reduced { (kept : Mode) (name store : List ℕ) (resume : Bool)
        → job_of (map string_bytes words.now) ≡ Some (Job.Reduce kept name store resume)
        → EndsAs result.status (IsReduceRun resume (StoodAt D.state limits.now kept disk) limits.now kept
        (D.state disk) (D.state result.disk) (L.left log.old) (L.left log.new)
        (O.written out.old) (O.written out.new)) }
    // Over such a disk `watch` answers each question at its moment. A crash leaves, once the disk is
    // synced, a store of that history and a prefix of what it took. At Done there is one of all of it.
    ensures watched { (kept : Mode) (name store : List ℕ)
        → job_of (map string_bytes words.now) ≡ Some (Job.WatchStore kept name store)
        → EndsAs result.status (IsWatchRun (StoodAt D.state limits.now kept disk) limits.now kept
        (D.state disk) (D.state result.disk) (L.left log.old) (L.left log.new)
        (Q.left questions.old) (O.written out.old) (O.written out.new)) }
    // At Done its questions were heard out: no limit would be passed, and at most 65,536 bytes of
    // them were read after a prefix that doesn't end them.
    ensures heard { (kept : Mode) (name store : List ℕ)
        → job_of (map string_bytes words.now) ≡ Some (Job.WatchStore kept name store)
        → EndsAs result.status (HearsOut (StoodAt D.state limits.now kept disk) limits.now kept
        (L.left log.old) (Q.left questions.old) (Q.left questions.new)) }
    // If such a run halts after it has read of its log, at most a batch of the bytes that it read is
    // missing from whatever history it leaves.
    ensures reduce_lacks { (kept : Mode) (name store : List ℕ) (resume : Bool)
        → job_of (map string_bytes words.now) ≡ Some (Job.Reduce kept name store resume)
        → EndsAs result.status (LooksOrLacks resume ⊤ (StoodAt D.state limits.now kept disk)
        limits.now kept (D.state disk) (D.state result.disk) (L.left log.old) (L.left log.new)
        limits.now.batch) }
    ensures watch_lacks { (kept : Mode) (name store : List ℕ)
        → job_of (map string_bytes words.now) ≡ Some (Job.WatchStore kept name store)
        → EndsAs result.status (LooksOrLacks false (AreTold (Q.left questions.old))
        (StoodAt D.state limits.now kept disk) limits.now kept (D.state disk)
        (D.state result.disk) (L.left log.old) (L.left log.new) limits.now.batch) }
    // `reduce` adds a batch to its disk at most for each `batch` bytes that it takes, and one more.
    ensures reduce_adds { (kept : Mode) (name store : List ℕ) (resume : Bool)
        → job_of (map string_bytes words.now) ≡ Some (Job.Reduce kept name store resume)
        → AddsFew resume (StoodAt D.state limits.now kept disk) limits.now (D.state disk)
        (D.state result.disk) (L.left log.old) (L.left log.new) limits.now.batch 1 }
    // `watch` adds one at most for each `batch` bytes that it takes, for each settle that its questions
    // ask for up to `end`, and one more.
    ensures watch_adds { (kept : Mode) (name store asked : List ℕ)
        → job_of (map string_bytes words.now) ≡ Some (Job.WatchStore kept name store)
        → Q.left questions.old ≡ Some asked
        → AddsFew false (StoodAt D.state limits.now kept disk) limits.now (D.state disk)
        (D.state result.disk) (L.left log.old) (L.left log.new) limits.now.batch
        (settles (asks limits.now (lines_in asked)) + 1) }
    // If no device fails and no limit would be passed, such a run is done, unless an allocation failed.
    ensures reduces { (kept : Mode) (name store : List ℕ) (resume : Bool)
        → job_of (map string_bytes words.now) ≡ Some (Job.Reduce kept name store resume)
        → ReducesAll result.status ((Rose (L.faults log.old) (L.faults log.new) (L.spent log.new)
        ⊎ Rose (Q.faults questions.old) (Q.faults questions.new) (Q.spent questions.new))
        ⊎ (Rose (O.faults out.old) (O.faults out.new) (O.spent out.new)
        ⊎ Rose (D.faults disk) (D.faults result.disk) (D.spent result.disk)))
        resume (StoodAt D.state limits.now kept disk) limits.now kept (L.left log.old) }
    ensures watches { (kept : Mode) (name store : List ℕ)
        → job_of (map string_bytes words.now) ≡ Some (Job.WatchStore kept name store)
        → WatchesAll result.status ((Rose (L.faults log.old) (L.faults log.new) (L.spent log.new)
        ⊎ Rose (Q.faults questions.old) (Q.faults questions.new) (Q.spent questions.new))
        ⊎ (Rose (O.faults out.old) (O.faults out.new) (O.spent out.new)
        ⊎ Rose (D.faults disk) (D.faults result.disk) (D.spent result.disk)))
        (StoodAt D.state limits.now kept disk) limits.now kept (L.left log.old)
        (Q.left questions.old) }
    // Over such a disk `query` answers from its history, and leaves the disk as it is.
    ensures queried { (store : List ℕ)
        → job_of (map string_bytes words.now) ≡ Some (Job.Query store)
        → EndsAs result.status (IsQueryRun
        (λ kept h. (part : ℕ) × StoodAt D.state limits.now kept disk h part) limits.now
        (Q.left questions.old) (Q.left questions.new) (O.written out.old) (O.written out.new)) }
    // If no device fails and its questions keep within the limit on input, such a run is done, unless
    // an allocation failed.
    ensures answers { (store : List ℕ)
        → job_of (map string_bytes words.now) ≡ Some (Job.Query store)
        → AnswersAll result.status
        (Rose (Q.faults questions.old) (Q.faults questions.new) (Q.spent questions.new)
        ⊎ (Rose (O.faults out.old) (O.faults out.new) (O.spent out.new)
        ⊎ Rose (D.faults disk) (D.faults result.disk) (D.spent result.disk)))
        (λ kept h. (part : ℕ) × StoodAt D.state limits.now kept disk h part) limits.now
        (D.state disk) (Q.left questions.old) }
    // A store is refused for a cause, and no other job ends so.
    ensures refused { (kept : Mode) (name store : List ℕ) (resume : Bool)
        → job_of (map string_bytes words.now) ≡ Some (Job.Reduce kept name store resume)
        → RefusesStore result.status (IsBadIn limits.now (D.state disk))
        (IsWrongIn limits.now (D.state disk) (Some kept)) }
    ensures unwatched { (kept : Mode) (name store : List ℕ)
        → job_of (map string_bytes words.now) ≡ Some (Job.WatchStore kept name store)
        → RefusesStore result.status (IsBadIn limits.now (D.state disk))
        (IsWrongIn limits.now (D.state disk) (Some kept)) }
    ensures unanswered { (store : List ℕ)
        → job_of (map string_bytes words.now) ≡ Some (Job.Query store)
        → RefusesStore result.status (IsBadOrNone limits.now (D.state disk))
        (IsWrongIn limits.now (D.state disk) None) }
    ensures no_store { (done : Job) → job_of (map string_bytes words.now) ≡ Some done
        → IsInMemory done → RefusesStore result.status no_place no_modes }
    // A disk that is no store, or one of another mode, is always refused, unless a call on it or an
    // allocation fails; so is a store in which what waits isn't sound, and by `query` one without a batch.
    ensures always_refused { (kept : Mode) (name store : List ℕ) (resume : Bool)
        → job_of (map string_bytes words.now) ≡ Some (Job.Reduce kept name store resume)
        → AlwaysRefuses limits.now (D.state disk) (Some kept) result.status }
    ensures always_unwatched { (kept : Mode) (name store : List ℕ)
        → job_of (map string_bytes words.now) ≡ Some (Job.WatchStore kept name store)
        → AlwaysRefuses limits.now (D.state disk) (Some kept) result.status }
    ensures always_unanswered { (store : List ℕ)
        → job_of (map string_bytes words.now) ≡ Some (Job.Query store)
        → AlwaysRefuses limits.now (D.state disk) None result.status }
    ensures no_batch { (store : List ℕ)
        → job_of (map string_bytes words.now) ≡ Some (Job.Query store)
        → RefusesNoBatch limits.now (D.state disk) result.status }
    // Only `reduce --resume` finds its log a short one.
    ensures short { ShortCause result.status (job_of (map string_bytes words.now)) }
    // If a store is refused, nothing is read or written, and the disk is only looked at.
    ensures refusal { RefusesAStore result.status → (log.new ≡ log.old)
        × (questions.new ≡ questions.old) × (out.new ≡ out.old)
        × OnlyLooks (D.state disk) (D.state result.disk) }
    ensures looks { (store : List ℕ)
        → job_of (map string_bytes words.now) ≡ Some (Job.Query store)
        → OnlyLooks (D.state disk) (D.state result.disk) }
    ensures silent { (kept : Mode) (name store : List ℕ) (resume : Bool)
        → job_of (map string_bytes words.now) ≡ Some (Job.Reduce kept name store resume)
        → questions.new ≡ questions.old }
    ensures no_log { (store : List ℕ)
        → job_of (map string_bytes words.now) ≡ Some (Job.Query store) → log.new ≡ log.old }
{
    stops_stay();
    what_fits_never_stops();
    what_is_found_was_stored();
    what_waits_is_sound();
    a_store_of_a_history_is_no_bad_store();
    a_disk_reads_in_one_way();
    match read_words(alloc, words) {
        Err(WordsFault::BadWords) => Ended {
            status: Status::BadWords,
            disk,
        },
        Err(WordsFault::NoMemory) => Ended {
            status: Status::NoMemory,
            disk,
        },
        Ok(
            Job::Reduce {
                mode,
                log: _,
                store: _,
                resume,
            },
        ) => {
            let taking = Taking::Whole { resume };
            told_of(extend(alloc, salt, limits, mode, taking, log, questions, out, disk))
        }
        Ok(
            Job::WatchStore {
                mode,
                log: _,
                store: _,
            },
        ) => told_of(extend(
            alloc,
            salt,
            limits,
            mode,
            Taking::Asked,
            log,
            questions,
            out,
            disk,
        )),
        Ok(Job::Query { store: _ }) => told_of(query(alloc, salt, limits, questions, out, disk)),
        Ok(job) => Ended {
            status: status_of(run(alloc, salt, limits, &job, log, questions, out)),
            disk,
        },
    }
}

// A run over a store, as the end of the program.
fn told_of<D>(ran: Ran<D>) -> Ended<D>
    ensures status { result.status ≡ store_status ran.outcome }
    ensures disk { result.disk ≡ ran.disk }
{
    let Ran { outcome, disk } = ran;
    Ended {
        status: status_over_store(outcome),
        disk,
    }
}

/// Does what the words say, within the program's limits.
pub fn audit_main<L: Source, Q: Source, O: Sink, D: Disk>(
    alloc: Global,
    salt: Salt,
    words: &[String],
    log: &mut L,
    questions: &mut Q,
    out: &mut O,
    disk: D,
) -> Ended<D>
    ensures bad_words { result.status ≡ Status.BadWords
        → job_of (map string_bytes words.now) ≡ None }
    ensures refuses { job_of (map string_bytes words.now) ≡ None
        → (result.status ≡ Status.BadWords) ⊎ (result.status ≡ Status.NoMemory) }
    ensures untouched { job_of (map string_bytes words.now) ≡ None
        → (log.new ≡ log.old) × (questions.new ≡ questions.old) × (out.new ≡ out.old) }
    // A job that keeps its rows in memory, and words that name no job, leave the disk alone.
    ensures memory { (done : Job) → job_of (map string_bytes words.now) ≡ Some done
        → IsInMemory done → result.disk ≡ disk }
    ensures no_job { job_of (map string_bytes words.now) ≡ None → result.disk ≡ disk }
    ensures other { (of : ℕ) → job_of (map string_bytes words.now) ≡ Some (Job.Back of)
        → questions.new ≡ questions.old }
    ensures alone { (seed events : ℕ)
        → job_of (map string_bytes words.now) ≡ Some (Job.Trial seed events)
        → (log.new ≡ log.old) × (questions.new ≡ questions.old) }
    ensures causes { StatusCause
        (Rose (L.faults log.old) (L.faults log.new) (L.spent log.new)
        ⊎ Rose (Q.faults questions.old) (Q.faults questions.new) (Q.spent questions.new))
        (Rose (O.faults out.old) (O.faults out.new) (O.spent out.new))
        (Rose (D.faults disk) (D.faults result.disk) (D.spent result.disk))
        (¬ (D.state disk).told) result.status }
    ensures uses { UsesDisk D.state D.faults D.spent disk result.disk
        (result.status ≡ Status.StoreFault) }
    // At Done the bytes written in this call are those of the right replies.
    ensures headline { WhereStandard (map string_bytes words.now) (L.left log.old)
        (Q.left questions.old)
        (Finishes result.status (L.left log.new) (O.written out.old) (O.written out.new)) }
    // With any status they are a prefix of them.
    ensures prefix { WhereStandard (map string_bytes words.now) (L.left log.old)
        (Q.left questions.old) (WritesPrefix (O.written out.old) (O.written out.new)) }
    ensures whole { (of : ℕ) (bytes : List ℕ)
        → job_of (map string_bytes words.now) ≡ Some (Job.Back of) → L.left log.old ≡ Some bytes
        → result.status ≡ Status.Done → L.left log.new ≡ Some [] }
    // At most 65,536 bytes of the questions are read after a prefix that doesn't end them.
    ensures no_further { WhereStandard (map string_bytes words.now) (L.left log.old)
        (Q.left questions.old) (ReadsToEnd result.status (Q.left questions.new)) }
    // A limit stops the run at one moment, up to which each question was answered.
    ensures full { WhereStandard (map string_bytes words.now) (L.left log.old)
        (Q.left questions.old) (StopsAtLimit result.status
        (O.written out.old) (O.written out.new)) }
    ensures exact { WhereStandard (map string_bytes words.now) (L.left log.old)
        (Q.left questions.old) (FitsAtDone result.status) }
    ensures complete { WhereStandard (map string_bytes words.now) (L.left log.old)
        (Q.left questions.old) (IsComplete result.status
        (Rose (L.faults log.old) (L.faults log.new) (L.spent log.new)
        ⊎ (Rose (Q.faults questions.old) (Q.faults questions.new) (Q.spent questions.new)
        ⊎ Rose (O.faults out.old) (O.faults out.new) (O.spent out.new)))) }
    ensures reduced { WithStandard (λ limits. (kept : Mode) (name store : List ℕ) (resume : Bool)
        → job_of (map string_bytes words.now) ≡ Some (Job.Reduce kept name store resume)
        → EndsAs result.status (IsReduceRun resume (StoodAt D.state limits kept disk) limits kept
        (D.state disk) (D.state result.disk) (L.left log.old) (L.left log.new)
        (O.written out.old) (O.written out.new))) }
    ensures watched { WithStandard (λ limits. (kept : Mode) (name store : List ℕ)
        → job_of (map string_bytes words.now) ≡ Some (Job.WatchStore kept name store)
        → EndsAs result.status (IsWatchRun (StoodAt D.state limits kept disk) limits kept
        (D.state disk) (D.state result.disk) (L.left log.old) (L.left log.new)
        (Q.left questions.old) (O.written out.old) (O.written out.new))) }
    ensures heard { WithStandard (λ limits. (kept : Mode) (name store : List ℕ)
        → job_of (map string_bytes words.now) ≡ Some (Job.WatchStore kept name store)
        → EndsAs result.status (HearsOut (StoodAt D.state limits kept disk) limits kept
        (L.left log.old) (Q.left questions.old) (Q.left questions.new))) }
    ensures reduce_lacks { WithStandard (λ limits. (kept : Mode) (name store : List ℕ)
        (resume : Bool)
        → job_of (map string_bytes words.now) ≡ Some (Job.Reduce kept name store resume)
        → EndsAs result.status (LooksOrLacks resume ⊤ (StoodAt D.state limits kept disk)
        limits kept (D.state disk) (D.state result.disk) (L.left log.old) (L.left log.new)
        limits.batch)) }
    ensures watch_lacks { WithStandard (λ limits. (kept : Mode) (name store : List ℕ)
        → job_of (map string_bytes words.now) ≡ Some (Job.WatchStore kept name store)
        → EndsAs result.status (LooksOrLacks false (AreTold (Q.left questions.old))
        (StoodAt D.state limits kept disk) limits kept (D.state disk) (D.state result.disk)
        (L.left log.old) (L.left log.new) limits.batch)) }
    ensures reduce_adds { WithStandard (λ limits. (kept : Mode) (name store : List ℕ)
        (resume : Bool)
        → job_of (map string_bytes words.now) ≡ Some (Job.Reduce kept name store resume)
        → AddsFew resume (StoodAt D.state limits kept disk) limits (D.state disk)
        (D.state result.disk) (L.left log.old) (L.left log.new) limits.batch 1) }
    ensures watch_adds { WithStandard (λ limits. (kept : Mode) (name store asked : List ℕ)
        → job_of (map string_bytes words.now) ≡ Some (Job.WatchStore kept name store)
        → Q.left questions.old ≡ Some asked
        → AddsFew false (StoodAt D.state limits kept disk) limits (D.state disk)
        (D.state result.disk) (L.left log.old) (L.left log.new) limits.batch
        (settles (asks limits (lines_in asked)) + 1)) }
    ensures reduces { WithStandard (λ limits. (kept : Mode) (name store : List ℕ) (resume : Bool)
        → job_of (map string_bytes words.now) ≡ Some (Job.Reduce kept name store resume)
        → ReducesAll result.status ((Rose (L.faults log.old) (L.faults log.new) (L.spent log.new)
        ⊎ Rose (Q.faults questions.old) (Q.faults questions.new) (Q.spent questions.new))
        ⊎ (Rose (O.faults out.old) (O.faults out.new) (O.spent out.new)
        ⊎ Rose (D.faults disk) (D.faults result.disk) (D.spent result.disk)))
        resume (StoodAt D.state limits kept disk) limits kept (L.left log.old)) }
    ensures watches { WithStandard (λ limits. (kept : Mode) (name store : List ℕ)
        → job_of (map string_bytes words.now) ≡ Some (Job.WatchStore kept name store)
        → WatchesAll result.status ((Rose (L.faults log.old) (L.faults log.new) (L.spent log.new)
        ⊎ Rose (Q.faults questions.old) (Q.faults questions.new) (Q.spent questions.new))
        ⊎ (Rose (O.faults out.old) (O.faults out.new) (O.spent out.new)
        ⊎ Rose (D.faults disk) (D.faults result.disk) (D.spent result.disk)))
        (StoodAt D.state limits kept disk) limits kept (L.left log.old)
        (Q.left questions.old)) }
    ensures queried { WithStandard (λ limits. (store : List ℕ)
        → job_of (map string_bytes words.now) ≡ Some (Job.Query store)
        → EndsAs result.status (IsQueryRun
        (λ kept h. (part : ℕ) × StoodAt D.state limits kept disk h part) limits
        (Q.left questions.old) (Q.left questions.new) (O.written out.old) (O.written out.new))) }
    ensures answers { WithStandard (λ limits. (store : List ℕ)
        → job_of (map string_bytes words.now) ≡ Some (Job.Query store)
        → AnswersAll result.status
        (Rose (Q.faults questions.old) (Q.faults questions.new) (Q.spent questions.new)
        ⊎ (Rose (O.faults out.old) (O.faults out.new) (O.spent out.new)
        ⊎ Rose (D.faults disk) (D.faults result.disk) (D.spent result.disk)))
        (λ kept h. (part : ℕ) × StoodAt D.state limits kept disk h part) limits
        (D.state disk) (Q.left questions.old)) }
    // A store is refused for a cause, and no other job ends so.
    ensures refused { WithStandard (λ limits. (kept : Mode) (name store : List ℕ) (resume : Bool)
        → job_of (map string_bytes words.now) ≡ Some (Job.Reduce kept name store resume)
        → RefusesStore result.status (IsBadIn limits (D.state disk))
        (IsWrongIn limits (D.state disk) (Some kept))) }
    ensures unwatched { WithStandard (λ limits. (kept : Mode) (name store : List ℕ)
        → job_of (map string_bytes words.now) ≡ Some (Job.WatchStore kept name store)
        → RefusesStore result.status (IsBadIn limits (D.state disk))
        (IsWrongIn limits (D.state disk) (Some kept))) }
    ensures unanswered { WithStandard (λ limits. (store : List ℕ)
        → job_of (map string_bytes words.now) ≡ Some (Job.Query store)
        → RefusesStore result.status (IsBadOrNone limits (D.state disk))
        (IsWrongIn limits (D.state disk) None)) }
    ensures no_store { (done : Job) → job_of (map string_bytes words.now) ≡ Some done
        → IsInMemory done → RefusesStore result.status no_place no_modes }
    // A disk that is no store, or one of another mode, is always refused, unless a call on it or an
    // allocation fails; so is a store in which what waits isn't sound, and by `query` one without a batch.
    ensures always_refused { WithStandard (λ limits. (kept : Mode) (name store : List ℕ)
        (resume : Bool)
        → job_of (map string_bytes words.now) ≡ Some (Job.Reduce kept name store resume)
        → AlwaysRefuses limits (D.state disk) (Some kept) result.status) }
    ensures always_unwatched { WithStandard (λ limits. (kept : Mode) (name store : List ℕ)
        → job_of (map string_bytes words.now) ≡ Some (Job.WatchStore kept name store)
        → AlwaysRefuses limits (D.state disk) (Some kept) result.status) }
    ensures always_unanswered { WithStandard (λ limits. (store : List ℕ)
        → job_of (map string_bytes words.now) ≡ Some (Job.Query store)
        → AlwaysRefuses limits (D.state disk) None result.status) }
    ensures no_batch { WithStandard (λ limits. (store : List ℕ)
        → job_of (map string_bytes words.now) ≡ Some (Job.Query store)
        → RefusesNoBatch limits (D.state disk) result.status) }
    // Only `reduce --resume` finds its log a short one.
    ensures short { ShortCause result.status (job_of (map string_bytes words.now)) }
    // If a store is refused, nothing is read or written, and the disk is only looked at.
    ensures refusal { RefusesAStore result.status → (log.new ≡ log.old)
        × (questions.new ≡ questions.old) × (out.new ≡ out.old)
        × OnlyLooks (D.state disk) (D.state result.disk) }
    ensures looks { (store : List ℕ)
        → job_of (map string_bytes words.now) ≡ Some (Job.Query store)
        → OnlyLooks (D.state disk) (D.state result.disk) }
    ensures silent { (kept : Mode) (name store : List ℕ) (resume : Bool)
        → job_of (map string_bytes words.now) ≡ Some (Job.Reduce kept name store resume)
        → questions.new ≡ questions.old }
    ensures no_log { (store : List ℕ)
        → job_of (map string_bytes words.now) ≡ Some (Job.Query store) → log.new ≡ log.old }
{
    let limits = standard_limits();
    audit_run(alloc, salt, &limits, words, log, questions, out, disk)
}

fn standard_limits() -> Limits
    ensures { IsStandard result }
{
    Limits::standard()
}
