//! The program: which objects an object's contents can have come from, over the audit log of a host.
//!
//!     audit_cli back ID < LOG
//!     audit_cli watch MODE LOG [STORE] < QUESTIONS
//!     audit_cli reduce MODE LOG STORE [--resume]
//!     audit_cli query STORE < QUESTIONS
//!     audit_cli trial SEED EVENTS
//!
//! `audit_main` is the whole of it over any sources, sink and disk, and its contract is the theorem. `main` makes the
//! real ones, says on standard error how a run ended if it wasn't with Done, and ends with the status's number.
#![tactic(auto)]

ghost use Rattle.std.specs.Prelude.{◌≡◌, ◌⊎◌, ◌<ℤ◌, pos, None, Some, IfErr, IfSome, map, string_bytes};
ghost use Rattle.std.specs.Fd.{file_raw_fd};
ghost use Rattle.dialogue.specs.StoreHalts.{no_modes, no_place};
ghost use Rattle.store_runs.specs.Statuses.{RefusesStore};
ghost use Rattle.audit_cli.specs.declared.words.Job.{Job as AJob};
ghost use Rattle.audit_cli.specs.Claims.{ShortCause};
ghost use Rattle.audit_cli.specs.Words.{IsInMemory, job_of};

mod back;
mod command_line;
#[cfg(test)]
mod device_tests;
mod run;
#[cfg(test)]
mod store_tests;
#[cfg(test)]
mod tests;
mod trial;
mod trial_line;
mod words;
#[cfg(test)]
mod words_tests;

use flow_base::Bytes;
use outside::put_all;
use outside_real::{Reading, Storing, Writing, open_log, open_or_make_store, open_store};
pub use run::{Ended, audit_main, audit_run};
use std::fs::File;
use std::process::ExitCode;
use std::{env, io, str};
use store_runs::{Status, status_line, status_number};
use table_salt::Salt;
pub use words::{Job, WordsFault, read_words};

fn main(rt: HostRuntime) -> ExitCode {
    let status = match arguments(&rt) {
        Ok(words) => audited(&rt, words.as_slice()),
        Err(status) => status,
    };
    report(&rt, &status);
    ExitCode::from(status_number(&status))
}

// Does what the words say, with the log and the questions that their job has.
fn audited(rt: &HostRuntime, words: &[String]) -> Status
    ensures bad_words { result ≡ Status.BadWords → job_of (map string_bytes words.now) ≡ None }
    ensures refuses { job_of (map string_bytes words.now) ≡ None
        → (result ≡ Status.BadWords) ⊎ (result ≡ Status.NoMemory) }
    // A job that keeps its rows in memory refuses no store, and only `reduce --resume` finds a short log.
    ensures no_store { (done : AJob) → job_of (map string_bytes words.now) ≡ Some done
        → IsInMemory done → RefusesStore result no_place no_modes }
    ensures short { ShortCause result (job_of (map string_bytes words.now)) }
{
    let alloc = rt.alloc();
    let salt = drawn_salt(rt);
    let mut out = Writing::new(rt.stdout());
    match read_words(alloc, words) {
        Err(WordsFault::NoMemory) => Status::NoMemory,
        Err(WordsFault::BadWords) => {
            let mut log: Reading<File> = Reading::unopened();
            let mut questions: Reading<File> = Reading::unopened();
            audit_main(
                alloc,
                salt,
                words,
                &mut log,
                &mut questions,
                &mut out,
                unopened(),
            )
            .status
        }
        Ok(Job::Back(_)) => {
            let mut log = Reading::new(rt.stdin());
            let mut questions: Reading<File> = Reading::unopened();
            audit_main(
                alloc,
                salt,
                words,
                &mut log,
                &mut questions,
                &mut out,
                unopened(),
            )
            .status
        }
        Ok(Job::Trial { seed: _, events: _ }) => {
            let mut log: Reading<File> = Reading::unopened();
            let mut questions: Reading<File> = Reading::unopened();
            audit_main(
                alloc,
                salt,
                words,
                &mut log,
                &mut questions,
                &mut out,
                unopened(),
            )
            .status
        }
        Ok(Job::Watch { mode: _, log: name }) => {
            let mut log = log_named(rt, &name);
            let mut questions = Reading::new(rt.stdin());
            audit_main(
                alloc,
                salt,
                words,
                &mut log,
                &mut questions,
                &mut out,
                unopened(),
            )
            .status
        }
        Ok(
            Job::Reduce {
                mode: _,
                log: name,
                store,
                resume: _,
            },
        ) => {
            let mut log = log_named(rt, &name);
            let mut questions: Reading<File> = Reading::unopened();
            let disk = store_made(rt, &store);
            audit_main(alloc, salt, words, &mut log, &mut questions, &mut out, disk).status
        }
        Ok(
            Job::WatchStore {
                mode: _,
                log: name,
                store,
            },
        ) => {
            let mut log = log_named(rt, &name);
            let mut questions = Reading::new(rt.stdin());
            let disk = store_made(rt, &store);
            audit_main(alloc, salt, words, &mut log, &mut questions, &mut out, disk).status
        }
        Ok(Job::Query { store }) => {
            let mut log: Reading<File> = Reading::unopened();
            let mut questions = Reading::new(rt.stdin());
            let disk = store_named(rt, &store);
            audit_main(alloc, salt, words, &mut log, &mut questions, &mut out, disk).status
        }
    }
}

// What the tables' hashes begin with. If the system gives no random bytes it is the same in every run, which changes no
// reply: only the time that chosen keys can cost.
fn drawn_salt(rt: &HostRuntime) -> Salt {
    match Salt::drawn(rt) {
        Ok(salt) => salt,
        Err(_) => Salt::fixed(),
    }
}

// The file of this name, opened for reading.
fn log_named(rt: &HostRuntime, name: &Bytes) -> Reading<File>
    ensures unused { result.faults ≡ 0 }
    ensures apart { IfSome result.inner (λ file. pos 2 <ℤ file_raw_fd file) }
{
    match str::from_utf8(name.as_slice()) {
        Ok(path) => open_log(rt, path),
        Err(_) => Reading::unopened(),
    }
}

// The store of this name, which is made if it isn't there.
fn store_made(rt: &HostRuntime, name: &Bytes) -> Storing<File>
    ensures unused { result.faults ≡ 0 }
    ensures apart { IfSome result.inner (λ file. pos 2 <ℤ file_raw_fd file) }
{
    match str::from_utf8(name.as_slice()) {
        Ok(path) => open_or_make_store(rt, path),
        Err(_) => Storing::new(None),
    }
}

// The store of this name.
fn store_named(rt: &HostRuntime, name: &Bytes) -> Storing<File>
    ensures unused { result.faults ≡ 0 }
    ensures apart { IfSome result.inner (λ file. pos 2 <ℤ file_raw_fd file) }
{
    match str::from_utf8(name.as_slice()) {
        Ok(path) => open_store(rt, path),
        Err(_) => Storing::new(None),
    }
}

// A disk whose every call fails, for a job that has none.
fn unopened() -> Storing<File>
    ensures { result ≡ record { inner = None; faults = 0 } }
{
    Storing::new(None)
}

// The words after the program's own name. Words that aren't UTF-8 name no job.
fn arguments(rt: &HostRuntime) -> Result<Vec<String>, Status>
    ensures { IfErr result (λ status.
        (status ≡ Status.BadWords) ⊎ (status ≡ Status.NoMemory)) }
{
    let mut words = Vec::new(rt.alloc());
    let args = match env::args(rt) {
        Ok(args) => args,
        Err(fault) if fault.kind() == io::ErrorKind::OutOfMemory => return Err(Status::NoMemory),
        Err(_) => return Err(Status::BadWords),
    };
    for word in args.skip(1) {
        if words.push(word).is_err() {
            return Err(Status::NoMemory);
        }
    }
    Ok(words)
}

// Says on standard error how a run ended if it wasn't with Done. It takes no memory.
fn report(rt: &HostRuntime, status: &Status) {
    let mut err = Writing::new(rt.stderr());
    let _ = put_all(&mut err, status_line(status).as_str().as_bytes());
}
