//! An audit log in the order of effects.
//!
//!     audit_order [SWITCHES] [--report] [--window SECONDS] [--memory MB] < LOG > ORDERED
//!     audit_order --undo < ORDERED > LINES
//!
//! A record's time is its call's entry, and its serial number is given when the call returns. So a read that waited
//! stands before the write that fed it. This program writes the lines of a log in an order that is nearer to that of their
//! effects, the lines of an event together, with times that never fall. Some lines are rewritten by rules, so that the main
//! program sees what really met. `order_run` is the whole of it over any source and sink, and its contract is the theorem.
//! `undo_run` writes the lines as they were.
#![tactic(auto)]

ghost use Rattle.std.specs.Prelude.{◌≡◌, ◌≢◌, ◌⊎◌, None, IfErr, map, string_bytes};
ghost use Rattle.audit_order.specs.Words.{job_of};

mod added;
mod bounds;
mod counts;
mod halt;
mod laws;
mod log;
mod release;
mod run;
mod sorter;
mod status;
mod switches;
mod taker;
#[cfg(test)]
mod tests;
mod undo;
mod words;
mod writer;

pub use bounds::Bounds;
pub use counts::{Counts, report};
pub use laws::{
    calls_keep_their_order, due_lines_have_gone, events_go_together,
    no_peer_is_added_without_its_rule, nothing_is_rewritten_without_rules, ordered_logs_are_undone,
    written_lines_are_lines,
};
use outside::put_all;
use outside_real::{Reading, Writing};
pub use run::{order_run, undo_run};
pub use status::{Status, status_line, status_number};
use std::process::ExitCode;
use std::{env, io};
pub use switches::Switches;
pub use words::{Job, job_of};

fn main(rt: HostRuntime) -> ExitCode {
    let status = match arguments(&rt) {
        Ok(words) => run_words(&rt, words.as_slice()),
        Err(status) => status,
    };
    let mut err = Writing::new(rt.stderr());
    let _ = put_all(&mut err, status_line(status));
    ExitCode::from(status_number(status))
}

// Does what the words say with standard input and standard output.
fn run_words(rt: &HostRuntime, words: &[String]) -> Status
    ensures bad_words { result ≡ Status.BadWords → job_of (map string_bytes words.now) ≡ None }
    ensures refuses { job_of (map string_bytes words.now) ≡ None → result ≡ Status.BadWords }
{
    match job_of(words) {
        None => Status::BadWords,
        Some(
            Job::Order {
                bounds,
                switches,
                report,
            },
        ) => order_log(rt, bounds, switches, report),
        Some(Job::Undo) => undo_log(rt),
    }
}

// Orders a log, and says what was done if that is asked for.
fn order_log(rt: &HostRuntime, bounds: Bounds, switches: Switches, reports: bool) -> Status
    ensures { result ≢ Status.BadWords }
{
    let mut log = Reading::new(rt.stdin());
    let mut out = Writing::new(rt.stdout());
    let mut counts = Counts::new();
    let status = order_run(
        rt.alloc(),
        bounds,
        switches,
        &mut log,
        &mut out,
        &mut counts,
    );
    if status != Status::Done || !reports {
        return status;
    }
    say_report(rt, counts)
}

// Says on standard error what was done.
fn say_report(rt: &HostRuntime, counts: Counts) -> Status
    ensures { result ≢ Status.BadWords }
{
    let Ok(line) = report(rt.alloc(), counts) else {
        return Status::NoMemory;
    };
    let mut err = Writing::new(rt.stderr());
    let _ = put_all(&mut err, line.as_slice());
    Status::Done
}

// Undoes an ordered log.
fn undo_log(rt: &HostRuntime) -> Status
    ensures { result ≢ Status.BadWords }
{
    let mut log = Reading::new(rt.stdin());
    let mut out = Writing::new(rt.stdout());
    undo_run(rt.alloc(), &mut log, &mut out)
}

// The words after the program's own name. Words that aren't UTF-8 name no job.
fn arguments(rt: &HostRuntime) -> Result<Vec<String>, Status>
    ensures { IfErr result (λ status.
        (status ≡ Status.BadWords) ⊎ (status ≡ Status.NoMemory)) }
{
    let mut words = Vec::new(rt.alloc());
    let args = match env::args(rt) {
        Ok(args) => args,
        Err(fault) if fault.kind() == io::ErrorKind::OutOfMemory => return Err(Status::NoMemory),
        Err(_) => return Err(Status::BadWords),
    };
    for word in args.skip(1) {
        if words.push(word).is_err() {
            return Err(Status::NoMemory);
        }
    }
    Ok(words)
}
