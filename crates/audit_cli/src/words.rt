//! The words of the command line, which name a job.
//!
//!     back ID              ID is one or more decimal digits, of value at most 4294967295
//!     watch MODE LOG       MODE is `plain`, `continuous`, `full` or `source`, LOG any word of at least one byte
//!     watch MODE LOG STORE     the same, STORE any word of at least one byte
//!     reduce MODE LOG STORE    the same; `--resume` may stand among the words
//!     query STORE
//!     trial SEED EVENTS    SEED is one or more decimal digits, of value at most 18446744073709551615, EVENTS one or
//!                          more, of value 1 to 200000
ghost use Rattle.std.specs.Prelude.{◌≡◌, ◌∷◌, Some, IfOk, IfErr, map, string_bytes};
ghost use Rattle.std.specs.List.{list_all};
ghost use Rattle.std.specs.Char.{is_ascii_digit};
ghost use Rattle.clap.specs.Words.{found_of, rows_of};
ghost use Rattle.audit_cli.specs.CommandLine.{own_name};
ghost use Rattle.audit_cli.specs.Words as table;
ghost use Rattle.audit_cli.specs.Words.{job_of, back_job, query_of, one_word_job, reduce_of, three_word_job, watch_store_job, trial_of, seed_of, count_of, two_word_job, watch_job, mode_of, RefusesWords};
ghost use Rattle.audit_cli.specs.declared.words.WordsFault.TheVariants as fault;

use crate::command_line::{job_name, job_words, parsed, resumes};
use clap::ArgMatches;
use flow_base::{Bytes, NoMemory};
use reach_model::Mode;
use std::alloc::{AllocError, Global};

/// What a run does.
#[derive(Drop)]
pub enum Job {
    /// Answers in plain mode which objects this one's contents can have come from, over the whole log on standard input.
    Back(u32),
    /// Answers questions in a mode while the log of this name is taken.
    Watch {
        mode: Mode,
        log: Bytes,
    },
    /// Answers questions while the log of this name is taken into the store of this name, which keeps
    /// its rows in a mode.
    WatchStore {
        mode: Mode,
        log: Bytes,
        store: Bytes,
    },
    /// Takes the log of this name into the store of this name, which keeps its rows in a mode. If it goes
    /// on, the bytes of this log that the store has taken are passed over.
    Reduce {
        mode: Mode,
        log: Bytes,
        store: Bytes,
        resume: bool,
    },
    /// Answers questions over the store of this name.
    Query {
        store: Bytes,
    },
    /// Tries every mode on the log that this seed and number of events determine.
    Trial {
        seed: u64,
        events: u32,
    },
}

/// The most events of a trial.
const MOST_EVENTS: u32 = 200_000;

/// Why the words name no job.
#[derive(Clone, Copy, Debug, PartialEq, Eq)]
pub enum WordsFault {
    BadWords,
    NoMemory,
}

impl From<NoMemory> for WordsFault {
    ghost from_gives = { λ _ e. e ≡ fault.NoMemory };

    fn from(_fault: NoMemory) -> WordsFault {
        WordsFault::NoMemory
    }
}

impl From<AllocError> for WordsFault {
    ghost from_gives = { λ _ e. e ≡ fault.NoMemory };

    fn from(_fault: AllocError) -> WordsFault {
        WordsFault::NoMemory
    }
}

/// The job that the words name. Bad words are those that the command line's rules refuse, and those that aren't a row
/// of the table above. Allocation may fail at any words.
pub fn read_words(alloc: Global, words: &[String]) -> Result<Job, WordsFault>
    ensures found { IfOk result (λ job. job_of (map string_bytes words.now) ≡ Some job) }
    ensures refused { IfErr result (RefusesWords (job_of (map string_bytes words.now))) }
{
    let spoken = named_words(alloc, words)?;
    match parsed(alloc, spoken.as_slice()) {
        Ok(found) => row_in(alloc, &found),
        Err(why) => Err(why),
    }
}

// The words after the name of the command.
fn named_words(alloc: Global, words: &[String]) -> Result<Vec<&str>, NoMemory>
    ensures { IfOk result (λ all.
        map (λ word. word.now) all.items ≡ own_name ∷ map string_bytes words.now) }
{
    let mut named = Vec::new(alloc);
    named.push("audit_cli")?;
    for word in words {
        named.push(word.as_str())?;
    }
    Ok(named)
}

// The row of the table that was parsed.
fn row_in(alloc: Global, found: &ArgMatches<'_>) -> Result<Job, WordsFault>
    ensures found { IfOk result (λ job. table.row_in (rows_of (found_of found.now)) ≡ Some job) }
    ensures refused { IfErr result (RefusesWords (table.row_in (rows_of (found_of found.now)))) }
{
    let job = plain_row(alloc, found)?;
    if resumes(found) {
        return resumed(job).ok_or(WordsFault::BadWords);
    }
    Ok(job)
}

// The row without `--resume`.
fn plain_row(alloc: Global, found: &ArgMatches<'_>) -> Result<Job, WordsFault>
    ensures found { IfOk result (λ job.
        table.plain_row (rows_of (found_of found.now)) ≡ Some job) }
    ensures refused { IfErr result (
        RefusesWords (table.plain_row (rows_of (found_of found.now)))) }
{
    let Some(name) = job_name(found) else {
        return Err(WordsFault::BadWords);
    };
    match job_words(found) {
        Some(words) => row_of(alloc, name, words),
        None => row_of(alloc, name, &[]),
    }
}

// The same job with `--resume`, which `reduce` alone may have.
fn resumed(job: Job) -> Option<Job>
    ensures { result ≡ table.resumed (Some job) }
{
    match job {
        Job::Reduce {
            mode,
            log,
            store,
            resume: _,
        } => Some(Job::Reduce {
            mode,
            log,
            store,
            resume: true,
        }),
        Job::Back(_) => None,
        Job::Watch { mode: _, log: _ } => None,
        Job::WatchStore {
            mode: _,
            log: _,
            store: _,
        } => None,
        Job::Query { store: _ } => None,
        Job::Trial { seed: _, events: _ } => None,
    }
}

// The row of a job's name and the words after it.
fn row_of(alloc: Global, name: &str, words: &[&str]) -> Result<Job, WordsFault>
    ensures found { IfOk result (λ job.
        table.row_of name.now (map (λ word. word.now) words.now) ≡ Some job) }
    ensures refused { IfErr result (
        RefusesWords (table.row_of name.now (map (λ word. word.now) words.now))) }
{
    match words {
        [only] => one_worded(alloc, name, only),
        [first, second] => two_worded(alloc, name, first, second),
        [mode, log, store] => three_worded(alloc, name, mode, log, store),
        _ => Err(WordsFault::BadWords),
    }
}

// The job of one word after its name.
fn one_worded(alloc: Global, job: &str, only: &str) -> Result<Job, WordsFault>
    ensures found { IfOk result (λ found. one_word_job job.now only.now ≡ Some found) }
    ensures refused { IfErr result (RefusesWords (one_word_job job.now only.now)) }
{
    if job.as_bytes() == b"query".as_slice() {
        return query_named(alloc, only);
    }
    back_named(job, only).ok_or(WordsFault::BadWords)
}

// A store.
fn query_named(alloc: Global, store: &str) -> Result<Job, WordsFault>
    ensures found { IfOk result (λ found. query_of store.now ≡ Some found) }
    ensures refused { IfErr result (RefusesWords (query_of store.now)) }
{
    if store.is_empty() {
        return Err(WordsFault::BadWords);
    }
    let store = Bytes::from_slice(alloc, store.as_bytes())?;
    Ok(Job::Query { store })
}

// An object's number.
fn back_named(job: &str, id: &str) -> Option<Job>
    ensures { result ≡ back_job job.now id.now }
{
    if job.as_bytes() != b"back".as_slice() {
        return None;
    }
    match number_of(id) {
        Some(of) => Some(Job::Back(of)),
        None => None,
    }
}

// The job of two words after its name.
fn two_worded(alloc: Global, job: &str, first: &str, second: &str) -> Result<Job, WordsFault>
    ensures found { IfOk result (λ found.
        two_word_job job.now first.now second.now ≡ Some found) }
    ensures refused { IfErr result (
        RefusesWords (two_word_job job.now first.now second.now)) }
{
    if job.as_bytes() == b"trial".as_slice() {
        return trial_named(first, second).ok_or(WordsFault::BadWords);
    }
    watch_named(alloc, job, first, second)
}

// A trial by its numbers.
fn trial_named(seed: &str, events: &str) -> Option<Job>
    ensures { result ≡ trial_of (seed_of seed.now) (count_of events.now) }
{
    let seed = seed_in(seed)?;
    let events = count_in(events)?;
    Some(Job::Trial { seed, events })
}

// A mode and a log.
fn watch_named(alloc: Global, job: &str, mode: &str, log: &str) -> Result<Job, WordsFault>
    ensures found { IfOk result (λ found. watch_job job.now mode.now log.now ≡ Some found) }
    ensures refused { IfErr result (RefusesWords (watch_job job.now mode.now log.now)) }
{
    if job.as_bytes() != b"watch".as_slice() {
        return Err(WordsFault::BadWords);
    }
    match mode_named(mode) {
        None => Err(WordsFault::BadWords),
        Some(_) if log.is_empty() => Err(WordsFault::BadWords),
        Some(mode) => {
            let log = Bytes::from_slice(alloc, log.as_bytes())?;
            Ok(Job::Watch { mode, log })
        }
    }
}

// The job of three words after its name.
fn three_worded(
    alloc: Global,
    job: &str,
    mode: &str,
    log: &str,
    store: &str,
) -> Result<Job, WordsFault>
    ensures found { IfOk result (λ found.
        three_word_job job.now mode.now log.now store.now ≡ Some found) }
    ensures refused { IfErr result (
        RefusesWords (three_word_job job.now mode.now log.now store.now)) }
{
    if job.as_bytes() == b"reduce".as_slice() {
        return reduce_named(alloc, mode, log, store);
    }
    watch_store_named(alloc, job, mode, log, store)
}

// A mode, a log and a store, into which all of the log goes.
fn reduce_named(alloc: Global, mode: &str, log: &str, store: &str) -> Result<Job, WordsFault>
    ensures found { IfOk result (λ found.
        reduce_of (mode_of mode.now) log.now store.now ≡ Some found) }
    ensures refused { IfErr result (
        RefusesWords (reduce_of (mode_of mode.now) log.now store.now)) }
{
    match mode_named(mode) {
        None => Err(WordsFault::BadWords),
        Some(_) if log.is_empty() => Err(WordsFault::BadWords),
        Some(_) if store.is_empty() => Err(WordsFault::BadWords),
        Some(mode) => {
            let log = Bytes::from_slice(alloc, log.as_bytes())?;
            let store = Bytes::from_slice(alloc, store.as_bytes())?;
            Ok(Job::Reduce {
                mode,
                log,
                store,
                resume: false,
            })
        }
    }
}

// A mode, a log and a store, over which questions are answered.
fn watch_store_named(
    alloc: Global,
    job: &str,
    mode: &str,
    log: &str,
    store: &str,
) -> Result<Job, WordsFault>
    ensures found { IfOk result (λ found.
        watch_store_job job.now mode.now log.now store.now ≡ Some found) }
    ensures refused { IfErr result (
        RefusesWords (watch_store_job job.now mode.now log.now store.now)) }
{
    if job.as_bytes() != b"watch".as_slice() {
        return Err(WordsFault::BadWords);
    }
    match mode_named(mode) {
        None => Err(WordsFault::BadWords),
        Some(_) if log.is_empty() => Err(WordsFault::BadWords),
        Some(_) if store.is_empty() => Err(WordsFault::BadWords),
        Some(mode) => {
            let log = Bytes::from_slice(alloc, log.as_bytes())?;
            let store = Bytes::from_slice(alloc, store.as_bytes())?;
            Ok(Job::WatchStore { mode, log, store })
        }
    }
}

// The mode of this name.
fn mode_named(word: &str) -> Option<Mode>
    ensures { result ≡ mode_of word.now }
{
    if word.as_bytes() == b"plain".as_slice() {
        return Some(Mode::Plain);
    }
    if word.as_bytes() == b"continuous".as_slice() {
        return Some(Mode::Continuous);
    }
    if word.as_bytes() == b"full".as_slice() {
        return Some(Mode::Full);
    }
    if word.as_bytes() == b"source".as_slice() {
        return Some(Mode::Source);
    }
    None
}

// The seed that a word spells.
fn seed_in(word: &str) -> Option<u64>
    ensures { result ≡ seed_of word.now }
{
    if !is_decimal(word.as_bytes()) {
        return None;
    }
    match word.parse::<u64>() {
        Ok(number) => Some(number),
        Err(_) => None,
    }
}

// The number of events that a word spells.
fn count_in(word: &str) -> Option<u32>
    ensures { result ≡ count_of word.now }
{
    match number_of(word) {
        Some(count) if 0 < count && count <= MOST_EVENTS => Some(count),
        _ => None,
    }
}

// The number of 32 bits that a word spells.
fn number_of(word: &str) -> Option<u32>
    ensures { result ≡ table.number_of 32 word.now }
{
    if !is_decimal(word.as_bytes()) {
        return None;
    }
    match word.parse::<u32>() {
        Ok(number) => Some(number),
        Err(_) => None,
    }
}

fn is_decimal(text: &[u8]) -> bool
    ensures { result ≡ list_all is_ascii_digit text.now }
{
    text.iter().all(|byte| byte.is_ascii_digit())
}
