//! The command line, parsed by clap.
//!
//!     JOB         the job's name
//!     WORDS       any number of words after it
//!     --resume    goes on after the bytes that a store has taken
//!
//! There are no other options, not `--help` or `--version` either. After the first `--` no word is an option.
ghost use Rattle.std.specs.Prelude.{◌≡◌, IfOk, IfErr, codes, false, map, option_map};
ghost use Rattle.clap.specs.Words.{all_of, app_of, first_of, found_of, rows_of, rule_of};
ghost use Rattle.audit_cli.specs.CommandLine as line;
ghost use Rattle.audit_cli.specs.CommandLine.{Parses, Refuses, is_resumed, is_true};

use crate::words::WordsFault;
use clap::error::ErrorKind;
use clap::{Arg, ArgAction, ArgMatches, Command};
use std::alloc::{AllocError, Global};

/// What clap finds in the words, the first of which names the command.
pub fn parsed<'a>(alloc: Global, words: &'a [&'a str]) -> Result<ArgMatches<'a>, WordsFault>
    ensures found { IfOk result (λ found.
        Parses (map (λ word. word.now) words.now) (rows_of (found_of found))) }
    ensures refused { IfErr result (Refuses (map (λ word. word.now) words.now)) }
{
    let command = command(alloc)?;
    match command.try_get_matches_from(words) {
        Ok(found) => Ok(found),
        Err(error) => Err(fault_by(error.kind())),
    }
}

fn fault_by(kind: ErrorKind) -> WordsFault
    ensures { result ≡ line.fault_by kind }
{
    match kind {
        ErrorKind::OutOfMemory => WordsFault::NoMemory,
        _ => WordsFault::BadWords,
    }
}

// The command.
fn command<'a>(alloc: Global) -> Result<Command<'a>, AllocError>
    ensures { IfOk result (λ made. app_of made ≡ line.command) }
{
    with_words(alloc)?.arg(resume(alloc))
}

// The command without its flag.
fn with_words<'a>(alloc: Global) -> Result<Command<'a>, AllocError>
    ensures { IfOk result (λ made. app_of made ≡ line.with_words) }
{
    with_job(alloc)?.arg(words(alloc))
}

// The command with the job's name alone.
fn with_job<'a>(alloc: Global) -> Result<Command<'a>, AllocError>
    ensures { IfOk result (λ made. app_of made ≡ line.with_job) }
{
    plain(alloc).arg(job(alloc))
}

// The command without arguments, and without the flags that clap adds.
fn plain<'a>(alloc: Global) -> Command<'a>
    ensures { app_of result ≡ line.bare }
{
    Command::new(alloc, "audit_cli")
        .disable_help_flag(true)
        .disable_version_flag(true)
}

fn job<'a>(alloc: Global) -> Arg<'a>
    ensures rule { rule_of result ≡ line.job_rule }
    ensures local { result.global ≡ false }
{
    Arg::new(alloc, "JOB").required(true).action(ArgAction::Set)
}

fn words<'a>(alloc: Global) -> Arg<'a>
    ensures rule { rule_of result ≡ line.words_rule }
    ensures local { result.global ≡ false }
{
    Arg::new(alloc, "WORDS")
        .action(ArgAction::Append)
        .num_args(0..)
}

fn resume<'a>(alloc: Global) -> Arg<'a>
    ensures rule { rule_of result ≡ line.resume_rule }
    ensures local { result.global ≡ false }
{
    Arg::new(alloc, "resume")
        .long("resume")
        .action(ArgAction::SetTrue)
}

/// The job's name.
pub fn job_name<'a>(found: &ArgMatches<'a>) -> Option<&'a str>
    ensures { option_map (λ name. name.now) result
        ≡ first_of (codes "JOB") (rows_of (found_of found.now)) }
{
    found.get_str("JOB")
}

/// The words after the job's name, and none if there are none.
pub fn job_words<'m, 'a>(found: &'m ArgMatches<'a>) -> Option<&'m [&'a str]>
    ensures { option_map (λ words. map (λ word. word.now) words.now) result
        ≡ all_of (codes "WORDS") (rows_of (found_of found.now)) }
{
    found.get_strs("WORDS")
}

/// Whether `--resume` was given.
pub fn resumes(found: &ArgMatches<'_>) -> bool
    ensures { result ≡ is_resumed (rows_of (found_of found.now)) }
{
    is_set(found.get_str("resume"))
}

// Whether a flag has this text as its value: `true` if it was given, and `false` if not.
fn is_set(text: Option<&str>) -> bool
    ensures { result ≡ is_true (option_map (λ given. given.now) text.entry) }
{
    match text {
        Some(text) => text == "true",
        None => false,
    }
}
