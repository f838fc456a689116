//! The lines of an event: the call, the file that it names, and the end. A fork names no file.
//!
//!     type=SYSCALL msg=audit(STAMP): arch=c000003e syscall=CALL success=yes exit=ANSWER ..
//!     type=PATH msg=audit(STAMP): item=0 name="/fFILE" inode=FILE ..
//!     type=EOE msg=audit(STAMP):␠
//!
//! The stamp is the same in all of them: the time as SECONDS.MMM, a colon and the serial number.
ghost use Rattle.std.specs.Prelude.{◌≡◌, ◌++◌, IfOk, string_bytes};
ghost use Rattle.audit_gen.specs.Lines as texts;
ghost use Rattle.audit_gen.specs.Logs as logs;

use crate::deeds::Deed;
use std::alloc::{AllocError, Global};

/// The lines of what a process does.
pub fn lines_of(alloc: Global, stamp: &str, pid: u32, deed: Deed) -> Result<String, AllocError>
    ensures { IfOk result (λ text. string_bytes text ≡ logs.lines_of stamp.now pid deed) }
{
    match deed {
        Deed::Alter { file } => file_lines(alloc, stamp, 90, pid, file),
        Deed::Exec { file } => file_lines(alloc, stamp, 59, pid, file),
        Deed::Fork { child } => fork_lines(alloc, stamp, pid, child),
    }
}

/// The stamp of an event.
pub fn stamp_text(alloc: Global, ms: u64, serial: u64) -> Result<String, AllocError>
    ensures { IfOk result (λ text. string_bytes text ≡ texts.stamp_text ms serial) }
{
    let time = time_text(alloc, ms)?;
    format!(in alloc; "{time}:{serial}")
}

// Seconds, a point and milliseconds.
#[tactic(auto, using(crate::proofs::DigitLemmas::three_digits_are))]
fn time_text(alloc: Global, ms: u64) -> Result<String, AllocError>
    ensures { IfOk result (λ text. string_bytes text ≡ texts.time_text ms) }
{
    let (seconds, rest) = (ms / 1000, ms % 1000);
    format!(in alloc; "{seconds}.{rest:03}")
}

// The lines of a call that names a file.
fn file_lines(
    alloc: Global,
    stamp: &str,
    call: u32,
    pid: u32,
    file: u32,
) -> Result<String, AllocError>
    ensures { IfOk result (λ text. string_bytes text ≡
        texts.call_line stamp.now call pid 0 ++ (texts.file_line stamp.now file ++ texts.end_line stamp.now)) }
{
    let called = call_line(alloc, stamp, call, pid, 0)?;
    let named = file_line(alloc, stamp, file)?;
    let ended = end_line(alloc, stamp)?;
    format!(in alloc; "{called}{named}{ended}")
}

// The lines of a fork.
fn fork_lines(alloc: Global, stamp: &str, pid: u32, child: u32) -> Result<String, AllocError>
    ensures { IfOk result (λ text. string_bytes text ≡
        texts.call_line stamp.now 57 pid child ++ texts.end_line stamp.now) }
{
    let called = call_line(alloc, stamp, 57, pid, child)?;
    let ended = end_line(alloc, stamp)?;
    format!(in alloc; "{called}{ended}")
}

// A call that a process made, and what it was answered.
fn call_line(
    alloc: Global,
    stamp: &str,
    call: u32,
    pid: u32,
    answer: u32,
) -> Result<String, AllocError>
    ensures { IfOk result (λ text. string_bytes text ≡ texts.call_line stamp.now call pid answer) }
{
    format!(in alloc;
        "type=SYSCALL msg=audit({stamp}): arch=c000003e syscall={call} success=yes exit={answer} \
        a0=0 a1=0 a2=0 a3=0 items=0 ppid=1 pid={pid} comm=\"p\" exe=\"/p\"\n"
    )
}

// The file that a call names.
fn file_line(alloc: Global, stamp: &str, file: u32) -> Result<String, AllocError>
    ensures { IfOk result (λ text. string_bytes text ≡ texts.file_line stamp.now file) }
{
    format!(in alloc;
        "type=PATH msg=audit({stamp}): item=0 name=\"/f{file}\" inode={file} dev=08:01 nametype=NORMAL\n"
    )
}

// The end of an event.
fn end_line(alloc: Global, stamp: &str) -> Result<String, AllocError>
    ensures { IfOk result (λ text. string_bytes text ≡ texts.end_line stamp.now) }
{
    format!(in alloc; "type=EOE msg=audit({stamp}): \n")
}
