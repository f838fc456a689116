//! What the record of a call says of processes.
ghost use Rattle.std.specs.Prelude.{◌≡◌, ◌&&◌, IfOk};
ghost use Rattle.audit_lex.specs.FieldTable.{name_of};
ghost use Rattle.order_text.specs.Seen.{stamp_seen};
ghost use Rattle.order_calls.specs.Reads.{IsRead};
ghost use Rattle.order_rules.specs.Lines.{number_in, call_in};
ghost use Rattle.order_lines.specs.Rules.{is_call};
ghost use Rattle.order_rules.specs.Notes.{IsNoted};
ghost use Rattle.order_kin.specs.Heard.{deed_of, has_begun, heard_kind, heard_in, heard_of, only_fork};

use audit_lex::{Field, Kind, Lexed, UsedLine, dec32, lex};
use flow_base::NoMemory;
use order_lines::{Settings, rewrite_of};
use order_place::rewritten;
use order_rules::{Act, Call, Note, call_in};
use order_text::Stamp;
use std::alloc::Global;

/// The longest line that is read.
const LINE: usize = 65_536;

/// What a call did to processes.
#[derive(Clone, Copy, Debug, PartialEq, Eq)]
pub enum Deed {
    /// Nothing.
    Nothing,
    /// It began a child, and answered this.
    Forks { answer: u32 },
    /// Its process has ended.
    Ends,
}

/// A call: the time and the serial number of its event, its process and that one's parent, and what it did.
#[derive(Clone, Copy, Debug, PartialEq, Eq)]
pub struct Heard {
    pub ms: u64,
    pub serial: u32,
    pub pid: u32,
    pub parent: u32,
    pub deed: Deed,
}

/// What a line of this stamp says, which may have been read, and of which something may have been noted. A 32-bit call is read as the
/// 64-bit one that it becomes.
pub fn heard_of(
    alloc: Global,
    compat: bool,
    line: &[u8],
    stamp: &Stamp<'_>,
    used: &Option<UsedLine<'_>>,
    note: Option<Note>,
) -> Result<Option<Heard>, NoMemory>
    requires read { IsRead line.now used.now }
    requires noted { IsNoted note line.now }
    ensures { IfOk result (λ heard. heard ≡ heard_of compat (stamp_seen stamp.now) line.now) }
{
    if !is_heard(compat, stamp.front) {
        return Ok(None);
    }
    let settings = Settings {
        join: false,
        compat,
    };
    match rewrite_of(alloc, settings, stamp)? {
        None => Ok(heard_in(line, used, note)),
        Some(rewrite) => {
            let read = rewritten(alloc, stamp, &rewrite)?;
            Ok(heard_unread(read.as_slice()))
        }
    }
}

/// The fork that a line of this stamp is the record of, of which something may have been noted.
pub fn fork_of(
    alloc: Global,
    compat: bool,
    line: &[u8],
    stamp: &Stamp<'_>,
    note: Option<Note>,
) -> Result<Option<Heard>, NoMemory>
    requires { IsNoted note line.now }
    ensures { IfOk result (λ fork. fork
        ≡ only_fork (heard_of compat (stamp_seen stamp.now) line.now)) }
{
    if !is_heard(compat, stamp.front) {
        return Ok(None);
    }
    let settings = Settings {
        join: false,
        compat,
    };
    match rewrite_of(alloc, settings, stamp)? {
        None => Ok(fork_noted(line, note)),
        Some(rewrite) => {
            let read = rewritten(alloc, stamp, &rewrite)?;
            Ok(only_fork(heard_unread(read.as_slice())))
        }
    }
}

// The fork that a line is the record of. Most calls were noted and are none, so they aren't read again.
fn fork_noted(line: &[u8], note: Option<Note>) -> Option<Heard>
    requires { IsNoted note line.now }
    ensures { result ≡ only_fork (heard_in line.now) }
{
    match note {
        Some(note) if !begins(note.call) => None,
        _ => only_fork(heard_unread(line)),
    }
}

// Whether a call has begun a child.
fn begins(call: Option<Call>) -> bool
    ensures { result ≡ has_begun call }
{
    match call {
        Some(call) => matches!(call.act, Act::Begins { child: _ }),
        None => false,
    }
}

// A fork alone.
fn only_fork(heard: Option<Heard>) -> Option<Heard>
    ensures { result ≡ only_fork heard }
{
    let heard = heard?;
    match heard.deed {
        Deed::Forks { answer: _ } => Some(heard),
        _ => None,
    }
}

// Whether calls are read, and a line is the record of one, by what stands before its stamp.
fn is_heard(compat: bool, front: &[u8]) -> bool
    ensures { result ≡ (compat && is_call front.now) }
{
    compat && front.ends_with(b"type=SYSCALL msg=audit")
}

// What a line says that may have been read, and of which something may have been noted.
fn heard_in(line: &[u8], used: &Option<UsedLine<'_>>, note: Option<Note>) -> Option<Heard>
    requires read { IsRead line.now used.now }
    requires noted { IsNoted note line.now }
    ensures { result ≡ heard_in line.now }
{
    match used {
        Some(used) => heard_kind(used, note),
        None => heard_unread(line),
    }
}

// What a line says that wasn't read.
fn heard_unread(line: &[u8]) -> Option<Heard>
    ensures { result ≡ heard_in line.now }
{
    match lex(line, LINE) {
        Lexed::Used(used) => heard_kind(&used, None),
        _ => None,
    }
}

// What a used line says, of which something may have been noted.
fn heard_kind(used: &UsedLine<'_>, note: Option<Note>) -> Option<Heard>
    requires { IsNoted note used.now.line.now }
    ensures { result ≡ heard_kind used.now.line.now used.now.key used.now.kind }
{
    match used.kind {
        Kind::Syscall => heard_call(used, call_noted(used, note)),
        _ => None,
    }
}

// The call of a used line, which isn't read again if it was noted.
fn call_noted(used: &UsedLine<'_>, note: Option<Note>) -> Option<Call>
    requires { IsNoted note used.now.line.now }
    ensures { result ≡ call_in used.now.line.now }
{
    match note {
        Some(note) => note.call,
        None => call_in(used),
    }
}

// What the record of this call says.
fn heard_call(used: &UsedLine<'_>, call: Option<Call>) -> Option<Heard>
    requires { call ≡ call_in used.now.line.now }
    ensures { result ≡ heard_kind used.now.line.now used.now.key Kind.Syscall }
{
    let parent = number_in(used, Field::Ppid)?;
    let call = call?;
    Some(Heard {
        ms: used.key.ms,
        serial: used.key.serial,
        pid: call.pid,
        parent,
        deed: deed_of(call.act),
    })
}

fn number_in(used: &UsedLine<'_>, field: Field) -> Option<u32>
    ensures { result ≡ number_in used.now.line.now (name_of field) }
{
    dec32(used.field(field)?)
}

// What a call did to processes.
fn deed_of(act: Act) -> Deed
    ensures { result ≡ deed_of act }
{
    match act {
        Act::Begins { child } => Deed::Forks { answer: child },
        Act::Ends => Deed::Ends,
        _ => Deed::Nothing,
    }
}
