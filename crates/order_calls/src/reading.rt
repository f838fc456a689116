//! What a line says: its call, and what it does to descriptors.
ghost use Rattle.std.specs.Prelude.{◌≡◌, ◌<◌, ◌++◌, List, IfOk, OnOk, codes, nat_eq};
ghost use Rattle.std.specs.List.{list_any};
ghost use Rattle.audit_lex.specs.FieldTable.{name_of};
ghost use Rattle.order_calls.specs.Deeds.{Said};
ghost use Rattle.order_calls.specs.Known.{is_file_at, StandsFor};
ghost use Rattle.order_calls.specs.Lines.{text_in, number_in, hex_in, is_native, is_done, opens, closes, closes_range, closes_now, copies, copies_from, opens_socket, lacks, is_apart, forks, begins, bears, child_in, runs, waiting, deed_with, deed_done, range_in, low_in, deed_in, deed_of_path, deed_of_kind, call_in, call_of_kind, takes_from, HearsKind, HearsLine, saying, deed_of};
ghost use Rattle.order_calls.specs.Reads.{IsRead};

use crate::call::{Call, Takes};
use crate::deed::Deed;
use crate::files::Files;
use crate::minor::is_minor;
use crate::mode::has_file_mode;
use audit_lex::{Field, Kind, Lexed, UsedLine, dec32, hex32, hex64, lex};
use flow_base::NoMemory;

/// The longest line that is read for its call.
const LINE: usize = 65_536;

impl Files {
    /// The call that a line of an event is the record of, by what is known before it. After that what the line says is known.
    pub fn see(&mut self, line: &[u8], ms: u64, serial: u32) -> Result<Option<Call>, NoMemory>
        ensures hears { IfOk result (HearsLine self.old self.new line.now (ms, serial)) }
        ensures stands { OnOk result ((before : List Said) → StandsFor self.old before
            → StandsFor self.new (saying (ms, serial) (deed_of line.now) ++ before)) }
    {
        self.see_read(line, &None, ms, serial)
    }

    /// The same, of a line that may have been read.
    pub fn see_read(
        &mut self,
        line: &[u8],
        used: &Option<UsedLine<'_>>,
        ms: u64,
        serial: u32,
    ) -> Result<Option<Call>, NoMemory>
        requires is { IsRead line.now used.now }
        ensures hears { IfOk result (HearsLine self.old self.new line.now (ms, serial)) }
        ensures stands { OnOk result ((before : List Said) → StandsFor self.old before
            → StandsFor self.new (saying (ms, serial) (deed_of line.now) ++ before)) }
    {
        match used {
            Some(used) => self.see_used(used, ms, serial),
            None => self.see_unread(line, ms, serial),
        }
    }

    // The same, of a line that wasn't read. It needn't be if nothing that it can say would change what is known.
    fn see_unread(&mut self, line: &[u8], ms: u64, serial: u32) -> Result<Option<Call>, NoMemory>
        ensures hears { IfOk result (HearsLine self.old self.new line.now (ms, serial)) }
        ensures stands { OnOk result ((before : List Said) → StandsFor self.old before
            → StandsFor self.new (saying (ms, serial) (deed_of line.now) ++ before)) }
    {
        if is_minor(line) && !self.awaits(ms, serial) {
            return Ok(None);
        }
        match lex(line, LINE) {
            Lexed::Used(used) => self.see_used(&used, ms, serial),
            _ => Ok(None),
        }
    }

    // The call that a used line is the record of.
    fn see_used(
        &mut self,
        used: &UsedLine<'_>,
        ms: u64,
        serial: u32,
    ) -> Result<Option<Call>, NoMemory>
        ensures hears { IfOk result (HearsKind
            self.old self.new used.now.line.now used.now.kind (ms, serial)) }
        ensures stands { OnOk result ((before : List Said) → StandsFor self.old before
            → StandsFor self.new
            (saying (ms, serial) (deed_of_kind used.now.line.now used.now.kind) ++ before)) }
    {
        let call = call_of_kind(self, used);
        match deed_of_kind(used) {
            None => Ok(call),
            Some(said) => {
                self.hear(ms, serial, said)?;
                Ok(call)
            }
        }
    }
}

/// A line as it was read, if it is a used record of a call, by what stands before its stamp.
pub fn read_call<'a>(line: &'a [u8], front: &[u8]) -> Option<UsedLine<'a>>
    ensures { IsRead line.now result }
{
    if !front.ends_with(b"type=SYSCALL msg=audit") {
        return None;
    }
    match lex(line, LINE) {
        Lexed::Used(used) => Some(used),
        _ => None,
    }
}

// The call that a used line is the record of.
fn call_of_kind(files: &Files, used: &UsedLine<'_>) -> Option<Call>
    ensures { result ≡ call_of_kind (is_file_at files.now) used.now.line.now used.now.kind }
{
    match used.kind {
        Kind::Syscall => call_in(files, used),
        _ => None,
    }
}

// The call of a call's record.
fn call_in(files: &Files, used: &UsedLine<'_>) -> Option<Call>
    ensures { result ≡ call_in (is_file_at files.now) used.now.line.now }
{
    let pid = number_in(used, Field::Pid)?;
    let number = number_in(used, Field::Syscall)?;
    let child = child_in(used, number);
    if !is_native(used) || !may_wait(number) {
        return Some(Call {
            pid,
            takes: Takes::Nothing,
            child,
        });
    }
    Some(Call {
        pid,
        takes: takes_from(
            files,
            pid,
            number_in(used, Field::Ppid),
            hex_in(used, Field::A0),
        ),
        child,
    })
}

// The number of the child that a call of this number began, if it has.
fn child_in(used: &UsedLine<'_>, number: u32) -> Option<u32>
    ensures { result ≡ child_in used.now.line.now number }
{
    if bears(number) && is_native(used) && is_done(used) {
        number_in(used, Field::Exit)
    } else {
        None
    }
}

// What a call takes that may wait, from this descriptor.
fn takes_from(files: &Files, pid: u32, parent: Option<u32>, fd: Option<u32>) -> Takes
    ensures { result ≡ takes_from (is_file_at files.now) pid parent fd }
{
    match fd {
        None => Takes::Awaited,
        Some(fd) => {
            if files.is_file(pid, parent, fd) {
                Takes::File
            } else {
                Takes::Awaited
            }
        }
    }
}

// What a used line says of descriptors.
fn deed_of_kind(used: &UsedLine<'_>) -> Option<Deed>
    ensures { result ≡ deed_of_kind used.now.line.now used.now.kind }
{
    match used.kind {
        Kind::Syscall => deed_in(used),
        Kind::Path => deed_of_path(used),
        Kind::Proctitle | Kind::Eoe => Some(Deed::Ends),
        _ => None,
    }
}

// What the record of a path says: the kind of what was opened, if it is the path of that.
fn deed_of_path(used: &UsedLine<'_>) -> Option<Deed>
    ensures { result ≡ deed_of_path used.now.line.now }
{
    let name = used.field(Field::Nametype)?;
    if name == b"NORMAL".as_slice() || name == b"CREATE".as_slice() {
        return Some(Deed::Names {
            file: has_file_mode(used.line),
        });
    }
    None
}

// What the record of a call says.
fn deed_in(used: &UsedLine<'_>) -> Option<Deed>
    ensures { result ≡ deed_in used.now.line.now }
{
    let pid = number_in(used, Field::Pid)?;
    let number = number_in(used, Field::Syscall)?;
    if !is_native(used) {
        return None;
    }
    // The end of a process has no answer.
    if number == 231 {
        return Some(Deed::Begins { pid });
    }
    if !is_done(used) {
        return None;
    }
    deed_done(used, number, pid)
}

// What the record of a call says that has succeeded.
fn deed_done(used: &UsedLine<'_>, number: u32, pid: u32) -> Option<Deed>
    ensures { result ≡ deed_done used.now.line.now number pid }
{
    if closes_range(number) {
        return range_in(used, pid);
    }
    deed_with(used, number, pid)
}

// What the record of a close_range says.
fn range_in(used: &UsedLine<'_>, pid: u32) -> Option<Deed>
    ensures { result ≡ range_in used.now.line.now pid }
{
    let first = low_in(used, Field::A0)?;
    let last = low_in(used, Field::A1)?;
    if closes_now(hex_in(used, Field::A2)) {
        Some(Deed::ClosesRange { pid, first, last })
    } else {
        None
    }
}

// Whether a close_range closes now: the flag 4 says that an exec will.
fn closes_now(flags: Option<u32>) -> bool
    ensures { result ≡ closes_now flags }
{
    match flags {
        None => true,
        Some(flags) => lacks(4, flags),
    }
}

// What a call did that has succeeded, by its number, its process, its answer and its arguments.
fn deed_with(used: &UsedLine<'_>, number: u32, pid: u32) -> Option<Deed>
    ensures { result ≡ deed_with number pid
        (number_in used.now.line.now (codes "ppid")) (number_in used.now.line.now (codes "exit"))
        (hex_in used.now.line.now (codes "a0")) (hex_in used.now.line.now (codes "a1")) }
{
    if opens(number) {
        let fd = number_in(used, Field::Exit)?;
        return Some(Deed::Opens { pid, fd });
    }
    if closes(number) {
        let fd = hex_in(used, Field::A0)?;
        return Some(Deed::Closes { pid, fd });
    }
    if copies(number, hex_in(used, Field::A1)) {
        return copies_from(pid, hex_in(used, Field::A0), number_in(used, Field::Exit));
    }
    if opens_socket(number) {
        let fd = number_in(used, Field::Exit)?;
        return Some(Deed::Closes { pid, fd });
    }
    if forks(number, hex_in(used, Field::A0)) {
        let child = number_in(used, Field::Exit)?;
        let parent = number_in(used, Field::Ppid);
        return Some(Deed::Forks { pid, parent, child });
    }
    if begins(number) {
        let child = number_in(used, Field::Exit)?;
        return Some(Deed::Begins { pid: child });
    }
    if runs(number) {
        return Some(Deed::Runs { pid });
    }
    None
}

// A copy of one descriptor to another.
fn copies_from(pid: u32, from: Option<u32>, to: Option<u32>) -> Option<Deed>
    ensures { result ≡ copies_from pid from to }
{
    Some(Deed::Copies {
        pid,
        from: from?,
        to: to?,
    })
}

// open, creat, openat, openat2
fn opens(number: u32) -> bool
    ensures { result ≡ opens number }
{
    matches!(number, 2 | 85 | 257 | 437)
}

// close
fn closes(number: u32) -> bool
    ensures { result ≡ closes number }
{
    number == 3
}

// close_range
fn closes_range(number: u32) -> bool
    ensures { result ≡ closes_range number }
{
    number == 436
}

// dup, dup2, dup3, and fcntl with the commands that copy
fn copies(number: u32, command: Option<u32>) -> bool
    ensures { result ≡ copies number command }
{
    matches!(number, 32 | 33 | 292) || number == 72 && matches!(command, Some(0 | 1030))
}

// socket, accept, accept4
fn opens_socket(number: u32) -> bool
    ensures { result ≡ opens_socket number }
{
    matches!(number, 41 | 43 | 288)
}

// fork, vfork, and a clone that shares nothing
fn forks(number: u32, flags: Option<u32>) -> bool
    ensures { result ≡ forks number flags }
{
    matches!(number, 57 | 58) || number == 56 && is_apart(flags)
}

// Whether a clone of these flags makes a process with descriptors of its own: neither CLONE_FILES nor CLONE_THREAD.
fn is_apart(flags: Option<u32>) -> bool
    ensures { result ≡ is_apart flags }
{
    match flags {
        None => false,
        Some(flags) => lacks(1024, flags) && lacks(65_536, flags),
    }
}

// Whether flags lack the bit of this weight.
fn lacks(weight: u32, flags: u32) -> bool
    requires { 0 < weight }
    ensures { result ≡ lacks weight flags }
{
    flags / weight % 2 == 0
}

// clone and clone3, whose flags aren't in its record
fn begins(number: u32) -> bool
    ensures { result ≡ begins number }
{
    matches!(number, 56 | 435)
}

// clone, fork, vfork, clone3
fn bears(number: u32) -> bool
    ensures { result ≡ bears number }
{
    matches!(number, 56 | 57 | 58 | 435)
}

// execve, execveat
fn runs(number: u32) -> bool
    ensures { result ≡ runs number }
{
    matches!(number, 59 | 322)
}

// Whether a call of this number of x86-64 takes what it may have waited for, from the descriptor of its first argument: read,
// readv, accept, recvfrom, recvmsg, splice, tee, accept4, recvmmsg, preadv2.
fn may_wait(number: u32) -> bool
    ensures { result ≡ list_any (nat_eq number) waiting }
{
    matches!(number, 0 | 19 | 43 | 45 | 47 | 275 | 276 | 288 | 299 | 327)
}

// Whether a call is one of x86-64.
fn is_native(used: &UsedLine<'_>) -> bool
    ensures { result ≡ is_native used.now.line.now }
{
    has_text(used, Field::Arch, b"c000003e")
}

// Whether a call has succeeded.
fn is_done(used: &UsedLine<'_>) -> bool
    ensures { result ≡ is_done used.now.line.now }
{
    has_text(used, Field::Success, b"yes")
}

// Whether a field has this text.
fn has_text(used: &UsedLine<'_>, field: Field, text: &[u8]) -> bool
    ensures { result ≡ text_in used.now.line.now (name_of field) text.now }
{
    match used.field(field) {
        None => false,
        Some(found) => found == text,
    }
}

// The number that a field spells.
fn number_in(used: &UsedLine<'_>, field: Field) -> Option<u32>
    ensures { result ≡ number_in used.now.line.now (name_of field) }
{
    dec32(used.field(field)?)
}

// The number that a field spells in hex digits.
fn hex_in(used: &UsedLine<'_>, field: Field) -> Option<u32>
    ensures { result ≡ hex_in used.now.line.now (name_of field) }
{
    hex32(used.field(field)?)
}

// The low 32 bits of the number that a field spells in hex digits.
fn low_in(used: &UsedLine<'_>, field: Field) -> Option<u32>
    ensures { result ≡ low_in used.now.line.now (name_of field) }
{
    let number = hex64(used.field(field)?)?;
    Some((number % 0x1_0000_0000) as u32)
}
