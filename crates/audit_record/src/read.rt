//! Records of used lines, one kind after the other.
//!
//! Each value is read once. Only a line with a value that isn't spelled, or without one that it must have, isn't used.
ghost use Rattle.std.specs.Prelude.{◌≡◌, IfOk, option_map};
ghost use Rattle.audit_lex.specs.Slots.{held, held_for};
ghost use Rattle.audit_lex.specs.declared.fields.Field.TheVariants.{Nametype, Objtype};
ghost use Rattle.audit_lex.specs.declared.fields.Kind.TheVariants as kind;
ghost use Rattle.audit_record.specs.declared.types.Body.TheVariants as body;
ghost use Rattle.audit_record.specs.Records.{Spells, name_kind, name_kind_from, file_from};
ghost use Rattle.audit_record.specs.Reading.{is_end as ends_event, GivesEntry, scanned_value};
ghost use Rattle.audit_record.specs.Reading.{numbers_of, call_of, item_of, path_of, body_of};
ghost use Rattle.audit_record.specs.Reading.{if_read, record_with};

use crate::bodies::{become_call, become_cwd, become_path};
use crate::fields::{
    needed_dec32, needed_handle, needed_hex32, needed_hex64, offered_dec64, offered_device,
    offered_signed, offered_yesno,
};
use crate::texts::{needed_bytes, needed_text, offered_text, refill};
use crate::types::{Body, NameKind, PathItem, Read, Record, Syscall};
use audit_lex::{Field, Kind, LastStamp, Scanned, Slots, UsedLine, scan};
use flow_base::{Bytes, Device, FileId, NoMemory};
use std::alloc::Global;

/// What a line that may have this many bytes gives, if it is a used one. A record is written over `item`: the line and a
/// text between quotes use the memory of those that `item` had. Texts and bytes in hex digits take new memory. If the line
/// gives no record, or if allocation fails, `item` is any record. The answer is the same whatever stands in `last`.
pub fn read_line(
    alloc: Global,
    line: &[u8],
    limit: usize,
    last: &mut LastStamp,
    item: &mut Record,
) -> Result<Read, NoMemory>
    ensures { IfOk result (λ read. GivesEntry limit line.now read item.new) }
{
    let mut slots = Slots::new();
    let Some(scanned) = scan(line, limit, last, &mut slots) else {
        return Ok(Read::Unused);
    };
    if is_end(scanned.kind) {
        return Ok(Read::End(scanned.key));
    }
    if read_scanned(alloc, line, scanned, &slots, item)? {
        Ok(Read::Record)
    } else {
        Ok(Read::Unused)
    }
}

/// The record that a used line spells.
pub fn read_record(alloc: Global, used: &UsedLine<'_>) -> Result<Record, NoMemory>
    ensures { IfOk result (λ made. Spells used.now.line.now made) }
{
    let mut slots = Slots::new();
    let mut last = LastStamp::none();
    let Some(scanned) = scan(used.line, used.line.len(), &mut last, &mut slots) else {
        unreachable!();
    };
    let mut item = Record::blank(alloc);
    if !read_scanned(alloc, used.line, scanned, &slots, &mut item)? {
        unreachable!();
    }
    Ok(item)
}

// Whether a line of this kind ends its event.
fn is_end(kind: Kind) -> bool
    ensures { result ≡ ends_event kind }
{
    matches!(kind, Kind::Proctitle | Kind::Eoe)
}

// Writes the record of a line over another, if its values spell one.
#[inline(always)]
fn read_scanned(
    alloc: Global,
    line: &[u8],
    scanned: Scanned<'_>,
    slots: &Slots<'_>,
    item: &mut Record,
) -> Result<bool, NoMemory>
    ensures { IfOk result (λ read. if_read read item.new
        ≡ option_map (record_with scanned.entry.key line.now) (body_of scanned.entry.kind
        (scanned_value (held slots.now.values) scanned.entry.raw.now))) }
{
    if !read_body(alloc, scanned, slots, &mut item.body)? {
        return Ok(false);
    }
    refill(&mut item.line, line)?;
    item.key = scanned.key;
    Ok(true)
}

// Writes the body over another.
#[inline(always)]
fn read_body(
    alloc: Global,
    scanned: Scanned<'_>,
    slots: &Slots<'_>,
    body: &mut Body,
) -> Result<bool, NoMemory>
    ensures { IfOk result (λ read. if_read read body.new ≡ body_of scanned.entry.kind
        (scanned_value (held slots.now.values) scanned.entry.raw.now)) }
{
    match scanned.kind {
        Kind::Syscall => call_body(alloc, slots, body),
        Kind::Path => path_body(alloc, scanned, slots, body),
        Kind::Cwd => cwd_body(alloc, slots, body),
        Kind::Sockaddr => sockaddr_body(alloc, slots, body),
        Kind::FdPair => Ok(put_body(body, pair_body(slots))),
        Kind::Mmap => Ok(put_body(body, mmap_body(slots))),
        Kind::Proctitle => Ok(put_body(body, Some(Body::Proctitle))),
        Kind::Eoe => Ok(put_body(body, Some(Body::Eoe))),
    }
}

// Puts a body that was read in place of another.
fn put_body(body: &mut Body, read: Option<Body>) -> bool
    ensures { if_read result body.new ≡ read }
{
    match read {
        Some(read) => {
            *body = read;
            true
        }
        None => false,
    }
}

fn call_body(alloc: Global, slots: &Slots<'_>, body: &mut Body) -> Result<bool, NoMemory>
    ensures { IfOk result (λ read. if_read read body.new
        ≡ body_of kind.Syscall (held_for (held slots.now.values))) }
{
    become_call(body);
    match body {
        Body::Syscall(call) => read_call(alloc, slots, call),
        _ => unreachable!(),
    }
}

// Its numbers are read before any memory is taken.
fn read_call(alloc: Global, slots: &Slots<'_>, call: &mut Syscall) -> Result<bool, NoMemory>
    ensures { IfOk result (λ read. if_read read call.new
        ≡ call_of (held_for (held slots.now.values))) }
{
    if read_numbers(slots, call).is_none() {
        return Ok(false);
    }
    offered_text(alloc, slots.field(Field::Exe), &mut call.exe)
}

// The numbers of a call, each written where it stands.
fn read_numbers(slots: &Slots<'_>, call: &mut Syscall) -> Option<()>
    ensures { option_map (λ read. record call.new { exe = None }) result
        ≡ numbers_of (held_for (held slots.now.values)) }
{
    call.arch = needed_hex32(slots.field(Field::Arch))?;
    call.number = needed_dec32(slots.field(Field::Syscall))?;
    call.success = offered_yesno(slots.field(Field::Success))?;
    call.exit = offered_signed(slots.field(Field::Exit))?;
    call.a0 = needed_hex64(slots.field(Field::A0))?;
    call.a1 = needed_hex64(slots.field(Field::A1))?;
    call.a2 = needed_hex64(slots.field(Field::A2))?;
    call.a3 = needed_hex64(slots.field(Field::A3))?;
    call.ppid = needed_dec32(slots.field(Field::Ppid))?;
    call.pid = needed_dec32(slots.field(Field::Pid))?;
    Some(())
}

fn path_body(
    alloc: Global,
    scanned: Scanned<'_>,
    slots: &Slots<'_>,
    body: &mut Body,
) -> Result<bool, NoMemory>
    ensures { IfOk result (λ read. if_read read body.new ≡ body_of kind.Path
        (scanned_value (held slots.now.values) scanned.entry.raw.now)) }
{
    become_path(body);
    match body {
        Body::Path(path) => read_path(alloc, scanned, slots, path),
        _ => unreachable!(),
    }
}

fn read_path(
    alloc: Global,
    scanned: Scanned<'_>,
    slots: &Slots<'_>,
    path: &mut PathItem,
) -> Result<bool, NoMemory>
    ensures { IfOk result (λ read. if_read read path.new
        ≡ path_of (scanned_value (held slots.now.values) scanned.entry.raw.now)) }
{
    let Some((item, file)) = item_and_file(slots) else {
        return Ok(false);
    };
    if !needed_text(alloc, slots.field(Field::Name), &mut path.name)? {
        return Ok(false);
    }
    path.item = item;
    path.file = file;
    path.kind = kind_of_path(scanned, slots);
    Ok(true)
}

// The numbers of a path.
fn item_and_file(slots: &Slots<'_>) -> Option<(u32, Option<FileId>)>
    ensures { result ≡ item_of (held_for (held slots.now.values)) }
{
    let item = needed_dec32(slots.field(Field::Item))?;
    let inode = offered_dec64(slots.field(Field::Inode))?;
    let device = offered_device(slots.field(Field::Dev))?;
    Some((item, file_of(inode, device)))
}

fn cwd_body(alloc: Global, slots: &Slots<'_>, body: &mut Body) -> Result<bool, NoMemory>
    ensures { IfOk result (λ read. if_read read body.new
        ≡ body_of kind.Cwd (held_for (held slots.now.values))) }
{
    become_cwd(body);
    match body {
        Body::Cwd(text) => needed_text(alloc, slots.field(Field::Cwd), text),
        _ => unreachable!(),
    }
}

#[inline(never)]
fn sockaddr_body(alloc: Global, slots: &Slots<'_>, body: &mut Body) -> Result<bool, NoMemory>
    ensures { IfOk result (λ read. if_read read body.new
        ≡ body_of kind.Sockaddr (held_for (held slots.now.values))) }
{
    let read = needed_bytes(alloc, slots.field(Field::Saddr))?;
    Ok(put_body(body, said_address(read)))
}

// The body of an address.
fn said_address(read: Option<Bytes>) -> Option<Body>
    ensures { result ≡ option_map body.Sockaddr read }
{
    match read {
        Some(bytes) => Some(Body::Sockaddr(bytes)),
        None => None,
    }
}

fn pair_body(slots: &Slots<'_>) -> Option<Body>
    ensures { result ≡ body_of kind.FdPair (held_for (held slots.now.values)) }
{
    let first = needed_dec32(slots.field(Field::Fd0))?;
    let second = needed_dec32(slots.field(Field::Fd1))?;
    Some(Body::FdPair { first, second })
}

fn mmap_body(slots: &Slots<'_>) -> Option<Body>
    ensures { result ≡ body_of kind.Mmap (held_for (held slots.now.values)) }
{
    let fd = needed_handle(slots.field(Field::Fd))?;
    Some(Body::Mmap { fd })
}

// The file, if both numbers are there.
fn file_of(inode: Option<u64>, device: Option<Device>) -> Option<FileId>
    ensures { result ≡ file_from inode device }
{
    match (inode, device) {
        (Some(ino), Some(device)) => Some(FileId { device, ino }),
        _ => None,
    }
}

// The kind by `nametype`, which newer kernels write, or else by `objtype`.
fn kind_of_path(scanned: Scanned<'_>, slots: &Slots<'_>) -> NameKind
    ensures { result ≡ name_kind_from
        (scanned_value (held slots.now.values) scanned.entry.raw.now Nametype)
        (scanned_value (held slots.now.values) scanned.entry.raw.now Objtype) }
{
    match slots.field(Field::Nametype) {
        Some(word) => kind_of_word(word),
        None => match scanned.search(Field::Objtype) {
            Some(word) => kind_of_word(word),
            None => NameKind::Normal,
        },
    }
}

fn kind_of_word(word: &[u8]) -> NameKind
    ensures { result ≡ name_kind word.now }
{
    if word == b"NORMAL".as_slice() {
        NameKind::Normal
    } else if word == b"PARENT".as_slice() {
        NameKind::Parent
    } else if word == b"DELETE".as_slice() {
        NameKind::Delete
    } else if word == b"CREATE".as_slice() {
        NameKind::Create
    } else {
        NameKind::Unknown
    }
}
