//! The tokens of a raw part, as long as they come in the order in which the kernel writes them.
//!
//! Each step compares a text with one name. So most records of calls and paths are read with no table.
ghost use Rattle.std.specs.Prelude.{◌≡◌, ◌<◌, ◌⊎◌, ◌+◌, ℕ, None, length};
ghost use Rattle.std.specs.List.{slice_index_or};
ghost use Rattle.audit_lex.specs.FieldTable.{slot_rules};
ghost use Rattle.audit_lex.specs.Fronts.{IsFrontOf, IsNameFront};
ghost use Rattle.audit_lex.specs.Runs.{IsReadTo, IsAtStart, GoesOn, IsFullBehind};
ghost use Rattle.audit_lex.specs.Slots.{held};
ghost use Rattle.audit_lex.specs.declared.fields.Kind.TheVariants.{Syscall, Path};

use crate::fields::{Field, Kind, slot_rules};
use crate::fronts::{Front, front_named, past_spaces};
use crate::slots::Slots;
use crate::usual::begins;

/// How far a raw part was read.
#[derive(Clone, Copy)]
pub(crate) struct Run<'a> {
    /// What wasn't read. It doesn't begin with a space.
    pub(crate) rest: &'a [u8],
    /// How many slots at the front are full.
    pub(crate) full: usize,
    /// The number of the name that usually comes next.
    pub(crate) next: usize,
}

/// The beginning of a raw part, and the slots that its usual tokens fill.
pub(crate) fn usual_run<'a>(raw: &'a [u8], kind: Kind, slots: &mut Slots<'a>) -> Run<'a>
    requires { (place : ℕ) → slice_index_or (held slots.old.values) place None ≡ None }
    ensures { IsReadTo kind raw.now result (held slots.new.values) }
{
    match kind {
        Kind::Syscall => run_of_syscall(raw, slots),
        Kind::Path => run_of_path(raw, slots),
        _ => beginning(raw),
    }
}

// Nothing was read yet.
#[inline(always)]
fn beginning(raw: &[u8]) -> Run<'_>
    ensures { IsAtStart raw.now result }
{
    Run {
        rest: past_spaces(raw),
        full: 0,
        next: 0,
    }
}

// The tokens of a system call up to the last slot but one. It stays a call, so that the rest is kept in registers.
#[inline(never)]
fn run_of_syscall<'a>(raw: &'a [u8], slots: &mut Slots<'a>) -> Run<'a>
    requires { (place : ℕ) → slice_index_or (held slots.old.values) place None ≡ None }
    ensures { IsReadTo Syscall raw.now result (held slots.new.values) }
{
    let kind = Kind::Syscall;
    let run = beginning(raw);
    let run = take_usual(kind, 0, b"arch=", Some(Field::Arch), run, slots);
    let run = take_usual(kind, 1, b"syscall=", Some(Field::Syscall), run, slots);
    let run = take_usual(kind, 2, b"success=", Some(Field::Success), run, slots);
    let run = take_usual(kind, 3, b"exit=", Some(Field::Exit), run, slots);
    let run = take_usual(kind, 4, b"a0=", Some(Field::A0), run, slots);
    let run = take_usual(kind, 5, b"a1=", Some(Field::A1), run, slots);
    let run = take_usual(kind, 6, b"a2=", Some(Field::A2), run, slots);
    let run = take_usual(kind, 7, b"a3=", Some(Field::A3), run, slots);
    let run = take_usual(kind, 8, b"items=", None, run, slots);
    let run = take_usual(kind, 9, b"ppid=", Some(Field::Ppid), run, slots);
    take_usual(kind, 10, b"pid=", Some(Field::Pid), run, slots)
}

// The tokens of a path up to the last slot but one.
#[inline(never)]
fn run_of_path<'a>(raw: &'a [u8], slots: &mut Slots<'a>) -> Run<'a>
    requires { (place : ℕ) → slice_index_or (held slots.old.values) place None ≡ None }
    ensures { IsReadTo Path raw.now result (held slots.new.values) }
{
    let kind = Kind::Path;
    let run = beginning(raw);
    let run = take_usual(kind, 0, b"item=", Some(Field::Item), run, slots);
    let run = take_usual(kind, 1, b"name=", Some(Field::Name), run, slots);
    let run = take_usual(kind, 2, b"inode=", Some(Field::Inode), run, slots);
    take_usual(kind, 3, b"dev=", Some(Field::Dev), run, slots)
}

// Takes the next token if it is the one of this number, which begins with these bytes: a name and an `=`. The field is
// that of the name. Once a token is another one, no later number is next. It is inlined, so that number and place are
// known where the code is made.
#[inline(always)]
fn take_usual<'a, const N: usize>(
    kind: Kind,
    number: usize,
    name: &[u8; N],
    field: Option<Field>,
    run: Run<'a>,
    slots: &mut Slots<'a>,
) -> Run<'a>
    requires { IsNameFront name.now field }
    ensures { GoesOn kind run.entry (held slots.old.values) result (held slots.new.values) }
{
    if run.next != number {
        return run;
    }
    match begins(kind, name, field, run.rest) {
        Some(usual) => take_front(kind, front_named(kind, usual, number, run.rest), run, slots),
        None => run,
    }
}

/// Fills the slot of what the rest begins with, and goes on after it.
#[inline(always)]
pub(crate) fn take_front<'a>(
    kind: Kind,
    front: Front<'a>,
    run: Run<'a>,
    slots: &mut Slots<'a>,
) -> Run<'a>
    requires some { 0 < length run.rest.now }
    requires front { IsFrontOf kind run.rest.now front }
    ensures reads { GoesOn kind run.entry (held slots.old.values) result (held slots.new.values) }
    ensures shorter { length result.rest.now < length run.entry.rest.now }
{
    let rest = past_spaces(front.rest);
    let full = match front.place {
        Some(place) => {
            slots.offer(place, front.value);
            full_behind(kind, run.full, place)
        }
        None => run.full,
    };
    Run {
        rest,
        full,
        next: front.next,
    }
}

// How many slots at the front are full once this place is. The last one isn't counted: it is looked for by itself.
#[inline(always)]
fn full_behind(kind: Kind, full: usize, place: usize) -> usize
    requires { place < length (slot_rules kind) }
    ensures { IsFullBehind kind full place result }
{
    if place == full && full + 1 < slot_rules(kind).len() {
        full + 1
    } else {
        full
    }
}
