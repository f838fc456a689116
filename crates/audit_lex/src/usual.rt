//! The names of tokens in the order in which the kernel writes them.
//!
//! A name that stands where it usually does is known by one comparison: its end isn't sought, nor is it looked up.
ghost use Rattle.std.specs.Prelude.{◌≡◌, IfSome};
ghost use Rattle.std.specs.Option.{option_and_then};
ghost use Rattle.audit_lex.specs.Fronts.{IsUsual, IsNameFront};
ghost use Rattle.audit_lex.specs.TablePlaces.{place_in};
ghost use Rattle.audit_lex.specs.declared.fields.Kind.TheVariants.{Syscall, Path};

use crate::fields::{Field, Kind};
use crate::table_places::place_of_field;

/// How long a name is that stands where it usually does, and the place at which the kind's table asks for it.
#[derive(Clone, Copy)]
pub(crate) struct Usual {
    pub(crate) len: usize,
    pub(crate) place: Option<usize>,
}

/// The name that a text begins with, if it is the name of this number in the kernel's order.
pub(crate) fn usual_name(kind: Kind, number: usize, text: &[u8]) -> Option<Usual>
    ensures { IfSome result (IsUsual kind text.now) }
{
    match kind {
        Kind::Syscall => usual_in_syscall(number, text),
        Kind::Path => usual_in_path(number, text),
        Kind::Cwd | Kind::Sockaddr | Kind::FdPair | Kind::Mmap | Kind::Proctitle | Kind::Eoe =>
            None,
    }
}

/// The number of the name that usually comes after the field at this place of the kind's table. It is tried first, so a
/// wrong number costs a comparison and changes nothing.
pub(crate) fn number_behind(kind: Kind, place: usize) -> usize {
    match kind {
        // `items`, which has no place, stands before these.
        Kind::Syscall if place >= 8 => place.wrapping_add(2),
        _ => place.wrapping_add(1),
    }
}

// The name of this number in a record of a system call.
fn usual_in_syscall(number: usize, text: &[u8]) -> Option<Usual>
    ensures { IfSome result (IsUsual Syscall text.now) }
{
    match number {
        0 => begins(Kind::Syscall, b"arch=", Some(Field::Arch), text),
        1 => begins(Kind::Syscall, b"syscall=", Some(Field::Syscall), text),
        2 => begins(Kind::Syscall, b"success=", Some(Field::Success), text),
        3 => begins(Kind::Syscall, b"exit=", Some(Field::Exit), text),
        4 => begins(Kind::Syscall, b"a0=", Some(Field::A0), text),
        5 => begins(Kind::Syscall, b"a1=", Some(Field::A1), text),
        6 => begins(Kind::Syscall, b"a2=", Some(Field::A2), text),
        7 => begins(Kind::Syscall, b"a3=", Some(Field::A3), text),
        8 => begins(Kind::Syscall, b"items=", None, text),
        9 => begins(Kind::Syscall, b"ppid=", Some(Field::Ppid), text),
        10 => begins(Kind::Syscall, b"pid=", Some(Field::Pid), text),
        11 => begins(Kind::Syscall, b"auid=", None, text),
        12 => begins(Kind::Syscall, b"uid=", None, text),
        13 => begins(Kind::Syscall, b"gid=", None, text),
        14 => begins(Kind::Syscall, b"euid=", None, text),
        15 => begins(Kind::Syscall, b"suid=", None, text),
        16 => begins(Kind::Syscall, b"fsuid=", None, text),
        17 => begins(Kind::Syscall, b"egid=", None, text),
        18 => begins(Kind::Syscall, b"sgid=", None, text),
        19 => begins(Kind::Syscall, b"fsgid=", None, text),
        20 => begins(Kind::Syscall, b"tty=", None, text),
        21 => begins(Kind::Syscall, b"ses=", None, text),
        22 => begins(Kind::Syscall, b"comm=", None, text),
        23 => begins(Kind::Syscall, b"exe=", Some(Field::Exe), text),
        _ => None,
    }
}

// The name of this number in a record of a path.
fn usual_in_path(number: usize, text: &[u8]) -> Option<Usual>
    ensures { IfSome result (IsUsual Path text.now) }
{
    match number {
        0 => begins(Kind::Path, b"item=", Some(Field::Item), text),
        1 => begins(Kind::Path, b"name=", Some(Field::Name), text),
        2 => begins(Kind::Path, b"inode=", Some(Field::Inode), text),
        3 => begins(Kind::Path, b"dev=", Some(Field::Dev), text),
        4 => begins(Kind::Path, b"mode=", None, text),
        5 => begins(Kind::Path, b"ouid=", None, text),
        6 => begins(Kind::Path, b"ogid=", None, text),
        7 => begins(Kind::Path, b"rdev=", None, text),
        8 => begins(Kind::Path, b"nametype=", Some(Field::Nametype), text),
        _ => None,
    }
}

/// The name that a text begins with, if these bytes begin it: a name and an `=`. The field is that of the name. It is
/// inlined, so that the bytes are compared as one or two words.
#[inline(always)]
pub(crate) fn begins<const N: usize>(
    kind: Kind,
    front: &[u8; N],
    field: Option<Field>,
    text: &[u8],
) -> Option<Usual>
    requires { IsNameFront front.now field }
    ensures { IfSome result (IsUsual kind text.now) }
{
    if !text.starts_with(front) {
        return None;
    }
    Some(Usual {
        len: front.len() - 1,
        place: place_of_some(kind, field),
    })
}

// The place of a field in the kind's table, if there is a field.
fn place_of_some(kind: Kind, field: Option<Field>) -> Option<usize>
    ensures { result ≡ option_and_then (place_in kind) field }
{
    match field {
        None => None,
        Some(field) => place_of_field(kind, field),
    }
}
