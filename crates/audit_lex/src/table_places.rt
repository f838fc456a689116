//! Where the table of a kind asks for a field.
ghost use Rattle.std.specs.Prelude.{◌≡◌, ◌<◌, ◌↔◌, ℕ, [], Some, length, IfSome};
ghost use Rattle.std.specs.List.{slice_index_or};
ghost use Rattle.audit_lex.specs.FieldTable.{slot_rules};
ghost use Rattle.audit_lex.specs.Slots.{names_of};
ghost use Rattle.audit_lex.specs.TablePlaces.{home, place_in};

use crate::fields::{Field, Kind, field_named};

/// The place at which the kind's table asks for a token of this name.
pub(crate) fn place_named(kind: Kind, name: &[u8]) -> Option<usize>
    ensures place { (place : ℕ) → place < length (slot_rules kind) → (result ≡ Some place)
        ↔ (slice_index_or (names_of (slot_rules kind)) place [] ≡ name.now) }
    ensures within { IfSome result (λ place. place < length (slot_rules kind)) }
{
    match field_named(name) {
        None => None,
        Some(field) => place_of_field(kind, field),
    }
}

/// The place of a field in the kind's table, if it has a slot there.
pub(crate) fn place_of_field(kind: Kind, field: Field) -> Option<usize>
    ensures { result ≡ place_in kind field }
{
    match home_of(field) {
        Some((home, place)) if home == kind => Some(place),
        _ => None,
    }
}

// The kind whose table asks for the field, and its place there, if it has a slot.
#[inline(always)]
pub(crate) fn home_of(field: Field) -> Option<(Kind, usize)>
    ensures { result ≡ home field }
{
    match field {
        Field::Arch => Some((Kind::Syscall, 0)),
        Field::Syscall => Some((Kind::Syscall, 1)),
        Field::Success => Some((Kind::Syscall, 2)),
        Field::Exit => Some((Kind::Syscall, 3)),
        Field::A0 => Some((Kind::Syscall, 4)),
        Field::A1 => Some((Kind::Syscall, 5)),
        Field::A2 => Some((Kind::Syscall, 6)),
        Field::A3 => Some((Kind::Syscall, 7)),
        Field::Ppid => Some((Kind::Syscall, 8)),
        Field::Pid => Some((Kind::Syscall, 9)),
        Field::Exe => Some((Kind::Syscall, 10)),
        Field::Item => Some((Kind::Path, 0)),
        Field::Name => Some((Kind::Path, 1)),
        Field::Inode => Some((Kind::Path, 2)),
        Field::Dev => Some((Kind::Path, 3)),
        Field::Nametype => Some((Kind::Path, 4)),
        Field::Objtype => None,
        Field::Cwd => Some((Kind::Cwd, 0)),
        Field::Saddr => Some((Kind::Sockaddr, 0)),
        Field::Fd0 => Some((Kind::FdPair, 0)),
        Field::Fd1 => Some((Kind::FdPair, 1)),
        Field::Fd => Some((Kind::Mmap, 0)),
    }
}
