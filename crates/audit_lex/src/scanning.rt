//! The fields of a line, without a search for faults.
//!
//! Who reads each value of a line finds on the way whether one has a fault, so a used line is read once. Of a line that
//! isn't used `lex` says what it is.
ghost use Rattle.std.specs.Prelude.{◌≡◌, option_map, MatchOption};
ghost use Rattle.audit_lex.specs.FieldTable.{name_of};
ghost use Rattle.audit_lex.specs.Scanning.{IsUnused, AreEmpty, IsScanned};
ghost use Rattle.audit_lex.specs.Slots.{held};
ghost use Rattle.audit_lex.specs.Tokens.{field_of};

use crate::field_values::{fill_slots, value_of_one};
use crate::fields::{Field, Kind};
use crate::header::{EventKey, read_next_header};
use crate::last_stamp::LastStamp;
use crate::lexer::is_blank;
use crate::slots::Slots;

/// What the header of a line says, and the raw part after it.
#[derive(Clone, Copy)]
pub struct Scanned<'a> {
    pub key: EventKey,
    pub kind: Kind,
    pub raw: &'a [u8],
}

impl<'a> Scanned<'a> {
    /// The value of the first token of this name, for a field that has no slot.
    pub fn search(&self, name: Field) -> Option<&'a [u8]>
        ensures { option_map (λ value. value.now) result
            ≡ field_of self.now.raw.now (name_of name) }
    {
        value_of_one(self.raw, name)
    }
}

/// Fills empty slots with the values of the line's fields. The line is used if each field of its kind can be read. The
/// answer is `None` if the header already shows that it isn't used. The answer is the same whatever stands in `last`, which
/// then holds this line's stamp or the one that it held.
pub fn scan<'a>(
    line: &'a [u8],
    limit: usize,
    last: &mut LastStamp,
    slots: &mut Slots<'a>,
) -> Option<Scanned<'a>>
    requires { AreEmpty (held slots.old.values) }
    ensures { MatchOption result (IsUnused limit line.now)
        (λ s. IsScanned limit line.now s.key s.kind s.raw.now (held slots.new.values)) }
{
    if line.len() > limit || is_blank(line) {
        return None;
    }
    let header = read_next_header(line, last)?;
    let kind = header.kind?;
    fill_slots(header.raw, kind, slots);
    Some(Scanned {
        key: header.key,
        kind,
        raw: header.raw,
    })
}
