//! A used line, borrowed.
//!
//! Its fields are slices of the line; which one a name means is a matter of the line alone.
ghost use Rattle.std.specs.Prelude.{◌≡◌, Some, option_map};
ghost use Rattle.audit_lex.specs.FieldTable.{name_of};
ghost use Rattle.audit_lex.specs.LineClass.{text_class, Used};
ghost use Rattle.audit_lex.specs.LineFields.{raw_part_of, field_in_line};

use crate::field_values::FieldValues;
use crate::fields::{Field, Kind};
use crate::header::EventKey;

/// A line that spells a record.
#[derive(Clone, Copy)]
pub struct UsedLine<'a> {
    pub line: &'a [u8],
    pub key: EventKey,
    pub kind: Kind,
    pub(crate) values: FieldValues<'a>,
    pub ghost used: { text_class line.now ≡ Used key kind },
    pub(crate) ghost has_raw: { raw_part_of line.now ≡ Some values.raw.now },
}

impl<'a> UsedLine<'a> {
    /// The value of the first token of this name, with its quotes.
    pub fn field(&self, name: Field) -> Option<&'a [u8]>
        ensures { option_map (λ value. value.now) result
            ≡ field_in_line self.now.line.now (name_of name) }
    {
        self.values.field(name)
    }
}
