//! A place for each field of a table.
//!
//! One pass over a raw part fills the places, so a line is read once however many fields its table has.
ghost use Rattle.std.specs.Prelude.{◌≡◌, ◌<◌, ◌≤◌, ℕ, length, true, None, Some, is_some, option_map, slice_set};
ghost use Rattle.std.specs.List.{slice_index_or};
ghost use Rattle.std.specs.Option.{option_or};
ghost use Rattle.audit_lex.specs.Slots.{slot_value, held, held_for, kept};

use crate::fields::Field;
use crate::table_places::home_of;

/// How many fields the longest table has.
pub(crate) const MOST_FIELDS: usize = 11;

/// The values of a table's fields, in the table's order, each with the `=` before it. An empty slot holds nothing.
#[derive(Clone, Copy)]
pub struct Slots<'a> {
    pub(crate) values: [&'a [u8]; MOST_FIELDS],
    ghost size: { length values ≡ 11 },
}

impl<'a> Slots<'a> {
    /// Empty slots.
    pub fn new() -> Slots<'a>
        ensures { (place : ℕ) → slice_index_or (held result.values) place None ≡ None }
    {
        Slots {
            values: [b""; MOST_FIELDS],
        }
    }

    /// What was found for this field, if it has a slot in the table that the slots were filled for. It is inlined, so that
    /// the place of a field that is known when the program is compiled costs nothing.
    #[inline(always)]
    pub fn field(&self, name: Field) -> Option<&'a [u8]>
        ensures { option_map (λ value. value.now) result ≡ held_for (held self.now.values) name }
    {
        match home_of(name) {
            Some((_, place)) => self.value(place),
            None => None,
        }
    }

    /// What was found for the field at this place of the table.
    #[inline(always)]
    pub(crate) fn value(&self, place: usize) -> Option<&'a [u8]>
        requires { place < 11 }
        ensures { option_map (λ value. value.now) result
            ≡ slice_index_or (held self.now.values) place None }
    {
        value_of_slot(self.values[place])
    }

    /// Fills the slot if it is empty.
    pub(crate) fn offer(&mut self, place: usize, value: &'a [u8])
        requires place { place < 11 }
        requires some { 0 < length value.now }
        ensures { held self.new.values
            ≡ slice_set (held self.old.values) place
            (option_or (slice_index_or (held self.old.values) place None) (slot_value value.now)) }
    {
        if self.values[place].is_empty() {
            self.values[place] = value;
        }
    }

    /// The slots as a used line keeps them. It is inlined, since else they are copied twice for each line.
    #[inline(always)]
    pub(crate) fn found(&self) -> Found<'a>
        ensures { kept result ≡ held self.now.values }
    {
        Found {
            first: self.values[0],
            second: self.values[1],
            third: self.values[2],
            fourth: self.values[3],
            fifth: self.values[4],
            sixth: self.values[5],
            seventh: self.values[6],
            eighth: self.values[7],
            ninth: self.values[8],
            tenth: self.values[9],
            eleventh: self.values[10],
        }
    }
}

/// The slots of a used line, in the table's order. They are fields, since an enum holds no array of slices.
#[derive(Clone, Copy)]
pub(crate) struct Found<'a> {
    first: &'a [u8],
    second: &'a [u8],
    third: &'a [u8],
    fourth: &'a [u8],
    fifth: &'a [u8],
    sixth: &'a [u8],
    seventh: &'a [u8],
    eighth: &'a [u8],
    ninth: &'a [u8],
    tenth: &'a [u8],
    eleventh: &'a [u8],
}

impl<'a> Found<'a> {
    /// What was found for the field at this place of the table.
    pub(crate) fn value(&self, place: usize) -> Option<&'a [u8]>
        requires { place < 11 }
        ensures { option_map (λ value. value.now) result
            ≡ slice_index_or (kept self.now) place None }
    {
        value_of_slot(self.slot(place))
    }

    // The slot at this place.
    fn slot(&self, place: usize) -> &'a [u8]
        requires { place < 11 }
        ensures { slice_index_or (kept self.now) place None ≡ slot_value result.now }
    {
        match place {
            0 => self.first,
            1 => self.second,
            2 => self.third,
            3 => self.fourth,
            4 => self.fifth,
            5 => self.sixth,
            6 => self.seventh,
            7 => self.eighth,
            8 => self.ninth,
            9 => self.tenth,
            _ => self.eleventh,
        }
    }
}

/// The value of a slot, if it holds one.
#[inline(always)]
pub(crate) fn value_of_slot(slot: &[u8]) -> Option<&[u8]>
    ensures { option_map (λ value. value.now) result ≡ slot_value slot.now }
{
    match slot {
        [_, value @ ..] => Some(value),
        [] => None,
    }
}
