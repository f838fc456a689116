//! The fields of a raw part.
//!
//! The raw part is read once, from its beginning. What its kind's table asks for is kept on the way, so that the search
//! for faults and the readers of a used line find it without reading the line again.
ghost use Rattle.std.specs.Prelude.{◌≡◌, ◌≢◌, ◌<◌, ℕ, [], false, None, length, drop, slice_index, option_map};
ghost use Rattle.std.specs.List.{slice_index_or};
ghost use Rattle.std.specs.Option.{option_to_list};
ghost use Rattle.audit_lex.specs.FieldTable.{name_of, slot_rules};
ghost use Rattle.audit_lex.specs.Slots.{slot_value, names_of, held, kept, AreFound};
ghost use Rattle.audit_lex.specs.Tokens.{token_at as token_there, token_len, value_in, field_of};

use crate::fields::{Field, Kind, field_name, slot_rules};
use crate::fronts::{front_of, past_others, past_spaces, past_token, token_at};
use crate::slots::{Found, Slots, value_of_slot};
use crate::table_places::home_of;
use crate::usual_run::{take_front, usual_run};

/// The values of a raw part's fields, with their quotes.
#[derive(Clone, Copy)]
pub(crate) struct FieldValues<'a> {
    pub(crate) raw: &'a [u8],
    pub(crate) kind: Kind,
    pub(crate) slots: Found<'a>,
    ghost found: { AreFound (slot_rules kind) raw.now (kept slots) },
}

impl<'a> FieldValues<'a> {
    /// The value of the first token of this name. A name that has no slot is looked for anew.
    pub(crate) fn field(&self, name: Field) -> Option<&'a [u8]>
        ensures { option_map (λ value. value.now) result
            ≡ field_of self.now.raw.now (name_of name) }
    {
        match home_of(name) {
            None => value_of_one(self.raw, name),
            Some((home, place)) => {
                if home == self.kind {
                    self.slots.value(place)
                } else {
                    value_of_one(self.raw, name)
                }
            }
        }
    }
}

/// The value of the first token of this name.
pub(crate) fn value_of_one(raw: &[u8], name: Field) -> Option<&[u8]>
    ensures { option_map (λ value. value.now) result ≡ field_of raw.now (name_of name) }
{
    value_of_slot(slot_of_one(raw, name))
}

// The value of the first token of this name, with the `=` before it. It is empty if there is no such token.
#[tactic(auto, using(crate::proofs::PastTokens::name_some))]
fn slot_of_one(raw: &[u8], name: Field) -> &[u8]
    ensures { slot_value result.now ≡ field_of raw.now (name_of name) }
{
    slot_named(raw, field_name(name))
}

// The same by the bytes of the name.
fn slot_named<'a>(raw: &'a [u8], name: &[u8]) -> &'a [u8]
    requires { 0 < length name.now }
    ensures { slot_value result.now ≡ field_of raw.now name.now }
{
    let mut rest = past_spaces(raw);
    while !rest.is_empty() {
        if may_be_named(rest, name) {
            let slot = slot_if_named(rest, name);
            if !slot.is_empty() {
                return slot;
            }
        }
        rest = past_spaces(past_others(past_token(rest), name[0]));
    }
    b""
}

// The value of the first token with the `=` before it, if it has this name. It stays a call, since few tokens may have
// the name.
#[inline(never)]
fn slot_if_named<'a>(text: &'a [u8], name: &[u8]) -> &'a [u8]
    requires some { 0 < length text.now }
    requires begins { slice_index text.now 0 ≢ 32 }
    ensures { slot_value result.now ≡ value_in (option_to_list (token_there text.now)) name.now }
{
    let token = token_at(text);
    if token.name != name {
        return b"";
    }
    token.value
}

// Whether the first token may have this name. Most tokens of other names begin with another byte, or have no `=` where
// this name ends.
#[tactic(auto, using(crate::proofs::PastTokens::too_short, crate::proofs::PastTokens::other_first))]
fn may_be_named(text: &[u8], name: &[u8]) -> bool
    requires some { 0 < length name.now }
    ensures no { result ≡ false
        → value_in (option_to_list (token_there text.now)) name.now ≡ None }
{
    if text.len() <= name.len() {
        return false;
    }
    if text[0] != name[0] {
        return false;
    }
    text[name.len()] == b'='
}

/// Fills empty slots with the value of the first token of each name that the kind's table asks for.
pub(crate) fn fill_slots<'a>(raw: &'a [u8], kind: Kind, slots: &mut Slots<'a>)
    requires { (place : ℕ) → slice_index_or (held slots.old.values) place None ≡ None }
    ensures { AreFound (slot_rules kind) raw.now (held slots.new.values) }
{
    let rules = slot_rules(kind);
    let mut run = usual_run(raw, kind, slots);
    while run.full + 1 < rules.len() && !run.rest.is_empty() {
        run = take_front(kind, front_of(kind, run.next, run.rest), run, slots);
    }
    // A full slot keeps its value, so once the last one alone is empty, no other token is asked for.
    if run.full + 1 == rules.len() {
        let last = slot_of_one(run.rest, field_at(kind, run.full));
        if !last.is_empty() {
            slots.offer(run.full, last);
        }
    }
}

// The field at this place of the kind's table.
#[tactic(auto, using(crate::proofs::SlotLemmas::name_at))]
fn field_at(kind: Kind, place: usize) -> Field
    requires { place < length (slot_rules kind) }
    ensures { name_of result ≡ slice_index_or (names_of (slot_rules kind)) place [] }
{
    slot_rules(kind)[place].field
}
