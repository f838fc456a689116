//! What a text begins with: a token, and what its kind's table makes of it.
ghost use Rattle.std.specs.Prelude.{◌≡◌, ◌≢◌, ◌<◌, ◌≤◌, ◌↔◌, ℕ, [], Some, length, drop, slice_index, IfSome};
ghost use Rattle.std.specs.Bool.{IsTrue};
ghost use Rattle.std.specs.List.{slice_index_or};
ghost use Rattle.std.specs.Option.{option_to_list};
ghost use Rattle.audit_lex.specs.Fronts.{token_seen, IsFrontOf, IsUsual};
ghost use Rattle.audit_lex.specs.FieldTable.{slot_rules};
ghost use Rattle.audit_lex.specs.Slots.{names_of};
ghost use Rattle.audit_lex.specs.Stops.{HasTheSame};
ghost use Rattle.audit_lex.specs.Tokens.{token_at as token_there, token_len, tokens_of, value_in};

use crate::fields::Kind;
use crate::places::{last_space, place_of_space_or_quote, place_of_stop};
use crate::table_places::place_named;
use crate::tokens::{len_of_name, len_of_value};
use crate::usual::{Usual, number_behind, usual_name};

/// A token, and the text after it. If it has no name, its value is empty.
#[derive(Clone, Copy)]
pub(crate) struct Token<'a> {
    pub(crate) name: &'a [u8],
    /// The `=` and the value.
    pub(crate) value: &'a [u8],
    pub(crate) rest: &'a [u8],
}

/// The first token of a text as a table takes it, and the text after it.
#[derive(Clone, Copy)]
pub(crate) struct Front<'a> {
    /// The place at which the table asks for it.
    pub(crate) place: Option<usize>,
    /// The `=` and the value.
    pub(crate) value: &'a [u8],
    pub(crate) rest: &'a [u8],
    /// The number of the name that usually comes next.
    pub(crate) next: usize,
}

/// The text from its first byte that is no space.
pub(crate) fn past_spaces(text: &[u8]) -> &[u8]
    ensures same { tokens_of result.now ≡ tokens_of text.now }
    ensures begins { 0 < length result.now → slice_index result.now 0 ≢ 32 }
    ensures shorter { length result.now ≤ length text.now }
{
    // Mostly one space stands there.
    match text {
        [b' ', rest @ ..] => past_more_spaces(rest),
        _ => past_more_spaces(text),
    }
}

// The same, where mostly no space is left.
fn past_more_spaces(text: &[u8]) -> &[u8]
    ensures same { tokens_of result.now ≡ tokens_of text.now }
    ensures begins { 0 < length result.now → slice_index result.now 0 ≢ 32 }
    ensures shorter { length result.now ≤ length text.now }
{
    for place in 0..text.len() {
        if text[place] != b' ' {
            return &text[place..];
        }
    }
    b""
}

/// The first token of a text that doesn't begin with a space.
pub(crate) fn token_at(text: &[u8]) -> Token<'_>
    requires some { 0 < length text.now }
    requires begins { slice_index text.now 0 ≢ 32 }
    ensures token { token_seen result ≡ token_there text.now }
    ensures rest { result.rest.now ≡ drop (token_len text.now) text.now }
    ensures shorter { length result.rest.now < length text.now }
{
    let len = len_of_name(text);
    let value = &text[len..];
    if !is_value(value) {
        return Token {
            name: b"",
            value: b"",
            rest: value,
        };
    }
    let end = 1 + len_of_value(&value[1..]);
    Token {
        name: &text[..len],
        value: &value[..end],
        rest: &value[end..],
    }
}

// Whether an `=` stands there.
fn is_value(text: &[u8]) -> bool
    ensures { IsTrue result ↔ (slice_index text.now 0 ≡ 61) }
{
    match text {
        [first, ..] => *first == b'=',
        [] => false,
    }
}

/// The text after its first token. One without a quote ends before the next space, whatever its name.
pub(crate) fn past_token(text: &[u8]) -> &[u8]
    requires some { 0 < length text.now }
    requires begins { slice_index text.now 0 ≢ 32 }
    ensures rest { result.now ≡ drop (token_len text.now) text.now }
    ensures shorter { length result.now < length text.now }
{
    let end = place_of_space_or_quote(text);
    if end == text.len() || text[end] == b' ' {
        return &text[end..];
    }
    past_any_token(text)
}

/// The text after tokens whose names don't begin with this byte, as far as one search passes over them. If the text
/// doesn't begin with a space, it is returned whole.
pub(crate) fn past_others(text: &[u8], first: u8) -> &[u8]
    ensures same { HasTheSame first text.now result.now }
    ensures shorter { length result.now ≤ length text.now }
{
    if text.is_empty() || text[0] != b' ' {
        return text;
    }
    let stop = place_of_stop(first, text);
    &text[last_space(text, stop)..]
}

// The text after any first token. It stays a call, since else each token that is passed over makes room for a token's parts.
#[inline(never)]
fn past_any_token(text: &[u8]) -> &[u8]
    requires some { 0 < length text.now }
    requires begins { slice_index text.now 0 ≢ 32 }
    ensures rest { result.now ≡ drop (token_len text.now) text.now }
    ensures shorter { length result.now < length text.now }
{
    token_at(text).rest
}

/// What a text begins with that doesn't begin with a space. The name that usually comes next is tried first.
pub(crate) fn front_of(kind: Kind, next: usize, text: &[u8]) -> Front<'_>
    requires some { 0 < length text.now }
    requires begins { slice_index text.now 0 ≢ 32 }
    ensures { IsFrontOf kind text.now result }
{
    match usual_name(kind, next, text) {
        Some(usual) => front_named(kind, usual, next, text),
        None => {
            let token = token_at(text);
            let place = place_of_token(kind, token);
            Front {
                place,
                value: token.value,
                rest: token.rest,
                next: place.map_or(next, |place| number_behind(kind, place)),
            }
        }
    }
}

/// The same where the text begins with the name of this number.
#[inline(always)]
pub(crate) fn front_named(kind: Kind, usual: Usual, number: usize, text: &[u8]) -> Front<'_>
    requires { IsUsual kind text.now usual }
    ensures { IsFrontOf kind text.now result }
{
    let value = &text[usual.len..];
    let end = 1 + len_of_value(&value[1..]);
    Front {
        place: usual.place,
        value: &value[..end],
        rest: &value[end..],
        next: number.wrapping_add(1),
    }
}

// The place at which the kind's table asks for the token.
fn place_of_token(kind: Kind, token: Token<'_>) -> Option<usize>
    ensures place { (place : ℕ) → place < length (slot_rules kind)
        → (result ≡ Some place) ↔ ((0 < length token.entry.value.now) × (slice_index_or (names_of (slot_rules kind)) place [] ≡ token.entry.name.now)) }
    ensures within { IfSome result (λ place. place < length (slot_rules kind)) }
    ensures value { IfSome result (λ place. 0 < length token.entry.value.now) }
{
    if token.value.is_empty() {
        return None;
    }
    place_named(kind, token.name)
}
