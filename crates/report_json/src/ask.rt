//! Question lines.
//!
//!     take N             the next N bytes of the log are taken
//!     settle             all waiting records are released
//!     back ID            the objects that reach this one
//!     back ID TIME       the same, by flows with times at most TIME
//!     fore ID            the objects that this one reaches
//!     fore ID TIME       the same, by flows with times at least TIME
//!     why ID ID          the flows by which the first object reaches the second
//!     why ID ID TIME     the same, by flows with times at most TIME
//!     find TEXT          the known objects that have exactly this name
//!     show ID            the key and the names of the object
//!     stat               the counts
//!     end                the questions end here
//!
//! N is 1 to 15 decimal digits. ID is 1 to 10, for a number of 32 bits. TIME is seconds: 1 to 15 digits, a point and
//! 3 digits. Words are parted by exactly one space. TEXT is the rest of the line, at least one byte, spaces and all.
//! Every other line is a bad question.
ghost use Rattle.std.specs.Prelude.{◌≡◌, ◌↔◌, IfOk, IfErr, List, ℕ, Some, option_map};
ghost use Rattle.report_json.specs.Asks.{IsAsk};
ghost use Rattle.report_json.specs.Reading.{ask_of, word_of, words_of, number_of, bounded_of, back_from, fore_from, why_of, find_of, show_of};
ghost use Rattle.report_json.specs.declared.ask.Ask.TheVariants as ask;

use crate::find_text::FindText;
use crate::numbers::{count, id, time};
use crate::parts::parts_at;
use flow_base::EntityId;
use reach_rows::Question;

/// What a line of the questions asks. A text to look for is borrowed from the line.
#[derive(Debug, PartialEq, Eq, Drop)]
pub enum Ask<'a> {
    /// The next bytes of the log, this many, are to be taken.
    Take(u64),
    /// All waiting records are to be released.
    Settle,
    Question(Question),
    /// The flows by which `from` reaches `to`, with times in milliseconds at most `until` if there is one.
    Why {
        from: EntityId,
        to: EntityId,
        until: Option<u64>,
    },
    /// The known objects that have exactly this name.
    Find(FindText<'a>),
    /// The key and the names of an object.
    Show(EntityId),
    /// The counts.
    Stat,
    /// The questions end here.
    End,
}

/// The line asks nothing.
#[derive(Clone, Copy, Debug, PartialEq, Eq)]
pub struct BadQuestion;

/// What a line asks. It takes no memory.
pub fn read_question(line: &[u8]) -> Result<Ask<'_>, BadQuestion>
    ensures ok { IfOk result (λ ask. IsAsk line.now ask) }
    ensures bad { IfErr result (λ _. (ask : Ask) → ¬ (IsAsk line.now ask)) }
{
    asked(line).ok_or(BadQuestion)
}

// What a line asks, if anything.
fn asked(line: &[u8]) -> Option<Ask<'_>>
    ensures { result ≡ ask_of line.now }
{
    match parts_at(b' ', line) {
        None => asked_by_word(line),
        Some((word, rest)) => asked_by_words(word, rest),
    }
}

// What a line of one word asks.
fn asked_by_word(word: &[u8]) -> Option<Ask<'_>>
    ensures { result ≡ word_of word.now }
{
    if word == b"settle".as_slice() {
        return Some(Ask::Settle);
    }
    if word == b"stat".as_slice() {
        return Some(Ask::Stat);
    }
    if word == b"end".as_slice() {
        return Some(Ask::End);
    }
    None
}

// What a line asks with more after its first word.
fn asked_by_words<'a>(word: &[u8], rest: &'a [u8]) -> Option<Ask<'a>>
    ensures { result ≡ words_of word.now rest.now }
{
    if word == b"take".as_slice() {
        return take(rest);
    }
    if word == b"back".as_slice() {
        return back(rest);
    }
    if word == b"fore".as_slice() {
        return fore(rest);
    }
    if word == b"why".as_slice() {
        return why(rest);
    }
    if word == b"find".as_slice() {
        return find(rest);
    }
    if word == b"show".as_slice() {
        return show(rest);
    }
    None
}

// The next bytes of the log.
fn take(text: &[u8]) -> Option<Ask<'_>>
    ensures { result ≡ option_map ask.Take (number_of 15 text.now) }
{
    Some(Ask::Take(count(text)?))
}

// The question what reaches an object.
fn back(text: &[u8]) -> Option<Ask<'_>>
    ensures { result ≡ option_map back_from (bounded_of text.now) }
{
    let (of, until) = id_and_time(text)?;
    Some(Ask::Question(Question::Back { of, until }))
}

// The question what an object reaches.
fn fore(text: &[u8]) -> Option<Ask<'_>>
    ensures { result ≡ option_map fore_from (bounded_of text.now) }
{
    let (of, since) = id_and_time(text)?;
    Some(Ask::Question(Question::Fore { of, since }))
}

// The question why one object reaches another.
fn why(text: &[u8]) -> Option<Ask<'_>>
    ensures { result ≡ why_of text.now }
{
    let (from, rest) = parts_at(b' ', text)?;
    let from = id(from)?;
    let (to, until) = id_and_time(rest)?;
    Some(Ask::Why { from, to, until })
}

// The question for a text.
fn find(text: &[u8]) -> Option<Ask<'_>>
    ensures { result ≡ find_of text.now }
{
    if text.is_empty() {
        return None;
    }
    Some(Ask::Find(FindText::new(text)))
}

// The question what an object is.
fn show(text: &[u8]) -> Option<Ask<'_>>
    ensures { result ≡ show_of text.now }
{
    Some(Ask::Show(id(text)?))
}

// An object, and a time if one follows.
fn id_and_time(text: &[u8]) -> Option<(EntityId, Option<u64>)>
    ensures { result ≡ bounded_of text.now }
{
    match parts_at(b' ', text) {
        None => Some((id(text)?, None)),
        Some((object, bound)) => Some((id(object)?, Some(time(bound)?))),
    }
}

/// A line asks at most one thing.
pub fn a_line_asks_one_thing()
    ensures { (line : List ℕ) (first second : Ask) → IsAsk line first → IsAsk line second
        → first ≡ second }
{}

/// What is found in a line is what the line asks.
pub fn what_is_found_is_asked()
    ensures { (line : List ℕ) (asked : Ask) → (ask_of line ≡ Some asked) ↔ IsAsk line asked }
{}
