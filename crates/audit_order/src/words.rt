//! The words of the program, and what they ask for.
//!
//!     audit_order [--no-join] [--shared-connections] [--no-names] [--no-compat] [--no-descriptors] [--report] [--window SECONDS] [--memory MB]
//!     audit_order --undo
ghost use Rattle.std.specs.Prelude.{◌≡◌, map, option_map, string_bytes};
ghost use Rattle.audit_order.specs.Words.{job_of, is_undo, order_of, with_window, with_memory, has_word, switch_value, number_first, is_word};

use crate::bounds::{Bounds, MEGABYTES, SECONDS};
use crate::switches::Switches;
use audit_lex::dec32;

/// What the words ask for.
#[derive(Clone, Copy, Debug, PartialEq, Eq)]
pub enum Job {
    /// Write the lines of a log in the order of effects, within these bounds and rewritten as these switches allow, and report
    /// what was done if that is asked for.
    Order {
        bounds: Bounds,
        switches: Switches,
        report: bool,
    },
    /// Write the lines of an ordered log as they were before they were changed.
    Undo,
}

/// The job that the words name, without the program's own name.
pub fn job_of(words: &[String]) -> Option<Job>
    ensures { result ≡ job_of (map string_bytes words.now) }
{
    if is_undo(words) {
        return Some(Job::Undo);
    }
    order_of(words)
}

// Whether the words ask that a log is undone.
fn is_undo(words: &[String]) -> bool
    ensures { result ≡ is_undo (map string_bytes words.now) }
{
    match words {
        [word] => is_word(word, b"--undo"),
        _ => false,
    }
}

// A job that orders.
fn order_of(words: &[String]) -> Option<Job>
    ensures { result ≡ order_of (map string_bytes words.now) }
{
    let (no_join, rest) = has_word(b"--no-join", words);
    let (shared, rest) = has_word(b"--shared-connections", rest);
    let (no_names, rest) = has_word(b"--no-names", rest);
    let (no_compat, rest) = has_word(b"--no-compat", rest);
    let (no_own, rest) = has_word(b"--no-descriptors", rest);
    let (report, rest) = has_word(b"--report", rest);
    let switches = Switches {
        join: !no_join,
        apart: !shared,
        names: !no_names,
        own: !no_own,
        compat: !no_compat,
    };
    with_window(switches, report, rest)
}

// A job that orders, by the words from the switch of the window on.
fn with_window(switches: Switches, report: bool, words: &[String]) -> Option<Job>
    ensures { result ≡ with_window switches report (map string_bytes words.now) }
{
    let (seconds, rest) = switch_value(b"--window", SECONDS, words)?;
    with_memory(switches, report, seconds, rest)
}

// A job that orders, by the words from the switch of the memory on.
fn with_memory(switches: Switches, report: bool, seconds: u32, words: &[String]) -> Option<Job>
    ensures { result ≡ with_memory switches report (seconds, map string_bytes words.now) }
{
    let (megabytes, rest) = switch_value(b"--memory", MEGABYTES, words)?;
    if !rest.is_empty() {
        return None;
    }
    let bounds = Bounds::of(seconds, megabytes);
    Some(Job::Order {
        bounds,
        switches,
        report,
    })
}

// Whether the words begin with this one, and the words after it.
fn has_word<'a>(name: &[u8], words: &'a [String]) -> (bool, &'a [String])
    ensures { (result.0, map string_bytes result.1.now)
        ≡ has_word name.now (map string_bytes words.now) }
{
    match words {
        [word, rest @ ..] if is_word(word, name) => (true, rest),
        _ => (false, words),
    }
}

// The number after a switch, if the words begin with the switch, else the usual one; and the words after that.
fn switch_value<'a>(name: &[u8], usual: u32, words: &'a [String]) -> Option<(u32, &'a [String])>
    ensures { option_map (λ found. (found.0, map string_bytes found.1.now)) result
        ≡ switch_value name.now usual (map string_bytes words.now) }
{
    match words {
        [word, rest @ ..] if is_word(word, name) => number_first(rest),
        _ => Some((usual, words)),
    }
}

// The number that the first word spells, and the words after that.
fn number_first(words: &[String]) -> Option<(u32, &[String])>
    ensures { option_map (λ found. (found.0, map string_bytes found.1.now)) result
        ≡ number_first (map string_bytes words.now) }
{
    match words {
        [] => None,
        [word, rest @ ..] => {
            let number = dec32(word.as_str().as_bytes())?;
            Some((number, rest))
        }
    }
}

// Whether a word is this one.
fn is_word(word: &String, text: &[u8]) -> bool
    ensures { result ≡ is_word (string_bytes word.now) text.now }
{
    word.as_str().as_bytes() == text
}
