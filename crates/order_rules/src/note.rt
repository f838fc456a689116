//! What is noted of a line when it comes, so that it isn't read again when it is written.
ghost use Rattle.std.specs.Prelude.{◌≡◌, ℕ, List, Some, option_map};
ghost use Rattle.order_calls.specs.Reads.{IsRead};
ghost use Rattle.order_rules.specs.Notes.{IsNoted};

use crate::call::Call;
use crate::reading::call_in;
use audit_lex::{EventKey, Kind, UsedLine};

/// That a line is the record of a call, of this event, and the call if it can be read.
#[derive(Clone, Copy)]
pub struct Note {
    pub key: EventKey,
    pub call: Option<Call>,
}

/// What is noted of a line that may have been read.
pub fn note_of(used: &Option<UsedLine<'_>>) -> Option<Note>
    ensures { (line : List ℕ) → IsRead line used.now → IsNoted result line }
{
    match used {
        Some(used) => note_in(used),
        None => None,
    }
}

// What is noted of a used line: the call, if it is the record of one.
fn note_in(used: &UsedLine<'_>) -> Option<Note>
    ensures { (line : List ℕ) → IsRead line (Some used.now) → IsNoted result line }
{
    match used.kind {
        Kind::Syscall => Some(Note {
            key: used.key,
            call: call_in(used),
        }),
        _ => None,
    }
}
