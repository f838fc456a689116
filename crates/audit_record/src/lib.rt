//! The records that used lines spell.
//!
//! A line is a header and a raw part of tokens; a record is the header's key, the line itself, and what the fields
//! of its kind say: the first token of a name counts. `Spells` in specs/ is this relation between a line and a
//! record, over the whole line; `read_line` gives the record that a line spells, if it is a used one. It writes it over an
//! earlier record, whose memory it uses again.
#![tactic(auto)]

mod bodies;
mod fields;
mod laws;
mod read;
mod texts;
mod types;

pub use laws::one_record_a_line;
pub use read::{read_line, read_record};
pub use types::{Body, NameKind, PathItem, Read, Record, Syscall};
