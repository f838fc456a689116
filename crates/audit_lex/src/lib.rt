//! The lines of a log, and what each of them is.
//!
//! `LineCut` cuts lines out of pieces of any size. `lex` gives the class of a line, and borrows a used one with its
//! fields; `Tally` counts the classes. `scan` finds the fields and leaves it to their reader to see whether the line is
//! used. What a field's value spells is given by the readers, from `dec32` to `yesno`.
//! The definitions are functions of the bytes of a line, and the laws say of them how such lines are written.
#![tactic(auto)]

mod faults;
mod field_values;
mod fields;
mod fronts;
mod header;
mod last_stamp;
mod laws;
mod lexer;
mod line_cut;
mod near;
mod numbers;
mod places;
mod scanning;
mod slots;
mod table_places;
mod tally;
mod tokens;
mod used_line;
mod usual;
mod usual_run;
mod values;

pub use faults::LineFault;
pub use fields::{Field, Kind, Rule, ValueKind, field_name, rules};
pub use header::EventKey;
pub use last_stamp::LastStamp;
pub use laws::{
    headers_are_written, line_feeds_end_lines, lines_are_counted, lines_have_one_class, lines_stay,
    pieces_are_joined, settles_end_tails, tokens_are_written, used_lines_are_readable,
    used_lines_are_written, used_syscalls_are_readable,
};
pub use lexer::{Lexed, lex};
pub use line_cut::{Line, LineCut};
pub use numbers::{dec32, dec64, handle, hex32, hex64, signed};
pub use places::place_of;
pub use scanning::{Scanned, scan};
pub use slots::Slots;
pub use tally::Tally;
pub use used_line::UsedLine;
pub use values::{device, is_bytes, is_text, quoted, yesno};
