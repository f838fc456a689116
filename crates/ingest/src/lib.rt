//! The engine over a log: lines in, events joined, flows followed, questions answered at any time.
//!
//! It takes a log piece by piece, in whatever pieces it comes. A piece's lines are cut, classed and counted; the record
//! of a used line goes to the joiner; and while the joiner has a ripe event, the event is prepared, its flows are taken in
//! as the rows that a mode keeps, and it is counted and followed. So each moment of the engine stands for the bytes and
//! settles so far, and specs/ says what each part then holds by looking back over all of them. An event that is refused
//! has changed nothing: it is owed, and tried again by the next call.
#![tactic(auto)]

mod ask_fault;
mod commit;
mod engine;
mod event_counts;
mod event_flows;
mod laws;
mod line_reader;
mod replies;
mod restoring;
mod spellable;
mod state_row;
mod stop;
mod store_laws;
mod waiting;
mod waiting_rows;

pub use ask_fault::AskFault;
pub use engine::Ingest;
pub use laws::{
    fronts_fit, lines_spell_records, parts_are_counted, stops_stay, what_fits_never_stops,
    what_owes_nothing_stands, what_stands_owes_nothing,
};
pub use restoring::{RestoreFault, Unrestored};
pub use stop::Stop;
pub use store_laws::{
    a_store_of_a_history_is_no_bad_store, histories_may_be_committed, stores_follow_histories,
    stores_say_what_was_left, what_can_commit_still_can, what_is_saved_stays_saved,
    what_waits_is_sound,
};
pub use waiting::restore_join;
