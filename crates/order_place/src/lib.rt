//! The place of a line: the time at which the effect of its event counts.
//!
//! The time that an event bears is that of its call's entry, and its records are written when the call returns. What a
//! call gives (a write, a fork, an exit) counts at its entry. What it takes (a read, a receive, an accept) it may have
//! waited for, so it counts at the greatest entry that was seen when its record was written; but a read of a regular file,
//! which doesn't wait, at most a tick after its entry. The calls of a process keep their order. Of what counts at one time a
//! fork goes first, right after its process's call before it, and the child's calls count no earlier. All lines of an event
//! have the place of its first line.
#![tactic(auto)]

mod clock;
mod events;
mod laws;
mod node;
mod nodes;
mod places;
mod slot;

pub use clock::{Clock, WINDOW};
pub use laws::{
    calls_of_a_process_keep_their_order, forks_go_early, lines_count_after_their_entry,
    lines_of_an_event_count_together, places_look_back, reads_of_files_do_not_wait,
    the_clock_is_shared,
};
pub use nodes::Nodes;
pub use places::{Place, Places, is_boot, node_of, rewritten};
