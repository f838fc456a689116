//! Acts of events: what each event of a host did to processes, descriptors and files.
//!
//! An event has at most one record of a call, and beside it records of paths, of the working directory, of a socket's
//! address, of a pair of descriptors and of a mapping. The call's row in the table of calls says what it did, and the
//! other records say to what. `event_acts` in specs/ is this as a function of the event's records alone: no event before
//! it counts.
#![tactic(auto)]

mod answers;
mod calls;
mod descriptors;
mod event;
mod files;
mod laws;
mod open;
mod processes;
mod records;
mod transfers;

pub use acts::{Act, FileRef, Opens, Thing};
pub use calls::{Call, call_of};
pub use event::{acts, event_call, is_unmapped};
pub use laws::{
    acts_are_few, acts_are_of_one_event, acts_are_of_the_caller, acts_of_events_are_admitted,
    event_acts_are_admitted, opens_descriptors, other_calls_open_nothing,
};
