//! Acts: what an event of the log does to processes, descriptors and files.
//!
//! `specs/` says what a list of acts means, by looking back through it from its end: which life a
//! pid is in, what a descriptor holds, which address a socket has, which names a key has, and which
//! flows the acts make.
#![tactic(auto)]

mod act;
mod held;
mod laws;
mod link;
mod look_back;

pub use act::{Act, FileRef, Opens, Taken, Thing};
pub use held::{Held, Object, copy_key};
pub use laws::{
    each_beginning_is_an_act, flows_of_acts_are_lawful, forks_hand_on, live_pids_were_begun,
    only_live_pids_hold, pids_are_linked_when_begun_or_claimed, pids_await_the_named_parent,
    sees_hand_on, sockets_are_of_acts, unopened_acts_hold_nothing,
};
pub use link::Link;
pub use look_back::{Plain, Standing, is_live, link_of, stands_after};
