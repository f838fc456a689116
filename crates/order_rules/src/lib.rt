//! What of a log is written otherwise, so that a reader sees what really met.
//!
//!     type=SYSCALL msg=audit(1780992001.300:107): arch=c000003e syscall=263 success=yes exit=0 a0=5 ..
//!     type=CWD msg=audit(1780992001.300:107): cwd="/home/alice"        becomes cwd="/srv", if the descriptor 5 is /srv
//!
//! - A name that is relative to a directory's descriptor is relative to that directory, and not to the working directory.
//! - An open of a descriptor by its name, such as /dev/fd/63, is a copy of the descriptor.
//! - A peer of this machine that was accepted has the address that it has called, as the record of its connect has.
//! - Or each connection has a name of its own at both ends, an address of family 1 as 127.0.0.1:4444#1780992001300:107.
//! - A peer of this machine from which a datagram was received, or to which one was sent in answer, has the address that it has called.
//!
//! What a descriptor is, is known by the lines before, in the order in which they are written: the lines of an event stand
//! together there. Each node has its own processes.
#![tactic(auto)]

mod acts;
mod address;
mod call;
mod copies;
mod doors;
mod early;
mod fds;
mod hearing;
mod held;
mod laws;
mod note;
mod quiet;
mod reading;
mod rewrite;
mod rules;
mod settings;
mod table;
mod target;
#[cfg(test)]
mod tests;
mod under;

pub use call::{Act, Call};
pub use laws::{nothing_changes_without_a_rule, rewrites_fit_their_lines};
pub use note::{Note, note_of};
pub use reading::call_in;
pub use rules::Rules;
pub use settings::Settings;
