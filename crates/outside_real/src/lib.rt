//! The real outside: standard input, standard output, files that are read, and a file that is a store.
//!
//! No contract can say what a terminal, a pipe or a file gives, so these aren't observable to the program.
//! But each hands on what its reader, writer or medium answered: if the bytes of that are known it gives exactly those, a
//! failed call is an error and is counted, and what can't be opened is a source or a disk whose every call fails.
#![tactic(auto)]

mod files;
mod medium;
mod reading;
mod storing;
#[cfg(test)]
mod tests;
mod tries;
mod writing;

pub use files::{open_log, open_or_make_store, open_store};
pub use medium::Medium;
pub use reading::Reading;
pub use storing::Storing;
pub use tries::TRIES;
pub use writing::Writing;
