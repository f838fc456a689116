//! The versions of objects over a list of kept flows.
//!
//! An object begins at version 0. A flow out of it seals its current version, and a flow into a sealed object opens the
//! next one. So a flow from one object to another leaves the current version of its source exactly where no flow into
//! that source came after it. The tables keep the current version of each object and, for each pair, the version that
//! the last flow of the pair left. So each kept flow costs a fixed number of look-ups.
#![tactic(auto)]

mod laws;
mod version;
mod versions;

pub use laws::links_are_those_of_full_mode;
pub use versions::Versions;
