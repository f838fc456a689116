//! Source mode: a flow is dropped if each source that reaches its source reaches its target too.
//!
//! A source is an object whose first flow leaves it. Its number is its place among the sources in
//! the order of their first flows. The set of an object has a bit for each of these numbers, in
//! blocks of 512 bits. Sets share blocks: a union takes over the other set's block wherever that
//! has the bits of both. If neither has, it changes the set's own block if no other set has that,
//! and else makes a new one.
//!
//! The ids of 16 blocks stand in a page, and the set of an object is a list of ids of pages. Sets
//! share pages too: a union takes over the other set's page if that has the ids of the joined
//! blocks. If neither page has, it changes the set's own page if no other set has that, and else
//! makes a new one. So two objects of much the same sources have nothing of their own but the ids
//! of their pages, four bytes for each 8,192 sources.
#![tactic(auto)]

mod block;
mod blocks;
mod ids;
mod laws;
mod page;
mod pool;
mod pools;
mod sets;
mod shared;
mod slot;
mod sources;
mod standing;

pub use laws::source_mode_loses_other_starts;
pub use sets::SourceSets;
pub use sources::Sources;
