//! Ranges of a disk's bytes that are read through a cache of its blocks.
//!
//! The bytes of a disk are cut into blocks of 4,096 bytes, the first at place 0. The cache holds those
//! that were read lately, but only blocks of which no byte changes any more: each ends at or before the
//! place up to which the disk's bytes are firm, the last gate of its log. So no commit can make
//! a held block untrue.
#![tactic(auto)]

mod blocks;
mod cache;
mod laws;

pub use cache::BlockCache;
pub use laws::caches_outlive_commits;
