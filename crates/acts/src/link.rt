//! What an act links.

use flow_base::{How, Key};

/// The two ends of a flow by their keys, and how it comes about.
#[derive(Drop)]
pub struct Link {
    pub from: Key,
    pub to: Key,
    pub how: How,
}
