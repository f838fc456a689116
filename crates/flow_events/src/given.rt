//! Names that acts give to keys.

use flow_base::{Bytes, Key};

/// A name that an act gives to a key.
#[derive(Drop)]
pub struct Given {
    pub key: Key,
    pub text: Bytes,
}
