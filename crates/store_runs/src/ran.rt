//! How a run over a store ended.
use dialogue::StoreHalt;

/// How a run over a store ended, and the disk of the store.
#[derive(Drop)]
pub struct Ran<D> {
    pub outcome: Result<(), StoreHalt>,
    pub disk: D,
}
