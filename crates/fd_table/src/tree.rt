//! One tree of numbers by descriptor.

/// The ids of the first nodes: of a tree for the descriptors below 4,096, whose paths are short,
/// and of one for the others.
#[derive(Clone, Copy)]
pub struct Tree {
    pub low: usize,
    pub high: usize,
}

/// What one process holds: by descriptor the numbers of the objects, in one tree for the
/// descriptors that an exec leaves open, and in another for those that it closes.
#[derive(Clone, Copy)]
pub struct Holding {
    pub kept: Tree,
    pub marked: Tree,
}
