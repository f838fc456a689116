//! How much is kept of the flows, and what becomes of one of them.

/// Which flows are kept.
#[derive(Clone, Copy, Debug, PartialEq, Eq)]
pub enum Mode {
    /// Each flow is a row.
    Plain,
    /// Flows between the same two objects share a row if no flow into their source and none out of their target
    /// comes between them.
    Continuous,
    /// A flow is dropped if a flow between its two objects was kept, and since then no flow into its source.
    Full,
    /// A flow is dropped if each source that reaches its source reaches its target already.
    Source,
}

/// What becomes of a flow.
#[derive(Clone, Copy, Debug, PartialEq, Eq)]
pub enum Verdict {
    /// It isn't kept.
    Drop,
    /// It is a row of its own.
    Add,
    /// It is the last flow of a row that is there.
    Extend { row: u64 },
}
