//! Calls, as the place of a line asks for them.

/// What a call takes.
#[derive(Clone, Copy, Debug, PartialEq, Eq)]
pub enum Takes {
    /// Nothing, or nothing that counts later than its entry.
    Nothing,
    /// What stands in a regular file, for which it doesn't wait.
    File,
    /// What it may have waited for.
    Awaited,
}

/// A call: the process that made it, what it takes, and if it is a fork the number of the child.
#[derive(Clone, Copy, Debug, PartialEq, Eq)]
pub struct Call {
    pub pid: u32,
    pub takes: Takes,
    pub child: Option<u32>,
}
