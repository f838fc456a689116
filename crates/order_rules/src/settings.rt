//! Which rules hold.

/// Which rules hold.
#[derive(Clone, Copy, Debug, PartialEq, Eq)]
pub struct Settings {
    /// Names that are relative to a directory's descriptor have that directory.
    pub names: bool,
    /// An open of a descriptor by its name is a copy of it.
    pub own: bool,
    /// Both ends of a connection within this machine have one address.
    pub join: bool,
    /// If they do, each connection has an address of its own.
    pub apart: bool,
}
