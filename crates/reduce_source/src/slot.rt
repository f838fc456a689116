//! A value in its place in a pool, and which sets have it.

/// A value in its place in a pool.
#[derive(Clone, Copy)]
pub struct Slot<T> {
    pub value: T,
    pub owner: Owner,
}

/// Which sets have a value.
#[derive(Clone, Copy)]
pub enum Owner {
    /// None. `next` is the id of another such value, or 0: these are the places to use again.
    Nobody { next: u32 },
    /// The set of this object, at one place.
    One { object: u32 },
    /// Perhaps more than one set, so the value is never changed again.
    Many,
}
