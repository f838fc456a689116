//! Events, and what was done with a record.

use crate::records::Records;
use audit_lex::EventKey;
use audit_record::Record;

/// What was done with a record: it waits in its group, it closed its group if that waits, or it was dropped.
#[derive(Clone, Copy, Debug, PartialEq, Eq)]
pub enum Taken {
    Held,
    Closed,
    Excess,
}

/// The records of a key in the order of arrival. `ms` is the effective time, which never falls from an event to the
/// next; the event is late if an event of a greater key was released before.
#[derive(Drop)]
pub struct Event {
    pub key: EventKey,
    pub ms: u64,
    pub late: bool,
    pub records: Records,
}

/// An event, borrowed.
#[derive(Drop)]
pub struct EventView<'a> {
    pub key: EventKey,
    pub ms: u64,
    pub late: bool,
    pub records: &'a [Record],
}
