//! A group of records that wait for the others of their key.
ghost use Rattle.std.specs.Prelude.{◌≡◌, ◌-◌};
ghost use Rattle.std.specs.List.{list_any};
ghost use Rattle.record_join.specs.Keys.{is_call};
ghost use Rattle.record_join.specs.Events.{is_excess, text_of};

use crate::kinds::is_call;
use crate::records::Records;
use audit_lex::EventKey;
use audit_record::Record;
use flow_base::Limits;

/// The waiting records of a key, and whether its end has arrived.
#[derive(Drop)]
pub struct Group {
    pub closed: bool,
    pub records: Records,
}

/// A group, borrowed.
#[derive(Drop)]
pub struct GroupView<'a> {
    pub key: EventKey,
    pub closed: bool,
    pub records: &'a [Record],
}

/// Whether this many records are enough, or they have their call and this is another.
pub fn is_full(records: &[Record], limits: &Limits, item: &Record) -> bool
    ensures { result ≡ is_excess limits.now records.now item.now }
{
    records.len() >= limits.records || (is_call(item) && has_call(records))
}

/// Whether the record of a call is among these.
fn has_call(records: &[Record]) -> bool
    ensures { result ≡ list_any is_call records.now }
{
    records.iter().any(|item| is_call(item))
}

/// What is left of the waiting text without these records.
pub fn text_without(text: usize, records: &[Record]) -> usize
    ensures { result ≡ text - text_of records.now }
{
    let mut left = text;
    for item in records {
        left = left.saturating_sub(item.line.as_slice().len());
    }
    left
}
