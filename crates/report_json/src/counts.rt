//! What `stat` counts, and its value in JSON.
ghost use Rattle.std.specs.Prelude.{◌≡◌, IfOk, OnOk, map};
ghost use Rattle.serde_json.specs.View.{view, members_view};
ghost use Rattle.report_json.specs.Replies.{bad_data, bads_data, numbers_of, with_numbers, stat_data};

use flow_base::{Bad, List};
use serde_json::{Map, Value, json};
use std::alloc::{AllocError, Global};

/// The counts over what was taken of the log.
#[derive(Drop)]
pub struct Counts {
    /// Lines of no bytes.
    pub blank: u64,
    /// Bytes.
    pub bytes: u64,
    /// Events that were released.
    pub events: u64,
    /// Records that were dropped, since their event had as many as it may, or a system call already.
    pub excess: u64,
    /// Flows.
    pub flows: u64,
    /// Rows kept in place of the flows.
    pub kept: u64,
    /// Known objects.
    pub known: u64,
    /// Events that were released after one with a greater key.
    pub late: u64,
    /// Lines: blank, malformed, other and used.
    pub lines: u64,
    /// Lines that spell no record.
    pub malformed: u64,
    /// The first of these, with their faults.
    pub malformed_lines: List<Bad>,
    /// Lines of record types that aren't used.
    pub other: u64,
    /// Events of system calls that aren't mapped.
    pub unmapped: u64,
    /// Lines that were used.
    pub used: u64,
    /// Events that wait for their release.
    pub waiting: u64,
}

// The value of the counts.
pub fn stat_value(alloc: Global, counts: &Counts) -> Result<Value, AllocError>
    ensures { IfOk result (λ value. view value ≡ stat_data counts.now) }
{
    let malformed_lines = bads_value(alloc, counts.malformed_lines.as_slice())?;
    let mut members = Map::new(alloc);
    put_counts(alloc, &mut members, &named_counts(counts))?;
    serde_json::put(&mut members, alloc, "malformed_lines", malformed_lines)?;
    Ok(Value::Object(members))
}

// The counts that are numbers, with their keys.
fn named_counts(counts: &Counts) -> [(&'static str, u64); 14]
    ensures { map (λ named. (named.0.now, named.1)) result ≡ numbers_of counts.now }
{
    [
        ("blank", counts.blank),
        ("bytes", counts.bytes),
        ("events", counts.events),
        ("excess", counts.excess),
        ("flows", counts.flows),
        ("kept", counts.kept),
        ("known", counts.known),
        ("late", counts.late),
        ("lines", counts.lines),
        ("malformed", counts.malformed),
        ("other", counts.other),
        ("unmapped", counts.unmapped),
        ("used", counts.used),
        ("waiting", counts.waiting),
    ]
}

// Puts these counts under their keys.
fn put_counts(
    alloc: Global,
    members: &mut Map<String, Value>,
    counts: &[(&str, u64)],
) -> Result<(), AllocError>
    ensures { OnOk result (members_view members.new.entries
        ≡ with_numbers (members_view members.old.entries) (map (λ named. (named.0.now, named.1)) counts.now)) }
{
    for (key, count) in counts {
        serde_json::put(members, alloc, key, Value::from(*count))?;
    }
    Ok(())
}

// Malformed lines, each as its number and its fault.
fn bads_value(alloc: Global, bads: &[Bad]) -> Result<Value, AllocError>
    ensures { IfOk result (λ value. view value ≡ bads_data bads.now) }
{
    let mut list = Vec::new(alloc);
    for bad in bads {
        list.push(bad_value(alloc, *bad)?)?;
    }
    Ok(Value::Array(list))
}

fn bad_value(alloc: Global, bad: Bad) -> Result<Value, AllocError>
    ensures { IfOk result (λ value. view value ≡ bad_data bad) }
{
    json!(in alloc; [bad.line, bad.fault])
}
