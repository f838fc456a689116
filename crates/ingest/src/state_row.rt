//! The State of a commit: what the parts of an engine count and hold, as a store says it.
ghost use Rattle.std.specs.Prelude.{◌≡◌, IfOk};
ghost use Rattle.row_codec.specs.Rows.{CanBeState};
ghost use Rattle.stored.specs.Moment.{is_there, ms_or_zero, serial_or_zero, state_at};
ghost use Rattle.stored.specs.Moment.{time_or_zero};
ghost use Rattle.ingest.specs.StandsFor.{WhereRead};
ghost use Rattle.ingest.specs.Storing.{moment_of};

use crate::event_flows::EventFlows;
use crate::line_reader::{LineReader, copy_bad};
use audit_lex::EventKey;
use flow_base::{Bytes, NoMemory};
use reach_rows::{Keep, Reducer};
use row_codec::StateRow;
use std::alloc::Global;

/// The State of what the reader and the joined parts stand for, with this many bytes of this part of a log.
pub fn state_of<R: Reducer, K: Keep>(
    alloc: Global,
    reader: &LineReader,
    joined: &EventFlows<R, K>,
    part: u64,
) -> Result<StateRow, NoMemory>
    ensures state { IfOk result (λ state. WhereRead reader.now joined.now (λ limits h.
        state ≡ state_at (moment_of limits h part))) }
    ensures spelled { IfOk result CanBeState }
{
    let tally = reader.tally();
    let counts = joined.counts();
    let clock = joined.clock();
    let tail = Bytes::from_slice(alloc, reader.tail())?;
    let bad = copy_bad(alloc, tally.bad.as_slice())?;
    Ok(StateRow {
        taken: reader.bytes(),
        part,
        lines: reader.lines(),
        used: tally.used,
        other: tally.other,
        blank: tally.blank,
        malformed: tally.malformed,
        excess: joined.excess(),
        events: counts.events,
        late: counts.late,
        unmapped: counts.unmapped,
        flows: joined.flows(),
        acts: joined.acts(),
        seen: clock.seen.is_some(),
        greatest: time_of(clock.seen),
        released: clock.released.is_some(),
        released_ms: ms_of(clock.released),
        released_serial: serial_of(clock.released),
        effective: clock.effective,
        long: reader.is_long(),
        tail,
        bad,
    })
}

// A time, or 0 if there is none.
fn time_of(ms: Option<u64>) -> u64
    ensures { result ≡ time_or_zero ms }
{
    match ms {
        Some(ms) => ms,
        None => 0,
    }
}

// The time of a key, or 0.
fn ms_of(key: Option<EventKey>) -> u64
    ensures { result ≡ ms_or_zero key }
{
    match key {
        Some(key) => key.ms,
        None => 0,
    }
}

// The serial of a key, or 0.
fn serial_of(key: Option<EventKey>) -> u32
    ensures { result ≡ serial_or_zero key }
{
    match key {
        Some(key) => key.serial,
        None => 0,
    }
}
