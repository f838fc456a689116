//! The State row, read and written.
ghost use Rattle.std.specs.Prelude.{◌≡◌, ◌++◌, OnOk};
ghost use Rattle.row_codec.specs.Parsing.{GivesIfMemory};
ghost use Rattle.row_codec.specs.Rows.{CanBeState};
ghost use Rattle.row_codec.specs.State as State;
ghost use Rattle.row_codec.specs.State.{state_at, FitsState};

use crate::clock::{Clock, put_clock, read_clock};
use crate::counts::{Counts, put_counts, read_counts};
use crate::fault::RowRead;
use crate::tail::{Lines, put_tail, read_tail};
use flow_base::{Bad, Bytes, List, NoMemory};
use std::alloc::Global;

/// The counts, the clock and the tail of a history.
#[derive(Drop)]
pub struct StateRow {
    pub taken: u64,
    pub part: u64,
    pub lines: u64,
    pub used: u64,
    pub other: u64,
    pub blank: u64,
    pub malformed: u64,
    pub excess: u64,
    pub events: u64,
    pub late: u64,
    pub unmapped: u64,
    pub flows: u64,
    pub acts: u64,
    pub seen: bool,
    pub greatest: u64,
    pub released: bool,
    pub released_ms: u64,
    pub released_serial: u32,
    pub effective: u64,
    pub long: bool,
    pub tail: Bytes,
    pub bad: List<Bad>,
}

/// The fields of a State row.
pub fn state(alloc: Global, bytes: &[u8]) -> Result<(StateRow, &[u8]), RowRead>
    ensures { GivesIfMemory (λ x. (x.0, x.1.now)) result (state_at bytes.now) }
{
    let (counts, rest) = read_counts(bytes)?;
    let (clock, rest) = read_clock(rest)?;
    let (tail, rest) = read_tail(alloc, rest)?;
    Ok((state_of(counts, clock, tail), rest))
}

fn state_of(counts: Counts, clock: Clock, tail: Lines) -> StateRow
    ensures { result ≡ State.state_of (counts, (clock, tail)) }
{
    let Lines { long, tail, bad } = tail;
    StateRow {
        taken: counts.taken,
        part: counts.part,
        lines: counts.lines,
        used: counts.used,
        other: counts.other,
        blank: counts.blank,
        malformed: counts.malformed,
        excess: counts.excess,
        events: counts.events,
        late: counts.late,
        unmapped: counts.unmapped,
        flows: counts.flows,
        acts: counts.acts,
        seen: clock.seen,
        greatest: clock.greatest,
        released: clock.released,
        released_ms: clock.released_ms,
        released_serial: clock.released_serial,
        effective: clock.effective,
        long,
        tail,
        bad,
    }
}

/// Appends the fields of a State row.
pub fn put_state(to: &mut Bytes, state: &StateRow) -> Result<(), NoMemory>
    requires { CanBeState state.now }
    ensures bytes { OnOk result (to.new ≡ to.old ++ State.state state.now) }
    ensures fits { OnOk result (FitsState state.now) }
{
    put_counts(to, state)?;
    put_clock(to, state)?;
    put_tail(to, state)
}
