//! The counts of a State row, read and written.
ghost use Rattle.std.specs.Prelude.{◌≡◌, ◌++◌, OnOk};
ghost use Rattle.row_codec.specs.Parsing.{Gives};
ghost use Rattle.row_codec.specs.State as states;
ghost use Rattle.row_codec.specs.State.{counts_at, counts_in, FitsCounts};
ghost use Rattle.row_codec.specs.State.{FitsClassCounts, FitsEventCounts};

use crate::fault::NoSpelling;
use crate::numbers::{n8, put_n8};
use crate::state::StateRow;
use flow_base::{Bytes, NoMemory};

/// The counts of a State row.
#[derive(Clone, Copy)]
pub struct Counts {
    pub taken: u64,
    pub part: u64,
    pub lines: u64,
    pub used: u64,
    pub other: u64,
    pub blank: u64,
    pub malformed: u64,
    pub excess: u64,
    pub events: u64,
    pub late: u64,
    pub unmapped: u64,
    pub flows: u64,
    pub acts: u64,
}

/// Thirteen counts of eight bytes each.
pub fn read_counts(bytes: &[u8]) -> Result<(Counts, &[u8]), NoSpelling>
    ensures { Gives (λ x. (x.0, x.1.now)) result (counts_at bytes.now) }
{
    let (taken, rest) = n8(bytes)?;
    let (part, rest) = n8(rest)?;
    let (lines, rest) = n8(rest)?;
    let (used, rest) = n8(rest)?;
    let (other, rest) = n8(rest)?;
    let (blank, rest) = n8(rest)?;
    let (malformed, rest) = n8(rest)?;
    let (excess, rest) = n8(rest)?;
    let (events, rest) = n8(rest)?;
    let (late, rest) = n8(rest)?;
    let (unmapped, rest) = n8(rest)?;
    let (flows, rest) = n8(rest)?;
    let (acts, rest) = n8(rest)?;
    let counts = Counts {
        taken,
        part,
        lines,
        used,
        other,
        blank,
        malformed,
        excess,
        events,
        late,
        unmapped,
        flows,
        acts,
    };
    Ok((counts, rest))
}

/// Appends the counts of a State row.
pub fn put_counts(to: &mut Bytes, state: &StateRow) -> Result<(), NoMemory>
    ensures bytes { OnOk result (to.new ≡ to.old ++ states.counts (counts_in state.now)) }
    ensures fits { OnOk result (FitsCounts (counts_in state.now)) }
{
    put_n8(to, state.taken)?;
    put_n8(to, state.part)?;
    put_class_counts(to, state)?;
    put_event_counts(to, state)
}

/// Appends the counts of lines.
fn put_class_counts(to: &mut Bytes, state: &StateRow) -> Result<(), NoMemory>
    ensures bytes { OnOk result (to.new ≡ to.old ++ states.class_counts (counts_in state.now)) }
    ensures fits { OnOk result (FitsClassCounts (counts_in state.now)) }
{
    put_n8(to, state.lines)?;
    put_n8(to, state.used)?;
    put_n8(to, state.other)?;
    put_n8(to, state.blank)?;
    put_n8(to, state.malformed)
}

/// Appends the counts of events, flows and acts.
fn put_event_counts(to: &mut Bytes, state: &StateRow) -> Result<(), NoMemory>
    ensures bytes { OnOk result (to.new ≡ to.old ++ states.event_counts (counts_in state.now)) }
    ensures fits { OnOk result (FitsEventCounts (counts_in state.now)) }
{
    put_n8(to, state.excess)?;
    put_n8(to, state.events)?;
    put_n8(to, state.late)?;
    put_n8(to, state.unmapped)?;
    put_n8(to, state.flows)?;
    put_n8(to, state.acts)
}
