//! The parts of an engine that are made again from the rows of a store.
ghost use Rattle.std.specs.Prelude.{◌≡◌, ◌<◌, ℕ, Err, Some, None, IfOk, IfErr, option_map};
ghost use Rattle.flow_base.specs.declared.limits.Full.{Full};
ghost use Rattle.store_check.specs.Store.{newer};
ghost use Rattle.stored.specs.Words.{state_in, state_of};
ghost use Rattle.ingest.specs.Restoring.{CanBeRemade, IsOther, IsRemade};
ghost use Rattle.ingest.specs.Stops.{input_full};
ghost use Rattle.ingest.specs.Waiting.{AreSoundWaiting};
ghost use Rattle.ingest.specs.declared.restoring.RestoreFault.TheVariants as fault;

use crate::line_reader::LineReader;
use crate::waiting::restore_join;
use flow_base::{Full, Limit, Limits, NoMemory};
use flow_events::Tables;
use record_join::Join;
use row_codec::{StateRow, StoreRow};
use std::alloc::Global;
use table_salt::Salt;

/// Why an engine wasn't made again: what waits isn't sound, with the place of the batch that says it; it is sound, and the
/// bytes that the store has taken are past the limit; a read of the rows failed; a row isn't at its place any more; or an
/// allocation failed.
#[derive(Clone, Copy, Debug, PartialEq, Eq)]
pub enum RestoreFault {
    BadStore(u64),
    Full(Full),
    StoreFault,
    BadRow(u64),
    NoMemory,
}

impl From<NoMemory> for RestoreFault {
    ghost from_gives = { λ _ e. e ≡ fault.NoMemory };

    fn from(_fault: NoMemory) -> RestoreFault {
        RestoreFault::NoMemory
    }
}

/// Rows of which no engine was made, and why.
#[derive(Drop)]
pub struct Unrestored<K> {
    pub why: RestoreFault,
    pub keep: K,
}

/// The reader of lines, what waits, and the tables.
#[derive(Drop)]
pub struct Remade {
    pub reader: LineReader,
    pub join: Join,
    pub tables: Tables,
}

/// Makes the parts again that the rows of a store say, and the State among them. The place is that of the last batch.
pub fn make_again(
    alloc: Global,
    salt: Salt,
    limits: &Limits,
    place: u64,
    state: &StateRow,
    rows: &[StoreRow],
) -> Result<Remade, RestoreFault>
    requires { CanBeRemade limits.now state.now rows.now }
    ensures parts { IfOk result (IsRemade limits.now state.now rows.now) }
    ensures bad { (p : ℕ) → result ≡ Err (fault.BadStore p)
        → (p ≡ place) × ¬ AreSoundWaiting limits.now state.now rows.now }
    ensures full { (full : Full) → result ≡ Err (fault.Full full)
        → (full ≡ input_full limits.now) × (limits.now.input < state.now.taken)
        × AreSoundWaiting limits.now state.now rows.now }
    ensures other { IfErr result IsOther }
{
    let Some(join) = restore_join(alloc, limits, state, rows)? else {
        return Err(RestoreFault::BadStore(place));
    };
    if limits.input < state.taken {
        return Err(RestoreFault::Full(Full {
            limit: Limit::Input,
            number: limits.input,
        }));
    }
    let tables = Tables::restore(alloc, salt, limits, rows)?;
    let reader = LineReader::restore(alloc, limits, state)?;
    Ok(Remade {
        reader,
        join,
        tables,
    })
}

/// The last State of some rows.
pub fn last_state(rows: &[StoreRow]) -> Option<&StateRow>
    ensures { option_map (λ state. state.now) result ≡ state_of rows.now }
{
    let mut found = None;
    for row in rows {
        found = later_state(found, row);
    }
    found
}

// The State of a row, if it is one, or else the one before it.
fn later_state<'a>(found: Option<&'a StateRow>, row: &'a StoreRow) -> Option<&'a StateRow>
    ensures { option_map (λ state. state.now) result
        ≡ newer (option_map (λ state. state.now) found.entry) (state_in row.now) }
{
    match row {
        StoreRow::State(state) => Some(state),
        _ => found,
    }
}
