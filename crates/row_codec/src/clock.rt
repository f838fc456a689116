//! The clock of a State row, read and written.
ghost use Rattle.std.specs.Prelude.{◌≡◌, ◌++◌, OnOk};
ghost use Rattle.row_codec.specs.Parsing.{Gives};
ghost use Rattle.row_codec.specs.State as states;
ghost use Rattle.row_codec.specs.State.{clock_at, clock_in, seen_flag_at, released_at};
ghost use Rattle.row_codec.specs.State.{FitsClock, IsUnset};

use crate::fault::NoSpelling;
use crate::numbers::{flag, n4, n8, put_flag, put_n4, put_n8};
use crate::state::StateRow;
use flow_base::{Bytes, NoMemory};

/// The clock of a State row; times are in milliseconds. A number whose flag isn't set is 0.
#[derive(Clone, Copy)]
pub struct Clock {
    pub seen: bool,
    pub greatest: u64,
    pub released: bool,
    pub released_ms: u64,
    pub released_serial: u32,
    pub effective: u64,
}

/// The clock.
pub fn read_clock(bytes: &[u8]) -> Result<(Clock, &[u8]), NoSpelling>
    ensures { Gives (λ x. (x.0, x.1.now)) result (clock_at bytes.now) }
{
    let ((seen, greatest), rest) = seen(bytes)?;
    let ((released, released_ms, released_serial), rest) = released(rest)?;
    let (effective, rest) = n8(rest)?;
    let clock = Clock {
        seen,
        greatest,
        released,
        released_ms,
        released_serial,
        effective,
    };
    Ok((clock, rest))
}

/// A flag, and a number that is 0 if the flag is 0.
fn seen(bytes: &[u8]) -> Result<((bool, u64), &[u8]), NoSpelling>
    ensures { Gives (λ x. ((x.0.0, x.0.1), x.1.now)) result (seen_flag_at bytes.now) }
{
    let (seen, rest) = flag(bytes)?;
    let (greatest, rest) = n8(rest)?;
    if !seen && greatest != 0 {
        return Err(NoSpelling);
    }
    Ok(((seen, greatest), rest))
}

/// A flag, and two numbers that are 0 if the flag is 0.
fn released(bytes: &[u8]) -> Result<((bool, u64, u32), &[u8]), NoSpelling>
    ensures { Gives (λ x. ((x.0.0, (x.0.1, x.0.2)), x.1.now)) result (released_at bytes.now) }
{
    let (released, rest) = flag(bytes)?;
    let (ms, rest) = n8(rest)?;
    let (serial, rest) = n4(rest)?;
    if !released && (ms != 0 || serial != 0) {
        return Err(NoSpelling);
    }
    Ok(((released, ms, serial), rest))
}

/// Appends the clock of a State row.
pub fn put_clock(to: &mut Bytes, state: &StateRow) -> Result<(), NoMemory>
    requires unseen { IsUnset state.now.seen state.now.greatest }
    requires unreleased_ms { IsUnset state.now.released state.now.released_ms }
    requires unreleased_serial { IsUnset state.now.released state.now.released_serial }
    ensures bytes { OnOk result (to.new ≡ to.old ++ states.clock (clock_in state.now)) }
    ensures fits { OnOk result (FitsClock (clock_in state.now)) }
{
    put_flag(to, state.seen)?;
    put_n8(to, state.greatest)?;
    put_flag(to, state.released)?;
    put_n8(to, state.released_ms)?;
    put_n4(to, state.released_serial)?;
    put_n8(to, state.effective)
}
