//! Lives of pids, read and written.
ghost use Rattle.std.specs.Prelude.{◌≡◌, ◌++◌, OnOk};
ghost use Rattle.row_codec.specs.Parsing.{Gives};
ghost use Rattle.row_codec.specs.Tables as tables;
ghost use Rattle.row_codec.specs.Tables.{awaits_at, life_at, FitsAwaits, FitsLife};

use crate::fault::NoSpelling;
use crate::numbers::{flag, n4, n8, put_flag, put_n4, put_n8};
use flow_base::{Bytes, NoMemory};
use proc_table::Life;

/// A life: its number, live flag, the parent that it awaits, linked flag.
pub fn life(bytes: &[u8]) -> Result<(Life, &[u8]), NoSpelling>
    ensures { Gives (λ x. (x.0, x.1.now)) result (life_at bytes.now) }
{
    let (life, rest) = n8(bytes)?;
    let (live, rest) = flag(rest)?;
    let (awaits, rest) = awaits(rest)?;
    let (linked, rest) = flag(rest)?;
    let life = Life {
        life,
        live,
        awaits,
        linked,
    };
    Ok((life, rest))
}

/// The parent that a life awaits: a flag, and its pid, which is 0 if the life awaits nobody.
fn awaits(bytes: &[u8]) -> Result<(Option<u32>, &[u8]), NoSpelling>
    ensures { Gives (λ x. (x.0, x.1.now)) result (awaits_at bytes.now) }
{
    let (awaits, rest) = flag(bytes)?;
    let (ppid, rest) = n4(rest)?;
    match (awaits, ppid) {
        (true, _) => Ok((Some(ppid), rest)),
        (false, 0) => Ok((None, rest)),
        (false, _) => Err(NoSpelling),
    }
}

/// Appends a life.
pub fn put_life(to: &mut Bytes, life: &Life) -> Result<(), NoMemory>
    ensures bytes { OnOk result (to.new ≡ to.old ++ tables.life life.now) }
    ensures fits { OnOk result (FitsLife life.now) }
{
    put_n8(to, life.life)?;
    put_flag(to, life.live)?;
    put_awaits(to, life.awaits)?;
    put_flag(to, life.linked)
}

/// Appends the parent that a life awaits.
fn put_awaits(to: &mut Bytes, awaits: Option<u32>) -> Result<(), NoMemory>
    ensures bytes { OnOk result (to.new ≡ to.old ++ tables.awaits awaits) }
    ensures fits { OnOk result (FitsAwaits awaits) }
{
    match awaits {
        None => {
            put_flag(to, false)?;
            put_n4(to, 0)
        }
        Some(ppid) => {
            put_flag(to, true)?;
            put_n4(to, ppid)
        }
    }
}
