//! The mark of a flow, read and written.
ghost use Rattle.std.specs.Prelude.{◌≡◌, ◌++◌, ◌∷◌, [], OnOk};
ghost use Rattle.row_codec.specs.Parsing.{Gives};
ghost use Rattle.row_codec.specs.Fields as spelled;
ghost use Rattle.row_codec.specs.Fields.{how_at, mark_at, FitsMark};

use crate::fault::NoSpelling;
use crate::numbers::{byte, n4, n8, put_byte, put_n4, put_n8};
use flow_base::{Bytes, How, NoMemory, Stamp};
use reach_rows::Mark;

/// How a flow came about, by its number.
fn how(bytes: &[u8]) -> Result<(How, &[u8]), NoSpelling>
    ensures { Gives (λ x. (x.0, x.1.now)) result (how_at bytes.now) }
{
    let (number, rest) = byte(bytes)?;
    let how = match number {
        1 => How::Fork,
        2 => How::Exec,
        3 => How::Read,
        4 => How::Write,
        5 => How::Make,
        6 => How::Alter,
        _ => return Err(NoSpelling),
    };
    Ok((how, rest))
}

/// A mark: time in milliseconds, place among the flows, how it came about, serial.
pub fn mark(bytes: &[u8]) -> Result<(Mark, &[u8]), NoSpelling>
    ensures { Gives (λ x. (x.0, x.1.now)) result (mark_at bytes.now) }
{
    let (ms, rest) = n8(bytes)?;
    let (place, rest) = n8(rest)?;
    let (how, rest) = how(rest)?;
    let (serial, rest) = n4(rest)?;
    let mark = Mark {
        at: Stamp { ms, place },
        how,
        serial,
    };
    Ok((mark, rest))
}

/// The number of how a flow came about.
fn number_of(how: How) -> u8
    ensures { spelled.how how ≡ result ∷ [] }
{
    match how {
        How::Fork => 1,
        How::Exec => 2,
        How::Read => 3,
        How::Write => 4,
        How::Make => 5,
        How::Alter => 6,
    }
}

/// Appends a mark.
pub fn put_mark(to: &mut Bytes, mark: &Mark) -> Result<(), NoMemory>
    ensures bytes { OnOk result (to.new ≡ to.old ++ spelled.mark mark.now) }
    ensures fits { OnOk result (FitsMark mark.now) }
{
    put_n8(to, mark.at.ms)?;
    put_n8(to, mark.at.place)?;
    put_byte(to, number_of(mark.how))?;
    put_n4(to, mark.serial)
}
