//! Bytes, numbers, flags and links, read and written.
ghost use Rattle.std.specs.Prelude.{◌≡◌, ◌++◌, ◌∷◌, [], OnOk};
ghost use Rattle.std.specs.Int.{w32, w64};
ghost use Rattle.row_codec.specs.Parsing.{Gives, byte_at, number_at, rest_after};
ghost use Rattle.row_codec.specs.Fields as spelled;
ghost use Rattle.row_codec.specs.Fields.{flag_at, link_at, FitsLink};

use crate::fault::NoSpelling;
use flow_base::{Bytes, NoMemory};

/// One byte.
pub fn byte(bytes: &[u8]) -> Result<(u8, &[u8]), NoSpelling>
    ensures { Gives (λ x. (x.0, x.1.now)) result (byte_at bytes.now) }
{
    match bytes {
        [] => Err(NoSpelling),
        [byte, rest @ ..] => Ok((*byte, rest)),
    }
}

/// A number of four bytes.
#[tactic(auto, unfolding(crate::specs::Parsing::number_at))]
pub fn n4(bytes: &[u8]) -> Result<(u32, &[u8]), NoSpelling>
    ensures { Gives (λ x. (x.0, x.1.now)) result (number_at w32 bytes.now) }
{
    if bytes.len() < 4 {
        return Err(NoSpelling);
    }
    let (front, rest) = bytes.split_at(4);
    let number = u32::from_le_bytes([front[0], front[1], front[2], front[3]]);
    Ok((number, rest))
}

/// A number of eight bytes.
#[tactic(auto, unfolding(crate::specs::Parsing::number_at))]
pub fn n8(bytes: &[u8]) -> Result<(u64, &[u8]), NoSpelling>
    ensures { Gives (λ x. (x.0, x.1.now)) result (number_at w64 bytes.now) }
{
    if bytes.len() < 8 {
        return Err(NoSpelling);
    }
    let (front, rest) = bytes.split_at(8);
    let number = u64::from_le_bytes([
        front[0], front[1], front[2], front[3], front[4], front[5], front[6], front[7],
    ]);
    Ok((number, rest))
}

/// A byte 0 or 1.
pub fn flag(bytes: &[u8]) -> Result<(bool, &[u8]), NoSpelling>
    ensures { Gives (λ x. (x.0, x.1.now)) result (flag_at bytes.now) }
{
    let (number, rest) = byte(bytes)?;
    match number {
        0 => Ok((false, rest)),
        1 => Ok((true, rest)),
        _ => Err(NoSpelling),
    }
}

/// The index of a row plus 1, or 0 for none.
pub fn link(bytes: &[u8]) -> Result<(Option<u64>, &[u8]), NoSpelling>
    ensures { Gives (λ x. (x.0, x.1.now)) result (link_at bytes.now) }
{
    let (number, rest) = n8(bytes)?;
    Ok((number.checked_sub(1), rest))
}

/// The bytes after a given first byte.
pub fn after(first: u8, bytes: &[u8]) -> Result<&[u8], NoSpelling>
    ensures { Gives (λ x. x.now) result (rest_after first bytes.now) }
{
    let (byte, rest) = byte(bytes)?;
    if byte == first {
        Ok(rest)
    } else {
        Err(NoSpelling)
    }
}

/// Appends one byte.
pub fn put_byte(to: &mut Bytes, byte: u8) -> Result<(), NoMemory>
    ensures { OnOk result (to.new ≡ to.old ++ byte ∷ []) }
{
    to.append([byte].as_slice())
}

/// Appends a number of four bytes.
#[tactic(auto, unfolding(crate::specs::Parsing::number))]
pub fn put_n4(to: &mut Bytes, number: u32) -> Result<(), NoMemory>
    ensures { OnOk result (to.new ≡ to.old ++ spelled.n4 number) }
{
    to.append(number.to_le_bytes().as_slice())
}

/// Appends a number of eight bytes.
#[tactic(auto, unfolding(crate::specs::Parsing::number))]
pub fn put_n8(to: &mut Bytes, number: u64) -> Result<(), NoMemory>
    ensures { OnOk result (to.new ≡ to.old ++ spelled.n8 number) }
{
    to.append(number.to_le_bytes().as_slice())
}

/// Appends a byte 0 or 1.
pub fn put_flag(to: &mut Bytes, is: bool) -> Result<(), NoMemory>
    ensures { OnOk result (to.new ≡ to.old ++ spelled.flag is) }
{
    put_byte(to, if is { 1 } else { 0 })
}

/// Appends the index of a row plus 1, or 0 for none.
pub fn put_link(to: &mut Bytes, before: Option<u64>) -> Result<(), NoMemory>
    requires { FitsLink before }
    ensures { OnOk result (to.new ≡ to.old ++ spelled.link before) }
{
    match before {
        None => put_n8(to, 0),
        Some(row) => put_n8(to, row + 1),
    }
}
