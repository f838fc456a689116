//! Finding the batches of a disk.
ghost use Rattle.std.specs.Prelude.{◌≡◌, ◌≤◌, ◌<◌, ◌+◌, ◌-◌, ◌^◌, ◌⊎◌, ℕ, List, ◌∷◌, length, drop, IfOk, IsErr};
ghost use Rattle.outside.specs.Disk.{OnlyLooks, UsesDisk};
ghost use Rattle.batch_log.specs.Batches as on_disk;
ghost use Rattle.batch_log.specs.Batches.{length_bytes};
ghost use Rattle.batch_log.specs.Finding.{Finds, IsByteAt, IsLengthAt};
ghost use Rattle.batch_log.specs.declared.find.Found.TheVariants as found;

use crate::put::{CLOSED, OPEN};
use outside::{Disk, Failed, read_whole};

/// A batch on a disk: the place of its gate, and the length of its payload in bytes.
#[derive(Clone, Copy, Debug, PartialEq, Eq)]
pub struct Batch {
    pub gate: u64,
    pub length: u64,
}

/// What stands at a gate: it is closed, it is that of a whole batch with a payload of this length,
/// or it is neither.
#[derive(Clone, Copy)]
pub enum Found {
    Closed,
    Open(u64),
    Broken,
}

/// What stands at a gate of a disk of `end` bytes.
pub fn look_at<D: Disk>(disk: &mut D, most: u64, gate: u64, end: u64) -> Result<Found, Failed>
    requires within { gate < end }
    requires most { most ≤ 2 ^ 30 }
    requires end { (D.state disk.old).told → end ≡ length (D.state disk.old).reads }
    ensures finds { (D.state disk.old).told
        → IfOk result (Finds most (drop gate (D.state disk.old).reads)) }
    ensures within { (n : ℕ) → IfOk result (λ seen. seen ≡ found.Open n → gate + 9 + n < end) }
    ensures looks { OnlyLooks (D.state disk.old) (D.state disk.new) }
    ensures uses { UsesDisk D.state D.faults D.spent disk.old disk.new (IsErr result) }
{
    match read_byte(disk, gate)? {
        Some(CLOSED) => Ok(Found::Closed),
        Some(OPEN) => open_gate(disk, most, gate, end),
        _ => Ok(Found::Broken),
    }
}

// What stands at an open gate.
fn open_gate<D: Disk>(disk: &mut D, most: u64, gate: u64, end: u64) -> Result<Found, Failed>
    requires within { gate < end }
    requires most { most ≤ 2 ^ 30 }
    requires end { (D.state disk.old).told → end ≡ length (D.state disk.old).reads }
    requires open { (D.state disk.old).told
        → drop gate (D.state disk.old).reads
        ≡ on_disk.OPEN ∷ drop (gate + 1) (D.state disk.old).reads }
    ensures finds { (D.state disk.old).told
        → IfOk result (Finds most (drop gate (D.state disk.old).reads)) }
    ensures within { (n : ℕ) → IfOk result (λ seen. seen ≡ found.Open n → gate + 9 + n < end) }
    ensures looks { OnlyLooks (D.state disk.old) (D.state disk.new) }
    ensures uses { UsesDisk D.state D.faults D.spent disk.old disk.new (IsErr result) }
{
    if end - gate < 10 {
        return Ok(Found::Broken);
    }
    match read_length(disk, gate + 1)? {
        Some(length) => Ok(judge(most, end - gate, length)),
        None => Ok(Found::Broken),
    }
}

// Whether a batch with a payload of this length is whole within `room` bytes from its gate on.
fn judge(most: u64, room: u64, length: u64) -> Found
    ensures { ((result ≡ found.Open length) × (length ≤ most) × (9 + length < room))
        ⊎ ((result ≡ found.Broken) × ((most < length) ⊎ (room ≤ 9 + length))) }
{
    if length <= most && room > 9 && length < room - 9 {
        Found::Open(length)
    } else {
        Found::Broken
    }
}

// The byte at a place, or none if the disk ends before it.
fn read_byte<D: Disk>(disk: &mut D, at: u64) -> Result<Option<u8>, Failed>
    requires fits { at + 1 < 2 ^ 64 }
    ensures byte { (D.state disk.old).told → at < length (D.state disk.old).reads
        → IfOk result (IsByteAt at (D.state disk.old).reads) }
    ensures looks { OnlyLooks (D.state disk.old) (D.state disk.new) }
    ensures uses { UsesDisk D.state D.faults D.spent disk.old disk.new (IsErr result) }
{
    let mut buf = [0; 1];
    if read_whole(disk, at, buf.as_mut_slice())? {
        return Ok(Some(buf[0]));
    }
    Ok(None)
}

// The length that 8 bytes at a place spell, or none if the disk ends before their end.
fn read_length<D: Disk>(disk: &mut D, at: u64) -> Result<Option<u64>, Failed>
    requires fits { at + 8 < 2 ^ 64 }
    ensures length { (D.state disk.old).told → at + 8 ≤ length (D.state disk.old).reads
        → IfOk result (IsLengthAt at (D.state disk.old).reads) }
    ensures looks { OnlyLooks (D.state disk.old) (D.state disk.new) }
    ensures uses { UsesDisk D.state D.faults D.spent disk.old disk.new (IsErr result) }
{
    let mut buf = [0; 8];
    if read_whole(disk, at, buf.as_mut_slice())? {
        return Ok(Some(length_of(buf.as_slice())));
    }
    Ok(None)
}

// The length that 8 bytes spell.
fn length_of(field: &[u8]) -> u64
    requires { length field.now ≡ 8 }
    ensures { length_bytes result ≡ field.now }
{
    u64::from_le_bytes([
        field[0], field[1], field[2], field[3], field[4], field[5], field[6], field[7],
    ])
}
