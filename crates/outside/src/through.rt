//! Whole reads, and writes through to what outlives a crash: a write, and the sync that makes it stay.
ghost use Rattle.std.specs.Prelude.{◌≡◌, ◌≤◌, ◌<◌, ◌+◌, ◌^◌, length, take, drop, IsTrue, IsErr, IfOk, OnOk};
ghost use Rattle.outside.specs.Disk.{put_at, IsDurable, KeepsFront, LeavesOnly, MayHaveWritten, OnlyLooks, UsesDisk};

use crate::disk::Disk;
use crate::streams::Failed;

/// Writes these bytes at this place, and syncs. A crash before the end leaves what the write may
/// have made of an earlier image. Whatever is answered, the bytes before this place read as before.
pub fn write_through<D: Disk>(disk: &mut D, at: u64, bytes: &[u8]) -> Result<(), Failed>
    requires within { (D.state disk.old).told → at ≤ length (D.state disk.old).reads }
    ensures written { (D.state disk.old).told
        → OnOk result ((D.state disk.new).reads ≡ put_at at bytes.now (D.state disk.old).reads) }
    ensures front { (D.state disk.old).told → KeepsFront at (D.state disk.old) (D.state disk.new) }
    ensures durable { OnOk result (IsDurable (D.state disk.new)) }
    ensures any_moment { LeavesOnly (D.state disk.old) (D.state disk.new)
        (MayHaveWritten at bytes.now (D.state disk.old).image) }
    ensures uses { UsesDisk D.state D.faults D.spent disk.old disk.new (IsErr result) }
{
    disk.write_at(at, bytes)?;
    disk.sync()
}

/// Fills the buffer with the bytes from a place on, or says that the disk ends before it is full.
pub fn read_whole<D: Disk>(disk: &mut D, at: u64, buf: &mut [u8]) -> Result<bool, Failed>
    requires fits { at + length buf.old < 2 ^ 64 }
    ensures whole { (D.state disk.old).told → at + length buf.old ≤ length (D.state disk.old).reads
        → IfOk result (λ whole. IsTrue whole) }
    ensures bytes { (D.state disk.old).told → IfOk result (λ whole. IsTrue whole
        → buf.new ≡ take (length buf.new) (drop at (D.state disk.old).reads)) }
    ensures looks { OnlyLooks (D.state disk.old) (D.state disk.new) }
    ensures uses { UsesDisk D.state D.faults D.spent disk.old disk.new (IsErr result) }
{
    let mut done = 0;
    while done < buf.len() {
        match disk.read_at(at + done as u64, &mut buf[done..]) {
            Ok(0) => return Ok(false),
            Ok(count) => done += count,
            Err(fault) => return Err(fault),
        }
    }
    Ok(true)
}
