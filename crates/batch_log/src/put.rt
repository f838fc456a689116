//! Putting a batch on a disk.
ghost use Rattle.std.specs.Prelude.{◌≡◌, ◌≤◌, ◌<◌, ◌+◌, ◌^◌, List, ℕ, [], ◌∷◌, length, Option, None, Some, unwrap_or, OnOk, IsErr, IfSome};
ghost use Rattle.outside.specs.Disk.{put_at, Only, IsDurable, KeepsFront, LeavesOnly, UsesDisk};
ghost use Rattle.batch_log.specs.Batches as on_disk;
ghost use Rattle.batch_log.specs.Batches.{EachHasBatches, after_gate, IsBeforeOrAfter};

use outside::{Disk, Failed, write_through};

/// What follows a closed gate doesn't count.
pub const CLOSED: u8 = 0x5A;

/// A whole batch follows an open gate.
pub const OPEN: u8 = 0xA5;

/// Puts what belongs after the last gate there and opens it, on an empty disk after a first gate.
pub fn put_batch<D: Disk>(disk: &mut D, last: Option<u64>, staged: &[u8]) -> Result<(), Failed>
    requires fits { unwrap_or last 0 < 2 ^ 60 }
    requires within { (D.state disk.old).told
        → IfSome last (λ gate. gate < length (D.state disk.old).reads) }
    requires empty { (D.state disk.old).told → last ≡ None → (D.state disk.old).reads ≡ [] }
    ensures written { (D.state disk.old).told → OnOk result ((D.state disk.new).reads
        ≡ put_at (unwrap_or last 0) (on_disk.OPEN ∷ staged.now) (D.state disk.old).reads) }
    ensures front { (D.state disk.old).told
        → KeepsFront (unwrap_or last 0) (D.state disk.old) (D.state disk.new) }
    ensures durable { OnOk result (IsDurable (D.state disk.new)) }
    ensures any_moment { (D.state disk.old).told
        → (most : ℕ) (payloads : List (List ℕ)) (payload : List ℕ)
        → staged.now ≡ after_gate payload → length payload ≤ most
        → EachHasBatches most payloads last (D.state disk.old).image
        → LeavesOnly (D.state disk.old) (D.state disk.new) (IsBeforeOrAfter most payloads payload) }
    ensures uses { UsesDisk D.state D.faults D.spent disk.old disk.new (IsErr result) }
{
    match last {
        Some(gate) => put_after(disk, gate, staged),
        None => put_first(disk, staged),
    }
}

// Puts the first gate on an empty disk, closed, and then the batch.
fn put_first<D: Disk>(disk: &mut D, staged: &[u8]) -> Result<(), Failed>
    requires empty { (D.state disk.old).told → (D.state disk.old).reads ≡ [] }
    ensures written { (D.state disk.old).told → OnOk result
        ((D.state disk.new).reads ≡ put_at 0 (on_disk.OPEN ∷ staged.now) (D.state disk.old).reads) }
    ensures durable { OnOk result (IsDurable (D.state disk.new)) }
    ensures any_moment { (D.state disk.old).told → (most : ℕ) (payload : List ℕ)
        → staged.now ≡ after_gate payload → length payload ≤ most → Only [] (D.state disk.old).image
        → LeavesOnly (D.state disk.old) (D.state disk.new) (IsBeforeOrAfter most [] payload) }
    ensures uses { UsesDisk D.state D.faults D.spent disk.old disk.new (IsErr result) }
{
    write_through(disk, 0, &[CLOSED])?;
    put_after(disk, 0, staged)
}

// Puts what belongs after a closed gate there, and then opens the gate. All of it is on the disk
// before the gate opens, so a torn batch never counts.
#[tactic(auto, using(crate::proofs::Writing::put_gate))]
fn put_after<D: Disk>(disk: &mut D, gate: u64, staged: &[u8]) -> Result<(), Failed>
    requires fits { gate < 2 ^ 60 }
    requires within { (D.state disk.old).told → gate < length (D.state disk.old).reads }
    ensures written { (D.state disk.old).told → OnOk result ((D.state disk.new).reads
        ≡ put_at gate (on_disk.OPEN ∷ staged.now) (D.state disk.old).reads) }
    ensures front { (D.state disk.old).told
        → KeepsFront gate (D.state disk.old) (D.state disk.new) }
    ensures durable { OnOk result (IsDurable (D.state disk.new)) }
    ensures any_moment { (D.state disk.old).told
        → (most : ℕ) (payloads : List (List ℕ)) (payload : List ℕ)
        → staged.now ≡ after_gate payload → length payload ≤ most
        → EachHasBatches most payloads (Some gate) (D.state disk.old).image
        → LeavesOnly (D.state disk.old) (D.state disk.new) (IsBeforeOrAfter most payloads payload) }
    ensures uses { UsesDisk D.state D.faults D.spent disk.old disk.new (IsErr result) }
{
    write_through(disk, gate + 1, staged)?;
    write_through(disk, gate, &[OPEN])
}
