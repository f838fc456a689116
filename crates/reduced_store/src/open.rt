//! Opening a disk: one sync, and then reads alone.
ghost use Rattle.std.specs.Prelude.{◌≡◌, ◌⊎◌, [], ℕ, List, true, None, if◌then◌else◌, IfOk, IsErrOf};
ghost use Rattle.std.specs.List.{All};
ghost use Rattle.outside.specs.Disk.{IsDurable, OnlyLooks, Settles, UsesDisk};
ghost use Rattle.batch_log.specs.Log.{log_of};
ghost use Rattle.batch_log.specs.Payloads.{Fits};
ghost use Rattle.batch_log.specs.declared.open.LogFault.TheVariants as fault;
ghost use Rattle.store_check.specs.Conditions.{bounds_of};
ghost use Rattle.reduced_store.specs.Placing.{ArePlaced, AreThere, IsSettled, StandOn};
ghost use Rattle.reduced_store.specs.Opening.{BeginsLast, StopsAt, IsStoreRead, IsBadAt, last_gate as last_gate_of};
ghost use Rattle.reduced_store.specs.Reading.{IsFound};

use crate::reading::{Found, Reading};
use crate::rows::StoreRows;
use batch_log::{Batch, BatchLog, LogFault, listed_batches_have_their_payloads, read_payload};
use flow_base::Limits;
use outside::Disk;
use std::alloc::Global;
use table_salt::Salt;

/// What reading a disk finds: its log, the place of its last batch's gate, if it has a batch, and what
/// its store holds.
#[derive(Drop)]
pub struct StoreRead {
    pub log: BatchLog,
    pub last: Option<u64>,
    pub found: Found,
}

/// Opens a disk: its log, and what its store holds. It makes one sync, so that nothing of an earlier
/// run is pending, and then only reads. A bad store has the place of its first gate that is neither
/// closed nor that of a whole batch, and else that of the first batch that doesn't go on with the
/// store, and else, if two rows have one last place, that of the last batch's gate.
pub fn read_store<D: Disk>(
    alloc: Global,
    salt: Salt,
    limits: &Limits,
    disk: &mut D,
) -> Result<StoreRead, LogFault>
    ensures found { IfOk result (λ read. (payloads : List (List ℕ))
        × IsFound (bounds_of limits.now) payloads read.found) }
    ensures store { (D.state disk.old).told
        → IfOk result (λ read. IsStoreRead limits.now (D.state disk.old).reads
        (read.log, read.found)) }
    ensures settled { IfOk result (λ read. IsSettled read.found.rows) }
    ensures placed { (D.state disk.old).told
        → IfOk result (λ read. StandOn (D.state disk.new).reads read.log read.found.rows) }
    ensures last { (D.state disk.old).told
        → IfOk result (λ read. BeginsLast limits.now (D.state disk.old).reads read.last) }
    ensures log { IfOk result (λ read. read.log ≡ log_of limits.now read.log.last) }
    ensures lawful { IfOk result (λ read. read.found.rows.lawful ≡ true) }
    ensures bad { (D.state disk.old).told → (place : ℕ) → IsErrOf result (fault.BadStore place)
        → IsBadAt limits.now place (D.state disk.old).reads }
    ensures durable { (D.state disk.old).told
        → IsErrOf result fault.StoreFault ⊎ IsDurable (D.state disk.new) }
    ensures settles { (D.state disk.old).told
        → IsErrOf result fault.StoreFault ⊎ Settles (D.state disk.old) (D.state disk.new) }
    ensures looks { OnlyLooks (D.state disk.old) (D.state disk.new) }
    ensures uses { UsesDisk D.state D.faults D.spent disk.old disk.new
        (IsErrOf result fault.StoreFault) }
{
    listed_batches_have_their_payloads();
    keep_freed(alloc);
    let (log, batches) = BatchLog::open_on(alloc, limits, disk)?;
    let found = read_batches(alloc, salt, limits, disk, batches.as_slice())?;
    let last = last_gate(batches.as_slice());
    match unless_lawful(last, &found.rows) {
        Some(place) => Err(LogFault::BadStore(place)),
        None => Ok(StoreRead { log, last, found }),
    }
}

// Frees a block of this many bytes. The C library then keeps what smaller blocks give back for those that are taken next.
// Otherwise it hands the memory of each batch back to the system, which clears it anew for the next.
fn keep_freed(alloc: Global) {
    let _ = Vec::<u8>::with_capacity(alloc, KEPT);
}

/// How many bytes a block has that `keep_freed` frees.
const KEPT: usize = 4 << 20;

// The place of the last batch's gate, if two rows have one last place.
fn unless_lawful(last: Option<u64>, rows: &StoreRows) -> Option<u64>
    ensures { result ≡ (if rows.now.lawful then None else last) }
{
    if rows.is_lawful() { None } else { last }
}

// The place of the last batch's gate.
fn last_gate(batches: &[Batch]) -> Option<u64>
    ensures { result ≡ last_gate_of batches.now }
{
    match batches.last() {
        Some(batch) => Some(batch.gate),
        None => None,
    }
}

// Reads the batches of a disk.
fn read_batches<D: Disk>(
    alloc: Global,
    salt: Salt,
    limits: &Limits,
    disk: &mut D,
    batches: &[Batch],
) -> Result<Found, LogFault>
    requires fits { All Fits batches.now }
    ensures found { IfOk result (λ found. (payloads : List (List ℕ))
        × IsFound (bounds_of limits.now) payloads found) }
    ensures store { (D.state disk.old).told → (payloads : List (List ℕ))
        → AreThere (D.state disk.old).reads batches.now payloads
        → IfOk result (IsFound (bounds_of limits.now) payloads) }
    ensures placed { (D.state disk.old).told → (payloads : List (List ℕ))
        → AreThere (D.state disk.old).reads batches.now payloads
        → IfOk result (λ found. ArePlaced batches.now payloads found.rows) }
    ensures settled { IfOk result (λ found. IsSettled found.rows) }
    ensures none { batches.now ≡ [] → IfOk result (IsFound (bounds_of limits.now) []) }
    ensures bad { (D.state disk.old).told → (payloads : List (List ℕ))
        → AreThere (D.state disk.old).reads batches.now payloads
        → (place : ℕ) → IsErrOf result (fault.BadStore place)
        → StopsAt (bounds_of limits.now) batches.now payloads place }
    ensures looks { OnlyLooks (D.state disk.old) (D.state disk.new) }
    ensures uses { UsesDisk D.state D.faults D.spent disk.old disk.new
        (IsErrOf result fault.StoreFault) }
{
    let mut reading = Reading::new(alloc, salt)?;
    for batch in batches {
        let payload = read_payload(alloc, disk, *batch)?;
        if !reading.take(alloc, limits, *batch, payload.as_slice())? {
            return Err(LogFault::BadStore(batch.gate));
        }
    }
    Ok(reading.finish(alloc, limits)?)
}
