//! Reading the payload of a batch.
ghost use Rattle.std.specs.Prelude.{◌≡◌, ◌≤◌, ◌+◌, ℕ, List, length, IfOk, IsErrOf};
ghost use Rattle.outside.specs.Disk.{OnlyLooks, UsesDisk};
ghost use Rattle.batch_log.specs.Payloads.{Fits, IsPayloadOf, EachIsThere};
ghost use Rattle.batch_log.specs.declared.open.LogFault.TheVariants as fault;

use crate::find::Batch;
use crate::open::LogFault;
use flow_base::{Bytes, NoMemory};
use outside::{Disk, read_whole};
use std::alloc::Global;

/// The payload of a batch that `open_on` listed. If the disk ends before it the store is bad at the
/// batch's gate.
pub fn read_payload<D: Disk>(alloc: Global, disk: &mut D, batch: Batch) -> Result<Bytes, LogFault>
    requires fits { Fits batch }
    ensures payload { (D.state disk.old).told
        → IfOk result (IsPayloadOf batch (D.state disk.old).reads) }
    ensures length { IfOk result (λ payload. length payload ≡ batch.length) }
    ensures there { (D.state disk.old).told
        → batch.gate + 9 + batch.length ≤ length (D.state disk.old).reads
        → (place : ℕ) → IsErrOf result (fault.BadStore place) → ⊥ }
    ensures looks { OnlyLooks (D.state disk.old) (D.state disk.new) }
    ensures uses { UsesDisk D.state D.faults D.spent disk.old disk.new
        (IsErrOf result fault.StoreFault) }
{
    let mut room = room_for(alloc, batch.length as usize)?;
    if read_whole(disk, batch.gate + 9, room.as_mut_slice())? {
        return Ok(Bytes::from_vec(room));
    }
    Err(LogFault::BadStore(batch.gate))
}

// Memory for this many bytes.
fn room_for(alloc: Global, count: usize) -> Result<Vec<u8>, NoMemory>
    ensures { IfOk result (λ room. length room.items ≡ count) }
{
    Ok(vec![in alloc; 0; count]?)
}

/// The batches of a store are all there, each with its payload after its length.
pub fn listed_batches_have_their_payloads()
    ensures { EachIsThere }
{}
