//! The log of a disk, and its commits.
ghost use Rattle.std.specs.Prelude.{◌≡◌, ◌≤◌, ◌<◌, ◌+◌, ◌↔◌, ◌++◌, List, ℕ, [], ◌∷◌, length, Some, None, true, IfOk, IfSome, OnOk, IsErrOf};
ghost use Rattle.outside.specs.Disk.{put_at, IsDurable, KeepsFront, LeavesOnly, UsesDisk};
ghost use Rattle.batch_log.specs.declared.log.CommitFault.TheVariants as fault;
ghost use Rattle.batch_log.specs.Log.{next_gate, passed, log_of, log_after, IsRefused, LogHas, EachHas};
ghost use Rattle.batch_log.specs.Batches as on_disk;
ghost use Rattle.batch_log.specs.Batches.{after_gate, length_bytes, IsBeforeOrAfter};

use crate::put::{CLOSED, put_batch};
use flow_base::{Bytes, Full, Limit, Limits, NoMemory};
use outside::Disk;
use std::alloc::Global;
use std::marker::Model;

/// Why a batch wasn't put on the disk: a call on the disk failed, a limit would be passed, or an
/// allocation failed.
#[derive(Clone, Copy, Debug, PartialEq, Eq)]
pub enum CommitFault {
    StoreFault,
    Full(Full),
    NoMemory,
}

impl From<NoMemory> for CommitFault {
    ghost from_gives = { λ _ e. e ≡ fault.NoMemory };

    fn from(_: NoMemory) -> CommitFault {
        CommitFault::NoMemory
    }
}

impl From<Full> for CommitFault {
    ghost from_gives = { λ full e. e ≡ fault.Full full };

    fn from(full: Full) -> CommitFault {
        CommitFault::Full(full)
    }
}

/// What is known of the batches on a disk.
#[derive(Drop)]
pub struct BatchLog {
    alloc: Global,
    most: u64,
    end: u64,
    last: Option<u64>,
    usable: bool,
}

impl Model for BatchLog {
    ghost use Rattle.std.specs.Prelude.{◌≤◌, ◌^◌};
    ghost use Rattle.batch_log.specs.Log.{Log};

    ghost Value = { Log };

    ghost view = { λ a. record { most = a.most; end = a.end; last = a.last; usable = a.usable } };

    ghost invariant = { λ a. (a.most ≤ 2 ^ 30) × (a.end ≤ 2 ^ 50) };
}

impl BatchLog {
    /// The log of a disk with this last gate, of which no commit has failed.
    pub(crate) fn new(alloc: Global, limits: &Limits, last: Option<u64>) -> BatchLog
        ensures { result ≡ log_of limits.now last }
    {
        BatchLog {
            alloc,
            most: limits.payload,
            end: limits.store,
            last,
            usable: true,
        }
    }

    /// Puts a batch with this payload after those that are there. A crash at any moment leaves a
    /// store of the batches from before, or of these and the new one. After `StoreFault` either may
    /// be there, and the disk has to be opened again. After `Full` and `NoMemory` nothing has
    /// changed.
    #[tactic(auto, using(crate::proofs::Writing::length_after_gate))]
    pub fn commit<D: Disk>(&mut self, disk: &mut D, payload: &[u8]) -> Result<(), CommitFault>
        requires usable { self.old.usable ≡ true }
        requires stands { (D.state disk.old).told
            → (payloads : List (List ℕ)) × LogHas self.old payloads (D.state disk.old).reads }
        ensures written { (D.state disk.old).told → OnOk result ((D.state disk.new).reads
            ≡ put_at (next_gate self.old) (on_disk.OPEN ∷ after_gate payload.now)
            (D.state disk.old).reads) }
        ensures adds { (D.state disk.old).told → (payloads : List (List ℕ))
            → LogHas self.old payloads (D.state disk.old).reads
            → OnOk result
            (LogHas self.new (payloads ++ payload.now ∷ []) (D.state disk.new).reads) }
        ensures front { (D.state disk.old).told
            → KeepsFront (next_gate self.old) (D.state disk.old) (D.state disk.new) }
        ensures durable { OnOk result (IsDurable (D.state disk.new)) }
        ensures any_moment { (D.state disk.old).told → (payloads : List (List ℕ))
            → EachHas self.old payloads (D.state disk.old).image
            → LeavesOnly (D.state disk.old) (D.state disk.new)
            (IsBeforeOrAfter self.old.most payloads payload.now) }
        ensures log { self.new ≡ log_after self.old (9 + length payload.now) result }
        ensures full { (full : _) → IsErrOf result (fault.Full full)
            ↔ (passed self.old (length payload.now) ≡ Some full) }
        ensures refused { IsRefused result → disk.new ≡ disk.old }
        ensures uses { UsesDisk D.state D.faults D.spent disk.old disk.new
            (IsErrOf result fault.StoreFault) }
    {
        self.admit(payload.len())?;
        let staged = stage(self.alloc, payload)?;
        self.put(disk, staged.as_slice())
    }

    /// Whether no commit has failed on the disk.
    pub fn usable(&self) -> bool
        ensures { result ≡ self.now.usable }
    {
        self.usable
    }

    /// The place of the next batch's gate.
    pub fn next_gate(&self) -> u64
        ensures { result ≡ next_gate self.now }
    {
        self.last.unwrap_or(0)
    }

    // Refuses a payload of this length if it would pass a limit.
    fn admit(&self, length: usize) -> Result<(), Full>
        ensures none { OnOk result (passed self.now length ≡ None) }
        ensures short { OnOk result (length ≤ self.now.most) }
        ensures fits { OnOk result (next_gate self.now + 10 + length ≤ self.now.end) }
        ensures full { (full : _) → IsErrOf result full ↔ (passed self.now length ≡ Some full) }
    {
        if length as u64 > self.most {
            return Err(Full {
                limit: Limit::Payload,
                number: self.most,
            });
        }
        let room = self.end.saturating_sub(self.last.unwrap_or(0));
        if room < 10 + length as u64 {
            return Err(Full {
                limit: Limit::Store,
                number: self.end,
            });
        }
        Ok(())
    }

    // Puts what belongs after the last gate there, and keeps where the next batch begins.
    fn put<D: Disk>(&mut self, disk: &mut D, staged: &[u8]) -> Result<(), CommitFault>
        requires usable { self.old.usable ≡ true }
        requires fits { next_gate self.old + 1 + length staged.now ≤ self.old.end }
        requires within { (D.state disk.old).told
            → IfSome self.old.last (λ gate. gate < length (D.state disk.old).reads) }
        requires empty { (D.state disk.old).told
            → self.old.last ≡ None → (D.state disk.old).reads ≡ [] }
        ensures written { (D.state disk.old).told → OnOk result ((D.state disk.new).reads
            ≡ put_at (next_gate self.old) (on_disk.OPEN ∷ staged.now) (D.state disk.old).reads) }
        ensures front { (D.state disk.old).told
            → KeepsFront (next_gate self.old) (D.state disk.old) (D.state disk.new) }
        ensures durable { OnOk result (IsDurable (D.state disk.new)) }
        ensures any_moment { (D.state disk.old).told → (payloads : List (List ℕ)) (payload : List ℕ)
            → staged.now ≡ after_gate payload → length payload ≤ self.old.most
            → EachHas self.old payloads (D.state disk.old).image
            → LeavesOnly (D.state disk.old) (D.state disk.new)
            (IsBeforeOrAfter self.old.most payloads payload) }
        ensures log { self.new ≡ log_after self.old (length staged.now) result }
        ensures tried { IsRefused result → ⊥ }
        ensures uses { UsesDisk D.state D.faults D.spent disk.old disk.new
            (IsErrOf result fault.StoreFault) }
    {
        let gate = self.last.unwrap_or(0);
        match put_batch(disk, self.last, staged) {
            Ok(()) => {
                self.last = Some(gate + staged.len() as u64);
                Ok(())
            }
            Err(_) => {
                self.usable = false;
                Err(CommitFault::StoreFault)
            }
        }
    }
}

// What belongs after the gate of a batch with this payload.
fn stage(alloc: Global, payload: &[u8]) -> Result<Bytes, NoMemory>
    ensures { IfOk result (λ staged. staged ≡ after_gate payload.now) }
{
    let mut staged = Bytes::new(alloc);
    append_length(&mut staged, payload.len())?;
    staged.append(payload)?;
    staged.append(&[CLOSED])?;
    Ok(staged)
}

// Appends a length to the bytes.
#[tactic(auto, unfolding(crate::specs::Batches::length_bytes))]
fn append_length(bytes: &mut Bytes, length: usize) -> Result<(), NoMemory>
    ensures { OnOk result (bytes.new ≡ bytes.old ++ length_bytes length) }
{
    bytes.append((length as u64).to_le_bytes().as_slice())
}
