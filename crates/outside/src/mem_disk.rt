//! A disk in memory, some of whose calls fail.
//!
//! It keeps a record of its writes and syncs. What it reads as is what these make of the bytes that it
//! began with, and what a crash may leave at each moment follows from the record by the model of
//! `Disk`. A call that fails changes nothing. If allocation fails as it grows, that is a fault of
//! the disk.
ghost use Rattle.std.specs.Prelude.{◌≡◌, ◌≤◌, ◌<◌, ◌+◌, ◌-◌, ◌^◌, ◌↔◌, ◌∷◌, [], take, drop, length, min, IsErr, OnOk, OnErr, IfOk};
ghost use Rattle.std.specs.List.{Contains};
ghost use Rattle.outside.specs.Cause.{HasCause, Rose};
ghost use Rattle.outside.specs.Disk.{put_at};
ghost use Rattle.outside.specs.DiskMemory.{Recorded, reads_of, disk_state};
ghost use Rattle.outside.specs.DiskLaws.{memory_is_disk};
ghost use Rattle.outside.specs.declared.mem_disk.DiskCall.TheVariants.{Wrote, Synced};

use crate::disk::Disk;
use crate::memory::{copy_front, is_to_fail};
use crate::streams::Failed;
use flow_base::{Bytes, List, NoMemory};
use std::alloc::Global;
use std::marker::Model;

/// A call that changed a disk, or what a crash may leave of it.
#[derive(Drop)]
pub enum DiskCall {
    Wrote { at: u64, bytes: Bytes },
    Synced,
}

/// A disk in memory, some of whose calls fail.
#[derive(Drop)]
pub struct MemDisk {
    alloc: Global,
    first: Bytes,
    // What stands there now, once it was written.
    changed: Option<Bytes>,
    past: List<DiskCall>,
    fails: List<u64>,
    calls: u64,
    faults: u64,
}

impl Model for MemDisk {
    ghost use Rattle.std.specs.Prelude.{◌≡◌, reverse, unwrap_or};
    ghost use Rattle.outside.specs.DiskMemory.{Recorded, reads_of};

    ghost Value = { Recorded };

    ghost view = { λ a. record {
      first = a.first;
      past = reverse a.past;
      fails = a.fails;
      calls = a.calls;
      faults = a.faults;
    } };

    ghost invariant = { λ a. unwrap_or a.changed a.first ≡ reads_of a.first (reverse a.past) };
}

// These bytes put over what stands at a place.
fn put_over(alloc: Global, old: &[u8], at: usize, bytes: &[u8]) -> Result<Bytes, NoMemory>
    requires { at ≤ length old.now }
    ensures { IfOk result (λ made. made ≡ put_at at bytes.now old.now) }
{
    let mut made = Bytes::from_slice(alloc, &old[..at])?;
    made.append(bytes)?;
    if bytes.len() < old.len() - at {
        made.append(&old[at + bytes.len()..])?;
    }
    Ok(made)
}

// Copies the bytes from a place on into the buffer, as many as fit, and says how many.
fn read_from(bytes: &[u8], at: u64, buf: &mut [u8]) -> usize
    ensures bound { result ≤ length buf.new }
    ensures bytes { take result buf.new ≡ take result (drop at bytes.now) }
    ensures some { at < length bytes.now → 0 < length buf.old → 0 < result }
{
    if at >= bytes.len() as u64 {
        return 0;
    }
    copy_front(&bytes[at as usize..], buf)
}

impl MemDisk {
    /// A disk with these bytes, whose calls of these numbers fail.
    pub fn new(alloc: Global, bytes: Bytes, fails: List<u64>) -> MemDisk
        ensures { result
            ≡ record { first = bytes; past = []; fails = fails; calls = 0; faults = 0 } }
    {
        MemDisk {
            alloc,
            first: bytes,
            changed: None,
            past: List::new(alloc),
            fails,
            calls: 0,
            faults: 0,
        }
    }

    /// The bytes that a read gives now.
    pub fn bytes(&self) -> &[u8]
        ensures { result.now ≡ reads_of self.now.first self.now.past }
    {
        match &self.changed {
            Some(bytes) => bytes.as_slice(),
            None => self.first.as_slice(),
        }
    }

    // Counts a fault.
    fn fault(&mut self) -> Failed
        ensures counted { self.new
            ≡ record self.old { faults = min (self.old.faults + 1) (2 ^ 64 - 1) } }
        ensures rose { Rose self.old.faults self.new.faults (self.new.faults ≡ 2 ^ 64 - 1) }
        ensures later { self.old.faults ≤ self.new.faults }
        ensures stays { self.old.faults ≡ 2 ^ 64 - 1 → self.new.faults ≡ 2 ^ 64 - 1 }
    {
        self.faults = self.faults.saturating_add(1);
        Failed
    }

    // Counts a call, and fails it if it is among those that are to fail.
    fn begin(&mut self) -> Result<(), Failed>
        ensures ok { OnOk result
            (self.new ≡ record self.old { calls = min (self.old.calls + 1) (2 ^ 64 - 1) }) }
        ensures err { OnErr result (self.new ≡ record self.old {
          calls = min (self.old.calls + 1) (2 ^ 64 - 1);
          faults = min (self.old.faults + 1) (2 ^ 64 - 1);
        }) }
        ensures fails { IsErr result ↔ Contains self.old.fails self.old.calls }
        ensures cause { HasCause self.old.faults self.new.faults
            (self.old.faults ≡ 2 ^ 64 - 1) (self.new.faults ≡ 2 ^ 64 - 1) result }
    {
        let call = self.calls;
        self.calls = call.saturating_add(1);
        if is_to_fail(self.fails.as_slice(), call) {
            return Err(self.fault());
        }
        Ok(())
    }

    // Writes, and keeps a record of it.
    fn put(&mut self, at: u64, bytes: &[u8]) -> Result<(), NoMemory>
        requires { at ≤ length (reads_of self.old.first self.old.past) }
        ensures ok { OnOk result
            (self.new ≡ record self.old { past = Wrote at bytes.now ∷ self.old.past }) }
        ensures err { OnErr result (self.new ≡ self.old) }
    {
        let next = put_over(self.alloc, self.bytes(), at as usize, bytes)?;
        let kept = Bytes::from_slice(self.alloc, bytes)?;
        self.past.push(DiskCall::Wrote { at, bytes: kept })?;
        self.changed = Some(next);
        Ok(())
    }

    // Keeps a record of a sync.
    fn keep_sync(&mut self) -> Result<(), NoMemory>
        ensures ok { OnOk result (self.new ≡ record self.old { past = Synced ∷ self.old.past }) }
        ensures err { OnErr result (self.new ≡ self.old) }
    {
        self.past.push(DiskCall::Synced)
    }
}

impl Disk for MemDisk {
    ghost state = { disk_state };

    ghost faults = { λ d. d.faults };

    ghost spent = { λ d. d.faults ≡ 2 ^ 64 - 1 };

    fn len(&mut self) -> Result<u64, Failed> {
        self.begin()?;
        Ok(self.bytes().len() as u64)
    }

    fn read_at(&mut self, at: u64, buf: &mut [u8]) -> Result<usize, Failed> {
        self.begin()?;
        Ok(read_from(self.bytes(), at, buf))
    }

    fn write_at(&mut self, at: u64, bytes: &[u8]) -> Result<(), Failed> {
        self.begin()?;
        match self.put(at, bytes) {
            Ok(()) => Ok(()),
            Err(_) => Err(self.fault()),
        }
    }

    fn sync(&mut self) -> Result<(), Failed> {
        self.begin()?;
        match self.keep_sync() {
            Ok(()) => Ok(()),
            Err(_) => Err(self.fault()),
        }
    }

    ghost lawful = { memory_is_disk };
}
