//! A disk over any medium.
ghost use Rattle.std.specs.Prelude.{◌≡◌, ◌≤◌, ◌<◌, ◌+◌, ◌-◌, ◌^◌, take, drop, length, Some, None, IfOk, OnOk, OnErr, IsErr, min};
ghost use Rattle.std.specs.Io.{ReadsAtMost};
ghost use Rattle.outside.specs.Cause.{Rose};
ghost use Rattle.outside.specs.Disk.{put_at, MayBecome, Follows, IsDurable, Elapses, OnlyLooks, UsesDisk};
ghost use Rattle.outside_real.specs.Devices.{state_of, state_is_disk, Answers, faults_of, is_spent};

use crate::medium::Medium;
use outside::{Disk, Failed};
use std::marker::Model;

/// A medium with a count of the calls that failed, or none, whose every call fails.
#[derive(Drop)]
pub struct Storing<M: Medium + Drop> {
    inner: Option<M>,
    faults: u64,
}

impl<M: Medium + Drop> Model for Storing<M> {
    ghost use Rattle.outside_real.specs.Devices.{Storing};

    ghost Value = { Storing M };

    ghost view = { λ a. record { inner = a.inner; faults = a.faults } };
}

impl<M: Medium + Drop> Storing<M> {
    /// A disk over this medium, or over none, that hasn't failed.
    pub fn new(inner: Option<M>) -> Storing<M>
        ensures { result ≡ record { inner = inner; faults = 0 } }
    {
        Storing { inner, faults: 0 }
    }

    // Counts a fault.
    fn fault(&mut self) -> Failed
        ensures counted { self.new
            ≡ record self.old { faults = min (self.old.faults + 1) (2 ^ 64 - 1) } }
        ensures rose { Rose self.old.faults self.new.faults (is_spent self.new) }
        ensures later { self.old.faults ≤ self.new.faults }
        ensures stays { is_spent self.old → is_spent self.new }
    {
        self.faults = self.faults.saturating_add(1);
        Failed
    }
}

impl<M: Medium + Drop> Disk for Storing<M> {
    ghost state = { state_of M.state };

    ghost faults = { faults_of };

    ghost spent = { is_spent };

    fn len(&mut self) -> Result<u64, Failed>
        ensures length { (state_of M.state self.old).told
            → IfOk result (λ n. n ≡ length (state_of M.state self.old).reads) }
        ensures looks { OnlyLooks (state_of M.state self.old) (state_of M.state self.new) }
        ensures uses { UsesDisk (state_of M.state) faults_of is_spent
            self.old self.new (IsErr result) }
        ensures answers { Answers self.old self.new result }
    {
        if let Some(medium) = &mut self.inner {
            if let Ok(size) = medium.size() {
                return Ok(size);
            }
        }
        Err(self.fault())
    }

    fn read_at(&mut self, at: u64, buf: &mut [u8]) -> Result<usize, Failed>
        ensures bound { ReadsAtMost result buf.new }
        ensures bytes { (state_of M.state self.old).told
            → IfOk result (λ n. take n buf.new
            ≡ take n (drop at (state_of M.state self.old).reads)) }
        ensures some { (state_of M.state self.old).told
            → at < length (state_of M.state self.old).reads
            → 0 < length buf.old → IfOk result (λ n. 0 < n) }
        ensures looks { OnlyLooks (state_of M.state self.old) (state_of M.state self.new) }
        ensures uses { UsesDisk (state_of M.state) faults_of is_spent
            self.old self.new (IsErr result) }
        ensures answers { Answers self.old self.new result }
    {
        if let Some(inner) = &mut self.inner {
            if let Ok(count) = inner.read_from(at, buf) {
                return Ok(count);
            }
        }
        Err(self.fault())
    }

    #[tactic(auto, using(outside::specs::DiskLaws::may_stay))]
    fn write_at(&mut self, at: u64, bytes: &[u8]) -> Result<(), Failed>
        requires within { (state_of M.state self.old).told
            → at ≤ length (state_of M.state self.old).reads }
        ensures written { (state_of M.state self.old).told → OnOk result
            ((state_of M.state self.new).reads
            ≡ put_at at bytes.now (state_of M.state self.old).reads) }
        ensures refused { (state_of M.state self.old).told → OnErr result (MayBecome at bytes.now
            (state_of M.state self.old).reads (state_of M.state self.new).reads) }
        ensures crash { Follows (MayBecome at bytes.now)
            (state_of M.state self.old).image (state_of M.state self.new).image }
        ensures time { Elapses (state_of M.state self.old) (state_of M.state self.new) }
        ensures uses { UsesDisk (state_of M.state) faults_of is_spent
            self.old self.new (IsErr result) }
        ensures answers { Answers self.old self.new result }
    {
        if let Some(inner) = &mut self.inner {
            if let Ok(()) = inner.write_all_to(at, bytes) {
                return Ok(());
            }
        }
        Err(self.fault())
    }

    fn sync(&mut self) -> Result<(), Failed>
        ensures durable { OnOk result (IsDurable (state_of M.state self.new)) }
        ensures looks { OnlyLooks (state_of M.state self.old) (state_of M.state self.new) }
        ensures uses { UsesDisk (state_of M.state) faults_of is_spent
            self.old self.new (IsErr result) }
        ensures answers { Answers self.old self.new result }
    {
        if let Some(inner) = &mut self.inner {
            if let Ok(()) = inner.flush_all() {
                return Ok(());
            }
        }
        Err(self.fault())
    }

    ghost lawful = { λ s. state_is_disk M.state M.lawful s.inner };
}
