//! A disk that stops: it passes some calls on to another disk, and every later one fails.
ghost use Rattle.std.specs.Prelude.{◌≡◌, ◌≤◌, ◌+◌, ◌-◌, ◌^◌, true, false, ◌⊎◌, IsTrue, IsFalse};
ghost use Rattle.outside.specs.Cause.{Rose};

use crate::disk::Disk;
use crate::streams::Failed;

/// A disk that passes the next `left` calls on to its own disk, fails every later one and counts
/// these in `failed`.
#[derive(Drop)]
pub struct StopDisk<D: Disk> {
    pub disk: D,
    pub left: u64,
    pub failed: u64,
}

impl<D: Disk> StopDisk<D> {
    // Whether this call is passed on. If it isn't, it is counted.
    fn passes(&mut self) -> bool
        ensures disk { self.new.disk ≡ self.old.disk }
        ensures failed { result ≡ true → self.new.failed ≡ self.old.failed }
        ensures rose { result ≡ false
            → Rose self.old.failed self.new.failed (self.new.failed ≡ 2 ^ 64 - 1) }
        ensures later { self.old.failed ≤ self.new.failed }
        ensures stays { self.old.failed ≡ 2 ^ 64 - 1 → self.new.failed ≡ 2 ^ 64 - 1 }
    {
        if self.left == 0 {
            self.failed = self.failed.saturating_add(1);
            return false;
        }
        self.left -= 1;
        true
    }
}

impl<D: Disk> Disk for StopDisk<D> {
    ghost state = { λ s. D.state s.disk };

    ghost faults = { λ s. D.faults s.disk + s.failed };

    ghost spent = { λ s. D.spent s.disk ⊎ (s.failed ≡ 2 ^ 64 - 1) };

    fn len(&mut self) -> Result<u64, Failed> {
        if self.passes() {
            return self.disk.len();
        }
        Err(Failed)
    }

    fn read_at(&mut self, at: u64, buf: &mut [u8]) -> Result<usize, Failed> {
        if self.passes() {
            return self.disk.read_at(at, buf);
        }
        Err(Failed)
    }

    #[tactic(auto, using(crate::specs::DiskLaws::may_stay))]
    fn write_at(&mut self, at: u64, bytes: &[u8]) -> Result<(), Failed> {
        if self.passes() {
            return self.disk.write_at(at, bytes);
        }
        Err(Failed)
    }

    fn sync(&mut self) -> Result<(), Failed> {
        if self.passes() {
            return self.disk.sync();
        }
        Err(Failed)
    }

    ghost lawful = { λ s. D.lawful s.disk };
}
