//! The trait of disks, and what a crash may leave of one.
//!
//! Between two syncs each written range may hold any bytes after a crash, and the part past the old
//! end may be missing or hold any bytes. A write of exactly one byte leaves the old disk or the new
//! one. Bytes outside the written ranges stay, and after a sync that succeeded a crash leaves what a
//! read gives. Each call moves a clock on, so that a clause can speak of what a crash at any moment
//! since its start may have left.
ghost use Rattle.std.specs.Prelude.{◌≡◌, ◌≤◌, ◌<◌, ℕ, take, drop, length, IfOk, OnOk, OnErr, IsErr};
ghost use Rattle.std.specs.Io.{ReadsAtMost};
ghost use Rattle.outside.specs.Disk.{DiskState, IsDisk, put_at, MayBecome, Follows, IsDurable, Elapses, OnlyLooks, UsesDisk};

use crate::streams::Failed;

/// Bytes that stay, also over a crash.
pub trait Disk {
    /// What the disk is now.
    ghost state: { Self → DiskState };

    /// How often a call failed.
    ghost faults: { Self → ℕ };

    /// A counter of the disk stands at its end, so that a further fault couldn't be seen.
    ghost spent: { Self → Type 0 };

    /// The number of bytes.
    fn len(&mut self) -> Result<u64, Failed>
        ensures length { (state self.old).told
            → IfOk result (λ n. n ≡ length (state self.old).reads) }
        ensures looks { OnlyLooks (state self.old) (state self.new) }
        ensures uses { UsesDisk state faults spent self.old self.new (IsErr result) };

    /// Fills a prefix of `buf` with the bytes from `at` on, and says how many they are. They are
    /// none only if `at` isn't below the length or `buf` is empty.
    fn read_at(&mut self, at: u64, buf: &mut [u8]) -> Result<usize, Failed>
        ensures bound { ReadsAtMost result buf.new }
        ensures bytes { (state self.old).told
            → IfOk result (λ n. take n buf.new ≡ take n (drop at (state self.old).reads)) }
        ensures some { (state self.old).told
            → at < length (state self.old).reads → 0 < length buf.old → IfOk result (λ n. 0 < n) }
        ensures looks { OnlyLooks (state self.old) (state self.new) }
        ensures uses { UsesDisk state faults spent self.old self.new (IsErr result) };

    /// Writes all of these bytes over what is there, and past the end. If it fails they may be
    /// there in part.
    fn write_at(&mut self, at: u64, bytes: &[u8]) -> Result<(), Failed>
        requires within { (state self.old).told → at ≤ length (state self.old).reads }
        ensures written { (state self.old).told
            → OnOk result ((state self.new).reads ≡ put_at at bytes.now (state self.old).reads) }
        ensures refused { (state self.old).told
            → OnErr result (MayBecome at bytes.now (state self.old).reads (state self.new).reads) }
        ensures crash { Follows (MayBecome at bytes.now)
            (state self.old).image (state self.new).image }
        ensures time { Elapses (state self.old) (state self.new) }
        ensures uses { UsesDisk state faults spent self.old self.new (IsErr result) };

    /// After it a crash leaves what a read gives.
    fn sync(&mut self) -> Result<(), Failed>
        ensures durable { OnOk result (IsDurable (state self.new)) }
        ensures looks { OnlyLooks (state self.old) (state self.new) }
        ensures uses { UsesDisk state faults spent self.old self.new (IsErr result) };

    ghost lawful: { (disk : Self) → IsDisk (state disk) };
}
