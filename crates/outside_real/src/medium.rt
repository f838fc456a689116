//! What the bytes of a disk stand on: a file, or in a test what stands in for one.
//!
//! Nothing is known of the bytes of a file. If the bytes of a stand-in are known, the disk over it gives
//! exactly those.
ghost use Rattle.std.specs.Prelude.{◌≡◌, ◌≤◌, ◌<◌, ◌↔◌, take, drop, length, IfOk, OnOk, OnErr};
ghost use Rattle.std.specs.Io.{ReadsAtMost};
ghost use Rattle.outside.specs.Disk.{DiskState, IsDisk, put_at, MayBecome, Follows, IsDurable, Elapses, OnlyLooks, silent};
ghost use Rattle.outside.specs.DiskLaws.{silent_is_disk};

use crate::tries::{TRIES, is_interrupted};
use std::fs::File;
use std::io;
use std::io::ErrorKind;
use std::os::unix::fs::FileExt;

/// Bytes that are read and written at any place.
pub trait Medium {
    /// What a disk over it is now.
    ghost state: { Self → DiskState };

    /// The number of bytes.
    fn size(&mut self) -> io::Result<u64>
        ensures length { (state self.old).told
            → IfOk result (λ n. n ≡ length (state self.old).reads) }
        ensures looks { OnlyLooks (state self.old) (state self.new) }
        ensures tells { (state self.old).told ↔ (state self.new).told };

    /// Fills a prefix of `buf` with the bytes from `at` on, and says how many they are.
    fn read_from(&mut self, at: u64, buf: &mut [u8]) -> io::Result<usize>
        ensures bound { ReadsAtMost result buf.new }
        ensures bytes { (state self.old).told
            → IfOk result (λ n. take n buf.new ≡ take n (drop at (state self.old).reads)) }
        ensures some { (state self.old).told
            → at < length (state self.old).reads → 0 < length buf.old → IfOk result (λ n. 0 < n) }
        ensures looks { OnlyLooks (state self.old) (state self.new) }
        ensures tells { (state self.old).told ↔ (state self.new).told };

    /// Writes all of these bytes. If it fails they may be there in part.
    fn write_all_to(&mut self, at: u64, bytes: &[u8]) -> io::Result<()>
        requires within { (state self.old).told → at ≤ length (state self.old).reads }
        ensures written { (state self.old).told
            → OnOk result ((state self.new).reads ≡ put_at at bytes.now (state self.old).reads) }
        ensures refused { (state self.old).told
            → OnErr result (MayBecome at bytes.now (state self.old).reads (state self.new).reads) }
        ensures crash { Follows (MayBecome at bytes.now)
            (state self.old).image (state self.new).image }
        ensures time { Elapses (state self.old) (state self.new) }
        ensures tells { (state self.old).told ↔ (state self.new).told };

    /// Hands what was written to the device, and waits until it says that it has it.
    fn flush_all(&mut self) -> io::Result<()>
        ensures durable { OnOk result (IsDurable (state self.new)) }
        ensures looks { OnlyLooks (state self.old) (state self.new) }
        ensures tells { (state self.old).told ↔ (state self.new).told };

    ghost lawful: { (medium : Self) → IsDisk (state medium) };
}

impl Medium for File {
    ghost state = { λ _. silent };

    fn size(&mut self) -> io::Result<u64> {
        let data = self.metadata()?;
        Ok(data.len())
    }

    fn read_from(&mut self, at: u64, buf: &mut [u8]) -> io::Result<usize> {
        for _ in 0..TRIES {
            match FileExt::read_at(self, buf, at) {
                Ok(count) => return Ok(count),
                Err(fault) => {
                    if !is_interrupted(&fault) {
                        return Err(fault);
                    }
                }
            }
        }
        Err(io::Error::new(ErrorKind::Interrupted, "too many tries"))
    }

    fn write_all_to(&mut self, at: u64, bytes: &[u8]) -> io::Result<()> {
        self.write_all_at(bytes, at)
    }

    fn flush_all(&mut self) -> io::Result<()> {
        self.sync_all()
    }

    ghost lawful = { λ _. silent_is_disk };
}
