//! Reading the rows at places of a disk.
ghost use Rattle.std.specs.Prelude.{◌≡◌, ◌<◌, ◌+◌, ◌^◌, ℕ, length, IfOk, IsErrOf};
ghost use Rattle.outside.specs.Disk.{OnlyLooks, UsesDisk};
ghost use Rattle.block_cache.specs.Cached.{HasRange, IsCacheOf, range};
ghost use Rattle.reach_rows.specs.declared.rows.RowFault.TheVariants as fault;
ghost use Rattle.row_codec.specs.declared.rows.ExtendRow.{ExtendRow as AnExtendRow};
ghost use Rattle.row_codec.specs.declared.rows.KeptRow.{KeptRow as AKeptRow};
ghost use Rattle.row_codec.specs.declared.rows.StoreRow.TheVariants.{Kept, Extend};
ghost use Rattle.saved_rows.specs.Saved.{Gives, IsSpelledAt};

use block_cache::BlockCache;
use outside::Disk;
use reach_rows::{Mark, RowFault};
use row_codec::{KeptRow, read_extend, read_kept, spellings_are_apart};

/// How many bytes a Kept row has.
pub const KEPT: usize = 46;

/// How many bytes an Extend row has.
pub const EXTEND: usize = 30;

/// The Kept row at a place. The store is bad there if none stands there.
pub fn kept_at<D: Disk>(
    cache: &mut BlockCache,
    disk: &mut D,
    place: u64,
) -> Result<KeptRow, RowFault>
    requires fits { place + 46 < 2 ^ 64 }
    requires cache { (D.state disk.old).told → IsCacheOf (D.state disk.old).reads cache.old }
    ensures row { (D.state disk.old).told → (firm : ℕ) (r : AKeptRow)
        → IsSpelledAt (D.state disk.old).reads firm place (Kept r) → Gives result r }
    ensures cache { (D.state disk.old).told → IsCacheOf (D.state disk.new).reads cache.new }
    ensures firm { cache.new.firm ≡ cache.old.firm }
    ensures looks { OnlyLooks (D.state disk.old) (D.state disk.new) }
    ensures uses { UsesDisk D.state D.faults D.spent disk.old disk.new
        (IsErrOf result fault.StoreFault) }
{
    spellings_are_apart();
    let mut bytes = [0; KEPT];
    match fill(cache, disk, place, bytes.as_mut_slice()) {
        Ok(()) => match read_kept(bytes.as_slice()) {
            Some(row) => Ok(row),
            None => Err(RowFault::BadStore(place)),
        },
        Err(fault) => Err(fault),
    }
}

/// The mark of the Extend row at a place. The store is bad there if none stands there.
pub fn mark_at<D: Disk>(cache: &mut BlockCache, disk: &mut D, place: u64) -> Result<Mark, RowFault>
    requires fits { place + 30 < 2 ^ 64 }
    requires cache { (D.state disk.old).told → IsCacheOf (D.state disk.old).reads cache.old }
    ensures mark { (D.state disk.old).told → (firm : ℕ) (r : AnExtendRow)
        → IsSpelledAt (D.state disk.old).reads firm place (Extend r) → Gives result r.mark }
    ensures cache { (D.state disk.old).told → IsCacheOf (D.state disk.new).reads cache.new }
    ensures firm { cache.new.firm ≡ cache.old.firm }
    ensures looks { OnlyLooks (D.state disk.old) (D.state disk.new) }
    ensures uses { UsesDisk D.state D.faults D.spent disk.old disk.new
        (IsErrOf result fault.StoreFault) }
{
    spellings_are_apart();
    let mut bytes = [0; EXTEND];
    match fill(cache, disk, place, bytes.as_mut_slice()) {
        Ok(()) => match read_extend(bytes.as_slice()) {
            Some(row) => Ok(row.mark),
            None => Err(RowFault::BadStore(place)),
        },
        Err(fault) => Err(fault),
    }
}

// Fills a buffer with the bytes from a place on. The store is bad there if it ends before them.
fn fill<D: Disk>(
    cache: &mut BlockCache,
    disk: &mut D,
    place: u64,
    bytes: &mut [u8],
) -> Result<(), RowFault>
    requires fits { place + length bytes.old < 2 ^ 64 }
    requires cache { (D.state disk.old).told → IsCacheOf (D.state disk.old).reads cache.old }
    ensures bytes { (D.state disk.old).told → IfOk result (λ _.
        bytes.new ≡ range place (length bytes.new) (D.state disk.old).reads) }
    ensures there { (D.state disk.old).told
        → HasRange place (length bytes.new) (D.state disk.old).reads
        → (at : ℕ) → IsErrOf result (fault.BadStore at) → ⊥ }
    ensures cache { (D.state disk.old).told → IsCacheOf (D.state disk.new).reads cache.new }
    ensures firm { cache.new.firm ≡ cache.old.firm }
    ensures looks { OnlyLooks (D.state disk.old) (D.state disk.new) }
    ensures uses { UsesDisk D.state D.faults D.spent disk.old disk.new
        (IsErrOf result fault.StoreFault) }
{
    match cache.read(disk, place, bytes) {
        Ok(true) => Ok(()),
        Ok(false) => Err(RowFault::BadStore(place)),
        Err(_) => Err(RowFault::StoreFault),
    }
}
