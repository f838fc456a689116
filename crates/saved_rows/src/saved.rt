//! Where the rows of a store stand, and reading one.
ghost use Rattle.std.specs.Prelude.{◌≡◌, ◌≤◌, ◌<◌, ◌+◌, ◌*◌, ◌++◌, ◌^◌, ℕ, List, [], length, map, slice_index_or, IfOk, IsErrOf, OnOk};
ghost use Rattle.std.specs.List.{All};
ghost use Rattle.outside.specs.Disk.{OnlyLooks, UsesDisk};
ghost use Rattle.block_cache.specs.Cached.{IsCacheOf};
ghost use Rattle.reach_rows.specs.declared.rows.Row.{Row as ARow};
ghost use Rattle.reach_rows.specs.declared.rows.RowFault.TheVariants as fault;
ghost use Rattle.reach_rows.specs.Packed.{with_last};
ghost use Rattle.row_codec.specs.declared.rows.StoreRow.TheVariants.{Extend};
ghost use Rattle.saved_rows.specs.Runs.{IsRunOf, place_in};
ghost use Rattle.saved_rows.specs.declared.runs.Run.{Run as ARun};
ghost use Rattle.saved_rows.specs.Saved.{AreSpelledFrom, Gives, HasLast, HasRows, IsSingle, IsSpelledAt, SameRows, as_kept, end_of, kept_row, with_firm};

use crate::reading::{KEPT, kept_at, mark_at};
use crate::runs::{Run, run_of};
use block_cache::BlockCache;
use flow_base::NoMemory;
use indexmap::IndexMap;
use outside::Disk;
use reach_rows::{Mark, Row, RowFault};
use row_codec::{ExtendRow, KeptRow};
use std::alloc::Global;
use std::marker::Model;
use table_salt::Salt;

/// Where the rows of a store stand on its disk, and the blocks of it that were read lately.
#[derive(Drop)]
pub struct SavedRows {
    runs: Vec<Run>,
    count: u64,
    ends: IndexMap<u64, u64, Salt>,
    cache: BlockCache,
}

impl Model for SavedRows {
    ghost use Rattle.std.specs.Prelude.{◌-◌, vec_len, vec_capacity};
    ghost use Rattle.indexmap.specs.IndexMap as index;
    ghost use Rattle.saved_rows.specs.Runs.{AreRuns};
    ghost use Rattle.saved_rows.specs.Saved.{AreEnds, Saved};

    ghost Value = { Saved };

    ghost view = { λ a. record {
      runs = a.runs.items;
      count = a.count;
      ends = a.ends.entries;
      cache = a.cache;
      runs_room = vec_capacity a.runs - vec_len a.runs;
      ends_room = index.spare a.ends;
    } };

    ghost invariant = { λ a. AreRuns a.count a.runs.items × AreEnds a.count a.ends.entries };
}

impl SavedRows {
    /// No rows, of a disk whose bytes before the place `firm` don't change.
    pub fn new(alloc: Global, salt: Salt, firm: u64) -> Result<SavedRows, NoMemory>
        ensures none { IfOk result (λ saved. (bytes : List ℕ) → HasRows bytes saved []) }
        ensures count { IfOk result (λ saved. saved.count ≡ 0) }
        ensures cache { IfOk result (λ saved. (bytes : List ℕ) → IsCacheOf bytes saved.cache) }
        ensures firm { IfOk result (λ saved. saved.cache.firm ≡ firm) }
    {
        let cache = BlockCache::new(alloc, firm)?;
        Ok(SavedRows {
            runs: Vec::new(alloc),
            count: 0,
            ends: IndexMap::with_hasher(alloc, salt),
            cache,
        })
    }

    /// How many rows there are.
    pub fn count(&self) -> u64
        ensures { result ≡ self.now.count }
    {
        self.count
    }

    /// More of the disk's bytes don't change any more: those before the place `firm`.
    pub fn raise(&mut self, firm: u64)
        requires { self.old.cache.firm ≤ firm }
        ensures { self.new ≡ with_firm firm self.old }
    {
        self.cache.raise(firm);
    }

    /// The place before which the disk's bytes don't change.
    pub fn firm(&self) -> u64
        ensures { result ≡ self.now.cache.firm }
    {
        let _ = self.count;
        self.cache.firm()
    }

    /// The place of the Kept row of the row at an index.
    pub fn place(&self, index: u64) -> u64
        requires index { index < self.now.count }
        ensures place { (k : ℕ) × IsRunOf self.now.runs index k
            × ((d : ARun) → result ≡ place_in (slice_index_or self.now.runs k d) index) }
        ensures fits { result + 46 < 2 ^ 64 }
    {
        let _ = self.count;
        let run = run_of(self.runs.as_slice(), index);
        run.place + KEPT as u64 * (index - run.first)
    }

    /// Makes room for the rows of one more batch, of which this many are Extend rows.
    pub fn reserve(&mut self, extends: usize) -> Result<(), NoMemory>
        ensures room { OnOk result ((1 ≤ self.new.runs_room) × (extends ≤ self.new.ends_room)) }
        ensures same { SameRows self.old self.new }
    {
        self.runs.reserve(1)?;
        self.ends.reserve(extends)?;
        Ok(())
    }

    /// The Kept rows of this many more rows stand from a place on, one after the other.
    pub fn add_kept(&mut self, place: u64, more: u64)
        requires room { 1 ≤ self.old.runs_room }
        requires fits { place + 46 * more < 2 ^ 64 }
        requires few { self.old.count + more < 2 ^ 64 }
        ensures rows { (bytes : List ℕ) (R added : List ARow) → HasRows bytes self.old R
            → length added ≡ more → All IsSingle added
            → AreSpelledFrom bytes self.old.cache.firm place (map as_kept added)
            → HasRows bytes self.new (R ++ added) }
        ensures count { self.new.count ≡ self.old.count + more }
        ensures cache { self.new.cache ≡ self.old.cache }
        ensures room { self.new.ends_room ≡ self.old.ends_room }
    {
        if more == 0 {
            return;
        }
        self.runs.push_reserved(Run {
            first: self.count,
            place,
        });
        self.count += more;
    }

    /// An Extend row of a row stands at a place, after all others of this row.
    pub fn add_extend(&mut self, place: u64, extend: &ExtendRow)
        requires room { 1 ≤ self.old.ends_room }
        requires fits { place + 30 < 2 ^ 64 }
        requires row { extend.now.row < self.old.count }
        ensures rows { (bytes : List ℕ) (R : List ARow) → HasRows bytes self.old R
            → IsSpelledAt bytes self.old.cache.firm place (Extend extend.now)
            → (d : ARow) → HasRows bytes self.new (with_last R extend.now.row extend.now.mark d) }
        ensures count { self.new.count ≡ self.old.count }
        ensures cache { self.new.cache ≡ self.old.cache }
        ensures room { self.old.ends_room ≤ self.new.ends_room + 1 }
    {
        match self.ends.insert(extend.row, place) {
            Ok(_) => {}
            Err(_) => unreachable!(),
        }
    }

    /// The row at an index. The store is bad at a place at which it doesn't have the row.
    pub fn row<D: Disk>(&mut self, disk: &mut D, index: u64) -> Result<Row, RowFault>
        requires index { index < self.old.count }
        requires cache { (D.state disk.old).told
            → IsCacheOf (D.state disk.old).reads self.old.cache }
        ensures exact { (D.state disk.old).told → (R : List ARow) (d : ARow)
            → HasRows (D.state disk.old).reads self.old R
            → Gives result (slice_index_or R index d) }
        ensures same { self.new ≡ record self.old { cache = self.new.cache } }
        ensures cache { (D.state disk.old).told
            → IsCacheOf (D.state disk.new).reads self.new.cache }
        ensures firm { self.new.cache.firm ≡ self.old.cache.firm }
        ensures looks { OnlyLooks (D.state disk.old) (D.state disk.new) }
        ensures uses { UsesDisk D.state D.faults D.spent disk.old disk.new
            (IsErrOf result fault.StoreFault) }
    {
        let place = self.place(index);
        match kept_at(&mut self.cache, disk, place) {
            Ok(kept) => self.row_of(disk, index, kept),
            Err(fault) => Err(fault),
        }
    }

    // The row at an index, by its Kept row.
    fn row_of<D: Disk>(&mut self, disk: &mut D, index: u64, kept: KeptRow) -> Result<Row, RowFault>
        requires cache { (D.state disk.old).told
            → IsCacheOf (D.state disk.old).reads self.old.cache }
        ensures row { (D.state disk.old).told → (firm : ℕ) (r : ARow) → kept ≡ kept_row r
            → HasLast (D.state disk.old).reads firm index r (end_of self.old.ends index)
            → Gives result r }
        ensures same { self.new ≡ record self.old { cache = self.new.cache } }
        ensures cache { (D.state disk.old).told
            → IsCacheOf (D.state disk.new).reads self.new.cache }
        ensures firm { self.new.cache.firm ≡ self.old.cache.firm }
        ensures looks { OnlyLooks (D.state disk.old) (D.state disk.new) }
        ensures uses { UsesDisk D.state D.faults D.spent disk.old disk.new
            (IsErrOf result fault.StoreFault) }
    {
        match self.last_of(disk, index, kept.mark) {
            Ok(last) => Ok(Row {
                from: kept.from,
                to: kept.to,
                first: kept.mark,
                last,
                before_to: kept.before_to,
                before_from: kept.before_from,
            }),
            Err(fault) => Err(fault),
        }
    }

    // The mark of the last flow of the row at an index, whose first flow has this mark.
    fn last_of<D: Disk>(&mut self, disk: &mut D, index: u64, first: Mark) -> Result<Mark, RowFault>
        requires cache { (D.state disk.old).told
            → IsCacheOf (D.state disk.old).reads self.old.cache }
        ensures mark { (D.state disk.old).told → (firm : ℕ) (r : ARow) → r.first ≡ first
            → HasLast (D.state disk.old).reads firm index r (end_of self.old.ends index)
            → Gives result r.last }
        ensures same { self.new ≡ record self.old { cache = self.new.cache } }
        ensures cache { (D.state disk.old).told
            → IsCacheOf (D.state disk.new).reads self.new.cache }
        ensures firm { self.new.cache.firm ≡ self.old.cache.firm }
        ensures looks { OnlyLooks (D.state disk.old) (D.state disk.new) }
        ensures uses { UsesDisk D.state D.faults D.spent disk.old disk.new
            (IsErrOf result fault.StoreFault) }
    {
        match self.ends.get(&index).copied() {
            Some(place) => mark_at(&mut self.cache, disk, place),
            None => Ok(first),
        }
    }
}
