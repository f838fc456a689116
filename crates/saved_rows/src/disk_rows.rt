//! The rows of a store: those of its last commit, read from its disk, and those since, in memory.
ghost use Rattle.std.specs.Prelude.{◌≡◌, ◌≢◌, ◌≤◌, ◌<◌, ◌+◌, ◌*◌, ◌++◌, ◌∷◌, ◌^◌, ℕ, List, [], None, Some, length, slice_index_or, IfOk, IsErrOf, OnOk};
ghost use Rattle.std.specs.List.{All};
ghost use Rattle.outside.specs.Disk.{OnlyLooks, UsesDisk};
ghost use Rattle.reach_rows.specs.declared.rows.Row.{Row as ARow};
ghost use Rattle.reach_rows.specs.declared.rows.RowFault.TheVariants as fault;
ghost use Rattle.row_codec.specs.declared.rows.ExtendRow.{ExtendRow as AnExtendRow};
ghost use Rattle.saved_rows.specs.Remembered.{with_mark};
ghost use Rattle.saved_rows.specs.Saved.{AreSpelledFrom, Gives, IsSingle, SameRows};
ghost use Rattle.saved_rows.specs.Joining.{AreOn, MOST as most, mark_in, renew, rows_now, with_cache_of, with_extends, extends_in, batch_rows};

use crate::extending::extend_rows;
use crate::laws::saved_rows_outlive_commits;
use crate::reading::KEPT;
use crate::remembered::Remembered;
use crate::saved::SavedRows;
use crate::settling::{put_extends, remember};
use block_cache::caches_outlive_commits;
use flow_base::{List, NoMemory};
use indexmap::IndexMap;
use outside::Disk;
use reach_rows::{Mark, Row, RowFault};
use row_codec::ExtendRow;
use std::alloc::Global;
use std::marker::Model;
use std::mem::replace;
use table_salt::Salt;

/// How many rows there are at most.
const MOST: u64 = 1 << 62;

/// The rows of a store. Those of its last commit are read from its disk one by one. Those since are
/// in memory, and so are the last marks of rows that were extended since.
#[derive(Drop)]
pub struct DiskRows {
    saved: SavedRows,
    kept: Remembered,
    recent: Vec<Row>,
    renewed: IndexMap<u64, Mark, Salt>,
}

impl Model for DiskRows {
    ghost use Rattle.std.specs.Prelude.{◌-◌, vec_len, vec_capacity};
    ghost use Rattle.indexmap.specs.IndexMap as index;
    ghost use Rattle.saved_rows.specs.Joining.{AreTied, Joined};

    ghost Value = { Joined };

    ghost view = { λ a. record {
      saved = a.saved;
      kept = a.kept.rows;
      recent = a.recent.items;
      renewed = a.renewed.entries;
      recent_room = vec_capacity a.recent - vec_len a.recent;
      renewed_room = index.spare a.renewed;
    } };

    ghost invariant = { λ a. AreTied a.saved a.kept.rows a.recent.items a.renewed.entries };
}

impl DiskRows {
    /// No rows, of a disk whose bytes before the place `firm` don't change.
    pub fn new(alloc: Global, salt: Salt, firm: u64) -> Result<DiskRows, NoMemory>
        ensures kept { IfOk result (λ rows. rows.kept ≡ []) }
        ensures recent { IfOk result (λ rows. rows.recent ≡ []) }
        ensures there { IfOk result (λ rows. (bytes : List ℕ) → AreOn bytes rows) }
        ensures firm { IfOk result (λ rows. rows.saved.cache.firm ≡ firm) }
    {
        let saved = SavedRows::new(alloc, salt, firm)?;
        Ok(DiskRows {
            saved,
            kept: Remembered::none(),
            recent: Vec::new(alloc),
            renewed: IndexMap::with_hasher(alloc, salt),
        })
    }

    /// How many rows there are.
    pub fn count(&self) -> u64
        ensures count { result ≡ length (rows_now self.now) }
        ensures few { result ≤ most }
    {
        let _ = &self.kept;
        self.saved.count() + self.recent.len() as u64
    }

    /// The place before which the disk's bytes don't change.
    pub fn firm(&self) -> u64
        ensures { result ≡ self.now.saved.cache.firm }
    {
        let _ = &self.kept;
        self.saved.firm()
    }

    /// The place at which the disk has the row at an index, or 0 for a row since the last commit.
    pub fn place(&self, index: u64) -> u64 {
        let _ = &self.kept;
        if index < self.saved.count() {
            self.saved.place(index)
        } else {
            0
        }
    }

    /// Makes room for this many more flows, each of which is a row or extends one. There is no room
    /// for more rows than there may be.
    pub fn reserve(&mut self, flows: usize) -> Result<(), NoMemory>
        ensures room { OnOk result ((flows ≤ self.new.recent_room)
            × (flows ≤ self.new.renewed_room)) }
        ensures few { OnOk result (length (rows_now self.old) + flows ≤ most) }
        ensures saved { self.new.saved ≡ self.old.saved }
        ensures kept { self.new.kept ≡ self.old.kept }
        ensures recent { self.new.recent ≡ self.old.recent }
        ensures renewed { self.new.renewed ≡ self.old.renewed }
    {
        if flows as u64 > MOST - self.count() {
            return Err(NoMemory);
        }
        self.recent.reserve(flows)?;
        self.renewed.reserve(flows)?;
        Ok(())
    }

    /// Appends a row that ends with the flow with which it begins.
    pub fn push(&mut self, row: Row)
        requires room { 1 ≤ self.old.recent_room }
        requires few { length (rows_now self.old) < most }
        requires single { IsSingle row }
        ensures rows { rows_now self.new ≡ rows_now self.old ++ row ∷ [] }
        ensures recent { self.new.recent ≡ self.old.recent ++ row ∷ [] }
        ensures saved { self.new.saved ≡ self.old.saved }
        ensures kept { self.new.kept ≡ self.old.kept }
        ensures renewed { self.new.renewed ≡ self.old.renewed }
        ensures room { self.old.recent_room ≤ self.new.recent_room + 1 }
        ensures renewed_room { self.new.renewed_room ≡ self.old.renewed_room }
    {
        let _ = &self.kept;
        self.recent.push_reserved(row);
    }

    /// Makes a mark the last one of a row.
    pub fn extend(&mut self, index: u64, mark: Mark)
        requires room { 1 ≤ self.old.renewed_room }
        requires index { index < length (rows_now self.old) }
        ensures rows { rows_now self.new ≡ with_mark index mark (rows_now self.old) }
        ensures saved { self.new.saved ≡ self.old.saved }
        ensures kept { self.new.kept ≡ self.old.kept }
        ensures recent { self.new.recent ≡ self.old.recent }
        ensures room { self.old.renewed_room ≤ self.new.renewed_room + 1 }
        ensures recent_room { self.new.recent_room ≡ self.old.recent_room }
        ensures here { mark_in self.new.renewed index ≡ Some mark }
        ensures others { (i : ℕ) → i ≢ index
            → mark_in self.new.renewed i ≡ mark_in self.old.renewed i }
    {
        match self.renewed.insert(index, mark) {
            Ok(_) => {}
            Err(_) => unreachable!(),
        }
    }

    /// The row at an index. A row of the last commit is read from the disk, and the store is bad at
    /// a place at which it doesn't have it.
    pub fn row<D: Disk>(&mut self, disk: &mut D, index: u64) -> Result<Row, RowFault>
        requires index { index < length (rows_now self.old) }
        requires there { (D.state disk.old).told → AreOn (D.state disk.old).reads self.old }
        ensures exact { (D.state disk.old).told → (d : ARow)
            → Gives result (slice_index_or (rows_now self.old) index d) }
        ensures same { self.new ≡ with_cache_of self.new self.old }
        ensures there { (D.state disk.old).told → AreOn (D.state disk.new).reads self.new }
        ensures firm { self.new.saved.cache.firm ≡ self.old.saved.cache.firm }
        ensures looks { OnlyLooks (D.state disk.old) (D.state disk.new) }
        ensures uses { UsesDisk D.state D.faults D.spent disk.old disk.new
            (IsErrOf result fault.StoreFault) }
    {
        let count = self.saved.count();
        if index >= count {
            let row = self.recent[(index - count) as usize];
            return Ok(self.renewed_row(index, row));
        }
        match self.saved.row(disk, index) {
            Ok(row) => Ok(self.renewed_row(index, row)),
            Err(fault) => Err(fault),
        }
    }

    /// The Extend rows of the rows that were extended since the last commit, ascending. They make of
    /// the Kept rows what the rows are now.
    pub fn extends(&self, alloc: Global) -> Result<List<ExtendRow>, NoMemory>
        ensures each { IfOk result (λ extends. extends
            ≡ extends_in (mark_in self.now.renewed) 0 (self.now.kept ++ self.now.recent)) }
        ensures now { IfOk result (λ extends.
            with_extends (self.now.kept ++ self.now.recent) extends ≡ rows_now self.now) }
        ensures known { IfOk result (All (λ e. e.row < length (rows_now self.now))) }
    {
        let _ = &self.kept;
        extend_rows(alloc, &self.renewed)
    }

    /// The rows since the last commit, as their Kept rows say them.
    pub fn recent(&self) -> &[Row]
        ensures rows { result.now ≡ self.now.recent }
        ensures single { All IsSingle result.now }
        ensures few { length self.now.kept + length result.now ≤ most }
    {
        let _ = &self.kept;
        self.recent.as_slice()
    }

    /// Makes room for the batch of the rows since the last commit, with this many Extend rows.
    pub fn reserve_batch(&mut self, extends: usize) -> Result<(), NoMemory>
        ensures room { OnOk result ((1 ≤ self.new.saved.runs_room)
            × (extends ≤ self.new.saved.ends_room)) }
        ensures saved { SameRows self.old.saved self.new.saved }
        ensures same { self.new ≡ record self.old { saved = self.new.saved } }
    {
        self.saved.reserve(extends)
    }

    /// The rows since the last commit stand on the disk now: their Kept rows from a place on, and
    /// after them these Extend rows. The bytes before the place `firm` don't change any more.
    pub fn settle(&mut self, alloc: Global, firm: u64, place: u64, extends: &[ExtendRow])
        requires room { (1 ≤ self.old.saved.runs_room)
            × (length extends.now ≤ self.old.saved.ends_room) }
        requires fits { place + 46 * length self.old.recent + 30 * length extends.now < 2 ^ 64 }
        requires firm { self.old.saved.cache.firm ≤ firm }
        requires rows { All (λ e. e.row < length (rows_now self.old)) extends.now }
        ensures kept { self.new.kept
            ≡ with_extends (self.old.kept ++ self.old.recent) extends.now }
        ensures recent { self.new.recent ≡ [] }
        ensures renewed { (i : ℕ) → mark_in self.new.renewed i ≡ None }
        ensures firm { self.new.saved.cache.firm ≡ firm }
        ensures there { (bytes : List ℕ) → AreOn bytes self.old
            → AreSpelledFrom bytes firm place (batch_rows self.old.recent extends.now)
            → AreOn bytes self.new }
    {
        caches_outlive_commits();
        saved_rows_outlive_commits();
        let count = self.recent.len() as u64;
        self.saved.raise(firm);
        self.saved.add_kept(place, count);
        let kept = remember(
            replace(&mut self.kept, Remembered::none()),
            self.recent.as_slice(),
        );
        self.kept = put_extends(&mut self.saved, kept, place + KEPT as u64 * count, extends);
        self.recent = Vec::new(alloc);
        self.renewed = IndexMap::with_hasher(alloc, *self.renewed.hasher());
    }

    // A row with the last mark that it has since the last commit, if it was extended since.
    fn renewed_row(&self, index: u64, row: Row) -> Row
        ensures { result ≡ renew (mark_in self.now.renewed index) row }
    {
        match self.renewed.get(&index).copied() {
            Some(last) => Row { last, ..row },
            None => row,
        }
    }
}
