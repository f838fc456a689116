//! The rows of a store, and what is known of their objects.
//!
//! The rows of the last commit are read from the disk, those since are in memory (`DiskRows`). What is
//! known of objects is in memory for all rows, so a row's links are found without a reading.
//!
//! The conditions on a store don't ask that no two rows have one last place, and the laws of rows
//! do. So the rows are judged once, when the store is opened. Opening refuses a store of rows that
//! aren't lawful, so a `Store` has lawful rows.
ghost use Rattle.std.specs.Prelude.{◌≡◌, ◌≢◌, ◌+◌, ◌-◌, ◌*◌, ◌<◌, ◌≤◌, ◌^◌, ◌∷◌, ◌++◌, [], ℕ, List, Some, false, map, max, length, Ok, vec_len, vec_capacity, IfOk, IsErrOf, OnOk};
ghost use Rattle.std.specs.List.{All};
ghost use Rattle.outside.specs.Disk.{OnlyLooks, UsesDisk};
ghost use Rattle.reach_model.specs.Numbers.{known};
ghost use Rattle.reach_model.specs.Rows.{firsts, row_of};
ghost use Rattle.reach_rows.specs.InMemory.{HasLinks};
ghost use Rattle.reach_rows.specs.Kept.{Enters, GoesOn, IsFirstOf, IsLastOf, IsRowAt, Leaves, row_of_kept};
ghost use Rattle.reach_rows.specs.declared.rows.RowFault.TheVariants as fault;
ghost use Rattle.row_codec.specs.Rows.{CanBeSpelled};
ghost use Rattle.saved_rows.specs.Joining.{AreOn, batch_rows, mark_in, rows_now, with_cache_of, with_extends};
ghost use Rattle.saved_rows.specs.Saved.{IsSingle, as_kept};
ghost use Rattle.store_check.specs.Store.{changed_at, extended};
ghost use Rattle.reduced_store.specs.Held.{AreHeld, Held, HasRoom};
ghost use Rattle.reduced_store.specs.Placing.{Follow, IsSettled, IsTied, SameButRoom, SamePlaces, SamePlacesNow, StandFrom, extends_now};

use flow_base::{EntityId, Flow, List, NoMemory};
use outside::Disk;
use reach_rows::{First, Mark, Object, Row, RowFault, enter, last_from_of, last_into_of, leave};
use row_codec::ExtendRow;
use saved_rows::DiskRows;
use std::alloc::Global;
use std::marker::Model;
use table_salt::Salt;

/// The rows of a store.
#[derive(Drop)]
pub struct StoreRows {
    rows: DiskRows,
    objects: Vec<Object>,
    lawful: bool,
}

impl Model for StoreRows {
    ghost Value = { Held };

    ghost view = { λ a. record {
      rows = map row_of_kept (rows_now a.rows);
      lawful = a.lawful;
      rows_room = a.rows.recent_room;
      objects_room = vec_capacity a.objects - vec_len a.objects;
      placed = a.rows;
    } };

    ghost invariant = { λ a. AreHeld (rows_now a.rows) a.objects.items
        × All IsSingle a.rows.recent };
}

impl StoreRows {
    /// No rows, not judged yet.
    pub(crate) fn unjudged(alloc: Global, salt: Salt) -> Result<StoreRows, NoMemory>
        ensures rows { IfOk result (λ made. made.rows ≡ []) }
        ensures unjudged { IfOk result (λ made. made.lawful ≡ false) }
        ensures settled { IfOk result (λ made. IsSettled made) }
        ensures there { IfOk result (λ made. (bytes : List ℕ) → AreOn bytes made.placed) }
        ensures firm { IfOk result (λ made. made.placed.saved.cache.firm ≡ 0) }
    {
        let rows = DiskRows::new(alloc, salt, 0)?;
        Ok(StoreRows {
            rows,
            objects: Vec::new(alloc),
            lawful: false,
        })
    }

    /// Makes room for this many more flows.
    pub(crate) fn make_room(&mut self, flows: usize) -> Result<(), NoMemory>
        ensures room { OnOk result (HasRoom self.new flows) }
        ensures listing { OnOk result (flows ≤ self.new.placed.renewed_room) }
        ensures rows { self.new.rows ≡ self.old.rows }
        ensures lawful { self.new.lawful ≡ self.old.lawful }
        ensures placed { SamePlacesNow self.old.placed self.new.placed }
    {
        self.rows.reserve(flows)?;
        // Two objects a flow. There is never room for more than 2^62 rows, so the product doesn't overflow.
        self.objects.reserve(2 * flows)?;
        Ok(())
    }

    /// Whether the rows were judged lawful.
    pub(crate) fn is_lawful(&self) -> bool
        ensures { result ≡ self.now.lawful }
    {
        let _ = &self.rows;
        self.lawful
    }

    /// Judges the rows lawful or not.
    pub(crate) fn judge(&mut self, lawful: bool)
        ensures { self.new ≡ record self.old { lawful = lawful } }
    {
        let _ = &self.rows;
        self.lawful = lawful;
    }

    /// Appends a row whose first and last flow are this one.
    pub(crate) fn push(&mut self, flow: &Flow)
        requires room { (n : ℕ) × HasRoom self.old (n + 1) }
        requires numbered { GoesOn (known (firsts self.old.rows)) flow.now }
        ensures rows { self.new.rows ≡ self.old.rows ++ row_of flow.now ∷ [] }
        ensures lawful { self.new.lawful ≡ self.old.lawful }
        ensures room { (n : ℕ) → HasRoom self.old (n + 1) → HasRoom self.new n }
        ensures placed { SamePlaces self.old.placed self.new.placed }
        ensures renewed { self.new.placed.renewed ≡ self.old.placed.renewed }
        ensures listing { self.new.placed.renewed_room ≡ self.old.placed.renewed_room }
        ensures recent { (row : _) × (self.new.placed.recent ≡ self.old.placed.recent ++ row ∷ []) }
    {
        let row = self.next_row(flow);
        self.append(row);
    }

    // A row whose first and last flow are this one, with its links.
    fn next_row(&self, flow: &Flow) -> Row
        ensures flow { row_of_kept result ≡ row_of flow.now }
        ensures links { HasLinks (firsts self.now.rows) result }
    {
        let _ = &self.rows;
        let mark = mark_of(flow);
        Row {
            from: flow.from,
            to: flow.to,
            first: mark,
            last: mark,
            before_to: last_into_of(&self.objects, flow.to),
            before_from: last_from_of(&self.objects, flow.from),
        }
    }

    /// Appends a row that ends with the flow with which it begins.
    pub(crate) fn append(&mut self, row: Row)
        requires room { (n : ℕ) × HasRoom self.old (n + 1) }
        requires numbered { GoesOn (known (firsts self.old.rows)) (row_of_kept row).first }
        requires single { IsSingle row }
        requires links { HasLinks (firsts self.old.rows) row }
        ensures rows { self.new.rows ≡ self.old.rows ++ row_of_kept row ∷ [] }
        ensures lawful { self.new.lawful ≡ self.old.lawful }
        ensures room { (n : ℕ) → HasRoom self.old (n + 1) → HasRoom self.new n }
        ensures placed { SamePlaces self.old.placed self.new.placed }
        ensures renewed { self.new.placed.renewed ≡ self.old.placed.renewed }
        ensures listing { self.new.placed.renewed_room ≡ self.old.placed.renewed_room }
        ensures recent { self.new.placed.recent ≡ self.old.placed.recent ++ row ∷ [] }
    {
        let index = self.rows.count();
        let flow = row.first_flow();
        self.rows.push(row);
        leave(&mut self.objects, &flow, index);
        enter(&mut self.objects, &flow, index);
    }

    /// Gives the last flow of a row this mark.
    pub(crate) fn set_last(&mut self, row: u64, mark: Mark)
        requires room { 1 ≤ self.old.placed.renewed_room }
        requires row { row < length self.old.rows }
        ensures rows { self.new.rows ≡ changed_at row (extended mark) self.old.rows }
        ensures lawful { self.new.lawful ≡ self.old.lawful }
        ensures room { (n : ℕ) → HasRoom self.old n → HasRoom self.new n }
        ensures placed { SamePlaces self.old.placed self.new.placed }
        ensures recent { self.new.placed.recent ≡ self.old.placed.recent }
        ensures here { mark_in self.new.placed.renewed row ≡ Some mark }
        ensures others { (i : ℕ) → i ≢ row
            → mark_in self.new.placed.renewed i ≡ mark_in self.old.placed.renewed i }
        ensures tied { IsTied self.old }
        ensures listing { self.old.placed.renewed_room ≤ self.new.placed.renewed_room + 1 }
    {
        self.rows.extend(row, mark);
    }
}

impl StoreRows {
    /// How many rows there are.
    pub(crate) fn count(&self) -> u64
        ensures { result ≡ length self.now.rows }
    {
        let _ = self.lawful;
        self.rows.count()
    }

    /// How many objects are known.
    pub(crate) fn known(&self) -> u32
        ensures { result ≡ known (firsts self.now.rows) }
    {
        let _ = self.lawful;
        self.objects.len() as u32
    }

    /// The first flow of an object.
    pub(crate) fn first(&self, id: EntityId) -> First
        requires { id.0 < known (firsts self.now.rows) }
        ensures { IsFirstOf (firsts self.now.rows) id.0 result }
    {
        let _ = self.lawful;
        self.objects[id.0 as usize].first
    }

    /// The greatest row that enters an object.
    pub(crate) fn last_into(&self, id: EntityId) -> Option<u64>
        requires { id.0 < known (firsts self.now.rows) }
        ensures { IsLastOf (firsts self.now.rows) (Enters id.0) result }
    {
        let _ = self.lawful;
        self.objects[id.0 as usize].last_into
    }

    /// The greatest row that leaves an object.
    pub(crate) fn last_from(&self, id: EntityId) -> Option<u64>
        requires { id.0 < known (firsts self.now.rows) }
        ensures { IsLastOf (firsts self.now.rows) (Leaves id.0) result }
    {
        let _ = self.lawful;
        self.objects[id.0 as usize].last_from
    }

    /// The row at an index. The store is bad at the place of a row of the last commit that isn't there,
    /// or that has an end which no row has named.
    pub(crate) fn row<D: Disk>(&mut self, disk: &mut D, index: u64) -> Result<Row, RowFault>
        requires index { index < length self.old.rows }
        requires there { (D.state disk.old).told → AreOn (D.state disk.old).reads self.old.placed }
        ensures exact { (D.state disk.old).told → IfOk result (IsRowAt self.old.rows index) }
        ensures good { (D.state disk.old).told
            → (place : ℕ) → IsErrOf result (fault.BadStore place) → ⊥ }
        ensures ends { IfOk result (λ row. (row.from.0 < known (firsts self.old.rows))
            × (row.to.0 < known (firsts self.old.rows))) }
        ensures same { self.new ≡ record self.old {
          placed = with_cache_of self.new.placed self.old.placed;
        } }
        ensures there { (D.state disk.old).told → AreOn (D.state disk.new).reads self.new.placed }
        ensures firm { self.new.placed.saved.cache.firm ≡ self.old.placed.saved.cache.firm }
        ensures looks { OnlyLooks (D.state disk.old) (D.state disk.new) }
        ensures uses { UsesDisk D.state D.faults D.spent disk.old disk.new
            (IsErrOf result fault.StoreFault) }
    {
        match self.rows.row(disk, index) {
            Ok(row) => self.with_known_ends(index, row),
            Err(fault) => Err(fault),
        }
    }

    // The row that was read at an index, if both of its ends are known.
    fn with_known_ends(&self, index: u64, row: Row) -> Result<Row, RowFault>
        ensures known { (row.from.0 < known (firsts self.now.rows))
            × (row.to.0 < known (firsts self.now.rows)) → result ≡ Ok row }
        ensures ends { IfOk result (λ row. (row.from.0 < known (firsts self.now.rows))
            × (row.to.0 < known (firsts self.now.rows))) }
        ensures tried { IsErrOf result fault.StoreFault → ⊥ }
    {
        let known = self.known();
        if row.from.0 < known && row.to.0 < known {
            return Ok(row);
        }
        Err(RowFault::BadStore(self.rows.place(index)))
    }
}

impl StoreRows {
    /// The rows since the last commit, as their Kept rows say them.
    pub(crate) fn recent(&self) -> &[Row]
        ensures rows { result.now ≡ self.now.placed.recent }
        ensures spelled { All (λ r. CanBeSpelled (as_kept r)) result.now }
        ensures follow { Follow self.now }
    {
        let _ = self.lawful;
        self.rows.recent()
    }

    /// The Extend rows of the rows that were extended since the last commit.
    pub(crate) fn extends(&self, alloc: Global) -> Result<List<ExtendRow>, NoMemory>
        ensures each { IfOk result (λ extends. extends ≡ extends_now self.now.placed) }
        ensures now { IfOk result (λ extends. map row_of_kept (with_extends
            (self.now.placed.kept ++ self.now.placed.recent) extends) ≡ self.now.rows) }
        ensures known { IfOk result (All (λ e. e.row < length self.now.rows)) }
    {
        let _ = self.lawful;
        self.rows.extends(alloc)
    }

    /// Makes room for the batch of the rows since the last commit, with this many Extend rows.
    pub(crate) fn reserve_batch(&mut self, extends: usize) -> Result<(), NoMemory>
        ensures room { OnOk result ((1 ≤ self.new.placed.saved.runs_room)
            × (extends ≤ self.new.placed.saved.ends_room)) }
        ensures same { SameButRoom self.old self.new }
    {
        let _ = self.lawful;
        self.rows.reserve_batch(extends)
    }

    /// The rows since the last commit stand on the disk now: their Kept rows from a place on, and
    /// after them these Extend rows. The bytes before the place `firm` don't change any more.
    pub(crate) fn settle(&mut self, alloc: Global, firm: u64, place: u64, extends: &[ExtendRow])
        requires room { (1 ≤ self.old.placed.saved.runs_room)
            × (length extends.now ≤ self.old.placed.saved.ends_room) }
        requires fits { place + 46 * length self.old.placed.recent + 30 * length extends.now
            < 2 ^ 64 }
        requires rows { All (λ e. e.row < length self.old.rows) extends.now }
        ensures tied { IsTied self.old }
        ensures kept { self.new.placed.kept
            ≡ with_extends (self.old.placed.kept ++ self.old.placed.recent) extends.now }
        ensures lawful { self.new.lawful ≡ self.old.lawful }
        ensures settled { IsSettled self.new }
        ensures firm { self.new.placed.saved.cache.firm
            ≡ max self.old.placed.saved.cache.firm firm }
        ensures there { (bytes : List ℕ) → AreOn bytes self.old.placed
            → StandFrom bytes firm place (batch_rows self.old.placed.recent extends.now)
            → AreOn bytes self.new.placed }
    {
        let _ = self.lawful;
        let firm = self.rows.firm().max(firm);
        self.rows.settle(alloc, firm, place, extends);
    }
}

/// The mark of a flow.
pub fn mark_of(flow: &Flow) -> Mark
    ensures { result ≡ record { at = flow.now.at; how = flow.now.how; serial = flow.now.serial } }
{
    Mark {
        at: flow.at,
        how: flow.how,
        serial: flow.serial,
    }
}
