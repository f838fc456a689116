//! Rows as they were written down, which aren't observable.
ghost use Rattle.std.specs.Prelude.{◌≡◌, ◌-◌, ◌^◌, ⊤, None, IfOk, vec_len};
ghost use Rattle.reach_rows.specs.Alike.{all_alike};

use flow_base::{EntityId, NoMemory, Stamp};
use reach_rows::{First, Row, RowFault, Rows, Steps};
use std::alloc::Global;
use std::sync::ledger::Ledger;

/// Rows between objects below a number, which count how often each of them is read. One read may fail, and a row with an
/// end that isn't one of the objects is bad.
///
/// The links of a row are those to the rows that stand before it, whatever was written down.
#[derive(Drop)]
pub struct Table {
    pub rows: Vec<Row>,
    pub known: u32,
    pub fails: Option<u64>,
    pub faults: u64,
    pub reads: Vec<u64>,
}

impl Table {
    /// Rows of which none was read yet, and of which none fails.
    pub fn new(alloc: Global, rows: Vec<Row>, known: u32) -> Result<Table, NoMemory>
        ensures { IfOk result (λ made. made.known ≡ known) }
    {
        let mut reads = Vec::new(alloc);
        for _ in 0..rows.len() {
            reads.push(0)?;
        }
        Ok(Table {
            rows,
            known,
            fails: None,
            faults: 0,
            reads,
        })
    }

    /// How many reads there were of all rows, or `None` if a row was read twice.
    pub fn read_once(&self) -> Option<u64> {
        let mut all = 0u64;
        for reads in self.reads.as_slice() {
            if *reads > 1 {
                return None;
            }
            all = all.saturating_add(*reads);
        }
        Some(all)
    }

    /// Counts a read of a row.
    fn count_read(&mut self, index: u64)
        ensures rows { self.new.rows ≡ self.old.rows }
        ensures known { self.new.known ≡ self.old.known }
        ensures faults { self.new.faults ≡ self.old.faults }
    {
        if let Some(reads) = self.reads.get_mut(index as usize) {
            *reads = reads.saturating_add(1);
        }
    }
}

impl Rows for Table {
    ghost rows = { λ _. None };

    ghost count = { λ s. vec_len s.rows };

    ghost known = { λ s. s.known };

    ghost faults = { λ s. s.faults };

    ghost spent = { λ s. s.faults ≡ 2 ^ 64 - 1 };

    ghost alike = { λ _ _. ⊤ };

    fn count(&self) -> u64 {
        self.rows.len() as u64
    }

    fn known(&self) -> u32 {
        self.known
    }

    fn first(&self, _id: EntityId) -> First {
        First {
            at: Stamp { ms: 0, place: 0 },
            out: false,
        }
    }

    fn last_into(&self, id: EntityId) -> Option<u64> {
        into_before(&self.rows, id, self.rows.len())
    }

    fn last_from(&self, id: EntityId) -> Option<u64> {
        from_before(&self.rows, id, self.rows.len())
    }

    fn row<L: Ledger>(&mut self, index: u64, steps: &mut Steps<L>) -> Result<Row, RowFault> {
        steps.tick();
        self.count_read(index);
        if self.fails == Some(index) {
            self.faults = self.faults.saturating_add(1);
            return Err(RowFault::StoreFault);
        }
        let mut row = self.rows[index as usize];
        if row.from.0 >= self.known {
            return Err(RowFault::BadStore(index));
        }
        if row.to.0 >= self.known {
            return Err(RowFault::BadStore(index));
        }
        row.before_to = into_before(&self.rows, row.to, index as usize);
        row.before_from = from_before(&self.rows, row.from, index as usize);
        Ok(row)
    }

    ghost goes_along = { all_alike };
}

/// The last row before an index that enters an object.
fn into_before(rows: &[Row], id: EntityId, before: usize) -> Option<u64> {
    let mut last = None;
    for (index, row) in rows.iter().enumerate() {
        if index < before && row.to.0 == id.0 {
            last = Some(index as u64);
        }
    }
    last
}

/// The last row before an index that leaves an object.
fn from_before(rows: &[Row], id: EntityId, before: usize) -> Option<u64> {
    let mut last = None;
    for (index, row) in rows.iter().enumerate() {
        if index < before && row.from.0 == id.0 {
            last = Some(index as u64);
        }
    }
    last
}
