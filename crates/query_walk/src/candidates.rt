//! Rows that wait to be read, the greatest first.
ghost use Rattle.std.specs.Prelude.{◌≡◌, ◌<◌, ◌≤◌, ℕ, IfOk, IfSome, IfNone};
ghost use Rattle.query_walk.specs.Waiting.{IsNext, Joins, Waits};

use crate::bits::Bits;
use flow_base::NoMemory;
use std::alloc::Global;
use std::marker::Model;

/// Rows that wait to be read. Each row below a number has a bit, from the last row to the first, so the next row that waits
/// below another one is found word by word.
#[derive(Drop)]
pub struct Candidates {
    rows: u64,
    bits: Bits,
}

impl Model for Candidates {
    ghost use Rattle.std.specs.Prelude.{ℕ, ◌*◌, ◌<◌, length};
    ghost use Rattle.query_walk.specs.Bits.{IsSet};
    ghost use Rattle.query_walk.specs.Waiting.{Waiting};

    ghost Value = { Waiting };

    ghost view = { λ c. record { rows = c.rows; bits = c.bits } };

    ghost invariant = { λ c. (c.rows < 64 * length c.bits) × ((p : ℕ) → IsSet c.bits p → p < c.rows) };
}

impl Candidates {
    /// None of this many rows wait.
    pub fn new(alloc: Global, rows: u64) -> Result<Candidates, NoMemory>
        ensures rows { IfOk result (λ made. made.rows ≡ rows) }
        ensures none { IfOk result (λ made. (index : ℕ) → ¬ Waits made index) }
    {
        let bits = Bits::new(alloc, rows)?;
        Ok(Candidates { rows, bits })
    }

    /// Lets the row wait that a link names, if there is one.
    pub fn put(&mut self, link: Option<u64>)
        requires { IfSome link (λ index. index < self.old.rows) }
        ensures joins { Joins (Waits self.old) link (Waits self.new) }
        ensures rows { self.new.rows ≡ self.old.rows }
    {
        if let Some(index) = link {
            self.bits.set(self.rows - 1 - index);
        }
    }

    /// The greatest row below a bound that waits.
    pub fn next(&self, below: u64) -> Option<u64>
        requires { below ≤ self.now.rows }
        ensures some { IfSome result (IsNext (Waits self.now) below) }
        ensures none { IfNone result ((index : ℕ) → Waits self.now index → below ≤ index) }
    {
        match self.bits.next(self.rows - below) {
            None => None,
            Some(place) => Some(self.rows - 1 - place),
        }
    }
}
