//! Rows that only proofs remember.
ghost use Rattle.std.specs.Prelude.{◌≡◌, ◌++◌, ◌∷◌, [], List};
ghost use Rattle.std.specs.Borrow.{ftrue};
ghost use Rattle.reach_rows.specs.declared.rows.Row.{Row as ARow};
ghost use Rattle.saved_rows.specs.Remembered.{with_mark};

use reach_rows::Row;
use row_codec::ExtendRow;
use std::marker::Model;

/// The rows that a disk has, as clauses speak of them. It takes no memory, and its methods do nothing
/// at run time.
#[derive(Drop)]
pub struct Remembered {
    pub ghost rows: { List ARow },
}

impl Model for Remembered {
    ghost also_owns = { λ _. ftrue };
}

impl Remembered {
    /// No rows.
    pub fn none() -> Remembered
        ensures { result.rows ≡ [] }
    {
        Remembered {}
    }

    /// The same rows, and this one after them.
    pub fn and_kept(&self, _row: &Row) -> Remembered
        ensures { result.rows ≡ self.now.rows ++ _row.now ∷ [] }
    {
        Remembered {}
    }

    /// The same rows, of which one has the last mark of an Extend row.
    pub fn and_extend(&self, _extend: &ExtendRow) -> Remembered
        ensures { result.rows ≡ with_mark _extend.now.row _extend.now.mark self.now.rows }
    {
        Remembered {}
    }
}
