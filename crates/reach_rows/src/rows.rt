//! Rows, and the traits of what reads and keeps them.
ghost use Rattle.std.specs.Prelude.{◌≡◌, ◌↔◌, ◌+◌, ◌<◌, ◌∷◌, ◌++◌, [], ℕ, List, Option, max, length, IfOk, IfSome, OnOk, slice_index_or};
ghost use Rattle.std.specs.Option.{option_map, ForSome};
ghost use Rattle.reach_model.specs.declared.modes.Verdict.TheVariants as Verdict;
ghost use Rattle.reach_model.specs.Numbers.{known as known_of, beyond};
ghost use Rattle.reach_model.specs.Rows.{Row as ARow, firsts, row_of, rows_after, SamePair};
ghost use Rattle.reach_rows.specs.Kept.{AreRows, IsRowAt, IsFirstOf, IsLastOf, Enters, Leaves, ComesAfter, GoesOn, row_of_kept};
ghost use Rattle.reach_rows.specs.Alike.{GoesAlong};
ghost use Rattle.reach_rows.specs.Reading.{IsReading};

use crate::questions::First;
use crate::steps::Steps;
use flow_base::{EntityId, Flow, How, NoMemory, Stamp};
use std::sync::ledger::Ledger;

/// What a row keeps of a flow besides its ends.
#[derive(Clone, Copy, Debug, PartialEq, Eq)]
pub struct Mark {
    pub at: Stamp,
    pub how: How,
    pub serial: u32,
}

/// A row: the first and the last flow of a run from one object to another, and the greatest earlier rows with the same
/// target and with the same source.
#[derive(Clone, Copy, Debug, PartialEq, Eq)]
pub struct Row {
    pub from: EntityId,
    pub to: EntityId,
    pub first: Mark,
    pub last: Mark,
    pub before_to: Option<u64>,
    pub before_from: Option<u64>,
}

impl Row {
    /// The first flow of the row.
    pub fn first_flow(&self) -> Flow
        ensures { result ≡ (row_of_kept self.now).first }
    {
        Flow {
            from: self.from,
            to: self.to,
            how: self.first.how,
            at: self.first.at,
            serial: self.first.serial,
        }
    }
}

/// The mark of a flow.
pub fn mark_of(flow: &Flow) -> Mark
    ensures { result ≡ record { at = flow.now.at; how = flow.now.how; serial = flow.now.serial } }
{
    Mark {
        at: flow.at,
        how: flow.how,
        serial: flow.serial,
    }
}

/// Why a row wasn't read: the store failed, or at this place of it stands no row.
#[derive(Clone, Copy, Debug, PartialEq, Eq)]
pub enum RowFault {
    StoreFault,
    BadStore(u64),
}

/// Rows that are read one by one.
pub trait Rows {
    /// The rows, if they are observable.
    ghost rows: { Self → Option (List ARow) };

    /// How many there are.
    ghost count: { Self → ℕ };

    /// How many objects they know.
    ghost known: { Self → ℕ };

    /// How many reads have failed.
    ghost faults: { Self → ℕ };

    /// The count of faults stands at its end.
    ghost spent: { Self → Type 0 };

    /// Two states differ at most in the rows, the room for more of them, and the count of faults. Whatever else the
    /// object holds, such as the rows that a disk has of it, stays.
    ghost alike: { Self → Self → Type 0 };

    /// How many rows there are.
    fn count(&self) -> u64
        ensures count { result ≡ count self.now }
        ensures told { IfSome (rows self.now) (λ R. length R ≡ count self.now) }
        ensures lawful { IfSome (rows self.now) (λ R. AreRows R) };

    /// How many objects the rows know.
    fn known(&self) -> u32
        ensures known { result ≡ known self.now }
        ensures told { IfSome (rows self.now) (λ R. known_of (firsts R) ≡ known self.now) };

    /// The first flow of an object.
    fn first(&self, id: EntityId) -> First
        requires { id.0 < known self.now }
        ensures { IfSome (rows self.now) (λ R. IsFirstOf (firsts R) id.0 result) };

    /// The greatest row that enters an object.
    fn last_into(&self, id: EntityId) -> Option<u64>
        requires { id.0 < known self.now }
        ensures { IfSome (rows self.now) (λ R. IsLastOf (firsts R) (Enters id.0) result) };

    /// The greatest row that leaves an object.
    fn last_from(&self, id: EntityId) -> Option<u64>
        requires { id.0 < known self.now }
        ensures { IfSome (rows self.now) (λ R. IsLastOf (firsts R) (Leaves id.0) result) };

    /// The row at an index. Reading changes no rows, and each call counts one step.
    fn row<L: Ledger>(&mut self, index: u64, steps: &mut Steps<L>) -> Result<Row, RowFault>
        requires { index < count self.old }
        ensures exact { IfOk result (λ row. IfSome (rows self.old) (λ R. IsRowAt R index row)) }
        ensures ends { IfOk result (λ row.
            (row.from.0 < known self.old) × (row.to.0 < known self.old)) }
        ensures same { (rows self.new ≡ rows self.old) × (count self.new ≡ count self.old)
            × (known self.new ≡ known self.old) }
        ensures cause { IsReading (rows self.old) (faults self.old) (faults self.new)
            (spent self.old) (spent self.new) result }
        ensures step { steps.new ≡ steps.old + 1 }
        ensures alike { alike self.old self.new };

    ghost goes_along: { GoesAlong alike };
}

/// Rows that grow.
pub trait Keep: Rows {
    /// There is room for this many flows.
    ghost has_room: { Self → ℕ → Type 0 };

    /// Makes room for this many more flows.
    fn reserve(&mut self, flows: usize) -> Result<(), NoMemory>
        ensures room { OnOk result (has_room self.new flows) }
        ensures same { (Self.rows self.new ≡ Self.rows self.old)
            × (Self.count self.new ≡ Self.count self.old)
            × (Self.known self.new ≡ Self.known self.old) }
        ensures faults { (Self.faults self.new ≡ Self.faults self.old)
            × (Self.spent self.old ↔ Self.spent self.new) }
        ensures alike { Self.alike self.old self.new };

    /// Appends a row whose first and last flow are this one.
    fn add(&mut self, flow: &Flow)
        requires room { (n : ℕ) × has_room self.old (n + 1) }
        requires numbered { GoesOn (Self.known self.old) flow.now }
        requires later { ForSome (Self.rows self.old) (λ R. ComesAfter R flow.now) }
        ensures rows { Self.rows self.new
            ≡ option_map (λ R. R ++ row_of flow.now ∷ []) (Self.rows self.old) }
        ensures count { Self.count self.new ≡ Self.count self.old + 1 }
        ensures known { Self.known self.new ≡ max (Self.known self.old) (beyond flow.now) }
        ensures room { (n : ℕ) → has_room self.old (n + 1) → has_room self.new n }
        ensures faults { (Self.faults self.new ≡ Self.faults self.old)
            × (Self.spent self.old ↔ Self.spent self.new) }
        ensures alike { Self.alike self.old self.new };

    /// Makes a flow the last one of a row with its two ends.
    fn extend(&mut self, row: u64, flow: &Flow)
        requires room { (n : ℕ) × has_room self.old (n + 1) }
        requires row { row < Self.count self.old }
        requires pair { ForSome (Self.rows self.old)
            (λ R. (d : ARow) → SamePair (slice_index_or R row d).last flow.now) }
        requires later { ForSome (Self.rows self.old) (λ R. ComesAfter R flow.now) }
        ensures rows { Self.rows self.new
            ≡ option_map (λ R. rows_after R flow.now (Verdict.Extend row)) (Self.rows self.old) }
        ensures same { (Self.count self.new ≡ Self.count self.old)
            × (Self.known self.new ≡ Self.known self.old) }
        ensures room { (n : ℕ) → has_room self.old (n + 1) → has_room self.new n }
        ensures faults { (Self.faults self.new ≡ Self.faults self.old)
            × (Self.spent self.old ↔ Self.spent self.new) }
        ensures alike { Self.alike self.old self.new };
}
