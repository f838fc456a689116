//! Rows read from the first bytes of a list, and the law that spellings are apart.
ghost use Rattle.std.specs.Prelude.{◌≡◌, ◌++◌, List, ℕ, IfOk, IfSome, IsErrOf, IsNone, take};
ghost use Rattle.row_codec.specs.declared.fault.RowRead.TheVariants as RowRead;
ghost use Rattle.row_codec.specs.declared.rows.StoreRow.{StoreRow};
ghost use Rattle.row_codec.specs.declared.rows.StoreRow.TheVariants as rows;
ghost use Rattle.row_codec.specs.declared.rows.KeptRow.{KeptRow};
ghost use Rattle.row_codec.specs.declared.rows.ExtendRow.{ExtendRow};
ghost use Rattle.row_codec.specs.Parsing.{Gives, after_at};
ghost use Rattle.row_codec.specs.Fields.{kept_at, extend_at};
ghost use Rattle.row_codec.specs.Rows.{Fits, row as spelling, IsSpelling, Begins};

use crate::fault::{NoSpelling, RowRead};
use crate::numbers::after;
use crate::rows::{ExtendRow, KeptRow, StoreRow, extend, kept, row};
use std::alloc::Global;

/// The row that a prefix of the bytes spells, and the length of this prefix in bytes.
///
/// Malformed means that no prefix spells a row.
pub fn read_row(alloc: Global, bytes: &[u8]) -> Result<(StoreRow, usize), RowRead>
    ensures found { IfOk result (λ x. Begins x.0 x.1 bytes.now) }
    ensures malformed { IsErrOf result RowRead.Malformed → (r : StoreRow) (n : ℕ)
        → ¬ IsSpelling r (take n bytes.now) }
{
    match row(alloc, bytes) {
        Ok((row, rest)) => Ok((row, bytes.len() - rest.len())),
        Err(fault) => Err(fault),
    }
}

/// The Kept row that a prefix of the bytes spells. It allocates nothing.
pub fn read_kept(bytes: &[u8]) -> Option<KeptRow>
    ensures found { IfSome result (λ r. (n : ℕ) × Begins (rows.Kept r) n bytes.now) }
    ensures none { IsNone result → (r : KeptRow) (n : ℕ)
        → ¬ IsSpelling (rows.Kept r) (take n bytes.now) }
{
    match kept_prefix(bytes) {
        Ok((row, _)) => Some(row),
        Err(_) => None,
    }
}

fn kept_prefix(bytes: &[u8]) -> Result<(KeptRow, &[u8]), NoSpelling>
    ensures { Gives (λ x. (x.0, x.1.now)) result (after_at 2 kept_at bytes.now) }
{
    kept(after(2, bytes)?)
}

/// The Extend row that a prefix of the bytes spells. It allocates nothing.
pub fn read_extend(bytes: &[u8]) -> Option<ExtendRow>
    ensures found { IfSome result (λ r. (n : ℕ) × Begins (rows.Extend r) n bytes.now) }
    ensures none { IsNone result → (r : ExtendRow) (n : ℕ)
        → ¬ IsSpelling (rows.Extend r) (take n bytes.now) }
{
    match extend_prefix(bytes) {
        Ok((row, _)) => Some(row),
        Err(_) => None,
    }
}

fn extend_prefix(bytes: &[u8]) -> Result<(ExtendRow, &[u8]), NoSpelling>
    ensures { Gives (λ x. (x.0, x.1.now)) result (after_at 3 extend_at bytes.now) }
{
    extend(after(3, bytes)?)
}

/// No spelling of a row is a prefix of another one's, so what was written is read again, whatever
/// follows it.
pub fn spellings_are_apart()
    ensures { (r s : StoreRow) (x y : List ℕ) → Fits r → Fits s
        → spelling r ++ x ≡ spelling s ++ y → (r ≡ s) × (x ≡ y) }
{}
