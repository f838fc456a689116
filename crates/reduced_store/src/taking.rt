//! Taking in the rows of a batch that is read.
ghost use Rattle.std.specs.Prelude.{◌≡◌, ◌+◌, ◌≤◌, ◌∷◌, ℕ, List, [], false, fold, length, max, IfOk, OnOk};
ghost use Rattle.std.specs.List.{All, flat_map};
ghost use Rattle.batch_log.specs.Payloads.{Fits as HasPlace};
ghost use Rattle.reach_model.specs.Rows.{firsts};
ghost use Rattle.row_codec.specs.Rows.{CanBeSpelled, Fits, row as spelling};
ghost use Rattle.saved_rows.specs.Joining.{AreOn};
ghost use Rattle.store_check.specs.Order.{AreOrdered};
ghost use Rattle.store_check.specs.Store.{grown};
ghost use Rattle.reduced_store.specs.Filling.{AllGoOn, row_of_spelled};
ghost use Rattle.reduced_store.specs.Placing.{AreInBatch, IsSettled};
ghost use Rattle.reduced_store.specs.Taking.{HasTaken, MayCome};

use crate::rows::StoreRows;
use batch_log::Batch;
use flow_base::{Bytes, List, NoMemory};
use reach_rows::Row;
use row_codec::{ExtendRow, KeptRow, StoreRow, rows_that_fit_can_be_spelled, write_row};
use std::alloc::Global;

/// How many bytes of a batch stand before its rows: a gate, a length and a header.
const BEFORE: u64 = 15;

/// What was taken of a batch besides its Kept rows: the spellings of its Entity rows, which stand before
/// these, and its Extend rows, which stand after them.
#[derive(Drop)]
pub struct Around {
    pub entities: Bytes,
    pub extends: List<ExtendRow>,
}

/// Takes in the rows of a batch, which go on with those so far. They stand on the disk in this batch.
pub fn take_batch(
    to: &mut StoreRows,
    alloc: Global,
    batch: Batch,
    rows: &[StoreRow],
) -> Result<(), NoMemory>
    requires unjudged { to.old.lawful ≡ false }
    requires settled { IsSettled to.old }
    requires next { AllGoOn to.old.rows rows.now }
    requires ordered { AreOrdered rows.now }
    requires fit { All Fits rows.now }
    requires there { HasPlace batch }
    requires long { 6 + length (flat_map spelling rows.now) ≡ batch.length }
    ensures rows { OnOk result (to.new.rows ≡ fold grown to.old.rows rows.now) }
    ensures unjudged { to.new.lawful ≡ false }
    ensures settled { OnOk result (IsSettled to.new) }
    ensures firm { OnOk result (to.new.placed.saved.cache.firm
        ≡ max to.old.placed.saved.cache.firm (batch.gate + 9 + batch.length)) }
    ensures there { OnOk result ((bytes : List ℕ) → AreOn bytes to.old.placed
        → AreInBatch bytes batch rows.now → AreOn bytes to.new.placed) }
{
    let around = take_rows(to, alloc, rows)?;
    let extends = around.extends.as_slice();
    to.reserve_batch(extends.len())?;
    let place = batch.gate + BEFORE + around.entities.as_slice().len() as u64;
    to.settle(alloc, batch.gate + 9 + batch.length, place, extends);
    Ok(())
}

// Appends the rows of the Kept rows, and gives what is around these.
fn take_rows(to: &mut StoreRows, alloc: Global, rows: &[StoreRow]) -> Result<Around, NoMemory>
    requires next { AllGoOn to.old.rows rows.now }
    requires fit { All Fits rows.now }
    ensures taken { IfOk result (λ around. HasTaken to.old to.new
        (record { entities = []; extends = [] }) around rows.now) }
    ensures lawful { to.new.lawful ≡ to.old.lawful }
{
    rows_that_fit_can_be_spelled();
    let mut around = Around {
        entities: Bytes::new(alloc),
        extends: List::new(alloc),
    };
    for row in rows {
        take_row(to, row, &mut around)?;
    }
    Ok(around)
}

// Takes in a row.
fn take_row(to: &mut StoreRows, row: &StoreRow, around: &mut Around) -> Result<(), NoMemory>
    requires next { MayCome (firsts to.old.rows) row.now }
    requires spelled { CanBeSpelled row.now }
    ensures taken { OnOk result (HasTaken to.old to.new around.old around.new (row.now ∷ [])) }
    ensures lawful { to.new.lawful ≡ to.old.lawful }
{
    match row {
        StoreRow::Entity { .. } => {
            write_row(row, &mut around.entities)?;
            Ok(())
        }
        StoreRow::Kept(kept) => {
            to.make_room(1)?;
            to.append(row_of_kept(kept));
            Ok(())
        }
        StoreRow::Extend(extend) => {
            around.extends.push(*extend)?;
            Ok(())
        }
        _ => Ok(()),
    }
}

// The row of a Kept row, which ends with the flow with which it begins.
fn row_of_kept(kept: &KeptRow) -> Row
    ensures { result ≡ row_of_spelled kept.now }
{
    Row {
        from: kept.from,
        to: kept.to,
        first: kept.mark,
        last: kept.mark,
        before_to: kept.before_to,
        before_from: kept.before_from,
    }
}
