//! Reading a store, payload by payload.
ghost use Rattle.std.specs.Prelude.{◌≡◌, ◌↔◌, ◌++◌, ◌∷◌, ℕ, List, [], length, IfOk, IsTrue, MatchOption, nat_eq};
ghost use Rattle.std.specs.List.{IsDistinct};
ghost use Rattle.std.specs.Option.{option_map};
ghost use Rattle.batch_log.specs.Payloads.{Fits as HasPlace};
ghost use Rattle.batch_log.specs.declared.find.Batch.{Batch as ABatch};
ghost use Rattle.row_codec.specs.Payload.{IsPayload};
ghost use Rattle.row_codec.specs.declared.rows.StoreRow.{StoreRow as ARow};
ghost use Rattle.store_check.specs.Conditions.{bounds_of};
ghost use Rattle.stored.specs.Words.{all_of};
ghost use Rattle.reduced_store.specs.Placing.{ArePlaced};
ghost use Rattle.reduced_store.specs.Reading.{IsChecked, IsChecker, IsOfOther, IsPayloadIn, IsRead, HasRead, Further, IsFound, last_places};

use crate::apart::are_apart;
use crate::picking::{move_after, pick};
use crate::rows::StoreRows;
use crate::taking::take_batch;
use batch_log::Batch;
use flow_base::{Limits, List, NoMemory};
use reach_model::Mode;
use row_codec::{Payload, RowRead, StoreRow, payloads_are_apart, read_payload};
use std::alloc::Global;
use store_check::StoreCheck;
use table_salt::Salt;

/// The checker of the batches so far, and their mode.
#[derive(Drop)]
pub struct Checked {
    pub mode: Mode,
    pub check: StoreCheck,
}

/// What was read so far: the kept rows, the rows of tables, and the rows that close the last batch.
#[derive(Drop)]
pub struct Reading {
    pub salt: Salt,
    pub checked: Option<Checked>,
    pub rows: StoreRows,
    pub tables: List<StoreRow>,
    pub closing: List<StoreRow>,
}

/// What a store holds: its mode, if it has a batch, its kept rows, and the others.
#[derive(Drop)]
pub struct Found {
    pub mode: Option<Mode>,
    pub rows: StoreRows,
    pub others: List<StoreRow>,
}

impl Reading {
    /// Before the first payload.
    pub fn new(alloc: Global, salt: Salt) -> Result<Reading, NoMemory>
        ensures { IfOk result (λ reading. (limits : _)
            → HasRead (bounds_of limits) [] [] reading) }
    {
        let rows = StoreRows::unjudged(alloc, salt)?;
        Ok(Reading {
            salt,
            checked: None,
            rows,
            tables: List::new(alloc),
            closing: List::new(alloc),
        })
    }

    /// Reads the payload of the next batch, and says whether the payloads still make a store.
    pub fn take(
        &mut self,
        alloc: Global,
        limits: &Limits,
        batch: Batch,
        bytes: &[u8],
    ) -> Result<bool, NoMemory>
        requires place { HasPlace batch }
        requires length { length bytes.now ≡ batch.length }
        requires read { (listed : List ABatch) × (payloads : List (List ℕ))
            × HasRead (bounds_of limits.now) listed payloads self.old }
        ensures { IfOk result (λ goes. (listed : List ABatch) (payloads : List (List ℕ))
            → HasRead (bounds_of limits.now) listed payloads self.old
            → Further goes (bounds_of limits.now) (listed ++ batch ∷ []) payloads bytes.now
            self.new) }
    {
        payloads_are_apart();
        match read_payload(alloc, bytes) {
            Ok(payload) => self.take_payload(alloc, limits, batch, payload),
            Err(RowRead::Malformed) => Ok(false),
            Err(RowRead::NoMemory) => Err(NoMemory),
        }
    }

    // Takes in what the payload of a batch says.
    fn take_payload(
        &mut self,
        alloc: Global,
        limits: &Limits,
        batch: Batch,
        payload: Payload,
    ) -> Result<bool, NoMemory>
        requires place { HasPlace batch }
        requires spelled { IsPayloadIn batch payload.mode payload.rows }
        requires read { (listed : List ABatch) × (payloads : List (List ℕ))
            × HasRead (bounds_of limits.now) listed payloads self.old }
        ensures { IfOk result (λ goes. (listed : List ABatch) (payloads : List (List ℕ))
            (bytes : List ℕ) → HasRead (bounds_of limits.now) listed payloads self.old
            → IsPayload payload.mode payload.rows bytes
            → Further goes (bounds_of limits.now) (listed ++ batch ∷ []) payloads bytes
            self.new) }
    {
        payloads_are_apart();
        let Payload { mode, rows } = payload;
        let Some(check) = check_for(alloc, self.salt, limits, self.checked.take(), mode) else {
            return Ok(false);
        };
        let Some(check) = check.take(rows.as_slice())? else {
            return Ok(false);
        };
        take_batch(&mut self.rows, alloc, batch, rows.as_slice())?;
        self.checked = Some(Checked { mode, check });
        self.closing = List::new(alloc);
        pick(alloc, rows, &mut self.tables, &mut self.closing)?;
        Ok(true)
    }

    /// What the store holds whose payloads were read.
    pub fn finish(self, alloc: Global, limits: &Limits) -> Result<Found, NoMemory>
        requires { (listed : List ABatch) × (payloads : List (List ℕ))
            × HasRead (bounds_of limits.now) listed payloads self }
        ensures { IfOk result (λ found. (listed : List ABatch) (payloads : List (List ℕ))
            → HasRead (bounds_of limits.now) listed payloads self
            → IsFound (bounds_of limits.now) payloads found
            × ArePlaced listed payloads found.rows) }
    {
        let Reading {
            salt,
            checked,
            mut rows,
            mut tables,
            closing,
        } = self;
        rows.judge(has_places_apart(alloc, salt, &checked)?);
        move_after(alloc, closing, &mut tables)?;
        let mode = mode_of(&checked);
        Ok(Found {
            mode,
            rows,
            others: tables,
        })
    }
}

// Whether no two rows of the batches so far have one last place.
fn has_places_apart(alloc: Global, salt: Salt, checked: &Option<Checked>) -> Result<bool, NoMemory>
    ensures { IfOk result (λ apart. IsTrue apart
        ↔ IsDistinct nat_eq (last_places checked.now)) }
{
    match checked {
        None => Ok(true),
        Some(checked) => are_apart(alloc, salt, checked.check.lasts()),
    }
}

// The mode of the batches so far.
fn mode_of(checked: &Option<Checked>) -> Option<Mode>
    ensures { result ≡ option_map (λ c. c.mode) checked.now }
{
    match checked {
        None => None,
        Some(checked) => Some(checked.mode),
    }
}

// The checker for a batch of this mode after those so far, or none if they are of another mode.
fn check_for(
    alloc: Global,
    salt: Salt,
    limits: &Limits,
    checked: Option<Checked>,
    mode: Mode,
) -> Option<StoreCheck>
    ensures { (batches : List (List ARow)) (payloads : List (List ℕ))
        → IsChecked (bounds_of limits.now) batches payloads checked
        → MatchOption result (IsOfOther mode checked)
        (λ check. IsRead (bounds_of limits.now) mode batches payloads
        × IsChecker (bounds_of limits.now) mode (all_of batches) check) }
{
    match checked {
        None => Some(StoreCheck::new(alloc, salt, limits, mode)),
        Some(checked) => {
            let Checked { mode: kept, check } = checked;
            if is_same(kept, mode) {
                Some(check)
            } else {
                None
            }
        }
    }
}

/// Whether two modes are the same.
pub fn is_same(kept: Mode, mode: Mode) -> bool
    ensures { IsTrue result ↔ (kept ≡ mode) }
{
    kept == mode
}
