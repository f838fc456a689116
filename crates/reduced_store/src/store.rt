//! Rows that are kept on a disk.
ghost use Rattle.std.specs.Prelude.{◌≡◌, ◌⊎◌, ◌↔◌, ◌+◌, ◌++◌, ◌∷◌, [], Some, true, OnOk, OnErr, IsErrOf, ℕ, List, IfOk, IfErr, MatchOption, map, length};
ghost use Rattle.outside.specs.Disk.{IsDurable, LeavesOnly, OnlyLooks, Settles, UsesDisk};
ghost use Rattle.reach_model.specs.declared.modes.Mode.{Mode as AMode};
ghost use Rattle.batch_log.specs.Log.{log_of, log_after, passed, IsRefused, LogHas, EachHas};
ghost use Rattle.batch_log.specs.Batches.{IsBeforeOrAfter};
ghost use Rattle.batch_log.specs.declared.log.CommitFault.TheVariants as commit;
ghost use Rattle.std.specs.List.{All};
ghost use Rattle.row_codec.specs.Payload.{IsPayload};
ghost use Rattle.row_codec.specs.Rows.{CanBeSpelled};
ghost use Rattle.reduced_store.specs.OnDisk.{IsSpelledBetween, IsTold, LeadsOn, UnlessNoMemory, rows_between, payload_between};
ghost use Rattle.reduced_store.specs.Placing.{IsSettled};
ghost use Rattle.saved_rows.specs.Saved.{as_kept};
ghost use Rattle.store_check.specs.Conditions.{bounds_of};
ghost use Rattle.reduced_store.specs.Opening.{BeginsLast, IsBadAt};
ghost use Rattle.reduced_store.specs.Reading.{IsFound};
ghost use Rattle.reduced_store.specs.Stores.{FindsSame, found_of, IsOpenedOver, disk_after, IsBlamed, Agree, IsOfWrongMode, IsWrong, refusal};
ghost use Rattle.reduced_store.specs.declared.opened.OpenFault.TheVariants as fault;

use crate::open::{StoreRead, read_store};
use crate::opened::{OpenFault, Opened, Unopened};
use crate::reading::{Found, is_same};
use crate::rows::{StoreRows, mark_of};
use crate::spelling::{write_extends, write_kept, write_rows};
use batch_log::{BatchLog, CommitFault, LogFault};
use flow_base::{Bytes, EntityId, Flow, Limits, List, NoMemory};
use outside::Disk;
use reach_model::Mode;
use reach_rows::{First, Keep, Row, RowFault, Rows, Steps};
use row_codec::{ExtendRow, StoreRow, write_payload};
use std::alloc::Global;
use std::marker::Model;
use std::sync::ledger::Ledger;
use table_salt::Salt;

/// How many bytes of a batch stand before its payload: a gate and a length.
const PAYLOAD: u64 = 9;

// The payload of a commit, how many bytes of it stand before the Kept rows, and its Extend rows.
#[derive(Drop)]
pub struct Spelled {
    pub payload: Bytes,
    pub before: usize,
    pub extends: List<ExtendRow>,
}

/// A store on a disk: the log of the disk's batches, and the rows. Those of the last commit are read
/// from the disk one by one, and those since are in memory.
///
/// The rows are lawful if the disk is observable. A disk that isn't may lose or change rows.
#[derive(Drop)]
pub struct Store<D: Disk> {
    log: BatchLog,
    disk: D,
    rows: StoreRows,
}

impl<D: Disk> Model for Store<D> {
    ghost use Rattle.std.specs.Prelude.{◌≡◌, map, true};
    ghost use Rattle.reach_rows.specs.Kept.{row_of_kept};
    ghost use Rattle.reduced_store.specs.OnDisk.{IsTold, OnDisk, forget_room, since_now};

    ghost Value = { OnDisk D };

    ghost view = { λ a. record {
      disk = a.disk;
      log = a.log;
      rows = forget_room a.rows;
      saved = map row_of_kept a.rows.placed.kept;
      since = since_now a.rows.placed;
      listing_room = a.rows.placed.renewed_room;
    } };

    ghost invariant = { λ a. (a.rows.lawful ≡ true)
        × ((D.state a.disk).tells ≡ true → IsTold (D.state a.disk).reads a.log a.rows) };
}

impl<D: Disk> Store<D> {
    /// Opens a disk as a store, of the mode that is asked for if one is. It makes one sync, so that
    /// nothing of an earlier run is pending, and then only reads. A refusal hands the disk back.
    ///
    /// `WrongMode` means that the disk has batches of another mode than was asked for. A disk
    /// without a batch is a store of any mode.
    pub fn open_on(
        alloc: Global,
        salt: Salt,
        limits: &Limits,
        asked: Option<Mode>,
        disk: D,
    ) -> Result<Opened<D>, Unopened<D>>
        ensures store { (D.state disk).told
            → IfOk result (IsOpenedOver limits.now (D.state disk).reads) }
        ensures last { (D.state disk).told
            → IfOk result (λ opened. BeginsLast limits.now (D.state disk).reads opened.last) }
        ensures found { IfOk result (λ opened. (payloads : List (List ℕ))
            × IsFound (bounds_of limits.now) payloads (found_of opened)) }
        ensures log { IfOk result (λ opened.
            opened.store.log ≡ log_of limits.now opened.store.log.last) }
        ensures stands { (D.state disk).told → IfOk result (λ opened. (payloads : List (List ℕ))
            × LogHas opened.store.log payloads (D.state opened.store.disk).reads) }
        ensures saved { IfOk result (λ opened. opened.store.saved ≡ opened.store.rows.rows) }
        ensures lawful { IfOk result (λ opened. opened.store.rows.lawful ≡ true) }
        ensures agree { IfOk result (λ opened. Agree opened.mode asked) }
        ensures bad { (D.state disk).told → (place : ℕ)
            → IfErr result (λ back. back.fault ≡ fault.BadStore place
            → IsBadAt limits.now place (D.state disk).reads) }
        ensures wrong { (D.state disk).told → (kept want : AMode)
            → IfErr result (λ back. back.fault ≡ fault.WrongMode kept want
            → IsOfWrongMode limits.now (D.state disk).reads asked kept want) }
        ensures durable { (D.state disk).told
            → IsBlamed result ⊎ IsDurable (D.state (disk_after result)) }
        ensures settles { (D.state disk).told
            → IsBlamed result ⊎ Settles (D.state disk) (D.state (disk_after result)) }
        ensures looks { OnlyLooks (D.state disk) (D.state (disk_after result)) }
        ensures uses { UsesDisk D.state D.faults D.spent disk (disk_after result)
            (IsBlamed result) }
    {
        let mut disk = disk;
        match read_store(alloc, salt, limits, &mut disk) {
            Ok(read) => admit(asked, read, disk),
            Err(fault) => Err(Unopened {
                fault: refusal_of(fault),
                disk,
            }),
        }
    }

    /// Whether no commit has failed on the disk.
    pub fn usable(&self) -> bool
        ensures { result ≡ self.now.log.usable }
    {
        self.log.usable()
    }

    /// Puts a batch after those that are there, and takes the rows for saved. Its rows are `front`,
    /// the Kept and the Extend rows since the last commit, and `back`.
    ///
    /// It is as `commit` says, by the payload that spells these rows. `NoMemory` may come before it is
    /// known whether the payload is too long.
    pub fn commit_rows(
        &mut self,
        alloc: Global,
        mode: Mode,
        front: &[StoreRow],
        back: &[StoreRow],
    ) -> Result<(), CommitFault>
        requires front { All CanBeSpelled front.now }
        requires back { All CanBeSpelled back.now }
        requires usable { self.old.log.usable ≡ true }
        requires stands { (D.state self.old.disk).told → (payloads : List (List ℕ))
            × LogHas self.old.log payloads (D.state self.old.disk).reads }
        ensures payload { UnlessNoMemory result (IsPayload mode
            (rows_between self.old front.now back.now)
            (payload_between self.old mode front.now back.now)) }
        ensures adds { (D.state self.old.disk).told → (payloads : List (List ℕ))
            → LogHas self.old.log payloads (D.state self.old.disk).reads
            → OnOk result (LogHas self.new.log
            (payloads ++ payload_between self.old mode front.now back.now ∷ [])
            (D.state self.new.disk).reads) }
        ensures durable { OnOk result (IsDurable (D.state self.new.disk)) }
        ensures any_moment { (D.state self.old.disk).told → (payloads : List (List ℕ))
            → EachHas self.old.log payloads (D.state self.old.disk).image
            → LeavesOnly (D.state self.old.disk) (D.state self.new.disk)
            (IsBeforeOrAfter self.old.log.most payloads
            (payload_between self.old mode front.now back.now)) }
        ensures log { self.new.log ≡ log_after self.old.log
            (9 + length (payload_between self.old mode front.now back.now)) result }
        ensures full { (full : _) → UnlessNoMemory result (IsErrOf result (commit.Full full)
            ↔ (passed self.old.log (length (payload_between self.old mode front.now back.now))
            ≡ Some full)) }
        ensures refused { IsRefused result → self.new ≡ self.old }
        ensures uses { UsesDisk D.state D.faults D.spent self.old.disk self.new.disk
            (IsErrOf result commit.StoreFault) }
        ensures leads { (D.state self.old.disk).told → LeadsOn self.old }
        ensures rows { self.new.rows.rows ≡ self.old.rows.rows }
        ensures lawful { self.new.rows.lawful ≡ self.old.rows.lawful }
        ensures saved { OnOk result (self.new.saved ≡ self.new.rows.rows) }
        ensures unsaved { OnErr result (self.new.saved ≡ self.old.saved) }
    {
        match self.spell(alloc, mode, front, back) {
            Ok(spelled) => self.commit(alloc, &spelled),
            Err(NoMemory) => Err(CommitFault::NoMemory),
        }
    }

    // The payload of a batch of these rows and of the Kept and Extend rows since the last commit.
    fn spell(
        &self,
        alloc: Global,
        mode: Mode,
        front: &[StoreRow],
        back: &[StoreRow],
    ) -> Result<Spelled, NoMemory>
        requires front { All CanBeSpelled front.now }
        requires back { All CanBeSpelled back.now }
        ensures payload { IfOk result (λ spelled. IsPayload mode
            (rows_between self.now front.now back.now) spelled.payload) }
        ensures spelled { IfOk result (λ spelled. IsSpelledBetween self.now spelled) }
        ensures leads { (D.state self.now.disk).tells ≡ true → LeadsOn self.now }
    {
        let recent = self.recent();
        let extends = self.rows.extends(alloc)?;
        let mut payload = Bytes::new(alloc);
        write_payload(mode, front, &mut payload)?;
        let before = payload.as_slice().len();
        write_kept(recent, &mut payload)?;
        write_extends(extends.as_slice(), &mut payload)?;
        write_rows(back, &mut payload)?;
        Ok(Spelled {
            payload,
            before,
            extends,
        })
    }

    // The rows since the last commit, which lead from its rows to those of now.
    fn recent(&self) -> &[Row]
        ensures rows { result.now ≡ self.now.rows.placed.recent }
        ensures spelled { All (λ r. CanBeSpelled (as_kept r)) result.now }
        ensures leads { (D.state self.now.disk).tells ≡ true → LeadsOn self.now }
    {
        let _ = &self.disk;
        self.rows.recent()
    }

    // Puts a batch with this payload after those that are there. After Ok the rows are those of the
    // last commit.
    fn commit(&mut self, alloc: Global, spelled: &Spelled) -> Result<(), CommitFault>
        requires spelled { IsSpelledBetween self.old spelled.now }
        requires usable { self.old.log.usable ≡ true }
        requires stands { (D.state self.old.disk).told → (payloads : List (List ℕ))
            × LogHas self.old.log payloads (D.state self.old.disk).reads }
        ensures adds { (D.state self.old.disk).told → (payloads : List (List ℕ))
            → LogHas self.old.log payloads (D.state self.old.disk).reads
            → OnOk result (LogHas self.new.log (payloads ++ spelled.now.payload ∷ [])
            (D.state self.new.disk).reads) }
        ensures durable { OnOk result (IsDurable (D.state self.new.disk)) }
        ensures any_moment { (D.state self.old.disk).told → (payloads : List (List ℕ))
            → EachHas self.old.log payloads (D.state self.old.disk).image
            → LeavesOnly (D.state self.old.disk) (D.state self.new.disk)
            (IsBeforeOrAfter self.old.log.most payloads spelled.now.payload) }
        ensures log { self.new.log
            ≡ log_after self.old.log (9 + length spelled.now.payload) result }
        ensures full { (full : _) → UnlessNoMemory result (IsErrOf result (commit.Full full)
            ↔ (passed self.old.log (length spelled.now.payload) ≡ Some full)) }
        ensures refused { IsRefused result → self.new ≡ self.old }
        ensures uses { UsesDisk D.state D.faults D.spent self.old.disk self.new.disk
            (IsErrOf result commit.StoreFault) }
        ensures rows { self.new.rows.rows ≡ self.old.rows.rows }
        ensures lawful { self.new.rows.lawful ≡ self.old.rows.lawful }
        ensures saved { OnOk result (self.new.saved ≡ self.new.rows.rows) }
        ensures unsaved { OnErr result (self.new.saved ≡ self.old.saved) }
    {
        let extends = spelled.extends.as_slice();
        let Ok(()) = self.rows.reserve_batch(extends.len()) else {
            return Err(CommitFault::NoMemory);
        };
        let gate = self.log.next_gate();
        match self.log.commit(&mut self.disk, spelled.payload.as_slice()) {
            Ok(()) => {
                let firm = self.log.next_gate();
                let place = gate + PAYLOAD + spelled.before as u64;
                self.rows.settle(alloc, firm, place, extends);
                Ok(())
            }
            Err(fault) => Err(fault),
        }
    }

    /// The disk.
    pub fn into_disk(self) -> D
        ensures { result ≡ self.disk }
    {
        self.disk
    }
}

impl<D: Disk> Rows for Store<D> {
    ghost use Rattle.std.specs.Prelude.{length};
    ghost use Rattle.reach_model.specs.Numbers.{known};
    ghost use Rattle.reach_model.specs.Rows.{firsts};
    ghost use Rattle.reduced_store.specs.OnDisk.{SameBut, seen_rows, stores_go_along};

    ghost rows = { seen_rows D.state };

    ghost count = { λ s. length s.rows.rows };

    ghost known = { λ s. known (firsts s.rows.rows) };

    ghost faults = { λ s. D.faults s.disk };

    ghost spent = { λ s. D.spent s.disk };

    ghost alike = { SameBut D.state D.faults D.spent };

    fn count(&self) -> u64 {
        self.rows.count()
    }

    fn known(&self) -> u32 {
        self.rows.known()
    }

    fn first(&self, id: EntityId) -> First {
        self.rows.first(id)
    }

    fn last_into(&self, id: EntityId) -> Option<u64> {
        self.rows.last_into(id)
    }

    fn last_from(&self, id: EntityId) -> Option<u64> {
        self.rows.last_from(id)
    }

    fn row<L: Ledger>(&mut self, index: u64, steps: &mut Steps<L>) -> Result<Row, RowFault> {
        steps.tick();
        self.rows.row(&mut self.disk, index)
    }

    ghost goes_along = { stores_go_along };
}

impl<D: Disk> Keep for Store<D> {
    ghost use Rattle.reduced_store.specs.OnDisk.{HasRoomFor};

    ghost has_room = { HasRoomFor };

    fn reserve(&mut self, flows: usize) -> Result<(), NoMemory> {
        let _ = &self.disk;
        self.rows.make_room(flows)
    }

    fn add(&mut self, flow: &Flow) {
        let _ = &self.disk;
        self.rows.push(flow);
    }

    fn extend(&mut self, row: u64, flow: &Flow) {
        let _ = &self.disk;
        self.rows.set_last(row, mark_of(flow));
    }
}

// Makes a store of what was found, unless it is of another mode than was asked for.
fn admit<D: Disk>(asked: Option<Mode>, read: StoreRead, disk: D) -> Result<Opened<D>, Unopened<D>>
    requires lawful { read.found.rows.lawful ≡ true }
    requires placed { (D.state disk).tells ≡ true
        → IsTold (D.state disk).reads read.log read.found.rows }
    requires settled { IsSettled read.found.rows }
    ensures store { IfOk result (λ opened.
        (opened.store.log ≡ read.log) × FindsSame read.found (found_of opened)) }
    ensures last { IfOk result (λ opened. opened.last ≡ read.last) }
    ensures saved { IfOk result (λ opened. opened.store.saved ≡ opened.store.rows.rows) }
    ensures lawful { IfOk result (λ opened. opened.store.rows.lawful ≡ true) }
    ensures agree { IfOk result (λ _. Agree read.found.mode asked) }
    ensures wrong { IfErr result (λ back. IsWrong read.found.mode asked back.fault) }
    ensures disk { disk_after result ≡ disk }
{
    let StoreRead { log, last, found } = read;
    match clash(found.mode, asked) {
        Some(fault) => Err(Unopened { fault, disk }),
        None => {
            let Found { mode, rows, others } = found;
            let store = Store { log, disk, rows };
            Ok(Opened {
                store,
                mode,
                last,
                rows: others,
            })
        }
    }
}

// The fault of a disk whose mode isn't the mode asked for.
fn clash(kept: Option<Mode>, asked: Option<Mode>) -> Option<OpenFault>
    ensures { MatchOption result (Agree kept asked) (IsWrong kept asked) }
{
    match (kept, asked) {
        (Some(kept), Some(asked)) => {
            if is_same(kept, asked) {
                None
            } else {
                Some(OpenFault::WrongMode { kept, asked })
            }
        }
        _ => None,
    }
}

// Why reading a disk failed, as a fault of opening it.
fn refusal_of(fault: LogFault) -> OpenFault
    ensures { result ≡ refusal fault }
{
    match fault {
        LogFault::StoreFault => OpenFault::StoreFault,
        LogFault::BadStore(place) => OpenFault::BadStore(place),
        LogFault::NoMemory => OpenFault::NoMemory,
    }
}
