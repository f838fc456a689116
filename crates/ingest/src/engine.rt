//! The engine.
ghost use Rattle.std.specs.Prelude.{◌≡◌, ◌≤◌, ◌<◌, ◌+◌, ◌^◌, ◌++◌, ◌⊎◌, ◌∷◌, [], ℕ, List, None, Some, Err};
ghost use Rattle.std.specs.Prelude.{false, length, take, is_some, OnOk, OnErr, IfOk, IfErr, IfSome, IsErrOf};
ghost use Rattle.std.specs.List.{position_or_len};
ghost use Rattle.memchr.specs.Find.{is_byte};
ghost use Rattle.flow_base.specs.declared.limits.Full.{Full};
ghost use Rattle.flow_base.specs.declared.limits.Limits.{Limits};
ghost use Rattle.outside.specs.Disk.{IsDurable, UsesDisk};
ghost use Rattle.batch_log.specs.Log.{IsRefused};
ghost use Rattle.batch_log.specs.declared.log.CommitFault.TheVariants as commit;
ghost use Rattle.audit_lex.specs.History.{History, Settle};
ghost use Rattle.record_join.specs.Events.{next_event};
ghost use Rattle.record_join.specs.StandsFor.{NothingRipe};
ghost use Rattle.kept_flows.specs.Answering.{AlwaysTold, NeverFail};
ghost use Rattle.kept_flows.specs.Committing.{CanCommit};
ghost use Rattle.reach_model.specs.declared.modes.Mode.{Mode};
ghost use Rattle.row_codec.specs.declared.rows.StoreRow.{StoreRow};
ghost use Rattle.row_codec.specs.declared.state.StateRow.{StateRow};
ghost use Rattle.reduced_store.specs.OnDisk.{SameBut, seen_rows};
ghost use Rattle.reduced_store.specs.Reading.{IsFound};
ghost use Rattle.reduced_store.specs.Restoring.{CanBeRestored};
ghost use Rattle.reduced_store.specs.Stores.{found_of};
ghost use Rattle.store_check.specs.Conditions.{bounds_of};
ghost use Rattle.stored.specs.Words.{state_of};
ghost use Rattle.ingest.specs.Ending.{EndsLast};
ghost use Rattle.ingest.specs.Events.{events_of};
ghost use Rattle.ingest.specs.Asking.{AskHasCauses, SameButRows, StandsStill};
ghost use Rattle.ingest.specs.EngineSteps.{Takes, CatchesUp, OwesAfter, SettlesTo, SettlesUp};
ghost use Rattle.ingest.specs.EngineSteps.{StopsIn, HaltsIn, HaltsOwing};
ghost use Rattle.ingest.specs.Owing.{MayOwe, SettleHalts};
ghost use Rattle.ingest.specs.PartTaken.{count_on, done_in};
ghost use Rattle.ingest.specs.Replies.{IsQuestion, IsReply};
ghost use Rattle.ingest.specs.Rejoining.{StandsForLeft};
ghost use Rattle.ingest.specs.Restoring.{FaultRose, IsBadWaiting, IsHidden, IsOfReading, IsPastInput, IsRemade, StandsForStored, store_after, unread};
ghost use Rattle.ingest.specs.Saving.{AddsOne, LeavesEither, PassesFull, Saves};
ghost use Rattle.ingest.specs.StandsFor.{StandsFor, HasNoTail, WhereJoined};
ghost use Rattle.ingest.specs.Stops.{Fits, Stops};
ghost use Rattle.ingest.specs.declared.ask_fault.AskFault.TheVariants as fault;
ghost use Rattle.ingest.specs.Waiting.{AreSoundWaiting};
ghost use Rattle.ingest.specs.declared.restoring.RestoreFault.TheVariants as restore;
ghost use Rattle.flow_base.specs.declared.faults.Refused.TheVariants as why;

use crate::ask_fault::{AskFault, of_reply};
use crate::event_flows::EventFlows;
use crate::line_reader::LineReader;
use crate::replies::{answer_find, answer_question, answer_show, answer_stat, answer_why};
use crate::restoring::{Remade, RestoreFault, Unrestored, last_state, make_again};
use crate::spellable::are_spelled;
use crate::state_row::state_of;
use crate::stop::Stop;
use crate::store_laws::{
    histories_may_be_committed, stores_follow_histories, stores_say_what_was_left,
};
use audit_lex::{LastStamp, place_of};
use audit_record::{Read, Record};
use batch_log::{CommitFault, a_disk_reads_in_one_way};
use call_acts::acts_of_events_are_admitted;
use flow_base::{Full, Limit, Limits, NoMemory, Refused};
use outside::Disk;
use query_walk::WalkFault;
use reach_rows::{Keep, Reducer};
use reduced_store::{
    Opened, Store, a_commit_by_rows_is_that_of_its_moments, what_is_found_can_be_restored,
    what_is_found_was_stored,
};
use report_json::{Ask, Reply};
use row_codec::{StateRow, rows_that_fit_can_be_spelled};
use std::alloc::Global;
use std::marker::Model;
use table_salt::Salt;

/// The engine: it takes a log piece by piece, and answers questions at any time.
///
/// If it stops, for want of memory or at a limit, it stands for the bytes that were done. An event that was refused is
/// owed, with all that is ripe after it, and the next call tries it again before anything else.
#[derive(Drop)]
pub struct Ingest<R: Reducer, K: Keep> {
    alloc: Global,
    reader: LineReader,
    joined: EventFlows<R, K>,
    /// The bytes that were taken in this part of the log.
    part: u64,
    /// The stamp of the line that was read last, which mostly is that of the next one.
    last: LastStamp,
    /// The memory for the next record, mostly that of an earlier one. What it says is of no account.
    item: Record,
}

impl<R: Reducer, K: Keep> Model for Ingest<R, K> {
    ghost use Rattle.ingest.specs.Parts.{Engine};
    ghost use Rattle.ingest.specs.Bounds.{HasFewRecords};

    ghost Value = { Engine K };

    ghost view = { λ a. record { reader = a.reader; joined = a.joined; part = a.part } };

    ghost invariant = { λ a. HasFewRecords a.reader a.joined };
}

impl<R: Reducer, K: Keep> Ingest<R, K> {
    /// An engine that has taken nothing, by a new reducer and no rows.
    pub fn new(alloc: Global, salt: Salt, limits: &Limits, reducer: R, keep: K) -> Ingest<R, K>
        requires stands { R.stands_for reducer [] }
        requires holds { R.holds reducer [] }
        requires none { IfSome (K.rows keep) (λ R. R ≡ []) }
        requires count { K.count keep ≡ 0 }
        requires known { K.known keep ≡ 0 }
        ensures stands { K.rows keep ≡ Some [] → StandsFor limits.now result [] }
        ensures part { result.part ≡ 0 }
        ensures acts { result.joined.tables.acts ≡ 0 }
        ensures keep { result.joined.keep ≡ keep }
        ensures unmarked { result.joined.tables.marked ≡ None }
    {
        Ingest {
            alloc,
            reader: LineReader::new(alloc, limits),
            joined: EventFlows::new(alloc, salt, limits, reducer, keep),
            part: 0,
            last: LastStamp::none(),
            item: Record::blank(alloc),
        }
    }

    /// Releases what is owed, and then takes a piece of the log. It stops at the first event that passes a limit, and at
    /// a byte past the limit of bytes once those before it are taken.
    pub fn feed(&mut self, piece: &[u8]) -> Result<(), Stop>
        ensures ok { OnOk result (Takes piece.now self.old self.new) }
        ensures again { OnOk result (CatchesUp piece.now self.old self.new) }
        ensures stop { IfErr result (StopsIn piece.now self.old) }
        ensures halts { IfErr result (HaltsOwing piece.now self.old self.new) }
        ensures owed_first { IfErr result (λ stop. (limits : Limits) (h : History)
            → MayOwe limits self.old h → 0 < stop.done → Fits limits h) }
        ensures part { self.new.part ≡ count_on self.old.part (done_in piece.now result) }
        ensures alike { K.alike self.old.joined.keep self.new.joined.keep }
        ensures marked { self.new.joined.tables.marked ≡ self.old.joined.tables.marked }
    {
        let part = self.part;
        let result = self.feed_next(piece);
        let done = match &result {
            Ok(()) => piece.len(),
            Err(stop) => stop.done,
        };
        // No log has so many bytes that the count would end here.
        self.part = part.saturating_add(done as u64);
        result
    }

    /// Releases what is owed, then ends the last line, if it has a byte, and releases all that waits.
    pub fn settle(&mut self) -> Result<(), Refused>
        ensures ok { OnOk result (SettlesTo self.old self.new) }
        ensures again { OnOk result (SettlesUp self.old self.new) }
        ensures full { (full : Full) → result ≡ Err (why.Full full)
            → (limits : Limits) (h : History) → StandsFor limits self.old h
            → Stops limits (h ++ Settle ∷ []) full }
        ensures halts { IfErr result (SettleHalts self.old self.new) }
        ensures part { self.new.part ≡ self.old.part }
        ensures alike { K.alike self.old.joined.keep self.new.joined.keep }
        ensures marked { self.new.joined.tables.marked ≡ self.old.joined.tables.marked }
    {
        match self.joined.release() {
            Ok(()) => {}
            Err(why) => return Err(why),
        }
        match self.end_last() {
            Ok(()) => {}
            Err(NoMemory) => return Err(Refused::NoMemory),
        }
        self.joined.close();
        self.joined.release()
    }

    /// How many events were released and followed so far.
    pub fn events(&self) -> u64
        ensures all { (limits : Limits) (h : History) → StandsFor limits self.now h
            → result ≡ length (events_of limits h) }
        ensures done { (limits : Limits) (h : History) (w : MayOwe limits self.now h)
            → result ≡ length w.done }
    {
        let _ = &self.reader;
        self.joined.counts().events
    }

    /// Whether an event that is ripe was left for a later call.
    pub fn owed(&self) -> bool
        ensures ripe { (limits : Limits) (h : History) (w : MayOwe limits self.now h)
            → result ≡ is_some (next_event limits w.rest) }
        ensures nothing { result ≡ false → (limits : Limits) (h : History)
            → MayOwe limits self.now h → StandsFor limits self.now h }
    {
        let _ = &self.reader;
        self.joined.ripe()
    }

    /// How many bytes were taken since this part of the log began.
    pub fn part_taken(&self) -> u64
        ensures { result ≡ self.now.part }
    {
        let _ = &self.joined;
        self.part
    }

    /// Begins another part of the log, of which no byte was taken yet. What was taken before stays.
    pub fn new_part(&mut self)
        ensures part { self.new ≡ record self.old { part = 0 } }
        ensures stands { StandsStill self.old self.new }
        ensures alike { K.alike self.old.joined.keep self.new.joined.keep }
    {
        self.part = 0;
    }

    /// The rows that keep the flows, to be used elsewhere.
    pub fn into_keep(self) -> K
    where
        R: Drop,
        ensures { result ≡ self.joined.keep }
    {
        self.joined.into_keep()
    }

    /// Answers a question about what was taken, if nothing is owed.
    ///
    /// `StoreFault` means that a read of the rows failed during this call, or that the rows have stopped counting failed
    /// reads. `BadStore` comes only from rows that aren't observable, and `NoMemory` means want of memory. Whatever
    /// is returned, the engine stands for the same history as before.
    pub fn ask(&mut self, ask: &Ask) -> Result<Reply, AskFault>
        requires asks { IsQuestion ask.now }
        ensures reply { IfOk result (λ reply. (limits : Limits) (h : History)
            → StandsFor limits self.old h → IsReply R.mode limits h ask.now reply) }
        ensures cause { AskHasCauses K.faults K.spent self.old self.new result }
        ensures never { NeverFail K.faults K.spent → WhereJoined self.old.joined (λ limits events.
            IfErr result (λ why. why ≡ fault.NoMemory)) }
        ensures always { NeverFail K.faults K.spent → AlwaysTold K.rows
            → IfErr result (λ why. why ≡ fault.NoMemory) }
        ensures hidden { (place : ℕ) → result ≡ Err (fault.BadStore place)
            → K.rows self.old.joined.keep ≡ None }
        ensures stands { StandsStill self.old self.new }
        ensures same { SameButRows self.old self.new }
        ensures alike { K.alike self.old.joined.keep self.new.joined.keep }
    {
        match ask {
            Ask::Question(question) => answer_question(&mut self.joined, question),
            Ask::Why { from, to, until } => answer_why(&mut self.joined, *from, *to, *until),
            Ask::Find(text) => of_reply(answer_find(self.alloc, &self.joined, text.bytes())),
            Ask::Show(id) => of_reply(answer_show(self.alloc, &self.joined, *id)),
            Ask::Stat => of_reply(answer_stat(self.alloc, &self.reader, &self.joined)),
            Ask::Take(_) | Ask::Settle | Ask::End => unreachable!(),
        }
    }

    // Releases what is owed, and then takes a piece. It counts no bytes of the part.
    fn feed_next(&mut self, piece: &[u8]) -> Result<(), Stop>
        ensures ok { OnOk result (Takes piece.now self.old self.new) }
        ensures again { OnOk result (CatchesUp piece.now self.old self.new) }
        ensures stop { IfErr result (StopsIn piece.now self.old) }
        ensures halts { IfErr result (HaltsOwing piece.now self.old self.new) }
        ensures owed_first { IfErr result (λ stop. (limits : Limits) (h : History)
            → MayOwe limits self.old h → 0 < stop.done → Fits limits h) }
        ensures alike { K.alike self.old.joined.keep self.new.joined.keep }
        ensures marked { self.new.joined.tables.marked ≡ self.old.joined.tables.marked }
    {
        match self.joined.release() {
            Ok(()) => self.feed_bounded(piece),
            Err(why) => Err(Stop { done: 0, why }),
        }
    }

    // Takes a piece, of which some bytes may be too many.
    fn feed_bounded(&mut self, piece: &[u8]) -> Result<(), Stop>
        requires quiet { NothingRipe self.old.joined.join }
        ensures ok { OnOk result (Takes piece.now self.old self.new) }
        ensures stop { IfErr result (StopsIn piece.now self.old) }
        ensures halts { IfErr result (HaltsIn piece.now self.old self.new) }
        ensures alike { K.alike self.old.joined.keep self.new.joined.keep }
        ensures marked { self.new.joined.tables.marked ≡ self.old.joined.tables.marked }
    {
        let room = self.reader.most() - self.reader.bytes();
        if piece.len() as u64 <= room {
            return self.feed_within(piece);
        }
        let done = room as usize;
        match self.feed_within(&piece[..done]) {
            Ok(()) => Err(Stop {
                done,
                why: Refused::Full(Full {
                    limit: Limit::Input,
                    number: self.reader.most(),
                }),
            }),
            Err(stop) => Err(stop),
        }
    }

    // Takes a piece for which there is room.
    fn feed_within(&mut self, piece: &[u8]) -> Result<(), Stop>
        requires quiet { NothingRipe self.old.joined.join }
        requires room { self.old.reader.bytes + length piece.now ≤ self.old.reader.limits.input }
        ensures limits { OnOk result (self.new.reader.limits ≡ self.old.reader.limits) }
        ensures ok { OnOk result (Takes piece.now self.old self.new) }
        ensures stop { IfErr result (StopsIn piece.now self.old) }
        ensures halts { IfErr result (HaltsIn piece.now self.old self.new) }
        ensures alike { K.alike self.old.joined.keep self.new.joined.keep }
        ensures marked { self.new.joined.tables.marked ≡ self.old.joined.tables.marked }
    {
        let mut done = 0;
        while done < piece.len() {
            match self.feed_line(&piece[done..]) {
                Ok(count) => done += count,
                Err(stop) => return Err(later(done, stop)),
            }
        }
        Ok(())
    }

    // Takes bytes of a piece up to and with a line feed, and does what the line that they end asks for. It says how many
    // bytes it took.
    fn feed_line(&mut self, piece: &[u8]) -> Result<usize, Stop>
        requires quiet { NothingRipe self.old.joined.join }
        requires room { self.old.reader.bytes + length piece.now ≤ self.old.reader.limits.input }
        requires some { 0 < length piece.now }
        ensures quiet { OnOk result (NothingRipe self.new.joined.join) }
        ensures within { IfOk result (λ n. n ≤ length piece.now) }
        ensures some { IfOk result (λ n. 0 < n) }
        ensures short { IfErr result (λ stop. stop.done ≤ length piece.now) }
        ensures bytes { IfOk result (λ n. self.new.reader.bytes ≡ self.old.reader.bytes + n) }
        ensures limits { self.new.reader.limits ≡ self.old.reader.limits }
        ensures ok { IfOk result (λ n. Takes (take n piece.now) self.old self.new) }
        ensures stop { IfErr result (StopsIn piece.now self.old) }
        ensures halts { IfErr result (HaltsIn piece.now self.old self.new) }
        ensures alike { K.alike self.old.joined.keep self.new.joined.keep }
        ensures marked { self.new.joined.tables.marked ≡ self.old.joined.tables.marked }
    {
        let end = place_of(b'\n', piece);
        if end == piece.len() || !self.reader.is_between_lines() {
            self.hold(&piece[..end])?;
            if end == piece.len() {
                return Ok(end);
            }
            return match self.end_line(&[]) {
                Ok(()) => Ok(end + 1),
                Err(stop) => Err(later(end, stop)),
            };
        }
        self.end_line(&piece[..end])?;
        Ok(end + 1)
    }

    // Takes bytes without a line feed.
    fn hold(&mut self, part: &[u8]) -> Result<(), Stop>
        requires room { self.old.reader.bytes + length part.now ≤ self.old.reader.limits.input }
        requires no_feed { position_or_len (is_byte 10) part.now ≡ length part.now }
        ensures joined { self.new.joined ≡ self.old.joined }
        ensures limits { self.new.reader.limits ≡ self.old.reader.limits }
        ensures bytes { OnOk result
            (self.new.reader.bytes ≡ self.old.reader.bytes + length part.now) }
        ensures ok { OnOk result (Takes part.now self.old self.new) }
        ensures none { IfErr result (λ stop. stop ≡ record { done = 0; why = why.NoMemory }) }
        ensures err { OnErr result (self.new ≡ self.old) }
    {
        match self.reader.hold(part) {
            Ok(()) => Ok(()),
            Err(NoMemory) => Err(Stop {
                done: 0,
                why: Refused::NoMemory,
            }),
        }
    }

    // Ends a line with these bytes and a line feed, and releases what is ripe then.
    fn end_line(&mut self, part: &[u8]) -> Result<(), Stop>
        requires quiet { NothingRipe self.old.joined.join }
        requires room { self.old.reader.bytes + (length part.now + 1)
            ≤ self.old.reader.limits.input }
        requires no_feed { position_or_len (is_byte 10) part.now ≡ length part.now }
        requires whole { HasNoTail self.old.reader ⊎ (part.now ≡ []) }
        ensures quiet { OnOk result (NothingRipe self.new.joined.join) }
        ensures limits { self.new.reader.limits ≡ self.old.reader.limits }
        ensures short { IfErr result (λ stop. stop.done ≤ length part.now + 1) }
        ensures bytes { OnOk result
            (self.new.reader.bytes ≡ self.old.reader.bytes + (length part.now + 1)) }
        ensures ok { OnOk result (Takes (part.now ++ 10 ∷ []) self.old self.new) }
        ensures stop { IfErr result (StopsIn (part.now ++ 10 ∷ []) self.old) }
        ensures halts { IfErr result (HaltsIn (part.now ++ 10 ∷ []) self.old self.new) }
        ensures alike { K.alike self.old.joined.keep self.new.joined.keep }
        ensures marked { self.new.joined.tables.marked ≡ self.old.joined.tables.marked }
    {
        match self.join_line(part) {
            Ok(()) => {}
            Err(NoMemory) => {
                return Err(Stop {
                    done: 0,
                    why: Refused::NoMemory,
                });
            }
        }
        match self.joined.release() {
            Ok(()) => Ok(()),
            Err(why) => Err(Stop {
                done: part.len() + 1,
                why,
            }),
        }
    }

    // Ends a line with these bytes and a line feed, and gives the joiner what comes of it. If allocation fails nothing
    // has changed.
    fn join_line(&mut self, part: &[u8]) -> Result<(), NoMemory>
        requires quiet { NothingRipe self.old.joined.join }
        requires room { self.old.reader.bytes + (length part.now + 1)
            ≤ self.old.reader.limits.input }
        requires no_feed { position_or_len (is_byte 10) part.now ≡ length part.now }
        requires whole { HasNoTail self.old.reader ⊎ (part.now ≡ []) }
        ensures limits { self.new.reader.limits ≡ self.old.reader.limits }
        ensures bytes { OnOk result
            (self.new.reader.bytes ≡ self.old.reader.bytes + (length part.now + 1)) }
        ensures ok { OnOk result (OwesAfter (part.now ++ 10 ∷ []) self.old self.new) }
        ensures err { OnErr result (self.new ≡ self.old) }
        ensures alike { K.alike self.old.joined.keep self.new.joined.keep }
        ensures marked { self.new.joined.tables.marked ≡ self.old.joined.tables.marked }
    {
        match self.reader.read(part, &mut self.last, &mut self.item)? {
            Read::Unused => self.reader.end_other(part),
            Read::Record => {
                self.joined.take(&mut self.item)?;
                self.reader.end_used(part);
                Ok(())
            }
            Read::End(key) => {
                self.joined.end(key);
                self.reader.end_used(part);
                Ok(())
            }
        }
    }

    // Ends the last line, if it has a byte, and gives the joiner what comes of it. If allocation fails nothing has
    // changed.
    fn end_last(&mut self) -> Result<(), NoMemory>
        requires quiet { NothingRipe self.old.joined.join }
        ensures ok { OnOk result ((limits : Limits) (h : History)
            → StandsFor limits self.old h → EndsLast limits self.new h) }
        ensures err { OnErr result (self.new ≡ self.old) }
        ensures begun { OnErr result (¬ HasNoTail self.old.reader) }
        ensures part { self.new.part ≡ self.old.part }
        ensures alike { K.alike self.old.joined.keep self.new.joined.keep }
        ensures marked { self.new.joined.tables.marked ≡ self.old.joined.tables.marked }
    {
        match self.reader.read(&[], &mut self.last, &mut self.item)? {
            Read::Unused => self.reader.settle_other(),
            Read::Record => {
                self.joined.take(&mut self.item)?;
                self.reader.settle_used();
                Ok(())
            }
            Read::End(key) => {
                self.joined.end(key);
                self.reader.settle_used();
                Ok(())
            }
        }
    }
}

impl<R: Reducer, D: Disk> Ingest<R, Store<D>> {
    /// The engine of a store that was opened, by a new reducer. It stands for whatever history the store has, and from now on it
    /// remembers what is new.
    ///
    /// `BadStore` has the place of the last batch, which says that something waits which no joiner would have left so. `Full` means
    /// that the store has taken more bytes than may be, and that what waits in it is sound. `StoreFault` means that a read of the
    /// rows failed, and `BadRow` has a place at which the disk no longer has the row that was there when it was opened, which comes
    /// only from a disk that isn't observable. A refusal hands the store back.
    pub fn restore(
        alloc: Global,
        salt: Salt,
        limits: &Limits,
        reducer: R,
        opened: Opened<D>,
    ) -> Result<Ingest<R, Store<D>>, Unrestored<Store<D>>>
    where
        R: Drop,
        requires stands { R.stands_for reducer [] }
        requires holds { R.holds reducer [] }
        requires found { (payloads : List (List ℕ))
            × IsFound (bounds_of limits.now) payloads (found_of opened) }
        requires mode { (m : Mode) → opened.mode ≡ Some m → m ≡ R.mode }
        ensures stored { IfOk result (StandsForStored D.state limits.now R.mode opened) }
        ensures sound { IfOk result (λ _. (state : StateRow) → state_of opened.rows ≡ Some state
            → AreSoundWaiting limits.now state opened.rows) }
        ensures alike { SameBut D.state D.faults D.spent opened.store (store_after result) }
        ensures bad { IfErr result (IsBadWaiting limits.now opened) }
        ensures full { IfErr result (IsPastInput limits.now opened) }
        ensures fault { IfErr result (FaultRose D.faults D.spent opened.store) }
        ensures hidden { IfErr result (IsHidden D.state opened.store) }
    {
        what_is_found_can_be_restored();
        what_is_found_was_stored();
        stores_say_what_was_left();
        a_disk_reads_in_one_way();
        let Opened {
            store,
            mode: _,
            last,
            rows,
        } = opened;
        let Some(state) = last_state(rows.as_slice()) else {
            return Ok(Ingest::begun(alloc, salt, limits, reducer, store));
        };
        match make_again(
            alloc,
            salt,
            limits,
            last.unwrap_or(0),
            state,
            rows.as_slice(),
        ) {
            Ok(parts) => Ingest::resumed(alloc, reducer, store, state, parts),
            Err(why) => Err(Unrestored { why, keep: store }),
        }
    }

    // The engine of a store that has no batch.
    fn begun(
        alloc: Global,
        salt: Salt,
        limits: &Limits,
        reducer: R,
        store: Store<D>,
    ) -> Ingest<R, Store<D>>
        requires stands { R.stands_for reducer [] }
        requires holds { R.holds reducer [] }
        requires none { store.rows.rows ≡ [] }
        ensures stands { (D.state store.disk).told → StandsFor limits.now result [] }
        ensures part { result.part ≡ 0 }
        ensures keep { result.joined.keep ≡ store }
        ensures marked { result.joined.tables.marked ≡ Some 0 }
    {
        let mut engine = Ingest::new(alloc, salt, limits, reducer, store);
        engine.joined.remember();
        engine
    }

    // The engine of a store by its parts.
    fn resumed(
        alloc: Global,
        reducer: R,
        store: Store<D>,
        state: &StateRow,
        parts: Remade,
    ) -> Result<Ingest<R, Store<D>>, Unrestored<Store<D>>>
    where
        R: Drop,
        requires stands { R.stands_for reducer [] }
        requires holds { R.holds reducer [] }
        requires parts { (limits : Limits) × (rows : List StoreRow)
            × IsRemade limits state.now rows parts
            × CanBeRestored (bounds_of limits) rows store.rows.rows
            × (state_of rows ≡ Some state.now) }
        ensures joined { IfOk result (λ engine. StandsForLeft R.mode (seen_rows D.state store)
            parts.join parts.tables state.now engine.joined) }
        ensures reader { IfOk result (λ engine. engine.reader ≡ parts.reader) }
        ensures part { IfOk result (λ engine. engine.part ≡ state.now.part) }
        ensures marked { IfOk result (λ engine. engine.joined.tables.marked
            ≡ Some parts.tables.acts) }
        ensures alike { SameBut D.state D.faults D.spent store (store_after result) }
        ensures reading { IfErr result IsOfReading }
        ensures fault { IfErr result (FaultRose D.faults D.spent store) }
        ensures hidden { IfErr result (IsHidden D.state store) }
    {
        let Remade {
            reader,
            join,
            tables,
        } = parts;
        match EventFlows::restore(alloc, join, tables, reducer, store, state) {
            Ok(joined) => {
                let mut joined = joined;
                joined.remember();
                Ok(Ingest {
                    alloc,
                    reader,
                    joined,
                    part: state.part,
                    last: LastStamp::none(),
                    item: Record::blank(alloc),
                })
            }
            Err(back) => Err(Unrestored {
                why: why_unread(back.fault),
                keep: back.rows,
            }),
        }
    }

    /// Puts all that came since the last commit on the disk of the store, in one batch.
    ///
    /// `StoreFault` means that a call on the disk failed: the batch may be there or not, and the disk has to be opened again.
    /// `Full` means that the batch would pass a limit, of its own bytes or of those of the disk, and `NoMemory` want of memory. After
    /// these two the disk is as before. Whatever is returned, the engine stands for the same history.
    pub fn commit(&mut self) -> Result<(), CommitFault>
        requires can { CanCommit D.state self.old.joined.keep }
        ensures can { OnOk result (CanCommit D.state self.new.joined.keep) }
        ensures saves { (D.state self.old.joined.keep.disk).told
            → OnOk result (Saves D.state R.mode self.old self.new) }
        ensures leaves { (D.state self.old.joined.keep.disk).told
            → LeavesEither D.state R.mode self.old self.new }
        ensures adds { (D.state self.old.joined.keep.disk).told
            → AddsOne D.state self.old self.new }
        ensures durable { OnOk result (IsDurable (D.state self.new.joined.keep.disk)) }
        ensures full { (full : Full) → result ≡ Err (commit.Full full)
            → PassesFull D.state R.mode self.old full }
        ensures refused { IsRefused result → self.new ≡ self.old }
        ensures stands { StandsStill self.old self.new }
        ensures part { self.new.part ≡ self.old.part }
        ensures uses { UsesDisk D.state D.faults D.spent self.old.joined.keep.disk
            self.new.joined.keep.disk (IsErrOf result commit.StoreFault) }
    {
        histories_may_be_committed::<Store<D>>();
        stores_follow_histories::<Store<D>>();
        a_commit_by_rows_is_that_of_its_moments();
        acts_of_events_are_admitted();
        a_disk_reads_in_one_way();
        rows_that_fit_can_be_spelled();
        let state = state_of(self.alloc, &self.reader, &self.joined, self.part)?;
        let rows = self.joined.rows_around(state)?;
        let entities = rows.entities.as_slice();
        let others = rows.others.as_slice();
        if !are_spelled(entities, others) {
            return Err(CommitFault::Full(Full {
                limit: Limit::Payload,
                number: self.reader.limits().payload,
            }));
        }
        self.joined.save(entities, others)
    }
}

// Why an engine wasn't made again, if its rows couldn't be read so.
fn why_unread(fault: WalkFault) -> RestoreFault
    ensures { result ≡ unread fault }
{
    match fault {
        WalkFault::StoreFault => RestoreFault::StoreFault,
        WalkFault::BadStore(place) => RestoreFault::BadRow(place),
        WalkFault::NoMemory => RestoreFault::NoMemory,
    }
}

// The same stop, this many bytes later.
fn later(done: usize, stop: Stop) -> Stop
    requires fits { done + stop.done < 2 ^ 63 }
    ensures { result ≡ record { done = done + stop.done; why = stop.why } }
{
    Stop {
        done: done + stop.done,
        why: stop.why,
    }
}
