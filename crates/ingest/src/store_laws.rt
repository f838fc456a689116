//! What a store of a history promises.
ghost use Rattle.std.specs.Prelude.{◌≡◌, ◌⊎◌, ◌≤◌, ◌^◌, ◌++◌, ◌∷◌, [], ℕ, List, Option};
ghost use Rattle.flow_base.specs.declared.limits.Limits.{Limits};
ghost use Rattle.audit_lex.specs.History.{History};
ghost use Rattle.batch_log.specs.Batches.{IsStore, IsBeforeOrAfter};
ghost use Rattle.batch_log.specs.Log.{Log};
ghost use Rattle.reach_model.specs.declared.modes.Mode.{Mode};
ghost use Rattle.row_codec.specs.declared.rows.StoreRow.{StoreRow};
ghost use Rattle.row_codec.specs.Payload.{IsPayload};
ghost use Rattle.store_check.specs.Conditions.{bounds_of};
ghost use Rattle.stored.specs.Going.{MayCommit};
ghost use Rattle.stored.specs.Moment.{nothing};
ghost use Rattle.stored.specs.Stored.{ClosesAt};
ghost use Rattle.flow_events.specs.declared.tables.Tables.{Tables};
ghost use Rattle.reach_model.specs.Rows.{Row};
ghost use Rattle.record_join.specs.StandsFor.{Joiner};
ghost use Rattle.row_codec.specs.declared.state.StateRow.{StateRow};
ghost use Rattle.ingest.specs.Events.{events_of, state_of};
ghost use Rattle.ingest.specs.Rejoining.{IsLeftOf, WereLeft};
ghost use Rattle.ingest.specs.Parts.{Engine};
ghost use Rattle.ingest.specs.PartTaken.{StandsWith};
ghost use Rattle.ingest.specs.StandsFor.{StandsFor};
ghost use Rattle.kept_flows.specs.Committing.{CanCommit};
ghost use Rattle.reduced_store.specs.OnDisk.{OnDisk, SameBut};
ghost use Rattle.reduced_store.specs.Opening.{IsBadAt, IsStoreRead};
ghost use Rattle.reduced_store.specs.declared.reading.Found.{Found};
ghost use Rattle.ingest.specs.Saving.{IsSaved};
ghost use Rattle.ingest.specs.Storing.{HasSince, IsCommitFor, IsStoreFor, StoresHistory, moment_of};
ghost use Rattle.ingest.specs.Soundness.{WaitsSoundly};
ghost use Rattle.ingest.specs.Waiting.{AscendByKey};

use acts::flows_of_acts_are_lawful;
use audit_lex::lines_are_counted;
use call_acts::acts_are_few;
use outside::Disk;
use reach_rows::Keep;
use record_join::{a_joiner_is_made_again, states_are_sound};
use reduced_store::{
    a_store_is_no_bad_store, what_is_found_can_be_restored, what_is_found_was_stored,
};
use stored::commits_store;

/// A history that an engine stands for may be committed after any of its prefixes, and goes on with the acts of it.
pub fn histories_may_be_committed<K: Keep>()
    ensures may { (limits : Limits) (engine : Engine K) (h more : History) (p0 p : ℕ)
        → StandsFor limits engine (h ++ more) → p ≤ 2 ^ 60
        → MayCommit (bounds_of limits) (moment_of limits h p0) (moment_of limits (h ++ more) p) }
    ensures since { (limits : Limits) (h more : History) (p0 p : ℕ)
        → HasSince (moment_of limits h p0) (moment_of limits (h ++ more) p) }
    ensures nothing { (limits : Limits) → moment_of limits [] 0 ≡ nothing }
{
    acts_are_few();
    lines_are_counted();
    states_are_sound();
}

/// The batch of a commit leads from a store of a history to one of the history as it went on: by the bytes after the
/// commit, and by those that a crash of the commit may leave, which may also be a store of the history before. Bytes that
/// hold no batch are a store of the empty history.
pub fn stores_follow_histories<K: Keep>()
    ensures bytes { (limits : Limits) (mode : Mode) (engine : Engine K) (h more : History)
        (p0 p : ℕ) (bytes after payload : List ℕ) (rows : List StoreRow)
        → StandsWith limits engine (h ++ more) p
        → (s : IsStoreFor limits mode bytes h p0)
        → IsCommitFor limits mode h p0 (h ++ more) p rows
        → IsPayload mode rows payload
        → IsStore limits.payload (s.payloads ++ payload ∷ []) after
        → IsStoreFor limits mode after (h ++ more) p }
    ensures image { (limits : Limits) (mode : Mode) (engine : Engine K) (h more : History)
        (p0 p : ℕ) (bytes image payload : List ℕ) (rows : List StoreRow)
        → StandsWith limits engine (h ++ more) p
        → (s : IsStoreFor limits mode bytes h p0)
        → IsCommitFor limits mode h p0 (h ++ more) p rows
        → IsPayload mode rows payload
        → IsBeforeOrAfter limits.payload s.payloads payload image
        → IsStoreFor limits mode image h p0 ⊎ IsStoreFor limits mode image (h ++ more) p }
    ensures empty { (limits : Limits) (mode : Mode) (bytes : List ℕ)
        → IsStore limits.payload [] bytes → IsStoreFor limits mode bytes [] 0 }
{
    histories_may_be_committed::<K>();
    commits_store();
}

/// What rows and a State say of a history was left of what it released and of what waits.
pub fn stores_say_what_was_left()
    ensures { (limits : Limits) (mode : Mode) (told : Option (List Row)) (join : Joiner)
        (tables : Tables) (state : StateRow) (h : History) (part : ℕ)
        → IsLeftOf limits mode told join tables state h part
        → WereLeft limits mode told join tables state (state_of limits h) (events_of limits h) }
{}

/// What a store says that waits is sound: of rows that close after a history, if the keys of their groups ascend, and
/// of what is found in bytes that store it.
pub fn what_waits_is_sound()
    ensures rows { (limits : Limits) (h : History) (part : ℕ) (rows : List StoreRow)
        → ClosesAt (moment_of limits h part) rows → AscendByKey rows → WaitsSoundly limits rows }
    ensures found { (limits : Limits) (mode : Mode) (bytes : List ℕ) (h : History) (part : ℕ)
        (log : Log) (found : Found)
        → StoresHistory limits mode bytes h part → IsStoreRead limits bytes (log, found)
        → WaitsSoundly limits found.others }
{
    a_joiner_is_made_again();
    states_are_sound();
    what_is_found_can_be_restored();
    what_is_found_was_stored();
}

/// A store of a history is no bad store: its batches are whole, each goes on with those before it, and no two of its kept
/// rows have one last place.
pub fn a_store_of_a_history_is_no_bad_store()
    ensures { (limits : Limits) (mode : Mode) (bytes : List ℕ) (h : History) (part place : ℕ)
        → StoresHistory limits mode bytes h part → ¬ IsBadAt limits place bytes }
{
    flows_of_acts_are_lawful();
    a_store_is_no_bad_store();
}

/// A store that can commit still can while its disk and its log are as they were.
pub fn what_can_commit_still_can<D: Disk>()
    ensures { (old new : OnDisk D) → SameBut D.state D.faults D.spent old new
        → CanCommit D.state old → CanCommit D.state new }
{}

/// What is saved of a history on an observable disk stays saved while the disk is only looked at, and the saved rows and the mark of the
/// tables are as they were.
pub fn what_is_saved_stays_saved<D: Disk>()
    ensures { (limits : Limits) (mode : Mode) (h : History) (part : ℕ) (old new : Engine (OnDisk D))
        → (D.state old.joined.keep.disk).told
        → SameBut D.state D.faults D.spent old.joined.keep new.joined.keep
        → new.joined.tables.marked ≡ old.joined.tables.marked
        → IsSaved D.state limits mode old h part → IsSaved D.state limits mode new h part }
{}
