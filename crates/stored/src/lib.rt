//! What a store says of a moment of a history, and the laws by which commits and restoring compose.
//!
//! A moment is what stands after some bytes of a log: the acts, what waits, the counts, the line
//! that has begun. Batches store a moment (`Stored`) if each continues the store of those before,
//! their rows together say what the tables hold, and the last batch has the groups that wait and
//! the State. `IsCommitOf` says exactly which rows the batch of a commit has, from the two moments
//! alone.
//!
//! There is no code: each function stands for the law that its clauses say.
#![tactic(auto)]

ghost use Rattle.std.specs.Prelude.{◌≡◌, ◌⊎◌, ◌++◌, ◌∷◌, [], ℕ, List, Option, Some};
ghost use Rattle.std.specs.Option.{option_map};
ghost use Rattle.std.specs.Map.{lookup};
ghost use Rattle.acts.specs.declared.act.Taken.{Taken};
ghost use Rattle.acts.specs.Flows.{acts_of, objects};
ghost use Rattle.acts.specs.Keys.{all_given};
ghost use Rattle.audit_lex.specs.declared.header.EventKey.{EventKey};
ghost use Rattle.audit_record.specs.declared.types.Record.{Record};
ghost use Rattle.batch_log.specs.Batches.{IsStore, IsBeforeOrAfter};
ghost use Rattle.entity_names.specs.Known.{Known, NamesAs};
ghost use Rattle.fd_table.specs.Table.{Table as Fds, HoldsAs, AddressesAs};
ghost use Rattle.proc_table.specs.Table.{Table as Procs, StandsFor as LivesAs};
ghost use Rattle.reach_model.specs.declared.modes.Mode.{Mode};
ghost use Rattle.record_join.specs.Keys.{is_key};
ghost use Rattle.record_join.specs.StandsFor.{group_at};
ghost use Rattle.row_codec.specs.declared.rows.StoreRow.{StoreRow};
ghost use Rattle.store_check.specs.Conditions.{Bounds};
ghost use Rattle.store_check.specs.Store.{keys};
ghost use Rattle.store_check.specs.Conditions.{Continues};
ghost use Rattle.stored.specs.Batch.{IsCommitOf, laid};
ghost use Rattle.row_codec.specs.Payload.{IsPayload};
ghost use Rattle.stored.specs.Bytes.{IsStoreOf};
ghost use Rattle.stored.specs.Example.{seen, first_batch};
ghost use Rattle.stored.specs.Filling.{HasLives, HasHeld, HasAddresses};
ghost use Rattle.stored.specs.Going.{MayCommit};
ghost use Rattle.stored.specs.Moment.{Moment, nothing, state_at};
ghost use Rattle.stored.specs.Reading.{AreSpelled, group_of_lines, clock_of, tally_of};
ghost use Rattle.stored.specs.Stored.{AreTables, ClosesAt, Stored};
ghost use Rattle.stored.specs.Words.{all_of, groups_of, pairs_in, state_of};

use acts::{each_beginning_is_an_act, flows_of_acts_are_lawful};
use flow_base::equal_keys_are_one;

/// A store of a moment and the batch of a commit of a later moment are a store of the later one: as
/// lists of batches, as bytes, and as what a crash of the commit may leave.
pub fn commits_store()
    ensures stored { (text : List ℕ → List ℕ) (most : ℕ) (bounds : Bounds) (mode : Mode)
        (batches : List (List StoreRow)) (batch : List StoreRow) (m0 m : Moment)
        → Stored text most bounds mode batches m0
        → IsCommitOf text most mode m0 m batch
        → MayCommit bounds m0 m
        → Stored text most bounds mode (batches ++ batch ∷ []) m }
    ensures bytes { (text : List ℕ → List ℕ) (names most : ℕ) (bounds : Bounds) (mode : Mode)
        (bytes after payload : List ℕ) (batch : List StoreRow) (m0 m : Moment)
        → (s : IsStoreOf text names most bounds mode bytes m0)
        → IsCommitOf text names mode m0 m batch
        → MayCommit bounds m0 m
        → IsPayload mode batch payload
        → IsStore most (s.payloads ++ payload ∷ []) after
        → IsStoreOf text names most bounds mode after m }
    ensures image { (text : List ℕ → List ℕ) (names most : ℕ) (bounds : Bounds) (mode : Mode)
        (bytes image payload : List ℕ) (batch : List StoreRow) (m0 m : Moment)
        → (s : IsStoreOf text names most bounds mode bytes m0)
        → IsCommitOf text names mode m0 m batch
        → MayCommit bounds m0 m
        → IsPayload mode batch payload
        → IsBeforeOrAfter most s.payloads payload image
        → IsStoreOf text names most bounds mode image m0
        ⊎ IsStoreOf text names most bounds mode image m }
    ensures empty { (text : List ℕ → List ℕ) (most : ℕ) (bounds : Bounds) (mode : Mode)
        → Stored text most bounds mode [] nothing }
{
    flows_of_acts_are_lawful();
    each_beginning_is_an_act();
    equal_keys_are_one();
}

/// After one see of a process, the batch of one Life row and the State is the commit.
pub fn a_commit_is_there()
    ensures { (text : List ℕ → List ℕ) (most : ℕ) (mode : Mode)
        → IsCommitOf text most mode nothing seen (laid first_batch) }
{}

/// Tables that were filled from the rows of a store stand for the acts of its moment.
pub fn tables_are_restored()
    ensures objects { (text : List ℕ → List ℕ) (most : ℕ) (mode : Mode)
        (rows : List StoreRow) (m : Moment)
        → AreTables text most mode rows m → keys rows ≡ objects (acts_of m.taken) }
    ensures lives { (text : List ℕ → List ℕ) (most : ℕ) (mode : Mode)
        (rows : List StoreRow) (m : Moment) (table : Procs)
        → AreTables text most mode rows m → HasLives table rows
        → LivesAs table (acts_of m.taken) }
    ensures held { (text : List ℕ → List ℕ) (most : ℕ) (mode : Mode)
        (rows : List StoreRow) (m : Moment) (table : Fds)
        → AreTables text most mode rows m → HasHeld table rows
        → HoldsAs table (acts_of m.taken) }
    ensures addresses { (text : List ℕ → List ℕ) (most : ℕ) (mode : Mode)
        (rows : List StoreRow) (m : Moment) (table : Fds)
        → AreTables text most mode rows m → HasAddresses table rows
        → AddressesAs table (acts_of m.taken) }
    ensures names { (text : List ℕ → List ℕ) (mode : Mode)
        (rows : List StoreRow) (m : Moment) (table : Known)
        → AreTables text table.most_names mode rows m → NamesAs table (pairs_in rows)
        → NamesAs table (all_given text (acts_of m.taken)) }
    ensures waiting { (read : List ℕ → Option Record) (m : Moment) (batch : List StoreRow)
        → AreSpelled read m.join.waiting → ClosesAt m batch
        → (key : EventKey)
        → group_of_lines read (lookup (is_key key) (groups_of batch)) ≡ group_at m.join key }
    ensures clock { (m : Moment) (batch : List StoreRow)
        → ClosesAt m batch → option_map clock_of (state_of batch) ≡ Some m.join.clock }
    ensures tally { (m : Moment) (batch : List StoreRow)
        → ClosesAt m batch → option_map tally_of (state_of batch) ≡ Some m.tally }
{}
