//! Which rows are lawful, which batch a commit by rows writes, what can be restored, that what is found
//! was stored, that a store is never a bad one, and that bytes are read in one way.
ghost use Rattle.std.specs.Prelude.{◌≡◌, ◌++◌, ℕ, List, Some};
ghost use Rattle.acts.specs.Flows.{flows};
ghost use Rattle.batch_log.specs.Log.{Log};
ghost use Rattle.flow_base.specs.declared.limits.Limits.{Limits};
ghost use Rattle.flow_base.specs.declared.types.Flow.{Flow};
ghost use Rattle.reach_model.specs.declared.modes.Mode.{Mode};
ghost use Rattle.reach_model.specs.Flows.{IsLawful};
ghost use Rattle.reach_model.specs.Rows.{Row, Keeps};
ghost use Rattle.reduced_store.specs.Committing.{CommitsByRows};
ghost use Rattle.reduced_store.specs.Filling.{AreApart};
ghost use Rattle.reduced_store.specs.OneReading.{BadAtOnePlace, BadNowhere, OneLast, OneMode, SameOthers};
ghost use Rattle.reduced_store.specs.Opening.{IsBadAt, IsStoreRead};
ghost use Rattle.reduced_store.specs.Reading.{IsFound, table_rows, closing_rows};
ghost use Rattle.reduced_store.specs.Restoring.{CanBeRestored, SaySame};
ghost use Rattle.reduced_store.specs.Storing.{WasStored};
ghost use Rattle.reduced_store.specs.declared.reading.Found.{Found};
ghost use Rattle.row_codec.specs.declared.rows.StoreRow.{StoreRow};
ghost use Rattle.store_check.specs.Conditions.{Bounds, bounds_of};
ghost use Rattle.stored.specs.Bytes.{IsStoreOf};
ghost use Rattle.stored.specs.Moment.{Moment};
ghost use Rattle.stored.specs.Words.{all_of};

use batch_log::a_disk_reads_in_one_way;
use flow_base::equal_keys_are_one;
use row_codec::payloads_are_apart;

/// No two rows that a mode keeps have one last place, so a store of them is lawful.
pub fn rows_of_a_mode_are_apart()
    ensures { (mode : Mode) (F : List Flow) (R : List Row)
        → IsLawful F → Keeps mode F R → AreApart R }
{}

/// The batch of a commit by rows is that of a later moment after an earlier one, if its rows are those
/// of the two moments.
pub fn a_commit_by_rows_is_that_of_its_moments()
    ensures { CommitsByRows }
{}

/// What is found besides the kept rows says of tables what all rows of the batches say.
pub fn others_say_what_all_rows_say()
    ensures { (batches : List (List StoreRow))
        → SaySame (all_of batches) (table_rows batches ++ closing_rows batches) }
{}

/// What is found in a store that has a batch can be restored.
pub fn what_is_found_can_be_restored()
    ensures { (bounds : Bounds) (payloads : List (List ℕ)) (found : Found) (mode : Mode)
        → IsFound bounds payloads found → found.mode ≡ Some mode
        → CanBeRestored bounds found.others found.rows.rows }
{
    equal_keys_are_one();
}

/// What is found in the bytes of a store of a moment was stored of that moment.
pub fn what_is_found_was_stored()
    ensures { (text : List ℕ → List ℕ) (limits : Limits) (mode : Mode) (bytes : List ℕ)
        (m : Moment) (log : Log) (found : Found)
        → IsStoreRead limits bytes (log, found)
        → IsStoreOf text limits.names limits.payload (bounds_of limits) mode bytes m
        → WasStored text limits.names mode found m }
{
    a_disk_reads_in_one_way();
    payloads_are_apart();
}

/// A store of a moment whose flows are lawful is no bad store: its batches are whole, each goes on with
/// those before it, and no two of its kept rows have one last place.
pub fn a_store_is_no_bad_store()
    ensures { (text : List ℕ → List ℕ) (limits : Limits) (mode : Mode) (bytes : List ℕ)
        (m : Moment) (place : ℕ)
        → IsLawful (flows m.taken)
        → IsStoreOf text limits.names limits.payload (bounds_of limits) mode bytes m
        → ¬ IsBadAt limits place bytes }
{
    a_disk_reads_in_one_way();
    payloads_are_apart();
}

/// The bytes of a disk are read as a store in one way: they have one mode, one last batch, and one list
/// of the rows that aren't kept ones. What is bad is so at one place, and it is no store in which no two
/// rows have one last place.
pub fn a_store_reads_in_one_way()
    ensures mode { OneMode }
    ensures others { SameOthers }
    ensures last { OneLast }
    ensures one_place { BadAtOnePlace }
    ensures never_bad { BadNowhere }
{
    a_disk_reads_in_one_way();
    payloads_are_apart();
}
