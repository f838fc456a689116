//! What the definitions promise.
ghost use Rattle.std.specs.Prelude.{◌≡◌, ◌↔◌, ◌≤◌, ◌+◌, ◌++◌, ℕ, List, Some, None, length};
ghost use Rattle.flow_base.specs.declared.limits.Full.{Full};
ghost use Rattle.flow_base.specs.declared.limits.Limits.{Limits};
ghost use Rattle.audit_lex.specs.History.{History, with_bytes};
ghost use Rattle.audit_record.specs.Records.{Spells};
ghost use Rattle.audit_record.specs.declared.types.Record.{Record};
ghost use Rattle.ingest.specs.LineRecords.{record_of};
ghost use Rattle.ingest.specs.Stops.{Fits, Stops};
ghost use Rattle.ingest.specs.Parts.{Engine};
ghost use Rattle.ingest.specs.StandsFor.{StandsFor};
ghost use Rattle.ingest.specs.Owing.{MayOwe};
ghost use Rattle.ingest.specs.PartTaken.{HasPart, StandsWith, OwesWith, count_on};
ghost use Rattle.record_join.specs.Events.{next_event};

use reach_rows::Keep;

/// What has stopped stays stopped at that limit, whatever comes later.
pub fn stops_stay()
    ensures { (limits : Limits) (h more : History) (full : Full)
        → Stops limits h full → Stops limits (h ++ more) full }
{}

/// No limit stops a history that passes none.
pub fn what_fits_never_stops()
    ensures { (limits : Limits) (h : History) (full : Full)
        → Fits limits h → Stops limits h full → ⊥ }
{}

/// A history that passes no limit passed none before.
pub fn fronts_fit()
    ensures { (limits : Limits) (front back : History)
        → Fits limits (front ++ back) → Fits limits front }
{}

/// The record of a line is the record that it spells, if the line isn't too long.
pub fn lines_spell_records()
    ensures { (limit : ℕ) (line : List ℕ) (made : Record)
        → (record_of limit line ≡ Some made) ↔ ((length line ≤ limit) × Spells line made) }
{}

/// An engine that stands for a history owes nothing of it.
pub fn what_stands_owes_nothing<K: Keep>()
    ensures { (limits : Limits) (engine : Engine K) (h : History) → StandsFor limits engine h
        → (w : MayOwe limits engine h) × (next_event limits w.rest ≡ None) }
{}

/// An engine that owes nothing of a history stands for it.
pub fn what_owes_nothing_stands<K: Keep>()
    ensures { (limits : Limits) (engine : Engine K) (h : History) (w : MayOwe limits engine h)
        → next_event limits w.rest ≡ None → StandsFor limits engine h }
{}

/// The bytes of a part are counted as the history goes on, and what stands with a part owes nothing with it.
pub fn parts_are_counted<K: Keep>()
    ensures taken { (limits : Limits) (old new : Engine K) (h : History) (part : ℕ) (piece : List ℕ)
        → HasPart old h part → StandsFor limits new (with_bytes h piece)
        → new.part ≡ count_on old.part (length piece)
        → StandsWith limits new (with_bytes h piece) (part + length piece) }
    ensures owed { (limits : Limits) (old new : Engine K) (h : History) (part : ℕ) (piece : List ℕ)
        → HasPart old h part → MayOwe limits new (with_bytes h piece)
        → new.part ≡ count_on old.part (length piece)
        → OwesWith limits new (with_bytes h piece) (part + length piece) }
    ensures rest { (limits : Limits) (engine : Engine K) (h : History) (part : ℕ)
        → StandsWith limits engine h part → OwesWith limits engine h part }
{
    what_stands_owes_nothing::<K>();
}
