//! What the rows of each mode promise, for every lawful list of flows.
//!
//! A mode keeps of a list of flows the rows that its verdicts on them make, one after the other. These laws say that
//! the rows answer what the mode allows exactly as all flows do, that nothing redundant stays among them, and that they
//! alone decide what becomes of the next flow. So a program may forget the flows.
ghost use Rattle.std.specs.Prelude.{◌≡◌, ◌≢◌, ◌↔◌, ◌⊎◌, ◌≤◌, ◌<◌, ℕ, List, [], ◌∷◌, ◌++◌, length, take, slice_index_or};
ghost use Rattle.flow_base.specs.declared.types.Flow.{Flow};
ghost use Rattle.reach_model.specs.declared.modes.Mode.{Mode as TheMode};
ghost use Rattle.reach_model.specs.declared.modes.Verdict.{Verdict as TheVerdict};
ghost use Rattle.reach_model.specs.ByRows.{IsVerdictByRows};
ghost use Rattle.reach_model.specs.Flows.{IsLawful, source, target};
ghost use Rattle.reach_model.specs.Laws.{Answers, KeepsEachPath, KeepsNothingElse, KeepsFirstFlows, PartsRows, PartsFlows, BringsSources, AscendsByFirst};
ghost use Rattle.reach_model.specs.Numbers.{known, IsNumbered};
ghost use Rattle.reach_model.specs.Rows.{Row, IsVerdict, IsSourceOf, Keeps, firsts};
ghost use Rattle.reach_model.specs.SourceSets.{IsLater, HasSource, HasSourceAfter, MakesSource};
ghost use Rattle.reach_model.specs.Versions.{LeavesOnce, HasSourceForEach, version};

use crate::modes::Mode;

/// The rows of a mode answer each question that it allows as the flows do.
pub fn rows_are_faithful()
    ensures { (mode : TheMode) (F : List Flow) (R : List Row) → IsLawful F → Keeps mode F R
        → Answers mode F R }
{}

/// In full mode each path has a kept one through the same objects that ends no later, and there are no other kept paths.
pub fn full_keeps_each_path()
    ensures there { (F : List Flow) (R : List Row) → IsLawful F → Keeps Mode.Full F R
        → KeepsEachPath F R }
    ensures no_more { (F : List Flow) (R : List Row) → IsLawful F → Keeps Mode.Full F R
        → KeepsNothingElse F R }
{}

/// In every mode the first flow of each object is kept, so numbers, first times and sources are.
pub fn first_flows_are_kept()
    ensures first { (mode : TheMode) (F : List Flow) (R : List Row) → IsLawful F → Keeps mode F R
        → KeepsFirstFlows F R }
    ensures known { (mode : TheMode) (F : List Flow) (R : List Row) → IsLawful F → Keeps mode F R
        → known (firsts R) ≡ known F }
    ensures numbered { (mode : TheMode) (F : List Flow) (R : List Row) → IsLawful F → Keeps mode F R
        → IsNumbered F → IsNumbered (firsts R) }
{}

/// A mode keeps one list of rows of a lawful list of flows.
pub fn rows_are_determined()
    ensures some { (mode : TheMode) (F : List Flow) → IsLawful F → (R : List Row) × Keeps mode F R }
    ensures one { (mode : TheMode) (F : List Flow) (R S : List Row) → IsLawful F → Keeps mode F R
        → Keeps mode F S → R ≡ S }
{}

/// The verdict on the next flow follows from the rows.
pub fn rows_tell_the_verdict()
    ensures { (mode : TheMode) (F : List Flow) (R : List Row) (f : Flow) (d : TheVerdict)
        → IsLawful (F ++ f ∷ []) → Keeps mode F R → IsVerdictByRows mode R f d
        → IsVerdict mode F R f d }
{}

/// Nothing redundant stays.
pub fn nothing_redundant_stays()
    ensures continuous { (F : List Flow) (R : List Row) → IsLawful F → Keeps Mode.Continuous F R
        → PartsRows F R }
    ensures full { (F : List Flow) (R : List Row) → IsLawful F → Keeps Mode.Full F R
        → PartsFlows R }
    ensures full_versions { (F : List Flow) (R : List Row) → IsLawful F → Keeps Mode.Full F R
        → LeavesOnce R }
    ensures source { (F : List Flow) (R : List Row) → IsLawful F → Keeps Mode.Source F R
        → BringsSources F R }
    ensures source_each { (F : List Flow) (R : List Row) → IsLawful F → Keeps Mode.Source F R
        → HasSourceForEach F R }
{}

/// The first flows of the rows ascend.
pub fn first_flows_ascend()
    ensures { (mode : TheMode) (F : List Flow) (R : List Row) → IsLawful F → Keeps mode F R
        → AscendsByFirst R }
{}

/// The sources of each object after a flow follow from those before it, and so does what the verdict of source mode asks.
pub fn sources_follow_from_earlier_ones()
    ensures after { (K : List Flow) (f : Flow) → IsLater K f → source f ≢ target f → (v x : ℕ)
        → HasSource (K ++ f ∷ []) v x ↔ HasSourceAfter K f v x }
    ensures asked { (K : List Flow) (f : Flow) → IsLater K f → source f ≢ target f → (v x : ℕ)
        → IsSourceOf K f v x ↔ (HasSource K v x ⊎ (MakesSource K f x × (v ≡ source f))) }
{}

/// A flow leaves the current version of its source exactly if no flow into that source comes after it.
pub fn inflows_open_versions()
    ensures { (K : List Flow) (x i j : ℕ) (d : Flow) → i < j → j ≤ length K
        → source (slice_index_or K i d) ≡ x → target (slice_index_or K i d) ≢ x
        → (version (take i K) x ≡ version (take j K) x)
        ↔ ((k : ℕ) → i < k → k < j → target (slice_index_or K k d) ≢ x) }
{}
