//! What ties questions, rows and verdicts to the laws of the modes.
//!
//! `allowed` looks at one first flow, a walk goes over rows, and a verdict looks at rows. These laws turn what they say
//! into what holds of all flows: an allowed question is one that the mode's laws speak of, its answer over the rows is
//! the answer over the flows, and the rows that grow by the verdicts are those that the mode keeps.
ghost use Rattle.std.specs.Prelude.{◌↔◌, ◌<◌, ◌≤◌, ◌^◌, ℕ, List, [], ◌∷◌, ◌++◌, length};
ghost use Rattle.flow_base.specs.declared.types.Flow.{Flow};
ghost use Rattle.reach_model.specs.declared.modes.Mode.{Mode};
ghost use Rattle.reach_model.specs.declared.modes.Mode.TheVariants.{Plain as PlainMode, Continuous as ContinuousMode};
ghost use Rattle.reach_model.specs.declared.modes.Verdict.{Verdict};
ghost use Rattle.reach_model.specs.ByRows.{IsVerdictByRows};
ghost use Rattle.reach_model.specs.Flows.{IsLawful};
ghost use Rattle.reach_model.specs.Numbers.{IsNumbered, beyond, known};
ghost use Rattle.reach_model.specs.Rows.{Row, Keeps, firsts, rows_after};
ghost use Rattle.reach_rows.specs.declared.questions.First.{First};
ghost use Rattle.reach_rows.specs.declared.questions.Question.{Question};
ghost use Rattle.reach_rows.specs.Asked.{IsAnswer, IsAnswerable, IsAnsweredFor, counted, subject};
ghost use Rattle.reach_rows.specs.Kept.{ComesAfter, GoesOn, IsFirstOf};
ghost use Rattle.reach_rows.specs.Questions.{IsAllowed};
ghost use Rattle.reach_rows.specs.Verdicts.{AreFew, IsNext};

/// A mode allows by the first flow of an object exactly the questions that its laws speak of. Plain and continuous mode
/// allow all.
pub fn what_is_allowed_is_answerable()
    ensures exact { (mode : Mode) (F : List Flow) (question : Question) (first : First)
        → IsFirstOf F (subject question) first
        → IsAllowed mode question first ↔ IsAnswerable mode F question }
    ensures plain { (question : Question) (first : First) → IsAllowed PlainMode question first }
    ensures continuous { (question : Question) (first : First)
        → IsAllowed ContinuousMode question first }
{}

/// The first flow of an object among the rows is its first flow.
pub fn first_flows_are_told()
    ensures { (mode : Mode) (F : List Flow) (R : List Row) → IsLawful F → Keeps mode F R
        → (x : ℕ) (first : First) → IsFirstOf (firsts R) x first ↔ IsFirstOf F x first }
{}

/// The rows answer an allowed question as all flows do, in source mode backward for sources alone. To no question is an
/// answer over the rows wrong, allowed or not.
pub fn what_is_allowed_is_answered()
    ensures exact { (mode : Mode) (F : List Flow) (R : List Row) (question : Question)
        (first : First) → IsLawful F → Keeps mode F R
        → IsFirstOf (firsts R) (subject question) first → IsAllowed mode question first
        → (x : ℕ) → IsAnsweredFor mode F question x
        → IsAnswer question (counted question R) x ↔ IsAnswer question F x }
    ensures sound { (mode : Mode) (F : List Flow) (R : List Row) (question : Question)
        → IsLawful F → Keeps mode F R
        → (x : ℕ) → IsAnswer question (counted question R) x → IsAnswer question F x }
{}

/// Rows that grow by the verdict on each flow are those that the mode keeps. Each next flow is one that rows and tables
/// may take in.
pub fn verdicts_make_the_rows()
    ensures none { (mode : Mode) → Keeps mode [] [] }
    ensures kept { (mode : Mode) (F : List Flow) (R : List Row) (f : Flow) (d : Verdict)
        → IsLawful (F ++ f ∷ []) → Keeps mode F R → IsVerdictByRows mode R f d
        → Keeps mode (F ++ f ∷ []) (rows_after R f d) }
    ensures next { (mode : Mode) (F : List Flow) (R : List Row) (f : Flow) (d : Verdict)
        → IsLawful (F ++ f ∷ []) → Keeps mode F R → AreFew R → IsVerdictByRows mode R f d
        → IsNext mode R f d }
    ensures after { (mode : Mode) (F : List Flow) (R : List Row) (f : Flow)
        → IsLawful (F ++ f ∷ []) → Keeps mode F R → ComesAfter R f }
    ensures goes_on { (mode : Mode) (F : List Flow) (R : List Row) (f : Flow)
        → IsLawful (F ++ f ∷ []) → IsNumbered (F ++ f ∷ []) → beyond f < 2 ^ 32
        → Keeps mode F R → GoesOn (known (firsts R)) f }
    ensures few { (mode : Mode) (F : List Flow) (R : List Row) → Keeps mode F R
        → length R ≤ length F }
{}
