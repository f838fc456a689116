//! What decides of each flow whether it is kept, dropped or joined to a row.
ghost use Rattle.std.specs.Prelude.{◌≡◌, ◌≢◌, ◌↔◌, ◌∷◌, ◌++◌, [], List, OnOk, OnErr, IsTrue};
ghost use Rattle.flow_base.specs.declared.types.Flow.{Flow as AFlow};
ghost use Rattle.reach_model.specs.declared.modes.Mode.{Mode as AMode};
ghost use Rattle.reach_model.specs.ByRows.{IsVerdictByRows};
ghost use Rattle.reach_model.specs.Flows.{source, target};
ghost use Rattle.reach_model.specs.Rows.{Row as ARow, rows_after};
ghost use Rattle.reach_rows.specs.Kept.{row_of_kept};
ghost use Rattle.reach_rows.specs.Questions.{IsAllowed};
ghost use Rattle.reach_rows.specs.Verdicts.{AreFew, FitsRows, IsNext, IsRecalled};

use crate::questions::{First, Question};
use crate::rows::Row;
use flow_base::{Flow, NoMemory};
use reach_model::{Mode, Verdict};

/// The tables of a mode.
///
/// They stand for the rows that the mode has kept, and their verdict on a flow that comes after those rows is the mode's
/// verdict on it. Whatever rows and flows they were given, in any order, they still hold those rows: no verdict names a
/// row that isn't there or that lies between other objects.
pub trait Reducer {
    /// The mode.
    ghost mode: { AMode };

    /// The tables are those of these rows, each of which came after the earlier ones.
    ghost stands_for: { Self → List ARow → Type 0 };

    /// These rows were noted or recalled, whatever their times.
    ghost holds: { Self → List ARow → Type 0 };

    /// There is room for these flows in order.
    ghost covers: { Self → List AFlow → Type 0 };

    /// The mode.
    fn mode(&self) -> Mode
        ensures { result ≡ mode };

    /// Whether the mode answers a question about an object with this first flow.
    fn allowed(&self, question: &Question, first: First) -> bool
        ensures { IsTrue result ↔ IsAllowed mode question.now first };

    /// The verdict on a flow. It is the mode's verdict if the flow's ends differ.
    fn decide(&self, flow: &Flow) -> Verdict
        ensures verdict { (R : List ARow) → stands_for self.now R
            → source flow.now ≢ target flow.now → IsVerdictByRows mode R flow.now result }
        ensures fits { (R : List ARow) → holds self.now R → FitsRows R flow.now result };

    /// Makes room for these flows in order.
    fn reserve(&mut self, flows: &[Flow]) -> Result<(), NoMemory>
        ensures covers { OnOk result (covers self.new flows.now) }
        ensures stands { (R : List ARow) → stands_for self.old R → stands_for self.new R }
        ensures holds { (R : List ARow) → holds self.old R → holds self.new R };

    /// Takes a flow in with the verdict on it.
    fn note(&mut self, flow: &Flow, verdict: Verdict)
        requires { (rest : List AFlow) × covers self.old (flow.now ∷ rest) }
        ensures rows { (R : List ARow) → stands_for self.old R → IsNext mode R flow.now verdict
            → stands_for self.new (rows_after R flow.now verdict) }
        ensures holds { (R : List ARow) → holds self.old R → AreFew R → FitsRows R flow.now verdict
            → holds self.new (rows_after R flow.now verdict) }
        ensures rest { (rest : List AFlow) → covers self.old (flow.now ∷ rest)
            → covers self.new rest };

    /// Takes in a row that was kept before.
    fn recall(&mut self, row: &Row) -> Result<(), NoMemory>
        ensures rows { OnOk result ((R : List ARow) → stands_for self.old R
            → IsRecalled R (row_of_kept row.now)
            → stands_for self.new (R ++ row_of_kept row.now ∷ [])) }
        ensures holds { OnOk result ((R : List ARow) → holds self.old R → AreFew R
            → holds self.new (R ++ row_of_kept row.now ∷ [])) }
        ensures stands_err { OnErr result ((R : List ARow) → stands_for self.old R
            → stands_for self.new R) }
        ensures holds_err { OnErr result ((R : List ARow) → holds self.old R → holds self.new R) };
}
