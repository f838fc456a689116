//! Plain mode: each flow is a row, so there is nothing to remember.
ghost use Rattle.std.specs.Prelude.{⊤, []};
ghost use Rattle.reach_model.specs.declared.modes.Mode.TheVariants.{Plain as PlainMode};

use crate::questions::{First, Question};
use crate::reducer::Reducer;
use crate::rows::Row;
use flow_base::{Flow, NoMemory};
use reach_model::{Mode, Verdict};

/// Keeps each flow as a row of its own.
#[derive(Clone, Copy, Debug, PartialEq, Eq)]
pub struct Plain;

impl Plain {
    /// The tables of no rows.
    pub fn new() -> Plain
        ensures stands { ⟦<Plain as Reducer>⟧.stands_for result [] }
        ensures holds { ⟦<Plain as Reducer>⟧.holds result [] }
    {
        Plain
    }
}

impl Reducer for Plain {
    ghost mode = { PlainMode };

    ghost stands_for = { λ _ _. ⊤ };

    ghost holds = { λ _ _. ⊤ };

    ghost covers = { λ _ _. ⊤ };

    fn mode(&self) -> Mode {
        Mode::Plain
    }

    fn allowed(&self, _question: &Question, _first: First) -> bool {
        true
    }

    fn decide(&self, _flow: &Flow) -> Verdict {
        Verdict::Add
    }

    fn reserve(&mut self, _flows: &[Flow]) -> Result<(), NoMemory> {
        Ok(())
    }

    fn note(&mut self, _flow: &Flow, _verdict: Verdict) {}

    fn recall(&mut self, _row: &Row) -> Result<(), NoMemory> {
        Ok(())
    }
}
