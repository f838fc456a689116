//! The reducer of source mode.
ghost use Rattle.std.specs.Prelude.{[]};
ghost use Rattle.reach_model.specs.declared.modes.Mode.TheVariants.{Source as SourceMode};
ghost use Rattle.reduce_source.specs.Sets.{HasRoom};
ghost use Rattle.reduce_source.specs.Tables.{StandsFor, Holds};

use crate::sets::SourceSets;
use flow_base::{Flow, NoMemory};
use reach_model::{Mode, Verdict};
use reach_rows::{First, Question, Reducer, Row, starts_by};
use std::alloc::Global;

/// The sets of sources over the kept flows.
#[derive(Drop)]
pub struct Sources {
    sets: SourceSets,
}

impl Sources {
    /// The tables of no rows.
    pub fn new(alloc: Global) -> Sources
        ensures stands { StandsFor result [] }
        ensures holds { Holds result [] }
    {
        Sources {
            sets: SourceSets::new(alloc),
        }
    }
}

impl Reducer for Sources {
    ghost mode = { SourceMode };

    ghost stands_for = { StandsFor };

    ghost holds = { Holds };

    ghost covers = { λ s flows. HasRoom s.sets flows };

    fn mode(&self) -> Mode {
        Mode::Source
    }

    fn allowed(&self, question: &Question, first: First) -> bool {
        match question {
            Question::Back { .. } => true,
            Question::Fore { since, .. } => first.out && starts_by(first, *since),
        }
    }

    fn decide(&self, flow: &Flow) -> Verdict {
        let from = self.sets.is_known(flow.from);
        if !from {
            return Verdict::Add;
        }
        let to = self.sets.is_known(flow.to);
        if !to {
            return Verdict::Add;
        }
        let covered = self.sets.covers(flow.to, flow.from);
        if covered {
            return Verdict::Drop;
        }
        Verdict::Add
    }

    fn reserve(&mut self, flows: &[Flow]) -> Result<(), NoMemory> {
        self.sets.reserve(flows)?;
        Ok(())
    }

    fn note(&mut self, flow: &Flow, verdict: Verdict) {
        match verdict {
            Verdict::Drop => {}
            Verdict::Add => self.sets.union(flow.to, flow.from),
            Verdict::Extend { .. } => {}
        }
    }

    fn recall(&mut self, row: &Row) -> Result<(), NoMemory> {
        let flow = row.first_flow();
        self.sets.reserve([flow].as_slice())?;
        self.sets.union(flow.to, flow.from);
        Ok(())
    }
}
