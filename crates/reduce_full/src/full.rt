//! The reducer of full mode.
ghost use Rattle.std.specs.Prelude.{[], length};
ghost use Rattle.reach_model.specs.declared.modes.Mode.TheVariants.{Full as FullMode};
ghost use Rattle.version_graph.specs.Tables.{HasRoom};
ghost use Rattle.reduce_full.specs.Tables.{StandsFor, Holds};

use flow_base::{Flow, NoMemory};
use reach_model::{Mode, Verdict};
use reach_rows::{First, Question, Reducer, Row, starts_by};
use std::alloc::Global;
use table_salt::Salt;
use version_graph::Versions;

/// The versions of the kept flows.
#[derive(Drop)]
pub struct Full {
    versions: Versions,
}

impl Full {
    /// The tables of no rows.
    pub fn new(alloc: Global, salt: Salt) -> Full
        ensures stands { StandsFor result [] }
        ensures holds { Holds result [] }
    {
        Full {
            versions: Versions::new(alloc, salt),
        }
    }
}

impl Reducer for Full {
    ghost mode = { FullMode };

    ghost stands_for = { StandsFor };

    ghost holds = { Holds };

    ghost covers = { λ s flows. HasRoom s.versions (length flows) };

    fn mode(&self) -> Mode {
        Mode::Full
    }

    fn allowed(&self, question: &Question, first: First) -> bool {
        match question {
            Question::Back { .. } => true,
            Question::Fore { since, .. } => starts_by(first, *since),
        }
    }

    fn decide(&self, flow: &Flow) -> Verdict {
        let linked = self.versions.linked(flow.from, flow.to);
        if linked {
            return Verdict::Drop;
        }
        Verdict::Add
    }

    fn reserve(&mut self, flows: &[Flow]) -> Result<(), NoMemory> {
        self.versions.reserve(flows)
    }

    fn note(&mut self, flow: &Flow, verdict: Verdict) {
        match verdict {
            Verdict::Drop => {}
            Verdict::Add => self.versions.keep(flow),
            Verdict::Extend { .. } => {}
        }
    }

    fn recall(&mut self, row: &Row) -> Result<(), NoMemory> {
        let flow = row.first_flow();
        self.versions.reserve([flow].as_slice())?;
        self.versions.keep(&flow);
        Ok(())
    }
}
