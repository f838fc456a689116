//! The tables of continuous mode.
ghost use Rattle.std.specs.Prelude.{◌≡◌, ◌≢◌, ℕ, ◌≤◌, ◌+◌, ◌∷◌, ◌++◌, [], List, length, Some, OnOk, nat_eq};
ghost use Rattle.indexmap.specs.IndexMap.{IsUnchanged, get, spare};
ghost use Rattle.reach_model.specs.Rows.{Row as ARow};
ghost use Rattle.reach_model.specs.declared.modes.Mode.TheVariants.{Continuous as ContinuousMode};
ghost use Rattle.reach_model.specs.Pairs.{pair_eq};
ghost use Rattle.reach_rows.specs.Kept.{ComesAfter, row_of_kept};
ghost use Rattle.reach_rows.specs.Verdicts.{AreFew};
ghost use Rattle.reduce_continuous.specs.Tables.{StandsFor, Holds, HasTables, HasRuns, HasRoom, Takes, Names};

use crate::places::{Run, is_after, later, raise};
use flow_base::{Flow, NoMemory};
use indexmap::IndexMap;
use reach_model::{Mode, Verdict};
use reach_rows::{First, Question, Reducer, Row};
use std::alloc::Global;
use table_salt::Salt;

/// The last row of each pair, and the places of the last flows into and out of each object.
#[derive(Drop)]
pub struct Continuous {
    count: u64,
    runs: IndexMap<(u32, u32), Run, Salt>,
    into: IndexMap<u32, u64, Salt>,
    out: IndexMap<u32, u64, Salt>,
}

impl Continuous {
    /// The tables of no rows.
    pub fn new(alloc: Global, salt: Salt) -> Continuous
        ensures stands { StandsFor result [] }
        ensures holds { Holds result [] }
    {
        Continuous {
            count: 0,
            runs: IndexMap::with_hasher(alloc, salt),
            into: IndexMap::with_hasher(alloc, salt),
            out: IndexMap::with_hasher(alloc, salt),
        }
    }

    /// Makes room for this many more flows.
    fn grow(&mut self, more: usize) -> Result<(), NoMemory>
        ensures room { OnOk result (HasRoom self.new more) }
        ensures same { (self.new.count ≡ self.old.count) × IsUnchanged self.old.runs self.new.runs
            × IsUnchanged self.old.into self.new.into × IsUnchanged self.old.out self.new.out }
    {
        self.runs.reserve(more)?;
        self.into.reserve(more)?;
        self.out.reserve(more)?;
        Ok(())
    }

    /// Makes a flow the last of its pair, in a row, and the last at its two ends.
    fn put(&mut self, flow: &Flow, row: u64)
        requires { HasRoom self.old 1 }
        ensures tables { (R S : List ARow) → HasTables self.old R → ComesAfter R flow.now
            → Takes R S flow.now row → HasTables self.new S }
        ensures runs { (R S : List ARow) → HasRuns self.old R → Names R S flow.now row
            → HasRuns self.new S }
        ensures count { self.new.count ≡ self.old.count }
        ensures room { (n : ℕ) → HasRoom self.old (n + 1) → HasRoom self.new n }
    {
        let place = flow.at.place;
        set_run(&mut self.runs, (flow.from.0, flow.to.0), Run { row, place });
        set_place(&mut self.into, flow.to.0, place);
        set_place(&mut self.out, flow.from.0, place);
    }

    /// Takes in a row that was kept before, in the room that was made for it. The ends of such rows come in any order.
    fn put_back(&mut self, row: &Row)
        requires { HasRoom self.old 1 }
        ensures rows { (R : List ARow) → StandsFor self.old R → AreFew R
            → StandsFor self.new (R ++ row_of_kept row.now ∷ []) }
        ensures holds { (R : List ARow) → Holds self.old R → AreFew R
            → Holds self.new (R ++ row_of_kept row.now ∷ []) }
    {
        let (from, to) = (row.from.0, row.to.0);
        let place = row.last.at.place;
        let new = Run {
            row: self.count,
            place,
        };
        let run = later(self.runs.get(&(from, to)), new);
        let into = raise(self.into.get(&to), place);
        let out = raise(self.out.get(&from), place);
        set_run(&mut self.runs, (from, to), run);
        set_place(&mut self.into, to, into);
        set_place(&mut self.out, from, out);
        self.count = self.count.saturating_add(1);
    }
}

impl Reducer for Continuous {
    ghost mode = { ContinuousMode };

    ghost stands_for = { StandsFor };

    ghost holds = { Holds };

    ghost covers = { λ s flows. HasRoom s (length flows) };

    fn mode(&self) -> Mode {
        Mode::Continuous
    }

    fn allowed(&self, _question: &Question, _first: First) -> bool {
        true
    }

    fn decide(&self, flow: &Flow) -> Verdict {
        match self.runs.get(&(flow.from.0, flow.to.0)) {
            None => Verdict::Add,
            Some(run) => {
                let into = is_after(self.into.get(&flow.from.0), run.place);
                let out = is_after(self.out.get(&flow.to.0), run.place);
                if into {
                    return Verdict::Add;
                }
                if out {
                    return Verdict::Add;
                }
                Verdict::Extend { row: run.row }
            }
        }
    }

    fn reserve(&mut self, flows: &[Flow]) -> Result<(), NoMemory> {
        self.grow(flows.len())
    }

    fn note(&mut self, flow: &Flow, verdict: Verdict) {
        match verdict {
            Verdict::Drop => {}
            Verdict::Add => {
                let row = self.count;
                self.put(flow, row);
                self.count = row.saturating_add(1);
            }
            Verdict::Extend { row } => self.put(flow, row),
        }
    }

    fn recall(&mut self, row: &Row) -> Result<(), NoMemory> {
        self.grow(1)?;
        self.put_back(row);
        Ok(())
    }
}

/// Sets the run of a pair, in the room that was made for it.
fn set_run(runs: &mut IndexMap<(u32, u32), Run, Salt>, pair: (u32, u32), run: Run)
    requires { 1 ≤ spare runs.old }
    ensures here { get pair_eq runs.new pair ≡ Some run }
    ensures others { (u v : ℕ) → ¬ ((pair.0 ≡ u) × (pair.1 ≡ v))
        → get pair_eq runs.new (u, v) ≡ get pair_eq runs.old (u, v) }
    ensures room { spare runs.old ≤ spare runs.new + 1 }
{
    match runs.insert(pair, run) {
        Ok(_) => {}
        Err(_) => unreachable!(),
    }
}

/// Sets the place of an object, in the room that was made for it.
fn set_place(places: &mut IndexMap<u32, u64, Salt>, object: u32, place: u64)
    requires { 1 ≤ spare places.old }
    ensures here { get nat_eq places.new object ≡ Some place }
    ensures others { (u : ℕ) → object ≢ u → get nat_eq places.new u ≡ get nat_eq places.old u }
    ensures room { spare places.old ≤ spare places.new + 1 }
{
    match places.insert(object, place) {
        Ok(_) => {}
        Err(_) => unreachable!(),
    }
}
