//! The checker: tables that stand for the rows taken so far, and each further row against them.
ghost use Rattle.std.specs.Prelude.{◌↔◌, ◌≡◌, ◌∷◌, ◌++◌, [], IsTrue, MatchOption, OnOk, IfOk};
ghost use Rattle.std.specs.Prelude.{List, nat_eq, slice_set};
ghost use Rattle.std.specs.Map.{lookup};
ghost use Rattle.store_check.specs.Conditions.{IsLive, bounds_of, Continues};
ghost use Rattle.store_check.specs.Tables.{EntityFits, KeptFits, ExtendFits, StateFits, Fits};
ghost use Rattle.store_check.specs.Tables.{HasKept, HasLife, HasRow, counted};
ghost use Rattle.store_check.specs.Tables.{StandsFor, Stepped, Taken, Goes};
ghost use Rattle.row_codec.specs.declared.rows.StoreRow.{StoreRow as ARow};

use crate::ends::{has_ends, is_after_top, is_later, seen_with};
use crate::listed::{has_listed, has_tail};
use crate::numbers::{
    act_of, greater_of, has_counts, is_below, is_within, number_of, place_of, time_of,
};
use crate::order::{are_ordered, end_in_state};
use acts::copy_key;
use flow_base::{Key, Limits, NoMemory, Stamp, equal_keys_are_one};
use indexmap::{IndexMap, IndexSet};
use proc_table::Life;
use reach_model::Mode;
use row_codec::{ExtendRow, KeptRow, StateRow, StoreRow};
use std::alloc::Global;
use std::marker::Model;
use table_salt::Salt;

/// A checker, which stands for the rows of the batches taken so far.
///
/// Its memory grows with the objects, the kept rows and the pids of the store.
#[derive(Drop)]
pub struct StoreCheck {
    limit: u32,
    records: usize,
    line: usize,
    shown: usize,
    mode: Mode,
    keys: IndexSet<Key, Salt>,
    seen: u32,
    top: Option<Stamp>,
    into: IndexMap<u32, u64, Salt>,
    out: IndexMap<u32, u64, Salt>,
    lasts: Vec<Stamp>,
    lives: IndexMap<u32, Life, Salt>,
    place: Option<u64>,
    time: Option<u64>,
    act: Option<u64>,
    number: Option<u64>,
}

impl Model for StoreCheck {
    ghost use Rattle.std.specs.Prelude.{◌≤◌, ◌<◌, ◌^◌, length};
    ghost use Rattle.store_check.specs.Tables.{Tables};

    ghost Value = { Tables };

    ghost view = { λ a. record {
      bounds = record { entities = a.limit; records = a.records; line = a.line; shown = a.shown };
      mode = a.mode;
      keys = a.keys.keys;
      seen = a.seen;
      top = a.top;
      into = a.into.entries;
      out = a.out.entries;
      lasts = a.lasts.items;
      lives = a.lives.entries;
      place = a.place;
      time = a.time;
      act = a.act;
      number = a.number;
    } };

    // No more keys than the limit, and no more objects named by Kept rows than keys.
    ghost invariant = { λ a. (length a.keys.keys ≤ a.limit)
        × ((a.limit < 2 ^ 32) × (a.seen ≤ length a.keys.keys)) };
}

impl StoreCheck {
    /// A checker of a store of this mode, before its first batch.
    pub fn new(alloc: Global, salt: Salt, limits: &Limits, mode: Mode) -> StoreCheck
        ensures bounds { result.bounds ≡ bounds_of limits.now }
        ensures mode { result.mode ≡ mode }
        ensures stands { StandsFor result [] }
    {
        StoreCheck {
            limit: limits.entities,
            records: limits.records,
            line: limits.line,
            shown: limits.shown,
            mode,
            keys: IndexSet::with_hasher(alloc, salt),
            seen: 0,
            top: None,
            into: IndexMap::with_hasher(alloc, salt),
            out: IndexMap::with_hasher(alloc, salt),
            lasts: Vec::new(alloc),
            lives: IndexMap::with_hasher(alloc, salt),
            place: None,
            time: None,
            act: None,
            number: None,
        }
    }

    /// Takes the rows of the next batch.
    ///
    /// None means that they don't continue the store of the rows taken so far. After None and
    /// NoMemory the checker is gone.
    pub fn take(mut self, rows: &[StoreRow]) -> Result<Option<StoreCheck>, NoMemory>
        ensures { IfOk result (λ next. (before : List ARow) → StandsFor self before
            → MatchOption next
            (¬ Continues self.bounds self.mode before rows.now)
            (λ now. Continues self.bounds self.mode before rows.now
            × Goes self (before ++ rows.now) now)) }
    {
        if !are_ordered(rows) || !end_in_state(rows) {
            return Ok(None);
        }
        if !self.stand(rows)? {
            return Ok(None);
        }
        Ok(Some(self))
    }

    /// The stamp of the last flow of each row of the store.
    pub fn lasts(&self) -> &[Stamp]
        ensures { result.now ≡ self.now.lasts }
    {
        let _ = self.limit;
        self.lasts.as_slice()
    }

    /// Whether an Entity row may stand next: its key is new, and there is room for it.
    fn entity_fits(&self, key: &Key) -> bool
        ensures { IsTrue result ↔ EntityFits self.now key.now }
    {
        !self.keys.contains(key) && self.keys.len() < self.limit as usize
    }

    /// Whether a Kept row may stand next, by its ends, its place, its time and its links.
    fn kept_fits(&self, row: &KeptRow) -> bool
        ensures { IsTrue result ↔ KeptFits self.now row.now }
    {
        has_ends(self.keys.len(), self.seen, row)
            && is_after_top(self.top, row.mark.at)
            && self.into.get(&row.to.0).copied() == row.before_to
            && self.out.get(&row.from.0).copied() == row.before_from
    }

    /// Whether an Extend row may stand next: in continuous mode, later than its row's last flow.
    fn extend_fits(&self, row: &ExtendRow) -> bool
        ensures { IsTrue result ↔ ExtendFits self.now row.now }
    {
        if self.mode != Mode::Continuous {
            return false;
        }
        match self.lasts.get(row.row as usize) {
            None => false,
            Some(last) => is_later(*last, row.mark.at),
        }
    }

    /// Notes the key of an Entity row.
    fn note_entity(&mut self, key: &Key) -> Result<(), NoMemory>
        requires { EntityFits self.old key.now }
        ensures { OnOk result
            (self.new ≡ record self.old { keys = self.old.keys ++ key.now ∷ [] }) }
    {
        self.keys.insert(copy_key(key)?)?;
        Ok(())
    }

    /// Notes a Kept row.
    fn note_kept(&mut self, row: &KeptRow) -> Result<(), NoMemory>
        requires { KeptFits self.old row.now }
        ensures { OnOk result (HasKept self.old row.now self.new) }
    {
        let index = self.lasts.len() as u64;
        self.lasts.push(row.mark.at)?;
        self.into.insert(row.to.0, index)?;
        self.out.insert(row.from.0, index)?;
        self.seen = seen_with(self.seen, row);
        self.top = Some(row.mark.at);
        Ok(())
    }

    /// Notes the last flow of a kept row.
    fn note_extend(&mut self, row: &ExtendRow)
        requires { ExtendFits self.old row.now }
        ensures { self.new ≡ record self.old
            { lasts = slice_set self.old.lasts row.now.row row.now.mark.at } }
    {
        self.lasts[row.row as usize] = row.mark.at;
    }

    /// Whether a row may stand next, whatever its kind.
    fn fits(&self, row: &StoreRow) -> bool
        ensures { IsTrue result ↔ Fits self.now row.now }
    {
        match row {
            StoreRow::Entity { key } => self.entity_fits(key),
            StoreRow::Kept(row) => self.kept_fits(row),
            StoreRow::Extend(row) => self.extend_fits(row),
            StoreRow::Held { pid, .. } => self.is_live(*pid),
            StoreRow::Waiting { lines, .. } => {
                let count = lines.as_slice().len();
                1 <= count && count <= self.records
            }
            StoreRow::State(state) => self.state_fits(state),
            _ => true,
        }
    }

    /// Whether the last life of a pid is live.
    fn is_live(&self, pid: u32) -> bool
        ensures { IsTrue result ↔ IsLive (lookup (nat_eq pid) self.now.lives) }
    {
        match self.lives.get(&pid) {
            None => false,
            Some(life) => life.live,
        }
    }

    /// Whether a State row may stand next: each object was named by a Kept row, and its numbers
    /// go with those of all rows.
    fn state_fits(&self, state: &StateRow) -> bool
        ensures { IsTrue result ↔ StateFits self.now state.now }
    {
        self.seen as usize == self.keys.len()
            && is_below(self.place, state.flows)
            && is_within(self.time, state.effective)
            && is_below(self.act, state.acts)
            && is_within(self.number, state.acts)
            && has_counts(state)
            && has_tail(self.line, state)
            && has_listed(self.shown, state)
    }

    /// Notes the last life of a pid.
    fn note_life(&mut self, pid: u32, life: Life) -> Result<(), NoMemory>
        ensures { OnOk result (HasLife self.old pid life self.new) }
    {
        self.lives.insert(pid, life)?;
        Ok(())
    }

    /// Raises the greatest numbers to those of a row.
    fn count(&mut self, row: &StoreRow)
        ensures { self.new ≡ counted self.old row.now }
    {
        self.place = greater_of(self.place, place_of(row));
        self.time = greater_of(self.time, time_of(row));
        self.act = greater_of(self.act, act_of(row));
        self.number = greater_of(self.number, number_of(row));
    }

    /// Notes a row that may stand next.
    fn note(&mut self, row: &StoreRow) -> Result<(), NoMemory>
        requires { Fits self.old row.now }
        ensures stands { OnOk result ((before : List ARow) → StandsFor self.old before
            → StandsFor self.new (before ++ row.now ∷ [])) }
        ensures same { OnOk result
            ((self.new.bounds ≡ self.old.bounds) × (self.new.mode ≡ self.old.mode)) }
    {
        self.note_tables(row)?;
        self.count(row);
        Ok(())
    }

    /// Notes a row that may stand next in the tables, the greatest numbers left out.
    fn note_tables(&mut self, row: &StoreRow) -> Result<(), NoMemory>
        requires { Fits self.old row.now }
        ensures { OnOk result (HasRow self.old row.now self.new) }
    {
        match row {
            StoreRow::Entity { key } => self.note_entity(key),
            StoreRow::Kept(row) => self.note_kept(row),
            StoreRow::Extend(row) => {
                self.note_extend(row);
                Ok(())
            }
            StoreRow::Life { pid, life } => self.note_life(*pid, *life),
            _ => Ok(()),
        }
    }

    /// Whether a row may stand next; if so, it is noted.
    fn step(&mut self, row: &StoreRow) -> Result<bool, NoMemory>
        ensures { IfOk result (λ stands. (before : List ARow) → StandsFor self.old before
            → Stepped stands self.old before row.now self.new) }
    {
        equal_keys_are_one();
        if !self.fits(row) {
            return Ok(false);
        }
        self.note(row)?;
        Ok(true)
    }

    /// Whether each row of a batch may stand after those before it; if so, all are noted.
    fn stand(&mut self, rows: &[StoreRow]) -> Result<bool, NoMemory>
        ensures { IfOk result (λ stand. (before : List ARow) → StandsFor self.old before
            → Taken stand self.old before rows.now self.new) }
    {
        for row in rows {
            if !self.step(row)? {
                return Ok(false);
            }
        }
        Ok(true)
    }
}
