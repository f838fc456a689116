//! What of a log is written otherwise.
ghost use Rattle.std.specs.Prelude.{◌≡◌, ℕ, List, [], ◌∷◌, false, Some, option_map, IfOk, OnOk};
ghost use Rattle.order_text.specs.Seen.{stamp_seen};
ghost use Rattle.order_text.specs.Stamp.{stamp_of};
ghost use Rattle.order_place.specs.Nodes.{is_node};
ghost use Rattle.order_rules.specs.Notes.{IsNoted};
ghost use Rattle.order_rules.specs.Rules.{event_of, rewrite_of, rewrite_stamped, lacks_stamped, known_of, begun, KeepsNode, StandsForLines, SeesStamped};

use crate::note::Note;
use crate::settings::Settings;
use crate::table::Table;
use audit_lex::EventKey;
use flow_base::{Bytes, NoMemory};
use order_place::{Nodes, is_boot, node_of};
use order_text::{Rewrite, Stamp, read_stamp};
use std::alloc::Global;
use std::marker::Model;

/// What is known of each node by the lines that were seen, and which rules hold.
#[derive(Drop)]
pub struct Rules {
    alloc: Global,
    settings: Settings,
    nodes: Nodes<Table>,
}

impl Model for Rules {
    ghost use Rattle.order_rules.specs.Rules.{AllKnown};

    ghost Value = { AllKnown };

    ghost view = { λ a. record { settings = a.settings; nodes = a.nodes } };
}

impl Rules {
    /// No line was seen.
    pub fn new(alloc: Global, settings: Settings) -> Rules
        ensures settings { result.settings ≡ settings }
        ensures nothing { StandsForLines result [] }
    {
        Rules {
            alloc,
            settings,
            nodes: Nodes::new(alloc),
        }
    }

    /// What becomes of the next line, by the lines before it. After that it is one of them.
    pub fn see(&mut self, line: &[u8]) -> Result<Option<Rewrite>, NoMemory>
        ensures rewrites { IfOk result (λ made. (lines : List (List ℕ)) →
            StandsForLines self.old lines → made ≡ rewrite_of self.old.settings lines line.now) }
        ensures stands { OnOk result ((lines : List (List ℕ)) → StandsForLines self.old lines
            → StandsForLines self.new (line.now ∷ lines)) }
        ensures settings { OnOk result (self.new.settings ≡ self.old.settings) }
    {
        self.see_read(line, &read_stamp(line), None)
    }

    /// What becomes of the next line, whose stamp was read and of which something may have been noted, by the lines before it. After
    /// that it is one of them.
    pub fn see_read(
        &mut self,
        line: &[u8],
        stamp: &Option<Stamp<'_>>,
        note: Option<Note>,
    ) -> Result<Option<Rewrite>, NoMemory>
        requires is { option_map stamp_seen stamp.now ≡ stamp_of line.now }
        requires noted { IsNoted note line.now }
        ensures rewrites { IfOk result (λ made. (lines : List (List ℕ)) →
            StandsForLines self.old lines → made ≡ rewrite_of self.old.settings lines line.now) }
        ensures stands { OnOk result ((lines : List (List ℕ)) → StandsForLines self.old lines
            → StandsForLines self.new (line.now ∷ lines)) }
        ensures settings { OnOk result (self.new.settings ≡ self.old.settings) }
    {
        match stamp {
            Some(stamp) => self.see_stamped(line, stamp, note),
            None => Ok(None),
        }
    }

    /// Whether the event of a line of this stamp lacks the address of its peer, after the lines before.
    pub fn lacks_peer(&self, stamp: &Stamp<'_>) -> Result<bool, NoMemory>
        ensures { IfOk result (λ lacks. (lines : List (List ℕ)) → StandsForLines self.now lines
            → lacks ≡ lacks_stamped self.now.settings lines (Some (stamp_seen stamp.now))) }
    {
        if !self.settings.join || !self.settings.apart {
            return Ok(false);
        }
        let name = Bytes::from_slice(self.alloc, node_of(stamp.front))?;
        match self.nodes.get(&name) {
            Some(table) => table.lacks_peer(event_of(stamp)),
            None => Ok(false),
        }
    }

    // What becomes of a line of this stamp.
    fn see_stamped(
        &mut self,
        line: &[u8],
        stamp: &Stamp<'_>,
        note: Option<Note>,
    ) -> Result<Option<Rewrite>, NoMemory>
        requires { IsNoted note line.now }
        ensures rewrites { IfOk result (λ made. (lines : List (List ℕ)) →
            StandsForLines self.old lines → made ≡ rewrite_stamped
            self.old.settings lines line.now (Some (stamp_seen stamp.now))) }
        ensures stands { OnOk result
            (SeesStamped self.old self.new line.now (stamp_seen stamp.now)) }
        ensures settings { OnOk result (self.new.settings ≡ self.old.settings) }
    {
        let name = Bytes::from_slice(self.alloc, node_of(stamp.front))?;
        let mut table = self.take(&name);
        start_if(&mut table, is_boot(stamp.front));
        table.pass(event_of(stamp));
        let made = table.see(self.alloc, self.settings, line, note)?;
        self.keep(name, table)?;
        Ok(made)
    }

    // What is kept of a node, which is taken out.
    fn take(&mut self, name: &Bytes) -> Table
        ensures here { result ≡ known_of self.old name.now }
        ensures others { (other : List ℕ) → is_node name.now other ≡ false
            → known_of self.new other ≡ known_of self.old other }
        ensures settings { self.new.settings ≡ self.old.settings }
    {
        match self.nodes.take(name) {
            Some(table) => table,
            None => Table::new(self.alloc),
        }
    }

    // What is kept of a node is put back.
    fn keep(&mut self, name: Bytes, table: Table) -> Result<(), NoMemory>
        ensures { OnOk result (KeepsNode self.old self.new name table) }
    {
        self.nodes.keep(name, table)?;
        Ok(())
    }
}

// The event of a line of this stamp.
fn event_of(stamp: &Stamp<'_>) -> EventKey
    ensures { result ≡ event_of (stamp_seen stamp.now) }
{
    EventKey {
        ms: stamp.ms,
        serial: stamp.number,
    }
}

// A node is started, if its line says so.
fn start_if(table: &mut Table, starts: bool)
    ensures { table.new ≡ begun starts table.old }
{
    if starts {
        table.clear();
    }
}
