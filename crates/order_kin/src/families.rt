//! What is known of the processes of each node.
ghost use Rattle.std.specs.Prelude.{◌≡◌, ◌&&◌, not, is_none, ℕ, List, [], Some, false, option_map, IfOk, OnOk};
ghost use Rattle.order_calls.specs.Reads.{IsRead};
ghost use Rattle.order_text.specs.Seen.{stamp_seen};
ghost use Rattle.order_text.specs.Stamp.{stamp_of};
ghost use Rattle.order_place.specs.Nodes.{is_node};
ghost use Rattle.order_rules.specs.Notes.{IsNoted};
ghost use Rattle.order_kin.specs.Families as families;
ghost use Rattle.order_place.specs.Places as places;
ghost use Rattle.order_kin.specs.Families.{child_of, family_after, home_of, begun, KeepsNode, TakesIn, StandsFor, StandsForLines, Tells, TellsOf, Reads, ReadsStamped};

use crate::family::Family;
use crate::heard::{Heard, fork_of, heard_of};
use audit_lex::UsedLine;
use flow_base::{Bytes, NoMemory};
use order_place::{Nodes, is_boot, node_of};
use order_rules::Note;
use order_text::Stamp;
use std::alloc::Global;
use std::marker::Model;

/// What is known of the processes of each node by the lines that were read, if 32-bit calls and pid namespaces are followed.
#[derive(Drop)]
pub struct Families {
    alloc: Global,
    compat: bool,
    nodes: Nodes<Family>,
}

impl Model for Families {
    ghost use Rattle.order_kin.specs.Families.{AllKept};

    ghost Value = { AllKept };

    ghost view = { λ a. record { compat = a.compat; nodes = a.nodes } };
}

impl Families {
    /// No line was read.
    pub fn new(alloc: Global, compat: bool) -> Families
        ensures compat { result.compat ≡ compat }
        ensures nothing { StandsForLines result [] }
    {
        Families {
            alloc,
            compat,
            nodes: Nodes::new(alloc),
        }
    }

    /// A line was read, whose stamp was read too, and of which something may have been noted.
    pub fn read(
        &mut self,
        line: &[u8],
        stamp: &Option<Stamp<'_>>,
        used: &Option<UsedLine<'_>>,
        note: Option<Note>,
    ) -> Result<(), NoMemory>
        requires is { option_map stamp_seen stamp.now ≡ stamp_of line.now }
        requires read { IsRead line.now used.now }
        requires noted { IsNoted note line.now }
        ensures reads { OnOk result (Reads self.old self.new line.now) }
        ensures compat { OnOk result (self.new.compat ≡ self.old.compat) }
    {
        match stamp {
            None => Ok(()),
            Some(stamp) => self.read_stamped(line, stamp, used, note),
        }
    }

    /// The child that a line's fork has begun, by the lines that were read.
    pub fn child(
        &self,
        line: &[u8],
        stamp: &Option<Stamp<'_>>,
        note: Option<Note>,
    ) -> Result<Option<u32>, NoMemory>
        requires is { option_map stamp_seen stamp.now ≡ stamp_of line.now }
        requires noted { IsNoted note line.now }
        ensures { IfOk result (λ child. (lines : List (List ℕ)) → StandsForLines self.now lines
            → child ≡ child_of self.now.compat lines line.now) }
    {
        match stamp {
            None => Ok(None),
            Some(stamp) => self.child_stamped(line, stamp, note),
        }
    }

    // The child that the fork of a line of this stamp has begun.
    fn child_stamped(
        &self,
        line: &[u8],
        stamp: &Stamp<'_>,
        note: Option<Note>,
    ) -> Result<Option<u32>, NoMemory>
        requires { IsNoted note line.now }
        ensures { IfOk result (Tells self.now line.now (Some (stamp_seen stamp.now))) }
    {
        match fork_of(self.alloc, self.compat, line, stamp, note)? {
            None => Ok(None),
            Some(heard) => self.child_heard(stamp, heard),
        }
    }

    // The child that a call of the node of this stamp has begun.
    fn child_heard(&self, stamp: &Stamp<'_>, heard: Heard) -> Result<Option<u32>, NoMemory>
        ensures { IfOk result
            (TellsOf self.now (places.node_of (stamp_seen stamp.now).front) heard) }
    {
        let name = Bytes::from_slice(self.alloc, node_of(stamp.front))?;
        match self.nodes.get(&name) {
            Some(family) => Ok(family.child(heard)),
            None => Ok(None),
        }
    }

    // A line of this stamp was read. Most lines say nothing here.
    fn read_stamped(
        &mut self,
        line: &[u8],
        stamp: &Stamp<'_>,
        used: &Option<UsedLine<'_>>,
        note: Option<Note>,
    ) -> Result<(), NoMemory>
        requires read { IsRead line.now used.now }
        requires noted { IsNoted note line.now }
        ensures reads { OnOk result
            (ReadsStamped self.old self.new line.now (stamp_seen stamp.now)) }
        ensures compat { OnOk result (self.new.compat ≡ self.old.compat) }
    {
        let heard = heard_of(self.alloc, self.compat, line, stamp, used, note)?;
        let starts = is_boot(stamp.front);
        if is_idle(&heard, starts) {
            return Ok(());
        }
        self.take_in(stamp.front, starts, heard)
    }

    // A line was read that says this, by what stands before its stamp.
    fn take_in(&mut self, front: &[u8], starts: bool, heard: Option<Heard>) -> Result<(), NoMemory>
        ensures { OnOk result (TakesIn self.old self.new (places.node_of front.now) starts heard) }
    {
        let name = Bytes::from_slice(self.alloc, node_of(front))?;
        let mut family = self.take(&name);
        start_if(&mut family, starts);
        hear_if(&mut family, heard)?;
        self.keep(name, family)
    }

    // What is kept of a node, which is taken out.
    fn take(&mut self, name: &Bytes) -> Family
        ensures here { result ≡ home_of self.old name.now }
        ensures others { (other : List ℕ) → is_node name.now other ≡ false
            → home_of self.new other ≡ home_of self.old other }
        ensures compat { self.new.compat ≡ self.old.compat }
    {
        match self.nodes.take(name) {
            Some(family) => family,
            None => Family::new(self.alloc),
        }
    }

    // What is kept of a node is put back.
    fn keep(&mut self, name: Bytes, family: Family) -> Result<(), NoMemory>
        ensures { OnOk result (KeepsNode self.old self.new name family) }
    {
        self.nodes.keep(name, family)?;
        Ok(())
    }
}

// Whether a line says nothing, and starts no node.
fn is_idle(heard: &Option<Heard>, starts: bool) -> bool
    ensures { result ≡ (is_none heard.now && not starts) }
{
    heard.is_none() && !starts
}

// A node is started, if its line says so.
fn start_if(family: &mut Family, starts: bool)
    ensures { family.new ≡ begun starts family.old }
{
    if starts {
        family.clear();
    }
}

// A call was read, if there is one.
fn hear_if(family: &mut Family, heard: Option<Heard>) -> Result<(), NoMemory>
    ensures { OnOk result ((known : families.Family) → StandsFor family.old known
        → StandsFor family.new (family_after heard known)) }
{
    match heard {
        Some(heard) => family.hear(heard),
        None => Ok(()),
    }
}
