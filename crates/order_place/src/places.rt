//! Places, by what was seen before.
ghost use Rattle.std.specs.Prelude.{◌≡◌, ◌++◌, ℕ, List, [], Some, false, drop, option_map, unwrap_or, IfOk, OnOk};
ghost use Rattle.std.specs.Map.{lookup};
ghost use Rattle.order_calls.specs.Reads.{IsRead};
ghost use Rattle.order_text.specs.Seen.{stamp_seen};
ghost use Rattle.order_text.specs.Stamp.{stamp_of, line_of};
ghost use Rattle.order_place.specs.Places.{rank_of, node_of, is_boot, read_as, SeesNext};
ghost use Rattle.order_place.specs.Nodes.{is_node, fresh, begun, HasPlace, TurnsTo, SeesLine, ForgetsOf, StandsForAll};

use crate::node::Node;
use crate::nodes::Nodes;
use crate::slot::Slot;
use audit_lex::UsedLine;
use flow_base::{Bytes, NoMemory};
use order_lines::{Settings, names_own, rewrite_of};
use order_text::{Rewrite, Stamp, at_first, read_stamp};
use std::alloc::Global;
use std::marker::Model;
use std::mem::replace;

/// The place of a line: the time at which its event counts, and the serial number by which that goes among those of this time;
/// the serial number, the time and the node of the event; its rank within that, which is 2 or 3 if the line is one that ends an
/// event, 0 if it names a descriptor, and else 1; and whether the line says that its node was started.
#[derive(Drop)]
pub struct Place {
    pub time: u64,
    pub goes_by: u32,
    pub serial: u32,
    pub ms: u64,
    pub node: Bytes,
    pub rank: u8,
    pub starts: bool,
}

impl Place {
    // A second value.
    fn copy(&self) -> Result<Place, NoMemory>
        ensures { IfOk result (λ made. made ≡ self.now) }
    {
        let node = self.node.copy()?;
        Ok(Place {
            time: self.time,
            goes_by: self.goes_by,
            serial: self.serial,
            ms: self.ms,
            node,
            rank: self.rank,
            starts: self.starts,
        })
    }
}

/// What was seen: the greatest time of a clock, what was seen of each node, and the place of the last line; and whether 32-bit
/// calls are read as they are rewritten. The node at hand, that of the last line or forgotten event, stands apart from the others
/// with its name.
#[derive(Drop)]
pub struct Places {
    alloc: Global,
    compat: bool,
    clock: u64,
    name: Bytes,
    node: Node,
    others: Nodes<Node>,
    last: Place,
}

impl Model for Places {
    ghost use Rattle.std.specs.Prelude.{◌∷◌};
    ghost use Rattle.order_place.specs.Nodes.{AllSeen};

    ghost Value = { AllSeen };

    ghost view = { λ a. record {
      compat = a.compat;
      clock = a.clock;
      last = a.last;
      nodes = (a.name, a.node) ∷ a.others;
    } };
}

impl Places {
    /// Nothing was seen. Calls of the 32-bit gate are read as they are rewritten, or as they are.
    pub fn new(alloc: Global, compat: bool) -> Places
        ensures compat { result.compat ≡ compat }
        ensures clock { result.clock ≡ 0 }
        ensures nothing { StandsForAll result [] }
    {
        Places {
            alloc,
            compat,
            clock: 0,
            name: Bytes::new(alloc),
            node: Node::new(alloc),
            others: Nodes::new(alloc),
            last: Place {
                time: 0,
                goes_by: 0,
                serial: 0,
                ms: 0,
                node: Bytes::new(alloc),
                rank: 0,
                starts: false,
            },
        }
    }

    /// The greatest time that a node's clock had.
    pub fn clock(&self) -> u64
        ensures { result ≡ self.now.clock }
    {
        self.clock
    }

    /// The place of the next line. A line without a stamp has the place of the line before it.
    pub fn place_of(&mut self, line: &[u8]) -> Result<Place, NoMemory>
        ensures place { IfOk result (HasPlace self.old (stamp_of line.now)) }
        ensures last { IfOk result (λ place. self.new.last ≡ place) }
        ensures sees { IfOk result
            (SeesLine self.old self.new (stamp_of line.now) line.now) }
    {
        self.place_read(line, &read_stamp(line), &None)
    }

    /// The place of the next line, whose stamp was read. The line may have been read too.
    pub fn place_read(
        &mut self,
        line: &[u8],
        stamp: &Option<Stamp<'_>>,
        used: &Option<UsedLine<'_>>,
    ) -> Result<Place, NoMemory>
        requires is { option_map stamp_seen stamp.now ≡ stamp_of line.now }
        requires read { IsRead line.now used.now }
        ensures place { IfOk result (HasPlace self.old (stamp_of line.now)) }
        ensures last { IfOk result (λ place. self.new.last ≡ place) }
        ensures sees { IfOk result
            (SeesLine self.old self.new (stamp_of line.now) line.now) }
    {
        if let Some(stamp) = stamp {
            self.see(line, used, stamp)?;
        }
        self.last.copy()
    }

    // A line of this stamp is the last one.
    fn see(
        &mut self,
        line: &[u8],
        used: &Option<UsedLine<'_>>,
        stamp: &Stamp<'_>,
    ) -> Result<(), NoMemory>
        requires read { IsRead line.now used.now }
        ensures place { OnOk result
            (HasPlace self.old (Some (stamp_seen stamp.now)) self.new.last) }
        ensures sees { OnOk result (SeesLine
            self.old self.new (Some (stamp_seen stamp.now)) line.now self.new.last) }
    {
        self.turn_to(node_of(stamp.front))?;
        let starts = is_boot(stamp.front);
        start_if(&mut self.node, starts);
        let slot = see_as(&mut self.node, self.alloc, self.compat, line, used, stamp)?;
        self.clock = self.clock.max(self.node.clock());
        self.last = Place {
            time: slot.time,
            goes_by: slot.goes_by,
            serial: stamp.number,
            ms: stamp.ms,
            node: self.name.copy()?,
            rank: rank_of(stamp),
            starts,
        };
        Ok(())
    }

    /// The event was written, so its place is known no longer.
    pub fn forget(&mut self, name: Bytes, ms: u64, serial: u32) -> Result<(), NoMemory>
        ensures { OnOk result (ForgetsOf self.old self.new name (ms, serial)) }
    {
        self.turn_to(name.as_slice())?;
        self.node.forget(ms, serial);
        Ok(())
    }

    // The node of this name is the one at hand.
    fn turn_to(&mut self, name: &[u8]) -> Result<(), NoMemory>
        ensures { OnOk result (TurnsTo self.old self.new name.now) }
    {
        if self.name.as_slice() == name {
            return Ok(());
        }
        let name = Bytes::from_slice(self.alloc, name)?;
        let node = taken_of(&mut self.others, &name, self.alloc);
        let name_before = replace(&mut self.name, name);
        let node_before = replace(&mut self.node, node);
        self.others.keep(name_before, node_before)?;
        Ok(())
    }
}

// What was seen of a node, which is taken out.
fn taken_of(nodes: &mut Nodes<Node>, name: &Bytes, alloc: Global) -> Node
    ensures node { result ≡ unwrap_or (lookup (is_node name.now) nodes.old) fresh }
    ensures others { (other : List ℕ) → is_node name.now other ≡ false
        → lookup (is_node other) nodes.new ≡ lookup (is_node other) nodes.old }
{
    match nodes.take(name) {
        Some(node) => node,
        None => Node::new(alloc),
    }
}

// Where the next line of a node counts, which is read as the rules on calls alone rewrite it.
fn see_as(
    node: &mut Node,
    alloc: Global,
    compat: bool,
    line: &[u8],
    used: &Option<UsedLine<'_>>,
    stamp: &Stamp<'_>,
) -> Result<Slot, NoMemory>
    requires { IsRead line.now used.now }
    ensures { IfOk result (λ slot. SeesNext node.old node.new (stamp_seen stamp.now)
        (read_as compat (stamp_seen stamp.now) line.now) slot) }
{
    let settings = Settings {
        join: false,
        compat,
    };
    match rewrite_of(alloc, settings, stamp)? {
        None => node.see(line, used, stamp),
        Some(rewrite) => {
            let read = rewritten(alloc, stamp, &rewrite)?;
            node.see(read.as_slice(), &None, stamp)
        }
    }
}

/// The line of a stamp with a rewrite, and without a mark.
pub fn rewritten(alloc: Global, stamp: &Stamp<'_>, rewrite: &Rewrite) -> Result<Bytes, NoMemory>
    ensures { IfOk result (λ made. made
        ≡ line_of (record (stamp_seen stamp.now) {
          rest = rewrite.now.text ++ drop rewrite.now.len stamp.now.rest.now;
        })) }
{
    let mut line = Bytes::from_slice(alloc, stamp.front)?;
    line.append(b"(")?;
    line.append(stamp.time)?;
    line.append(b":")?;
    line.append(stamp.serial)?;
    line.append(b")")?;
    line.append(rewrite.text.as_slice())?;
    line.append(after(rewrite.len, stamp.rest))?;
    Ok(line)
}

// What stands after this many bytes.
fn after(len: usize, text: &[u8]) -> &[u8]
    ensures { result.now ≡ drop len text.now }
{
    match text.get(len..) {
        Some(rest) => rest,
        None => b"".as_slice(),
    }
}

// A node is started, if its line says so.
fn start_if(node: &mut Node, boots: bool)
    ensures { node.new ≡ begun boots node.old }
{
    if boots {
        node.start();
    }
}

/// The name of the node that a line is of, by what stands before its stamp; none for the node that wrote the log.
pub fn node_of(front: &[u8]) -> &[u8]
    ensures { result.now ≡ node_of front.now }
{
    if !front.starts_with(b"node=") {
        return &front[..0];
    }
    match at_first(b' ', front) {
        Some((name, _)) => name,
        None => &front[..0],
    }
}

/// Whether a line says that its node or the node's audit daemon was started, by what stands before its stamp.
pub fn is_boot(front: &[u8]) -> bool
    ensures { result ≡ is_boot front.now }
{
    front.ends_with(b"type=SYSTEM_BOOT msg=audit")
        || front.ends_with(b"type=DAEMON_START msg=audit")
}

// 2 and 3 for the lines that end an event, which stand last, and 0 for the name of a descriptor, which stands first.
fn rank_of(stamp: &Stamp<'_>) -> u8
    ensures { result ≡ rank_of (stamp_seen stamp.now) }
{
    if stamp.front.ends_with(b"type=PROCTITLE msg=audit") {
        2
    } else if stamp.front.ends_with(b"type=EOE msg=audit") {
        3
    } else if names_own(stamp) {
        0
    } else {
        1
    }
}
