//! The sorter: lines that wait for their turn, and what is written of them.
ghost use Rattle.std.specs.Prelude.{◌≡◌, ◌+◌, ◌-◌, ◌<◌, ◌≤◌, ◌^◌, [], List, ℕ, Option, true, false, length, IfOk, OnOk};
ghost use Rattle.order_calls.specs.Reads.{IsRead};
ghost use Rattle.order_text.specs.Stamp.{stamp_of};
ghost use Rattle.order_place.specs.Nodes.{HasPlace, SeesLine};
ghost use Rattle.order_rules.specs.Notes.{IsNoted};
ghost use Rattle.order_queue.specs.Marks.{AreMarks};
ghost use Rattle.order_kin.specs.Families.{Reads};
ghost use Rattle.audit_order.specs.Start.{Start};
ghost use Rattle.audit_order.specs.Course.{Keeps};
ghost use Rattle.order_queue.specs.Queue.{bytes_of};
ghost use Rattle.audit_order.specs.Turns.{Turned, begun_with, tally_with};
ghost use Rattle.audit_order.specs.Sorted.{Sorts, Moves, GivesTold, Holds, HasRoom, state_of, event_of, counts_of, is_past, any_is_past};
ghost use Rattle.audit_order.specs.Tally.{is_of};

use crate::added::{end_of_call, is_accept, is_call, peer_of_call};
use crate::bounds::Bounds;
use crate::counts::{Counts, Spot, Tally, count_one};
use crate::switches::Switches;
use crate::writer::Writer;
use audit_lex::UsedLine;
use flow_base::{Bytes, NoMemory};
use order_calls::read_call;
use order_kin::Families;
use order_place::{Place, Places};
use order_queue::{Marks, Noted, Queue, Waiting, marks_of};
use order_rules::{Note, note_of};
use order_text::{Stamp, read_stamp};
use std::alloc::Global;

/// The event whose lines are written now, and the record of its call, if it is a call's event without an end so far. `accepts`: that
/// is an accept, and may lack the address of its peer.
#[derive(Drop)]
pub struct Turn {
    pub ms: u64,
    pub serial: u32,
    pub node: Bytes,
    pub call: Option<Noted>,
    pub accepts: bool,
}

/// What was seen, also of processes, what waits, and what is written.
#[derive(Drop)]
pub struct Sorter {
    pub alloc: Global,
    pub places: Places,
    pub kin: Families,
    pub queue: Queue,
    pub writer: Writer,
    pub turn: Turn,
    pub tally: Tally,
    pub number: u64,
    pub bounds: Bounds,
}

impl Sorter {
    /// A sorter that has seen nothing.
    pub fn new(alloc: Global, bounds: Bounds, switches: Switches) -> Result<Sorter, NoMemory>
        ensures nothing { IfOk result (λ made.
            (written : Option (List ℕ)) → Sorts
            (record { written = written; bounds = bounds; switches = switches })
            written made []) }
        ensures bounds { IfOk result (λ made. made.bounds ≡ bounds) }
    {
        let writer = Writer::new(alloc, switches)?;
        Ok(Sorter {
            alloc,
            places: Places::new(alloc, switches.compat),
            kin: Families::new(alloc, switches.compat),
            queue: Queue::new(alloc),
            writer,
            turn: Turn {
                ms: 0,
                serial: 0,
                node: Bytes::new(alloc),
                call: None,
                accepts: false,
            },
            tally: Tally::new(alloc),
            number: 0,
            bounds,
        })
    }

    /// What was done.
    pub fn counts(&self) -> Counts
        ensures { result ≡ counts_of self.now }
    {
        Counts {
            added_ends: self.writer.added(),
            added_peers: self.writer.peers(),
            events: self.tally.events,
            late: self.tally.late,
            rewrites: self.writer.rewritten(),
            times_raised: self.writer.raised(),
        }
    }
}

// Writes the record of the peer that the event lacks whose lines are written, before its end.
fn write_peer(sorter: &mut Sorter) -> Result<(), NoMemory>
    ensures keeps { OnOk result (Keeps sorter.old.writer sorter.new.writer) }
    ensures waits { sorter.new.queue ≡ sorter.old.queue }
    ensures state { state_of sorter.new ≡ state_of sorter.old }
    ensures bounds { sorter.new.bounds ≡ sorter.old.bounds }
{
    if !sorter.turn.accepts {
        return Ok(());
    }
    sorter.turn.accepts = false;
    match &sorter.turn.call {
        None => Ok(()),
        Some(call) => write_peer_of(sorter.alloc, &mut sorter.writer, call.as_slice()),
    }
}

// Writes the record of the peer of an accept, by the call's record, if the log lacks it.
fn write_peer_of(alloc: Global, writer: &mut Writer, call: &[u8]) -> Result<(), NoMemory>
    ensures { OnOk result (Keeps writer.old writer.new) }
{
    match peer_of_call(alloc, call)? {
        None => Ok(()),
        Some(peer) => writer.write_peer(peer.as_slice()),
    }
}

/// Writes the line that ends the event whose lines are written, if it has no end so far.
pub fn write_end(sorter: &mut Sorter) -> Result<(), NoMemory>
    ensures keeps { OnOk result (Keeps sorter.old.writer sorter.new.writer) }
    ensures waits { sorter.new.queue ≡ sorter.old.queue }
    ensures state { state_of sorter.new ≡ state_of sorter.old }
    ensures bounds { sorter.new.bounds ≡ sorter.old.bounds }
{
    write_peer(sorter)?;
    match sorter.turn.call.take() {
        None => Ok(()),
        Some(call) => write_end_of(sorter, call.as_slice()),
    }
}

// Writes the line that ends the event of a call, by the call's record.
fn write_end_of(sorter: &mut Sorter, call: &[u8]) -> Result<(), NoMemory>
    ensures keeps { OnOk result (Keeps sorter.old.writer sorter.new.writer) }
    ensures waits { sorter.new.queue ≡ sorter.old.queue }
    ensures state { state_of sorter.new ≡ state_of sorter.old }
    ensures bounds { sorter.new.bounds ≡ sorter.old.bounds }
{
    match end_of_call(sorter.alloc, call)? {
        None => Ok(()),
        Some(end) => sorter.writer.write_added(end.as_slice()),
    }
}

// If the line is of another event than those before it, that one is ended, and the line's own is counted. If it ends the event of
// those, the peer that this lacks stands before it.
fn turn_to(sorter: &mut Sorter, item: &Waiting) -> Result<(), NoMemory>
    ensures keeps { OnOk result (Keeps sorter.old.writer sorter.new.writer) }
    ensures waits { sorter.new.queue ≡ sorter.old.queue }
    ensures turned { OnOk result (Turned (state_of sorter.old) (state_of sorter.new) item.now
        (begun_with (event_of sorter.old.turn) sorter.old.tally item.now)) }
    ensures bounds { sorter.new.bounds ≡ sorter.old.bounds }
{
    if is_of(&sorter.turn, item) {
        if item.rank > 1 {
            return write_peer(sorter);
        }
        return Ok(());
    }
    count_one(&mut sorter.tally.events)?;
    write_end(sorter)?;
    let before = sorter.turn.node.take();
    sorter
        .places
        .forget(before, sorter.turn.ms, sorter.turn.serial)?;
    sorter.turn.ms = item.ms;
    sorter.turn.serial = item.serial;
    sorter.turn.node = item.node.copy()?;
    Ok(())
}

// Whether a line is of the event whose lines are written.
fn is_of(turn: &Turn, item: &Waiting) -> bool
    ensures { result ≡ is_of turn.now item.now }
{
    turn.ms == item.ms && turn.serial == item.serial && turn.node == item.node
}

// The record of a call is held until its event has an end, and a line that ends the event is one.
fn note_end(turn: &mut Turn, rank: u8, calls: bool, line: Noted)
    ensures { turn.new ≡ record turn.old { call = turn.new.call } }
{
    if rank > 1 {
        turn.call = None;
    } else if calls {
        turn.call = Some(line);
    }
}

// Writes a line that waits no longer.
fn write_item(sorter: &mut Sorter, item: Waiting) -> Result<(), NoMemory>
    ensures gives { OnOk result (GivesTold sorter.old sorter.new item.line) }
    ensures waits { sorter.new.queue ≡ sorter.old.queue }
    ensures turned { OnOk result (Turned (state_of sorter.old) (state_of sorter.new) item
        (tally_with (event_of sorter.old.turn) sorter.old.tally item)) }
    ensures bounds { sorter.new.bounds ≡ sorter.old.bounds }
{
    turn_to(sorter, &item)?;
    let line = item.line.as_slice();
    let stamp = item.line.stamp();
    let note = item.line.note();
    let child = sorter.kin.child(line, &stamp, note)?;
    sorter.writer.write_told(line, &stamp, note, child)?;
    let calls = is_call(&stamp);
    sorter.turn.accepts = sorter.turn.accepts && !calls || is_accept(&stamp);
    note_end(&mut sorter.turn, item.rank, calls, item.line);
    sorter.tally.note(Spot {
        time: item.time,
        goes_by: item.goes_by,
        serial: item.serial,
        ms: item.ms,
        node: item.node,
        rank: item.rank,
    })
}

/// Writes the line of the least place, if one waits.
pub fn write_least(sorter: &mut Sorter) -> Result<(), NoMemory>
    ensures moves { OnOk result (Moves sorter.old sorter.new) }
    ensures fewer { OnOk result
        (length sorter.new.queue.waits ≡ length sorter.old.queue.waits - 1) }
    ensures bounds { sorter.new.bounds ≡ sorter.old.bounds }
{
    match sorter.queue.pop() {
        None => Ok(()),
        Some(item) => write_item(sorter, item),
    }
}

/// What was read of a line when it came.
#[derive(Drop)]
pub struct Read {
    pub place: Place,
    pub marks: Option<Marks>,
    pub note: Option<Note>,
}

/// What is read of the next line. Its stamp is read once, and the record of a call too, for its place and for the rules.
pub fn read_line(places: &mut Places, kin: &mut Families, line: &[u8]) -> Result<Read, NoMemory>
    ensures marks { IfOk result (λ read. AreMarks read.marks line.now) }
    ensures note { IfOk result (λ read. IsNoted read.note line.now) }
    ensures place { IfOk result (λ read. HasPlace places.old (stamp_of line.now) read.place) }
    ensures last { IfOk result (λ read. places.new.last ≡ read.place) }
    ensures sees { IfOk result (λ read.
        SeesLine places.old places.new (stamp_of line.now) line.now read.place) }
    ensures kin { OnOk result (Reads kin.old kin.new line.now) }
    ensures compat { OnOk result (kin.new.compat ≡ kin.old.compat) }
{
    let stamp = read_stamp(line);
    let used = read_if(line, &stamp);
    let note = note_of(&used);
    let place = places.place_read(line, &stamp, &used)?;
    kin.read(line, &stamp, &used, note)?;
    Ok(Read {
        place,
        marks: marks_of(&stamp),
        note,
    })
}

// A line as it was read, if it is the record of a call by its stamp.
fn read_if<'a>(line: &'a [u8], stamp: &Option<Stamp<'a>>) -> Option<UsedLine<'a>>
    ensures { IsRead line.now result }
{
    match stamp {
        None => None,
        Some(stamp) => read_call(line, stamp.front),
    }
}

/// Holds a line of this place.
pub fn hold(sorter: &mut Sorter, place: Place, line: Noted) -> Result<(), NoMemory>
    requires fits { sorter.old.queue.bytes + length line < 2 ^ 64 }
    ensures holds { OnOk result (Holds sorter.old sorter.new place line) }
    ensures bounds { sorter.new.bounds ≡ sorter.old.bounds }
{
    let number = sorter.number;
    sorter.number = number.wrapping_add(1);
    sorter.queue.push(Waiting {
        time: place.time,
        goes_by: place.goes_by,
        serial: place.serial,
        ms: place.ms,
        node: place.node,
        rank: place.rank,
        number,
        line,
    })
}

/// Whether too many bytes wait with this many more.
pub fn is_over(queue: &Queue, memory: u64, more: u64) -> bool
    ensures some { result ≡ true → 0 < length queue.now.waits }
    ensures over { result ≡ true → memory < bytes_of queue.now.waits + more }
    ensures room { result ≡ false → queue.now.bytes ≤ memory }
    ensures early { result ≡ false → HasRoom memory more queue.now.waits }
    ensures fits { result ≡ false → queue.now.bytes + more < 2 ^ 64 }
{
    !queue.is_empty() && (more > memory || queue.bytes() > memory - more)
}

/// Whether a line waits whose place is more than the window past.
pub fn is_ripe(sorter: &Sorter, window: u64) -> bool
    ensures some { result ≡ true → 0 < length sorter.now.queue.waits }
    ensures past { result ≡ any_is_past window sorter.now.places.clock sorter.now.queue.waits }
{
    is_past(window, sorter.queue.least_time(), sorter.places.clock())
}

// Whether the time is past a place by more than the window.
fn is_past(window: u64, place: Option<u64>, clock: u64) -> bool
    ensures { result ≡ is_past window place clock }
{
    match place {
        Some(time) => time.saturating_add(window) < clock,
        None => false,
    }
}
