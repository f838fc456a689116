//! Lines on their way out, with times that never fall, rewritten by rules.
ghost use Rattle.std.specs.Prelude.{◌≡◌, ◌+◌, List, ℕ, [], ◌++◌, ◌∷◌, Option, option_map, IfOk, IfSome, OnOk, IfErr, None, Some, nat_lt};
ghost use Rattle.std.specs.Io.KnownBytes.{Appends};
ghost use Rattle.order_text.specs.Seen.{stamp_seen};
ghost use Rattle.order_text.specs.Stamp.{stamp_of, time_of};
ghost use Rattle.outside.specs.Cause.{Rose};
ghost use Rattle.audit_order.specs.Halts.{HasCauses, GoesUp};
ghost use Rattle.order_text.specs.declared.rewrite.Rewrite.{Rewrite};
ghost use Rattle.order_lines.specs.Rules.{or_else};
ghost use Rattle.order_rules.specs.Notes.{IsNoted};
ghost use Rattle.order_rules.specs.Rules.{StandsForLines, lacks_stamped};
ghost use Rattle.order_lines.specs.Answers as answers;
ghost use Rattle.order_place.specs.Places.{read_with};
ghost use Rattle.audit_order.specs.Shown.{Latest, later_of, Told, untold, change_alone};
ghost use Rattle.audit_order.specs.Lines.{wrote, Asks, Writes, Adds, MayAddPeer, IsBlank, more_if};

use crate::counts::count_one;
use crate::halt::Halt;
use crate::switches::Switches;
use flow_base::{Bytes, NoMemory};
use order_lines::{rewrite_of, with_answer};
use order_place::rewritten;
use order_rules::{Note, Rules};
use order_text::{Rewrite, Stamp, read_stamp, write_stamped};
use outside::{Sink, put_all};
use std::alloc::Global;
use std::marker::Model;

/// How many bytes wait at most before they are handed on.
pub const CHUNK: usize = 65_536;

/// Which lines are rewritten, and what is known for that; what waits to be written; the greatest time that was written, as a text and in milliseconds; how
/// many times were raised, how many lines were rewritten, and how many ends and peers were added.
#[derive(Drop)]
pub struct Writer {
    alloc: Global,
    switches: Switches,
    rules: Rules,
    pending: Bytes,
    time: Bytes,
    ms: u64,
    raised: u64,
    rewritten: u64,
    added: u64,
    peers: u64,
}

impl Model for Writer {
    ghost use Rattle.std.specs.Prelude.{◌≡◌, Some};
    ghost use Rattle.order_text.specs.Stamp.{time_of};
    ghost use Rattle.audit_order.specs.Lines.{Written};

    ghost Value = { Written };

    ghost view = { λ a. record {
      switches = a.switches;
      rules = a.rules;
      pending = a.pending;
      latest = record { time = a.time; ms = a.ms };
      raised = a.raised;
      rewritten = a.rewritten;
      added = a.added;
      peers = a.peers;
    } };

    ghost invariant = { λ a. time_of a.time ≡ Some a.ms };
}

impl Writer {
    /// Nothing was written.
    pub fn new(alloc: Global, switches: Switches) -> Result<Writer, NoMemory>
        ensures { IfOk result (IsBlank switches) }
    {
        let time = Bytes::from_slice(alloc, b"0.000")?;
        Ok(Writer {
            alloc,
            switches,
            rules: Rules::new(alloc, switches.rules()),
            pending: Bytes::new(alloc),
            time,
            ms: 0,
            raised: 0,
            rewritten: 0,
            added: 0,
            peers: 0,
        })
    }

    /// How many times were raised.
    pub fn raised(&self) -> u64
        ensures { result ≡ self.now.raised }
    {
        self.raised
    }

    /// How many lines were rewritten.
    pub fn rewritten(&self) -> u64
        ensures { result ≡ self.now.rewritten }
    {
        self.rewritten
    }

    /// How many ends were added.
    pub fn added(&self) -> u64
        ensures { result ≡ self.now.added }
    {
        self.added
    }

    /// How many peers were added.
    pub fn peers(&self) -> u64
        ensures { result ≡ self.now.peers }
    {
        self.peers
    }

    /// How many bytes wait to be written.
    pub fn pending(&self) -> usize {
        self.pending.as_slice().len()
    }

    /// Writes an end that the log doesn't have.
    pub fn write_added(&mut self, line: &[u8]) -> Result<(), NoMemory>
        ensures { OnOk result (Adds self.old self.new line.now) }
    {
        self.write(line, &read_stamp(line), None)?;
        count_one(&mut self.added)
    }

    /// Writes the record of a peer, if the log lacks it.
    pub fn write_peer(&mut self, line: &[u8]) -> Result<(), NoMemory>
        ensures { OnOk result (MayAddPeer self.old self.new line.now) }
    {
        let stamp = read_stamp(line);
        if !self.lacks_peer(&stamp)? {
            return Ok(());
        }
        self.write(line, &stamp, None)?;
        count_one(&mut self.peers)
    }

    // Whether the event of a line of this stamp lacks the address of its peer.
    fn lacks_peer(&self, stamp: &Option<Stamp<'_>>) -> Result<bool, NoMemory>
        ensures { IfOk result (λ lacks. (before : List (List ℕ))
            → StandsForLines self.now.rules before → lacks ≡ lacks_stamped self.now.rules.settings before (option_map stamp_seen stamp.now)) }
    {
        match stamp {
            None => Ok(false),
            Some(stamp) => self.rules.lacks_peer(stamp),
        }
    }

    /// Writes a line of this stamp, of which something may have been noted. Its time is raised if it would fall, and it is rewritten
    /// if a rule says so.
    pub fn write(
        &mut self,
        line: &[u8],
        stamp: &Option<Stamp<'_>>,
        note: Option<Note>,
    ) -> Result<(), NoMemory>
        requires noted { IsNoted note line.now }
        requires is { option_map stamp_seen stamp.now ≡ stamp_of line.now }
        requires timed { IfSome stamp.now (λ s. time_of s.time.now ≡ Some s.ms) }
        ensures { OnOk result (Writes self.old self.new (untold line.now)) }
    {
        let change = self.ask(line, stamp, note)?;
        self.put(line, stamp, change)
    }

    /// The same of a line whose fork has begun this child, if one is told.
    pub fn write_told(
        &mut self,
        line: &[u8],
        stamp: &Option<Stamp<'_>>,
        note: Option<Note>,
        child: Option<u32>,
    ) -> Result<(), NoMemory>
        requires noted { IsNoted note line.now }
        requires is { option_map stamp_seen stamp.now ≡ stamp_of line.now }
        requires timed { IfSome stamp.now (λ s. time_of s.time.now ≡ Some s.ms) }
        ensures { OnOk result (Writes self.old self.new
            (record { line = line.now; child = child })) }
    {
        match child {
            None => self.write(line, stamp, note),
            Some(child) => self.write_fork(line, stamp, child),
        }
    }

    // Writes a line whose fork has begun this child.
    fn write_fork(
        &mut self,
        line: &[u8],
        stamp: &Option<Stamp<'_>>,
        child: u32,
    ) -> Result<(), NoMemory>
        requires is { option_map stamp_seen stamp.now ≡ stamp_of line.now }
        requires timed { IfSome stamp.now (λ s. time_of s.time.now ≡ Some s.ms) }
        ensures { OnOk result (Writes self.old self.new
            (record { line = line.now; child = Some child })) }
    {
        match stamp {
            None => self.write(line, stamp, None),
            Some(fork) => {
                let change = self.ask_fork(line, fork, child)?;
                self.put(line, stamp, change)
            }
        }
    }

    // How a line of this stamp is rewritten whose fork has begun this child.
    fn ask_fork(
        &mut self,
        line: &[u8],
        stamp: &Stamp<'_>,
        child: u32,
    ) -> Result<Option<Rewrite>, NoMemory>
        requires { Some (stamp_seen stamp.now) ≡ stamp_of line.now }
        ensures { IfOk result (Asks self.old self.new
            (record { line = line.now; child = Some child })) }
    {
        let seen = seen_line(self.alloc, line, stamp, child)?;
        let found = self.rules.see(seen.as_slice())?;
        let alone = rewrite_of(self.alloc, self.switches.alone(), stamp)?;
        with_answer(self.alloc, stamp.rest, child, or_else(alone, found))
    }

    // How a line of this stamp is rewritten.
    fn ask(
        &mut self,
        line: &[u8],
        stamp: &Option<Stamp<'_>>,
        note: Option<Note>,
    ) -> Result<Option<Rewrite>, NoMemory>
        requires noted { IsNoted note line.now }
        requires is { option_map stamp_seen stamp.now ≡ stamp_of line.now }
        ensures { IfOk result (Asks self.old self.new (untold line.now)) }
    {
        let found = self.rules.see_read(line, stamp, note)?;
        let alone = alone(self.alloc, self.switches, stamp)?;
        Ok(or_else(alone, found))
    }

    // Writes a line of this stamp with this rewrite.
    fn put(
        &mut self,
        line: &[u8],
        stamp: &Option<Stamp<'_>>,
        change: Option<Rewrite>,
    ) -> Result<(), NoMemory>
        requires { IfSome stamp.now (λ s. time_of s.time.now ≡ Some s.ms) }
        ensures { OnOk result (self.new
            ≡ wrote self.old line.now (option_map stamp_seen stamp.now) change) }
    {
        match stamp {
            None => self.put_plain(line),
            Some(stamp) => self.put_stamped(line, stamp, change),
        }
    }

    // Writes a line without a stamp.
    fn put_plain(&mut self, line: &[u8]) -> Result<(), NoMemory>
        ensures { OnOk result ((change : Option Rewrite)
            → self.new ≡ wrote self.old line.now None change) }
    {
        self.pending.append(line)?;
        self.pending.append(b"\n")
    }

    // Writes a line of this stamp with this rewrite.
    fn put_stamped(
        &mut self,
        line: &[u8],
        stamp: &Stamp<'_>,
        change: Option<Rewrite>,
    ) -> Result<(), NoMemory>
        requires { time_of stamp.now.time.now ≡ Some stamp.now.ms }
        ensures { OnOk result (self.new
            ≡ wrote self.old line.now (Some (stamp_seen stamp.now)) change) }
    {
        let time = self.time.as_slice();
        let rewritten = write_stamped(&mut self.pending, time, self.ms, line, stamp, change)?;
        self.pending.append(b"\n")?;
        count_if(&mut self.rewritten, rewritten)?;
        self.rise(stamp)
    }

    // A line of this stamp was written: its time is the greatest if it is greater, and is counted as raised if it was less.
    fn rise(&mut self, stamp: &Stamp<'_>) -> Result<(), NoMemory>
        requires { time_of stamp.now.time.now ≡ Some stamp.now.ms }
        ensures { OnOk result (self.new ≡ record self.old {
          latest = later_of self.old.latest (Some (stamp_seen stamp.now));
          raised = more_if (nat_lt stamp.now.ms self.old.latest.ms) self.old.raised;
        }) }
    {
        if stamp.ms < self.ms {
            return count_one(&mut self.raised);
        }
        if stamp.ms == self.ms {
            return Ok(());
        }
        self.set_time(stamp.time, stamp.ms)
    }

    // This time is the greatest.
    fn set_time(&mut self, time: &[u8], ms: u64) -> Result<(), NoMemory>
        requires { time_of time.now ≡ Some ms }
        ensures { OnOk result (self.new
            ≡ record self.old { latest = record { time = time.now; ms = ms } }) }
    {
        let time = Bytes::from_slice(self.alloc, time)?;
        self.time = time;
        self.ms = ms;
        Ok(())
    }

    /// Hands on what waits to be written.
    pub fn flush<O: Sink>(&mut self, sink: &mut O) -> Result<(), Halt>
        ensures bytes { OnOk result
            (Appends (O.written sink.old) (O.written sink.new) self.old.pending) }
        ensures left { self.new ≡ record self.old { pending = [] } }
        ensures causes { IfErr result (HasCauses ⊥
            (Rose (O.faults sink.old) (O.faults sink.new) (O.spent sink.new))) }
        ensures counts { GoesUp
            (O.faults sink.old) (O.faults sink.new) (O.spent sink.old) (O.spent sink.new) }
    {
        hand_on(&mut self.pending, sink)
    }
}

// A line of this stamp whose fork has begun this child, as the rules see it.
fn seen_line(alloc: Global, line: &[u8], stamp: &Stamp<'_>, child: u32) -> Result<Bytes, NoMemory>
    ensures { IfOk result (λ seen. seen ≡ read_with (stamp_seen stamp.now) line.now
        (answers.with_answer stamp.now.rest.now child None)) }
{
    match with_answer(alloc, stamp.rest, child, None)? {
        None => Bytes::from_slice(alloc, line),
        Some(rewrite) => rewritten(alloc, stamp, &rewrite),
    }
}

// How a line of this stamp is rewritten by what it says alone.
fn alone(
    alloc: Global,
    switches: Switches,
    stamp: &Option<Stamp<'_>>,
) -> Result<Option<Rewrite>, NoMemory>
    ensures { IfOk result (λ change. change
        ≡ change_alone switches (option_map stamp_seen stamp.now)) }
{
    match stamp {
        None => Ok(None),
        Some(stamp) => rewrite_of(alloc, switches.alone(), stamp),
    }
}

// The second, if there is no first.
fn or_else(first: Option<Rewrite>, second: Option<Rewrite>) -> Option<Rewrite>
    ensures { result ≡ or_else first second }
{
    match first {
        None => second,
        Some(first) => Some(first),
    }
}

// One more, if that is so.
fn count_if(count: &mut u64, more: bool) -> Result<(), NoMemory>
    ensures { OnOk result (count.new ≡ more_if more count.old) }
{
    if more {
        return count_one(count);
    }
    Ok(())
}

/// Hands on bytes that wait to be written.
pub fn hand_on<O: Sink>(pending: &mut Bytes, sink: &mut O) -> Result<(), Halt>
    ensures bytes { OnOk result (Appends (O.written sink.old) (O.written sink.new) pending.old) }
    ensures left { pending.new ≡ [] }
    ensures causes { IfErr result (HasCauses ⊥
        (Rose (O.faults sink.old) (O.faults sink.new) (O.spent sink.new))) }
    ensures counts { GoesUp
        (O.faults sink.old) (O.faults sink.new) (O.spent sink.old) (O.spent sink.new) }
{
    let piece = pending.take();
    match put_all(sink, piece.as_slice()) {
        Ok(()) => Ok(()),
        Err(_) => Err(Halt::WriteFault),
    }
}
