//! Lines, cut out of pieces of a log.
//!
//! A line may begin in one piece and end in a later one, so the cutter holds the bytes after the last
//! line feed. It never holds more of them than a line may have.
ghost use Rattle.std.specs.Prelude.{◌≡◌, ◌<◌, ◌≤◌, ◌+◌, ◌^◌, ◌↔◌, ◌++◌, [], ◌∷◌, List, min, take, length, IfOk, OnErr, IsSome, IsNone, true, false};
ghost use Rattle.std.specs.List.{position_or_len};
ghost use Rattle.std.specs.Option.{option_len};
ghost use Rattle.memchr.specs.Find.{is_byte};
ghost use Rattle.audit_lex.specs.History.{History, Settle, with_bytes};
ghost use Rattle.audit_lex.specs.LineCut.{StandsFor, Gives, overflows};

use crate::places::place_of;
use flow_base::{Bytes, NoMemory};
use std::alloc::Global;
use std::marker::Model;

/// A line of a log. A line that is too long has no text.
#[derive(Drop)]
pub struct Line {
    pub number: u64,
    pub text: Bytes,
    pub long: bool,
}

/// Cuts lines out of pieces of a log.
#[derive(Drop)]
pub struct LineCut {
    limit: usize,
    lines: u64,
    tail: Bytes,
    long: bool,
}

impl Model for LineCut {
    ghost use Rattle.audit_lex.specs.LineCut.{Cutter};
    ghost use Rattle.std.specs.Prelude.{◌≡◌, ◌≤◌, [], true, length};

    ghost Value = { Cutter };

    ghost view = { λ a. record { limit = a.limit; lines = a.lines; tail = a.tail; long = a.long } };

    ghost invariant = { λ a. (length a.tail ≤ a.limit) × (a.long ≡ true → a.tail ≡ []) };
}

impl LineCut {
    /// A cutter that has taken nothing.
    pub fn new(alloc: Global, limit: usize) -> LineCut
        ensures nothing { StandsFor result [] }
        ensures limit { result.limit ≡ limit }
    {
        LineCut {
            limit,
            lines: 0,
            tail: Bytes::new(alloc),
            long: false,
        }
    }

    /// A cutter that has given this many lines, and goes on after these bytes.
    pub fn resume(limit: usize, lines: u64, tail: Bytes, long: bool) -> LineCut
        requires no_feed { position_or_len (is_byte 10) tail ≡ length tail }
        requires fits { length tail ≤ limit }
        requires forgotten { long ≡ true → tail ≡ [] }
        ensures { result ≡ record { limit = limit; lines = lines; tail = tail; long = long } }
    {
        LineCut {
            limit,
            lines,
            tail,
            long,
        }
    }

    /// How many lines were given.
    pub fn lines(&self) -> u64
        ensures { result ≡ self.now.lines }
    {
        self.lines
    }

    /// The bytes after the last line feed, if they aren't too many.
    pub fn tail(&self) -> &[u8]
        ensures { result.now ≡ self.now.tail }
    {
        self.tail.as_slice()
    }

    /// Whether more bytes than a line may have stand after the last line feed.
    pub fn long(&self) -> bool
        ensures { result ≡ self.now.long }
    {
        self.long
    }

    /// Takes bytes up to and with the next line feed, or all. If allocation fails, nothing has
    /// changed.
    pub fn next(&mut self, piece: &[u8]) -> Result<(usize, Option<Line>), NoMemory>
        requires { self.old.lines < 2 ^ 61 }
        ensures taken { IfOk result (λ r. r.0 ≡ min (length piece.now)
            (position_or_len (is_byte 10) piece.now + 1)) }
        ensures given { IfOk result (λ r. IsSome r.1
            ↔ (position_or_len (is_byte 10) piece.now < length piece.now)) }
        ensures line { IfOk result (λ r. (history : History) → StandsFor self.old history
            → Gives self.old.limit history (with_bytes history (take r.0 piece.now)) r.1) }
        ensures stands { IfOk result (λ r. (history : History) → StandsFor self.old history
            → StandsFor self.new (with_bytes history (take r.0 piece.now))) }
        ensures count { IfOk result (λ r. self.new.lines ≡ self.old.lines + option_len r.1) }
        ensures limit { self.new.limit ≡ self.old.limit }
        ensures err { OnErr result (self.new ≡ self.old) }
    {
        let end = place_of(b'\n', piece);
        self.extend(&piece[..end])?;
        if end == piece.len() {
            return Ok((end, None));
        }
        let line = self.cut();
        Ok((end + 1, Some(line)))
    }

    /// The last line, if bytes stand after the last line feed.
    pub fn finish(&mut self) -> Option<Line>
        requires { self.old.lines < 2 ^ 61 }
        ensures line { (history : History) → StandsFor self.old history
            → Gives self.old.limit history (history ++ Settle ∷ []) result }
        ensures stands { (history : History) → StandsFor self.old history
            → StandsFor self.new (history ++ Settle ∷ []) }
        ensures none { IsNone result ↔ ((self.old.tail ≡ []) × (self.old.long ≡ false)) }
        ensures count { self.new.lines ≡ self.old.lines + option_len result }
        ensures left { self.new.long ≡ false }
        ensures limit { self.new.limit ≡ self.old.limit }
    {
        if self.tail.as_slice().is_empty() && !self.long {
            return None;
        }
        Some(self.cut())
    }

    /// Ends a line that was read where it stood: it is counted, and nothing of it is held.
    pub fn end_line(&mut self)
        requires { self.old.lines < 2 ^ 61 }
        ensures { self.new
            ≡ record self.old { lines = self.old.lines + 1; tail = []; long = false } }
    {
        self.lines += 1;
        self.tail.clear();
        self.long = false;
    }

    // Appends bytes without a line feed to the tail.
    fn extend(&mut self, part: &[u8]) -> Result<(), NoMemory>
        requires { position_or_len (is_byte 10) part.now ≡ length part.now }
        ensures stands { IfOk result (λ _. (history : History) → StandsFor self.old history
            → StandsFor self.new (with_bytes history part.now)) }
        ensures lines { self.new.lines ≡ self.old.lines }
        ensures limit { self.new.limit ≡ self.old.limit }
        ensures err { OnErr result (self.new ≡ self.old) }
    {
        if self.overflows(part) {
            self.long = true;
            let _forgotten = self.tail.take();
            return Ok(());
        }
        self.tail.append(part)?;
        Ok(())
    }

    // Whether the line is too long with these bytes.
    fn overflows(&self, part: &[u8]) -> bool
        ensures { result ≡ overflows self.now part.now }
    {
        self.long || part.len() > self.limit - self.tail.as_slice().len()
    }

    // Ends the tail as a line.
    fn cut(&mut self) -> Line
        requires { self.old.lines < 2 ^ 61 }
        ensures line { result ≡ record {
          number = self.old.lines + 1;
          text = self.old.tail;
          long =
              self.old.long;
        } }
        ensures left { self.new ≡ record self.old {
          lines = self.old.lines + 1;
          tail = [];
          long =
              false;
        } }
    {
        self.lines += 1;
        let text = self.tail.take();
        let long = self.long;
        self.long = false;
        Line {
            number: self.lines,
            text,
            long,
        }
    }
}
