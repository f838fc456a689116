//! The lines of a log: cut, counted and read.
//!
//! A line that came whole is read where it stands. Only a line that began in an earlier piece is held.
ghost use Rattle.std.specs.Prelude.{◌≡◌, ◌≢◌, ◌≤◌, ◌<◌, ◌+◌, ◌⊎◌, ◌^◌, ◌++◌, [], Ok, true, false};
ghost use Rattle.std.specs.Prelude.{ℕ, length, IfOk, OnOk, OnErr};
ghost use Rattle.std.specs.List.{position_or_len};
ghost use Rattle.memchr.specs.Find.{is_byte};
ghost use Rattle.flow_base.specs.declared.limits.Limits.{Limits};
ghost use Rattle.audit_lex.specs.History.{History, tail_of};
ghost use Rattle.audit_lex.specs.Lexing.{class_seen};
ghost use Rattle.audit_lex.specs.LineClass.{class_of};
ghost use Rattle.audit_lex.specs.LineCut.{StandsFor as CutStandsFor};
ghost use Rattle.ingest.specs.Bounds.{EndsLine, KeepsLines};
ghost use Rattle.ingest.specs.Counting.{total};
ghost use Rattle.audit_record.specs.declared.types.Read.TheVariants as read;
ghost use Rattle.ingest.specs.Entries.{IsGiven};
ghost use Rattle.ingest.specs.LineRecords.{record_of};
ghost use Rattle.ingest.specs.LineSteps.{HoldsMore, EndsUsed, EndsOther, SettlesUsed, SettlesOther};
ghost use Rattle.ingest.specs.LineSteps.{CountsOne};
ghost use Rattle.ingest.specs.StandsFor.{ReaderStandsFor, HasNoTail};
ghost use Rattle.ingest.specs.StateParts.{reader_of};
ghost use Rattle.ingest.specs.Storing.{moment_of};
ghost use Rattle.store_check.specs.Conditions.{HasCounts, HasListed, HasTail};
ghost use Rattle.stored.specs.Moment.{state_at};

use audit_lex::{LastStamp, Lexed, LineCut, LineFault, Tally, lex, lines_are_counted};
use audit_record::{Read, Record, read_line};
use flow_base::{Bad, Bytes, Limits, List, NoMemory};
use row_codec::StateRow;
use std::alloc::Global;
use std::marker::Model;

/// Cuts lines out of pieces of a log, counts them, and reads the records of used ones.
#[derive(Drop)]
pub struct LineReader {
    alloc: Global,
    limits: Limits,
    cut: LineCut,
    tally: Tally,
    /// The bytes that were taken.
    bytes: u64,
}

impl Model for LineReader {
    ghost use Rattle.ingest.specs.Parts.{Reader};
    ghost use Rattle.ingest.specs.StandsFor.{IsWithin};

    ghost Value = { Reader };

    ghost view = { λ a. record {
      limits = a.limits;
      cut = a.cut;
      tally = a.tally;
      bytes = a.bytes;
    } };

    ghost invariant = { λ a. IsWithin a.limits a.cut a.tally a.bytes };
}

impl LineReader {
    /// A reader that has taken nothing.
    pub fn new(alloc: Global, limits: &Limits) -> LineReader
        ensures stands { ReaderStandsFor limits.now result [] }
        ensures lines { result.cut.lines ≡ 0 }
    {
        LineReader {
            alloc,
            limits: *limits,
            cut: LineCut::new(alloc, limits.line),
            tally: Tally::new(alloc),
            bytes: 0,
        }
    }

    /// The reader whose counts, tail and bytes a State says.
    pub fn restore(alloc: Global, limits: &Limits, state: &StateRow) -> Result<LineReader, NoMemory>
        requires counts { HasCounts state.now }
        requires tail { HasTail limits.now.line state.now }
        requires listed { HasListed limits.now.shown state.now }
        requires input { state.now.taken ≤ limits.now.input }
        ensures parts { IfOk result (λ reader. reader ≡ reader_of limits.now state.now) }
        ensures stands { IfOk result (λ reader. (h : History) (p : ℕ)
            → state.now ≡ state_at (moment_of limits.now h p)
            → ReaderStandsFor limits.now reader h) }
    {
        lines_are_counted();
        let tail = Bytes::from_slice(alloc, state.tail.as_slice())?;
        let bad = copy_bad(alloc, state.bad.as_slice())?;
        Ok(LineReader {
            alloc,
            limits: *limits,
            cut: LineCut::resume(limits.line, state.lines, tail, state.long),
            tally: Tally {
                used: state.used,
                other: state.other,
                blank: state.blank,
                malformed: state.malformed,
                bad,
            },
            bytes: state.taken,
        })
    }

    /// How many bytes were taken.
    pub fn bytes(&self) -> u64
        ensures { result ≡ self.now.bytes }
    {
        self.bytes
    }

    /// How many bytes there may be.
    pub fn most(&self) -> u64
        ensures most { result ≡ self.now.limits.input }
        ensures within { self.now.bytes ≤ result }
    {
        self.limits.input
    }

    /// The limits.
    pub fn limits(&self) -> Limits
        ensures { result ≡ self.now.limits }
    {
        let _ = &self.cut;
        self.limits
    }

    /// How many lines have ended.
    pub fn lines(&self) -> u64
        ensures { result ≡ self.now.cut.lines }
    {
        self.cut.lines()
    }

    /// The counts of the lines.
    pub fn tally(&self) -> &Tally
        ensures same { result.now ≡ self.now.tally }
        ensures counted { total result.now ≡ self.now.cut.lines }
        ensures listed { length result.now.bad ≤ self.now.limits.shown }
    {
        &self.tally
    }

    /// The bytes of the line that has begun, unless they are too many.
    pub fn tail(&self) -> &[u8]
        ensures same { result.now ≡ self.now.cut.tail }
        ensures short { length result.now ≤ self.now.limits.line }
    {
        self.cut.tail()
    }

    /// Whether the line that has begun has too many bytes. Then none of them is held.
    pub fn is_long(&self) -> bool
        ensures same { result ≡ self.now.cut.long }
        ensures none { result ≡ true → self.now.cut.tail ≡ [] }
    {
        self.cut.long()
    }

    /// Whether no byte of a line was taken.
    pub fn is_between_lines(&self) -> bool
        ensures yes { result ≡ true → HasNoTail self.now }
        ensures no { result ≡ false → HasNoTail self.now → ⊥ }
    {
        self.cut.tail().is_empty() && !self.cut.long()
    }

    /// Takes bytes without a line feed. If allocation fails, nothing has changed.
    pub fn hold(&mut self, part: &[u8]) -> Result<(), NoMemory>
        requires room { self.old.bytes + length part.now ≤ self.old.limits.input }
        requires no_feed { position_or_len (is_byte 10) part.now ≡ length part.now }
        ensures limits { self.new.limits ≡ self.old.limits }
        ensures bytes { OnOk result (self.new.bytes ≡ self.old.bytes + length part.now) }
        ensures lines { OnOk result (KeepsLines self.old self.new) }
        ensures stands { OnOk result (HoldsMore part.now self.old self.new) }
        ensures err { OnErr result (self.new ≡ self.old) }
    {
        let _ = &self.bytes;
        if part.is_empty() {
            return Ok(());
        }
        let (count, _) = self.cut.next(part)?;
        self.bytes += count as u64;
        Ok(())
    }

    /// What the line that ends with these bytes gives the joiner, if it is a used one. A line that has begun was held
    /// whole. A record is read into `item`, whose memory it takes; the answer doesn't depend on what `last` holds.
    #[inline(always)]
    pub fn read(
        &self,
        part: &[u8],
        last: &mut LastStamp,
        item: &mut Record,
    ) -> Result<Read, NoMemory>
        requires no_feed { position_or_len (is_byte 10) part.now ≡ length part.now }
        requires whole { HasNoTail self.now ⊎ (part.now ≡ []) }
        ensures reads { IfOk result (λ r. (limits : Limits) (h : History)
            → ReaderStandsFor limits self.now h
            → IsGiven r item.new (record_of limits.line (tail_of h ++ part.now))) }
        ensures nothing { HasNoTail self.now → part.now ≡ [] → result ≡ Ok read.Unused }
        ensures two { IfOk result (λ r. r ≢ read.Unused
            → 2 ≤ length self.now.cut.tail + length part.now) }
    {
        if self.cut.long() {
            return Ok(Read::Unused);
        }
        let line = text_of_line(&self.cut, part);
        // An empty line gives nothing, even if there is no memory.
        if line.is_empty() {
            return Ok(Read::Unused);
        }
        read_line(self.alloc, line, self.limits.line, last, item)
    }

    /// Ends a used line with these bytes and a line feed.
    pub fn end_used(&mut self, part: &[u8])
        requires room { self.old.bytes + (length part.now + 1) ≤ self.old.limits.input }
        requires no_feed { position_or_len (is_byte 10) part.now ≡ length part.now }
        requires whole { HasNoTail self.old ⊎ (part.now ≡ []) }
        requires two { 2 ≤ length self.old.cut.tail + length part.now }
        ensures limits { self.new.limits ≡ self.old.limits }
        ensures bytes { self.new.bytes ≡ self.old.bytes + (length part.now + 1) }
        ensures lines { EndsLine self.old self.new }
        ensures stands { EndsUsed part.now self.old self.new }
    {
        self.tally.used += 1;
        self.bytes += part.len() as u64 + 1;
        self.cut.end_line();
    }

    /// Ends a line that isn't used with these bytes and a line feed. If allocation fails, nothing has changed.
    pub fn end_other(&mut self, part: &[u8]) -> Result<(), NoMemory>
        requires room { self.old.bytes + (length part.now + 1) ≤ self.old.limits.input }
        requires no_feed { position_or_len (is_byte 10) part.now ≡ length part.now }
        requires whole { HasNoTail self.old ⊎ (part.now ≡ []) }
        ensures limits { self.new.limits ≡ self.old.limits }
        ensures bytes { OnOk result (self.new.bytes ≡ self.old.bytes + (length part.now + 1)) }
        ensures lines { OnOk result (KeepsLines self.old self.new) }
        ensures stands { OnOk result (EndsOther part.now self.old self.new) }
        ensures err { OnErr result (self.new ≡ self.old) }
    {
        count_line(&self.limits, &self.cut, part, &mut self.tally)?;
        self.bytes += part.len() as u64 + 1;
        self.cut.end_line();
        Ok(())
    }

    /// Ends a used last line, which has no line feed.
    pub fn settle_used(&mut self)
        requires two { 2 ≤ length self.old.cut.tail }
        ensures limits { self.new.limits ≡ self.old.limits }
        ensures bytes { self.new.bytes ≡ self.old.bytes }
        ensures lines { EndsLine self.old self.new }
        ensures stands { SettlesUsed self.old self.new }
    {
        self.tally.used += 1;
        self.cut.end_line();
    }

    /// Ends another last line, if it has a byte. If allocation fails, nothing has changed.
    pub fn settle_other(&mut self) -> Result<(), NoMemory>
        ensures limits { self.new.limits ≡ self.old.limits }
        ensures bytes { self.new.bytes ≡ self.old.bytes }
        ensures lines { OnOk result (KeepsLines self.old self.new) }
        ensures stands { OnOk result (SettlesOther self.old self.new) }
        ensures err { OnErr result (self.new ≡ self.old) }
        ensures begun { OnErr result (¬ HasNoTail self.old) }
    {
        if self.is_between_lines() {
            return Ok(());
        }
        count_line(&self.limits, &self.cut, &[], &mut self.tally)?;
        self.cut.end_line();
        Ok(())
    }
}

/// A copy of the malformed lines.
pub fn copy_bad(alloc: Global, bad: &[Bad]) -> Result<List<Bad>, NoMemory>
    ensures { IfOk result (λ made. made ≡ bad.now) }
{
    let made = Vec::from_slice(alloc, bad)?;
    Ok(List::from_vec(made))
}

// Counts the line that ends with these bytes. If allocation fails, nothing has changed.
fn count_line(
    limits: &Limits,
    cut: &LineCut,
    part: &[u8],
    tally: &mut Tally,
) -> Result<(), NoMemory>
    requires whole { ((cut.now.tail ≡ []) × (cut.now.long ≡ false)) ⊎ (part.now ≡ []) }
    requires lines { cut.now.lines < 2 ^ 60 }
    requires room { total tally.old < 2 ^ 60 }
    ensures one { OnOk result (total tally.new ≡ total tally.old + 1) }
    ensures counted { OnOk result (CountsOne limits.now cut.now part.now tally.old tally.new) }
    ensures listed { OnOk result (length tally.old.bad ≤ limits.now.shown
        → length tally.new.bad ≤ limits.now.shown) }
    ensures err { OnErr result (tally.new ≡ tally.old) }
{
    let class = class_of_line(cut, part, limits.line);
    tally.count(cut.lines() + 1, &class, limits.shown)
}

// The class of the line that ends with these bytes. One that is too long is held without its text.
fn class_of_line<'a>(cut: &'a LineCut, part: &'a [u8], limit: usize) -> Lexed<'a>
    requires whole { ((cut.now.tail ≡ []) × (cut.now.long ≡ false)) ⊎ (part.now ≡ []) }
    ensures { (h : History) → CutStandsFor cut.now h → cut.now.limit ≡ limit
        → class_seen result ≡ class_of limit (tail_of h ++ part.now) }
{
    if cut.long() {
        return Lexed::Malformed(LineFault::TooLong);
    }
    lex(text_of_line(cut, part), limit)
}

// The text of the line that ends with these bytes, if it isn't too long.
fn text_of_line<'a>(cut: &'a LineCut, part: &'a [u8]) -> &'a [u8]
    requires whole { ((cut.now.tail ≡ []) × (cut.now.long ≡ false)) ⊎ (part.now ≡ []) }
    ensures { result.now ≡ cut.now.tail ++ part.now }
{
    if cut.tail().is_empty() {
        return part;
    }
    cut.tail()
}
