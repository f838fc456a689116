//! Lists of records, with spare records behind them.
//!
//! A record has the memory of its line and of a text. So a list that is cleared keeps its records as spare ones, and the
//! next record that is put into it is exchanged for a spare one, whose memory the line after it uses.
ghost use Rattle.std.specs.Prelude.{◌≡◌, ◌≢◌, [], ◌∷◌, ◌++◌, length, OnOk, OnErr};

use audit_record::{Body, Record};
use flow_base::{Bytes, NoMemory};
use std::alloc::Global;
use std::marker::Model;

/// How many spare records a cleared list keeps: few events have more.
const MOST_SPARE: usize = 32;

/// The longest line and the longest text that a spare record has, in bytes. So a record that waits has at most a few
/// kilobytes of memory that it doesn't need.
const LONGEST: usize = 1024;

/// A list of records, which contracts see as a list.
#[derive(Drop)]
pub struct Records {
    /// The records of the list, and behind them the spare ones.
    items: Vec<Record>,
    count: usize,
}

impl Model for Records {
    ghost use Rattle.std.specs.Prelude.{◌≤◌, List, length, take};
    ghost use Rattle.audit_record.specs.declared.types.Record.{Record};

    ghost Value = { List Record };

    ghost view = { λ a. take a.count a.items.items };

    ghost invariant = { λ a. a.count ≤ length a.items.items };
}

impl Records {
    /// No record, and no spare one.
    pub fn new(alloc: Global) -> Records
        ensures { result ≡ [] }
    {
        Records {
            items: Vec::new(alloc),
            count: 0,
        }
    }

    /// The records.
    pub fn as_slice(&self) -> &[Record]
        ensures { result.now ≡ self.now }
    {
        &self.items[..self.count]
    }

    /// Appends a record, in place of which any record is left, whose memory can be used. If allocation fails, nothing has
    /// changed.
    #[inline(always)]
    pub fn exchange(&mut self, alloc: Global, item: &mut Record) -> Result<(), NoMemory>
        ensures ok { OnOk result (self.new ≡ self.old ++ item.old ∷ []) }
        ensures err { OnErr result (self.new ≡ self.old) }
        ensures same { OnErr result (item.new ≡ item.old) }
    {
        if self.count == self.items.len() {
            grow(alloc, &mut self.items)?;
        }
        swap_parts(&mut self.items[self.count], item);
        self.count += 1;
        Ok(())
    }

    /// Takes the last record back, for the one that stands there.
    #[cold]
    #[inline(never)]
    pub(crate) fn give_back(&mut self, item: &mut Record)
        requires some { self.old ≢ [] }
        ensures { self.old ≡ self.new ++ item.new ∷ [] }
    {
        self.count -= 1;
        swap_parts(&mut self.items[self.count], item);
    }

    /// Takes all records away. Some of them are kept as spare ones.
    pub fn clear(&mut self)
        ensures { self.new ≡ [] }
    {
        shorten_all(&mut self.items[..self.count]);
        self.count = 0;
        self.items.truncate(MOST_SPARE);
    }
}

// Exchanges two records. Each part is small enough to be moved without a call, and a whole record isn't.
#[inline(always)]
fn swap_parts(spare: &mut Record, item: &mut Record)
    ensures spare { spare.new ≡ item.old }
    ensures item { item.new ≡ spare.old }
{
    std::mem::swap(&mut spare.key, &mut item.key);
    std::mem::swap(&mut spare.line, &mut item.line);
    std::mem::swap(&mut spare.body, &mut item.body);
}

// Makes one spare record.
#[cold]
#[inline(never)]
fn grow(alloc: Global, items: &mut Vec<Record>) -> Result<(), NoMemory>
    ensures ok { OnOk result
        ((spare : Record) × (items.new.items ≡ items.old.items ++ spare ∷ [])) }
    ensures err { OnErr result (items.new.items ≡ items.old.items) }
{
    items.push(Record::blank(alloc))?;
    Ok(())
}

// Drops the long lines and texts of these records.
fn shorten_all(items: &mut [Record])
    ensures { length items.new ≡ length items.old }
{
    for item in items {
        shorten(item);
    }
}

/// Drops the line and the text of a record, if they are long.
pub(crate) fn shorten(item: &mut Record) {
    drop_long(&mut item.line);
    match &mut item.body {
        Body::Syscall(call) => drop_long_text(&mut call.exe),
        Body::Path(path) => drop_long_text(&mut path.name),
        Body::Cwd(text) => drop_long_text(text),
        Body::Sockaddr(bytes) => drop_long(bytes),
        Body::FdPair { .. } | Body::Mmap { .. } | Body::Proctitle | Body::Eoe => {}
    }
}

// Drops a text, if it is there and long.
fn drop_long_text(text: &mut Option<Bytes>) {
    match text {
        Some(bytes) => drop_long(bytes),
        None => {}
    }
}

// Drops bytes, if there are many.
fn drop_long(bytes: &mut Bytes) {
    if bytes.as_slice().len() > LONGEST {
        let _ = bytes.take();
    }
}
