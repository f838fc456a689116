//! The queue of the lines that wait.
//!
//! Nearly all lines come in the order of their places, and wait in a row. Those that don't wait in a heap.
ghost use Rattle.std.specs.Prelude.{◌≡◌, true, false, nat_eq, ◌+◌, ◌++◌, ◌<◌, ◌≤◌, ◌^◌, [], ◌∷◌, length, OnOk, OnErr, IfSome, IfNone, IsPermutation};
ghost use Rattle.std.specs.List.{All, list_any};
ghost use Rattle.order_queue.specs.Queue.{bytes_of};
ghost use Rattle.order_queue.specs.Order.{IsLeast, IsFirst, Leads};

use crate::entry::{Entry, is_no_later};
use crate::heap::Heap;
use crate::row::Row;
use crate::waiting::Waiting;
use flow_base::NoMemory;
use std::alloc::Global;
use std::marker::Model;

/// The lines that wait.
#[derive(Drop)]
pub struct Queue {
    row: Row,
    heap: Heap,
    bytes: u64,
    alloc: Global,
}

impl Model for Queue {
    ghost use Rattle.std.specs.Prelude.{◌≡◌, ◌++◌};
    ghost use Rattle.order_queue.specs.Queue.{Held, bytes_of};

    ghost Value = { Held };

    ghost view = { λ a. record { waits = a.row ++ a.heap; bytes = a.bytes } };

    ghost invariant = { λ a. a.bytes ≡ bytes_of (a.row ++ a.heap) };
}

impl Queue {
    /// A queue in which no line waits.
    pub fn new(alloc: Global) -> Queue
        ensures { result ≡ record { waits = []; bytes = 0 } }
    {
        Queue {
            row: Row::new(alloc),
            heap: Heap::new(alloc),
            bytes: 0,
            alloc,
        }
    }

    /// The bytes of all lines that wait.
    pub fn bytes(&self) -> u64
        ensures count { result ≡ self.now.bytes }
        ensures sum { result ≡ bytes_of self.now.waits }
    {
        self.bytes
    }

    /// Whether no line waits.
    pub fn is_empty(&self) -> bool
        ensures some { result ≡ false → 0 < length self.now.waits }
        ensures none { result ≡ true → self.now.waits ≡ [] }
        ensures bytes { result ≡ true → self.now.bytes ≡ 0 }
    {
        self.row.is_empty() && self.heap.is_empty()
    }

    /// Adds a line. If allocation fails, nothing has changed and the line is lost.
    pub fn push(&mut self, item: Waiting) -> Result<(), NoMemory>
        requires { self.old.bytes + length item.line < 2 ^ 64 }
        ensures ok { OnOk result (IsPermutation (item ∷ self.old.waits) self.new.waits) }
        ensures bytes { OnOk result (self.new.bytes ≡ self.old.bytes + length item.line) }
        ensures err { OnErr result (self.new ≡ self.old) }
    {
        let more = item.line.as_slice().len() as u64;
        let entry = Entry::new(self.alloc, item)?;
        put(&mut self.row, &mut self.heap, entry)?;
        self.bytes += more;
        Ok(())
    }

    /// Takes the line of the least place.
    pub fn pop(&mut self) -> Option<Waiting>
        ensures least { IfSome result (λ item. IsLeast item self.new.waits) }
        ensures some { IfSome result
            (λ item. IsPermutation self.old.waits (item ∷ self.new.waits)) }
        ensures bytes { IfSome result (λ item. self.old.bytes ≡ self.new.bytes + length item.line) }
        ensures none { IfNone result (self.old.waits ≡ []) }
        ensures empty { IfNone result (self.new ≡ self.old) }
    {
        let entry = pop_first(&mut self.row, &mut self.heap)?;
        let item = entry.into_waiting();
        self.bytes -= item.line.as_slice().len() as u64;
        Some(item)
    }

    /// The time of the least place.
    pub fn least_time(&self) -> Option<u64>
        ensures least { IfSome result (λ time. All (λ item. time ≤ item.time) self.now.waits) }
        ensures one { IfSome result
            (λ time. list_any (λ item. nat_eq time item.time) self.now.waits ≡ true) }
        ensures none { IfNone result (self.now.waits ≡ []) }
    {
        let entry = first_of(&self.row, &self.heap)?;
        Some(entry.time())
    }
}

// Puts a line into the row, if it comes no earlier than those in it, and else into the heap.
fn put(row: &mut Row, heap: &mut Heap, entry: Entry) -> Result<(), NoMemory>
    ensures ok { OnOk result
        (IsPermutation (entry ∷ (row.old ++ heap.old)) (row.new ++ heap.new)) }
    ensures err { OnErr result ((row.new ≡ row.old) × (heap.new ≡ heap.old)) }
{
    if row.may_end_with(&entry) {
        row.push(entry)
    } else {
        heap.push(entry)
    }
}

// Takes the line of the least place.
fn pop_first(row: &mut Row, heap: &mut Heap) -> Option<Entry>
    ensures least { IfSome result (λ entry. IsLeast entry (row.new ++ heap.new)) }
    ensures some { IfSome result (λ entry.
        IsPermutation (row.old ++ heap.old) (entry ∷ (row.new ++ heap.new))) }
    ensures none { IfNone result (row.old ++ heap.old ≡ []) }
    ensures empty { IfNone result ((row.new ≡ row.old) × (heap.new ≡ heap.old)) }
{
    if row_leads(row, heap) {
        row.pop()
    } else {
        heap.pop()
    }
}

// The line of the least place.
fn first_of<'a>(row: &'a Row, heap: &'a Heap) -> Option<&'a Entry>
    ensures first { IfSome result (λ entry. IsFirst entry.now (row.now ++ heap.now)) }
    ensures none { IfNone result (row.now ++ heap.now ≡ []) }
{
    if row_leads(row, heap) {
        row.first()
    } else {
        heap.first()
    }
}

// Whether the first of the row comes no later than each of the heap. Otherwise the first of the heap does so.
fn row_leads(row: &Row, heap: &Heap) -> bool
    ensures yes { result ≡ true → Leads row.now heap.now }
    ensures no { result ≡ false → Leads heap.now row.now }
{
    match (row.first(), heap.first()) {
        (Some(one), Some(other)) => is_no_later(one, other),
        (Some(_), None) => true,
        (None, _) => false,
    }
}
