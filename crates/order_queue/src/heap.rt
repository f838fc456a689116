//! Lines that wait in no order that is claimed, in std's heap.
ghost use Rattle.std.specs.Prelude.{◌≡◌, ◌↔◌, ◌∷◌, [], true, IfSome, IfNone, OnOk, OnErr, IsPermutation};
ghost use Rattle.order_queue.specs.Order.{IsFirst};

use crate::entry::Entry;
use flow_base::NoMemory;
use std::alloc::Global;
use std::cmp::Reverse;
use std::collections::BinaryHeap;
use std::marker::Model;

/// Lines that wait, of which the least is taken first.
#[derive(Drop)]
pub struct Heap {
    entries: BinaryHeap<Reverse<Entry>>,
}

impl Model for Heap {
    ghost use Rattle.std.specs.Prelude.{List, map};
    ghost use Rattle.std.specs.BinaryHeap.{IsHeap, heap_items};
    ghost use Rattle.order_queue.specs.declared.waiting.Waiting.{Waiting};
    ghost use Rattle.order_queue.specs.Order.{turned_cmp};
    ghost use Rattle.order_queue.specs.Turned.{turned};

    ghost Value = { List Waiting };

    ghost view = { λ a. map turned (heap_items a.entries) };

    ghost invariant = { λ a. IsHeap turned_cmp (heap_items a.entries) };
}

impl Heap {
    /// No line waits.
    pub fn new(alloc: Global) -> Heap
        ensures { result ≡ [] }
    {
        Heap {
            entries: BinaryHeap::new(alloc),
        }
    }

    /// Whether no line waits.
    pub fn is_empty(&self) -> bool
        ensures { (result ≡ true) ↔ (self.now ≡ []) }
    {
        self.entries.is_empty()
    }

    /// Adds a line.
    pub fn push(&mut self, entry: Entry) -> Result<(), NoMemory>
        ensures ok { OnOk result (IsPermutation (entry ∷ self.old) self.new) }
        ensures err { OnErr result (self.new ≡ self.old) }
    {
        self.entries.push(Reverse(entry))?;
        Ok(())
    }

    /// Takes the least line.
    pub fn pop(&mut self) -> Option<Entry>
        ensures first { IfSome result (λ entry. IsFirst entry self.old) }
        ensures some { IfSome result (λ entry. IsPermutation self.old (entry ∷ self.new)) }
        ensures none { IfNone result (self.old ≡ []) }
        ensures empty { IfNone result (self.new ≡ self.old) }
    {
        let Reverse(entry) = self.entries.pop()?;
        Some(entry)
    }

    /// The least line.
    pub fn first(&self) -> Option<&Entry>
        ensures first { IfSome result (λ entry. IsFirst entry.now self.now) }
        ensures none { IfNone result (self.now ≡ []) }
    {
        let Reverse(entry) = self.entries.peek()?;
        Some(entry)
    }
}
