//! Lines that wait in the order of their places.
ghost use Rattle.std.specs.Prelude.{◌≡◌, ◌↔◌, ◌++◌, ◌∷◌, [], true, IfSome, IfNone, OnOk, OnErr};
ghost use Rattle.order_queue.specs.Order.{IsFirst, IsGreatest};

use crate::entry::{Entry, is_no_later};
use flow_base::NoMemory;
use std::alloc::Global;
use std::collections::VecDeque;
use std::marker::Model;

/// Lines that wait, each of which comes no later than those after it.
#[derive(Drop)]
pub struct Row {
    entries: VecDeque<Entry>,
}

impl Model for Row {
    ghost use Rattle.std.specs.Prelude.{List};
    ghost use Rattle.order_queue.specs.declared.waiting.Waiting.{Waiting};
    ghost use Rattle.order_queue.specs.Order.{AreInTurn};

    ghost Value = { List Waiting };

    ghost view = { λ a. a.entries.items };

    ghost invariant = { λ a. AreInTurn a.entries.items };
}

impl Row {
    /// No line waits.
    pub fn new(alloc: Global) -> Row
        ensures { result ≡ [] }
    {
        Row {
            entries: VecDeque::new(alloc),
        }
    }

    /// Whether no line waits.
    pub fn is_empty(&self) -> bool
        ensures { (result ≡ true) ↔ (self.now ≡ []) }
    {
        self.entries.is_empty()
    }

    /// Whether a line comes no earlier than any of these.
    pub fn may_end_with(&self, entry: &Entry) -> bool
        ensures { result ≡ true → IsGreatest entry.now self.now }
    {
        match self.entries.back() {
            Some(last) => is_no_later(last, entry),
            None => true,
        }
    }

    /// Adds a line after the others.
    pub fn push(&mut self, entry: Entry) -> Result<(), NoMemory>
        requires { IsGreatest entry self.old }
        ensures ok { OnOk result (self.new ≡ self.old ++ entry ∷ []) }
        ensures err { OnErr result (self.new ≡ self.old) }
    {
        self.entries.push_back(entry)?;
        Ok(())
    }

    /// Takes the first line.
    pub fn pop(&mut self) -> Option<Entry>
        ensures first { IfSome result (λ entry. IsFirst entry self.old) }
        ensures some { IfSome result (λ entry. self.old ≡ entry ∷ self.new) }
        ensures none { IfNone result (self.old ≡ []) }
        ensures empty { IfNone result (self.new ≡ self.old) }
    {
        self.entries.pop_front()
    }

    /// The first line.
    pub fn first(&self) -> Option<&Entry>
        ensures first { IfSome result (λ entry. IsFirst entry.now self.now) }
        ensures none { IfNone result (self.now ≡ []) }
    {
        self.entries.front()
    }
}
