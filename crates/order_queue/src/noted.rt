//! A line with what was read of it when it came: where the parts of its stamp stand, and what the rules ask for.
//!
//! It is seen as its bytes alone, and compares as they do.
ghost use Rattle.std.specs.Prelude.{◌≡◌, List, ℕ, Some, option_map, IfSome, nat_eq};
ghost use Rattle.std.specs.Ordering.{nat_cmp, as_partial_cmp};
ghost use Rattle.std.specs.Cmp.Lexicographic.{pointwise, slice_cmp};
ghost use Rattle.std.specs.Cmp.{partial_order_from_own_ties};
ghost use Rattle.std.specs.Cmp.Rules.{comparing};
ghost use Rattle.std.proofs.Common.{rules};
ghost use Rattle.order_text.specs.Stamp.{stamp_of, time_of};
ghost use Rattle.order_text.specs.Seen.{stamp_seen};
ghost use Rattle.order_rules.specs.Notes.{IsNoted};
ghost use Rattle.order_queue.specs.Marks.{AreMarks};

use crate::marks::{Marks, stamp_at};
use flow_base::Bytes;
use order_rules::Note;
use order_text::Stamp;
use std::cmp::Ordering;
use std::marker::Model;

/// A line with where the parts of its stamp stand, and with what was noted of it.
#[derive(Drop)]
pub struct Noted {
    line: Bytes,
    marks: Option<Marks>,
    note: Option<Note>,
}

impl Model for Noted {
    ghost use Rattle.std.specs.Prelude.{List, ℕ};
    ghost use Rattle.order_rules.specs.Notes.{IsNoted};
    ghost use Rattle.order_queue.specs.Marks.{AreMarks};

    ghost Value = { List ℕ };

    ghost view = { λ a. a.line };

    ghost invariant = { λ a. AreMarks a.marks a.line × IsNoted a.note a.line };
}

impl Noted {
    /// A line whose parts stand there, and of which this was noted.
    pub fn new(line: Bytes, marks: Option<Marks>, note: Option<Note>) -> Noted
        requires marks { AreMarks marks line }
        requires note { IsNoted note line }
        ensures { result ≡ line }
    {
        Noted { line, marks, note }
    }

    /// The line.
    pub fn as_slice(&self) -> &[u8]
        ensures { result.now ≡ self.now }
    {
        self.line.as_slice()
    }

    /// The stamp of the line.
    pub fn stamp(&self) -> Option<Stamp<'_>>
        ensures parts { option_map stamp_seen result ≡ stamp_of self.now }
        ensures time { IfSome result (λ stamp. time_of stamp.time.now ≡ Some stamp.ms) }
    {
        stamp_at(self.line.as_slice(), self.marks)
    }

    /// What was noted of the line.
    pub fn note(&self) -> Option<Note>
        ensures { IsNoted result self.now }
    {
        self.note
    }
}

impl PartialEq for Noted {
    ghost eq = { pointwise nat_eq };

    ghost laws = { Prim.search (comparing, rules) };

    fn eq(&self, other: &Noted) -> bool {
        self.as_slice() == other.as_slice()
    }
}

impl Eq for Noted {
    ghost laws = { Prim.search (comparing, rules) };
}

impl Ord for Noted {
    ghost cmp = { slice_cmp nat_cmp };

    ghost total = { Prim.search (comparing, rules) };

    ghost matches_partial_cmp = { Prim.search (comparing, rules) };

    ghost matches_eq = { Prim.search (comparing, rules) };

    fn cmp(&self, other: &Noted) -> Ordering {
        self.as_slice().cmp(other.as_slice())
    }
}

impl PartialOrd for Noted {
    ghost partial_cmp = { as_partial_cmp (slice_cmp nat_cmp) };

    ghost laws = { partial_order_from_own_ties (Prim.search (comparing, rules)) (Prim.search (comparing, rules)) };

    fn partial_cmp(&self, other: &Noted) -> Option<Ordering> {
        Some(self.cmp(other))
    }
}
