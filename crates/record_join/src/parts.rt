//! The waiting groups one by one, as a store writes them down.
ghost use Rattle.std.specs.Prelude.{◌≡◌, ◌∷◌, [], IfSome, IsNone, ◌↔◌};
ghost use Rattle.record_join.specs.Split.{joined};

use crate::group::{Group, GroupView};
use audit_lex::EventKey;
use std::collections::btree_map::Iter;
use std::marker::Model;

/// The waiting groups that weren't given out yet, least key first.
#[derive(Drop)]
pub struct Parts<'a> {
    lesser: Iter<'a, EventKey, Group>,
    last: Option<&'a (EventKey, Group)>,
}

impl<'a> Model for Parts<'a> {
    ghost use Rattle.std.specs.Prelude.{List};
    ghost use Rattle.std.specs.Option.{option_copied};
    ghost use Rattle.record_join.specs.Split.{Entry, joined};

    ghost Value = { List Entry };

    ghost view = { λ p. joined p.lesser (option_copied p.last) };
}

impl<'a> Parts<'a> {
    /// The groups of an iterator, and the last one.
    pub(crate) fn over(
        lesser: Iter<'a, EventKey, Group>,
        last: &'a Option<(EventKey, Group)>,
    ) -> Parts<'a>
        ensures { result ≡ joined lesser.entry last.now }
    {
        Parts {
            lesser,
            last: last.as_ref(),
        }
    }

    /// Borrows the next group.
    pub fn next(&mut self) -> Option<GroupView<'a>>
        ensures some { IfSome result (λ view. self.old
            ≡ (view.key, record { closed = view.closed; records = view.records.now }) ∷ self.new) }
        ensures none { IsNone result ↔ (self.old ≡ []) }
    {
        match self.lesser.next() {
            Some((key, group)) => Some(view_of(*key, group)),
            None => match self.last.take() {
                Some((key, group)) => Some(view_of(*key, group)),
                None => None,
            },
        }
    }
}

// Borrows a group.
fn view_of<'a>(key: EventKey, group: &'a Group) -> GroupView<'a>
    ensures key { result.key ≡ key }
    ensures closed { result.closed ≡ group.now.closed }
    ensures records { result.records.now ≡ group.now.records }
{
    GroupView {
        key,
        closed: group.closed,
        records: group.records.as_slice(),
    }
}
