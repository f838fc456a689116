//! How many events there were.
ghost use Rattle.std.specs.Prelude.{◌≡◌, ◌<◌, ◌^◌, ◌++◌, ◌∷◌, [], ℕ, List, length};
ghost use Rattle.flow_base.specs.declared.limits.Limits.{Limits};
ghost use Rattle.audit_lex.specs.History.{History};
ghost use Rattle.record_join.specs.declared.event.Event.{Event};
ghost use Rattle.stored.specs.Moment.{state_at};
ghost use Rattle.ingest.specs.Counting.{counts_in};
ghost use Rattle.ingest.specs.EventActs.{is_unmapped};
ghost use Rattle.ingest.specs.Events.{events_of};
ghost use Rattle.ingest.specs.StateParts.{counts_said};
ghost use Rattle.ingest.specs.Storing.{moment_of};

use row_codec::StateRow;

/// The events that were released, those of them that are late, and those whose call isn't mapped.
#[derive(Clone, Copy, Debug, PartialEq, Eq)]
pub struct EventCounts {
    pub events: u64,
    pub late: u64,
    pub unmapped: u64,
}

impl EventCounts {
    /// No events.
    pub fn new() -> EventCounts
        ensures { result ≡ counts_in [] }
    {
        EventCounts {
            events: 0,
            late: 0,
            unmapped: 0,
        }
    }

    /// The counts that a State says.
    pub fn restore(state: &StateRow) -> EventCounts
        ensures parts { result ≡ counts_said state.now }
        ensures stands { (limits : Limits) (h : History) (p : ℕ)
            → state.now ≡ state_at (moment_of limits h p)
            → result ≡ counts_in (events_of limits h) }
    {
        EventCounts {
            events: state.events,
            late: state.late,
            unmapped: state.unmapped,
        }
    }

    /// Counts one more event.
    pub fn count(&mut self, late: bool, unmapped: bool)
        ensures { (released : List Event) (event : Event) → self.old ≡ counts_in released
            → length released < 2 ^ 62 → late ≡ event.late → unmapped ≡ is_unmapped event
            → self.new ≡ counts_in (released ++ event ∷ []) }
    {
        // No log has so many events that a sum would end here.
        self.events = self.events.saturating_add(1);
        self.late = self.late.saturating_add(u64::from(late));
        self.unmapped = self.unmapped.saturating_add(u64::from(unmapped));
    }
}
