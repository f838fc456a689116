//! What holds of the acts of every event.
ghost use Rattle.std.specs.Prelude.{◌≡◌, ◌≤◌, ◌+◌, ◌*◌, ◌++◌, ℕ, List, length, reverse, false, Some};
ghost use Rattle.audit_record.specs.declared.types.Record.{Record};
ghost use Rattle.audit_record.specs.declared.types.Syscall.{Syscall};
ghost use Rattle.record_join.specs.declared.event.Event.{Event};
ghost use Rattle.acts.specs.declared.act.Act.{Act};
ghost use Rattle.acts.specs.Admitted.{Admitted};
ghost use Rattle.call_acts.specs.Records.{call};
ghost use Rattle.call_acts.specs.Acts.{event_acts, event_call, acts_of_events};
ghost use Rattle.call_acts.specs.Events.{IsEvent};
ghost use Rattle.call_acts.specs.Laws.{AreOfCaller, OpenNothing, opens_descriptors};
ghost use Rattle.call_acts.specs.declared.calls.Call.{Call as Kind};

use crate::calls::Call;

/// Whether a call makes, copies or names descriptors. The others leave what descriptors hold to those.
pub fn opens_descriptors(call: Call) -> bool
    ensures { result ≡ opens_descriptors call }
{
    matches!(
        call,
        Call::Open
            | Call::Dup
            | Call::Dup2
            | Call::Dup3
            | Call::Fcntl
            | Call::Pair
            | Call::Socket
            | Call::Bind
            | Call::Connect
            | Call::Accept
    )
}

/// The first act of an event is a see of its caller, and all others are the caller's or are births.
pub fn acts_are_of_the_caller()
    ensures { (limit : ℕ) (records : List Record) (caller : Syscall)
        → call records ≡ Some caller → AreOfCaller caller (event_acts limit records) }
{}

/// An event has no acts, or begins with a see. The acts after it are of the process that it sees, and all but the last
/// of them are births and moves.
pub fn acts_are_of_one_event()
    ensures { (limit : ℕ) (records : List Record) → IsEvent (event_acts limit records) }
{}

/// After any admitted acts the acts of an event are admitted: each names a pid that is live at it. Acts stand with the
/// newest first.
pub fn event_acts_are_admitted()
    ensures { (limit : ℕ) (records : List Record) (before : List Act)
        → Admitted before → Admitted (reverse (event_acts limit records) ++ before) }
{}

/// The acts of events, one event after the other, are admitted too.
pub fn acts_of_events_are_admitted()
    ensures { (limit : ℕ) (events : List Event) (before : List Act)
        → Admitted before → Admitted (reverse (acts_of_events limit events) ++ before) }
{}

/// An event has few acts.
pub fn acts_are_few()
    ensures { (limit : ℕ) (records : List Record)
        → length (event_acts limit records) ≤ 4 + 2 * length records }
{}

/// If the call of an event doesn't make, copy or name descriptors, no act of the event puts anything at one.
pub fn other_calls_open_nothing()
    ensures { (limit : ℕ) (records : List Record)
        → ((kind : Kind) → event_call records ≡ Some kind → opens_descriptors kind ≡ false)
        → OpenNothing (event_acts limit records) }
{}
