//! How far joining got: what was seen, what was released, and the effective time, which never falls.
ghost use Rattle.std.specs.Prelude.{◌≡◌};
ghost use Rattle.record_join.specs.Events.{saw, let_go, event_time, is_late, is_past};

use audit_lex::EventKey;

/// How long a group waits for the records of its key, in milliseconds.
const PATIENCE: u64 = 2000;

/// The greatest time seen, the greatest key released, and the effective time.
#[derive(Clone, Copy, Debug, PartialEq, Eq)]
pub struct JoinClock {
    pub seen: Option<u64>,
    pub released: Option<EventKey>,
    pub effective: u64,
}

impl JoinClock {
    /// A record of this time came.
    pub fn see(&mut self, ms: u64)
        ensures { self.new ≡ saw self.old ms }
    {
        self.seen = match self.seen {
            Some(seen) => Some(seen.max(ms)),
            None => Some(ms),
        };
    }

    /// The group of this key was released.
    pub fn release(&mut self, key: EventKey)
        ensures { self.new ≡ let_go self.old key }
    {
        self.effective = self.time_of(key);
        self.released = match self.released {
            Some(released) => Some(released.max(key)),
            None => Some(key),
        };
    }

    /// The effective time of an event of this key, if it is the next.
    pub fn time_of(&self, key: EventKey) -> u64
        ensures { result ≡ event_time self.now key }
    {
        self.effective.max(key.ms)
    }

    /// Whether an event of this key is late, if it is the next.
    pub fn is_late(&self, key: EventKey) -> bool
        ensures { result ≡ is_late self.now key }
    {
        match self.released {
            Some(released) => key < released,
            None => false,
        }
    }

    /// Whether a record well above this time was seen.
    pub fn is_past(&self, ms: u64) -> bool
        ensures { result ≡ is_past self.now.seen ms }
    {
        match self.seen {
            Some(seen) => seen.saturating_sub(ms) > PATIENCE,
            None => false,
        }
    }
}
