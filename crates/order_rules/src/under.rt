//! The call whose records are being seen.
ghost use Rattle.std.specs.Prelude.{◌≡◌};
ghost use Rattle.order_rules.specs.Deeds.{is_event, stood, met_at};

use crate::call::Call;
use audit_lex::EventKey;
use flow_base::Bytes;

/// The newest call, its event, the working directory that its event's records named, and whether one of them has an address.
#[derive(Drop)]
pub struct Under {
    pub key: EventKey,
    pub call: Call,
    pub cwd: Option<Bytes>,
    pub met: bool,
}

/// A descriptor that a call opened.
#[derive(Clone, Copy)]
pub struct Opened {
    pub pid: u32,
    pub fd: u32,
    pub stays: bool,
}

/// Whether two lines are of one event.
pub fn is_event(one: EventKey, other: EventKey) -> bool
    ensures { result ≡ is_event one other }
{
    one.ms == other.ms && one.serial == other.serial
}

/// A record has named the working directory.
pub fn stood(key: EventKey, cwd: Option<Bytes>, mut under: Under) -> Under
    ensures { result ≡ stood key cwd under }
{
    if is_event(key, under.key) {
        under.cwd = cwd;
    }
    under
}

/// A record has an address.
pub fn met_at(key: EventKey, mut under: Under) -> Under
    ensures { result ≡ met_at key under }
{
    if is_event(key, under.key) {
        under.met = true;
    }
    under
}
