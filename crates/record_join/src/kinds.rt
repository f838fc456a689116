//! What joining asks of a record: whether it ends its event, and whether it is that of a call.
ghost use Rattle.std.specs.Prelude.{◌≡◌};
ghost use Rattle.record_join.specs.Keys.{ends_event, is_call};

use audit_record::{Body, Record};

/// Whether this record says that its event has no more.
pub fn ends_event(item: &Record) -> bool
    ensures { result ≡ ends_event item.now }
{
    matches!(item.body, Body::Proctitle | Body::Eoe)
}

/// Whether this is the record of a call.
pub fn is_call(item: &Record) -> bool
    ensures { result ≡ is_call item.now }
{
    matches!(item.body, Body::Syscall(_))
}
