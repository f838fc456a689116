//! All rules that look at one line alone.
ghost use Rattle.std.specs.Prelude.{◌≡◌, IfOk};
ghost use Rattle.order_text.specs.Seen.{stamp_seen};
ghost use Rattle.order_lines.specs.Rules.{if_on, compat_of, join_of, change_of};

use crate::address::join_of;
use crate::call::compat_of;
use flow_base::NoMemory;
use order_text::{Rewrite, Stamp};
use std::alloc::Global;

/// Which rules rewrite lines: those on addresses, and that on 32-bit calls.
#[derive(Clone, Copy, Debug, PartialEq, Eq)]
pub struct Settings {
    pub join: bool,
    pub compat: bool,
}

/// How a line is rewritten by what it says alone.
pub fn rewrite_of(
    alloc: Global,
    settings: Settings,
    stamp: &Stamp<'_>,
) -> Result<Option<Rewrite>, NoMemory>
    ensures { IfOk result (λ change. change ≡ change_of settings (stamp_seen stamp.now)) }
{
    if let Some(rewrite) = compat_if(alloc, settings.compat, stamp)? {
        return Ok(Some(rewrite));
    }
    join_if(alloc, settings.join, stamp)
}

// How a line of a 32-bit call is rewritten, if that is asked for.
fn compat_if(alloc: Global, on: bool, stamp: &Stamp<'_>) -> Result<Option<Rewrite>, NoMemory>
    ensures { IfOk result (λ change. change ≡ if_on on (compat_of (stamp_seen stamp.now))) }
{
    if on {
        compat_of(alloc, stamp)
    } else {
        Ok(None)
    }
}

// How a line of an address is rewritten, if that is asked for.
fn join_if(alloc: Global, on: bool, stamp: &Stamp<'_>) -> Result<Option<Rewrite>, NoMemory>
    ensures { IfOk result (λ change. change ≡ if_on on (join_of (stamp_seen stamp.now))) }
{
    if on { join_of(alloc, stamp) } else { Ok(None) }
}
