//! The line that a trial writes for a mode, as compact JSON with keys in ascending order.
ghost use Rattle.std.specs.Prelude.{◌≡◌, IfOk};
ghost use Rattle.serde_json.specs.View.{view};
ghost use Rattle.report_json.specs.Replies.{line_of};
ghost use Rattle.audit_cli.specs.Trials as trials;
ghost use Rattle.store_runs.specs.Statuses.{mode_name};
ghost use Rattle.audit_cli.specs.Trials.{trial_data};

use flow_base::{Bytes, NoMemory};
use reach_model::Mode;
use report_json::Reply;
use serde_json::{Value, json};
use std::alloc::{AllocError, Global};
use store_runs::name_of_mode;

/// What a trial reports of the counts over a history.
#[derive(Clone, Copy, Debug, PartialEq, Eq)]
pub struct Totals {
    /// Flows.
    pub flows: u64,
    /// Rows kept in place of the flows.
    pub kept: u64,
    /// Known objects.
    pub known: u64,
}

/// The totals in a reply to `stat`.
pub fn totals_in(reply: &Reply) -> Totals
    ensures { result ≡ trials.totals_in reply.now }
{
    match reply {
        Reply::Stat(counts) => Totals {
            flows: counts.flows,
            kept: counts.kept,
            known: counts.known,
        },
        _ => Totals {
            flows: 0,
            kept: 0,
            known: 0,
        },
    }
}

/// How many objects or sources a reply to `back` has.
pub fn size_of(reply: &Reply) -> u64
    ensures { result ≡ trials.size_of reply.now }
{
    match reply {
        Reply::Back { of: _, ids } => ids.as_slice().len() as u64,
        Reply::Sources { of: _, ids } => ids.as_slice().len() as u64,
        _ => 0,
    }
}

/// The line of a mode, with its line feed.
pub fn mode_line(alloc: Global, mode: Mode, totals: &Totals, back: u64) -> Result<Bytes, NoMemory>
    ensures { IfOk result (λ line. line ≡ line_of (trial_data mode totals.now back)) }
{
    let value = mode_value(alloc, mode, totals, back)?;
    let text = value.to_string(alloc)?;
    let mut line = Bytes::from_slice(alloc, text.as_bytes())?;
    line.append(b"\n")?;
    Ok(line)
}

fn mode_value(alloc: Global, mode: Mode, totals: &Totals, back: u64) -> Result<Value, AllocError>
    ensures { IfOk result (λ value. view value ≡ trial_data mode totals.now back) }
{
    json!(in alloc; {
        "back": back,
        "flows": totals.flows,
        "kept": totals.kept,
        "known": totals.known,
        "mode": name_of_mode(mode)
    })
}
