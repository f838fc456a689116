//! The flows of a path as JSON.
ghost use Rattle.std.specs.Prelude.{◌≡◌, IfOk, codes, string_bytes};
ghost use Rattle.serde_json.specs.Data.{object, member, no_members, string};
ghost use Rattle.serde_json.specs.View.{view};
ghost use Rattle.report_json.specs.Replies as replies;
ghost use Rattle.report_json.specs.Replies.{count_data, flow_data, id_data, path_data, how_word};

use flow_base::{Flow, How, List};
use serde_json::{Value, json};
use std::alloc::{AllocError, Global};

// The value of a path, and null if there is none.
pub fn path_value(alloc: Global, path: &Option<List<Flow>>) -> Result<Value, AllocError>
    ensures { IfOk result (λ value. view value ≡ path_data path.now) }
{
    match path {
        None => Ok(Value::Null),
        Some(flows) => flows_value(alloc, flows.as_slice()),
    }
}

fn flows_value(alloc: Global, flows: &[Flow]) -> Result<Value, AllocError>
    ensures { IfOk result (λ value. view value ≡ path_data (Some flows.now)) }
{
    let mut list = Vec::new(alloc);
    for flow in flows {
        list.push(flow_value(alloc, *flow)?)?;
    }
    Ok(Value::Array(list))
}

fn flow_value(alloc: Global, flow: Flow) -> Result<Value, AllocError>
    ensures { IfOk result (λ value. view value ≡ flow_data flow) }
{
    let at = time_text(alloc, flow.at.ms)?;
    flow_object(alloc, at.as_str(), flow)
}

fn flow_object(alloc: Global, at: &str, flow: Flow) -> Result<Value, AllocError>
    ensures { IfOk result (λ value. view value ≡ object (
        member (codes "at") (string at.now) (
        member (codes "from") (id_data flow.from) (
        member (codes "how") (string (how_word flow.how)) (
        member (codes "serial") (count_data flow.serial) (
        member (codes "to") (id_data flow.to) no_members)))))) }
{
    let how = word_of(flow.how);
    json!(in alloc; {
        "at": at,
        "from": flow.from.0,
        "how": how,
        "serial": flow.serial,
        "to": flow.to.0,
    })
}

// The word for how a flow came about.
fn word_of(how: How) -> &'static str
    ensures { result.now ≡ how_word how }
{
    match how {
        How::Fork => "fork",
        How::Exec => "exec",
        How::Read => "read",
        How::Write => "write",
        How::Make => "make",
        How::Alter => "alter",
    }
}

// Milliseconds as seconds, a point and three digits.
#[tactic(auto, using(crate::proofs::TimeLemmas::three_digits_are))]
fn time_text(alloc: Global, ms: u64) -> Result<String, AllocError>
    ensures { IfOk result (λ text. string_bytes text ≡ replies.time_text ms) }
{
    let (seconds, rest) = (ms / 1000, ms % 1000);
    format!(in alloc; "{seconds}.{rest:03}")
}
