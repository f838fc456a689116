//! Replies, and their lines: compact JSON with keys in ascending order, and a line feed.
ghost use Rattle.std.specs.Prelude.{◌≡◌, IfOk, false, codes};
ghost use Rattle.serde_json.specs.Data.{object, member, no_members};
ghost use Rattle.serde_json.specs.View.{view};
ghost use Rattle.serde_json.specs.Written.{has_float};
ghost use Rattle.report_json.specs.Replies.{id_data, ids_data, back_data, fore_data, sources_data, why_data, find_data, show_data, take_data, settle_data, end_data, error_data, data_of, line_of, text_of, IsLine};

use crate::counts::{Counts, stat_value};
use crate::paths::path_value;
use crate::texts::{text_value, texts_value};
use flow_base::{Bytes, EntityId, Flow, List, NoMemory};
use serde_json::{Value, json};
use std::alloc::{AllocError, Global};

/// What answers a line of the questions.
#[derive(Drop)]
pub enum Reply {
    /// How many bytes of the log were taken.
    Take(u64),
    /// How many events have been released so far.
    Settle(u64),
    /// The objects from which the contents of this one can have come, ascending.
    Back {
        of: EntityId,
        ids: List<EntityId>,
    },
    /// The objects to which the contents of this one can have come, ascending.
    Fore {
        of: EntityId,
        ids: List<EntityId>,
    },
    /// The sources from which the contents of this object can have come, ascending.
    Sources {
        of: EntityId,
        ids: List<EntityId>,
    },
    /// The flows of one path by which `from` reaches `to`, in order, and none if it doesn't reach it.
    Why {
        from: EntityId,
        to: EntityId,
        path: Option<List<Flow>>,
    },
    /// The known objects that have exactly this name, ascending.
    Find {
        text: Bytes,
        ids: List<EntityId>,
    },
    /// An object's key as a text, and its names in the order in which they were first given.
    Show {
        id: EntityId,
        key: Bytes,
        names: List<Bytes>,
    },
    Stat(Counts),
    /// The questions have ended.
    End,
    /// The line asks nothing.
    BadQuestion,
    /// An object in the question isn't known.
    Unknown,
    /// The kept flows don't determine the answer.
    NotKept,
}

/// The line of a reply.
pub fn reply_text(alloc: Global, reply: &Reply) -> Result<Bytes, NoMemory>
    ensures { IfOk result (λ text. text ≡ text_of reply.now) }
{
    let value = reply_value(alloc, reply)?;
    line(alloc, &value)
}

// The value of a reply.
fn reply_value(alloc: Global, reply: &Reply) -> Result<Value, AllocError>
    ensures { IfOk result (λ value. view value ≡ data_of reply.now) }
{
    match reply {
        Reply::Take(count) => take_value(alloc, *count),
        Reply::Settle(count) => settle_value(alloc, *count),
        Reply::Back { of, ids } => back_value(alloc, *of, ids.as_slice()),
        Reply::Fore { of, ids } => fore_value(alloc, *of, ids.as_slice()),
        Reply::Sources { of, ids } => sources_value(alloc, *of, ids.as_slice()),
        Reply::Why { from, to, path } => why_value(alloc, *from, *to, path),
        Reply::Find { text, ids } => find_value(alloc, text.as_slice(), ids.as_slice()),
        Reply::Show { id, key, names } => {
            show_value(alloc, *id, key.as_slice(), names.as_slice())
        }
        Reply::Stat(counts) => stat_value(alloc, counts),
        Reply::End => end_value(alloc),
        Reply::BadQuestion => error_value(alloc, "BadQuestion"),
        Reply::Unknown => error_value(alloc, "Unknown"),
        Reply::NotKept => error_value(alloc, "NotKept"),
    }
}

fn take_value(alloc: Global, count: u64) -> Result<Value, AllocError>
    ensures { IfOk result (λ value. view value ≡ take_data count) }
{
    json!(in alloc; {"take": count})
}

fn settle_value(alloc: Global, count: u64) -> Result<Value, AllocError>
    ensures { IfOk result (λ value. view value ≡ settle_data count) }
{
    json!(in alloc; {"settle": count})
}

fn back_value(alloc: Global, of: EntityId, ids: &[EntityId]) -> Result<Value, AllocError>
    ensures { IfOk result (λ value. view value ≡ back_data of ids.now) }
{
    let ids = ids_value(alloc, ids)?;
    back_object(alloc, of, ids)
}

fn back_object(alloc: Global, of: EntityId, ids: Value) -> Result<Value, AllocError>
    ensures { IfOk result (λ value. view value
        ≡ object (member (codes "back") (id_data of)
        (member (codes "ids") (view ids) no_members))) }
{
    json!(in alloc; {"back": of.0, "ids": ids})
}

fn fore_value(alloc: Global, of: EntityId, ids: &[EntityId]) -> Result<Value, AllocError>
    ensures { IfOk result (λ value. view value ≡ fore_data of ids.now) }
{
    let ids = ids_value(alloc, ids)?;
    fore_object(alloc, of, ids)
}

fn fore_object(alloc: Global, of: EntityId, ids: Value) -> Result<Value, AllocError>
    ensures { IfOk result (λ value. view value
        ≡ object (member (codes "fore") (id_data of)
        (member (codes "ids") (view ids) no_members))) }
{
    json!(in alloc; {"fore": of.0, "ids": ids})
}

fn sources_value(alloc: Global, of: EntityId, ids: &[EntityId]) -> Result<Value, AllocError>
    ensures { IfOk result (λ value. view value ≡ sources_data of ids.now) }
{
    let ids = ids_value(alloc, ids)?;
    sources_object(alloc, of, ids)
}

fn sources_object(alloc: Global, of: EntityId, ids: Value) -> Result<Value, AllocError>
    ensures { IfOk result (λ value. view value
        ≡ object (member (codes "back") (id_data of)
        (member (codes "sources") (view ids) no_members))) }
{
    json!(in alloc; {"back": of.0, "sources": ids})
}

fn why_value(
    alloc: Global,
    from: EntityId,
    to: EntityId,
    path: &Option<List<Flow>>,
) -> Result<Value, AllocError>
    ensures { IfOk result (λ value. view value ≡ why_data from to path.now) }
{
    let path = path_value(alloc, path)?;
    why_object(alloc, from, to, path)
}

fn why_object(alloc: Global, from: EntityId, to: EntityId, path: Value) -> Result<Value, AllocError>
    ensures { IfOk result (λ value. view value ≡ object (
        member (codes "from") (id_data from) (
        member (codes "path") (view path) (
        member (codes "to") (id_data to) no_members)))) }
{
    json!(in alloc; {"from": from.0, "path": path, "to": to.0})
}

fn find_value(alloc: Global, text: &[u8], ids: &[EntityId]) -> Result<Value, AllocError>
    ensures { IfOk result (λ value. view value ≡ find_data text.now ids.now) }
{
    let text = text_value(alloc, text)?;
    let ids = ids_value(alloc, ids)?;
    find_object(alloc, text, ids)
}

fn find_object(alloc: Global, text: Value, ids: Value) -> Result<Value, AllocError>
    ensures { IfOk result (λ value. view value ≡ object (
        member (codes "find") (view text) (member (codes "ids") (view ids) no_members))) }
{
    json!(in alloc; {"find": text, "ids": ids})
}

fn show_value(alloc: Global, id: EntityId, key: &[u8], names: &[Bytes]) -> Result<Value, AllocError>
    ensures { IfOk result (λ value. view value ≡ show_data id key.now names.now) }
{
    let key = text_value(alloc, key)?;
    let names = texts_value(alloc, names)?;
    show_object(alloc, id, key, names)
}

fn show_object(alloc: Global, id: EntityId, key: Value, names: Value) -> Result<Value, AllocError>
    ensures { IfOk result (λ value. view value ≡ object (
        member (codes "is") (view key) (
        member (codes "names") (view names) (
        member (codes "show") (id_data id) no_members)))) }
{
    json!(in alloc; {"is": key, "names": names, "show": id.0})
}

// The numbers of objects.
fn ids_value(alloc: Global, ids: &[EntityId]) -> Result<Value, AllocError>
    ensures { IfOk result (λ value. view value ≡ ids_data ids.now) }
{
    let mut list = Vec::new(alloc);
    for id in ids {
        list.push(Value::from(id.0))?;
    }
    Ok(Value::Array(list))
}

fn end_value(alloc: Global) -> Result<Value, AllocError>
    ensures { IfOk result (λ value. view value ≡ end_data) }
{
    json!(in alloc; {"end": true})
}

fn error_value(alloc: Global, name: &str) -> Result<Value, AllocError>
    ensures { IfOk result (λ value. view value ≡ error_data name.now) }
{
    json!(in alloc; {"error": name})
}

// The compact text of a value, and a line feed.
fn line(alloc: Global, value: &Value) -> Result<Bytes, NoMemory>
    requires { has_float (view value.now) ≡ false }
    ensures { IfOk result (λ text. text ≡ line_of (view value.now)) }
{
    let text = value.to_string(alloc)?;
    let mut made = Bytes::from_slice(alloc, text.as_bytes())?;
    made.append(b"\n")?;
    Ok(made)
}

/// A reply is one line: its only line feed is its last byte.
pub fn replies_are_lines()
    ensures { (reply : Reply) → IsLine (text_of reply) }
{}
