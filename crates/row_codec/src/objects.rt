//! What descriptors hold, read and written.
ghost use Rattle.std.specs.Prelude.{◌≡◌, ◌++◌, OnOk};
ghost use Rattle.row_codec.specs.Parsing as parsing;
ghost use Rattle.row_codec.specs.Parsing.{Gives, GivesIfMemory, FitsOption, option_at};
ghost use Rattle.row_codec.specs.Keys as keys;
ghost use Rattle.row_codec.specs.Keys.{held_file_at, pipe_at, sock_at, object_at, held_at};
ghost use Rattle.row_codec.specs.Keys.{FitsObject, FitsHeld};
ghost use Rattle.row_codec.specs.Rows.{CanBeHeld};

use crate::fault::{NoSpelling, RowRead};
use crate::keys::{key, put_key};
use crate::numbers::{byte, flag, n8, put_byte, put_flag, put_n8};
use acts::{Held, Object};
use flow_base::{Bytes, Key, NoMemory};
use std::alloc::Global;

/// What a descriptor holds, if anything.
pub fn holding(alloc: Global, bytes: &[u8]) -> Result<(Option<Held>, &[u8]), RowRead>
    ensures { GivesIfMemory (λ x. (x.0, x.1.now)) result (option_at held_at bytes.now) }
{
    match bytes {
        [0, rest @ ..] => Ok((None, rest)),
        [1, rest @ ..] => {
            let (held, rest) = held(alloc, rest)?;
            Ok((Some(held), rest))
        }
        _ => Err(RowRead::Malformed),
    }
}

/// The cloexec flag and the object.
fn held(alloc: Global, bytes: &[u8]) -> Result<(Held, &[u8]), RowRead>
    ensures { GivesIfMemory (λ x. (x.0, x.1.now)) result (held_at bytes.now) }
{
    let (cloexec, rest) = flag(bytes)?;
    let (object, rest) = object(alloc, rest)?;
    Ok((Held { object, cloexec }, rest))
}

/// An object: a byte for its kind, then a key or an act.
fn object(alloc: Global, bytes: &[u8]) -> Result<(Object, &[u8]), RowRead>
    ensures { GivesIfMemory (λ x. (x.0, x.1.now)) result (object_at bytes.now) }
{
    let (kind, rest) = byte(bytes)?;
    match kind {
        1 => held_file(alloc, rest),
        2 => Ok(pipe(rest)?),
        3 => Ok(sock(rest)?),
        _ => Err(RowRead::Malformed),
    }
}

/// A file by its key, which is of an inode, a path or a lost descriptor.
fn held_file(alloc: Global, bytes: &[u8]) -> Result<(Object, &[u8]), RowRead>
    ensures { GivesIfMemory (λ x. (x.0, x.1.now)) result (held_file_at bytes.now) }
{
    let (key, rest) = key(alloc, bytes)?;
    match key {
        Key::Inode { .. } | Key::Path { .. } | Key::Lost { .. } => Ok((Object::File(key), rest)),
        Key::Process { .. } | Key::Address { .. } | Key::Made { .. } => Err(RowRead::Malformed),
    }
}

fn pipe(bytes: &[u8]) -> Result<(Object, &[u8]), NoSpelling>
    ensures { Gives (λ x. (x.0, x.1.now)) result (pipe_at bytes.now) }
{
    let (act, rest) = n8(bytes)?;
    Ok((Object::Pipe(act), rest))
}

fn sock(bytes: &[u8]) -> Result<(Object, &[u8]), NoSpelling>
    ensures { Gives (λ x. (x.0, x.1.now)) result (sock_at bytes.now) }
{
    let (act, rest) = n8(bytes)?;
    Ok((Object::Sock(act), rest))
}

/// Appends what a descriptor holds, if anything.
pub fn put_held(to: &mut Bytes, held: &Option<Held>) -> Result<(), NoMemory>
    requires { FitsOption (λ h. CanBeHeld h.object) held.now }
    ensures bytes { OnOk result (to.new ≡ to.old ++ parsing.option keys.held held.now) }
    ensures fits { OnOk result (FitsOption FitsHeld held.now) }
{
    match held {
        None => put_byte(to, 0),
        Some(held) => {
            put_byte(to, 1)?;
            put_flag(to, held.cloexec)?;
            put_object(to, &held.object)
        }
    }
}

/// Appends an object.
fn put_object(to: &mut Bytes, object: &Object) -> Result<(), NoMemory>
    requires { CanBeHeld object.now }
    ensures bytes { OnOk result (to.new ≡ to.old ++ keys.object object.now) }
    ensures fits { OnOk result (FitsObject object.now) }
{
    match object {
        Object::File(key) => {
            put_byte(to, 1)?;
            put_key(to, key)
        }
        Object::Pipe(act) => {
            put_byte(to, 2)?;
            put_n8(to, *act)
        }
        Object::Sock(act) => {
            put_byte(to, 3)?;
            put_n8(to, *act)
        }
    }
}
