//! Keys of objects, read and written.
ghost use Rattle.std.specs.Prelude.{◌≡◌, ◌++◌, OnOk};
ghost use Rattle.row_codec.specs.Parsing.{Gives, GivesIfMemory};
ghost use Rattle.row_codec.specs.Keys as keys;
ghost use Rattle.row_codec.specs.Keys.{file_at, process_at, inode_at, path_at, address_at};
ghost use Rattle.row_codec.specs.Keys.{made_at, lost_at, key_at, FitsFile, FitsKey};
ghost use Rattle.row_codec.specs.Rows.{IsShortKey};

use crate::fault::{NoSpelling, RowRead};
use crate::numbers::{byte, n4, n8, put_byte, put_n4, put_n8};
use crate::texts::{put_text, text};
use flow_base::{Bytes, Device, FileId, Key, NoMemory};
use std::alloc::Global;

/// A file number.
pub fn file(bytes: &[u8]) -> Result<(FileId, &[u8]), NoSpelling>
    ensures { Gives (λ x. (x.0, x.1.now)) result (file_at bytes.now) }
{
    let (major, rest) = n4(bytes)?;
    let (minor, rest) = n4(rest)?;
    let (ino, rest) = n8(rest)?;
    let file = FileId {
        device: Device { major, minor },
        ino,
    };
    Ok((file, rest))
}

/// A key: a byte for its kind, then the fields of the kind.
#[tactic(auto, unfolding(crate::specs::Keys::key_at))]
pub fn key(alloc: Global, bytes: &[u8]) -> Result<(Key, &[u8]), RowRead>
    ensures { GivesIfMemory (λ x. (x.0, x.1.now)) result (key_at bytes.now) }
{
    let (kind, rest) = byte(bytes)?;
    match kind {
        1 => Ok(process(rest)?),
        2 => Ok(inode(rest)?),
        3 => path(alloc, rest),
        4 => address(alloc, rest),
        5 => Ok(made(rest)?),
        6 => Ok(lost(rest)?),
        _ => Err(RowRead::Malformed),
    }
}

fn process(bytes: &[u8]) -> Result<(Key, &[u8]), NoSpelling>
    ensures { Gives (λ x. (x.0, x.1.now)) result (process_at bytes.now) }
{
    let (pid, rest) = n4(bytes)?;
    let (life, rest) = n8(rest)?;
    Ok((Key::Process { pid, life }, rest))
}

fn inode(bytes: &[u8]) -> Result<(Key, &[u8]), NoSpelling>
    ensures { Gives (λ x. (x.0, x.1.now)) result (inode_at bytes.now) }
{
    let (file, rest) = file(bytes)?;
    let (born, rest) = n8(rest)?;
    Ok((Key::Inode { file, born }, rest))
}

fn path(alloc: Global, bytes: &[u8]) -> Result<(Key, &[u8]), RowRead>
    ensures { GivesIfMemory (λ x. (x.0, x.1.now)) result (path_at bytes.now) }
{
    let (path, rest) = text(alloc, bytes)?;
    Ok((Key::Path { path }, rest))
}

fn address(alloc: Global, bytes: &[u8]) -> Result<(Key, &[u8]), RowRead>
    ensures { GivesIfMemory (λ x. (x.0, x.1.now)) result (address_at bytes.now) }
{
    let (bytes, rest) = text(alloc, bytes)?;
    Ok((Key::Address { bytes }, rest))
}

fn made(bytes: &[u8]) -> Result<(Key, &[u8]), NoSpelling>
    ensures { Gives (λ x. (x.0, x.1.now)) result (made_at bytes.now) }
{
    let (act, rest) = n8(bytes)?;
    Ok((Key::Made { act }, rest))
}

fn lost(bytes: &[u8]) -> Result<(Key, &[u8]), NoSpelling>
    ensures { Gives (λ x. (x.0, x.1.now)) result (lost_at bytes.now) }
{
    let (pid, rest) = n4(bytes)?;
    let (life, rest) = n8(rest)?;
    let (fd, rest) = n4(rest)?;
    Ok((Key::Lost { pid, life, fd }, rest))
}

/// Appends a file number.
pub fn put_file(to: &mut Bytes, file: &FileId) -> Result<(), NoMemory>
    ensures bytes { OnOk result (to.new ≡ to.old ++ keys.file file.now) }
    ensures fits { OnOk result (FitsFile file.now) }
{
    put_n4(to, file.device.major)?;
    put_n4(to, file.device.minor)?;
    put_n8(to, file.ino)
}

/// Appends a key.
pub fn put_key(to: &mut Bytes, key: &Key) -> Result<(), NoMemory>
    requires { IsShortKey key.now }
    ensures bytes { OnOk result (to.new ≡ to.old ++ keys.key key.now) }
    ensures fits { OnOk result (FitsKey key.now) }
{
    match key {
        Key::Process { pid, life } => {
            put_byte(to, 1)?;
            put_n4(to, *pid)?;
            put_n8(to, *life)
        }
        Key::Inode { file, born } => {
            put_byte(to, 2)?;
            put_file(to, file)?;
            put_n8(to, *born)
        }
        Key::Path { path } => {
            put_byte(to, 3)?;
            put_text(to, path)
        }
        Key::Address { bytes } => {
            put_byte(to, 4)?;
            put_text(to, bytes)
        }
        Key::Made { act } => {
            put_byte(to, 5)?;
            put_n8(to, *act)
        }
        Key::Lost { pid, life, fd } => {
            put_byte(to, 6)?;
            put_n4(to, *pid)?;
            put_n8(to, *life)?;
            put_n4(to, *fd)
        }
    }
}
