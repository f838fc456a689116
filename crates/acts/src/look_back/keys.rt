//! The keys of processes, files and things, by going over all acts for each question.
ghost use Rattle.std.specs.Prelude.{◌≡◌, ◌<◌, ◌^◌, ◌-◌, false, IfOk, length};
ghost use Rattle.flow_base.specs.declared.types.Key.TheVariants as key;
ghost use Rattle.acts.specs.Births.{born, file_key, is_birth_of, path_or_none};
ghost use Rattle.acts.specs.Keys.{process_key, thing_key};
ghost use Rattle.acts.specs.LookBack.{so_far, any_opens};

use crate::act::{Act, FileRef, Taken, Thing};
use crate::look_back::lives::{Standing, stands_after};
use flow_base::{Bytes, FileId, Key, NoMemory};
use std::alloc::Global;

/// The last life of a pid after these acts, oldest first.
pub fn process_key(taken: &[Taken], pid: u32) -> Key
    ensures { result ≡ process_key (so_far taken.now) pid }
{
    key_of(pid, stands_after(taken, pid))
}

/// The last life of a pid that stands so.
pub fn key_of(pid: u32, standing: Standing) -> Key
    ensures { result ≡ key.Process pid (standing.beginnings - 1) }
{
    Key::Process {
        pid,
        life: standing.beginnings.saturating_sub(1),
    }
}

/// The key of a thing that a pid names after these acts, oldest first, if nothing was put at a descriptor.
pub fn thing_key(alloc: Global, taken: &[Taken], pid: u32, thing: &Thing) -> Result<Key, NoMemory>
    requires none_opened { any_opens (so_far taken.now) ≡ false }
    ensures { IfOk result (λ made. made ≡ thing_key (so_far taken.now) pid thing.now) }
{
    match thing {
        Thing::Fd(fd) => Ok(lost_key(pid, stands_after(taken, pid), *fd)),
        Thing::File(file) => file_key(alloc, taken, file),
        Thing::Address(bytes) => Ok(Key::Address {
            bytes: bytes.copy()?,
        }),
    }
}

/// A descriptor of which nothing is known, by its pid's last life.
fn lost_key(pid: u32, standing: Standing, fd: u32) -> Key
    ensures { result ≡ key.Lost pid (standing.beginnings - 1) fd }
{
    Key::Lost {
        pid,
        life: standing.beginnings.saturating_sub(1),
        fd,
    }
}

/// The key of a file after these acts, oldest first.
pub fn file_key(alloc: Global, taken: &[Taken], file: &FileRef) -> Result<Key, NoMemory>
    ensures { IfOk result (λ made. made ≡ file_key (so_far taken.now) file.now) }
{
    match file.file {
        Some(id) => Ok(Key::Inode {
            file: id,
            born: born(taken, id),
        }),
        None => Ok(Key::Path {
            path: path_or_none(alloc, &file.path)?,
        }),
    }
}

/// A copy of the path, or no bytes.
fn path_or_none(alloc: Global, path: &Option<Bytes>) -> Result<Bytes, NoMemory>
    ensures { IfOk result (λ made. made ≡ path_or_none path.now) }
{
    match path {
        Some(path) => path.copy(),
        None => Ok(Bytes::new(alloc)),
    }
}

/// How often a file number was born.
pub fn born(taken: &[Taken], id: FileId) -> u64
    ensures { result ≡ born (so_far taken.now) id }
{
    let mut born = 0;
    for one in taken {
        if is_birth_of(&one.act, id) {
            born += 1;
        }
    }
    born
}

/// Whether an act is a birth of this file number.
fn is_birth_of(act: &Act, id: FileId) -> bool
    ensures { result ≡ is_birth_of act.now id }
{
    match act {
        Act::Birth { file } => file.file == Some(id),
        _ => false,
    }
}
