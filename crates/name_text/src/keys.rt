//! Keys as texts, as replies show objects:
//!
//!     process PID LIFE
//!     file MAJ:MIN INO BORN      the device in hex, at least two digits each
//!     path PATH
//!     address TEXT               the address's own text
//!     made ACT
//!     lost PID LIFE FD
//!
//! All other numbers are decimal, without leading zeros.
ghost use Rattle.std.specs.Prelude.{◌≡◌, ◌++◌, IfOk, string_bytes};
ghost use Rattle.name_text.specs.KeyTexts as texts;
ghost use Rattle.name_text.specs.KeyTexts.{text_of};

use crate::addresses::address_text;
use flow_base::{Bytes, FileId, Key, NoMemory};
use std::alloc::{AllocError, Global};

/// The text of a key.
pub fn key_text(alloc: Global, key: &Key) -> Result<Bytes, NoMemory>
    ensures { IfOk result (λ text. text ≡ text_of key.now) }
{
    let text = match key {
        Key::Process { pid, life } => format!(in alloc; "process {pid} {life}")?,
        Key::Inode { file, born } => file_text(alloc, *file, *born)?,
        Key::Path { path } => return named(alloc, b"path ", path.as_slice()),
        Key::Address { bytes } => {
            let text = address_text(alloc, bytes.as_slice())?;
            return named(alloc, b"address ", text.as_slice());
        }
        Key::Made { act } => format!(in alloc; "made {act}")?,
        Key::Lost { pid, life, fd } => format!(in alloc; "lost {pid} {life} {fd}")?,
    };
    Ok(Bytes::from_vec(text.into_bytes()))
}

// The text of a file's number.
#[tactic(auto, using(crate::proofs::HalfLemmas::half_is))]
fn file_text(alloc: Global, file: FileId, born: u64) -> Result<String, AllocError>
    ensures { IfOk result (λ text. string_bytes text ≡ texts.file_text file born) }
{
    let FileId { device, ino } = file;
    let (major, minor) = (device.major, device.minor);
    format!(in alloc; "file {major:02x}:{minor:02x} {ino} {born}")
}

// A word and a text.
fn named(alloc: Global, word: &[u8], text: &[u8]) -> Result<Bytes, NoMemory>
    ensures { IfOk result (λ made. made ≡ word.now ++ text.now) }
{
    let mut made = Bytes::from_slice(alloc, word)?;
    made.append(text)?;
    Ok(made)
}
