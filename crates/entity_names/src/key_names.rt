//! The names of one key, and names that are handed out with their keys.
ghost use Rattle.std.specs.Prelude.{◌≡◌, ◌≤◌, ◌<◌, ◌+◌, ◌++◌, ◌∷◌, [], List, length, drop, map, IsOk, IfOk, OnOk, OnErr, vec_capacity};
ghost use Rattle.entity_names.specs.KeyNames.{KeyNames};
ghost use Rattle.entity_names.specs.Known.{new_pairs, pairs_of};

use acts::copy_key;
use flow_base::{Bytes, Key, List, NoMemory};
use std::alloc::Global;
use std::marker::Model;
use std::slice;

/// The names of one key, at most 16 of them.
#[derive(Drop)]
pub struct Names {
    kept: Kept,
}

/// Names, and how many of them were there at the mark. Most keys have one name, which is held in
/// place and needs no vector.
#[derive(Drop)]
enum Kept {
    Nothing,
    One { saved: bool, text: Bytes },
    Many { saved: u8, texts: Vec<Bytes> },
}

impl Model for Names {
    ghost use Rattle.std.specs.Prelude.{◌≤◌, length};
    ghost use Rattle.entity_names.specs.KeyNames.{KeyNames, names_kept};

    ghost Value = { KeyNames };

    ghost view = { λ a. names_kept a.kept };

    ghost invariant = { λ a. length (names_kept a.kept).texts ≤ 16 };
}

impl Names {
    /// No names, and a place for one.
    pub fn new() -> Names
        ensures { result ≡ record { texts = []; capacity = 1; saved = 0 } }
    {
        Names {
            kept: Kept::Nothing,
        }
    }

    /// One name, which came since the mark.
    pub fn of_one(text: Bytes) -> Names
        ensures texts { result.texts ≡ text ∷ [] }
        ensures saved { result.saved ≡ 0 }
    {
        Names {
            kept: Kept::One { saved: false, text },
        }
    }

    /// The names.
    pub fn as_slice(&self) -> &[Bytes]
        ensures { result.now ≡ self.now.texts }
    {
        match &self.kept {
            Kept::Nothing => &[],
            Kept::One { text, .. } => slice::from_ref(text),
            Kept::Many { texts, .. } => texts.as_slice(),
        }
    }

    /// How many names there were at the mark.
    fn saved(&self) -> usize
        ensures { result ≡ self.now.saved }
    {
        match &self.kept {
            Kept::Nothing => 0,
            Kept::One { saved, .. } => usize::from(*saved),
            Kept::Many { saved, .. } => usize::from(*saved),
        }
    }

    /// The names that came since the mark.
    fn new_texts(&self) -> &[Bytes]
        ensures { result.now ≡ drop self.now.saved self.now.texts }
    {
        let texts = self.as_slice();
        let saved = self.saved().min(texts.len());
        &texts[saved..]
    }

    /// Moves the mark to now: all names are there at the mark.
    pub fn save(&mut self)
        ensures { self.new ≡ record self.old { saved = length self.old.texts } }
    {
        match &mut self.kept {
            Kept::Nothing => {}
            Kept::One { saved, .. } => *saved = true,
            Kept::Many { saved, texts } => *saved = texts.len() as u8,
        }
    }

    /// Makes room for this many more names.
    pub fn reserve(&mut self, alloc: Global, more: usize) -> Result<(), NoMemory>
        requires { more ≤ 16 }
        ensures room { OnOk result (length self.old.texts + more ≤ self.new.capacity) }
        ensures texts { self.new.texts ≡ self.old.texts }
        ensures saved { self.new.saved ≡ self.old.saved }
        ensures capacity { self.old.capacity ≤ self.new.capacity }
        ensures succeeds { length self.old.texts + more ≤ self.old.capacity → IsOk result }
    {
        match &mut self.kept {
            Kept::Nothing if more > 1 => {
                self.kept = Kept::Many {
                    saved: 0,
                    texts: Vec::with_capacity(alloc, more)?,
                };
            }
            Kept::One { saved, text } if more > 0 => {
                let saved = u8::from(*saved);
                let texts = moved(alloc, text, more + 1)?;
                self.kept = Kept::Many { saved, texts };
            }
            Kept::Many { texts, .. } => texts.reserve(more)?,
            _ => {}
        }
        Ok(())
    }

    /// Appends a name. It takes no memory if there is a place for the name.
    pub fn push(&mut self, alloc: Global, text: Bytes) -> Result<(), NoMemory>
        requires { length self.old.texts < 16 }
        ensures ok { OnOk result (self.new.texts ≡ self.old.texts ++ text ∷ []) }
        ensures err { OnErr result (self.new.texts ≡ self.old.texts) }
        ensures saved { self.new.saved ≡ self.old.saved }
        ensures room { length self.old.texts < self.old.capacity → IsOk result }
        ensures capacity { self.old.capacity ≤ self.new.capacity }
    {
        self.reserve(alloc, 1)?;
        self.put(text);
        Ok(())
    }

    /// Appends a name for which there is a place.
    fn put(&mut self, text: Bytes)
        requires few { length self.old.texts < 16 }
        requires place { length self.old.texts < self.old.capacity }
        ensures { self.new ≡ record self.old { texts = self.old.texts ++ text ∷ [] } }
    {
        match &mut self.kept {
            Kept::Nothing => self.kept = Kept::One { saved: false, text },
            Kept::One { .. } => unreachable!(),
            Kept::Many { texts, .. } => texts.push_reserved(text),
        }
    }
}

/// Moves a name to a new vector with at least this capacity. If it fails the name stays.
fn moved(alloc: Global, text: &mut Bytes, capacity: usize) -> Result<Vec<Bytes>, NoMemory>
    requires { 1 ≤ capacity }
    ensures items { IfOk result (λ texts. texts.items ≡ text.old ∷ []) }
    ensures capacity { IfOk result (λ texts. capacity ≤ vec_capacity texts) }
    ensures stays { OnErr result (text.new ≡ text.old) }
{
    let mut texts = Vec::with_capacity(alloc, capacity)?;
    texts.push_reserved(text.take());
    Ok(texts)
}

/// A name with its key.
#[derive(Drop)]
pub struct Named {
    pub key: Key,
    pub text: Bytes,
}

/// Appends the names of a key that came since the mark.
pub fn push_new(found: &mut List<Named>, key: &Key, names: &Names) -> Result<(), NoMemory>
    ensures { OnOk result
        (pairs_of found.new ≡ pairs_of found.old ++ new_pairs (key.now, names.now)) }
{
    for text in names.new_texts() {
        found.push(Named {
            key: copy_key(key)?,
            text: text.copy()?,
        })?;
    }
    Ok(())
}
