//! Which names a plan leaves out, since their keys have them already.
//!
//! Each event gives its process the program that it runs, and nearly always the process has that name by then. Most
//! files have the name too by which they are opened. So a name is looked up before it is copied.
ghost use Rattle.std.specs.Prelude.{◌≡◌, ◌∷◌, [], IfOk, true};
ghost use Rattle.acts.specs.declared.act.Act.TheVariants as act;
ghost use Rattle.flow_base.specs.declared.types.Key.TheVariants as key;
ghost use Rattle.name_text.specs.Addresses.{text_of};
ghost use Rattle.flow_events.specs.Acting.{ByBirths, exe_name, pair_if, path_name};
ghost use Rattle.flow_events.specs.Entering.{NameAlike, pair_of};

use crate::acting::{Acting, birth_key, file_key};
use crate::births::{Births, Fresh};
use crate::effects::see_name;
use crate::given::Given;
use acts::FileRef;
use entity_names::Entities;
use flow_base::{Bytes, Key, NoMemory, equal_keys_are_one};
use name_text::address_text;
use std::alloc::Global;

/// The program of a process as its name, if it is known and the process doesn't have that name.
pub fn new_exe(
    entities: &Entities,
    acting: &Acting,
    exe: &Option<Bytes>,
) -> Result<Option<Given>, NoMemory>
    ensures { IfOk result
        (λ given. NameAlike entities.now (exe_name acting.now exe.now) (pair_if given)) }
{
    if has_exe(entities, acting, exe) {
        return Ok(None);
    }
    see_name(acting, exe)
}

// An address is named by its text.
fn named_address(alloc: Global, bytes: &Bytes) -> Result<Given, NoMemory>
    ensures { IfOk result (λ given. pair_of given ≡ (key.Address bytes.now, text_of bytes.now)) }
{
    Ok(Given {
        key: Key::Address {
            bytes: bytes.copy()?,
        },
        text: address_text(alloc, bytes.as_slice())?,
    })
}

/// A file is named by its path, if it has one and the file doesn't have that name.
pub fn file_name(
    alloc: Global,
    entities: &Entities,
    births: &Births,
    fresh: &Fresh,
    file: &FileRef,
) -> Result<Option<Given>, NoMemory>
    ensures { ByBirths births.now fresh.now (λ acts. IfOk result
        (λ given. NameAlike entities.now (path_name acts file.now) (pair_if given))) }
{
    match &file.path {
        None => Ok(None),
        Some(path) => text_if_new(entities, file_key(alloc, births, fresh, file)?, path),
    }
}

/// A file that is born is named likewise, and its birth counts.
pub fn birth_name(
    alloc: Global,
    entities: &Entities,
    births: &Births,
    fresh: &Fresh,
    file: &FileRef,
) -> Result<Option<Given>, NoMemory>
    ensures { ByBirths births.now fresh.now (λ acts. IfOk result (λ given.
        NameAlike entities.now (path_name (act.Birth file.now ∷ acts) file.now) (pair_if given))) }
{
    match &file.path {
        None => Ok(None),
        Some(path) => text_if_new(entities, birth_key(alloc, births, fresh, file)?, path),
    }
}

/// An address is named by its text, if it doesn't have that name.
pub fn address_name(
    alloc: Global,
    entities: &Entities,
    bytes: &Bytes,
) -> Result<Option<Given>, NoMemory>
    ensures { IfOk result (λ given. NameAlike entities.now
        ((key.Address bytes.now, text_of bytes.now) ∷ []) (pair_if given)) }
{
    let name = named_address(alloc, bytes)?;
    Ok(if_new(entities, Some(name)))
}

// A key with this name, if the key doesn't have it. The name is copied only then.
fn text_if_new(entities: &Entities, key: Key, text: &Bytes) -> Result<Option<Given>, NoMemory>
    ensures { IfOk result
        (λ given. NameAlike entities.now ((key, text.now) ∷ []) (pair_if given)) }
{
    if is_name(entities, &key, text.as_slice()) {
        return Ok(None);
    }
    Ok(Some(Given {
        key,
        text: text.copy()?,
    }))
}

// A name, if its key doesn't have it.
fn if_new(entities: &Entities, name: Option<Given>) -> Option<Given>
    ensures { NameAlike entities.now (pair_if name) (pair_if result) }
{
    if is_given(entities, &name) {
        return None;
    }
    name
}

// Whether a process has its program as a name.
fn has_exe(entities: &Entities, acting: &Acting, exe: &Option<Bytes>) -> bool
    ensures { result ≡ true → NameAlike entities.now (exe_name acting.now exe.now) [] }
{
    match exe {
        Some(exe) => {
            let process = Key::Process {
                pid: acting.pid,
                life: acting.life,
            };
            is_name(entities, &process, exe.as_slice())
        }
        None => false,
    }
}

// Whether a key has the name that it is given.
fn is_given(entities: &Entities, name: &Option<Given>) -> bool
    ensures { result ≡ true → NameAlike entities.now (pair_if name.now) [] }
{
    match name {
        Some(name) => is_name(entities, &name.key, name.text.as_slice()),
        None => false,
    }
}

#[tactic(auto, using(crate::proofs::KnownNames::known_alike))]
// Whether this is a name of the key, which then need not be given again.
fn is_name(entities: &Entities, key: &Key, text: &[u8]) -> bool
    ensures { result ≡ true → NameAlike entities.now ((key.now, text.now) ∷ []) [] }
{
    equal_keys_are_one();
    entities.has_name(key, text)
}
