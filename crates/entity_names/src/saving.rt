//! Which names were there at the mark.
//!
//! The entries of the map stand in two parts. In the first, all names of a key were there at the
//! mark. An entry that gets a name goes over to the second part, by an exchange with the last entry
//! of the first. So the names that came since the mark stand in the second part alone.
ghost use Rattle.std.specs.Prelude.{◌≡◌, ◌<◌, ◌+◌, false, Some, length, take, drop, slice_get, IfOk};
ghost use Rattle.std.specs.List.{list_any};
ghost use Rattle.std.specs.Map.{lookup, keys_of};
ghost use Rattle.flow_base.specs.declared.types.Key.{Key};
ghost use Rattle.flow_base.specs.contracts.types.KeyPartialEq.TheImpl.{ghosts};
ghost use Rattle.entity_names.specs.Known.{AreSaved, NamesStay, texts, saved_in, pairs_of, texts_of};

use crate::key_names::{Named, Names, push_new};
use flow_base::{Key, List, NoMemory, equal_keys_are_one};
use indexmap::IndexMap;
use table_salt::Salt;

/// Takes a key out of the first part, and gives how many entries that part has then.
pub fn set_apart(names: &mut IndexMap<Key, Names, Salt>, saved: usize, key: &Key) -> usize
    requires { AreSaved saved names.old.entries }
    ensures names { (k : Key) →
        lookup (ghosts.eq k) names.new.entries ≡ lookup (ghosts.eq k) names.old.entries }
    ensures saved { AreSaved result names.new.entries }
    ensures apart { list_any (ghosts.eq key.now) (take result (keys_of names.new.entries)) ≡ false }
{
    equal_keys_are_one();
    let place = match names.get_index_of(key) {
        Some(place) => place,
        None => return saved,
    };
    if place >= saved {
        return saved;
    }
    names.swap_indices(place, saved - 1);
    saved - 1
}

/// The names that came since the mark, if all names of the first entries were there at the mark.
pub fn names_from(names: &IndexMap<Key, Names, Salt>, saved: usize) -> Result<List<Named>, NoMemory>
    requires { AreSaved saved names.now.entries }
    ensures { IfOk result (λ found. (k : Key) → texts_of k (pairs_of found)
        ≡ drop (saved_in (lookup (ghosts.eq k) names.now.entries))
        (texts (lookup (ghosts.eq k) names.now.entries))) }
{
    equal_keys_are_one();
    let mut found = List::new(*names.allocator());
    for place in saved..names.len() {
        let (key, of_key) = entry_at(names, place);
        push_new(&mut found, key, of_key)?;
    }
    Ok(found)
}

/// The key and the names of one entry.
fn entry_at(names: &IndexMap<Key, Names, Salt>, place: usize) -> (&Key, &Names)
    requires { place < length names.now.entries }
    ensures { slice_get names.now.entries place ≡ Some (result.0.now, result.1.now) }
{
    match names.get_index(place) {
        Some(entry) => entry,
        None => unreachable!(),
    }
}

/// Marks the names of one entry as saved.
fn save(names: &mut IndexMap<Key, Names, Salt>, place: usize)
    requires { place < length names.old.entries }
    ensures names { NamesStay names.old.entries names.new.entries }
    ensures saved { AreSaved place names.old.entries → AreSaved (place + 1) names.new.entries }
    ensures count { length names.new.entries ≡ length names.old.entries }
{
    match names.get_index_mut(place) {
        Some(one) => one.save(),
        None => {}
    }
}

/// Marks the names of all entries from this place on as saved.
pub fn save_from(names: &mut IndexMap<Key, Names, Salt>, first: usize)
    ensures names { NamesStay names.old.entries names.new.entries }
    ensures saved { AreSaved first names.old.entries
        → AreSaved (length names.new.entries) names.new.entries }
{
    let mut place = first;
    while place < names.len() {
        save(names, place);
        place += 1;
    }
}
