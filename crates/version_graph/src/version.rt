//! The current version of an object.
ghost use Rattle.std.specs.Prelude.{◌≡◌, ◌≢◌, ◌+◌, ◌-◌, ◌<◌, ◌≤◌, ◌^◌, ◌==◌, ◌&&◌, ℕ, cond, true, false, nat_eq};
ghost use Rattle.std.specs.Option.{option_copied};
ghost use Rattle.indexmap.specs.IndexMap.{get, spare};
ghost use Rattle.version_graph.specs.Tables.{version_or};

use indexmap::IndexMap;
use table_salt::Salt;

/// The number of a version, and whether a flow has left it.
#[derive(Clone, Copy, Debug, PartialEq, Eq)]
pub struct Version {
    pub number: u64,
    pub sealed: bool,
}

/// The current version of an object, of which nothing may be known.
pub fn current_of(known: Option<&Version>) -> Version
    ensures { result ≡ version_or (option_copied known.entry) }
{
    match known {
        None => Version {
            number: 0,
            sealed: false,
        },
        Some(version) => *version,
    }
}

/// The version after a flow into the object: a new one if a flow has left the current one.
fn entered(current: Version) -> Version
    ensures number { current.number < 2 ^ 64 - 1
        → result.number ≡ current.number + cond current.sealed 1 0 }
    ensures seal { result.sealed ≡ false }
{
    if current.sealed {
        Version {
            number: current.number.saturating_add(1),
            sealed: false,
        }
    } else {
        current
    }
}

/// Takes in a flow into an object, in the room that was made for it.
pub fn enter(objects: &mut IndexMap<u32, Version, Salt>, object: u32)
    requires { 1 ≤ spare objects.old }
    ensures numbers { (version_or (get nat_eq objects.old object)).number < 2 ^ 64 - 1
        → (x : ℕ) → (version_or (get nat_eq objects.new x)).number ≡ (version_or (get nat_eq objects.old x)).number + cond ((object == x) && (version_or (get nat_eq objects.old x)).sealed) 1 0 }
    ensures seals { (x : ℕ) → (version_or (get nat_eq objects.new x)).sealed
        ≡ cond (object == x) false (version_or (get nat_eq objects.old x)).sealed }
    ensures room { spare objects.old ≤ spare objects.new + 1 }
{
    let version = entered(current_of(objects.get(&object)));
    set_version(objects, object, version);
}

/// Takes in a flow out of an object, in the room that was made for it, and gives the number of the version that it leaves.
pub fn leave(objects: &mut IndexMap<u32, Version, Salt>, object: u32) -> u64
    requires { 1 ≤ spare objects.old }
    ensures left { result ≡ (version_or (get nat_eq objects.new object)).number }
    ensures numbers { (x : ℕ) → (version_or (get nat_eq objects.new x)).number
        ≡ (version_or (get nat_eq objects.old x)).number }
    ensures seals { (x : ℕ) → (version_or (get nat_eq objects.new x)).sealed
        ≡ cond (object == x) true (version_or (get nat_eq objects.old x)).sealed }
    ensures room { spare objects.old ≤ spare objects.new + 1 }
{
    let current = current_of(objects.get(&object));
    let version = Version {
        number: current.number,
        sealed: true,
    };
    set_version(objects, object, version);
    version.number
}

/// Sets the current version of an object, in the room that was made for it.
fn set_version(objects: &mut IndexMap<u32, Version, Salt>, object: u32, version: Version)
    requires { 1 ≤ spare objects.old }
    ensures here { version_or (get nat_eq objects.new object) ≡ version }
    ensures others { (x : ℕ) → object ≢ x → get nat_eq objects.new x ≡ get nat_eq objects.old x }
    ensures room { spare objects.old ≤ spare objects.new + 1 }
{
    match objects.insert(object, version) {
        Ok(_) => {}
        Err(_) => unreachable!(),
    }
}
