//! What the first flow of an object says of it.
ghost use Rattle.std.specs.Prelude.{◌≡◌, ◌↔◌, ◌==◌, ◌+◌, ◌<◌, ◌≤◌, ℕ, IsTrue, OnOk, cond, length, max};
ghost use Rattle.reduce_source.specs.declared.standing.Standing.TheVariants as variant;
ghost use Rattle.reduce_source.specs.Sets.{first_given, standing_at};

use flow_base::NoMemory;

const _: () = prove!(size_of::<Standing>() == 8);

/// Whether an object has a flow, and which way its first one goes.
#[derive(Clone, Copy, Debug, PartialEq, Eq)]
pub enum Standing {
    /// It has no flow.
    Unknown,
    /// Its first flow enters it.
    Entered,
    /// Its first flow leaves it, so it is a source, and has a number.
    Source { number: u32 },
}

/// The standing of an object.
pub fn standing_of(standings: &[Standing], object: usize) -> Standing
    ensures { result ≡ standing_at standings.now object }
{
    match standings.get(object) {
        None => Standing::Unknown,
        Some(standing) => *standing,
    }
}

/// Gives an object its standing at its first flow, and returns whether it was the first.
pub fn see(standings: &mut Vec<Standing>, object: usize, standing: Standing) -> bool
    requires { object < length standings.old.items }
    ensures first { IsTrue result ↔ (standing_at standings.old.items object ≡ variant.Unknown) }
    ensures standings { (x : ℕ)
        → standing_at standings.new.items x
        ≡ cond (object == x) (first_given (standing_at standings.old.items x) standing)
        (standing_at standings.old.items x) }
    ensures len { length standings.new.items ≡ length standings.old.items }
{
    match standings[object] {
        Standing::Unknown => {
            standings[object] = standing;
            true
        }
        Standing::Entered => false,
        Standing::Source { .. } => false,
    }
}

/// Makes places for this many objects.
pub fn grow(standings: &mut Vec<Standing>, objects: usize) -> Result<(), NoMemory>
    ensures room { OnOk result
        (length standings.new.items ≡ max (length standings.old.items) objects) }
    ensures most { length standings.new.items ≤ max (length standings.old.items) objects }
    ensures same { (x : ℕ) → standing_at standings.new.items x ≡ standing_at standings.old.items x }
{
    while standings.len() < objects {
        standings.push(Standing::Unknown)?;
    }
    Ok(())
}
