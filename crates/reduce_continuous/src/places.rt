//! Places that may be there.
ghost use Rattle.std.specs.Prelude.{◌≡◌, ◌↔◌, Some, IsTrue};
ghost use Rattle.std.specs.Option.{option_copied};
ghost use Rattle.reduce_continuous.specs.Tables.{IsAfter, later_run, raised};

/// The last row of a pair, and the place of its last flow.
#[derive(Clone, Copy, Debug, PartialEq, Eq)]
pub struct Run {
    pub row: u64,
    pub place: u64,
}

/// The greater of a place that may be there and another.
pub fn raise(last: Option<&u64>, place: u64) -> u64
    ensures { Some result ≡ raised (option_copied last.entry) place }
{
    match last {
        None => place,
        Some(last) => { if *last < place { place } else { *last } }
    }
}

/// The run that ends later.
pub fn later(old: Option<&Run>, run: Run) -> Run
    ensures { result ≡ later_run (option_copied old.entry) run }
{
    match old {
        None => run,
        Some(old) => { if old.place < run.place { run } else { *old } }
    }
}

/// Whether there is a place and it comes after another.
pub fn is_after(last: Option<&u64>, place: u64) -> bool
    ensures { IsTrue result ↔ IsAfter (option_copied last.entry) place }
{
    match last {
        None => false,
        Some(last) => place < *last,
    }
}
