//! Kept rows that stand one after the other.
ghost use Rattle.std.specs.Prelude.{◌≡◌, ◌≤◌, ◌<◌, ℕ, length, slice_index_or};
ghost use Rattle.saved_rows.specs.Runs.{IsRunOf};
ghost use Rattle.saved_rows.specs.declared.runs.Run.{Run as ARun};

/// Kept rows that stand one after the other: the index of the first row, and the place of its Kept row.
#[derive(Clone, Copy, Debug, PartialEq, Eq)]
pub struct Run {
    pub first: u64,
    pub place: u64,
}

/// The run of the row at an index: the last one that doesn't begin after it.
pub fn run_of(runs: &[Run], index: u64) -> Run
    requires some { 0 < length runs.now }
    requires begun { (d : ARun) → (slice_index_or runs.now 0 d).first ≤ index }
    ensures { (k : ℕ) × IsRunOf runs.now index k
        × ((d : ARun) → result ≡ slice_index_or runs.now k d) }
{
    let mut low = 0;
    let mut high = runs.len();
    while high - low > 1 {
        let middle = low + (high - low) / 2;
        if runs[middle].first <= index {
            low = middle;
        } else {
            high = middle;
        }
    }
    runs[low]
}
