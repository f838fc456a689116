//! The rows of a batch, once a commit has put it on the disk.
ghost use Rattle.std.specs.Prelude.{◌≡◌, ◌≤◌, ◌<◌, ◌+◌, ◌*◌, ◌++◌, ◌^◌, ℕ, List, length, map};
ghost use Rattle.std.specs.List.{All};
ghost use Rattle.row_codec.specs.declared.rows.StoreRow.TheVariants.{Extend};
ghost use Rattle.saved_rows.specs.Joining.{with_extends};
ghost use Rattle.saved_rows.specs.Saved.{AreSpelledFrom, HasRows};

use crate::reading::EXTEND;
use crate::remembered::Remembered;
use crate::saved::SavedRows;
use reach_rows::Row;
use row_codec::ExtendRow;

/// The Extend rows of a batch stand from a place on, one after the other.
pub fn put_extends(
    saved: &mut SavedRows,
    kept: Remembered,
    place: u64,
    extends: &[ExtendRow],
) -> Remembered
    requires room { length extends.now ≤ saved.old.ends_room }
    requires fits { place + 30 * length extends.now < 2 ^ 64 }
    requires rows { All (λ e. e.row < saved.old.count) extends.now }
    ensures kept { result.rows ≡ with_extends kept.rows extends.now }
    ensures there { (bytes : List ℕ) → HasRows bytes saved.old kept.rows
        → AreSpelledFrom bytes saved.old.cache.firm place (map Extend extends.now)
        → HasRows bytes saved.new result.rows }
    ensures count { saved.new.count ≡ saved.old.count }
    ensures cache { saved.new.cache ≡ saved.old.cache }
{
    let mut kept = kept;
    let mut at = place;
    for extend in extends {
        saved.add_extend(at, extend);
        kept = kept.and_extend(extend);
        at += EXTEND as u64;
    }
    kept
}

/// These rows are remembered after the others.
pub fn remember(kept: Remembered, rows: &[Row]) -> Remembered
    ensures { result.rows ≡ kept.rows ++ rows.now }
{
    let mut kept = kept;
    for row in rows {
        kept = kept.and_kept(row);
    }
    kept
}
