//! Laws: a commit leaves saved rows where they are, and the rows of a payload follow one another.
ghost use Rattle.std.specs.Prelude.{◌≡◌, ◌≤◌, ◌+◌, ℕ, List, length, take};
ghost use Rattle.std.specs.List.{All, flat_map};
ghost use Rattle.block_cache.specs.Cached.{range};
ghost use Rattle.reach_rows.specs.declared.rows.Row.{Row};
ghost use Rattle.row_codec.specs.Rows.{Fits, row as spelling};
ghost use Rattle.row_codec.specs.declared.rows.StoreRow.{StoreRow};
ghost use Rattle.saved_rows.specs.Saved.{AreSpelledFrom, HasRows, Saved, with_firm};

/// A disk that reads the same before the firm place, as it does after a commit, has the same rows. With
/// a later firm place it has them too.
pub fn saved_rows_outlive_commits()
    ensures kept { (old new : List ℕ) (saved : Saved) (R : List Row) → HasRows old saved R
        → take saved.cache.firm new ≡ take saved.cache.firm old → HasRows new saved R }
    ensures raised { (bytes : List ℕ) (saved : Saved) (R : List Row) (firm : ℕ)
        → HasRows bytes saved R → saved.cache.firm ≤ firm
        → HasRows bytes (with_firm firm saved) R }
{}

/// Rows whose spellings are a piece of the bytes, as those of a payload, stand there one after the other.
pub fn rows_of_a_payload_stand_in_a_row()
    ensures { (bytes : List ℕ) (firm at : ℕ) (rows : List StoreRow) → All Fits rows
        → range at (length (flat_map spelling rows)) bytes ≡ flat_map spelling rows
        → at + length (flat_map spelling rows) ≤ firm → AreSpelledFrom bytes firm at rows }
{}
