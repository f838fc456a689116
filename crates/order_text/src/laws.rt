//! What lines promise as they are written, for callers to use. The functions do nothing; their contracts are laws.
ghost use Rattle.std.specs.Prelude.{◌≡◌, ℕ, List, Option, Some};
ghost use Rattle.order_text.specs.Stamp.{stamp_of, time_of};
ghost use Rattle.order_text.specs.Laws.{IsOneLine, StaysAfter};
ghost use Rattle.order_text.specs.Undo.{undone, written_after, is_rewritten, takes_rewrite};
ghost use Rattle.order_text.specs.declared.rewrite.Rewrite.{Rewrite};

/// A line as it is written is undone to the line as it was, whatever bytes it has and whatever is rewritten in it.
pub fn written_lines_are_undone()
    ensures { (time : List ℕ) (ms : ℕ) (line : List ℕ) (change : Option Rewrite)
        → time_of time ≡ Some ms → undone (written_after time ms line change) ≡ line }
{}

/// A line as it is written has its serial number, its node and its type, and the greater of the two times.
pub fn written_lines_bear_their_stamp()
    ensures { (time : List ℕ) (ms : ℕ) (line : List ℕ) (change : Option Rewrite)
        → time_of time ≡ Some ms → StaysAfter ms line (written_after time ms line change) }
{}

/// A line as it is written has a line feed only if the line has one.
pub fn written_lines_are_one_line()
    ensures { (time : List ℕ) (ms : ℕ) (line : List ℕ) (change : Option Rewrite)
        → time_of time ≡ Some ms → IsOneLine line → IsOneLine (written_after time ms line change) }
{}

/// A line as it is written says whether a part of it was rewritten.
pub fn rewritten_lines_are_told()
    ensures { (time : List ℕ) (ms : ℕ) (line : List ℕ) (change : Option Rewrite)
        → time_of time ≡ Some ms
        → is_rewritten (written_after time ms line change) ≡ takes_rewrite change (stamp_of line) }
{}
