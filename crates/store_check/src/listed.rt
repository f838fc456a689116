//! The tail of a State, and the malformed lines that it lists.
ghost use Rattle.std.specs.Prelude.{◌↔◌, IsTrue, All};
ghost use Rattle.store_check.specs.Conditions.{HasTail, HasListed, Ascend, IsLine};

use flow_base::Bad;
use row_codec::StateRow;

/// Whether the tail of a State may be the prefix of a line: short, without a line feed, and empty
/// if the line is too long.
pub fn has_tail(line: usize, state: &StateRow) -> bool
    ensures { IsTrue result ↔ HasTail line state.now }
{
    let tail = state.tail.as_slice();
    tail.len() <= line && !tail.contains(&10) && (!state.long || tail.is_empty())
}

/// Whether the malformed lines of a State are few, ascend and have numbers of lines.
pub fn has_listed(shown: usize, state: &StateRow) -> bool
    ensures { IsTrue result ↔ HasListed shown state.now }
{
    let listed = state.bad.as_slice();
    listed.len() <= shown && ascend(listed) && are_lines(listed, state.lines)
}

/// Whether the numbers of malformed lines ascend.
fn ascend(listed: &[Bad]) -> bool
    ensures { IsTrue result ↔ Ascend listed.now }
{
    for i in 1..listed.len() {
        if listed[i - 1].line >= listed[i].line {
            return false;
        }
    }
    true
}

/// Whether malformed lines have numbers of lines.
fn are_lines(listed: &[Bad], lines: u64) -> bool
    ensures { IsTrue result ↔ All (IsLine lines) listed.now }
{
    listed.iter().all(|bad| 1 <= bad.line && bad.line <= lines)
}
