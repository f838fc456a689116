//! Where the parts of a line stand, so that its stamp needn't be read again.
ghost use Rattle.std.specs.Prelude.{◌≡◌, ℕ, List, Some, option_map, IfSome};
ghost use Rattle.order_text.specs.Stamp.{stamp_of, time_of};
ghost use Rattle.order_text.specs.Seen.{stamp_seen};
ghost use Rattle.order_queue.specs.Marks.{AreMarks, FitsLine, parts_at};

use order_text::Stamp;

/// The lengths of the parts of a line up to the end of its stamp, and what the stamp spells.
#[derive(Clone, Copy)]
pub struct Marks {
    pub front: usize,
    pub time: usize,
    pub serial: usize,
    pub ms: u64,
    pub number: u32,
}

/// Where the parts of a line stand, if it has a stamp.
pub fn marks_of(stamp: &Option<Stamp<'_>>) -> Option<Marks>
    ensures { (line : List ℕ) → option_map stamp_seen stamp.now ≡ stamp_of line
        → AreMarks result line }
{
    match stamp {
        Some(stamp) => Some(lengths_of(stamp)),
        None => None,
    }
}

// Where the parts of a line stand that has a stamp.
fn lengths_of(stamp: &Stamp<'_>) -> Marks
    ensures { (line : List ℕ) → Some (stamp_seen stamp.now) ≡ stamp_of line
        → AreMarks (Some result) line }
{
    Marks {
        front: stamp.front.len(),
        time: stamp.time.len(),
        serial: stamp.serial.len(),
        ms: stamp.ms,
        number: stamp.number,
    }
}

/// The parts of a line, which stand there.
pub fn stamp_at<'a>(line: &'a [u8], marks: Option<Marks>) -> Option<Stamp<'a>>
    requires { AreMarks marks line.now }
    ensures parts { option_map stamp_seen result ≡ stamp_of line.now }
    ensures time { IfSome result (λ stamp. time_of stamp.time.now ≡ Some stamp.ms) }
{
    match marks {
        Some(marks) => Some(parts_at(line, marks)),
        None => None,
    }
}

// The parts of a line by their lengths.
fn parts_at<'a>(line: &'a [u8], marks: Marks) -> Stamp<'a>
    requires { FitsLine marks line.now }
    ensures { stamp_seen result ≡ parts_at line.now marks }
{
    let (front, text) = (&line[..marks.front], &line[marks.front + 1..]);
    let (time, text) = (&text[..marks.time], &text[marks.time + 1..]);
    let (serial, rest) = (&text[..marks.serial], &text[marks.serial + 1..]);
    Stamp {
        front,
        time,
        serial,
        rest,
        ms: marks.ms,
        number: marks.number,
    }
}
