//! The stamp of a line: its time and its serial number.
ghost use Rattle.std.specs.Prelude.{◌≡◌, Some, option_map, IfSome};
ghost use Rattle.order_text.specs.Stamp.{ms_from, ms_of, time_of, number_of, ends_as_header, stamp_of, stamp_from};
ghost use Rattle.order_text.specs.Seen.{stamp_seen};

use crate::cut::{at_first, at_near};
use audit_lex::{dec32, dec64};

/// A line in parts, with the time in milliseconds and the serial number that the texts spell.
#[derive(Clone, Copy)]
pub struct Stamp<'a> {
    pub front: &'a [u8],
    pub time: &'a [u8],
    pub serial: &'a [u8],
    pub rest: &'a [u8],
    pub ms: u64,
    pub number: u32,
}

/// The parts of a line that bears a time and a serial number.
pub fn read_stamp(line: &[u8]) -> Option<Stamp<'_>>
    ensures parts { option_map stamp_seen result ≡ stamp_of line.now }
    ensures time { IfSome result (λ stamp. time_of stamp.time.now ≡ Some stamp.ms) }
{
    let (front, text) = at_first(b'(', line)?;
    let (time, text) = at_near(b':', text)?;
    let (serial, rest) = at_near(b')', text)?;
    if !ends_as_header(front) {
        return None;
    }
    stamp_with(front, time, serial, rest)
}

// The parts of a line, if the texts spell a time and a number.
fn stamp_with<'a>(
    front: &'a [u8],
    time: &'a [u8],
    serial: &'a [u8],
    rest: &'a [u8],
) -> Option<Stamp<'a>>
    ensures parts { option_map stamp_seen result
        ≡ stamp_from front.now time.now serial.now rest.now (time_of time.now) (number_of serial.now) }
    ensures time { IfSome result (λ stamp. time_of stamp.time.now ≡ Some stamp.ms) }
{
    let (Some(ms), Some(number)) = (time_in(time), number_in(serial)) else {
        return None;
    };
    Some(Stamp {
        front,
        time,
        serial,
        rest,
        ms,
        number,
    })
}

// Whether a text ends as the words before a header's bracket do.
fn ends_as_header(front: &[u8]) -> bool
    ensures { result ≡ ends_as_header front.now }
{
    front.len() >= 9 && &front[front.len() - 9..] == b"msg=audit".as_slice()
}

// The milliseconds that a text spells. A text that spells some has only digits and dots, which needs no look of its own.
#[tactic(auto, using(crate::proofs::StampLemmas::time_spelled))]
fn time_in(text: &[u8]) -> Option<u64>
    ensures { result ≡ time_of text.now }
{
    let (seconds, millis) = at_near(b'.', text)?;
    ms_in(seconds, millis)
}

// The milliseconds of two texts of digits.
fn ms_in(seconds: &[u8], millis: &[u8]) -> Option<u64>
    ensures { result ≡ ms_of (seconds.now, millis.now) }
{
    if seconds.len() > 15 || millis.len() != 3 {
        return None;
    }
    ms_with(dec64(seconds), dec32(millis))
}

// Milliseconds, if both numbers are there and the seconds are few enough.
fn ms_with(seconds: Option<u64>, millis: Option<u32>) -> Option<u64>
    ensures { result ≡ ms_from seconds millis }
{
    match (seconds, millis) {
        (Some(seconds), Some(millis)) => {
            if seconds < 1_000_000_000_000_000 {
                Some(seconds * 1000 + u64::from(millis))
            } else {
                None
            }
        }
        _ => None,
    }
}

// The serial number that a text spells. A text that spells one has only digits.
#[tactic(auto, using(crate::proofs::StampLemmas::number_spelled))]
fn number_in(text: &[u8]) -> Option<u32>
    ensures { result ≡ number_of text.now }
{
    dec32(text)
}
