//! Numbers in question lines: decimal digits, with or without leading zeros.
ghost use Rattle.std.specs.Prelude.{◌≡◌, true, ◌<◌, ◌≤◌, ◌^◌, length, IfSome};
ghost use Rattle.std.specs.List.{list_all};
ghost use Rattle.std.specs.Char.{is_ascii_digit};
ghost use Rattle.std.specs.Str.Parse.{digits_value};
ghost use Rattle.report_json.specs.Reading.{number_of, id_of, time_of};

use crate::parts::parts_at;
use flow_base::EntityId;

// The most digits of a number of bytes, and of seconds.
const LONG: usize = 15;

// The number of bytes that 1 to 15 digits spell.
pub fn count(text: &[u8]) -> Option<u64>
    ensures { result ≡ number_of 15 text.now }
{
    number(text, LONG)
}

// The object whose number 1 to 10 digits spell.
pub fn id(text: &[u8]) -> Option<EntityId>
    ensures { result ≡ id_of text.now }
{
    let value = number(text, 10)?;
    if value > u64::from(u32::MAX) {
        return None;
    }
    Some(EntityId(value as u32))
}

// The milliseconds that 1 to 15 digits, a point and 3 digits spell as seconds.
pub fn time(text: &[u8]) -> Option<u64>
    ensures { result ≡ time_of text.now }
{
    let (seconds, millis) = parts_at(b'.', text)?;
    if millis.len() != 3 {
        return None;
    }
    let seconds = number(seconds, LONG)?;
    let millis = number(millis, 3)?;
    Some(seconds * 1000 + millis)
}

// The number that one to `most` digits spell.
#[tactic(auto, using(crate::proofs::DigitLemmas::few_are_small))]
fn number(text: &[u8], most: usize) -> Option<u64>
    requires { most ≤ 15 }
    ensures value { result ≡ number_of most text.now }
    ensures small { IfSome result (λ value. value < 10 ^ 15) }
{
    if text.is_empty() || text.len() > most || !only_digits(text) {
        return None;
    }
    Some(value_of(text))
}

// Whether each byte is a decimal digit.
fn only_digits(text: &[u8]) -> bool
    ensures { result ≡ list_all is_ascii_digit text.now }
{
    text.iter().all(|byte| byte.is_ascii_digit())
}

// The value of up to fifteen digits.
#[tactic(auto, using(crate::proofs::DigitLemmas::digit_step))]
fn value_of(text: &[u8]) -> u64
    requires digits { list_all is_ascii_digit text.now ≡ true }
    requires few { length text.now ≤ 15 }
    ensures { result ≡ digits_value 10 text.now }
{
    let mut value: u64 = 0;
    for byte in text {
        value = 10 * value + u64::from(*byte - b'0');
    }
    value
}
