//! The two parts of a text around a byte.
ghost use Rattle.std.specs.Prelude.{◌≡◌, ◌≤◌, length, option_map};
ghost use Rattle.std.specs.List.{position_or_len};
ghost use Rattle.memchr.specs.Find.{is_byte};
ghost use Rattle.report_json.specs.Reading.{cut_at};

use memchr::memchr;

// What stands before the first such byte and after it, if there is one.
pub fn parts_at(byte: u8, text: &[u8]) -> Option<(&[u8], &[u8])>
    ensures { option_map (λ parts. (parts.0.now, parts.1.now)) result ≡ cut_at byte text.now }
{
    let place = place_of(byte, text);
    if place == text.len() {
        return None;
    }
    Some((&text[..place], &text[place + 1..]))
}

// The place of the first such byte, or the length.
#[tactic(auto, using(crate::proofs::PlaceLemmas::found_at))]
fn place_of(byte: u8, text: &[u8]) -> usize
    ensures place { result ≡ position_or_len (is_byte byte) text.now }
    ensures within { result ≤ length text.now }
{
    match memchr(byte, text) {
        Some(place) => place,
        None => text.len(),
    }
}
