//! Cuts at a byte.
ghost use Rattle.std.specs.Prelude.{◌≡◌, option_map};
ghost use Rattle.order_text.specs.Cut.{first_cut, last_cut};

use memchr::{memchr, memrchr};

/// What stands before the first such byte and after it.
pub fn at_first(byte: u8, text: &[u8]) -> Option<(&[u8], &[u8])>
    ensures { option_map (λ p. (p.0.now, p.1.now)) result ≡ first_cut byte text.now }
{
    match memchr(byte, text) {
        Some(place) => Some((&text[..place], &text[place + 1..])),
        None => None,
    }
}

/// The same, where the byte is likely to be near: there a plain loop costs less than a call of memchr.
pub fn at_near(byte: u8, text: &[u8]) -> Option<(&[u8], &[u8])>
    ensures { option_map (λ p. (p.0.now, p.1.now)) result ≡ first_cut byte text.now }
{
    for place in 0..text.len() {
        if text[place] == byte {
            return Some((&text[..place], &text[place + 1..]));
        }
    }
    None
}

/// What stands before the last such byte and after it.
pub fn at_last(byte: u8, text: &[u8]) -> Option<(&[u8], &[u8])>
    ensures { option_map (λ p. (p.0.now, p.1.now)) result ≡ last_cut byte text.now }
{
    match memrchr(byte, text) {
        Some(place) => Some((&text[..place], &text[place + 1..])),
        None => None,
    }
}
