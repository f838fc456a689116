//! The mode that a PATH record has.
ghost use Rattle.std.specs.Prelude.{◌≡◌};
ghost use Rattle.order_calls.specs.Lines.{has_file_mode, is_file_mode, allows_after, is_octal, ends_word};

use order_text::at_first;

/// Whether a word of a line is the mode of a regular file.
pub fn has_file_mode(line: &[u8]) -> bool
    ensures { result ≡ has_file_mode line.now }
{
    let mut text = line;
    while let Some((_, rest)) = at_first(b' ', text) {
        if is_file_mode(rest) {
            return true;
        }
        text = rest;
    }
    false
}

// Whether a text begins with the mode of a regular file. The kernel writes a mode as 0 and its octal digits; the type of a file is
// what stands above the last four of them, which say what the mode allows, beside the bits for setuid, setgid and sticky.
fn is_file_mode(text: &[u8]) -> bool
    ensures { result ≡ is_file_mode text.now }
{
    match text.strip_prefix(b"mode=010") {
        Some(rest) => allows_after(rest),
        None => false,
    }
}

// Whether four octal digits are the rest of a word.
fn allows_after(text: &[u8]) -> bool
    ensures { result ≡ allows_after text.now }
{
    match text {
        [a, b, c, d, rest @ ..] => {
            is_octal(*a) && is_octal(*b) && is_octal(*c) && is_octal(*d) && ends_word(rest)
        }
        _ => false,
    }
}

fn is_octal(byte: u8) -> bool
    ensures { result ≡ is_octal byte }
{
    b'0' <= byte && byte <= b'7'
}

// Whether a word has ended before this text.
fn ends_word(text: &[u8]) -> bool
    ensures { result ≡ ends_word text.now }
{
    match text {
        [] => true,
        [byte, ..] => *byte == b' ',
    }
}
