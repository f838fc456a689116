//! Texts without a line feed.
ghost use Rattle.std.specs.Prelude.{◌≡◌};
ghost use Rattle.order_text.specs.Laws.{is_one_line};

/// Whether no byte of a text is a line feed.
pub fn is_one_line(text: &[u8]) -> bool
    ensures { result ≡ is_one_line text.now }
{
    text.iter().all(|byte| *byte != b'\n')
}
