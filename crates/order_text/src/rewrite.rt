//! Rewrites: what stands in a line in place of other bytes.
ghost use Rattle.std.specs.Prelude.{◌≡◌, ◌==◌, not};
ghost use Rattle.std.specs.List.{list_all};
ghost use Rattle.order_text.specs.Undo.{fits, fitting};

use crate::one_line::is_one_line;
use flow_base::Bytes;

/// A rewrite of what stands after the stamp of a line: this text in place of that many bytes at its beginning.
#[derive(Drop)]
pub struct Rewrite {
    pub len: usize,
    pub text: Bytes,
}

/// A rewrite of this text, if a mark can keep what it replaces.
pub fn fitting(change: Option<Rewrite>, rest: &[u8]) -> Option<Rewrite>
    ensures { result ≡ fitting change rest.now }
{
    match change {
        None => None,
        Some(rewrite) => {
            if fits(&rewrite, rest) {
                Some(rewrite)
            } else {
                None
            }
        }
    }
}

// Whether a mark can keep what a rewrite replaces: it is there, without the byte 0x1D, and the new text is a short one on one line.
fn fits(rewrite: &Rewrite, rest: &[u8]) -> bool
    ensures { result ≡ fits rewrite.now rest.now }
{
    let text = rewrite.text.as_slice();
    rewrite.len <= rest.len()
        && is_unmarked(&rest[..rewrite.len])
        && (text.len() as u64) < 4_294_967_296
        && is_one_line(text)
}

// Whether a text is without the byte 0x1D.
fn is_unmarked(text: &[u8]) -> bool
    ensures { result ≡ list_all (λ byte. not (byte == 29)) text.now }
{
    text.iter().all(|byte| *byte != 0x1d)
}
