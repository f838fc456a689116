//! Pieces of a text with a byte between each two.
ghost use Rattle.std.specs.Prelude.{◌≡◌, ◌++◌, OnOk, map};
ghost use Rattle.std.specs.List.{join_with_byte};

use std::alloc::AllocError;

// Appends the pieces to a text, with the byte between each two.
pub fn put_joined(text: &mut Vec<u8>, byte: u8, pieces: &[&[u8]]) -> Result<(), AllocError>
    ensures { OnOk result (text.new.items
        ≡ text.old.items ++ join_with_byte byte (map (λ p. p.now) pieces.now)) }
{
    for (index, piece) in pieces.iter().enumerate() {
        if index > 0 {
            text.push(byte)?;
        }
        text.extend_from_slice(piece)?;
    }
    Ok(())
}
