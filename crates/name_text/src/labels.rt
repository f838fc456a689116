//! The texts that people and JSON are shown of bytes that need not be text.
ghost use Rattle.std.specs.Prelude.{◌≡◌, IfOk, encode_utf8_all, string_bytes};
ghost use Rattle.bstr.specs.Utf8.{lossy_chars};

use bstr::ByteSlice;
use flow_base::NoMemory;
use std::alloc::Global;

/// The bytes as a text, with U+FFFD in place of each piece that is no UTF-8.
pub fn label(alloc: Global, bytes: &[u8]) -> Result<String, NoMemory>
    ensures { IfOk result (λ text. string_bytes text ≡ encode_utf8_all (lossy_chars bytes.now)) }
{
    let mut text = String::new(alloc);
    bytes.to_str_lossy_into(&mut text)?;
    Ok(text)
}
