//! Numbers and words, by the values of their fields.
//!
//! The answer is `None` if the value isn't spelled so, or if it isn't there and must be.
ghost use Rattle.std.specs.Prelude.{◌≡◌, option_map};
ghost use Rattle.std.specs.Option.{option_and_then};
ghost use Rattle.audit_lex.specs.Values.{dec32_of, dec64_of, signed_of, hex32_of, hex64_of};
ghost use Rattle.audit_lex.specs.Values.{device_of, handle_of, yesno_of};
ghost use Rattle.audit_lex.specs.LineFields.{reads_if_there};

use audit_lex::{dec32, dec64, device, handle, hex32, hex64, signed, yesno};
use flow_base::Device;

/// A number that must be there.
pub fn needed_dec32(value: Option<&[u8]>) -> Option<u32>
    ensures { result ≡ option_and_then dec32_of (option_map (λ text. text.now) value.entry) }
{
    dec32(value?)
}

/// A hex number that must be there.
pub fn needed_hex32(value: Option<&[u8]>) -> Option<u32>
    ensures { result ≡ option_and_then hex32_of (option_map (λ text. text.now) value.entry) }
{
    hex32(value?)
}

/// A hex number of 64 bits that must be there.
pub fn needed_hex64(value: Option<&[u8]>) -> Option<u64>
    ensures { result ≡ option_and_then hex64_of (option_map (λ text. text.now) value.entry) }
{
    hex64(value?)
}

/// A handle that must be there.
pub fn needed_handle(value: Option<&[u8]>) -> Option<u32>
    ensures { result ≡ option_and_then handle_of (option_map (λ text. text.now) value.entry) }
{
    handle(value?)
}

/// `yes` or `no`, if it is there.
pub fn offered_yesno(value: Option<&[u8]>) -> Option<Option<bool>>
    ensures { result ≡ reads_if_there yesno_of (option_map (λ text. text.now) value.entry) }
{
    match value {
        Some(text) => Some(Some(yesno(text)?)),
        None => Some(None),
    }
}

/// A signed number, if it is there.
pub fn offered_signed(value: Option<&[u8]>) -> Option<Option<i64>>
    ensures { result ≡ reads_if_there signed_of (option_map (λ text. text.now) value.entry) }
{
    match value {
        Some(text) => Some(Some(signed(text)?)),
        None => Some(None),
    }
}

/// A number of 64 bits, if it is there.
pub fn offered_dec64(value: Option<&[u8]>) -> Option<Option<u64>>
    ensures { result ≡ reads_if_there dec64_of (option_map (λ text. text.now) value.entry) }
{
    match value {
        Some(text) => Some(Some(dec64(text)?)),
        None => Some(None),
    }
}

/// A device, if it is there.
pub fn offered_device(value: Option<&[u8]>) -> Option<Option<Device>>
    ensures { result ≡ reads_if_there device_of (option_map (λ text. text.now) value.entry) }
{
    match value {
        Some(text) => Some(Some(device(text)?)),
        None => Some(None),
    }
}
