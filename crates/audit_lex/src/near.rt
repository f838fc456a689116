//! What is known of the next sixteen or 32 bytes by comparing them together.
ghost use Rattle.std.specs.Prelude.{◌≡◌, ◌==◌, ◌<◌, ◌≤◌, ℕ, true, false, length, take, slice_index};
ghost use Rattle.memchr.specs.Find.{is_byte2};
ghost use Rattle.audit_lex.specs.Stops.{stops_at};

use std::simd::prelude::*;

/// The place of the first such byte among the first sixteen, or 16.
pub(crate) fn place_in_sixteen(byte: u8, text: &[u8]) -> usize
    requires { 16 ≤ length text.now }
    ensures before { (k : ℕ) → k < result → (slice_index text.now k == byte) ≡ false }
    ensures there { result < 16 → (slice_index text.now result == byte) ≡ true }
    ensures within { result ≤ 16 }
{
    let marks = u8x16::from_slice(text)
        .simd_eq(u8x16::splat(byte))
        .to_bitmask();
    if marks == 0 {
        return 16;
    }
    marks.trailing_zeros() as usize
}

/// The place of the first such byte among the first 32, or 32.
#[inline(always)]
pub(crate) fn place_in_thirty_two(byte: u8, text: &[u8]) -> usize
    requires { 32 ≤ length text.now }
    ensures before { (k : ℕ) → k < result → (slice_index text.now k == byte) ≡ false }
    ensures there { result < 32 → (slice_index text.now result == byte) ≡ true }
    ensures within { result ≤ 32 }
{
    let equal = u8x32::from_slice(text)
        .simd_eq(u8x32::splat(byte))
        .to_bitmask();
    if equal == 0 {
        return 32;
    }
    equal.trailing_zeros() as usize
}

/// Whether a text begins with the first `len` of these bytes. All of them are compared together.
#[inline(always)]
pub(crate) fn begins_alike(bytes: &[u8; 32], len: usize, text: &[u8]) -> bool
    requires text { 32 ≤ length text.now }
    requires len { len ≤ 32 }
    ensures { result ≡ true → take len text.now ≡ take len bytes.now }
{
    let others = u8x32::from_slice(text)
        .simd_ne(u8x32::from_array(*bytes))
        .to_bitmask();
    others.trailing_zeros() as usize >= len
}

/// The place of the first of two bytes among the first sixteen, or 16.
pub(crate) fn place_of_either_in_sixteen(one: u8, other: u8, text: &[u8]) -> usize
    requires { 16 ≤ length text.now }
    ensures before { (k : ℕ) → k < result → is_byte2 one other (slice_index text.now k) ≡ false }
    ensures there { result < 16 → is_byte2 one other (slice_index text.now result) ≡ true }
    ensures within { result ≤ 16 }
{
    let bytes = u8x16::from_slice(text);
    let either = (bytes.simd_eq(u8x16::splat(one))
        | bytes.simd_eq(u8x16::splat(other))).to_bitmask();
    if either == 0 {
        return 16;
    }
    either.trailing_zeros() as usize
}

/// The place among the first sixteen of the first quote, or of the first space after which this byte stands, or 16.
pub(crate) fn place_of_stop_in_sixteen(first: u8, text: &[u8]) -> usize
    requires { 17 ≤ length text.now }
    ensures before { (k : ℕ) → k < result → stops_at first text.now k ≡ false }
    ensures there { result < 16 → stops_at first text.now result ≡ true }
    ensures within { result ≤ 16 }
{
    let bytes = u8x16::from_slice(text);
    let behind = u8x16::from_slice(&text[1..]);
    let starts = bytes.simd_eq(u8x16::splat(b' ')) & behind.simd_eq(u8x16::splat(first));
    let stops = (starts | bytes.simd_eq(u8x16::splat(b'"'))).to_bitmask();
    if stops == 0 {
        return 16;
    }
    stops.trailing_zeros() as usize
}
