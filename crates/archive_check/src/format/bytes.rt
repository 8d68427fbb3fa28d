//! Numbers and texts in bytes, as rkyv 0.8.18 has them. Positions are in bytes from the buffer's first one.
#![tactic(auto, unfolding(crate::specs::Reads::bytes_at, crate::specs::Reads::u32_at, crate::specs::Reads::i32_at, crate::specs::Reads::decoded_length))]

ghost use Rattle.std.specs.Prelude.{◌≡◌, ◌↔◌, ◌+◌, ◌<◌, ◌≤◌, length, take, pos, ◌+ℤ◌, IsTrue, IsUtf8, IsAscii, if◌then◌else◌, ◌==◌};
ghost use Rattle.std.specs.Int.{w16, w64, w128, from_le_bytes, trailing_zeros};
ghost use Rattle.archive_check.specs.Reads.{bytes_at, u32_at, i32_at, before_end, decoded_length, IsOutOfLine};
ghost use Rattle.archive_check.specs.Readable.{target_from};

use std::simd::prelude::*;

/// The number in the four bytes at `p`, the lowest first. The caller must ensure that they lie in
/// the buffer.
pub fn read_u32(bytes: &[u8], p: usize) -> u32
    requires { p + 4 ≤ length bytes.now }
    ensures { result ≡ u32_at bytes.now p }
{
    let mut raw = [0; 4];
    raw.copy_from_slice(&bytes[p..p + 4]);
    u32::from_le_bytes(raw)
}

// The number in the two bytes at `p`.
pub(super) fn read_u16(bytes: &[u8], p: usize) -> u16
    requires { p + 2 ≤ length bytes.now }
    ensures { result ≡ from_le_bytes w16 (bytes_at bytes.now p 2) }
{
    let mut raw = [0; 2];
    raw.copy_from_slice(&bytes[p..p + 2]);
    u16::from_le_bytes(raw)
}

// The number in the eight bytes at `p`.
pub(super) fn read_u64(bytes: &[u8], p: usize) -> u64
    requires { p + 8 ≤ length bytes.now }
    ensures { result ≡ from_le_bytes w64 (bytes_at bytes.now p 8) }
{
    let mut raw = [0; 8];
    raw.copy_from_slice(&bytes[p..p + 8]);
    u64::from_le_bytes(raw)
}

// The number in the sixteen bytes at `p`.
pub(super) fn read_u128(bytes: &[u8], p: usize) -> u128
    requires { p + 16 ≤ length bytes.now }
    ensures { result ≡ from_le_bytes w128 (bytes_at bytes.now p 16) }
{
    let mut raw = [0; 16];
    raw.copy_from_slice(&bytes[p..p + 16]);
    u128::from_le_bytes(raw)
}

/// The signed number in the four bytes at `p`, the lowest first, in two's complement. The caller
/// must ensure that they lie in the buffer.
pub fn read_i32(bytes: &[u8], p: usize) -> i32
    requires { p + 4 ≤ length bytes.now }
    ensures { result ≡ i32_at bytes.now p }
{
    i32::from_le_bytes([bytes[p], bytes[p + 1], bytes[p + 2], bytes[p + 3]])
}

/// Where the offset at `p` leads, counted from `q`, be it in the buffer or not. The caller must
/// ensure that the four bytes lie in the buffer.
pub fn read_position(bytes: &[u8], q: usize, p: usize) -> i128
    requires { p + 4 ≤ length bytes.now }
    ensures { result ≡ pos q +ℤ i32_at bytes.now p }
{
    q as i128 + read_i32(bytes, p) as i128
}

/// Where the offset in the four bytes at `p` leads, which counts from `q`. The caller must ensure
/// that the four bytes lie in the buffer, and that the offset leads into it or to its end.
pub fn read_target(bytes: &[u8], q: usize, p: usize) -> usize
    requires within { p + 4 ≤ length bytes.now }
    requires lands { pos q +ℤ i32_at bytes.now p ≡ pos (target_from bytes.now q p) }
    requires fits { target_from bytes.now q p ≤ length bytes.now }
    ensures { result ≡ target_from bytes.now q p }
{
    let offset = read_i32(bytes, p);
    if offset < 0 {
        q - offset.unsigned_abs() as usize
    } else {
        q + offset.unsigned_abs() as usize
    }
}

/// Whether the string at `p` says that its text is elsewhere: the top two bits of its first byte
/// are 10. The caller must ensure that this byte lies in the buffer.
pub fn is_out_of_line(bytes: &[u8], p: usize) -> bool
    requires { p < length bytes.now }
    ensures { IsTrue result ↔ IsOutOfLine bytes.now p }
{
    bytes[p] & 0xc0 == 0x80
}

/// The length in bytes that the first four bytes of the out-of-line string at `p` code. The caller
/// must ensure that they lie in the buffer.
pub fn read_coded_length(bytes: &[u8], p: usize) -> usize
    requires { p + 4 ≤ length bytes.now }
    ensures { result ≡ decoded_length (u32_at bytes.now p) }
{
    let code = read_u32(bytes, p) as usize;
    code % 64 + code / 256 * 64
}

// The place of the first of the eight lanes that are set in the mask; 8 where none is.
#[inline(always)]
fn first_set(mask: u64) -> usize
    ensures { result ≡ if mask == 0 then 8 else trailing_zeros w64 mask }
{
    if mask == 0 {
        return 8;
    }
    mask.trailing_zeros() as usize
}

/// How many of the eight bytes at `p` come before the first 0xff; 8 if there is none. The caller
/// must ensure that they lie in the buffer.
#[inline(always)]
pub fn inline_length(bytes: &[u8], p: usize) -> usize
    requires { p + 8 ≤ length bytes.now }
    ensures short { result ≤ 8 }
    ensures text { bytes_at bytes.now p result ≡ before_end (bytes_at bytes.now p 8) }
{
    let ends = u8x8::from_slice(&bytes[p..]).simd_eq(u8x8::splat(0xff));
    first_set(ends.to_bitmask())
}

// How many of the eight bytes at `p` stand before the first that isn't ASCII; 8 where there is none.
#[inline(always)]
fn ascii_length(bytes: &[u8], p: usize) -> usize
    requires { p + 8 ≤ length bytes.now }
    ensures { IsAscii (bytes_at bytes.now p result) }
{
    let others = u8x8::from_slice(&bytes[p..]).simd_ge(u8x8::splat(0x80));
    first_set(others.to_bitmask())
}

// Whether the `N` bytes at `p` are ASCII.
#[inline(always)]
fn are_ascii<const N: usize>(bytes: &[u8], p: usize) -> bool
    requires few { N ≤ 64 }
    requires fits { p + N ≤ length bytes.now }
    ensures { IsTrue result → IsAscii (bytes_at bytes.now p N) }
{
    let others = Simd::<u8, N>::from_slice(&bytes[p..]).simd_ge(Simd::splat(0x80));
    others.to_bitmask() == 0
}

// Whether the first `N` and the last `N` of the `n` bytes at `p` are ASCII, and so all of them: the
// two vectors meet or overlap.
#[inline(always)]
fn are_ends_ascii<const N: usize>(bytes: &[u8], p: usize, n: usize) -> bool
    requires few { N ≤ 64 }
    requires meet { (N ≤ n) × (n ≤ N + N) }
    requires fits { p + n ≤ length bytes.now }
    ensures { IsTrue result → IsAscii (bytes_at bytes.now p n) }
{
    are_ascii::<N>(bytes, p) && are_ascii::<N>(bytes, p + n - N)
}

// Whether the `n` bytes at `p` are known to be ASCII at once, as most short texts are.
#[inline(always)]
fn is_short_ascii(bytes: &[u8], p: usize, n: usize) -> bool
    requires { p + n ≤ length bytes.now }
    ensures { IsTrue result → IsAscii (bytes_at bytes.now p n) }
{
    match n {
        8..=16 => are_ends_ascii::<8>(bytes, p, n),
        17..=32 => are_ends_ascii::<16>(bytes, p, n),
        _ => false,
    }
}

// The bits that any of the bytes has: below 128 where each byte is ASCII.
#[inline(always)]
fn any_bits(bytes: &[u8]) -> u8
    ensures { result < 128 → IsAscii bytes.now }
{
    let mut bits = 0;
    for k in 0..bytes.len() {
        bits |= bytes[k];
    }
    bits
}

// How many bytes at the front stand in pieces of 512 that are ASCII.
#[inline(always)]
fn ascii_pieces(bytes: &[u8]) -> usize
    ensures within { result ≤ length bytes.now }
    ensures ascii { IsAscii (take result bytes.now) }
{
    let mut at = 0;
    while bytes.len() - at >= 512 {
        if any_bits(&bytes[at..at + 512]) >= 0x80 {
            break;
        }
        at += 512;
    }
    at
}

// Whether the bytes are UTF-8.
#[inline(always)]
fn is_utf8(bytes: &[u8]) -> bool
    ensures { IsTrue result ↔ IsUtf8 bytes.now }
{
    simdutf8::basic::from_utf8(bytes).is_ok()
}

// The same, where pieces of ASCII at the front are gone over faster.
#[inline(always)]
fn is_long_utf8(bytes: &[u8]) -> bool
    ensures { IsTrue result ↔ IsUtf8 bytes.now }
{
    is_utf8(&bytes[ascii_pieces(bytes)..])
}

// Whether the `n` bytes at `p` are UTF-8, as a call.
fn is_any_text(bytes: &[u8], p: usize, n: usize) -> bool
    requires { p + n ≤ length bytes.now }
    ensures { IsTrue result ↔ IsUtf8 (bytes_at bytes.now p n) }
{
    is_long_utf8(&bytes[p..p + n])
}

/// Whether the `n` bytes at `p` are UTF-8. The caller must ensure that they lie in the buffer.
#[inline(always)]
pub fn is_text(bytes: &[u8], p: usize, n: usize) -> bool
    requires { p + n ≤ length bytes.now }
    ensures { IsTrue result ↔ IsUtf8 (bytes_at bytes.now p n) }
{
    is_short_ascii(bytes, p, n) || is_any_text(bytes, p, n)
}

/// Whether the inline string at `p` is UTF-8: those of its eight bytes before the first 0xff. The
/// caller must ensure that the eight lie in the buffer.
#[inline(always)]
pub fn is_inline_text(bytes: &[u8], p: usize) -> bool
    requires { p + 8 ≤ length bytes.now }
    ensures { IsTrue result ↔ IsUtf8 (before_end (bytes_at bytes.now p 8)) }
{
    let length = inline_length(bytes, p);
    ascii_length(bytes, p) == length || is_any_text(bytes, p, length)
}

/// The `n` bytes at `p` as a text. The caller must ensure that they lie in the buffer and are
/// UTF-8, as after `is_text` returned true.
pub fn read_text(bytes: &[u8], p: usize, n: usize) -> &str
    requires within { p + n ≤ length bytes.now }
    requires utf8 { IsUtf8 (bytes_at bytes.now p n) }
    ensures { result.now ≡ bytes_at bytes.now p n }
{
    unsafe { str::from_utf8_unchecked(&bytes[p..p + n]) }
}
