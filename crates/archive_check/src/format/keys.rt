//! The keys of sorted maps: their size, and their order in the buffer.
#![tactic(auto, using(crate::proofs::Maps::KeyOrder::key_order), unfolding(crate::specs::Reads::bytes_at, crate::specs::Reads::u32_at, crate::specs::Reads::i32_at, crate::specs::Reads::kind_value, crate::specs::Reads::kind_number))]

ghost use Rattle.std.specs.Prelude.{◌≡◌, ◌↔◌, ◌+◌, ◌≤◌, length, IfSome, IsTrue};
ghost use Rattle.std.specs.Int.{w8, w16, w64, w128, byte_len, from_le_bytes, cast_signed};
ghost use Rattle.std.specs.declared.cmp.Ordering.TheVariants.{Less};
ghost use Rattle.std.specs.Ordering.{int_cmp};
ghost use Rattle.archive_check.specs.Expressions.{integer_of, kind_of, key_of};
ghost use Rattle.archive_check.specs.Layout.{kind_size, kind_align, key_size, key_align};
ghost use Rattle.archive_check.specs.Reads.{bytes_at, u32_at, decoded_length, with_sign, kind_value};
ghost use Rattle.archive_check.specs.Readable.{target_from, string_text};
ghost use Rattle.archive_check.specs.Keys.{key_cmp, ComesBehind};

use crate::format::bytes::{
    inline_length, is_out_of_line, read_coded_length, read_i32, read_position, read_u16, read_u32,
    read_u64, read_u128,
};
use crate::format::expr::{IntegerKind, Key, Kind};
use crate::format::order::text_order;

// The number in the byte at `p`.
#[inline(always)]
fn read_u8(bytes: &[u8], p: usize) -> u8
    requires { p + 1 ≤ length bytes.now }
    ensures { result ≡ from_le_bytes w8 (bytes_at bytes.now p 1) }
{
    let mut raw = [0; 1];
    raw.copy_from_slice(&bytes[p..p + 1]);
    u8::from_le_bytes(raw)
}

// The signed number in the byte at `p`.
#[inline(always)]
fn read_i8(bytes: &[u8], p: usize) -> i8
    requires { p + 1 ≤ length bytes.now }
    ensures { result ≡ cast_signed w8 (from_le_bytes w8 (bytes_at bytes.now p 1)) }
{
    let mut raw = [0; 1];
    raw.copy_from_slice(&bytes[p..p + 1]);
    i8::from_le_bytes(raw)
}

// The signed number in the two bytes at `p`.
#[inline(always)]
fn read_i16(bytes: &[u8], p: usize) -> i16
    requires { p + 2 ≤ length bytes.now }
    ensures { result ≡ cast_signed w16 (from_le_bytes w16 (bytes_at bytes.now p 2)) }
{
    let mut raw = [0; 2];
    raw.copy_from_slice(&bytes[p..p + 2]);
    i16::from_le_bytes(raw)
}

// The signed number in the eight bytes at `p`.
#[inline(always)]
fn read_i64(bytes: &[u8], p: usize) -> i64
    requires { p + 8 ≤ length bytes.now }
    ensures { result ≡ cast_signed w64 (from_le_bytes w64 (bytes_at bytes.now p 8)) }
{
    let mut raw = [0; 8];
    raw.copy_from_slice(&bytes[p..p + 8]);
    i64::from_le_bytes(raw)
}

// The signed number in the sixteen bytes at `p`.
#[inline(always)]
fn read_i128(bytes: &[u8], p: usize) -> i128
    requires { p + 16 ≤ length bytes.now }
    ensures { result ≡ cast_signed w128 (from_le_bytes w128 (bytes_at bytes.now p 16)) }
{
    let mut raw = [0; 16];
    raw.copy_from_slice(&bytes[p..p + 16]);
    i128::from_le_bytes(raw)
}

// Whether the number at `first` is below the one at `second`.
#[inline(always)]
fn numbers_ascend(integer: IntegerKind, bytes: &[u8], first: usize, second: usize) -> bool
    requires front { first + byte_len (integer_of integer).1 ≤ length bytes.now }
    requires back { second + byte_len (integer_of integer).1 ≤ length bytes.now }
    ensures { IsTrue result ↔ int_cmp (with_sign (integer_of integer).0 (integer_of integer).1
        (from_le_bytes (integer_of integer).1 (bytes_at bytes.now first
        (byte_len (integer_of integer).1)))) (with_sign (integer_of integer).0
        (integer_of integer).1 (from_le_bytes (integer_of integer).1
        (bytes_at bytes.now second (byte_len (integer_of integer).1)))) ≡ Less }
{
    match integer {
        IntegerKind::U8 => read_u8(bytes, first) < read_u8(bytes, second),
        IntegerKind::I8 => read_i8(bytes, first) < read_i8(bytes, second),
        IntegerKind::U16 => read_u16(bytes, first) < read_u16(bytes, second),
        IntegerKind::I16 => read_i16(bytes, first) < read_i16(bytes, second),
        IntegerKind::U32 => read_u32(bytes, first) < read_u32(bytes, second),
        IntegerKind::I32 => read_i32(bytes, first) < read_i32(bytes, second),
        IntegerKind::U64 => read_u64(bytes, first) < read_u64(bytes, second),
        IntegerKind::I64 => read_i64(bytes, first) < read_i64(bytes, second),
        IntegerKind::U128 => read_u128(bytes, first) < read_u128(bytes, second),
        IntegerKind::I128 => read_i128(bytes, first) < read_i128(bytes, second),
    }
}

// Whether the leaf at `first` is below the one at `second`, by their values.
#[inline(always)]
fn leaves_ascend(kind: Kind, bytes: &[u8], first: usize, second: usize) -> bool
    requires front { first + kind_size (kind_of kind) ≤ length bytes.now }
    requires back { second + kind_size (kind_of kind) ≤ length bytes.now }
    ensures { IsTrue result ↔
        int_cmp (kind_value (kind_of kind) (bytes_at bytes.now first (kind_size (kind_of kind))))
        (kind_value (kind_of kind) (bytes_at bytes.now second (kind_size (kind_of kind)))) ≡ Less }
{
    match kind {
        Kind::Unit => false,
        Kind::Bool => read_u8(bytes, first) < read_u8(bytes, second),
        Kind::Char => read_u32(bytes, first) < read_u32(bytes, second),
        Kind::Number(integer) | Kind::NonZero(integer) | Kind::RawRel(integer) => numbers_ascend(
            integer, bytes, first, second,
        ),
    }
}

// As many of the `n` bytes at `p` as lie in the buffer.
#[inline(always)]
fn bytes_within(bytes: &[u8], p: usize, n: usize) -> &[u8]
    ensures { result.now ≡ bytes_at bytes.now p n }
{
    let begin = p.min(bytes.len());
    let rest = &bytes[begin..];
    &rest[..n.min(rest.len())]
}

// The text that the out-of-line string at `p` leads to, as much of it as lies in the buffer.
#[inline(always)]
fn text_elsewhere(bytes: &[u8], p: usize) -> &[u8]
    requires { p + 8 ≤ length bytes.now }
    ensures { result.now ≡ bytes_at bytes.now (target_from bytes.now p (p + 4))
        (decoded_length (u32_at bytes.now p)) }
{
    prove!(bytes.len() <= usize::MAX);
    let position = read_position(bytes, p, p + 4);
    if position >= bytes.len() as i128 {
        return bytes_within(bytes, bytes.len(), 0);
    }
    bytes_within(bytes, position.max(0) as usize, read_coded_length(bytes, p))
}

/// The text of the string at `p`, inline or not: as much of it as lies in the buffer. The caller
/// must ensure that the string's eight bytes do. It isn't tested to be UTF-8.
#[inline(always)]
pub fn key_text(bytes: &[u8], p: usize) -> &[u8]
    requires { p + 8 ≤ length bytes.now }
    ensures { result.now ≡ string_text bytes.now p }
{
    if is_out_of_line(bytes, p) {
        return text_elsewhere(bytes, p);
    }
    &bytes[p..p + inline_length(bytes, p)]
}

impl Key {
    /// How many bytes it has in an entry.
    pub fn size(self) -> usize
        ensures { result ≡ key_size (key_of self) }
    {
        match self {
            Key::Leaf(kind) => kind.size(),
            Key::Str => 8,
        }
    }

    /// Its alignment in bytes.
    pub fn align(self) -> usize
        ensures { result ≡ key_align (key_of self) }
    {
        match self {
            Key::Leaf(kind) => kind.align(),
            Key::Str => 4,
        }
    }

    /// Whether the key at `first` is below the one at `second`: leaves by their values, strings by the bytes of their texts. Asks that both lie in the
    /// buffer.
    #[inline(always)]
    pub fn ascends(self, bytes: &[u8], first: usize, second: usize) -> bool
        requires front { first + key_size (key_of self) ≤ length bytes.now }
        requires back { second + key_size (key_of self) ≤ length bytes.now }
        ensures { IsTrue result ↔ key_cmp (key_of self) bytes.now first second ≡ Less }
    {
        match self {
            Key::Leaf(kind) => leaves_ascend(kind, bytes, first, second),
            Key::Str => text_order(key_text(bytes, first), key_text(bytes, second)).is_lt(),
        }
    }

    /// Whether the key at `at` comes behind the one at `before`, if there is one. Asks that both lie in the buffer.
    #[inline(always)]
    pub fn comes_behind(self, bytes: &[u8], before: Option<usize>, at: usize) -> bool
        requires front { IfSome before (λ p. p + key_size (key_of self) ≤ length bytes.now) }
        requires back { at + key_size (key_of self) ≤ length bytes.now }
        ensures { IsTrue result ↔ ComesBehind (key_of self) bytes.now before at }
    {
        match before {
            None => true,
            Some(first) => self.ascends(bytes, first, at),
        }
    }
}
