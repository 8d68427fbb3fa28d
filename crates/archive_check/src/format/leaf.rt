//! Which bytes are a leaf: those that rkyv 0.8.18 accepts as one.

ghost use Rattle.std.specs.Prelude.{◌≡◌, ◌≢◌, ℕ, ◌↔◌, ◌+◌, ◌*◌, ◌<◌, ◌≤◌, length, slice_index, IsTrue, List};
ghost use Rattle.archive_check.specs.Expressions.{kind_of};
ghost use Rattle.archive_check.specs.Layout.{kind_size};
ghost use Rattle.archive_check.specs.Reads.{bytes_at, IsLegal};
ghost use Rattle.archive_check.specs.Words.Faults.{illegal_error};
ghost use Rattle.archive_check.specs.Words.LegalRuns.{AreLegal};

use crate::format::bytes::{read_u16, read_u32, read_u64, read_u128};
use crate::format::error::Error;
use crate::format::expr::Kind;

/// Whether one of the `n` bytes at `at` isn't 0.
fn has_bits(bytes: &[u8], at: usize, n: usize) -> bool
    requires { at + n ≤ length bytes.now }
    ensures { IsTrue result ↔ ((i : ℕ) × (i < n) × (slice_index bytes.now (at + i) ≢ 0)) }
{
    for i in 0..n {
        if bytes[at + i] != 0 {
            return true;
        }
    }
    false
}

/// Whether the bytes at `at` are a leaf of the kind. The caller must ensure that as many bytes as
/// the kind has lie in the buffer from there on.
#[inline]
pub fn is_legal(kind: Kind, bytes: &[u8], at: usize) -> bool
    requires { at + kind_size (kind_of kind) ≤ length bytes.now }
    ensures { IsTrue result ↔ IsLegal (kind_of kind) (bytes_at bytes.now at
        (kind_size (kind_of kind))) }
{
    match kind {
        Kind::Bool => bytes[at] < 2,
        Kind::Char => {
            let code = read_u32(bytes, at);
            code < 0xD800 || (0xE000 <= code && code <= 0x10FFFF)
        }
        Kind::NonZero(integer) => has_bits(bytes, at, integer.size()),
        Kind::Unit | Kind::Number(_) | Kind::RawRel(_) => true,
    }
}

// As many leaves as are looked at together.
const BLOCK: usize = 256;

// Whether one of the `n` bytes at `at` isn't 0, by one number where they are one.
#[inline(always)]
fn has_bits_at_once(bytes: &[u8], at: usize, n: usize) -> bool
    requires { at + n ≤ length bytes.now }
    ensures { IsTrue result → ((i : ℕ) × (i < n) × (slice_index bytes.now (at + i) ≢ 0)) }
{
    match n {
        1 => bytes[at] != 0,
        2 => read_u16(bytes, at) != 0,
        4 => read_u32(bytes, at) != 0,
        8 => read_u64(bytes, at) != 0,
        16 => read_u128(bytes, at) != 0,
        _ => has_bits(bytes, at, n),
    }
}

// Whether the `size` bytes at `at`, as many as the kind has, are a leaf of it. No jump depends on
// the bytes of a leaf whose kind is known, so many are looked at together.
#[inline(always)]
fn is_legal_at_once(kind: Kind, size: usize, bytes: &[u8], at: usize) -> bool
    requires size { size ≡ kind_size (kind_of kind) }
    requires fits { at + size ≤ length bytes.now }
    ensures { IsTrue result → IsLegal (kind_of kind) (bytes_at bytes.now at
        (kind_size (kind_of kind))) }
{
    match kind {
        Kind::NonZero(_) => has_bits_at_once(bytes, at, size),
        _ => is_legal(kind, bytes, at),
    }
}

// Whether the block of leaves of the kind, of `size` bytes each, that begins at `at` is legal.
#[inline(always)]
fn is_legal_block(kind: Kind, size: usize, bytes: &[u8], at: usize) -> bool
    requires size { size ≡ kind_size (kind_of kind) }
    requires fits { at + 256 * size ≤ length bytes.now }
    ensures { IsTrue result → AreLegal (kind_of kind) bytes.now at size 256 }
{
    let mut all = true;
    for index in 0..BLOCK {
        all &= is_legal_at_once(kind, size, bytes, at + index * size);
    }
    all
}

// How many of the `count` leaves at `at`, of the kind and of `size` bytes each, come in blocks before the first with a fault.
#[inline(always)]
fn count_in_blocks(kind: Kind, size: usize, bytes: &[u8], at: usize, count: usize) -> usize
    requires size { size ≡ kind_size (kind_of kind) }
    requires fits { at + count * size ≤ length bytes.now }
    ensures few { result ≤ count }
    ensures legal { AreLegal (kind_of kind) bytes.now at size result }
{
    let mut passed = 0;
    while count - passed >= BLOCK {
        if !is_legal_block(kind, size, bytes, at + passed * size) {
            break;
        }
        passed += BLOCK;
    }
    passed
}

/// How many leaves of the kind at the front are known to be legal at once.
///
/// There are `count` of them, `step` bytes apart from `at` on. If nothing lies between them, the
/// result is all of a kind that has no illegal bytes, else those in whole blocks before the first
/// block with a fault; otherwise it is 0. The caller must ensure that all lie in the buffer.
#[inline(always)]
pub fn count_legal(kind: Kind, bytes: &[u8], at: usize, step: usize, count: usize) -> usize
    requires { at + count * step ≤ length bytes.now }
    ensures few { result ≤ count }
    ensures legal { AreLegal (kind_of kind) bytes.now at step result }
{
    if step != kind.size() {
        return 0;
    }
    // A loop of its own for each size, which is a constant there.
    match kind {
        Kind::Unit | Kind::Number(_) | Kind::RawRel(_) => count,
        Kind::Bool => count_in_blocks(kind, 1, bytes, at, count),
        Kind::Char => count_in_blocks(kind, 4, bytes, at, count),
        Kind::NonZero(_) => match step {
            1 => count_in_blocks(kind, 1, bytes, at, count),
            2 => count_in_blocks(kind, 2, bytes, at, count),
            4 => count_in_blocks(kind, 4, bytes, at, count),
            8 => count_in_blocks(kind, 8, bytes, at, count),
            _ => count_in_blocks(kind, step, bytes, at, count),
        },
    }
}

/// The error of bytes that are no leaf of the kind: `InvalidBool` of a bool, `InvalidChar` of a
/// char, and `ZeroNumber` of a number that is 0. Requires a kind that has illegal bytes: no others
/// do.
#[inline]
pub fn illegal(kind: Kind) -> Error
    requires { (bytes : List ℕ) × (length bytes ≡ kind_size (kind_of kind))
        × (IsLegal (kind_of kind) bytes → ⊥) }
    ensures { result ≡ illegal_error (kind_of kind) }
{
    match kind {
        Kind::Bool => Error::InvalidBool,
        Kind::Char => Error::InvalidChar,
        _ => Error::ZeroNumber,
    }
}
