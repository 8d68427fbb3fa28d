//! The order of texts.

ghost use Rattle.std.specs.Prelude.{◌≡◌, ◌+◌, ◌≤◌, length, drop};
ghost use Rattle.std.specs.Cmp.Lexicographic.{slice_cmp};
ghost use Rattle.std.specs.Ordering.{nat_cmp};
ghost use Rattle.std.specs.Simd.Lanes.{chunk};
ghost use Rattle.std.specs.Slice.Scan.{big_endian};

use std::cmp::Ordering;

/// Eight bytes of a text, from index `at` on, as a number: the first byte counts most, so that numbers are ordered as such bytes are. The caller must ensure that
/// the text has them.
#[inline(always)]
pub fn eight_bytes(text: &[u8], at: usize) -> u64
    requires { at + 8 ≤ length text.now }
    ensures { result ≡ big_endian 0 (chunk at 8 text.now) }
{
    let mut word = [0; 8];
    word.copy_from_slice(&text[at..at + 8]);
    u64::from_be_bytes(word)
}

// Four bytes of a text, likewise.
#[inline(always)]
fn four_bytes(text: &[u8], at: usize) -> u32
    requires { at + 4 ≤ length text.now }
    ensures { result ≡ big_endian 0 (chunk at 4 text.now) }
{
    let mut word = [0; 4];
    word.copy_from_slice(&text[at..at + 4]);
    u32::from_be_bytes(word)
}

// The order of what two texts have from `at` on, where seven bytes at most are left in one of them.
#[inline(always)]
fn end_order(a: &[u8], b: &[u8], at: usize) -> Ordering
    requires first { at ≤ length a.now }
    requires second { at ≤ length b.now }
    ensures { result ≡ slice_cmp nat_cmp (drop at a.now) (drop at b.now) }
{
    if a.len() - at >= 4 && b.len() - at >= 4 {
        let (first, second) = (four_bytes(a, at), four_bytes(b, at));
        if first != second {
            return first.cmp(&second);
        }
    }
    a[at..].cmp(&b[at..])
}

/// The order of two texts by their bytes. These are compared eight at a time, and no call is made where they differ in front of the last three.
#[inline(always)]
pub fn text_order(a: &[u8], b: &[u8]) -> Ordering
    ensures { result ≡ slice_cmp nat_cmp a.now b.now }
{
    let mut at = 0;
    while a.len() - at >= 8 && b.len() - at >= 8 {
        let (first, second) = (eight_bytes(a, at), eight_bytes(b, at));
        if first != second {
            return first.cmp(&second);
        }
        at += 8;
    }
    end_order(a, b, at)
}
