//! The values of leaves.

ghost use Rattle.std.specs.Int.{byte_len};
ghost use Rattle.std.specs.Prelude.{◌≡◌, ◌+◌, ◌<◌, ◌≤◌, pos, length, slice_index, IfSome};
ghost use Rattle.archive_check.specs.Expressions.{kind_of, integer_of};
ghost use Rattle.archive_check.specs.Reads.{bytes_at};
ghost use Rattle.archive_inspect.specs.declared.walk.leaves.Leaf.TheVariants.{Bool};
ghost use Rattle.archive_inspect.specs.Leaves.{told_number, number_read, integer_read, IsLeafRead};

use crate::ways::pointing::has_bytes;
use archive_check::format::bytes::read_u32;
use archive_check::format::expr::{IntegerKind, Kind};
use archive_check::format::leaf::is_legal;
use std::fmt;

/// The value of a leaf.
#[derive(Clone, Copy)]
pub enum Leaf {
    /// No byte.
    Unit,
    /// A bool.
    Bool(bool),
    /// A character.
    Char(char),
    /// A number without a sign.
    Unsigned(u128),
    /// A number with one.
    Signed(i128),
}

/// `()`, `true`, `'a'` or a number.
impl fmt::Display for Leaf {
    fn fmt<W: fmt::Write>(&self, f: &mut fmt::Formatter<W>) -> fmt::Result {
        match self {
            Leaf::Unit => f.write_str("()"),
            Leaf::Bool(value) => write!(f, "{value}"),
            Leaf::Char(value) => write!(f, "{value:?}"),
            Leaf::Unsigned(number) => write!(f, "{number}"),
            Leaf::Signed(number) => write!(f, "{number}"),
        }
    }
}

/// The number in some bytes, the lowest first: at most sixteen of them count.
pub fn number_in(bytes: &[u8]) -> u128 {
    let mut number = 0u128;
    for byte in bytes.iter().rev() {
        number = (number << 8) | (*byte as u128);
    }
    number
}

// The bytes at a position, so many as the array has.
#[tactic(auto, unfolding(archive_check::specs::Reads::bytes_at))]
fn raw_at<const N: usize>(bytes: &[u8], at: usize) -> [u8; N]
    requires { at + N ≤ length bytes.now }
    ensures { result ≡ bytes_at bytes.now at N }
{
    let mut raw = [0; N];
    raw.copy_from_slice(&bytes[at..at + N]);
    raw
}

// The number at a position.
fn integer_at(integer: IntegerKind, bytes: &[u8], at: usize) -> Leaf
    requires { at + byte_len (integer_of integer).1 ≤ length bytes.now }
    ensures { told_number result ≡ integer_read (integer_of integer).0 (integer_of integer).1
        bytes.now at }
{
    match integer {
        IntegerKind::U8 => Leaf::Unsigned(u8::from_le_bytes(raw_at(bytes, at)) as u128),
        IntegerKind::I8 => Leaf::Signed(i8::from_le_bytes(raw_at(bytes, at)) as i128),
        IntegerKind::U16 => Leaf::Unsigned(u16::from_le_bytes(raw_at(bytes, at)) as u128),
        IntegerKind::I16 => Leaf::Signed(i16::from_le_bytes(raw_at(bytes, at)) as i128),
        IntegerKind::U32 => Leaf::Unsigned(u32::from_le_bytes(raw_at(bytes, at)) as u128),
        IntegerKind::I32 => Leaf::Signed(i32::from_le_bytes(raw_at(bytes, at)) as i128),
        IntegerKind::U64 => Leaf::Unsigned(u64::from_le_bytes(raw_at(bytes, at)) as u128),
        IntegerKind::I64 => Leaf::Signed(i64::from_le_bytes(raw_at(bytes, at)) as i128),
        IntegerKind::U128 => Leaf::Unsigned(u128::from_le_bytes(raw_at(bytes, at))),
        IntegerKind::I128 => Leaf::Signed(i128::from_le_bytes(raw_at(bytes, at))),
    }
}

// Whether the bool at a position is true.
fn is_true(bytes: &[u8], at: usize) -> bool
    requires fits { at + 1 ≤ length bytes.now }
    requires legal { slice_index bytes.now at < 2 }
    ensures { told_number (Bool result) ≡ pos (slice_index bytes.now at) }
{
    if bytes[at] == 0 {
        return false;
    }
    true
}

/// The value of the leaf of the kind at a position: none if it doesn't lie in the buffer, or its
/// bytes are none of the kind.
pub fn leaf_from(kind: Kind, bytes: &[u8], at: usize) -> Option<Leaf>
    ensures { IfSome result (IsLeafRead (kind_of kind) bytes.now at) }
{
    if !has_bytes(bytes, at, kind.size()) || !is_legal(kind, bytes, at) {
        return None;
    }
    match kind {
        Kind::Unit => Some(Leaf::Unit),
        Kind::Bool => Some(Leaf::Bool(is_true(bytes, at))),
        Kind::Char => {
            let code = char::from_u32(read_u32(bytes, at))?;
            Some(Leaf::Char(code))
        }
        Kind::Number(integer) => Some(integer_at(integer, bytes, at)),
        Kind::NonZero(integer) => Some(integer_at(integer, bytes, at)),
        Kind::RawRel(integer) => Some(integer_at(integer, bytes, at)),
    }
}
