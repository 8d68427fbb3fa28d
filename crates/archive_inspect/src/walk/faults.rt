//! What is wrong with bytes, as a walk finds it.

use crate::walk::{Count, Region};
use archive_check::format::error::Error;
use archive_check::format::expr::Kind;
use std::alloc::{AllocError, AllocFailed};
use std::fmt;

/// Why a walk has stopped.
#[derive(Clone, Copy)]
pub enum Stop {
    /// Memory was refused.
    OutOfMemory,
    /// A test is false.
    Fault(FirstFault),
}

/// A test that is false.
#[derive(Clone, Copy)]
pub struct FirstFault {
    /// Where what was looked at lies: a leaf, a choice, a text, or the pointer to a region.
    pub position: i128,
    /// The first of the faulty bytes.
    pub faulty: i128,
    /// How many they are.
    pub count: i128,
    /// What was found, and what was to be.
    pub reason: Reason,
}

/// What was found, and what was to be.
#[derive(Clone, Copy)]
pub enum Reason {
    /// A region has more bytes than a `usize` counts.
    TooLarge(Region),
    /// A region doesn't lie within this range.
    Outside(Region, i128, i128),
    /// A region's position is no multiple of its alignment.
    Unaligned(Region),
    /// The byte of a bool.
    Bool(u8),
    /// The number of a char.
    Char(u32),
    /// A number is 0 that must not be: the type of leaf.
    Zero(Kind),
    /// A tag, the number of variants, the choice's name in archives, and that for people.
    Tag(u8, usize, &'static str, &'static str),
    /// A text isn't UTF-8: its length, the index of the first byte that is in no character, and
    /// that byte.
    Text(usize, usize, u8),
    /// The length that an out-of-line string codes.
    Coded(usize),
    /// A shared position was met with another flavor or pointee.
    OtherType(i128),
    /// One was met with another length.
    OtherLength(i128),
    /// One is being checked still.
    Cycle(i128),
    /// A key of a sorted map is no greater than the one before it.
    Unsorted,
}

// A number that a refusal tells: those of ranges and alignments fit.
fn told(number: i128) -> usize {
    usize::try_from(number).unwrap_or(usize::MAX)
}

impl Reason {
    /// The error that the check returns for it.
    pub fn refusal(self) -> Error {
        match self {
            Reason::TooLarge(_) => Error::LayoutTooLarge,
            Reason::Outside(region, start, end) => Error::InvalidSubtreePointer {
                position: region.position,
                size: told(region.bytes()),
                start: told(start),
                end: told(end),
            },
            Reason::Unaligned(region) => Error::UnalignedPointer {
                position: region.position,
                align: told(region.align),
            },
            Reason::Bool(_) => Error::InvalidBool,
            Reason::Char(_) => Error::InvalidChar,
            Reason::Zero(_) => Error::ZeroNumber,
            Reason::Tag(value, _, name, _) => Error::InvalidDiscriminant { name, value },
            Reason::Text(_, _, _) => Error::InvalidUtf8,
            Reason::Coded(_) => Error::InvalidStringRepr,
            Reason::OtherType(_) => Error::TypeMismatch,
            Reason::OtherLength(_) => Error::MetadataMismatch,
            Reason::Cycle(_) => Error::CyclicValidate,
            Reason::Unsorted => Error::UnsortedKeys,
        }
    }
}

/// As `3 elements of 8 bytes at -20`.
impl fmt::Display for Region {
    fn fmt<W: fmt::Write>(&self, f: &mut fmt::Formatter<W>) -> fmt::Result {
        let position = self.position;
        let size = self.size;
        let bytes = if size == 1 { "byte" } else { "bytes" };
        match self.count {
            Count::Root => write!(f, "the root's {size} {bytes} at {position}"),
            Count::One => write!(f, "a value of {size} {bytes} at {position}"),
            Count::Elements(1) => write!(f, "1 element of {size} {bytes} at {position}"),
            Count::Elements(count) => {
                write!(f, "{count} elements of {size} {bytes} at {position}")
            }
            Count::Text(1) => write!(f, "a text of 1 byte at {position}"),
            Count::Text(count) => write!(f, "a text of {count} bytes at {position}"),
        }
    }
}

// The verb for what lies in a region.
fn lies(region: Region) -> &'static str {
    match region.count {
        Count::One | Count::Elements(1) | Count::Text(_) => "doesn't lie",
        Count::Root if region.size == 1 => "doesn't lie",
        Count::Root | Count::Elements(_) => "don't lie",
    }
}

/// As `the bool is 0x02, and neither 0 nor 1`.
impl fmt::Display for Reason {
    fn fmt<W: fmt::Write>(&self, f: &mut fmt::Formatter<W>) -> fmt::Result {
        match self {
            Reason::TooLarge(region) => { write!(f, "{region}: more bytes than a usize counts") }
            Reason::Outside(region, start, end) => {
                let lies = lies(*region);
                write!(f, "{region} {lies} within {start}..{end}")
            }
            Reason::Unaligned(region) => {
                let lies = lies(*region);
                let align = region.align;
                write!(f, "{region} {lies} at a multiple of {align}")
            }
            Reason::Bool(byte) => write!(f, "the bool is 0x{byte:02x}, neither 0 nor 1"),
            Reason::Char(code) => write!(
                f,
                "the char is 0x{code:x}, which is no Unicode scalar value"
            ),
            Reason::Zero(_) => f.write_str("the number is 0, which its type excludes"),
            Reason::Tag(tag, count, _, shown) => show_tag(f, *tag, *count, shown),
            Reason::Text(length, index, byte) => {
                write!(
                    f,
                    "the text isn't UTF-8 (byte {index} of {length} is 0x{byte:02x})"
                )
            }
            Reason::Coded(length) => {
                write!(
                    f,
                    "the string is out of line, but its length is only {length}"
                )
            }
            Reason::OtherType(position) => {
                write!(
                    f,
                    "the value at {position} is also pointed to as another type"
                )
            }
            Reason::OtherLength(position) => {
                write!(
                    f,
                    "the value at {position} is also pointed to with another length"
                )
            }
            Reason::Cycle(position) => write!(f, "the shared value at {position} contains itself"),
            Reason::Unsorted => f.write_str("the key is no greater than the one before it"),
        }
    }
}

// As `the tag is 9, and Event has 5 variants`.
fn show_tag<W: fmt::Write>(
    f: &mut fmt::Formatter<W>,
    tag: u8,
    count: usize,
    shown: &str,
) -> fmt::Result {
    let variants = if count == 1 { "variant" } else { "variants" };
    write!(f, "the tag is {tag}, and {shown} has {count} {variants}")
}

impl From<AllocError> for Stop {
    fn from(_error: AllocError) -> Stop {
        Stop::OutOfMemory
    }
}

impl<T: Drop> From<AllocFailed<T>> for Stop {
    fn from(_error: AllocFailed<T>) -> Stop {
        Stop::OutOfMemory
    }
}
