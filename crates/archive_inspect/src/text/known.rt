//! The leaves that words name, and names that last.

use archive_check::format::expr::{FlavorInfo, IntegerKind, Kind};
use std::alloc::{AllocError, Global};

// The flavor of shared pointers.
pub(super) const SHARED: FlavorInfo = FlavorInfo {
    name: "RcFlavor",
    cycles: false,
};

// The integer that a word names. A `usize` and an `isize` have 32 bits in an archive.
fn integer_of(word: &str) -> Option<IntegerKind> {
    match word {
        "u8" | "U8" => Some(IntegerKind::U8),
        "i8" | "I8" => Some(IntegerKind::I8),
        "u16" | "U16" => Some(IntegerKind::U16),
        "i16" | "I16" => Some(IntegerKind::I16),
        "u32" | "U32" | "usize" | "Usize" => Some(IntegerKind::U32),
        "i32" | "I32" | "isize" | "Isize" => Some(IntegerKind::I32),
        "u64" | "U64" => Some(IntegerKind::U64),
        "i64" | "I64" => Some(IntegerKind::I64),
        "u128" | "U128" => Some(IntegerKind::U128),
        "i128" | "I128" => Some(IntegerKind::I128),
        _ => None,
    }
}

// The number that isn't 0 that a word names.
fn non_zero_of(word: &str) -> Option<Kind> {
    let name = word.strip_prefix("Archived").unwrap_or(word);
    let integer = name.strip_prefix("NonZero")?;
    match integer.bytes().next() {
        Some(b'U') | Some(b'I') => Some(Kind::NonZero(integer_of(integer)?)),
        _ => None,
    }
}

// The leaf that a word names.
pub(super) fn leaf_of(word: &str) -> Option<Kind> {
    match word {
        "bool" => Some(Kind::Bool),
        "char" => Some(Kind::Char),
        "FixedUsize" => Some(Kind::Number(IntegerKind::U32)),
        "FixedIsize" => Some(Kind::Number(IntegerKind::I32)),
        _ => match word.bytes().next() {
            Some(b'a'..=b'z') => Some(Kind::Number(integer_of(word)?)),
            _ => non_zero_of(word),
        },
    }
}

// A text that lasts until the program ends, behind a prefix.
pub(super) fn kept(alloc: Global, prefix: &str, text: &str) -> Result<&'static str, AllocError> {
    let mut bytes = Vec::new(alloc);
    bytes.extend_from_slice(prefix.as_bytes())?;
    bytes.extend_from_slice(text.as_bytes())?;
    let kept: &'static [u8] = bytes.leak();
    Ok(str::from_utf8(kept).unwrap_or(""))
}
