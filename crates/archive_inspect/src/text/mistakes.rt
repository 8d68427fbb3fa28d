//! What is wrong with a schema text, and where.

use std::alloc::{AllocError, AllocFailed};
use thiserror::Error;

/// What is wrong with a text that is no schema.
#[derive(Debug, Drop, Clone, Copy, Error)]
pub enum Mistake {
    /// Memory was refused.
    #[error("out of memory")]
    OutOfMemory,
    /// A character that no type is written with.
    #[error("unexpected character")]
    Sign,
    /// Something else is expected there.
    #[error("expected {0}")]
    Expected(&'static str),
    /// A type is neither defined nor one of the library's.
    #[error("unknown type `{0}`")]
    UnknownType(&'static str),
    /// A type has the name of one above.
    #[error("a type of this name is defined above")]
    DefinedTwice,
    /// A field has the name of one before it.
    #[error("a field of this name comes before")]
    FieldTwice,
    /// A variant has the name of one before it.
    #[error("a variant of this name comes before")]
    VariantTwice,
    /// A defined type has parameters.
    #[error("generic types aren't supported: define one for each use")]
    Parameters,
    /// A `str` or a slice is not behind a pointer.
    #[error("`str` and slices must be behind a pointer, as in `Box<str>`")]
    Unsized,
    /// A number is too large.
    #[error("the number is too large")]
    LargeNumber,
    /// An enum has no variant, or more than 256.
    #[error("an enum must have 1 to 256 variants")]
    Variants,
    /// Types are nested too deep.
    #[error("types are nested more than 100 deep")]
    TooDeep,
    /// The text has too many definitions.
    #[error("more than 500 types are defined")]
    TooMany,
    /// The root has too many parts, those of its parts included.
    #[error("the type has more than 100000 parts")]
    TooLarge,
    /// A type contains itself other than behind a pointer.
    #[error("the type contains itself without a `Box` or `Vec` between")]
    Recursive,
}

/// Why a text is no schema.
#[derive(Debug, Drop, Clone, Copy, Error)]
#[error("line {line}, column {column}: {mistake}")]
pub struct SchemaError {
    /// The line, from 1.
    pub line: usize,
    /// The character in the line, from 1.
    pub column: usize,
    /// What is wrong there.
    pub mistake: Mistake,
}

impl SchemaError {
    /// Whether memory was refused, so that nothing is known of the text.
    pub fn is_out_of_memory(self) -> bool {
        matches!(self.mistake, Mistake::OutOfMemory)
    }
}

// The same, with a position in bytes.
#[derive(Drop, Clone, Copy)]
pub(super) struct Wrong {
    pub(super) at: usize,
    pub(super) mistake: Mistake,
}

impl Wrong {
    // With the line and the column of the position.
    pub(super) fn located(self, text: &[u8]) -> SchemaError {
        let mut line = 1usize;
        let mut column = 1usize;
        for (index, byte) in text.iter().enumerate() {
            if index >= self.at {
                break;
            }
            if *byte == b'\n' {
                line = line.saturating_add(1);
                column = 1;
            } else if *byte & 0xc0 != 0x80 {
                column = column.saturating_add(1);
            }
        }
        SchemaError {
            line,
            column,
            mistake: self.mistake,
        }
    }
}

impl From<AllocError> for Wrong {
    fn from(_error: AllocError) -> Wrong {
        Wrong {
            at: 0,
            mistake: Mistake::OutOfMemory,
        }
    }
}

impl<T: Drop> From<AllocFailed<T>> for Wrong {
    fn from(_error: AllocFailed<T>) -> Wrong {
        Wrong {
            at: 0,
            mistake: Mistake::OutOfMemory,
        }
    }
}
