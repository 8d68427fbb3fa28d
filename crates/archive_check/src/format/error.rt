//! The errors. Each has a number and a name; text for people comes by `Display`. docs/FORMAT.md has a table of them.

ghost use Rattle.std.specs.Prelude.{◌≡◌};
ghost use Rattle.archive_check.specs.Words.Errors.{number_of, name_of};
ghost use Rattle.archive_check.specs.declared.format.error.Error.TheVariants.{OutOfMemory};

use std::alloc::{AllocError, AllocFailed};
use thiserror::Error;

/// Why a call failed: the one error type of the library, with the fields of what was found.
///
/// ```
/// match access::<ArchivedString>(alloc, bytes.as_slice()) {
///     Err(Error::InvalidUtf8) => println!(rt; "damaged")?,
///     Err(error) => println!(rt; "{} {error}", error.name())?,
///     Ok(view) => println!(rt; "{}", view.as_str())?,
/// }
/// ```
#[derive(Debug, Drop, Clone, Copy, PartialEq, Eq, Error)]
pub enum Error {
    /// A growth or an allocation was refused.
    #[error("out of memory")]
    OutOfMemory,
    /// A difference of two positions doesn't fit `isize`.
    #[error("the distance between two positions does not fit isize")]
    IsizeOverflow,
    /// A difference of two positions fits `isize`, and not the offset's type.
    #[error("the distance between a pointer and its target does not fit the offset")]
    OffsetOverflow,
    /// A written pointee's position is above 4,294,967,295.
    #[error("the position of a value that a pointer leads to is above 4294967295")]
    PositionTooLarge,
    /// The length of a slice, a vec or a text is above 4,294,967,295.
    #[error("the length of a slice or text is above 4294967295")]
    LengthTooLarge,
    /// A `usize` or `isize` that is written doesn't fit 32 bits.
    #[error("a usize or isize does not fit the 32 bits that it has in an archive")]
    NumberTooLarge,
    /// A string's text is longer than 1,073,741,823 bytes.
    #[error("the text of a string is longer than 1073741823 bytes")]
    StringTooLong,
    /// A writer that holds `len` of at most `cap` bytes was given `write_len` more, which don't fit.
    #[error("{write_len} more bytes do not fit a buffer of {cap} bytes that holds {len}")]
    BufferOverflow {
        write_len: usize,
        cap: usize,
        len: usize,
    },
    /// The writer's device failed.
    #[error("the writer could not write to its device")]
    WriterFailed,
    /// An item of a sequence of unknown length wrote bytes of its own (`serialize_from_unknown_length_iter`).
    #[error("an item of an iterator of unknown length wrote bytes of its own")]
    ItemWrote,
    /// A shared value is written that is being written already.
    #[error("a shared value that contains itself cannot be written")]
    CyclicSerialize,
    /// A shared position is met that is being checked already, and its flavor forbids cycles.
    #[error("a shared value contains itself, which its flavor forbids")]
    CyclicValidate,
    /// A shared position is met that is being read already.
    #[error("a shared value that contains itself cannot be read back")]
    CyclicDeserialize,
    /// A shared key or position is finished that wasn't started.
    #[error("a shared value was finished before it was started")]
    NotStarted,
    /// A shared key or position is finished that is finished already.
    #[error("a shared value was finished twice")]
    AlreadyFinished,
    /// A region of `size` bytes at `position` doesn't lie in the range `start..end`.
    #[error("region of {size} bytes at position {position} lies outside {start}..{end}")]
    InvalidSubtreePointer {
        position: i128,
        size: usize,
        start: usize,
        end: usize,
    },
    /// A region lies in the range, and its position is no multiple of `align`.
    #[error("region at position {position} is not aligned to {align} bytes")]
    UnalignedPointer {
        position: i128,
        align: usize,
    },
    /// A region is entered with one level left, the last of which lets none be entered.
    #[error("regions are nested deeper than the limit allows")]
    ExceededMaximumSubtreeDepth,
    /// A range is given back where the levels left are `usize::MAX`.
    #[error("a range was popped more often than one was pushed")]
    RangePoppedTooManyTimes,
    /// A range is given back that begins below the current end.
    #[error("a range was popped out of order")]
    RangePoppedOutOfOrder,
    /// A shared position is met that was met with another flavor or pointee.
    #[error("pointers of two types lead to one shared value")]
    TypeMismatch,
    /// A shared position is met that was met with this type and another length.
    #[error("pointers of two lengths lead to one shared value")]
    MetadataMismatch,
    /// A region's size, or the end of one that is written, is above `usize::MAX`.
    #[error("a value takes more bytes than usize can count")]
    LayoutTooLarge,
    /// The tag `value` names no variant of the choice `name`.
    #[error("tag {value} names no variant of {name}")]
    InvalidDiscriminant {
        name: &'static str,
        value: u8,
    },
    /// A bool's byte is neither 0 nor 1.
    #[error("the byte of a bool is neither 0 nor 1")]
    InvalidBool,
    /// A char's number is no scalar value of Unicode.
    #[error("the number of a char is not a Unicode scalar value")]
    InvalidChar,
    /// All bytes of a non-zero number are 0.
    #[error("a non-zero number is 0")]
    ZeroNumber,
    /// A text isn't UTF-8.
    #[error("text is not valid UTF-8")]
    InvalidUtf8,
    /// An out-of-line string codes a length of eight bytes or fewer.
    #[error("a string that is stored out of line has eight bytes or fewer")]
    InvalidStringRepr,
    /// A name that a type reaches has no definition, or two different ones.
    #[error("the name of a type has no definition, or two different ones")]
    ShapeConflict,
    /// A name contains itself other than behind a pointer.
    #[error("a type contains itself without a pointer between")]
    RecursiveLayout,
    /// Two neighbouring keys of a sorted map, or of the pairs of one to be written, do not ascend strictly.
    #[error("the keys of a sorted map do not ascend strictly")]
    UnsortedKeys,
}

impl From<AllocError> for Error {
    ghost from_gives = { λ _ e. e ≡ OutOfMemory };

    fn from(_error: AllocError) -> Error {
        Error::OutOfMemory
    }
}

impl<T: Drop> From<AllocFailed<T>> for Error {
    ghost from_gives = { λ _ e. e ≡ OutOfMemory };

    fn from(_error: AllocFailed<T>) -> Error {
        Error::OutOfMemory
    }
}

impl Error {
    /// The error's number, from 1 to 32, as in docs/FORMAT.md.
    pub fn number(&self) -> u32
        ensures { result ≡ number_of self.now }
    {
        match self {
            Error::OutOfMemory => 1,
            Error::IsizeOverflow => 2,
            Error::OffsetOverflow => 3,
            Error::PositionTooLarge => 4,
            Error::LengthTooLarge => 5,
            Error::NumberTooLarge => 6,
            Error::StringTooLong => 7,
            Error::BufferOverflow { .. } => 8,
            Error::WriterFailed => 9,
            Error::ItemWrote => 10,
            Error::CyclicSerialize => 11,
            Error::CyclicValidate => 12,
            Error::CyclicDeserialize => 13,
            Error::NotStarted => 14,
            Error::AlreadyFinished => 15,
            Error::InvalidSubtreePointer { .. } => 16,
            Error::UnalignedPointer { .. } => 17,
            Error::ExceededMaximumSubtreeDepth => 18,
            Error::RangePoppedTooManyTimes => 19,
            Error::RangePoppedOutOfOrder => 20,
            Error::TypeMismatch => 21,
            Error::MetadataMismatch => 22,
            Error::LayoutTooLarge => 23,
            Error::InvalidDiscriminant { .. } => 24,
            Error::InvalidBool => 25,
            Error::InvalidChar => 26,
            Error::ZeroNumber => 27,
            Error::InvalidUtf8 => 28,
            Error::InvalidStringRepr => 29,
            Error::ShapeConflict => 30,
            Error::RecursiveLayout => 31,
            Error::UnsortedKeys => 32,
        }
    }

    /// The error's name, as the variant is spelled.
    pub fn name(&self) -> &'static str
        ensures { result.now ≡ name_of self.now }
    {
        match self {
            Error::OutOfMemory => "OutOfMemory",
            Error::IsizeOverflow => "IsizeOverflow",
            Error::OffsetOverflow => "OffsetOverflow",
            Error::PositionTooLarge => "PositionTooLarge",
            Error::LengthTooLarge => "LengthTooLarge",
            Error::NumberTooLarge => "NumberTooLarge",
            Error::StringTooLong => "StringTooLong",
            Error::BufferOverflow { .. } => "BufferOverflow",
            Error::WriterFailed => "WriterFailed",
            Error::ItemWrote => "ItemWrote",
            Error::CyclicSerialize => "CyclicSerialize",
            Error::CyclicValidate => "CyclicValidate",
            Error::CyclicDeserialize => "CyclicDeserialize",
            Error::NotStarted => "NotStarted",
            Error::AlreadyFinished => "AlreadyFinished",
            Error::InvalidSubtreePointer { .. } => "InvalidSubtreePointer",
            Error::UnalignedPointer { .. } => "UnalignedPointer",
            Error::ExceededMaximumSubtreeDepth => "ExceededMaximumSubtreeDepth",
            Error::RangePoppedTooManyTimes => "RangePoppedTooManyTimes",
            Error::RangePoppedOutOfOrder => "RangePoppedOutOfOrder",
            Error::TypeMismatch => "TypeMismatch",
            Error::MetadataMismatch => "MetadataMismatch",
            Error::LayoutTooLarge => "LayoutTooLarge",
            Error::InvalidDiscriminant { .. } => "InvalidDiscriminant",
            Error::InvalidBool => "InvalidBool",
            Error::InvalidChar => "InvalidChar",
            Error::ZeroNumber => "ZeroNumber",
            Error::InvalidUtf8 => "InvalidUtf8",
            Error::InvalidStringRepr => "InvalidStringRepr",
            Error::ShapeConflict => "ShapeConflict",
            Error::RecursiveLayout => "RecursiveLayout",
            Error::UnsortedKeys => "UnsortedKeys",
        }
    }
}
