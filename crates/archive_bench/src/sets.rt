//! The small record, and texts and numbers that several sets have.

use own_types::test_record::{ArchivedTest, Test};
use std::alloc::{AllocError, Global};

/// A number, a text, and perhaps a list of numbers, for the set `record`.
pub type Small = Test;

/// The same, archived: 24 bytes.
pub type ArchivedSmall = ArchivedTest;

/// The four numbers of the small records.
pub fn integers(alloc: Global) -> Result<Vec<i32>, AllocError> {
    Ok(vec![in alloc; 1, 2, 3, 4]?)
}

/// The text of the small records.
pub fn hello(alloc: Global) -> Result<String, AllocError> {
    String::from_str(alloc, "hello world")
}

/// A name of 20 bytes, where the number has at most eight digits.
pub fn name(alloc: Global, number: usize) -> Result<String, AllocError> {
    format!(in alloc; "record-name-{number:08}")
}
