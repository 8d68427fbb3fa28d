//! Bytes that are checked and read back.

ghost use Rattle.std.specs.Prelude.{◌≡◌};

use crate::rounds::next_end;
use crate::values::Values;
use archive_core::api::from_bytes;
use archive_core::error::Error;
use archive_core::pooling::Pool;
use archive_core::rc::Shared;
use archive_core::traits::{Archive, Deserialize, Entries};
use std::alloc::Global;

/// What knows no position yet, for one archive.
pub trait Deserializer: Entries + Drop {
    /// One for another archive.
    fn fresh(alloc: Global) -> Self;
}

impl Deserializer for () {
    fn fresh(_alloc: Global) {}
}

impl Deserializer for Pool<Shared<String>> {
    fn fresh(alloc: Global) -> Self {
        Pool::new(alloc)
    }
}

/// The sum of what `count` values are told by that are read back, each checked first. Archives of `step` bytes stand one after another in `bytes`.
pub fn read_back<T: Archive + Drop, S: Values<T>, D: Deserializer>(
    alloc: Global,
    bytes: &[u8],
    step: usize,
    count: usize,
) -> usize
where
    T::Archived: Deserialize<T, D>,
    ensures { count ≡ 0 → result ≡ 0 }
{
    let mut sum = 0usize;
    let mut end = 0;
    for _ in 0..count {
        end = next_end(end, step, bytes.len());
        let mut deserializer = D::fresh(alloc);
        let value: Result<T, Error> = from_bytes(alloc, &bytes[..end], &mut deserializer);
        if let Ok(value) = value {
            sum = sum.wrapping_add(S::told(&value));
        }
    }
    sum
}
