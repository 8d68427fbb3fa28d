//! One operation on one set, by its number.

ghost use Rattle.std.specs.Prelude.{◌≡◌, ◌≤◌};

use crate::checks::{accessed, checked};
use crate::reads::{Deserializer, read_back};
use crate::values::{Each, Elements, Values};
use crate::writes::written_over;
use archive_core::api::HighSerializer;
use archive_core::traits::{Archive, Deserialize, Serialize};
use std::alloc::Global;

// The numbers of the operations, as exports take them.
const CHECK: u32 = 0;

const ACCESS: u32 = 1;

const READ: u32 = 2;

const WRITE_NEW: u32 = 3;

const WRITE_REUSED: u32 = 4;

/// Carries out an operation `count` times. What is checked or read are archives of `step` bytes that stand one after another in `bytes`; what is written is
/// the set's value of this size. Returns how many checks accept, or what `read_back` or `written_over` return.
pub fn run<
    T: Archive + Serialize<HighSerializer<Vec<u8>, Global>> + Drop,
    S: Values<T>,
    D: Deserializer,
>(alloc: Global, bytes: &[u8], step: usize, size: usize, count: usize, operation: u32) -> usize
where
    T::Archived: Deserialize<T, D>,
    ensures none { count ≡ 0 → result ≡ 0 }
    ensures accepted { operation ≤ 1 → result ≤ count }
{
    match operation {
        CHECK => checked::<T::Archived>(alloc, bytes, step, count).unwrap_or(0),
        ACCESS => accessed::<T::Archived>(alloc, bytes, step, count),
        READ => read_back::<T, S, D>(alloc, bytes, step, count),
        WRITE_NEW => written_over::<T, S>(alloc, size, count, false),
        WRITE_REUSED => written_over::<T, S>(alloc, size, count, true),
        _ => 0,
    }
}

/// The same of a list of `count` elements. What the check needs of a list is made here once, and not for each type of its elements.
pub fn run_list<
    T: Archive + Serialize<HighSerializer<Vec<u8>, Global>> + Drop,
    E: Elements<T>,
    D: Deserializer,
>(alloc: Global, bytes: &[u8], step: usize, size: usize, count: usize, operation: u32) -> usize
where
    T::Archived: Deserialize<T, D>,
    ensures none { count ≡ 0 → result ≡ 0 }
    ensures accepted { operation ≤ 1 → result ≤ count }
{
    run::<Vec<T>, Each<E>, D>(alloc, bytes, step, size, count, operation)
}
