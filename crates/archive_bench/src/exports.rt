//! The sets: one export each, which carries out an operation by `run`.

ghost use Rattle.std.specs.Prelude.{◌≡◌, ◌≤◌};

use crate::records::{Plain, Row};
use crate::run::{run, run_list};
use crate::sets::Small;
use crate::values::{Each, Given};
use crate::{derived, nested};
use archive_core::pooling::Pool;
use archive_core::rc::Shared;
use own_types::node::Node;
use std::alloc::Global;
use std::collections::BTreeMap;

/// One u32, of 1,024 in turns.
#[unsafe(no_mangle)]
pub extern "C" fn archive_bench_u32(
    alloc: Global,
    bytes: &[u8],
    step: usize,
    size: usize,
    count: usize,
    operation: u32,
) -> usize
    ensures none { count ≡ 0 → result ≡ 0 }
    ensures accepted { operation ≤ 1 → result ≤ count }
{
    run::<u32, Given, ()>(alloc, bytes, step, size, count, operation)
}

/// A string of `size` bytes.
#[unsafe(no_mangle)]
pub extern "C" fn archive_bench_string(
    alloc: Global,
    bytes: &[u8],
    step: usize,
    size: usize,
    count: usize,
    operation: u32,
) -> usize
    ensures none { count ≡ 0 → result ≡ 0 }
    ensures accepted { operation ≤ 1 → result ≤ count }
{
    run::<String, Given, ()>(alloc, bytes, step, size, count, operation)
}

/// The small record.
#[unsafe(no_mangle)]
pub extern "C" fn archive_bench_record(
    alloc: Global,
    bytes: &[u8],
    step: usize,
    size: usize,
    count: usize,
    operation: u32,
) -> usize
    ensures none { count ≡ 0 → result ≡ 0 }
    ensures accepted { operation ≤ 1 → result ≤ count }
{
    run::<Small, Given, ()>(alloc, bytes, step, size, count, operation)
}

/// The small record without its option.
#[unsafe(no_mangle)]
pub extern "C" fn archive_bench_plain(
    alloc: Global,
    bytes: &[u8],
    step: usize,
    size: usize,
    count: usize,
    operation: u32,
) -> usize
    ensures none { count ≡ 0 → result ≡ 0 }
    ensures accepted { operation ≤ 1 → result ≤ count }
{
    run::<Plain, Given, ()>(alloc, bytes, step, size, count, operation)
}

/// A struct that `tools/derive` archives.
#[unsafe(no_mangle)]
pub extern "C" fn archive_bench_own(
    alloc: Global,
    bytes: &[u8],
    step: usize,
    size: usize,
    count: usize,
    operation: u32,
) -> usize
    ensures none { count ≡ 0 → result ≡ 0 }
    ensures accepted { operation ≤ 1 → result ≤ count }
{
    derived::own(alloc, bytes, step, size, count, operation)
}

/// A chain of `size` boxes.
#[unsafe(no_mangle)]
pub extern "C" fn archive_bench_list(
    alloc: Global,
    bytes: &[u8],
    step: usize,
    size: usize,
    count: usize,
    operation: u32,
) -> usize
    ensures none { count ≡ 0 → result ≡ 0 }
    ensures accepted { operation ≤ 1 → result ≤ count }
{
    run::<Node, Given, ()>(alloc, bytes, step, size, count, operation)
}

/// A list of `size` numbers, each in the box of the one before it.
#[unsafe(no_mangle)]
pub extern "C" fn archive_bench_records(
    alloc: Global,
    bytes: &[u8],
    step: usize,
    size: usize,
    count: usize,
    operation: u32,
) -> usize
    ensures none { count ≡ 0 → result ≡ 0 }
    ensures accepted { operation ≤ 1 → result ≤ count }
{
    nested::records(alloc, bytes, step, size, count, operation)
}

/// A tree with `size` leaves, a power of ten, and ten children at each other node.
#[unsafe(no_mangle)]
pub extern "C" fn archive_bench_tree(
    alloc: Global,
    bytes: &[u8],
    step: usize,
    size: usize,
    count: usize,
    operation: u32,
) -> usize
    ensures none { count ≡ 0 → result ≡ 0 }
    ensures accepted { operation ≤ 1 → result ≤ count }
{
    nested::tree(alloc, bytes, step, size, count, operation)
}

/// A sorted map of `size` numbers to numbers.
#[unsafe(no_mangle)]
pub extern "C" fn archive_bench_map(
    alloc: Global,
    bytes: &[u8],
    step: usize,
    size: usize,
    count: usize,
    operation: u32,
) -> usize
    ensures none { count ≡ 0 → result ≡ 0 }
    ensures accepted { operation ≤ 1 → result ≤ count }
{
    run::<BTreeMap<u32, u32>, Each<Given>, ()>(alloc, bytes, step, size, count, operation)
}

/// A sorted map of `size` strings of 20 bytes to numbers.
#[unsafe(no_mangle)]
pub extern "C" fn archive_bench_text_map(
    alloc: Global,
    bytes: &[u8],
    step: usize,
    size: usize,
    count: usize,
    operation: u32,
) -> usize
    ensures none { count ≡ 0 → result ≡ 0 }
    ensures accepted { operation ≤ 1 → result ≤ count }
{
    run::<BTreeMap<String, u32>, Each<Given>, ()>(alloc, bytes, step, size, count, operation)
}

/// `size` numbers.
#[unsafe(no_mangle)]
pub extern "C" fn archive_bench_numbers(
    alloc: Global,
    bytes: &[u8],
    step: usize,
    size: usize,
    count: usize,
    operation: u32,
) -> usize
    ensures none { count ≡ 0 → result ≡ 0 }
    ensures accepted { operation ≤ 1 → result ≤ count }
{
    run_list::<u32, Given, ()>(alloc, bytes, step, size, count, operation)
}

/// `size` bools.
#[unsafe(no_mangle)]
pub extern "C" fn archive_bench_bools(
    alloc: Global,
    bytes: &[u8],
    step: usize,
    size: usize,
    count: usize,
    operation: u32,
) -> usize
    ensures none { count ≡ 0 → result ≡ 0 }
    ensures accepted { operation ≤ 1 → result ≤ count }
{
    run_list::<bool, Given, ()>(alloc, bytes, step, size, count, operation)
}

/// `size` chars.
#[unsafe(no_mangle)]
pub extern "C" fn archive_bench_chars(
    alloc: Global,
    bytes: &[u8],
    step: usize,
    size: usize,
    count: usize,
    operation: u32,
) -> usize
    ensures none { count ≡ 0 → result ≡ 0 }
    ensures accepted { operation ≤ 1 → result ≤ count }
{
    run_list::<char, Given, ()>(alloc, bytes, step, size, count, operation)
}

/// `size` strings of 5 bytes.
#[unsafe(no_mangle)]
pub extern "C" fn archive_bench_shorts(
    alloc: Global,
    bytes: &[u8],
    step: usize,
    size: usize,
    count: usize,
    operation: u32,
) -> usize
    ensures none { count ≡ 0 → result ≡ 0 }
    ensures accepted { operation ≤ 1 → result ≤ count }
{
    run_list::<String, Given, ()>(alloc, bytes, step, size, count, operation)
}

/// `size` rows.
#[unsafe(no_mangle)]
pub extern "C" fn archive_bench_rows(
    alloc: Global,
    bytes: &[u8],
    step: usize,
    size: usize,
    count: usize,
    operation: u32,
) -> usize
    ensures none { count ≡ 0 → result ≡ 0 }
    ensures accepted { operation ≤ 1 → result ≤ count }
{
    run_list::<Row, Given, ()>(alloc, bytes, step, size, count, operation)
}

/// `size` structs of structs that `tools/derive` archives.
#[unsafe(no_mangle)]
pub extern "C" fn archive_bench_frames(
    alloc: Global,
    bytes: &[u8],
    step: usize,
    size: usize,
    count: usize,
    operation: u32,
) -> usize
    ensures none { count ≡ 0 → result ≡ 0 }
    ensures accepted { operation ≤ 1 → result ≤ count }
{
    derived::frames(alloc, bytes, step, size, count, operation)
}

/// `size` enums that `tools/derive` archives.
#[unsafe(no_mangle)]
pub extern "C" fn archive_bench_events(
    alloc: Global,
    bytes: &[u8],
    step: usize,
    size: usize,
    count: usize,
    operation: u32,
) -> usize
    ensures none { count ≡ 0 → result ≡ 0 }
    ensures accepted { operation ≤ 1 → result ≤ count }
{
    derived::events(alloc, bytes, step, size, count, operation)
}

/// `size` pairs of a bool and a number.
#[unsafe(no_mangle)]
pub extern "C" fn archive_bench_pairs(
    alloc: Global,
    bytes: &[u8],
    step: usize,
    size: usize,
    count: usize,
    operation: u32,
) -> usize
    ensures none { count ≡ 0 → result ≡ 0 }
    ensures accepted { operation ≤ 1 → result ≤ count }
{
    run_list::<(bool, u32), Given, ()>(alloc, bytes, step, size, count, operation)
}

/// `size` pairs of a string of 20 bytes and a number.
#[unsafe(no_mangle)]
pub extern "C" fn archive_bench_text_pairs(
    alloc: Global,
    bytes: &[u8],
    step: usize,
    size: usize,
    count: usize,
    operation: u32,
) -> usize
    ensures none { count ≡ 0 → result ≡ 0 }
    ensures accepted { operation ≤ 1 → result ≤ count }
{
    run_list::<(String, u32), Given, ()>(alloc, bytes, step, size, count, operation)
}

/// `size` pointers, in turns, to a hundredth as many strings.
#[unsafe(no_mangle)]
pub extern "C" fn archive_bench_shared(
    alloc: Global,
    bytes: &[u8],
    step: usize,
    size: usize,
    count: usize,
    operation: u32,
) -> usize
    ensures none { count ≡ 0 → result ≡ 0 }
    ensures accepted { operation ≤ 1 → result ≤ count }
{
    run_list::<Shared<String>, Given, Pool<Shared<String>>>(
        alloc, bytes, step, size, count, operation,
    )
}
