//! Values that are looked up in sorted maps, by their keys.

ghost use Rattle.std.specs.Prelude.{◌≡◌, IfOk};

use crate::sets::name;
use crate::values::key;
use archive_core::api::access;
use archive_core::compare::CompareNative;
use archive_core::error::Error;
use archive_core::map::ArchivedSortedMap;
use archive_core::primitive::ArchivedU32;
use archive_core::string::ArchivedString;
use archive_core::traits::{Archive, MapKey};
use archive_core::view::Ref;
use std::alloc::Global;

// How far apart in the list of keys two look-ups are.
const STRIDE: usize = 7919;

// The index behind this one, of so many.
fn next_index(index: usize, len: usize) -> usize {
    let next = index.wrapping_add(STRIDE);
    if len == 0 { 0 } else { next % len }
}

// The sum of the values of `count` keys, in turns.
fn sum_of<K: MapKey + CompareNative<U>, U: Archive>(
    map: Ref<'_, ArchivedSortedMap<K, ArchivedU32>>,
    keys: &[U],
    count: usize,
) -> usize
    ensures { count ≡ 0 → result ≡ 0 }
{
    let mut sum = 0usize;
    let mut index = 0;
    for _ in 0..count {
        if let Some(key) = keys.get(index) {
            if let Some(value) = map.get(key) {
                sum = sum.wrapping_add(value.get() as usize);
            }
        }
        index = next_index(index, keys.len());
    }
    sum
}

// The most keys that one look-up of these compares.
fn most_compared<K: MapKey + CompareNative<U>, U: Archive>(
    map: Ref<'_, ArchivedSortedMap<K, ArchivedU32>>,
    keys: &[U],
) -> usize {
    let mut most = 0;
    for key in keys {
        let (_, compared) = map.get_counted(key);
        if compared > most {
            most = compared;
        }
    }
    most
}

// A key that is looked up.
trait Sought: Archive + Drop {
    // The key of the entry with this index.
    fn key(alloc: Global, index: usize) -> Result<Self, Error>;
}

impl Sought for u32 {
    fn key(_alloc: Global, index: usize) -> Result<u32, Error> {
        Ok(key(index))
    }
}

impl Sought for String {
    fn key(alloc: Global, index: usize) -> Result<String, Error> {
        Ok(name(alloc, index)?)
    }
}

// The keys of so many entries.
fn keys_of<U: Sought>(alloc: Global, size: usize) -> Result<Vec<U>, Error> {
    let mut keys = Vec::new(alloc);
    for index in 0..size {
        keys.push(U::key(alloc, index)?)?;
    }
    Ok(keys)
}

// The number of an operation, as exports take it, that tells how many keys are compared.
const COUNT: u32 = 1;

// Looks keys up in a map, which is checked once. 0 if it is refused.
fn looked_up<K: MapKey + CompareNative<U>, U: Sought>(
    alloc: Global,
    bytes: &[u8],
    size: usize,
    count: usize,
    operation: u32,
) -> Result<usize, Error>
    ensures { count ≡ 0 → operation ≡ 0 → IfOk result (λ n. n ≡ 0) }
{
    let keys: Vec<U> = keys_of(alloc, size)?;
    let map = access::<ArchivedSortedMap<K, ArchivedU32>>(alloc, bytes)?;
    if operation == COUNT {
        return Ok(most_compared(map, keys.as_slice()));
    }
    Ok(sum_of(map, keys.as_slice(), count))
}

/// The sum of the values of `count` keys, in turns, in a sorted map of `size` numbers to numbers. Where `operation` is 1, the most keys that one look-up
/// compares.
#[unsafe(no_mangle)]
pub extern "C" fn archive_bench_get_map(
    alloc: Global,
    bytes: &[u8],
    _step: usize,
    size: usize,
    count: usize,
    operation: u32,
) -> usize
    ensures { count ≡ 0 → operation ≡ 0 → result ≡ 0 }
{
    looked_up::<ArchivedU32, u32>(alloc, bytes, size, count, operation).unwrap_or(0)
}

/// The same in a sorted map of `size` strings of 20 bytes to numbers.
#[unsafe(no_mangle)]
pub extern "C" fn archive_bench_get_text_map(
    alloc: Global,
    bytes: &[u8],
    _step: usize,
    size: usize,
    count: usize,
    operation: u32,
) -> usize
    ensures { count ≡ 0 → operation ≡ 0 → result ≡ 0 }
{
    looked_up::<ArchivedString, String>(alloc, bytes, size, count, operation).unwrap_or(0)
}
