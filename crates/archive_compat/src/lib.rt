//! What bench/compat compares with rkyv: values that are read back and written again. Each export checks bytes as an archive of its type and reads the value
//! back. Then it writes the archive of that value over the first bytes of `out`, and returns their number and one. It returns 0 if the bytes are rejected,
//! where `out` is too short, or where memory ran out.
#![tactic(auto)]

use archive_core::api::{HighSerializer, from_bytes, to_bytes};
use archive_core::array::OwnedArray;
use archive_core::boxed::BoxSlice;
use archive_core::pooling::{Pool, Pooled};
use archive_core::rc::{Shared, SharedSlice};
use archive_core::traits::{Archive, Deserialize, Entries, Serialize};
use own_types::node::Node;
use std::alloc::Global;

// What knows no position yet, for one archive.
trait Deserializer: Entries + Drop {
    fn fresh(alloc: Global) -> Self;
}

impl Deserializer for () {
    fn fresh(_alloc: Global) {}
}

impl<T: Pooled> Deserializer for Pool<T> {
    fn fresh(alloc: Global) -> Self {
        Pool::new(alloc)
    }
}

// The archive of a value over the first bytes of `out`: their number and one, or 0.
fn written_to<T: Serialize<HighSerializer<Vec<u8>, Global>>>(
    alloc: Global,
    value: &T,
    out: &mut [u8],
) -> usize {
    let Ok(archive) = to_bytes(alloc, value) else {
        return 0;
    };
    let Some(room) = out.get_mut(..archive.len()) else {
        return 0;
    };
    room.copy_from_slice(archive.as_slice());
    archive.len().saturating_add(1)
}

// What the bytes are read back as, written again.
fn echoed<T: Serialize<HighSerializer<Vec<u8>, Global>> + Drop, D: Deserializer>(
    alloc: Global,
    bytes: &[u8],
    out: &mut [u8],
) -> usize
where
    T::Archived: Deserialize<T, D>,
{
    match from_bytes(alloc, bytes, &mut D::fresh(alloc)) {
        Ok(value) => {
            let value: T = value;
            written_to(alloc, &value, out)
        }
        Err(_) => 0,
    }
}

// The same of a list.
fn list_echoed<T: Serialize<HighSerializer<Vec<u8>, Global>> + Drop, D: Deserializer>(
    alloc: Global,
    bytes: &[u8],
    out: &mut [u8],
) -> usize
where
    T::Archived: Deserialize<T, D>,
{
    echoed::<Vec<T>, D>(alloc, bytes, out)
}

/// Reads a record of a `u8`, a `u32` and a `bool` back and writes it again.
#[unsafe(no_mangle)]
pub extern "C" fn archive_compat_small(alloc: Global, bytes: &[u8], out: &mut [u8]) -> usize {
    echoed::<(u8, u32, bool), ()>(alloc, bytes, out)
}

/// Reads a record of an `i16`, a `u64` and an `i8` back and writes it again.
#[unsafe(no_mangle)]
pub extern "C" fn archive_compat_padded(alloc: Global, bytes: &[u8], out: &mut [u8]) -> usize {
    echoed::<(i16, u64, i8), ()>(alloc, bytes, out)
}

/// Reads a record of a `char`, a `u128` and an `i32` back and writes it again.
#[unsafe(no_mangle)]
pub extern "C" fn archive_compat_wide(alloc: Global, bytes: &[u8], out: &mut [u8]) -> usize {
    echoed::<(char, u128, i32), ()>(alloc, bytes, out)
}

/// Reads five numbers back and writes them again.
#[unsafe(no_mangle)]
pub extern "C" fn archive_compat_array(alloc: Global, bytes: &[u8], out: &mut [u8]) -> usize {
    echoed::<OwnedArray<u32, 5>, ()>(alloc, bytes, out)
}

/// Reads a list of numbers back and writes it again.
#[unsafe(no_mangle)]
pub extern "C" fn archive_compat_list(alloc: Global, bytes: &[u8], out: &mut [u8]) -> usize {
    list_echoed::<u32, ()>(alloc, bytes, out)
}

/// Reads a list of lists of numbers back and writes it again.
#[unsafe(no_mangle)]
pub extern "C" fn archive_compat_lists(alloc: Global, bytes: &[u8], out: &mut [u8]) -> usize {
    list_echoed::<Vec<u16>, ()>(alloc, bytes, out)
}

/// Reads a list of records of a `u8` and a `u32` back and writes it again.
#[unsafe(no_mangle)]
pub extern "C" fn archive_compat_rows(alloc: Global, bytes: &[u8], out: &mut [u8]) -> usize {
    list_echoed::<(u8, u32), ()>(alloc, bytes, out)
}

/// Reads a number in a box back and writes it again.
#[unsafe(no_mangle)]
pub extern "C" fn archive_compat_box(alloc: Global, bytes: &[u8], out: &mut [u8]) -> usize {
    echoed::<Box<u64>, ()>(alloc, bytes, out)
}

/// Reads a boxed slice of numbers back and writes it again.
#[unsafe(no_mangle)]
pub extern "C" fn archive_compat_slice(alloc: Global, bytes: &[u8], out: &mut [u8]) -> usize {
    echoed::<BoxSlice<u16>, ()>(alloc, bytes, out)
}

/// Reads a list of options of numbers back and writes it again.
#[unsafe(no_mangle)]
pub extern "C" fn archive_compat_options(alloc: Global, bytes: &[u8], out: &mut [u8]) -> usize {
    list_echoed::<Option<u32>, ()>(alloc, bytes, out)
}

/// Reads an option of a number in a box back and writes it again.
#[unsafe(no_mangle)]
pub extern "C" fn archive_compat_boxed(alloc: Global, bytes: &[u8], out: &mut [u8]) -> usize {
    echoed::<Option<Box<u32>>, ()>(alloc, bytes, out)
}

/// Reads a result of a `u8` or a list of `u32` back and writes it again.
#[unsafe(no_mangle)]
pub extern "C" fn archive_compat_result(alloc: Global, bytes: &[u8], out: &mut [u8]) -> usize {
    echoed::<Result<u8, Vec<u32>>, ()>(alloc, bytes, out)
}

/// Reads a record of a `u8`, a list of `i32` and an option of a `u16` back and writes it again.
#[unsafe(no_mangle)]
pub extern "C" fn archive_compat_record(alloc: Global, bytes: &[u8], out: &mut [u8]) -> usize {
    echoed::<(u8, Vec<i32>, Option<u16>), ()>(alloc, bytes, out)
}

/// Reads a chain of boxes back and writes it again.
#[unsafe(no_mangle)]
pub extern "C" fn archive_compat_chain(alloc: Global, bytes: &[u8], out: &mut [u8]) -> usize {
    echoed::<Node, ()>(alloc, bytes, out)
}

/// Reads a list of shared numbers back and writes it again.
#[unsafe(no_mangle)]
pub extern "C" fn archive_compat_shared(alloc: Global, bytes: &[u8], out: &mut [u8]) -> usize {
    list_echoed::<Shared<u32>, Pool<Shared<u32>>>(alloc, bytes, out)
}

/// Reads a list of shared slices of numbers back and writes it again.
#[unsafe(no_mangle)]
pub extern "C" fn archive_compat_slices(alloc: Global, bytes: &[u8], out: &mut [u8]) -> usize {
    list_echoed::<SharedSlice<u32>, Pool<SharedSlice<u32>>>(alloc, bytes, out)
}
