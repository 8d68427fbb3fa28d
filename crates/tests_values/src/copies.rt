// Slices of numbers are written in bulk.

use crate::assertions::{assert_bytes, assert_full, assert_same};
use crate::owners::assert_numbers;
use archive_check::format::error::Error;
use archive_types::primitive::{ArchivedNonZeroU16, ArchivedU32};
use archive_types::ser::{Buffer, ResolverAlloc, Serializer, Writer};
use archive_types::slice::{Slice, copy_arrays, copy_slice};
use archive_types::traits::{
    Archive, Copied, CopiedSource, CopyOptimization, Keys, Serialize, SerializeUnsized,
};
use archive_types::vec::ArchivedVec;
use std::alloc::{AllocError, Global};
use std::marker::PhantomData;
use std::process::Abort;

// So many numbers, each with four bytes that tell them apart.
fn numbers(alloc: Global, count: u32) -> Result<Vec<u32>, AllocError> {
    let mut list = Vec::new(alloc);
    for number in 0..count {
        list.push(number.wrapping_mul(16_843_009))?;
    }
    Ok(list)
}

// Appends the numbers' bytes.
fn append_numbers(bytes: &mut Vec<u8>, numbers: &[u32]) -> Result<(), AllocError> {
    for number in numbers {
        bytes.extend_from_slice(&number.to_le_bytes())?;
    }
    Ok(())
}

// Zeros up to a multiple of four behind one byte, and then the numbers' bytes.
fn expected(rt: &impl Abort, alloc: Global, numbers: &[u32]) -> Vec<u8> {
    let mut bytes = vec![in alloc; 0xaa, 0, 0, 0].expect(rt, "memory");
    append_numbers(&mut bytes, numbers).expect(rt, "memory");
    bytes
}

// A serializer over a vector that has room for what is tried here, and holds one byte.
fn one_byte(rt: &impl Abort, alloc: Global) -> Serializer<Vec<u8>, Global, ()> {
    let mut bytes = Vec::with_capacity(alloc, 32_768).expect(rt, "memory");
    bytes.push(0xaa).expect(rt, "memory");
    Serializer::new(bytes, alloc, ())
}

// What is behind one byte, of numbers that are written as a slice.
fn behind_one_byte(rt: &impl Abort, alloc: Global, numbers: &[u32]) -> Vec<u8> {
    let mut serializer = one_byte(rt, alloc);
    let Ok(_) = ArchivedVec::<ArchivedU32>::serialize_from_slice(numbers, &mut serializer) else {
        panic!(rt; "not written")
    };
    serializer.into_writer()
}

// And of numbers that are written by an iterator.
fn behind_one_byte_by_iter(rt: &impl Abort, alloc: Global, numbers: &[u32]) -> Vec<u8> {
    let mut serializer = one_byte(rt, alloc);
    let items = numbers.iter().copied();
    let Ok(_) = ArchivedVec::<ArchivedU32>::serialize_from_iter(items, &mut serializer) else {
        panic!(rt; "not written")
    };
    serializer.into_writer()
}

// The archive of so many numbers: their bytes, and behind them the vector.
fn archive_of(rt: &impl Abort, alloc: Global, numbers: &[u32], count: u32) -> Vec<u8> {
    let mut bytes = Vec::new(alloc);
    append_numbers(&mut bytes, numbers).expect(rt, "memory");
    let vector = [count.wrapping_mul(4).wrapping_neg(), count];
    append_numbers(&mut bytes, &vector).expect(rt, "memory");
    bytes
}

// So many numbers have their bytes, as a slice, by an iterator, and in an archive, which is read back.
fn assert_copied(rt: &impl Abort, alloc: Global, count: u32) {
    let numbers = numbers(alloc, count).expect(rt, "memory");
    let right = expected(rt, alloc, &numbers);
    let bytes = behind_one_byte(rt, alloc, &numbers);
    assert_bytes(rt, "a slice", bytes.as_slice(), right.as_slice());
    let bytes = behind_one_byte_by_iter(rt, alloc, &numbers);
    assert_bytes(rt, "an iterator", bytes.as_slice(), right.as_slice());
    let archive = archive_of(rt, alloc, &numbers, count);
    assert_numbers(rt, alloc, &numbers, archive.as_slice());
}

#[test]
fn each_byte_is_copied(rt: HostRuntime) {
    for count in [0, 1, 255, 256, 257, 1000, 1024, 2050, 6200] {
        assert_copied(&rt, rt.alloc(), count);
    }
}

// Where the elements of a slice are written, as one region.
fn region_of<T: Serialize<S>, S: Writer + ResolverAlloc>(
    rt: &impl Abort,
    slice: &[T],
    serializer: &mut S,
) -> usize {
    let elements = Slice { slice };
    elements.serialize_unsized(serializer).expect(rt, "written")
}

#[test]
fn what_has_no_byte_is_copied_too(rt: HostRuntime) {
    let mut serializer = Serializer::new(Vec::new(rt.alloc()), rt.alloc(), ());
    let units = region_of(&rt, &[(), ()], &mut serializer);
    let bools = region_of(&rt, &[true, false], &mut serializer);
    assert_same(&rt, "units and bools", (units, bools), (0, 0));
    let bytes = serializer.into_writer();
    assert_bytes(&rt, "the bytes", bytes.as_slice(), &[1, 0]);
}

// Whether a type is copied in bulk.
fn is_copied<T: Archive>() -> bool {
    T::copy_optimization().is_enabled()
}

#[test]
fn numbers_are_copied_and_texts_not(rt: HostRuntime) {
    let found = (is_copied::<u32>(), is_copied::<ArchivedNonZeroU16>());
    assert_same(&rt, "numbers", found, (true, true));
    let found = (is_copied::<PhantomData<u8>>(), is_copied::<String>());
    assert_same(&rt, "nothing, and texts", found, (true, false));
    let on = CopyOptimization::<u32>::enable_if(true);
    let off = CopyOptimization::<u32>::disable();
    let found = (on.is_enabled(), off.is_enabled());
    assert_same(&rt, "on, and off", found, (true, false));
}

#[test]
fn arrays_of_1_to_1024_bytes_are_copied(rt: HostRuntime) {
    let found = (is_copied::<[u16; 3]>(), is_copied::<[u8; 1024]>());
    assert_same(&rt, "a small one, and the largest", found, (true, true));
    let found = (is_copied::<[u8; 1025]>(), is_copied::<[(); 3]>());
    assert_same(&rt, "a larger one, and none", found, (false, false));
}

#[test]
fn numbers_are_copied_into_bytes(rt: HostRuntime) {
    let mut bytes = [0xcc; 4];
    u16::copy_into(&[1, 2], &mut bytes);
    assert_same(&rt, "the bytes", bytes, [1, 0, 2, 0]);
}

// Whether numbers are written as one region to a writer, and why not.
fn written_to<W: Writer>(alloc: Global, numbers: &[u32], writer: &mut W) -> Result<(), Error> {
    let mut serializer = Serializer::new(writer, alloc, ());
    match ArchivedVec::<ArchivedU32>::serialize_from_slice(numbers, &mut serializer) {
        Ok(_) => Ok(()),
        Err(error) => Err(error),
    }
}

// Numbers aren't written as one region to this writer; `full` tells its room.
fn assert_numbers_refused<W: Writer>(
    rt: &impl Abort,
    alloc: Global,
    numbers: &[u32],
    writer: &mut W,
    full: (usize, usize, usize),
) {
    assert_full(rt, "no room", written_to(alloc, numbers, writer), full);
}

#[test]
fn a_piece_is_written_whole_or_not_at_all(rt: HostRuntime) {
    let mut bytes = [0xcc; 6];
    let mut buffer = Buffer::from(&mut bytes);
    assert_numbers_refused(&rt, rt.alloc(), &[1, 2], &mut buffer, (8, 6, 0));
    assert_same(&rt, "what is kept", buffer.as_slice().len(), 0);
}

#[test]
fn the_pieces_before_are_kept(rt: HostRuntime) {
    let mut bytes = [0xcc; 1100];
    let mut buffer = Buffer::from(&mut bytes);
    let numbers = numbers(rt.alloc(), 300).expect(&rt, "memory");
    assert_numbers_refused(&rt, rt.alloc(), &numbers, &mut buffer, (176, 1100, 1024));
    assert_same(&rt, "what is kept", buffer.as_slice().len(), 1024);
}

// Where arrays are written to this writer as one region, and why they aren't.
fn arrays_written<W: Writer>(
    alloc: Global,
    arrays: &[[u16; 3]],
    writer: &mut W,
) -> Result<usize, Error> {
    let elements = Slice { slice: arrays };
    elements.serialize_unsized(&mut Serializer::new(writer, alloc, ()))
}

#[test]
fn an_array_is_copied_whole_or_not_at_all(rt: HostRuntime) {
    let mut bytes = [0xcc; 1100];
    let mut buffer = Buffer::from(&mut bytes);
    let two = [[1, 2, 3], [4, 5, 6]];
    let region = arrays_written(rt.alloc(), &two, &mut buffer);
    assert_same(&rt, "the region", region.expect(&rt, "written"), 0);
    let right = b"\x01\0\x02\0\x03\0\x04\0\x05\0\x06\0";
    assert_bytes(&rt, "their bytes", buffer.as_slice(), right);
    let written = arrays_written(rt.alloc(), &[[7; 3]; 300], &mut buffer);
    assert_full(&rt, "too many", written, (780, 1100, 1032));
}

// Where values are copied.
fn copied<T: CopiedSource, S: Writer + Keys>(
    rt: &impl Abort,
    values: &[T],
    serializer: &mut S,
) -> usize {
    copy_slice(values, serializer).expect(rt, "copied")
}

// Where two arrays are copied.
fn arrays_copied<T: CopiedSource, S: Writer + Keys>(
    rt: &impl Abort,
    arrays: &[[T; 2]; 2],
    serializer: &mut S,
) -> usize {
    copy_arrays(arrays, serializer).expect(rt, "copied")
}

#[test]
fn values_are_copied_one_behind_the_other(rt: HostRuntime) {
    let mut bytes = [0xcc; 14];
    let mut buffer = Buffer::from(&mut bytes);
    let byte = copied(&rt, &[9u8], &mut buffer);
    let arrays = arrays_copied(&rt, &[[1u16, 2], [3, 4]], &mut buffer);
    let numbers = [
        ArchivedNonZeroU16::from_native(1),
        ArchivedNonZeroU16::from_native(513),
    ];
    let numbers = copied(&rt, &numbers, &mut buffer);
    let nothing: [PhantomData<u8>; 2] = [PhantomData, PhantomData];
    let nothing = copied(&rt, &nothing, &mut buffer);
    let found = (byte, arrays, numbers, nothing);
    assert_same(&rt, "the positions", found, (0, 2, 10, 14));
    let right = b"\x09\0\x01\0\x02\0\x03\0\x04\0\x01\0\x01\x02";
    assert_bytes(&rt, "the bytes", buffer.as_slice(), right);
}

// Numbers are written to this writer behind a byte, with no allocator.
fn copy_behind_one_byte<W: Writer + Keys>(rt: &impl Abort, numbers: &[u32], writer: &mut W) {
    copied(rt, &[0xaau8], writer);
    let Ok(_) = ArchivedVec::<ArchivedU32>::serialize_from_copied(numbers, writer) else {
        panic!(rt; "not written")
    };
}

#[test]
fn copies_need_no_allocator(rt: HostRuntime) {
    let numbers = numbers(rt.alloc(), 257).expect(&rt, "memory");
    let mut bytes = [0xcc; 1032];
    let mut buffer = Buffer::from(&mut bytes);
    copy_behind_one_byte(&rt, &numbers, &mut buffer);
    let right = expected(&rt, rt.alloc(), &numbers);
    assert_bytes(&rt, "the bytes", buffer.as_slice(), right.as_slice());
}
