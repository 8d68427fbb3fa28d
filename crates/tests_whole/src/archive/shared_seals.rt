// Shared and weak pointers in a record: their values are viewed, compared and written over.

use crate::archive::pairs::{NUMBER_AND_NULL, ONE_NUMBER, parts_of_pair};
use crate::assertions::{assert_bytes, assert_same, sealed, viewed};
use archive_core::core_impls::ArchivedTuple2;
use archive_core::primitive::ArchivedU32;
use archive_core::rc::{ArchivedRc, ArchivedRcWeak, RcFlavor};
use archive_core::seal::SealedLeaf;
use archive_core::traits::Portable;
use archive_core::view::Ref;
use std::alloc::Global;
use std::cmp::Ordering;
use std::hash::{DefaultHasher, Hash, Hasher};
use std::process::Abort;

type SharedNumber = ArchivedRc<ArchivedU32, RcFlavor>;

type WeakNumber = ArchivedRcWeak<ArchivedU32, RcFlavor>;

// The numbers that a shared pointer and a weak one lead to; none where the weak one is null.
fn numbers_of(rt: &impl Abort, alloc: Global, bytes: &[u8]) -> (u32, Option<u32>) {
    let (first, second) = parts_of_pair::<SharedNumber, WeakNumber>(rt, alloc, bytes);
    let number = first.get().get();
    match second.upgrade() {
        Some(same) => (number, Some(same.get())),
        None => (number, None),
    }
}

// Writes over the value of the shared pointer that is the first part of a pair.
fn write_first<T: Portable + SealedLeaf, B: Portable>(
    rt: &impl Abort,
    alloc: Global,
    bytes: &mut [u8],
    value: T::Written,
)
    requires { T.can_hold value }
{
    let pair = sealed::<ArchivedTuple2<ArchivedRc<T, RcFlavor>, B>>(rt, alloc, bytes);
    pair.field::<ArchivedRc<T, RcFlavor>>(0)
        .get_seal()
        .write(value);
}

// And over that of the weak one that is the second. Whether there is one.
fn write_second<T: Portable + SealedLeaf, A: Portable>(
    rt: &impl Abort,
    alloc: Global,
    bytes: &mut [u8],
    value: T::Written,
) -> bool
    requires { T.can_hold value }
{
    let pair = sealed::<ArchivedTuple2<A, ArchivedRcWeak<T, RcFlavor>>>(rt, alloc, bytes);
    let Some(seal) = pair.field::<ArchivedRcWeak<T, RcFlavor>>(1).upgrade_seal() else {
        return false;
    };
    seal.write(value);
    true
}

// A record of a shared pointer and a weak one to one number: written through each of them, and read through both.
#[test]
fn a_records_shared_value_written_over(rt: HostRuntime) {
    let alloc = rt.alloc();
    let mut bytes = *ONE_NUMBER;
    write_first::<ArchivedU32, WeakNumber>(&rt, alloc, &mut bytes, 42);
    let right = b"\x2a\0\0\0\xfc\xff\xff\xff\xf8\xff\xff\xff";
    assert_bytes(&rt, "through the shared one", &bytes, right);
    let written = write_second::<ArchivedU32, SharedNumber>(&rt, alloc, &mut bytes, 17);
    let right = *b"\x11\0\0\0\xfc\xff\xff\xff\xf8\xff\xff\xff";
    assert_same(&rt, "through the weak one", (written, bytes), (true, right));
    let found = numbers_of(&rt, alloc, &bytes);
    assert_same(&rt, "both", found, (17, Some(17)));
}

#[test]
fn a_null_has_nothing_to_write_over(rt: HostRuntime) {
    let mut bytes = *NUMBER_AND_NULL;
    let written = write_second::<ArchivedU32, SharedNumber>(&rt, rt.alloc(), &mut bytes, 17);
    assert_same(
        &rt,
        "the bytes",
        (written, bytes),
        (false, *NUMBER_AND_NULL),
    );
    let found = numbers_of(&rt, rt.alloc(), &bytes);
    assert_same(&rt, "a number and a null", found, (10, None));
}

// What a view feeds a hasher comes to.
fn hash_of(view: Ref<'_, SharedNumber>) -> u64 {
    let mut state = DefaultHasher::new();
    view.hash(&mut state);
    state.finish()
}

#[test]
fn shared_pointers_are_compared_by_what_they_hold(rt: HostRuntime) {
    let seven = viewed::<SharedNumber>(&rt, rt.alloc(), b"\x07\0\0\0\xfc\xff\xff\xff");
    let nine = viewed::<SharedNumber>(&rt, rt.alloc(), b"\x09\0\0\0\xfc\xff\xff\xff");
    assert_same(&rt, "the order", seven.cmp(&nine), Ordering::Less);
    let same_hash = hash_of(seven) == hash_of(nine);
    assert_same(&rt, "the hashes", same_hash, false);
}
