// Archives that are edited in place.

ghost use Rattle.std.specs.Prelude.{◌≡◌, IsErr, OnOk, Some};
ghost use Rattle.archive_core.specs.Archives.{root_in};
ghost use Rattle.archive_core.specs.Leaves.{edit};
ghost use Rattle.archive_core.specs.KnownParts.{KnowsAlso};
ghost use Rattle.archive_core.specs.PartsLayout.{part_at, definitions_at};
ghost use Rattle.tests_whole.specs.EditedParts.{PartEdited};

mod maps;

use crate::assertions::{assert_bytes, assert_same, sealed, viewed};
use archive_core::api::access;
use archive_core::boxed::ArchivedBox;
use archive_core::core_impls::ArchivedTuple3;
use archive_core::error::Error;
use archive_core::option::ArchivedOption;
use archive_core::primitive::{ArchivedChar, ArchivedI32, ArchivedNonZeroU16, ArchivedU32, Native};
use archive_core::result::ArchivedResult;
use archive_core::seal::{SealedLeaf, SpotExt};
use archive_core::string::{ArchivedStr, ArchivedString};
use archive_core::traits::{ArchivePointee, Portable, Record};
use archive_core::vec::ArchivedVec;
use std::alloc::Global;
use std::process::Abort;

type Numbers = ArchivedTuple3<ArchivedI32, bool, ArchivedU32>;

// Writes over the root of an archive that is one leaf. A refusal changes nothing.
fn write_root<T: Portable + SealedLeaf>(
    alloc: Global,
    bytes: &mut [u8],
    value: T::Written,
) -> Result<(), Error>
    requires { T.can_hold value }
    ensures edited { OnOk result (bytes.new ≡ edit bytes.old (root_in bytes.old T.layout)
        (T.Written.bytes_of value)) }
    ensures refused { IsErr result → bytes.new ≡ bytes.old }
{
    let spot = match access::<T>(alloc, bytes) {
        Ok(root) => root.spot(),
        Err(error) => return Err(error),
    };
    spot.seal(bytes).write(value);
    Ok(())
}

// Writes a number over a part of a record by the part's spot, and reads it by the record's seal, which shows the record as before. A refusal changes
// nothing.
fn write_part<R: Record>(
    alloc: Global,
    bytes: &mut [u8],
    i: usize,
    value: u32,
) -> Result<u32, Error>
    requires part { part_at R.Parts.parts i ≡ Some ⟦<ArchivedU32 as Portable>⟧.shape }
    requires definitions { KnowsAlso (definitions_at R.Parts.definitions i)
        ⟦<ArchivedU32 as ArchivePointee>⟧.definitions }
    ensures edited { OnOk result (PartEdited bytes.old bytes.new R.layout (R.Parts.begin 0 i)
        (⟦<u32 as Native>⟧.bytes_of value)) }
    ensures refused { IsErr result → bytes.new ≡ bytes.old }
{
    let root = match access::<R>(alloc, bytes) {
        Ok(root) => root.spot(),
        Err(error) => return Err(error),
    };
    let part = root.view(bytes).field::<ArchivedU32>(i).spot();
    let mut seal = root.seal(bytes);
    seal.write_at(part, value);
    let written = seal.as_ref().field::<ArchivedU32>(i).get();
    Ok(written)
}

// The root is written over, and these are the bytes then; `what` names it.
fn assert_edited<T: Portable + SealedLeaf>(
    rt: &impl Abort,
    what: &str,
    alloc: Global,
    bytes: &mut [u8],
    value: T::Written,
    right: &[u8],
)
    requires { T.can_hold value }
{
    write_root::<T>(alloc, bytes, value).expect(rt, what);
    assert_bytes(rt, what, bytes, right);
}

#[test]
fn numbers_written_over(rt: HostRuntime) {
    let mut number = [42, 0, 0, 0];
    let right = &[0, 255, 255, 255];
    assert_edited::<ArchivedU32>(&rt, "a number", rt.alloc(), &mut number, 4294967040, right);
    let mut sign = [0xaa, 1];
    assert_edited::<i8>(&rt, "a sign", rt.alloc(), &mut sign, -1, &[0xaa, 0xff]);
    let mut number = [1, 0];
    let right = &[0x39, 0x05];
    assert_edited::<ArchivedNonZeroU16>(&rt, "not 0", rt.alloc(), &mut number, 1337, right);
}

#[test]
fn other_leaves_written_over(rt: HostRuntime) {
    let mut answer = [0xaa, 1];
    assert_edited::<bool>(&rt, "a bool", rt.alloc(), &mut answer, false, &[0xaa, 0]);
    let mut char = [0x41, 0, 0, 0];
    let right = &[0xe9, 0, 0, 0];
    assert_edited::<ArchivedChar>(&rt, "a char", rt.alloc(), &mut char, 'é', right);
}

// Writes over a text that stands elsewhere, where it is as long.
fn write_text(rt: &impl Abort, alloc: Global, bytes: &mut [u8], text: &str) {
    let seal = sealed::<ArchivedString>(rt, alloc, bytes).as_str_seal();
    if seal.as_ref().len() == text.len() {
        seal.write_str(text);
    }
}

// Writes over a text by the seal of its string, where it is as long.
fn write_string(rt: &impl Abort, alloc: Global, bytes: &mut [u8], text: &str) {
    let string = sealed::<ArchivedString>(rt, alloc, bytes);
    if string.as_ref().as_str().len() == text.len() {
        string.write_str(text);
    }
}

// Writes over a text in a box, where it is as long.
fn write_boxed_text(rt: &impl Abort, alloc: Global, bytes: &mut [u8], text: &str) {
    let seal = sealed::<ArchivedBox<ArchivedStr>>(rt, alloc, bytes).as_str_seal();
    if seal.as_ref().len() == text.len() {
        seal.write_str(text);
    }
}

#[test]
fn texts_written_over(rt: HostRuntime) {
    let mut bytes = *b"hello world\0\x8b\0\0\0\xf4\xff\xff\xff";
    write_text(&rt, rt.alloc(), &mut bytes, "HELLO WORLD");
    let right = b"HELLO WORLD\0\x8b\0\0\0\xf4\xff\xff\xff";
    assert_bytes(&rt, "a text elsewhere", &bytes, right);
    let mut bytes = *b"hi\xff\xff\xff\xff\xff\xff";
    write_string(&rt, rt.alloc(), &mut bytes, "é");
    let right = b"\xc3\xa9\xff\xff\xff\xff\xff\xff";
    assert_bytes(&rt, "a text in place", &bytes, right);
    let mut bytes = *b"hi\0\0\xfc\xff\xff\xff\x02\0\0\0";
    write_boxed_text(&rt, rt.alloc(), &mut bytes, "ho");
    let right = b"ho\0\0\xfc\xff\xff\xff\x02\0\0\0";
    assert_bytes(&rt, "a text in a box", &bytes, right);
}

// Writes over an element of a list, where it has so many.
fn write_element<T: Portable + SealedLeaf>(
    rt: &impl Abort,
    alloc: Global,
    bytes: &mut [u8],
    index: usize,
    value: T::Written,
)
    requires { T.can_hold value }
{
    let list = sealed::<ArchivedVec<T>>(rt, alloc, bytes);
    if list.as_ref().len() > index {
        list.index(index).write(value);
    }
}

// And over one by the seal of the list's slice.
fn write_in_slice<T: Portable + SealedLeaf>(
    rt: &impl Abort,
    alloc: Global,
    bytes: &mut [u8],
    index: usize,
    value: T::Written,
)
    requires { T.can_hold value }
{
    let slice = sealed::<ArchivedVec<T>>(rt, alloc, bytes).as_slice_seal();
    if slice.len() > index {
        slice.index(index).write(value);
    }
}

#[test]
fn elements_written_over(rt: HostRuntime) {
    let mut bytes = *b"\x01\0\0\0\x02\0\0\0\x03\0\0\0\xf4\xff\xff\xff\x03\0\0\0";
    write_element::<ArchivedI32>(&rt, rt.alloc(), &mut bytes, 2, -1);
    write_in_slice::<ArchivedI32>(&rt, rt.alloc(), &mut bytes, 0, 7);
    let right = b"\x07\0\0\0\x02\0\0\0\xff\xff\xff\xff\xf4\xff\xff\xff\x03\0\0\0";
    assert_bytes(&rt, "a list", &bytes, right);
    let mut bytes = [1, 0, 0, 0, 2, 0, 0, 0];
    let array = sealed::<[ArchivedU32; 2]>(&rt, rt.alloc(), &mut bytes);
    array.index(1).write(258);
    assert_bytes(&rt, "an array", &bytes, &[1, 0, 0, 0, 2, 1, 0, 0]);
}

// Writes over what a box holds.
fn write_boxed<T: Portable + SealedLeaf>(
    rt: &impl Abort,
    alloc: Global,
    bytes: &mut [u8],
    value: T::Written,
)
    requires { T.can_hold value }
{
    sealed::<ArchivedBox<T>>(rt, alloc, bytes)
        .get_seal()
        .write(value);
}

// Writes over an option's value. Whether there is one.
fn write_some<T: Portable + SealedLeaf>(
    rt: &impl Abort,
    alloc: Global,
    bytes: &mut [u8],
    value: T::Written,
) -> bool
    requires { T.can_hold value }
{
    let Some(seal) = sealed::<ArchivedOption<T>>(rt, alloc, bytes).as_seal() else {
        return false;
    };
    seal.write(value);
    true
}

// And over the one item of an iterator over it.
fn write_item<T: Portable + SealedLeaf>(
    rt: &impl Abort,
    alloc: Global,
    bytes: &mut [u8],
    value: T::Written,
)
    requires { T.can_hold value }
{
    let mut items = sealed::<ArchivedOption<T>>(rt, alloc, bytes).iter_seal();
    if let Some(seal) = items.next() {
        seal.write(value);
    }
}

// And over that of the seal's own iterator.
fn write_own_item<T: Portable + SealedLeaf>(
    rt: &impl Abort,
    alloc: Global,
    bytes: &mut [u8],
    value: T::Written,
)
    requires { T.can_hold value }
{
    let mut items = sealed::<ArchivedOption<T>>(rt, alloc, bytes).into_iter();
    if let Some(seal) = items.next() {
        seal.write(value);
    }
}

#[test]
fn values_in_boxes_and_options_written_over(rt: HostRuntime) {
    let mut bytes = *b"\x07\0\0\0\xfc\xff\xff\xff";
    write_boxed::<ArchivedU32>(&rt, rt.alloc(), &mut bytes, 9);
    assert_bytes(&rt, "in a box", &bytes, b"\x09\0\0\0\xfc\xff\xff\xff");
    let mut bytes = [1, 0, 0, 0, 7, 0, 0, 0];
    let is_some = write_some::<ArchivedU32>(&rt, rt.alloc(), &mut bytes, 9);
    assert_same(
        &rt,
        "a value",
        (is_some, bytes),
        (true, [1, 0, 0, 0, 9, 0, 0, 0]),
    );
    write_item::<ArchivedU32>(&rt, rt.alloc(), &mut bytes, 11);
    assert_bytes(&rt, "the item", &bytes, &[1, 0, 0, 0, 11, 0, 0, 0]);
    write_own_item::<ArchivedU32>(&rt, rt.alloc(), &mut bytes, 6);
    assert_bytes(&rt, "its own item", &bytes, &[1, 0, 0, 0, 6, 0, 0, 0]);
    let mut none = [0, 0, 0, 0, 7, 0, 0, 0];
    let is_some = write_some::<ArchivedU32>(&rt, rt.alloc(), &mut none, 9);
    assert_same(
        &rt,
        "no value",
        (is_some, none),
        (false, [0, 0, 0, 0, 7, 0, 0, 0]),
    );
}

// Writes over what a result holds. Whether that is its value.
fn write_outcome<T: Portable + SealedLeaf>(
    rt: &impl Abort,
    alloc: Global,
    bytes: &mut [u8],
    value: T::Written,
) -> bool
    requires { T.can_hold value }
{
    match sealed::<ArchivedResult<T, T>>(rt, alloc, bytes).as_seal() {
        Ok(seal) => {
            seal.write(value);
            true
        }
        Err(seal) => {
            seal.write(value);
            false
        }
    }
}

// And over the one item of an iterator over it.
fn write_value<T: Portable + SealedLeaf>(
    rt: &impl Abort,
    alloc: Global,
    bytes: &mut [u8],
    value: T::Written,
)
    requires { T.can_hold value }
{
    let mut items = sealed::<ArchivedResult<T, T>>(rt, alloc, bytes).iter_seal();
    if let Some(seal) = items.next() {
        seal.write(value);
    }
}

#[test]
fn what_a_result_holds_is_written_over(rt: HostRuntime) {
    let mut bytes = [0, 0, 0, 0, 9, 0, 0, 0];
    let is_value = write_outcome::<ArchivedU32>(&rt, rt.alloc(), &mut bytes, 7);
    assert_same(
        &rt,
        "a value",
        (is_value, bytes),
        (true, [0, 0, 0, 0, 7, 0, 0, 0]),
    );
    write_value::<ArchivedU32>(&rt, rt.alloc(), &mut bytes, 8);
    assert_bytes(&rt, "the item", &bytes, &[0, 0, 0, 0, 8, 0, 0, 0]);
    let mut bytes = [1, 0, 0, 0, 7, 0, 0, 0];
    let is_value = write_outcome::<ArchivedU32>(&rt, rt.alloc(), &mut bytes, 5);
    assert_same(
        &rt,
        "an error",
        (is_value, bytes),
        (false, [1, 0, 0, 0, 5, 0, 0, 0]),
    );
}

// The tuple (24, true, 16), of which the last is written over by its spot.
#[test]
fn a_part_is_written_over_by_its_spot(rt: HostRuntime) {
    let mut bytes = *b"\x18\0\0\0\x01\0\0\0\x10\0\0\0";
    let number = write_part::<Numbers>(rt.alloc(), &mut bytes, 2, 258);
    assert_same(&rt, "the part", number.expect(&rt, "a part"), 258);
    let right = b"\x18\0\0\0\x01\0\0\0\x02\x01\0\0";
    assert_bytes(&rt, "the bytes", &bytes, right);
}

#[test]
fn a_lent_seal_writes(rt: HostRuntime) {
    let alloc = rt.alloc();
    let mut bytes = [0xaa, 0, 0, 0, 42, 0, 0, 0];
    let mut number = sealed::<ArchivedU32>(&rt, alloc, &mut bytes);
    number.reborrow().write(258);
    assert_same(&rt, "the position", number.pos(), 4);
    assert_bytes(&rt, "the bytes", &bytes, &[0xaa, 0, 0, 0, 2, 1, 0, 0]);
    let spot = viewed::<ArchivedU32>(&rt, alloc, &bytes).spot();
    assert_same(&rt, "the spot", spot.pos(), 4);
}
