// A record of an own type: written and read back by the calls of the program in readme.rt, written to full buffers, and viewed and edited in place. What is
// shown of its archives is generic in the record, so that a call at the type is made once.

ghost use Rattle.std.specs.Prelude.{◌≡◌, ◌≤◌, Some};
ghost use Rattle.archive_core.specs.KnownParts.{KnowsAlso};
ghost use Rattle.archive_core.specs.PartsLayout.{part_at, definitions_at};
ghost use Rattle.archive_core.specs.Shape.{one, vec as vec_shape};
ghost use Rattle.archive_core.specs.SealOutcomes.{IsSealOf};

use crate::assertions::{
    assert_bytes, assert_changed, assert_holds, assert_same, made, sealed, tag_of_none, viewed,
};
use crate::readme::{archived, record, value_of};
use archive_core::api::to_bytes_in;
use archive_core::error::Error;
use archive_core::option::ArchivedOption;
use archive_core::primitive::ArchivedI32;
use archive_core::seal::{Seal, SealedLeaf};
use archive_core::ser::{Buffer, Writer};
use archive_core::string::ArchivedString;
use archive_core::traits::{ArchivePointee, Portable, Record};
use archive_core::vec::ArchivedVec;
use archive_core::view::Ref;
use own_types::test_record::{ArchivedTest, Test};
use std::alloc::Global;
use std::process::Abort;

// An archived list of numbers, if there is one.
type Numbers = ArchivedOption<ArchivedVec<ArchivedI32>>;

// A text, four numbers, and at 28 the record that points back at them.
pub(crate) const RECORD: &[u8; 52] =
    b"hello world\0\x01\0\0\0\x02\0\0\0\x03\0\0\0\x04\0\0\0*\0\0\0\x8b\0\0\0\xe0\xff\xff\xff\x01\0\0\0\xe0\xff\xff\xff\x04\0\0\0";

#[test]
fn a_record_is_written(rt: HostRuntime) {
    let bytes = made(&rt, "an archive", archived(rt.alloc()));
    assert_bytes(&rt, "the archive", &bytes, RECORD);
}

#[test]
fn a_record_comes_back(rt: HostRuntime) {
    let back = made(&rt, "a record", value_of(rt.alloc(), RECORD));
    let value = record(rt.alloc()).expect(&rt, "memory for a record");
    assert_holds(&rt, "the record comes back", back == value);
}

// Appends the archive of a record to a writer that is lent, which keeps what was written of it where that is refused.
pub(crate) fn append_record<W: Writer>(
    alloc: Global,
    record: &Test,
    writer: &mut W,
) -> Result<(), Error> {
    to_bytes_in(alloc, record, writer)?;
    Ok(())
}

// Why a buffer over these bytes doesn't take the archive of a record; none where it does. It holds a beginning of it.
fn refusal_within(
    rt: &impl Abort,
    alloc: Global,
    record: &Test,
    bytes: &mut [u8],
) -> Option<Error> {
    let mut buffer = Buffer::from(bytes);
    let refusal = append_record(alloc, record, &mut buffer).err();
    let begun = RECORD.starts_with(buffer.as_slice());
    assert_holds(rt, "a beginning of the archive", begun);
    refusal
}

// A buffer over so many bytes is too small for a record, and says how many they are.
fn assert_too_small(rt: &impl Abort, alloc: Global, record: &Test, size: usize)
    requires { size ≤ 52 }
{
    let mut bytes = [0xcc; 52];
    let refusal = refusal_within(rt, alloc, record, &mut bytes[..size]);
    let Some(Error::BufferOverflow { cap, .. }) = refusal else {
        panic!(rt; "no overflow of {size} bytes")
    };
    assert_same(rt, "the room", cap, size);
}

// The write that finds a buffer over twenty bytes full, and the one that finds one over thirty full.
fn assert_overflows(rt: &impl Abort, alloc: Global, record: &Test) {
    let text_alone = Error::BufferOverflow {
        write_len: 16,
        cap: 20,
        len: 12,
    };
    let twenty = refusal_within(rt, alloc, record, &mut [0xcc; 20]);
    assert_same(rt, "no room for the list", twenty, Some(text_alone));
    let text_and_list = Error::BufferOverflow {
        write_len: 24,
        cap: 30,
        len: 28,
    };
    let thirty = refusal_within(rt, alloc, record, &mut [0xcc; 30]);
    assert_same(rt, "no room for the root", thirty, Some(text_and_list));
}

#[test]
fn a_record_in_a_full_buffer(rt: HostRuntime) {
    let record = record(rt.alloc()).expect(&rt, "memory for a record");
    for size in 0..52usize {
        assert_too_small(&rt, rt.alloc(), &record, size);
    }
    assert_overflows(&rt, rt.alloc(), &record);
    let mut bytes = [0xcc; 52];
    let refusal = refusal_within(&rt, rt.alloc(), &record, &mut bytes);
    assert_same(&rt, "with room for all", refusal, None);
    assert_bytes(&rt, "the archive", &bytes, RECORD);
}

// How many numbers a list has; 0 where there is none.
fn count(list: Ref<'_, Numbers>) -> usize {
    match list.as_ref() {
        None => 0,
        Some(list) => list.len(),
    }
}

// A number, a text and a list are viewed.
fn assert_fields<R: Record>(rt: &impl Abort, alloc: Global)
    requires number { part_at R.Parts.parts 0 ≡ Some ⟦<u8 as Portable>⟧.shape }
    requires number_names { KnowsAlso (definitions_at R.Parts.definitions 0)
        ⟦<u8 as ArchivePointee>⟧.definitions }
    requires text { part_at R.Parts.parts 1 ≡ Some ⟦<ArchivedString as Portable>⟧.shape }
    requires text_names { KnowsAlso (definitions_at R.Parts.definitions 1)
        ⟦<ArchivedString as ArchivePointee>⟧.definitions }
    requires list { part_at R.Parts.parts 2 ≡ Some ⟦<Numbers as Portable>⟧.shape }
    requires list_names { KnowsAlso (definitions_at R.Parts.definitions 2)
        ⟦<Numbers as ArchivePointee>⟧.definitions }
{
    let view = viewed::<R>(rt, alloc, RECORD);
    assert_same(rt, "the position", view.pos(), 28);
    assert_same(rt, "the number", view.field::<u8>(0).get(), 42);
    let text = view.field::<ArchivedString>(1).as_str();
    assert_same(rt, "the text", text, "hello world");
    assert_same(rt, "the list", count(view.field::<Numbers>(2)), 4);
}

// A list with another tag is refused.
fn assert_tag_refused<T: Portable>(rt: &impl Abort, alloc: Global) {
    assert_changed::<T>(rt, alloc, RECORD, 40, 2, tag_of_none("ArchivedOption", 2));
}

// The number is written over, and no other byte.
fn assert_number_written_over<R: Record>(rt: &impl Abort, alloc: Global)
    requires number { part_at R.Parts.parts 0 ≡ Some ⟦<u8 as Portable>⟧.shape }
    requires number_names { KnowsAlso (definitions_at R.Parts.definitions 0)
        ⟦<u8 as ArchivePointee>⟧.definitions }
{
    let mut bytes = *RECORD;
    sealed::<R>(rt, alloc, &mut bytes).field::<u8>(0).write(7);
    let mut wanted = *RECORD;
    wanted[28] = 7;
    assert_bytes(rt, "with another number", &bytes, &wanted);
}

// Writes over the third element of a list, if there is one.
fn write_third<T: Portable + SealedLeaf>(list: Seal<'_, ArchivedVec<T>>, value: T::Written)
    requires come_to { IsSealOf T.definitions (one (vec_shape T.shape)) list }
    requires can_hold { T.can_hold value }
{
    if list.as_ref().len() > 2 {
        list.index(2).write(value);
    }
}

// An element of the list is written over, and no other byte.
fn assert_element_written_over<R: Record>(rt: &impl Abort, alloc: Global)
    requires list { part_at R.Parts.parts 2 ≡ Some ⟦<Numbers as Portable>⟧.shape }
    requires list_names { KnowsAlso (definitions_at R.Parts.definitions 2)
        ⟦<Numbers as ArchivePointee>⟧.definitions }
{
    let mut bytes = *RECORD;
    let list = sealed::<R>(rt, alloc, &mut bytes)
        .field::<Numbers>(2)
        .as_seal();
    if let Some(list) = list {
        write_third::<ArchivedI32>(list, -1);
    }
    let mut wanted = *RECORD;
    for at in 20..24 {
        wanted[at] = 0xff;
    }
    assert_bytes(rt, "with another element", &bytes, &wanted);
}

// Archives of a record of a number, a text and a list are viewed, refused, and edited in place.
fn assert_archives<R: Record>(rt: &impl Abort, alloc: Global)
    requires number { part_at R.Parts.parts 0 ≡ Some ⟦<u8 as Portable>⟧.shape }
    requires number_names { KnowsAlso (definitions_at R.Parts.definitions 0)
        ⟦<u8 as ArchivePointee>⟧.definitions }
    requires text { part_at R.Parts.parts 1 ≡ Some ⟦<ArchivedString as Portable>⟧.shape }
    requires text_names { KnowsAlso (definitions_at R.Parts.definitions 1)
        ⟦<ArchivedString as ArchivePointee>⟧.definitions }
    requires list { part_at R.Parts.parts 2 ≡ Some ⟦<Numbers as Portable>⟧.shape }
    requires list_names { KnowsAlso (definitions_at R.Parts.definitions 2)
        ⟦<Numbers as ArchivePointee>⟧.definitions }
{
    assert_fields::<R>(rt, alloc);
    assert_tag_refused::<R>(rt, alloc);
    assert_number_written_over::<R>(rt, alloc);
    assert_element_written_over::<R>(rt, alloc);
}

#[test]
fn an_archived_record_is_viewed_and_edited(rt: HostRuntime) {
    assert_archives::<ArchivedTest>(&rt, rt.alloc());
}
