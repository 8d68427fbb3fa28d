// Regions: values behind others, in vectors and in buffers, and calls within a region.

use crate::assertions::{ByParts, HELLO_WORLD, assert_bytes, assert_refusal, assert_same, viewed};
use archive_check::context::{ArchiveContextExt, ArchiveValidator};
use archive_check::format::error::Error;
use archive_types::place::Place;
use archive_types::primitive::ArchivedU32;
use archive_types::ser::{
    Buffer, ResolveExt, ResolverAlloc, Serializer, Writer, serialize_one, serialize_with,
};
use archive_types::slice::ArchivedSlice;
use archive_types::string::ArchivedStr;
use archive_types::traits::{Archive, Serialize, SerializeUnsized};
use std::alloc::Global;
use std::process::Abort;

// Where a value's next region stands.
fn region_of<T: Serialize<S>, S: Writer + ResolverAlloc>(
    rt: &impl Abort,
    value: &T,
    serializer: &mut S,
) -> usize {
    serialize_one(value, serializer).expect(rt, "a region")
}

#[test]
fn values_are_laid_out_as_regions(rt: HostRuntime) {
    let value = String::from_str(rt.alloc(), "hello world").expect(&rt, "memory");
    let mut serializer = Serializer::new(Vec::new(rt.alloc()), rt.alloc(), ());
    let text = region_of(&rt, &value, &mut serializer);
    let number = region_of(&rt, &42u16, &mut serializer);
    let wide = region_of(&rt, &7u64, &mut serializer);
    assert_same(&rt, "the regions", (text, number, wide), (12, 20, 24));
    let writer = serializer.into_writer();
    let Some((first, rest)) = writer.as_slice().split_at_checked(20) else {
        panic!(rt; "fewer than 20 bytes")
    };
    assert_bytes(&rt, "the text's region", first, HELLO_WORLD);
    assert_bytes(&rt, "the numbers", rest, b"\x2a\0\0\0\x07\0\0\0\0\0\0\0");
}

// Its 100 bytes are more than a local array holds.
#[test]
fn a_large_region_is_resolved_on_the_heap(rt: HostRuntime) {
    let mut serializer = Serializer::new(Vec::new(rt.alloc()), rt.alloc(), ());
    let number = region_of(&rt, &42u32, &mut serializer);
    let sevens = region_of(&rt, &[0x0707_0707u32; 25], &mut serializer);
    assert_same(&rt, "the regions", (number, sevens), (0, 4));
    let writer = serializer.into_writer();
    let view = viewed::<[ArchivedU32; 25]>(&rt, writer.as_slice());
    assert_same(&rt, "the view", (view.pos(), writer.len()), (4, 104));
    let ends = (view.index(0).get(), view.index(24).get());
    assert_same(&rt, "sevens", ends, (0x0707_0707, 0x0707_0707));
}

// Writes a byte and a wide number.
fn write_pair<W: Writer>(rt: &impl Abort, alloc: Global, writer: &mut W) -> usize {
    let pair: (u8, u64) = (1, 2);
    serialize_with(alloc, &pair, writer).expect(rt, "an archive")
}

#[test]
fn padding_is_zero_and_the_bytes_beyond_are_left(rt: HostRuntime) {
    let mut bytes = [0xcc; 18];
    let mut buffer = Buffer::from(&mut bytes);
    let root = write_pair(&rt, rt.alloc(), &mut buffer);
    assert_same(&rt, "the root", root, 0);
    let right = b"\x01\0\0\0\0\0\0\0\x02\0\0\0\0\0\0\0\xcc\xcc";
    assert_bytes(&rt, "the bytes", &bytes, right);
}

#[test]
fn a_place_is_resolved_and_written(rt: HostRuntime) {
    let mut bytes = [0; 4];
    let place: Place<'_, ArchivedU32> = Place::new(8, &mut bytes);
    assert_same(&rt, "the position", place.pos(), 8);
    42u32.resolve((), place).expect(&rt, "a resolved number");
    assert_same(&rt, "the bytes", bytes, [42, 0, 0, 0]);
    let mut writer = Vec::new(rt.alloc());
    let region = writer.resolve_aligned(rt.alloc(), &42u32, ());
    let region = region.expect(&rt, "a region");
    assert_same(&rt, "the position of the region", region, 0);
    assert_bytes(&rt, "what is written", writer.as_slice(), &bytes);
}

#[test]
fn a_slice_is_resolved_and_written(rt: HostRuntime) {
    let mut writer = Vec::new(rt.alloc());
    let resolvers = vec![in rt.alloc(); ()].expect(&rt, "memory");
    let region = writer.resolve_slice_aligned(rt.alloc(), &[7u32], resolvers);
    assert_same(&rt, "the region", region.expect(&rt, "a region"), 0);
    assert_bytes(&rt, "what is written", writer.as_slice(), &[7, 0, 0, 0]);
}

// A value is written as these bytes, its region at a position in them.
fn assert_region<T: SerializeUnsized<ByParts>>(
    rt: &impl Abort,
    alloc: Global,
    value: &T,
    position: usize,
    bytes: &[u8],
) {
    let mut serializer = Serializer::new(Vec::new(alloc), alloc, ());
    let region = value.serialize_unsized(&mut serializer);
    let region = region.expect(rt, "a region");
    assert_same(rt, "the region", region, position);
    let written = serializer.into_writer();
    assert_bytes(rt, "the bytes", written.as_slice(), bytes);
}

#[test]
fn values_are_regions_of_their_own(rt: HostRuntime) {
    let alloc = rt.alloc();
    assert_region(&rt, alloc, &7u32, 0, b"\x07\0\0\0");
    assert_region(&rt, alloc, &Some(7u32), 0, b"\x01\0\0\0\x07\0\0\0");
    let result: Result<u32, u32> = Err(7);
    assert_region(&rt, alloc, &result, 0, b"\x01\0\0\0\x07\0\0\0");
    let pair: (u32, u32) = (7, 8);
    assert_region(&rt, alloc, &pair, 0, b"\x07\0\0\0\x08\0\0\0");
}

#[test]
fn owners_are_regions_of_their_own(rt: HostRuntime) {
    let alloc = rt.alloc();
    let text = String::from_str(alloc, "hello world").expect(&rt, "memory");
    assert_region(&rt, alloc, &text, 12, HELLO_WORLD);
    let number = Box::new(alloc, 7u32).expect(&rt, "memory");
    let bytes = b"\x07\0\0\0\xfc\xff\xff\xff";
    assert_region(&rt, alloc, &number, 4, bytes);
}

#[test]
fn a_call_is_made_within_the_region_of_a_length(rt: HostRuntime) {
    let mut range = ArchiveValidator::with_max_depth(&[0; 12], Some(2));
    let inside = range.in_subtree::<ArchivedStr, _, _, _>(5, 7, |inner| -> Result<Error, Error> {
        let too_long = inner.in_subtree::<ArchivedStr, _, _, _>(0, 6, |_| -> Result<(), Error> {
            Ok(())
        });
        Ok(too_long.err().unwrap_or(Error::OutOfMemory))
    });
    let too_long = Error::InvalidSubtreePointer {
        position: 0,
        size: 6,
        start: 0,
        end: 5,
    };
    assert_same(&rt, "inside", inside.expect(&rt, "a call"), too_long);
    let large = range.in_subtree::<ArchivedSlice<ArchivedU32>, _, _, _>(
        12,
        usize::MAX,
        |_| -> Result<(), Error> { Ok(()) },
    );
    assert_refusal(&rt, "too large", large, Error::LayoutTooLarge);
    assert_same(&rt, "regions", range.subtrees(), 1);
}
