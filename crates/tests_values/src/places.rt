// Places of parts: each stands where its type says, and what is written there leaves the other bytes as they are.

ghost use Rattle.std.specs.Prelude.{◌≡◌, ◌+◌, ◌<◌, ◌^◌, Some, length};
ghost use Rattle.archive_check.specs.Members.PartsLayout.{part_at};
ghost use Rattle.archive_types.specs.Words.PlacedParts.{ChangesOnly, ZeroedPart};

use crate::assertions::assert_same;
use archive_check::format::error::Error;
use archive_tuple::ArchivedTuple2;
use archive_types::place::Place;
use archive_types::primitive::{ArchivedU16, ArchivedU32};
use archive_types::traits::{Archive, Record};

// A byte at 0, and a number at 4.
type Pair = ArchivedTuple2<u8, ArchivedU32>;

#[test]
fn a_field_is_written_where_it_stands(rt: HostRuntime) {
    let mut bytes = [0xcc; 8];
    let place: Place<'_, Pair> = Place::new(16, &mut bytes);
    let mut number = place.field::<ArchivedU32>(1);
    assert_same(&rt, "the position", number.pos(), 20);
    if number.as_slice().len() == 4 {
        number.write(258);
    }
    assert_same(&rt, "the bytes", bytes, *b"\xcc\xcc\xcc\xcc\x02\x01\0\0");
}

#[test]
fn an_element_is_written_where_it_stands(rt: HostRuntime) {
    let mut bytes = [0xcc; 6];
    let place: Place<'_, [ArchivedU16; 3]> = Place::new(16, &mut bytes);
    let mut element = place.index(1);
    assert_same(&rt, "the position", element.pos(), 18);
    if element.as_slice().len() == 2 {
        element.write(258);
    }
    assert_same(&rt, "the bytes", bytes, [0xcc, 0xcc, 2, 1, 0xcc, 0xcc]);
}

#[test]
fn a_place_is_lent(rt: HostRuntime) {
    let mut bytes = [0xcc; 4];
    let mut place: Place<'_, ArchivedU32> = Place::new(16, &mut bytes);
    place.reborrow().write(258);
    assert_same(&rt, "the position", place.pos(), 16);
    assert_same(&rt, "the bytes", place.as_slice(), &[2, 1, 0, 0]);
}

// Resolves a part of a record over these bytes, which stand at 16.
fn filled<X: Record, V: Archive>(
    i: usize,
    value: &V,
    resolver: V::Resolver,
    bytes: &mut [u8],
) -> Result<(), Error>
    requires part { part_at X.Parts.parts i ≡ Some V.Archived.shape }
    requires size { X.Parts.size_at i ≡ V.Archived.layout.size }
    requires sized { length bytes.old ≡ X.layout.size }
    requires ends { 16 + X.layout.size < 2 ^ 64 }
    requires zeroed { ZeroedPart (X.Parts.begin 0 i) V.Archived.layout.size bytes.old }
    requires same_value { V.belongs value.now resolver }
    ensures { ChangesOnly (X.Parts.begin 0 i) V.Archived.layout.size bytes.old bytes.new }
{
    let mut place: Place<'_, X> = Place::new(16, bytes);
    place.resolve_field(i, value, resolver)
}

#[test]
fn a_field_is_resolved_where_it_lies(rt: HostRuntime) {
    let mut bytes = [0u8; 8];
    bytes[0] = 0xcc;
    filled::<Pair, u32>(1, &258, (), bytes.as_mut_slice()).expect(&rt, "resolved");
    assert_same(&rt, "the bytes", bytes, *b"\xcc\0\0\0\x02\x01\0\0");
}

#[test]
fn an_element_is_resolved_where_it_lies(rt: HostRuntime) {
    let mut bytes = [0u8; 6];
    bytes[0] = 0xcc;
    let mut place: Place<'_, [ArchivedU16; 3]> = Place::new(16, &mut bytes);
    place.resolve_index(1, &258u16, ()).expect(&rt, "resolved");
    assert_same(&rt, "the bytes", bytes, [0xcc, 0, 2, 1, 0, 0]);
}
