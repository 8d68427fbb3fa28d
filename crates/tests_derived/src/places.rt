// Places of variants: what is written behind a tag leaves the other bytes as they are.

use crate::assertions::assert_same;
use archive_core::place::Place;
use archive_core::primitive::ArchivedU16;
use library_calls::turns::ArchivedTurn;

#[test]
fn a_variant_is_written_behind_its_tag(rt: HostRuntime) {
    let mut bytes = [0xcc; 4];
    let mut place: Place<'_, ArchivedTurn> = Place::new(16, &mut bytes);
    place.write_tag(1);
    let mut number = place.payload::<ArchivedU16>(1, 0);
    assert_same(&rt, "the position", number.pos(), 18);
    if number.as_slice().len() == 2 {
        number.write(258);
    }
    assert_same(&rt, "the bytes", bytes, *b"\x01\xcc\x02\x01");
}

#[test]
fn a_variant_is_resolved_behind_its_tag(rt: HostRuntime) {
    let mut bytes = [0u8; 4];
    let mut place: Place<'_, ArchivedTurn> = Place::new(16, &mut bytes);
    place.write_tag(1);
    place
        .resolve_payload(1, 0, &258u16, ())
        .expect(&rt, "resolved");
    assert_same(&rt, "the bytes", bytes, *b"\x01\0\x02\x01");
}
