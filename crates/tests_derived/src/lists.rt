// A record without names, of a record with parameters, an array and a list of options of records; and such records at other types.

use crate::assertions::{
    assert_archived, assert_bytes, assert_holds, assert_same, assert_written, sealed, text,
    value_of, viewed,
};
use crate::judgements::{assert_faults, assert_refused, outside, unaligned, unknown_tag};
use crate::spots::assert_spot;
use archive_core::core_impls::OwnedArray;
use archive_core::error::Error;
use archive_core::option::ArchivedOption;
use archive_core::primitive::{ArchivedU16, ArchivedU64};
use archive_core::string::ArchivedString;
use archive_core::view::Ref;
use derived_types::event::ArchivedEvent;
use derived_types::kinds::{ArchivedLists, Lists, ListsSeal, ListsView};
use derived_types::pair::{ArchivedPair, Pair, PairSeal, PairView};
use derived_types::spot::{ArchivedSpot, Line, LineSeal, LineView, Spot, SpotSeal};
use std::alloc::Global;
use std::process::Abort;

// An option of the numbers 1 and -2, a None, and four zeros. At 16, a multiple of 8, the number 7 of eight bytes, the line of 3, 4, 5 and -6 of two bytes each,
// at 32 the numbers 1, -1, 258 and 0, and the vector that points 40 bytes back at both options.
const LISTS: &[u8; 48] =
    b"\x01\0\x01\0\xfe\xff\0\0\0\0\0\0\0\0\0\0\x07\0\0\0\0\0\0\0\x03\0\x04\0\x05\0\xfa\xff\x01\0\xff\xff\x02\x01\0\0\xd8\xff\xff\xff\x02\0\0\0";

// The value that those bytes are the archive of.
fn lists(rt: &impl Abort, alloc: Global) -> Lists {
    let four = [1i16, -1, 258, 0]
        .to_vec(alloc)
        .expect(rt, "memory for numbers");
    let spots = vec![in alloc; Some(Spot { right: 1, up: -2 }), None];
    let right = Line {
        from: Spot { right: 3, up: 4 },
        to: Spot { right: 5, up: -6 },
    };
    let pair = Pair { left: 7, right };
    Lists(
        pair,
        OwnedArray::from_vec(four).expect(rt, "four numbers"),
        spots.expect(rt, "memory for places"),
    )
}

#[test]
fn lists_are_written(rt: HostRuntime) {
    let lists = lists(&rt, rt.alloc());
    assert_written(&rt, rt.alloc(), &lists, 32, LISTS);
}

#[test]
fn lists_are_read_back(rt: HostRuntime) {
    let back: Lists = value_of(&rt, rt.alloc(), LISTS, &mut ());
    let wanted = lists(&rt, rt.alloc());
    let numbers = back.1.as_slice();
    assert_same(&rt, "the numbers", numbers, [1, -1, 258, 0].as_slice());
    assert_same(&rt, "the places", &back.2, &wanted.2);
    assert_same(&rt, "the pair", &back.0, &wanted.0);
}

// The options of a list: a place, and none.
fn assert_spots(
    rt: &impl Abort,
    first: Ref<'_, ArchivedOption<ArchivedSpot>>,
    second: Ref<'_, ArchivedOption<ArchivedSpot>>,
) {
    let Some(spot) = first.as_ref() else {
        panic!(rt; "no place")
    };
    assert_spot(rt, spot, 1, -2);
    assert_holds(rt, "none", second.as_ref().is_none());
}

#[test]
fn lists_are_viewed(rt: HostRuntime) {
    let view = viewed::<ArchivedLists>(&rt, rt.alloc(), LISTS);
    let third = view.field_1().index(2).get();
    assert_same(&rt, "a number", (third, view.field_1().len()), (258, 4));
    let spots = view.field_2().as_slice();
    let (Some(first), Some(second)) = (spots.get(0), spots.get(1)) else {
        panic!(&rt; "not two")
    };
    assert_spots(&rt, first, second);
    assert_same(&rt, "to the left", view.field_0().left().get(), 7);
    let line = view.field_0().right();
    assert_spot(&rt, line.from(), 3, 4);
    assert_spot(&rt, line.to(), 5, -6);
}

// Writes over the last number, and over the first place of the pair's line.
fn write_lists(rt: &impl Abort, alloc: Global, bytes: &mut [u8]) {
    let four = sealed::<ArchivedLists>(rt, alloc, bytes).field_1_mut();
    four.index(3).write(5);
    let pair = sealed::<ArchivedLists>(rt, alloc, bytes).field_0_mut();
    pair.right_mut().from_mut().up_mut().write(-1);
}

// And over the first place of the list.
fn write_first(rt: &impl Abort, alloc: Global, bytes: &mut [u8]) {
    let spots = sealed::<ArchivedLists>(rt, alloc, bytes)
        .field_2_mut()
        .as_slice_seal();
    if spots.len() > 0 {
        if let Some(spot) = spots.index(0).as_seal() {
            spot.right_mut().write(9);
        }
    }
}

#[test]
fn lists_are_edited(rt: HostRuntime) {
    let mut bytes = *LISTS;
    write_lists(&rt, rt.alloc(), &mut bytes);
    write_first(&rt, rt.alloc(), &mut bytes);
    let wanted =
        b"\x01\0\x09\0\xfe\xff\0\0\0\0\0\0\0\0\0\0\x07\0\0\0\0\0\0\0\x03\0\xff\xff\x05\0\xfa\xff\x01\0\xff\xff\x02\x01\x05\0\xd8\xff\xff\xff\x02\0\0\0";
    assert_bytes(&rt, "the edited lists", &bytes, wanted);
}

#[test]
fn faults_of_lists_are_found(rt: HostRuntime) {
    let rows = [
        (6, 2, unknown_tag("ArchivedOption", 2)),
        (40, 0xd9, unaligned(1, 2)),
        (44, 3, outside(0, 18, 0, 16)),
    ];
    assert_faults::<ArchivedLists>(&rt, rt.alloc(), LISTS, &rows);
    let rows: [(&[u8], Error); 1] = [(&[0; 36], unaligned(4, 8))];
    assert_refused::<ArchivedLists>(&rt, rt.alloc(), &rows);
}

// A text and a zero, and at 12 the number 258 with the string that points back at the text.
const NUMBER_AND_TEXT: &[u8; 24] = b"hello world\0\x02\x01\0\0\x8b\0\0\0\xf0\xff\xff\xff";

// The tag 3 with the numbers -2 and 258, and behind it the number 7 of eight bytes at a multiple of eight.
const STEP_AND_NUMBER: &[u8; 24] =
    b"\x03\0\0\0\xfe\xff\xff\xff\x02\x01\0\0\0\0\0\0\x07\0\0\0\0\0\0\0";

#[test]
fn a_pair_of_a_number_and_a_text(rt: HostRuntime) {
    let pair = Pair {
        left: 258u16,
        right: text(&rt, rt.alloc(), "hello world"),
    };
    assert_archived(&rt, rt.alloc(), &pair, 12, NUMBER_AND_TEXT);
    let view = viewed::<ArchivedPair<ArchivedU16, ArchivedString>>(
        &rt,
        rt.alloc(),
        NUMBER_AND_TEXT,
    );
    let found = (view.left().get(), view.right().as_str());
    assert_same(&rt, "both", found, (258, "hello world"));
}

#[test]
fn faults_of_pairs_are_found(rt: HostRuntime) {
    type Step = ArchivedPair<ArchivedEvent, ArchivedU64>;
    let unknown = unknown_tag("ArchivedEvent", 6);
    assert_faults::<Step>(&rt, rt.alloc(), STEP_AND_NUMBER, &[(0, 6, unknown)]);
    type Named = ArchivedPair<ArchivedU16, ArchivedString>;
    let rows = [
        (16, 0x88, Error::InvalidStringRepr),
        (20, 0xf2, outside(2, 11, 0, 12)),
    ];
    assert_faults::<Named>(&rt, rt.alloc(), NUMBER_AND_TEXT, &rows);
}
