// A struct of deep fields, which is read back in pieces.

use crate::assertions::{assert_archived, assert_same, text, viewed};
use crate::judgements::{assert_faults, unknown_tag};
use archive_core::error::Error;
use derived_plain::parcel::{ArchivedParcel, Parcel, ParcelView};
use std::alloc::{AllocError, Global};
use std::collections::BTreeMap;
use std::process::Abort;

// A text and a zero; at 12 the pair of "a" and 3, at 24 the text "hi", at 32 the number 9. At 40 the parcel: its number and key, at 52 the option with 5 and the
// text, at 68 the pairs, at 76 the option with the texts, at 88 no entries, at 96 the result with the number.
const PARCEL: &[u8; 112] =
    b"hello world\0a\xff\xff\xff\xff\xff\xff\xff\x03\0\0\0hi\xff\xff\xff\xff\xff\xff\x09\0\0\0\0\0\0\0\x07\0\0\0\0\0\0\0\x01\x02\x03\x04\x01\0\0\0\x05\0\0\0\x8b\0\0\0\xc4\xff\xff\xff\xc8\xff\xff\xff\x01\0\0\0\x01\0\0\0\xc8\xff\xff\xff\x01\0\0\0\xc8\xff\xff\xff\0\0\0\0\x01\0\0\0\xbc\xff\xff\xff\x01\0\0\0\0\0\0\0";

// What the archive is of, with these texts.
fn parcel_of(
    alloc: Global,
    first: String,
    second: String,
    third: String,
) -> Result<Parcel, AllocError> {
    let content = vec![in alloc; (second, 3)]?;
    let notes = vec![in alloc; third]?;
    let offers = vec![in alloc; 9]?;
    Ok(Parcel {
        number: 7,
        key: [1, 2, 3, 4],
        weighed: Some((5, first)),
        content,
        notes: Some(notes),
        stations: BTreeMap::new(alloc),
        taken: Err(offers),
    })
}

fn parcel(rt: &impl Abort, alloc: Global) -> Parcel {
    let first = text(rt, alloc, "hello world");
    let second = text(rt, alloc, "a");
    let third = text(rt, alloc, "hi");
    parcel_of(alloc, first, second, third).expect(rt, "memory for a parcel")
}

#[test]
fn parcels_are_written_and_read_back(rt: HostRuntime) {
    let alloc = rt.alloc();
    assert_archived(&rt, alloc, &parcel(&rt, alloc), 72, PARCEL);
}

#[test]
fn the_fields_of_parcels_are_viewed(rt: HostRuntime) {
    let view = viewed::<ArchivedParcel>(&rt, rt.alloc(), PARCEL);
    assert_same(&rt, "the number", view.number().get(), 7);
    assert_same(&rt, "pairs", view.content().len(), 1);
    assert_same(&rt, "stations", view.stations().len(), 0);
    assert_same(&rt, "weighed", view.weighed().as_ref().is_some(), true);
    assert_same(&rt, "taken", view.taken().as_ref().is_ok(), false);
}

#[test]
fn faults_of_parcels_are_found(rt: HostRuntime) {
    let rows = [
        (0, 0xc0, Error::InvalidUtf8),
        (12, 0xc0, Error::InvalidUtf8),
        (52, 2, unknown_tag("ArchivedOption", 2)),
    ];
    assert_faults::<ArchivedParcel>(&rt, rt.alloc(), PARCEL, &rows);
}
