// A struct of seventeen fields, three of them deep, which is checked, written and read back in blocks.

use crate::assertions::{
    assert_archived, assert_bytes, assert_same, sealed, text, viewed, write_text,
};
use crate::judgements::{assert_faults, outside, unknown_tag};
use archive_core::error::Error;
use derived_plain::shipment::{ArchivedShipment, Shipment, ShipmentSeal, ShipmentView};
use std::alloc::Global;
use std::process::Abort;

// Two texts. At 24 the shipment: its number and key, at 29 whether it is open and two zeros, at 32 the option with 5 and the first text, at 48 the class, deck,
// row, place, side, layers, boxes and ports, at 56 the stamps and the size and a zero, at 60 the second text, at 68 the days and three
// zeros, at 72 the seconds.
const SHIPMENT: &[u8; 80] =
    b"hello worldfrom far away\x07\x01\x02\x03\x04\x01\0\0\x01\0\0\0\x05\0\0\0\x8b\0\0\0\xd8\xff\xff\xff\x09\x02\x0a\x0b\xfd\x04\x0c\x06\x0d\x03\x02\0\x8d\0\0\0\xcf\xff\xff\xff\x0e\0\0\0\x02\x01\0\0\0\0\0\0";

fn shipment(rt: &impl Abort, alloc: Global) -> Shipment {
    Shipment {
        number: 7,
        key: [1, 2, 3, 4],
        is_open: true,
        weighed: Some((5, text(rt, alloc, "hello world"))),
        class: 9,
        deck: 2,
        row: 10,
        place: 11,
        side: -3,
        layers: 4,
        boxes: 12,
        ports: 6,
        stamps: 13,
        size: (3, 2),
        sender: text(rt, alloc, "from far away"),
        due: 14,
        came: 258,
    }
}

#[test]
fn shipments_are_written_and_read_back(rt: HostRuntime) {
    let alloc = rt.alloc();
    assert_archived(&rt, alloc, &shipment(&rt, alloc), 56, SHIPMENT);
}

#[test]
fn the_fields_of_shipments_are_viewed(rt: HostRuntime) {
    let view = viewed::<ArchivedShipment>(&rt, rt.alloc(), SHIPMENT);
    assert_same(&rt, "the number", view.number().get(), 7);
    assert_same(&rt, "weighed", view.weighed().as_ref().is_some(), true);
    assert_same(&rt, "the side", view.side().get(), -3);
    assert_same(&rt, "the stamps", view.stamps().get(), 13);
    assert_same(&rt, "the sender", view.sender().as_str(), "from far away");
    assert_same(&rt, "the days", view.due().get(), 14);
    assert_same(&rt, "the seconds", view.came().get(), 258);
}

#[test]
fn shipments_are_edited(rt: HostRuntime) {
    let mut bytes = *SHIPMENT;
    let mut seal = sealed::<ArchivedShipment>(&rt, rt.alloc(), &mut bytes);
    seal.ports_mut().write(1);
    seal = sealed::<ArchivedShipment>(&rt, rt.alloc(), &mut bytes);
    write_text(seal.sender_mut(), "from near by.");
    seal = sealed::<ArchivedShipment>(&rt, rt.alloc(), &mut bytes);
    seal.came_mut().write(3);
    let wanted =
        b"hello worldfrom near by.\x07\x01\x02\x03\x04\x01\0\0\x01\0\0\0\x05\0\0\0\x8b\0\0\0\xd8\xff\xff\xff\x09\x02\x0a\x0b\xfd\x04\x0c\x01\x0d\x03\x02\0\x8d\0\0\0\xcf\xff\xff\xff\x0e\0\0\0\x03\0\0\0\0\0\0\0";
    assert_bytes(&rt, "the edited shipment", &bytes, wanted);
}

#[test]
fn faults_of_shipments_are_found(rt: HostRuntime) {
    let rows = [
        (0, 0xc0, Error::InvalidUtf8),
        (11, 0xc0, Error::InvalidUtf8),
        (29, 2, Error::InvalidBool),
        (32, 2, unknown_tag("ArchivedOption", 2)),
        (60, 0x82, Error::InvalidStringRepr),
        (64, 0xce, outside(10, 13, 11, 24)),
    ];
    assert_faults::<ArchivedShipment>(&rt, rt.alloc(), SHIPMENT, &rows);
}
