// A record of maps: of texts to numbers, and of numbers to records.

use crate::assertions::{assert_archived, assert_bytes, assert_same, sealed, text, viewed};
use crate::judgements::{assert_faults, outside};
use archive_core::error::Error;
use archive_core::view::Ref;
use derived_types::spot::{ArchivedSpot, Spot, SpotSeal, SpotView};
use derived_types::stock::{ArchivedStock, Stock, StockSeal, StockView};
use std::alloc::{AllocError, Global};
use std::collections::BTreeMap;
use std::process::Abort;

// A text and a zero; at 12 the entries "a" to 1 and "hello world" to 2; at 36 those of 3 to 1, -2 and of 258 to 3, 4. At 48 the maps that point 36 and 20 bytes back
// at them.
const STOCK: &[u8; 64] =
    b"hello world\0a\xff\xff\xff\xff\xff\xff\xff\x01\0\0\0\x8b\0\0\0\xe8\xff\xff\xff\x02\0\0\0\x03\0\x01\0\xfe\xff\x02\x01\x03\0\x04\0\xdc\xff\xff\xff\x02\0\0\0\xec\xff\xff\xff\x02\0\0\0";

// Two maps without entries.
const BLANK: &[u8; 16] = b"\0\0\0\0\0\0\0\0\xf8\xff\xff\xff\0\0\0\0";

// What the first archive is of, with these names.
fn stock_of(alloc: Global, first: String, second: String) -> Result<Stock, AllocError> {
    let mut prices = BTreeMap::new(alloc);
    prices.insert(first, 1)?;
    prices.insert(second, 2)?;
    let mut places = BTreeMap::new(alloc);
    places.insert(258, Spot { right: 3, up: 4 })?;
    places.insert(3, Spot { right: 1, up: -2 })?;
    Ok(Stock { prices, places })
}

fn stock(rt: &impl Abort, alloc: Global) -> Stock {
    let first = text(rt, alloc, "a");
    let second = text(rt, alloc, "hello world");
    stock_of(alloc, first, second).expect(rt, "memory for a stock")
}

// And of the second one.
fn blank(alloc: Global) -> Stock {
    Stock {
        prices: BTreeMap::new(alloc),
        places: BTreeMap::new(alloc),
    }
}

// A stock has this archive, and is read back of it.
fn assert_stock(rt: &impl Abort, alloc: Global, stock: &Stock, archive: &[u8]) {
    assert_archived(rt, alloc, stock, 16, archive);
}

#[test]
fn stocks_are_written_and_read_back(rt: HostRuntime) {
    let alloc = rt.alloc();
    assert_stock(&rt, alloc, &stock(&rt, alloc), STOCK);
    assert_stock(&rt, alloc, &blank(alloc), BLANK);
}

// The numbers of a place, if it is known.
fn numbers_of(place: Option<Ref<'_, ArchivedSpot>>) -> Option<(u16, i16)> {
    match place {
        Some(place) => Some((place.right().get(), place.up().get())),
        None => None,
    }
}

#[test]
fn a_stock_is_looked_up(rt: HostRuntime) {
    let view = viewed::<ArchivedStock>(&rt, rt.alloc(), STOCK);
    let names = [("a", Some(1)), ("hello world", Some(2)), ("b", None)];
    for (name, price) in names {
        let name = text(&rt, rt.alloc(), name);
        let found = view.prices().get(&name).map(|price| price.get());
        assert_same(&rt, "a price", found, price);
    }
    let numbers = [(3, Some((1, -2))), (258, Some((3, 4))), (4, None)];
    for (number, place) in numbers {
        let found = numbers_of(view.places().get(&number));
        assert_same(&rt, "a place", found, place);
    }
}

// Writes over a price and over a place, each found by its key.
fn write_stock(rt: &impl Abort, alloc: Global, bytes: &mut [u8], name: &String) {
    if let Some(price) = sealed::<ArchivedStock>(rt, alloc, bytes)
        .prices_mut()
        .get_seal(name)
    {
        price.write(7);
    }
    if let Some(place) = sealed::<ArchivedStock>(rt, alloc, bytes)
        .places_mut()
        .get_seal(&258)
    {
        place.up_mut().write(-1);
    }
}

#[test]
fn stocks_are_edited(rt: HostRuntime) {
    let mut bytes = *STOCK;
    let name = text(&rt, rt.alloc(), "hello world");
    write_stock(&rt, rt.alloc(), &mut bytes, &name);
    let wanted =
        b"hello world\0a\xff\xff\xff\xff\xff\xff\xff\x01\0\0\0\x8b\0\0\0\xe8\xff\xff\xff\x07\0\0\0\x03\0\x01\0\xfe\xff\x02\x01\x03\0\xff\xff\xdc\xff\xff\xff\x02\0\0\0\xec\xff\xff\xff\x02\0\0\0";
    assert_bytes(&rt, "the edited stock", &bytes, wanted);
}

#[test]
fn faults_of_stocks_are_found(rt: HostRuntime) {
    let rows = [
        (0, 0x60, Error::UnsortedKeys),
        (12, 0x69, Error::UnsortedKeys),
        (12, 0xc0, Error::InvalidUtf8),
        (37, 2, Error::UnsortedKeys),
        (43, 0, Error::UnsortedKeys),
        (52, 4, outside(12, 48, 0, 48)),
    ];
    assert_faults::<ArchivedStock>(&rt, rt.alloc(), STOCK, &rows);
}
