//! A sorted map is written, searched in place, edited and read back.

use archive_core::api::{access, access_mut, from_bytes, to_bytes};
use archive_core::error::Error;
use archive_core::map::ArchivedSortedMap;
use archive_core::primitive::ArchivedU32;
use archive_core::string::ArchivedString;
use std::alloc::Global;
use std::collections::BTreeMap;
use std::test::Fail;

/// What things cost, by their names.
type Prices = BTreeMap<String, u32>;

/// The archive of such a map.
type ArchivedPrices = ArchivedSortedMap<ArchivedString, ArchivedU32>;

/// Three prices.
fn prices(alloc: Global) -> Result<Prices, Error> {
    let mut prices = BTreeMap::new(alloc);
    prices.insert(String::from_str(alloc, "pear")?, 40)?;
    prices.insert(String::from_str(alloc, "apple")?, 30)?;
    prices.insert(String::from_str(alloc, "watermelon")?, 250)?;
    Ok(prices)
}

/// The archive of prices.
fn archived(alloc: Global, prices: &Prices) -> Result<Vec<u8>, Error> {
    to_bytes(alloc, prices)
}

/// What a thing costs, if it is in the archive.
fn price_of(alloc: Global, bytes: &[u8], name: &str) -> Result<Option<u32>, Error> {
    let name = String::from_str(alloc, name)?;
    match access::<ArchivedPrices>(alloc, bytes)?.get(&name) {
        Some(price) => Ok(Some(price.get())),
        None => Ok(None),
    }
}

/// Writes another price over that of a thing. Whether the thing is in the archive.
fn write_price(alloc: Global, bytes: &mut [u8], name: &str, price: u32) -> Result<bool, Error> {
    let name = String::from_str(alloc, name)?;
    match access_mut::<ArchivedPrices>(alloc, bytes)?.get_seal(&name) {
        Some(seal) => {
            seal.write(price);
            Ok(true)
        }
        None => Ok(false),
    }
}

/// The prices of an archive.
fn read(alloc: Global, bytes: &[u8]) -> Result<Prices, Error> {
    from_bytes(alloc, bytes, &mut ())
}

#[test]
fn prices_are_looked_up(rt: HostRuntime) -> Result<(), Fail> {
    let mut bytes = archived(rt.alloc(), &prices(rt.alloc())?)?;
    assert_eq!(rt; price_of(rt.alloc(), &bytes, "pear")?, Some(40));
    assert_eq!(rt; price_of(rt.alloc(), &bytes, "plum")?, None);
    assert!(rt; write_price(rt.alloc(), &mut bytes, "pear", 45)?);
    assert_eq!(rt; price_of(rt.alloc(), &bytes, "pear")?, Some(45));
    let back = read(rt.alloc(), &bytes)?;
    assert_eq!(rt; back.len(), 3);
    assert_eq!(rt; back.get("pear").copied(), Some(45));
    Ok(())
}
