// Maps that several tests write or look at, and their archives.

use archive_types::map::ArchivedSortedMap;
use archive_types::primitive::ArchivedU32;
use archive_types::string::ArchivedString;
use std::alloc::{AllocError, Global};
use std::collections::BTreeMap;
use std::process::Abort;

// Numbers to numbers.
pub(crate) type Numbers = ArchivedSortedMap<ArchivedU32, ArchivedU32>;

// Texts to numbers.
pub(crate) type Texts = ArchivedSortedMap<ArchivedString, ArchivedU32>;

// 1 to 10 and 2 to 20, and at 16 the map that points back at them.
pub(crate) const NUMBERS: &[u8] =
    b"\x01\0\0\0\x0a\0\0\0\x02\0\0\0\x14\0\0\0\xf0\xff\xff\xff\x02\0\0\0";

// A text and a zero, and at 12 the entries "a" to 1 and "hello world" to 2. At 36 the map that points back at them.
pub(crate) const TEXTS: &[u8] =
    b"hello world\0a\xff\xff\xff\xff\xff\xff\xff\x01\0\0\0\x8b\0\0\0\xe8\xff\xff\xff\x02\0\0\0\xe8\xff\xff\xff\x02\0\0\0";

// A map without entries.
pub(crate) const EMPTY: &[u8] = b"\0\0\0\0\0\0\0\0";

// The map of these entries.
fn made<K: Ord + Copy + Drop, V: Copy + Drop>(
    alloc: Global,
    entries: &[(K, V)],
) -> Result<BTreeMap<K, V>, AllocError> {
    let mut map = BTreeMap::new(alloc);
    for (key, value) in entries {
        map.insert(*key, *value)?;
    }
    Ok(map)
}

// The map of these texts to numbers.
fn made_of_texts(
    alloc: Global,
    entries: &[(&str, u32)],
) -> Result<BTreeMap<String, u32>, AllocError> {
    let mut map = BTreeMap::new(alloc);
    for (text, value) in entries {
        map.insert(String::from_str(alloc, text)?, *value)?;
    }
    Ok(map)
}

// The map of these entries, for which there is memory.
pub(crate) fn map_of<K: Ord + Copy + Drop, V: Copy + Drop>(
    rt: &impl Abort,
    alloc: Global,
    entries: &[(K, V)],
) -> BTreeMap<K, V> {
    made(alloc, entries).expect(rt, "memory for a map")
}

// And that of these texts to numbers.
pub(crate) fn texts_of(
    rt: &impl Abort,
    alloc: Global,
    entries: &[(&str, u32)],
) -> BTreeMap<String, u32> {
    made_of_texts(alloc, entries).expect(rt, "memory for a map")
}
