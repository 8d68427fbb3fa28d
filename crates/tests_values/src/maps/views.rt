// Maps are looked at where they lie.

use crate::assertions::{assert_holds, assert_same, number_of, viewed};
use crate::maps::archives::{EMPTY, NUMBERS, Numbers, TEXTS, Texts};
use archive_types::primitive::ArchivedU32;
use archive_types::view::Ref;
use std::alloc::{AllocError, Global};
use std::process::Abort;

// The numbers of an entry, if there is one.
fn numbers_of(entry: Option<(Ref<'_, ArchivedU32>, Ref<'_, ArchivedU32>)>) -> Option<(u32, u32)> {
    match entry {
        Some((key, value)) => Some((key.get(), value.get())),
        None => None,
    }
}

// A map's first three entries, if it has so many.
fn first_three(map: Ref<'_, Numbers>) -> [Option<(u32, u32)>; 3] {
    let first = numbers_of(map.get_at(0));
    let second = numbers_of(map.get_at(1));
    [first, second, numbers_of(map.get_at(2))]
}

#[test]
fn entries_are_numbered(rt: HostRuntime) {
    let map = viewed::<Numbers>(&rt, NUMBERS);
    let found = (map.len(), map.is_empty(), first_three(map));
    let entries = [Some((1, 10)), Some((2, 20)), None];
    assert_same(&rt, "two entries", found, (2, false, entries));
    let none = viewed::<Numbers>(&rt, EMPTY);
    let found = (none.len(), none.is_empty(), first_three(none));
    assert_same(&rt, "no entry", found, (0, true, [None, None, None]));
}

// In each row a text, and its value, if it has one.
fn assert_texts(rt: &impl Abort, alloc: Global, map: Ref<'_, Texts>, rows: &[(&str, Option<u32>)]) {
    for (text, value) in rows {
        let key = String::from_str(alloc, text).expect(rt, "memory for a text");
        let found = (number_of(map.get(&key)), map.contains_key(&key));
        assert_same(rt, text, found, (*value, value.is_some()));
    }
}

#[test]
fn texts_are_looked_up(rt: HostRuntime) {
    let map = viewed::<Texts>(&rt, TEXTS);
    let rows = [
        ("hello world", Some(2)),
        ("a", Some(1)),
        ("b", None),
        ("", None),
        ("hello worlds", None),
    ];
    assert_texts(&rt, rt.alloc(), map, &rows);
}

// The archive of so many even numbers from 0 on, each with its half.
fn halves(alloc: Global, count: u32) -> Result<Vec<u8>, AllocError> {
    let mut bytes = Vec::new(alloc);
    for half in 0..count {
        bytes.extend_from_slice(&half.wrapping_mul(2).to_le_bytes())?;
        bytes.extend_from_slice(&half.to_le_bytes())?;
    }
    let offset = count.wrapping_mul(8).wrapping_neg();
    bytes.extend_from_slice(&offset.to_le_bytes())?;
    bytes.extend_from_slice(&count.to_le_bytes())?;
    Ok(bytes)
}

// The half of a key, if it is among so many even numbers from 0 on.
fn half_of(key: u32, count: u32) -> Option<u32> {
    let half = key / 2;
    if key % 2 == 0 && half < count {
        Some(half)
    } else {
        None
    }
}

// Each key of such a map is found, and no other, with no more comparisons than the number of entries has binary digits.
fn assert_halved(rt: &impl Abort, map: Ref<'_, Numbers>, count: u32) {
    let most = u32::BITS.saturating_sub(count.leading_zeros()) as usize;
    for key in 0..count.saturating_mul(2).saturating_add(2) {
        let (value, compared) = map.get_counted(&key);
        let found = (count, key, number_of(value));
        assert_same(rt, "a half", found, (count, key, half_of(key, count)));
        assert_holds(rt, "there were few comparisons", compared <= most);
    }
}

#[test]
fn keys_are_found_by_halving(rt: HostRuntime) {
    for count in 0..40 {
        let bytes = halves(rt.alloc(), count).expect(&rt, "memory for an archive");
        assert_halved(&rt, viewed::<Numbers>(&rt, &bytes), count);
    }
}

#[test]
fn entries_come_from_both_ends(rt: HostRuntime) {
    let bytes = halves(rt.alloc(), 4).expect(&rt, "memory for an archive");
    let mut entries = viewed::<Numbers>(&rt, &bytes).iter();
    assert_same(&rt, "the number of entries", entries.len(), 4);
    let ends = (numbers_of(entries.next()), numbers_of(entries.next_back()));
    assert_same(&rt, "the outer ones", ends, (Some((0, 0)), Some((6, 3))));
    let second = numbers_of(entries.next());
    let found = (second, entries.len());
    assert_same(
        &rt,
        "the second, and how many are left",
        found,
        (Some((2, 1)), 1),
    );
    let third = numbers_of(entries.next_back());
    assert_same(&rt, "the third", third, Some((4, 2)));
    let ends = (numbers_of(entries.next()), numbers_of(entries.next_back()));
    assert_same(&rt, "the ends", ends, (None, None));
}
