// Keys in slots: what is found was added, and the rest isn't there.

use crate::assertions::{assert_holds, assert_same};
use archive_check::slots::Slots;
use std::process::Abort;

// How many of the keys below 100, each with its triple, are found; none is found with another number.
fn found_of(rt: &impl Abort, slots: &Slots<u64>) -> usize {
    let mut found = 0usize;
    for key in 0..100u64 {
        if let Some(value) = slots.get(key) {
            assert_same(rt, "the value", *value, key.wrapping_mul(3));
            found = found.saturating_add(1);
        }
    }
    found
}

// Adds them.
fn add_all(slots: &mut Slots<u64>) {
    for key in 0..100u64 {
        slots.add(key, key.wrapping_mul(3));
    }
}

#[test]
fn with_no_slot_none_is_found(rt: HostRuntime) {
    let mut slots: Slots<u64> = Slots::new(rt.alloc());
    add_all(&mut slots);
    assert_holds(&rt, "no slot", slots.is_empty());
    assert_same(&rt, "found", found_of(&rt, &slots), 0);
}

#[test]
fn most_keys_are_found_and_stay_in_more_slots(rt: HostRuntime) {
    let mut slots: Slots<u64> = Slots::new(rt.alloc());
    slots.make_room(100).expect(&rt, "memory");
    add_all(&mut slots);
    let found = found_of(&rt, &slots);
    assert_holds(&rt, "most are found", found >= 80);
    slots.make_room(1000).expect(&rt, "memory");
    assert_same(&rt, "found in more slots", found_of(&rt, &slots), found);
    slots.clear();
    assert_same(&rt, "found behind `clear`", found_of(&rt, &slots), 0);
}

#[test]
fn the_key_of_a_free_slot_is_never_found(rt: HostRuntime) {
    let mut slots: Slots<u64> = Slots::new(rt.alloc());
    slots.make_room(1).expect(&rt, "memory");
    assert_same(&rt, "before", slots.get(u64::MAX).is_some(), false);
    slots.add(u64::MAX, 7);
    assert_same(&rt, "added", slots.get(u64::MAX).is_some(), false);
}
