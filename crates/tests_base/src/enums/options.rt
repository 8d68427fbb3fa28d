// Options.

use super::hash_of;
use crate::assertions::{assert_holds, assert_same};
use archive_enum::option::{ArchivedOption, Iter};
use std::cmp::Ordering;

#[test]
fn an_option_answers_as_rusts(rt: HostRuntime) {
    let some = ArchivedOption::Some(1u32);
    let none = ArchivedOption::<u32>::None;
    let some_is = (some.is_some(), some.is_none());
    let none_is = (none.is_some(), none.is_none());
    assert_same(
        &rt,
        "some, and none",
        (some_is, none_is),
        ((true, false), (false, true)),
    );
    let answers = (some.ok_or(5u8), none.ok_or(5u8));
    assert_same(&rt, "the value or 5", answers, (Ok(1), Err(5)));
    let lent = (some.as_ref().copied(), none.as_ref().copied());
    assert_same(&rt, "lent", lent, (Some(1), None));
}

#[test]
fn the_value_of_an_option_is_taken(rt: HostRuntime) {
    let some = ArchivedOption::Some(1u32);
    let none = ArchivedOption::<u32>::None;
    let values = (some.unwrap_or(2), none.unwrap_or(2));
    assert_same(&rt, "the value or 2", values, (1, 2));
    let values = (some.unwrap_or_else(|| 3), none.unwrap_or_else(|| 3));
    assert_same(&rt, "the value or 3", values, (1, 3));
    let seven = ArchivedOption::from(7u32).clone().expect(&rt, "memory");
    assert_same(
        &rt,
        "the value, and a copy's",
        (some.unwrap(), seven.unwrap()),
        (1, 7),
    );
}

#[test]
fn the_value_of_an_option_is_changed_where_it_lies(rt: HostRuntime) {
    let mut some = ArchivedOption::Some(1u32);
    if let Some(value) = some.as_mut() {
        *value = 4;
    }
    for value in some.iter_mut() {
        *value = 5;
    }
    assert_same(&rt, "by its iterator", some.unwrap_or(0), 5);
    for value in &mut some {
        *value = 6;
    }
    assert_same(&rt, "by a loop", some.unwrap_or(0), 6);
    assert_same(
        &rt,
        "the value that was there before",
        *some.get_or_insert(9),
        6,
    );
}

#[test]
fn a_value_is_put_into_an_option(rt: HostRuntime) {
    let mut none = ArchivedOption::<u32>::None;
    assert_holds(&rt, "none", none.as_mut().is_none());
    assert_same(&rt, "put there", *none.get_or_insert(9), 9);
    *none.get_or_insert_with(|| 8) = 7;
    assert_same(&rt, "changed", none.unwrap_or(0), 7);
    let mut empty = ArchivedOption::<u32>::None;
    assert_same(&rt, "made", *empty.get_or_insert_with(|| 8), 8);
}

#[test]
fn an_item_comes_once_at_the_front(rt: HostRuntime) {
    let some = ArchivedOption::Some(1u32);
    let mut front = some.iter();
    let room = (front.len(), front.size_hint());
    assert_same(&rt, "at first", room, (1, (1, Some(1))));
    let first = (front.next().copied(), front.len());
    assert_same(&rt, "the first, and what is left", first, (Some(1), 0));
    let (second, third) = (front.next().copied(), front.next().copied());
    let last = front.next_back().copied();
    assert_same(&rt, "afterwards", (second, third, last), (None, None, None));
}

#[test]
fn an_item_comes_once_at_the_end(rt: HostRuntime) {
    let some = ArchivedOption::Some(1u32);
    let mut back = (&some).into_iter();
    let last = back.next_back().copied();
    let (second, third) = (back.next_back().copied(), back.next().copied());
    assert_same(
        &rt,
        "the iterator after its item",
        (last, second, third),
        (Some(1), None, None),
    );
    let none = ArchivedOption::<u32>::None;
    assert_same(&rt, "of none", none.iter().count(), 0);
    let mut last = 0;
    for value in &some {
        last = *value;
    }
    assert_same(&rt, "by a loop", last, 1);
    let mut owned = Iter::new(Some(3u8));
    assert_same(&rt, "owned", (owned.next(), owned.next()), (Some(3), None));
}

#[test]
fn options_are_compared_as_rusts(rt: HostRuntime) {
    let none = ArchivedOption::<i32>::None;
    let (less, more) = (ArchivedOption::Some(-1), ArchivedOption::Some(1));
    assert_holds(&rt, "none below some", none < less && less < more);
    assert_holds(&rt, "equal or not", none == none && less != more);
    assert_same(&rt, "the order", more.cmp(&none), Ordering::Greater);
    let hashes = (hash_of(&none), hash_of(&more));
    let right = (hash_of(&None::<i32>), hash_of(&Some(1)));
    assert_same(&rt, "the hashes of none and some", hashes, right);
}
