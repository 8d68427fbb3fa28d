// Results.

use super::hash_of;
use crate::assertions::{assert_holds, assert_same};
use archive_enum::result::{ArchivedResult, Iter};
use std::cmp::Ordering;

fn ok() -> ArchivedResult<u32, u8> {
    ArchivedResult::Ok(1)
}

fn err() -> ArchivedResult<u32, u8> {
    ArchivedResult::Err(5)
}

#[test]
fn a_result_answers_as_rusts(rt: HostRuntime) {
    let ok_is = (ok().is_ok(), ok().is_err());
    let err_is = (err().is_ok(), err().is_err());
    assert_same(
        &rt,
        "ok, and err",
        (ok_is, err_is),
        ((true, false), (false, true)),
    );
    assert_same(&rt, "the values", (ok().ok(), err().ok()), (Some(1), None));
    assert_same(&rt, "lent", ok().as_ref().copied(), Ok(&1).copied());
}

#[test]
fn the_value_of_a_result_is_taken(rt: HostRuntime) {
    let values = (
        ArchivedResult::<u32, u8>::Ok(1).unwrap(),
        ok().unwrap_or_else(|error| error as u32),
        err().unwrap_or_else(|error| error as u32),
    );
    assert_same(&rt, "ok's value twice, and err's", values, (1, 1, 5));
}

#[test]
fn a_result_is_changed_where_it_lies(rt: HostRuntime) {
    let mut value = ok();
    if let Ok(at) = value.as_mut() {
        *at = 4;
    }
    for at in value.iter_mut() {
        *at = 5;
    }
    let changed = *value.as_ref().ok().unwrap_or(&0);
    assert_same(&rt, "by its iterator", changed, 5);
    for at in &mut value {
        *at = 7;
    }
    assert_same(&rt, "by a loop", value.ok(), Some(7));
}

#[test]
fn the_error_of_a_result_is_changed_where_it_lies(rt: HostRuntime) {
    let mut error = err();
    if let Err(at) = error.as_mut() {
        *at = 6;
    }
    assert_same(&rt, "of an error", error.iter_mut().count(), 0);
    let changed = error.unwrap_or_else(|error| error as u32);
    assert_same(&rt, "an error", changed, 6);
}

#[test]
fn each_part_of_a_result_is_changed_where_it_lies(rt: HostRuntime) {
    let mut value = ok();
    if let Some(at) = value.ok_mut() {
        *at = 8;
    }
    assert_same(&rt, "no error", value.err_mut().is_none(), true);
    assert_same(&rt, "the value", value.ok(), Some(8));
    let mut error = err();
    if let Some(at) = error.err_mut() {
        *at = 9;
    }
    assert_same(&rt, "no value", error.ok_mut().is_none(), true);
    let changed = error.unwrap_or_else(|error| error as u32);
    assert_same(&rt, "the error", changed, 9);
}

#[test]
fn the_value_of_an_ok_comes_once(rt: HostRuntime) {
    let value = ok();
    let mut items: Iter<&u32> = value.iter();
    let first = items.next().copied();
    let (second, last) = (items.next().copied(), items.next_back().copied());
    assert_same(
        &rt,
        "the items",
        (first, second, last),
        (Some(1), None, None),
    );
    assert_same(&rt, "of an error", err().iter().count(), 0);
}

#[test]
fn a_loop_meets_the_value_of_an_ok_alone(rt: HostRuntime) {
    let value = ok();
    let mut last = 0;
    for at in &value {
        last = *at;
    }
    for at in &err() {
        last = *at;
    }
    assert_same(&rt, "by a loop", last, 1);
}

#[test]
fn results_are_compared_as_rusts(rt: HostRuntime) {
    let (value, error) = (ok(), err());
    assert_holds(&rt, "ok below err", value < error);
    assert_holds(&rt, "equal", value == ok() && error == err());
    assert_holds(&rt, "not equal", value != error);
    let errors = error.cmp(&ArchivedResult::Err(4));
    let values = value.cmp(&ArchivedResult::Ok(2));
    assert_same(
        &rt,
        "errors, and values",
        (errors, values),
        (Ordering::Greater, Ordering::Less),
    );
    let hashes = (hash_of(&value), hash_of(&error));
    let right = (hash_of(&Ok::<u32, u8>(1)), hash_of(&Err::<u32, u8>(5)));
    assert_same(&rt, "the hashes of ok and err", hashes, right);
}
