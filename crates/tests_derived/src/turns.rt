// An enum and a struct whose variants and fields are of one type.

ghost use Rattle.archive_core.specs.Definitions.{no_definition};
ghost use Rattle.archive_core.specs.Shape.{one};
ghost use Rattle.archive_core.specs.SealOutcomes.{IsSealOf};

use crate::assertions::{assert_archived, assert_bytes, assert_same, sealed, viewed};
use crate::judgements::{assert_refused, unknown_tag};
use archive_core::seal::Seal;
use archive_core::traits::Portable;
use archive_core::view::Ref;
use library_calls::turns::{
    ArchivedSteps, ArchivedTurn, Steps, StepsSeal, StepsView, Turn, TurnSeal, TurnView, ViewOfTurn,
};
use std::alloc::Global;
use std::process::Abort;

// The tag 0 and the distance 5, which lies behind it at a multiple of 2.
const LEFT: &[u8; 4] = b"\0\0\x05\0";

// The tag 1 and the same distance.
const RIGHT: &[u8; 4] = b"\x01\0\x05\0";

// The distances 258 and 3.
const STEPS: &[u8; 4] = b"\x02\x01\x03\0";

#[test]
fn turns_are_written_and_read_back(rt: HostRuntime) {
    for (turn, archive) in [(Turn::Left(5), LEFT), (Turn::Right(5), RIGHT)] {
        assert_archived(&rt, rt.alloc(), &turn, 4, archive);
    }
}

// Whether a view shows a turn to the right, and how far.
fn turn_of(view: Ref<'_, ArchivedTurn>) -> (bool, u16) {
    match view.variant() {
        ViewOfTurn::Left(far) => (false, far.get()),
        ViewOfTurn::Right(far) => (true, far.get()),
    }
}

#[test]
fn turns_are_viewed(rt: HostRuntime) {
    for (archive, turn) in [(LEFT, (false, 5)), (RIGHT, (true, 5))] {
        let view = viewed::<ArchivedTurn>(&rt, rt.alloc(), archive);
        assert_same(&rt, "the turn", turn_of(view), turn);
    }
}

// Writes another distance, whichever way it is.
fn write_distance(turn: Seal<'_, ArchivedTurn>, far: u16)
    requires { IsSealOf no_definition (one ⟦<ArchivedTurn as Portable>⟧.shape) turn }
{
    match turn.as_ref().tag() {
        0 => turn.left_0_mut().write(far),
        1 => turn.right_0_mut().write(far),
        _ => {}
    }
}

// The turn with another distance.
fn edited(rt: &impl Abort, alloc: Global, archive: &[u8; 4], far: u16) -> [u8; 4] {
    let mut bytes = *archive;
    write_distance(sealed::<ArchivedTurn>(rt, alloc, &mut bytes), far);
    bytes
}

#[test]
fn turns_are_edited(rt: HostRuntime) {
    let left = edited(&rt, rt.alloc(), LEFT, 258);
    assert_bytes(&rt, "to the left", &left, b"\0\0\x02\x01");
    let right = edited(&rt, rt.alloc(), RIGHT, 9);
    assert_bytes(&rt, "to the right", &right, b"\x01\0\x09\0");
}

#[test]
fn turns_are_checked(rt: HostRuntime) {
    assert_refused::<ArchivedTurn>(
        &rt,
        rt.alloc(),
        &[(b"\x02\0\x05\0", unknown_tag("ArchivedTurn", 2))],
    );
}

#[test]
fn steps_are_written_and_read_back(rt: HostRuntime) {
    let steps = Steps {
        first: 258,
        second: 3,
    };
    assert_archived(&rt, rt.alloc(), &steps, 4, STEPS);
}

#[test]
fn steps_are_viewed_and_edited(rt: HostRuntime) {
    let view = viewed::<ArchivedSteps>(&rt, rt.alloc(), STEPS);
    let steps = (view.first().get(), view.second().get());
    assert_same(&rt, "the steps", steps, (258, 3));
    let mut bytes = *STEPS;
    sealed::<ArchivedSteps>(&rt, rt.alloc(), &mut bytes)
        .first_mut()
        .write(1);
    assert_bytes(&rt, "another first one", &bytes, b"\x01\0\x03\0");
    sealed::<ArchivedSteps>(&rt, rt.alloc(), &mut bytes)
        .second_mut()
        .write(2);
    assert_bytes(&rt, "another second one", &bytes, b"\x01\0\x02\0");
}
