// An enum with type parameters, archived with two lists of arguments, one of which holds the other.

ghost use Rattle.archive_core.specs.Definitions.{no_definition};
ghost use Rattle.archive_core.specs.Shape.{one};
ghost use Rattle.archive_core.specs.SealOutcomes.{IsSealOf};

use crate::assertions::{
    assert_archived, assert_bytes, assert_same, sealed, text, viewed, write_text,
};
use crate::judgements::{assert_faults, unknown_tag};
use archive_core::error::Error;
use archive_core::seal::Seal;
use archive_core::traits::Portable;
use archive_core::view::Ref;
use derived_plain::outcome::{
    ArchivedNumbers, ArchivedSum, Numbers, NumbersView, Outcome, Sum, SumSeal, SumView,
    ViewOfNumbers, ViewOfSum,
};
use std::alloc::Global;
use std::process::Abort;

// The tag 0, and behind it the number, where the text of the other variant would end at 12.
const SUM: &[u8; 12] = b"\0\x02\0\0\0\0\0\0\0\0\0\0";
// The tag 1, and at 4 a text within its string.
const NO_SUM: &[u8; 12] = b"\x01\0\0\0late\xff\xff\xff\xff";
// Two numbers; the tag 0 at 4, and at 8 a vector of the two at 0.
const NUMBERS: &[u8; 20] = b"\x07\x09\0\0\0\0\0\0\xf8\xff\xff\xff\x02\0\0\0\0\0\0\0";
// The tag 1, and at 4 the text above.
const NO_NUMBERS: &[u8; 16] = b"\x01\0\0\0\x01\0\0\0late\xff\xff\xff\xff";

fn no_sum(rt: &impl Abort, alloc: Global) -> Sum {
    Outcome::Failed(text(rt, alloc, "late"))
}

fn assert_sum(rt: &impl Abort, alloc: Global, sum: &Sum, archive: &[u8]) {
    assert_archived(rt, alloc, sum, 12, archive);
}

#[test]
fn sums_are_written_and_read_back(rt: HostRuntime) {
    assert_sum(&rt, rt.alloc(), &Outcome::Done(2), SUM);
    let failed = no_sum(&rt, rt.alloc());
    assert_sum(&rt, rt.alloc(), &failed, NO_SUM);
}

fn assert_numbers(rt: &impl Abort, alloc: Global, numbers: &Numbers, archive: &[u8]) {
    assert_archived(rt, alloc, numbers, 16, archive);
}

#[test]
fn numbers_are_written_and_read_back(rt: HostRuntime) {
    let numbers = vec![in rt.alloc(); 7, 9].expect(&rt, "numbers");
    assert_numbers(&rt, rt.alloc(), &Outcome::Done(numbers), NUMBERS);
    let failed = no_sum(&rt, rt.alloc());
    assert_numbers(&rt, rt.alloc(), &Outcome::Failed(failed), NO_NUMBERS);
}

// The tag of the variant that a view of a sum shows, whose field is that of the archives above.
fn variant_of(rt: &impl Abort, sum: Ref<'_, ArchivedSum>) -> u8 {
    match sum.variant() {
        ViewOfSum::Done(number) => {
            assert_same(rt, "the number", number.get(), 2);
            0
        }
        ViewOfSum::Failed(why) => {
            assert_same(rt, "why there is none", why.as_str(), "late");
            1
        }
    }
}

// The same of numbers; 2 and more are those of the sum that they hold.
fn variant_within(rt: &impl Abort, numbers: Ref<'_, ArchivedNumbers>) -> u8 {
    match numbers.variant() {
        ViewOfNumbers::Done(list) => {
            assert_same(rt, "how many", list.len(), 2);
            0
        }
        ViewOfNumbers::Failed(sum) => variant_of(rt, sum).saturating_add(2),
    }
}

#[test]
fn outcomes_are_viewed(rt: HostRuntime) {
    for (archive, tag) in [(SUM, 0), (NO_SUM, 1)] {
        let view = viewed::<ArchivedSum>(&rt, rt.alloc(), archive);
        assert_same(&rt, "the sum", variant_of(&rt, view), tag);
    }
    let view = viewed::<ArchivedNumbers>(&rt, rt.alloc(), NUMBERS);
    assert_same(&rt, "the numbers", variant_within(&rt, view), 0);
    let view = viewed::<ArchivedNumbers>(&rt, rt.alloc(), NO_NUMBERS);
    assert_same(&rt, "the sum within", variant_within(&rt, view), 3);
}

// Writes over the field of a sum.
fn write_field(sum: Seal<'_, ArchivedSum>)
    requires { IsSealOf no_definition (one ⟦<ArchivedSum as Portable>⟧.shape) sum }
{
    match sum.as_ref().tag() {
        0 => sum.done_0_mut().write(7),
        1 => write_text(sum.failed_0_mut(), "soon"),
        _ => {}
    }
}

#[test]
fn sums_are_edited(rt: HostRuntime) {
    let rows = [
        (SUM, b"\0\x07\0\0\0\0\0\0\0\0\0\0"),
        (NO_SUM, b"\x01\0\0\0soon\xff\xff\xff\xff"),
    ];
    for (archive, edited) in rows {
        let mut bytes = *archive;
        write_field(sealed(&rt, rt.alloc(), &mut bytes));
        assert_bytes(&rt, "the edited sum", &bytes, edited);
    }
}

#[test]
fn faults_of_outcomes_are_found(rt: HostRuntime) {
    let alloc = rt.alloc();
    assert_faults::<ArchivedSum>(&rt, alloc, SUM, &[(0, 2, unknown_tag("ArchivedSum", 2))]);
    let tags = [
        (0, 2, unknown_tag("ArchivedNumbers", 2)),
        (4, 2, unknown_tag("ArchivedSum", 2)),
        (8, 0xc0, Error::InvalidUtf8),
    ];
    assert_faults::<ArchivedNumbers>(&rt, alloc, NO_NUMBERS, &tags);
}
