// The calls on shared positions, and calls within a region.

ghost use Rattle.std.specs.Prelude.{◌≡◌, ◌≤◌};

use crate::assertions::{assert_refusal, assert_same};
use crate::check::RC;
use archive_check::context::positions::SharedValidator;
use archive_check::context::subtree::ArchiveContextExt;
use archive_check::context::validator::Validator;
use archive_check::context::{ArchiveContext, ArchiveValidator, SharedContext, ValidationState};
use archive_check::format::error::Error;
use archive_check::format::expr::{Expr, FlavorInfo, Kind, Pointee};
use archive_check::format::layout::Layout;
use std::ops::Range;
use std::process::Abort;

const OTHER: FlavorInfo = FlavorInfo {
    name: "RcFlavor",
    cycles: true,
};

// What a call answers. It holds no text, as an `Error` may: rows of it take the check a third of the time.
enum Answer {
    // a position is started, and was this before: unknown, pending or finished
    Started,
    Pending,
    Finished,
    // and is finished
    Done,
    TypeMismatch,
    MetadataMismatch,
    NotStarted,
    AlreadyFinished,
}

// The same, as the calls answer it: the state is none where a position is finished.
fn result_of(answer: &Answer) -> Result<Option<ValidationState>, Error> {
    match answer {
        Answer::Started => Ok(Some(ValidationState::Started)),
        Answer::Pending => Ok(Some(ValidationState::Pending)),
        Answer::Finished => Ok(Some(ValidationState::Finished)),
        Answer::Done => Ok(None),
        Answer::TypeMismatch => Err(Error::TypeMismatch),
        Answer::MetadataMismatch => Err(Error::MetadataMismatch),
        Answer::NotStarted => Err(Error::NotStarted),
        Answer::AlreadyFinished => Err(Error::AlreadyFinished),
    }
}

// A call on a shared position: whether its flavor is `OTHER`, whether it leads to a text or to a unit, the position, the length with which it is started or
// none where it is finished, and the answer.
type Call = (bool, bool, i128, Option<usize>, Answer);

// Whether a position is finished as one of these, as the calls tell that pass over such a position.
fn is_finished<S: SharedContext>(
    shared: &S,
    flavor: &FlavorInfo,
    pointee: &Pointee,
    position: i128,
    length: usize,
) -> bool {
    match shared.type_number(flavor, pointee) {
        Some(number) => shared.is_finished_as(number, position, length),
        None => false,
    }
}

// Starts a position; a call that looks whether it is finished answers so.
fn start<S: SharedContext>(
    rt: &impl Abort,
    shared: &mut S,
    flavor: &FlavorInfo,
    pointee: &Pointee,
    position: i128,
    length: usize,
) -> Result<Option<ValidationState>, Error> {
    let state = shared.start_shared(flavor, pointee, position, length);
    let is_finished = is_finished(shared, flavor, pointee, position, length);
    let right = matches!(&state, Ok(ValidationState::Finished));
    assert_same(rt, "what is finished", is_finished, right);
    match state {
        Ok(state) => Ok(Some(state)),
        Err(error) => Err(error),
    }
}

// Finishes a position.
fn finish<S: SharedContext>(
    shared: &mut S,
    flavor: &FlavorInfo,
    pointee: &Pointee,
    position: i128,
) -> Result<Option<ValidationState>, Error> {
    match shared.finish_shared(flavor, pointee, position) {
        Ok(()) => Ok(None),
        Err(error) => Err(error),
    }
}

// Starts a position with this length, or finishes it where there is none; it answers so.
fn assert_call<S: SharedContext>(
    rt: &impl Abort,
    shared: &mut S,
    flavor: &FlavorInfo,
    pointee: &Pointee,
    call: (i128, Option<usize>),
    answer: &Answer,
) {
    let found = match call.1 {
        Some(length) => start(rt, shared, flavor, pointee, call.0, length),
        None => finish(shared, flavor, pointee, call.0),
    };
    assert_same(rt, "a call", (call, found), (call, result_of(answer)));
}

// Makes the calls in turn.
fn assert_calls<S: SharedContext>(rt: &impl Abort, shared: &mut S, calls: &[Call]) {
    let text = Pointee::Text;
    let unit = Pointee::One(Expr::Leaf(Kind::Unit));
    for (is_other, is_text, position, length, answer) in calls {
        let flavor = if *is_other { &OTHER } else { &RC };
        let pointee = if *is_text { &text } else { &unit };
        let call = (*position, *length);
        assert_call(rt, shared, flavor, pointee, call, answer);
    }
}

#[test]
fn a_position_has_one_type_and_length(rt: HostRuntime) {
    assert_calls(
        &rt,
        &mut SharedValidator::new(rt.alloc()),
        &[
            (false, true, 8, Some(3), Answer::Started),
            (true, true, 8, Some(3), Answer::TypeMismatch),
            (false, false, 8, Some(0), Answer::TypeMismatch),
            (false, true, 8, Some(4), Answer::MetadataMismatch),
            (false, true, 8, Some(3), Answer::Pending),
        ],
    );
}

#[test]
fn a_position_is_finished_once(rt: HostRuntime) {
    assert_calls(
        &rt,
        &mut SharedValidator::new(rt.alloc()),
        &[
            (false, true, 8, None, Answer::NotStarted),
            (false, true, 8, Some(3), Answer::Started),
            (false, false, -8, Some(0), Answer::Started),
            (true, false, 8, None, Answer::Done),
            (false, true, 8, None, Answer::AlreadyFinished),
            (false, true, 8, Some(3), Answer::Finished),
            (false, true, 8, Some(2), Answer::MetadataMismatch),
            (false, false, -8, Some(0), Answer::Pending),
        ],
    );
}

// A text of four bytes at 8 is started, and was this before.
fn assert_state<S: SharedContext>(rt: &impl Abort, shared: &mut S, state: ValidationState)
    ensures { S.state shared.new ≡ S.state shared.old }
{
    let found = shared.start_shared(&RC, &Pointee::Text, 8, 4);
    let found = found.expect(rt, "a state");
    assert_same(rt, "the text's state", found, state);
}

// That text is finished.
fn finish_text<S: SharedContext>(rt: &impl Abort, shared: &mut S) {
    let finished = shared.finish_shared(&RC, &Pointee::Text, 8);
    finished.expect(rt, "a finished text");
}

// Four bytes at 8 are in the range.
fn assert_in_range<C: ArchiveContext>(rt: &impl Abort, context: &mut C)
    ensures { C.state context.new ≡ C.state context.old }
{
    let layout = Layout { size: 4, align: 4 };
    let found = context.check_subtree_ptr(8, &layout);
    found.expect(rt, "a region in the range");
}

// The region from 8 to 12 is entered, and answered is what is left then. One before it would be too deep.
fn enter_last<C: ArchiveContext>(rt: &impl Abort, context: &mut C) -> Range<usize>
    requires begins { (C.state context.old).start ≤ 4 }
    requires ends { 12 ≤ (C.state context.old).end }
{
    let outer = context.push_subtree_range(8, 12).expect(rt, "a region");
    let deeper = context.push_subtree_range(4, 8);
    let refusal = Error::ExceededMaximumSubtreeDepth;
    assert_refusal(rt, "deeper", deeper, refusal);
    outer
}

// The text at 8 is started before its region is entered, and finished behind it.
fn check_text<C: ArchiveContext + SharedContext>(rt: &impl Abort, context: &mut C)
    requires begins { (C.state context.old).start ≤ 4 }
    requires ends { 12 ≤ (C.state context.old).end }
{
    assert_in_range(rt, context);
    assert_state(rt, context, ValidationState::Started);
    let outer = enter_last(rt, context);
    context.pop_subtree_range(outer).expect(rt, "to leave it");
    finish_text(rt, context);
    assert_state(rt, context, ValidationState::Finished);
}

#[test]
fn a_validator_asks_both(rt: HostRuntime) {
    let archive = ArchiveValidator::with_max_depth(&[0; 12], Some(2));
    let shared = SharedValidator::with_capacity(rt.alloc(), 2);
    let mut both = Validator::new(archive, shared.expect(&rt, "memory"));
    check_text(&rt, &mut both);
    assert_same(&rt, "regions", both.subtrees(), 1);
}

fn outside(position: i128, start: usize, end: usize) -> Error {
    Error::InvalidSubtreePointer {
        position,
        size: 4,
        start,
        end,
    }
}

// A call within the region of four bytes at 4: a region at 0 lies before it, and one at 4 doesn't.
fn call_inside(range: &mut ArchiveValidator<'_>) -> Result<Error, Error> {
    let layout = Layout { size: 4, align: 4 };
    range.in_subtree_raw(4, &layout, |inner| -> Result<Error, Error> {
        let layout = Layout { size: 4, align: 4 };
        inner.check_subtree_ptr(0, &layout)?;
        match inner.check_subtree_ptr(4, &layout) {
            Ok(()) => Ok(Error::OutOfMemory),
            Err(error) => Ok(error),
        }
    })
}

// A call within a region that ends behind the range.
fn call_beyond(range: &mut ArchiveValidator<'_>) -> Result<(), Error> {
    let layout = Layout { size: 4, align: 4 };
    range.in_subtree_raw(10, &layout, |_| -> Result<(), Error> { Ok(()) })
}

// A call within a region of no bytes within a region.
fn call_deeper(range: &mut ArchiveValidator<'_>) -> Result<(), Error> {
    let layout = Layout { size: 4, align: 4 };
    range.in_subtree_raw(8, &layout, |inner| -> Result<(), Error> {
        inner.in_subtree_raw(8, &Layout { size: 0, align: 1 }, |_| -> Result<(), Error> {
            Ok(())
        })
    })
}

#[test]
fn a_call_is_made_within_a_region(rt: HostRuntime) {
    let mut range = ArchiveValidator::with_max_depth(&[0; 12], Some(2));
    let inside = call_inside(&mut range);
    assert_same(&rt, "inside", inside, Ok(outside(4, 0, 4)));
    let beyond = call_beyond(&mut range);
    assert_refusal(&rt, "beyond", beyond, outside(10, 8, 12));
    assert_same(&rt, "regions at first", range.subtrees(), 1);
    let refusal = Error::ExceededMaximumSubtreeDepth;
    let deeper = call_deeper(&mut range);
    assert_refusal(&rt, "deeper", deeper, refusal);
    assert_same(&rt, "regions at last", range.subtrees(), 2);
}
