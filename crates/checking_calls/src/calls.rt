//! Calls of a check, in functions that promise these calls' clauses: wrong bodies of this module are rejected.

ghost use Rattle.std.specs.Prelude.{Err, IfErr, IfNone, IfOk, IfSome, IsErrOf, IsTrue, Ok, OnErr, OnOk, OnSome, Some, length, ◌*◌, ◌+◌, ◌<◌, ◌↔◌, ◌≡◌, ◌≤◌};
ghost use Rattle.archive_check.specs.Defined.{WellFormed};
ghost use Rattle.archive_check.specs.Definitions.{listed};
ghost use Rattle.archive_check.specs.Expressions.{key_of};
ghost use Rattle.archive_check.specs.Keys.{ComesBehind};
ghost use Rattle.archive_check.specs.Layout.{key_size};
ghost use Rattle.archive_check.specs.SelfCheck.Arrays.{array_direct};
ghost use Rattle.archive_check.specs.SelfCheck.Steps.{StoppedIf, Went};
ghost use Rattle.archive_check.specs.SelfCheck.Ways.{shape_way};
ghost use Rattle.archive_check.specs.Shape.{array};
ghost use Rattle.archive_check.specs.Words.Faults.{IsOfCheck};
ghost use Rattle.archive_check.specs.context.Contexts.{AcceptsIn, IsExactIn, RefusesIn};
ghost use Rattle.archive_check.specs.context.EnteredRegions.{Enters, EntersNot};
ghost use Rattle.archive_check.specs.context.FreshContexts.{HasLevels, KeepsLevels};
ghost use Rattle.archive_check.specs.context.PositionStates.{IsFinishedAnswer, IsStartAnswer, Starts, entry_as};
ghost use Rattle.archive_check.specs.context.Pushes.{FewPushed, Spends};
ghost use Rattle.archive_check.specs.context.Ranges.{pop_answer, popped, pushed, subtree_answer};
ghost use Rattle.archive_schema.specs.ContextAnswers.{AnswersIn};
ghost use Rattle.archive_schema.specs.Schemas.{HasMeaning, definitions_in, root_of};

use archive_check::context::range::Region;
use archive_check::context::regions::{enter, leave};
use archive_check::context::{ArchiveContext, SharedContext, ValidationState};
use archive_check::format::error::Error;
use archive_check::format::expr::{FlavorInfo, Key, Pointee};
use archive_check::format::layout::Layout;
use archive_check::format::traits::Portable;
use archive_check::self_check::{self, ArrayCheck, SelfCheck};
use archive_schema::shape::Schema;
use std::ops::Range;

/// Whether a region of `layout` may begin at `position`. Fails as `check_subtree_ptr` does.
pub fn check_region<C: ArchiveContext>(
    context: &mut C,
    position: i128,
    layout: &Layout,
) -> Result<(), Error>
    ensures answer { result ≡ subtree_answer (C.state context.old) position layout.now.size
        layout.now.align }
    ensures fits { OnOk result ((C.state context.old).end < 18446744073709551616) }
    ensures unchanged { C.state context.new ≡ C.state context.old }
    ensures positions { C.positions context.new ≡ C.positions context.old }
{
    context.check_subtree_ptr(position, layout)
}

/// Enters a region from `root` to `end`. Requires and fails as `push_subtree_range` does.
pub fn enter_range<C: ArchiveContext>(
    context: &mut C,
    root: usize,
    end: usize,
) -> Result<Range<usize>, Error>
    requires rising { ((C.state context.old).start ≤ root) × (root ≤ end)
        × (end ≤ (C.state context.old).end) }
    ensures refused { IsErrOf result Error.ExceededMaximumSubtreeDepth
        ↔ (C.state context.old).depth ≡ Some 1 }
    ensures outer { IfOk result (λ r. (r.start ≡ end) × (r.end ≡ (C.state context.old).end)) }
    ensures entered { OnOk result (C.state context.new ≡ pushed (C.state context.old) root) }
    ensures too_deep { IfErr result (λ e. e ≡ Error.ExceededMaximumSubtreeDepth) }
    ensures unchanged { OnErr result (C.state context.new ≡ C.state context.old) }
    ensures positions { C.positions context.new ≡ C.positions context.old }
{
    context.push_subtree_range(root, end)
}

/// Enters the region of `whole` bytes that a box leads to. Requires and stops as `enter` does.
pub fn enter_box<C: ArchiveContext>(
    whole: Option<usize>,
    align: usize,
    position: i128,
    refusal: &mut Error,
    context: &mut C,
) -> Option<Region>
    requires { 0 < align }
    ensures entered { IfSome result (Enters (C.state context.old) (C.state context.new) position
        align whole) }
    ensures stops { IfNone result (EntersNot (C.state context.old) position align whole
        refusal.new) }
    ensures pushes { OnSome result ((C.state context.new).pushes ≤ (C.state context.old).pushes
        + 1) }
    ensures unchanged { IfNone result (C.state context.new ≡ C.state context.old) }
    ensures positions { OnSome result (C.positions context.new ≡ C.positions context.old) }
{
    enter(whole, align, position, refusal, context)
}

/// Leaves a region: the range is that from `start` to `end` again. Stops as `leave` does.
pub fn leave_box<C: ArchiveContext>(
    start: usize,
    end: usize,
    refusal: &mut Error,
    context: &mut C,
) -> Option<()>
    ensures left { OnSome result (C.state context.new ≡ popped (C.state context.old) start end) }
    ensures taken { OnSome result (pop_answer (C.state context.old) start ≡ Ok tt) }
    ensures refused { IfNone result (pop_answer (C.state context.old) start ≡ Err refusal.new) }
    ensures unchanged { IfNone result (C.state context.new ≡ C.state context.old) }
    ensures positions { OnSome result (C.positions context.new ≡ C.positions context.old) }
{
    leave(start, end, refusal, context)
}

/// Comes to a pointee at `position`. Fails as `start_shared` does.
pub fn come_to<C: SharedContext>(
    context: &mut C,
    flavor: &FlavorInfo,
    pointee: &Pointee,
    position: i128,
    length: usize,
) -> Result<ValidationState, Error>
    ensures answer { IsStartAnswer (C.positions context.old position)
        (entry_as flavor.now pointee.now length) result }
    ensures started { OnOk result (Starts C.positions context position flavor pointee length) }
    ensures unchanged { OnErr result (C.positions context.new ≡ C.positions context.old) }
    ensures range { C.state context.new ≡ C.state context.old }
{
    context.start_shared(flavor, pointee, position, length)
}

/// Whether the position was started with this length and the type of this number, and is finished.
pub fn is_passed_over<C: SharedContext>(
    context: &C,
    number: usize,
    position: i128,
    length: usize,
) -> bool
    ensures { IsFinishedAnswer (C.numbered context.now number) (C.positions context.now position)
        length result }
{
    context.is_finished_as(number, position, length)
}

/// Whether the key at `at` comes behind the one at `before`, if there is one. Both must lie in the buffer.
pub fn comes_behind(key: Key, bytes: &[u8], before: Option<usize>, at: usize) -> bool
    requires front { IfSome before (λ p. p + key_size (key_of key) ≤ length bytes.now) }
    requires back { at + key_size (key_of key) ≤ length bytes.now }
    ensures { IsTrue result ↔ ComesBehind (key_of key) bytes.now before at }
{
    key.comes_behind(bytes, before, at)
}

/// Checks the array of three `T` at `at`. Requires and stops as `SelfCheck::check_at` does.
pub fn check_three<T: Portable, C: ArchiveContext>(
    bytes: &[u8],
    at: usize,
    refusal: &mut Error,
    context: &mut C,
) -> Option<()>
    requires fits { at + 3 * T.layout.size ≤ length bytes.now }
    requires below { (C.state context.old).end ≤ length bytes.now }
    ensures through { Went C.Context context T.definitions
        (shape_way bytes.now at (array 3 T.shape)) result }
    ensures stops { StoppedIf C.Context context (array_direct T.Check.direct 3 T.layout)
        T.definitions (shape_way bytes.now at (array 3 T.shape)) result refusal }
    ensures spends { Spends (3 * T.layout.size) (C.state context.old) (C.state context.new) }
    ensures positions { OnSome result (C.positions context.new ≡ C.positions context.old) }
{
    <ArrayCheck<T, 3> as SelfCheck>::check_at(bytes, at, refusal, context)
}

/// Checks an archive with its root, a `T`, at `pos`. Requires and fails as `self_check::check_root` does.
pub fn check_root<T: Portable, C: ArchiveContext>(
    bytes: &[u8],
    pos: usize,
    context: &mut C,
) -> Result<(), Error>
    requires { (C.state context.old).end ≤ length bytes.now }
    ensures accepted { IsTrue T.Check.direct
        → AcceptsIn T.Portable C.Context context bytes.now pos result }
    ensures meaning { IsTrue T.Check.direct → WellFormed (listed T.definitions) T.shape }
    ensures refused { IsTrue T.Check.direct
        → RefusesIn T.Portable C.Context context bytes.now pos result }
    ensures exact { IsTrue T.Check.direct
        → IsExactIn T.Portable C.Context context bytes.now pos result }
    ensures of_check { IsTrue T.Check.direct → IfErr result
        (λ e. HasLevels (C.state context.old).depth → IsOfCheck e) }
    ensures direct { OnOk result (IsTrue T.Check.direct) }
    ensures levels { OnOk result (KeepsLevels (C.state context.old) (C.state context.new)) }
    ensures few_subtrees { FewPushed (C.state context.old) (C.state context.new) }
{
    self_check::check_root::<T, C>(bytes, pos, context)
}

/// Checks a value of the schema at `pos`. Requires and fails as `Schema::check` does.
pub fn check_by<C: ArchiveContext + SharedContext>(
    schema: &Schema,
    bytes: &[u8],
    pos: usize,
    context: &mut C,
) -> Result<(), Error>
    requires { (C.state context.old).end ≤ length bytes.now }
    ensures meaning { HasMeaning schema.now }
    ensures answer { AnswersIn (definitions_in schema.now) (root_of schema.now) C.Context context
        bytes.now pos result }
    ensures of_check { IfErr result (λ e. HasLevels (C.state context.old).depth → IsOfCheck e) }
    ensures levels { OnOk result (KeepsLevels (C.state context.old) (C.state context.new)) }
    ensures few_subtrees { FewPushed (C.state context.old) (C.state context.new) }
{
    schema.check(bytes, pos, context)
}
