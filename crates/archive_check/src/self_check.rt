//! Types that validate themselves: with no schema, no list and no memory. A type names its check;
//! one whose values are shared or recursive names `BySchema`.

ghost use Rattle.std.specs.Prelude.{Bool, ◌≡◌, ◌+◌, ◌*◌, ◌≤◌, ℕ, length, OnSome, IfNone, false, IsTrue};
ghost use Rattle.std.specs.Int.{w8};
ghost use Rattle.archive_check.specs.Shape.{Shape, leaf, unit};
ghost use Rattle.archive_check.specs.Definitions.{Definitions, no_definition};
ghost use Rattle.archive_check.specs.SelfCheck.Ways.{shape_way, AreGood};
ghost use Rattle.archive_check.specs.context.Pushes.{Spends};
ghost use Rattle.archive_check.specs.SelfCheck.Steps.{Went, Stopped};

use crate::context::ArchiveContext;
use crate::format::error::Error;

mod arrays;
mod elements;
mod entries;
mod leaves;
mod parts;
mod roots;
mod texts;
mod tuples;
mod values;
mod variants;

pub use arrays::ArrayCheck;
pub use elements::VecCheck;
pub use entries::MapCheck;
pub use leaves::{check_first_leaves, check_leaf};
pub use parts::{CheckedParts, RecordCheck};
pub use roots::check_root;
pub use texts::{BoxStrCheck, StringCheck};
pub use tuples::TupleCheck;
pub use values::BoxCheck;
pub use variants::{CheckedVariants, check_choice};

/// What checks values where they lie. A type that validates itself names one for its own shape.
pub trait SelfCheck {
    // What is checked.
    ghost shape: { Shape };

    // The definitions of the names in it.
    ghost definitions: { Definitions };

    // How many bytes are looked at in place.
    ghost span: { ℕ };

    // Whether it is checked, and no schema is needed: nothing is shared, and nothing holds itself.
    ghost direct: { Bool };

    // Whether the types that name it bring no definition.
    ghost nameless: { Bool };

    /// Whether no schema is needed.
    fn is_direct() -> bool
        ensures { result ≡ direct };

    /// Whether the types that name it bring no definition: of a tuple and of a result all parts but one have to. One that says no loses nothing but speed.
    fn is_nameless() -> bool
        ensures { result ≡ nameless };

    /// Checks the value at `at`, in bytes from the first one. `None` if the check stops, and
    /// `refusal` is why: the first fault, in the order that docs/FORMAT.md gives. In place of
    /// rkyv's `CheckBytes`.
    fn check_at<C: ArchiveContext>(
        bytes: &[u8],
        at: usize,
        refusal: &mut Error,
        context: &mut C,
    ) -> Option<()>
        requires fits { at + span ≤ length bytes.now }
        requires below { (C.state context.old).end ≤ length bytes.now }
        ensures through { Went C.Context context definitions (shape_way bytes.now at shape) result }
        ensures stops { IsTrue direct → Stopped C.Context context definitions
            (shape_way bytes.now at shape) result refusal }
        ensures spends { Spends span (C.state context.old) (C.state context.new) }
        ensures positions { OnSome result (C.positions context.new ≡ C.positions context.old) };

    /// How many values at the front are known to be valid at once, by default none.
    ///
    /// `check_at` checks the others. There are `count` of them, `step` bytes apart from `at` on; the
    /// caller must ensure that all lie in the bytes.
    #[inline(always)]
    fn check_first(_bytes: &[u8], _at: usize, _step: usize, _count: usize) -> usize
        requires { _at + _count * _step ≤ length _bytes.now }
        ensures few { result ≤ _count }
        ensures good { AreGood definitions _bytes.now _at _step shape result }
    {
        0
    }
}

/// The check of a type that doesn't validate itself: it goes by its schema.
pub struct BySchema;

impl SelfCheck for BySchema {
    ghost shape = { leaf unit };

    ghost definitions = { no_definition };

    ghost span = { 0 };

    ghost direct = { false };

    ghost nameless = { false };

    fn is_direct() -> bool {
        false
    }

    fn is_nameless() -> bool {
        false
    }

    fn check_at<C: ArchiveContext>(
        _bytes: &[u8],
        _at: usize,
        _refusal: &mut Error,
        _context: &mut C,
    ) -> Option<()> {
        None
    }
}
