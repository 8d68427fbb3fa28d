// Leaves, and the types of the machine that are leaves.

ghost use Rattle.std.specs.Prelude.{◌≡◌, ◌+◌, ◌*◌, ◌≤◌, length, OnSome, IfNone, true};
ghost use Rattle.std.specs.Int.{w8};
ghost use Rattle.archive_check.specs.Shape.{leaf, unit, bool, number, unsigned, signed};
ghost use Rattle.archive_check.specs.Layout.{kind_size};
ghost use Rattle.archive_check.specs.Expressions.{kind_of};
ghost use Rattle.archive_check.specs.Definitions.{no_definition};
ghost use Rattle.archive_check.specs.SelfCheck.Ways.{shape_way, AreGood};
ghost use Rattle.archive_check.specs.context.Pushes.{Spends};
ghost use Rattle.archive_check.specs.SelfCheck.Steps.{Went, Stopped};

use super::SelfCheck;
use crate::context::ArchiveContext;
use crate::context::refusals::refuse;
use crate::format::error::Error;
use crate::format::expr::{IntegerKind, Kind};
use crate::format::leaf::{count_legal, illegal, is_legal};

/// Checks the leaf of this kind at `at`, in bytes from the first one. The caller must ensure that
/// it lies in `bytes`. `None` if the check stops, and `refusal` is why: `InvalidBool`,
/// `InvalidChar` or `ZeroNumber` at a number that may not be 0.
#[inline(always)]
pub fn check_leaf<C: ArchiveContext>(
    kind: Kind,
    bytes: &[u8],
    at: usize,
    refusal: &mut Error,
    _context: &mut C,
) -> Option<()>
    requires { at + kind_size (kind_of kind) ≤ length bytes.now }
    ensures through { Went C.Context _context no_definition
        (shape_way bytes.now at (leaf (kind_of kind))) result }
    ensures stops { Stopped C.Context _context no_definition
        (shape_way bytes.now at (leaf (kind_of kind))) result refusal }
    ensures spends { Spends 0 (C.state _context.old) (C.state _context.new) }
    ensures positions { OnSome result (C.positions _context.new ≡ C.positions _context.old) }
{
    if !is_legal(kind, bytes, at) {
        return refuse(refusal, illegal(kind));
    }
    Some(())
}

/// How many leaves of this kind at the front are known to be valid at once.
///
/// There are `count` of them, `step` bytes apart from `at` on; the caller must ensure that all lie
/// in `bytes`.
#[inline(always)]
pub fn check_first_leaves(kind: Kind, bytes: &[u8], at: usize, step: usize, count: usize) -> usize
    requires { at + count * step ≤ length bytes.now }
    ensures few { result ≤ count }
    ensures good { AreGood no_definition bytes.now at step (leaf (kind_of kind)) result }
{
    count_legal(kind, bytes, at, step, count)
}

impl SelfCheck for () {
    ghost shape = { leaf unit };

    ghost definitions = { no_definition };

    ghost span = { 0 };

    ghost direct = { true };

    ghost nameless = { true };

    fn is_direct() -> bool {
        true
    }

    fn is_nameless() -> bool {
        true
    }

    #[inline(always)]
    fn check_at<C: ArchiveContext>(
        bytes: &[u8],
        at: usize,
        refusal: &mut Error,
        context: &mut C,
    ) -> Option<()> {
        check_leaf(Kind::Unit, bytes, at, refusal, context)
    }
}

impl SelfCheck for bool {
    ghost shape = { leaf bool };

    ghost definitions = { no_definition };

    ghost span = { 1 };

    ghost direct = { true };

    ghost nameless = { true };

    fn is_direct() -> bool {
        true
    }

    fn is_nameless() -> bool {
        true
    }

    #[inline(always)]
    fn check_at<C: ArchiveContext>(
        bytes: &[u8],
        at: usize,
        refusal: &mut Error,
        context: &mut C,
    ) -> Option<()> {
        check_leaf(Kind::Bool, bytes, at, refusal, context)
    }

    #[inline(always)]
    fn check_first(bytes: &[u8], at: usize, step: usize, count: usize) -> usize {
        check_first_leaves(Kind::Bool, bytes, at, step, count)
    }
}

impl SelfCheck for u8 {
    ghost shape = { leaf (number unsigned w8) };

    ghost definitions = { no_definition };

    ghost span = { 1 };

    ghost direct = { true };

    ghost nameless = { true };

    fn is_direct() -> bool {
        true
    }

    fn is_nameless() -> bool {
        true
    }

    #[inline(always)]
    fn check_at<C: ArchiveContext>(
        bytes: &[u8],
        at: usize,
        refusal: &mut Error,
        context: &mut C,
    ) -> Option<()> {
        check_leaf(Kind::Number(IntegerKind::U8), bytes, at, refusal, context)
    }
}

impl SelfCheck for i8 {
    ghost shape = { leaf (number signed w8) };

    ghost definitions = { no_definition };

    ghost span = { 1 };

    ghost direct = { true };

    ghost nameless = { true };

    fn is_direct() -> bool {
        true
    }

    fn is_nameless() -> bool {
        true
    }

    #[inline(always)]
    fn check_at<C: ArchiveContext>(
        bytes: &[u8],
        at: usize,
        refusal: &mut Error,
        context: &mut C,
    ) -> Option<()> {
        check_leaf(Kind::Number(IntegerKind::I8), bytes, at, refusal, context)
    }
}
