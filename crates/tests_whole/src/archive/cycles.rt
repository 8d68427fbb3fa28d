// Pointers that lead to themselves, under a flavor that allows it.

ghost use Rattle.std.specs.Prelude.{refl};
ghost use Rattle.std.proofs.Common.{inl, inr};
ghost use Rattle.tests_whole.specs.CircleShape.{circle_name, circle_pointer};

use crate::assertions::assert_same;
use archive_core::api::{HighValidator, access_with_context};
use archive_core::own::{ArchivedRecursive, NamedRecursive};
use archive_core::shape::{self, FlavorInfo};
use std::alloc::{AllocError, Global};
use std::process::Abort;

// The name of a shared pointer to one of it.
struct Circle;

type ArchivedCircle = ArchivedRecursive<Circle>;

impl NamedRecursive for Circle {
    ghost name = { circle_name };

    ghost stands_for = { circle_pointer };

    ghost layout = { record { size = 4; align = 4 } };

    ghost is_align = { inr (inr (inl refl)) };

    ghost laid_out = { record { solved = λ s k. refl } };

    fn name() -> &'static str {
        "ArchivedCircle"
    }

    fn size() -> usize {
        4
    }

    fn align() -> usize {
        4
    }

    fn definition(alloc: Global) -> Result<shape::Expr, AllocError> {
        let pointee = Box::new(
            alloc,
            shape::Pointee::One(shape::Expr::Named("ArchivedCircle")),
        )?;
        let flavor = FlavorInfo {
            name: "Looping",
            cycles: true,
        };
        Ok(shape::Expr::Shared(flavor, pointee))
    }
}

// One pointer that leads to itself, and two that lead to each other, each behind them a pointer to the last of them.
const ONE: &[u8] = b"\0\0\0\0\xfc\xff\xff\xff";

const TWO: &[u8] = b"\x04\0\0\0\xfc\xff\xff\xff\xfc\xff\xff\xff";

// A check enters so many regions.
fn assert_entered(rt: &impl Abort, alloc: Global, bytes: &[u8], regions: usize) {
    let mut context = HighValidator::new(alloc, bytes);
    let view = access_with_context::<ArchivedCircle, HighValidator<'_>>(alloc, bytes, &mut context);
    let _ = view.expect(rt, "a circle");
    assert_same(rt, "the regions", context.subtrees(), regions);
}

#[test]
fn a_circle_is_entered_once_a_pointer(rt: HostRuntime) {
    assert_entered(&rt, rt.alloc(), ONE, 2);
    assert_entered(&rt, rt.alloc(), TWO, 3);
}
