// A value that leads to itself, under a flavor that allows it: it is accepted, and isn't read back.

ghost use Rattle.std.specs.Prelude.{◌≡◌, true, refl, codes, IfOk, IfErr, IsErr};
ghost use Rattle.std.proofs.Common.{inl, inr, lit≤};
ghost use Rattle.archive_core.specs.Shape.{choice, no_variant, one, variant};
ghost use Rattle.archive_core.specs.Expressions.{shape_of, shapes_in};
ghost use Rattle.archive_core.specs.NamedLayout.{name_reached};
ghost use Rattle.archive_core.specs.SelfCheck.Laws.{by_schema};
ghost use Rattle.archive_core.specs.VariantsLayout.{is_recursive_choice};
ghost use Rattle.archive_core.specs.Viewed.{Viewed};
ghost use Rattle.archive_core.specs.Seen.{RefusesPart};
ghost use Rattle.archive_core.specs.ReadBack.{ReadsAs};
ghost use Rattle.tests_whole.specs.LoopShape.{loop_name, loop_shape, loop_choice, loop_definitions, loop_layout, loop_has_layout, loop_variants, knows_variants};

use crate::assertions::{assert_holds, assert_same};
use archive_core::api::{access, deserialize};
use archive_core::error::Error;
use archive_core::pooling::{Pool, Pooling, PoolingState};
use archive_core::rc::{ArchivedRc, Flavor, RcFlavor, Shared};
use archive_core::self_check::BySchema;
use archive_core::shape::{self, Defs, FlavorInfo};
use archive_core::string::ArchivedStr;
use archive_core::traits::{Archive, ArchivePointee, Choice, Deserialize, Portable};
use archive_core::view::{RawView, Ref};
use std::alloc::{AllocError, Global};
use std::process::Abort;

// A flavor whose values may hold themselves.
struct Looping;

impl Flavor for Looping {
    const ALLOW_CYCLES: bool = true;

    ghost ALLOW_CYCLES = { true };

    ghost name = { codes "Looping" };

    fn name() -> &'static str {
        "Looping"
    }
}

// The expression of a pointer to a text of a flavor.
fn expression<F: Flavor>(rt: &impl Abort, alloc: Global) -> shape::Expr {
    ArchivedRc::<ArchivedStr, F>::expr(alloc).expect(rt, "memory")
}

#[test]
fn a_flavor_is_part_of_the_expression(rt: HostRuntime) {
    let shared = expression::<RcFlavor>(&rt, rt.alloc());
    let looping = expression::<Looping>(&rt, rt.alloc());
    assert_holds(&rt, "not equal", shared != looping);
    assert_same(&rt, "the name", RcFlavor::name(), "RcFlavor");
}

// The choice whose one variant is a shared one of it.
struct ArchivedLoop;

impl ArchivePointee for ArchivedLoop {
    type ArchivedMetadata = ();

    ghost pointee = { one loop_shape };

    ghost definitions = { loop_definitions };

    ghost metadata_length = { λ _. 0 };

    fn pointer_metadata(_metadata: &()) -> usize {
        0
    }
}

// A choice of one variant with these parts.
fn choice_of(
    alloc: Global,
    name: &'static str,
    only: Vec<shape::Expr>,
) -> Result<shape::Expr, AllocError>
    ensures { IfOk result (λ e. shape_of e ≡ choice name.now
        (variant (shapes_in only.items) no_variant)) }
{
    let variants = vec![in alloc; only]?;
    Ok(shape::Expr::Choice(name, variants))
}

// The definition of its name.
fn definition(alloc: Global) -> Result<shape::Expr, AllocError>
    ensures { IfOk result (λ e. shape_of e ≡ loop_choice) }
{
    let pointee = Box::new(
        alloc,
        shape::Pointee::One(shape::Expr::Named("ArchivedLoop")),
    )?;
    let flavor = FlavorInfo {
        name: "Looping",
        cycles: true,
    };
    let inner = shape::Expr::Shared(flavor, pointee);
    choice_of(alloc, "ArchivedLoop", vec![in alloc; inner]?)
}

impl Portable for ArchivedLoop {
    ghost shape = { loop_shape };

    ghost layout = { loop_layout };

    type Check = BySchema;

    ghost is_one = { refl };

    ghost is_align = { inr (inr (inl refl)) };

    ghost has_layout = { loop_has_layout };

    ghost no_others = { name_reached loop_name loop_choice };

    ghost checks = { λ direct. by_schema direct };

    fn size() -> usize {
        8
    }

    fn align() -> usize {
        4
    }

    fn expr(_alloc: Global) -> Result<shape::Expr, Error> {
        Ok(shape::Expr::Named("ArchivedLoop"))
    }

    #[tactic(auto, using(archive_check::proofs::format::AddedDefinitions::not_extended))]
    fn define(alloc: Global, defs: &mut Defs) -> Result<(), Error> {
        defs.add("ArchivedLoop", definition(alloc)?)?;
        Ok(())
    }
}

impl Choice for ArchivedLoop {
    type Variants = ((ArchivedRc<ArchivedLoop, Looping>, ()), ());

    ghost name = { loop_name };

    ghost has_variants = { is_recursive_choice loop_name _ loop_variants knows_variants };

    ghost holds = { lit≤ tt };
}

// What is answered where a pool has a number for a position: this type finishes none.
fn unread(_kept: Shared<u32>) -> Error
    ensures { result ≡ Error.OutOfMemory }
{
    Error::OutOfMemory
}

// Follows the pointer of the value that lies there, and those that it leads to, `left` of them. No value of Rust holds itself, so a number stands for what
// would be read, and none is.
fn follow<D: Pooling<Shared<u32>>>(
    part: RawView<'_>,
    pool: &mut D,
    left: usize,
) -> Result<u32, Error>
    requires { Viewed loop_definitions part.bytes.now part.pos (one loop_shape) part.len }
    ensures none { IsErr result }
    ensures refused { IfErr result (RefusesPart ⟦<ArchivedLoop as ArchivePointee>⟧ part D.Entries
        pool) }
{
    let Some(left) = left.checked_sub(1) else {
        return Err(Error::OutOfMemory);
    };
    let view: Ref<'_, ArchivedLoop> = Ref::at(part);
    let _tag = view.tag();
    let pointer: Ref<'_, ArchivedRc<ArchivedLoop, Looping>> = view.payload(0);
    let inner = pointer.get().part();
    match pool.start_pooling(inner.pos)? {
        PoolingState::Pending => Err(Error::CyclicDeserialize),
        PoolingState::Finished(kept) => Err(unread(kept)),
        PoolingState::Started => follow(inner, pool, left),
    }
}

impl<D: Pooling<Shared<u32>>> Deserialize<u32, D> for ArchivedLoop {
    fn deserialize_part(
        _alloc: Global,
        part: RawView<'_>,
        deserializer: &mut D,
    ) -> Result<u32, Error>
        requires { Viewed loop_definitions part.bytes.now part.pos (one loop_shape) part.len }
        ensures { ReadsAs ⟦<Self as ArchivePointee>⟧ part D.Entries deserializer ⟦<u32 as Archive>⟧
            result }
    {
        follow(part, deserializer, part.bytes.len())
    }
}

// A value whose pointer leads to itself, and a root that leads there.
const ONE: &[u8] = b"\0\0\0\xff\xfc\xff\xff\xff\0\0\xf6\xff\xf4\xff\xff\xff";

// Two values that lead to each other, and a root that leads to the last of them.
const TWO: &[u8] = b"\0\0\0\0\x04\0\0\0\0\0\0\0\xf4\xff\xff\xff\0\0\0\0\xf4\xff\xff\xff";

// Checks the bytes and reads back what lies at their end.
fn read<D: Pooling<Shared<u32>>>(
    alloc: Global,
    bytes: &[u8],
    deserializer: &mut D,
) -> Result<u32, Error> {
    let root = access::<ArchivedLoop>(alloc, bytes)?;
    deserialize(alloc, root, deserializer)
}

// The number of the refusal of a reading back, or 0 where there is none.
fn refusal<D: Pooling<Shared<u32>>>(alloc: Global, bytes: &[u8], deserializer: &mut D) -> u32 {
    match read(alloc, bytes, deserializer) {
        Ok(_) => 0,
        Err(error) => error.number(),
    }
}

// The bytes are accepted, and refused by a pool when they are read back.
fn assert_endless(rt: &impl Abort, alloc: Global, bytes: &[u8]) {
    let mut pool: Pool<Shared<u32>> = Pool::new(alloc);
    let found = refusal(alloc, bytes, &mut pool);
    assert_same(rt, "the reading", found, 13);
}

#[test]
fn a_circle_is_accepted_and_refused_by_a_pool(rt: HostRuntime) {
    assert_endless(&rt, rt.alloc(), ONE);
    assert_endless(&rt, rt.alloc(), TWO);
}
