//! An expression.

/// An expression.
#[derive(Debug, PartialEq, Drop)]
pub enum Expr {
    /// A number.
    Num(i64),
    /// A sum.
    Add(Box<Expr>, Box<Expr>),
    /// A call by a name.
    Call(String, Vec<Expr>),
}

// Below this line all is written by tools/derive: change what is above it, and run it again.

ghost use Rattle.archive_core.specs.CallOutcomes.{ResolvesAs};
ghost use Rattle.archive_core.specs.Causes.{HindersAt, IsRefused};
ghost use Rattle.archive_core.specs.Definitions.{both, no_definition};
ghost use Rattle.archive_core.specs.Expressed.{ExpressesParts, ExpressesVariants};
ghost use Rattle.archive_core.specs.Layout.{up};
ghost use Rattle.archive_core.specs.OwnChoices.{variant_definitions};
ghost use Rattle.archive_core.specs.Payloads.{payload_in};
ghost use Rattle.archive_core.specs.PlannedOwners.{one_planned};
ghost use Rattle.archive_core.specs.Plans.{Serialized};
ghost use Rattle.archive_core.specs.ReadBack.{Read, ReadsAs};
ghost use Rattle.archive_core.specs.Runs.{EachBelongs, IsRunRefused, SerializedRun, each_flat, each_keys, each_meaning};
ghost use Rattle.archive_core.specs.SealOutcomes.{IsSealOf, SealsPart, seal_tag};
ghost use Rattle.archive_core.specs.Seen.{IsPartOf, RefusesPart, ShowsValueOf, part_tag, tag_of};
ghost use Rattle.archive_core.specs.SelfCheck.Laws.{by_schema};
ghost use Rattle.archive_core.specs.Shape.{boxed, no_part, one, part, parts, variant, variant_at, vec};
ghost use Rattle.archive_core.specs.Value.{case, no_value, value};
ghost use Rattle.archive_core.specs.Writing.{Resolves, ZeroedPlace};
ghost use Rattle.archive_core.specs.Written.{GoesOn};
ghost use Rattle.recursive_types.specs.ExprShape.{expr_add_parts, expr_call_parts, expr_definitions, expr_has_layout, expr_has_variants, expr_is_align, expr_layout, expr_name, expr_no_others, expr_num_parts, expr_shape, expr_variant_definitions, expr_variants};
ghost use Rattle.std.proofs.Common.{lit≤};
ghost use Rattle.std.specs.Prelude.{IfErr, IfOk, None, OnOk, Some, [], length, refl, ℕ, ◌++◌, ◌+◌, ◌<◌, ◌≡◌, ◌≤◌};

use archive_core::boxed::{ArchivedBox, BoxResolver};
use archive_core::error::Error;
use archive_core::fields::{resolve_1, resolve_2};
use archive_core::place::Place;
use archive_core::primitive::ArchivedI64;
use archive_core::recursive::{
    BoxAt, VecAt, before_box, before_vec, boxed_expression, define_choice, expression_of,
    first_expression, first_variant, handed_on, named_expression, no_expressions, no_variants,
    part_of_variant, read_part, seal_of_payload, serialize_inner, serialize_part, serialize_run,
    tag_of_choice, tag_of_view, vec_expression, view_of_payload,
};
use archive_core::seal::Seal;
use archive_core::self_check::BySchema;
use archive_core::ser::{ResolverAlloc, Writer, serialize_one};
use archive_core::shape::Defs;
use archive_core::string::ArchivedString;
use archive_core::traits::{
    Archive, ArchivePointee, ArchiveUnsized, Choice, CopyOptimization, Deserialize, Entries, Keys,
    Portable, Serialize, SerializeUnsized,
};
use archive_core::vec::{ArchivedVec, VecResolver};
use archive_core::view::{RawView, Ref};
use std::alloc::{AllocError, Global};

/// An archived `Expr`: 24 bytes at a multiple of 8. It is validated by its schema.
pub struct ArchivedExpr;

type ExprNumParts = (ArchivedI64, ());

type ExprAddParts = (ArchivedBox<ArchivedExpr>, (ArchivedBox<ArchivedExpr>, ()));

type ExprCallParts = (ArchivedString, (ArchivedVec<ArchivedExpr>, ()));

type ExprVariants = (ExprNumParts, (ExprAddParts, (ExprCallParts, ())));

impl ArchivePointee for ArchivedExpr {
    type ArchivedMetadata = ();

    ghost pointee = { one expr_shape };

    ghost definitions = { expr_definitions };

    ghost metadata_length = { λ _. 0 };

    fn pointer_metadata(_metadata: &()) -> usize {
        0
    }
}

// The parts of `Num`.
fn expr_num_expressions(alloc: Global) -> Result<Vec<archive_core::shape::Expr>, AllocError>
    ensures { ExpressesParts expr_num_parts result }
{
    let rest1 = no_expressions(alloc);
    first_expression(expression_of::<ArchivedI64>(alloc), rest1)
}

// The parts of `Add`.
fn expr_add_expressions(alloc: Global) -> Result<Vec<archive_core::shape::Expr>, AllocError>
    ensures { ExpressesParts expr_add_parts result }
{
    let rest2 = no_expressions(alloc);
    let rest1 = first_expression(
        boxed_expression(alloc, named_expression("ArchivedExpr")),
        rest2,
    );
    first_expression(
        boxed_expression(alloc, named_expression("ArchivedExpr")),
        rest1,
    )
}

// The parts of `Call`.
fn expr_call_expressions(alloc: Global) -> Result<Vec<archive_core::shape::Expr>, AllocError>
    ensures { ExpressesParts expr_call_parts result }
{
    let rest2 = no_expressions(alloc);
    let rest1 = first_expression(
        vec_expression(alloc, named_expression("ArchivedExpr")),
        rest2,
    );
    first_expression(expression_of::<ArchivedString>(alloc), rest1)
}

// Its variants.
fn expr_expressions(alloc: Global) -> Result<Vec<Vec<archive_core::shape::Expr>>, AllocError>
    ensures { ExpressesVariants expr_variants result }
{
    let rest3 = no_variants(alloc);
    let rest2 = first_variant(expr_call_expressions(alloc), rest3);
    let rest1 = first_variant(expr_add_expressions(alloc), rest2);
    first_variant(expr_num_expressions(alloc), rest1)
}

impl Portable for ArchivedExpr {
    ghost shape = { expr_shape };

    ghost layout = { expr_layout };

    type Check = BySchema;

    ghost is_one = { refl };

    ghost is_align = { expr_is_align };

    ghost has_layout = { expr_has_layout };

    ghost no_others = { expr_no_others };

    ghost checks = { λ direct. by_schema direct };

    fn size() -> usize {
        24
    }

    fn align() -> usize {
        8
    }

    fn expr(_alloc: Global) -> Result<archive_core::shape::Expr, Error> {
        Ok(archive_core::shape::Expr::Named("ArchivedExpr"))
    }

    fn define(alloc: Global, defs: &mut Defs) -> Result<(), Error> {
        define_choice("ArchivedExpr", expr_expressions(alloc), defs)
    }
}

impl Choice for ArchivedExpr {
    type Variants = ExprVariants;

    ghost name = { expr_name };

    ghost has_variants = { expr_has_variants };

    ghost holds = { lit≤ tt };
}

/// What is kept of `Expr` between `serialize` and `resolve`.
#[derive(Drop)]
pub enum ExprResolver {
    /// Of `Num`.
    Num((<i64 as Archive>::Resolver, ())),
    /// Of `Add`.
    Add((BoxResolver, (BoxResolver, ()))),
    /// Of `Call`.
    Call((<String as Archive>::Resolver, (VecResolver, ()))),
}

// Writes a variant of a field over zeros: its tag, and behind it the fields.
#[inline(always)]
fn resolve_expr_1<A: Archive>(
    tag: u8,
    a: &A,
    resolvers: (A::Resolver, ()),
    place: Place<'_, ArchivedExpr>,
) -> Result<(), Error>
    requires variant { variant_at expr_variants tag ≡ Some (part A.Archived.shape no_part) }
    requires definitions { variant_definitions expr_variant_definitions tag
        ≡ (both A.Archived.definitions no_definition) }
    requires inside { Unit {0} → (up 1 A.Archived.layout.align + A.Archived.layout.size) ≤ 24 }
    requires zeroed { ZeroedPlace 24 place.pos place.bytes.now }
    requires same_values { (A.belongs a.now resolvers.0 × Unit {0}) }
    ensures resolved { OnOk result (Resolves expr_definitions place.entry.pos place.exit.0.now
        expr_shape (case tag (value (A.flat a.now resolvers.0) no_value))) }
    ensures same_length { length place.exit.0.now ≡ length place.entry.bytes.now }
    ensures refused { IfErr result (HindersAt expr_definitions expr_shape
        (case tag (value (A.flat a.now resolvers.0) no_value)) place.entry.pos) }
{
    let Place { bytes, pos, .. } = place;
    bytes[0] = tag;
    resolve_1(a, resolvers, pos, 1, &mut bytes[1..])
}

// Writes a variant of 2 fields over zeros: its tag, and behind it the fields.
#[inline(always)]
fn resolve_expr_2<A: Archive, B: Archive>(
    tag: u8,
    a: &A,
    b: &B,
    resolvers: (A::Resolver, (B::Resolver, ())),
    place: Place<'_, ArchivedExpr>,
) -> Result<(), Error>
    requires variant { variant_at expr_variants tag ≡ Some
        (part A.Archived.shape (part B.Archived.shape no_part)) }
    requires definitions { variant_definitions expr_variant_definitions tag
        ≡ (both A.Archived.definitions (both B.Archived.definitions no_definition)) }
    requires inside { Unit {0} → (up (up 1 A.Archived.layout.align + A.Archived.layout.size)
        B.Archived.layout.align + B.Archived.layout.size) ≤ 24 }
    requires zeroed { ZeroedPlace 24 place.pos place.bytes.now }
    requires same_values { (A.belongs a.now resolvers.0
        × (B.belongs b.now resolvers.1.0 × Unit {0})) }
    ensures resolved { OnOk result (Resolves expr_definitions place.entry.pos place.exit.0.now
        expr_shape (case tag (value (A.flat a.now resolvers.0)
        (value (B.flat b.now resolvers.1.0) no_value)))) }
    ensures same_length { length place.exit.0.now ≡ length place.entry.bytes.now }
    ensures refused { IfErr result (HindersAt expr_definitions expr_shape
        (case tag (value (A.flat a.now resolvers.0) (value (B.flat b.now resolvers.1.0) no_value)))
        place.entry.pos) }
{
    let Place { bytes, pos, .. } = place;
    bytes[0] = tag;
    resolve_2(a, b, resolvers, pos, 1, &mut bytes[1..])
}

impl Archive for Expr {
    ghost use Rattle.recursive_types.specs.ExprMeaning.{expr_meaning, expr_flat, expr_keys, expr_belongs, expr_keyed, expr_planned};

    type Archived = ArchivedExpr;

    type Resolver = ExprResolver;

    ghost meaning = { expr_meaning };

    ghost flat = { expr_flat };

    ghost keys = { expr_keys };

    ghost belongs = { expr_belongs };

    ghost in_bulk = { None };

    ghost keyed = { expr_keyed };

    ghost planned = { expr_planned };

    #[inline(always)]
    fn resolve(
        &self,
        resolver: Self::Resolver,
        place: Place<'_, Self::Archived>,
    ) -> Result<(), Error>
        requires zeroed { ZeroedPlace 24 place.pos place.bytes.now }
        requires same_value { ⟦<Self as Archive>⟧.belongs self.now resolver }
        ensures { ResolvesAs ⟦<Self::Archived as Portable>⟧ place
            (⟦<Self as Archive>⟧.flat self.now resolver) result }
    {
        let Place { bytes, pos, .. } = place;
        match self {
            Expr::Num(a0) => {
                let ExprResolver::Num(kept) = resolver else {
                    unreachable!();
                };
                resolve_expr_1::<i64>(0, a0, kept, Place::new(pos, bytes))
            }
            Expr::Add(_a0, _a1) => {
                let ExprResolver::Add(kept) = resolver else {
                    unreachable!();
                };
                let h0: BoxAt<ArchivedExpr> = BoxAt::new();
                let h1: BoxAt<ArchivedExpr> = BoxAt::new();
                resolve_expr_2::<BoxAt<ArchivedExpr>, BoxAt<ArchivedExpr>>(
                    1,
                    &h0,
                    &h1,
                    kept,
                    Place::new(pos, bytes),
                )
            }
            Expr::Call(a0, a1) => {
                let ExprResolver::Call(kept) = resolver else {
                    unreachable!();
                };
                let h1: VecAt<ArchivedExpr> = VecAt::of(a1.len());
                resolve_expr_2::<String, VecAt<ArchivedExpr>>(
                    2,
                    a0,
                    &h1,
                    kept,
                    Place::new(pos, bytes),
                )
            }
        }
    }

    #[inline(always)]
    fn copy_optimization() -> CopyOptimization<Self> {
        CopyOptimization::disable()
    }

    #[inline(always)]
    fn serialize_copied<S: Writer + Keys>(
        _values: &[Self],
        _together: usize,
        _serializer: &mut S,
    ) -> Result<Option<usize>, Error> {
        Ok(None)
    }
}

// Writes what a box owns.
#[cycle(serialize_expr)]
fn serialize_box_expr<S: Writer + Keys + ResolverAlloc>(
    value: &Box<Expr>,
    serializer: &mut S,
) -> Result<BoxResolver, Error>
    ensures serialized { IfOk result (λ r. Serialized expr_definitions (boxed (one expr_shape))
        (⟦<Box<Expr> as Archive>⟧.keys value.now) (⟦<Box<Expr> as Archive>⟧.meaning value.now)
        (⟦<Box<Expr> as Archive>⟧.flat value.now r) (S.state serializer.old)
        (S.state serializer.new)) }
    ensures same_value { IfOk result (λ r. ⟦<Box<Expr> as Archive>⟧.belongs value.now r) }
    ensures goes_on { GoesOn (S.state serializer.old) (S.state serializer.new) }
    ensures refused { IfErr result (IsRefused expr_definitions (boxed (one expr_shape))
        (⟦<Box<Expr> as Archive>⟧.keys value.now) (⟦<Box<Expr> as Archive>⟧.meaning value.now)
        (S.state serializer.old) (S.state serializer.new)) }
{
    let inner = &**value;
    let kept = match serialize_expr(inner, serializer) {
        Ok(kept) => kept,
        Err(error) => return Err(handed_on(error)),
    };
    match serialize_inner(inner, kept, serializer) {
        Ok(at) => Ok(at),
        Err(error) => Err(error),
    }
}

// Writes what each of the values owns, in order.
#[cycle(serialize_expr)]
fn serialize_each_expr<S: Writer + Keys + ResolverAlloc>(
    values: &[Expr],
    serializer: &mut S,
) -> Result<Vec<<Expr as Archive>::Resolver, S::Alloc>, Error>
    ensures serialized { IfOk result (λ rs. SerializedRun expr_definitions expr_shape
        (length values.now) (each_keys ⟦<Expr as Archive>⟧.keys values.now)
        (each_meaning ⟦<Expr as Archive>⟧.meaning values.now)
        (each_flat ⟦<Expr as Archive>⟧.flat values.now rs.items) (S.state serializer.old)
        (S.state serializer.new)) }
    ensures same_values { IfOk result (λ rs. EachBelongs ⟦<Expr as Archive>⟧.belongs values.now
        rs.items) }
    ensures goes_on { GoesOn (S.state serializer.old) (S.state serializer.new) }
    ensures refused { IfErr result (IsRunRefused expr_definitions expr_shape (length values.now)
        (each_keys ⟦<Expr as Archive>⟧.keys values.now)
        (each_meaning ⟦<Expr as Archive>⟧.meaning values.now) (S.state serializer.old)
        (S.state serializer.new)) }
{
    let alloc = serializer.resolver_alloc();
    let mut resolvers = Vec::with_capacity(alloc, values.len())?;
    for value in values {
        let resolver = match serialize_expr(value, serializer) {
            Ok(resolver) => resolver,
            Err(error) => return Err(handed_on(error)),
        };
        resolvers.push_reserved(resolver);
    }
    Ok(resolvers)
}

// Writes what a vector owns.
#[cycle(serialize_expr)]
fn serialize_vec_expr<S: Writer + Keys + ResolverAlloc>(
    value: &Vec<Expr>,
    serializer: &mut S,
) -> Result<VecResolver, Error>
    ensures serialized { IfOk result (λ r. Serialized expr_definitions (vec expr_shape)
        (⟦<Vec<Expr> as Archive>⟧.keys value.now) (⟦<Vec<Expr> as Archive>⟧.meaning value.now)
        (⟦<Vec<Expr> as Archive>⟧.flat value.now r) (S.state serializer.old)
        (S.state serializer.new)) }
    ensures same_value { IfOk result (λ r. ⟦<Vec<Expr> as Archive>⟧.belongs value.now r) }
    ensures goes_on { GoesOn (S.state serializer.old) (S.state serializer.new) }
    ensures refused { IfErr result (IsRefused expr_definitions (vec expr_shape)
        (⟦<Vec<Expr> as Archive>⟧.keys value.now) (⟦<Vec<Expr> as Archive>⟧.meaning value.now)
        (S.state serializer.old) (S.state serializer.new)) }
{
    if value.len() > u32::MAX as usize {
        return Err(Error::LengthTooLarge);
    }
    let items = value.as_slice();
    let kept = match serialize_each_expr(items, serializer) {
        Ok(kept) => kept,
        Err(error) => return Err(error),
    };
    match serialize_run(items, kept, serializer) {
        Ok(at) => Ok(at),
        Err(error) => Err(error),
    }
}

// Writes what the parts of `Num` own, in order.
fn serialize_expr_num<S: Writer + Keys + ResolverAlloc>(
    a0: &i64,
    serializer: &mut S,
) -> Result<(<i64 as Archive>::Resolver, ()), Error>
    ensures serialized { IfOk result (λ r. Serialized expr_definitions expr_shape
        (⟦<i64 as Archive>⟧.keys a0.now ++ []) (case 0 (value (⟦<i64 as Archive>⟧.meaning a0.now)
        no_value)) (case 0 (value (⟦<i64 as Archive>⟧.flat a0.now r.0) no_value))
        (S.state serializer.old) (S.state serializer.new)) }
    ensures same_values { IfOk result (λ r. ⟦<i64 as Archive>⟧.belongs a0.now r.0 × Unit {0}) }
    ensures goes_on { GoesOn (S.state serializer.old) (S.state serializer.new) }
    ensures refused { IfErr result (IsRefused expr_definitions expr_shape
        (⟦<i64 as Archive>⟧.keys a0.now ++ []) (case 0 (value (⟦<i64 as Archive>⟧.meaning a0.now)
        no_value)) (S.state serializer.old) (S.state serializer.new)) }
{
    let a0 = match serialize_part(a0, serializer) {
        Ok(a0) => a0,
        Err(error) => return Err(error),
    };
    Ok((a0, ()))
}

// Writes what the parts of `Call` own, in order.
#[cycle(serialize_expr)]
fn serialize_expr_call<S: Writer + Keys + ResolverAlloc>(
    a0: &String,
    a1: &Vec<Expr>,
    serializer: &mut S,
) -> Result<(<String as Archive>::Resolver, (VecResolver, ())), Error>
    ensures serialized { IfOk result (λ r. Serialized expr_definitions expr_shape
        (⟦<String as Archive>⟧.keys a0.now ++ (⟦<Vec<Expr> as Archive>⟧.keys a1.now ++ []))
        (case 2 (value (⟦<String as Archive>⟧.meaning a0.now)
        (value (⟦<Vec<Expr> as Archive>⟧.meaning a1.now) no_value)))
        (case 2 (value (⟦<String as Archive>⟧.flat a0.now r.0)
        (value (⟦<Vec<Expr> as Archive>⟧.flat a1.now r.1.0) no_value))) (S.state serializer.old)
        (S.state serializer.new)) }
    ensures same_values { IfOk result (λ r. ⟦<String as Archive>⟧.belongs a0.now r.0
        × (⟦<Vec<Expr> as Archive>⟧.belongs a1.now r.1.0 × Unit {0})) }
    ensures goes_on { GoesOn (S.state serializer.old) (S.state serializer.new) }
    ensures refused { IfErr result (IsRefused expr_definitions expr_shape
        (⟦<String as Archive>⟧.keys a0.now ++ (⟦<Vec<Expr> as Archive>⟧.keys a1.now ++ []))
        (case 2 (value (⟦<String as Archive>⟧.meaning a0.now)
        (value (⟦<Vec<Expr> as Archive>⟧.meaning a1.now) no_value))) (S.state serializer.old)
        (S.state serializer.new)) }
{
    let a0 = match serialize_part(a0, serializer) {
        Ok(a0) => a0,
        Err(error) => return Err(error),
    };
    let a1 = match serialize_vec_expr(a1, serializer) {
        Ok(a1) => a1,
        Err(error) => return Err(error),
    };
    Ok((a0, (a1, ())))
}

// Writes what a value owns.
#[cycle(serialize_expr)]
fn serialize_whole_expr<S: Writer + Keys + ResolverAlloc>(
    value: &Expr,
    serializer: &mut S,
) -> Result<ExprResolver, Error>
    ensures serialized { IfOk result (λ r. Serialized expr_definitions expr_shape
        (⟦<Expr as Archive>⟧.keys value.now) (⟦<Expr as Archive>⟧.meaning value.now)
        (⟦<Expr as Archive>⟧.flat value.now r) (S.state serializer.old) (S.state serializer.new)) }
    ensures same_value { IfOk result (λ r. ⟦<Expr as Archive>⟧.belongs value.now r) }
    ensures goes_on { GoesOn (S.state serializer.old) (S.state serializer.new) }
    ensures refused { IfErr result (IsRefused expr_definitions expr_shape
        (⟦<Expr as Archive>⟧.keys value.now) (⟦<Expr as Archive>⟧.meaning value.now)
        (S.state serializer.old) (S.state serializer.new)) }
{
    match value {
        Expr::Num(a0) => match serialize_expr_num(a0, serializer) {
            Ok(kept) => Ok(ExprResolver::Num(kept)),
            Err(error) => Err(error),
        },
        Expr::Add(a0, a1) => {
            let a0 = match serialize_box_expr(a0, serializer) {
                Ok(a0) => a0,
                Err(error) => return Err(error),
            };
            let a1 = match serialize_box_expr(a1, serializer) {
                Ok(a1) => a1,
                Err(error) => return Err(error),
            };
            Ok(ExprResolver::Add((a0, (a1, ()))))
        }
        Expr::Call(a0, a1) => match serialize_expr_call(a0, a1, serializer) {
            Ok(kept) => Ok(ExprResolver::Call(kept)),
            Err(error) => Err(error),
        },
    }
}

// The same by a call, whose result has its room only while it lasts.
#[cycle(serialize_expr)]
#[inline(always)]
fn serialize_expr<S: Writer + Keys + ResolverAlloc>(
    value: &Expr,
    serializer: &mut S,
) -> Result<ExprResolver, Error>
    ensures serialized { IfOk result (λ r. Serialized expr_definitions expr_shape
        (⟦<Expr as Archive>⟧.keys value.now) (⟦<Expr as Archive>⟧.meaning value.now)
        (⟦<Expr as Archive>⟧.flat value.now r) (S.state serializer.old) (S.state serializer.new)) }
    ensures same_value { IfOk result (λ r. ⟦<Expr as Archive>⟧.belongs value.now r) }
    ensures goes_on { GoesOn (S.state serializer.old) (S.state serializer.new) }
    ensures refused { IfErr result (IsRefused expr_definitions expr_shape
        (⟦<Expr as Archive>⟧.keys value.now) (⟦<Expr as Archive>⟧.meaning value.now)
        (S.state serializer.old) (S.state serializer.new)) }
{
    serialize_whole_expr(value, serializer)
}

impl<S: Writer + Keys + ResolverAlloc> Serialize<S> for Expr {
    #[inline(always)]
    fn serialize(&self, serializer: &mut S) -> Result<Self::Resolver, Error> {
        serialize_expr(self, serializer)
    }
}

/// As a region of its own: the value itself.
impl ArchiveUnsized for Expr {
    ghost use Rattle.recursive_types.specs.contracts.expr.ExprArchive.TheImpl.Laws.{keyed-law as keyed_of_expr, planned-law as planned_of_expr};

    type Archived = ArchivedExpr;

    ghost source_length = { λ _. 0 };

    ghost meaning = { ⟦<Expr as Archive>⟧.meaning };

    ghost keys = { ⟦<Expr as Archive>⟧.keys };

    ghost keyed = { keyed_of_expr };

    ghost one_length = { λ _ _. refl };

    ghost planned = { λ v. one_planned expr_definitions expr_shape (⟦<Expr as Archive>⟧.keys v)
        (⟦<Expr as Archive>⟧.meaning v) (planned_of_expr v) };

    #[inline(always)]
    fn archived_metadata(&self) -> Result<(), Error> {
        Ok(())
    }
}

impl<S: Writer + Keys + ResolverAlloc> SerializeUnsized<S> for Expr {
    #[inline(always)]
    fn serialize_unsized(&self, serializer: &mut S) -> Result<usize, Error> {
        serialize_one(self, serializer)
    }
}

// The tag of a value, which names its variant.
#[inline(always)]
fn tag_of_expr(part: RawView<'_>) -> u8
    requires { IsPartOf ⟦<ArchivedExpr as ArchivePointee>⟧ part }
    ensures tag { result ≡ part_tag part.entry }
    ensures below { result < 3 }
{
    tag_of_choice::<ArchivedExpr>(part)
}

// The part of a value that is `Add` with the index 0.
#[inline(always)]
fn part_0_of_expr_add<'a>(part: RawView<'a>) -> RawView<'a>
    requires viewed { IsPartOf ⟦<ArchivedExpr as ArchivePointee>⟧ part }
    requires tag { part_tag part ≡ 1 }
    ensures buffer { result.bytes.now ≡ part.entry.bytes.now }
    ensures position { result.pos ≡ part.entry.pos + 4 }
    ensures length { result.len ≡ 0 }
    ensures viewed { IsPartOf ⟦<ArchivedBox<ArchivedExpr> as ArchivePointee>⟧ result }
{
    part_of_variant::<ArchivedExpr, ArchivedBox<ArchivedExpr>>(part, 1, 0, 4)
}

// The part of a value that is `Add` with the index 1.
#[inline(always)]
fn part_1_of_expr_add<'a>(part: RawView<'a>) -> RawView<'a>
    requires viewed { IsPartOf ⟦<ArchivedExpr as ArchivePointee>⟧ part }
    requires tag { part_tag part ≡ 1 }
    ensures buffer { result.bytes.now ≡ part.entry.bytes.now }
    ensures position { result.pos ≡ part.entry.pos + 8 }
    ensures length { result.len ≡ 0 }
    ensures viewed { IsPartOf ⟦<ArchivedBox<ArchivedExpr> as ArchivePointee>⟧ result }
{
    part_of_variant::<ArchivedExpr, ArchivedBox<ArchivedExpr>>(part, 1, 1, 8)
}

// The part of a value that is `Call` with the index 0.
#[inline(always)]
fn part_0_of_expr_call<'a>(part: RawView<'a>) -> RawView<'a>
    requires viewed { IsPartOf ⟦<ArchivedExpr as ArchivePointee>⟧ part }
    requires tag { part_tag part ≡ 2 }
    ensures buffer { result.bytes.now ≡ part.entry.bytes.now }
    ensures position { result.pos ≡ part.entry.pos + 4 }
    ensures length { result.len ≡ 0 }
    ensures viewed { IsPartOf ⟦<ArchivedString as ArchivePointee>⟧ result }
{
    part_of_variant::<ArchivedExpr, ArchivedString>(part, 2, 0, 4)
}

// The part of a value that is `Call` with the index 1.
#[inline(always)]
fn part_1_of_expr_call<'a>(part: RawView<'a>) -> RawView<'a>
    requires viewed { IsPartOf ⟦<ArchivedExpr as ArchivePointee>⟧ part }
    requires tag { part_tag part ≡ 2 }
    ensures buffer { result.bytes.now ≡ part.entry.bytes.now }
    ensures position { result.pos ≡ part.entry.pos + 12 }
    ensures length { result.len ≡ 0 }
    ensures viewed { IsPartOf ⟦<ArchivedVec<ArchivedExpr> as ArchivePointee>⟧ result }
{
    part_of_variant::<ArchivedExpr, ArchivedVec<ArchivedExpr>>(part, 2, 1, 12)
}

// Reads a box back.
#[cycle(read_expr)]
#[inline(always)]
fn read_box_expr<D: Entries>(
    alloc: Global,
    part: RawView<'_>,
    deserializer: &mut D,
) -> Result<Box<Expr>, Error>
    requires { IsPartOf ⟦<ArchivedBox<ArchivedExpr> as ArchivePointee>⟧ part }
    ensures read { IfOk result (Read ⟦<ArchivedBox<ArchivedExpr> as ArchivePointee>⟧ part D.Entries
        deserializer ⟦<Box<Expr> as Archive>⟧) }
    ensures refused { IfErr result (RefusesPart ⟦<ArchivedBox<ArchivedExpr> as ArchivePointee>⟧ part
        D.Entries deserializer) }
{
    let view: Ref<'_, ArchivedBox<ArchivedExpr>> = Ref::at(part);
    let value = match read_expr(alloc, before_box(view).part(), deserializer) {
        Ok(value) => value,
        Err(error) => return Err(error),
    };
    let whole = Box::new(alloc, value)?;
    Ok(whole)
}

// Reads a vector back. One with no elements takes no call, whose result would go through memory.
#[cycle(read_expr)]
#[inline(always)]
fn read_vec_expr<D: Entries>(
    alloc: Global,
    part: RawView<'_>,
    deserializer: &mut D,
) -> Result<Vec<Expr>, Error>
    requires { IsPartOf ⟦<ArchivedVec<ArchivedExpr> as ArchivePointee>⟧ part }
    ensures read { IfOk result (Read ⟦<ArchivedVec<ArchivedExpr> as ArchivePointee>⟧ part D.Entries
        deserializer ⟦<Vec<Expr> as Archive>⟧) }
    ensures refused { IfErr result (RefusesPart ⟦<ArchivedVec<ArchivedExpr> as ArchivePointee>⟧ part
        D.Entries deserializer) }
{
    let view: Ref<'_, ArchivedVec<ArchivedExpr>> = Ref::at(part);
    if view.is_empty() {
        return Ok(Vec::new(alloc));
    }
    read_each_expr(alloc, part, deserializer)
}

// Reads the elements of a vector back.
#[cycle(read_expr)]
#[inline(always)]
fn read_each_expr<D: Entries>(
    alloc: Global,
    part: RawView<'_>,
    deserializer: &mut D,
) -> Result<Vec<Expr>, Error>
    requires { IsPartOf ⟦<ArchivedVec<ArchivedExpr> as ArchivePointee>⟧ part }
    ensures read { IfOk result (Read ⟦<ArchivedVec<ArchivedExpr> as ArchivePointee>⟧ part D.Entries
        deserializer ⟦<Vec<Expr> as Archive>⟧) }
    ensures refused { IfErr result (RefusesPart ⟦<ArchivedVec<ArchivedExpr> as ArchivePointee>⟧ part
        D.Entries deserializer) }
{
    let view: Ref<'_, ArchivedVec<ArchivedExpr>> = Ref::at(part);
    let list = before_vec(view);
    let mut items = Vec::with_capacity(alloc, list.len())?;
    for index in 0..list.len() {
        let item = match read_expr(alloc, list.index(index).part(), deserializer) {
            Ok(item) => item,
            Err(error) => return Err(error),
        };
        items.push_reserved(item);
    }
    Ok(items)
}

// Reads `Num` back.
#[inline(always)]
fn read_expr_num<D: Entries>(
    alloc: Global,
    part: RawView<'_>,
    deserializer: &mut D,
) -> Result<Expr, Error>
    requires viewed { IsPartOf ⟦<ArchivedExpr as ArchivePointee>⟧ part }
    requires tag { part_tag part ≡ 0 }
    ensures read { IfOk result (Read ⟦<ArchivedExpr as ArchivePointee>⟧ part D.Entries deserializer
        ⟦<Expr as Archive>⟧) }
    ensures refused { IfErr result (RefusesPart ⟦<ArchivedExpr as ArchivePointee>⟧ part D.Entries
        deserializer) }
{
    let p0 = part_of_variant::<ArchivedExpr, ArchivedI64>(part, 0, 0, 8);
    let a0 = match read_part::<ArchivedI64, i64, D>(alloc, p0, deserializer) {
        Ok(a0) => a0,
        Err(error) => return Err(error),
    };
    Ok(Expr::Num(a0))
}

// Reads `Add` back.
#[cycle(read_expr)]
#[inline(never)]
fn read_expr_add<D: Entries>(
    alloc: Global,
    part: RawView<'_>,
    deserializer: &mut D,
) -> Result<Expr, Error>
    requires viewed { IsPartOf ⟦<ArchivedExpr as ArchivePointee>⟧ part }
    requires tag { part_tag part ≡ 1 }
    ensures read { IfOk result (Read ⟦<ArchivedExpr as ArchivePointee>⟧ part D.Entries deserializer
        ⟦<Expr as Archive>⟧) }
    ensures refused { IfErr result (RefusesPart ⟦<ArchivedExpr as ArchivePointee>⟧ part D.Entries
        deserializer) }
{
    let p0 = part_0_of_expr_add(part);
    let a0 = match read_box_expr(alloc, p0, deserializer) {
        Ok(a0) => a0,
        Err(error) => return Err(error),
    };
    let p1 = part_1_of_expr_add(part);
    let a1 = match read_box_expr(alloc, p1, deserializer) {
        Ok(a1) => a1,
        Err(error) => return Err(error),
    };
    Ok(Expr::Add(a0, a1))
}

// Reads `Call` back.
#[cycle(read_expr)]
#[inline(never)]
fn read_expr_call<D: Entries>(
    alloc: Global,
    part: RawView<'_>,
    deserializer: &mut D,
) -> Result<Expr, Error>
    requires viewed { IsPartOf ⟦<ArchivedExpr as ArchivePointee>⟧ part }
    requires tag { part_tag part ≡ 2 }
    ensures read { IfOk result (Read ⟦<ArchivedExpr as ArchivePointee>⟧ part D.Entries deserializer
        ⟦<Expr as Archive>⟧) }
    ensures refused { IfErr result (RefusesPart ⟦<ArchivedExpr as ArchivePointee>⟧ part D.Entries
        deserializer) }
{
    let p0 = part_0_of_expr_call(part);
    let a0 = match read_part::<ArchivedString, String, D>(alloc, p0, deserializer) {
        Ok(a0) => a0,
        Err(error) => return Err(error),
    };
    let p1 = part_1_of_expr_call(part);
    let a1 = match read_vec_expr(alloc, p1, deserializer) {
        Ok(a1) => a1,
        Err(error) => return Err(error),
    };
    Ok(Expr::Call(a0, a1))
}

// Reads a value back.
#[cycle(read_expr)]
#[inline(always)]
fn read_expr<D: Entries>(
    alloc: Global,
    part: RawView<'_>,
    deserializer: &mut D,
) -> Result<Expr, Error>
    requires { IsPartOf ⟦<ArchivedExpr as ArchivePointee>⟧ part }
    ensures read { IfOk result (Read ⟦<ArchivedExpr as ArchivePointee>⟧ part D.Entries deserializer
        ⟦<Expr as Archive>⟧) }
    ensures refused { IfErr result (RefusesPart ⟦<ArchivedExpr as ArchivePointee>⟧ part D.Entries
        deserializer) }
{
    match tag_of_expr(part) {
        0 => read_expr_num(alloc, part, deserializer),
        1 => read_expr_add(alloc, part, deserializer),
        _ => read_expr_call(alloc, part, deserializer),
    }
}

impl<D: Entries> Deserialize<Expr, D> for ArchivedExpr {
    #[inline(always)]
    fn deserialize_part(
        alloc: Global,
        part: RawView<'_>,
        deserializer: &mut D,
    ) -> Result<Expr, Error>
        requires { IsPartOf ⟦<Self as ArchivePointee>⟧ part }
        ensures { ReadsAs ⟦<Self as ArchivePointee>⟧ part D.Entries deserializer ⟦<Expr as Archive>⟧
            result }
    {
        read_expr(alloc, part, deserializer)
    }
}

/// What a view of an archived `Expr` shows, by its tag.
#[derive(Drop)]
pub enum ViewOfExpr<'a> {
    /// A number.
    Num(Ref<'a, ArchivedI64>),
    /// A sum.
    Add(Ref<'a, ArchivedBox<ArchivedExpr>>, Ref<'a, ArchivedBox<ArchivedExpr>>),
    /// A call by a name.
    Call(Ref<'a, ArchivedString>, Ref<'a, ArchivedVec<ArchivedExpr>>),
}

/// The variant of an archived `Expr`, as a view.
pub trait ExprView<'a> {
    /// The variant that the tag names, with views of its fields.
    fn variant(self) -> ViewOfExpr<'a>;
}

impl<'a> ExprView<'a> for Ref<'a, ArchivedExpr> {
    ghost use Rattle.recursive_types.specs.declared.expr.ViewOfExpr.TheVariants.{Add as ExprAddShown, Call as ExprCallShown, Num as ExprNumShown};

    fn variant(self) -> ViewOfExpr<'a>
        ensures shows { elim result [
          | ExprNumShown a0 ↦ (tag_of self.entry ≡ 0) × (a0.bytes.now ≡ self.entry.bytes.now)
              × (a0.pos ≡ self.entry.pos + 8) × (a0.len ≡ 0)
              × ShowsValueOf a0 self.entry (payload_in 0)
          | ExprAddShown a0 a1 ↦ (tag_of self.entry ≡ 1) × (a0.bytes.now ≡ self.entry.bytes.now)
              × (a0.pos ≡ self.entry.pos + 4) × (a0.len ≡ 0)
              × ShowsValueOf a0 self.entry (payload_in 0) × (a1.bytes.now ≡ self.entry.bytes.now)
              × (a1.pos ≡ self.entry.pos + 8) × (a1.len ≡ 0)
              × ShowsValueOf a1 self.entry (payload_in 1)
          | ExprCallShown a0 a1 ↦ (tag_of self.entry ≡ 2) × (a0.bytes.now ≡ self.entry.bytes.now)
              × (a0.pos ≡ self.entry.pos + 4) × (a0.len ≡ 0)
              × ShowsValueOf a0 self.entry (payload_in 0) × (a1.bytes.now ≡ self.entry.bytes.now)
              × (a1.pos ≡ self.entry.pos + 12) × (a1.len ≡ 0)
              × ShowsValueOf a1 self.entry (payload_in 1)
        ] }
    {
        match tag_of_view(self) {
            0 => ViewOfExpr::Num(view_of_payload::<ArchivedExpr, ArchivedI64>(self, 0, 0, 8)),
            1 => {
                let a0 = view_of_payload::<ArchivedExpr, ArchivedBox<ArchivedExpr>>(self, 1, 0, 4);
                let a1 = view_of_payload::<ArchivedExpr, ArchivedBox<ArchivedExpr>>(self, 1, 1, 8);
                ViewOfExpr::Add(a0, a1)
            }
            _ => {
                let a0 = view_of_payload::<ArchivedExpr, ArchivedString>(self, 2, 0, 4);
                let a1 = view_of_payload::<ArchivedExpr, ArchivedVec<ArchivedExpr>>(self, 2, 1, 12);
                ViewOfExpr::Call(a0, a1)
            }
        }
    }
}

/// The fields of an archived `Expr`, as seals. The caller must ensure that the tag is the variant's.
pub trait ExprSeal<'a> {
    // The seal shows a part of a buffer that was checked.
    ghost sealed: { Self → Type 0 };

    // The tag that it shows.
    ghost tag: { Self → ℕ };

    /// The field `0` of `Num`.
    fn num_0_mut(self) -> Seal<'a, ArchivedI64>
        requires come_to { sealed self }
        requires tag { tag self ≡ 0 };

    /// The field `0` of `Add`.
    fn add_0_mut(self) -> Seal<'a, ArchivedBox<ArchivedExpr>>
        requires come_to { sealed self }
        requires tag { tag self ≡ 1 };

    /// The field `1` of `Add`.
    fn add_1_mut(self) -> Seal<'a, ArchivedBox<ArchivedExpr>>
        requires come_to { sealed self }
        requires tag { tag self ≡ 1 };

    /// The field `0` of `Call`.
    fn call_0_mut(self) -> Seal<'a, ArchivedString>
        requires come_to { sealed self }
        requires tag { tag self ≡ 2 };

    /// The field `1` of `Call`.
    fn call_1_mut(self) -> Seal<'a, ArchivedVec<ArchivedExpr>>
        requires come_to { sealed self }
        requires tag { tag self ≡ 2 };
}

impl<'a> ExprSeal<'a> for Seal<'a, ArchivedExpr> {
    ghost sealed = { λ s. IsSealOf expr_definitions (one ⟦<ArchivedExpr as Portable>⟧.shape) s };

    ghost tag = { λ s. seal_tag s };

    fn num_0_mut(self) -> Seal<'a, ArchivedI64>
        requires come_to { IsSealOf expr_definitions (one ⟦<ArchivedExpr as Portable>⟧.shape) self }
        requires tag { seal_tag self ≡ 0 }
        ensures { SealsPart expr_definitions (one ⟦<ArchivedExpr as Portable>⟧.shape) no_definition
            ⟦<ArchivedI64 as ArchivePointee>⟧.pointee (self.entry.pos + 8) 0 self.entry result }
    {
        seal_of_payload::<ArchivedExpr, ArchivedI64>(self, 0, 0, 8)
    }

    fn add_0_mut(self) -> Seal<'a, ArchivedBox<ArchivedExpr>>
        requires come_to { IsSealOf expr_definitions (one ⟦<ArchivedExpr as Portable>⟧.shape) self }
        requires tag { seal_tag self ≡ 1 }
        ensures { SealsPart expr_definitions (one ⟦<ArchivedExpr as Portable>⟧.shape)
            ⟦<ArchivedExpr as ArchivePointee>⟧.definitions
            ⟦<ArchivedBox<ArchivedExpr> as ArchivePointee>⟧.pointee (self.entry.pos + 4) 0
            self.entry result }
    {
        seal_of_payload::<ArchivedExpr, ArchivedBox<ArchivedExpr>>(self, 1, 0, 4)
    }

    fn add_1_mut(self) -> Seal<'a, ArchivedBox<ArchivedExpr>>
        requires come_to { IsSealOf expr_definitions (one ⟦<ArchivedExpr as Portable>⟧.shape) self }
        requires tag { seal_tag self ≡ 1 }
        ensures { SealsPart expr_definitions (one ⟦<ArchivedExpr as Portable>⟧.shape)
            ⟦<ArchivedExpr as ArchivePointee>⟧.definitions
            ⟦<ArchivedBox<ArchivedExpr> as ArchivePointee>⟧.pointee (self.entry.pos + 8) 0
            self.entry result }
    {
        seal_of_payload::<ArchivedExpr, ArchivedBox<ArchivedExpr>>(self, 1, 1, 8)
    }

    fn call_0_mut(self) -> Seal<'a, ArchivedString>
        requires come_to { IsSealOf expr_definitions (one ⟦<ArchivedExpr as Portable>⟧.shape) self }
        requires tag { seal_tag self ≡ 2 }
        ensures { SealsPart expr_definitions (one ⟦<ArchivedExpr as Portable>⟧.shape) no_definition
            ⟦<ArchivedString as ArchivePointee>⟧.pointee (self.entry.pos + 4) 0 self.entry result }
    {
        seal_of_payload::<ArchivedExpr, ArchivedString>(self, 2, 0, 4)
    }

    fn call_1_mut(self) -> Seal<'a, ArchivedVec<ArchivedExpr>>
        requires come_to { IsSealOf expr_definitions (one ⟦<ArchivedExpr as Portable>⟧.shape) self }
        requires tag { seal_tag self ≡ 2 }
        ensures { SealsPart expr_definitions (one ⟦<ArchivedExpr as Portable>⟧.shape)
            ⟦<ArchivedExpr as ArchivePointee>⟧.definitions
            ⟦<ArchivedVec<ArchivedExpr> as ArchivePointee>⟧.pointee (self.entry.pos + 12) 0
            self.entry result }
    {
        seal_of_payload::<ArchivedExpr, ArchivedVec<ArchivedExpr>>(self, 2, 1, 12)
    }
}
