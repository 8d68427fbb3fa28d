//! A recursive type that holds one of another file.

use crate::expr::Expr;

/// A statement.
#[derive(Debug, PartialEq, Drop)]
pub enum Stmt {
    /// Gives what an expression leads to a value, or takes the one it has.
    Set(Expr, Option<Expr>),
    /// Statements one after another.
    Block(Vec<Stmt>),
}

// Below this line all is written by tools/derive: change what is above it, and run it again.

ghost use Rattle.archive_core.specs.CallOutcomes.{ResolvesAs};
ghost use Rattle.archive_core.specs.Causes.{HindersAt, IsRefused};
ghost use Rattle.archive_core.specs.Definitions.{ExplainsConflict, Extended, both, defines, no_definition};
ghost use Rattle.archive_core.specs.Expressed.{ExpressesParts, ExpressesVariants};
ghost use Rattle.archive_core.specs.Expressions.{table_of};
ghost use Rattle.archive_core.specs.Layout.{up};
ghost use Rattle.archive_core.specs.OwnChoices.{variant_definitions};
ghost use Rattle.archive_core.specs.Payloads.{payload_in};
ghost use Rattle.archive_core.specs.PlannedOwners.{one_planned};
ghost use Rattle.archive_core.specs.Plans.{Serialized};
ghost use Rattle.archive_core.specs.ReadBack.{Read, ReadsAs};
ghost use Rattle.archive_core.specs.Runs.{EachBelongs, IsRunRefused, SerializedRun, each_flat, each_keys, each_meaning};
ghost use Rattle.archive_core.specs.SealOutcomes.{IsSealOf, SealsPart, seal_tag};
ghost use Rattle.archive_core.specs.Seen.{IsPartOf, RefusesPart, ShowsValueOf, part_tag, tag_of};
ghost use Rattle.archive_core.specs.SelfCheck.Laws.{by_schema};
ghost use Rattle.archive_core.specs.Shape.{no_part, one, part, parts, variant, variant_at, vec};
ghost use Rattle.archive_core.specs.Value.{case, no_value, value};
ghost use Rattle.archive_core.specs.Writing.{Resolves, ZeroedPlace};
ghost use Rattle.archive_core.specs.Written.{GoesOn};
ghost use Rattle.recursive_types.specs.StmtShape.{stmt_block_parts, stmt_definitions, stmt_has_layout, stmt_has_variants, stmt_is_align, stmt_layout, stmt_name, stmt_no_others, stmt_set_parts, stmt_shape, stmt_stands_for, stmt_variant_definitions, stmt_variants};
ghost use Rattle.std.proofs.Common.{lit≤};
ghost use Rattle.std.specs.Prelude.{IfErr, IfOk, None, OnOk, Some, [], length, refl, ℕ, ◌++◌, ◌+◌, ◌<◌, ◌≡◌, ◌≤◌};

use crate::expr::ArchivedExpr;
use archive_core::error::Error;
use archive_core::fields::{resolve_1, resolve_2};
use archive_core::option::ArchivedOption;
use archive_core::place::Place;
use archive_core::recursive::{
    VecAt, before_vec, define_choice, expression_of, first_expression, first_variant, handed_on,
    named_expression, no_expressions, no_variants, part_of_variant, read_part, seal_of_payload,
    serialize_part, serialize_run, tag_of_choice, tag_of_view, vec_expression, view_of_payload,
};
use archive_core::seal::Seal;
use archive_core::self_check::BySchema;
use archive_core::ser::{ResolverAlloc, Writer, serialize_one};
use archive_core::shape::Defs;
use archive_core::traits::{
    Archive, ArchivePointee, ArchiveUnsized, Choice, CopyOptimization, Deserialize, Entries, Keys,
    Portable, Serialize, SerializeUnsized,
};
use archive_core::vec::{ArchivedVec, VecResolver};
use archive_core::view::{RawView, Ref};
use std::alloc::{AllocError, Global};

/// An archived `Stmt`: 64 bytes at a multiple of 8. It is validated by its schema.
pub struct ArchivedStmt;

type StmtSetParts = (ArchivedExpr, (ArchivedOption<ArchivedExpr>, ()));

type StmtBlockParts = (ArchivedVec<ArchivedStmt>, ());

type StmtVariants = (StmtSetParts, (StmtBlockParts, ()));

impl ArchivePointee for ArchivedStmt {
    type ArchivedMetadata = ();

    ghost pointee = { one stmt_shape };

    ghost definitions = { stmt_definitions };

    ghost metadata_length = { λ _. 0 };

    fn pointer_metadata(_metadata: &()) -> usize {
        0
    }
}

// The parts of `Set`.
fn stmt_set_expressions(alloc: Global) -> Result<Vec<archive_core::shape::Expr>, AllocError>
    ensures { ExpressesParts stmt_set_parts result }
{
    let rest2 = no_expressions(alloc);
    let rest1 = first_expression(expression_of::<ArchivedOption<ArchivedExpr>>(alloc), rest2);
    first_expression(expression_of::<ArchivedExpr>(alloc), rest1)
}

// The parts of `Block`.
fn stmt_block_expressions(alloc: Global) -> Result<Vec<archive_core::shape::Expr>, AllocError>
    ensures { ExpressesParts stmt_block_parts result }
{
    let rest1 = no_expressions(alloc);
    first_expression(
        vec_expression(alloc, named_expression("ArchivedStmt")),
        rest1,
    )
}

// Its variants.
fn stmt_expressions(alloc: Global) -> Result<Vec<Vec<archive_core::shape::Expr>>, AllocError>
    ensures { ExpressesVariants stmt_variants result }
{
    let rest2 = no_variants(alloc);
    let rest1 = first_variant(stmt_block_expressions(alloc), rest2);
    first_variant(stmt_set_expressions(alloc), rest1)
}

// Adds what `ArchivedExpr` brings.
fn define_expr_within_stmt(alloc: Global, defs: &mut Defs) -> Result<(), Error>
    ensures added { OnOk result (Extended (table_of defs.old)
        ⟦<ArchivedExpr as ArchivePointee>⟧.definitions (table_of defs.new)) }
    ensures refused { IfErr result (ExplainsConflict (table_of defs.old)
        ⟦<ArchivedExpr as ArchivePointee>⟧.definitions) }
{
    <ArchivedExpr as Portable>::define(alloc, defs)
}

// Adds what the name stands for.
fn define_stmt(alloc: Global, defs: &mut Defs) -> Result<(), Error>
    ensures added { OnOk result (Extended (table_of defs.old) (defines stmt_name stmt_stands_for)
        (table_of defs.new)) }
    ensures refused { IfErr result (ExplainsConflict (table_of defs.old)
        (defines stmt_name stmt_stands_for)) }
{
    define_choice("ArchivedStmt", stmt_expressions(alloc), defs)
}

// Adds what the names stand for.
fn define_stmt_family(alloc: Global, defs: &mut Defs) -> Result<(), Error>
    ensures added { OnOk result (Extended (table_of defs.old) stmt_definitions
        (table_of defs.new)) }
    ensures refused { IfErr result (ExplainsConflict (table_of defs.old) stmt_definitions) }
{
    define_stmt(alloc, defs)?;
    define_expr_within_stmt(alloc, defs)
}

impl Portable for ArchivedStmt {
    ghost shape = { stmt_shape };

    ghost layout = { stmt_layout };

    type Check = BySchema;

    ghost is_one = { refl };

    ghost is_align = { stmt_is_align };

    ghost has_layout = { stmt_has_layout };

    ghost no_others = { stmt_no_others };

    ghost checks = { λ direct. by_schema direct };

    fn size() -> usize {
        64
    }

    fn align() -> usize {
        8
    }

    fn expr(_alloc: Global) -> Result<archive_core::shape::Expr, Error> {
        Ok(archive_core::shape::Expr::Named("ArchivedStmt"))
    }

    fn define(alloc: Global, defs: &mut Defs) -> Result<(), Error> {
        define_stmt_family(alloc, defs)
    }
}

impl Choice for ArchivedStmt {
    type Variants = StmtVariants;

    ghost name = { stmt_name };

    ghost has_variants = { stmt_has_variants };

    ghost holds = { lit≤ tt };
}

/// What is kept of `Stmt` between `serialize` and `resolve`.
#[derive(Drop)]
pub enum StmtResolver {
    /// Of `Set`.
    Set(
        (
            <Expr as Archive>::Resolver,
            (<Option<Expr> as Archive>::Resolver, ()),
        ),
    ),
    /// Of `Block`.
    Block((VecResolver, ())),
}

// Writes a variant of a field over zeros: its tag, and behind it the fields.
#[inline(always)]
fn resolve_stmt_1<A: Archive>(
    tag: u8,
    a: &A,
    resolvers: (A::Resolver, ()),
    place: Place<'_, ArchivedStmt>,
) -> Result<(), Error>
    requires variant { variant_at stmt_variants tag ≡ Some (part A.Archived.shape no_part) }
    requires definitions { variant_definitions stmt_variant_definitions tag
        ≡ (both A.Archived.definitions no_definition) }
    requires inside { Unit {0} → (up 1 A.Archived.layout.align + A.Archived.layout.size) ≤ 64 }
    requires zeroed { ZeroedPlace 64 place.pos place.bytes.now }
    requires same_values { (A.belongs a.now resolvers.0 × Unit {0}) }
    ensures resolved { OnOk result (Resolves stmt_definitions place.entry.pos place.exit.0.now
        stmt_shape (case tag (value (A.flat a.now resolvers.0) no_value))) }
    ensures same_length { length place.exit.0.now ≡ length place.entry.bytes.now }
    ensures refused { IfErr result (HindersAt stmt_definitions stmt_shape
        (case tag (value (A.flat a.now resolvers.0) no_value)) place.entry.pos) }
{
    let Place { bytes, pos, .. } = place;
    bytes[0] = tag;
    resolve_1(a, resolvers, pos, 1, &mut bytes[1..])
}

// Writes a variant of 2 fields over zeros: its tag, and behind it the fields.
#[inline(always)]
fn resolve_stmt_2<A: Archive, B: Archive>(
    tag: u8,
    a: &A,
    b: &B,
    resolvers: (A::Resolver, (B::Resolver, ())),
    place: Place<'_, ArchivedStmt>,
) -> Result<(), Error>
    requires variant { variant_at stmt_variants tag ≡ Some
        (part A.Archived.shape (part B.Archived.shape no_part)) }
    requires definitions { variant_definitions stmt_variant_definitions tag
        ≡ (both A.Archived.definitions (both B.Archived.definitions no_definition)) }
    requires inside { Unit {0} → (up (up 1 A.Archived.layout.align + A.Archived.layout.size)
        B.Archived.layout.align + B.Archived.layout.size) ≤ 64 }
    requires zeroed { ZeroedPlace 64 place.pos place.bytes.now }
    requires same_values { (A.belongs a.now resolvers.0
        × (B.belongs b.now resolvers.1.0 × Unit {0})) }
    ensures resolved { OnOk result (Resolves stmt_definitions place.entry.pos place.exit.0.now
        stmt_shape (case tag (value (A.flat a.now resolvers.0)
        (value (B.flat b.now resolvers.1.0) no_value)))) }
    ensures same_length { length place.exit.0.now ≡ length place.entry.bytes.now }
    ensures refused { IfErr result (HindersAt stmt_definitions stmt_shape
        (case tag (value (A.flat a.now resolvers.0) (value (B.flat b.now resolvers.1.0) no_value)))
        place.entry.pos) }
{
    let Place { bytes, pos, .. } = place;
    bytes[0] = tag;
    resolve_2(a, b, resolvers, pos, 1, &mut bytes[1..])
}

impl Archive for Stmt {
    ghost use Rattle.recursive_types.specs.StmtMeaning.{stmt_meaning, stmt_flat, stmt_keys, stmt_belongs, stmt_keyed, stmt_planned};

    type Archived = ArchivedStmt;

    type Resolver = StmtResolver;

    ghost meaning = { stmt_meaning };

    ghost flat = { stmt_flat };

    ghost keys = { stmt_keys };

    ghost belongs = { stmt_belongs };

    ghost in_bulk = { None };

    ghost keyed = { stmt_keyed };

    ghost planned = { stmt_planned };

    #[inline(always)]
    fn resolve(
        &self,
        resolver: Self::Resolver,
        place: Place<'_, Self::Archived>,
    ) -> Result<(), Error>
        requires zeroed { ZeroedPlace 64 place.pos place.bytes.now }
        requires same_value { ⟦<Self as Archive>⟧.belongs self.now resolver }
        ensures { ResolvesAs ⟦<Self::Archived as Portable>⟧ place
            (⟦<Self as Archive>⟧.flat self.now resolver) result }
    {
        let Place { bytes, pos, .. } = place;
        match self {
            Stmt::Set(a0, a1) => {
                let StmtResolver::Set(kept) = resolver else {
                    unreachable!();
                };
                resolve_stmt_2::<Expr, Option<Expr>>(0, a0, a1, kept, Place::new(pos, bytes))
            }
            Stmt::Block(a0) => {
                let StmtResolver::Block(kept) = resolver else {
                    unreachable!();
                };
                let h0: VecAt<ArchivedStmt> = VecAt::of(a0.len());
                resolve_stmt_1::<VecAt<ArchivedStmt>>(1, &h0, kept, Place::new(pos, bytes))
            }
        }
    }

    #[inline(always)]
    fn copy_optimization() -> CopyOptimization<Self> {
        CopyOptimization::disable()
    }

    #[inline(always)]
    fn serialize_copied<S: Writer + Keys>(
        _values: &[Self],
        _together: usize,
        _serializer: &mut S,
    ) -> Result<Option<usize>, Error> {
        Ok(None)
    }
}

// Writes what each of the values owns, in order.
#[cycle(serialize_stmt)]
fn serialize_each_stmt<S: Writer + Keys + ResolverAlloc>(
    values: &[Stmt],
    serializer: &mut S,
) -> Result<Vec<<Stmt as Archive>::Resolver, S::Alloc>, Error>
    ensures serialized { IfOk result (λ rs. SerializedRun stmt_definitions stmt_shape
        (length values.now) (each_keys ⟦<Stmt as Archive>⟧.keys values.now)
        (each_meaning ⟦<Stmt as Archive>⟧.meaning values.now)
        (each_flat ⟦<Stmt as Archive>⟧.flat values.now rs.items) (S.state serializer.old)
        (S.state serializer.new)) }
    ensures same_values { IfOk result (λ rs. EachBelongs ⟦<Stmt as Archive>⟧.belongs values.now
        rs.items) }
    ensures goes_on { GoesOn (S.state serializer.old) (S.state serializer.new) }
    ensures refused { IfErr result (IsRunRefused stmt_definitions stmt_shape (length values.now)
        (each_keys ⟦<Stmt as Archive>⟧.keys values.now)
        (each_meaning ⟦<Stmt as Archive>⟧.meaning values.now) (S.state serializer.old)
        (S.state serializer.new)) }
{
    let alloc = serializer.resolver_alloc();
    let mut resolvers = Vec::with_capacity(alloc, values.len())?;
    for value in values {
        let resolver = match serialize_stmt(value, serializer) {
            Ok(resolver) => resolver,
            Err(error) => return Err(handed_on(error)),
        };
        resolvers.push_reserved(resolver);
    }
    Ok(resolvers)
}

// Writes what a vector owns.
#[cycle(serialize_stmt)]
fn serialize_vec_stmt<S: Writer + Keys + ResolverAlloc>(
    value: &Vec<Stmt>,
    serializer: &mut S,
) -> Result<VecResolver, Error>
    ensures serialized { IfOk result (λ r. Serialized stmt_definitions (vec stmt_shape)
        (⟦<Vec<Stmt> as Archive>⟧.keys value.now) (⟦<Vec<Stmt> as Archive>⟧.meaning value.now)
        (⟦<Vec<Stmt> as Archive>⟧.flat value.now r) (S.state serializer.old)
        (S.state serializer.new)) }
    ensures same_value { IfOk result (λ r. ⟦<Vec<Stmt> as Archive>⟧.belongs value.now r) }
    ensures goes_on { GoesOn (S.state serializer.old) (S.state serializer.new) }
    ensures refused { IfErr result (IsRefused stmt_definitions (vec stmt_shape)
        (⟦<Vec<Stmt> as Archive>⟧.keys value.now) (⟦<Vec<Stmt> as Archive>⟧.meaning value.now)
        (S.state serializer.old) (S.state serializer.new)) }
{
    if value.len() > u32::MAX as usize {
        return Err(Error::LengthTooLarge);
    }
    let items = value.as_slice();
    let kept = match serialize_each_stmt(items, serializer) {
        Ok(kept) => kept,
        Err(error) => return Err(error),
    };
    match serialize_run(items, kept, serializer) {
        Ok(at) => Ok(at),
        Err(error) => Err(error),
    }
}

// Writes what the parts of `Set` own, in order.
fn serialize_stmt_set<S: Writer + Keys + ResolverAlloc>(
    a0: &Expr,
    a1: &Option<Expr>,
    serializer: &mut S,
) -> Result<
    (
        <Expr as Archive>::Resolver,
        (<Option<Expr> as Archive>::Resolver, ()),
    ),
    Error,
>
    ensures serialized { IfOk result (λ r. Serialized stmt_definitions stmt_shape
        (⟦<Expr as Archive>⟧.keys a0.now ++ (⟦<Option<Expr> as Archive>⟧.keys a1.now ++ []))
        (case 0 (value (⟦<Expr as Archive>⟧.meaning a0.now)
        (value (⟦<Option<Expr> as Archive>⟧.meaning a1.now) no_value)))
        (case 0 (value (⟦<Expr as Archive>⟧.flat a0.now r.0)
        (value (⟦<Option<Expr> as Archive>⟧.flat a1.now r.1.0) no_value))) (S.state serializer.old)
        (S.state serializer.new)) }
    ensures same_values { IfOk result (λ r. ⟦<Expr as Archive>⟧.belongs a0.now r.0
        × (⟦<Option<Expr> as Archive>⟧.belongs a1.now r.1.0 × Unit {0})) }
    ensures goes_on { GoesOn (S.state serializer.old) (S.state serializer.new) }
    ensures refused { IfErr result (IsRefused stmt_definitions stmt_shape
        (⟦<Expr as Archive>⟧.keys a0.now ++ (⟦<Option<Expr> as Archive>⟧.keys a1.now ++ []))
        (case 0 (value (⟦<Expr as Archive>⟧.meaning a0.now)
        (value (⟦<Option<Expr> as Archive>⟧.meaning a1.now) no_value))) (S.state serializer.old)
        (S.state serializer.new)) }
{
    let a0 = match serialize_part(a0, serializer) {
        Ok(a0) => a0,
        Err(error) => return Err(error),
    };
    let a1 = match serialize_part(a1, serializer) {
        Ok(a1) => a1,
        Err(error) => return Err(error),
    };
    Ok((a0, (a1, ())))
}

// Writes what the parts of `Block` own, in order.
#[cycle(serialize_stmt)]
fn serialize_stmt_block<S: Writer + Keys + ResolverAlloc>(
    a0: &Vec<Stmt>,
    serializer: &mut S,
) -> Result<(VecResolver, ()), Error>
    ensures serialized { IfOk result (λ r. Serialized stmt_definitions stmt_shape
        (⟦<Vec<Stmt> as Archive>⟧.keys a0.now ++ []) (case 1
        (value (⟦<Vec<Stmt> as Archive>⟧.meaning a0.now) no_value))
        (case 1 (value (⟦<Vec<Stmt> as Archive>⟧.flat a0.now r.0) no_value))
        (S.state serializer.old) (S.state serializer.new)) }
    ensures same_values { IfOk result (λ r. ⟦<Vec<Stmt> as Archive>⟧.belongs a0.now r.0
        × Unit {0}) }
    ensures goes_on { GoesOn (S.state serializer.old) (S.state serializer.new) }
    ensures refused { IfErr result (IsRefused stmt_definitions stmt_shape
        (⟦<Vec<Stmt> as Archive>⟧.keys a0.now ++ []) (case 1
        (value (⟦<Vec<Stmt> as Archive>⟧.meaning a0.now) no_value)) (S.state serializer.old)
        (S.state serializer.new)) }
{
    let a0 = match serialize_vec_stmt(a0, serializer) {
        Ok(a0) => a0,
        Err(error) => return Err(error),
    };
    Ok((a0, ()))
}

// Writes what a value owns.
#[cycle(serialize_stmt)]
fn serialize_whole_stmt<S: Writer + Keys + ResolverAlloc>(
    value: &Stmt,
    serializer: &mut S,
) -> Result<StmtResolver, Error>
    ensures serialized { IfOk result (λ r. Serialized stmt_definitions stmt_shape
        (⟦<Stmt as Archive>⟧.keys value.now) (⟦<Stmt as Archive>⟧.meaning value.now)
        (⟦<Stmt as Archive>⟧.flat value.now r) (S.state serializer.old) (S.state serializer.new)) }
    ensures same_value { IfOk result (λ r. ⟦<Stmt as Archive>⟧.belongs value.now r) }
    ensures goes_on { GoesOn (S.state serializer.old) (S.state serializer.new) }
    ensures refused { IfErr result (IsRefused stmt_definitions stmt_shape
        (⟦<Stmt as Archive>⟧.keys value.now) (⟦<Stmt as Archive>⟧.meaning value.now)
        (S.state serializer.old) (S.state serializer.new)) }
{
    match value {
        Stmt::Set(a0, a1) => match serialize_stmt_set(a0, a1, serializer) {
            Ok(kept) => Ok(StmtResolver::Set(kept)),
            Err(error) => Err(error),
        },
        Stmt::Block(a0) => match serialize_stmt_block(a0, serializer) {
            Ok(kept) => Ok(StmtResolver::Block(kept)),
            Err(error) => Err(error),
        },
    }
}

// The same by a call, whose result has its room only while it lasts.
#[cycle(serialize_stmt)]
#[inline(always)]
fn serialize_stmt<S: Writer + Keys + ResolverAlloc>(
    value: &Stmt,
    serializer: &mut S,
) -> Result<StmtResolver, Error>
    ensures serialized { IfOk result (λ r. Serialized stmt_definitions stmt_shape
        (⟦<Stmt as Archive>⟧.keys value.now) (⟦<Stmt as Archive>⟧.meaning value.now)
        (⟦<Stmt as Archive>⟧.flat value.now r) (S.state serializer.old) (S.state serializer.new)) }
    ensures same_value { IfOk result (λ r. ⟦<Stmt as Archive>⟧.belongs value.now r) }
    ensures goes_on { GoesOn (S.state serializer.old) (S.state serializer.new) }
    ensures refused { IfErr result (IsRefused stmt_definitions stmt_shape
        (⟦<Stmt as Archive>⟧.keys value.now) (⟦<Stmt as Archive>⟧.meaning value.now)
        (S.state serializer.old) (S.state serializer.new)) }
{
    serialize_whole_stmt(value, serializer)
}

impl<S: Writer + Keys + ResolverAlloc> Serialize<S> for Stmt {
    #[inline(always)]
    fn serialize(&self, serializer: &mut S) -> Result<Self::Resolver, Error> {
        serialize_stmt(self, serializer)
    }
}

/// As a region of its own: the value itself.
impl ArchiveUnsized for Stmt {
    ghost use Rattle.recursive_types.specs.contracts.stmt.StmtArchive.TheImpl.Laws.{keyed-law as keyed_of_stmt, planned-law as planned_of_stmt};

    type Archived = ArchivedStmt;

    ghost source_length = { λ _. 0 };

    ghost meaning = { ⟦<Stmt as Archive>⟧.meaning };

    ghost keys = { ⟦<Stmt as Archive>⟧.keys };

    ghost keyed = { keyed_of_stmt };

    ghost one_length = { λ _ _. refl };

    ghost planned = { λ v. one_planned stmt_definitions stmt_shape (⟦<Stmt as Archive>⟧.keys v)
        (⟦<Stmt as Archive>⟧.meaning v) (planned_of_stmt v) };

    #[inline(always)]
    fn archived_metadata(&self) -> Result<(), Error> {
        Ok(())
    }
}

impl<S: Writer + Keys + ResolverAlloc> SerializeUnsized<S> for Stmt {
    #[inline(always)]
    fn serialize_unsized(&self, serializer: &mut S) -> Result<usize, Error> {
        serialize_one(self, serializer)
    }
}

// The tag of a value, which names its variant.
#[inline(always)]
fn tag_of_stmt(part: RawView<'_>) -> u8
    requires { IsPartOf ⟦<ArchivedStmt as ArchivePointee>⟧ part }
    ensures tag { result ≡ part_tag part.entry }
    ensures below { result < 2 }
{
    tag_of_choice::<ArchivedStmt>(part)
}

// The part of a value that is `Block` with the index 0.
#[inline(always)]
fn part_0_of_stmt_block<'a>(part: RawView<'a>) -> RawView<'a>
    requires viewed { IsPartOf ⟦<ArchivedStmt as ArchivePointee>⟧ part }
    requires tag { part_tag part ≡ 1 }
    ensures buffer { result.bytes.now ≡ part.entry.bytes.now }
    ensures position { result.pos ≡ part.entry.pos + 4 }
    ensures length { result.len ≡ 0 }
    ensures viewed { IsPartOf ⟦<ArchivedVec<ArchivedStmt> as ArchivePointee>⟧ result }
{
    part_of_variant::<ArchivedStmt, ArchivedVec<ArchivedStmt>>(part, 1, 0, 4)
}

// Reads a vector back. One with no elements takes no call, whose result would go through memory.
#[cycle(read_stmt)]
#[inline(always)]
fn read_vec_stmt<D: Entries>(
    alloc: Global,
    part: RawView<'_>,
    deserializer: &mut D,
) -> Result<Vec<Stmt>, Error>
    requires { IsPartOf ⟦<ArchivedVec<ArchivedStmt> as ArchivePointee>⟧ part }
    ensures read { IfOk result (Read ⟦<ArchivedVec<ArchivedStmt> as ArchivePointee>⟧ part D.Entries
        deserializer ⟦<Vec<Stmt> as Archive>⟧) }
    ensures refused { IfErr result (RefusesPart ⟦<ArchivedVec<ArchivedStmt> as ArchivePointee>⟧ part
        D.Entries deserializer) }
{
    let view: Ref<'_, ArchivedVec<ArchivedStmt>> = Ref::at(part);
    if view.is_empty() {
        return Ok(Vec::new(alloc));
    }
    read_each_stmt(alloc, part, deserializer)
}

// Reads the elements of a vector back.
#[cycle(read_stmt)]
#[inline(always)]
fn read_each_stmt<D: Entries>(
    alloc: Global,
    part: RawView<'_>,
    deserializer: &mut D,
) -> Result<Vec<Stmt>, Error>
    requires { IsPartOf ⟦<ArchivedVec<ArchivedStmt> as ArchivePointee>⟧ part }
    ensures read { IfOk result (Read ⟦<ArchivedVec<ArchivedStmt> as ArchivePointee>⟧ part D.Entries
        deserializer ⟦<Vec<Stmt> as Archive>⟧) }
    ensures refused { IfErr result (RefusesPart ⟦<ArchivedVec<ArchivedStmt> as ArchivePointee>⟧ part
        D.Entries deserializer) }
{
    let view: Ref<'_, ArchivedVec<ArchivedStmt>> = Ref::at(part);
    let list = before_vec(view);
    let mut items = Vec::with_capacity(alloc, list.len())?;
    for index in 0..list.len() {
        let item = match read_stmt(alloc, list.index(index).part(), deserializer) {
            Ok(item) => item,
            Err(error) => return Err(error),
        };
        items.push_reserved(item);
    }
    Ok(items)
}

// Reads `Set` back.
#[inline(always)]
fn read_stmt_set<D: Entries>(
    alloc: Global,
    part: RawView<'_>,
    deserializer: &mut D,
) -> Result<Stmt, Error>
    requires viewed { IsPartOf ⟦<ArchivedStmt as ArchivePointee>⟧ part }
    requires tag { part_tag part ≡ 0 }
    ensures read { IfOk result (Read ⟦<ArchivedStmt as ArchivePointee>⟧ part D.Entries deserializer
        ⟦<Stmt as Archive>⟧) }
    ensures refused { IfErr result (RefusesPart ⟦<ArchivedStmt as ArchivePointee>⟧ part D.Entries
        deserializer) }
{
    let p0 = part_of_variant::<ArchivedStmt, ArchivedExpr>(part, 0, 0, 8);
    let a0 = match read_part::<ArchivedExpr, Expr, D>(alloc, p0, deserializer) {
        Ok(a0) => a0,
        Err(error) => return Err(error),
    };
    let p1 = part_of_variant::<ArchivedStmt, ArchivedOption<ArchivedExpr>>(part, 0, 1, 32);
    let a1 = match read_part::<ArchivedOption<ArchivedExpr>, Option<Expr>, D>(
        alloc,
        p1,
        deserializer,
    ) {
        Ok(a1) => a1,
        Err(error) => return Err(error),
    };
    Ok(Stmt::Set(a0, a1))
}

// Reads `Block` back.
#[cycle(read_stmt)]
#[inline(never)]
fn read_stmt_block<D: Entries>(
    alloc: Global,
    part: RawView<'_>,
    deserializer: &mut D,
) -> Result<Stmt, Error>
    requires viewed { IsPartOf ⟦<ArchivedStmt as ArchivePointee>⟧ part }
    requires tag { part_tag part ≡ 1 }
    ensures read { IfOk result (Read ⟦<ArchivedStmt as ArchivePointee>⟧ part D.Entries deserializer
        ⟦<Stmt as Archive>⟧) }
    ensures refused { IfErr result (RefusesPart ⟦<ArchivedStmt as ArchivePointee>⟧ part D.Entries
        deserializer) }
{
    let p0 = part_0_of_stmt_block(part);
    let a0 = match read_vec_stmt(alloc, p0, deserializer) {
        Ok(a0) => a0,
        Err(error) => return Err(error),
    };
    Ok(Stmt::Block(a0))
}

// Reads a value back.
#[cycle(read_stmt)]
#[inline(always)]
fn read_stmt<D: Entries>(
    alloc: Global,
    part: RawView<'_>,
    deserializer: &mut D,
) -> Result<Stmt, Error>
    requires { IsPartOf ⟦<ArchivedStmt as ArchivePointee>⟧ part }
    ensures read { IfOk result (Read ⟦<ArchivedStmt as ArchivePointee>⟧ part D.Entries deserializer
        ⟦<Stmt as Archive>⟧) }
    ensures refused { IfErr result (RefusesPart ⟦<ArchivedStmt as ArchivePointee>⟧ part D.Entries
        deserializer) }
{
    match tag_of_stmt(part) {
        0 => read_stmt_set(alloc, part, deserializer),
        _ => read_stmt_block(alloc, part, deserializer),
    }
}

impl<D: Entries> Deserialize<Stmt, D> for ArchivedStmt {
    #[inline(always)]
    fn deserialize_part(
        alloc: Global,
        part: RawView<'_>,
        deserializer: &mut D,
    ) -> Result<Stmt, Error>
        requires { IsPartOf ⟦<Self as ArchivePointee>⟧ part }
        ensures { ReadsAs ⟦<Self as ArchivePointee>⟧ part D.Entries deserializer ⟦<Stmt as Archive>⟧
            result }
    {
        read_stmt(alloc, part, deserializer)
    }
}

/// What a view of an archived `Stmt` shows, by its tag.
#[derive(Drop)]
pub enum ViewOfStmt<'a> {
    /// Gives what an expression leads to a value, or takes the one it has.
    Set(Ref<'a, ArchivedExpr>, Ref<'a, ArchivedOption<ArchivedExpr>>),
    /// Statements one after another.
    Block(Ref<'a, ArchivedVec<ArchivedStmt>>),
}

/// The variant of an archived `Stmt`, as a view.
pub trait StmtView<'a> {
    /// The variant that the tag names, with views of its fields.
    fn variant(self) -> ViewOfStmt<'a>;
}

impl<'a> StmtView<'a> for Ref<'a, ArchivedStmt> {
    ghost use Rattle.recursive_types.specs.declared.stmt.ViewOfStmt.TheVariants.{Block as StmtBlockShown, Set as StmtSetShown};

    fn variant(self) -> ViewOfStmt<'a>
        ensures shows { elim result [
          | StmtSetShown a0 a1 ↦ (tag_of self.entry ≡ 0) × (a0.bytes.now ≡ self.entry.bytes.now)
              × (a0.pos ≡ self.entry.pos + 8) × (a0.len ≡ 0)
              × ShowsValueOf a0 self.entry (payload_in 0) × (a1.bytes.now ≡ self.entry.bytes.now)
              × (a1.pos ≡ self.entry.pos + 32) × (a1.len ≡ 0)
              × ShowsValueOf a1 self.entry (payload_in 1)
          | StmtBlockShown a0 ↦ (tag_of self.entry ≡ 1) × (a0.bytes.now ≡ self.entry.bytes.now)
              × (a0.pos ≡ self.entry.pos + 4) × (a0.len ≡ 0)
              × ShowsValueOf a0 self.entry (payload_in 0)
        ] }
    {
        match tag_of_view(self) {
            0 => {
                let a0 = view_of_payload::<ArchivedStmt, ArchivedExpr>(self, 0, 0, 8);
                let a1 = view_of_payload::<ArchivedStmt, ArchivedOption<ArchivedExpr>>(
                    self, 0, 1, 32,
                );
                ViewOfStmt::Set(a0, a1)
            }
            _ => {
                let a0 = view_of_payload::<ArchivedStmt, ArchivedVec<ArchivedStmt>>(self, 1, 0, 4);
                ViewOfStmt::Block(a0)
            }
        }
    }
}

/// The fields of an archived `Stmt`, as seals. The caller must ensure that the tag is the variant's.
pub trait StmtSeal<'a> {
    // The seal shows a part of a buffer that was checked.
    ghost sealed: { Self → Type 0 };

    // The tag that it shows.
    ghost tag: { Self → ℕ };

    /// The field `0` of `Set`.
    fn set_0_mut(self) -> Seal<'a, ArchivedExpr>
        requires come_to { sealed self }
        requires tag { tag self ≡ 0 };

    /// The field `1` of `Set`.
    fn set_1_mut(self) -> Seal<'a, ArchivedOption<ArchivedExpr>>
        requires come_to { sealed self }
        requires tag { tag self ≡ 0 };

    /// The field `0` of `Block`.
    fn block_0_mut(self) -> Seal<'a, ArchivedVec<ArchivedStmt>>
        requires come_to { sealed self }
        requires tag { tag self ≡ 1 };
}

impl<'a> StmtSeal<'a> for Seal<'a, ArchivedStmt> {
    ghost sealed = { λ s. IsSealOf stmt_definitions (one ⟦<ArchivedStmt as Portable>⟧.shape) s };

    ghost tag = { λ s. seal_tag s };

    fn set_0_mut(self) -> Seal<'a, ArchivedExpr>
        requires come_to { IsSealOf stmt_definitions (one ⟦<ArchivedStmt as Portable>⟧.shape) self }
        requires tag { seal_tag self ≡ 0 }
        ensures { SealsPart stmt_definitions (one ⟦<ArchivedStmt as Portable>⟧.shape)
            ⟦<ArchivedExpr as ArchivePointee>⟧.definitions
            ⟦<ArchivedExpr as ArchivePointee>⟧.pointee (self.entry.pos + 8) 0 self.entry result }
    {
        seal_of_payload::<ArchivedStmt, ArchivedExpr>(self, 0, 0, 8)
    }

    fn set_1_mut(self) -> Seal<'a, ArchivedOption<ArchivedExpr>>
        requires come_to { IsSealOf stmt_definitions (one ⟦<ArchivedStmt as Portable>⟧.shape) self }
        requires tag { seal_tag self ≡ 0 }
        ensures { SealsPart stmt_definitions (one ⟦<ArchivedStmt as Portable>⟧.shape)
            ⟦<ArchivedExpr as ArchivePointee>⟧.definitions
            ⟦<ArchivedOption<ArchivedExpr> as ArchivePointee>⟧.pointee (self.entry.pos + 32) 0
            self.entry result }
    {
        seal_of_payload::<ArchivedStmt, ArchivedOption<ArchivedExpr>>(self, 0, 1, 32)
    }

    fn block_0_mut(self) -> Seal<'a, ArchivedVec<ArchivedStmt>>
        requires come_to { IsSealOf stmt_definitions (one ⟦<ArchivedStmt as Portable>⟧.shape) self }
        requires tag { seal_tag self ≡ 1 }
        ensures { SealsPart stmt_definitions (one ⟦<ArchivedStmt as Portable>⟧.shape)
            ⟦<ArchivedStmt as ArchivePointee>⟧.definitions
            ⟦<ArchivedVec<ArchivedStmt> as ArchivePointee>⟧.pointee (self.entry.pos + 4) 0
            self.entry result }
    {
        seal_of_payload::<ArchivedStmt, ArchivedVec<ArchivedStmt>>(self, 1, 0, 4)
    }
}
