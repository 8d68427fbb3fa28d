//! A document in the manner of JSON: a family of which one type is in the other behind no pointer, what it holds, and an enum that holds it.

/// A value of a document.
#[derive(Debug, PartialEq, Drop)]
#[cycle(json)]
pub enum Json {
    /// Nothing.
    Null,
    /// A number.
    Number(Number),
    /// A text.
    Text(String),
    /// Values one after another.
    List(Vec<Json>),
    /// Values with names.
    Object(Vec<Member>),
}

/// A value with its name.
#[derive(Debug, PartialEq, Drop)]
#[cycle(json)]
pub struct Member {
    /// The name.
    pub name: String,
    /// The value.
    pub value: Json,
}

/// A number.
#[derive(Debug, PartialEq, Drop)]
pub struct Number {
    /// How many thousandths it is.
    pub thousandths: i64,
}

/// What is posted.
#[derive(Debug, PartialEq, Drop)]
pub enum Message {
    /// Nothing.
    Nothing,
    /// A document, and one that it replaces.
    Sent(Json, Option<Json>),
    /// Several documents, and how many were left out.
    Listed {
        /// How many.
        others: u8,
        /// The documents.
        documents: Vec<Json>,
    },
}

// Below this line all is written by tools/derive: change what is above it, and run it again.

ghost use Rattle.archive_core.specs.CallOutcomes.{ResolvesAs};
ghost use Rattle.archive_core.specs.Causes.{HindersAt, IsRefused};
ghost use Rattle.archive_core.specs.Definitions.{ExplainsConflict, Extended, both, defines, no_definition};
ghost use Rattle.archive_core.specs.Expressed.{ExpressesParts, ExpressesVariants};
ghost use Rattle.archive_core.specs.Expressions.{table_of};
ghost use Rattle.archive_core.specs.Fields.{field_in};
ghost use Rattle.archive_core.specs.Keyed.{nothing_keyed, number_keyed, part_keyed, record_keyed};
ghost use Rattle.archive_core.specs.Layout.{up};
ghost use Rattle.archive_core.specs.LeafLayout.{no_definition_reached};
ghost use Rattle.archive_core.specs.OwnChoices.{variant_definitions};
ghost use Rattle.archive_core.specs.PartsPlanned.{no_part_planned, part_planned};
ghost use Rattle.archive_core.specs.Payloads.{payload_in};
ghost use Rattle.archive_core.specs.Plain.{plain_own_check, plain_record, plain_record_planned};
ghost use Rattle.archive_core.specs.Planned.{leaf_planned};
ghost use Rattle.archive_core.specs.PlannedOwners.{one_planned};
ghost use Rattle.archive_core.specs.Plans.{Serialized};
ghost use Rattle.archive_core.specs.ReadBack.{Read, ReadsAs};
ghost use Rattle.archive_core.specs.Runs.{EachBelongs, IsRunRefused, SerializedRun, each_flat, each_keys, each_meaning};
ghost use Rattle.archive_core.specs.SealOutcomes.{IsSealOf, SealsPart, seal_tag};
ghost use Rattle.archive_core.specs.Seen.{IsPartOf, RefusesPart, ShowsValueOf, part_tag, tag_of};
ghost use Rattle.archive_core.specs.SelfCheck.Laws.{by_schema};
ghost use Rattle.archive_core.specs.Shape.{no_part, one, part, parts, variant, variant_at, vec};
ghost use Rattle.archive_core.specs.Value.{case, no_value, product, value};
ghost use Rattle.archive_core.specs.Writing.{Resolves, ZeroedPlace};
ghost use Rattle.archive_core.specs.Written.{GoesOn};
ghost use Rattle.recursive_fields.specs.JsonShape.{json_definitions, json_has_layout, json_has_variants, json_is_align, json_layout, json_list_parts, json_name, json_no_others, json_number_parts, json_object_parts, json_shape, json_stands_for, json_text_parts, json_variant_definitions, json_variants, member_type_definitions, member_type_has_layout, member_type_has_parts, member_type_is_align, member_type_layout, member_type_name, member_type_no_others, member_type_parts, member_type_shape, member_type_stands_for};
ghost use Rattle.recursive_fields.specs.MessageShape.{message_definitions, message_has_layout, message_has_variants, message_is_align, message_layout, message_name, message_no_others, message_shape};
ghost use Rattle.std.proofs.Common.{inl, inr, lit≤};
ghost use Rattle.std.specs.Prelude.{IfErr, IfOk, None, OnOk, Some, [], length, refl, true, ℕ, ◌++◌, ◌+◌, ◌<◌, ◌≡◌, ◌≤◌};

use archive_core::error::Error;
use archive_core::fields::{copy_1, part_in_record, resolve_0, resolve_1, serialize_record_1};
use archive_core::option::ArchivedOption;
use archive_core::place::Place;
use archive_core::primitive::ArchivedI64;
use archive_core::record::deserialize_record;
use archive_core::recursive::{
    VecAt, before_vec, define_choice, define_record, expression_of, first_expression,
    first_variant, handed_on, named_expression, no_expressions, no_variants, part_of_record,
    part_of_variant, read_part, resolve_named_case_0, resolve_named_case_2, resolve_named_record_2,
    seal_of_field, seal_of_payload, serialize_part, serialize_run, tag_of_choice, tag_of_view,
    vec_expression, view_of_field, view_of_payload,
};
use archive_core::seal::{Seal, sealed_part_in_record};
use archive_core::self_check::{BySchema, RecordCheck, SelfCheck};
use archive_core::ser::{ResolverAlloc, Writer, serialize_one};
use archive_core::shape::Defs;
use archive_core::slice::copy_groups;
use archive_core::string::ArchivedString;
use archive_core::traits::{
    Archive, ArchivePointee, ArchiveUnsized, Choice, Copied, CopiedSource, CopyOptimization,
    Deserialize, Entries, Keys, Portable, PortableVariants, Record, Serialize, SerializeUnsized,
    expr_of_choice, expr_of_record,
};
use archive_core::validation::ArchiveContext;
use archive_core::vec::{ArchivedVec, VecResolver};
use archive_core::view::{RawView, Ref};
use std::alloc::{AllocError, Global};

/// An archived `Json`: 16 bytes at a multiple of 8. It is validated by its schema.
pub struct ArchivedJson;

type JsonNumberParts = (ArchivedNumber, ());

type JsonTextParts = (ArchivedString, ());

type JsonListParts = (ArchivedVec<ArchivedJson>, ());

type JsonObjectParts = (ArchivedVec<ArchivedMember>, ());

type JsonVariants = (
    (),
    (
        JsonNumberParts,
        (JsonTextParts, (JsonListParts, (JsonObjectParts, ()))),
    ),
);

impl ArchivePointee for ArchivedJson {
    type ArchivedMetadata = ();

    ghost pointee = { one json_shape };

    ghost definitions = { json_definitions };

    ghost metadata_length = { λ _. 0 };

    fn pointer_metadata(_metadata: &()) -> usize {
        0
    }
}

// The parts of `Number`.
fn json_number_expressions(alloc: Global) -> Result<Vec<archive_core::shape::Expr>, AllocError>
    ensures { ExpressesParts json_number_parts result }
{
    let rest1 = no_expressions(alloc);
    first_expression(expression_of::<ArchivedNumber>(alloc), rest1)
}

// The parts of `Text`.
fn json_text_expressions(alloc: Global) -> Result<Vec<archive_core::shape::Expr>, AllocError>
    ensures { ExpressesParts json_text_parts result }
{
    let rest1 = no_expressions(alloc);
    first_expression(expression_of::<ArchivedString>(alloc), rest1)
}

// The parts of `List`.
fn json_list_expressions(alloc: Global) -> Result<Vec<archive_core::shape::Expr>, AllocError>
    ensures { ExpressesParts json_list_parts result }
{
    let rest1 = no_expressions(alloc);
    first_expression(
        vec_expression(alloc, named_expression("ArchivedJson")),
        rest1,
    )
}

// The parts of `Object`.
fn json_object_expressions(alloc: Global) -> Result<Vec<archive_core::shape::Expr>, AllocError>
    ensures { ExpressesParts json_object_parts result }
{
    let rest1 = no_expressions(alloc);
    first_expression(
        vec_expression(alloc, named_expression("ArchivedMember")),
        rest1,
    )
}

// Its variants.
fn json_expressions(alloc: Global) -> Result<Vec<Vec<archive_core::shape::Expr>>, AllocError>
    ensures { ExpressesVariants json_variants result }
{
    let rest5 = no_variants(alloc);
    let rest4 = first_variant(json_object_expressions(alloc), rest5);
    let rest3 = first_variant(json_list_expressions(alloc), rest4);
    let rest2 = first_variant(json_text_expressions(alloc), rest3);
    let rest1 = first_variant(json_number_expressions(alloc), rest2);
    first_variant(no_expressions(alloc), rest1)
}

// Adds what the name stands for.
fn define_json(alloc: Global, defs: &mut Defs) -> Result<(), Error>
    ensures added { OnOk result (Extended (table_of defs.old) (defines json_name json_stands_for)
        (table_of defs.new)) }
    ensures refused { IfErr result (ExplainsConflict (table_of defs.old)
        (defines json_name json_stands_for)) }
{
    define_choice("ArchivedJson", json_expressions(alloc), defs)
}

impl Portable for ArchivedJson {
    ghost shape = { json_shape };

    ghost layout = { json_layout };

    type Check = BySchema;

    ghost is_one = { refl };

    ghost is_align = { json_is_align };

    ghost has_layout = { json_has_layout };

    ghost no_others = { json_no_others };

    ghost checks = { λ direct. by_schema direct };

    fn size() -> usize {
        16
    }

    fn align() -> usize {
        8
    }

    fn expr(_alloc: Global) -> Result<archive_core::shape::Expr, Error> {
        Ok(archive_core::shape::Expr::Named("ArchivedJson"))
    }

    fn define(alloc: Global, defs: &mut Defs) -> Result<(), Error> {
        define_json_family(alloc, defs)
    }
}

impl Choice for ArchivedJson {
    type Variants = JsonVariants;

    ghost name = { json_name };

    ghost has_variants = { json_has_variants };

    ghost holds = { lit≤ tt };
}

/// What is kept of `Json` between `serialize` and `resolve`.
#[derive(Drop)]
pub enum JsonResolver {
    /// Of `Null`.
    Null,
    /// Of `Number`.
    Number((<Number as Archive>::Resolver, ())),
    /// Of `Text`.
    Text((<String as Archive>::Resolver, ())),
    /// Of `List`.
    List((VecResolver, ())),
    /// Of `Object`.
    Object((VecResolver, ())),
}

// Writes a variant of no field over zeros: its tag, and behind it the fields.
#[inline(always)]
fn resolve_json_0(tag: u8, resolvers: (), place: Place<'_, ArchivedJson>) -> Result<(), Error>
    requires variant { variant_at json_variants tag ≡ Some no_part }
    requires definitions { variant_definitions json_variant_definitions tag ≡ no_definition }
    requires inside { Unit {0} → 1 ≤ 16 }
    requires zeroed { ZeroedPlace 16 place.pos place.bytes.now }
    requires same_values { Unit {0} }
    ensures resolved { OnOk result (Resolves json_definitions place.entry.pos place.exit.0.now
        json_shape (case tag no_value)) }
    ensures same_length { length place.exit.0.now ≡ length place.entry.bytes.now }
    ensures refused { IfErr result (HindersAt json_definitions json_shape (case tag no_value)
        place.entry.pos) }
{
    let Place { bytes, pos, .. } = place;
    bytes[0] = tag;
    resolve_0(resolvers, pos, 1, &mut bytes[1..])
}

// Writes a variant of a field over zeros: its tag, and behind it the fields.
#[inline(always)]
fn resolve_json_1<A: Archive>(
    tag: u8,
    a: &A,
    resolvers: (A::Resolver, ()),
    place: Place<'_, ArchivedJson>,
) -> Result<(), Error>
    requires variant { variant_at json_variants tag ≡ Some (part A.Archived.shape no_part) }
    requires definitions { variant_definitions json_variant_definitions tag
        ≡ (both A.Archived.definitions no_definition) }
    requires inside { Unit {0} → (up 1 A.Archived.layout.align + A.Archived.layout.size) ≤ 16 }
    requires zeroed { ZeroedPlace 16 place.pos place.bytes.now }
    requires same_values { (A.belongs a.now resolvers.0 × Unit {0}) }
    ensures resolved { OnOk result (Resolves json_definitions place.entry.pos place.exit.0.now
        json_shape (case tag (value (A.flat a.now resolvers.0) no_value))) }
    ensures same_length { length place.exit.0.now ≡ length place.entry.bytes.now }
    ensures refused { IfErr result (HindersAt json_definitions json_shape
        (case tag (value (A.flat a.now resolvers.0) no_value)) place.entry.pos) }
{
    let Place { bytes, pos, .. } = place;
    bytes[0] = tag;
    resolve_1(a, resolvers, pos, 1, &mut bytes[1..])
}

impl Archive for Json {
    ghost use Rattle.recursive_fields.specs.JsonMeaning.{json_meaning, json_flat, json_keys, json_belongs, json_keyed, json_planned};

    type Archived = ArchivedJson;

    type Resolver = JsonResolver;

    ghost meaning = { json_meaning };

    ghost flat = { json_flat };

    ghost keys = { json_keys };

    ghost belongs = { json_belongs };

    ghost in_bulk = { None };

    ghost keyed = { json_keyed };

    ghost planned = { json_planned };

    #[inline(always)]
    fn resolve(
        &self,
        resolver: Self::Resolver,
        place: Place<'_, Self::Archived>,
    ) -> Result<(), Error>
        requires zeroed { ZeroedPlace 16 place.pos place.bytes.now }
        requires same_value { ⟦<Self as Archive>⟧.belongs self.now resolver }
        ensures { ResolvesAs ⟦<Self::Archived as Portable>⟧ place
            (⟦<Self as Archive>⟧.flat self.now resolver) result }
    {
        let Place { bytes, pos, .. } = place;
        match self {
            Json::Null => { resolve_json_0(0, (), Place::new(pos, bytes)) }
            Json::Number(a0) => {
                let JsonResolver::Number(kept) = resolver else {
                    unreachable!();
                };
                resolve_json_1::<Number>(1, a0, kept, Place::new(pos, bytes))
            }
            Json::Text(a0) => {
                let JsonResolver::Text(kept) = resolver else {
                    unreachable!();
                };
                resolve_json_1::<String>(2, a0, kept, Place::new(pos, bytes))
            }
            Json::List(a0) => {
                let JsonResolver::List(kept) = resolver else {
                    unreachable!();
                };
                let h0: VecAt<ArchivedJson> = VecAt::of(a0.len());
                resolve_json_1::<VecAt<ArchivedJson>>(3, &h0, kept, Place::new(pos, bytes))
            }
            Json::Object(a0) => {
                let JsonResolver::Object(kept) = resolver else {
                    unreachable!();
                };
                let h0: VecAt<ArchivedMember> = VecAt::of(a0.len());
                resolve_json_1::<VecAt<ArchivedMember>>(4, &h0, kept, Place::new(pos, bytes))
            }
        }
    }

    #[inline(always)]
    fn copy_optimization() -> CopyOptimization<Self> {
        CopyOptimization::disable()
    }

    #[inline(always)]
    fn serialize_copied<S: Writer + Keys>(
        _values: &[Self],
        _together: usize,
        _serializer: &mut S,
    ) -> Result<Option<usize>, Error> {
        Ok(None)
    }
}

// Writes what each of the values owns, in order.
#[cycle(serialize_json)]
fn serialize_each_json<S: Writer + Keys + ResolverAlloc>(
    values: &[Json],
    serializer: &mut S,
) -> Result<Vec<<Json as Archive>::Resolver, S::Alloc>, Error>
    ensures serialized { IfOk result (λ rs. SerializedRun json_definitions json_shape
        (length values.now) (each_keys ⟦<Json as Archive>⟧.keys values.now)
        (each_meaning ⟦<Json as Archive>⟧.meaning values.now)
        (each_flat ⟦<Json as Archive>⟧.flat values.now rs.items) (S.state serializer.old)
        (S.state serializer.new)) }
    ensures same_values { IfOk result (λ rs. EachBelongs ⟦<Json as Archive>⟧.belongs values.now
        rs.items) }
    ensures goes_on { GoesOn (S.state serializer.old) (S.state serializer.new) }
    ensures refused { IfErr result (IsRunRefused json_definitions json_shape (length values.now)
        (each_keys ⟦<Json as Archive>⟧.keys values.now)
        (each_meaning ⟦<Json as Archive>⟧.meaning values.now) (S.state serializer.old)
        (S.state serializer.new)) }
{
    let alloc = serializer.resolver_alloc();
    let mut resolvers = Vec::with_capacity(alloc, values.len())?;
    for value in values {
        let resolver = match serialize_json(value, serializer) {
            Ok(resolver) => resolver,
            Err(error) => return Err(handed_on(error)),
        };
        resolvers.push_reserved(resolver);
    }
    Ok(resolvers)
}

// Writes what a vector owns.
#[cycle(serialize_json)]
fn serialize_vec_json<S: Writer + Keys + ResolverAlloc>(
    value: &Vec<Json>,
    serializer: &mut S,
) -> Result<VecResolver, Error>
    ensures serialized { IfOk result (λ r. Serialized json_definitions (vec json_shape)
        (⟦<Vec<Json> as Archive>⟧.keys value.now) (⟦<Vec<Json> as Archive>⟧.meaning value.now)
        (⟦<Vec<Json> as Archive>⟧.flat value.now r) (S.state serializer.old)
        (S.state serializer.new)) }
    ensures same_value { IfOk result (λ r. ⟦<Vec<Json> as Archive>⟧.belongs value.now r) }
    ensures goes_on { GoesOn (S.state serializer.old) (S.state serializer.new) }
    ensures refused { IfErr result (IsRefused json_definitions (vec json_shape)
        (⟦<Vec<Json> as Archive>⟧.keys value.now) (⟦<Vec<Json> as Archive>⟧.meaning value.now)
        (S.state serializer.old) (S.state serializer.new)) }
{
    if value.len() > u32::MAX as usize {
        return Err(Error::LengthTooLarge);
    }
    let items = value.as_slice();
    let kept = match serialize_each_json(items, serializer) {
        Ok(kept) => kept,
        Err(error) => return Err(error),
    };
    match serialize_run(items, kept, serializer) {
        Ok(at) => Ok(at),
        Err(error) => Err(error),
    }
}

// Writes what each of the values owns, in order.
#[cycle(serialize_json)]
fn serialize_each_member_type<S: Writer + Keys + ResolverAlloc>(
    values: &[Member],
    serializer: &mut S,
) -> Result<Vec<<Member as Archive>::Resolver, S::Alloc>, Error>
    ensures serialized { IfOk result (λ rs. SerializedRun json_definitions member_type_shape
        (length values.now) (each_keys ⟦<Member as Archive>⟧.keys values.now)
        (each_meaning ⟦<Member as Archive>⟧.meaning values.now)
        (each_flat ⟦<Member as Archive>⟧.flat values.now rs.items) (S.state serializer.old)
        (S.state serializer.new)) }
    ensures same_values { IfOk result (λ rs. EachBelongs ⟦<Member as Archive>⟧.belongs values.now
        rs.items) }
    ensures goes_on { GoesOn (S.state serializer.old) (S.state serializer.new) }
    ensures refused { IfErr result (IsRunRefused json_definitions member_type_shape
        (length values.now) (each_keys ⟦<Member as Archive>⟧.keys values.now)
        (each_meaning ⟦<Member as Archive>⟧.meaning values.now) (S.state serializer.old)
        (S.state serializer.new)) }
{
    let alloc = serializer.resolver_alloc();
    let mut resolvers = Vec::with_capacity(alloc, values.len())?;
    for value in values {
        let resolver = match serialize_member_type(value, serializer) {
            Ok(resolver) => resolver,
            Err(error) => return Err(handed_on(error)),
        };
        resolvers.push_reserved(resolver);
    }
    Ok(resolvers)
}

// Writes what a vector owns.
#[cycle(serialize_json)]
fn serialize_vec_member_type<S: Writer + Keys + ResolverAlloc>(
    value: &Vec<Member>,
    serializer: &mut S,
) -> Result<VecResolver, Error>
    ensures serialized { IfOk result (λ r. Serialized json_definitions (vec member_type_shape)
        (⟦<Vec<Member> as Archive>⟧.keys value.now) (⟦<Vec<Member> as Archive>⟧.meaning value.now)
        (⟦<Vec<Member> as Archive>⟧.flat value.now r) (S.state serializer.old)
        (S.state serializer.new)) }
    ensures same_value { IfOk result (λ r. ⟦<Vec<Member> as Archive>⟧.belongs value.now r) }
    ensures goes_on { GoesOn (S.state serializer.old) (S.state serializer.new) }
    ensures refused { IfErr result (IsRefused json_definitions (vec member_type_shape)
        (⟦<Vec<Member> as Archive>⟧.keys value.now) (⟦<Vec<Member> as Archive>⟧.meaning value.now)
        (S.state serializer.old) (S.state serializer.new)) }
{
    if value.len() > u32::MAX as usize {
        return Err(Error::LengthTooLarge);
    }
    let items = value.as_slice();
    let kept = match serialize_each_member_type(items, serializer) {
        Ok(kept) => kept,
        Err(error) => return Err(error),
    };
    match serialize_run(items, kept, serializer) {
        Ok(at) => Ok(at),
        Err(error) => Err(error),
    }
}

// Writes what the parts of `Number` own, in order.
fn serialize_json_number<S: Writer + Keys + ResolverAlloc>(
    a0: &Number,
    serializer: &mut S,
) -> Result<(<Number as Archive>::Resolver, ()), Error>
    ensures serialized { IfOk result (λ r. Serialized json_definitions json_shape
        (⟦<Number as Archive>⟧.keys a0.now ++ []) (case 1
        (value (⟦<Number as Archive>⟧.meaning a0.now) no_value))
        (case 1 (value (⟦<Number as Archive>⟧.flat a0.now r.0) no_value)) (S.state serializer.old)
        (S.state serializer.new)) }
    ensures same_values { IfOk result (λ r. ⟦<Number as Archive>⟧.belongs a0.now r.0 × Unit {0}) }
    ensures goes_on { GoesOn (S.state serializer.old) (S.state serializer.new) }
    ensures refused { IfErr result (IsRefused json_definitions json_shape
        (⟦<Number as Archive>⟧.keys a0.now ++ []) (case 1
        (value (⟦<Number as Archive>⟧.meaning a0.now) no_value)) (S.state serializer.old)
        (S.state serializer.new)) }
{
    let a0 = match serialize_part(a0, serializer) {
        Ok(a0) => a0,
        Err(error) => return Err(error),
    };
    Ok((a0, ()))
}

// Writes what the parts of `Text` own, in order.
fn serialize_json_text<S: Writer + Keys + ResolverAlloc>(
    a0: &String,
    serializer: &mut S,
) -> Result<(<String as Archive>::Resolver, ()), Error>
    ensures serialized { IfOk result (λ r. Serialized json_definitions json_shape
        (⟦<String as Archive>⟧.keys a0.now ++ []) (case 2
        (value (⟦<String as Archive>⟧.meaning a0.now) no_value))
        (case 2 (value (⟦<String as Archive>⟧.flat a0.now r.0) no_value)) (S.state serializer.old)
        (S.state serializer.new)) }
    ensures same_values { IfOk result (λ r. ⟦<String as Archive>⟧.belongs a0.now r.0 × Unit {0}) }
    ensures goes_on { GoesOn (S.state serializer.old) (S.state serializer.new) }
    ensures refused { IfErr result (IsRefused json_definitions json_shape
        (⟦<String as Archive>⟧.keys a0.now ++ []) (case 2
        (value (⟦<String as Archive>⟧.meaning a0.now) no_value)) (S.state serializer.old)
        (S.state serializer.new)) }
{
    let a0 = match serialize_part(a0, serializer) {
        Ok(a0) => a0,
        Err(error) => return Err(error),
    };
    Ok((a0, ()))
}

// Writes what the parts of `List` own, in order.
#[cycle(serialize_json)]
fn serialize_json_list<S: Writer + Keys + ResolverAlloc>(
    a0: &Vec<Json>,
    serializer: &mut S,
) -> Result<(VecResolver, ()), Error>
    ensures serialized { IfOk result (λ r. Serialized json_definitions json_shape
        (⟦<Vec<Json> as Archive>⟧.keys a0.now ++ []) (case 3
        (value (⟦<Vec<Json> as Archive>⟧.meaning a0.now) no_value))
        (case 3 (value (⟦<Vec<Json> as Archive>⟧.flat a0.now r.0) no_value))
        (S.state serializer.old) (S.state serializer.new)) }
    ensures same_values { IfOk result (λ r. ⟦<Vec<Json> as Archive>⟧.belongs a0.now r.0
        × Unit {0}) }
    ensures goes_on { GoesOn (S.state serializer.old) (S.state serializer.new) }
    ensures refused { IfErr result (IsRefused json_definitions json_shape
        (⟦<Vec<Json> as Archive>⟧.keys a0.now ++ []) (case 3
        (value (⟦<Vec<Json> as Archive>⟧.meaning a0.now) no_value)) (S.state serializer.old)
        (S.state serializer.new)) }
{
    let a0 = match serialize_vec_json(a0, serializer) {
        Ok(a0) => a0,
        Err(error) => return Err(error),
    };
    Ok((a0, ()))
}

// Writes what the parts of `Object` own, in order.
#[cycle(serialize_json)]
fn serialize_json_object<S: Writer + Keys + ResolverAlloc>(
    a0: &Vec<Member>,
    serializer: &mut S,
) -> Result<(VecResolver, ()), Error>
    ensures serialized { IfOk result (λ r. Serialized json_definitions json_shape
        (⟦<Vec<Member> as Archive>⟧.keys a0.now ++ []) (case 4
        (value (⟦<Vec<Member> as Archive>⟧.meaning a0.now) no_value))
        (case 4 (value (⟦<Vec<Member> as Archive>⟧.flat a0.now r.0) no_value))
        (S.state serializer.old) (S.state serializer.new)) }
    ensures same_values { IfOk result (λ r. ⟦<Vec<Member> as Archive>⟧.belongs a0.now r.0
        × Unit {0}) }
    ensures goes_on { GoesOn (S.state serializer.old) (S.state serializer.new) }
    ensures refused { IfErr result (IsRefused json_definitions json_shape
        (⟦<Vec<Member> as Archive>⟧.keys a0.now ++ []) (case 4
        (value (⟦<Vec<Member> as Archive>⟧.meaning a0.now) no_value)) (S.state serializer.old)
        (S.state serializer.new)) }
{
    let a0 = match serialize_vec_member_type(a0, serializer) {
        Ok(a0) => a0,
        Err(error) => return Err(error),
    };
    Ok((a0, ()))
}

// Writes what a value owns.
#[cycle(serialize_json)]
fn serialize_whole_json<S: Writer + Keys + ResolverAlloc>(
    value: &Json,
    serializer: &mut S,
) -> Result<JsonResolver, Error>
    ensures serialized { IfOk result (λ r. Serialized json_definitions json_shape
        (⟦<Json as Archive>⟧.keys value.now) (⟦<Json as Archive>⟧.meaning value.now)
        (⟦<Json as Archive>⟧.flat value.now r) (S.state serializer.old) (S.state serializer.new)) }
    ensures same_value { IfOk result (λ r. ⟦<Json as Archive>⟧.belongs value.now r) }
    ensures goes_on { GoesOn (S.state serializer.old) (S.state serializer.new) }
    ensures refused { IfErr result (IsRefused json_definitions json_shape
        (⟦<Json as Archive>⟧.keys value.now) (⟦<Json as Archive>⟧.meaning value.now)
        (S.state serializer.old) (S.state serializer.new)) }
{
    match value {
        Json::Null => Ok(JsonResolver::Null),
        Json::Number(a0) => match serialize_json_number(a0, serializer) {
            Ok(kept) => Ok(JsonResolver::Number(kept)),
            Err(error) => Err(error),
        },
        Json::Text(a0) => match serialize_json_text(a0, serializer) {
            Ok(kept) => Ok(JsonResolver::Text(kept)),
            Err(error) => Err(error),
        },
        Json::List(a0) => match serialize_json_list(a0, serializer) {
            Ok(kept) => Ok(JsonResolver::List(kept)),
            Err(error) => Err(error),
        },
        Json::Object(a0) => match serialize_json_object(a0, serializer) {
            Ok(kept) => Ok(JsonResolver::Object(kept)),
            Err(error) => Err(error),
        },
    }
}

// The same by a call, whose result has its room only while it lasts.
#[cycle(serialize_json)]
#[inline(always)]
fn serialize_json<S: Writer + Keys + ResolverAlloc>(
    value: &Json,
    serializer: &mut S,
) -> Result<JsonResolver, Error>
    ensures serialized { IfOk result (λ r. Serialized json_definitions json_shape
        (⟦<Json as Archive>⟧.keys value.now) (⟦<Json as Archive>⟧.meaning value.now)
        (⟦<Json as Archive>⟧.flat value.now r) (S.state serializer.old) (S.state serializer.new)) }
    ensures same_value { IfOk result (λ r. ⟦<Json as Archive>⟧.belongs value.now r) }
    ensures goes_on { GoesOn (S.state serializer.old) (S.state serializer.new) }
    ensures refused { IfErr result (IsRefused json_definitions json_shape
        (⟦<Json as Archive>⟧.keys value.now) (⟦<Json as Archive>⟧.meaning value.now)
        (S.state serializer.old) (S.state serializer.new)) }
{
    serialize_whole_json(value, serializer)
}

impl<S: Writer + Keys + ResolverAlloc> Serialize<S> for Json {
    #[inline(always)]
    fn serialize(&self, serializer: &mut S) -> Result<Self::Resolver, Error> {
        serialize_json(self, serializer)
    }
}

/// As a region of its own: the value itself.
impl ArchiveUnsized for Json {
    ghost use Rattle.recursive_fields.specs.contracts.json.JsonArchive.TheImpl.Laws.{keyed-law as keyed_of_json, planned-law as planned_of_json};

    type Archived = ArchivedJson;

    ghost source_length = { λ _. 0 };

    ghost meaning = { ⟦<Json as Archive>⟧.meaning };

    ghost keys = { ⟦<Json as Archive>⟧.keys };

    ghost keyed = { keyed_of_json };

    ghost one_length = { λ _ _. refl };

    ghost planned = { λ v. one_planned json_definitions json_shape (⟦<Json as Archive>⟧.keys v)
        (⟦<Json as Archive>⟧.meaning v) (planned_of_json v) };

    #[inline(always)]
    fn archived_metadata(&self) -> Result<(), Error> {
        Ok(())
    }
}

impl<S: Writer + Keys + ResolverAlloc> SerializeUnsized<S> for Json {
    #[inline(always)]
    fn serialize_unsized(&self, serializer: &mut S) -> Result<usize, Error> {
        serialize_one(self, serializer)
    }
}

// The tag of a value, which names its variant.
#[inline(always)]
fn tag_of_json(part: RawView<'_>) -> u8
    requires { IsPartOf ⟦<ArchivedJson as ArchivePointee>⟧ part }
    ensures tag { result ≡ part_tag part.entry }
    ensures below { result < 5 }
{
    tag_of_choice::<ArchivedJson>(part)
}

// The part of a value that is `List` with the index 0.
#[inline(always)]
fn part_0_of_json_list<'a>(part: RawView<'a>) -> RawView<'a>
    requires viewed { IsPartOf ⟦<ArchivedJson as ArchivePointee>⟧ part }
    requires tag { part_tag part ≡ 3 }
    ensures buffer { result.bytes.now ≡ part.entry.bytes.now }
    ensures position { result.pos ≡ part.entry.pos + 4 }
    ensures length { result.len ≡ 0 }
    ensures viewed { IsPartOf ⟦<ArchivedVec<ArchivedJson> as ArchivePointee>⟧ result }
{
    part_of_variant::<ArchivedJson, ArchivedVec<ArchivedJson>>(part, 3, 0, 4)
}

// The part of a value that is `Object` with the index 0.
#[inline(always)]
fn part_0_of_json_object<'a>(part: RawView<'a>) -> RawView<'a>
    requires viewed { IsPartOf ⟦<ArchivedJson as ArchivePointee>⟧ part }
    requires tag { part_tag part ≡ 4 }
    ensures buffer { result.bytes.now ≡ part.entry.bytes.now }
    ensures position { result.pos ≡ part.entry.pos + 4 }
    ensures length { result.len ≡ 0 }
    ensures viewed { IsPartOf ⟦<ArchivedVec<ArchivedMember> as ArchivePointee>⟧ result }
{
    part_of_variant::<ArchivedJson, ArchivedVec<ArchivedMember>>(part, 4, 0, 4)
}

// Reads a vector back. One with no elements takes no call, whose result would go through memory.
#[cycle(read_json)]
#[inline(always)]
fn read_vec_json<D: Entries>(
    alloc: Global,
    part: RawView<'_>,
    deserializer: &mut D,
) -> Result<Vec<Json>, Error>
    requires { IsPartOf ⟦<ArchivedVec<ArchivedJson> as ArchivePointee>⟧ part }
    ensures read { IfOk result (Read ⟦<ArchivedVec<ArchivedJson> as ArchivePointee>⟧ part D.Entries
        deserializer ⟦<Vec<Json> as Archive>⟧) }
    ensures refused { IfErr result (RefusesPart ⟦<ArchivedVec<ArchivedJson> as ArchivePointee>⟧ part
        D.Entries deserializer) }
{
    let view: Ref<'_, ArchivedVec<ArchivedJson>> = Ref::at(part);
    if view.is_empty() {
        return Ok(Vec::new(alloc));
    }
    read_each_json(alloc, part, deserializer)
}

// Reads the elements of a vector back.
#[cycle(read_json)]
#[inline(always)]
fn read_each_json<D: Entries>(
    alloc: Global,
    part: RawView<'_>,
    deserializer: &mut D,
) -> Result<Vec<Json>, Error>
    requires { IsPartOf ⟦<ArchivedVec<ArchivedJson> as ArchivePointee>⟧ part }
    ensures read { IfOk result (Read ⟦<ArchivedVec<ArchivedJson> as ArchivePointee>⟧ part D.Entries
        deserializer ⟦<Vec<Json> as Archive>⟧) }
    ensures refused { IfErr result (RefusesPart ⟦<ArchivedVec<ArchivedJson> as ArchivePointee>⟧ part
        D.Entries deserializer) }
{
    let view: Ref<'_, ArchivedVec<ArchivedJson>> = Ref::at(part);
    let list = before_vec(view);
    let mut items = Vec::with_capacity(alloc, list.len())?;
    for index in 0..list.len() {
        let item = match read_json(alloc, list.index(index).part(), deserializer) {
            Ok(item) => item,
            Err(error) => return Err(error),
        };
        items.push_reserved(item);
    }
    Ok(items)
}

// Reads a vector back. One with no elements takes no call, whose result would go through memory.
#[cycle(read_json)]
#[inline(always)]
fn read_vec_member_type<D: Entries>(
    alloc: Global,
    part: RawView<'_>,
    deserializer: &mut D,
) -> Result<Vec<Member>, Error>
    requires { IsPartOf ⟦<ArchivedVec<ArchivedMember> as ArchivePointee>⟧ part }
    ensures read { IfOk result (Read ⟦<ArchivedVec<ArchivedMember> as ArchivePointee>⟧ part
        D.Entries deserializer ⟦<Vec<Member> as Archive>⟧) }
    ensures refused { IfErr result (RefusesPart ⟦<ArchivedVec<ArchivedMember> as ArchivePointee>⟧
        part D.Entries deserializer) }
{
    let view: Ref<'_, ArchivedVec<ArchivedMember>> = Ref::at(part);
    if view.is_empty() {
        return Ok(Vec::new(alloc));
    }
    read_each_member_type(alloc, part, deserializer)
}

// Reads the elements of a vector back.
#[cycle(read_json)]
#[inline(always)]
fn read_each_member_type<D: Entries>(
    alloc: Global,
    part: RawView<'_>,
    deserializer: &mut D,
) -> Result<Vec<Member>, Error>
    requires { IsPartOf ⟦<ArchivedVec<ArchivedMember> as ArchivePointee>⟧ part }
    ensures read { IfOk result (Read ⟦<ArchivedVec<ArchivedMember> as ArchivePointee>⟧ part
        D.Entries deserializer ⟦<Vec<Member> as Archive>⟧) }
    ensures refused { IfErr result (RefusesPart ⟦<ArchivedVec<ArchivedMember> as ArchivePointee>⟧
        part D.Entries deserializer) }
{
    let view: Ref<'_, ArchivedVec<ArchivedMember>> = Ref::at(part);
    let list = before_vec(view);
    let mut items = Vec::with_capacity(alloc, list.len())?;
    for index in 0..list.len() {
        let item = match read_member_type(alloc, list.index(index).part(), deserializer) {
            Ok(item) => item,
            Err(error) => return Err(error),
        };
        items.push_reserved(item);
    }
    Ok(items)
}

// Reads `Null` back.
#[inline(always)]
fn read_json_null<D: Entries>(
    _alloc: Global,
    part: RawView<'_>,
    _deserializer: &mut D,
) -> Result<Json, Error>
    requires viewed { IsPartOf ⟦<ArchivedJson as ArchivePointee>⟧ part }
    requires tag { part_tag part ≡ 0 }
    ensures read { IfOk result (Read ⟦<ArchivedJson as ArchivePointee>⟧ part D.Entries _deserializer
        ⟦<Json as Archive>⟧) }
    ensures refused { IfErr result (RefusesPart ⟦<ArchivedJson as ArchivePointee>⟧ part D.Entries
        _deserializer) }
{
    Ok(Json::Null)
}

// Reads `Number` back.
#[inline(always)]
fn read_json_number<D: Entries>(
    alloc: Global,
    part: RawView<'_>,
    deserializer: &mut D,
) -> Result<Json, Error>
    requires viewed { IsPartOf ⟦<ArchivedJson as ArchivePointee>⟧ part }
    requires tag { part_tag part ≡ 1 }
    ensures read { IfOk result (Read ⟦<ArchivedJson as ArchivePointee>⟧ part D.Entries deserializer
        ⟦<Json as Archive>⟧) }
    ensures refused { IfErr result (RefusesPart ⟦<ArchivedJson as ArchivePointee>⟧ part D.Entries
        deserializer) }
{
    let p0 = part_of_variant::<ArchivedJson, ArchivedNumber>(part, 1, 0, 8);
    let a0 = match read_part::<ArchivedNumber, Number, D>(alloc, p0, deserializer) {
        Ok(a0) => a0,
        Err(error) => return Err(error),
    };
    Ok(Json::Number(a0))
}

// Reads `Text` back.
#[inline(always)]
fn read_json_text<D: Entries>(
    alloc: Global,
    part: RawView<'_>,
    deserializer: &mut D,
) -> Result<Json, Error>
    requires viewed { IsPartOf ⟦<ArchivedJson as ArchivePointee>⟧ part }
    requires tag { part_tag part ≡ 2 }
    ensures read { IfOk result (Read ⟦<ArchivedJson as ArchivePointee>⟧ part D.Entries deserializer
        ⟦<Json as Archive>⟧) }
    ensures refused { IfErr result (RefusesPart ⟦<ArchivedJson as ArchivePointee>⟧ part D.Entries
        deserializer) }
{
    let p0 = part_of_variant::<ArchivedJson, ArchivedString>(part, 2, 0, 4);
    let a0 = match read_part::<ArchivedString, String, D>(alloc, p0, deserializer) {
        Ok(a0) => a0,
        Err(error) => return Err(error),
    };
    Ok(Json::Text(a0))
}

// Reads `List` back.
#[cycle(read_json)]
#[inline(never)]
fn read_json_list<D: Entries>(
    alloc: Global,
    part: RawView<'_>,
    deserializer: &mut D,
) -> Result<Json, Error>
    requires viewed { IsPartOf ⟦<ArchivedJson as ArchivePointee>⟧ part }
    requires tag { part_tag part ≡ 3 }
    ensures read { IfOk result (Read ⟦<ArchivedJson as ArchivePointee>⟧ part D.Entries deserializer
        ⟦<Json as Archive>⟧) }
    ensures refused { IfErr result (RefusesPart ⟦<ArchivedJson as ArchivePointee>⟧ part D.Entries
        deserializer) }
{
    let p0 = part_0_of_json_list(part);
    let a0 = match read_vec_json(alloc, p0, deserializer) {
        Ok(a0) => a0,
        Err(error) => return Err(error),
    };
    Ok(Json::List(a0))
}

// Reads `Object` back.
#[cycle(read_json)]
#[inline(never)]
fn read_json_object<D: Entries>(
    alloc: Global,
    part: RawView<'_>,
    deserializer: &mut D,
) -> Result<Json, Error>
    requires viewed { IsPartOf ⟦<ArchivedJson as ArchivePointee>⟧ part }
    requires tag { part_tag part ≡ 4 }
    ensures read { IfOk result (Read ⟦<ArchivedJson as ArchivePointee>⟧ part D.Entries deserializer
        ⟦<Json as Archive>⟧) }
    ensures refused { IfErr result (RefusesPart ⟦<ArchivedJson as ArchivePointee>⟧ part D.Entries
        deserializer) }
{
    let p0 = part_0_of_json_object(part);
    let a0 = match read_vec_member_type(alloc, p0, deserializer) {
        Ok(a0) => a0,
        Err(error) => return Err(error),
    };
    Ok(Json::Object(a0))
}

// Reads a value back.
#[cycle(read_json)]
#[inline(always)]
fn read_json<D: Entries>(
    alloc: Global,
    part: RawView<'_>,
    deserializer: &mut D,
) -> Result<Json, Error>
    requires { IsPartOf ⟦<ArchivedJson as ArchivePointee>⟧ part }
    ensures read { IfOk result (Read ⟦<ArchivedJson as ArchivePointee>⟧ part D.Entries deserializer
        ⟦<Json as Archive>⟧) }
    ensures refused { IfErr result (RefusesPart ⟦<ArchivedJson as ArchivePointee>⟧ part D.Entries
        deserializer) }
{
    match tag_of_json(part) {
        0 => read_json_null(alloc, part, deserializer),
        1 => read_json_number(alloc, part, deserializer),
        2 => read_json_text(alloc, part, deserializer),
        3 => read_json_list(alloc, part, deserializer),
        _ => read_json_object(alloc, part, deserializer),
    }
}

impl<D: Entries> Deserialize<Json, D> for ArchivedJson {
    #[inline(always)]
    fn deserialize_part(
        alloc: Global,
        part: RawView<'_>,
        deserializer: &mut D,
    ) -> Result<Json, Error>
        requires { IsPartOf ⟦<Self as ArchivePointee>⟧ part }
        ensures { ReadsAs ⟦<Self as ArchivePointee>⟧ part D.Entries deserializer ⟦<Json as Archive>⟧
            result }
    {
        read_json(alloc, part, deserializer)
    }
}

/// What a view of an archived `Json` shows, by its tag.
#[derive(Drop)]
pub enum ViewOfJson<'a> {
    /// Nothing.
    Null,
    /// A number.
    Number(Ref<'a, ArchivedNumber>),
    /// A text.
    Text(Ref<'a, ArchivedString>),
    /// Values one after another.
    List(Ref<'a, ArchivedVec<ArchivedJson>>),
    /// Values with names.
    Object(Ref<'a, ArchivedVec<ArchivedMember>>),
}

/// The variant of an archived `Json`, as a view.
pub trait JsonView<'a> {
    /// The variant that the tag names, with views of its fields.
    fn variant(self) -> ViewOfJson<'a>;
}

impl<'a> JsonView<'a> for Ref<'a, ArchivedJson> {
    ghost use Rattle.recursive_fields.specs.declared.json.ViewOfJson.TheVariants.{List as JsonListShown, Null as JsonNullShown, Number as JsonNumberShown, Object as JsonObjectShown, Text as JsonTextShown};

    fn variant(self) -> ViewOfJson<'a>
        ensures shows { elim result [
          | JsonNullShown ↦ (tag_of self.entry ≡ 0)
          | JsonNumberShown a0 ↦ (tag_of self.entry ≡ 1) × (a0.bytes.now ≡ self.entry.bytes.now)
              × (a0.pos ≡ self.entry.pos + 8) × (a0.len ≡ 0)
              × ShowsValueOf a0 self.entry (payload_in 0)
          | JsonTextShown a0 ↦ (tag_of self.entry ≡ 2) × (a0.bytes.now ≡ self.entry.bytes.now)
              × (a0.pos ≡ self.entry.pos + 4) × (a0.len ≡ 0)
              × ShowsValueOf a0 self.entry (payload_in 0)
          | JsonListShown a0 ↦ (tag_of self.entry ≡ 3) × (a0.bytes.now ≡ self.entry.bytes.now)
              × (a0.pos ≡ self.entry.pos + 4) × (a0.len ≡ 0)
              × ShowsValueOf a0 self.entry (payload_in 0)
          | JsonObjectShown a0 ↦ (tag_of self.entry ≡ 4) × (a0.bytes.now ≡ self.entry.bytes.now)
              × (a0.pos ≡ self.entry.pos + 4) × (a0.len ≡ 0)
              × ShowsValueOf a0 self.entry (payload_in 0)
        ] }
    {
        match tag_of_view(self) {
            0 => ViewOfJson::Null,
            1 => ViewOfJson::Number(view_of_payload::<ArchivedJson, ArchivedNumber>(self, 1, 0, 8)),
            2 => ViewOfJson::Text(view_of_payload::<ArchivedJson, ArchivedString>(self, 2, 0, 4)),
            3 => {
                let a0 = view_of_payload::<ArchivedJson, ArchivedVec<ArchivedJson>>(self, 3, 0, 4);
                ViewOfJson::List(a0)
            }
            _ => {
                let a0 = view_of_payload::<ArchivedJson, ArchivedVec<ArchivedMember>>(
                    self, 4, 0, 4,
                );
                ViewOfJson::Object(a0)
            }
        }
    }
}

/// The fields of an archived `Json`, as seals. The caller must ensure that the tag is the variant's.
pub trait JsonSeal<'a> {
    // The seal shows a part of a buffer that was checked.
    ghost sealed: { Self → Type 0 };

    // The tag that it shows.
    ghost tag: { Self → ℕ };

    /// The field `0` of `Number`.
    fn number_0_mut(self) -> Seal<'a, ArchivedNumber>
        requires come_to { sealed self }
        requires tag { tag self ≡ 1 };

    /// The field `0` of `Text`.
    fn text_0_mut(self) -> Seal<'a, ArchivedString>
        requires come_to { sealed self }
        requires tag { tag self ≡ 2 };

    /// The field `0` of `List`.
    fn list_0_mut(self) -> Seal<'a, ArchivedVec<ArchivedJson>>
        requires come_to { sealed self }
        requires tag { tag self ≡ 3 };

    /// The field `0` of `Object`.
    fn object_0_mut(self) -> Seal<'a, ArchivedVec<ArchivedMember>>
        requires come_to { sealed self }
        requires tag { tag self ≡ 4 };
}

impl<'a> JsonSeal<'a> for Seal<'a, ArchivedJson> {
    ghost sealed = { λ s. IsSealOf json_definitions (one ⟦<ArchivedJson as Portable>⟧.shape) s };

    ghost tag = { λ s. seal_tag s };

    fn number_0_mut(self) -> Seal<'a, ArchivedNumber>
        requires come_to { IsSealOf json_definitions (one ⟦<ArchivedJson as Portable>⟧.shape) self }
        requires tag { seal_tag self ≡ 1 }
        ensures { SealsPart json_definitions (one ⟦<ArchivedJson as Portable>⟧.shape) no_definition
            ⟦<ArchivedNumber as ArchivePointee>⟧.pointee (self.entry.pos + 8) 0 self.entry result }
    {
        seal_of_payload::<ArchivedJson, ArchivedNumber>(self, 1, 0, 8)
    }

    fn text_0_mut(self) -> Seal<'a, ArchivedString>
        requires come_to { IsSealOf json_definitions (one ⟦<ArchivedJson as Portable>⟧.shape) self }
        requires tag { seal_tag self ≡ 2 }
        ensures { SealsPart json_definitions (one ⟦<ArchivedJson as Portable>⟧.shape) no_definition
            ⟦<ArchivedString as ArchivePointee>⟧.pointee (self.entry.pos + 4) 0 self.entry result }
    {
        seal_of_payload::<ArchivedJson, ArchivedString>(self, 2, 0, 4)
    }

    fn list_0_mut(self) -> Seal<'a, ArchivedVec<ArchivedJson>>
        requires come_to { IsSealOf json_definitions (one ⟦<ArchivedJson as Portable>⟧.shape) self }
        requires tag { seal_tag self ≡ 3 }
        ensures { SealsPart json_definitions (one ⟦<ArchivedJson as Portable>⟧.shape)
            ⟦<ArchivedJson as ArchivePointee>⟧.definitions
            ⟦<ArchivedVec<ArchivedJson> as ArchivePointee>⟧.pointee (self.entry.pos + 4) 0
            self.entry result }
    {
        seal_of_payload::<ArchivedJson, ArchivedVec<ArchivedJson>>(self, 3, 0, 4)
    }

    fn object_0_mut(self) -> Seal<'a, ArchivedVec<ArchivedMember>>
        requires come_to { IsSealOf json_definitions (one ⟦<ArchivedJson as Portable>⟧.shape) self }
        requires tag { seal_tag self ≡ 4 }
        ensures { SealsPart json_definitions (one ⟦<ArchivedJson as Portable>⟧.shape)
            ⟦<ArchivedMember as ArchivePointee>⟧.definitions
            ⟦<ArchivedVec<ArchivedMember> as ArchivePointee>⟧.pointee (self.entry.pos + 4) 0
            self.entry result }
    {
        seal_of_payload::<ArchivedJson, ArchivedVec<ArchivedMember>>(self, 4, 0, 4)
    }
}

/// An archived `Member`: 24 bytes at a multiple of 8. It is validated by its schema.
pub struct ArchivedMember;

type MemberParts = (ArchivedString, (ArchivedJson, ()));

impl ArchivePointee for ArchivedMember {
    type ArchivedMetadata = ();

    ghost pointee = { one member_type_shape };

    ghost definitions = { member_type_definitions };

    ghost metadata_length = { λ _. 0 };

    fn pointer_metadata(_metadata: &()) -> usize {
        0
    }
}

// The parts of `Member`.
fn member_type_expressions(alloc: Global) -> Result<Vec<archive_core::shape::Expr>, AllocError>
    ensures { ExpressesParts member_type_parts result }
{
    let rest2 = no_expressions(alloc);
    let rest1 = first_expression(named_expression("ArchivedJson"), rest2);
    first_expression(expression_of::<ArchivedString>(alloc), rest1)
}

// Adds what the name stands for.
fn define_member_type(alloc: Global, defs: &mut Defs) -> Result<(), Error>
    ensures added { OnOk result (Extended (table_of defs.old)
        (defines member_type_name member_type_stands_for) (table_of defs.new)) }
    ensures refused { IfErr result (ExplainsConflict (table_of defs.old)
        (defines member_type_name member_type_stands_for)) }
{
    define_record("ArchivedMember", member_type_expressions(alloc), defs)
}

// Adds what the names stand for.
fn define_json_family(alloc: Global, defs: &mut Defs) -> Result<(), Error>
    ensures added { OnOk result (Extended (table_of defs.old) json_definitions
        (table_of defs.new)) }
    ensures refused { IfErr result (ExplainsConflict (table_of defs.old) json_definitions) }
{
    define_json(alloc, defs)?;
    define_member_type(alloc, defs)
}

impl Portable for ArchivedMember {
    ghost shape = { member_type_shape };

    ghost layout = { member_type_layout };

    type Check = BySchema;

    ghost is_one = { refl };

    ghost is_align = { member_type_is_align };

    ghost has_layout = { member_type_has_layout };

    ghost no_others = { member_type_no_others };

    ghost checks = { λ direct. by_schema direct };

    fn size() -> usize {
        24
    }

    fn align() -> usize {
        8
    }

    fn expr(_alloc: Global) -> Result<archive_core::shape::Expr, Error> {
        Ok(archive_core::shape::Expr::Named("ArchivedMember"))
    }

    fn define(alloc: Global, defs: &mut Defs) -> Result<(), Error> {
        define_json_family(alloc, defs)
    }
}

impl Record for ArchivedMember {
    type Parts = MemberParts;

    ghost has_parts = { member_type_has_parts };

    ghost holds = { lit≤ tt };
}

/// What is kept of `Member` between `serialize` and `resolve`.
#[derive(Drop)]
pub struct MemberResolver {
    kept: (<String as Archive>::Resolver, (JsonResolver, ())),
}

impl Archive for Member {
    ghost use Rattle.recursive_fields.specs.JsonMeaning.{member_type_meaning, member_type_flat, member_type_keys, member_type_belongs, member_type_keyed, member_type_planned};

    type Archived = ArchivedMember;

    type Resolver = MemberResolver;

    ghost meaning = { member_type_meaning };

    ghost flat = { member_type_flat };

    ghost keys = { member_type_keys };

    ghost belongs = { member_type_belongs };

    ghost in_bulk = { None };

    ghost keyed = { member_type_keyed };

    ghost planned = { member_type_planned };

    #[inline(always)]
    fn resolve(
        &self,
        resolver: Self::Resolver,
        place: Place<'_, Self::Archived>,
    ) -> Result<(), Error>
        requires zeroed { ZeroedPlace 24 place.pos place.bytes.now }
        requires same_value { ⟦<Self as Archive>⟧.belongs self.now resolver }
        ensures { ResolvesAs ⟦<Self::Archived as Portable>⟧ place
            (⟦<Self as Archive>⟧.flat self.now resolver) result }
    {
        let Place { bytes, pos, .. } = place;
        let MemberResolver { kept } = resolver;
        resolve_named_record_2::<String, Json, ArchivedMember>(
            &self.name,
            &self.value,
            kept,
            Place::new(pos, bytes),
        )
    }

    #[inline(always)]
    fn copy_optimization() -> CopyOptimization<Self> {
        CopyOptimization::disable()
    }

    #[inline(always)]
    fn serialize_copied<S: Writer + Keys>(
        _values: &[Self],
        _together: usize,
        _serializer: &mut S,
    ) -> Result<Option<usize>, Error> {
        Ok(None)
    }
}

// Writes what a value owns, part by part.
#[cycle(serialize_json)]
fn serialize_whole_member_type<S: Writer + Keys + ResolverAlloc>(
    value: &Member,
    serializer: &mut S,
) -> Result<MemberResolver, Error>
    ensures serialized { IfOk result (λ r. Serialized member_type_definitions member_type_shape
        (⟦<Member as Archive>⟧.keys value.now) (⟦<Member as Archive>⟧.meaning value.now)
        (⟦<Member as Archive>⟧.flat value.now r) (S.state serializer.old)
        (S.state serializer.new)) }
    ensures same_value { IfOk result (λ r. ⟦<Member as Archive>⟧.belongs value.now r) }
    ensures goes_on { GoesOn (S.state serializer.old) (S.state serializer.new) }
    ensures refused { IfErr result (IsRefused member_type_definitions member_type_shape
        (⟦<Member as Archive>⟧.keys value.now) (⟦<Member as Archive>⟧.meaning value.now)
        (S.state serializer.old) (S.state serializer.new)) }
{
    let a0 = match serialize_part(&value.name, serializer) {
        Ok(a0) => a0,
        Err(error) => return Err(error),
    };
    let a1 = match serialize_json(&value.value, serializer) {
        Ok(a1) => a1,
        Err(error) => return Err(handed_on(error)),
    };
    Ok(MemberResolver {
        kept: (a0, (a1, ())),
    })
}

// The same by a call, whose result has its room only while it lasts.
#[cycle(serialize_json)]
#[inline(always)]
fn serialize_member_type<S: Writer + Keys + ResolverAlloc>(
    value: &Member,
    serializer: &mut S,
) -> Result<MemberResolver, Error>
    ensures serialized { IfOk result (λ r. Serialized member_type_definitions member_type_shape
        (⟦<Member as Archive>⟧.keys value.now) (⟦<Member as Archive>⟧.meaning value.now)
        (⟦<Member as Archive>⟧.flat value.now r) (S.state serializer.old)
        (S.state serializer.new)) }
    ensures same_value { IfOk result (λ r. ⟦<Member as Archive>⟧.belongs value.now r) }
    ensures goes_on { GoesOn (S.state serializer.old) (S.state serializer.new) }
    ensures refused { IfErr result (IsRefused member_type_definitions member_type_shape
        (⟦<Member as Archive>⟧.keys value.now) (⟦<Member as Archive>⟧.meaning value.now)
        (S.state serializer.old) (S.state serializer.new)) }
{
    serialize_whole_member_type(value, serializer)
}

impl<S: Writer + Keys + ResolverAlloc> Serialize<S> for Member {
    #[inline(always)]
    fn serialize(&self, serializer: &mut S) -> Result<Self::Resolver, Error> {
        serialize_member_type(self, serializer)
    }
}

/// As a region of its own: the value itself.
impl ArchiveUnsized for Member {
    ghost use Rattle.recursive_fields.specs.contracts.json.MemberArchive.TheImpl.Laws.{keyed-law as keyed_of_member, planned-law as planned_of_member};

    type Archived = ArchivedMember;

    ghost source_length = { λ _. 0 };

    ghost meaning = { ⟦<Member as Archive>⟧.meaning };

    ghost keys = { ⟦<Member as Archive>⟧.keys };

    ghost keyed = { keyed_of_member };

    ghost one_length = { λ _ _. refl };

    ghost planned = { λ v. one_planned member_type_definitions member_type_shape
        (⟦<Member as Archive>⟧.keys v) (⟦<Member as Archive>⟧.meaning v) (planned_of_member v) };

    #[inline(always)]
    fn archived_metadata(&self) -> Result<(), Error> {
        Ok(())
    }
}

impl<S: Writer + Keys + ResolverAlloc> SerializeUnsized<S> for Member {
    #[inline(always)]
    fn serialize_unsized(&self, serializer: &mut S) -> Result<usize, Error> {
        serialize_one(self, serializer)
    }
}

// Reads a value back, part by part.
#[cycle(read_json)]
#[inline(always)]
fn read_member_type<D: Entries>(
    alloc: Global,
    part: RawView<'_>,
    deserializer: &mut D,
) -> Result<Member, Error>
    requires { IsPartOf ⟦<ArchivedMember as ArchivePointee>⟧ part }
    ensures read { IfOk result (Read ⟦<ArchivedMember as ArchivePointee>⟧ part D.Entries
        deserializer ⟦<Member as Archive>⟧) }
    ensures refused { IfErr result (RefusesPart ⟦<ArchivedMember as ArchivePointee>⟧ part D.Entries
        deserializer) }
{
    let p0 = part_of_record::<ArchivedMember, ArchivedString>(part, 0, 0);
    let a0 = match read_part::<ArchivedString, String, D>(alloc, p0, deserializer) {
        Ok(a0) => a0,
        Err(error) => return Err(error),
    };
    let p1 = part_of_record::<ArchivedMember, ArchivedJson>(part, 1, 8);
    let a1 = match read_json(alloc, p1, deserializer) {
        Ok(a1) => a1,
        Err(error) => return Err(error),
    };
    Ok(Member {
        name: a0,
        value: a1,
    })
}

impl<D: Entries> Deserialize<Member, D> for ArchivedMember {
    #[inline(always)]
    fn deserialize_part(
        alloc: Global,
        part: RawView<'_>,
        deserializer: &mut D,
    ) -> Result<Member, Error>
        requires { IsPartOf ⟦<Self as ArchivePointee>⟧ part }
        ensures { ReadsAs ⟦<Self as ArchivePointee>⟧ part D.Entries deserializer
            ⟦<Member as Archive>⟧ result }
    {
        read_member_type(alloc, part, deserializer)
    }
}

/// The fields of an archived `Member`, as views.
pub trait MemberView<'a> {
    /// The name.
    fn name(self) -> Ref<'a, ArchivedString>;

    /// The value.
    fn value(self) -> Ref<'a, ArchivedJson>;
}

impl<'a> MemberView<'a> for Ref<'a, ArchivedMember> {
    fn name(self) -> Ref<'a, ArchivedString>
        ensures buffer { result.bytes.now ≡ self.entry.bytes.now }
        ensures position { result.pos ≡ self.entry.pos + 0 }
        ensures length { result.len ≡ 0 }
        ensures shows { ShowsValueOf result self.entry (field_in 0) }
    {
        view_of_field::<ArchivedMember, ArchivedString>(self, 0, 0)
    }

    fn value(self) -> Ref<'a, ArchivedJson>
        ensures buffer { result.bytes.now ≡ self.entry.bytes.now }
        ensures position { result.pos ≡ self.entry.pos + 8 }
        ensures length { result.len ≡ 0 }
        ensures shows { ShowsValueOf result self.entry (field_in 1) }
    {
        view_of_field::<ArchivedMember, ArchivedJson>(self, 1, 8)
    }
}

/// The fields of an archived `Member`, as seals.
pub trait MemberSeal<'a> {
    // The seal shows a part of a buffer that was checked.
    ghost sealed: { Self → Type 0 };

    /// The name.
    fn name_mut(self) -> Seal<'a, ArchivedString>
        requires { sealed self };

    /// The value.
    fn value_mut(self) -> Seal<'a, ArchivedJson>
        requires { sealed self };
}

impl<'a> MemberSeal<'a> for Seal<'a, ArchivedMember> {
    ghost sealed = { λ s. IsSealOf member_type_definitions
        (one ⟦<ArchivedMember as Portable>⟧.shape) s };

    fn name_mut(self) -> Seal<'a, ArchivedString>
        requires come_to { IsSealOf member_type_definitions
            (one ⟦<ArchivedMember as Portable>⟧.shape) self }
        ensures { SealsPart member_type_definitions (one ⟦<ArchivedMember as Portable>⟧.shape)
            no_definition ⟦<ArchivedString as ArchivePointee>⟧.pointee (self.entry.pos + 0) 0
            self.entry result }
    {
        seal_of_field::<ArchivedMember, ArchivedString>(self, 0, 0)
    }

    fn value_mut(self) -> Seal<'a, ArchivedJson>
        requires come_to { IsSealOf member_type_definitions
            (one ⟦<ArchivedMember as Portable>⟧.shape) self }
        ensures { SealsPart member_type_definitions (one ⟦<ArchivedMember as Portable>⟧.shape)
            ⟦<ArchivedJson as ArchivePointee>⟧.definitions
            ⟦<ArchivedJson as ArchivePointee>⟧.pointee (self.entry.pos + 8) 0 self.entry result }
    {
        seal_of_field::<ArchivedMember, ArchivedJson>(self, 1, 8)
    }
}

/// An archived `Number`: 8 bytes at a multiple of 8.
pub struct ArchivedNumber;

type NumberParts = (ArchivedI64, ());

type NumberOwned = (i64, ());

impl ArchivePointee for ArchivedNumber {
    type ArchivedMetadata = ();

    ghost pointee = { one (parts (part ⟦<ArchivedI64 as Portable>⟧.shape no_part)) };

    ghost definitions = { no_definition };

    ghost metadata_length = { λ _. 0 };

    fn pointer_metadata(_metadata: &()) -> usize {
        0
    }
}

impl Portable for ArchivedNumber {
    ghost shape = { parts (part ⟦<ArchivedI64 as Portable>⟧.shape no_part) };

    ghost layout = { record { size = 8; align = 8 } };

    type Check = ArchivedNumber;

    ghost is_one = { refl };

    ghost is_align = { inr (inr (inr (inl refl))) };

    ghost has_layout = { record { solved = λ s k. refl } };

    ghost no_others = { no_definition_reached (parts (part ⟦<ArchivedI64 as Portable>⟧.shape
        no_part)) };

    ghost checks = { λ _. plain_own_check _ _ _ _ _ refl refl refl refl };

    fn size() -> usize {
        8
    }

    fn align() -> usize {
        8
    }

    fn expr(alloc: Global) -> Result<archive_core::shape::Expr, Error> {
        expr_of_record::<NumberParts>(alloc)
    }

    fn define(_alloc: Global, _defs: &mut Defs) -> Result<(), Error> {
        Ok(())
    }
}

impl SelfCheck for ArchivedNumber {
    ghost shape = { parts (part ⟦<ArchivedI64 as Portable>⟧.shape no_part) };

    ghost definitions = { (both no_definition no_definition) };

    ghost span = { 8 };

    ghost direct = { true };

    ghost nameless = { true };

    fn is_direct() -> bool {
        true
    }

    fn is_nameless() -> bool {
        true
    }

    #[inline(always)]
    fn check_at<C: ArchiveContext>(
        bytes: &[u8],
        at: usize,
        refusal: &mut Error,
        context: &mut C,
    ) -> Option<()> {
        RecordCheck::<NumberParts>::check_at(bytes, at, refusal, context)
    }
}

impl Record for ArchivedNumber {
    type Parts = NumberParts;

    ghost has_parts = { plain_record (part ⟦<ArchivedI64 as Portable>⟧.shape no_part)
        (both no_definition no_definition) refl };

    ghost holds = { lit≤ tt };
}

/// What is kept of `Number` between `serialize` and `resolve`.
#[derive(Drop)]
pub struct NumberResolver {
    kept: (<i64 as Archive>::Resolver, ()),
}

impl Archive for Number {
    type Archived = ArchivedNumber;

    type Resolver = NumberResolver;

    ghost meaning = { λ v. product (value (⟦<i64 as Archive>⟧.meaning v.thousandths) no_value) };

    ghost flat = { λ v r. product (value (⟦<i64 as Archive>⟧.flat v.thousandths r.kept.0)
        no_value) };

    ghost keys = { λ v. ⟦<i64 as Archive>⟧.keys v.thousandths ++ [] };

    ghost belongs = { λ v r. ⟦<i64 as Archive>⟧.belongs v.thousandths r.kept.0 × Unit {0} };

    ghost in_bulk = { Some (λ v. ⟦<i64 as Copied>⟧.copied_bytes v.thousandths ++ []) };

    ghost keyed = { λ v. record_keyed (part_keyed (number_keyed _) nothing_keyed) };

    ghost planned = { λ v. plain_record_planned (both no_definition no_definition)
        (part ⟦<ArchivedI64 as Portable>⟧.shape no_part) _ _
        (part_planned no_definition ⟦<ArchivedI64 as Portable>⟧.shape
        (⟦<i64 as Archive>⟧.keys v.thousandths) (⟦<i64 as Archive>⟧.meaning v.thousandths)
        (leaf_planned no_definition _ _ [] _ refl) no_part_planned) refl };

    #[inline(always)]
    fn resolve(
        &self,
        resolver: Self::Resolver,
        place: Place<'_, Self::Archived>,
    ) -> Result<(), Error>
        requires zeroed { ZeroedPlace 8 place.pos place.bytes.now }
        requires same_value { ⟦<Self as Archive>⟧.belongs self.now resolver }
        ensures { ResolvesAs ⟦<Self::Archived as Portable>⟧ place
            (⟦<Self as Archive>⟧.flat self.now resolver) result }
    {
        let Place { bytes, .. } = place;
        self.copy_one(bytes);
        Ok(())
    }

    #[inline(always)]
    fn copy_optimization() -> CopyOptimization<Self> {
        CopyOptimization::enable()
    }

    #[inline(always)]
    fn serialize_copied<S: Writer + Keys>(
        values: &[Self],
        together: usize,
        serializer: &mut S,
    ) -> Result<Option<usize>, Error> {
        copy_groups(values, together, serializer)
    }
}

/// Slices of it are written in bulk.
impl Copied for Number {
    type CopiedAs = ArchivedNumber;

    ghost copied_keys = { λ _. [] };

    ghost copied_meaning = { λ v. product (value (⟦<i64 as Archive>⟧.meaning v.thousandths)
        no_value) };

    ghost copied_bytes = { λ v. ⟦<i64 as Copied>⟧.copied_bytes v.thousandths ++ [] };

    #[inline(always)]
    fn copied_size() -> usize {
        8
    }

    #[inline(always)]
    fn copy_one(&self, bytes: &mut [u8]) {
        copy_1(&self.thousandths, bytes);
    }
}

impl CopiedSource for Number {
    ghost same_keys = { refl };

    ghost same_meaning = { refl };
}

impl<S: Writer + ResolverAlloc> Serialize<S> for Number {
    #[inline(always)]
    fn serialize(&self, serializer: &mut S) -> Result<Self::Resolver, Error> {
        match serialize_record_1::<i64, ArchivedNumber, S>(&self.thousandths, serializer) {
            Ok(kept) => Ok(NumberResolver { kept }),
            Err(error) => Err(error),
        }
    }
}

/// As a region of its own: the value itself.
impl ArchiveUnsized for Number {
    ghost use Rattle.recursive_fields.specs.contracts.json.NumberArchive.TheImpl.Laws.{keyed-law as keyed_of_number, planned-law as planned_of_number};

    type Archived = ArchivedNumber;

    ghost source_length = { λ _. 0 };

    ghost meaning = { ⟦<Number as Archive>⟧.meaning };

    ghost keys = { ⟦<Number as Archive>⟧.keys };

    ghost keyed = { keyed_of_number };

    ghost one_length = { λ _ _. refl };

    ghost planned = { λ v. one_planned no_definition (parts
        (part ⟦<ArchivedI64 as Portable>⟧.shape no_part)) (⟦<Number as Archive>⟧.keys v)
        (⟦<Number as Archive>⟧.meaning v) (planned_of_number v) };

    #[inline(always)]
    fn archived_metadata(&self) -> Result<(), Error> {
        Ok(())
    }
}

impl<S: Writer + ResolverAlloc> SerializeUnsized<S> for Number {
    #[inline(always)]
    fn serialize_unsized(&self, serializer: &mut S) -> Result<usize, Error> {
        serialize_one(self, serializer)
    }
}

impl<D: Entries> Deserialize<Number, D> for ArchivedNumber {
    #[inline(always)]
    fn deserialize_part(
        alloc: Global,
        part: RawView<'_>,
        deserializer: &mut D,
    ) -> Result<Number, Error>
        requires { IsPartOf ⟦<Self as ArchivePointee>⟧ part }
        ensures { ReadsAs ⟦<Self as ArchivePointee>⟧ part D.Entries deserializer
            ⟦<Number as Archive>⟧ result }
    {
        match deserialize_record::<Self, NumberOwned, D>(alloc, part, deserializer) {
            Ok((a0, ())) => Ok(Number { thousandths: a0 }),
            Err(error) => Err(error),
        }
    }
}

/// The fields of an archived `Number`, as views.
pub trait NumberView<'a> {
    /// How many thousandths it is.
    fn thousandths(self) -> Ref<'a, ArchivedI64>;
}

impl<'a> NumberView<'a> for Ref<'a, ArchivedNumber> {
    fn thousandths(self) -> Ref<'a, ArchivedI64>
        ensures buffer { result.bytes.now ≡ self.entry.bytes.now }
        ensures position { result.pos ≡ self.entry.pos + 0 }
        ensures length { result.len ≡ 0 }
        ensures shows { ShowsValueOf result self.entry (field_in 0) }
    {
        part_in_record::<ArchivedNumber, ArchivedI64>(self, 0, 0)
    }
}

/// The fields of an archived `Number`, as seals.
pub trait NumberSeal<'a> {
    // The seal shows a part of a buffer that was checked.
    ghost sealed: { Self → Type 0 };

    /// How many thousandths it is.
    fn thousandths_mut(self) -> Seal<'a, ArchivedI64>
        requires { sealed self };
}

impl<'a> NumberSeal<'a> for Seal<'a, ArchivedNumber> {
    ghost sealed = { λ s. IsSealOf no_definition (one ⟦<ArchivedNumber as Portable>⟧.shape) s };

    fn thousandths_mut(self) -> Seal<'a, ArchivedI64>
        requires come_to { IsSealOf no_definition (one ⟦<ArchivedNumber as Portable>⟧.shape) self }
        ensures { SealsPart no_definition (one ⟦<ArchivedNumber as Portable>⟧.shape) no_definition
            ⟦<ArchivedI64 as ArchivePointee>⟧.pointee (self.entry.pos + 0) 0 self.entry result }
    {
        sealed_part_in_record::<ArchivedNumber, ArchivedI64>(self, 0, 0)
    }
}

/// An archived `Message`: 48 bytes at a multiple of 8. It is validated by its schema.
pub struct ArchivedMessage;

type MessageSentParts = (ArchivedJson, (ArchivedOption<ArchivedJson>, ()));

type MessageListedParts = (u8, (ArchivedVec<ArchivedJson>, ()));

type MessageVariants = ((), (MessageSentParts, (MessageListedParts, ())));

impl ArchivePointee for ArchivedMessage {
    type ArchivedMetadata = ();

    ghost pointee = { one message_shape };

    ghost definitions = { message_definitions };

    ghost metadata_length = { λ _. 0 };

    fn pointer_metadata(_metadata: &()) -> usize {
        0
    }
}

impl Portable for ArchivedMessage {
    ghost shape = { message_shape };

    ghost layout = { message_layout };

    type Check = BySchema;

    ghost is_one = { refl };

    ghost is_align = { message_is_align };

    ghost has_layout = { message_has_layout };

    ghost no_others = { message_no_others };

    ghost checks = { λ direct. by_schema direct };

    fn size() -> usize {
        48
    }

    fn align() -> usize {
        8
    }

    fn expr(alloc: Global) -> Result<archive_core::shape::Expr, Error> {
        expr_of_choice::<MessageVariants>(alloc, "ArchivedMessage")
    }

    fn define(alloc: Global, defs: &mut Defs) -> Result<(), Error> {
        <MessageVariants as PortableVariants>::define(alloc, defs)
    }
}

impl Choice for ArchivedMessage {
    type Variants = MessageVariants;

    ghost name = { message_name };

    ghost has_variants = { message_has_variants };

    ghost holds = { lit≤ tt };
}

/// What is kept of `Message` between `serialize` and `resolve`.
#[derive(Drop)]
pub enum MessageResolver {
    /// Of `Nothing`.
    Nothing,
    /// Of `Sent`.
    Sent(
        (
            <Json as Archive>::Resolver,
            (<Option<Json> as Archive>::Resolver, ()),
        ),
    ),
    /// Of `Listed`.
    Listed(
        (
            <u8 as Archive>::Resolver,
            (<Vec<Json> as Archive>::Resolver, ()),
        ),
    ),
}

impl Archive for Message {
    ghost use Rattle.recursive_fields.specs.MessageMeaning.{message_meaning, message_flat, message_keys, message_belongs, message_keyed, message_planned};

    type Archived = ArchivedMessage;

    type Resolver = MessageResolver;

    ghost meaning = { message_meaning };

    ghost flat = { message_flat };

    ghost keys = { message_keys };

    ghost belongs = { message_belongs };

    ghost in_bulk = { None };

    ghost keyed = { message_keyed };

    ghost planned = { message_planned };

    #[inline(always)]
    fn resolve(
        &self,
        resolver: Self::Resolver,
        place: Place<'_, Self::Archived>,
    ) -> Result<(), Error>
        requires zeroed { ZeroedPlace 48 place.pos place.bytes.now }
        requires same_value { ⟦<Self as Archive>⟧.belongs self.now resolver }
        ensures { ResolvesAs ⟦<Self::Archived as Portable>⟧ place
            (⟦<Self as Archive>⟧.flat self.now resolver) result }
    {
        let Place { bytes, pos, .. } = place;
        match self {
            Message::Nothing => {
                resolve_named_case_0::<ArchivedMessage>(0, (), Place::new(pos, bytes))
            }
            Message::Sent(a0, a1) => {
                let MessageResolver::Sent(kept) = resolver else {
                    unreachable!();
                };
                resolve_named_case_2::<Json, Option<Json>, ArchivedMessage>(
                    1,
                    a0,
                    a1,
                    kept,
                    Place::new(pos, bytes),
                )
            }
            Message::Listed {
                others: a0,
                documents: a1,
            } => {
                let MessageResolver::Listed(kept) = resolver else {
                    unreachable!();
                };
                resolve_named_case_2::<u8, Vec<Json>, ArchivedMessage>(
                    2,
                    a0,
                    a1,
                    kept,
                    Place::new(pos, bytes),
                )
            }
        }
    }

    #[inline(always)]
    fn copy_optimization() -> CopyOptimization<Self> {
        CopyOptimization::disable()
    }

    #[inline(always)]
    fn serialize_copied<S: Writer + Keys>(
        _values: &[Self],
        _together: usize,
        _serializer: &mut S,
    ) -> Result<Option<usize>, Error> {
        Ok(None)
    }
}

// Writes what the parts of `Sent` own, in order.
fn serialize_message_sent<S: Writer + Keys + ResolverAlloc>(
    a0: &Json,
    a1: &Option<Json>,
    serializer: &mut S,
) -> Result<
    (
        <Json as Archive>::Resolver,
        (<Option<Json> as Archive>::Resolver, ()),
    ),
    Error,
>
    ensures serialized { IfOk result (λ r. Serialized message_definitions message_shape
        (⟦<Json as Archive>⟧.keys a0.now ++ (⟦<Option<Json> as Archive>⟧.keys a1.now ++ []))
        (case 1 (value (⟦<Json as Archive>⟧.meaning a0.now)
        (value (⟦<Option<Json> as Archive>⟧.meaning a1.now) no_value)))
        (case 1 (value (⟦<Json as Archive>⟧.flat a0.now r.0)
        (value (⟦<Option<Json> as Archive>⟧.flat a1.now r.1.0) no_value))) (S.state serializer.old)
        (S.state serializer.new)) }
    ensures same_values { IfOk result (λ r. ⟦<Json as Archive>⟧.belongs a0.now r.0
        × (⟦<Option<Json> as Archive>⟧.belongs a1.now r.1.0 × Unit {0})) }
    ensures goes_on { GoesOn (S.state serializer.old) (S.state serializer.new) }
    ensures refused { IfErr result (IsRefused message_definitions message_shape
        (⟦<Json as Archive>⟧.keys a0.now ++ (⟦<Option<Json> as Archive>⟧.keys a1.now ++ []))
        (case 1 (value (⟦<Json as Archive>⟧.meaning a0.now)
        (value (⟦<Option<Json> as Archive>⟧.meaning a1.now) no_value))) (S.state serializer.old)
        (S.state serializer.new)) }
{
    let a0 = match serialize_part(a0, serializer) {
        Ok(a0) => a0,
        Err(error) => return Err(error),
    };
    let a1 = match serialize_part(a1, serializer) {
        Ok(a1) => a1,
        Err(error) => return Err(error),
    };
    Ok((a0, (a1, ())))
}

// Writes what the parts of `Listed` own, in order.
fn serialize_message_listed<S: Writer + Keys + ResolverAlloc>(
    a0: &u8,
    a1: &Vec<Json>,
    serializer: &mut S,
) -> Result<
    (
        <u8 as Archive>::Resolver,
        (<Vec<Json> as Archive>::Resolver, ()),
    ),
    Error,
>
    ensures serialized { IfOk result (λ r. Serialized message_definitions message_shape
        (⟦<u8 as Archive>⟧.keys a0.now ++ (⟦<Vec<Json> as Archive>⟧.keys a1.now ++ []))
        (case 2 (value (⟦<u8 as Archive>⟧.meaning a0.now)
        (value (⟦<Vec<Json> as Archive>⟧.meaning a1.now) no_value)))
        (case 2 (value (⟦<u8 as Archive>⟧.flat a0.now r.0)
        (value (⟦<Vec<Json> as Archive>⟧.flat a1.now r.1.0) no_value))) (S.state serializer.old)
        (S.state serializer.new)) }
    ensures same_values { IfOk result (λ r. ⟦<u8 as Archive>⟧.belongs a0.now r.0
        × (⟦<Vec<Json> as Archive>⟧.belongs a1.now r.1.0 × Unit {0})) }
    ensures goes_on { GoesOn (S.state serializer.old) (S.state serializer.new) }
    ensures refused { IfErr result (IsRefused message_definitions message_shape
        (⟦<u8 as Archive>⟧.keys a0.now ++ (⟦<Vec<Json> as Archive>⟧.keys a1.now ++ []))
        (case 2 (value (⟦<u8 as Archive>⟧.meaning a0.now)
        (value (⟦<Vec<Json> as Archive>⟧.meaning a1.now) no_value))) (S.state serializer.old)
        (S.state serializer.new)) }
{
    let a0 = match serialize_part(a0, serializer) {
        Ok(a0) => a0,
        Err(error) => return Err(error),
    };
    let a1 = match serialize_part(a1, serializer) {
        Ok(a1) => a1,
        Err(error) => return Err(error),
    };
    Ok((a0, (a1, ())))
}

// Writes what a value owns.
fn serialize_message<S: Writer + Keys + ResolverAlloc>(
    value: &Message,
    serializer: &mut S,
) -> Result<MessageResolver, Error>
    ensures serialized { IfOk result (λ r. Serialized message_definitions message_shape
        (⟦<Message as Archive>⟧.keys value.now) (⟦<Message as Archive>⟧.meaning value.now)
        (⟦<Message as Archive>⟧.flat value.now r) (S.state serializer.old)
        (S.state serializer.new)) }
    ensures same_value { IfOk result (λ r. ⟦<Message as Archive>⟧.belongs value.now r) }
    ensures goes_on { GoesOn (S.state serializer.old) (S.state serializer.new) }
    ensures refused { IfErr result (IsRefused message_definitions message_shape
        (⟦<Message as Archive>⟧.keys value.now) (⟦<Message as Archive>⟧.meaning value.now)
        (S.state serializer.old) (S.state serializer.new)) }
{
    match value {
        Message::Nothing => Ok(MessageResolver::Nothing),
        Message::Sent(a0, a1) => match serialize_message_sent(a0, a1, serializer) {
            Ok(kept) => Ok(MessageResolver::Sent(kept)),
            Err(error) => Err(error),
        },
        Message::Listed {
            others: a0,
            documents: a1,
        } => match serialize_message_listed(a0, a1, serializer) {
            Ok(kept) => Ok(MessageResolver::Listed(kept)),
            Err(error) => Err(error),
        },
    }
}

impl<S: Writer + Keys + ResolverAlloc> Serialize<S> for Message {
    #[inline(always)]
    fn serialize(&self, serializer: &mut S) -> Result<Self::Resolver, Error> {
        serialize_message(self, serializer)
    }
}

/// As a region of its own: the value itself.
impl ArchiveUnsized for Message {
    ghost use Rattle.recursive_fields.specs.contracts.json.MessageArchive.TheImpl.Laws.{keyed-law as keyed_of_message, planned-law as planned_of_message};

    type Archived = ArchivedMessage;

    ghost source_length = { λ _. 0 };

    ghost meaning = { ⟦<Message as Archive>⟧.meaning };

    ghost keys = { ⟦<Message as Archive>⟧.keys };

    ghost keyed = { keyed_of_message };

    ghost one_length = { λ _ _. refl };

    ghost planned = { λ v. one_planned message_definitions message_shape
        (⟦<Message as Archive>⟧.keys v) (⟦<Message as Archive>⟧.meaning v) (planned_of_message v) };

    #[inline(always)]
    fn archived_metadata(&self) -> Result<(), Error> {
        Ok(())
    }
}

impl<S: Writer + Keys + ResolverAlloc> SerializeUnsized<S> for Message {
    #[inline(always)]
    fn serialize_unsized(&self, serializer: &mut S) -> Result<usize, Error> {
        serialize_one(self, serializer)
    }
}

// Reads `Nothing` back.
#[inline(always)]
fn read_message_nothing<D: Entries>(
    _alloc: Global,
    part: RawView<'_>,
    _deserializer: &mut D,
) -> Result<Message, Error>
    requires viewed { IsPartOf ⟦<ArchivedMessage as ArchivePointee>⟧ part }
    requires tag { part_tag part ≡ 0 }
    ensures read { IfOk result (Read ⟦<ArchivedMessage as ArchivePointee>⟧ part D.Entries
        _deserializer ⟦<Message as Archive>⟧) }
    ensures refused { IfErr result (RefusesPart ⟦<ArchivedMessage as ArchivePointee>⟧ part D.Entries
        _deserializer) }
{
    Ok(Message::Nothing)
}

// Reads `Sent` back.
#[inline(always)]
fn read_message_sent<D: Entries>(
    alloc: Global,
    part: RawView<'_>,
    deserializer: &mut D,
) -> Result<Message, Error>
    requires viewed { IsPartOf ⟦<ArchivedMessage as ArchivePointee>⟧ part }
    requires tag { part_tag part ≡ 1 }
    ensures read { IfOk result (Read ⟦<ArchivedMessage as ArchivePointee>⟧ part D.Entries
        deserializer ⟦<Message as Archive>⟧) }
    ensures refused { IfErr result (RefusesPart ⟦<ArchivedMessage as ArchivePointee>⟧ part D.Entries
        deserializer) }
{
    let p0 = part_of_variant::<ArchivedMessage, ArchivedJson>(part, 1, 0, 8);
    let a0 = match read_part::<ArchivedJson, Json, D>(alloc, p0, deserializer) {
        Ok(a0) => a0,
        Err(error) => return Err(error),
    };
    let p1 = part_of_variant::<ArchivedMessage, ArchivedOption<ArchivedJson>>(part, 1, 1, 24);
    let a1 = match read_part::<ArchivedOption<ArchivedJson>, Option<Json>, D>(
        alloc,
        p1,
        deserializer,
    ) {
        Ok(a1) => a1,
        Err(error) => return Err(error),
    };
    Ok(Message::Sent(a0, a1))
}

// Reads `Listed` back.
#[inline(always)]
fn read_message_listed<D: Entries>(
    alloc: Global,
    part: RawView<'_>,
    deserializer: &mut D,
) -> Result<Message, Error>
    requires viewed { IsPartOf ⟦<ArchivedMessage as ArchivePointee>⟧ part }
    requires tag { part_tag part ≡ 2 }
    ensures read { IfOk result (Read ⟦<ArchivedMessage as ArchivePointee>⟧ part D.Entries
        deserializer ⟦<Message as Archive>⟧) }
    ensures refused { IfErr result (RefusesPart ⟦<ArchivedMessage as ArchivePointee>⟧ part D.Entries
        deserializer) }
{
    let p0 = part_of_variant::<ArchivedMessage, u8>(part, 2, 0, 1);
    let a0 = match read_part::<u8, u8, D>(alloc, p0, deserializer) {
        Ok(a0) => a0,
        Err(error) => return Err(error),
    };
    let p1 = part_of_variant::<ArchivedMessage, ArchivedVec<ArchivedJson>>(part, 2, 1, 4);
    let a1 = match read_part::<ArchivedVec<ArchivedJson>, Vec<Json>, D>(alloc, p1, deserializer) {
        Ok(a1) => a1,
        Err(error) => return Err(error),
    };
    Ok(Message::Listed {
        others: a0,
        documents: a1,
    })
}

// Reads a value back.
#[inline(always)]
fn read_message<D: Entries>(
    alloc: Global,
    part: RawView<'_>,
    deserializer: &mut D,
) -> Result<Message, Error>
    requires { IsPartOf ⟦<ArchivedMessage as ArchivePointee>⟧ part }
    ensures read { IfOk result (Read ⟦<ArchivedMessage as ArchivePointee>⟧ part D.Entries
        deserializer ⟦<Message as Archive>⟧) }
    ensures refused { IfErr result (RefusesPart ⟦<ArchivedMessage as ArchivePointee>⟧ part D.Entries
        deserializer) }
{
    match tag_of_choice::<ArchivedMessage>(part) {
        0 => read_message_nothing(alloc, part, deserializer),
        1 => read_message_sent(alloc, part, deserializer),
        _ => read_message_listed(alloc, part, deserializer),
    }
}

impl<D: Entries> Deserialize<Message, D> for ArchivedMessage {
    #[inline(always)]
    fn deserialize_part(
        alloc: Global,
        part: RawView<'_>,
        deserializer: &mut D,
    ) -> Result<Message, Error>
        requires { IsPartOf ⟦<Self as ArchivePointee>⟧ part }
        ensures { ReadsAs ⟦<Self as ArchivePointee>⟧ part D.Entries deserializer
            ⟦<Message as Archive>⟧ result }
    {
        read_message(alloc, part, deserializer)
    }
}

/// What a view of an archived `Message` shows, by its tag.
#[derive(Drop)]
pub enum ViewOfMessage<'a> {
    /// Nothing.
    Nothing,
    /// A document, and one that it replaces.
    Sent(Ref<'a, ArchivedJson>, Ref<'a, ArchivedOption<ArchivedJson>>),
    /// Several documents, and how many were left out.
    Listed {
        /// How many.
        others: Ref<'a, u8>,
        /// The documents.
        documents: Ref<'a, ArchivedVec<ArchivedJson>>,
    },
}

/// The variant of an archived `Message`, as a view.
pub trait MessageView<'a> {
    /// The variant that the tag names, with views of its fields.
    fn variant(self) -> ViewOfMessage<'a>;
}

impl<'a> MessageView<'a> for Ref<'a, ArchivedMessage> {
    ghost use Rattle.recursive_fields.specs.declared.json.ViewOfMessage.TheVariants.{Listed as MessageListedShown, Nothing as MessageNothingShown, Sent as MessageSentShown};

    fn variant(self) -> ViewOfMessage<'a>
        ensures shows { elim result [
          | MessageNothingShown ↦ (tag_of self.entry ≡ 0)
          | MessageSentShown a0 a1 ↦ (tag_of self.entry ≡ 1) × (a0.bytes.now ≡ self.entry.bytes.now)
              × (a0.pos ≡ self.entry.pos + 8) × (a0.len ≡ 0)
              × ShowsValueOf a0 self.entry (payload_in 0) × (a1.bytes.now ≡ self.entry.bytes.now)
              × (a1.pos ≡ self.entry.pos + 24) × (a1.len ≡ 0)
              × ShowsValueOf a1 self.entry (payload_in 1)
          | MessageListedShown a0 a1 ↦ (tag_of self.entry ≡ 2)
              × (a0.bytes.now ≡ self.entry.bytes.now) × (a0.pos ≡ self.entry.pos + 1) × (a0.len ≡ 0)
              × ShowsValueOf a0 self.entry (payload_in 0) × (a1.bytes.now ≡ self.entry.bytes.now)
              × (a1.pos ≡ self.entry.pos + 4) × (a1.len ≡ 0)
              × ShowsValueOf a1 self.entry (payload_in 1)
        ] }
    {
        match tag_of_view(self) {
            0 => ViewOfMessage::Nothing,
            1 => {
                let a0 = view_of_payload::<ArchivedMessage, ArchivedJson>(self, 1, 0, 8);
                let a1 = view_of_payload::<ArchivedMessage, ArchivedOption<ArchivedJson>>(
                    self, 1, 1, 24,
                );
                ViewOfMessage::Sent(a0, a1)
            }
            _ => ViewOfMessage::Listed {
                others: view_of_payload::<ArchivedMessage, u8>(self, 2, 0, 1),
                documents: view_of_payload::<ArchivedMessage, ArchivedVec<ArchivedJson>>(
                    self, 2, 1, 4,
                ),
            },
        }
    }
}

/// The fields of an archived `Message`, as seals. The caller must ensure that the tag is the variant's.
pub trait MessageSeal<'a> {
    // The seal shows a part of a buffer that was checked.
    ghost sealed: { Self → Type 0 };

    // The tag that it shows.
    ghost tag: { Self → ℕ };

    /// The field `0` of `Sent`.
    fn sent_0_mut(self) -> Seal<'a, ArchivedJson>
        requires come_to { sealed self }
        requires tag { tag self ≡ 1 };

    /// The field `1` of `Sent`.
    fn sent_1_mut(self) -> Seal<'a, ArchivedOption<ArchivedJson>>
        requires come_to { sealed self }
        requires tag { tag self ≡ 1 };

    /// How many.
    fn listed_others_mut(self) -> Seal<'a, u8>
        requires come_to { sealed self }
        requires tag { tag self ≡ 2 };

    /// The documents.
    fn listed_documents_mut(self) -> Seal<'a, ArchivedVec<ArchivedJson>>
        requires come_to { sealed self }
        requires tag { tag self ≡ 2 };
}

impl<'a> MessageSeal<'a> for Seal<'a, ArchivedMessage> {
    ghost sealed = { λ s. IsSealOf message_definitions (one ⟦<ArchivedMessage as Portable>⟧.shape)
        s };

    ghost tag = { λ s. seal_tag s };

    fn sent_0_mut(self) -> Seal<'a, ArchivedJson>
        requires come_to { IsSealOf message_definitions (one ⟦<ArchivedMessage as Portable>⟧.shape)
            self }
        requires tag { seal_tag self ≡ 1 }
        ensures { SealsPart message_definitions (one ⟦<ArchivedMessage as Portable>⟧.shape)
            ⟦<ArchivedJson as ArchivePointee>⟧.definitions
            ⟦<ArchivedJson as ArchivePointee>⟧.pointee (self.entry.pos + 8) 0 self.entry result }
    {
        seal_of_payload::<ArchivedMessage, ArchivedJson>(self, 1, 0, 8)
    }

    fn sent_1_mut(self) -> Seal<'a, ArchivedOption<ArchivedJson>>
        requires come_to { IsSealOf message_definitions (one ⟦<ArchivedMessage as Portable>⟧.shape)
            self }
        requires tag { seal_tag self ≡ 1 }
        ensures { SealsPart message_definitions (one ⟦<ArchivedMessage as Portable>⟧.shape)
            ⟦<ArchivedJson as ArchivePointee>⟧.definitions
            ⟦<ArchivedOption<ArchivedJson> as ArchivePointee>⟧.pointee (self.entry.pos + 24) 0
            self.entry result }
    {
        seal_of_payload::<ArchivedMessage, ArchivedOption<ArchivedJson>>(self, 1, 1, 24)
    }

    fn listed_others_mut(self) -> Seal<'a, u8>
        requires come_to { IsSealOf message_definitions (one ⟦<ArchivedMessage as Portable>⟧.shape)
            self }
        requires tag { seal_tag self ≡ 2 }
        ensures { SealsPart message_definitions (one ⟦<ArchivedMessage as Portable>⟧.shape)
            no_definition ⟦<u8 as ArchivePointee>⟧.pointee (self.entry.pos + 1) 0 self.entry
            result }
    {
        seal_of_payload::<ArchivedMessage, u8>(self, 2, 0, 1)
    }

    fn listed_documents_mut(self) -> Seal<'a, ArchivedVec<ArchivedJson>>
        requires come_to { IsSealOf message_definitions (one ⟦<ArchivedMessage as Portable>⟧.shape)
            self }
        requires tag { seal_tag self ≡ 2 }
        ensures { SealsPart message_definitions (one ⟦<ArchivedMessage as Portable>⟧.shape)
            ⟦<ArchivedJson as ArchivePointee>⟧.definitions
            ⟦<ArchivedVec<ArchivedJson> as ArchivePointee>⟧.pointee (self.entry.pos + 4) 0
            self.entry result }
    {
        seal_of_payload::<ArchivedMessage, ArchivedVec<ArchivedJson>>(self, 2, 1, 4)
    }
}
