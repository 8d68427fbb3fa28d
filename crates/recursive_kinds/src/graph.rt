//! A graph.

use crate::knot::Knot;
use archive_core::rc::Shared;

/// A graph.
#[derive(Debug, PartialEq, Drop)]
pub struct Graph {
    /// Its name.
    pub name: String,
    /// Its knots.
    pub nodes: Vec<Shared<Knot>>,
}

// Below this line all is written by tools/derive: change what is above it, and run it again.

ghost use Rattle.archive_core.specs.CallOutcomes.{ResolvesAs};
ghost use Rattle.archive_core.specs.Definitions.{both, no_definition};
ghost use Rattle.archive_core.specs.Fields.{field_in};
ghost use Rattle.archive_core.specs.Keyed.{each_keyed, nothing_keyed, part_keyed, record_keyed, text_keyed};
ghost use Rattle.archive_core.specs.PartsPlanned.{no_part_planned, part_planned, product_planned};
ghost use Rattle.archive_core.specs.Planned.{string_planned};
ghost use Rattle.archive_core.specs.PlannedOwners.{one_planned, slice_planned, vec_planned};
ghost use Rattle.archive_core.specs.SealOutcomes.{IsSealOf, SealsPart};
ghost use Rattle.archive_core.specs.Seen.{ShowsValueOf};
ghost use Rattle.archive_core.specs.Shape.{no_part, part};
ghost use Rattle.archive_core.specs.SharedSources.{rc_keyed, rc_one_planned};
ghost use Rattle.archive_core.specs.Value.{no_value, product, value};
ghost use Rattle.archive_core.specs.Writing.{ZeroedPlace};
ghost use Rattle.std.specs.Prelude.{None, [], length, refl, string_bytes, ◌++◌, ◌+◌, ◌≡◌};

use crate::knot::ArchivedKnot;
use archive_core::core_impls::ArchivedTuple;
use archive_core::error::Error;
use archive_core::own::{Field, FromParts, HasField};
use archive_core::parts::SourceParts;
use archive_core::place::Place;
use archive_core::rc::{ArchivedRc, RcFlavor};
use archive_core::record::{resolve_record, serialize_record};
use archive_core::seal::Seal;
use archive_core::ser::{ResolverAlloc, Writer, serialize_one};
use archive_core::sharing::Sharing;
use archive_core::string::ArchivedString;
use archive_core::traits::{
    Archive, ArchivePointee, ArchiveUnsized, CopyOptimization, Keys, Portable, PortableParts,
    Serialize, SerializeUnsized,
};
use archive_core::vec::ArchivedVec;
use archive_core::view::Ref;

/// An archived `Graph`: its fields one after another, as a tuple has them.
pub type ArchivedGraph = ArchivedTuple<
    (
        ArchivedString,
        (ArchivedVec<ArchivedRc<ArchivedKnot, RcFlavor>>, ()),
    ),
>;

impl HasField<0, String> for Graph {
    ghost field = { λ v. v.name };

    fn field(&self) -> &String {
        &self.name
    }
}

impl HasField<1, Vec<Shared<Knot>>> for Graph {
    ghost field = { λ v. v.nodes };

    fn field(&self) -> &Vec<Shared<Knot>> {
        &self.nodes
    }
}

// Its fields as sources.
type GraphFields = (Field<0, String>, (Field<1, Vec<Shared<Knot>>>, ()));

impl Archive for Graph {
    ghost use Rattle.recursive_kinds.specs.contracts.knot.KnotArchive.TheImpl.Laws.{keyed-law as keyed_of_knot, planned-law as planned_of_knot};

    type Archived = ArchivedTuple<
        (
            ArchivedString,
            (ArchivedVec<ArchivedRc<ArchivedKnot, RcFlavor>>, ()),
        ),
    >;

    type Resolver = <GraphFields as SourceParts<Self>>::Resolvers;

    ghost meaning = { λ v. product (⟦<GraphFields as SourceParts<Self>>⟧.meanings v) };

    ghost flat = { λ v r. product (⟦<GraphFields as SourceParts<Self>>⟧.flats v r) };

    ghost keys = { λ v. ⟦<GraphFields as SourceParts<Self>>⟧.keys v };

    ghost belongs = { λ v r. ⟦<GraphFields as SourceParts<Self>>⟧.belongs v r };

    ghost in_bulk = { None };

    ghost keyed = { λ v. record_keyed (part_keyed (text_keyed (string_bytes v.name))
        (part_keyed (each_keyed ⟦<Shared<Knot> as Archive>⟧.keys ⟦<Shared<Knot> as Archive>⟧.meaning
        (λ x. rc_keyed x.key ⟦<ArchivedKnot as ArchivePointee>⟧.pointee 0
        (⟦<Knot as Archive>⟧.meaning x.value.value) (⟦<Knot as Archive>⟧.keys x.value.value)
        (keyed_of_knot x.value.value)) v.nodes.items) nothing_keyed)) };

    ghost planned = { λ v. product_planned (both no_definition
        (both ⟦<ArchivedKnot as ArchivePointee>⟧.definitions no_definition))
        (part ⟦<ArchivedString as Portable>⟧.shape (part
        ⟦<ArchivedVec<ArchivedRc<ArchivedKnot, RcFlavor>> as Portable>⟧.shape no_part))
        (⟦<String as Archive>⟧.keys v.name ++ (⟦<Vec<Shared<Knot>> as Archive>⟧.keys v.nodes ++ []))
        (value (⟦<String as Archive>⟧.meaning v.name) (value
        (⟦<Vec<Shared<Knot>> as Archive>⟧.meaning v.nodes) no_value))
        (part_planned no_definition ⟦<ArchivedString as Portable>⟧.shape
        (⟦<String as Archive>⟧.keys v.name) (⟦<String as Archive>⟧.meaning v.name)
        (string_planned no_definition [] (string_bytes v.name))
        (part_planned ⟦<ArchivedKnot as ArchivePointee>⟧.definitions
        ⟦<ArchivedVec<ArchivedRc<ArchivedKnot, RcFlavor>> as Portable>⟧.shape
        (⟦<Vec<Shared<Knot>> as Archive>⟧.keys v.nodes)
        (⟦<Vec<Shared<Knot>> as Archive>⟧.meaning v.nodes)
        (vec_planned ⟦<ArchivedKnot as ArchivePointee>⟧.definitions
        ⟦<ArchivedRc<ArchivedKnot, RcFlavor> as Portable>⟧.shape _ _ _
        (slice_planned ⟦<ArchivedKnot as ArchivePointee>⟧.definitions
        ⟦<ArchivedRc<ArchivedKnot, RcFlavor> as Portable>⟧.shape ⟦<Shared<Knot> as Archive>⟧.keys
        ⟦<Shared<Knot> as Archive>⟧.meaning (λ x. rc_one_planned
        ⟦<ArchivedKnot as ArchivePointee>⟧.definitions x.key
        ⟦<ArchivedKnot as ArchivePointee>⟧.pointee ⟦<ArchivedKnot as Portable>⟧.shape refl
        (⟦<Knot as Archive>⟧.meaning x.value.value) (⟦<Knot as Archive>⟧.keys x.value.value)
        (planned_of_knot x.value.value)) v.nodes.items)) no_part_planned)) };

    #[inline(always)]
    fn resolve(
        &self,
        resolver: Self::Resolver,
        place: Place<'_, Self::Archived>,
    ) -> Result<(), Error>
        requires zeroed { ZeroedPlace ⟦<Self::Archived as Portable>⟧.layout.size place.pos
            place.bytes.now }
        requires same_value { ⟦<Self as Archive>⟧.belongs self.now resolver }
        ensures { ResolvesAs ⟦<Self::Archived as Portable>⟧ place
            (⟦<Self as Archive>⟧.flat self.now resolver) result }
    {
        let Place { bytes, pos, .. } = place;
        resolve_record::<Self, GraphFields, Self::Archived>(self, resolver, Place::new(pos, bytes))
    }

    #[inline(always)]
    fn copy_optimization() -> CopyOptimization<Self> {
        CopyOptimization::disable()
    }

    #[inline(always)]
    fn serialize_copied<S: Writer + Keys>(
        _values: &[Self],
        _together: usize,
        _serializer: &mut S,
    ) -> Result<Option<usize>, Error> {
        Ok(None)
    }
}

impl<S: Sharing + Writer + ResolverAlloc> Serialize<S> for Graph {
    #[inline(always)]
    fn serialize(&self, serializer: &mut S) -> Result<Self::Resolver, Error> {
        serialize_record::<Self, GraphFields, Self::Archived, S>(self, serializer)
    }
}

/// As a region of its own: the value itself.
impl ArchiveUnsized for Graph {
    ghost use Rattle.recursive_kinds.specs.contracts.knot.KnotArchive.TheImpl.Laws.{keyed-law as keyed_of_knot, planned-law as planned_of_knot};

    type Archived = ArchivedTuple<
        (
            ArchivedString,
            (ArchivedVec<ArchivedRc<ArchivedKnot, RcFlavor>>, ()),
        ),
    >;

    ghost source_length = { λ _. 0 };

    ghost meaning = { ⟦<Graph as Archive>⟧.meaning };

    ghost keys = { ⟦<Graph as Archive>⟧.keys };

    ghost keyed = { λ v. record_keyed (part_keyed (text_keyed (string_bytes v.name))
        (part_keyed (each_keyed ⟦<Shared<Knot> as Archive>⟧.keys ⟦<Shared<Knot> as Archive>⟧.meaning
        (λ x. rc_keyed x.key ⟦<ArchivedKnot as ArchivePointee>⟧.pointee 0
        (⟦<Knot as Archive>⟧.meaning x.value.value) (⟦<Knot as Archive>⟧.keys x.value.value)
        (keyed_of_knot x.value.value)) v.nodes.items) nothing_keyed)) };

    ghost one_length = { λ _ _. refl };

    ghost planned = { λ v. one_planned _ _ _ _ (product_planned
        (both no_definition (both ⟦<ArchivedKnot as ArchivePointee>⟧.definitions no_definition))
        (part ⟦<ArchivedString as Portable>⟧.shape (part
        ⟦<ArchivedVec<ArchivedRc<ArchivedKnot, RcFlavor>> as Portable>⟧.shape no_part))
        (⟦<String as Archive>⟧.keys v.name ++ (⟦<Vec<Shared<Knot>> as Archive>⟧.keys v.nodes ++ []))
        (value (⟦<String as Archive>⟧.meaning v.name) (value
        (⟦<Vec<Shared<Knot>> as Archive>⟧.meaning v.nodes) no_value))
        (part_planned no_definition ⟦<ArchivedString as Portable>⟧.shape
        (⟦<String as Archive>⟧.keys v.name) (⟦<String as Archive>⟧.meaning v.name)
        (string_planned no_definition [] (string_bytes v.name))
        (part_planned ⟦<ArchivedKnot as ArchivePointee>⟧.definitions
        ⟦<ArchivedVec<ArchivedRc<ArchivedKnot, RcFlavor>> as Portable>⟧.shape
        (⟦<Vec<Shared<Knot>> as Archive>⟧.keys v.nodes)
        (⟦<Vec<Shared<Knot>> as Archive>⟧.meaning v.nodes)
        (vec_planned ⟦<ArchivedKnot as ArchivePointee>⟧.definitions
        ⟦<ArchivedRc<ArchivedKnot, RcFlavor> as Portable>⟧.shape _ _ _
        (slice_planned ⟦<ArchivedKnot as ArchivePointee>⟧.definitions
        ⟦<ArchivedRc<ArchivedKnot, RcFlavor> as Portable>⟧.shape ⟦<Shared<Knot> as Archive>⟧.keys
        ⟦<Shared<Knot> as Archive>⟧.meaning (λ x. rc_one_planned
        ⟦<ArchivedKnot as ArchivePointee>⟧.definitions x.key
        ⟦<ArchivedKnot as ArchivePointee>⟧.pointee ⟦<ArchivedKnot as Portable>⟧.shape refl
        (⟦<Knot as Archive>⟧.meaning x.value.value) (⟦<Knot as Archive>⟧.keys x.value.value)
        (planned_of_knot x.value.value)) v.nodes.items)) no_part_planned))) };

    #[inline(always)]
    fn archived_metadata(&self) -> Result<(), Error> {
        Ok(())
    }
}

impl<S: Sharing + Writer + ResolverAlloc> SerializeUnsized<S> for Graph {
    #[inline(always)]
    fn serialize_unsized(&self, serializer: &mut S) -> Result<usize, Error> {
        serialize_one(self, serializer)
    }
}

impl FromParts for Graph {
    type Owned = (String, (Vec<Shared<Knot>>, ()));

    fn from_parts((a0, (a1, ())): Self::Owned) -> Self {
        Graph {
            name: a0,
            nodes: a1,
        }
    }
}

/// The fields of an archived `Graph`, as views.
pub trait GraphView {
    /// The view of `name`.
    type Name;

    /// The view of `nodes`.
    type Nodes;

    /// Its name.
    fn name(self) -> Self::Name;

    /// Its knots.
    fn nodes(self) -> Self::Nodes;
}

impl<'a> GraphView for Ref<'a, ArchivedGraph> {
    type Name = Ref<'a, ArchivedString>;

    type Nodes = Ref<'a, ArchivedVec<ArchivedRc<ArchivedKnot, RcFlavor>>>;

    fn name(self) -> Ref<'a, ArchivedString>
        ensures buffer { result.bytes.now ≡ self.entry.bytes.now }
        ensures position { result.pos ≡ self.entry.pos
            + ⟦<(ArchivedString, (ArchivedVec<ArchivedRc<ArchivedKnot, RcFlavor>>, ())) as PortableParts>⟧.begin 0 0 }
        ensures length { result.len ≡ 0 }
        ensures shows { ShowsValueOf result self.entry (field_in 0) }
    {
        self.field(0)
    }

    fn nodes(self) -> Ref<'a, ArchivedVec<ArchivedRc<ArchivedKnot, RcFlavor>>>
        ensures buffer { result.bytes.now ≡ self.entry.bytes.now }
        ensures position { result.pos ≡ self.entry.pos
            + ⟦<(ArchivedString, (ArchivedVec<ArchivedRc<ArchivedKnot, RcFlavor>>, ())) as PortableParts>⟧.begin 0 1 }
        ensures length { result.len ≡ 0 }
        ensures shows { ShowsValueOf result self.entry (field_in 1) }
    {
        self.field(1)
    }
}

/// The fields of an archived `Graph`, as seals.
pub trait GraphSeal {
    // The seal shows a part of a buffer that was checked.
    ghost sealed: { Self → Type 0 };

    /// The seal of `name`.
    type Name;

    /// The seal of `nodes`.
    type Nodes;

    /// Its name.
    fn name_mut(self) -> Self::Name
        requires { sealed self };

    /// Its knots.
    fn nodes_mut(self) -> Self::Nodes
        requires { sealed self };
}

impl<'a> GraphSeal for Seal<'a, ArchivedGraph> {
    ghost sealed = { λ s. IsSealOf ⟦<ArchivedGraph as ArchivePointee>⟧.definitions
        ⟦<ArchivedGraph as ArchivePointee>⟧.pointee s };

    type Name = Seal<'a, ArchivedString>;

    type Nodes = Seal<'a, ArchivedVec<ArchivedRc<ArchivedKnot, RcFlavor>>>;

    fn name_mut(self) -> Seal<'a, ArchivedString>
        requires come_to { IsSealOf ⟦<ArchivedGraph as ArchivePointee>⟧.definitions
            ⟦<ArchivedGraph as ArchivePointee>⟧.pointee self }
        ensures { SealsPart ⟦<ArchivedGraph as ArchivePointee>⟧.definitions
            ⟦<ArchivedGraph as ArchivePointee>⟧.pointee
            ⟦<ArchivedString as ArchivePointee>⟧.definitions
            ⟦<ArchivedString as ArchivePointee>⟧.pointee (self.entry.pos
            + ⟦<(ArchivedString, (ArchivedVec<ArchivedRc<ArchivedKnot, RcFlavor>>, ())) as PortableParts>⟧.begin 0 0) 0 self.entry result }
    {
        self.field(0)
    }

    fn nodes_mut(self) -> Seal<'a, ArchivedVec<ArchivedRc<ArchivedKnot, RcFlavor>>>
        requires come_to { IsSealOf ⟦<ArchivedGraph as ArchivePointee>⟧.definitions
            ⟦<ArchivedGraph as ArchivePointee>⟧.pointee self }
        ensures { SealsPart ⟦<ArchivedGraph as ArchivePointee>⟧.definitions
            ⟦<ArchivedGraph as ArchivePointee>⟧.pointee
            ⟦<ArchivedVec<ArchivedRc<ArchivedKnot, RcFlavor>> as ArchivePointee>⟧.definitions
            ⟦<ArchivedVec<ArchivedRc<ArchivedKnot, RcFlavor>> as ArchivePointee>⟧.pointee
            (self.entry.pos
            + ⟦<(ArchivedString, (ArchivedVec<ArchivedRc<ArchivedKnot, RcFlavor>>, ())) as PortableParts>⟧.begin 0 1) 0 self.entry result }
    {
        self.field(1)
    }
}
