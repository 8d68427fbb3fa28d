//! A struct with type parameters.

/// Two values.
#[derive(Debug, PartialEq, Drop)]
pub struct Pair<A, B> {
    /// The first one.
    pub left: A,
    /// The second one.
    pub right: B,
}

// Below this line all is written by tools/derive: change what is above it, and run it again.

ghost use Rattle.archive_core.specs.CallOutcomes.{ResolvesAs};
ghost use Rattle.archive_core.specs.Definitions.{both, no_definition};
ghost use Rattle.archive_core.specs.Fields.{field_in};
ghost use Rattle.archive_core.specs.Keyed.{nothing_keyed, part_keyed, record_keyed};
ghost use Rattle.archive_core.specs.PartsPlanned.{no_part_planned, part_planned, product_planned};
ghost use Rattle.archive_core.specs.PlannedOwners.{one_planned};
ghost use Rattle.archive_core.specs.SealOutcomes.{IsSealOf, SealsPart};
ghost use Rattle.archive_core.specs.Seen.{ShowsValueOf};
ghost use Rattle.archive_core.specs.Shape.{no_part, part};
ghost use Rattle.archive_core.specs.Value.{no_value, product, value};
ghost use Rattle.archive_core.specs.Writing.{ZeroedPlace};
ghost use Rattle.std.specs.Prelude.{None, [], length, refl, ◌++◌, ◌+◌, ◌≡◌};

use archive_core::core_impls::ArchivedTuple;
use archive_core::error::Error;
use archive_core::own::{Field, FromParts, HasField};
use archive_core::parts::SourceParts;
use archive_core::place::Place;
use archive_core::record::{resolve_record, serialize_record};
use archive_core::seal::Seal;
use archive_core::ser::{ResolverAlloc, Writer, serialize_one};
use archive_core::traits::{
    Archive, ArchivePointee, ArchiveUnsized, CopyOptimization, Keys, Portable, PortableParts,
    Serialize, SerializeUnsized,
};
use archive_core::view::Ref;

/// An archived `Pair`: its fields one after another, as a tuple has them.
pub type ArchivedPair<A, B> = ArchivedTuple<(A, (B, ()))>;

impl<A, B> HasField<0, A> for Pair<A, B> {
    ghost field = { λ v. v.left };

    fn field(&self) -> &A {
        &self.left
    }
}

impl<A, B> HasField<1, B> for Pair<A, B> {
    ghost field = { λ v. v.right };

    fn field(&self) -> &B {
        &self.right
    }
}

// Its fields as sources.
type PairFields<A, B> = (Field<0, A>, (Field<1, B>, ()));

impl<A: Archive, B: Archive> Archive for Pair<A, B> {
    type Archived = ArchivedTuple<(<A as Archive>::Archived, (<B as Archive>::Archived, ()))>;

    type Resolver = <PairFields<A, B> as SourceParts<Self>>::Resolvers;

    ghost meaning = { λ v. product (⟦<PairFields<A, B> as SourceParts<Self>>⟧.meanings v) };

    ghost flat = { λ v r. product (⟦<PairFields<A, B> as SourceParts<Self>>⟧.flats v r) };

    ghost keys = { λ v. ⟦<PairFields<A, B> as SourceParts<Self>>⟧.keys v };

    ghost belongs = { λ v r. ⟦<PairFields<A, B> as SourceParts<Self>>⟧.belongs v r };

    ghost in_bulk = { None };

    ghost keyed = { λ v. record_keyed (part_keyed (A.keyed v.left)
        (part_keyed (B.keyed v.right) nothing_keyed)) };

    ghost planned = { λ v. product_planned (both A.Archived.definitions
        (both B.Archived.definitions no_definition)) (part A.Archived.shape
        (part B.Archived.shape no_part)) (A.keys v.left ++ (B.keys v.right ++ []))
        (value (A.meaning v.left) (value (B.meaning v.right) no_value))
        (part_planned A.Archived.definitions A.Archived.shape (A.keys v.left) (A.meaning v.left)
        (A.planned v.left) (part_planned B.Archived.definitions B.Archived.shape (B.keys v.right)
        (B.meaning v.right) (B.planned v.right) no_part_planned)) };

    #[inline(always)]
    fn resolve(
        &self,
        resolver: Self::Resolver,
        place: Place<'_, Self::Archived>,
    ) -> Result<(), Error>
        requires zeroed { ZeroedPlace ⟦<Self::Archived as Portable>⟧.layout.size place.pos
            place.bytes.now }
        requires same_value { ⟦<Self as Archive>⟧.belongs self.now resolver }
        ensures { ResolvesAs ⟦<Self::Archived as Portable>⟧ place
            (⟦<Self as Archive>⟧.flat self.now resolver) result }
    {
        let Place { bytes, pos, .. } = place;
        resolve_record::<Self, PairFields<A, B>, Self::Archived>(
            self,
            resolver,
            Place::new(pos, bytes),
        )
    }

    #[inline(always)]
    fn copy_optimization() -> CopyOptimization<Self> {
        CopyOptimization::disable()
    }

    #[inline(always)]
    fn serialize_copied<S: Writer + Keys>(
        _values: &[Self],
        _together: usize,
        _serializer: &mut S,
    ) -> Result<Option<usize>, Error> {
        Ok(None)
    }
}

impl<A: Serialize<S>, B: Serialize<S>, S: Writer + ResolverAlloc> Serialize<S> for Pair<A, B> {
    #[inline(always)]
    fn serialize(&self, serializer: &mut S) -> Result<Self::Resolver, Error> {
        serialize_record::<Self, PairFields<A, B>, Self::Archived, S>(self, serializer)
    }
}

/// As a region of its own: the value itself.
impl<A: Archive, B: Archive> ArchiveUnsized for Pair<A, B> {
    type Archived = ArchivedTuple<(<A as Archive>::Archived, (<B as Archive>::Archived, ()))>;

    ghost source_length = { λ _. 0 };

    ghost meaning = { ⟦<Pair<A, B> as Archive>⟧.meaning };

    ghost keys = { ⟦<Pair<A, B> as Archive>⟧.keys };

    ghost keyed = { λ v. record_keyed (part_keyed (A.keyed v.left)
        (part_keyed (B.keyed v.right) nothing_keyed)) };

    ghost one_length = { λ _ _. refl };

    ghost planned = { λ v. one_planned _ _ _ _ (product_planned
        (both A.Archived.definitions (both B.Archived.definitions no_definition))
        (part A.Archived.shape (part B.Archived.shape no_part))
        (A.keys v.left ++ (B.keys v.right ++ [])) (value (A.meaning v.left)
        (value (B.meaning v.right) no_value)) (part_planned A.Archived.definitions A.Archived.shape
        (A.keys v.left) (A.meaning v.left) (A.planned v.left)
        (part_planned B.Archived.definitions B.Archived.shape (B.keys v.right) (B.meaning v.right)
        (B.planned v.right) no_part_planned))) };

    #[inline(always)]
    fn archived_metadata(&self) -> Result<(), Error> {
        Ok(())
    }
}

impl<A: Serialize<S>, B: Serialize<S>, S: Writer + ResolverAlloc> SerializeUnsized<S>
    for Pair<A, B> {
    #[inline(always)]
    fn serialize_unsized(&self, serializer: &mut S) -> Result<usize, Error> {
        serialize_one(self, serializer)
    }
}

impl<A: Archive, B: Archive> FromParts for Pair<A, B> {
    type Owned = (A, (B, ()));

    fn from_parts((a0, (a1, ())): Self::Owned) -> Self {
        Pair {
            left: a0,
            right: a1,
        }
    }
}

/// The fields of an archived `Pair`, as views.
pub trait PairView {
    /// The view of `left`.
    type Left;

    /// The view of `right`.
    type Right;

    /// The first one.
    fn left(self) -> Self::Left;

    /// The second one.
    fn right(self) -> Self::Right;
}

impl<'a, A: Portable, B: Portable> PairView for Ref<'a, ArchivedPair<A, B>> {
    type Left = Ref<'a, A>;

    type Right = Ref<'a, B>;

    fn left(self) -> Ref<'a, A>
        ensures buffer { result.bytes.now ≡ self.entry.bytes.now }
        ensures position { result.pos ≡ self.entry.pos + ⟦<(A, (B, ())) as PortableParts>⟧.begin 0
            0 }
        ensures length { result.len ≡ 0 }
        ensures shows { ShowsValueOf result self.entry (field_in 0) }
    {
        self.field(0)
    }

    fn right(self) -> Ref<'a, B>
        ensures buffer { result.bytes.now ≡ self.entry.bytes.now }
        ensures position { result.pos ≡ self.entry.pos + ⟦<(A, (B, ())) as PortableParts>⟧.begin 0
            1 }
        ensures length { result.len ≡ 0 }
        ensures shows { ShowsValueOf result self.entry (field_in 1) }
    {
        self.field(1)
    }
}

/// The fields of an archived `Pair`, as seals.
pub trait PairSeal {
    // The seal shows a part of a buffer that was checked.
    ghost sealed: { Self → Type 0 };

    /// The seal of `left`.
    type Left;

    /// The seal of `right`.
    type Right;

    /// The first one.
    fn left_mut(self) -> Self::Left
        requires { sealed self };

    /// The second one.
    fn right_mut(self) -> Self::Right
        requires { sealed self };
}

impl<'a, A: Portable, B: Portable> PairSeal for Seal<'a, ArchivedPair<A, B>> {
    ghost sealed = { λ s. IsSealOf ⟦<ArchivedPair<A, B> as ArchivePointee>⟧.definitions
        ⟦<ArchivedPair<A, B> as ArchivePointee>⟧.pointee s };

    type Left = Seal<'a, A>;

    type Right = Seal<'a, B>;

    fn left_mut(self) -> Seal<'a, A>
        requires come_to { IsSealOf ⟦<ArchivedPair<A, B> as ArchivePointee>⟧.definitions
            ⟦<ArchivedPair<A, B> as ArchivePointee>⟧.pointee self }
        ensures { SealsPart ⟦<ArchivedPair<A, B> as ArchivePointee>⟧.definitions
            ⟦<ArchivedPair<A, B> as ArchivePointee>⟧.pointee ⟦<A as ArchivePointee>⟧.definitions
            ⟦<A as ArchivePointee>⟧.pointee (self.entry.pos
            + ⟦<(A, (B, ())) as PortableParts>⟧.begin 0 0) 0 self.entry result }
    {
        self.field(0)
    }

    fn right_mut(self) -> Seal<'a, B>
        requires come_to { IsSealOf ⟦<ArchivedPair<A, B> as ArchivePointee>⟧.definitions
            ⟦<ArchivedPair<A, B> as ArchivePointee>⟧.pointee self }
        ensures { SealsPart ⟦<ArchivedPair<A, B> as ArchivePointee>⟧.definitions
            ⟦<ArchivedPair<A, B> as ArchivePointee>⟧.pointee ⟦<B as ArchivePointee>⟧.definitions
            ⟦<B as ArchivePointee>⟧.pointee (self.entry.pos
            + ⟦<(A, (B, ())) as PortableParts>⟧.begin 0 1) 0 self.entry result }
    {
        self.field(1)
    }
}
