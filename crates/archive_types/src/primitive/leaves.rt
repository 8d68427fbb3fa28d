// One implementation archives all leaves.

ghost use Rattle.std.specs.Prelude.{◌≡◌, ⊤, ℕ, ℤ, List, [], length, refl, IfOk, OnOk, IfErr, IsOk, Some};
ghost use Rattle.std.proofs.Common.{sym, ◌∙◌};
ghost use Rattle.archive_check.specs.Definitions.{Definitions};
ghost use Rattle.archive_check.specs.Layout.{kind_size};
ghost use Rattle.archive_check.specs.Shape.{Kind, leaf, non_zero};
ghost use Rattle.archive_check.specs.Value.{number};
ghost use Rattle.archive_types.specs.Members.Keyed.{number_keyed};
ghost use Rattle.archive_types.specs.Members.Planned.{leaf_planned};
ghost use Rattle.archive_types.specs.Members.PlannedOwners.{pointee_planned};
ghost use Rattle.archive_types.specs.Writing.{ZeroedPlace, Resolves};
ghost use Rattle.archive_write.specs.Written.{GoesOn};
ghost use Rattle.archive_types.specs.Outcomes.{ResolvesAs};
ghost use Rattle.archive_types.specs.SourceOutcomes.{Serializes};

use super::{Source, write_leaf};
use crate::place::Place;
use crate::ser::serialize_one;
use crate::slice::copy_groups;
use crate::traits::{
    Archive, ArchivePointee, ArchiveUnsized, ArchivedMetadata, Copied, CopiedSource,
    CopyOptimization, Keys, Portable, Serialize, SerializeUnsized,
};
use archive_check::format::error::Error;
use archive_nonzero::NonZero;
use archive_num::{Integer, LittleEndian, Native};
use archive_write::ser::{ResolverAlloc, Writer};

/// A value that is archived as one leaf: a native number, a bool, a char or `()`, an archived
/// number, or one that isn't 0. So one implementation archives all of them.
pub trait Leaf {
    /// Its archived type.
    type LeafFormat: Portable;

    // The leaf that it is archived as.
    ghost leaf_kind: { Kind };

    // The whole number that a value is in an archive.
    ghost leaf_number: { Self → ℤ };

    // The bytes that stand for a value.
    ghost leaf_bytes: { Self → List ℕ };

    /// What is in a pointer to it beside the offset: nothing.
    fn leaf_metadata() -> <Self::LeafFormat as ArchivePointee>::ArchivedMetadata
        ensures { Self.LeafFormat.metadata_length result ≡ 0 };

    /// Writes the bytes of the value over `out`, the lowest first. The caller must ensure that
    /// `out` has the leaf's size. Wherever the bytes lie, they read as the value.
    fn write_bytes(&self, out: &mut [u8])
        requires { length out.old ≡ kind_size leaf_kind }
        ensures bytes { out.new ≡ leaf_bytes self.now }
        ensures sized { length out.new ≡ kind_size leaf_kind }
        ensures resolved { (D : Definitions) (p : ℕ) → Resolves D p out.new (leaf leaf_kind)
            (number (leaf_number self.now)) };

    // The format has the size of the leaf.
    ghost leaf_size: { Self.LeafFormat.layout.size ≡ kind_size leaf_kind };

    // And it is that leaf.
    ghost leaf_shape: { Self.LeafFormat.shape ≡ leaf leaf_kind };
}

impl<N: Source> Leaf for N {
    type LeafFormat = N::Format;

    ghost leaf_kind = { N.kind };

    ghost leaf_number = { N.value_of };

    ghost leaf_bytes = { N.bytes_of };

    fn leaf_metadata() -> <N::Format as ArchivePointee>::ArchivedMetadata {
        N::metadata()
    }

    #[inline(always)]
    fn write_bytes(&self, out: &mut [u8]) {
        write_leaf(*self, out);
    }

    ghost leaf_size = { N.same_size ∙ sym N.size_law };

    ghost leaf_shape = { N.same_shape };
}

impl<N: Native> Leaf for LittleEndian<N> {
    type LeafFormat = LittleEndian<N>;

    ghost leaf_kind = { N.kind };

    ghost leaf_number = { λ n. N.value_of n };

    ghost leaf_bytes = { λ n. N.bytes_of n };

    fn leaf_metadata() {}

    #[inline(always)]
    fn write_bytes(&self, out: &mut [u8]) {
        write_leaf(self.to_native(), out);
    }

    ghost leaf_size = { refl };

    ghost leaf_shape = { refl };
}

impl<N: Integer> Leaf for NonZero<N> {
    type LeafFormat = NonZero<N>;

    ghost leaf_kind = { non_zero N.sign N.width };

    ghost leaf_number = { λ n. N.value_of n };

    ghost leaf_bytes = { λ n. N.bytes_of n };

    fn leaf_metadata() {}

    #[inline(always)]
    fn write_bytes(&self, out: &mut [u8]) {
        let number = self.to_native();
        write_leaf(number, out);
    }

    ghost leaf_size = { refl };

    ghost leaf_shape = { refl };
}

impl<L: Leaf> Archive for L {
    type Archived = L::LeafFormat;

    type Resolver = ();

    ghost meaning = { λ n. number (L.leaf_number n) };

    ghost flat = { λ n _. number (L.leaf_number n) };

    ghost keys = { λ n. [] };

    ghost belongs = { λ _ _. ⊤ };

    ghost in_bulk = { Some L.leaf_bytes };

    ghost keyed = { λ n. number_keyed (L.leaf_number n) };

    ghost planned = { λ n. leaf_planned L.LeafFormat.definitions L.LeafFormat.shape L.leaf_kind []
        (L.leaf_number n) L.leaf_shape };

    #[inline(always)]
    fn resolve(&self, _resolver: (), place: Place<'_, L::LeafFormat>) -> Result<(), Error>
        requires zeroed { ZeroedPlace (L.LeafFormat.layout.size) place.pos place.bytes.now }
        requires same_value { ⊤ }
        ensures outcome { ResolvesAs ⟦<Self::Archived as Portable>⟧ place
            (⟦<Self as Archive>⟧.flat self.now _resolver) result }
        ensures written { place.exit.0.now ≡ L.leaf_bytes self.now }
        ensures succeeds { IsOk result }
    {
        let Place { bytes, .. } = place;
        self.write_bytes(bytes);
        Ok(())
    }

    #[inline(always)]
    fn copy_optimization() -> CopyOptimization<L> {
        CopyOptimization::enable()
    }

    #[inline(always)]
    fn serialize_copied<S: Writer + Keys>(
        values: &[L],
        together: usize,
        serializer: &mut S,
    ) -> Result<Option<usize>, Error> {
        copy_groups(values, together, serializer)
    }
}

impl<L: Leaf, S: Writer + Keys> Serialize<S> for L {
    #[tactic(auto, using(crate::proofs::Planning::Causes::goes_nowhere))]
    #[inline(always)]
    fn serialize(&self, _serializer: &mut S) -> Result<(), Error>
        ensures outcome { Serializes ⟦<Self as Archive>⟧ ⟦<Self::Archived as Portable>⟧ self.now
            S.Keys _serializer result }
        ensures unchanged { S.state _serializer.new ≡ S.state _serializer.old }
        ensures succeeds { IsOk result }
    {
        Ok(())
    }
}

/// As a region of its own.
impl<L: Leaf> ArchiveUnsized for L {
    type Archived = L::LeafFormat;

    ghost source_length = { λ _. 0 };

    ghost meaning = { λ n. number (L.leaf_number n) };

    ghost keys = { λ _. [] };

    ghost keyed = { λ n. number_keyed (L.leaf_number n) };

    ghost one_length = { λ _ _. refl };

    ghost planned = { λ n. pointee_planned L.LeafFormat.definitions L.LeafFormat.pointee
        L.LeafFormat.shape L.LeafFormat.is_one [] (number (L.leaf_number n))
        (leaf_planned L.LeafFormat.definitions L.LeafFormat.shape L.leaf_kind [] (L.leaf_number n)
        L.leaf_shape) };

    #[inline(always)]
    fn archived_metadata(&self) -> Result<ArchivedMetadata<L>, Error> {
        Ok(L::leaf_metadata())
    }
}

impl<L: Leaf, S: Writer + ResolverAlloc> SerializeUnsized<S> for L {
    #[tactic(auto, using(crate::proofs::Planning::Owners::serialized_pointee, crate::proofs::Planning::Owners::pointee_refused))]
    #[inline(always)]
    fn serialize_unsized(&self, serializer: &mut S) -> Result<usize, Error> {
        serialize_one(self, serializer)
    }
}

/// Slices of leaves are written in bulk.
impl<L: Leaf> Copied for L {
    type CopiedAs = L::LeafFormat;

    ghost copied_keys = { λ _. [] };

    ghost copied_meaning = { λ n. number (L.leaf_number n) };

    ghost copied_bytes = { L.leaf_bytes };

    #[inline(always)]
    fn copied_size() -> usize {
        L::LeafFormat::size()
    }

    #[inline(always)]
    fn copy_one(&self, bytes: &mut [u8]) {
        self.write_bytes(bytes);
    }
}

impl<L: Leaf> CopiedSource for L {
    ghost same_keys = { refl };

    ghost same_meaning = { refl };
}
