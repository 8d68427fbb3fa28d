//! What is archived and how, and what is read back. The traits are those of rkyv 0.8.18, with laws.

ghost use Rattle.archive_check.specs.Denotes.{Naming};
ghost use Rattle.std.specs.Prelude.{◌≡◌, ◌<◌, ◌≤◌, ◌↔◌, ℕ, length, Option, IfOk, OnOk, IfErr, IfSome, IsErr, IsSome, IsTrue, List, [], None, false};
ghost use Rattle.std.specs.Vec.{vec_len, vec_capacity};
ghost use Rattle.archive_check.specs.Entries.{ReadsBack, RefusesReading};
ghost use Rattle.archive_check.specs.Layout.{has_length};
ghost use Rattle.archive_check.specs.Shape.{run};
ghost use Rattle.archive_check.specs.Value.{Value, list};
ghost use Rattle.archive_check.specs.Viewed.{Viewed};
ghost use Rattle.archive_check.specs.declared.format.error.Error.TheVariants.{LengthTooLarge};
ghost use Rattle.archive_types.specs.Words.BulkCopies.{CopiesInBulk};
ghost use Rattle.archive_types.specs.Words.Seen.{IsPartOf};
ghost use Rattle.archive_types.specs.Causes.{HindersAt, IsRefused, IsRegionRefused};
ghost use Rattle.archive_types.specs.Plans.{HasPlan, HasRegionPlan, Serialized, SerializedRegion};
ghost use Rattle.archive_types.specs.Runs.{each_keys, each_meaning};
ghost use Rattle.archive_types.specs.Writing.{IsKeyed, ZeroedPlace, Resolves};
ghost use Rattle.archive_write.specs.Written.{GoesOn};
ghost use Rattle.archive_types.specs.Outcomes.{ResolvesAs, CopiesElements};

use crate::place::Place;
use crate::view::{RawView, Ref};
use archive_check::format::error::Error;
pub use archive_check::format::traits::{
    ArchivePointee, Choice, Entries, FourParts, Keys, LayoutRaw, MapKey, Portable, PortableParts,
    PortablePointee, PortableVariants, Record, align_of_choice, expr_of_choice, expr_of_record,
    layout_of_run, size_of_choice, size_of_record,
};
use archive_write::ser::Writer;
use std::alloc::Global;

mod copying;
mod one_value;

pub use copying::{Copied, CopiedSource, CopyOptimization};

/// The archived type of a source.
pub type Archived<T> = <T as Archive>::Archived;

/// What a pointer to an archived source has beside its offset.
pub type ArchivedMetadata<T> =
    <<T as ArchiveUnsized>::Archived as ArchivePointee>::ArchivedMetadata;

/// A type whose values can be archived.
///
/// Numbers, strings, options, results, boxes, vectors, arrays, tuples and shared values implement
/// it; for structs and enums `tools/derive` writes it. A value is written in two steps: `Serialize`
/// writes what it owns, and `resolve` its own bytes. As in rkyv 0.8.18, whose `resolve` panics
/// instead of failing.
///
/// ```
/// let value = String::from_str(alloc, "hello world")?;
/// let bytes = to_bytes(alloc, &value)?;
/// let view = access::<Archived<String>>(alloc, bytes.as_slice())?;
/// ```
pub trait Archive {
    /// The archived type.
    type Archived: Portable;

    /// What is kept of a value between `serialize` and `resolve`, such as the positions of what it
    /// owns.
    type Resolver: Drop;

    // What a value means, its shared values named by their keys.
    ghost meaning: { Self → Value };

    // What is read in its place: its meaning, with a hole for each pointer. The resolver says where these lead.
    ghost flat: { Self → Self.Resolver → Value };

    // The keys that it holds, with what each names.
    ghost keys: { Self → List Naming };

    // The resolver is one of this value.
    ghost belongs: { Self → Self.Resolver → Type 0 };

    // Where slices of such values are written in bulk: the bytes of each value. Most are not.
    ghost in_bulk: { Option (Self → List ℕ) };

    /// Writes the value's own bytes over `place`. The caller must ensure that these are zeros, of
    /// the archived type's size, that their end fits `usize`, and that `resolver` is one of this
    /// value.
    ///
    /// Errors:
    /// - `IsizeOverflow`, `OffsetOverflow`: an offset doesn't fit.
    /// - those of the value's parts.
    fn resolve(
        &self,
        resolver: Self::Resolver,
        place: Place<'_, Self::Archived>,
    ) -> Result<(), Error>
        requires zeroed { ZeroedPlace Self.Archived.layout.size place.pos place.bytes.now }
        requires same_value { belongs self.now resolver }
        ensures { ResolvesAs Self.Archived.Portable place (flat self.now resolver) result };

    /// Whether slices of such values are written in bulk, by `serialize_copied`. As in rkyv 0.8.18,
    /// where it is a constant.
    fn copy_optimization() -> CopyOptimization<Self>
        ensures { IsTrue result.is_enabled ↔ IsSome in_bulk };

    /// Writes `values` in bulk as a region, and returns its position in bytes, or `None` if it
    /// wrote nothing. `together` of them are always in one piece. A `Copied` type implements it by
    /// `slice::copy_groups`, others return `None`. Fails as `copy_slice` does.
    fn serialize_copied<S: Writer + Keys>(
        values: &[Self],
        together: usize,
        serializer: &mut S,
    ) -> Result<Option<usize>, Error>
        ensures outcome { CopiesElements keys meaning Self.Archived.Portable values.now S.Keys
            serializer result }
        ensures exact { CopiesInBulk in_bulk together Self.Archived.layout values.now S.Keys
            serializer S.takes_memory result };

    // Its keys are those that its meaning leads to.
    ghost keyed: { (v : Self) → IsKeyed (keys v) (meaning v) };

    // There is a plan of what it owns.
    ghost planned: { (v : Self) → HasPlan Self.Archived.definitions Self.Archived.shape (keys v)
        (meaning v) };
}

/// A source that can be written by a serializer `S`: a writer with what the value needs besides,
/// memory for resolvers (`ResolverAlloc`) or shared keys (`Sharing`).
///
/// Each `Archive` type implements it. Callers use `api::to_bytes`, or a serializer of their own:
///
/// ```
/// let mut serializer = Serializer::new(Vec::new(alloc), alloc, Share::new(alloc));
/// let root = serialize_one(&value, &mut serializer)?;
/// let bytes = serializer.into_writer();
/// ```
///
/// As in rkyv 0.8.18.
pub trait Serialize<S: Writer + Keys>: Archive {
    ghost use Rattle.archive_types.specs.SourceOutcomes.{Serializes};

    /// Writes what the value owns, region by region, and returns what `resolve` needs. Existing
    /// bytes and the states of known keys stay, after a failure too.
    ///
    /// Errors, never `NotStarted` or `AlreadyFinished`:
    /// - `OutOfMemory`: memory is refused.
    /// - `BufferOverflow`, `WriterFailed`: the writer's.
    /// - an error caused by the value, such as `LengthTooLarge` or `CyclicSerialize`.
    fn serialize(&self, serializer: &mut S) -> Result<Self::Resolver, Error>
        ensures { Serializes Self.Archive Self.Archived.Portable self.now S.Keys serializer
            result };
}

/// An archived type whose views can be read back as a `T`. `D` keeps the shared values: `()` if
/// there are none, else a `Pool`.
///
/// The archived type of each source implements it; for structs and enums `tools/derive` writes it.
/// Callers use `api::from_bytes` or `deserialize`, implementors write `deserialize_part`.
///
/// ```
/// let view = access::<ArchivedVec<ArchivedU32>>(alloc, bytes.as_slice())?;
/// let numbers: Vec<u32> = api::deserialize(alloc, view, &mut ())?;
/// ```
///
/// As in rkyv 0.8.18, by views in place of references.
pub trait Deserialize<T: Archive, D: Entries>: ArchivePointee {
    ghost use Rattle.archive_types.specs.FirstRead.{AreFirstRead};
    ghost use Rattle.archive_types.specs.Words.ReadBack.{ReadsAs, ViewReadsAs};
    ghost use Rattle.archive_types.specs.Views.{AreViewed};

    /// What implementors write, over the part of a view; callers use `deserialize`. The caller must
    /// ensure what a view promises of the part.
    fn deserialize_part(alloc: Global, part: RawView<'_>, deserializer: &mut D) -> Result<T, Error>
        requires { IsPartOf Self.ArchivePointee part }
        ensures { ReadsAs Self.ArchivePointee part D.Entries deserializer T.Archive result };

    /// Reads the first of `count` values, which lie `step` bytes apart from the position `pos` on,
    /// into `items`: those that can be read in bulk, by default none. `deserialize_part` reads the
    /// others. The caller must ensure what a view promises of each, and that `items` is empty with
    /// room for all.
    #[inline(always)]
    fn deserialize_first(
        _alloc: Global,
        _bytes: &[u8],
        _pos: usize,
        _step: usize,
        _count: usize,
        _items: &mut Vec<T>,
    )
        requires viewed { AreViewed Self.definitions _bytes.now _pos _step Self.pointee _count }
        requires nothing { _items.old.items ≡ [] }
        requires room { _count ≤ vec_capacity _items.old }
        ensures few { vec_len _items.new ≤ _count }
        ensures room { _count ≤ vec_capacity _items.new }
        ensures read { AreFirstRead Self.definitions _bytes.now _pos _step Self.pointee T.meaning
            T.keys _items.new.items }
    {}

    /// The value that the view shows, its shared values named by their positions. What
    /// `deserializer` has kept stays.
    ///
    /// Errors:
    /// - `OutOfMemory`: memory from `alloc` is refused.
    /// - `CyclicDeserialize`: only if a shared position is met that is still being read.
    #[inline(always)]
    final fn deserialize(
        alloc: Global,
        view: Ref<'_, Self>,
        deserializer: &mut D,
    ) -> Result<T, Error>
        ensures { ViewReadsAs view.entry D.Entries deserializer T.Archive result }
    {
        Self::deserialize_part(alloc, view.part(), deserializer)
    }
}

/// A source that lies in a region of its own: a value, a slice or a text. As in rkyv 0.8.18.
pub trait ArchiveUnsized {
    /// The archived type.
    type Archived: ArchivePointee;

    // Its length: 0 for one value, else the number of elements or bytes.
    ghost source_length: { Self → ℕ };

    // What it means, its shared values named by their keys.
    ghost meaning: { Self → Value };

    // The keys that it holds, with what each names.
    ghost keys: { Self → List Naming };

    /// What a pointer to it has beside the offset. Fails with `LengthTooLarge` exactly if the
    /// length is above 4,294,967,295, where rkyv 0.8.18 truncates it.
    fn archived_metadata(&self) -> Result<ArchivedMetadata<Self>, Error>
        ensures value { IfOk result (λ m. Self.Archived.metadata_length m
            ≡ source_length self.now) }
        ensures refused { IfErr result (λ e. (e ≡ LengthTooLarge)
            × (4294967295 < source_length self.now)) }
        ensures too_long { 4294967295 < source_length self.now → IsErr result };

    // Its keys are those that its meaning leads to.
    ghost keyed: { (v : Self) → IsKeyed (keys v) (meaning v) };

    // Of one value the length is 0.
    ghost one_length: { (v : Self) → has_length Self.Archived.pointee ≡ false → source_length v
        ≡ 0 };

    // There is a plan of it, with its region.
    ghost planned: { (v : Self) → HasRegionPlan Self.Archived.definitions Self.Archived.pointee
        (source_length v) (keys v) (meaning v) };
}

/// A source that can be serialized to an `S` as a region of its own. As in rkyv 0.8.18.
pub trait SerializeUnsized<S: Writer + Keys>: ArchiveUnsized {
    ghost use Rattle.archive_types.specs.SourceOutcomes.{WritesUnsized};

    /// Writes what the source owns and then its region, and returns the region's position in bytes.
    /// Existing bytes and the states of known keys stay, after a failure too.
    ///
    /// Errors, never `NotStarted` or `AlreadyFinished`:
    /// - `OutOfMemory`: memory is refused.
    /// - `BufferOverflow`, `WriterFailed`: the writer's.
    /// - an error caused by the source, such as `LengthTooLarge`.
    fn serialize_unsized(&self, serializer: &mut S) -> Result<usize, Error>
        ensures { WritesUnsized Self.ArchiveUnsized Self.Archived.ArchivePointee self.now S.Keys
            serializer result };
}

/// A pointee that can be read back as a `T`: the value, a vector of the elements, or a string. As in rkyv 0.8.18, by views in place of references.
pub trait DeserializeUnsized<T: Archive, D: Entries>: ArchivePointee {
    ghost use Rattle.archive_types.specs.Words.ReadBack.{ReadsAs, ViewReadsAs};

    /// What implementors write, over the part of a view; callers use `deserialize_unsized`. The
    /// caller must ensure what a view promises of the part.
    fn deserialize_unsized_part(
        alloc: Global,
        part: RawView<'_>,
        deserializer: &mut D,
    ) -> Result<T, Error>
        requires { IsPartOf Self.ArchivePointee part }
        ensures { ReadsAs Self.ArchivePointee part D.Entries deserializer T.Archive result };

    /// What the view shows, as `Deserialize::deserialize` says it, with the same errors.
    final fn deserialize_unsized(
        alloc: Global,
        view: Ref<'_, Self>,
        deserializer: &mut D,
    ) -> Result<T, Error>
        ensures { ViewReadsAs view.entry D.Entries deserializer T.Archive result }
    {
        Self::deserialize_unsized_part(alloc, view.part(), deserializer)
    }

    /// Its length: 0 for one value, else the number of elements or bytes.
    #[tactic(auto, using(crate::proofs::Viewing::OneLengths::one_has_no_length))]
    final fn deserialize_metadata(view: Ref<'_, Self>) -> usize
        ensures length { result ≡ view.entry.len }
        ensures one_value { has_length Self.pointee ≡ false → result ≡ 0 }
    {
        view.part().len
    }
}
