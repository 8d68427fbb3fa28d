//! The parts of values: archived one after another and read back. What a derive of rkyv 0.8.18
//! writes for each struct, these traits say once, for the parts of every record, tuple and variant.

ghost use Rattle.archive_check.specs.Denotes.{Naming};
ghost use Rattle.std.specs.Prelude.{◌≡◌, ◌<◌, ℕ, length, List, [], ◌++◌, IfOk, OnOk, IfErr};
ghost use Rattle.archive_check.specs.Shape.{part};
ghost use Rattle.archive_check.specs.Value.{Values, no_value, product, value};
ghost use Rattle.archive_types.specs.Members.Keyed.{nothing_keyed, part_keyed};
ghost use Rattle.archive_types.specs.Parts.{ArePlanned, AreKeyed, ZeroedParts};
ghost use Rattle.archive_types.specs.Members.PartsPlanned.{no_part_planned, part_planned};
ghost use Rattle.archive_types.specs.PartsReading.{PartsViewed, PartsReadBack, RefusesParts};
ghost use Rattle.archive_types.specs.Outcomes.{ResolvesAllParts};

mod four_parts;
mod serializing;

use crate::ser::resolve_into;
use crate::traits::{Archive, Deserialize, Entries, Portable, PortableParts};
use crate::view::RawView;
use archive_check::format::error::Error;
pub use serializing::SerializeParts;
use std::alloc::Global;

/// A part of a `T` that is archived: which one, and how it is found. Each field of a record has a type of its own that implements this.
pub trait PartOf<T> {
    /// The part's type.
    type Source: Archive;

    // The part of a value.
    ghost part: { T → Self.Source };

    /// The part of `whole`.
    fn part_of(whole: &T) -> &Self::Source
        ensures { result.now ≡ part whole.now };
}

/// Parts of a `T` one after another, as sources: `()`, or `(A, R)` for a part `A` and then those of `R`, or four at once by `FourParts`.
pub trait SourceParts<T> {
    /// The archived types.
    type Archived: PortableParts;

    /// The resolvers: `()`, or that of the first and then those of the others.
    type Resolvers: Drop;

    // What they mean.
    ghost meanings: { T → Values };

    // What is read in their places.
    ghost flats: { T → Self.Resolvers → Values };

    // The keys that they hold, with what each names.
    ghost keys: { T → List Naming };

    // The resolvers are those of these values.
    ghost belongs: { T → Self.Resolvers → Type 0 };

    /// Writes the archived parts over `bytes`, which lie at the offset `start` of what begins at
    /// `pos`: each at the next multiple of its alignment, which is counted from there. The caller
    /// must ensure that the bytes are zeros, that the parts end in them, and that the resolvers are
    /// those of these parts. Fails as the parts do: with `IsizeOverflow` or `OffsetOverflow` if an
    /// offset doesn't fit.
    fn resolve_parts(
        whole: &T,
        resolvers: Self::Resolvers,
        pos: usize,
        start: usize,
        bytes: &mut [u8],
    ) -> Result<(), Error>
        requires zeroed { ZeroedParts (Self.Archived.end start) start pos bytes.old }
        requires same_values { belongs whole.now resolvers }
        ensures { ResolvesAllParts Self.Archived.CheckedParts (flats whole.now resolvers) pos start
            bytes.old bytes.new result };

    // Their keys are those that their meanings lead to.
    ghost keyed: { AreKeyed keys meanings };

    // There is a plan of what they own.
    ghost planned: { ArePlanned Self.Archived.definitions Self.Archived.parts keys meanings };
}

impl<T> SourceParts<T> for () {
    type Archived = ();

    type Resolvers = ();

    ghost meanings = { λ v. no_value };

    ghost flats = { λ v r. no_value };

    ghost keys = { λ v. [] };

    ghost belongs = { λ v r. Unit {0} };

    ghost keyed = { record { each = λ v. nothing_keyed } };

    ghost planned = { record { each = λ v. no_part_planned } };

    #[inline(always)]
    fn resolve_parts(
        _whole: &T,
        _resolvers: (),
        _pos: usize,
        _start: usize,
        _bytes: &mut [u8],
    ) -> Result<(), Error> {
        Ok(())
    }
}

impl<T, A: PartOf<T>, R: SourceParts<T>> SourceParts<T> for (A, R) {
    type Archived = (<A::Source as Archive>::Archived, R::Archived);

    type Resolvers = (<A::Source as Archive>::Resolver, R::Resolvers);

    ghost meanings = { λ v. value (A.Source.meaning (A.part v)) (R.meanings v) };

    ghost flats = { λ v r. value (A.Source.flat (A.part v) r.0) (R.flats v r.1) };

    ghost keys = { λ v. A.Source.keys (A.part v) ++ R.keys v };

    ghost belongs = { λ v r. A.Source.belongs (A.part v) r.0 × R.belongs v r.1 };

    ghost keyed = { record {
      each = λ v. part_keyed (A.Source.keyed (A.part v))
          (R.keyed.each v);
    } };

    ghost planned = { record {
      each = λ v. part_planned A.Source.Archived.definitions A.Source.Archived.shape
          (A.Source.keys (A.part v)) (A.Source.meaning (A.part v)) (A.Source.planned (A.part v))
          (R.planned.each v);
    } };

    #[inline(always)]
    fn resolve_parts(
        whole: &T,
        resolvers: (<A::Source as Archive>::Resolver, R::Resolvers),
        pos: usize,
        start: usize,
        bytes: &mut [u8],
    ) -> Result<(), Error> {
        let (resolver, others) = resolvers;
        let first = <(<A::Source as Archive>::Archived, R::Archived) as PortableParts>::offset_from(
            start, 0,
        );
        let end = first + <A::Source as Archive>::Archived::size();
        resolve_into(
            A::part_of(whole),
            resolver,
            pos + first,
            &mut bytes[first - start..end - start],
        )?;
        R::resolve_parts(whole, others, pos, end, &mut bytes[end - start..])
    }
}

/// Values one after another, as they are read back: `()`, or `(a, rest)` for a value `a` and then those of `rest`, or four at once in a `FourParts`.
pub trait OwnedParts {
    // What they mean.
    ghost meanings: { Self → Values };

    // The keys that they hold, with what each names.
    ghost keys: { Self → List Naming };
}

impl OwnedParts for () {
    ghost meanings = { λ v. no_value };

    ghost keys = { λ v. [] };
}

impl<A: Archive, R: OwnedParts> OwnedParts for (A, R) {
    ghost meanings = { λ v. value (A.meaning v.0) (R.meanings v.1) };

    ghost keys = { λ v. A.keys v.0 ++ R.keys v.1 };
}

/// Archived parts that can be read back as the values `T`, one after another.
pub trait DeserializeParts<T: OwnedParts, D: Entries>: PortableParts {
    /// The values that lie in `bytes` from the offset `start` on of what begins at `pos`. The
    /// caller must ensure that they lie in a validated buffer, as the parts of a view do. Memory
    /// comes from `alloc`. Fails with `OutOfMemory` if it is refused, and with `CyclicDeserialize`
    /// only if a shared position is met that is still being read.
    fn deserialize_parts(
        alloc: Global,
        bytes: &[u8],
        pos: usize,
        start: usize,
        deserializer: &mut D,
    ) -> Result<T, Error>
        requires viewed { PartsViewed Self.definitions bytes.now pos start Self.parts }
        ensures read { IfOk result (λ v. PartsReadBack D.keeps bytes.now pos Self.definitions
            Self.parts start (D.entry_of deserializer.old) (D.entry_of deserializer.new)
            (T.meanings v) (T.keys v)) }
        ensures refused { IfErr result (RefusesParts Self.definitions bytes.now pos Self.parts start
            (D.entry_of deserializer.old)) };
}

impl<D: Entries> DeserializeParts<(), D> for () {
    #[inline(always)]
    fn deserialize_parts(
        _alloc: Global,
        _bytes: &[u8],
        _pos: usize,
        _start: usize,
        _deserializer: &mut D,
    ) -> Result<(), Error> {
        Ok(())
    }
}

impl<
    U: Archive + Drop,
    V: OwnedParts,
    D: Entries,
    A: Portable + Deserialize<U, D>,
    R: DeserializeParts<V, D>,
> DeserializeParts<(U, V), D> for (A, R) {
    #[inline(always)]
    fn deserialize_parts(
        alloc: Global,
        bytes: &[u8],
        pos: usize,
        start: usize,
        deserializer: &mut D,
    ) -> Result<(U, V), Error> {
        prove!(bytes.len() <= usize::MAX);
        let first = <(A, R) as PortableParts>::offset_from(start, 0);
        let part = RawView {
            bytes,
            pos: pos + first,
            len: 0,
        };
        let value = A::deserialize_part(alloc, part, deserializer)?;
        let end = first + A::size();
        let others = R::deserialize_parts(alloc, bytes, pos, end, deserializer)?;
        Ok((value, others))
    }
}

/// A record that is made of the values of its parts when it is read back.
pub trait FromParts: Archive {
    /// The values, nested as the parts are: `(a, (b, ()))` for two.
    type Owned: OwnedParts;

    /// The record of these values. It means just what they mean, in order.
    fn from_parts(values: Self::Owned) -> Self
        ensures meaning { Self.meaning result ≡ product (Self.Owned.meanings values) }
        ensures keys { Self.keys result ≡ Self.Owned.keys values };
}
