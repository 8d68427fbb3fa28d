// Four parts at once, and those of a rest behind them: as the nest of pairs that they stand for.

ghost use Rattle.std.specs.Prelude.{◌++◌};
ghost use Rattle.archive_check.specs.Value.{value};
ghost use Rattle.archive_types.specs.Members.Keyed.{part_keyed};
ghost use Rattle.archive_types.specs.Members.PartsPlanned.{part_planned};

use super::{DeserializeParts, OwnedParts, PartOf, SerializeParts, SourceParts};
use crate::traits::{Archive, Deserialize, Entries, FourParts, Keys, Portable, Serialize};
use archive_check::format::error::Error;
use archive_write::ser::Writer;
use std::alloc::Global;

impl<T, A: PartOf<T>, B: PartOf<T>, C: PartOf<T>, D: PartOf<T>, R: SourceParts<T>> SourceParts<T>
    for FourParts<A, B, C, D, R> {
    type Archived = FourParts<
        <A::Source as Archive>::Archived,
        <B::Source as Archive>::Archived,
        <C::Source as Archive>::Archived,
        <D::Source as Archive>::Archived,
        R::Archived,
    >;

    type Resolvers = (
        <A::Source as Archive>::Resolver,
        (
            <B::Source as Archive>::Resolver,
            (
                <C::Source as Archive>::Resolver,
                (<D::Source as Archive>::Resolver, R::Resolvers),
            ),
        ),
    );

    ghost meanings = { ⟦<(A, (B, (C, (D, R)))) as SourceParts<T>>⟧.meanings };

    ghost flats = { ⟦<(A, (B, (C, (D, R)))) as SourceParts<T>>⟧.flats };

    ghost keys = { ⟦<(A, (B, (C, (D, R)))) as SourceParts<T>>⟧.keys };

    ghost belongs = { ⟦<(A, (B, (C, (D, R)))) as SourceParts<T>>⟧.belongs };

    ghost keyed = { record {
      each = λ v. part_keyed (A.Source.keyed (A.part v)) (part_keyed (B.Source.keyed (B.part v))
          (part_keyed (C.Source.keyed (C.part v)) (part_keyed (D.Source.keyed (D.part v)) (R.keyed.each v))));
    } };

    ghost planned = { record {
      each = λ v. part_planned _ _ _ _ (A.Source.planned (A.part v)) (part_planned _ _ _ _ (B.Source.planned (B.part v))
          (part_planned _ _ _ _ (C.Source.planned (C.part v)) (part_planned _ _ _ _ (D.Source.planned (D.part v)) (R.planned.each v))));
    } };

    #[inline(always)]
    fn resolve_parts(
        whole: &T,
        resolvers: Self::Resolvers,
        pos: usize,
        start: usize,
        bytes: &mut [u8],
    ) -> Result<(), Error> {
        <(A, (B, (C, (D, R)))) as SourceParts<T>>::resolve_parts(
            whole, resolvers, pos, start, bytes,
        )
    }
}

impl<
    T,
    S: Writer + Keys,
    A: PartOf<T>,
    B: PartOf<T>,
    C: PartOf<T>,
    D: PartOf<T>,
    R: SerializeParts<T, S>,
> SerializeParts<T, S> for FourParts<A, B, C, D, R>
where
    A::Source: Serialize<S>,
    B::Source: Serialize<S>,
    C::Source: Serialize<S>,
    D::Source: Serialize<S>,
{
    #[inline(always)]
    fn serialize_parts(whole: &T, serializer: &mut S) -> Result<Self::Resolvers, Error> {
        <(A, (B, (C, (D, R)))) as SerializeParts<T, S>>::serialize_parts(whole, serializer)
    }
}

impl<A: Archive, B: Archive, C: Archive, D: Archive, R: OwnedParts> OwnedParts
    for FourParts<A, B, C, D, R> {
    ghost meanings = { λ v. value (A.meaning v.first)
        (value (B.meaning v.second) (value (C.meaning v.third)
        (value (D.meaning v.fourth) (R.meanings v.rest)))) };

    ghost keys = { λ v. A.keys v.first ++ (B.keys v.second
        ++ (C.keys v.third ++ (D.keys v.fourth ++ R.keys v.rest))) };
}

impl<
    U: Archive + Drop,
    V: Archive + Drop,
    W: Archive + Drop,
    X: Archive + Drop,
    Y: OwnedParts,
    E: Entries,
    A: Portable + Deserialize<U, E>,
    B: Portable + Deserialize<V, E>,
    C: Portable + Deserialize<W, E>,
    D: Portable + Deserialize<X, E>,
    R: DeserializeParts<Y, E>,
> DeserializeParts<FourParts<U, V, W, X, Y>, E> for FourParts<A, B, C, D, R> {
    #[inline(always)]
    fn deserialize_parts(
        alloc: Global,
        bytes: &[u8],
        pos: usize,
        start: usize,
        deserializer: &mut E,
    ) -> Result<FourParts<U, V, W, X, Y>, Error> {
        let (first, (second, (third, (fourth, rest)))) = <(A, (B, (C, (D, R)))) as DeserializeParts<
            (U, (V, (W, (X, Y)))),
            E,
        >>::deserialize_parts(alloc, bytes, pos, start, deserializer)?;
        Ok(FourParts {
            first,
            second,
            third,
            fourth,
            rest,
        })
    }
}
