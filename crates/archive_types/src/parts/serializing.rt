// Parts that are serialized one after another.

ghost use Rattle.std.specs.Prelude.{IfOk, IfErr};
ghost use Rattle.archive_write.specs.Written.{GoesOn};
ghost use Rattle.archive_types.specs.SourceOutcomes.{SerializesParts};

use super::{PartOf, SourceParts};
use crate::traits::{Archive, Keys, Serialize};
use archive_check::format::error::Error;
use archive_write::ser::Writer;

/// Parts of a `T` one after another that can be serialized to an `S`.
pub trait SerializeParts<T, S: Writer + Keys>: SourceParts<T> {
    /// Writes what each of the parts owns, in order, and returns their resolvers. Fails as
    /// `Serialize::serialize` does, for a cause of one of them; existing bytes and known keys stay,
    /// after a failure too.
    fn serialize_parts(whole: &T, serializer: &mut S) -> Result<Self::Resolvers, Error>
        ensures { SerializesParts Self.Archived.CheckedParts Self.SourceParts whole.now S.Keys
            serializer result };
}

impl<T, S: Writer + Keys> SerializeParts<T, S> for () {
    #[tactic(auto, using(crate::proofs::Planning::PlannedParts::serialized_no_part))]
    #[inline(always)]
    fn serialize_parts(_whole: &T, _serializer: &mut S) -> Result<(), Error> {
        Ok(())
    }
}

impl<T, S: Writer + Keys, A: PartOf<T>, R: SerializeParts<T, S>> SerializeParts<T, S> for (A, R)
where
    A::Source: Serialize<S>,
{
    #[inline(always)]
    fn serialize_parts(
        whole: &T,
        serializer: &mut S,
    ) -> Result<(<A::Source as Archive>::Resolver, R::Resolvers), Error> {
        let first = A::part_of(whole).serialize(serializer)?;
        let others = R::serialize_parts(whole, serializer)?;
        Ok((first, others))
    }
}
