// Such enums as sources: what a value owns is written up to its box, box after box, and then the regions, from the innermost on.

ghost use Rattle.std.specs.Prelude.{◌≡◌, IfOk, IfErr, Option, ℕ};
ghost use Rattle.archive_core.specs.recursive.Chains.{IsRestOf, HeadSerialized, in_lists};
ghost use Rattle.archive_types.specs.Causes.{IsRefused};
ghost use Rattle.archive_types.specs.SourceOutcomes.{Serializes};
ghost use Rattle.archive_write.specs.Written.{GoesOn};

use archive_check::format::error::Error;
use archive_types::boxed::{BoxResolver, serialize_inner};
use archive_types::ser::{ResolverAlloc, Writer};
use archive_types::traits::{Archive, Keys, Portable};
use std::alloc::{AllocError, Allocator};

// How many boxes a list holds. A longer chain takes several, of 64 KB where little is kept of a box: one list that grew would be copied, and so large a block
// often comes from the system anew at each call.
const BOXES: usize = 4096;

/// What a value comes to whose parts before its box are written.
#[derive(Drop)]
pub enum WrittenHead<R, K> {
    /// It has no box of its type: its resolver.
    Whole(R),
    /// It has one: what is kept of the parts before it.
    Open(K),
}

/// A source that is a recursive enum whose boxes of itself come last, as a list. `tools/derive` writes it, and `serialize_chain` writes its values.
pub trait ChainSource<S: Writer + Keys>: Archive {
    /// What is kept of the parts before a box until what the box holds is written.
    type Kept: Drop;

    // What a value's box holds, if it has one.
    ghost rest: { Self → Option Self };

    // The resolver, by what is kept and where the box's value stands.
    ghost closed: { Self.Kept → ℕ → Self.Resolver };

    /// What the value's box of its type holds, if it has one.
    fn rest(&self) -> Option<&Self>
        ensures { IsRestOf (rest self.now) result };

    /// Writes what the value owns, but for what its box holds. Fails as `Serialize::serialize` does.
    fn serialize_head(
        &self,
        serializer: &mut S,
    ) -> Result<WrittenHead<Self::Resolver, Self::Kept>, Error>
        ensures serialized { IfOk result (HeadSerialized Self.Archive Self.Archived.Portable rest
            closed self.now S.Keys serializer) }
        ensures goes_on { GoesOn (S.state serializer.old) (S.state serializer.new) }
        ensures refused { IfErr result (IsRefused Self.Archived.definitions Self.Archived.shape
            (Self.keys self.now) (Self.meaning self.now) (S.state serializer.old)
            (S.state serializer.new)) };

    /// The resolver of a value with a box.
    fn close(kept: Self::Kept, at: BoxResolver) -> Self::Resolver
        ensures { result ≡ closed kept at };
}

// The list for one more box: this one, or a new one if it is full.
#[inline(always)]
fn list_for_more<X: Drop, A: Allocator + Copy>(
    alloc: A,
    list: Vec<X, A>,
    full: &mut Vec<Vec<X, A>, A>,
) -> Result<Vec<X, A>, AllocError>
    ensures { IfOk result (λ it. in_lists full.new.items it.items
        ≡ in_lists full.old.items list.items) }
{
    if list.len() < BOXES {
        return Ok(list);
    }
    full.push(list).map_err(AllocError::from)?;
    Ok(Vec::new(alloc))
}

// The bytes of the boxes of so many full lists and of so many besides, each of this size.
fn room_of(full: usize, boxes: usize, size: usize) -> usize {
    let all = full.saturating_mul(BOXES).saturating_add(boxes);
    all.saturating_mul(size)
}

/// Writes what `value` owns, with no recursion: a reference and what is kept of the parts before it
/// for each box, in lists by the serializer's allocator. Fails as `Serialize::serialize` does.
#[inline(always)]
pub fn serialize_chain<T: ChainSource<S>, S: Writer + Keys + ResolverAlloc>(
    value: &T,
    serializer: &mut S,
) -> Result<T::Resolver, Error>
    ensures { Serializes T.Archive T.Archived.Portable value.now S.Keys serializer result }
{
    let alloc = serializer.resolver_alloc();
    let mut full: Vec<Vec<(&T, T::Kept), S::Alloc>, S::Alloc> = Vec::new(alloc);
    let mut chain: Vec<(&T, T::Kept), S::Alloc> = Vec::new(alloc);
    let mut here = value;
    let mut resolver = loop {
        let head = match here.serialize_head(serializer) {
            Ok(head) => head,
            Err(error) => return Err(error),
        };
        let kept = match head {
            WrittenHead::Whole(resolver) => break resolver,
            WrittenHead::Open(kept) => kept,
        };
        let Some(rest) = here.rest() else {
            unreachable!();
        };
        chain = list_for_more(alloc, chain, &mut full)?;
        chain.push((rest, kept)).map_err(AllocError::from)?;
        here = rest;
    };
    serializer.make_room(room_of(full.len(), chain.len(), T::Archived::size()));
    loop {
        while let Some((rest, kept)) = chain.pop() {
            match serialize_inner(rest, resolver, serializer) {
                Ok(at) => resolver = T::close(kept, at),
                Err(error) => return Err(error),
            }
        }
        let Some(outer) = full.pop() else {
            return Ok(resolver);
        };
        chain = outer;
    }
}
