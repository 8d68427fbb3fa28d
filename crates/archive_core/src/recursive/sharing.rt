// What is behind a shared pointer is written by the recursive type's own function, between the start of its key and the end of it.

ghost use Rattle.std.specs.Prelude.{◌≡◌, ◌≤◌, IfOk, OnOk, IfErr, IfSome, IfNone};
ghost use Rattle.archive_core.specs.recursive.SharedParts.{AreNotBegun, Begins, HasGoneOn, IsConcluded, IsEnded, IsKnown, IsNotBegun, IsNotConcluded, IsNotEnded, PlacesElements, PutsInner, PlacesNoElements, PutsNoInner, SharesElements, SharesInner, SharesNoElements, SharesNoInner};
ghost use Rattle.archive_types.specs.Runs.{EachBelongs};
ghost use Rattle.archive_write.specs.Written.{GoesOn};

use archive_check::format::error::Error;
use archive_types::rc::RcResolver;
use archive_types::ser::{ResolveExt, ResolverAlloc, Writer, WriterExt};
use archive_types::sharing::{Sharing, SharingState};
use archive_types::traits::Archive;
use std::alloc::Allocator;

/// Starts the key of a shared value. Returns the resolver of a pointer to it if it was written
/// before; none if the key was unknown: then the caller writes what the value owns, and calls
/// `finish_shared`.
///
/// Errors:
/// - `CyclicSerialize`: the key is pending, so its value contains itself; nothing changes.
/// - `PositionTooLarge`: the value lies above 4,294,967,295.
/// - those of memory and of the writer.
pub fn begin_shared<S: Sharing + Writer>(
    key: u64,
    serializer: &mut S,
) -> Result<Option<RcResolver>, Error>
    ensures known { IfOk result (λ r. IfSome r (λ t. IsKnown key t (S.state serializer.old)
        (S.state serializer.new))) }
    ensures begun { IfOk result (λ r. IfNone r (Begins key (S.state serializer.old)
        (S.state serializer.new))) }
    ensures goes_on { GoesOn (S.state serializer.old) (S.state serializer.new) }
    ensures refused { IfErr result (IsNotBegun key (S.state serializer.old)
        (S.state serializer.new)) }
{
    match serializer.start_sharing(key)? {
        SharingState::Started => Ok(None),
        SharingState::Pending => Err(Error::CyclicSerialize),
        SharingState::Finished(pos) => {
            close_shared(pos, serializer)?;
            if pos > 4294967295 {
                return Err(Error::PositionTooLarge);
            }
            Ok(Some(RcResolver::from_pos(pos)))
        }
    }
}

/// Starts the key of so many shared values, as `begin_shared` does, with its errors. Fails with
/// `LengthTooLarge` above 4,294,967,295.
pub fn begin_shared_slice<S: Sharing + Writer>(
    key: u64,
    len: usize,
    serializer: &mut S,
) -> Result<Option<RcResolver>, Error>
    ensures known { IfOk result (λ r. IfSome r (λ t. IsKnown key t (S.state serializer.old)
        (S.state serializer.new))) }
    ensures begun { IfOk result (λ r. IfNone r (Begins key (S.state serializer.old)
        (S.state serializer.new))) }
    ensures few { IfOk result (λ r. len ≤ 4294967295) }
    ensures goes_on { GoesOn (S.state serializer.old) (S.state serializer.new) }
    ensures refused { IfErr result (AreNotBegun key len (S.state serializer.old)
        (S.state serializer.new)) }
{
    let known = match begin_shared(key, serializer) {
        Ok(known) => known,
        Err(error) => return Err(error),
    };
    if len > 4294967295 {
        return Err(Error::LengthTooLarge);
    }
    Ok(known)
}

/// Writes the region of a value that was serialized since its key was begun, finishes the key
/// there, and returns the resolver of a pointer to it. The caller must ensure that the resolver is
/// one of this value.
///
/// Errors:
/// - `PositionTooLarge`: the region lies above 4,294,967,295.
/// - `LayoutTooLarge`: it would end above `usize::MAX`.
/// - `NotStarted`, `AlreadyFinished`: the key isn't pending.
/// - those of the value's `resolve`, of memory and of the writer.
pub fn finish_shared<T: Archive, S: Sharing + Writer + ResolverAlloc>(
    key: u64,
    value: &T,
    resolver: T::Resolver,
    serializer: &mut S,
) -> Result<RcResolver, Error>
    requires same_value { T.belongs value.now resolver }
    ensures shared { IfOk result (SharesInner T.Archive T.Archived.Portable value.now resolver
        S.Keys serializer key) }
    ensures goes_on { HasGoneOn key (S.state serializer.old) (S.state serializer.new) }
    ensures refused { IfErr result (SharesNoInner T.Archive T.Archived.Portable value.now resolver
        S.Keys serializer key) }
{
    let pos = write_region(value, resolver, serializer)?;
    end_shared(key, pos, serializer)
}

/// Writes the region of values that were serialized since their key was begun, finishes the key
/// there, and returns the resolver of a pointer to them. The caller must ensure that each resolver
/// is one of its value. Fails as `finish_shared` does.
pub fn finish_shared_slice<S: Sharing + Writer + ResolverAlloc, T: Archive, B: Allocator + Drop>(
    key: u64,
    values: &[T],
    resolvers: Vec<T::Resolver, B>,
    serializer: &mut S,
) -> Result<RcResolver, Error>
    requires same_values { EachBelongs T.belongs values.now resolvers.items }
    ensures shared { IfOk result (SharesElements T.Archive T.Archived.Portable values.now
        resolvers.items S.Keys serializer key) }
    ensures goes_on { HasGoneOn key (S.state serializer.old) (S.state serializer.new) }
    ensures refused { IfErr result (SharesNoElements T.Archive T.Archived.Portable values.now
        resolvers.items S.Keys serializer key) }
{
    let pos = write_elements(values, resolvers, serializer)?;
    end_shared(key, pos, serializer)
}

// Finishes a key that was begun where the region lies that was written since, and returns the resolver of a pointer to that.
#[inline(always)]
fn end_shared<S: Sharing + Writer>(
    key: u64,
    pos: usize,
    serializer: &mut S,
) -> Result<RcResolver, Error>
    ensures ended { IfOk result (λ t. (t ≡ pos) × IsEnded key pos (S.state serializer.old)
        (S.state serializer.new)) }
    ensures goes_on { HasGoneOn key (S.state serializer.old) (S.state serializer.new) }
    ensures refused { IfErr result (IsNotEnded key pos (S.state serializer.old)
        (S.state serializer.new)) }
{
    serializer.finish_sharing(key, pos)?;
    close_shared(pos, serializer)?;
    if pos > 4294967295 {
        return Err(Error::PositionTooLarge);
    }
    Ok(RcResolver::from_pos(pos))
}

// Writes the region of a value that was serialized, and returns its position.
fn write_region<T: Archive, S: Writer + ResolverAlloc>(
    value: &T,
    resolver: T::Resolver,
    serializer: &mut S,
) -> Result<usize, Error>
    requires same_value { T.belongs value.now resolver }
    ensures region { IfOk result (PutsInner T.Archive T.Archived.Portable value.now resolver S.Keys
        serializer) }
    ensures goes_on { GoesOn (S.state serializer.old) (S.state serializer.new) }
    ensures refused { IfErr result (PutsNoInner T.Archive T.Archived.Portable value.now resolver
        S.Keys serializer) }
{
    let alloc = serializer.resolver_alloc();
    serializer.align_for::<T::Archived>()?;
    let pos = serializer.resolve_aligned(alloc, value, resolver)?;
    Ok(pos)
}

// Writes the region of values that were serialized, and returns its position.
fn write_elements<S: Writer + ResolverAlloc, T: Archive, B: Allocator + Drop>(
    values: &[T],
    resolvers: Vec<T::Resolver, B>,
    serializer: &mut S,
) -> Result<usize, Error>
    requires same_values { EachBelongs T.belongs values.now resolvers.items }
    ensures region { IfOk result (PlacesElements T.Archive T.Archived.Portable values.now
        resolvers.items S.Keys serializer) }
    ensures goes_on { GoesOn (S.state serializer.old) (S.state serializer.new) }
    ensures refused { IfErr result (PlacesNoElements T.Archive T.Archived.Portable values.now
        resolvers.items S.Keys serializer) }
{
    let alloc = serializer.resolver_alloc();
    serializer.align_for::<T::Archived>()?;
    let pos = serializer.resolve_slice_aligned(alloc, values, resolvers)?;
    Ok(pos)
}

// Writes a zero byte if the writer is still at this position, where a value of no size lies: what comes next would lie there, too.
fn close_shared<S: Writer>(pos: usize, serializer: &mut S) -> Result<(), Error>
    ensures closed { OnOk result (IsConcluded pos (S.state serializer.old)
        (S.state serializer.new)) }
    ensures goes_on { GoesOn (S.state serializer.old) (S.state serializer.new) }
    ensures refused { IfErr result (IsNotConcluded pos (S.state serializer.old)
        (S.state serializer.new)) }
{
    if serializer.pos() != pos {
        return Ok(());
    }
    serializer.write(&[0])?;
    Ok(())
}
