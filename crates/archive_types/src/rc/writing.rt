// How shared and weak pointers are written.

ghost use Rattle.std.specs.Prelude.{◌≡◌, ◌∷◌, ◌≤◌, ℕ, pos as whole, suc, IfOk, OnOk, IfErr, IsOk, IsErrOf, FitsSigned, Option, None, Some, length, false, ⊤};
ghost use Rattle.std.specs.Int.{w32};
ghost use Rattle.archive_check.specs.Layout.{pointer_size, has_length};
ghost use Rattle.archive_check.specs.Shape.{shared, weak};
ghost use Rattle.archive_check.specs.Value.{hole, shared_value};
ghost use Rattle.archive_check.specs.WriterState.{KeepsBytes, KeepsKeys};
ghost use Rattle.archive_check.specs.declared.format.error.Error.TheVariants.{CyclicSerialize};
ghost use Rattle.archive_types.specs.Causes.{HindersAt, IsRefused};
ghost use Rattle.archive_num.specs.Offsets.{distance, IsTooFar};
ghost use Rattle.archive_num.specs.OwnerBytes.{owner_bytes};
ghost use Rattle.archive_types.specs.Words.WrittenPointers.{IsTooFarFrom};
ghost use Rattle.archive_types.specs.Plans.{Serialized};
ghost use Rattle.archive_types.specs.Members.Options.{option_keys};
ghost use Rattle.archive_types.specs.Members.SharedLaws.{flavor_as, naming_of, weak_value, weak_count, weak_flat};
ghost use Rattle.archive_types.specs.Words.SharedPointers.{AnswersPending, flavor_of_type, keys_under};
ghost use Rattle.archive_types.specs.Writing.{Resolves, to_shared, shared_flat};
ghost use Rattle.archive_write.specs.Written.{GoesOn};
ghost use Rattle.archive_types.specs.Outcomes.{ResolvesAs, SerializesTo, SerializesAs};

use super::{ArchivedRc, ArchivedRcWeak, Flavor};
use crate::owner_pointers::position_of;
use crate::place::Place;
use crate::ser::{Writer, by_words};
use crate::sharing::{Sharing, SharingExt};
use crate::traits::{ArchiveUnsized, Portable, PortablePointee, SerializeUnsized};
use archive_check::format::error::Error;
use archive_num::FixedUsize;
use archive_num::owners::emplace_pointer;
use std::marker::Model;

/// Where a shared value was written, in bytes from the first one. In a contract it is that position. As in rkyv 0.8.18.
#[derive(Clone, Copy, Debug)]
pub struct RcResolver {
    /// The position.
    pub pos: u32,
}

impl Model for RcResolver {
    ghost Value = { ℕ };

    ghost view = { λ r. r.pos };

    ghost inverse = { λ n. record { pos = n } };
}

impl RcResolver {
    /// The resolver of a pointer to what is at `pos`, in bytes from the first one. The caller must
    /// ensure that it fits 32 bits. As in rkyv 0.8.18, where it may be any.
    pub fn from_pos(pos: usize) -> RcResolver
        requires { pos ≤ 4294967295 }
        ensures { result ≡ pos }
    {
        RcResolver { pos: pos as u32 }
    }
}

/// Where what a weak pointer leads to was written; none where it is null. rkyv 0.8.18 has an enum of its own.
pub type RcWeakResolver = Option<RcResolver>;

/// Writes a value under its key, if that is unknown, and a zero byte if the writer is still at its
/// position: what comes next would lie there, too. Returns the position, in bytes from the first
/// one. Fails as `ArchivedRc::serialize_from_ref` does, but never with `PositionTooLarge` or
/// `LengthTooLarge`.
#[inline(always)]
pub fn write_shared<F: Flavor, U: SerializeUnsized<S>, S: Sharing + Writer>(
    key: u64,
    value: &U,
    writer: &mut S,
) -> Result<usize, Error>
    ensures outcome { SerializesTo U.Archived.definitions
        (shared (flavor_of_type F.Flavor) U.Archived.pointee)
        (keys_under F.Flavor U.Archived.ArchivePointee U.ArchiveUnsized key value.now)
        (shared_value key) (shared_flat (flavor_of_type F.Flavor) U.Archived.pointee
        (U.source_length value.now)) (λ _. ⊤) (S.state writer.old) (S.state writer.new) result }
    ensures pending { AnswersPending key result S.Keys writer }
{
    let pos = match writer.serialize_shared(key, value) {
        Ok(pos) => pos,
        Err(error) => return Err(by_words(error)),
    };
    if writer.pos() != pos {
        return Ok(pos);
    }
    writer.write(&[0])?;
    Ok(pos)
}

/// Writes the bytes of a pointer at `pos` to `target`, with the length `count`. Both are positions
/// in the buffer. Requires as many bytes as the pointer has, and that one value has the length 0.
/// Fails with `IsizeOverflow` or `OffsetOverflow` exactly if the offset doesn't fit.
#[tactic(auto, using(crate::proofs::Writing::Owned::size_by_length))]
pub fn write_pointer<T: PortablePointee>(
    target: usize,
    count: FixedUsize,
    pos: usize,
    bytes: &mut [u8],
) -> Result<(), Error>
    requires sized { length bytes.old ≡ pointer_size T.pointee }
    requires counted { has_length T.pointee ≡ false → count ≡ 0 }
    ensures written { OnOk result (bytes.new ≡ owner_bytes (has_length T.pointee)
        (distance pos target) count) }
    ensures fits { OnOk result (FitsSigned w32 (distance pos target)) }
    ensures refused { IfErr result (λ e. (bytes.new ≡ bytes.old)
        × IsTooFar e (distance pos target)) }
    ensures same_length { length bytes.new ≡ length bytes.old }
{
    emplace_pointer(T::has_length(), target, count, pos, bytes)
}

/// Writes the bytes of a null: the offset 1, and the length 0 where there is one. Requires as many
/// bytes as the pointer has; it never fails.
pub fn write_null<T: PortablePointee>(bytes: &mut [u8]) -> Result<(), Error>
    requires { length bytes.old ≡ pointer_size T.pointee }
    ensures written { bytes.new ≡ owner_bytes (has_length T.pointee) (whole 1) 0 }
    ensures succeeds { IsOk result }
{
    write_pointer::<T>(1, 0, 0, bytes)
}

impl<T: PortablePointee, F: Flavor> ArchivedRc<T, F>
where
    T::ArchivedMetadata: Drop,
{
    /// Writes `value` if `key` is unknown, with a zero byte behind it if it has no size; a finished
    /// key leads to its value. A key should name one value; nothing tests it. As in rkyv 0.8.18,
    /// with a key for an address.
    ///
    /// Errors:
    /// - `CyclicSerialize`: exactly if the key is pending; nothing changes.
    /// - `LengthTooLarge`: more than 4,294,967,295 elements or bytes.
    /// - `PositionTooLarge`: the value lies above 4,294,967,295.
    /// - those of the value and the writer.
    #[tactic(auto, using(crate::proofs::SharedValues::SharedWritten::far_shared_refused, crate::proofs::SharedValues::SharedWritten::long_shared_refused))]
    pub fn serialize_from_ref<U: SerializeUnsized<S, Archived = T>, S: Sharing + Writer>(
        key: u64,
        value: &U,
        serializer: &mut S,
    ) -> Result<RcResolver, Error>
        ensures outcome { SerializesAs ⟦<Self as Portable>⟧
            (keys_under F.Flavor T.ArchivePointee U.ArchiveUnsized key value.now)
            (shared_value key)
            (shared_flat (flavor_of_type F.Flavor) T.pointee (U.source_length value.now))
            (λ _. U.source_length value.now ≤ 4294967295) S.Keys serializer result }
        ensures pending { AnswersPending key result S.Keys serializer }
    {
        let pos = write_shared::<F, U, S>(key, value, serializer)?;
        if value.archived_metadata().is_err() {
            return Err(Error::LengthTooLarge);
        }
        let pos = position_of(pos)?;
        Ok(RcResolver { pos })
    }

    /// Writes the pointer's bytes over those of `place`. The caller must ensure that these have the
    /// pointer's size, that one value has the length 0, and that there are at most 4,294,967,295
    /// elements or bytes; `resolver` should be that of `serialize_from_ref`. Fails with
    /// `IsizeOverflow` or `OffsetOverflow` exactly if the offset doesn't fit; the bytes are then
    /// unchanged. rkyv 0.8.18 panics.
    #[tactic(auto, using(crate::proofs::SharedValues::SharedBytes::resolves_shared, crate::proofs::SharedValues::SharedBytes::shared_hindered_at))]
    pub fn resolve_from_ref<U: ArchiveUnsized<Archived = T>>(
        value: &U,
        resolver: RcResolver,
        place: Place<'_, ArchivedRc<T, F>>,
    ) -> Result<(), Error>
        requires sized { length place.bytes.now ≡ pointer_size T.pointee }
        requires one_value { has_length T.pointee ≡ false → U.source_length value.now ≡ 0 }
        requires held { U.source_length value.now ≤ 4294967295 }
        ensures outcome { ResolvesAs ⟦<Self as Portable>⟧ place
            (shared_flat (flavor_of_type F.Flavor) T.pointee (U.source_length value.now) resolver)
            result }
        ensures cause { IfErr result (IsTooFarFrom place resolver) }
    {
        let Place { bytes, pos, .. } = place;
        let count = length_of::<T, U>(value);
        write_pointer::<T>(resolver.pos as usize, count, pos, bytes)
    }
}

// The length that stands in a pointer to a source.
fn length_of<T: PortablePointee, U: ArchiveUnsized<Archived = T>>(value: &U) -> FixedUsize
where
    T::ArchivedMetadata: Drop,
    requires { U.source_length value.now ≤ 4294967295 }
    ensures { result ≡ U.source_length value.now }
{
    match value.archived_metadata() {
        Ok(metadata) => T::pointer_metadata(&metadata) as FixedUsize,
        Err(_) => 0,
    }
}

impl<T: PortablePointee, F: Flavor> ArchivedRcWeak<T, F>
where
    T::ArchivedMetadata: Drop,
{
    /// Writes `value`, where there is one, as `ArchivedRc::serialize_from_ref` does, with its
    /// errors; where there is none, nothing, and it doesn't fail.
    #[tactic(auto, using(crate::proofs::SharedValues::SharedWritten::weak_serialized, crate::proofs::SharedValues::SharedWritten::weak_refused, crate::proofs::SharedValues::SharedWritten::null_serialized, crate::proofs::Planning::Causes::goes_nowhere))]
    pub fn serialize_from_ref<U: SerializeUnsized<S, Archived = T>, S: Sharing + Writer>(
        key: u64,
        value: Option<&U>,
        serializer: &mut S,
    ) -> Result<RcWeakResolver, Error>
        ensures outcome { SerializesAs ⟦<Self as Portable>⟧
            (option_keys (λ u. keys_under F.Flavor T.ArchivePointee U.ArchiveUnsized key u.now)
            value.entry) (weak_value (λ u. shared_value key) value.entry)
            (weak_flat (flavor_of_type F.Flavor) T.pointee
            (weak_count (λ u. U.source_length u.now) value.entry))
            (λ _. weak_count (λ u. U.source_length u.now) value.entry ≤ 4294967295) S.Keys
            serializer result }
        ensures null { value.entry ≡ None → IsOk result
            × (S.state serializer.new ≡ S.state serializer.old) }
    {
        let Some(value) = value else {
            return Ok(None);
        };
        match ArchivedRc::<T, F>::serialize_from_ref(key, value, serializer) {
            Ok(resolver) => Ok(Some(resolver)),
            Err(error) => Err(error),
        }
    }

    /// Writes the pointer's bytes over those of `place`: a null if `resolver` is none, which never
    /// fails. Requires what `ArchivedRc::resolve_from_ref` does, and fails as that; also with
    /// `OffsetOverflow` if the value lies one byte behind the pointer, which the offset 1 of a null
    /// would say. rkyv 0.8.18 panics.
    #[tactic(auto, using(crate::proofs::SharedValues::SharedBytes::resolves_weak, crate::proofs::SharedValues::SharedBytes::resolves_null, crate::proofs::SharedValues::SharedBytes::weak_hindered_at, crate::proofs::SharedValues::SharedBytes::null_hindered_at))]
    pub fn resolve_from_ref<U: ArchiveUnsized<Archived = T>>(
        value: Option<&U>,
        resolver: RcWeakResolver,
        place: Place<'_, ArchivedRcWeak<T, F>>,
    ) -> Result<(), Error>
        requires sized { length place.bytes.now ≡ pointer_size T.pointee }
        requires one_value { has_length T.pointee ≡ false
            → weak_count (λ u. U.source_length u.now) value ≡ 0 }
        requires held { weak_count (λ u. U.source_length u.now) value ≤ 4294967295 }
        ensures outcome { ResolvesAs ⟦<Self as Portable>⟧ place
            (weak_flat (flavor_of_type F.Flavor) T.pointee
            (weak_count (λ u. U.source_length u.now) value.entry) resolver) result }
        ensures null { resolver ≡ None → IsOk result × (place.exit.0.now
            ≡ owner_bytes (has_length T.pointee) (whole 1) 0) }
    {
        let Place { bytes, pos, .. } = place;
        let Some(resolver) = resolver else {
            return write_null::<T>(bytes);
        };
        let target = resolver.pos as usize;
        if target.saturating_sub(pos) == 1 {
            return Err(Error::OffsetOverflow);
        }
        let count = weak_length::<T, U>(value);
        write_pointer::<T>(target, count, pos, bytes)
    }
}

// The length that stands in a weak pointer to a source, if there is one.
fn weak_length<T: PortablePointee, U: ArchiveUnsized<Archived = T>>(value: Option<&U>) -> FixedUsize
where
    T::ArchivedMetadata: Drop,
    requires { weak_count (λ u. U.source_length u.now) value ≤ 4294967295 }
    ensures { result ≡ weak_count (λ u. U.source_length u.now) value.entry }
{
    match value {
        None => 0,
        Some(value) => length_of::<T, U>(value),
    }
}
