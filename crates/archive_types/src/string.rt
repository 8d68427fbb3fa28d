//! Strings and texts.

ghost use Rattle.std.specs.Prelude.{◌≡◌, ◌++◌, ◌+◌, ◌<◌, ◌≤◌, ℕ, [], OnOk, IfOk, IfErr, IsOk, IsErrOf, FitsSigned, length, refl, string_bytes, None};
ghost use Rattle.std.specs.Int.{w32};
ghost use Rattle.std.proofs.Common.{inl, inr};
ghost use Rattle.archive_check.specs.Shape.{str as str_shape, str_key, boxed, one, text};
ghost use Rattle.archive_check.specs.Definitions.{no_definition};
ghost use Rattle.archive_check.specs.Members.LeafLayout.{no_definition_reached};
ghost use Rattle.archive_check.specs.SelfCheck.Laws.{plain_check};
ghost use Rattle.archive_check.specs.SelfCheck.Owners.{text_check};
ghost use Rattle.archive_check.specs.Reads.{bytes_at};
ghost use Rattle.archive_check.specs.Readable.{string_text};
ghost use Rattle.archive_check.specs.Value.{text_value};
ghost use Rattle.archive_check.specs.Viewed.{Viewed};
ghost use Rattle.archive_check.specs.Entries.{ReadsBack};
ghost use Rattle.archive_check.specs.declared.format.error.Error.TheVariants.{OutOfMemory, LengthTooLarge, StringTooLong};
ghost use Rattle.archive_check.specs.WriterState.{KeepsKeys};
ghost use Rattle.archive_write.specs.Written.{GoesOn};
ghost use Rattle.archive_types.specs.Causes.{HindersAt, IsRefused, IsRegionRefused};
ghost use Rattle.archive_types.specs.Members.Keyed.{text_keyed};
ghost use Rattle.archive_num.specs.Offsets.{distance, IsTooFar};
ghost use Rattle.archive_types.specs.Words.WrittenPointers.{IsTooFarFrom, AtOnce, BytesAdded};
ghost use Rattle.archive_types.specs.Members.Planned.{string_planned, text_planned};
ghost use Rattle.archive_types.specs.Members.PlannedOwners.{is_long, one_planned};
ghost use Rattle.archive_types.specs.Plans.{Serialized, SerializedRegion};
ghost use Rattle.archive_types.specs.Words.Seen.{IsPartOf};
ghost use Rattle.archive_types.specs.Words.ReadBack.{Read};
ghost use Rattle.archive_types.specs.Strings.{string_form, string_flat};
ghost use Rattle.archive_types.specs.TextPlans.{HindersStringAt, ExplainsTextRefusal, ExplainsStringRefusal};
ghost use Rattle.archive_types.specs.Writing.{ZeroedPlace, Resolves};
ghost use Rattle.archive_types.specs.Outcomes.{ResolvesAs, SerializesAs};
ghost use Rattle.archive_types.specs.SourceOutcomes.{Serializes, WritesUnsized};

mod views;

use crate::owner_pointers::position_of;
use crate::place::Place;
use crate::primitive::ArchivedUsize;
use crate::ser::serialize_one;
use crate::traits::{
    Archive, ArchivePointee, ArchiveUnsized, CopyOptimization, Deserialize, DeserializeUnsized,
    Entries, Keys, LayoutRaw, MapKey, Portable, PortablePointee, Serialize, SerializeUnsized,
};
use crate::view::{RawView, Ref};
use archive_check::format::error::Error;
use archive_check::format::expr::{Defs, Expr, Key, Pointee};
use archive_check::format::layout::Layout;
use archive_check::self_check::{BoxStrCheck, StringCheck};
pub use archive_num::repr;
use archive_write::ser::{ResolverAlloc, Writer, WriterExt};
use std::alloc::Global;
use std::marker::Model;

/// An archived string: eight bytes at a multiple of four, which hold a text of at most eight bytes
/// or lead to a longer one. As in rkyv 0.8.18.
#[derive(Clone, Copy, Debug)]
pub struct ArchivedString {
    _private: (),
}

/// An archived text in a region of its own. In its place rkyv 0.8.18 has an archived `str`.
#[derive(Clone, Copy, Debug)]
pub struct ArchivedStr {
    _private: (),
}

/// A borrowed text, as a source. In its place rkyv 0.8.18 has `str`.
#[derive(Clone, Copy, Debug)]
pub struct Text<'a> {
    /// The text.
    pub text: &'a str,
}

/// Where a long text was written, in bytes from the first one; 0 for a short one. In a contract it is that position. As in rkyv 0.8.18.
#[derive(Clone, Copy, Debug)]
pub struct StringResolver {
    pos: u32,
}

impl Model for StringResolver {
    ghost Value = { ℕ };

    ghost view = { λ r. r.pos };

    ghost inverse = { λ n. record { pos = n } };
}

impl ArchivePointee for ArchivedString {
    type ArchivedMetadata = ();

    ghost pointee = { one str_shape };

    ghost definitions = { no_definition };

    ghost metadata_length = { λ _. 0 };

    fn pointer_metadata(_metadata: &()) -> usize {
        0
    }
}

impl Portable for ArchivedString {
    ghost shape = { str_shape };

    ghost layout = { record { size = 8; align = 4 } };

    type Check = StringCheck;

    ghost is_one = { refl };

    ghost is_align = { inr (inr (inl refl)) };

    ghost has_layout = { record { solved = λ s k. refl } };

    ghost no_others = { no_definition_reached str_shape };

    ghost checks = { λ direct. plain_check str_shape 8 refl refl };

    fn size() -> usize {
        8
    }

    fn align() -> usize {
        4
    }

    fn expr(_alloc: Global) -> Result<Expr, Error> {
        Ok(Expr::Str)
    }

    fn define(_alloc: Global, _defs: &mut Defs) -> Result<(), Error> {
        Ok(())
    }
}

impl MapKey for ArchivedString {
    ghost key = { str_key };

    ghost is_key = { refl };

    ghost key_laid = { refl };

    fn key() -> Key {
        Key::Str
    }
}

impl ArchivePointee for ArchivedStr {
    type ArchivedMetadata = ArchivedUsize;

    ghost pointee = { text };

    ghost definitions = { no_definition };

    ghost metadata_length = { λ n. n };

    fn pointer_metadata(metadata: &ArchivedUsize) -> usize {
        metadata.to_native() as usize
    }
}

impl PortablePointee for ArchivedStr {
    type BoxCheck = BoxStrCheck;

    ghost box_reaches = { no_definition_reached (boxed text) };

    ghost box_checks = { λ direct. text_check };

    fn has_length() -> bool {
        true
    }

    fn pointee_expr(_alloc: Global) -> Result<Pointee, Error> {
        Ok(Pointee::Text)
    }

    fn define_pointee(_alloc: Global, _defs: &mut Defs) -> Result<(), Error> {
        Ok(())
    }
}

impl LayoutRaw for ArchivedStr {
    fn layout_raw(length: usize) -> Result<Layout, Error> {
        Ok(Layout {
            size: length,
            align: 1,
        })
    }
}

impl<'a> ArchiveUnsized for Text<'a> {
    type Archived = ArchivedStr;

    ghost source_length = { λ t. length t.text.now };

    ghost meaning = { λ t. text_value t.text.now };

    ghost keys = { λ _. [] };

    ghost keyed = { λ t. text_keyed t.text.now };

    ghost one_length = { λ t e. is_long e };

    ghost planned = { λ t. text_planned no_definition [] t.text.now };

    #[inline(always)]
    fn archived_metadata(&self) -> Result<ArchivedUsize, Error> {
        let Ok(len) = u32::try_from(self.text.len()) else {
            return Err(Error::LengthTooLarge);
        };
        Ok(ArchivedUsize::from_native(len))
    }
}

impl<'a, S: Writer + Keys> SerializeUnsized<S> for Text<'a> {
    #[tactic(auto, using(crate::proofs::Planning::Planned::serialized_text, crate::proofs::Planning::Planned::text_refused, crate::proofs::Planning::Planned::long_text_refused, crate::proofs::Planning::Causes::goes_nowhere, crate::proofs::Planning::Causes::goes_written, crate::proofs::Planning::Causes::goes_refused))]
    #[inline(always)]
    fn serialize_unsized(&self, serializer: &mut S) -> Result<usize, Error>
        ensures outcome { WritesUnsized ⟦<Self as ArchiveUnsized>⟧
            ⟦<Self::Archived as ArchivePointee>⟧ self.now S.Keys serializer result }
        ensures there { IfOk result (λ p. p ≡ length (S.state serializer.old).bytes) }
        ensures text { OnOk result (BytesAdded self.now.text.now S.Keys serializer) }
        ensures keys { KeepsKeys (S.state serializer.old).states (S.state serializer.new).states }
        ensures too_long { 4294967295 < length self.now.text.now
            → AtOnce result LengthTooLarge S.Keys serializer }
        ensures cause { IfErr result (ExplainsTextRefusal self.now.text.now
            (S.position serializer.old) (S.state serializer.old) (S.state serializer.new)) }
    {
        if let Err(error) = self.archived_metadata() {
            return Err(error);
        }
        let pos = serializer.pos();
        serializer.write_long(self.text.as_bytes())?;
        Ok(pos)
    }
}

impl<D: Entries> DeserializeUnsized<String, D> for ArchivedStr {
    fn deserialize_unsized_part(
        alloc: Global,
        part: RawView<'_>,
        _deserializer: &mut D,
    ) -> Result<String, Error>
        requires { IsPartOf ⟦<Self as ArchivePointee>⟧ part }
        ensures read { IfOk result (Read ⟦<Self as ArchivePointee>⟧ part D.Entries _deserializer
            ⟦<String as Archive>⟧) }
        ensures text { IfOk result (λ s. string_bytes s
            ≡ bytes_at part.entry.bytes.now part.entry.pos part.entry.len) }
        ensures unchanged { D.entry_of _deserializer.new ≡ D.entry_of _deserializer.old }
        ensures refused { IfErr result (λ e. e ≡ OutOfMemory) }
    {
        let view: Ref<'_, ArchivedStr> = Ref::at(part);
        Ok(String::from_str(alloc, view.as_str())?)
    }
}

impl ArchivedString {
    /// Writes the text if it is longer than eight bytes, and returns the string's resolver.
    /// Existing bytes stay, after a failure too. rkyv 0.8.18 truncates the position.
    ///
    /// Errors:
    /// - `StringTooLong`: exactly if it has more than 1,073,741,823 bytes; nothing is written.
    /// - `PositionTooLarge`: it lies above 4,294,967,295.
    /// - those of the writer.
    #[tactic(auto, using(crate::proofs::Planning::Planned::serialized_inline, crate::proofs::Planning::Planned::serialized_out_of_line, crate::proofs::Planning::Planned::string_refused, crate::proofs::Planning::Planned::long_string_refused, crate::proofs::Planning::Planned::far_string_refused, crate::proofs::Planning::Causes::goes_nowhere))]
    #[inline(always)]
    pub fn serialize_from_str<S: Writer + Keys>(
        value: &str,
        serializer: &mut S,
    ) -> Result<StringResolver, Error>
        ensures outcome { SerializesAs ⟦<Self as Portable>⟧ [] (text_value value.now)
            (string_flat value.now) (λ _. length value.now ≤ 1073741823) S.Keys serializer result }
        ensures inline { length value.now ≤ 8 → IsOk result
            × (S.state serializer.new ≡ S.state serializer.old) }
        ensures too_long { 1073741823 < length value.now
            → AtOnce result StringTooLong S.Keys serializer }
        ensures near { 8 < length value.now → OnOk result
            (length (S.state serializer.old).bytes ≤ 4294967295) }
        ensures there { 8 < length value.now → IfOk result (λ p. p
            ≡ length (S.state serializer.old).bytes) }
        ensures text { 8 < length value.now → OnOk result (BytesAdded value.now S.Keys serializer) }
        ensures keys { KeepsKeys (S.state serializer.old).states (S.state serializer.new).states }
        ensures cause { IfErr result (ExplainsStringRefusal value.now (S.position serializer.old)
            (S.state serializer.old) (S.state serializer.new)) }
    {
        if value.len() <= repr::INLINE_CAPACITY {
            return Ok(StringResolver { pos: 0 });
        }
        if value.len() > repr::OUT_OF_LINE_CAPACITY {
            return Err(Error::StringTooLong);
        }
        let pos = Text { text: value }.serialize_unsized(serializer)?;
        let pos = position_of(pos)?;
        Ok(StringResolver { pos })
    }

    /// Writes the string's bytes over those of `place`. The caller must ensure that these are
    /// eight, and that `value` has at most 1,073,741,823 bytes; `resolver` should be that of
    /// `serialize_from_str`. Fails with `IsizeOverflow` or `OffsetOverflow` exactly if the offset
    /// to a text of more than eight bytes doesn't fit; the bytes are then unchanged. rkyv 0.8.18
    /// panics there.
    #[tactic(auto, using(crate::proofs::Writing::StringsWritten::resolves_inline_flat, crate::proofs::Writing::StringsWritten::resolves_out_of_line_flat))]
    #[inline(always)]
    pub fn resolve_from_str(
        value: &str,
        resolver: StringResolver,
        place: Place<'_, ArchivedString>,
    ) -> Result<(), Error>
        requires sized { length place.bytes.now ≡ 8 }
        requires held { length value.now ≤ 1073741823 }
        ensures resolved { OnOk result
            (Resolves no_definition place.entry.pos place.exit.0.now str_shape
            (string_flat value.now resolver)) }
        ensures written { OnOk result (place.exit.0.now
            ≡ string_form value.now place.entry.pos resolver) }
        ensures inline { length value.now ≤ 8 → IsOk result }
        ensures fits { 8 < length value.now → OnOk result
            (FitsSigned w32 (distance place.entry.pos resolver)) }
        ensures refused { IfErr result (IsTooFarFrom place resolver) }
        ensures same_length { length place.exit.0.now ≡ length place.entry.bytes.now }
    {
        let Place { bytes, pos, .. } = place;
        if value.len() <= repr::INLINE_CAPACITY {
            repr::emplace_inline(value, bytes);
            return Ok(());
        }
        repr::try_emplace_out_of_line(value, pos, resolver.pos as usize, bytes)
    }
}

impl Archive for String {
    type Archived = ArchivedString;

    type Resolver = StringResolver;

    ghost meaning = { λ s. text_value (string_bytes s) };

    ghost flat = { λ s r. string_flat (string_bytes s) r };

    ghost keys = { λ _. [] };

    ghost belongs = { λ s _. length (string_bytes s) ≤ 1073741823 };

    ghost in_bulk = { None };

    ghost keyed = { λ s. text_keyed (string_bytes s) };

    ghost planned = { λ s. string_planned no_definition [] (string_bytes s) };

    #[inline(always)]
    fn resolve(
        &self,
        resolver: StringResolver,
        place: Place<'_, ArchivedString>,
    ) -> Result<(), Error>
        requires zeroed { ZeroedPlace 8 place.pos place.bytes.now }
        requires same_value { length (string_bytes self.now) ≤ 1073741823 }
        ensures outcome { ResolvesAs ⟦<Self::Archived as Portable>⟧ place
            (⟦<Self as Archive>⟧.flat self.now resolver) result }
        ensures cause { IfErr result (HindersStringAt (string_bytes self.now) resolver
            place.entry.pos) }
        ensures written { OnOk result (place.exit.0.now
            ≡ string_form (string_bytes self.now) place.entry.pos resolver) }
        ensures inline { length (string_bytes self.now) ≤ 8 → IsOk result }
    {
        let Place { bytes, pos, .. } = place;
        ArchivedString::resolve_from_str(self.as_str(), resolver, Place::new(pos, bytes))
    }

    #[inline(always)]
    fn copy_optimization() -> CopyOptimization<Self> {
        CopyOptimization::disable()
    }

    #[inline(always)]
    fn serialize_copied<S: Writer + Keys>(
        _values: &[Self],
        _together: usize,
        _serializer: &mut S,
    ) -> Result<Option<usize>, Error> {
        Ok(None)
    }
}

impl<S: Writer + Keys> Serialize<S> for String {
    #[inline(always)]
    fn serialize(&self, serializer: &mut S) -> Result<StringResolver, Error>
        ensures outcome { Serializes ⟦<Self as Archive>⟧ ⟦<Self::Archived as Portable>⟧ self.now
            S.Keys serializer result }
        ensures keys { KeepsKeys (S.state serializer.old).states (S.state serializer.new).states }
        ensures inline { length (string_bytes self.now) ≤ 8 → IsOk result
            × (S.state serializer.new ≡ S.state serializer.old) }
        ensures too_long { 1073741823 < length (string_bytes self.now)
            → AtOnce result StringTooLong S.Keys serializer }
        ensures there { 8 < length (string_bytes self.now) → IfOk result (λ p. p
            ≡ length (S.state serializer.old).bytes) }
        ensures text { 8 < length (string_bytes self.now)
            → OnOk result (BytesAdded (string_bytes self.now) S.Keys serializer) }
        ensures cause { IfErr result (ExplainsStringRefusal (string_bytes self.now)
            (S.position serializer.old) (S.state serializer.old) (S.state serializer.new)) }
    {
        ArchivedString::serialize_from_str(self.as_str(), serializer)
    }
}

/// As a region of its own.
impl ArchiveUnsized for String {
    type Archived = ArchivedString;

    ghost source_length = { λ _. 0 };

    ghost meaning = { λ s. text_value (string_bytes s) };

    ghost keys = { λ _. [] };

    ghost keyed = { λ s. text_keyed (string_bytes s) };

    ghost one_length = { λ _ _. refl };

    ghost planned = { λ s. one_planned no_definition str_shape [] (text_value (string_bytes s))
        (string_planned no_definition [] (string_bytes s)) };

    #[inline(always)]
    fn archived_metadata(&self) -> Result<(), Error> {
        Ok(())
    }
}

impl<S: Writer + ResolverAlloc> SerializeUnsized<S> for String {
    #[inline(always)]
    fn serialize_unsized(&self, serializer: &mut S) -> Result<usize, Error> {
        serialize_one(self, serializer)
    }
}

impl<D: Entries> Deserialize<String, D> for ArchivedString {
    #[inline(always)]
    fn deserialize_part(
        alloc: Global,
        part: RawView<'_>,
        _deserializer: &mut D,
    ) -> Result<String, Error>
        requires { IsPartOf ⟦<Self as ArchivePointee>⟧ part }
        ensures read { IfOk result (Read ⟦<Self as ArchivePointee>⟧ part D.Entries _deserializer
            ⟦<String as Archive>⟧) }
        ensures text { IfOk result (λ s. string_bytes s
            ≡ string_text part.entry.bytes.now part.entry.pos) }
        ensures unchanged { D.entry_of _deserializer.new ≡ D.entry_of _deserializer.old }
        ensures refused { IfErr result (λ e. e ≡ OutOfMemory) }
    {
        let view: Ref<'_, ArchivedString> = Ref::at(part);
        Ok(String::from_str(alloc, view.as_str())?)
    }
}
