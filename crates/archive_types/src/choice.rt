//! Choices: views of their tags and of what is behind them, and places of their tags.

ghost use Rattle.std.specs.Prelude.{◌≡◌, ◌+◌, ◌<◌, ◌^◌, Some, is_some, length, slice_index, slice_set, true};
ghost use Rattle.archive_check.specs.Reads.{bytes_at};
ghost use Rattle.archive_check.specs.Shape.{variant_at};
ghost use Rattle.archive_check.specs.Members.VariantsLayout.{payload_at, payload_definitions};
ghost use Rattle.archive_types.specs.Members.KnownParts.{KnowsAlso};
ghost use Rattle.archive_types.specs.Payloads.{payload_in};
ghost use Rattle.archive_types.specs.Words.Seen.{tag_of, ShowsValueOf};
ghost use Rattle.archive_types.specs.Views.{ShowsPart};

use crate::place::Place;
use crate::traits::{Choice, Portable};
use crate::view::{RawView, Ref};

impl<'a, T: Choice> Ref<'a, T> {
    /// The tag, which names one of the variants.
    pub fn tag(self) -> u8
        ensures value { result ≡ slice_index self.entry.bytes.now self.entry.pos }
        ensures known { is_some (variant_at T.Variants.variants result) ≡ true }
    {
        let RawView { bytes, pos, .. } = self.part();
        bytes[pos]
    }

    /// The view of part `i` of the variant that the tag names. The caller must ensure that its expression is that of `U`, and that its names have the
    /// definitions that `U` has.
    pub fn payload<U: Portable>(self, i: usize) -> Ref<'a, U>
        requires part { payload_at T.Variants.variants (slice_index self.bytes.now self.pos) i
            ≡ Some U.shape }
        requires definitions { KnowsAlso (payload_definitions T.Variants.definitions (tag_of self)
            i) U.definitions }
        ensures buffer { result.bytes.now ≡ self.entry.bytes.now }
        ensures position { result.pos ≡ self.entry.pos + T.Variants.begin
            (slice_index self.entry.bytes.now self.entry.pos) i }
        ensures length { result.len ≡ 0 }
        ensures shows { ShowsValueOf result self.entry (payload_in i) }
    {
        let RawView { bytes, pos, .. } = self.part();
        let tag = bytes[pos];
        Ref::at(RawView {
            bytes,
            pos: pos + T::offset(tag, i),
            len: 0,
        })
    }
}

impl<'a, T: Choice> Place<'a, T> {
    /// Writes the tag, which is the first byte; every other one stays. The caller must ensure that
    /// it names a variant, and that there is a byte.
    pub fn write_tag(&mut self, tag: u8)
        requires known { is_some (variant_at T.Variants.variants tag) ≡ true }
        requires some { 0 < length self.old.bytes.now }
        ensures same_reference { self.new.bytes.ghost_name ≡ self.old.bytes.ghost_name }
        ensures position { self.new.pos ≡ self.old.pos }
        ensures written { self.new.bytes.now ≡ slice_set self.old.bytes.now 0 tag }
    {
        self.bytes[0] = tag;
    }

    /// The place of part `i` of the variant with this tag. The caller must ensure that this part is a `U`, that the place has as many bytes as a `T`, and
    /// that their end fits `usize`. What the choice's bytes are afterwards isn't said: `resolve_payload` says it.
    pub fn payload<U: Portable>(self, tag: u8, i: usize) -> Place<'a, U>
        requires part { payload_at T.Variants.variants tag i ≡ Some U.shape }
        requires size { T.Variants.size_at tag i ≡ U.layout.size }
        requires sized { length self.bytes.now ≡ T.layout.size }
        requires ends { self.pos + T.layout.size < 2 ^ 64 }
        ensures buffer { result.bytes.now ≡ bytes_at self.entry.bytes.now (T.Variants.begin tag i)
            U.layout.size }
        ensures position { result.pos ≡ self.entry.pos + T.Variants.begin tag i }
    {
        let Place { bytes, pos, .. } = self;
        let begin = T::offset(tag, i);
        Place::new(pos + begin, &mut bytes[begin..begin + U::size()])
    }
}
