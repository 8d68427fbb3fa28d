// The parts of a recursive value, where it is read back: which part stands where, and its value.

ghost use Rattle.std.specs.Prelude.{◌≡◌, ◌+◌, ◌<◌, Some};
ghost use Rattle.archive_check.specs.Members.PartsLayout.{definitions_at, part_at};
ghost use Rattle.archive_check.specs.Members.VariantsLayout.{payload_at, payload_definitions};
ghost use Rattle.archive_core.specs.fields.Plain.{variant_count};
ghost use Rattle.archive_types.specs.Members.KnownParts.{KnowsAlso};
ghost use Rattle.archive_types.specs.Words.Seen.{IsPartOf, part_tag};
ghost use Rattle.archive_types.specs.Words.ReadBack.{ReadsAs};

use archive_check::format::error::Error;
use archive_types::traits::{Archive, Choice, Deserialize, Entries, Portable, Record};
use archive_types::view::{RawView, Ref};
use std::alloc::Global;

/// The tag of a choice, which names one of its variants.
#[tactic(auto, using(crate::proofs::fields::Ties::some_below))]
#[inline(always)]
pub fn tag_of_choice<X: Choice>(part: RawView<'_>) -> u8
    requires { IsPartOf X.ArchivePointee part }
    ensures tag { result ≡ part_tag part.entry }
    ensures below { result < variant_count X.Variants.variants }
{
    let view: Ref<'_, X> = Ref::at(part);
    view.tag()
}

/// The part of a variant that begins at `offset`. The caller must ensure that `part` shows this tag.
#[inline(always)]
pub fn part_of_variant<'a, X: Choice, U: Portable>(
    part: RawView<'a>,
    tag: u8,
    i: usize,
    offset: usize,
) -> RawView<'a>
    requires viewed { IsPartOf X.ArchivePointee part }
    requires tag { part_tag part ≡ tag }
    requires part { payload_at X.Variants.variants tag i ≡ Some U.shape }
    requires definitions { KnowsAlso (payload_definitions X.Variants.definitions tag i)
        U.definitions }
    requires begins { X.Variants.begin tag i ≡ offset }
    ensures buffer { result.bytes.now ≡ part.entry.bytes.now }
    ensures position { result.pos ≡ part.entry.pos + offset }
    ensures length { result.len ≡ 0 }
    ensures viewed { IsPartOf U.ArchivePointee result }
{
    let _tag = tag;
    let _offset = offset;
    let view: Ref<'_, X> = Ref::at(part);
    let inner: Ref<'_, U> = view.payload(i);
    inner.part()
}

/// The part of a record that begins at `offset`.
#[inline(always)]
pub fn part_of_record<'a, X: Record, U: Portable>(
    part: RawView<'a>,
    i: usize,
    offset: usize,
) -> RawView<'a>
    requires viewed { IsPartOf X.ArchivePointee part }
    requires part { part_at X.Parts.parts i ≡ Some U.shape }
    requires definitions { KnowsAlso (definitions_at X.Parts.definitions i) U.definitions }
    requires begins { X.Parts.begin 0 i ≡ offset }
    ensures buffer { result.bytes.now ≡ part.entry.bytes.now }
    ensures position { result.pos ≡ part.entry.pos + offset }
    ensures length { result.len ≡ 0 }
    ensures viewed { IsPartOf U.ArchivePointee result }
{
    let _offset = offset;
    let view: Ref<'_, X> = Ref::at(part);
    let inner: Ref<'_, U> = view.field(i);
    inner.part()
}

/// The value of a part, read back. Fails as `Deserialize::deserialize_part` does.
#[inline(always)]
pub fn read_part<X: Deserialize<T, D>, T: Archive, D: Entries>(
    alloc: Global,
    part: RawView<'_>,
    deserializer: &mut D,
) -> Result<T, Error>
    requires { IsPartOf X.ArchivePointee part }
    ensures { ReadsAs X.ArchivePointee part D.Entries deserializer T.Archive result }
{
    X::deserialize_part(alloc, part, deserializer)
}
