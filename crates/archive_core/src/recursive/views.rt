// The parts of a recursive value, where it is viewed and sealed: views and seals of them, each where it begins.

ghost use Rattle.std.specs.Prelude.{◌≡◌, ◌+◌, ◌<◌, Some};
ghost use Rattle.archive_check.specs.Members.PartsLayout.{definitions_at, part_at};
ghost use Rattle.archive_check.specs.Members.VariantsLayout.{payload_at, payload_definitions};
ghost use Rattle.archive_core.specs.SealOutcomes.{IsSealOf, SealsPart, seal_tag};
ghost use Rattle.archive_core.specs.fields.Plain.{variant_count};
ghost use Rattle.archive_types.specs.Fields.{field_in};
ghost use Rattle.archive_types.specs.Members.KnownParts.{KnowsAlso};
ghost use Rattle.archive_types.specs.Payloads.{payload_in};
ghost use Rattle.archive_types.specs.Words.Seen.{ShowsValueOf, tag_of};

use crate::seal::Seal;
use archive_types::traits::{Choice, Portable, Record};
use archive_types::view::Ref;

/// The tag that a view shows, which names one of the variants.
#[tactic(auto, using(crate::proofs::fields::Ties::some_below))]
#[inline(always)]
pub fn tag_of_view<X: Choice>(view: Ref<'_, X>) -> u8
    ensures tag { result ≡ tag_of view.entry }
    ensures below { result < variant_count X.Variants.variants }
{
    view.tag()
}

/// The view of a part of a variant, which begins at `offset`. The caller must ensure that the view shows this tag.
#[inline(always)]
pub fn view_of_payload<'a, X: Choice, U: Portable>(
    view: Ref<'a, X>,
    tag: u8,
    i: usize,
    offset: usize,
) -> Ref<'a, U>
    requires tag { tag_of view ≡ tag }
    requires part { payload_at X.Variants.variants tag i ≡ Some U.shape }
    requires definitions { KnowsAlso (payload_definitions X.Variants.definitions tag i)
        U.definitions }
    requires begins { X.Variants.begin tag i ≡ offset }
    ensures buffer { result.bytes.now ≡ view.entry.bytes.now }
    ensures position { result.pos ≡ view.entry.pos + offset }
    ensures length { result.len ≡ 0 }
    ensures shows { ShowsValueOf result view.entry (payload_in i) }
{
    let _tag = tag;
    let _offset = offset;
    view.payload(i)
}

/// The view of a field of a record, which begins at `offset`.
#[inline(always)]
pub fn view_of_field<'a, X: Record, U: Portable>(
    view: Ref<'a, X>,
    i: usize,
    offset: usize,
) -> Ref<'a, U>
    requires part { part_at X.Parts.parts i ≡ Some U.shape }
    requires definitions { KnowsAlso (definitions_at X.Parts.definitions i) U.definitions }
    requires begins { X.Parts.begin 0 i ≡ offset }
    ensures buffer { result.bytes.now ≡ view.entry.bytes.now }
    ensures position { result.pos ≡ view.entry.pos + offset }
    ensures length { result.len ≡ 0 }
    ensures shows { ShowsValueOf result view.entry (field_in i) }
{
    let _offset = offset;
    view.field(i)
}

/// The seal of a part of a variant, which begins at `offset`. The caller must ensure that the seal shows this tag, and that seals reach what it shows.
#[inline(always)]
pub fn seal_of_payload<'a, X: Choice, U: Portable>(
    seal: Seal<'a, X>,
    tag: u8,
    i: usize,
    offset: usize,
) -> Seal<'a, U>
    requires come_to { IsSealOf X.definitions X.pointee seal }
    requires tag { seal_tag seal ≡ tag }
    requires part { payload_at X.Variants.variants tag i ≡ Some U.shape }
    requires definitions { KnowsAlso (payload_definitions X.Variants.definitions tag i)
        U.definitions }
    requires begins { X.Variants.begin tag i ≡ offset }
    ensures { SealsPart X.definitions X.pointee U.definitions U.pointee (seal.entry.pos + offset) 0
        seal.entry result }
{
    let _tag = tag;
    let _offset = offset;
    seal.payload(i)
}

/// The seal of a field of a record, which begins at `offset`. The caller must ensure that seals reach what the seal shows.
#[inline(always)]
pub fn seal_of_field<'a, X: Record, U: Portable>(
    seal: Seal<'a, X>,
    i: usize,
    offset: usize,
) -> Seal<'a, U>
    requires come_to { IsSealOf X.definitions X.pointee seal }
    requires part { part_at X.Parts.parts i ≡ Some U.shape }
    requires definitions { KnowsAlso (definitions_at X.Parts.definitions i) U.definitions }
    requires begins { X.Parts.begin 0 i ≡ offset }
    ensures { SealsPart X.definitions X.pointee U.definitions U.pointee (seal.entry.pos + offset) 0
        seal.entry result }
{
    let _offset = offset;
    seal.field(i)
}
