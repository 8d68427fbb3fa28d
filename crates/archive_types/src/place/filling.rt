// The parts of a place, resolved where they lie: a record's fields, an array's elements, and what
// is behind a choice's tag.

ghost use Rattle.std.specs.Prelude.{◌≡◌, ◌+◌, ◌*◌, ◌<◌, ◌≤◌, ◌^◌, Some, length, OnOk, IfErr};
ghost use Rattle.archive_check.specs.Members.PartsLayout.{part_at};
ghost use Rattle.archive_check.specs.Members.VariantsLayout.{payload_at};
ghost use Rattle.archive_types.specs.Words.PlacedParts.{ChangesOnly, ZeroedPart};
ghost use Rattle.archive_types.specs.Outcomes.{ResolvesPart};

use super::Place;
use crate::ser::resolve_into;
use crate::traits::{Archive, Choice, Portable, Record};
use archive_check::format::error::Error;

// Resolves a value over the part of `bytes` at the offset `begin`; they stand at `pos`.
#[inline(always)]
fn resolve_part<V: Archive>(
    value: &V,
    resolver: V::Resolver,
    pos: usize,
    begin: usize,
    bytes: &mut [u8],
) -> Result<(), Error>
    requires inside { begin + V.Archived.layout.size ≤ length bytes.old }
    requires ends { pos + length bytes.old < 2 ^ 64 }
    requires zeroed { ZeroedPart begin V.Archived.layout.size bytes.old }
    requires same_value { V.belongs value.now resolver }
    ensures { ResolvesPart V.Archived.Portable (V.flat value.now resolver) begin
        pos bytes.old bytes.new result }
{
    let end = begin + V::Archived::size();
    resolve_into(value, resolver, pos + begin, &mut bytes[begin..end])
}

impl<'a, T: Record> Place<'a, T> {
    /// Resolves `value` as part `i`, where that lies; the other bytes stay. The caller must ensure that the part has the archived type of `value`, that
    /// its bytes are zeros, and what `field` requires. Fails as `Archive::resolve` does, with the part's bytes left open.
    #[inline(always)]
    pub fn resolve_field<V: Archive>(
        &mut self,
        i: usize,
        value: &V,
        resolver: V::Resolver,
    ) -> Result<(), Error>
        requires part { part_at T.Parts.parts i ≡ Some V.Archived.shape }
        requires size { T.Parts.size_at i ≡ V.Archived.layout.size }
        requires sized { length self.old.bytes.now ≡ T.layout.size }
        requires ends { self.old.pos + T.layout.size < 2 ^ 64 }
        requires zeroed { ZeroedPart (T.Parts.begin 0 i) V.Archived.layout.size self.old.bytes.now }
        requires same_value { V.belongs value.now resolver }
        ensures same_reference { self.new.bytes.ghost_name ≡ self.old.bytes.ghost_name }
        ensures position { self.new.pos ≡ self.old.pos }
        ensures outcome { ResolvesPart V.Archived.Portable (V.flat value.now resolver)
            (T.Parts.begin 0 i) self.old.pos self.old.bytes.now self.new.bytes.now result }
    {
        resolve_part(value, resolver, self.pos, T::offset(i), self.bytes)
    }
}

impl<'a, T: Portable, const N: usize> Place<'a, [T; N]> {
    /// Resolves `value` as the element `index`, of which 0 is the first; the other bytes stay. The caller must ensure that the element's bytes are zeros,
    /// and what `index` requires. Fails as `Archive::resolve` does, with the element's bytes left open.
    #[inline(always)]
    pub fn resolve_index<V: Archive<Archived = T>>(
        &mut self,
        index: usize,
        value: &V,
        resolver: V::Resolver,
    ) -> Result<(), Error>
        requires in_bounds { index < N }
        requires sized { length self.old.bytes.now ≡ N * T.layout.size }
        requires ends { self.old.pos + N * T.layout.size < 2 ^ 64 }
        requires zeroed { ZeroedPart (index * T.layout.size) T.layout.size self.old.bytes.now }
        requires same_value { V.belongs value.now resolver }
        ensures same_reference { self.new.bytes.ghost_name ≡ self.old.bytes.ghost_name }
        ensures position { self.new.pos ≡ self.old.pos }
        ensures outcome { ResolvesPart T.Portable (V.flat value.now resolver)
            (index * T.layout.size) self.old.pos self.old.bytes.now self.new.bytes.now result }
    {
        resolve_part(value, resolver, self.pos, index * T::size(), self.bytes)
    }
}

impl<'a, T: Choice> Place<'a, T> {
    /// Resolves `value` as part `i` of the variant with this tag; the other bytes stay, the tag too. The caller must ensure that the part has the archived
    /// type of `value`, that its bytes are zeros, and what `payload` requires. Fails as `Archive::resolve` does, with the part's bytes left open.
    #[inline(always)]
    pub fn resolve_payload<V: Archive>(
        &mut self,
        tag: u8,
        i: usize,
        value: &V,
        resolver: V::Resolver,
    ) -> Result<(), Error>
        requires part { payload_at T.Variants.variants tag i ≡ Some V.Archived.shape }
        requires size { T.Variants.size_at tag i ≡ V.Archived.layout.size }
        requires sized { length self.old.bytes.now ≡ T.layout.size }
        requires ends { self.old.pos + T.layout.size < 2 ^ 64 }
        requires zeroed { ZeroedPart (T.Variants.begin tag i) V.Archived.layout.size
            self.old.bytes.now }
        requires same_value { V.belongs value.now resolver }
        ensures same_reference { self.new.bytes.ghost_name ≡ self.old.bytes.ghost_name }
        ensures position { self.new.pos ≡ self.old.pos }
        ensures outcome { ResolvesPart V.Archived.Portable (V.flat value.now resolver)
            (T.Variants.begin tag i) self.old.pos self.old.bytes.now self.new.bytes.now result }
    {
        resolve_part(value, resolver, self.pos, T::offset(tag, i), self.bytes)
    }
}
