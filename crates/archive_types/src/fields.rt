//! Records: views of their parts.

ghost use Rattle.std.specs.Prelude.{◌≡◌, ◌+◌, Some};
ghost use Rattle.archive_check.specs.Members.PartsLayout.{part_at, definitions_at};
ghost use Rattle.archive_types.specs.Fields.{field_in};
ghost use Rattle.archive_types.specs.Members.KnownParts.{KnowsAlso};
ghost use Rattle.archive_types.specs.Words.Seen.{ShowsValueOf};
ghost use Rattle.archive_types.specs.Views.{ShowsPart};

use crate::traits::{Portable, Record};
use crate::view::{RawView, Ref};

impl<'a, T: Record> Ref<'a, T> {
    /// The view of part `i`. The caller must ensure that its expression is that of `U`, and that
    /// its names have the definitions that `U` has. rkyv 0.8.18 has the type's fields.
    pub fn field<U: Portable>(self, i: usize) -> Ref<'a, U>
        requires part { part_at T.Parts.parts i ≡ Some U.shape }
        requires definitions { KnowsAlso (definitions_at T.Parts.definitions i) U.definitions }
        ensures buffer { result.bytes.now ≡ self.entry.bytes.now }
        ensures position { result.pos ≡ self.entry.pos + T.Parts.begin 0 i }
        ensures length { result.len ≡ 0 }
        ensures shows { ShowsValueOf result self.entry (field_in i) }
    {
        let RawView { bytes, pos, .. } = self.part();
        Ref::at(RawView {
            bytes,
            pos: pos + T::offset(i),
            len: 0,
        })
    }
}
