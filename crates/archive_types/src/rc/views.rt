// Views of shared and weak pointers.

ghost use Rattle.std.specs.Prelude.{◌≡◌, ◌+◌, ◌≤◌, length, pos as whole, IfSome, IfNone, IsNone};
ghost use Rattle.std.specs.Ordering.{int_eq};
ghost use Rattle.archive_check.specs.Readable.{target_from};
ghost use Rattle.archive_check.specs.Reads.{i32_at, length_at};
ghost use Rattle.archive_check.specs.Shape.{one, shared, weak};
ghost use Rattle.archive_check.specs.Value.{null, shared_value};
ghost use Rattle.archive_check.specs.Viewed.{Says};
ghost use Rattle.archive_types.specs.Words.Seen.{ShowsValue, StandsBeside, IsTargetOf};
ghost use Rattle.archive_types.specs.Members.SharedLaws.{flavor_as};
ghost use Rattle.archive_types.specs.Standing.{StandsWith, view};

use super::{ArchivedRc, ArchivedRcWeak, Flavor};
use crate::owner_pointers::read_length;
use crate::traits::PortablePointee;
use crate::view::{RawView, Ref};
use archive_check::format::bytes::{read_i32, read_target};

// Whether the weak pointer at `pos` is a null.
fn is_null(bytes: &[u8], pos: usize) -> bool
    requires { pos + 4 ≤ length bytes.now }
    ensures { result ≡ int_eq (i32_at bytes.now pos) (whole 1) }
{
    read_i32(bytes, pos) == 1
}

impl<'a, T: PortablePointee, F: Flavor> Ref<'a, ArchivedRc<T, F>> {
    /// What the pointer leads to. As in rkyv 0.8.18.
    pub fn get(self) -> Ref<'a, T>
        ensures buffer { result.bytes.now ≡ self.entry.bytes.now }
        ensures position { result.pos ≡ target_from self.entry.bytes.now self.entry.pos
            self.entry.pos }
        ensures length { result.len ≡ length_at self.entry.bytes.now self.entry.pos T.pointee }
        ensures says { ShowsValue self.entry (shared_value result.pos) }
        ensures beside { StandsBeside result self.entry }
    {
        let RawView { bytes, pos, .. } = self.part();
        let target = read_target(bytes, pos, pos);
        Ref::at(RawView {
            bytes,
            pos: target,
            len: read_length::<T>(bytes, pos),
        })
    }
}

impl<'a, T: PortablePointee, F: Flavor> Ref<'a, ArchivedRcWeak<T, F>> {
    /// What the pointer leads to; none exactly if it is null, whose offset is 1. As in rkyv 0.8.18.
    pub fn upgrade(self) -> Option<Ref<'a, T>>
        ensures some { IfSome result (IsTargetOf self.entry) }
        ensures none { IfNone result (ShowsValue self.entry null) }
        ensures offset { IfSome result (λ r. i32_at self.entry.bytes.now self.entry.pos ≡ whole 1
            → ⊥) }
        ensures null { i32_at self.entry.bytes.now self.entry.pos ≡ whole 1 → IsNone result }
        ensures beside { IfSome result (λ r. StandsBeside r self.entry) }
        ensures is_null { IfNone result (i32_at self.entry.bytes.now self.entry.pos ≡ whole 1) }
    {
        let RawView { bytes, pos, .. } = self.part();
        if is_null(bytes, pos) {
            return None;
        }
        let target = read_target(bytes, pos, pos);
        let part = RawView {
            bytes,
            pos: target,
            len: read_length::<T>(bytes, pos),
        };
        Some(Ref::at(part))
    }
}
