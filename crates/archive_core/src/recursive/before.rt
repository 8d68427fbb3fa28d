// What a pointer leads to ends before the pointer: reading that follows pointers terminates by this.

ghost use Rattle.std.specs.Prelude.{◌≡◌, ◌+◌, ◌*◌, ◌≤◌};
ghost use Rattle.archive_check.specs.Readable.{target_from};
ghost use Rattle.archive_check.specs.Reads.{u32_at, length_at};

use archive_types::boxed::ArchivedBox;
use archive_types::slice::ArchivedSlice;
use archive_types::traits::Portable;
use archive_types::vec::ArchivedVec;
use archive_types::view::Ref;

/// The view of what a box holds, which ends before the box.
#[inline(always)]
pub fn before_box<'a, X: Portable>(view: Ref<'a, ArchivedBox<X>>) -> Ref<'a, X>
    ensures buffer { result.bytes.now ≡ view.entry.bytes.now }
    ensures position { result.pos ≡ target_from view.entry.bytes.now view.entry.pos view.entry.pos }
    ensures length { result.len ≡ length_at view.entry.bytes.now view.entry.pos X.pointee }
    ensures ends { result.pos + X.layout.size ≤ view.entry.pos }
{
    view.get()
}

/// The view of a vector's elements, which end before the vector.
#[inline(always)]
pub fn before_vec<'a, X: Portable>(view: Ref<'a, ArchivedVec<X>>) -> Ref<'a, ArchivedSlice<X>>
    ensures buffer { result.bytes.now ≡ view.entry.bytes.now }
    ensures position { result.pos ≡ target_from view.entry.bytes.now view.entry.pos view.entry.pos }
    ensures length { result.len ≡ u32_at view.entry.bytes.now (view.entry.pos + 4) }
    ensures ends { result.pos + result.len * X.layout.size ≤ view.entry.pos }
{
    view.as_slice()
}
