// What the regions of pointers take.

ghost use Rattle.std.specs.Prelude.{◌≡◌, IfOk, IfErr, IsOk};
ghost use Rattle.archive_check.specs.Shape.{run};
ghost use Rattle.archive_check.specs.Members.RegionLayout.{IsRegionLayout, HasNoLayout};
ghost use Rattle.archive_check.specs.declared.format.error.Error.TheVariants.{LayoutTooLarge};

use super::{ArchivePointee, Portable};
use crate::format::error::Error;
use crate::format::extents::times;
use crate::format::layout::Layout;

/// Gives the layout of the region that a pointer with a certain length leads to.
///
/// Every archived type implements it, and slices and texts, for which the length counts elements or
/// bytes.
///
/// ```
/// let number = ArchivedU32::layout_raw(0)?;                     // 4 bytes, alignment 4
/// let text = ArchivedStr::layout_raw(11)?;                      // 11 bytes, alignment 1
/// let run = ArchivedSlice::<ArchivedU32>::layout_raw(3)?;       // 12 bytes, alignment 4
/// ```
pub trait LayoutRaw: ArchivePointee {
    /// The layout in bytes for this length: 0 for one value, else the number of elements or bytes.
    /// Fails with `LayoutTooLarge` exactly if the size is above `usize::MAX`; but one value, or a
    /// run of one, never fails, and its size is then `usize::MAX`. rkyv 0.8.18 takes the metadata,
    /// and fails above `isize::MAX`.
    fn layout_raw(length: usize) -> Result<Layout, Error>
        ensures made { IfOk result (λ l. IsRegionLayout Self.definitions Self.pointee length l) }
        ensures refused { IfErr result (λ e. (e ≡ LayoutTooLarge)
            × HasNoLayout Self.definitions Self.pointee length) };
}

/// One value: its size and alignment, whatever the length. It never fails.
impl<T: Portable> LayoutRaw for T {
    fn layout_raw(_length: usize) -> Result<Layout, Error>
        ensures made { IfOk result (λ l. IsRegionLayout T.definitions T.pointee _length l) }
        ensures refused { IfErr result (λ e. (e ≡ LayoutTooLarge)
            × HasNoLayout T.definitions T.pointee _length) }
        ensures never_refused { IsOk result }
    {
        Ok(Layout {
            size: T::size(),
            align: T::align(),
        })
    }
}

/// The layout in bytes of `length` values one after another. Fails with `LayoutTooLarge` exactly if
/// the size is above `usize::MAX`; but a run of one never fails, and its size is then `usize::MAX`.
pub fn layout_of_run<T: Portable>(length: usize) -> Result<Layout, Error>
    ensures made { IfOk result (λ l. IsRegionLayout T.definitions (run T.shape) length l) }
    ensures refused { IfErr result (λ e. (e ≡ LayoutTooLarge)
        × HasNoLayout T.definitions (run T.shape) length) }
{
    match times(Some(T::size()), length) {
        None => Err(Error::LayoutTooLarge),
        Some(size) => Ok(Layout {
            size,
            align: T::align(),
        }),
    }
}
