//! Views that may change what they show, and not its shape.

ghost use Rattle.std.specs.Prelude.{◌≡◌, ⊤};
ghost use Rattle.archive_check.specs.ComesTo.{IsComeTo};
ghost use Rattle.archive_check.specs.Viewed.{Viewed};
ghost use Rattle.archive_core.specs.SealOutcomes.{IsSealOf};

mod cases;
mod choices;
mod fields;
mod items;
mod leaves;
mod maps;
mod parts;
mod results;
mod text;

use archive_check::format::traits::ArchivePointee;
pub use archive_types::primitive::SealedLeaf;
use archive_types::view::{RawView, Ref};
pub use cases::{sealed_part_in_case, sealed_part_in_record};
use std::alloc::AllocError;
use std::marker::PhantomData;

/// Where a validated part lies, without its bytes: a position and a length. It is copied freely and
/// borrows nothing. A view returns it (`spot`), and with the bytes it gives a view again, or a seal
/// if it is no key of a map.
///
/// ```
/// let spot = access::<ArchivedU32>(alloc, bytes.as_slice())?.spot();
/// spot.seal(bytes.as_mut_slice()).write(7);
/// let seven = spot.view(bytes.as_slice()).get();
/// ```
pub struct Spot<T> {
    pos: usize,
    len: usize,
    of: PhantomData<T>,
}

impl<T> Clone for Spot<T> {
    ghost is_clone = { λ x y. y ≡ x };

    ghost is_infallible = { λ _. ⊤ };

    fn clone(&self) -> Result<Spot<T>, AllocError> {
        Ok(*self)
    }
}

impl<T> Copy for Spot<T> {}

/// A part of a validated buffer, to be changed in place: its value may change, its form may not. As
/// in rkyv 0.8.18, over the whole buffer.
///
/// `access_mut` returns the root's seal, and its calls those of parts. They never fail and take no
/// memory. Each part can be sealed but the keys of maps, so that these stay in their order.
///
/// ```
/// let seal = access_mut::<ArchivedVec<ArchivedU32>>(alloc, bytes.as_mut_slice())?;
/// seal.index(0).write(7);
/// ```
#[derive(Drop)]
pub struct Seal<'a, T> {
    bytes: &'a mut [u8],
    pos: usize,
    len: usize,
    of: PhantomData<T>,
}

impl<T> Spot<T> {
    // The spot at a position, with a length.
    fn at(pos: usize, len: usize) -> Spot<T>
        ensures position { result.pos ≡ pos }
        ensures length { result.len ≡ len }
    {
        Spot {
            pos,
            len,
            of: PhantomData,
        }
    }
}

impl<T: ArchivePointee> Spot<T> {
    // Where what a view shows stands, without its bytes.
    fn of(view: Ref<'_, T>) -> Spot<T>
        ensures position { result.pos ≡ view.entry.pos }
        ensures length { result.len ≡ view.entry.len }
        ensures viewed { Viewed T.definitions view.entry.bytes.now result.pos T.pointee result.len }
    {
        let RawView { pos, len, .. } = view.part();
        Spot::at(pos, len)
    }

    /// Where it begins, in bytes from the buffer's first one.
    pub fn pos(self) -> usize
        ensures { result ≡ self.pos }
    {
        self.pos
    }

    /// The view of what lies there. The caller must ensure that the part is one of a validated
    /// buffer, as in that from which the spot came.
    pub fn view(self, bytes: &[u8]) -> Ref<'_, T>
        requires { Viewed T.definitions bytes.now self.pos T.pointee self.len }
        ensures buffer { result.bytes.now ≡ bytes.now }
        ensures position { result.pos ≡ self.pos }
        ensures length { result.len ≡ self.len }
    {
        Ref::at(RawView {
            bytes,
            pos: self.pos,
            len: self.len,
        })
    }

    /// The seal of what lies there. The caller must ensure that seals reach it from the root of a
    /// validated buffer, as of that from which the spot came: that it is no key of a map. No byte
    /// changes; calls on the seal change these very bytes.
    pub fn seal<'a>(self, bytes: &'a mut [u8]) -> Seal<'a, T>
        requires { IsComeTo T.definitions bytes.old self.pos T.pointee self.len }
        ensures same_reference { result.bytes.ghost_name ≡ bytes.entry.ghost_name }
        ensures buffer { result.bytes.now ≡ bytes.old }
        ensures position { result.pos ≡ self.pos }
        ensures length { result.len ≡ self.len }
        ensures come_to { IsSealOf T.definitions T.pointee result }
    {
        Seal {
            bytes,
            pos: self.pos,
            len: self.len,
            of: PhantomData,
        }
    }
}

/// The call `spot` of a view.
pub trait SpotExt<T> {
    /// Where what the view shows lies, without its bytes.
    fn spot(self) -> Spot<T>;
}

/// Every view has it.
impl<T: ArchivePointee> SpotExt<T> for Ref<'_, T> {
    fn spot(self) -> Spot<T>
        ensures position { result.pos ≡ self.entry.pos }
        ensures length { result.len ≡ self.entry.len }
        ensures viewed { Viewed T.definitions self.entry.bytes.now result.pos T.pointee result.len }
    {
        Spot::of(self)
    }
}

impl<'a, T: ArchivePointee> Seal<'a, T> {
    /// Where it begins, in bytes from the buffer's first one.
    pub fn pos(&self) -> usize
        ensures { result ≡ self.now.pos }
    {
        self.pos
    }

    /// A view of what it shows. The caller must ensure that seals reach it, as when the seal was
    /// made. rkyv 0.8.18 has `Deref`.
    pub fn as_ref(&self) -> Ref<'_, T>
        requires { IsSealOf T.definitions T.pointee self.now }
        ensures buffer { result.bytes.now ≡ self.now.bytes.now }
        ensures position { result.pos ≡ self.now.pos }
        ensures length { result.len ≡ self.now.len }
    {
        Ref::at(RawView {
            bytes: &*self.bytes,
            pos: self.pos,
            len: self.len,
        })
    }

    /// A seal of the same for a shorter time. No byte changes by this call.
    pub fn reborrow(&mut self) -> Seal<'_, T>
        ensures buffer { result.bytes.now ≡ self.old.bytes.now }
        ensures position { result.pos ≡ self.old.pos }
        ensures length { result.len ≡ self.old.len }
    {
        let (pos, len) = (self.pos, self.len);
        let bytes = &mut *self.bytes;
        Seal {
            bytes,
            pos,
            len,
            of: PhantomData,
        }
    }
}
