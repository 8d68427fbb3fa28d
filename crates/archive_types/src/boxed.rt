//! Boxes: values, slices and texts in regions of their own.

ghost use Rattle.std.specs.Prelude.{◌≡◌, refl};
ghost use Rattle.std.proofs.Common.{inl, inr};
ghost use Rattle.archive_check.specs.Shape.{one, boxed};
ghost use Rattle.archive_check.specs.Layout.{pointer_size};
ghost use Rattle.archive_check.specs.Readable.{target_from};
ghost use Rattle.archive_check.specs.Reads.{length_at};
ghost use Rattle.archive_types.specs.Words.Seen.{ShowsPartOf};
ghost use Rattle.archive_types.specs.Views.{EndsBefore, ShowsPart, boxed_in};

mod inner;
mod reading;
mod slices;
mod sources;

use crate::owner_pointers::{pointer_size, read_length};
use crate::traits::{ArchivePointee, Portable, PortablePointee};
use crate::view::{RawView, Ref};
use archive_check::format::bytes::read_target;
use archive_check::format::error::Error;
use archive_check::format::expr::{Defs, Expr};
pub use inner::serialize_inner;
pub use slices::{BoxSlice, BoxStr};
pub use sources::BoxResolver;
use std::alloc::Global;
use std::marker::PhantomData;

/// An archived box: an offset of four bytes, at a multiple of four, and behind it a length of four where it leads to a slice or a text. As in rkyv
/// 0.8.18.
#[derive(Debug)]
pub struct ArchivedBox<T> {
    of: PhantomData<T>,
}

impl<T: ArchivePointee> ArchivePointee for ArchivedBox<T> {
    type ArchivedMetadata = ();

    ghost pointee = { one (boxed T.pointee) };

    ghost definitions = { T.definitions };

    ghost metadata_length = { λ _. 0 };

    fn pointer_metadata(_metadata: &()) -> usize {
        0
    }
}

impl<T: PortablePointee> Portable for ArchivedBox<T> {
    ghost shape = { boxed T.pointee };

    ghost layout = { record { size = pointer_size T.pointee; align = 4 } };

    type Check = T::BoxCheck;

    ghost is_one = { refl };

    ghost is_align = { inr (inr (inl refl)) };

    ghost has_layout = { record { solved = λ s k. refl } };

    ghost no_others = { T.box_reaches };

    ghost checks = { T.box_checks };

    fn size() -> usize {
        pointer_size::<T>()
    }

    fn align() -> usize {
        4
    }

    fn expr(alloc: Global) -> Result<Expr, Error> {
        Ok(Expr::Box(Box::new(alloc, T::pointee_expr(alloc)?)?))
    }

    fn define(alloc: Global, defs: &mut Defs) -> Result<(), Error> {
        T::define_pointee(alloc, defs)
    }
}

impl<'a, T: PortablePointee> Ref<'a, ArchivedBox<T>> {
    /// What the box holds: a value, a slice or a text. As in rkyv 0.8.18.
    pub fn get(self) -> Ref<'a, T>
        ensures buffer { result.bytes.now ≡ self.entry.bytes.now }
        ensures position { result.pos ≡ target_from self.entry.bytes.now self.entry.pos
            self.entry.pos }
        ensures length { result.len ≡ length_at self.entry.bytes.now self.entry.pos T.pointee }
        ensures ends { EndsBefore T.definitions T.pointee result.pos result.len self.entry.pos }
        ensures shows { ShowsPartOf result self.entry boxed_in }
    {
        let RawView { bytes, pos, .. } = self.part();
        Ref::at(RawView {
            bytes,
            pos: read_target(bytes, pos, pos),
            len: read_length::<T>(bytes, pos),
        })
    }
}
