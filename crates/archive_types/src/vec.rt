//! Vectors: elements in a region of their own, with their number.

ghost use Rattle.std.specs.Prelude.{◌≡◌, ◌+◌, ◌*◌, ◌≤◌, ◌↔◌, IsTrue, refl};
ghost use Rattle.std.proofs.Common.{inl, inr};
ghost use Rattle.archive_check.specs.Shape.{one, run, vec as vec_shape};
ghost use Rattle.archive_check.specs.Readable.{target_from};
ghost use Rattle.archive_check.specs.Reads.{u32_at};
ghost use Rattle.archive_check.specs.SelfCheck.Owners.{vec_check, vec_reaches};
ghost use Rattle.archive_types.specs.Words.Seen.{ShowsPartOf};
ghost use Rattle.archive_types.specs.Views.{ShowsPart, itself};

mod copying;
mod iterators;
mod reading;
mod sources;

use crate::slice::ArchivedSlice;
use crate::traits::{ArchivePointee, Portable};
use crate::view::{RawView, Ref};
use archive_check::format::bytes::{read_target, read_u32};
use archive_check::format::error::Error;
use archive_check::format::expr::{Defs, Expr};
use archive_check::self_check::VecCheck;
pub use sources::VecResolver;
use std::alloc::Global;
use std::marker::PhantomData;

/// An archived vector: eight bytes at a multiple of four, an offset to the elements and their number. As in rkyv 0.8.18.
#[derive(Debug)]
pub struct ArchivedVec<T> {
    of: PhantomData<T>,
}

impl<T: Portable> ArchivePointee for ArchivedVec<T> {
    type ArchivedMetadata = ();

    ghost pointee = { one (vec_shape T.shape) };

    ghost definitions = { T.definitions };

    ghost metadata_length = { λ _. 0 };

    fn pointer_metadata(_metadata: &()) -> usize {
        0
    }
}

impl<T: Portable> Portable for ArchivedVec<T> {
    ghost shape = { vec_shape T.shape };

    ghost layout = { record { size = 8; align = 4 } };

    type Check = VecCheck<T>;

    ghost is_one = { refl };

    ghost is_align = { inr (inr (inl refl)) };

    ghost has_layout = { record { solved = λ s k. refl } };

    ghost no_others = { vec_reaches T.definitions T.shape T.no_others };

    ghost checks = { λ direct. vec_check T.definitions T.shape T.layout.size T.Check.definitions
        T.Check.shape T.Check.span T.Check.nameless (T.checks direct) };

    fn size() -> usize {
        8
    }

    fn align() -> usize {
        4
    }

    fn expr(alloc: Global) -> Result<Expr, Error> {
        Ok(Expr::Vec(Box::new(alloc, T::expr(alloc)?)?))
    }

    fn define(alloc: Global, defs: &mut Defs) -> Result<(), Error> {
        T::define(alloc, defs)
    }
}

impl<'a, T: Portable> Ref<'a, ArchivedVec<T>> {
    /// The elements. As in rkyv 0.8.18.
    pub fn as_slice(self) -> Ref<'a, ArchivedSlice<T>>
        ensures buffer { result.bytes.now ≡ self.entry.bytes.now }
        ensures position { result.pos ≡ target_from self.entry.bytes.now self.entry.pos
            self.entry.pos }
        ensures length { result.len ≡ u32_at self.entry.bytes.now (self.entry.pos + 4) }
        ensures ends { result.pos + result.len * T.layout.size ≤ self.entry.pos }
        ensures shows { ShowsPartOf result self.entry itself }
    {
        let RawView { bytes, pos, .. } = self.part();
        Ref::at(RawView {
            bytes,
            pos: read_target(bytes, pos, pos),
            len: read_u32(bytes, pos + 4) as usize,
        })
    }

    /// How many elements there are. As in rkyv 0.8.18.
    pub fn len(self) -> usize
        ensures { result ≡ u32_at self.entry.bytes.now (self.entry.pos + 4) }
    {
        self.as_slice().len()
    }

    /// Whether there is no element. As in rkyv 0.8.18.
    pub fn is_empty(self) -> bool
        ensures { IsTrue result ↔ (u32_at self.entry.bytes.now (self.entry.pos + 4) ≡ 0) }
    {
        self.len() == 0
    }
}
