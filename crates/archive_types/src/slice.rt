//! Slices: elements one after another, in a region of their own.

ghost use Rattle.std.specs.Prelude.{◌≡◌, ◌+◌, ◌*◌, ◌<◌, ◌↔◌, IfOk, IfErr, IfSome, IsSome, IsTrue};
ghost use Rattle.archive_check.specs.Shape.{run};
ghost use Rattle.archive_check.specs.SelfCheck.Owners.{run_check, run_reaches};
ghost use Rattle.archive_types.specs.Words.Seen.{ShowsPartOf};
ghost use Rattle.archive_types.specs.Views.{ShowsPart, element_in};

mod copying;
mod iter;
mod reading;
mod sources;

use crate::primitive::ArchivedUsize;
use crate::traits::{ArchivePointee, LayoutRaw, Portable, PortablePointee, layout_of_run};
use crate::view::{RawView, Ref};
use archive_check::format::error::Error;
use archive_check::format::expr::{Defs, Pointee};
use archive_check::format::layout::Layout;
use archive_check::self_check::VecCheck;
pub(crate) use copying::PIECE;
pub use copying::{copy_arrays, copy_groups, copy_slice};
pub use iter::Iter;
pub(crate) use iter::element_at;
pub(crate) use reading::{read_each, read_elements};
pub use sources::Slice;
pub(crate) use sources::{serialize_each, serialize_in_turn, serialize_slice};
use std::alloc::Global;
use std::marker::PhantomData;

/// An archived slice: elements one after another, whose number is in the pointer to it. rkyv 0.8.18
/// has a slice of archived values instead.
#[derive(Debug)]
pub struct ArchivedSlice<T> {
    of: PhantomData<T>,
}

impl<T: Portable> ArchivePointee for ArchivedSlice<T> {
    type ArchivedMetadata = ArchivedUsize;

    ghost pointee = { run T.shape };

    ghost definitions = { T.definitions };

    ghost metadata_length = { λ n. n };

    fn pointer_metadata(metadata: &ArchivedUsize) -> usize {
        metadata.to_native() as usize
    }
}

impl<T: Portable> PortablePointee for ArchivedSlice<T> {
    type BoxCheck = VecCheck<T>;

    ghost box_reaches = { run_reaches T.definitions T.shape T.no_others };

    ghost box_checks = { λ direct. run_check T.definitions T.shape T.layout.size T.Check.definitions
        T.Check.shape T.Check.span T.Check.nameless (T.checks direct) };

    fn has_length() -> bool {
        true
    }

    fn pointee_expr(alloc: Global) -> Result<Pointee, Error> {
        Ok(Pointee::Run(T::expr(alloc)?))
    }

    fn define_pointee(alloc: Global, defs: &mut Defs) -> Result<(), Error> {
        T::define(alloc, defs)
    }
}

impl<T: Portable> LayoutRaw for ArchivedSlice<T> {
    fn layout_raw(length: usize) -> Result<Layout, Error> {
        layout_of_run::<T>(length)
    }
}

impl<'a, T: Portable> Ref<'a, ArchivedSlice<T>> {
    /// How many elements there are. As in rkyv 0.8.18.
    pub fn len(self) -> usize
        ensures { result ≡ self.entry.len }
    {
        self.part().len
    }

    /// Whether there is no element. As in rkyv 0.8.18.
    pub fn is_empty(self) -> bool
        ensures { IsTrue result ↔ (self.entry.len ≡ 0) }
    {
        self.len() == 0
    }

    /// The element `index`, of which 0 is the first. The caller must ensure that there is one. As
    /// in rkyv 0.8.18, which panics where there is none.
    pub fn index(self, index: usize) -> Ref<'a, T>
        requires { index < self.len }
        ensures buffer { result.bytes.now ≡ self.entry.bytes.now }
        ensures position { result.pos ≡ self.entry.pos + index * T.layout.size }
        ensures length { result.len ≡ 0 }
        ensures shows { ShowsPartOf result self.entry (element_in index) }
    {
        let RawView { bytes, pos, .. } = self.part();
        Ref::at(RawView {
            bytes,
            pos: pos + index * T::size(),
            len: 0,
        })
    }

    /// The element `index`, of which 0 is the first; `None` if there are no more than `index`. As
    /// in rkyv 0.8.18.
    pub fn get(self, index: usize) -> Option<Ref<'a, T>>
        ensures some { IsSome result ↔ (index < self.entry.len) }
        ensures buffer { IfSome result (λ r. r.bytes.now ≡ self.entry.bytes.now) }
        ensures position { IfSome result (λ r. r.pos ≡ self.entry.pos + index * T.layout.size) }
        ensures length { IfSome result (λ r. r.len ≡ 0) }
        ensures shows { IfSome result (λ r. ShowsPartOf r self.entry (element_in index)) }
    {
        if index >= self.len() {
            return None;
        }
        Some(self.index(index))
    }
}
