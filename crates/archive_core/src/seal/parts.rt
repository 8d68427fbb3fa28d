// Seals of what boxes, shared pointers, vectors, slices and options hold.

ghost use Rattle.std.specs.Prelude.{◌≡◌, ◌+◌, ◌*◌, ◌<◌, IfSome, IfNone, pos as whole};
ghost use Rattle.archive_check.specs.Definitions.{no_definition};
ghost use Rattle.archive_check.specs.Readable.{target_from};
ghost use Rattle.archive_check.specs.Reads.{i32_at, length_at, u32_at};
ghost use Rattle.archive_check.specs.Shape.{array, one, run, text, boxed, shared, weak, vec as vec_shape};
ghost use Rattle.archive_core.specs.SealedOptions.{IsSealOfOption, SealsValue};
ghost use Rattle.archive_core.specs.SealOutcomes.{IsSealOf, SealsPart};
ghost use Rattle.archive_types.specs.Members.SharedLaws.{flavor_as};
ghost use Rattle.archive_types.specs.Words.SharedPointers.{flavor_of_type, weak_to};

use super::{Seal, Spot};
use archive_types::boxed::ArchivedBox;
use archive_types::option::{ArchivedOption, Iter};
use archive_types::rc::{ArchivedRc, ArchivedRcWeak, Flavor};
use archive_types::slice::ArchivedSlice;
use archive_types::string::ArchivedStr;
use archive_types::traits::{Portable, PortablePointee};
use archive_types::vec::ArchivedVec;

impl<'a, T: PortablePointee> Seal<'a, ArchivedBox<T>> {
    /// A seal of what the box holds: a value, a slice or a text. The caller must ensure that seals
    /// reach what it shows, as when it was made. No byte changes. As in rkyv 0.8.18.
    pub fn get_seal(self) -> Seal<'a, T>
        requires { IsSealOf T.definitions (one (boxed T.pointee)) self }
        ensures { SealsPart T.definitions (one (boxed T.pointee)) T.definitions T.pointee
            (target_from self.entry.bytes.now self.entry.pos self.entry.pos)
            (length_at self.entry.bytes.now self.entry.pos T.pointee) self.entry result }
    {
        let spot = Spot::of(self.as_ref().get());
        let Seal { bytes, .. } = self;
        spot.seal(bytes)
    }
}

impl<'a> Seal<'a, ArchivedBox<ArchivedStr>> {
    /// A seal of the text that the box holds. The caller must ensure that seals reach what it
    /// shows, as when it was made. No byte changes. In rkyv 0.8.18 it is the box's `get_seal`.
    pub fn as_str_seal(self) -> Seal<'a, ArchivedStr>
        requires { IsSealOf no_definition (one (boxed text)) self }
        ensures { SealsPart no_definition (one (boxed text)) no_definition text
            (target_from self.entry.bytes.now self.entry.pos self.entry.pos)
            (u32_at self.entry.bytes.now (self.entry.pos + 4)) self.entry result }
    {
        let spot = Spot::of(self.as_ref().get());
        let Seal { bytes, .. } = self;
        spot.seal(bytes)
    }
}

impl<'a, T: PortablePointee, F: Flavor> Seal<'a, ArchivedRc<T, F>> {
    /// A seal of what the pointer leads to. The caller must ensure that seals reach what it shows,
    /// as when it was made. No byte changes. In rkyv 0.8.18 it is unsafe (`get_seal_unchecked`);
    /// here the whole buffer is borrowed for writing, so no other pointer to the value can be used
    /// meanwhile.
    pub fn get_seal(self) -> Seal<'a, T>
        requires { IsSealOf T.definitions (one (shared (flavor_of_type F.Flavor) T.pointee)) self }
        ensures { SealsPart T.definitions (one (shared (flavor_of_type F.Flavor) T.pointee))
            T.definitions T.pointee (target_from self.entry.bytes.now self.entry.pos self.entry.pos)
            (length_at self.entry.bytes.now self.entry.pos T.pointee) self.entry result }
    {
        let spot = Spot::of(self.as_ref().get());
        let Seal { bytes, .. } = self;
        spot.seal(bytes)
    }
}

impl<'a, T: PortablePointee, F: Flavor> Seal<'a, ArchivedRcWeak<T, F>> {
    /// A seal of what the pointer leads to; none exactly if it is null, whose offset is 1. The
    /// caller must ensure that seals reach what it shows, as when it was made. No byte changes. As
    /// in rkyv 0.8.18.
    pub fn upgrade_seal(self) -> Option<Seal<'a, T>>
        requires { IsSealOf T.definitions (weak_to F.Flavor T.pointee) self }
        ensures offset { IfSome result (λ _. i32_at self.entry.bytes.now self.entry.pos ≡ whole 1
            → ⊥) }
        ensures null { IfNone result (i32_at self.entry.bytes.now self.entry.pos ≡ whole 1) }
        ensures sealed { IfSome result (SealsPart T.definitions (weak_to F.Flavor T.pointee)
            T.definitions T.pointee (target_from self.entry.bytes.now self.entry.pos self.entry.pos)
            (length_at self.entry.bytes.now self.entry.pos T.pointee) self.entry) }
    {
        let spot = match self.as_ref().upgrade() {
            None => return None,
            Some(part) => Spot::of(part),
        };
        let Seal { bytes, .. } = self;
        Some(spot.seal(bytes))
    }
}

impl<'a, T: Portable> Seal<'a, ArchivedVec<T>> {
    /// A seal of the elements. The caller must ensure that seals reach what it shows, as when it
    /// was made. No byte changes. As in rkyv 0.8.18.
    pub fn as_slice_seal(self) -> Seal<'a, ArchivedSlice<T>>
        requires { IsSealOf T.definitions (one (vec_shape T.shape)) self }
        ensures { SealsPart T.definitions (one (vec_shape T.shape)) T.definitions (run T.shape)
            (target_from self.entry.bytes.now self.entry.pos self.entry.pos)
            (u32_at self.entry.bytes.now (self.entry.pos + 4)) self.entry result }
    {
        let spot = Spot::of(self.as_ref().as_slice());
        let Seal { bytes, .. } = self;
        spot.seal(bytes)
    }
}

impl<'a, T: Portable> Seal<'a, ArchivedVec<T>> {
    /// A seal of the element `index`, of which 0 is the first. The caller must ensure that there is
    /// one, and that seals reach what it shows, as when it was made. No byte changes. In rkyv
    /// 0.8.18 it is `index` of the vector's slice, which panics where there is none.
    pub fn index(self, index: usize) -> Seal<'a, T>
        requires come_to { IsSealOf T.definitions (one (vec_shape T.shape)) self }
        requires below { index < u32_at self.bytes.now (self.pos + 4) }
        ensures { SealsPart T.definitions (one (vec_shape T.shape)) T.definitions T.pointee
            (target_from self.entry.bytes.now self.entry.pos self.entry.pos + index * T.layout.size)
            0 self.entry result }
    {
        let spot = Spot::of(self.as_ref().as_slice().index(index));
        let Seal { bytes, .. } = self;
        spot.seal(bytes)
    }
}

impl<'a, T: Portable> Seal<'a, ArchivedSlice<T>> {
    /// How many elements there are.
    pub fn len(&self) -> usize
        ensures { result ≡ self.now.len }
    {
        self.len
    }

    /// A seal of the element `index`, of which 0 is the first. The caller must ensure that there is
    /// one, and that seals reach what it shows, as when it was made. No byte changes. As in rkyv
    /// 0.8.18, which panics where there is none.
    pub fn index(self, index: usize) -> Seal<'a, T>
        requires come_to { IsSealOf T.definitions (run T.shape) self }
        requires below { index < self.len }
        ensures { SealsPart T.definitions (run T.shape) T.definitions T.pointee
            (self.entry.pos + index * T.layout.size) 0 self.entry result }
    {
        let spot = Spot::of(self.as_ref().index(index));
        let Seal { bytes, .. } = self;
        spot.seal(bytes)
    }
}

impl<'a, T: Portable, const N: usize> Seal<'a, [T; N]> {
    /// A seal of the element `index`, of which 0 is the first. The caller must ensure that there is
    /// one, and that seals reach what it shows, as when it was made. No byte changes. As in rkyv
    /// 0.8.18, which panics where there is none.
    pub fn index(self, index: usize) -> Seal<'a, T>
        requires come_to { IsSealOf T.definitions (one (array N T.shape)) self }
        requires below { index < N }
        ensures { SealsPart T.definitions (one (array N T.shape)) T.definitions T.pointee
            (self.entry.pos + index * T.layout.size) 0 self.entry result }
    {
        let element = Spot::of(self.as_ref().index(index));
        let Seal { bytes, .. } = self;
        element.seal(bytes)
    }
}

impl<'a, T: Portable> Seal<'a, ArchivedOption<T>> {
    /// A seal of the value, if there is one. The caller must ensure that seals reach what it shows,
    /// as when it was made. No byte changes, and what is behind a `None` isn't looked at. As in
    /// rkyv 0.8.18.
    pub fn as_seal(self) -> Option<Seal<'a, T>>
        requires { IsSealOfOption T.Portable self }
        ensures { SealsValue T.Portable self.entry result }
    {
        let spot = match self.as_ref().as_ref() {
            None => return None,
            Some(part) => Spot::of(part),
        };
        let Seal { bytes, .. } = self;
        Some(spot.seal(bytes))
    }

    /// An iterator over the seal of the value: it comes once, from either end, and then none. The
    /// caller must ensure that seals reach what it shows, as when it was made. No byte changes. As
    /// in rkyv 0.8.18.
    pub fn iter_seal(self) -> Iter<Seal<'a, T>>
        requires { IsSealOfOption T.Portable self }
        ensures { SealsValue T.Portable self.entry result }
    {
        Iter::new(self.as_seal())
    }
}
