//! Where an archived value is to be written.

ghost use Rattle.std.specs.Prelude.{◌≡◌, ◌+◌, ◌*◌, ◌<◌, ◌≤◌, ◌^◌, Some, length};
ghost use Rattle.archive_check.specs.Members.PartsLayout.{part_at};
ghost use Rattle.archive_check.specs.Reads.{bytes_at};

use crate::primitive::{SealedLeaf, write_leaf};
use crate::traits::{Portable, Record};
use std::marker::PhantomData;

mod filling;

/// The bytes of an archived `T` to be written, and their position in the buffer. What implements
/// `Archive` takes it apart by a pattern, so that its caller knows the bytes afterwards. In its
/// place rkyv 0.8.18 has a place over a raw pointer.
#[derive(Drop)]
pub struct Place<'a, T> {
    /// The bytes: those of a `T`, all of them 0 before something is written. `resolve` requires
    /// both.
    pub bytes: &'a mut [u8],
    /// Where they lie, in bytes from the buffer's first one.
    pub pos: usize,
    of: PhantomData<T>,
}

impl<'a, T> Place<'a, T> {
    /// The place of these bytes, which lie at `pos`, in bytes from the buffer's first one. What
    /// takes the place requires the size of a `T`.
    #[inline(always)]
    pub fn new(pos: usize, bytes: &'a mut [u8]) -> Place<'a, T>
        ensures same_reference { result.bytes.ghost_name ≡ bytes.entry.ghost_name }
        ensures buffer { result.bytes.now ≡ bytes.old }
        ensures position { result.pos ≡ pos }
    {
        Place {
            bytes,
            pos,
            of: PhantomData,
        }
    }

    /// Where it lies, in bytes from the buffer's first one.
    pub fn pos(&self) -> usize
        ensures { result ≡ self.now.pos }
    {
        self.pos
    }

    /// Its bytes as they are now. As in rkyv 0.8.18.
    pub fn as_slice(&self) -> &[u8]
        ensures { result.now ≡ self.now.bytes.now }
    {
        &*self.bytes
    }

    /// The same place for a shorter time. No byte changes by this call.
    pub fn reborrow(&mut self) -> Place<'_, T>
        ensures buffer { result.bytes.now ≡ self.old.bytes.now }
        ensures position { result.pos ≡ self.old.pos }
    {
        let pos = self.pos;
        Place::new(pos, &mut *self.bytes)
    }
}

impl<'a, T: SealedLeaf> Place<'a, T> {
    /// Writes a number, bool or char as its bytes, the lowest first. The caller must ensure that
    /// the place has as many, and for a `NonZero` a number that isn't 0. As in rkyv 0.8.18, where
    /// whatever is archived is written so.
    pub fn write(&mut self, value: T::Written)
        requires sized { length self.old.bytes.now ≡ T.Written.byte_count }
        requires can_hold { T.can_hold value }
        ensures same_reference { self.new.bytes.ghost_name ≡ self.old.bytes.ghost_name }
        ensures position { self.new.pos ≡ self.old.pos }
        ensures written { self.new.bytes.now ≡ T.Written.bytes_of value }
    {
        write_leaf(value, self.bytes);
    }
}

impl<'a, T: Record> Place<'a, T> {
    /// The place of part `i`. The caller must ensure that this part is a `U`, that the place has
    /// the size of a `T`, and that its end fits `usize`. What the record's bytes are afterwards
    /// isn't promised: `resolve_field` promises it. rkyv 0.8.18 has a macro that goes to the
    /// fields.
    pub fn field<U: Portable>(self, i: usize) -> Place<'a, U>
        requires part { part_at T.Parts.parts i ≡ Some U.shape }
        requires size { T.Parts.size_at i ≡ U.layout.size }
        requires sized { length self.bytes.now ≡ T.layout.size }
        requires ends { self.pos + T.layout.size < 2 ^ 64 }
        ensures buffer { result.bytes.now ≡ bytes_at self.entry.bytes.now (T.Parts.begin 0 i)
            U.layout.size }
        ensures position { result.pos ≡ self.entry.pos + T.Parts.begin 0 i }
    {
        let Place { bytes, pos, .. } = self;
        let begin = T::offset(i);
        Place::new(pos + begin, &mut bytes[begin..begin + U::size()])
    }
}

impl<'a, T: Portable, const N: usize> Place<'a, [T; N]> {
    /// The place of the element `index`, of which 0 is the first. The caller must ensure that there is one, that the place has as many bytes as the array,
    /// and that their end fits `usize`. What the array's bytes are afterwards isn't said: `resolve_index` says it. As in rkyv 0.8.18, which requires nothing.
    pub fn index(self, index: usize) -> Place<'a, T>
        requires in_bounds { index < N }
        requires sized { length self.bytes.now ≡ N * T.layout.size }
        requires ends { self.pos + N * T.layout.size < 2 ^ 64 }
        ensures buffer { result.bytes.now ≡ bytes_at self.entry.bytes.now (index * T.layout.size)
            T.layout.size }
        ensures position { result.pos ≡ self.entry.pos + index * T.layout.size }
    {
        let Place { bytes, pos, .. } = self;
        let begin = index * T::size();
        Place::new(pos + begin, &mut bytes[begin..begin + T::size()])
    }
}
