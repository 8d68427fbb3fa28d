// Leaves are written over: numbers, bools, chars, and numbers that aren't 0.

ghost use Rattle.std.specs.Prelude.{◌≡◌, ◌+◌, ◌≤◌, length};
ghost use Rattle.archive_check.specs.ComesTo.{IsComeTo};
ghost use Rattle.archive_check.specs.Leaves.{edit};
ghost use Rattle.archive_core.specs.SealOutcomes.{IsSealOf, WritesNumber};

use super::{Seal, Spot};
use archive_check::format::traits::ArchivePointee;
use archive_check::laws::leaf_written;
use archive_num::Native;
use archive_types::primitive::{SealedLeaf, write_leaf};

// Writes the bytes of a value over those at `pos`.
fn write_value<N: Native>(value: N, bytes: &mut [u8], pos: usize)
    requires { pos + N.byte_count ≤ length bytes.old }
    ensures edited { bytes.new ≡ edit bytes.old pos (N.bytes_of value) }
    ensures fits { N.fits value }
{
    let end = pos + N::byte_count();
    write_leaf(value, &mut bytes[pos..end]);
}

// Writes the bytes of a value over those of a leaf, which changes in every archive in which it stands.
fn write_over<T: SealedLeaf>(bytes: &mut [u8], spot: Spot<T>, value: T::Written)
    requires come_to { IsComeTo T.definitions bytes.old spot.pos T.pointee spot.len }
    requires can_hold { T.can_hold value }
    ensures edited { bytes.new ≡ edit bytes.old spot.pos (T.Written.bytes_of value) }
    ensures written { WritesNumber T.kind spot.pos T.pointee spot.len (T.Written.value_of value)
        bytes.old bytes.new }
{
    write_value(value, bytes, spot.pos);
    leaf_written();
}

impl<'a, T: SealedLeaf> Seal<'a, T> {
    /// Writes a value over the leaf that it shows: its bytes, the lowest first. The caller must
    /// ensure that seals reach it, as they do when it is made, and for a `NonZero` a number that
    /// isn't 0. Every other byte stays, and in every archive that has the leaf, it alone changes. As
    /// in rkyv 0.8.18.
    pub fn write(self, value: T::Written)
        requires come_to { IsSealOf T.definitions T.pointee self }
        requires can_hold { T.can_hold value }
        ensures edited { self.exit.0.now ≡ edit self.entry.bytes.now self.entry.pos
            (T.Written.bytes_of value) }
        ensures written { WritesNumber T.kind self.entry.pos T.pointee self.entry.len
            (T.Written.value_of value) self.entry.bytes.now self.exit.0.now }
    {
        let Seal {
            bytes,
            pos,
            len,
            ..
        } = self;
        write_over::<T>(bytes, Spot::at(pos, len), value);
    }
}

impl<'a, T: ArchivePointee> Seal<'a, T> {
    /// Writes a value over a leaf elsewhere in the same buffer. The caller must ensure that seals
    /// reach the leaf from the root of a validated buffer, and for a `NonZero` a number that isn't
    /// 0. Every other byte stays, and in every archive that has the leaf, it alone changes.
    pub fn write_at<U: SealedLeaf>(&mut self, spot: Spot<U>, value: U::Written)
        requires come_to { IsComeTo U.definitions self.old.bytes.now spot.pos U.pointee spot.len }
        requires can_hold { U.can_hold value }
        ensures same_reference { self.new.bytes.ghost_name ≡ self.old.bytes.ghost_name }
        ensures position { self.new.pos ≡ self.old.pos }
        ensures length { self.new.len ≡ self.old.len }
        ensures edited { self.new.bytes.now ≡ edit self.old.bytes.now spot.pos
            (U.Written.bytes_of value) }
        ensures written { WritesNumber U.kind spot.pos U.pointee spot.len (U.Written.value_of value)
            self.old.bytes.now self.new.bytes.now }
    {
        write_over::<U>(self.bytes, spot, value);
    }
}
