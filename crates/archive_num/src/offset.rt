//! How far it is from one position to another, and the numbers that relative pointers hold.

ghost use Rattle.std.specs.Prelude.{◌≡◌, MatchResult, IfOk, IfErr, refl};
ghost use Rattle.archive_num.specs.Offsets.{distance, IsTooFar, as_isize};
ghost use Rattle.archive_num.specs.OffsetWidths.{IsOffsetWidth};
ghost use Rattle.archive_num.specs.Distances.{GivesDistance, GivesNumber};

use crate::{Integer, LittleEndian};
use archive_check::format::error::Error;

/// How far it is from one position to another, in bytes. Fails with `IsizeOverflow` exactly if the
/// difference doesn't fit `isize`. As in rkyv 0.8.18.
#[inline(always)]
pub fn signed_offset(from: usize, to: usize) -> Result<isize, Error>
    ensures { GivesDistance from to result }
{
    let Ok(offset) = isize::try_from(to as i128 - from as i128) else {
        return Err(Error::IsizeOverflow);
    };
    Ok(offset)
}

/// A native number that an offset may be: of at most 64 bits. So each format of it is one
/// implementation of `Offset`.
pub trait OffsetNumber: Integer {
    /// The number that is this distance, in bytes. Fails with `OffsetOverflow` exactly if it
    /// doesn't fit the type.
    fn from_distance(distance: isize) -> Result<Self, Error>
        ensures { GivesNumber Self.value_of Self.sign Self.width distance result };

    /// The distance that it is, in bytes. A `u64` above `isize::MAX` wraps, as Rust's cast does.
    fn to_distance(self) -> isize
        ensures { result ≡ as_isize (Self.value_of self) };

    // It has eight bytes at most.
    ghost at_most_64_bits: { IsOffsetWidth Self.width };
}

impl OffsetNumber for i8 {
    ghost at_most_64_bits = { refl };

    fn from_distance(distance: isize) -> Result<i8, Error> {
        i8::try_from(distance).map_err(|_| Error::OffsetOverflow)
    }

    fn to_distance(self) -> isize {
        self as isize
    }
}

impl OffsetNumber for i16 {
    ghost at_most_64_bits = { refl };

    fn from_distance(distance: isize) -> Result<i16, Error> {
        i16::try_from(distance).map_err(|_| Error::OffsetOverflow)
    }

    fn to_distance(self) -> isize {
        self as isize
    }
}

impl OffsetNumber for i32 {
    ghost at_most_64_bits = { refl };

    fn from_distance(distance: isize) -> Result<i32, Error> {
        i32::try_from(distance).map_err(|_| Error::OffsetOverflow)
    }

    fn to_distance(self) -> isize {
        self as isize
    }
}

impl OffsetNumber for i64 {
    ghost at_most_64_bits = { refl };

    fn from_distance(distance: isize) -> Result<i64, Error> {
        i64::try_from(distance).map_err(|_| Error::OffsetOverflow)
    }

    fn to_distance(self) -> isize {
        self as isize
    }
}

impl OffsetNumber for u8 {
    ghost at_most_64_bits = { refl };

    fn from_distance(distance: isize) -> Result<u8, Error> {
        u8::try_from(distance).map_err(|_| Error::OffsetOverflow)
    }

    fn to_distance(self) -> isize {
        self as isize
    }
}

impl OffsetNumber for u16 {
    ghost at_most_64_bits = { refl };

    fn from_distance(distance: isize) -> Result<u16, Error> {
        u16::try_from(distance).map_err(|_| Error::OffsetOverflow)
    }

    fn to_distance(self) -> isize {
        self as isize
    }
}

impl OffsetNumber for u32 {
    ghost at_most_64_bits = { refl };

    fn from_distance(distance: isize) -> Result<u32, Error> {
        u32::try_from(distance).map_err(|_| Error::OffsetOverflow)
    }

    fn to_distance(self) -> isize {
        self as isize
    }
}

impl OffsetNumber for u64 {
    ghost at_most_64_bits = { refl };

    fn from_distance(distance: isize) -> Result<u64, Error> {
        u64::try_from(distance).map_err(|_| Error::OffsetOverflow)
    }

    fn to_distance(self) -> isize {
        self.cast_signed() as isize
    }
}

// How far it is from `pos` to `target`, in bytes, as the four bytes of an offset hold it. Fails with `IsizeOverflow` exactly if the distance
// doesn't fit `isize`, and else with `OffsetOverflow` exactly if it doesn't fit 32 bits.
#[inline(always)]
pub(crate) fn offset_to(pos: usize, target: usize) -> Result<i32, Error>
    ensures distance { IfOk result (λ z. z ≡ distance pos target) }
    ensures refused { IfErr result (λ e. IsTooFar e (distance pos target)) }
{
    // Mostly a pointer lies behind what it leads to, and near it.
    if let Some(back) = pos.checked_sub(target) {
        if let Ok(back) = i32::try_from(back) {
            return Ok(-back);
        }
    }
    i32::from_distance(signed_offset(pos, target)?)
}

/// What a relative pointer holds: how far it is to what it leads to, from the pointer's own position. As in rkyv 0.8.18.
pub trait Offset: Copy {
    /// The number that it is.
    type Number: OffsetNumber;

    // That number.
    ghost number_in: { Self → Self.Number };

    /// The offset that is this number.
    fn from_number(number: Self::Number) -> Self
        ensures { number_in result ≡ number };

    /// The number that it is.
    fn to_number(self) -> Self::Number
        ensures { result ≡ number_in self };

    /// The offset of this distance, in bytes. Fails with `OffsetOverflow` exactly if it doesn't
    /// fit.
    final fn from_isize(value: isize) -> Result<Self, Error>
        ensures { GivesNumber (λ o. Self.Number.value_of (Self.number_in o)) Self.Number.sign
            Self.Number.width value result }
    {
        match Self::Number::from_distance(value) {
            Ok(number) => Ok(Self::from_number(number)),
            Err(error) => Err(error),
        }
    }

    /// The distance that it is, in bytes. A `u64` above `isize::MAX` wraps, as Rust's cast does.
    final fn to_isize(self) -> isize
        ensures { result ≡ as_isize (Self.Number.value_of (Self.number_in self)) }
    {
        self.to_number().to_distance()
    }
}

impl Offset for i8 {
    type Number = i8;

    ghost number_in = { λ o. o };

    fn from_number(number: i8) -> i8 {
        number
    }

    fn to_number(self) -> i8 {
        self
    }
}

impl Offset for u8 {
    type Number = u8;

    ghost number_in = { λ o. o };

    fn from_number(number: u8) -> u8 {
        number
    }

    fn to_number(self) -> u8 {
        self
    }
}

impl<N: OffsetNumber> Offset for LittleEndian<N> {
    type Number = N;

    ghost number_in = { λ o. o };

    fn from_number(number: N) -> LittleEndian<N> {
        LittleEndian::from_native(number)
    }

    fn to_number(self) -> N {
        self.to_native()
    }
}
