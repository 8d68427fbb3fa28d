// The parts of tuples.

use crate::parts::PartOf;
use crate::traits::{Archive, FourParts};

/// The first part of a tuple.
pub struct Part0;

/// The second part of a tuple.
pub struct Part1;

/// The third part of a tuple.
pub struct Part2;

/// The fourth part of a tuple.
pub struct Part3;

/// The fifth part of a tuple.
pub struct Part4;

/// The sixth part of a tuple.
pub struct Part5;

/// The seventh part of a tuple.
pub struct Part6;

/// The eighth part of a tuple.
pub struct Part7;

/// The ninth part of a tuple.
pub struct Part8;

/// The tenth part of a tuple.
pub struct Part9;

/// The eleventh part of a tuple.
pub struct Part10;

/// The twelfth part of a tuple.
pub struct Part11;

/// The thirteenth part of a tuple.
pub struct Part12;

/// The parts of a tuple of 1.
pub(super) type Parts1 = (Part0, ());

/// The parts of a tuple of 2.
pub(super) type Parts2 = (Part0, (Part1, ()));

/// The parts of a tuple of 3.
pub(super) type Parts3 = (Part0, (Part1, (Part2, ())));

/// The parts of a tuple of 4.
pub(super) type Parts4 = FourParts<Part0, Part1, Part2, Part3, ()>;

/// The parts of a tuple of 5.
pub(super) type Parts5 = FourParts<Part0, Part1, Part2, Part3, (Part4, ())>;

/// The parts of a tuple of 6.
pub(super) type Parts6 = FourParts<Part0, Part1, Part2, Part3, (Part4, (Part5, ()))>;

/// The parts of a tuple of 7.
pub(super) type Parts7 = FourParts<Part0, Part1, Part2, Part3, (Part4, (Part5, (Part6, ())))>;

/// The parts of a tuple of 8.
pub(super) type Parts8 = FourParts<
    Part0,
    Part1,
    Part2,
    Part3,
    FourParts<Part4, Part5, Part6, Part7, ()>,
>;

/// The parts of a tuple of 9.
pub(super) type Parts9 = FourParts<
    Part0,
    Part1,
    Part2,
    Part3,
    FourParts<Part4, Part5, Part6, Part7, (Part8, ())>,
>;

/// The parts of a tuple of 10.
pub(super) type Parts10 = FourParts<
    Part0,
    Part1,
    Part2,
    Part3,
    FourParts<Part4, Part5, Part6, Part7, (Part8, (Part9, ()))>,
>;

/// The parts of a tuple of 11.
pub(super) type Parts11 = FourParts<
    Part0,
    Part1,
    Part2,
    Part3,
    FourParts<Part4, Part5, Part6, Part7, (Part8, (Part9, (Part10, ())))>,
>;

/// The parts of a tuple of 12.
pub(super) type Parts12 = FourParts<
    Part0,
    Part1,
    Part2,
    Part3,
    FourParts<Part4, Part5, Part6, Part7, FourParts<Part8, Part9, Part10, Part11, ()>>,
>;

/// The parts of a tuple of 13.
pub(super) type Parts13 = FourParts<
    Part0,
    Part1,
    Part2,
    Part3,
    FourParts<Part4, Part5, Part6, Part7, FourParts<Part8, Part9, Part10, Part11, (Part12, ())>>,
>;

impl<A: Archive> PartOf<(A,)> for Part0 {
    type Source = A;

    ghost part = { λ v. v.0 };

    #[inline(always)]
    fn part_of(whole: &(A,)) -> &A {
        &whole.0
    }
}

impl<A: Archive, B> PartOf<(A, B)> for Part0 {
    type Source = A;

    ghost part = { λ v. v.0 };

    #[inline(always)]
    fn part_of(whole: &(A, B)) -> &A {
        &whole.0
    }
}

impl<A, B: Archive> PartOf<(A, B)> for Part1 {
    type Source = B;

    ghost part = { λ v. v.1 };

    #[inline(always)]
    fn part_of(whole: &(A, B)) -> &B {
        &whole.1
    }
}

impl<A: Archive, B, C> PartOf<(A, B, C)> for Part0 {
    type Source = A;

    ghost part = { λ v. v.0 };

    #[inline(always)]
    fn part_of(whole: &(A, B, C)) -> &A {
        &whole.0
    }
}

impl<A, B: Archive, C> PartOf<(A, B, C)> for Part1 {
    type Source = B;

    ghost part = { λ v. v.1 };

    #[inline(always)]
    fn part_of(whole: &(A, B, C)) -> &B {
        &whole.1
    }
}

impl<A, B, C: Archive> PartOf<(A, B, C)> for Part2 {
    type Source = C;

    ghost part = { λ v. v.2 };

    #[inline(always)]
    fn part_of(whole: &(A, B, C)) -> &C {
        &whole.2
    }
}
