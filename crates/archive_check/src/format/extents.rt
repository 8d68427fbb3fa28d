//! Sizes in bytes. None: above `usize::MAX`.

ghost use Rattle.std.specs.Prelude.{◌≡◌, ◌<◌, min};
ghost use Rattle.archive_check.specs.Layout.{up as up_to};
ghost use Rattle.archive_check.specs.Words.BoundedSizes.{fits, rounded, times as times_of};

// A number, where it fits.
fn narrow(n: u128) -> Option<usize>
    ensures { result ≡ fits n }
{
    if n < 0x1_0000_0000_0000_0000 {
        Some(n as usize)
    } else {
        None
    }
}

// The least multiple of an alignment that is at least a number.
fn up(n: usize, align: usize) -> Option<usize>
    requires { 0 < align }
    ensures { result ≡ fits (up_to n align) }
{
    narrow((n as u128 + (align as u128 - 1)) / align as u128 * align as u128)
}

/// Where what is aligned so begins, behind an end.
#[tactic(auto, using(crate::proofs::BoundedSizes::fitting))]
pub fn offset_of(end: Option<usize>, align: usize) -> Option<usize>
    requires { 0 < align }
    ensures { result ≡ rounded end align }
{
    match end {
        None => None,
        Some(end) => up(end, align),
    }
}

/// The least multiple of an alignment that is at least a number: `usize::MAX` where it is that or more.
#[inline(always)]
pub fn multiple_of(n: usize, align: usize) -> usize
    requires { 0 < align }
    ensures { result ≡ min (up_to n align) 18446744073709551615 }
{
    match up(n, align) {
        None => usize::MAX,
        Some(n) => n,
    }
}

/// What `count` values of a size take.
pub fn times(size: Option<usize>, count: usize) -> Option<usize>
    ensures total { result ≡ times_of size count }
    ensures few { count < 18446744073709551616 }
{
    match size {
        None => { if count == 0 { Some(0) } else { None } }
        Some(size) => narrow(size as u128 * count as u128),
    }
}
