// What the pointers of owners have in common, of boxes and of shared values: how many bytes they have, the length that they say, and the position that
// is kept for them.

ghost use Rattle.std.specs.Prelude.{◌≡◌, ◌+◌, ◌<◌, ◌≤◌, IfOk, IfErr, IsErr, length};
ghost use Rattle.archive_check.specs.Layout.{pointer_size};
ghost use Rattle.archive_check.specs.Reads.{length_at};
ghost use Rattle.archive_check.specs.declared.format.error.Error.TheVariants.{PositionTooLarge};

use crate::traits::PortablePointee;
use archive_check::format::bytes::read_u32;
use archive_check::format::error::Error;

// How many bytes a pointer to a `T` has.
#[tactic(auto, using(crate::proofs::Writing::Owned::size_by_length))]
pub(crate) fn pointer_size<T: PortablePointee>() -> usize
    ensures { result ≡ pointer_size T.pointee }
{
    if T::has_length() {
        return 8;
    }
    4
}

// The length that the pointer at `pos` says: 0 where it leads to one value.
pub(crate) fn read_length<T: PortablePointee>(bytes: &[u8], pos: usize) -> usize
    requires { pos + pointer_size T.pointee ≤ length bytes.now }
    ensures { result ≡ length_at bytes.now pos T.pointee }
{
    if !T::has_length() {
        return 0;
    }
    read_u32(bytes, pos + 4) as usize
}

// The position, as a resolver keeps it. Fails with `PositionTooLarge` exactly if it is above 4,294,967,295.
#[inline(always)]
pub(crate) fn position_of(pos: usize) -> Result<u32, Error>
    ensures same { IfOk result (λ kept. kept ≡ pos) }
    ensures refused { IfErr result (λ e. (e ≡ PositionTooLarge) × (4294967295 < pos)) }
    ensures too_far { 4294967295 < pos → IsErr result }
{
    let Ok(kept) = u32::try_from(pos) else {
        return Err(Error::PositionTooLarge);
    };
    Ok(kept)
}
