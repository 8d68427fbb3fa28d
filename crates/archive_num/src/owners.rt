//! The bytes of what points to a region: boxes, vectors and shared pointers.

ghost use Rattle.std.specs.Prelude.{◌≡◌, OnOk, IfErr, FitsSigned, length, true, false, if◌then◌else◌};
ghost use Rattle.std.specs.Int.{w32};
ghost use Rattle.archive_num.specs.Offsets.{distance, IsTooFar};
ghost use Rattle.archive_num.specs.OwnerBytes.{owner_bytes};

use crate::FixedUsize;
use crate::offset::offset_to;
use archive_check::format::error::Error;

// Writes over the four bytes of an owner at `pos` that it leads to `target`. Fails with `IsizeOverflow` exactly if the distance doesn't fit
// `isize`, and else with `OffsetOverflow` exactly if it doesn't fit 32 bits; the bytes are then unchanged.
#[inline(always)]
fn emplace_owner(target: usize, pos: usize, bytes: &mut [u8]) -> Result<(), Error>
    requires { length bytes.old ≡ 4 }
    ensures written { OnOk result (bytes.new ≡ owner_bytes false (distance pos target) 0) }
    ensures fits { OnOk result (FitsSigned w32 (distance pos target)) }
    ensures refused { IfErr result (λ e. (bytes.new ≡ bytes.old)
        × IsTooFar e (distance pos target)) }
    ensures same_length { length bytes.new ≡ length bytes.old }
{
    let offset = offset_to(pos, target)?;
    bytes.copy_from_slice(&offset.to_le_bytes());
    Ok(())
}

/// Writes over the eight bytes of an owner at `pos` that it leads to `target`, with the length
/// `count`. Fails with `IsizeOverflow` exactly if the distance doesn't fit `isize`, else with
/// `OffsetOverflow` exactly if it doesn't fit 32 bits; the bytes are then unchanged.
#[inline(always)]
pub fn emplace_long_owner(
    target: usize,
    count: FixedUsize,
    pos: usize,
    bytes: &mut [u8],
) -> Result<(), Error>
    requires { length bytes.old ≡ 8 }
    ensures written { OnOk result (bytes.new ≡ owner_bytes true (distance pos target) count) }
    ensures fits { OnOk result (FitsSigned w32 (distance pos target)) }
    ensures refused { IfErr result (λ e. (bytes.new ≡ bytes.old)
        × IsTooFar e (distance pos target)) }
    ensures same_length { length bytes.new ≡ length bytes.old }
{
    let offset = offset_to(pos, target)?;
    let (begin, behind) = bytes.split_at_mut(4);
    begin.copy_from_slice(&offset.to_le_bytes());
    behind.copy_from_slice(&count.to_le_bytes());
    Ok(())
}

/// The same over as many bytes as the pointer has: eight, with the length behind the offset, where
/// `is_long` holds, and else four with no length, which requires that `count` is 0.
#[inline(always)]
pub fn emplace_pointer(
    is_long: bool,
    target: usize,
    count: FixedUsize,
    pos: usize,
    bytes: &mut [u8],
) -> Result<(), Error>
    requires sized { length bytes.old ≡ if is_long then 8 else 4 }
    requires plain { is_long ≡ false → count ≡ 0 }
    ensures written { OnOk result (bytes.new ≡ owner_bytes is_long (distance pos target) count) }
    ensures fits { OnOk result (FitsSigned w32 (distance pos target)) }
    ensures refused { IfErr result (λ e. (bytes.new ≡ bytes.old)
        × IsTooFar e (distance pos target)) }
    ensures same_length { length bytes.new ≡ length bytes.old }
{
    if is_long {
        return emplace_long_owner(target, count, pos, bytes);
    }
    emplace_owner(target, pos, bytes)
}
