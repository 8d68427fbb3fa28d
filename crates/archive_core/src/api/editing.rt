//! Whole archives that are edited where they lie: the root's seal.

ghost use Rattle.std.specs.Prelude.{◌≡◌, None, IfOk};
ghost use Rattle.archive_check.specs.Archives.{Answers, root_in};
ghost use Rattle.archive_core.specs.SealOutcomes.{IsSealOf};

use super::{access_pos, root_position};
use crate::seal::{Seal, SpotExt};
use archive_check::format::error::Error;
use archive_types::traits::Portable;
use std::alloc::Global;

/// Validates an archive of a `T` with its root at `pos`, and returns the root's seal. No byte
/// changes. Memory comes from `alloc`. Fails as `access_pos` does.
pub fn access_pos_mut<'a, T: Portable>(
    alloc: Global,
    bytes: &'a mut [u8],
    pos: usize,
) -> Result<Seal<'a, T>, Error>
    ensures answer { Answers T.definitions bytes.old None pos T.shape result }
    ensures same_reference { IfOk result (λ s. s.bytes.ghost_name ≡ bytes.entry.ghost_name) }
    ensures buffer { IfOk result (λ s. s.bytes.now ≡ bytes.old) }
    ensures position { IfOk result (λ s. s.pos ≡ pos) }
    ensures whole { IfOk result (λ s. s.len ≡ 0) }
    ensures come_to { IfOk result (IsSealOf T.definitions T.pointee) }
{
    let spot = match access_pos::<T>(alloc, bytes, pos) {
        Ok(root) => root.spot(),
        Err(error) => return Err(error),
    };
    Ok(spot.seal(bytes))
}

/// Validates an archive of a `T` with its root at the end, and returns the root's seal. No byte
/// changes. Memory comes from `alloc`. Fails as `access_pos` does.
pub fn access_mut<'a, T: Portable>(alloc: Global, bytes: &'a mut [u8]) -> Result<Seal<'a, T>, Error>
    ensures answer { Answers T.definitions bytes.old None (root_in bytes.old T.layout) T.shape
        result }
    ensures same_reference { IfOk result (λ s. s.bytes.ghost_name ≡ bytes.entry.ghost_name) }
    ensures buffer { IfOk result (λ s. s.bytes.now ≡ bytes.old) }
    ensures position { IfOk result (λ s. s.pos ≡ root_in bytes.old T.layout) }
    ensures whole { IfOk result (λ s. s.len ≡ 0) }
    ensures come_to { IfOk result (IsSealOf T.definitions T.pointee) }
{
    let pos = root_position::<T>(bytes.len());
    access_pos_mut(alloc, bytes, pos)
}
