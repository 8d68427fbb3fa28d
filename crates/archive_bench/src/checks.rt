//! The check of bytes: with what it takes kept, and by `access`, which makes it for each check.

ghost use Rattle.std.specs.Prelude.{◌≤◌, IfOk};

use crate::rounds::next_end;
use archive_core::api::{Access, access};
use archive_core::error::Error;
use archive_core::traits::Portable;
use std::alloc::Global;

/// How many of `count` checks accept, all by one `Access`. Archives of `step` bytes stand one after another in `bytes`.
pub fn checked<T: Portable>(
    alloc: Global,
    bytes: &[u8],
    step: usize,
    count: usize,
) -> Result<usize, Error>
    ensures { IfOk result (λ n. n ≤ count) }
{
    let kept = Access::<T>::new(alloc)?;
    let mut accepted = 0;
    let mut end = 0;
    for _ in 0..count {
        end = next_end(end, step, bytes.len());
        if kept.access(&bytes[..end]).is_ok() {
            accepted += 1;
        }
    }
    Ok(accepted)
}

/// How many of `count` accesses accept. Archives of `step` bytes stand one after another in `bytes`.
pub fn accessed<T: Portable>(alloc: Global, bytes: &[u8], step: usize, count: usize) -> usize
    ensures { result ≤ count }
{
    let mut accepted = 0;
    let mut end = 0;
    for _ in 0..count {
        end = next_end(end, step, bytes.len());
        if access::<T>(alloc, &bytes[..end]).is_ok() {
            accepted += 1;
        }
    }
    accepted
}
