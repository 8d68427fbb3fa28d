//! Rows that are viewed where they lie.

ghost use Rattle.std.specs.Prelude.{◌≡◌};

use crate::records::{ArchivedRow, RowView};
use archive_core::api::access;
use archive_core::slice::ArchivedSlice;
use archive_core::vec::ArchivedVec;
use archive_core::view::Ref;
use std::alloc::Global;

// The lengths of a row's name and of its list.
fn lengths(row: Ref<'_, ArchivedRow>) -> usize {
    row.name().as_str().len().wrapping_add(row.values().len())
}

// The same of these rows.
fn sum_of_lengths(rows: Ref<'_, ArchivedSlice<ArchivedRow>>) -> usize {
    let mut sum = 0usize;
    for row in rows.iter() {
        sum = sum.wrapping_add(lengths(row));
    }
    sum
}

/// The lengths of the names and lists of all rows, summed over `count` goes through the list, which was checked once. 0 where it is refused. The other
/// parameters aren't used: all exports that take archives have the same ones.
#[unsafe(no_mangle)]
pub extern "C" fn archive_bench_view_rows(
    alloc: Global,
    bytes: &[u8],
    _step: usize,
    _size: usize,
    count: usize,
    _operation: u32,
) -> usize
    ensures { count ≡ 0 → result ≡ 0 }
{
    let rows = match access::<ArchivedVec<ArchivedRow>>(alloc, bytes) {
        Ok(rows) => rows.as_slice(),
        Err(_) => return 0,
    };
    let mut sum = 0usize;
    for _ in 0..count {
        sum = sum.wrapping_add(sum_of_lengths(rows));
    }
    sum
}
