//! Archived strings that are compared where they lie.

ghost use Rattle.std.specs.Prelude.{◌≡◌, ◌<◌, ◌≤◌};

use archive_core::api::access;
use archive_core::slice::ArchivedSlice;
use archive_core::string::ArchivedString;
use archive_core::vec::ArchivedVec;
use archive_core::view::Ref;
use std::alloc::Global;

// How many strings are less than the next one, of those with an index from `from` on and below `to`. Asks that there is a string with the index `to`.
fn lesser(names: Ref<'_, ArchivedSlice<ArchivedString>>, from: usize, to: usize) -> usize
    requires order { from ≤ to }
    requires there { to < names.len }
{
    let mut lesser = 0usize;
    let mut name = names.index(from);
    for index in from..to {
        let next = names.index(index + 1);
        if name < next {
            lesser = lesser.wrapping_add(1);
        }
        name = next;
    }
    lesser
}

/// How many strings of an archived list are less than the next one, summed over `count` goes through the list, which was checked once. 0 where it is
/// refused. The other parameters aren't used: all exports that take archives have the same ones.
#[unsafe(no_mangle)]
pub extern "C" fn archive_bench_compare_names(
    alloc: Global,
    bytes: &[u8],
    _step: usize,
    _size: usize,
    count: usize,
    _operation: u32,
) -> usize
    ensures { count ≡ 0 → result ≡ 0 }
{
    let names = match access::<ArchivedVec<ArchivedString>>(alloc, bytes) {
        Ok(names) => names.as_slice(),
        Err(_) => return 0,
    };
    if names.is_empty() {
        return 0;
    }
    let last = names.len() - 1;
    let mut sum = 0usize;
    let mut first = 0;
    for _ in 0..count {
        sum = sum.wrapping_add(lesser(names, first, last));
        sum = sum.wrapping_add(lesser(names, 0, first));
        first = if first < last { first + 1 } else { 0 };
    }
    sum
}
