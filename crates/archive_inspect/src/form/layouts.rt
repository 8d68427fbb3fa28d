//! Sizes and alignments as whole numbers, in which no sum is too large for a position.

use archive_check::format::expr::Key;
use archive_check::format::layout::Layout as LibraryLayout;

/// A size and an alignment, in bytes.
#[derive(Clone, Copy)]
pub struct Layout {
    /// The size; the greatest number if it is above `usize::MAX`, so that no buffer has it.
    pub size: i128,
    /// The alignment.
    pub align: i128,
}

impl Layout {
    /// That of what is too large for any buffer.
    pub const ENDLESS: Layout = Layout {
        size: i128::MAX,
        align: 1,
    };

    /// The same in whole numbers.
    pub fn from_library(layout: LibraryLayout) -> Layout {
        Layout {
            size: layout.size as i128,
            align: layout.align as i128,
        }
    }
}

/// What an entry of a sorted map takes, a key and then its value; and where the value begins in it.
pub fn layout_of_entry(key: Key, value: Layout) -> (Layout, i128) {
    let offset = rounded_up(key.size() as i128, value.align);
    let align = (key.align() as i128).max(value.align);
    let size = rounded_up(offset.saturating_add(value.size), align);
    (Layout { size, align }, offset)
}

/// The least multiple of an alignment that is at least a number.
pub fn rounded_up(number: i128, align: i128) -> i128 {
    match number.checked_rem(align) {
        None | Some(0) => number,
        Some(past) => number.saturating_add(align.saturating_sub(past)),
    }
}
