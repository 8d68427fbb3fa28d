//! The entries of sorted maps.

ghost use Rattle.std.specs.Prelude.{IfSome};
ghost use Rattle.archive_check.specs.Expressions.{shape_of, key_of};
ghost use Rattle.archive_inspect.specs.Points.{EntryAmong, EntrySizes};

use crate::form::Form;
use crate::ways::layouts::{layout_of, rounded_up};
use crate::ways::pointing::{length_at, place_at};
use archive_check::format::expr::{Expr, Key};
use archive_check::format::layout::Layout;

/// Where an entry has its key and its value.
#[derive(Clone, Copy)]
pub struct EntryPlaces {
    /// The position of the key.
    pub key: usize,
    /// That of the value.
    pub value: usize,
}

/// What an entry takes, and where the value begins in it.
pub fn sizes_of(form: &Form, key: Key, value: &Expr) -> Option<(Layout, usize)>
    ensures { IfSome result (EntrySizes form.now.schema (key_of key) (shape_of value.now)) }
{
    let layout = layout_of(form, value)?;
    let key_size = key.size();
    let offset = rounded_up(key_size, layout.align)?;
    let end = offset.checked_add(layout.size)?;
    let key_align = key.align();
    let align = key_align.max(layout.align);
    let size = rounded_up(end, align)?;
    Some((Layout { size, align }, offset))
}

/// Where the entry of this number lies, of the map at a position.
pub fn entry_from(
    form: &Form,
    bytes: &[u8],
    at: usize,
    key: Key,
    value: &Expr,
    number: usize,
) -> Option<EntryPlaces>
    ensures { IfSome result (EntryAmong form.now.schema bytes.now at (key_of key)
        (shape_of value.now) number) }
{
    let length = length_at(bytes, at)?;
    if number >= length {
        return None;
    }
    let target = place_at(bytes, at)?;
    let sizes = sizes_of(form, key, value)?;
    let before = number.checked_mul(sizes.0.size)?;
    let start = target.checked_add(before)?;
    let inner = start.checked_add(sizes.1)?;
    Some(EntryPlaces {
        key: start,
        value: inner,
    })
}
