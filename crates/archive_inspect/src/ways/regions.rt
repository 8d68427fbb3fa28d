//! Whether a pointer's region is where it may not be.

ghost use Rattle.std.specs.Prelude.{◌≡◌, ◌≢◌, ℕ, ◌+◌, ◌*◌, ◌%◌, ◌≤◌, ◌^◌, pos, IsTrue, IfSome};
ghost use Rattle.archive_check.specs.declared.format.error.Error.TheVariants.{InvalidSubtreePointer, UnalignedPointer};
ghost use Rattle.archive_check.specs.Expressions.{shape_of};
ghost use Rattle.archive_check.specs.Layout.{size_of};
ghost use Rattle.archive_inspect.specs.Points.{Under, pointed_of, pointer_told, unit_layout, RegionTakes, RegionAligned, RegionIsLarge, RegionRefused};
ghost use Rattle.archive_schema.specs.Schemas.{layout_of as taken};

use crate::form::Form;
use crate::ways::entries::sizes_of;
use crate::ways::layouts::layout_of;
use crate::ways::pointing::{Pointed, Pointing, held_of, one_of, place_of};
use archive_check::format::error::Error;
use archive_check::format::expr::Expr;
use archive_check::format::layout::Layout;

/// What each element takes that a pointer leads to: a text is of single bytes.
pub fn unit_of(form: &Form, pointed: Pointed<'_>) -> Option<Layout>
    ensures { IfSome result (λ l. Under form.now.schema
        (λ s. unit_layout s (pointed_of pointed.entry) ≡ taken l)) }
{
    match pointed {
        Pointed::One(expr) | Pointed::Run(expr) => layout_of(form, expr),
        Pointed::Entries(key, value) => {
            let (layout, _) = sizes_of(form, key, value)?;
            Some(layout)
        }
        Pointed::Text => Some(Layout { size: 1, align: 1 }),
    }
}

// How many bytes a pointer's region has, if that fits a `usize`.
fn bytes_of(form: &Form, pointer: Pointing<'_>) -> Option<usize>
    ensures { IfSome result (RegionTakes form.now.schema (pointer_told pointer.entry)) }
{
    let unit = unit_of(form, pointer.pointed)?;
    match one_of(pointer) {
        Some(_) => return Some(unit.size),
        None => {}
    }
    let bytes = pointer.length.checked_mul(unit.size)?;
    Some(bytes)
}

// Whether a value takes more bytes than a `usize` counts.
fn is_too_large(form: &Form, expr: &Expr) -> bool
    ensures { IsTrue result → Under form.now.schema
        (λ s. 2 ^ 64 ≤ size_of s.layouts (shape_of expr.now)) }
{
    let schema = form.schema();
    schema.defines(expr) && schema.layout(expr).is_err()
}

// Whether so many elements as a pointer leads to do.
fn overflows(form: &Form, pointer: Pointing<'_>) -> bool
    ensures { IsTrue result → Under form.now.schema (λ s. 2 ^ 64 ≤ pointer.entry.length
        * (unit_layout s (pointed_of pointer.entry.pointed)).size) }
{
    match unit_of(form, pointer.pointed) {
        Some(unit) => pointer.length.checked_mul(unit.size).is_none(),
        None => false,
    }
}

// Whether what a pointer leads to does.
fn are_too_large(form: &Form, pointer: Pointing<'_>) -> bool
    ensures { IsTrue result → RegionIsLarge form.now.schema (pointer_told pointer.entry) }
{
    match one_of(pointer) {
        Some(expr) => return is_too_large(form, expr),
        None => {}
    }
    if overflows(form, pointer) {
        return true;
    }
    if pointer.length == 0 {
        return false;
    }
    match held_of(pointer) {
        Some(expr) => is_too_large(form, expr),
        None => false,
    }
}

// Whether a region of so many bytes, which a pointer leads to, doesn't lie within a range.
fn is_outside(pointer: Pointing<'_>, size: usize, start: usize, end: usize) -> bool
    ensures { IsTrue result → (t : ℕ) → pointer.entry.target ≡ pos t → start ≤ t → t + size ≤ end
        → ⊥ }
{
    match place_of(pointer) {
        None => pointer.target < 0,
        Some(at) => at < start || at > end || end - at < size,
    }
}

// Whether a pointer's target is no multiple of an alignment.
fn is_unaligned(pointer: Pointing<'_>, align: usize) -> bool
    ensures { IsTrue result → (t : ℕ) × (pointer.entry.target ≡ pos t) × (t % align ≢ 0) }
{
    match place_of(pointer) {
        None => false,
        Some(at) => align > 0 && at % align != 0,
    }
}

// Whether a pointer's region has so many bytes.
fn has_size(form: &Form, pointer: Pointing<'_>, size: usize) -> bool
    ensures { IsTrue result → RegionTakes form.now.schema (pointer_told pointer.entry) size }
{
    match bytes_of(form, pointer) {
        Some(bytes) => bytes == size,
        None => false,
    }
}

// Whether it has this alignment.
fn has_align(form: &Form, pointer: Pointing<'_>, align: usize) -> bool
    ensures { IsTrue result → RegionAligned form.now.schema (pointer_told pointer.entry) align }
{
    match unit_of(form, pointer.pointed) {
        Some(unit) => unit.align == align,
        None => false,
    }
}

// Whether a pointer leads to a position, to a region of so many bytes that doesn't lie in a range.
fn is_outside_refused(
    form: &Form,
    pointer: Pointing<'_>,
    position: i128,
    size: usize,
    range: (usize, usize),
) -> bool
    ensures { IsTrue result → RegionRefused form.now.schema (pointer_told pointer.entry)
        (InvalidSubtreePointer position size range.0 range.1) }
{
    let (start, end) = range;
    if position != pointer.target {
        return false;
    }
    if !has_size(form, pointer, size) {
        return false;
    }
    is_outside(pointer, size, start, end)
}

// Whether a pointer leads to a position that isn't aligned so, as its region has to be.
fn is_unaligned_refused(form: &Form, pointer: Pointing<'_>, position: i128, align: usize) -> bool
    ensures { IsTrue result → RegionRefused form.now.schema (pointer_told pointer.entry)
        (UnalignedPointer position align) }
{
    if position != pointer.target {
        return false;
    }
    if !has_align(form, pointer, align) {
        return false;
    }
    is_unaligned(pointer, align)
}

/// Whether a pointer's region may not be entered, as the error says.
pub fn is_region_refused(form: &Form, pointer: Pointing<'_>, refusal: Error) -> bool
    ensures { IsTrue result → RegionRefused form.now.schema (pointer_told pointer.entry) refusal }
{
    match refusal {
        Error::LayoutTooLarge => are_too_large(form, pointer),
        Error::InvalidSubtreePointer {
            position,
            size,
            start,
            end,
        } => is_outside_refused(form, pointer, position, size, (start, end)),
        Error::UnalignedPointer { position, align } => {
            is_unaligned_refused(form, pointer, position, align)
        }
        _ => false,
    }
}
