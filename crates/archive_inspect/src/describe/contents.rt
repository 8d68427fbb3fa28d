//! What lies at a point of an archive, read anew by the rules of reading.

ghost use Rattle.std.specs.Prelude.{◌≡◌, IfSome};
ghost use Rattle.archive_check.specs.Reads.{bytes_at};
ghost use Rattle.archive_inspect.specs.Described.{HasContent, TakesSize, told_region, told_count};
ghost use Rattle.archive_inspect.specs.Points.{Under, pointer_told};

use crate::describe::Content;
use crate::form::Form;
use crate::walk::leaves::{Leaf, leaf_from};
use crate::walk::{Count, Region, What};
use crate::ways::kinds::{choice_of, is_string, kind_at, variant_of, weak_of};
use crate::ways::layouts::layout_of;
use crate::ways::pointing::{Pointed, Pointing, has_bytes};
use crate::ways::regions::unit_of;
use crate::ways::steps::pointing_at;
use crate::ways::{Point, Thing};
use archive_check::format::bytes::{inline_length, is_out_of_line, read_i32};

// How many bytes a value takes.
fn size_at(form: &Form, point: Point<'_>) -> Option<usize>
    ensures { IfSome result (TakesSize form.now.schema point.entry) }
{
    match point.thing {
        Thing::Value(expr) => {
            let layout = layout_of(form, expr)?;
            Some(layout.size)
        }
        Thing::Key(key) => Some(key.size()),
        Thing::Payload(_) | Thing::Text(_) => None,
    }
}

// A leaf.
fn leaf_content<'a>(form: &Form, bytes: &[u8], point: Point<'a>) -> Option<(usize, Content<'a>)>
    ensures { IfSome result (λ it. HasContent form.now.schema bytes.now point.entry it.0 it.1) }
{
    let kind = kind_at(point)?;
    let leaf = leaf_from(kind, bytes, point.at)?;
    Some((kind.size(), Content::Leaf(leaf)))
}

// The text in so many bytes at a position.
#[tactic(auto, unfolding(archive_check::specs::Reads::bytes_at))]
fn text_at(bytes: &[u8], at: usize, length: usize) -> Option<&str>
    ensures { IfSome result (λ text. text.now ≡ bytes_at bytes.now at length) }
{
    let end = at.checked_add(length)?;
    let text = bytes.get(at..end)?;
    str::from_utf8(text).ok()
}

// A text that a pointer leads to.
fn text_content<'a>(form: &Form, bytes: &'a [u8], point: Point<'a>) -> Option<(usize, Content<'a>)>
    ensures { IfSome result (λ it. HasContent form.now.schema bytes.now point.entry it.0 it.1) }
{
    let Thing::Text(length) = point.thing else {
        return None;
    };
    let text = text_at(bytes, point.at, length)?;
    Some((length, Content::Text(text)))
}

// A string with the text in its eight bytes.
fn string_content<'a>(
    form: &Form,
    bytes: &'a [u8],
    point: Point<'a>,
) -> Option<(usize, Content<'a>)>
    ensures { IfSome result (λ it. HasContent form.now.schema bytes.now point.entry it.0 it.1) }
{
    if !is_string(point) || !has_bytes(bytes, point.at, 8) || is_out_of_line(bytes, point.at) {
        return None;
    }
    let text = text_at(bytes, point.at, inline_length(bytes, point.at))?;
    Some((8, Content::Text(text)))
}

// A tag; its variant's name is for people.
fn tag_content<'a>(
    form: &Form,
    bytes: &[u8],
    point: Point<'a>,
    name: &'static str,
) -> Option<(usize, Content<'a>)>
    ensures { IfSome result (λ it. HasContent form.now.schema bytes.now point.entry it.0 it.1) }
{
    let choice = choice_of(point)?;
    if point.at >= bytes.len() {
        return None;
    }
    let tag = bytes[point.at];
    let _parts = variant_of(choice.1, tag as usize)?;
    Some((1, Content::Tag(tag, name)))
}

// What lies in the region that a pointer leads to.
fn count_of(pointer: Pointing<'_>) -> Count
    ensures { result ≡ told_count (pointer_told pointer.entry).pointee pointer.entry.length }
{
    match pointer.pointed {
        Pointed::One(_) => Count::One,
        Pointed::Run(_) | Pointed::Entries(_, _) => Count::Elements(pointer.length),
        Pointed::Text => Count::Text(pointer.length),
    }
}

// The region.
fn region_of(form: &Form, pointer: Pointing<'_>) -> Option<Region>
    ensures { IfSome result (λ region. Under form.now.schema
        (λ s. region ≡ told_region s (pointer_told pointer.entry))) }
{
    let unit = unit_of(form, pointer.pointed)?;
    Some(Region {
        position: pointer.target,
        size: unit.size as i128,
        align: unit.align as i128,
        count: count_of(pointer),
    })
}

// A pointer.
fn pointer_content<'a>(form: &Form, bytes: &[u8], point: Point<'a>) -> Option<(usize, Content<'a>)>
    ensures { IfSome result (λ it. HasContent form.now.schema bytes.now point.entry it.0 it.1) }
{
    let pointer = pointing_at(bytes, point)?;
    let region = region_of(form, pointer)?;
    let size = size_at(form, point)?;
    Some((size, Content::Pointer(region)))
}

// A shared pointer.
fn shared_content<'a>(form: &Form, bytes: &[u8], point: Point<'a>) -> Option<(usize, Content<'a>)>
    ensures { IfSome result (λ it. HasContent form.now.schema bytes.now point.entry it.0 it.1) }
{
    let pointer = pointing_at(bytes, point)?;
    let _flavor = pointer.flavor?;
    let region = region_of(form, pointer)?;
    let size = size_at(form, point)?;
    Some((size, Content::Again(region)))
}

// A weak pointer to nothing.
fn null_content<'a>(form: &Form, bytes: &[u8], point: Point<'a>) -> Option<(usize, Content<'a>)>
    ensures { IfSome result (λ it. HasContent form.now.schema bytes.now point.entry it.0 it.1) }
{
    let _weak = weak_of(point)?;
    if !has_bytes(bytes, point.at, 4) || read_i32(bytes, point.at) != 1 {
        return None;
    }
    let size = size_at(form, point)?;
    Some((size, Content::Null))
}

/// What lies at a point where a walk found this, and its size: none if it has no bytes of its own.
pub fn content_at<'a>(
    form: &Form,
    bytes: &'a [u8],
    point: Point<'a>,
    found: What<'_>,
) -> Option<(usize, Content<'a>)>
    ensures { IfSome result (λ it. HasContent form.now.schema bytes.now point.entry it.0 it.1) }
{
    match found {
        What::Leaf(_) => leaf_content(form, bytes, point),
        What::Text(_) => match point.thing {
            Thing::Text(_) => text_content(form, bytes, point),
            _ => string_content(form, bytes, point),
        },
        What::Variant(_, name, _) => tag_content(form, bytes, point, name),
        What::Pointer(_) => pointer_content(form, bytes, point),
        What::Again(_) => shared_content(form, bytes, point),
        What::Null => null_content(form, bytes, point),
        What::Record(_) | What::Array(_) => None,
    }
}
