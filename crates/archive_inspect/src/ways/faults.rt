//! Whether a test of what a way leads to is false.

ghost use Rattle.std.specs.Prelude.{◌≡◌, pos, Some, false, IsTrue, IfSome};
ghost use Rattle.archive_check.specs.declared.format.error.Error.TheVariants.{UnsortedKeys};
ghost use Rattle.archive_check.specs.Expressions.{flavor_of, key_of};
ghost use Rattle.archive_check.specs.Keys.{ComesBehind};
ghost use Rattle.archive_check.specs.Shape.{Flavor};
ghost use Rattle.archive_check.specs.Tour.{root_pointer};
ghost use Rattle.archive_inspect.specs.Points.{pointer_told, PointRefused, RegionRefused, RefusedBy, LeafFails, LeafRefused, TextFails, StringFails, TagFails, KeyFails, SharedAt};
ghost use Rattle.archive_schema.specs.Schemas.{root_of};

use crate::form::Form;
use crate::route::RouteStep;
use crate::ways::entries::entry_from;
use crate::ways::kinds::{choice_of, is_string, kind_at, map_of, variant_of};
use crate::ways::pointing::{Pointed, Pointing, has_bytes, place_of};
use crate::ways::regions::is_region_refused;
use crate::ways::steps::pointing_at;
use crate::ways::{Point, Thing, follow};
use archive_check::format::bytes::{inline_length, is_out_of_line, is_text, read_coded_length};
use archive_check::format::error::Error;
use archive_check::format::expr::{FlavorInfo, Key, Kind};
use archive_check::format::leaf::is_legal;

// The kind of leaf that lies at a point, if its bytes are none.
fn illegal_at(bytes: &[u8], point: Point<'_>) -> Option<Kind>
    ensures { IfSome result (LeafFails bytes.now point.entry) }
{
    let kind = kind_at(point)?;
    if has_bytes(bytes, point.at, kind.size()) && !is_legal(kind, bytes, point.at) {
        Some(kind)
    } else {
        None
    }
}

// Whether the string or the text at a point isn't UTF-8.
fn is_no_text(bytes: &[u8], point: Point<'_>) -> bool
    ensures { IsTrue result → TextFails bytes.now point.entry }
{
    if let Thing::Text(length) = point.thing {
        if !has_bytes(bytes, point.at, length) {
            return false;
        }
        return !is_text(bytes, point.at, length);
    }
    if !is_string(point) || !has_bytes(bytes, point.at, 8) || is_out_of_line(bytes, point.at) {
        return false;
    }
    !is_text(bytes, point.at, inline_length(bytes, point.at))
}

// Whether the string at a point codes too short a length.
fn is_no_string(bytes: &[u8], point: Point<'_>) -> bool
    ensures { IsTrue result → StringFails bytes.now point.entry }
{
    is_string(point)
        && has_bytes(bytes, point.at, 8)
        && is_out_of_line(bytes, point.at)
        && read_coded_length(bytes, point.at) <= 8
}

// Whether two names are the same.
fn is_same(a: &str, b: &str) -> bool
    ensures { IsTrue result → a.now ≡ b.now }
{
    a == b
}

// Whether the choice of this name at a point has no variant of its tag, which is this.
fn has_no_variant(bytes: &[u8], point: Point<'_>, name: &str, tag: u8) -> bool
    ensures { IsTrue result → TagFails bytes.now point.entry name.now tag }
{
    let Some(choice) = choice_of(point) else {
        return false;
    };
    if !is_same(choice.0, name) || point.at >= bytes.len() {
        return false;
    }
    if bytes[point.at] != tag {
        return false;
    }
    match variant_of(choice.1, tag as usize) {
        Some(_) => false,
        None => true,
    }
}

// How the pointer at a point is shared, if it is and leads to no place before the buffer.
fn flavor_at(bytes: &[u8], point: Point<'_>) -> Option<FlavorInfo>
    ensures { IfSome result (λ flavor. SharedAt bytes.now point.entry (flavor_of flavor)) }
{
    let pointer = pointing_at(bytes, point)?;
    let _target = place_of(pointer)?;
    let flavor = pointer.flavor?;
    Some(flavor)
}

// Whether it is shared so.
fn is_shared(bytes: &[u8], point: Point<'_>) -> bool
    ensures { IsTrue result → (flavor : Flavor) × SharedAt bytes.now point.entry flavor }
{
    match flavor_at(bytes, point) {
        Some(_) => true,
        None => false,
    }
}

// Whether it is, and its value may not contain itself.
fn forbids_cycles(bytes: &[u8], point: Point<'_>) -> bool
    ensures { IsTrue result → (flavor : Flavor) × SharedAt bytes.now point.entry flavor
        × (flavor.cycles ≡ false) }
{
    match flavor_at(bytes, point) {
        Some(flavor) => !flavor.cycles,
        None => false,
    }
}

// Whether the leaf at a point is illegal, as the refusal says.
fn is_leaf_refused(bytes: &[u8], point: Point<'_>, refusal: Error) -> bool
    ensures { IsTrue result → LeafRefused bytes.now point.entry refusal }
{
    let Some(kind) = illegal_at(bytes, point) else {
        return false;
    };
    match kind {
        Kind::Bool => matches!(refusal, Error::InvalidBool),
        Kind::Char => matches!(refusal, Error::InvalidChar),
        Kind::NonZero(_) => matches!(refusal, Error::ZeroNumber),
        _ => false,
    }
}

// Whether the pointer at a point leads to a region that may not be entered.
fn is_pointer_refused(form: &Form, bytes: &[u8], point: Point<'_>, refusal: Error) -> bool
    ensures { IsTrue result → PointRefused form.now.schema bytes.now point.entry refusal }
{
    match pointing_at(bytes, point) {
        Some(pointer) => is_region_refused(form, pointer, refusal),
        None => false,
    }
}

// Whether a test of what lies at a point is false, which the refusal says.
fn is_point_refused(form: &Form, bytes: &[u8], point: Point<'_>, refusal: Error) -> bool
    ensures { IsTrue result → PointRefused form.now.schema bytes.now point.entry refusal }
{
    match refusal {
        Error::InvalidBool | Error::InvalidChar | Error::ZeroNumber => {
            is_leaf_refused(bytes, point, refusal)
        }
        Error::InvalidDiscriminant { name, value } => has_no_variant(bytes, point, name, value),
        Error::InvalidUtf8 => is_no_text(bytes, point),
        Error::InvalidStringRepr => is_no_string(bytes, point),
        Error::TypeMismatch => is_shared(bytes, point),
        Error::MetadataMismatch => is_shared(bytes, point),
        Error::CyclicValidate => forbids_cycles(bytes, point),
        _ => is_pointer_refused(form, bytes, point, refusal),
    }
}

// Whether a position is another one.
fn is_at(position: usize, at: usize) -> bool
    ensures { IsTrue result → position ≡ at }
{
    position == at
}

// A position as a whole number.
fn wide(at: usize) -> i128
    ensures { result ≡ pos at }
{
    at as i128
}

// The root as what a pointer leads to.
fn root_pointing(form: &Form, root: usize) -> Pointing<'_>
    ensures { pointer_told result ≡ root_pointer root (root_of form.now.schema) }
{
    let target = wide(root);
    let expr = form.schema().root();
    Pointing {
        target,
        pointed: Pointed::One(expr),
        length: 0,
        flavor: None,
    }
}

// Whether the root's region may not be entered, as the refusal says.
fn is_root_refused(form: &Form, root: usize, refusal: Error) -> bool
    ensures { IsTrue result → RegionRefused form.now.schema
        (root_pointer root (root_of form.now.schema)) refusal }
{
    let pointer = root_pointing(form, root);
    is_region_refused(form, pointer, refusal)
}

// Whether the steps lead to a position where a test is false, which the refusal says.
fn is_refused_there(
    form: &Form,
    bytes: &[u8],
    root: usize,
    steps: &[RouteStep],
    position: usize,
    refusal: Error,
) -> bool
    ensures { IsTrue result → RefusedBy form.now.schema bytes.now root steps.now position refusal }
{
    match follow(form, bytes, root, steps) {
        Some(point) => {
            is_at(position, point.at) && is_point_refused(form, bytes, point, refusal)
        }
        None => false,
    }
}

// Whether the key at a position isn't greater than the one before it.
fn is_behind_none(bytes: &[u8], key: Key, before: usize, at: usize) -> bool
    ensures { IsTrue result → ComesBehind (key_of key) bytes.now (Some before) at → ⊥ }
{
    if !has_bytes(bytes, before, key.size()) || !has_bytes(bytes, at, key.size()) {
        return false;
    }
    !key.ascends(bytes, before, at)
}

// Whether the key of an entry of a map lies at the position, and doesn't come behind the one before.
fn is_unsorted_at(form: &Form, bytes: &[u8], map: Point<'_>, number: usize, position: usize) -> bool
    ensures { IsTrue result → KeyFails form.now.schema bytes.now map.entry number position }
{
    let Some(kinds) = map_of(map) else {
        return false;
    };
    let Some(earlier) = number.checked_sub(1) else {
        return false;
    };
    let Some(first) = entry_from(form, bytes, map.at, kinds.0, kinds.1, earlier) else {
        return false;
    };
    let Some(second) = entry_from(form, bytes, map.at, kinds.0, kinds.1, number) else {
        return false;
    };
    if !is_at(position, second.key) {
        return false;
    }
    is_behind_none(bytes, kinds.0, first.key, second.key)
}

// Whether the last step leads to a key at the position, which doesn't come behind the one before.
fn is_unsorted_there(
    form: &Form,
    bytes: &[u8],
    root: usize,
    steps: &[RouteStep],
    position: usize,
) -> bool
    ensures { IsTrue result → RefusedBy form.now.schema bytes.now root steps.now position
        UnsortedKeys }
{
    let Some(count) = steps.len().checked_sub(1) else {
        return false;
    };
    let RouteStep::Key(number) = steps[count] else {
        return false;
    };
    match follow(form, bytes, root, &steps[..count]) {
        Some(map) => is_unsorted_at(form, bytes, map, number, position),
        None => false,
    }
}

/// Whether the steps lead from the root to the position, where the test that the error names is
/// false.
pub fn is_refused_by(
    form: &Form,
    bytes: &[u8],
    root: usize,
    steps: &[RouteStep],
    position: usize,
    refusal: Error,
) -> bool
    ensures { IsTrue result → RefusedBy form.now.schema bytes.now root steps.now position refusal }
{
    match refusal {
        Error::UnsortedKeys => is_unsorted_there(form, bytes, root, steps, position),
        _ => {
            if steps.is_empty() && is_at(position, root) && is_root_refused(form, root, refusal) {
                return true;
            }
            is_refused_there(form, bytes, root, steps, position, refusal)
        }
    }
}
