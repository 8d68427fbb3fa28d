//! Whether pieces have all leaves of an archive: found by a search of its own, step by step by the
//! rules of reading.

ghost use Rattle.std.specs.Prelude.{◌≡◌, ◌≢◌, ◌∷◌, ◌++◌, ◌+◌, ◌<◌, ◌≤◌, [], ℕ, IsTrue, IfSome, IfOk, pos};
ghost use Rattle.archive_check.specs.Expressions.{key_of, shape_of, shapes_in, variants_in};
ghost use Rattle.archive_check.specs.Reads.{SchemaTable, IsOutOfLine, map_at, u32_at};
ghost use Rattle.archive_check.specs.Shape.{str};
ghost use Rattle.archive_inspect.specs.Described.{IsLeafOrText};
ghost use Rattle.archive_inspect.specs.Opened.{PartsAmong, ElementsAmong, EntriesAmong, PayloadAmong, TargetAmong, SameTarget, LeadsAlike, IsLeafPiece, IsToldAt, IsNullAt, Opened, Visits, TellsAll};
ghost use Rattle.archive_inspect.specs.Points.{end_of_way, pointer_told, PointsFrom, Under};
ghost use Rattle.archive_inspect.specs.Ways.{a_value};

use crate::describe::{Content, Piece};
use crate::form::Form;
use crate::ways::entries::entry_from;
use crate::ways::kinds::{
    array_of, choice_of, is_string, kind_at, map_of, payload_of, record_of, variant_of, weak_of,
};
use crate::ways::layouts::{element_from, layout_of, part_from};
use crate::ways::pointing::{Pointed, Pointing, has_bytes, length_at, place_of};
use crate::ways::steps::pointing_at;
use crate::ways::{Point, Thing, meant};
use archive_check::format::bytes::{is_out_of_line, read_i32};
use archive_check::format::expr::{Expr, Key};
use std::alloc::{AllocError, Global};
use std::collections::BTreeMap;

// The parts that are laid out from an offset on, of what begins at a position.
fn parts_at<'a>(
    alloc: Global,
    form: &'a Form,
    parts: &'a [Expr],
    at: usize,
    start: usize,
) -> Result<Option<Vec<Point<'a>>>, AllocError>
    ensures { IfOk result (λ found. IfSome found (λ xs. Under form.now.schema (λ s. PartsAmong s
        xs.items at start (shapes_in parts.now)))) }
{
    let mut points = Vec::new(alloc);
    for number in 0..parts.len() {
        let Some(part) = part_from(form, parts, at, start, number) else {
            return Ok(None);
        };
        points.push(meant(form, part))?;
    }
    Ok(Some(points))
}

// How many elements lie at positions of their own: all of those without bytes lie at one.
fn count_of_places(size: usize, count: usize) -> usize
    ensures one { size ≡ 0 → 0 < count → 0 < result }
    ensures all { size ≢ 0 → count ≤ result }
{
    if size == 0 { count.min(1) } else { count }
}

// So many elements, the first at a position.
fn elements_at<'a>(
    alloc: Global,
    form: &'a Form,
    element: &'a Expr,
    start: usize,
    count: usize,
) -> Result<Option<Vec<Point<'a>>>, AllocError>
    ensures { IfOk result (λ found. IfSome found (λ xs. Under form.now.schema (λ s. ElementsAmong s
        xs.items start count (shape_of element.now)))) }
{
    let mut points = Vec::new(alloc);
    let Some(layout) = layout_of(form, element) else {
        return Ok(None);
    };
    let places = count_of_places(layout.size, count);
    for number in 0..places {
        let Some(point) = element_from(form, element, start, count, number) else {
            return Ok(None);
        };
        points.push(meant(form, point))?;
    }
    Ok(Some(points))
}

// The keys and the values of the map at a position.
fn entries_at<'a>(
    alloc: Global,
    form: &'a Form,
    bytes: &[u8],
    at: usize,
    key: Key,
    value: &'a Expr,
) -> Result<Option<Vec<Point<'a>>>, AllocError>
    ensures { IfOk result (λ found. IfSome found (λ xs. Under form.now.schema (λ s. (t : ℕ) →
        (map_at bytes.now at (key_of key) (shape_of value.now)).target ≡ pos t → EntriesAmong s
        xs.items t (u32_at bytes.now (at + 4)) (key_of key) (shape_of value.now)))) }
{
    let mut points = Vec::new(alloc);
    let Some(count) = length_at(bytes, at) else {
        return Ok(None);
    };
    for number in 0..count {
        let Some(places) = entry_from(form, bytes, at, key, value, number) else {
            return Ok(None);
        };
        points.push(Point {
            at: places.key,
            thing: Thing::Key(key),
        })?;
        let inner = Point {
            at: places.value,
            thing: Thing::Value(value),
        };
        points.push(meant(form, inner))?;
    }
    Ok(Some(points))
}

// One point.
fn only<'a>(alloc: Global, point: Point<'a>) -> Result<Vec<Point<'a>>, AllocError>
    ensures { IfOk result (λ xs. xs.items ≡ point.entry ∷ []) }
{
    Ok(vec![in alloc; point]?)
}

// What a pointer leads to that isn't a map.
fn target_of<'a>(
    alloc: Global,
    form: &'a Form,
    pointer: Pointing<'a>,
) -> Result<Option<Vec<Point<'a>>>, AllocError>
    ensures { IfOk result (λ found. IfSome found (λ xs. Under form.now.schema (λ s. TargetAmong s
        xs.items (pointer_told pointer.entry)))) }
{
    let Some(place) = place_of(pointer) else {
        return Ok(None);
    };
    match pointer.pointed {
        Pointed::One(expr) => {
            let inner = Point {
                at: place,
                thing: Thing::Value(expr),
            };
            let value = only(alloc, meant(form, inner))?;
            Ok(Some(value))
        }
        Pointed::Run(element) => elements_at(alloc, form, element, place, pointer.length),
        Pointed::Text => {
            let inner = Point {
                at: place,
                thing: Thing::Text(pointer.length),
            };
            let text = only(alloc, inner)?;
            Ok(Some(text))
        }
        Pointed::Entries(_, _) => Ok(None),
    }
}

// Whether a piece is a leaf or a text.
fn is_leaf_or_text(content: Content<'_>) -> bool
    ensures { IsTrue result → IsLeafOrText content.entry }
{
    matches!(content, Content::Leaf(_) | Content::Text(_))
}

// Whether there is the same leaf, text or string at two points.
fn is_same_leaf(one: Point<'_>, other: Point<'_>) -> bool
    ensures { IsTrue result → end_of_way one.entry.thing ≡ end_of_way other.entry.thing }
{
    if let (Some(kind), Some(wanted)) = (kind_at(one), kind_at(other)) {
        return kind == wanted;
    }
    if let (Thing::Text(length), Thing::Text(wanted)) = (one.thing, other.thing) {
        return length == wanted;
    }
    is_string(one) && is_string(other)
}

// Whether a piece is the leaf or the text at a point.
fn tells(piece: &Piece<'_>, point: Point<'_>) -> bool
    ensures { IsTrue result → IsLeafPiece piece.now point.entry.at (end_of_way point.entry.thing) }
{
    let Some(thing) = piece.thing else {
        return false;
    };
    let here = Point {
        at: piece.position,
        thing,
    };
    here.at == point.at && is_leaf_or_text(piece.content) && is_same_leaf(here, point)
}

// Whether one of the pieces, which are in order of position, is the leaf or the text at a point.
fn is_told(pieces: &[Piece<'_>], point: Point<'_>) -> bool
    ensures { IsTrue result → IsToldAt pieces.now point.entry.at (end_of_way point.entry.thing) }
{
    let number = pieces.partition_point(|piece| piece.position < point.at);
    if number >= pieces.len() {
        return false;
    }
    tells(&pieces[number], point)
}

// Whether there is a string at a point, with its text in it.
fn is_inline(bytes: &[u8], point: Point<'_>) -> bool
    ensures string { IsTrue result → end_of_way point.entry.thing ≡ a_value str }
    ensures inline { IsTrue result → IsOutOfLine bytes.now point.entry.at → ⊥ }
{
    is_string(point) && has_bytes(bytes, point.at, 8) && !is_out_of_line(bytes, point.at)
}

// Whether there is a weak pointer to nothing at a point.
fn is_null(bytes: &[u8], point: Point<'_>) -> bool
    ensures { IsTrue result → IsNullAt bytes.now point.entry }
{
    let Some(_weak) = weak_of(point) else {
        return false;
    };
    if !has_bytes(bytes, point.at, 4) || read_i32(bytes, point.at) != 1 {
        return false;
    }
    true
}

// Whether what lies at a point leads nowhere, and is one of the pieces if it has bytes.
fn is_end(bytes: &[u8], pieces: &[Piece<'_>], point: Point<'_>) -> bool
    ensures { IsTrue result → (s : SchemaTable) → Opened s bytes.now pieces.now [] point.entry.at
        (end_of_way point.entry.thing) }
{
    if let Some(kind) = kind_at(point) {
        return kind.size() == 0 || is_told(pieces, point);
    }
    if let Thing::Text(length) = point.thing {
        return length == 0 || is_told(pieces, point);
    }
    if is_inline(bytes, point) {
        return is_told(pieces, point);
    }
    is_null(bytes, point)
}

// The parts behind the tag at a position.
fn payload_at<'a>(
    alloc: Global,
    bytes: &[u8],
    at: usize,
    variants: &'a [Vec<Expr>],
) -> Result<Option<Vec<Point<'a>>>, AllocError>
    ensures { IfOk result (λ found. IfSome found (λ xs. PayloadAmong bytes.now at (variants_in
        variants.now) xs.items)) }
{
    if at >= bytes.len() {
        return Ok(None);
    }
    let tag = bytes[at];
    let Some(parts) = variant_of(variants, tag as usize) else {
        return Ok(None);
    };
    let behind = Point {
        at,
        thing: Thing::Payload(parts),
    };
    let points = only(alloc, behind)?;
    Ok(Some(points))
}

// What lies one step behind a point: nothing behind a leaf, which is to be one of the pieces. None
// if it is none of them, or if the bytes aren't read there.
fn opened<'a>(
    alloc: Global,
    form: &'a Form,
    bytes: &[u8],
    pieces: &[Piece<'_>],
    point: Point<'a>,
) -> Result<Option<Vec<Point<'a>>>, AllocError>
    ensures { IfOk result (λ found. IfSome found (λ xs. Under form.now.schema (λ s. Opened s
        bytes.now pieces.now xs.items point.entry.at (end_of_way point.entry.thing)))) }
{
    if is_end(bytes, pieces, point) {
        return Ok(Some(Vec::new(alloc)));
    }
    if let Some(parts) = record_of(point) {
        return parts_at(alloc, form, parts, point.at, 0);
    }
    if let Some(parts) = payload_of(point) {
        return parts_at(alloc, form, parts, point.at, 1);
    }
    if let Some(choice) = choice_of(point) {
        return payload_at(alloc, bytes, point.at, choice.1);
    }
    if let Some(array) = array_of(point) {
        return elements_at(alloc, form, array.1, point.at, array.0);
    }
    if let Some(map) = map_of(point) {
        return entries_at(alloc, form, bytes, point.at, map.0, map.1);
    }
    match pointing_at(bytes, point) {
        Some(pointer) => target_of(alloc, form, pointer),
        None => Ok(None),
    }
}

// Whether two pointers lead to the same. Entries of maps aren't compared: no pointer shares them.
fn is_same_target(one: Pointing<'_>, other: Pointing<'_>) -> bool
    ensures { IsTrue result → SameTarget (pointer_told one.entry) (pointer_told other.entry) }
{
    if one.target != other.target || one.length != other.length {
        return false;
    }
    match (one.pointed, other.pointed) {
        (Pointed::One(expr), Pointed::One(wanted)) => *expr == *wanted,
        (Pointed::Run(expr), Pointed::Run(wanted)) => *expr == *wanted,
        (Pointed::Text, Pointed::Text) => true,
        _ => false,
    }
}

// Whether a pointer leads to what one leads to that was followed: which one, is looked up by its
// target.
fn is_followed(
    followed: &[Pointing<'_>],
    numbers: &BTreeMap<usize, usize>,
    pointer: Pointing<'_>,
) -> bool
    ensures { IsTrue result → LeadsAlike followed.now (pointer_told pointer.entry) }
{
    let Some(place) = place_of(pointer) else {
        return false;
    };
    let Some(number) = numbers.get(&place).copied() else {
        return false;
    };
    if number >= followed.len() {
        return false;
    }
    is_same_target(followed[number], pointer)
}

// A pointer is followed.
fn keep_followed<'a>(
    followed: &mut Vec<Pointing<'a>>,
    numbers: &mut BTreeMap<usize, usize>,
    pointer: Pointing<'a>,
) -> Result<(), AllocError>
    ensures { IfOk result (λ _. followed.new.items ≡ followed.old.items ++ pointer.entry ∷ []) }
{
    if let Some(place) = place_of(pointer) {
        let _ = numbers.insert(place, followed.len())?;
    }
    followed.push(pointer)?;
    Ok(())
}

// The shared pointer at a point.
fn shared_at<'a>(bytes: &[u8], point: Point<'a>) -> Option<Pointing<'a>>
    ensures { IfSome result (λ p. PointsFrom bytes.now point.entry (pointer_told p)) }
{
    let pointer = pointing_at(bytes, point)?;
    let _flavor = pointer.flavor?;
    Some(pointer)
}

// What lies one step behind a point, as `opened` finds it; what several pointers share is found
// once.
fn visit<'a>(
    alloc: Global,
    form: &'a Form,
    bytes: &[u8],
    pieces: &[Piece<'_>],
    followed: &mut Vec<Pointing<'a>>,
    numbers: &mut BTreeMap<usize, usize>,
    point: Point<'a>,
) -> Result<Option<Vec<Point<'a>>>, AllocError>
    ensures { IfOk result (λ found. IfSome found (λ xs. Under form.now.schema (λ s. Visits s
        bytes.now pieces.now followed.old.items followed.new.items point.entry xs.items))) }
{
    let Some(pointer) = shared_at(bytes, point) else {
        return opened(alloc, form, bytes, pieces, point);
    };
    if is_followed(followed, numbers, pointer) {
        return Ok(Some(Vec::new(alloc)));
    }
    let Some(target) = target_of(alloc, form, pointer)? else {
        return Ok(None);
    };
    keep_followed(followed, numbers, pointer)?;
    Ok(Some(target))
}

/// Whether the pieces, in order of position, have all leaves of an archive whose root lies at a
/// position. Fails if memory is refused.
pub fn tell_all_leaves(
    alloc: Global,
    form: &Form,
    bytes: &[u8],
    root: usize,
    pieces: &[Piece<'_>],
) -> Result<bool, AllocError>
    ensures { IfOk result (λ yes. IsTrue yes → TellsAll form.now.schema bytes.now root pieces.now) }
{
    let start = Point {
        at: root,
        thing: Thing::Value(form.schema().root()),
    };
    let mut pending = only(alloc, meant(form, start))?;
    let mut points = Vec::new(alloc);
    let mut followed = Vec::new(alloc);
    let mut numbers = BTreeMap::new(alloc);
    for _ in 0..u64::MAX {
        let Some(point) = pending.pop() else {
            return Ok(true);
        };
        let Some(found) = visit(
            alloc,
            form,
            bytes,
            pieces,
            &mut followed,
            &mut numbers,
            point,
        )?
        else {
            break;
        };
        let mut next = found;
        pending.append(&mut next)?;
        points.push(point)?;
    }
    Ok(false)
}
