//! What lies where in an archive.

ghost use Rattle.std.specs.Prelude.{◌≡◌, ◌++◌, ℕ, List, All, Contains, IsTrue, IfSome, IfOk};
ghost use Rattle.archive_inspect.specs.Described.{ArePartsOrUnused, IsPiece, IsReached, IsReachedBy, IsWholeArchive, Tiles, DescribesWhole};
ghost use Rattle.archive_inspect.specs.declared.describe.Content.TheVariants.{Unused};
ghost use Rattle.archive_inspect.specs.declared.describe.Piece.{Piece};
ghost use Rattle.archive_schema.specs.declared.shape.Schema.{Schema};

mod contents;
mod told;

use crate::describe::contents::content_at;
use crate::describe::told::tell_all_leaves;
use crate::form::Form;
use crate::route::{Route, route_of};
use crate::walk::faults::Stop;
use crate::walk::leaves::Leaf;
use crate::walk::{Event, Region, Visited, Walker, What};
use crate::ways::{Point, Thing, follow, follow_from};
use archive_check::format::error::Error;
use std::alloc::{AllocError, Global};

// How many records, variants, lists and regions a way tells of, so that those of a deep archive
// don't take the square of its depth.
const STEPS: usize = 64;

/// What lies in some bytes.
#[derive(Drop)]
pub struct Piece<'a> {
    /// Where they lie.
    pub position: usize,
    /// How many they are.
    pub size: usize,
    /// What they are read as: none if they are unused.
    pub thing: Option<Thing<'a>>,
    /// What they are.
    pub content: Content<'a>,
    /// The way there from the root: of a choice's tag that to the choice. Of a long one it has the
    /// last steps.
    pub way: Route,
}

/// What bytes are.
#[derive(Clone, Copy)]
pub enum Content<'a> {
    /// A leaf, with its value.
    Leaf(Leaf),
    /// A text, or a string with the text in it.
    Text(&'a str),
    /// A tag, with the name of its variant.
    Tag(u8, &'static str),
    /// A pointer, with what it leads to.
    Pointer(Region),
    /// A pointer to what another one leads to as well, and was met before.
    Again(Region),
    /// A weak pointer to nothing.
    Null,
    /// No part of the archive.
    Unused,
}

// Where a way leads: from the root, or from what holds the first of what it tells of.
fn reached_by<'a>(
    form: &'a Form,
    bytes: &[u8],
    root: usize,
    holders: &[Point<'a>],
    way: &Route,
) -> Option<Point<'a>>
    requires { All (IsReached form.now.schema bytes.now root) holders.now }
    ensures { IfSome result (IsReachedBy form.now.schema bytes.now root way.now) }
{
    if way.left_out == 0 {
        return follow(form, bytes, root, &way.steps);
    }
    if way.left_out >= holders.len() {
        return None;
    }
    let start = holders[way.left_out];
    follow_from(form, bytes, start, &way.steps)
}

// Whether what was found holds what is found next.
fn opens(what: What<'_>) -> bool {
    match what {
        What::Record(_) | What::Variant(_, _, _) | What::Array(_) | What::Pointer(_) => true,
        What::Leaf(_) | What::Text(_) | What::Again(_) | What::Null => false,
    }
}

// What a walk finds next: none at the end.
fn next_found<'a>(walk: &mut Walker<'a>) -> Result<Option<Visited<'a>>, Stop> {
    for _ in 0..u64::MAX {
        match walk.step()? {
            Some(Event::Found(found)) => return Ok(Some(found)),
            Some(Event::Ended) => {}
            None => break,
        }
    }
    Ok(None)
}

// What lies at a point that was found: none if it has no bytes of its own.
fn piece_of<'a>(
    form: &'a Form,
    bytes: &'a [u8],
    point: Point<'a>,
    found: What<'_>,
    way: Route,
) -> Option<Piece<'a>>
    ensures { IfSome result (λ x. (root : ℕ) → IsReachedBy form.now.schema bytes.now root way
        point.entry → IsPiece form.now.schema bytes.now root x) }
{
    let (size, content) = content_at(form, bytes, point, found)?;
    Some(Piece {
        position: point.at,
        size,
        thing: Some(point.thing),
        content,
        way,
    })
}

// Keeps a point for the ways to what is found next, if that lies within it.
fn keep_holder<'a>(
    holders: &mut Vec<Point<'a>>,
    point: Point<'a>,
    what: What<'_>,
) -> Result<(), AllocError>
    ensures { (f : Schema) (bytes : List ℕ) (root : ℕ) → All (IsReached f bytes root)
        holders.old.items → IsReached f bytes root point.entry →
        IfOk result (λ _. All (IsReached f bytes root) holders.new.items) }
{
    if opens(what) {
        holders.push(point)?;
    }
    Ok(())
}

// Adds what lies at a point, if the walk found bytes of its own there: false if none are read.
fn add_part<'a>(
    parts: &mut Vec<Piece<'a>>,
    form: &'a Form,
    bytes: &'a [u8],
    point: Point<'a>,
    found: Visited<'_>,
    way: Route,
) -> Result<bool, AllocError>
    ensures { (root : ℕ) → All (IsPiece form.now.schema bytes.now root) parts.old.items →
        IsReachedBy form.now.schema bytes.now root way point.entry →
        IfOk result (λ _. All (IsPiece form.now.schema bytes.now root) parts.new.items) }
{
    if found.size <= 0 {
        return Ok(true);
    }
    let Some(part) = piece_of(form, bytes, point, found.what, way) else {
        return Ok(false);
    };
    parts.push(part)?;
    Ok(true)
}

// What lies in the bytes of an archive whose root lies at a position, in the order of the walk: a
// pointer before what it leads to. None if the walk stops, or doesn't go by the rules of reading.
// Fails if memory is refused.
fn parts_of<'a>(
    alloc: Global,
    form: &'a Form,
    bytes: &'a [u8],
    root: usize,
) -> Result<Option<Vec<Piece<'a>>>, AllocError>
    ensures { IfOk result (λ found. IfSome found (λ parts.
        All (IsPiece form.now.schema bytes.now root) parts.items)) }
{
    let Some(start) = follow(form, bytes, root, &[]) else {
        return Ok(None);
    };
    let mut parts = Vec::new(alloc);
    let mut holders = Vec::new(alloc);
    holders.push(start)?;
    let mut walk = Walker::new(alloc, form, bytes);
    for _ in 0..u64::MAX {
        let found = match next_found(&mut walk) {
            Ok(Some(found)) => found,
            Ok(None) => return Ok(Some(parts)),
            Err(Stop::OutOfMemory) => return Err(AllocError),
            Err(Stop::Fault(_)) => break,
        };
        let frames = walk.holders(found);
        holders.truncate(frames.len());
        let way = route_of(alloc, frames, STEPS)?;
        let Some(point) = reached_by(form, bytes, root, &holders, &way) else {
            break;
        };
        keep_holder(&mut holders, point, found.what)?;
        if !add_part(&mut parts, form, bytes, point, found, way)? {
            break;
        }
    }
    Ok(None)
}

// Bytes that are no part of the archive.
fn unused<'a>(alloc: Global, position: usize, size: usize) -> Piece<'a>
    ensures position { result.position ≡ position }
    ensures size { result.size ≡ size }
    ensures unused { result.content ≡ Unused }
{
    Piece {
        position,
        size,
        thing: None,
        content: Content::Unused,
        way: Route {
            left_out: 0,
            steps: Vec::new(alloc),
        },
    }
}

// What is unused between the parts, which are in order of position, in so many bytes.
fn gaps<'a>(alloc: Global, parts: &[Piece<'a>], len: usize) -> Result<Vec<Piece<'a>>, AllocError>
    ensures { IfOk result (λ gaps. All (λ x. x.content ≡ Unused) gaps.items) }
{
    let mut gaps = Vec::new(alloc);
    let mut end = 0usize;
    for part in parts {
        let size = part.position.saturating_sub(end);
        if size > 0 {
            gaps.push(unused(alloc, end, size))?;
        }
        end = part.position.saturating_add(part.size);
    }
    if len > end {
        gaps.push(unused(alloc, end, len - end))?;
    }
    Ok(gaps)
}

// Whether the pieces lie one behind another, from the first byte to the last of so many.
fn are_tiles(pieces: &[Piece<'_>], len: usize) -> bool
    ensures { IsTrue result → Tiles pieces.now len }
{
    let mut end = 0usize;
    for index in 0..pieces.len() {
        let piece = &pieces[index];
        if piece.position != end {
            return false;
        }
        if piece.size == 0 {
            return false;
        }
        match end.checked_add(piece.size) {
            Some(next) => end = next,
            None => return false,
        }
    }
    end == len
}

// Pieces in order of position.
fn in_order<'a>(pieces: Vec<Piece<'a>>) -> Vec<Piece<'a>>
    ensures { (x : Piece) → Contains result.items x → Contains pieces.entry.items x }
{
    let mut ordered = pieces;
    ordered.sort_unstable_by_key(|piece| piece.position);
    ordered
}

// Pieces, and others behind them.
fn joined<'a>(pieces: Vec<Piece<'a>>, others: Vec<Piece<'a>>) -> Result<Vec<Piece<'a>>, AllocError>
    ensures { IfOk result (λ all. all.items ≡ pieces.entry.items ++ others.entry.items) }
{
    let mut all = pieces;
    let mut more = others;
    all.append(&mut more)?;
    Ok(all)
}

// Parts and what is unused between them, in order of position.
fn with_gaps<'a>(
    alloc: Global,
    parts: Vec<Piece<'a>>,
    len: usize,
) -> Result<Vec<Piece<'a>>, AllocError>
    ensures { IfOk result (λ all. ArePartsOrUnused parts.entry.items all.items) }
{
    let ordered = in_order(parts);
    let between = gaps(alloc, &ordered, len)?;
    let all = joined(ordered, between)?;
    let pieces = in_order(all);
    Ok(pieces)
}

// Whether the bytes are an archive of the form whose root lies at their end.
fn is_archive(alloc: Global, form: &Form, bytes: &[u8]) -> Result<bool, AllocError>
    ensures { IfOk result (λ yes. IsTrue yes → IsWholeArchive form.now bytes.now) }
{
    let answer = form.schema().check_archive(alloc, bytes);
    match answer {
        Ok(()) => Ok(true),
        Err(Error::OutOfMemory) => Err(AllocError),
        Err(_) => Ok(false),
    }
}

/// What lies in the bytes of an archive of the form, whose root lies at their end: in order of
/// position, with what is unused between. `None` if the bytes aren't one. Takes memory for each
/// piece: `Walker::by_position` goes over the same pieces, and keeps none. Fails if memory from
/// `alloc` is refused.
pub fn describe<'a>(
    alloc: Global,
    form: &'a Form,
    bytes: &'a [u8],
) -> Result<Option<Vec<Piece<'a>>>, AllocError>
    ensures { IfOk result (λ answer. IfSome answer (λ pieces.
        DescribesWhole form.now bytes.now pieces.items)) }
{
    let accepted = is_archive(alloc, form, bytes)?;
    if !accepted {
        return Ok(None);
    }
    let root = form.schema().root_position(bytes.len());
    let found = parts_of(alloc, form, bytes, root)?;
    let Some(parts) = found else {
        return Ok(None);
    };
    let all = with_gaps(alloc, parts, bytes.len())?;
    if !are_tiles(&all, bytes.len()) {
        return Ok(None);
    }
    let told = tell_all_leaves(alloc, form, bytes, root, &all)?;
    if told {
        return Ok(Some(all));
    }
    Ok(None)
}
