//! The pointers on a way.

ghost use Rattle.std.specs.Prelude.{◌≡◌, ◌≢◌, ◌+◌, ◌≤◌, pos, ◌+ℤ◌, length, option_map, IsTrue, IfSome, IfNone};
ghost use Rattle.archive_check.specs.Expressions.{shape_of, pointee_of, flavor_of};
ghost use Rattle.archive_check.specs.Reads.{u32_at, i32_at, pointer_at};
ghost use Rattle.archive_check.specs.Shape.{Shape, str, one, run, text};
ghost use Rattle.archive_inspect.specs.Points.{pointed_of, pointer_told, IsHeldBy, IsRunAt};
ghost use Rattle.archive_inspect.specs.Ways.{PointsBy};

use archive_check::format::bytes::{
    is_out_of_line, read_coded_length, read_i32, read_position, read_u32,
};
use archive_check::format::expr::{Expr, FlavorInfo, Key, Pointee};

/// What a pointer leads to.
#[derive(Clone, Copy)]
pub enum Pointed<'a> {
    /// One value.
    One(&'a Expr),
    /// Elements.
    Run(&'a Expr),
    /// Entries of a sorted map, by their key and value.
    Entries(Key, &'a Expr),
    /// A text.
    Text,
}

/// A pointer.
#[derive(Clone, Copy)]
pub struct Pointing<'a> {
    /// Where it leads, be it in the buffer or not.
    pub target: i128,
    /// What lies there.
    pub pointed: Pointed<'a>,
    /// How many elements or bytes; of one value 0.
    pub length: usize,
    /// How what lies there is shared, if it is.
    pub flavor: Option<FlavorInfo>,
}

// Whether so many bytes from a position on lie in the buffer.
pub(crate) fn has_bytes(bytes: &[u8], at: usize, size: usize) -> bool
    ensures { IsTrue result → at + size ≤ length bytes.now }
{
    match at.checked_add(size) {
        Some(end) => end <= bytes.len(),
        None => false,
    }
}

// Where the offset at a position leads that counts from it.
fn target_at(bytes: &[u8], at: usize) -> Option<i128>
    ensures { IfSome result (λ t. t ≡ pos at +ℤ i32_at bytes.now at) }
{
    if !has_bytes(bytes, at, 4) {
        return None;
    }
    Some(read_position(bytes, at, at))
}

// The same, if that isn't before the buffer.
pub(super) fn place_at(bytes: &[u8], at: usize) -> Option<usize>
    ensures { IfSome result (λ t. pos at +ℤ i32_at bytes.now at ≡ pos t) }
{
    let target = target_at(bytes, at)?;
    usize::try_from(target).ok()
}

// The length behind the offset at a position.
pub(crate) fn length_at(bytes: &[u8], at: usize) -> Option<usize>
    ensures { IfSome result (λ n. n ≡ u32_at bytes.now (at + 4)) }
{
    if !has_bytes(bytes, at, 8) {
        return None;
    }
    Some(read_u32(bytes, at + 4) as usize)
}

// The pointer at a position to a pointee.
fn pointer_to<'a>(
    bytes: &[u8],
    at: usize,
    pointee: &'a Pointee,
    flavor: Option<FlavorInfo>,
) -> Option<Pointing<'a>>
    ensures { IfSome result (λ p. pointer_told p ≡ pointer_at bytes.now at
        (option_map flavor_of flavor) (pointee_of pointee.now)) }
{
    let target = target_at(bytes, at)?;
    let (pointed, length) = match pointee {
        Pointee::One(expr) => (Pointed::One(expr), 0),
        Pointee::Run(expr) => (Pointed::Run(expr), length_at(bytes, at)?),
        Pointee::Text => (Pointed::Text, length_at(bytes, at)?),
    };
    Some(Pointing {
        target,
        pointed,
        length,
        flavor,
    })
}

// The pointer at a position that leads to elements or entries, with no flavor.
fn pointer_to_run<'a>(bytes: &[u8], at: usize, pointed: Pointed<'a>) -> Option<Pointing<'a>>
    ensures { IfSome result (IsRunAt bytes.now at pointed.entry) }
{
    let target = target_at(bytes, at)?;
    let length = length_at(bytes, at)?;
    Some(Pointing {
        target,
        pointed,
        length,
        flavor: None,
    })
}

// The pointer of the string at a position, if its text is elsewhere.
pub(super) fn string_pointing<'a>(bytes: &[u8], at: usize) -> Option<Pointing<'a>>
    ensures { IfSome result (λ p. PointsBy bytes.now at str (pointer_told p)) }
{
    if !has_bytes(bytes, at, 8) || !is_out_of_line(bytes, at) {
        return None;
    }
    let length = read_coded_length(bytes, at);
    if length <= 8 {
        return None;
    }
    let target = read_position(bytes, at, at + 4);
    Some(Pointing {
        target,
        pointed: Pointed::Text,
        length,
        flavor: None,
    })
}

// Whether the weak pointer at a position lies in the buffer, and isn't null.
fn leads_on(bytes: &[u8], at: usize) -> bool
    ensures { IsTrue result → i32_at bytes.now at ≢ pos 1 }
{
    if !has_bytes(bytes, at, 4) {
        return false;
    }
    read_i32(bytes, at) != 1
}

/// The pointer that a value at a position is, if it is one.
pub fn pointer_from<'a>(bytes: &[u8], at: usize, expr: &'a Expr) -> Option<Pointing<'a>>
    ensures { IfSome result (λ p. PointsBy bytes.now at (shape_of expr.now) (pointer_told p)) }
{
    match expr {
        Expr::Box(pointee) => pointer_to(bytes, at, pointee, None),
        Expr::Shared(flavor, pointee) => pointer_to(bytes, at, pointee, Some(*flavor)),
        Expr::Weak(flavor, pointee) => {
            if leads_on(bytes, at) {
                return pointer_to(bytes, at, pointee, Some(*flavor));
            }
            None
        }
        Expr::Vec(element) => pointer_to_run(bytes, at, Pointed::Run(element)),
        Expr::Map(key, value) => pointer_to_run(bytes, at, Pointed::Entries(*key, value)),
        Expr::Str => string_pointing(bytes, at),
        Expr::Leaf(_) | Expr::Record(_) | Expr::Choice(_, _) | Expr::Array(_, _) | Expr::Named(_) =>
            None,
    }
}

/// Where a pointer leads, if that isn't before the buffer.
pub fn place_of(pointing: Pointing<'_>) -> Option<usize>
    ensures { IfSome result (λ t. pointing.entry.target ≡ pos t) }
{
    usize::try_from(pointing.target).ok()
}

/// The one value that a pointer leads to.
pub fn one_of<'a>(pointing: Pointing<'a>) -> Option<&'a Expr>
    ensures found { IfSome result (λ x. pointed_of pointing.entry.pointed ≡ one (shape_of x.now)) }
    ensures none { IfNone result ((X : Shape) → pointed_of pointing.entry.pointed ≢ one X) }
{
    match pointing.pointed {
        Pointed::One(expr) => Some(expr),
        _ => None,
    }
}

/// The elements that it leads to.
pub fn run_of<'a>(pointing: Pointing<'a>) -> Option<&'a Expr>
    ensures { IfSome result (λ x. pointed_of pointing.entry.pointed ≡ run (shape_of x.now)) }
{
    match pointing.pointed {
        Pointed::Run(expr) => Some(expr),
        _ => None,
    }
}

/// What each of many elements is or has as its value.
pub fn held_of<'a>(pointing: Pointing<'a>) -> Option<&'a Expr>
    ensures { IfSome result (λ x. IsHeldBy (pointed_of pointing.entry.pointed)
        (shape_of x.now)) }
{
    match pointing.pointed {
        Pointed::Run(expr) => Some(expr),
        Pointed::Entries(_, value) => Some(value),
        Pointed::One(_) | Pointed::Text => None,
    }
}

/// Whether it leads to a text.
pub fn leads_to_text(pointing: Pointing<'_>) -> bool
    ensures { IsTrue result → pointed_of pointing.entry.pointed ≡ text }
{
    matches!(pointing.pointed, Pointed::Text)
}
