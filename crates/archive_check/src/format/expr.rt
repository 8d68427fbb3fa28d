//! Expressions: what the bytes of an archived type are read as. In rkyv 0.8.18 each type validates
//! itself by a trait instead; the bytes are the same.

ghost use Rattle.std.specs.Prelude.{◌≡◌, ◌↔◌, IsTrue, IfOk, Ok};
ghost use Rattle.std.specs.Int.{byte_len};
ghost use Rattle.std.specs.Cmp.{on_equiv, partial_equiv_from_equiv};
ghost use Rattle.std.specs.Ordering.{on};
ghost use Rattle.archive_check.specs.Expressions.{integer_of, kind_of, shape_of, pointee_of, shapes_in, variants_in};
ghost use Rattle.archive_check.specs.Layout.{kind_size, kind_align};
ghost use Rattle.archive_check.specs.Shape.{choice, variant, no_variant};
ghost use Rattle.archive_check.specs.Equality.{is_same_shape, is_same_pointee, same_shape, same_pointee, same_parts, same_variants, same_shape-equiv, same_pointee-equiv};

pub use crate::format::defs::{Def, Defs};
use std::alloc::{AllocError, Global};

/// A number's sign and width.
#[derive(Debug, Clone, Copy, PartialEq, Eq)]
pub enum IntegerKind {
    /// Without a sign, in 1 byte.
    U8,
    /// With a sign, in 1 byte.
    I8,
    /// Without a sign, in 2 bytes.
    U16,
    /// With a sign, in 2 bytes.
    I16,
    /// Without a sign, in 4 bytes.
    U32,
    /// With a sign, in 4 bytes.
    I32,
    /// Without a sign, in 8 bytes.
    U64,
    /// With a sign, in 8 bytes.
    I64,
    /// Without a sign, in 16 bytes.
    U128,
    /// With a sign, in 16 bytes.
    I128,
}

impl IntegerKind {
    /// How many bytes it has, which is also its alignment.
    pub fn size(self) -> usize
        ensures { result ≡ byte_len (integer_of self).1 }
    {
        match self {
            IntegerKind::U8 | IntegerKind::I8 => 1,
            IntegerKind::U16 | IntegerKind::I16 => 2,
            IntegerKind::U32 | IntegerKind::I32 => 4,
            IntegerKind::U64 | IntegerKind::I64 => 8,
            IntegerKind::U128 | IntegerKind::I128 => 16,
        }
    }
}

/// A leaf: bytes that are a value as they lie. Numbers have their lowest byte first; those with a sign are in two's complement.
#[derive(Debug, Clone, Copy, PartialEq, Eq)]
pub enum Kind {
    /// No byte.
    Unit,
    /// A byte that is 0 or 1.
    Bool,
    /// A Unicode scalar value, in 4 bytes.
    Char,
    /// A number.
    Number(IntegerKind),
    /// A number that isn't 0.
    NonZero(IntegerKind),
    /// The offset of a raw pointer, which the check doesn't follow.
    RawRel(IntegerKind),
}

impl Kind {
    /// How many bytes it has, as in rkyv 0.8.18.
    pub fn size(self) -> usize
        ensures { result ≡ kind_size (kind_of self) }
    {
        match self {
            Kind::Unit => 0,
            Kind::Bool => 1,
            Kind::Char => 4,
            Kind::Number(integer) | Kind::NonZero(integer) | Kind::RawRel(integer) =>
                integer.size(),
        }
    }

    /// Its alignment in bytes: its size, or 1 if it has no bytes.
    pub fn align(self) -> usize
        ensures { result ≡ kind_align (kind_of self) }
    {
        self.size().max(1)
    }
}

/// What the keys of a sorted map are.
#[derive(Debug, Clone, Copy, PartialEq, Eq)]
pub enum Key {
    /// Leaves of a kind, which are ordered by their values: numbers as numbers, chars by their codes, `false` before `true`.
    Leaf(Kind),
    /// Strings, which are ordered by the bytes of their texts.
    Str,
}

/// A flavor of shared pointers: its name, and whether a value may lead to itself.
#[derive(Debug, Clone, Copy, PartialEq, Eq)]
pub struct FlavorInfo {
    /// The name.
    pub name: &'static str,
    /// Whether a shared value may hold a pointer to itself.
    pub cycles: bool,
}

/// What the bytes of an archived type are read as.
#[cycle(expr)]
#[derive(Debug, Drop)]
pub enum Expr {
    /// A leaf.
    Leaf(Kind),
    /// The parts one after another, each at the next multiple of its alignment.
    Record(Vec<Expr>),
    /// A tag byte, then the parts of the variant that it names; the first is the choice's name.
    Choice(&'static str, Vec<Vec<Expr>>),
    /// So many elements.
    Array(usize, Box<Expr>),
    /// A pointer to what is its own.
    Box(Box<Pointee>),
    /// A pointer to elements of its own, with their number.
    Vec(Box<Expr>),
    /// A pointer to entries of its own, with their number: records of a key and a value, whose keys ascend strictly.
    Map(Key, Box<Expr>),
    /// A string of eight bytes, which hold its text or lead to it.
    Str,
    /// A pointer to what others may point to as well.
    Shared(FlavorInfo, Box<Pointee>),
    /// Such a pointer, or a null, which has the offset 1.
    Weak(FlavorInfo, Box<Pointee>),
    /// What the definition of a name says.
    Named(&'static str),
}

/// What a pointer leads to.
#[cycle(expr)]
#[derive(Debug, Drop)]
pub enum Pointee {
    /// One value.
    One(Expr),
    /// Elements; the pointer's length is their number.
    Run(Expr),
    /// A text, of as many bytes as the pointer's length says.
    Text,
}

impl Expr {
    /// A choice of two variants with these parts. Fails if memory from `alloc` is refused.
    pub fn choice_of_two(
        alloc: Global,
        name: &'static str,
        first: Vec<Expr>,
        second: Vec<Expr>,
    ) -> Result<Expr, AllocError>
        ensures { IfOk result (λ e. shape_of e ≡ choice name.now
            (variant (shapes_in first.items)
            (variant (shapes_in second.items) no_variant))) }
    {
        let variants = vec![in alloc; first, second]?;
        Ok(Expr::Choice(name, variants))
    }
}

/// Two expressions are equal where they are written alike; names are compared as names.
impl PartialEq for Expr {
    ghost eq = { on shape_of is_same_shape };

    ghost laws = { partial_equiv_from_equiv (on_equiv shape_of same_shape-equiv) };

    #[tactic(auto, using(crate::specs::Equality::shapes_decided))]
    fn eq(&self, other: &Expr) -> bool
        ensures decides { result ≡ on shape_of is_same_shape self.now other.now }
        ensures exact { IsTrue result ↔ shape_of self.now ≡ shape_of other.now }
    {
        same_expressions(self, other)
    }
}

impl Eq for Expr {
    ghost laws = { on_equiv shape_of same_shape-equiv };
}

/// Two pointees are equal where they are written alike; names are compared as names.
impl PartialEq for Pointee {
    ghost eq = { on pointee_of is_same_pointee };

    ghost laws = { partial_equiv_from_equiv (on_equiv pointee_of same_pointee-equiv) };

    #[tactic(auto, using(crate::specs::Equality::shapes_decided))]
    fn eq(&self, other: &Pointee) -> bool
        ensures decides { result ≡ on pointee_of is_same_pointee self.now other.now }
        ensures exact { IsTrue result ↔ pointee_of self.now ≡ pointee_of other.now }
    {
        same_pointees(self, other)
    }
}

impl Eq for Pointee {
    ghost laws = { on_equiv pointee_of same_pointee-equiv };
}

/// A copy is written alike. Its memory comes from the allocators of what is copied; it fails if
/// they do, and a `?` makes `OutOfMemory` of that.
impl Clone for Expr {
    ghost is_clone = { λ a b. shape_of b ≡ shape_of a };

    fn clone(&self) -> Result<Expr, AllocError> {
        copy_expression(self)
    }
}

/// A copy is written alike. Its memory comes from the allocators of what is copied; it fails if
/// they refuse it.
impl Clone for Pointee {
    ghost is_clone = { λ a b. pointee_of b ≡ pointee_of a };

    fn clone(&self) -> Result<Pointee, AllocError> {
        copy_pointee(self)
    }
}

#[cycle(same)]
#[tactic(auto, using(crate::proofs::format::Views::views, crate::proofs::format::EqualExpressions::same))]
fn same_expressions(a: &Expr, b: &Expr) -> bool
    ensures { result ≡ same_shape (shape_of a.now) (shape_of b.now) }
{
    match (a, b) {
        (Expr::Leaf(x), Expr::Leaf(y)) => x == y,
        (Expr::Record(x), Expr::Record(y)) => same_lists(x, y),
        (Expr::Choice(m, x), Expr::Choice(n, y)) => m == n && same_variant_lists(x, y),
        (Expr::Array(m, x), Expr::Array(n, y)) => m == n && same_expressions(x, y),
        (Expr::Box(x), Expr::Box(y)) => same_pointees(x, y),
        (Expr::Vec(x), Expr::Vec(y)) => same_expressions(x, y),
        (Expr::Map(k, x), Expr::Map(l, y)) => k == l && same_expressions(x, y),
        (Expr::Str, Expr::Str) => true,
        (Expr::Shared(f, x), Expr::Shared(g, y)) => f == g && same_pointees(x, y),
        (Expr::Weak(f, x), Expr::Weak(g, y)) => f == g && same_pointees(x, y),
        (Expr::Named(m), Expr::Named(n)) => m == n,
        _ => false,
    }
}

#[cycle(same)]
#[tactic(auto, using(crate::proofs::format::Views::views, crate::proofs::format::EqualExpressions::same))]
fn same_pointees(a: &Pointee, b: &Pointee) -> bool
    ensures { result ≡ same_pointee (pointee_of a.now) (pointee_of b.now) }
{
    match (a, b) {
        (Pointee::One(x), Pointee::One(y)) => same_expressions(x, y),
        (Pointee::Run(x), Pointee::Run(y)) => same_expressions(x, y),
        (Pointee::Text, Pointee::Text) => true,
        _ => false,
    }
}

#[cycle(same)]
#[tactic(auto, using(crate::proofs::format::Views::views, crate::proofs::format::EqualExpressions::same))]
fn same_lists(a: &[Expr], b: &[Expr]) -> bool
    ensures { result ≡ same_parts (shapes_in a.now) (shapes_in b.now) }
{
    if a.len() != b.len() {
        return false;
    }
    for i in 0..a.len() {
        if !same_expressions(&a[i], &b[i]) {
            return false;
        }
    }
    true
}

#[cycle(same)]
#[tactic(auto, using(crate::proofs::format::Views::views, crate::proofs::format::EqualExpressions::same))]
fn same_variant_lists(a: &[Vec<Expr>], b: &[Vec<Expr>]) -> bool
    ensures { result ≡ same_variants (variants_in a.now) (variants_in b.now) }
{
    if a.len() != b.len() {
        return false;
    }
    for i in 0..a.len() {
        if !same_lists(&a[i], &b[i]) {
            return false;
        }
    }
    true
}

#[cycle(copy)]
#[tactic(auto, using(crate::proofs::format::Views::views, crate::proofs::format::Copies::copies))]
fn copy_expression(expr: &Expr) -> Result<Expr, AllocError>
    ensures { IfOk result (λ e. shape_of e ≡ shape_of expr.now) }
{
    match expr {
        Expr::Leaf(kind) => Ok(Expr::Leaf(*kind)),
        Expr::Record(parts) => Ok(Expr::Record(copy_parts(parts)?)),
        Expr::Choice(name, variants) => Ok(Expr::Choice(*name, copy_variants(variants)?)),
        Expr::Array(count, x) => Ok(Expr::Array(*count, copy_boxed(x)?)),
        Expr::Box(x) => Ok(Expr::Box(copy_target(x)?)),
        Expr::Vec(x) => Ok(Expr::Vec(copy_boxed(x)?)),
        Expr::Map(key, x) => Ok(Expr::Map(*key, copy_boxed(x)?)),
        Expr::Str => Ok(Expr::Str),
        Expr::Shared(f, x) => Ok(Expr::Shared(*f, copy_target(x)?)),
        Expr::Weak(f, x) => Ok(Expr::Weak(*f, copy_target(x)?)),
        Expr::Named(name) => Ok(Expr::Named(*name)),
    }
}

#[cycle(copy)]
#[tactic(auto, using(crate::proofs::format::Views::views, crate::proofs::format::Copies::copies))]
fn copy_pointee(pointee: &Pointee) -> Result<Pointee, AllocError>
    ensures { IfOk result (λ p. pointee_of p ≡ pointee_of pointee.now) }
{
    match pointee {
        Pointee::One(x) => Ok(Pointee::One(copy_expression(x)?)),
        Pointee::Run(x) => Ok(Pointee::Run(copy_expression(x)?)),
        Pointee::Text => Ok(Pointee::Text),
    }
}

#[cycle(copy)]
#[tactic(auto, using(crate::proofs::format::Views::views, crate::proofs::format::Copies::copies))]
fn copy_parts(parts: &Vec<Expr>) -> Result<Vec<Expr>, AllocError>
    ensures { IfOk result (λ v. shapes_in v.items ≡ shapes_in parts.now.items) }
{
    let mut copies = Vec::with_capacity(*parts.allocator(), parts.len())?;
    for i in 0..parts.len() {
        copies.push(copy_expression(&parts[i])?)?;
    }
    Ok(copies)
}

#[cycle(copy)]
#[tactic(auto, using(crate::proofs::format::Views::views, crate::proofs::format::Copies::copies))]
fn copy_variants(variants: &Vec<Vec<Expr>>) -> Result<Vec<Vec<Expr>>, AllocError>
    ensures { IfOk result (λ v. variants_in v.items ≡ variants_in variants.now.items) }
{
    let mut copies = Vec::with_capacity(*variants.allocator(), variants.len())?;
    for i in 0..variants.len() {
        copies.push(copy_parts(&variants[i])?)?;
    }
    Ok(copies)
}

#[cycle(copy)]
#[tactic(auto, using(crate::proofs::format::Views::views, crate::proofs::format::Copies::copies))]
fn copy_boxed(expr: &Box<Expr>) -> Result<Box<Expr>, AllocError>
    ensures { IfOk result (λ b. shape_of b.value ≡ shape_of expr.now.value) }
{
    Ok(Box::new(*Box::allocator(expr), copy_expression(expr)?)?)
}

#[cycle(copy)]
#[tactic(auto, using(crate::proofs::format::Views::views, crate::proofs::format::Copies::copies))]
fn copy_target(pointee: &Box<Pointee>) -> Result<Box<Pointee>, AllocError>
    ensures { IfOk result (λ b. pointee_of b.value ≡ pointee_of pointee.now.value) }
{
    Ok(Box::new(*Box::allocator(pointee), copy_pointee(pointee)?)?)
}
