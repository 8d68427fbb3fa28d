//! The names in an expression, and the order of their definitions.

ghost use Rattle.std.specs.Prelude.{◌≡◌, ◌≤◌, Some, None, OnOk, IfOk, IfErr, true, get_or, option_map, is_some, length};
ghost use Rattle.archive_check.specs.Shape.{definition, Name, Shape};
ghost use Rattle.archive_check.specs.Expressions.{shape_of, pointee_of, shapes_in, variants_in, entries_of};
ghost use Rattle.archive_check.specs.MissingNames.{missing as missing_in, pointee_missing, parts_missing, variants_missing, Collected, Arranged};
ghost use Rattle.archive_schema.specs.plan.Names.{Taken, IsGathered, NextReady, IsOrderedNext, Complete, Prepared, IsMissingAt, shapes_from, ExplainsUndefined, ExplainsMissing, ExplainsNoneReady, ExplainsHeld};
ghost use Rattle.archive_check.specs.Archives.{ExplainsNoSchema};

use archive_check::format::error::Error;
use archive_check::format::expr::{Def, Defs, Expr, Pointee};
use archive_check::format::traits::Portable;
use std::alloc::Global;

// Whether a name has a definition.
#[tactic(auto, using(crate::proofs::plan::Named::named))]
fn is_defined(defs: &[Def], name: &str) -> bool
    ensures { result ≡ is_some (definition (entries_of defs.now) name.now) }
{
    for i in 0..defs.len() {
        if defs[i].name == name {
            return true;
        }
    }
    false
}

// Takes the definition of a name out of a list.
#[tactic(auto, using(crate::proofs::plan::Named::named))]
fn take(defs: &mut Vec<Def>, name: &str) -> Option<Def>
    ensures { Taken defs.old.items name.now result defs.new.items }
{
    for i in 0..defs.len() {
        if defs[i].name == name {
            return Some(defs.remove(i));
        }
    }
    None
}

// The first name in an expression that has no definition; behind pointers too, where `far` says so.
#[cycle(missing)]
#[tactic(auto, using(archive_check::proofs::format::Views::views))]
pub(crate) fn missing(expr: &Expr, defs: &[Def], far: bool) -> Option<&'static str>
    ensures { option_map (λ name. name.now) result ≡ missing_in far (entries_of defs.now)
        (shape_of expr.now) }
{
    match expr {
        Expr::Record(parts) => missing_part(parts, defs, far),
        Expr::Choice(_, variants) => missing_variant(variants, defs, far),
        Expr::Array(_, element) => missing(element, defs, far),
        Expr::Box(pointee) | Expr::Shared(_, pointee) | Expr::Weak(_, pointee) => {
            if far {
                missing_pointee(pointee, defs, far)
            } else {
                None
            }
        }
        Expr::Vec(element) | Expr::Map(_, element) => if far {
            missing(element, defs, far)
        } else {
            None
        },
        Expr::Named(name) => if is_defined(defs, name) {
            None
        } else {
            Some(name)
        },
        Expr::Leaf(_) | Expr::Str => None,
    }
}

#[cycle(missing)]
#[tactic(auto, using(archive_check::proofs::format::Views::views))]
fn missing_pointee(pointee: &Pointee, defs: &[Def], far: bool) -> Option<&'static str>
    ensures { option_map (λ name. name.now) result ≡ pointee_missing far (entries_of defs.now)
        (pointee_of pointee.now) }
{
    match pointee {
        Pointee::One(expr) | Pointee::Run(expr) => missing(expr, defs, far),
        Pointee::Text => None,
    }
}

#[cycle(missing)]
#[tactic(auto, using(archive_check::proofs::format::Views::views))]
fn missing_part(parts: &[Expr], defs: &[Def], far: bool) -> Option<&'static str>
    ensures { option_map (λ name. name.now) result ≡ parts_missing far (entries_of defs.now)
        (shapes_in parts.now) }
{
    for i in 0..parts.len() {
        if let Some(name) = missing(&parts[i], defs, far) {
            return Some(name);
        }
    }
    None
}

#[cycle(missing)]
#[tactic(auto, using(archive_check::proofs::format::Views::views))]
fn missing_variant(variants: &[Vec<Expr>], defs: &[Def], far: bool) -> Option<&'static str>
    ensures { option_map (λ name. name.now) result ≡ variants_missing far (entries_of defs.now)
        (variants_in variants.now) }
{
    for i in 0..variants.len() {
        if let Some(name) = missing_part(&variants[i], defs, far) {
            return Some(name);
        }
    }
    None
}

// The first name without a definition in the root, at 0, or in the definition before `at`.
fn missing_at(root: &Expr, defs: &[Def], at: usize) -> Option<&'static str>
    requires { at ≤ length defs.now }
    ensures { IsMissingAt (shape_of root.now) defs.now at (option_map (λ name. name.now) result) }
{
    if at == 0 {
        return missing(root, defs, true);
    }
    missing(&defs[at - 1].expr, defs, true)
}

// Takes the definition of a name out of a list, and adds it to another. Never inlined: `collect` has no room for a definition in its frame, to
// be cleared at each call, where most shapes have no name.
#[inline(never)]
fn gather(name: &str, rest: &mut Vec<Def>, found: &mut Vec<Def>) -> Result<(), Error>
    ensures ok { OnOk result (IsGathered name.now rest.old.items found.old.items rest.new.items
        found.new.items) }
    ensures err { IfErr result (ExplainsUndefined (entries_of rest.old.items) name.now) }
{
    let Some(def) = take(rest, name) else {
        return Err(Error::ShapeConflict);
    };
    found.push(def)?;
    Ok(())
}

/// The definitions that the root reaches, each once, taken out of those given. Fails with
/// `ShapeConflict` if one of them is missing, and with `OutOfMemory` if memory is refused.
pub fn collect(alloc: Global, root: &Expr, rest: &mut Vec<Def>) -> Result<Vec<Def>, Error>
    ensures ok { IfOk result (λ found. Collected (entries_of rest.old.items) (shape_of root.now)
        (entries_of found.items)) }
    ensures err { IfErr result (ExplainsMissing (entries_of rest.old.items) (shape_of root.now)) }
{
    let mut found = Vec::new(alloc);
    let mut at = 0;
    while at <= found.len() {
        match missing_at(root, &found, at) {
            None => at += 1,
            Some(name) => gather(name, rest, &mut found)?,
        }
    }
    Ok(found)
}

// The first definition that holds only defined names.
fn next_ready(placed: &[Def], rest: &[Def]) -> Option<usize>
    ensures { NextReady (entries_of placed.now) rest.now result }
{
    for i in 0..rest.len() {
        if missing(&rest[i].expr, placed, false).is_none() {
            return Some(i);
        }
    }
    None
}

// Takes the first definition that holds only placed names out of a list, and places it. Never inlined, as `gather`.
#[inline(never)]
fn order_next(placed: &mut Vec<Def>, rest: &mut Vec<Def>) -> Result<(), Error>
    ensures ok { OnOk result (IsOrderedNext placed.old.items rest.old.items placed.new.items
        rest.new.items) }
    ensures err { IfErr result (ExplainsNoneReady (entries_of placed.old.items) rest.old.items) }
{
    let Some(i) = next_ready(placed, rest) else {
        return Err(Error::RecursiveLayout);
    };
    placed.push(rest.remove(i))?;
    Ok(())
}

/// The definitions in an order in which each holds, other than behind a pointer, only names before
/// it. Fails with `RecursiveLayout` if a name contains itself, and with `OutOfMemory` if memory is
/// refused.
pub fn in_order(alloc: Global, rest: &mut Vec<Def>) -> Result<Vec<Def>, Error>
    requires { Complete (entries_of rest.old.items) }
    ensures ok { IfOk result (λ placed. Arranged (entries_of rest.old.items)
        (entries_of placed.items)) }
    ensures err { IfErr result (ExplainsHeld (entries_of rest.old.items)) }
{
    let mut placed = Vec::new(alloc);
    while !rest.is_empty() {
        order_next(&mut placed, rest)?;
    }
    Ok(placed)
}

/// The definitions that `T` brings and its shape reaches, in order. Fails with `ShapeConflict` if a
/// name that is reached has none or two, else with `RecursiveLayout` if one contains itself other
/// than behind a pointer, and with `OutOfMemory` if memory is refused.
pub fn definitions_of<T: Portable>(alloc: Global, root: &Expr) -> Result<Vec<Def>, Error>
    requires { shape_of root.now ≡ T.shape }
    ensures made { IfOk result (λ ds. Prepared T.definitions T.shape (entries_of ds.items)) }
    ensures refused { IfErr result (λ e. ExplainsNoSchema T.shape T.definitions e) }
{
    let mut defs = Defs::new(alloc);
    if let Err(error) = T::define(alloc, &mut defs) {
        return Err(error);
    }
    let mut given = defs.into_items();
    let mut found = match collect(alloc, root, &mut given) {
        Ok(found) => found,
        Err(error) => return Err(error),
    };
    match in_order(alloc, &mut found) {
        Ok(placed) => Ok(placed),
        Err(error) => Err(error),
    }
}
