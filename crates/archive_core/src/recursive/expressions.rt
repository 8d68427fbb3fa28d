// The expressions of what the names of recursive types stand for, made of one another. A call takes what others made, or that memory was refused, and hands this
// on: a module that tests for it drops expressions, which takes its check longer than all else that it says of them. So each fails where memory is refused, to it
// or to a call whose result it takes, and nowhere else.

ghost use Rattle.std.specs.Prelude.{◌≡◌, IfErr, IfOk, OnOk};
ghost use Rattle.archive_check.specs.Words.AddedDefinitions.{AreAdded};
ghost use Rattle.archive_check.specs.Definitions.{ExplainsConflict, defines};
ghost use Rattle.archive_check.specs.Expressions.{table_of};
ghost use Rattle.archive_check.specs.Shape.{Parts, Shape, Variants, array, boxed, choice, named, no_part, no_variant, one, part, parts, run, shared, sorted_map, variant, vec, weak};
ghost use Rattle.archive_core.specs.recursive.Expressed.{Expresses, ExpressesParts, ExpressesVariants};
ghost use Rattle.archive_enum.specs.Choices.{option_shape};
ghost use Rattle.archive_types.specs.Members.SharedSources.{rc_flavor};

use super::naming::{choice_of, define_name, record_of};
use archive_check::format::error::Error;
use archive_check::format::expr::{Defs, Expr, FlavorInfo, Pointee};
use archive_types::traits::{MapKey, Portable};
use std::alloc::{AllocError, Global};

/// The expression of a type. Fails where memory is refused.
pub fn expression_of<X: Portable>(alloc: Global) -> Result<Expr, AllocError>
    ensures { Expresses X.shape result }
{
    X::expr(alloc).map_err(|_| AllocError)
}

/// The expression of a name. It never fails.
pub fn named_expression(name: &'static str) -> Result<Expr, AllocError>
    ensures { Expresses (named name.now) result }
{
    Ok(Expr::Named(name))
}

/// The expression of a box of a value. Fails where memory is or was refused.
pub fn boxed_expression(alloc: Global, item: Result<Expr, AllocError>) -> Result<Expr, AllocError>
    ensures { (s : Shape) → Expresses s item → Expresses (boxed (one s)) result }
{
    let pointee = Box::new(alloc, Pointee::One(item?))?;
    Ok(Expr::Box(pointee))
}

/// The expression of a boxed slice. Fails where memory is or was refused.
pub fn run_expression(alloc: Global, item: Result<Expr, AllocError>) -> Result<Expr, AllocError>
    ensures { (s : Shape) → Expresses s item → Expresses (boxed (run s)) result }
{
    let pointee = Box::new(alloc, Pointee::Run(item?))?;
    Ok(Expr::Box(pointee))
}

/// The expression of a vector. Fails where memory is or was refused.
pub fn vec_expression(alloc: Global, item: Result<Expr, AllocError>) -> Result<Expr, AllocError>
    ensures { (s : Shape) → Expresses s item → Expresses (vec s) result }
{
    let item = Box::new(alloc, item?)?;
    Ok(Expr::Vec(item))
}

/// The expression of an option. Fails where memory is or was refused.
pub fn option_expression(alloc: Global, item: Result<Expr, AllocError>) -> Result<Expr, AllocError>
    ensures { (s : Shape) → Expresses s item → Expresses (option_shape s) result }
{
    let some = vec![in alloc; item?]?;
    let none = Vec::new(alloc);
    let variants = vec![in alloc; none, some]?;
    Ok(choice_of("ArchivedOption", variants))
}

/// The expression of a shared pointer. Fails where memory is or was refused.
pub fn shared_expression(alloc: Global, item: Result<Expr, AllocError>) -> Result<Expr, AllocError>
    ensures { (s : Shape) → Expresses s item → Expresses (shared rc_flavor (one s)) result }
{
    let pointee = Box::new(alloc, Pointee::One(item?))?;
    let flavor = FlavorInfo {
        name: "RcFlavor",
        cycles: false,
    };
    Ok(Expr::Shared(flavor, pointee))
}

/// The expression of a shared slice. Fails where memory is or was refused.
pub fn shared_run_expression(
    alloc: Global,
    item: Result<Expr, AllocError>,
) -> Result<Expr, AllocError>
    ensures { (s : Shape) → Expresses s item → Expresses (shared rc_flavor (run s)) result }
{
    let pointee = Box::new(alloc, Pointee::Run(item?))?;
    let flavor = FlavorInfo {
        name: "RcFlavor",
        cycles: false,
    };
    Ok(Expr::Shared(flavor, pointee))
}

/// The expression of a weak pointer. Fails where memory is or was refused.
pub fn weak_expression(alloc: Global, item: Result<Expr, AllocError>) -> Result<Expr, AllocError>
    ensures { (s : Shape) → Expresses s item → Expresses (weak rc_flavor (one s)) result }
{
    let pointee = Box::new(alloc, Pointee::One(item?))?;
    let flavor = FlavorInfo {
        name: "RcFlavor",
        cycles: false,
    };
    Ok(Expr::Weak(flavor, pointee))
}

/// The expression of an array of `length` values. Fails where memory is or was refused.
pub fn array_expression(
    length: usize,
    alloc: Global,
    item: Result<Expr, AllocError>,
) -> Result<Expr, AllocError>
    ensures { (s : Shape) → Expresses s item → Expresses (array length s) result }
{
    let item = Box::new(alloc, item?)?;
    Ok(Expr::Array(length, item))
}

/// The expression of a sorted map. Fails where memory is or was refused.
pub fn map_expression<K: MapKey>(
    alloc: Global,
    item: Result<Expr, AllocError>,
) -> Result<Expr, AllocError>
    ensures { (s : Shape) → Expresses s item → Expresses (sorted_map K.key s) result }
{
    let item = Box::new(alloc, item?)?;
    Ok(Expr::Map(K::key(), item))
}

/// The expression of a record of parts. Fails where the list did.
pub fn record_expression(list: Result<Vec<Expr>, AllocError>) -> Result<Expr, AllocError>
    ensures { (ps : Parts) → ExpressesParts ps list → Expresses (parts ps) result }
{
    Ok(record_of(list?))
}

/// The expressions of no parts. It never fails.
pub fn no_expressions(alloc: Global) -> Result<Vec<Expr>, AllocError>
    ensures { ExpressesParts no_part result }
{
    Ok(Vec::new(alloc))
}

/// The expressions of a part and of those behind it. Fails where memory is or was refused.
pub fn first_expression(
    first: Result<Expr, AllocError>,
    rest: Result<Vec<Expr>, AllocError>,
) -> Result<Vec<Expr>, AllocError>
    ensures { (s : Shape) (ps : Parts) → Expresses s first → ExpressesParts ps rest
        → ExpressesParts (part s ps) result }
{
    let mut list = rest?;
    list.insert(0, first?)?;
    Ok(list)
}

/// The expressions of no variants. It never fails.
pub fn no_variants(alloc: Global) -> Result<Vec<Vec<Expr>>, AllocError>
    ensures { ExpressesVariants no_variant result }
{
    Ok(Vec::new(alloc))
}

/// The expressions of a variant's parts and of the variants behind it. Fails where memory is or was refused.
pub fn first_variant(
    first: Result<Vec<Expr>, AllocError>,
    rest: Result<Vec<Vec<Expr>>, AllocError>,
) -> Result<Vec<Vec<Expr>>, AllocError>
    ensures { (ps : Parts) (vs : Variants) → ExpressesParts ps first → ExpressesVariants vs rest
        → ExpressesVariants (variant ps vs) result }
{
    let mut list = rest?;
    list.insert(0, first?)?;
    Ok(list)
}

/// Adds the definition of a name that stands for a record of parts. Fails as `define_name` does, and with `OutOfMemory` where the list did.
pub fn define_record(
    name: &'static str,
    list: Result<Vec<Expr>, AllocError>,
    defs: &mut Defs,
) -> Result<(), Error>
    ensures added { (ps : Parts) → ExpressesParts ps list
        → OnOk result (AreAdded defs (defines name.now (parts ps))) }
    ensures refused { (ps : Parts) → ExpressesParts ps list
        → IfErr result (ExplainsConflict (table_of defs.old) (defines name.now (parts ps))) }
{
    let Ok(list) = list else {
        return Err(Error::OutOfMemory);
    };
    define_name(name, record_of(list), defs)
}

/// Adds the definition of a name that stands for a choice of variants. Fails as `define_name` does, and with `OutOfMemory` where the list did.
pub fn define_choice(
    name: &'static str,
    variants: Result<Vec<Vec<Expr>>, AllocError>,
    defs: &mut Defs,
) -> Result<(), Error>
    ensures added { (vs : Variants) → ExpressesVariants vs variants
        → OnOk result (AreAdded defs (defines name.now (choice name.now vs))) }
    ensures refused { (vs : Variants) → ExpressesVariants vs variants
        → IfErr result (ExplainsConflict (table_of defs.old)
        (defines name.now (choice name.now vs))) }
{
    let Ok(variants) = variants else {
        return Err(Error::OutOfMemory);
    };
    define_name(name, choice_of(name, variants), defs)
}
