//! What is made of a word and its arguments.

use crate::form::labels::{Labels, VariantLabels};
use crate::text::known::{SHARED, kept};
use crate::text::mistakes::{Mistake, Wrong};
use crate::text::parser::{Read, ReadParts, leaf};
use archive_check::format::expr::{Expr, Key, Kind, Pointee};
use std::alloc::Global;

// What a pointer leads to.
#[derive(Drop)]
pub(super) enum Target {
    One(Read),
    Run(Read),
    Text,
}

// What stands between `<` and `>`.
#[derive(Drop)]
pub(super) enum Argument {
    Target(Target),
    Count(usize),
}

impl Target {
    // The type, which has a size.
    pub(super) fn sized(self, at: usize) -> Result<Read, Wrong> {
        match self {
            Target::One(read) => Ok(read),
            Target::Run(_) | Target::Text => Err(Wrong {
                at,
                mistake: Mistake::Unsized,
            }),
        }
    }

    // As the library writes it, with the names of what is there.
    fn pointee(self, alloc: Global) -> Result<(Box<Pointee>, Labels), Wrong> {
        let (pointee, labels) = match self {
            Target::One(Read { expr, labels }) => (Pointee::One(expr), labels),
            Target::Run(Read { expr, labels }) => (Pointee::Run(expr), labels),
            Target::Text => (Pointee::Text, Labels::Unknown),
        };
        let pointee = Box::new(alloc, pointee)?;
        let labels = Labels::Inner(Box::new(alloc, labels)?);
        Ok((pointee, labels))
    }

    fn boxed(self, alloc: Global) -> Result<Read, Wrong> {
        let (pointee, labels) = self.pointee(alloc)?;
        Ok(Read {
            expr: Expr::Box(pointee),
            labels,
        })
    }

    fn shared(self, alloc: Global) -> Result<Read, Wrong> {
        let (pointee, labels) = self.pointee(alloc)?;
        Ok(Read {
            expr: Expr::Shared(SHARED, pointee),
            labels,
        })
    }

    fn weak(self, alloc: Global) -> Result<Read, Wrong> {
        let (pointee, labels) = self.pointee(alloc)?;
        Ok(Read {
            expr: Expr::Weak(SHARED, pointee),
            labels,
        })
    }
}

impl Read {
    // A vector of such elements.
    fn vector(self, alloc: Global) -> Result<Read, Wrong> {
        let Read { expr, labels } = self;
        Ok(Read {
            expr: Expr::Vec(Box::new(alloc, expr)?),
            labels: Labels::Inner(Box::new(alloc, labels)?),
        })
    }

    // So many of them.
    pub(super) fn array(self, alloc: Global, count: usize) -> Result<Read, Wrong> {
        let Read { expr, labels } = self;
        Ok(Read {
            expr: Expr::Array(count, Box::new(alloc, expr)?),
            labels: Labels::Inner(Box::new(alloc, labels)?),
        })
    }
}

// The one part of a variant.
fn one_part(alloc: Global, read: Read) -> Result<ReadParts, Wrong> {
    let mut parts = ReadParts::new(alloc);
    parts.push("", read)?;
    Ok(parts)
}

// A choice of two variants; it has a name in archives, and one for people.
fn two_variants(
    alloc: Global,
    name: (&'static str, &'static str),
    first: (&'static str, ReadParts),
    second: (&'static str, ReadParts),
) -> Result<Read, Wrong> {
    let (archived, shown) = name;
    let (first_name, first) = first;
    let (second_name, second) = second;
    let variants = vec![in alloc; first.exprs, second.exprs]?;
    let first = VariantLabels {
        name: first_name,
        parts: first.labels,
    };
    let second = VariantLabels {
        name: second_name,
        parts: second.labels,
    };
    let labels = vec![in alloc; first, second]?;
    Ok(Read {
        expr: Expr::Choice(archived, variants),
        labels: Labels::Choice(shown, labels),
    })
}

fn option(alloc: Global, value: Read) -> Result<Read, Wrong> {
    let some = one_part(alloc, value)?;
    let none = ReadParts::new(alloc);
    two_variants(
        alloc,
        ("ArchivedOption", "Option"),
        ("None", none),
        ("Some", some),
    )
}

fn result(alloc: Global, value: Read, error: Read) -> Result<Read, Wrong> {
    let good = one_part(alloc, value)?;
    let bad = one_part(alloc, error)?;
    two_variants(
        alloc,
        ("ArchivedResult", "Result"),
        ("Ok", good),
        ("Err", bad),
    )
}

// The only argument: what a pointer leads to.
fn only(mut arguments: Vec<Argument>, at: usize) -> Result<Target, Wrong> {
    let last = arguments.pop();
    match last {
        Some(Argument::Target(target)) if arguments.is_empty() => Ok(target),
        _ => Err(Wrong {
            at,
            mistake: Mistake::Expected("one type between `<` and `>`"),
        }),
    }
}

// Two arguments.
fn pair(mut arguments: Vec<Argument>, at: usize) -> Result<(Read, Argument), Wrong> {
    let last = arguments.pop();
    match (only(arguments, at), last) {
        (Ok(first), Some(last)) => Ok((first.sized(at)?, last)),
        _ => Err(Wrong {
            at,
            mistake: Mistake::Expected("two arguments between `<` and `>`"),
        }),
    }
}

// A number that isn't 0.
fn non_zero(at: usize, number: Read) -> Result<Read, Wrong> {
    match number.expr {
        Expr::Leaf(Kind::Number(integer)) => Ok(leaf(Kind::NonZero(integer))),
        _ => Err(Wrong {
            at,
            mistake: Mistake::Expected("a number's type between `<` and `>`"),
        }),
    }
}

// A sorted map, whose keys are leaves or strings.
fn map(alloc: Global, at: usize, key: Read, value: Read) -> Result<Read, Wrong> {
    let key = match key.expr {
        Expr::Leaf(kind) => Key::Leaf(kind),
        Expr::Str => Key::Str,
        _ => {
            return Err(Wrong {
                at,
                mistake: Mistake::Expected("keys that are leaves or a `String`"),
            });
        }
    };
    let Read { expr, labels } = value;
    Ok(Read {
        expr: Expr::Map(key, Box::new(alloc, expr)?),
        labels: Labels::Inner(Box::new(alloc, labels)?),
    })
}

// The type of a word with two arguments.
fn built_of_pair(
    alloc: Global,
    word: &str,
    at: usize,
    arguments: Vec<Argument>,
) -> Result<Read, Wrong> {
    let (first, second) = pair(arguments, at)?;
    match (word, second) {
        ("Result", Argument::Target(error)) => result(alloc, first, error.sized(at)?),
        ("BTreeMap", Argument::Target(value)) => map(alloc, at, first, value.sized(at)?),
        ("OwnedArray", Argument::Count(count)) => first.array(alloc, count),
        _ => Err(Wrong {
            at,
            mistake: Mistake::Expected("two types, or a type and a number, between `<` and `>`"),
        }),
    }
}

// The library's type of a word that stands at a position, with its arguments.
pub(super) fn built_of(
    alloc: Global,
    word: &str,
    at: usize,
    arguments: Vec<Argument>,
) -> Result<Read, Wrong> {
    match word {
        "String" if arguments.is_empty() => Ok(Read {
            expr: Expr::Str,
            labels: Labels::Unknown,
        }),
        "BoxStr" if arguments.is_empty() => Target::Text.boxed(alloc),
        "SharedStr" if arguments.is_empty() => Target::Text.shared(alloc),
        "NonZero" => non_zero(at, only(arguments, at)?.sized(at)?),
        "Option" => option(alloc, only(arguments, at)?.sized(at)?),
        "Vec" => only(arguments, at)?.sized(at)?.vector(alloc),
        "Box" => only(arguments, at)?.boxed(alloc),
        "BoxSlice" => Target::Run(only(arguments, at)?.sized(at)?).boxed(alloc),
        "Shared" => only(arguments, at)?.shared(alloc),
        "SharedSlice" => Target::Run(only(arguments, at)?.sized(at)?).shared(alloc),
        "Weak" | "WeakShared" => only(arguments, at)?.weak(alloc),
        "Result" | "OwnedArray" | "BTreeMap" => built_of_pair(alloc, word, at, arguments),
        "PhantomData" => {
            let _ = only(arguments, at)?;
            Ok(ReadParts::new(alloc).record(""))
        }
        "str" => Err(Wrong {
            at,
            mistake: Mistake::Unsized,
        }),
        _ => Err(Wrong {
            at,
            mistake: Mistake::UnknownType(kept(alloc, "", word)?),
        }),
    }
}
