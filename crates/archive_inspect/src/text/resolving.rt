//! Defined types in place of their names: those that contain themselves keep a name, and all others
//! are written out, as `tools/derive` has them.

use crate::form::Form;
use crate::form::labels::TypeLabels;
use crate::text::declarations::Declared;
use crate::text::mistakes::{Mistake, Wrong};
use crate::text::parser::{LEVELS, Read};
use archive_check::format::error::Error;
use archive_check::format::expr::{Def, Expr, Pointee};
use std::alloc::Global;

// How many parts a root has at most, written out.
const PARTS: usize = 100_000;

// The number of a defined type.
fn number_of(declared: &[Declared], name: &str) -> Option<usize> {
    for (number, it) in declared.iter().enumerate() {
        if it.archived == name {
            return Some(number);
        }
    }
    None
}

// Adds the numbers of the defined types that an expression names to a list; of those behind
// pointers too, where `far` says so.
#[cycle(mentions)]
#[tactic(auto, using(archive_check::proofs::format::Views::views))]
fn mention(
    expr: &Expr,
    declared: &[Declared],
    far: bool,
    found: &mut Vec<usize>,
) -> Result<(), Wrong> {
    match expr {
        Expr::Named(name) => {
            if let Some(number) = number_of(declared, name) {
                found.push(number)?;
            }
            Ok(())
        }
        Expr::Record(parts) => mention_parts(parts, declared, far, found),
        Expr::Choice(_, variants) => mention_variants(variants, declared, far, found),
        Expr::Array(_, element) => mention(element, declared, far, found),
        Expr::Vec(element) | Expr::Map(_, element) if far => mention(element, declared, far, found),
        Expr::Box(pointee) | Expr::Shared(_, pointee) | Expr::Weak(_, pointee) if far => {
            mention_pointee(pointee, declared, far, found)
        }
        _ => Ok(()),
    }
}

#[cycle(mentions)]
#[tactic(auto, using(archive_check::proofs::format::Views::views))]
fn mention_parts(
    parts: &[Expr],
    declared: &[Declared],
    far: bool,
    found: &mut Vec<usize>,
) -> Result<(), Wrong> {
    for i in 0..parts.len() {
        mention(&parts[i], declared, far, found)?;
    }
    Ok(())
}

#[cycle(mentions)]
#[tactic(auto, using(archive_check::proofs::format::Views::views))]
fn mention_variants(
    variants: &[Vec<Expr>],
    declared: &[Declared],
    far: bool,
    found: &mut Vec<usize>,
) -> Result<(), Wrong> {
    for i in 0..variants.len() {
        mention_parts(&variants[i], declared, far, found)?;
    }
    Ok(())
}

#[cycle(mentions)]
#[tactic(auto, using(archive_check::proofs::format::Views::views))]
fn mention_pointee(
    pointee: &Pointee,
    declared: &[Declared],
    far: bool,
    found: &mut Vec<usize>,
) -> Result<(), Wrong> {
    match pointee {
        Pointee::One(expr) | Pointee::Run(expr) => mention(expr, declared, far, found),
        Pointee::Text => Ok(()),
    }
}

// The numbers of the defined types that each of them names; behind pointers too, where `far` says
// so.
fn mentions_of(alloc: Global, declared: &[Declared], far: bool) -> Result<Vec<Vec<usize>>, Wrong> {
    let mut mentions = Vec::new(alloc);
    for it in declared {
        let mut found = Vec::new(alloc);
        mention(&it.read.expr, declared, far, &mut found)?;
        mentions.push(found)?;
    }
    Ok(mentions)
}

// Whether a number is met for the first time; from now on it isn't.
fn meets_first(seen: &mut [bool], number: usize) -> bool {
    match seen.get_mut(number) {
        Some(known) => {
            let first = !*known;
            *known = true;
            first
        }
        None => false,
    }
}

// Adds those numbers to a list that are met for the first time.
fn add_first(
    found: &mut Vec<usize>,
    seen: &mut [bool],
    numbers: Option<&Vec<usize>>,
) -> Result<(), Wrong> {
    let Some(numbers) = numbers else {
        return Ok(());
    };
    for number in numbers {
        if meets_first(seen, *number) {
            found.push(*number)?;
        }
    }
    Ok(())
}

// Whether a defined type contains itself, by what each of them names.
fn contains_itself(alloc: Global, mentions: &[Vec<usize>], number: usize) -> Result<bool, Wrong> {
    let mut found = Vec::new(alloc);
    let mut seen = vec![in alloc; false; mentions.len()]?;
    add_first(&mut found, &mut seen, mentions.get(number))?;
    for _ in 0..u64::MAX {
        let Some(met) = found.pop() else {
            break;
        };
        if met == number {
            return Ok(true);
        }
        add_first(&mut found, &mut seen, mentions.get(met))?;
    }
    Ok(false)
}

// What types are written out with, and how much more may be written.
#[derive(Drop)]
struct Writer<'a> {
    alloc: Global,
    declared: &'a [Declared],
    recursive: &'a [bool],
    room: usize,
    at: usize,
}

impl Writer<'_> {
    fn wrong(&self, mistake: Mistake) -> Wrong {
        Wrong {
            at: self.at,
            mistake,
        }
    }

    // One more part is written.
    fn count(&mut self) -> Result<(), Wrong> {
        match self.room.checked_sub(1) {
            Some(room) => {
                self.room = room;
                Ok(())
            }
            None => Err(self.wrong(Mistake::TooLarge)),
        }
    }

    // An expression, with defined types in place of their names.
    #[cycle(writing)]
    fn write(&mut self, expr: &Expr, levels: usize) -> Result<Expr, Wrong> {
        let Some(levels) = levels.checked_sub(1) else {
            return Err(self.wrong(Mistake::TooDeep));
        };
        self.count()?;
        match expr {
            Expr::Leaf(kind) => Ok(Expr::Leaf(*kind)),
            Expr::Str => Ok(Expr::Str),
            Expr::Record(parts) => Ok(Expr::Record(self.write_parts(parts, levels)?)),
            Expr::Choice(name, variants) => {
                Ok(Expr::Choice(*name, self.write_variants(variants, levels)?))
            }
            Expr::Array(count, element) => {
                Ok(Expr::Array(*count, self.write_boxed(element, levels)?))
            }
            Expr::Vec(element) => Ok(Expr::Vec(self.write_boxed(element, levels)?)),
            Expr::Map(key, value) => Ok(Expr::Map(*key, self.write_boxed(value, levels)?)),
            Expr::Box(pointee) => Ok(Expr::Box(self.write_pointee(pointee, levels)?)),
            Expr::Shared(flavor, pointee) => {
                Ok(Expr::Shared(*flavor, self.write_pointee(pointee, levels)?))
            }
            Expr::Weak(flavor, pointee) => {
                Ok(Expr::Weak(*flavor, self.write_pointee(pointee, levels)?))
            }
            Expr::Named(name) => self.write_named(*name, levels),
        }
    }

    #[cycle(writing)]
    fn write_boxed(&mut self, expr: &Expr, levels: usize) -> Result<Box<Expr>, Wrong> {
        let written = self.write(expr, levels)?;
        Ok(Box::new(self.alloc, written)?)
    }

    #[cycle(writing)]
    fn write_pointee(&mut self, pointee: &Pointee, levels: usize) -> Result<Box<Pointee>, Wrong> {
        let written = match pointee {
            Pointee::One(expr) => Pointee::One(self.write(expr, levels)?),
            Pointee::Run(expr) => Pointee::Run(self.write(expr, levels)?),
            Pointee::Text => Pointee::Text,
        };
        Ok(Box::new(self.alloc, written)?)
    }

    #[cycle(writing)]
    fn write_parts(&mut self, parts: &[Expr], levels: usize) -> Result<Vec<Expr>, Wrong> {
        let mut written = Vec::new(self.alloc);
        for part in parts {
            let part = self.write(part, levels)?;
            written.push(part)?;
        }
        Ok(written)
    }

    #[cycle(writing)]
    fn write_variants(
        &mut self,
        variants: &[Vec<Expr>],
        levels: usize,
    ) -> Result<Vec<Vec<Expr>>, Wrong> {
        let mut written = Vec::new(self.alloc);
        for parts in variants {
            let parts = self.write_parts(parts, levels)?;
            written.push(parts)?;
        }
        Ok(written)
    }

    // A recursive type by its name, another one written out.
    #[cycle(writing)]
    fn write_named(&mut self, name: &'static str, levels: usize) -> Result<Expr, Wrong> {
        let declared = self.declared;
        let Some(number) = number_of(declared, name) else {
            return Ok(Expr::Named(name));
        };
        match (self.recursive.get(number), declared.get(number)) {
            (Some(false), Some(it)) => self.write(&it.read.expr, levels),
            _ => Ok(Expr::Named(name)),
        }
    }
}

// Which defined types are recursive. One that contains itself without a pointer between is a
// mistake.
fn recursive_ones(alloc: Global, declared: &[Declared]) -> Result<Vec<bool>, Wrong> {
    let near = mentions_of(alloc, declared, false)?;
    let far = mentions_of(alloc, declared, true)?;
    let mut recursive = Vec::new(alloc);
    for (number, it) in declared.iter().enumerate() {
        if contains_itself(alloc, &near, number)? {
            return Err(Wrong {
                at: it.at,
                mistake: Mistake::Recursive,
            });
        }
        recursive.push(contains_itself(alloc, &far, number)?)?;
    }
    Ok(recursive)
}

// The definitions of the recursive types.
fn definitions_of(
    alloc: Global,
    declared: &[Declared],
    recursive: &[bool],
) -> Result<Vec<Def>, Wrong> {
    let mut definitions = Vec::new(alloc);
    for (it, is_recursive) in declared.iter().zip(recursive) {
        if *is_recursive {
            let mut writer = Writer {
                alloc,
                declared,
                recursive,
                room: PARTS,
                at: it.at,
            };
            let expr = writer.write(&it.read.expr, LEVELS)?;
            definitions.push(Def {
                name: it.archived,
                expr,
            })?;
        }
    }
    Ok(definitions)
}

// The names of the defined types.
fn names_of(alloc: Global, declared: Vec<Declared>) -> Result<Vec<TypeLabels>, Wrong> {
    let mut types = Vec::new(alloc);
    for it in declared {
        let Declared { archived, read, .. } = it;
        types.push(TypeLabels {
            name: archived,
            labels: read.labels,
        })?;
    }
    Ok(types)
}

// Why an expression has no form; the others that `Form::new` names don't come, by what was read.
fn wrong_of(error: Error) -> Wrong {
    let mistake = match error {
        Error::OutOfMemory => Mistake::OutOfMemory,
        Error::RecursiveLayout => Mistake::Recursive,
        _ => Mistake::Expected("types that are defined"),
    };
    Wrong { at: 0, mistake }
}

// The form of a root.
pub(super) fn form_of(alloc: Global, declared: Vec<Declared>, root: Read) -> Result<Form, Wrong> {
    let recursive = recursive_ones(alloc, &declared)?;
    let definitions = definitions_of(alloc, &declared, &recursive)?;
    let mut writer = Writer {
        alloc,
        declared: &declared,
        recursive: &recursive,
        room: PARTS,
        at: 0,
    };
    let Read { expr, labels } = root;
    let expr = writer.write(&expr, LEVELS)?;
    let types = names_of(alloc, declared)?;
    match Form::new(alloc, expr, definitions) {
        Ok(form) => Ok(form.with_labels(labels, types)),
        Err(error) => Err(wrong_of(error)),
    }
}
