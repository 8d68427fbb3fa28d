//! Definitions of structs and enums, read from tokens.

use crate::form::labels::{Labels, VariantLabels};
use crate::text::known::kept;
use crate::text::mistakes::{Mistake, Wrong};
use crate::text::parser::{LEVELS, Parser, Read, ReadParts};
use crate::text::tokens::{Token, TokenKind, text_of};
use archive_check::format::expr::Expr;
use std::alloc::Global;
use std::collections::BTreeSet;

// How many types may be defined.
const TYPES: usize = 500;

// How many variants an enum may have.
const VARIANTS: usize = 256;

// The name of a defined type, that of its archived type, and where it stands.
#[derive(Drop)]
pub(super) struct DeclaredName {
    pub(super) name: &'static str,
    pub(super) archived: &'static str,
    pub(super) at: usize,
}

// A defined type.
#[derive(Drop)]
pub(super) struct Declared {
    pub(super) archived: &'static str,
    pub(super) at: usize,
    pub(super) read: Read,
}

// Whether a type of this name is among those.
fn is_declared(names: &[DeclaredName], name: &str) -> bool {
    for declared in names {
        if declared.name == name {
            return true;
        }
    }
    false
}

// The name behind a `struct` or an `enum`, as one that lasts.
fn declared_name(
    alloc: Global,
    bytes: &[u8],
    token: Token,
    names: &[DeclaredName],
) -> Result<DeclaredName, Wrong> {
    let at = token.start;
    let name = text_of(bytes, token);
    if is_declared(names, name) {
        return Err(Wrong {
            at,
            mistake: Mistake::DefinedTwice,
        });
    }
    if names.len() >= TYPES {
        return Err(Wrong {
            at,
            mistake: Mistake::TooMany,
        });
    }
    Ok(DeclaredName {
        name: kept(alloc, "", name)?,
        archived: kept(alloc, "Archived", name)?,
        at,
    })
}

// Whether a token is a word that begins a definition.
fn begins(bytes: &[u8], token: Token) -> bool {
    if token.kind != TokenKind::Word {
        return false;
    }
    match text_of(bytes, token) {
        "struct" | "enum" => true,
        _ => false,
    }
}

// The names of all types that a text defines.
pub(super) fn declared_names(
    alloc: Global,
    bytes: &[u8],
    tokens: &[Token],
) -> Result<Vec<DeclaredName>, Wrong> {
    let mut names = Vec::new(alloc);
    for index in 1..tokens.len() {
        let token = tokens[index];
        if token.kind == TokenKind::Word && begins(bytes, tokens[index - 1]) {
            names.push(declared_name(alloc, bytes, token, &names)?)?;
        }
    }
    Ok(names)
}

impl Parser<'_> {
    // All definitions, up to the root.
    pub(super) fn declarations(&mut self) -> Result<Vec<Declared>, Wrong> {
        let mut declared = Vec::new(self.alloc);
        for _ in 0..self.most() {
            self.pass_visibility();
            if self.is_word("use") {
                self.pass_line();
            } else if self.is_word("struct") {
                self.pass();
                declared.push(self.declaration(false)?)?;
            } else if self.is_word("enum") {
                self.pass();
                declared.push(self.declaration(true)?)?;
            } else {
                break;
            }
        }
        Ok(declared)
    }

    // Passes what stands up to a semicolon.
    fn pass_line(&mut self) {
        for _ in 0..self.most() {
            if self.take_sign(b';') || self.peek().kind == TokenKind::End {
                break;
            }
            self.pass();
        }
    }

    // What is defined behind `struct` or `enum`.
    fn declaration(&mut self, is_enum: bool) -> Result<Declared, Wrong> {
        let token = self.word("the name of a type")?;
        if self.is_sign(b'<') {
            return Err(self.wrong(Mistake::Parameters));
        }
        let name = self.kept(token)?;
        let archived = kept(self.alloc, "Archived", name)?;
        let read = if is_enum {
            self.read_enum(token, name, archived)?
        } else {
            self.read_struct(name)?
        };
        Ok(Declared {
            archived,
            at: token.start,
            read,
        })
    }

    fn read_struct(&mut self, name: &'static str) -> Result<Read, Wrong> {
        let mut parts = ReadParts::new(self.alloc);
        if self.take_sign(b'{') {
            self.read_fields(&mut parts)?;
            self.take_sign(b';');
        } else if self.take_sign(b'(') {
            self.read_parts(b')', &mut parts, LEVELS)?;
            self.take_sign(b';');
        } else {
            self.sign(b';', "`{`, `(` or `;`")?;
        }
        Ok(parts.record(name))
    }

    // The name in a token, as one that lasts. A name that those before it have is the mistake.
    fn new_name(
        &self,
        token: Token,
        before: &mut BTreeSet<&'static str>,
        mistake: Mistake,
    ) -> Result<&'static str, Wrong> {
        let name = self.kept(token)?;
        if before.insert(name)? {
            Ok(name)
        } else {
            Err(Wrong {
                at: token.start,
                mistake,
            })
        }
    }

    // Fields with names, up to the brace.
    fn read_fields(&mut self, parts: &mut ReadParts) -> Result<(), Wrong> {
        let mut names = BTreeSet::new(self.alloc);
        for _ in 0..self.most() {
            if self.take_sign(b'}') {
                return Ok(());
            }
            self.pass_visibility();
            let token = self.word("a field or `}`")?;
            let name = self.new_name(token, &mut names, Mistake::FieldTwice)?;
            self.sign(b':', "`:`")?;
            let read = self.read_type(LEVELS)?;
            parts.push(name, read)?;
            if !self.is_sign(b'}') {
                self.sign(b',', "`,` or `}`")?;
            }
        }
        Err(self.wrong(Mistake::Expected("`}`")))
    }

    fn read_enum(
        &mut self,
        token: Token,
        name: &'static str,
        archived: &'static str,
    ) -> Result<Read, Wrong> {
        let mut exprs = Vec::new(self.alloc);
        let mut labels = Vec::new(self.alloc);
        let mut names = BTreeSet::new(self.alloc);
        self.sign(b'{', "`{`")?;
        for _ in 0..self.most() {
            if self.take_sign(b'}') {
                break;
            }
            let (parts, variant) = self.read_variant(&mut names)?;
            exprs.push(parts)?;
            labels.push(variant)?;
            if !self.is_sign(b'}') {
                self.sign(b',', "`,` or `}`")?;
            }
        }
        if exprs.is_empty() || exprs.len() > VARIANTS {
            return Err(Wrong {
                at: token.start,
                mistake: Mistake::Variants,
            });
        }
        Ok(Read {
            expr: Expr::Choice(archived, exprs),
            labels: Labels::Choice(name, labels),
        })
    }

    // A variant; `before` has the names of those before it.
    fn read_variant(
        &mut self,
        before: &mut BTreeSet<&'static str>,
    ) -> Result<(Vec<Expr>, VariantLabels), Wrong> {
        let token = self.word("a variant or `}`")?;
        let name = self.new_name(token, before, Mistake::VariantTwice)?;
        let mut parts = ReadParts::new(self.alloc);
        if self.take_sign(b'{') {
            self.read_fields(&mut parts)?;
        } else if self.take_sign(b'(') {
            self.read_parts(b')', &mut parts, LEVELS)?;
        }
        let variant = VariantLabels {
            name,
            parts: parts.labels,
        };
        Ok((parts.exprs, variant))
    }

    // The root, behind which the text ends: the last definition where there is none.
    pub(super) fn root(&mut self, declared: &[Declared]) -> Result<Read, Wrong> {
        if self.peek().kind == TokenKind::End {
            return match declared.last() {
                Some(last) => Ok(Read {
                    expr: Expr::Named(last.archived),
                    labels: Labels::Of(last.archived),
                }),
                None => Err(self.wrong(Mistake::Expected("a type"))),
            };
        }
        let root = self.read_type(LEVELS)?;
        if self.peek().kind == TokenKind::End {
            Ok(root)
        } else {
            Err(self.wrong(Mistake::Expected("the end of the text")))
        }
    }
}
