//! Types, read from tokens.

use crate::form::labels::{Labels, PartLabels};
use crate::text::building::{Argument, Target, built_of};
use crate::text::declarations::DeclaredName;
use crate::text::known::{kept, leaf_of};
use crate::text::mistakes::{Mistake, Wrong};
use crate::text::tokens::{Token, TokenKind, text_of};
use archive_check::format::expr::{Expr, Kind};
use std::alloc::Global;

// How deep types may lie in one another.
pub(super) const LEVELS: usize = 100;

// The most parts of a tuple.
const TUPLE: usize = 13;

// A type that was read. A defined one is a name until all are read.
#[derive(Drop)]
pub(super) struct Read {
    pub(super) expr: Expr,
    pub(super) labels: Labels,
}

// Parts that were read.
#[derive(Drop)]
pub(super) struct ReadParts {
    pub(super) exprs: Vec<Expr>,
    pub(super) labels: Vec<PartLabels>,
}

// What is read, and how far.
#[derive(Drop)]
pub(super) struct Parser<'a> {
    pub(super) alloc: Global,
    bytes: &'a [u8],
    tokens: &'a [Token],
    declared: &'a [DeclaredName],
    at: usize,
}

impl<'a> Parser<'a> {
    pub(super) fn new(
        alloc: Global,
        bytes: &'a [u8],
        tokens: &'a [Token],
        declared: &'a [DeclaredName],
    ) -> Parser<'a> {
        Parser {
            alloc,
            bytes,
            tokens,
            declared,
            at: 0,
        }
    }

    // The next token.
    pub(super) fn peek(&self) -> Token {
        match self.tokens.get(self.at) {
            Some(token) => *token,
            None => Token {
                kind: TokenKind::End,
                start: self.bytes.len(),
                end: self.bytes.len(),
            },
        }
    }

    // The next token is passed.
    pub(super) fn pass(&mut self) {
        self.at = self.at.saturating_add(1);
    }

    // How many steps a list may have at most.
    pub(super) fn most(&self) -> usize {
        self.tokens.len()
    }

    // The text of a word.
    pub(super) fn text(&self, token: Token) -> &'a str {
        text_of(self.bytes, token)
    }

    // A mistake at the next token.
    pub(super) fn wrong(&self, mistake: Mistake) -> Wrong {
        Wrong {
            at: self.peek().start,
            mistake,
        }
    }

    // Whether the next token is a sign.
    pub(super) fn is_sign(&self, sign: u8) -> bool {
        self.peek().kind == TokenKind::Sign(sign)
    }

    // Whether the next token is this word.
    pub(super) fn is_word(&self, word: &str) -> bool {
        let token = self.peek();
        token.kind == TokenKind::Word && self.text(token) == word
    }

    // Passes a sign, if it comes next.
    pub(super) fn take_sign(&mut self, sign: u8) -> bool {
        let found = self.is_sign(sign);
        if found {
            self.pass();
        }
        found
    }

    // Passes a sign that must come next.
    pub(super) fn sign(&mut self, sign: u8, wanted: &'static str) -> Result<(), Wrong> {
        if self.take_sign(sign) {
            Ok(())
        } else {
            Err(self.wrong(Mistake::Expected(wanted)))
        }
    }

    // Passes a word that must come next.
    pub(super) fn word(&mut self, wanted: &'static str) -> Result<Token, Wrong> {
        let token = self.peek();
        if token.kind != TokenKind::Word {
            return Err(self.wrong(Mistake::Expected(wanted)));
        }
        self.pass();
        Ok(token)
    }

    // The word of a path, its last one.
    fn last_word(&mut self) -> Result<Token, Wrong> {
        let mut token = self.word("a type")?;
        for _ in 0..self.tokens.len() {
            if self.peek().kind != TokenKind::Path {
                break;
            }
            self.pass();
            token = self.word("a type")?;
        }
        Ok(token)
    }

    // A number of elements.
    fn count(&mut self) -> Result<usize, Wrong> {
        let token = self.peek();
        if token.kind != TokenKind::Number {
            return Err(self.wrong(Mistake::Expected("a number of elements")));
        }
        let mut count = 0usize;
        for digit in self.text(token).bytes() {
            count = match digit {
                b'_' => count,
                b'0'..=b'9' => match count.checked_mul(10) {
                    Some(tens) => match tens.checked_add((digit - b'0') as usize) {
                        Some(count) => count,
                        None => return Err(self.wrong(Mistake::LargeNumber)),
                    },
                    None => return Err(self.wrong(Mistake::LargeNumber)),
                },
                _ => return Err(self.wrong(Mistake::Expected("a number of elements"))),
            };
        }
        self.pass();
        Ok(count)
    }

    // The defined type of a name, as a name.
    fn declared(&self, word: &str) -> Option<Read> {
        for declared in self.declared {
            if declared.name == word {
                return Some(Read {
                    expr: Expr::Named(declared.archived),
                    labels: Labels::Of(declared.archived),
                });
            }
        }
        None
    }

    // A type.
    #[cycle(parser)]
    pub(super) fn read_type(&mut self, levels: usize) -> Result<Read, Wrong> {
        let Some(levels) = levels.checked_sub(1) else {
            return Err(self.wrong(Mistake::TooDeep));
        };
        let start = self.peek();
        match start.kind {
            TokenKind::Sign(b'(') => self.read_tuple(levels),
            TokenKind::Sign(b'[') => self.read_target(levels)?.sized(start.start),
            _ => {
                let token = self.last_word()?;
                let arguments = self.read_arguments(levels)?;
                self.built(token, arguments)
            }
        }
    }

    // A unit, a tuple, or a type in parentheses.
    #[cycle(parser)]
    fn read_tuple(&mut self, levels: usize) -> Result<Read, Wrong> {
        let start = self.peek();
        self.pass();
        if self.take_sign(b')') {
            return Ok(leaf(Kind::Unit));
        }
        let first = self.read_type(levels)?;
        if self.take_sign(b')') {
            return Ok(first);
        }
        self.sign(b',', "`,` or `)`")?;
        let mut parts = ReadParts::new(self.alloc);
        parts.push("", first)?;
        self.read_parts(b')', &mut parts, levels)?;
        if parts.exprs.len() > TUPLE {
            return Err(Wrong {
                at: start.start,
                mistake: Mistake::Expected("at most 13 parts"),
            });
        }
        Ok(parts.record(""))
    }

    // Types between commas, up to a sign that closes the list and is passed.
    #[cycle(parser)]
    pub(super) fn read_parts(
        &mut self,
        close: u8,
        parts: &mut ReadParts,
        levels: usize,
    ) -> Result<(), Wrong> {
        for _ in 0..self.tokens.len() {
            if self.take_sign(close) {
                return Ok(());
            }
            self.pass_visibility();
            let read = self.read_type(levels)?;
            parts.push("", read)?;
            if !self.is_sign(close) {
                self.sign(b',', "`,` or the end of the list")?;
            }
        }
        Err(self.wrong(Mistake::Expected("the end of the list")))
    }

    // What a pointer leads to: a type, a slice, or a text.
    #[cycle(parser)]
    fn read_target(&mut self, levels: usize) -> Result<Target, Wrong> {
        if self.is_word("str") {
            self.pass();
            return Ok(Target::Text);
        }
        if !self.take_sign(b'[') {
            return Ok(Target::One(self.read_type(levels)?));
        }
        let element = self.read_type(levels)?;
        if self.take_sign(b']') {
            return Ok(Target::Run(element));
        }
        self.sign(b';', "`;` or `]`")?;
        let count = self.count()?;
        self.sign(b']', "`]`")?;
        Ok(Target::One(element.array(self.alloc, count)?))
    }

    // What stands in `<` and `>`, if they follow.
    #[cycle(parser)]
    fn read_arguments(&mut self, levels: usize) -> Result<Vec<Argument>, Wrong> {
        let mut arguments = Vec::new(self.alloc);
        if !self.take_sign(b'<') {
            return Ok(arguments);
        }
        for _ in 0..self.tokens.len() {
            if self.take_sign(b'>') {
                break;
            }
            let argument = if self.peek().kind == TokenKind::Number {
                Argument::Count(self.count()?)
            } else {
                Argument::Target(self.read_target(levels)?)
            };
            arguments.push(argument)?;
            if !self.is_sign(b'>') {
                self.sign(b',', "`,` or `>`")?;
            }
        }
        Ok(arguments)
    }

    // Passes a `pub`, perhaps with what it is for in parentheses.
    pub(super) fn pass_visibility(&mut self) {
        if !self.is_word("pub") {
            return;
        }
        self.pass();
        if self.is_sign(b'(') && !self.starts_tuple() {
            self.pass();
            self.pass();
            self.pass();
        }
    }

    // Whether what stands in parentheses is no place that a `pub` names.
    fn starts_tuple(&self) -> bool {
        match self.tokens.get(self.at.saturating_add(1)) {
            Some(token) => match self.text(*token) {
                "crate" | "super" | "self" | "in" => false,
                _ => true,
            },
            None => true,
        }
    }

    // The type of a word and its arguments: a defined one, a leaf, or one of the library's.
    fn built(&self, token: Token, arguments: Vec<Argument>) -> Result<Read, Wrong> {
        let word = self.text(token);
        let alone = arguments.is_empty();
        let read = match self.declared(word) {
            Some(read) => Some(read),
            None => match leaf_of(word) {
                Some(kind) => Some(leaf(kind)),
                None => None,
            },
        };
        match read {
            Some(read) if alone => Ok(read),
            Some(_) => Err(Wrong {
                at: token.start,
                mistake: Mistake::Expected("a type without `<` and `>`"),
            }),
            None => built_of(self.alloc, word, token.start, arguments),
        }
    }

    // A name that lasts.
    pub(super) fn kept(&self, token: Token) -> Result<&'static str, Wrong> {
        Ok(kept(self.alloc, "", self.text(token))?)
    }
}

impl ReadParts {
    // None.
    pub(super) fn new(alloc: Global) -> ReadParts {
        ReadParts {
            exprs: Vec::new(alloc),
            labels: Vec::new(alloc),
        }
    }

    // One more, with its name.
    pub(super) fn push(&mut self, name: &'static str, read: Read) -> Result<(), Wrong> {
        let Read { expr, labels } = read;
        self.exprs.push(expr)?;
        self.labels.push(PartLabels { name, labels })?;
        Ok(())
    }

    // The record of these parts, under a name.
    pub(super) fn record(self, name: &'static str) -> Read {
        let ReadParts { exprs, labels } = self;
        Read {
            expr: Expr::Record(exprs),
            labels: Labels::Record(name, labels),
        }
    }
}

// A leaf, which names nothing.
pub(super) fn leaf(kind: Kind) -> Read {
    Read {
        expr: Expr::Leaf(kind),
        labels: Labels::Unknown,
    }
}
