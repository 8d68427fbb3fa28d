//! The words, numbers and signs of a text.

use crate::text::mistakes::{Mistake, Wrong};
use std::alloc::Global;

// What a token is.
#[derive(Clone, Copy, PartialEq, Eq)]
pub(super) enum TokenKind {
    // A letter or `_`, and then letters, digits and `_`.
    Word,
    // Decimal digits, perhaps with `_`.
    Number,
    // The two signs `::`.
    Path,
    // Another sign.
    Sign(u8),
    // The end of the text.
    End,
}

// A token, and where it lies.
#[derive(Clone, Copy)]
pub(super) struct Token {
    pub(super) kind: TokenKind,
    pub(super) start: usize,
    pub(super) end: usize,
}

// The line below which all is written by `tools/derive`.
const WRITTEN: &[u8] = b"// Below this line all is written by tools/derive";

// The byte at a position: a zero behind the end.
fn byte_at(bytes: &[u8], at: usize) -> u8 {
    match bytes.get(at) {
        Some(byte) => *byte,
        None => 0,
    }
}

// Whether these bytes lie at a position.
fn lies_at(bytes: &[u8], at: usize, wanted: &[u8]) -> bool {
    match bytes.get(at..at.saturating_add(wanted.len())) {
        Some(found) => found == wanted,
        None => false,
    }
}

// The position from `at` on, at which a byte lies; the end where there is none.
fn find(bytes: &[u8], at: usize, wanted: u8) -> usize {
    for index in at..bytes.len() {
        if byte_at(bytes, index) == wanted {
            return index;
        }
    }
    bytes.len()
}

// Behind a comment in `/*` and `*/`.
fn behind_comment(bytes: &[u8], at: usize) -> usize {
    for index in at..bytes.len() {
        if lies_at(bytes, index, b"*/") {
            return index.saturating_add(2);
        }
    }
    bytes.len()
}

// Behind the bracket that closes the first one from `at` on.
fn behind_brackets(bytes: &[u8], at: usize) -> usize {
    let mut open = 0usize;
    for index in at..bytes.len() {
        match byte_at(bytes, index) {
            b'[' => open = open.saturating_add(1),
            b']' => open = open.saturating_sub(1),
            _ => {}
        }
        if open == 0 && byte_at(bytes, index) == b']' {
            return index.saturating_add(1);
        }
    }
    bytes.len()
}

// Behind the white space, the comment or the attribute at `at`: none where there is none.
fn behind_blank(bytes: &[u8], at: usize) -> Option<usize> {
    match byte_at(bytes, at) {
        b' ' | b'\t' | b'\r' | b'\n' => Some(at.saturating_add(1)),
        b'/' if lies_at(bytes, at, WRITTEN) => Some(bytes.len()),
        b'/' if lies_at(bytes, at, b"//") => Some(find(bytes, at, b'\n')),
        b'/' if lies_at(bytes, at, b"/*") => Some(behind_comment(bytes, at)),
        b'#' if lies_at(bytes, at, b"#[") || lies_at(bytes, at, b"#![") => {
            Some(behind_brackets(bytes, at))
        }
        _ => None,
    }
}

// Where the next token begins.
fn behind_blanks(bytes: &[u8], start: usize) -> usize {
    let mut at = start;
    for _ in start..bytes.len() {
        match behind_blank(bytes, at) {
            Some(behind) => at = behind,
            None => break,
        }
    }
    at
}

// Whether a word may go on with a byte.
fn goes_on(byte: u8) -> bool {
    byte.is_ascii_alphanumeric() || byte == b'_'
}

// Where the word or number ends that lies at `at`.
fn end_of_word(bytes: &[u8], at: usize) -> usize {
    for index in at..bytes.len() {
        if !goes_on(byte_at(bytes, index)) {
            return index;
        }
    }
    bytes.len()
}

// The token at a position, which is no blank.
fn token_at(bytes: &[u8], at: usize) -> Result<Token, Wrong> {
    let byte = byte_at(bytes, at);
    let (kind, end) = match byte {
        b'0'..=b'9' => (TokenKind::Number, end_of_word(bytes, at)),
        _ if goes_on(byte) => (TokenKind::Word, end_of_word(bytes, at)),
        b':' if lies_at(bytes, at, b"::") => (TokenKind::Path, at.saturating_add(2)),
        b'{' | b'}' | b'(' | b')' | b'[' | b']' | b'<' | b'>' | b',' | b':' | b';' | b'=' => {
            (TokenKind::Sign(byte), at.saturating_add(1))
        }
        _ => {
            return Err(Wrong {
                at,
                mistake: Mistake::Sign,
            });
        }
    };
    Ok(Token {
        kind,
        start: at,
        end,
    })
}

// The tokens of a text, the last of which is its end.
pub(super) fn tokens_of(alloc: Global, bytes: &[u8]) -> Result<Vec<Token>, Wrong> {
    let mut tokens = Vec::new(alloc);
    let mut at = 0;
    for _ in 0..bytes.len() {
        at = behind_blanks(bytes, at);
        if at >= bytes.len() {
            break;
        }
        let token = token_at(bytes, at)?;
        at = token.end;
        tokens.push(token)?;
    }
    tokens.push(Token {
        kind: TokenKind::End,
        start: bytes.len(),
        end: bytes.len(),
    })?;
    Ok(tokens)
}

// The text of a word: empty where there is none.
pub(super) fn text_of<'a>(bytes: &'a [u8], token: Token) -> &'a str {
    match bytes.get(token.start..token.end) {
        Some(word) => str::from_utf8(word).unwrap_or(""),
        None => "",
    }
}
