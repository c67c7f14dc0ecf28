//! The words and marks of a line, with their columns.
ghost use Rattle.std.specs.Prelude.{◌≡◌, ◌+◌, ◌<◌, ◌≤◌, ◌^◌, [], max, length, IfSome, MatchOption};
ghost use Rattle.std.specs.List.{prefix_len};
ghost use Rattle.mistakes.specs.Tokens.{BeginWith, has_marks, is_word_byte, tokens_from, tokens_of};
ghost use Rattle.mistakes.specs.SeenForms.{seen_token};

use crate::places::slot::is_mark;
use crate::subject::Subject;
use std::marker::Model;
use texts::{is_white, white_len};

/// A word or a mark.
#[derive(Clone, Copy)]
pub(crate) struct Token<'a> {
    /// The column of its first byte, from 1.
    pub(crate) column: usize,
    pub(crate) bytes: &'a [u8],
}

/// The remaining tokens of a line, in order.
#[derive(Drop)]
pub(crate) struct Tokens<'a> {
    code: &'a [u8],
    // The column of its first byte.
    column: usize,
    // Whether the line is one of a .bench text.
    marked: bool,
}

impl<'a> Model for Tokens<'a> {
    ghost use Rattle.std.specs.Prelude.{◌+◌, ◌<◌, ◌^◌, List, length};
    ghost use Rattle.mistakes.specs.Tokens.{Token, tokens_from};

    ghost Value = { List Token };

    ghost view = { λ t. tokens_from t.marked t.column t.code.now };

    ghost invariant = { λ t. t.column + length t.code.now < 2 ^ 64 };
}

/// Returns the tokens of a line without its comment. Allocates nothing.
pub(crate) fn tokens_of(subject: Subject, code: &[u8]) -> Tokens<'_>
    ensures tokens { result ≡ tokens_of subject code.now }
    ensures few { length result ≤ length code.now }
{
    Tokens {
        code,
        column: 1,
        marked: has_marks(subject),
    }
}

fn has_marks(subject: Subject) -> bool
    ensures { result ≡ has_marks subject }
{
    match subject {
        Subject::Bench => true,
        _ => false,
    }
}

impl<'a> Iterator for Tokens<'a> {
    ghost use Rattle.std.specs.Iterator.{YieldsFirstBy, item_count};

    type Item = Token<'a>;

    ghost next_gives = { YieldsFirstBy seen_token (λ t. t) };

    ghost remaining = { item_count (λ t. t) };

    fn next(&mut self) -> Option<Token<'a>> {
        let (token, rest) = split_token(self.marked, self.column, self.code)?;
        self.code = rest;
        self.column = token.column + token.bytes.len();
        Some(token)
    }
}

/// Returns the first token of a line that begins at a column, and what follows it.
fn split_token(marked: bool, column: usize, code: &[u8]) -> Option<(Token<'_>, &[u8])>
    requires { column + length code.now < 2 ^ 64 }
    ensures tokens { MatchOption result (tokens_from marked column code.now ≡ [])
        (λ split. BeginWith marked column code.now (seen_token split.0) split.1.now) }
    ensures within { IfSome result (λ split.
        split.0.column + length split.0.bytes.now + length split.1.now ≡ column + length code.now) }
{
    let white = white_len(code);
    let code = &code[white..];
    if code.is_empty() {
        return None;
    }
    let (bytes, rest) = code.split_at(token_len(marked, code));
    let token = Token {
        column: column + white,
        bytes,
    };
    Some((token, rest))
}

/// Returns the length of the token at the front of a line that begins with one.
fn token_len(marked: bool, code: &[u8]) -> usize
    requires { 0 < length code.now }
    ensures value { result ≡ max 1 (prefix_len (is_word_byte marked) code.now) }
    ensures within { result ≤ length code.now }
{
    let length = word_len(marked, code);
    if length == 0 { 1 } else { length }
}

/// Returns the number of bytes of a word at the front.
fn word_len(marked: bool, code: &[u8]) -> usize
    ensures value { result ≡ prefix_len (is_word_byte marked) code.now }
    ensures within { result ≤ length code.now }
{
    code.iter()
        .take_while(|byte| is_word_byte(marked, **byte))
        .count()
}

fn is_word_byte(marked: bool, byte: u8) -> bool
    ensures { result ≡ is_word_byte marked byte }
{
    !is_white(byte) && !(marked && is_mark(byte))
}
