//! The tokens of a line: its words and marks.
ghost use Rattle.std.specs.Prelude.{◌≡◌, ◌<◌, ◌≤◌, [], ◌∷◌, length, false, slice_index, option_map, MatchOption};
ghost use Rattle.std.specs.List.{prefix_len};
ghost use Rattle.std.specs.Iterator.{YieldsFirstBy, item_count};
ghost use Rattle.texts.specs.Text.{is_white};
ghost use Rattle.bench_text.specs.Line.{tokens_of};
ghost use Rattle.bench_text.specs.Seen.{seen_token, is_word_byte, mark_of};

use std::marker::Model;
use texts::{is_white, white_len};

/// A word, or one of the four marks.
#[derive(Clone, Copy)]
pub(crate) enum Token<'a> {
    Word(&'a [u8]),
    Left,
    Right,
    Comma,
    Equals,
}

/// The remaining tokens of a line, in order.
#[derive(Drop)]
pub(crate) struct Tokens<'a> {
    code: &'a [u8],
}

impl<'a> Model for Tokens<'a> {
    ghost use Rattle.std.specs.Prelude.{List};
    ghost use Rattle.bench_text.specs.Line.{Token, tokens_of};

    ghost Value = { List Token };

    ghost view = { λ t. tokens_of t.code.now };
}

/// Returns the tokens of a line without its comment.
pub(crate) fn tokens_of(code: &[u8]) -> Tokens<'_>
    ensures { result ≡ tokens_of code.now }
{
    Tokens { code }
}

impl<'a> Iterator for Tokens<'a> {
    type Item = Token<'a>;

    ghost next_gives = { YieldsFirstBy seen_token (λ t. t) };

    ghost remaining = { item_count (λ t. t) };

    fn next(&mut self) -> Option<Token<'a>> {
        let (token, rest) = split_token(self.code)?;
        self.code = rest;
        Some(token)
    }
}

/// Returns the first token, and the bytes after it.
fn split_token(code: &[u8]) -> Option<(Token<'_>, &[u8])>
    ensures { MatchOption result (tokens_of code.now ≡ [])
        (λ split. tokens_of code.now ≡ seen_token split.0 ∷ tokens_of split.1.now) }
{
    let code = past_white(code);
    let (first, rest) = code.split_first()?;
    match mark(*first) {
        Some(mark) => Some((mark, rest)),
        None => {
            let (word, rest) = code.split_at(word_len(code));
            Some((Token::Word(word), rest))
        }
    }
}

/// Returns the bytes from the first one that isn't white space.
fn past_white(code: &[u8]) -> &[u8]
    ensures tokens { tokens_of result.now ≡ tokens_of code.now }
    ensures begins { 0 < length result.now → is_white (slice_index result.now 0) ≡ false }
{
    &code[white_len(code)..]
}

/// Returns the number of bytes before the first white space or mark.
fn word_len(code: &[u8]) -> usize
    ensures value { result ≡ prefix_len is_word_byte code.now }
    ensures within { result ≤ length code.now }
{
    code.iter()
        .take_while(|byte| !is_white(**byte) && mark(**byte).is_none())
        .count()
}

/// Returns the token of a mark.
fn mark<'a>(byte: u8) -> Option<Token<'a>>
    ensures { option_map seen_token result ≡ mark_of byte }
{
    match byte {
        b'(' => Some(Token::Left),
        b')' => Some(Token::Right),
        b',' => Some(Token::Comma),
        b'=' => Some(Token::Equals),
        _ => None,
    }
}
