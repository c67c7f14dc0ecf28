//! The words of a line.
ghost use Rattle.std.specs.Prelude.{◌≡◌, ◌≤◌, not, [], ◌∷◌, length, MatchOption};
ghost use Rattle.std.specs.List.{position_or_len, prefix_len};
ghost use Rattle.texts.specs.Text.{is_empty, is_plain, is_white, words_of};

use std::marker::Model;

/// Returns whether a line has a word.
pub fn has_words(line: &[u8]) -> bool
    ensures { result ≡ not (is_empty (words_of line.now)) }
{
    line.iter().any(|byte| !is_white(*byte))
}

/// Returns whether the byte is white space: space, tab or carriage return.
pub fn is_white(byte: u8) -> bool
    ensures { result ≡ is_white byte }
{
    byte == b' ' || byte == b'\t' || byte == b'\r'
}

/// The remaining words of a line, in order: see [`words_of`].
#[derive(Debug, Drop)]
pub struct Words<'a> {
    line: &'a [u8],
}

impl<'a> Model for Words<'a> {
    ghost use Rattle.std.specs.Prelude.{ℕ, List};
    ghost use Rattle.texts.specs.Text.{words_of};

    ghost Value = { List (List ℕ) };

    ghost view = { λ words. words_of words.line.now };
}

/// Returns the words of a line, in order: the longest runs of bytes other than space, tab and carriage
/// return. Allocates nothing.
pub fn words_of(line: &[u8]) -> Words<'_>
    ensures { result ≡ words_of line.now }
{
    Words { line }
}

impl<'a> Iterator for Words<'a> {
    ghost use Rattle.std.specs.Iterator.{YieldsFirstBy, item_count};

    type Item = &'a [u8];

    ghost next_gives = { YieldsFirstBy (λ word. word.now) (λ words. words) };

    ghost remaining = { item_count (λ words. words) };

    fn next(&mut self) -> Option<&'a [u8]> {
        let (word, rest) = split_word(self.line)?;
        self.line = rest;
        Some(word)
    }
}

/// Returns the first word of a line, and what follows it.
pub fn split_word(line: &[u8]) -> Option<(&[u8], &[u8])>
    ensures { MatchOption result (words_of line.now ≡ [])
        (λ split. words_of line.now ≡ split.0.now ∷ words_of split.1.now) }
{
    let line = &line[white_len(line)..];
    if line.is_empty() {
        None
    } else {
        Some(line.split_at(word_len(line)))
    }
}

/// Returns the number of bytes of white space at the front.
pub fn white_len(line: &[u8]) -> usize
    ensures value { result ≡ prefix_len is_white line.now }
    ensures within { result ≤ length line.now }
{
    line.iter().take_while(|byte| is_white(**byte)).count()
}

/// Returns the number of bytes before the first white space.
fn word_len(line: &[u8]) -> usize
    ensures value { result ≡ position_or_len is_white line.now }
    ensures within { result ≤ length line.now }
{
    line.iter().take_while(|byte| !is_white(**byte)).count()
}

/// Returns whether each byte is white space or 0x21 to 0x7E.
pub fn is_plain(bytes: &[u8]) -> bool
    ensures { result ≡ is_plain bytes.now }
{
    bytes
        .iter()
        .all(|byte| is_white(*byte) || byte.is_ascii_graphic())
}
