//! The lines of a text that have words, without their comments.
ghost use Rattle.std.specs.Prelude.{◌≡◌, ◌==◌, ◌^◌, ◌+◌, ◌-◌, ◌<◌, [], ◌∷◌, length, IfSome};
ghost use Rattle.std.specs.Option.{option_map_or};
ghost use Rattle.std.specs.List.{position_or_len};
ghost use Rattle.texts.specs.Text.{code_lines, code_of, lines_of};

use crate::reading::words::has_words;
use std::marker::Model;

/// The lines of a text that have words, each with its number: see [`code_lines`].
#[derive(Drop)]
pub struct CodeLines<'a> {
    // What follows the lines so far; `None` after the last line.
    rest: Option<&'a [u8]>,
    // The number of the line that comes next.
    number: u64,
}

impl<'a> Model for CodeLines<'a> {
    ghost use Rattle.std.specs.Prelude.{ℕ, ◌+◌, ◌<◌, ◌^◌, List, [], length, IfSome};
    ghost use Rattle.std.specs.Option.{option_map_or};
    ghost use Rattle.texts.specs.Text.{code_lines_from};

    ghost Value = { List (ℕ × List ℕ) };

    ghost view = { λ lines. option_map_or (λ rest. code_lines_from lines.number rest.now) lines.rest [] };

    ghost invariant = { λ lines. IfSome lines.rest (λ rest. lines.number + length rest.now < 2 ^ 64) };
}

/// Returns the lines of a text that have words, each with its number from 1 and without its comment.
/// Lines end at each line feed, and a comment begins at the first `#`.
pub fn code_lines(text: &[u8]) -> CodeLines<'_>
    ensures { result ≡ code_lines text.now }
{
    CodeLines {
        rest: Some(text),
        number: 1,
    }
}

impl<'a> Iterator for CodeLines<'a> {
    ghost use Rattle.std.specs.Iterator.{YieldsFirstBy, item_count};

    type Item = (u64, &'a [u8]);

    ghost next_gives = { YieldsFirstBy (λ line. (line.0, line.1.now)) (λ lines. lines) };

    ghost remaining = { item_count (λ lines. lines) };

    fn next(&mut self) -> Option<(u64, &'a [u8])> {
        while let Some(rest) = self.rest {
            let number = self.number;
            let (line, after) = cut_line(rest);
            self.rest = after;
            if after.is_some() {
                self.number += 1;
            }
            let code = code_of(line);
            if has_words(code) {
                return Some((number, code));
            }
        }
        None
    }
}

/// Returns the first line of a text, and what follows its line feed if it has one.
fn cut_line(text: &[u8]) -> (&[u8], Option<&[u8]>)
    ensures lines { lines_of text.now
        ≡ result.0.now ∷ option_map_or (λ after. lines_of after.now) result.1 [] }
    ensures shorter { IfSome result.1 (λ after. length after.now < length text.now) }
{
    let end = first_place(text, b'\n');
    if end < text.len() {
        (&text[..end], Some(&text[end + 1..]))
    } else {
        (text, None)
    }
}

/// Returns a line without its comment, which begins at the first `#`.
pub fn code_of(line: &[u8]) -> &[u8]
    ensures { result.now ≡ code_of line.now }
{
    &line[..first_place(line, b'#')]
}

/// Returns the first place of the byte in a text, or the length of the text.
pub fn first_place(text: &[u8], byte: u8) -> usize
    ensures { result ≡ position_or_len (λ other. other == byte) text.now }
{
    text.iter()
        .position(|other| *other == byte)
        .unwrap_or(text.len())
}
