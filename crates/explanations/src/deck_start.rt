//! What is suggested for a deck whose first line has no words.
ghost use Rattle.std.specs.Prelude.{◌≡◌, ◌++◌, option_map, IfOk, OnOk};
ghost use Rattle.explanations.specs.DeckStart.{before_told, begins_deck, blank_told, deck_start, deck_start_of, is_blank, late_told};

use crate::other_texts::has_form_in;
use mistakes::{Subject, line_at};
use std::alloc::{AllocError, Global};
use texts::{CodeLines, code_lines, is_white};

/// Adds the line with which the deck may begin, if its first line with words is a later one; or what a deck is, if
/// the text is known and empty.
pub(crate) fn push_deck_start(
    alloc: Global,
    told: &mut Vec<u8>,
    text: Option<&[u8]>,
) -> Result<(), AllocError>
    ensures { OnOk result (told.new.items ≡ told.old.items
        ++ deck_start (option_map (λ text. text.now) text.entry)) }
{
    match text {
        Some(text) => push_deck_start_of(alloc, told, text, code_lines(text)),
        None => Ok(()),
    }
}

/// Does the same by the lines of the text that have words.
fn push_deck_start_of(
    alloc: Global,
    told: &mut Vec<u8>,
    text: &[u8],
    mut lines: CodeLines<'_>,
) -> Result<(), AllocError>
    ensures { OnOk result (told.new.items ≡ told.old.items ++ deck_start_of text.now lines.entry) }
{
    match lines.next() {
        Some((number, _)) => push_late(alloc, told, text, number),
        None => push_blank(told, text),
    }
}

/// Adds that the lines before a line are to be left out, if a deck may begin with the line.
fn push_late(alloc: Global, told: &mut Vec<u8>, text: &[u8], number: u64) -> Result<(), AllocError>
    ensures { OnOk result (told.new.items ≡ told.old.items ++ late_told text.now number) }
{
    let begins = begins_deck(alloc, text, number)?;
    if number > 1 && begins {
        push_before(alloc, told, number)
    } else {
        Ok(())
    }
}

/// Returns whether a line has the form of the first line of a deck.
fn begins_deck(alloc: Global, text: &[u8], number: u64) -> Result<bool, AllocError>
    ensures { IfOk result (λ begins. begins ≡ begins_deck text.now number) }
{
    match line_at(text, number) {
        Some(line) => has_form_in(alloc, Subject::Deck, line),
        None => Ok(false),
    }
}

fn push_before(alloc: Global, told: &mut Vec<u8>, number: u64) -> Result<(), AllocError>
    ensures { OnOk result (told.new.items ≡ told.old.items ++ before_told number) }
{
    let line = format!(in alloc;
        "a deck has no comments or empty lines before %nullsim: leave out the lines before line {number}\n"
    )?;
    told.extend_from_slice(line.as_str().as_bytes())
}

/// Adds what a deck is, if a text has no words at all.
fn push_blank(told: &mut Vec<u8>, text: &[u8]) -> Result<(), AllocError>
    ensures { OnOk result (told.new.items ≡ told.old.items ++ blank_told text.now) }
{
    if is_blank(text) {
        told.extend_from_slice(
            b"standard input is empty: a deck begins with %nullsim and the horizon\n",
        )
    } else {
        Ok(())
    }
}

/// Returns whether a text is white space and line feeds alone.
fn is_blank(text: &[u8]) -> bool
    ensures { result ≡ is_blank text.now }
{
    text.iter().all(|byte| is_white(*byte) || *byte == b'\n')
}
