//! The message about the place at which a line stops having a form.
ghost use Rattle.std.specs.Prelude.{◌≡◌, ◌++◌, ◌-◌, ◌^◌, ◌<◌, ◌≤◌, length, min, drop, option_map, slice_index, IfOk, OnOk};
ghost use Rattle.std.specs.List.{list_any, prefix_len};
ghost use Rattle.mistakes.specs.BenchLines.{is_among};
ghost use Rattle.mistakes.specs.Places.{after_told, begin_of, byte_found, byte_told, code_in, code_told, column_told, end_of, first_byte_told, form_told, found_told, found_token, has_form, hexadecimal, hexadecimal_digit, is_end, is_mark_token, is_plain_byte, line_misplaced, listed, misplaced, of_forms, part_of, place_told, quoted, separator, shown_from, slot_told, tokens_before, where_told};
ghost use Rattle.mistakes.specs.SeenForms.{seen_row, seen_rows, seen_slot, seen_token, tokens_in};

use crate::lines::{line_at, up_to};
use crate::places::forms::forms_of;
use crate::places::line::Line;
use crate::places::slot::{Slot, begins_with_mark};
use crate::places::tokens::Token;
use crate::subject::Subject;
use std::alloc::{AllocError, Global};
use texts::{code_of, is_plain, is_white};

/// The largest number of bytes of a word that are shown.
const LONGEST_WORD: usize = 40;

/// Returns the message about the place at which the line with a number stops having a form, if the fault
/// says that it has none, and if the text is known and has the line. Otherwise the message is empty.
#[tactic(auto, unfolding(crate::specs::Places::misplaced))]
pub fn misplaced(
    alloc: Global,
    subject: Subject,
    name: &str,
    number: u64,
    text: Option<&[u8]>,
) -> Result<Vec<u8>, AllocError>
    ensures { IfOk result (λ told. told.items
        ≡ misplaced subject name.now number (option_map (λ text. text.now) text.entry)) }
{
    let Some(text) = text else {
        return Ok(Vec::new(alloc));
    };
    if !is_of_forms(name) {
        return Ok(Vec::new(alloc));
    }
    match line_at(text, number) {
        Some(line) => line_misplaced(alloc, subject, number, text, line),
        None => Ok(Vec::new(alloc)),
    }
}

/// Returns whether a fault says that a line has no form.
fn is_of_forms(name: &str) -> bool
    ensures { result ≡ is_among of_forms name.now }
{
    name == "BadLine" || name == "BadDeck"
}

#[tactic(auto, unfolding(crate::specs::Places::line_misplaced))]
fn line_misplaced(
    alloc: Global,
    subject: Subject,
    number: u64,
    text: &[u8],
    line: &[u8],
) -> Result<Vec<u8>, AllocError>
    ensures { IfOk result (λ told. told.items ≡ line_misplaced subject number text.now line.now) }
{
    let code = code_in(subject, line);
    let mut told = Vec::new(alloc);
    push_code_told(
        alloc,
        &mut told,
        Line { subject, code },
        code.len() < line.len(),
        forms_of(subject, number, text),
    )?;
    Ok(told)
}

/// Returns a line without its comment; a deck has no comments.
fn code_in(subject: Subject, line: &[u8]) -> &[u8]
    ensures { result.now ≡ code_in subject line.now }
{
    match subject {
        Subject::Deck => line,
        _ => code_of(line),
    }
}

/// Adds the message about a line that may have these forms. `commented` is whether a comment follows it.
#[tactic(auto, unfolding(crate::specs::Places::code_told))]
fn push_code_told(
    alloc: Global,
    told: &mut Vec<u8>,
    line: Line<'_>,
    commented: bool,
    forms: &'static [&'static [Slot]],
) -> Result<(), AllocError>
    ensures { OnOk result (told.new.items ≡ told.old.items
        ++ code_told line.entry.subject commented line.entry.code.now (seen_rows forms.now)) }
{
    if forms.is_empty() {
        Ok(())
    } else if is_plain(line.code) {
        push_form_told(alloc, told, line, commented, forms)
    } else {
        push_first_byte_told(alloc, told, line.code)
    }
}

/// Does the same for a line without a byte that it can't have.
#[tactic(auto, unfolding(crate::specs::Places::form_told))]
fn push_form_told(
    alloc: Global,
    told: &mut Vec<u8>,
    line: Line<'_>,
    commented: bool,
    forms: &'static [&'static [Slot]],
) -> Result<(), AllocError>
    ensures { OnOk result (told.new.items ≡ told.old.items
        ++ form_told line.entry.subject commented line.entry.code.now (seen_rows forms.now)) }
{
    let place = line.place(forms);
    let mut slots = Vec::new(alloc);
    line.push_expected(place, &mut slots, forms)?;
    if has_form(line.token(place), &slots) {
        Ok(())
    } else {
        push_place_told(alloc, told, line, commented, place, &slots)
    }
}

/// Returns whether a line ends where a form may end, by what is found at its place.
fn has_form(found: Option<Token<'_>>, slots: &[Slot]) -> bool
    ensures { result ≡ has_form (option_map seen_token found.entry) (seen_row slots.now) }
{
    match found {
        Some(_) => false,
        None => has_end(slots),
    }
}

fn has_end(slots: &[Slot]) -> bool
    ensures { result ≡ list_any is_end (seen_row slots.now) }
{
    slots.iter().any(|slot| slot.is_end())
}

/// Adds the message about a place of a line, where these slots are expected.
#[tactic(auto, unfolding(crate::specs::Places::place_told))]
fn push_place_told(
    alloc: Global,
    told: &mut Vec<u8>,
    line: Line<'_>,
    commented: bool,
    place: usize,
    slots: &[Slot],
) -> Result<(), AllocError>
    ensures { OnOk result (told.new.items ≡ told.old.items
        ++ place_told commented line.entry.code.now (tokens_in line.entry) place (seen_row slots.now)) }
{
    let found = line.token(place);
    push_where(alloc, told, commented, line.code, found)?;
    push_after(told, line, place)?;
    told.extend_from_slice(b": ")?;
    push_found(told, commented, found)?;
    told.extend_from_slice(b"expected ")?;
    push_listed(told, slots)?;
    told.extend_from_slice(b"\n")
}

/// Adds the column of the token at a place, or of the comment after the line, or says that it is the end.
#[tactic(auto, unfolding(crate::specs::Places::where_told))]
fn push_where(
    alloc: Global,
    told: &mut Vec<u8>,
    commented: bool,
    code: &[u8],
    found: Option<Token<'_>>,
) -> Result<(), AllocError>
    ensures { OnOk result (told.new.items ≡ told.old.items
        ++ where_told commented code.now (option_map seen_token found.entry)) }
{
    match found {
        Some(token) => push_column(alloc, told, token.column),
        None if commented => push_column(alloc, told, code.len() + 1),
        None => told.extend_from_slice(b"at the end of the line"),
    }
}

#[tactic(auto, unfolding(crate::specs::Places::column_told))]
fn push_column(alloc: Global, told: &mut Vec<u8>, column: usize) -> Result<(), AllocError>
    ensures { OnOk result (told.new.items ≡ told.old.items ++ column_told column) }
{
    let text = format!(in alloc; "column {column}")?;
    told.extend_from_slice(text.as_str().as_bytes())
}

/// Adds the tokens before a place, if any.
#[tactic(auto, unfolding(crate::specs::Places::after_told))]
fn push_after(told: &mut Vec<u8>, line: Line<'_>, place: usize) -> Result<(), AllocError>
    ensures { OnOk result (told.new.items ≡ told.old.items
        ++ after_told line.entry.code.now (tokens_in line.entry) place) }
{
    if place == 0 {
        return Ok(());
    }
    told.extend_from_slice(b", after ")?;
    push_quoted(told, tokens_before(line, place))
}

/// Returns the last tokens before a place, as they are in the line.
#[tactic(auto, unfolding(crate::specs::Places::tokens_before))]
fn tokens_before(line: Line<'_>, place: usize) -> &[u8]
    ensures { result.now ≡ tokens_before line.entry.code.now (tokens_in line.entry) place }
{
    let begin = begin_of(line.token(shown_from(line, place)));
    let end = end_of(line.token(place.saturating_sub(1)));
    part_of(line.code, begin, end)
}

/// Returns the place of the first of them: of the last three, or of the last two if a mark is before these.
#[tactic(auto, unfolding(crate::specs::Places::shown_from))]
fn shown_from(line: Line<'_>, place: usize) -> usize
    ensures { result ≡ shown_from (tokens_in line.entry) place }
{
    if place < 3 {
        0
    } else if is_mark_token(line.token(place - 3)) {
        place - 2
    } else {
        place - 3
    }
}

fn is_mark_token(token: Option<Token<'_>>) -> bool
    ensures { result ≡ is_mark_token (option_map seen_token token.entry) }
{
    match token {
        Some(token) => begins_with_mark(token.bytes),
        None => false,
    }
}

/// Returns the offset at which a token begins.
fn begin_of(token: Option<Token<'_>>) -> usize
    ensures { result ≡ begin_of (option_map seen_token token.entry) }
{
    match token {
        Some(token) => token.column.saturating_sub(1),
        None => 0,
    }
}

/// Returns the offset at which a token ends.
fn end_of(token: Option<Token<'_>>) -> usize
    ensures { result ≡ min (2 ^ 64 - 1) (end_of (option_map seen_token token.entry)) }
{
    match token {
        Some(token) => token
            .column
            .saturating_sub(1)
            .saturating_add(token.bytes.len()),
        None => 0,
    }
}

/// Returns the bytes from an offset to another one.
fn part_of(bytes: &[u8], from: usize, to: usize) -> &[u8]
    ensures { result.now ≡ part_of from to bytes.now }
{
    up_to(drop_up_to(from, bytes), to.saturating_sub(from))
}

fn drop_up_to(count: usize, bytes: &[u8]) -> &[u8]
    ensures { result.now ≡ drop count bytes.now }
{
    if count < bytes.len() {
        &bytes[count..]
    } else {
        b""
    }
}

/// Adds what is found at a place: a token, or a comment.
#[tactic(auto, unfolding(crate::specs::Places::found_told))]
fn push_found(
    told: &mut Vec<u8>,
    commented: bool,
    found: Option<Token<'_>>,
) -> Result<(), AllocError>
    ensures { OnOk result (told.new.items ≡ told.old.items
        ++ found_told commented (option_map seen_token found.entry)) }
{
    match found {
        Some(token) => push_found_token(told, token.bytes),
        None if commented => told.extend_from_slice(b"found a comment, which begins at #; "),
        None => Ok(()),
    }
}

fn push_found_token(told: &mut Vec<u8>, bytes: &[u8]) -> Result<(), AllocError>
    ensures { OnOk result (told.new.items ≡ told.old.items ++ found_token bytes.now) }
{
    told.extend_from_slice(b"found ")?;
    push_quoted(told, bytes)?;
    told.extend_from_slice(b", ")
}

/// Adds a word in quotes: only its first bytes if it is long.
#[tactic(auto, unfolding(crate::specs::Places::quoted))]
fn push_quoted(told: &mut Vec<u8>, word: &[u8]) -> Result<(), AllocError>
    ensures { OnOk result (told.new.items ≡ told.old.items ++ quoted word.now) }
{
    told.extend_from_slice(b"'")?;
    told.extend_from_slice(up_to(word, LONGEST_WORD))?;
    if word.len() > LONGEST_WORD {
        told.extend_from_slice(b" ..")?;
    }
    told.extend_from_slice(b"'")
}

/// Adds slots, with `or` before the last one.
#[tactic(auto, unfolding(crate::specs::Places::listed))]
fn push_listed(told: &mut Vec<u8>, slots: &[Slot]) -> Result<(), AllocError>
    ensures { OnOk result (told.new.items ≡ told.old.items ++ listed (seen_row slots.now)) }
{
    let Some((slot, rest)) = slots.split_first() else {
        return Ok(());
    };
    push_slot_told(told, *slot)?;
    told.extend_from_slice(separator(rest.len()))?;
    push_listed(told, rest)
}

/// Returns what is between two slots, of which `left` follow the first.
fn separator(left: usize) -> &'static [u8]
    ensures { result.now ≡ separator left }
{
    match left {
        0 => b"",
        1 => b" or ",
        _ => b", ",
    }
}

#[tactic(auto, unfolding(crate::specs::Places::slot_told))]
fn push_slot_told(told: &mut Vec<u8>, slot: Slot) -> Result<(), AllocError>
    ensures { OnOk result (told.new.items ≡ told.old.items ++ slot_told (seen_slot slot)) }
{
    if slot.is_quoted() {
        push_quoted(told, slot.text())
    } else {
        told.extend_from_slice(slot.text())
    }
}

/// Adds the message about the first byte that a line can't have.
fn push_first_byte_told(alloc: Global, told: &mut Vec<u8>, code: &[u8]) -> Result<(), AllocError>
    ensures { OnOk result (told.new.items ≡ told.old.items ++ first_byte_told code.now) }
{
    let at = plain_len(code);
    push_byte_told(alloc, told, at, byte_at(code, at))
}

/// Adds the message about a byte at an offset.
#[tactic(auto, unfolding(crate::specs::Places::byte_told))]
fn push_byte_told(alloc: Global, told: &mut Vec<u8>, at: usize, byte: u8) -> Result<(), AllocError>
    requires { at < 2 ^ 63 }
    ensures { OnOk result (told.new.items ≡ told.old.items ++ byte_told at byte) }
{
    push_byte_found(alloc, told, at + 1, byte)?;
    told.extend_from_slice(b", which is neither white space nor printable ASCII\n")
}

#[tactic(auto, unfolding(crate::specs::Places::byte_found))]
fn push_byte_found(
    alloc: Global,
    told: &mut Vec<u8>,
    column: usize,
    byte: u8,
) -> Result<(), AllocError>
    ensures { OnOk result (told.new.items ≡ told.old.items ++ byte_found column byte) }
{
    push_column(alloc, told, column)?;
    told.extend_from_slice(b": found the byte ")?;
    push_hexadecimal(told, byte)
}

/// Returns the number of bytes at the front that a line may have.
fn plain_len(code: &[u8]) -> usize
    ensures value { result ≡ prefix_len is_plain_byte code.now }
    ensures within { result ≤ length code.now }
{
    code.iter().take_while(|byte| is_plain_byte(**byte)).count()
}

fn is_plain_byte(byte: u8) -> bool
    ensures { result ≡ is_plain_byte byte }
{
    is_white(byte) || byte.is_ascii_graphic()
}

fn byte_at(code: &[u8], at: usize) -> u8
    ensures { result ≡ slice_index code.now at }
{
    if at < code.len() { code[at] } else { 0 }
}

/// Adds a byte in two hexadecimal digits.
#[tactic(auto, unfolding(crate::specs::Places::hexadecimal))]
fn push_hexadecimal(told: &mut Vec<u8>, byte: u8) -> Result<(), AllocError>
    ensures { OnOk result (told.new.items ≡ told.old.items ++ hexadecimal byte) }
{
    told.push(hexadecimal_digit(byte / 16))?;
    told.push(hexadecimal_digit(byte % 16))?;
    Ok(())
}

fn hexadecimal_digit(digit: u8) -> u8
    requires { digit < 16 }
    ensures { result ≡ hexadecimal_digit digit }
{
    if digit < 10 { digit + b'0' } else { digit + 55 }
}
