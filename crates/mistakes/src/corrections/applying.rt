//! The only correction of a table that applies to a line.
ghost use Rattle.std.specs.Prelude.{◌≡◌, ◌++◌, drop, take, option_map, IfOk, OnOk};
ghost use Rattle.std.specs.Option.{option_to_list};
ghost use Rattle.std.specs.List.{list_all, list_any};
ghost use Rattle.mistakes.specs.Corrections.{and_more, applies, correction_told, gap, has_net, has_net_at, is_accepted, is_tight, made, only, told_by, words_of_piece, written, written_all, written_line};
ghost use Rattle.mistakes.specs.SeenCorrections.{seen_correction, seen_lines, seen_piece, seen_pieces, seen_refused, seen_table, seen_words};

use crate::corrections::accepted::{Refused, fits};
use crate::corrections::correction::{Correction, Piece};
use std::alloc::{AllocError, Global};

/// Adds what is said of the only correction of a table that applies to a line, if there is one, with the lines.
pub(crate) fn push_told_by(
    alloc: Global,
    told: &mut Vec<u8>,
    table: &[Correction],
    refused: Refused<'_>,
) -> Result<(), AllocError>
    ensures { OnOk result (told.new.items ≡ told.old.items ++ told_by (seen_table table.now) (seen_refused refused.entry)) }
{
    match only(alloc, refused, table)? {
        Some(one) => push_correction(alloc, told, refused.words, one),
        None => Ok(()),
    }
}

/// Returns the only correction of a table that applies to a line.
fn only<'b>(
    alloc: Global,
    refused: Refused<'_>,
    table: &'b [Correction],
) -> Result<Option<&'b Correction>, AllocError>
    ensures { IfOk result (λ one. option_map (λ one. seen_correction one.now) one ≡ only (seen_refused refused.entry) (seen_table table.now)) }
{
    let Some((one, others)) = table.split_first() else {
        return Ok(None);
    };
    if !applies(alloc, refused, one)? {
        only(alloc, refused, others)
    } else if any_applies(alloc, refused, others)? {
        Ok(None)
    } else {
        Ok(Some(one))
    }
}

/// Returns whether any correction of a table applies to a line.
fn any_applies(
    alloc: Global,
    refused: Refused<'_>,
    table: &[Correction],
) -> Result<bool, AllocError>
    ensures { IfOk result (λ any. any ≡ list_any (applies (seen_refused refused.entry)) (seen_table table.now)) }
{
    match table.split_first() {
        Some((one, others)) => if applies(alloc, refused, one)? {
            Ok(true)
        } else {
            any_applies(alloc, refused, others)
        },
        None => Ok(false),
    }
}

/// Returns whether a line is wrong in this way, and its reader takes the corrected lines.
fn applies(alloc: Global, refused: Refused<'_>, one: &Correction) -> Result<bool, AllocError>
    ensures { IfOk result (λ yes. yes ≡ applies (seen_refused refused.entry) (seen_correction one.now)) }
{
    if fits(one.wrong, refused.words)
        && refused.has_nets_at(one.nets)
        && !refused.has_any_net(one.unused)
    {
        are_accepted(alloc, refused, one.lines)
    } else {
        Ok(false)
    }
}

/// Returns whether the reader takes each of the corrected lines.
fn are_accepted(
    alloc: Global,
    refused: Refused<'_>,
    lines: &'static [&'static [Piece]],
) -> Result<bool, AllocError>
    ensures { IfOk result (λ yes. yes ≡ list_all
        (λ pieces. is_accepted (seen_refused refused.entry) (made (seen_refused refused.entry).words pieces)) (seen_lines lines.now)) }
{
    match lines.split_first() {
        Some((pieces, rest)) => if is_made_accepted(alloc, refused, pieces)? {
            are_accepted(alloc, refused, rest)
        } else {
            Ok(false)
        },
        None => Ok(true),
    }
}

fn is_made_accepted(
    alloc: Global,
    refused: Refused<'_>,
    pieces: &'static [Piece],
) -> Result<bool, AllocError>
    ensures { IfOk result (λ yes. yes ≡ is_accepted (seen_refused refused.entry) (made (seen_refused refused.entry).words (seen_pieces pieces.now))) }
{
    let line = made(alloc, refused.words, pieces)?;
    Ok(refused.is_accepted(line.as_slice()))
}

impl<'a> Refused<'a> {
    /// Returns whether the words at these places are nets.
    fn has_nets_at(self, places: &[usize]) -> bool
        ensures { result ≡ list_all (has_net_at (seen_refused self.entry)) places.now }
    {
        match places.split_first() {
            Some((place, rest)) => self.has_net_at(*place) && self.has_nets_at(rest),
            None => true,
        }
    }

    fn has_net_at(self, place: usize) -> bool
        ensures { result ≡ has_net_at (seen_refused self.entry) place }
    {
        match self.words.get(place) {
            Some(word) => self.has_net(word),
            None => false,
        }
    }

    /// Returns whether any of these names is a net's.
    fn has_any_net(self, names: &[&[u8]]) -> bool
        ensures { result ≡ list_any (has_net (seen_refused self.entry)) (seen_words names.now) }
    {
        match names.split_first() {
            Some((name, rest)) => self.has_net(name) || self.has_any_net(rest),
            None => false,
        }
    }
}

/// Returns the words and marks of a corrected line.
fn made<'a>(
    alloc: Global,
    words: &[&'a [u8]],
    pieces: &[Piece],
) -> Result<Vec<&'a [u8]>, AllocError>
    ensures { IfOk result (λ line. seen_words line.items ≡ made (seen_words words.now) (seen_pieces pieces.now)) }
{
    let mut line = Vec::new(alloc);
    push_made(&mut line, words, pieces)?;
    Ok(line)
}

fn push_made<'a>(
    line: &mut Vec<&'a [u8]>,
    words: &[&'a [u8]],
    pieces: &[Piece],
) -> Result<(), AllocError>
    ensures { OnOk result (seen_words line.new.items
        ≡ seen_words line.old.items ++ made (seen_words words.now) (seen_pieces pieces.now)) }
{
    match pieces.split_first() {
        Some((piece, rest)) => {
            push_piece(line, words, *piece)?;
            push_made(line, words, rest)
        }
        None => Ok(()),
    }
}

fn push_piece<'a>(
    line: &mut Vec<&'a [u8]>,
    words: &[&'a [u8]],
    piece: Piece,
) -> Result<(), AllocError>
    ensures { OnOk result (seen_words line.new.items
        ≡ seen_words line.old.items ++ words_of_piece (seen_words words.now) (seen_piece piece)) }
{
    match piece {
        Piece::At(place) => push_word(line, words.get(place)),
        Piece::Since(place) => line.extend_from_slice(from_place(words, place)),
        Piece::Own(word) => push_word(line, Some(&word)),
    }
}

fn push_word<'a>(line: &mut Vec<&'a [u8]>, word: Option<&&'a [u8]>) -> Result<(), AllocError>
    ensures { OnOk result (seen_words line.new.items
        ≡ seen_words line.old.items ++ option_to_list (option_map (λ word. word.now.now) word.entry)) }
{
    if let Some(word) = word {
        line.push(*word)?;
    }
    Ok(())
}

/// Returns the words from a place on.
pub(crate) fn from_place<'b, 'a>(words: &'b [&'a [u8]], place: usize) -> &'b [&'a [u8]]
    ensures { seen_words result.now ≡ drop place (seen_words words.now) }
{
    if place < words.len() {
        &words[place..]
    } else {
        &[]
    }
}

/// Returns the first words.
pub(crate) fn up_to<'b, 'a>(words: &'b [&'a [u8]], count: usize) -> &'b [&'a [u8]]
    ensures { seen_words result.now ≡ take count (seen_words words.now) }
{
    if count < words.len() {
        &words[..count]
    } else {
        words
    }
}

/// Adds what is said of a correction, and its lines.
#[tactic(auto, unfolding(crate::specs::Corrections::correction_told))]
fn push_correction(
    alloc: Global,
    told: &mut Vec<u8>,
    words: &[&[u8]],
    one: &Correction,
) -> Result<(), AllocError>
    ensures { OnOk result (told.new.items ≡ told.old.items ++ correction_told (seen_words words.now) (seen_correction one.now)) }
{
    told.extend_from_slice(one.said)?;
    push_written_all(alloc, told, words, one.lines)?;
    told.extend_from_slice(b"\n")
}

/// Adds corrected lines, with `and` between them.
#[tactic(auto, unfolding(crate::specs::Corrections::written_all))]
fn push_written_all(
    alloc: Global,
    told: &mut Vec<u8>,
    words: &[&[u8]],
    lines: &'static [&'static [Piece]],
) -> Result<(), AllocError>
    ensures { OnOk result (told.new.items ≡ told.old.items ++ written_all (seen_words words.now) (seen_lines lines.now)) }
{
    let Some((pieces, rest)) = lines.split_first() else {
        return Ok(());
    };
    let line = made(alloc, words, pieces)?;
    push_written(told, line.as_slice())?;
    push_and_more(told, rest)?;
    push_written_all(alloc, told, words, rest)
}

fn push_and_more(told: &mut Vec<u8>, rest: &[&[Piece]]) -> Result<(), AllocError>
    ensures { OnOk result (told.new.items ≡ told.old.items ++ and_more (seen_lines rest.now)) }
{
    if rest.is_empty() {
        Ok(())
    } else {
        told.extend_from_slice(b" and ")
    }
}

/// Adds words and marks as a line.
#[tactic(auto, unfolding(crate::specs::Corrections::written))]
pub(crate) fn push_written(told: &mut Vec<u8>, words: &[&[u8]]) -> Result<(), AllocError>
    ensures { OnOk result (told.new.items ≡ told.old.items ++ written (seen_words words.now)) }
{
    let Some((word, rest)) = words.split_first() else {
        return Ok(());
    };
    told.extend_from_slice(word)?;
    told.extend_from_slice(gap(word, rest))?;
    push_written(told, rest)
}

/// Adds words and marks as a line, with its end.
#[tactic(auto, unfolding(crate::specs::Corrections::written_line))]
pub(crate) fn push_written_line(told: &mut Vec<u8>, line: &[&[u8]]) -> Result<(), AllocError>
    ensures { OnOk result (told.new.items ≡ told.old.items ++ written_line (seen_words line.now)) }
{
    push_written(told, line)?;
    told.extend_from_slice(b"\n")
}

/// Adds a text, and words and marks as a line, with its end.
pub(crate) fn push_said_line(
    told: &mut Vec<u8>,
    said: &[u8],
    line: &[&[u8]],
) -> Result<(), AllocError>
    ensures { OnOk result (told.new.items ≡ told.old.items ++ (said.now ++ written_line (seen_words line.now))) }
{
    told.extend_from_slice(said)?;
    push_written_line(told, line)
}

/// Returns what is between a word and those after it.
fn gap(word: &[u8], rest: &[&[u8]]) -> &'static [u8]
    ensures { result.now ≡ gap word.now (seen_words rest.now) }
{
    match rest.first() {
        Some(after) if word != b"(".as_slice() && !is_tight(after) => b" ",
        _ => b"",
    }
}

/// Returns whether no space comes before a mark.
fn is_tight(word: &[u8]) -> bool
    ensures { result ≡ is_tight word.now }
{
    word == b"(".as_slice() || word == b")".as_slice() || word == b",".as_slice()
}
