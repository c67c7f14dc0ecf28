//! .bench lines with two statements, with a part of one, or with names that begin with `$`.
ghost use Rattle.std.specs.Prelude.{◌≡◌, ◌++◌, ◌≤◌, length, map, option_map, IfOk, OnOk};
ghost use Rattle.std.specs.List.{list_any};
ghost use Rattle.mistakes.specs.BenchStatements.{both_if_taken, both_told, close_place, closed_told, dollar_told, is_used, joined, joined_or_closed, joined_told, next_line, part_told, renamed_if_taken, renamed_told, taken_or_closed, two_told, with_next, without, without_dollar};
ghost use Rattle.mistakes.specs.SeenCorrections.{seen_refused, seen_words};

use crate::corrections::accepted::{Refused, fits_some};
use crate::corrections::applying::{
    from_place, push_said_line, push_written, push_written_line, up_to,
};
use crate::corrections::lists::push_line_told;
use crate::corrections::words::{is_shown_whole, marked_words};
use std::alloc::{AllocError, Global};
use texts::code_lines;

/// Adds the statement up to the first `)` of a line and the one after it, if the reader takes both.
pub(crate) fn push_two_told(
    alloc: Global,
    told: &mut Vec<u8>,
    refused: Refused<'_>,
) -> Result<(), AllocError>
    ensures { OnOk result (told.new.items ≡ told.old.items ++ two_told (seen_refused refused.entry)) }
{
    let place = close_place(refused.words);
    let second = without(alloc, b";", from_place(refused.words, place))?;
    push_both_if_taken(
        told,
        refused,
        up_to(refused.words, place),
        second.as_slice(),
    )
}

/// Adds two lines, if the reader takes both.
#[tactic(auto, unfolding(crate::specs::BenchStatements::both_if_taken))]
fn push_both_if_taken(
    told: &mut Vec<u8>,
    refused: Refused<'_>,
    first: &[&[u8]],
    second: &[&[u8]],
) -> Result<(), AllocError>
    ensures { OnOk result (told.new.items
        ≡ told.old.items ++ both_if_taken (seen_refused refused.entry) (seen_words first.now) (seen_words second.now)) }
{
    if refused.is_accepted(first) && refused.is_accepted(second) {
        push_both_told(told, first, second)
    } else {
        Ok(())
    }
}

#[tactic(auto, unfolding(crate::specs::BenchStatements::both_told))]
fn push_both_told(told: &mut Vec<u8>, first: &[&[u8]], second: &[&[u8]]) -> Result<(), AllocError>
    ensures { OnOk result (told.new.items ≡ told.old.items ++ both_told (seen_words first.now) (seen_words second.now)) }
{
    told.extend_from_slice(b"one statement a line: ")?;
    push_written(told, first)?;
    told.extend_from_slice(b" and ")?;
    push_written(told, second)?;
    told.extend_from_slice(b"\n")
}

/// Returns the number of words up to the first `)`, with it.
#[tactic(auto, unfolding(crate::specs::BenchStatements::close_place))]
fn close_place(words: &[&[u8]]) -> usize
    ensures value { result ≡ close_place (seen_words words.now) }
    ensures within { result ≤ length words.now }
{
    match words.split_first() {
        Some((word, rest)) => if *word == b")".as_slice() {
            1
        } else {
            close_place(rest) + 1
        },
        None => 0,
    }
}

/// Returns the words and marks that aren't this one.
fn without<'a>(alloc: Global, mark: &[u8], words: &[&'a [u8]]) -> Result<Vec<&'a [u8]>, AllocError>
    ensures { IfOk result (λ kept. seen_words kept.items ≡ without mark.now (seen_words words.now)) }
{
    let mut kept = Vec::from_slice(alloc, words)?;
    keep_others(&mut kept, mark);
    Ok(kept)
}

fn keep_others(words: &mut Vec<&[u8]>, mark: &[u8])
    ensures { seen_words words.new.items ≡ without mark.now (seen_words words.old.items) }
{
    words.retain(|word| *word != mark);
}

/// Adds the line with the next one at its end, or with a `)`, if the reader takes it.
pub(crate) fn push_part_told(
    alloc: Global,
    told: &mut Vec<u8>,
    refused: Refused<'_>,
) -> Result<(), AllocError>
    ensures { OnOk result (told.new.items ≡ told.old.items ++ part_told (seen_refused refused.entry)) }
{
    match next_line(refused.line, refused.circuit) {
        Some((number, code)) => push_with_next(alloc, told, refused, number, code),
        None => push_closed(alloc, told, refused),
    }
}

/// Returns the next line with words, with its number.
fn next_line(number: u64, text: &[u8]) -> Option<(u64, &[u8])>
    ensures { option_map (λ line. (line.0, line.1.now)) result ≡ next_line number text.now }
{
    code_lines(text).find(|line| number < line.0)
}

fn push_with_next(
    alloc: Global,
    told: &mut Vec<u8>,
    refused: Refused<'_>,
    number: u64,
    code: &[u8],
) -> Result<(), AllocError>
    ensures { OnOk result (told.new.items ≡ told.old.items ++ with_next (seen_refused refused.entry) (Some (number, code.now))) }
{
    if !is_shown_whole(code) {
        return Ok(());
    }
    let others = marked_words(alloc, code)?;
    push_joined_or_closed(alloc, told, refused, number, others.as_slice())
}

#[tactic(auto, unfolding(crate::specs::BenchStatements::joined_or_closed))]
fn push_joined_or_closed(
    alloc: Global,
    told: &mut Vec<u8>,
    refused: Refused<'_>,
    number: u64,
    others: &[&[u8]],
) -> Result<(), AllocError>
    ensures { OnOk result (told.new.items ≡ told.old.items
        ++ joined_or_closed (seen_refused refused.entry) number (seen_words others.now)) }
{
    let line = joined(alloc, refused.words, others)?;
    push_taken_or_closed(alloc, told, refused, number, line.as_slice(), others)
}

/// Adds a line that is joined with the next one, if the reader takes it, or the line with a `)`, if the next one
/// has a form.
#[tactic(auto, unfolding(crate::specs::BenchStatements::taken_or_closed))]
fn push_taken_or_closed(
    alloc: Global,
    told: &mut Vec<u8>,
    refused: Refused<'_>,
    number: u64,
    line: &[&[u8]],
    others: &[&[u8]],
) -> Result<(), AllocError>
    ensures { OnOk result (told.new.items
        ≡ told.old.items ++ taken_or_closed (seen_refused refused.entry) number (seen_words line.now) (seen_words others.now)) }
{
    if refused.is_accepted(line) {
        push_joined(alloc, told, number, line)
    } else if fits_some(refused.forms, others) {
        push_closed(alloc, told, refused)
    } else {
        Ok(())
    }
}

/// Returns the words of both lines, without a `\`.
fn joined<'a>(
    alloc: Global,
    words: &[&'a [u8]],
    others: &[&'a [u8]],
) -> Result<Vec<&'a [u8]>, AllocError>
    ensures { IfOk result (λ line. seen_words line.items ≡ joined (seen_words words.now) (seen_words others.now)) }
{
    let mut line = without(alloc, b"\\", words)?;
    line.extend_from_slice(others)?;
    Ok(line)
}

#[tactic(auto, unfolding(crate::specs::BenchStatements::joined_told))]
fn push_joined(
    alloc: Global,
    told: &mut Vec<u8>,
    number: u64,
    line: &[&[u8]],
) -> Result<(), AllocError>
    ensures { OnOk result (told.new.items ≡ told.old.items ++ joined_told number (seen_words line.now)) }
{
    let head = format!(in alloc; "join line {number} to it: ")?;
    told.extend_from_slice(head.as_str().as_bytes())?;
    push_written_line(told, line)
}

/// Adds the line with a `)` at its end, if the reader takes it.
fn push_closed(alloc: Global, told: &mut Vec<u8>, refused: Refused<'_>) -> Result<(), AllocError>
    ensures { OnOk result (told.new.items ≡ told.old.items ++ closed_told (seen_refused refused.entry)) }
{
    let line = joined(alloc, refused.words, &[b")"])?;
    push_line_told(told, refused, line.as_slice())
}

/// Adds the line with each name without its `$`, if the reader takes it and no net has such a name.
pub(crate) fn push_dollar_told(
    alloc: Global,
    told: &mut Vec<u8>,
    refused: Refused<'_>,
) -> Result<(), AllocError>
    ensures { OnOk result (told.new.items ≡ told.old.items ++ dollar_told (seen_refused refused.entry)) }
{
    let mut line = Vec::new(alloc);
    push_without_dollars(&mut line, refused.words)?;
    push_renamed_if_taken(told, refused, line.as_slice())
}

#[tactic(auto, unfolding(crate::specs::BenchStatements::renamed_if_taken))]
fn push_renamed_if_taken(
    told: &mut Vec<u8>,
    refused: Refused<'_>,
    line: &[&[u8]],
) -> Result<(), AllocError>
    ensures { OnOk result (told.new.items
        ≡ told.old.items ++ renamed_if_taken (seen_refused refused.entry) (seen_words line.now)) }
{
    if refused.is_accepted(line) && !any_used(refused, refused.words) {
        push_renamed(told, line)
    } else {
        Ok(())
    }
}

#[tactic(auto, unfolding(crate::specs::BenchStatements::renamed_told))]
fn push_renamed(told: &mut Vec<u8>, line: &[&[u8]]) -> Result<(), AllocError>
    ensures { OnOk result (told.new.items ≡ told.old.items ++ renamed_told (seen_words line.now)) }
{
    push_said_line(
        told,
        b"no name begins with '$'; rename it in each line: ",
        line,
    )
}

/// Adds the words of a line, each without a `$` at its front.
fn push_without_dollars<'a>(line: &mut Vec<&'a [u8]>, words: &[&'a [u8]]) -> Result<(), AllocError>
    ensures { OnOk result (seen_words line.new.items ≡ seen_words line.old.items ++ map without_dollar (seen_words words.now)) }
{
    match words.split_first() {
        Some((word, rest)) => {
            line.push(without_dollar(word))?;
            push_without_dollars(line, rest)
        }
        None => Ok(()),
    }
}

fn without_dollar(word: &[u8]) -> &[u8]
    ensures { result.now ≡ without_dollar word.now }
{
    match word.split_first() {
        Some((36, name)) => name,
        _ => word,
    }
}

/// Returns whether the name of any of these words is a net's, without the `$` at its front.
fn any_used(refused: Refused<'_>, words: &[&[u8]]) -> bool
    ensures { result ≡ list_any (is_used (seen_refused refused.entry)) (seen_words words.now) }
{
    match words.split_first() {
        Some((word, rest)) => is_used(refused, word) || any_used(refused, rest),
        None => false,
    }
}

fn is_used(refused: Refused<'_>, word: &[u8]) -> bool
    ensures { result ≡ is_used (seen_refused refused.entry) word.now }
{
    match word.split_first() {
        Some((36, name)) => refused.has_net(name),
        _ => false,
    }
}
