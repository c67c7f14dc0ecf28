//! .bench lines with too few or too many commas, or with more after the end.
ghost use Rattle.std.specs.Prelude.{◌≡◌, ◌++◌, IfOk, OnOk};
ghost use Rattle.mistakes.specs.BenchLists.{comma_between, end_told, ended_told, is_comma, line_told, list_told, meets_word, relisted, with_commas, without_commas};
ghost use Rattle.mistakes.specs.SeenCorrections.{seen_refused, seen_words};

use crate::corrections::accepted::{Refused, word_of};
use crate::corrections::applying::{push_said_line, up_to};
use crate::places::slot::begins_with_mark;
use std::alloc::{AllocError, Global};

/// Adds the line with a comma between any two of its words that no mark is between, and with no other comma, if
/// its reader takes it.
pub(crate) fn push_list_told(
    alloc: Global,
    told: &mut Vec<u8>,
    refused: Refused<'_>,
) -> Result<(), AllocError>
    ensures { OnOk result (told.new.items ≡ told.old.items ++ list_told (seen_refused refused.entry)) }
{
    let line = relisted(alloc, refused.words)?;
    push_line_told(told, refused, line.as_slice())
}

/// Adds a line, if the reader takes it.
#[tactic(auto, unfolding(crate::specs::BenchLists::line_told))]
pub(crate) fn push_line_told(
    told: &mut Vec<u8>,
    refused: Refused<'_>,
    line: &[&[u8]],
) -> Result<(), AllocError>
    ensures { OnOk result (told.new.items ≡ told.old.items ++ line_told (seen_refused refused.entry) (seen_words line.now)) }
{
    if !refused.is_accepted(line) {
        return Ok(());
    }
    push_said_line(told, b"write ", line)
}

/// Returns the words and marks with a comma wherever two words are neighbours, and with no other comma.
fn relisted<'a>(alloc: Global, words: &[&'a [u8]]) -> Result<Vec<&'a [u8]>, AllocError>
    ensures { IfOk result (λ line. seen_words line.items ≡ relisted (seen_words words.now)) }
{
    let mut kept = Vec::from_slice(alloc, words)?;
    keep_no_commas(&mut kept);
    let mut line = Vec::new(alloc);
    push_with_commas(&mut line, kept.as_slice())?;
    Ok(line)
}

fn keep_no_commas(words: &mut Vec<&[u8]>)
    ensures { seen_words words.new.items ≡ without_commas (seen_words words.old.items) }
{
    words.retain(|word| !is_comma(word));
}

fn is_comma(word: &[u8]) -> bool
    ensures { result ≡ is_comma word.now }
{
    word == b",".as_slice()
}

/// Adds words and marks, with a comma between any two words that are neighbours.
pub(crate) fn push_with_commas<'a>(
    line: &mut Vec<&'a [u8]>,
    words: &[&'a [u8]],
) -> Result<(), AllocError>
    ensures { OnOk result (seen_words line.new.items ≡ seen_words line.old.items ++ with_commas (seen_words words.now)) }
{
    let Some((word, rest)) = words.split_first() else {
        return Ok(());
    };
    line.push(*word)?;
    push_comma(line, word, rest)?;
    push_with_commas(line, rest)
}

fn push_comma(line: &mut Vec<&[u8]>, word: &[u8], rest: &[&[u8]]) -> Result<(), AllocError>
    ensures { OnOk result (seen_words line.new.items ≡ seen_words line.old.items ++ comma_between word.now (seen_words rest.now)) }
{
    if meets_word(word, rest) {
        line.push(b",")?;
    }
    Ok(())
}

/// Returns whether another word, and no mark, comes right after a word.
pub(crate) fn meets_word(word: &[u8], rest: &[&[u8]]) -> bool
    ensures { result ≡ meets_word word.now (seen_words rest.now) }
{
    match rest.first() {
        Some(after) => !begins_with_mark(word) && !begins_with_mark(after),
        None => false,
    }
}

/// Adds that a line needs no `;`, if the reader takes it without the one at its end; or, if that is true of a
/// `)`, the line without it.
pub(crate) fn push_ended_told(told: &mut Vec<u8>, refused: Refused<'_>) -> Result<(), AllocError>
    ensures { OnOk result (told.new.items ≡ told.old.items ++ ended_told (seen_refused refused.entry)) }
{
    let place = refused.words.len().saturating_sub(1);
    push_end_told(
        told,
        refused,
        word_of(refused.words, place),
        up_to(refused.words, place),
    )
}

#[tactic(auto, unfolding(crate::specs::BenchLists::end_told))]
fn push_end_told(
    told: &mut Vec<u8>,
    refused: Refused<'_>,
    last: &[u8],
    front: &[&[u8]],
) -> Result<(), AllocError>
    ensures { OnOk result (told.new.items ≡ told.old.items ++ end_told (seen_refused refused.entry) last.now (seen_words front.now)) }
{
    if last == b")".as_slice() {
        push_line_told(told, refused, front)
    } else if last == b";".as_slice() && refused.is_accepted(front) {
        told.extend_from_slice(b"a line ends without a ';'\n")
    } else {
        Ok(())
    }
}
