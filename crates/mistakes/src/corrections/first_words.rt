//! Lines whose first word is near to one with which a form begins.
ghost use Rattle.std.specs.Prelude.{◌≡◌, ◌++◌, option_map, IfOk, OnOk};
ghost use Rattle.mistakes.specs.SeenCorrections.{seen_refused, seen_words};
ghost use Rattle.mistakes.specs.SeenForms.{seen_row, seen_rows};
ghost use Rattle.mistakes.specs.TimingLines.{first_word, first_words, respelled, respelled_right, respelled_told, with_first};

use crate::corrections::accepted::{Refused, word_of};
use crate::corrections::applying::from_place;
use crate::corrections::lists::push_line_told;
use crate::corrections::right::push_right_told;
use crate::near::near_among;
use crate::places::slot::Slot;
use std::alloc::{AllocError, Global};

/// Adds the line with the only first word of a form that is near to its own, if the reader takes it.
#[tactic(auto, unfolding(crate::specs::TimingLines::respelled_told))]
pub(crate) fn push_respelled_told(
    alloc: Global,
    told: &mut Vec<u8>,
    refused: Refused<'_>,
) -> Result<(), AllocError>
    ensures { OnOk result (told.new.items ≡ told.old.items ++ respelled_told (seen_refused refused.entry)) }
{
    let line = respelled(alloc, refused)?;
    push_line_told(told, refused, line.as_slice())
}

/// Does the same, if the text may name the net of the line.
#[tactic(auto, unfolding(crate::specs::TimingLines::respelled_right))]
pub(crate) fn push_respelled_right(
    alloc: Global,
    told: &mut Vec<u8>,
    refused: Refused<'_>,
) -> Result<(), AllocError>
    ensures { OnOk result (told.new.items ≡ told.old.items ++ respelled_right (seen_refused refused.entry)) }
{
    let line = respelled(alloc, refused)?;
    push_right_told(told, refused, b"write ", line.as_slice())
}

fn respelled<'a>(alloc: Global, refused: Refused<'a>) -> Result<Vec<&'a [u8]>, AllocError>
    ensures { IfOk result (λ line. seen_words line.items ≡ respelled (seen_refused refused.entry)) }
{
    let firsts = first_words(alloc, refused.forms)?;
    with_first(
        alloc,
        refused.words,
        near_among(word_of(refused.words, 0), firsts),
    )
}

/// Returns a line with another first word, or nothing if there is none.
fn with_first<'a>(
    alloc: Global,
    words: &[&'a [u8]],
    first: Option<&'a [u8]>,
) -> Result<Vec<&'a [u8]>, AllocError>
    ensures { IfOk result (λ line. seen_words line.items
        ≡ with_first (seen_words words.now) (option_map (λ first. first.now) first.entry)) }
{
    let mut line = Vec::new(alloc);
    if let Some(first) = first {
        line.push(first)?;
        line.extend_from_slice(from_place(words, 1))?;
    }
    Ok(line)
}

/// Returns the words with which forms begin.
pub(crate) fn first_words<'a>(
    alloc: Global,
    forms: &'static [&'static [Slot]],
) -> Result<Vec<&'a [u8]>, AllocError>
    ensures { IfOk result (λ words. seen_words words.items ≡ first_words (seen_rows forms.now)) }
{
    let mut words = Vec::new(alloc);
    push_first_words(&mut words, forms)?;
    Ok(words)
}

fn push_first_words<'a>(
    words: &mut Vec<&'a [u8]>,
    forms: &'static [&'static [Slot]],
) -> Result<(), AllocError>
    ensures { OnOk result (seen_words words.new.items
        ≡ seen_words words.old.items ++ first_words (seen_rows forms.now)) }
{
    match forms.split_first() {
        Some((row, rest)) => {
            push_first_word(words, row)?;
            push_first_words(words, rest)
        }
        None => Ok(()),
    }
}

fn push_first_word<'a>(words: &mut Vec<&'a [u8]>, row: &'static [Slot]) -> Result<(), AllocError>
    ensures { OnOk result (seen_words words.new.items ≡ seen_words words.old.items ++ first_word (seen_row row.now)) }
{
    if let Some(Slot::Fixed(text) | Slot::Keyword(text)) = row.first() {
        words.push(*text)?;
    }
    Ok(())
}
