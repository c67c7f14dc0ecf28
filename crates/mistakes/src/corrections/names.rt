//! .bench lines in which a name has white space.
ghost use Rattle.std.specs.Prelude.{◌≡◌, ◌++◌, OnOk};
ghost use Rattle.mistakes.specs.BenchNames.{is_form_word, may_be_name, may_be_names, names_if_taken, names_told, port_words, spaced_told, underscored};
ghost use Rattle.mistakes.specs.Corrections.{is_called};
ghost use Rattle.mistakes.specs.SeenCorrections.{seen_refused, seen_words};

use crate::corrections::accepted::{Refused, has_one_pin, has_pins, word_of};
use crate::corrections::applying::push_said_line;
use crate::corrections::lists::meets_word;
use crate::corrections::words::marked_words;
use std::alloc::{AllocError, Global};

/// Adds the line with a `_` between two words, if its reader takes it and the words may be parts of names.
pub(crate) fn push_spaced_told(
    alloc: Global,
    told: &mut Vec<u8>,
    refused: Refused<'_>,
) -> Result<(), AllocError>
    ensures { OnOk result (told.new.items ≡ told.old.items ++ spaced_told (seen_refused refused.entry)) }
{
    let mut code = Vec::new(alloc);
    push_underscored(&mut code, refused.words)?;
    let line = marked_words(alloc, code.as_slice())?;
    push_names_if_taken(told, refused, line.as_slice())
}

/// Adds words and marks without white space, with a `_` between two words.
fn push_underscored(code: &mut Vec<u8>, words: &[&[u8]]) -> Result<(), AllocError>
    ensures { OnOk result (code.new.items ≡ code.old.items ++ underscored (seen_words words.now)) }
{
    let Some((word, rest)) = words.split_first() else {
        return Ok(());
    };
    code.extend_from_slice(word)?;
    if meets_word(word, rest) {
        code.extend_from_slice(b"_")?;
    }
    push_underscored(code, rest)
}

#[tactic(auto, unfolding(crate::specs::BenchNames::names_if_taken))]
fn push_names_if_taken(
    told: &mut Vec<u8>,
    refused: Refused<'_>,
    line: &[&[u8]],
) -> Result<(), AllocError>
    ensures { OnOk result (told.new.items ≡ told.old.items ++ names_if_taken (seen_refused refused.entry) (seen_words line.now)) }
{
    if refused.is_accepted(line) && may_be_names(refused, refused.words) {
        push_names_told(told, line)
    } else {
        Ok(())
    }
}

#[tactic(auto, unfolding(crate::specs::BenchNames::names_told))]
fn push_names_told(told: &mut Vec<u8>, line: &[&[u8]]) -> Result<(), AllocError>
    ensures { OnOk result (told.new.items ≡ told.old.items ++ names_told (seen_words line.now)) }
{
    push_said_line(told, b"a name has no white space: write ", line)
}

/// Returns whether any two words without a mark between them may be parts of one name.
fn may_be_names(refused: Refused<'_>, words: &[&[u8]]) -> bool
    ensures { result ≡ may_be_names (seen_refused refused.entry) (seen_words words.now) }
{
    match words.split_first() {
        Some((word, rest)) => (!meets_word(word, rest)
            || may_be_name(refused, word, word_of(rest, 0)))
            && may_be_names(refused, rest),
        None => true,
    }
}

/// Returns whether two words may be parts of one name: the first is no word of a form, and the second is no net.
fn may_be_name(refused: Refused<'_>, word: &[u8], after: &[u8]) -> bool
    ensures { result ≡ may_be_name (seen_refused refused.entry) word.now after.now }
{
    !(is_form_word(word) || refused.has_net(after))
}

/// Returns whether a word is `INPUT`, `OUTPUT` or a gate word, in any case of its letters.
fn is_form_word(word: &[u8]) -> bool
    ensures { result ≡ is_form_word word.now }
{
    is_port_word(word) || has_one_pin(word) || has_pins(word)
}

fn is_port_word(word: &[u8]) -> bool
    ensures { result ≡ is_called port_words word.now }
{
    word.eq_ignore_ascii_case(b"INPUT") || word.eq_ignore_ascii_case(b"OUTPUT")
}
