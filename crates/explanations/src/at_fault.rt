//! The message about the word at fault.
ghost use Rattle.std.specs.Prelude.{◌≡◌, ◌++◌, option_map, None, OnOk};
ghost use Rattle.std.specs.List.{find, last_or};
ghost use Rattle.mistakes.specs.BenchLines.{is_among};
ghost use Rattle.explanations.specs.AtFault.{at_fault, at_fault_in, bench_word, earlier_line, is_unplain, of_nets, of_repeats, of_thirds, quoted_told, too, topic_of, undefined_told, word_at_fault, word_told};
ghost use Rattle.texts.specs.Text.{words_of};

use crate::above::line_above;
use crate::excerpt::{push_line, push_shown};
use crate::topic::{topic_of, word_at};
use crate::undefined::undefined_in;
use mistakes::{Subject, line_at, long_net, nth_name};
use std::alloc::{AllocError, Global};
use texts::{code_of, is_plain, words_of};

/// Adds the message about the word at fault, if the text is known and has the line with this number.
pub(crate) fn push_at_fault(
    alloc: Global,
    told: &mut Vec<u8>,
    subject: Subject,
    name: &str,
    number: u64,
    text: Option<&[u8]>,
) -> Result<(), AllocError>
    ensures { OnOk result (told.new.items ≡ told.old.items
        ++ at_fault subject name.now number (option_map (λ text. text.now) text.entry)) }
{
    let Some(text) = text else {
        return Ok(());
    };
    let Some(line) = line_at(text, number) else {
        return Ok(());
    };
    push_at_fault_in(alloc, told, subject, name, number, text, code_of(line))
}

/// Adds the message about the word at fault in a line, without its comment, of a text.
fn push_at_fault_in(
    alloc: Global,
    told: &mut Vec<u8>,
    subject: Subject,
    name: &str,
    number: u64,
    text: &[u8],
    code: &[u8],
) -> Result<(), AllocError>
    ensures { OnOk result (told.new.items ≡ told.old.items
        ++ at_fault_in subject name.now number text.now code.now) }
{
    if is_of_repeats(name) {
        push_earlier(alloc, told, subject, number, text, code)
    } else if name == "Undefined" {
        push_undefined(told, undefined_in(alloc, code, text)?)
    } else {
        push_word(told, b"given: ", word_at_fault(subject, name, code))
    }
}

/// Adds the earlier line with the same topic, if any.
fn push_earlier(
    alloc: Global,
    told: &mut Vec<u8>,
    subject: Subject,
    number: u64,
    text: &[u8],
    code: &[u8],
) -> Result<(), AllocError>
    ensures { OnOk result (told.new.items ≡ told.old.items
        ++ earlier_line subject number (topic_of subject code.now) text.now) }
{
    let other = line_above(subject, number, topic_of(subject, code), text);
    push_line(alloc, told, too(subject), other, line_at(text, other))
}

/// Returns the words for an earlier line with the same topic.
fn too(subject: Subject) -> &'static str
    ensures { result.now ≡ too subject }
{
    match subject {
        Subject::Bench => " already defines it: ",
        Subject::Stimuli => " is for the same input: ",
        _ => " already sets it: ",
    }
}

/// Returns whether a fault is about a line with the same topic as an earlier one.
fn is_of_repeats(name: &str) -> bool
    ensures { result ≡ is_among of_repeats name.now }
{
    name == "DefinedTwice" || name == "Twice" || name == "NotRising"
}

/// Returns whether a fault is about a net that doesn't exist, or isn't of the kind that is needed.
fn is_of_nets(name: &str) -> bool
    ensures { result ≡ is_among of_nets name.now }
{
    name == "UnknownNet" || name == "IsInput" || name == "NotAFlop" || name == "NotAnInput"
}

/// Returns whether a fault is about the third word of its line.
fn is_of_thirds(name: &str) -> bool
    ensures { result ≡ is_among of_thirds name.now }
{
    name == "BadPin" || name == "BadPeriod" || name == "BadValue"
}

/// Returns the word at fault, by its place in a line without its comment.
fn word_at_fault<'a>(subject: Subject, name: &str, code: &'a [u8]) -> Option<&'a [u8]>
    ensures { option_map (λ word. word.now) result ≡ word_at_fault subject name.now code.now }
{
    if is_of_nets(name) {
        Some(topic_of(subject, code).net)
    } else if is_of_thirds(name) {
        word_at(code, 2)
    } else if name == "BadPhase" {
        word_at(code, 3)
    } else if name == "BadTicks" {
        last_word(code)
    } else if name == "TickTooLarge" {
        word_at(code, 0)
    } else {
        bench_word(name, code)
    }
}

/// Does the same for faults of .bench lines.
fn bench_word<'a>(name: &str, code: &'a [u8]) -> Option<&'a [u8]>
    ensures { option_map (λ word. word.now) result ≡ bench_word name.now code.now }
{
    if name == "UnknownGate" {
        nth_name(code, 1)
    } else if name == "NameTooLong" {
        long_net(code)
    } else if name == "BadByte" {
        unplain_word(code)
    } else {
        None
    }
}

/// Returns the last word of a line.
fn last_word(code: &[u8]) -> Option<&[u8]>
    ensures { option_map (λ word. word.now) result ≡ last_or None (words_of code.now) }
{
    words_of(code).last()
}

/// Returns the first word of a line with a byte that isn't printable.
fn unplain_word(code: &[u8]) -> Option<&[u8]>
    ensures { option_map (λ word. word.now) result ≡ find is_unplain (words_of code.now) }
{
    words_of(code).find(|word| !is_plain(word))
}

/// Adds that no line defines a name, if there is such a name.
fn push_undefined(told: &mut Vec<u8>, name: Option<&[u8]>) -> Result<(), AllocError>
    ensures { OnOk result (told.new.items ≡ told.old.items
        ++ undefined_told (option_map (λ name. name.now) name.entry)) }
{
    match name {
        Some(name) => push_quoted(told, b"no line defines ", name),
        None => Ok(()),
    }
}

/// Adds the message about a name, the name in quotes, and a line feed.
pub(crate) fn push_quoted(told: &mut Vec<u8>, said: &[u8], name: &[u8]) -> Result<(), AllocError>
    ensures { OnOk result (told.new.items ≡ told.old.items ++ quoted_told said.now name.now) }
{
    told.extend_from_slice(said)?;
    told.push(b'\'')?;
    push_shown(told, name)?;
    told.extend_from_slice(b"'\n")
}

/// Adds the message about a word, the word, and a line feed, if there is a word.
pub(crate) fn push_word(
    told: &mut Vec<u8>,
    said: &[u8],
    word: Option<&[u8]>,
) -> Result<(), AllocError>
    ensures { OnOk result (told.new.items ≡ told.old.items
        ++ word_told said.now (option_map (λ word. word.now) word.entry)) }
{
    let Some(word) = word else {
        return Ok(());
    };
    told.extend_from_slice(said)?;
    push_shown(told, word)?;
    told.push(b'\n')?;
    Ok(())
}
