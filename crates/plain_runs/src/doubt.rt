//! Lines of texts that are accepted and look like mistakes.
ghost use Rattle.std.specs.Prelude.{◌≡◌, ℕ, ◌<◌, ◌==◌, ◌++◌, false, List, [], length, map, option_map, IfOk, IfSome, OnOk};
ghost use Rattle.std.specs.Option.{option_map_or};
ghost use Rattle.texts.specs.Text.{lines_of, words_of};
ghost use Rattle.plain_runs.specs.Lines.{after_byte, are_value, closed_values, comment_of, delay_name, delayed_in_comment, doubtful_numbers, hides_word, is_among, is_comment, gives_delay, MarkDelayed, is_doubtful, is_undriven_name, is_value, lacks_delay, name_beside, name_in_comment, stimulus_name, values};
ghost use Rattle.plain_runs.specs.Text.{doubt_note};

use crate::remark::is_undriven;
use crate::text::push_lines_note;
use design::Design;
use std::alloc::{AllocError, Global};
use texts::{code_of, first_place, has_words, number, split_word, white_len};

/// What is doubtful about a line.
#[derive(Clone, Copy)]
pub(crate) enum Doubt {
    /// Its comment has a word after a carriage return, which ends no line.
    HiddenWord,
    /// It is a comment, and would be a stimulus for an input that has none.
    Stimulus,
    /// It is a comment, and would be a delay for a gate or a flip-flop to which no line gives one.
    Delay,
}

/// Adds the line that says this of the doubtful lines of a text.
pub(crate) fn push_doubt(
    alloc: Global,
    notes: &mut Vec<u8>,
    design: &Design,
    words: &str,
    text: &[u8],
    doubt: Doubt,
) -> Result<(), AllocError>
    ensures { OnOk result (notes.new.items ≡ notes.old.items ++ doubt_note words.now doubt design.now text.now) }
{
    let lines = lines_of(alloc, text)?;
    let delayed = match doubt {
        Doubt::Delay => delayed_nets(alloc, design, lines.as_slice())?,
        _ => Vec::new(alloc),
    };
    let numbers = doubtful_numbers(alloc, design, lines.as_slice(), delayed.as_slice(), doubt)?;
    push_lines_note(notes, words, numbers.as_slice())
}

/// Returns the lines of a text.
fn lines_of(alloc: Global, text: &[u8]) -> Result<Vec<&[u8]>, AllocError>
    ensures { IfOk result (λ lines. map (λ line. line.now) lines.items ≡ lines_of text.now) }
{
    text.split(|byte| *byte == b'\n').collect(alloc)
}

/// Returns the marks of the nets to which these lines give delays.
fn delayed_nets(alloc: Global, design: &Design, lines: &[&[u8]]) -> Result<Vec<bool>, AllocError>
    ensures { IfOk result (λ marks. MarkDelayed design.now (map (λ line. line.now) lines.now) marks.items) }
{
    let mut marks = vec![in alloc; false; design.nets() as usize]?;
    for line in lines {
        if let Some(net) = net_delayed_in(design, line) {
            marks[net as usize] = true;
        }
    }
    Ok(marks)
}

/// Returns the number of the net to which a line gives a delay.
fn net_delayed_in(design: &Design, line: &[u8]) -> Option<u32>
    ensures within { IfSome result (λ net. net < length design.now.circuit) }
    ensures gives { (net : ℕ) → gives_delay design.now net line.now ≡ option_map_or (λ given. given == net) result false }
{
    design.find(delay_name(code_of(line))?)
}

/// Returns the numbers of the doubtful ones of these lines, from 1, in rising order, given the marks of the nets to
/// which they give delays.
fn doubtful_numbers(
    alloc: Global,
    design: &Design,
    lines: &[&[u8]],
    delayed: &[bool],
    doubt: Doubt,
) -> Result<Vec<u64>, AllocError>
    requires { doubt ≡ Doubt.Delay → MarkDelayed design.now (map (λ line. line.now) lines.now) delayed.now }
    ensures { IfOk result (λ numbers. numbers.items
        ≡ doubtful_numbers doubt design.now (map (λ line. line.now) lines.now)) }
{
    let mut numbers = Vec::new(alloc);
    for place in 0..lines.len() {
        if doubt.is_about(design, delayed, lines[place]) {
            numbers.push(place as u64 + 1)?;
        }
    }
    Ok(numbers)
}

impl Doubt {
    /// Returns whether a line is doubtful for this, given the marks of the nets to which the lines around it give
    /// delays.
    fn is_about(self, design: &Design, delayed: &[bool], line: &[u8]) -> bool
        ensures { (lines : List (List ℕ)) → (self ≡ Doubt.Delay → MarkDelayed design.now lines delayed.now) →
            result ≡ is_doubtful self design.now lines line.now }
    {
        match self {
            Doubt::HiddenWord => hides_word(line),
            Doubt::Stimulus => is_missing_stimulus(design, line),
            Doubt::Delay => is_missing_delay(design, delayed, line),
        }
    }
}

/// Returns whether the comment of a line has a word after a carriage return.
fn hides_word(line: &[u8]) -> bool
    ensures { result ≡ hides_word line.now }
{
    has_words(after_byte(comment_of(line), b'\r'))
}

/// Returns whether a line is a comment, and would be a stimulus for an input that has none.
fn is_missing_stimulus(design: &Design, line: &[u8]) -> bool
    ensures { result ≡ is_doubtful Doubt.Stimulus design.now [] line.now }
{
    match name_in_comment(line) {
        Some(name) => is_undriven_name(design, name),
        None => false,
    }
}

/// Returns whether a line is a comment, and would be a delay for a gate or a flip-flop that isn't marked.
fn is_missing_delay(design: &Design, delayed: &[bool], line: &[u8]) -> bool
    ensures { (lines : List (List ℕ)) → MarkDelayed design.now lines delayed.now →
        result ≡ is_doubtful Doubt.Delay design.now lines line.now }
{
    match delayed_in_comment(line) {
        Some(name) => lacks_delay(design, delayed, name),
        None => false,
    }
}

/// Returns whether a name is that of a gate or a flip-flop that isn't marked.
fn lacks_delay(design: &Design, delayed: &[bool], name: &[u8]) -> bool
    ensures { (lines : List (List ℕ)) → MarkDelayed design.now lines delayed.now →
        result ≡ lacks_delay design.now lines name.now }
{
    prove!(design.nets() > 0);
    match design.find(name) {
        Some(net) => !design.part(net).is_input() && delayed.get(net as usize) == Some(&false),
        None => false,
    }
}

/// Returns the name in the delay that is the comment of a line, if it is one.
fn delayed_in_comment(line: &[u8]) -> Option<&[u8]>
    ensures { option_map (λ name. name.now) result ≡ delayed_in_comment line.now }
{
    if is_comment(line) {
        delay_name(comment_of(line))
    } else {
        None
    }
}

/// Returns the name in `NAME TICKS`, `delay NAME TICKS` or `NAME = TICKS`.
fn delay_name(text: &[u8]) -> Option<&[u8]>
    ensures { option_map (λ name. name.now) result ≡ delay_name (words_of text.now) }
{
    let (first, after) = split_word(text)?;
    let (second, after) = split_word(after)?;
    match split_word(after) {
        None => if number(second).is_some() {
            Some(first)
        } else {
            None
        },
        Some((third, after)) => if number(third).is_some() && !has_words(after) {
            name_beside(first, second)
        } else {
            None
        },
    }
}

/// Returns the name in `delay NAME` or `NAME =`.
fn name_beside<'a>(first: &'a [u8], second: &'a [u8]) -> Option<&'a [u8]>
    ensures { option_map (λ name. name.now) result ≡ name_beside first.now second.now }
{
    if first == b"delay".as_slice() {
        Some(second)
    } else if second == b"=".as_slice() {
        Some(first)
    } else {
        None
    }
}

/// Returns whether a name is that of an input without a stimulus.
fn is_undriven_name(design: &Design, name: &[u8]) -> bool
    ensures { result ≡ is_undriven_name design.now name.now }
{
    prove!(design.nets() > 0);
    match design.find(name) {
        Some(net) => is_undriven(design, net),
        None => false,
    }
}

/// Returns the name in the stimulus that is the comment of a line, if it is one.
fn name_in_comment(line: &[u8]) -> Option<&[u8]>
    ensures { option_map (λ name. name.now) result ≡ name_in_comment line.now }
{
    if is_comment(line) {
        stimulus_name(comment_of(line))
    } else {
        None
    }
}

/// Returns whether a line is a comment, without white space after `#`.
fn is_comment(line: &[u8]) -> bool
    ensures { result ≡ is_comment line.now }
{
    !has_words(code_of(line)) && white_len(comment_of(line)) == 0
}

/// Returns the name in a number, a name and a value.
fn stimulus_name(text: &[u8]) -> Option<&[u8]>
    ensures { option_map (λ name. name.now) result ≡ stimulus_name (words_of text.now) }
{
    let (tick, after) = split_word(text)?;
    let (name, after) = split_word(after)?;
    if number(tick).is_some() && are_value(after) {
        Some(name)
    } else {
        None
    }
}

/// Returns whether the words of a text are a value, or `=` and a value.
fn are_value(text: &[u8]) -> bool
    ensures { result ≡ are_value (words_of text.now) }
{
    let Some((first, after)) = split_word(text) else {
        return false;
    };
    match split_word(after) {
        None => is_value(first),
        Some((second, after)) => first == b"=".as_slice() && is_value(second) && !has_words(after),
    }
}

/// Returns whether a word is a value, or one with `;` after it.
fn is_value(word: &[u8]) -> bool
    ensures { result ≡ is_value word.now }
{
    is_bare_value(word) || is_closed_value(word)
}

fn is_bare_value(word: &[u8]) -> bool
    ensures { result ≡ is_among values word.now }
{
    word == b"0".as_slice()
        || word == b"1".as_slice()
        || word == b"x".as_slice()
        || word == b"X".as_slice()
}

fn is_closed_value(word: &[u8]) -> bool
    ensures { result ≡ is_among closed_values word.now }
{
    word == b"0;".as_slice()
        || word == b"1;".as_slice()
        || word == b"x;".as_slice()
        || word == b"X;".as_slice()
}

/// Returns what follows the first `#` of a line.
fn comment_of(line: &[u8]) -> &[u8]
    ensures { result.now ≡ comment_of line.now }
{
    after_byte(line, b'#')
}

/// Returns what follows the first such byte of a line.
fn after_byte(line: &[u8], byte: u8) -> &[u8]
    ensures { result.now ≡ after_byte byte line.now }
{
    let place = first_place(line, byte);
    if place < line.len() {
        &line[place + 1..]
    } else {
        &[]
    }
}
