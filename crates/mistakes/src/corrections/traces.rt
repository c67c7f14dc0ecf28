//! Lines of traces, given as those of a schedule, and pins without a place.
ghost use Rattle.std.specs.Prelude.{◌≡◌, ◌++◌, option_map, IfOk, OnOk};
ghost use Rattle.std.specs.List.{find};
ghost use Rattle.mistakes.specs.BenchLines.{is_among};
ghost use Rattle.mistakes.specs.BenchLists.{with_commas};
ghost use Rattle.mistakes.specs.SeenCorrections.{seen_refused, seen_words};
ghost use Rattle.mistakes.specs.TimingLines.{end_of_word, front_of, is_of_gate, is_of_rounds, lacks_place, pins_listed, pins_of, pins_rule, pins_told, trace_told, traced_step};
ghost use Rattle.texts.specs.Text.{code_lines};

use crate::bench_lines::{is_assignment, used_by};
use crate::corrections::accepted::{Refused, is_defined_by, word_of};
use crate::corrections::applying::{push_said_line, up_to};
use crate::corrections::first_words::first_words;
use crate::corrections::lists::push_with_commas;
use crate::corrections::right::push_right_told;
use std::alloc::{AllocError, Global};
use texts::{code_lines, number};

/// Adds the step with which a line of a trace begins, or that a line of one is no step.
#[tactic(auto, unfolding(crate::specs::TimingLines::trace_told))]
pub(crate) fn push_trace_told(
    alloc: Global,
    told: &mut Vec<u8>,
    refused: Refused<'_>,
) -> Result<(), AllocError>
    ensures { OnOk result (told.new.items ≡ told.old.items ++ trace_told (seen_refused refused.entry)) }
{
    if is_of_rounds(refused.words) {
        return told.extend_from_slice(b"a line of a trace that is no step: leave it out\n");
    }
    let step = traced_step(alloc, refused.words)?;
    push_right_told(
        told,
        refused,
        b"a line of a trace has more than its step: write ",
        step.as_slice(),
    )
}

/// Returns whether a line is `round N`, or `events N changes ..`.
fn is_of_rounds(words: &[&[u8]]) -> bool
    ensures { result ≡ is_of_rounds (seen_words words.now) }
{
    let first = word_of(words, 0);
    (first == b"round".as_slice()
        || (first == b"events".as_slice() && word_of(words, 2) == b"changes".as_slice()))
        && number(word_of(words, 1)).is_some()
}

/// Returns the step of `advance NAME TICK -> ..` or `deliver NAME PLACE: ..`, or nothing.
fn traced_step<'a>(alloc: Global, words: &[&'a [u8]]) -> Result<Vec<&'a [u8]>, AllocError>
    ensures { IfOk result (λ step. seen_words step.items ≡ traced_step (seen_words words.now)) }
{
    let (place, mark) = split_last_byte(word_of(words, 2));
    if word_of(words, 3) == b"->".as_slice() {
        Vec::from_slice(alloc, up_to(words, 2))
    } else if mark == b":".as_slice() {
        let mut step = Vec::from_slice(alloc, up_to(words, 2))?;
        step.push(place)?;
        Ok(step)
    } else {
        Ok(Vec::new(alloc))
    }
}

/// Returns a word without its last byte, and that byte.
fn split_last_byte(word: &[u8]) -> (&[u8], &[u8])
    ensures front { result.0.now ≡ front_of word.now }
    ensures end { result.1.now ≡ end_of_word word.now }
{
    word.split_at(word.len().saturating_sub(1))
}

/// Adds the pins of the net of a line, if the place of one is missing.
#[tactic(auto, unfolding(crate::specs::TimingLines::pins_told))]
pub(crate) fn push_pins_told(
    alloc: Global,
    told: &mut Vec<u8>,
    refused: Refused<'_>,
) -> Result<(), AllocError>
    ensures { OnOk result (told.new.items ≡ told.old.items ++ pins_told (seen_refused refused.entry)) }
{
    if !lacks_place(alloc, refused)? {
        return Ok(());
    }
    let pins = pins_of(alloc, word_of(refused.words, 1), refused.circuit)?;
    push_pins_listed(alloc, told, pins.as_slice())
}

/// Returns whether a line is `deliver NAME` or `wire NAME`, where its text has such lines, without a number after it.
fn lacks_place(alloc: Global, refused: Refused<'_>) -> Result<bool, AllocError>
    ensures { IfOk result (λ lacks. lacks ≡ lacks_place (seen_refused refused.entry)) }
{
    let first = word_of(refused.words, 0);
    let firsts = first_words(alloc, refused.forms)?;
    Ok(
        (first == b"deliver".as_slice() || first == b"wire".as_slice())
            && is_one_of(firsts.as_slice(), first)
            && number(word_of(refused.words, 2)).is_none(),
    )
}

fn is_one_of(words: &[&[u8]], word: &[u8]) -> bool
    ensures { result ≡ is_among (seen_words words.now) word.now }
{
    match words.split_first() {
        Some((first, rest)) => word == *first || is_one_of(rest, word),
        None => false,
    }
}

/// Returns the pins of a net, by the first line that defines it by a gate or a flip-flop.
fn pins_of<'a>(alloc: Global, net: &[u8], circuit: &'a [u8]) -> Result<Vec<&'a [u8]>, AllocError>
    ensures { IfOk result (λ pins. seen_words pins.items ≡ pins_of net.now circuit.now) }
{
    match gate_line(net, circuit) {
        Some((_, code)) => used_by(alloc, code),
        None => Ok(Vec::new(alloc)),
    }
}

fn gate_line<'a>(net: &[u8], circuit: &'a [u8]) -> Option<(u64, &'a [u8])>
    ensures { option_map (λ line. (line.0, line.1.now)) result ≡ find (is_of_gate net.now) (code_lines circuit.now) }
{
    code_lines(circuit).find(|line| is_of_gate(net, line.1))
}

/// Returns whether a line without its comment defines a net by a gate or a flip-flop.
fn is_of_gate(net: &[u8], code: &[u8]) -> bool
    ensures { result ≡ is_of_gate net.now (0, code.now) }
{
    is_assignment(code) && is_defined_by(net, code)
}

#[tactic(auto, unfolding(crate::specs::TimingLines::pins_listed))]
fn push_pins_listed(alloc: Global, told: &mut Vec<u8>, pins: &[&[u8]]) -> Result<(), AllocError>
    ensures { OnOk result (told.new.items ≡ told.old.items ++ pins_listed (seen_words pins.now)) }
{
    if pins.is_empty() {
        return Ok(());
    }
    let line = listed(alloc, pins)?;
    push_said_line(told, pins_rule(), line.as_slice())
}

#[tactic(auto, unfolding(crate::specs::TimingLines::pins_rule))]
fn pins_rule() -> &'static [u8]
    ensures { result.now ≡ pins_rule }
{
    b"the pins of the net, from place 0 on: "
}

/// Returns words with commas between them.
fn listed<'a>(alloc: Global, words: &[&'a [u8]]) -> Result<Vec<&'a [u8]>, AllocError>
    ensures { IfOk result (λ line. seen_words line.items ≡ with_commas (seen_words words.now)) }
{
    let mut line = Vec::new(alloc);
    push_with_commas(&mut line, words)?;
    Ok(line)
}
