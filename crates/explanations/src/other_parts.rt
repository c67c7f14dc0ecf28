//! Parts of circuits that other tools have, and what to write instead.
ghost use Rattle.std.specs.Prelude.{◌≡◌, ◌++◌, codes, option_map, IfOk, OnOk};
ghost use Rattle.std.specs.Str.{str_eq_ignore_ascii_case};
ghost use Rattle.explanations.specs.Excerpt.{shown_line};
ghost use Rattle.explanations.specs.OtherParts.{begins_called, clock_pin, constant_of, constant_or_digit, constant_text, input_text, is_table, is_table_at_fault, is_with_reset, lone_word, other_part, part_at_fault, part_line, part_of_line, part_of_word, part_text, stimulus_text};

use crate::excerpt::push_shown;
use mistakes::{Subject, is_assignment, nth_name, up_to};
use std::alloc::{AllocError, Global};
use texts::code_of;

/// A part that a line of a .bench text asks for, and that there isn't.
#[derive(Clone, Copy, Debug, PartialEq, Eq)]
pub enum OtherPart {
    Multiplexer,
    Latch,
    /// A flip-flop with set, reset or enable.
    WithReset,
    /// A flip-flop with a pin for its clock.
    ClockPin,
    /// A look-up table.
    Table,
    /// The constant 0.
    Zero,
    /// The constant 1.
    One,
}

/// Returns the part that a line, without its comment, asks for, by the name of its fault.
fn other_part(name: &str, code: &[u8]) -> Option<OtherPart>
    ensures { result ≡ other_part name.now code.now }
{
    match name {
        "UnknownGate" => part_of_word(nth_name(code, 1).unwrap_or(b"")),
        "BadLine" => part_of_line(code),
        "BadArity" => clock_pin(code),
        _ => None,
    }
}

/// Returns the part that a word names in the place of a gate word.
fn part_of_word(word: &[u8]) -> Option<OtherPart>
    ensures { result ≡ part_of_word word.now }
{
    if begins_called(word, "MUX") {
        Some(OtherPart::Multiplexer)
    } else if is_called(word, "LATCH") || is_called(word, "DLATCH") {
        Some(OtherPart::Latch)
    } else if is_with_reset(word) {
        Some(OtherPart::WithReset)
    } else {
        constant_of(word)
    }
}

fn is_with_reset(word: &[u8]) -> bool
    ensures { result ≡ is_with_reset word.now }
{
    (begins_called(word, "DFF") && word.len() > 3) || begins_called(word, "SDFF")
}

/// Returns the constant that a word names.
fn constant_of(word: &[u8]) -> Option<OtherPart>
    ensures { result ≡ constant_of word.now }
{
    if is_called(word, "gnd") || is_called(word, "vss") || is_called(word, "tie0") {
        Some(OtherPart::Zero)
    } else if is_called(word, "vdd") || is_called(word, "vcc") || is_called(word, "tie1") {
        Some(OtherPart::One)
    } else {
        None
    }
}

/// Returns the constant that a word or a digit names.
pub(crate) fn constant_or_digit(word: &[u8]) -> Option<OtherPart>
    ensures { result ≡ constant_or_digit word.now }
{
    if word == b"0".as_slice() {
        Some(OtherPart::Zero)
    } else if word == b"1".as_slice() {
        Some(OtherPart::One)
    } else {
        constant_of(word)
    }
}

/// Returns the part that a line without a form asks for.
fn part_of_line(code: &[u8]) -> Option<OtherPart>
    ensures { result ≡ part_of_line code.now }
{
    if is_table(code) {
        Some(OtherPart::Table)
    } else {
        constant_or_digit(lone_word(code))
    }
}

fn is_table(code: &[u8]) -> bool
    ensures { result ≡ is_table code.now }
{
    is_assignment(code)
        && is_called(nth_name(code, 1).unwrap_or(b""), "LUT")
        && nth_name(code, 2).unwrap_or(b"").starts_with(b"0x")
}

/// Returns the word of a line that assigns only a word, and otherwise nothing.
fn lone_word(code: &[u8]) -> &[u8]
    ensures { result.now ≡ lone_word code.now }
{
    if is_assignment(code) && nth_name(code, 2).is_none() {
        nth_name(code, 1).unwrap_or(b"")
    } else {
        b""
    }
}

/// Returns the clock of a flip-flop among the pins of a line that has too many or too few.
fn clock_pin(code: &[u8]) -> Option<OtherPart>
    ensures { result ≡ clock_pin code.now }
{
    if is_called(nth_name(code, 1).unwrap_or(b""), "DFF") {
        Some(OtherPart::ClockPin)
    } else {
        None
    }
}

fn is_called(word: &[u8], name: &str) -> bool
    ensures { result ≡ str_eq_ignore_ascii_case word.now name.now }
{
    word.eq_ignore_ascii_case(name.as_bytes())
}

/// Returns whether a word begins with a name, in any case of its letters.
fn begins_called(word: &[u8], name: &str) -> bool
    ensures { result ≡ begins_called word.now name.now }
{
    up_to(word, name.len()).eq_ignore_ascii_case(name.as_bytes())
}

/// Returns what to write instead of the part that a line asks for, if the line is one of a circuit and there isn't
/// such a part. Otherwise the message is empty.
#[tactic(auto, unfolding(crate::specs::OtherParts::part_at_fault))]
pub(crate) fn part_at_fault(
    alloc: Global,
    subject: Subject,
    name: &str,
    line: Option<&[u8]>,
) -> Result<Vec<u8>, AllocError>
    ensures { IfOk result (λ told. told.items
        ≡ part_at_fault subject name.now (option_map (λ line. line.now) line.entry)) }
{
    match (subject, line) {
        (Subject::Bench, Some(line)) => part_in(alloc, name, code_of(line)),
        _ => Ok(Vec::new(alloc)),
    }
}

/// Returns whether a line is one of a circuit, and asks for a look-up table.
pub(crate) fn is_table_at_fault(subject: Subject, line: Option<&[u8]>) -> bool
    ensures { result ≡ is_table_at_fault subject (option_map (λ line. line.now) line.entry) }
{
    match (subject, line) {
        (Subject::Bench, Some(line)) => is_table(code_of(line)),
        _ => false,
    }
}

fn part_in(alloc: Global, name: &str, code: &[u8]) -> Result<Vec<u8>, AllocError>
    ensures { IfOk result (λ told. told.items ≡ part_line name.now code.now) }
{
    let mut told = Vec::new(alloc);
    push_part_line(&mut told, name, code)?;
    Ok(told)
}

/// Adds what to write instead of the part that a line, without its comment, asks for, if there isn't such a part.
fn push_part_line(told: &mut Vec<u8>, name: &str, code: &[u8]) -> Result<(), AllocError>
    ensures { OnOk result (told.new.items ≡ told.old.items ++ part_line name.now code.now) }
{
    match other_part(name, code) {
        Some(part) => push_part(told, part, nth_name(code, 0).unwrap_or(b"")),
        None => Ok(()),
    }
}

/// Adds what to write instead of a part that drives a net.
fn push_part(told: &mut Vec<u8>, part: OtherPart, net: &[u8]) -> Result<(), AllocError>
    ensures { OnOk result (told.new.items ≡ told.old.items ++ part_text part net.now) }
{
    match part {
        OtherPart::Multiplexer => told.extend_from_slice(
            b"there is no multiplexer; these gates, each on its line, show a where s is 0, and b where s is 1:\n\
              n = NOT(s), p = AND(a, n), r = AND(b, s), y = OR(p, r)\n",
        ),
        OtherPart::Latch => told.extend_from_slice(
            b"there is no latch; these gates, each on its line, follow d while g is 1, and hold while it is 0:\n\
              n = NOT(d), s = NAND(d, g), r = NAND(n, g), q = NAND(s, m), m = NAND(r, q)\n",
        ),
        OtherPart::WithReset => told.extend_from_slice(
            b"a DFF has neither set, reset nor enable: build them with gates before its pin\n\
              an init line of a delay text gives its first value\n",
        ),
        OtherPart::ClockPin => told.extend_from_slice(
            b"a DFF takes one pin, the data; its clock is implicit\n\
              --period N gives it, or a clock line of a delay text of version 2\n",
        ),
        OtherPart::Table => {
            told.extend_from_slice(
                b"there are no look-up tables; ABC writes gates by write_bench -l\n",
            )
        }
        OtherPart::Zero => push_constant(told, net, "0"),
        OtherPart::One => push_constant(told, net, "1"),
    }
}

/// Adds the input and the stimulus to write instead of a constant.
fn push_constant(told: &mut Vec<u8>, net: &[u8], value: &str) -> Result<(), AllocError>
    ensures { OnOk result (told.new.items ≡ told.old.items ++ constant_text net.now value.now) }
{
    told.extend_from_slice(b"there are no constants\n")?;
    push_input(told, net)?;
    push_stimulus(told, net, value)
}

fn push_input(told: &mut Vec<u8>, net: &[u8]) -> Result<(), AllocError>
    ensures { OnOk result (told.new.items ≡ told.old.items ++ input_text net.now) }
{
    push_net(told, "an input stands for one: INPUT(", net)
}

/// Adds a text and the name of a net.
pub(crate) fn push_net(told: &mut Vec<u8>, said: &str, net: &[u8]) -> Result<(), AllocError>
    ensures { OnOk result (told.new.items ≡ told.old.items ++ said.now ++ shown_line net.now) }
{
    told.extend_from_slice(said.as_bytes())?;
    push_shown(told, net)
}

fn push_stimulus(told: &mut Vec<u8>, net: &[u8], value: &str) -> Result<(), AllocError>
    ensures { OnOk result (told.new.items ≡ told.old.items ++ stimulus_text net.now value.now) }
{
    push_net(told, ") in place of the line, and the stimulus 0 ", net)?;
    push_value(told, value)
}

/// Adds a space, a value and a line feed.
pub(crate) fn push_value(told: &mut Vec<u8>, value: &str) -> Result<(), AllocError>
    ensures { OnOk result (told.new.items ≡ told.old.items ++ codes " " ++ value.now ++ codes "\n") }
{
    told.push(b' ')?;
    told.extend_from_slice(value.as_bytes())?;
    told.push(b'\n')?;
    Ok(())
}
