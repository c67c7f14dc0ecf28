//! Whether a reader takes a line, by its words and marks.
ghost use Rattle.std.specs.Prelude.{◌≡◌, ◌<◌, ◌^◌};
ghost use Rattle.mistakes.specs.BenchLines.{defined_by, is_among, is_net};
ghost use Rattle.mistakes.specs.Corrections.{defines_suited, ends, fits, fits_some, has_net, is_accepted, is_called, is_in_range, is_statement, is_value, is_within, one_pin_gates, one_pin_row, other_delay_words, pins_gates, pins_row, port_rows, suits, word_of};
ghost use Rattle.mistakes.specs.SeenCorrections.{seen_refused, seen_words};
ghost use Rattle.mistakes.specs.SeenForms.{seen_row, seen_rows};
ghost use Rattle.texts.specs.Text.{code_lines};

use crate::bench_lines::{defined_by, is_assignment};
use crate::corrections::correction::{CLOSE, EQUALS, OPEN};
use crate::places::slot::{Slot, next};
use crate::subject::Subject;
use texts::{code_lines, number};

/// A line that none of its forms takes.
#[derive(Clone, Copy)]
pub(crate) struct Refused<'a> {
    pub(crate) subject: Subject,
    /// Its number, from 1.
    pub(crate) line: u64,
    /// The forms that the line may have.
    pub(crate) forms: &'static [&'static [Slot]],
    /// The .bench text.
    pub(crate) circuit: &'a [u8],
    /// The words and marks of the line.
    pub(crate) words: &'a [&'a [u8]],
}

/// `INPUT(NAME)` and `OUTPUT(NAME)`.
static PORTS: [&[Slot]; 2] = [
    &[Slot::Keyword(b"INPUT"), OPEN, Slot::Name, CLOSE, Slot::End],
    &[Slot::Keyword(b"OUTPUT"), OPEN, Slot::Name, CLOSE, Slot::End],
];

/// `NAME = GATE(NAME)`.
static ONE_PIN: [Slot; 7] = [
    Slot::Name,
    EQUALS,
    Slot::Gate,
    OPEN,
    Slot::Name,
    CLOSE,
    Slot::End,
];

/// `NAME = GATE(NAME, NAME)`.
static PINS: [Slot; 6] = [Slot::Name, EQUALS, Slot::Gate, OPEN, Slot::Name, Slot::More];

fn port_rows() -> &'static [&'static [Slot]]
    ensures { seen_rows result.now ≡ port_rows }
{
    &PORTS
}

fn one_pin_row() -> &'static [Slot]
    ensures { seen_row result.now ≡ one_pin_row }
{
    &ONE_PIN
}

fn pins_row() -> &'static [Slot]
    ensures { seen_row result.now ≡ pins_row }
{
    &PINS
}

/// Returns whether a .bench line has a gate word, and as many pins as the gate takes.
fn is_statement(words: &[&[u8]]) -> bool
    ensures { result ≡ is_statement (seen_words words.now) }
{
    fits_some(port_rows(), words)
        || (fits(one_pin_row(), words) && has_one_pin(word_of(words, 2)))
        || (fits(pins_row(), words) && has_pins(word_of(words, 2)))
}

/// Returns whether a word is that of a gate with one pin.
pub(crate) fn has_one_pin(word: &[u8]) -> bool
    ensures { result ≡ is_called one_pin_gates word.now }
{
    word.eq_ignore_ascii_case(b"NOT")
        || word.eq_ignore_ascii_case(b"INV")
        || word.eq_ignore_ascii_case(b"BUF")
        || word.eq_ignore_ascii_case(b"BUFF")
        || word.eq_ignore_ascii_case(b"DFF")
}

/// Returns whether a word is that of a gate with one pin or more.
pub(crate) fn has_pins(word: &[u8]) -> bool
    ensures { result ≡ is_called pins_gates word.now }
{
    word.eq_ignore_ascii_case(b"AND")
        || word.eq_ignore_ascii_case(b"NAND")
        || word.eq_ignore_ascii_case(b"OR")
        || word.eq_ignore_ascii_case(b"NOR")
        || word.eq_ignore_ascii_case(b"XOR")
        || word.eq_ignore_ascii_case(b"XNOR")
}

/// Returns whether a row takes each word and mark of a line, and ends after them.
pub(crate) fn fits(row: &'static [Slot], words: &[&[u8]]) -> bool
    ensures { result ≡ fits (seen_row row.now) (seen_words words.now) }
{
    match words.split_first() {
        Some((word, rest)) => match next(row, word) {
            Some(after) => fits(after, rest),
            None => false,
        },
        None => ends(row),
    }
}

fn ends(row: &[Slot]) -> bool
    ensures { result ≡ ends (seen_row row.now) }
{
    match row.first() {
        Some(slot) => slot.is_end(),
        None => false,
    }
}

/// Returns whether some row does.
pub(crate) fn fits_some(forms: &'static [&'static [Slot]], words: &[&[u8]]) -> bool
    ensures { result ≡ fits_some (seen_rows forms.now) (seen_words words.now) }
{
    match forms.split_first() {
        Some((row, rest)) => fits(row, words) || fits_some(rest, words),
        None => false,
    }
}

/// Returns whether a word is a number of a range.
fn is_within(least: u64, most: u64, word: &[u8]) -> bool
    requires { most < 2 ^ 63 }
    ensures { result ≡ is_within least most word.now }
{
    match number(word) {
        Some(number) => least <= number && number <= most,
        None => false,
    }
}

fn is_value(word: &[u8]) -> bool
    ensures { result ≡ is_value word.now }
{
    word == b"0".as_slice()
        || word == b"1".as_slice()
        || word == b"x".as_slice()
        || word == b"X".as_slice()
}

/// Returns the word at a place of a line, or nothing.
pub(crate) fn word_of<'a>(words: &[&'a [u8]], place: usize) -> &'a [u8]
    ensures { result.now ≡ word_of place (seen_words words.now) }
{
    match words.get(place) {
        Some(word) => word,
        None => b"",
    }
}

/// Returns whether the gate, the numbers and the values of a line with a form are such as its reader takes. A
/// delay line is `NAME TICKS` or `delay NAME TICKS`.
fn is_in_range(subject: Subject, words: &[&[u8]]) -> bool
    ensures { result ≡ is_in_range subject (seen_words words.now) }
{
    match subject {
        Subject::Bench => is_statement(words),
        Subject::Delays => !is_of_others(word_of(words, 0))
            && is_within(1, 1_000_000, word_of(words, words.len().saturating_sub(1))),
        Subject::Stimuli => is_within(0, 10_000_000, word_of(words, 0))
            && is_value(word_of(words, 2)),
        _ => true,
    }
}

/// Returns whether a delay line with this first word is never suggested.
fn is_of_others(word: &[u8]) -> bool
    ensures { result ≡ is_among other_delay_words word.now }
{
    word == b"clock".as_slice() || word == b"init".as_slice() || word == b"wire".as_slice()
}

impl<'a> Refused<'a> {
    /// Returns whether the reader takes these words and marks in place of the line.
    pub(crate) fn is_accepted(self, words: &[&[u8]]) -> bool
        ensures { result ≡ is_accepted (seen_refused self.entry) (seen_words words.now) }
    {
        fits_some(self.forms, words) && is_in_range(self.subject, words)
    }

    /// Returns whether a line of the circuit defines a net, and the text may name it.
    pub(crate) fn has_net(self, name: &[u8]) -> bool
        ensures { result ≡ has_net (seen_refused self.entry) name.now }
    {
        code_lines(self.circuit).any(|line| defines_suited(self.subject, name, line.1))
    }
}

/// Returns whether a line of a circuit defines a net that a text on a subject may name.
fn defines_suited(subject: Subject, name: &[u8], code: &[u8]) -> bool
    ensures { result ≡ defines_suited subject name.now (0, code.now) }
{
    suits(subject, code) && is_defined_by(name, code)
}

pub(crate) fn is_defined_by(name: &[u8], code: &[u8]) -> bool
    ensures { result ≡ is_net (defined_by code.now) name.now }
{
    match defined_by(code) {
        Some(net) => name == net,
        None => false,
    }
}

/// Returns whether a text on a subject may name the net that a line defines: stimuli are for inputs, delays for
/// gates and flip-flops, all else is for any net.
fn suits(subject: Subject, code: &[u8]) -> bool
    ensures { result ≡ suits subject code.now }
{
    match subject {
        Subject::Stimuli => !is_assignment(code),
        Subject::Delays => is_assignment(code),
        _ => true,
    }
}
