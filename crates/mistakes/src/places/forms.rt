//! The forms of the lines of each text, as rows of slots.
ghost use Rattle.std.specs.Prelude.{◌≡◌};
ghost use Rattle.mistakes.specs.Forms.{deck_forms, delay_forms, forms_of, is_version_line};
ghost use Rattle.mistakes.specs.SeenForms.{seen_rows};
ghost use Rattle.texts.specs.Text.{code_lines, words_of};

use crate::places::slot::Slot;
use crate::subject::Subject;
use texts::{CodeLines, code_lines, words_of};

const NET: Slot = Slot::Word(b"NAME");

const VALUE: Slot = Slot::Word(b"VALUE, which is 0, 1, x or X");

const PLACE: Slot = Slot::Number(b"PLACE, a whole number");

const TICKS: Slot = Slot::Number(b"TICKS, a whole number of 1 to 1000000");

/// `INPUT(NAME)`, `OUTPUT(NAME)`, `NAME = GATE()` and `NAME = GATE(NAME, NAME)`.
static BENCH: [&[Slot]; 4] = [
    &[
        Slot::Keyword(b"INPUT"),
        Slot::Fixed(b"("),
        Slot::Name,
        Slot::Fixed(b")"),
        Slot::End,
    ],
    &[
        Slot::Keyword(b"OUTPUT"),
        Slot::Fixed(b"("),
        Slot::Name,
        Slot::Fixed(b")"),
        Slot::End,
    ],
    &[
        Slot::Name,
        Slot::Fixed(b"="),
        Slot::Gate,
        Slot::Fixed(b"("),
        Slot::Fixed(b")"),
        Slot::End,
    ],
    &[
        Slot::Name,
        Slot::Fixed(b"="),
        Slot::Gate,
        Slot::Fixed(b"("),
        Slot::Name,
        Slot::More,
    ],
];

/// The first line with words of a delay text: `timing version 2`, or `NAME TICKS`.
static FIRST_DELAY: [&[Slot]; 2] = [
    &[
        Slot::Fixed(b"timing"),
        Slot::Fixed(b"version"),
        Slot::Fixed(b"2"),
        Slot::End,
    ],
    &[NET, TICKS, Slot::End],
];

/// `NAME TICKS`.
static FIRST_VERSION: [&[Slot]; 1] = [&[NET, TICKS, Slot::End]];

/// The four forms of version 2.
static SECOND_VERSION: [&[Slot]; 4] = [
    &[Slot::Fixed(b"delay"), NET, TICKS, Slot::End],
    &[
        Slot::Fixed(b"clock"),
        NET,
        Slot::Number(b"PERIOD, a whole number of 1 to 10000000"),
        Slot::Number(b"PHASE, a whole number below PERIOD"),
        Slot::End,
    ],
    &[Slot::Fixed(b"init"), NET, VALUE, Slot::End],
    &[
        Slot::Fixed(b"wire"),
        NET,
        PLACE,
        Slot::Number(b"TICKS, a whole number of 0 to 1000000"),
        Slot::End,
    ],
];

/// `TICK NAME VALUE`.
static STIMULI: [&[Slot]; 1] = [&[
    Slot::Number(b"TICK, a whole number of 0 to 10000000"),
    NET,
    VALUE,
    Slot::End,
]];

/// `advance NAME` and `deliver NAME PLACE`.
static SCHEDULE: [&[Slot]; 2] = [
    &[Slot::Fixed(b"advance"), NET, Slot::End],
    &[Slot::Fixed(b"deliver"), NET, PLACE, Slot::End],
];

/// `%nullsim` and the horizon.
static DECK: [&[Slot]; 1] = [&[
    Slot::Fixed(b"%nullsim"),
    Slot::Number(b"the horizon, a whole number of 0 to 10000000"),
    Slot::End,
]];

/// Returns the forms that the line with this number of a text may have.
pub(crate) fn forms_of(subject: Subject, line: u64, text: &[u8]) -> &'static [&'static [Slot]]
    ensures { seen_rows result.now ≡ forms_of subject line text.now }
{
    match subject {
        Subject::Bench => &BENCH,
        Subject::Delays => delay_forms(line, code_lines(text)),
        Subject::Stimuli => &STIMULI,
        Subject::Schedule => &SCHEDULE,
        Subject::Deck => deck_forms(line),
        _ => &[],
    }
}

fn deck_forms(line: u64) -> &'static [&'static [Slot]]
    ensures { seen_rows result.now ≡ deck_forms line }
{
    if line == 1 { &DECK } else { &[] }
}

/// Does the same for a delay text, by its lines with words.
fn delay_forms(line: u64, mut lines: CodeLines<'_>) -> &'static [&'static [Slot]]
    ensures { seen_rows result.now ≡ delay_forms line lines.entry }
{
    match lines.next() {
        Some((first, _)) if first == line => &FIRST_DELAY,
        Some((_, code)) if is_version_line(code) => &SECOND_VERSION,
        _ => &FIRST_VERSION,
    }
}

/// Returns whether a line is `timing version 2`.
fn is_version_line(code: &[u8]) -> bool
    ensures { result ≡ is_version_line (words_of code.now) }
{
    let mut words = words_of(code);
    match (words.next(), words.next(), words.next(), words.next()) {
        (Some(timing), Some(version), Some(two), None) => timing == b"timing".as_slice()
            && version == b"version".as_slice()
            && two == b"2".as_slice(),
        _ => false,
    }
}
