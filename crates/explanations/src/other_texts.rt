//! Lines of another text that nullsim reads.
ghost use Rattle.std.specs.Prelude.{◌≡◌, ◌++◌, ◌&&◌, option_map, IfOk, OnOk};
ghost use Rattle.std.specs.List.{list_any};
ghost use Rattle.texts.specs.Text.{code_lines};
ghost use Rattle.mistakes.specs.BenchLines.{is_among, is_assignment, is_net, nth_name};
ghost use Rattle.explanations.specs.OtherTexts.{drives, form_of, has_form_in, has_form_text, is_driven, is_port, is_stimulus, is_sure_delay, kind_of, kind_text, may_have_delays, needed_text, other_text, other_text_line, other_text_told, other_than, taken_by, values};

use crate::topic::word_at;
use crate::words::is;
use mistakes::{Subject, is_assignment, misplaced, nth_name};
use std::alloc::{AllocError, Global};
use texts::code_lines;

/// Adds the message about a refused line, without its comment, that has a form of another text than the one in
/// which it is, if it has. The circuit, if known, says which nets may have delays.
pub(crate) fn push_other_text(
    alloc: Global,
    told: &mut Vec<u8>,
    subject: Subject,
    circuit: Option<&[u8]>,
    code: &[u8],
) -> Result<(), AllocError>
    ensures { OnOk result (told.new.items ≡ told.old.items
        ++ other_text_line subject (option_map (λ circuit. circuit.now) circuit.entry) code.now) }
{
    match other_text(alloc, subject, circuit, code)? {
        Some(kind) => push_kind(alloc, told, subject, kind),
        None => Ok(()),
    }
}

/// Returns the kind of text of whose lines a line has the form, if it is another than that of its text.
fn other_text(
    alloc: Global,
    subject: Subject,
    circuit: Option<&[u8]>,
    code: &[u8],
) -> Result<Option<Subject>, AllocError>
    ensures { IfOk result (λ kind. kind ≡ other_text subject (option_map (λ circuit. circuit.now) circuit.entry) code.now) }
{
    match kind_of(alloc, subject, circuit, code)? {
        Some(kind) => Ok(other_than(subject, kind)),
        None => Ok(None),
    }
}

fn other_than(subject: Subject, kind: Subject) -> Option<Subject>
    ensures { result ≡ other_than subject kind }
{
    if kind.number() == subject.number() {
        None
    } else {
        Some(kind)
    }
}

/// Returns the kind of text of whose lines a line has the form.
fn kind_of(
    alloc: Global,
    subject: Subject,
    circuit: Option<&[u8]>,
    code: &[u8],
) -> Result<Option<Subject>, AllocError>
    ensures { IfOk result (λ kind. kind ≡ kind_of subject (option_map (λ circuit. circuit.now) circuit.entry) code.now) }
{
    if is_sure_delay(alloc, circuit, code)? {
        Ok(Some(Subject::Delays))
    } else if is_stimulus(alloc, code)? {
        Ok(Some(Subject::Stimuli))
    } else if has_form_in(alloc, Subject::Schedule, code)? {
        Ok(Some(Subject::Schedule))
    } else if has_form_in(alloc, Subject::Deck, code)? {
        Ok(Some(Subject::Deck))
    } else if has_form_in(alloc, Subject::Bench, code)? {
        Ok(Some(Subject::Bench))
    } else if may_have_delays(subject, code) && has_form_in(alloc, Subject::Delays, code)? {
        Ok(Some(Subject::Delays))
    } else {
        Ok(None)
    }
}

/// Returns whether a line has a form of a kind of text, of which it would be the only line.
pub(crate) fn has_form_in(alloc: Global, kind: Subject, code: &[u8]) -> Result<bool, AllocError>
    ensures { IfOk result (λ has. has ≡ has_form_in kind code.now) }
{
    let place = misplaced(alloc, kind, "BadLine", 1, Some(code))?;
    Ok(place.is_empty())
}

fn is_stimulus(alloc: Global, code: &[u8]) -> Result<bool, AllocError>
    ensures { IfOk result (λ is. is ≡ is_stimulus code.now) }
{
    let has_form = has_form_in(alloc, Subject::Stimuli, code)?;
    Ok(has_form && is_value(word_at(code, 2).unwrap_or(b"")))
}

/// Returns whether a word is the value of a stimulus.
fn is_value(word: &[u8]) -> bool
    ensures { result ≡ is_among values word.now }
{
    is(word, "0") || is(word, "1") || is(word, "x") || is(word, "X")
}

/// Returns whether a line is that of the version of a delay text, which alone has three words, or gives the delay of
/// a net that a gate or a flip-flop of the circuit drives.
fn is_sure_delay(alloc: Global, circuit: Option<&[u8]>, code: &[u8]) -> Result<bool, AllocError>
    ensures { IfOk result (λ is. is ≡ is_sure_delay (option_map (λ circuit. circuit.now) circuit.entry) code.now) }
{
    let has_form = has_form_in(alloc, Subject::Delays, code)?;
    Ok(
        has_form
            && (word_at(code, 2).is_some() || is_driven(circuit, word_at(code, 0).unwrap_or(b""))),
    )
}

/// Returns whether a gate or a flip-flop of the circuit, if known, drives a net.
fn is_driven(circuit: Option<&[u8]>, net: &[u8]) -> bool
    ensures { result ≡ is_driven (option_map (λ circuit. circuit.now) circuit.entry) net.now }
{
    match circuit {
        Some(circuit) => is_driven_in(circuit, net),
        None => false,
    }
}

fn is_driven_in(circuit: &[u8], net: &[u8]) -> bool
    ensures { result ≡ list_any (drives net.now) (code_lines circuit.now) }
{
    code_lines(circuit).any(|line| drives(net, line.1))
}

/// Returns whether a line without its comment defines a net by a gate or a flip-flop.
fn drives(net: &[u8], code: &[u8]) -> bool
    ensures { result ≡ (is_assignment code.now && is_net (nth_name 0 code.now) net.now) }
{
    match nth_name(code, 0) {
        Some(defined) => is_assignment(code) && net == defined,
        None => false,
    }
}

/// Returns whether a line of a text may be a delay by its form alone: only in place of a circuit, where none says
/// which nets there are. There `INPUT 1` isn't a delay, but an input without parentheses.
fn may_have_delays(subject: Subject, code: &[u8]) -> bool
    ensures { result ≡ may_have_delays subject code.now }
{
    match subject {
        Subject::Bench => !is_port(word_at(code, 0).unwrap_or(b"")),
        _ => false,
    }
}

/// Returns whether a word is INPUT or OUTPUT, in any case of its letters.
fn is_port(word: &[u8]) -> bool
    ensures { result ≡ is_port word.now }
{
    word.eq_ignore_ascii_case(b"INPUT") || word.eq_ignore_ascii_case(b"OUTPUT")
}

/// Adds the message about a line of a kind of text in one of another subject.
fn push_kind(
    alloc: Global,
    told: &mut Vec<u8>,
    subject: Subject,
    kind: Subject,
) -> Result<(), AllocError>
    ensures { OnOk result (told.new.items ≡ told.old.items ++ other_text_told subject kind) }
{
    push_has_form(told)?;
    push_title(alloc, told, kind)?;
    push_needed(alloc, told, subject)
}

#[tactic(auto, unfolding(crate::specs::OtherTexts::has_form_text))]
fn push_has_form(told: &mut Vec<u8>) -> Result<(), AllocError>
    ensures { OnOk result (told.new.items ≡ told.old.items ++ has_form_text) }
{
    told.extend_from_slice(b"this has the form of a line of a ")
}

/// Adds the title of a kind of text, and where such a text is given.
#[tactic(auto, unfolding(crate::specs::OtherTexts::kind_text))]
fn push_title(alloc: Global, told: &mut Vec<u8>, kind: Subject) -> Result<(), AllocError>
    ensures { OnOk result (told.new.items ≡ told.old.items ++ kind_text kind) }
{
    let (title, taken) = (kind.title(), taken_by(kind));
    let text = format!(in alloc; "{title}, which {taken}; a ")?;
    told.extend_from_slice(text.as_str().as_bytes())
}

/// Adds that a text is needed, and how its lines are written.
#[tactic(auto, unfolding(crate::specs::OtherTexts::needed_text))]
fn push_needed(alloc: Global, told: &mut Vec<u8>, subject: Subject) -> Result<(), AllocError>
    ensures { OnOk result (told.new.items ≡ told.old.items ++ needed_text subject) }
{
    let (needed, form) = (subject.title(), form_of(subject));
    let text = format!(in alloc; "{needed} is needed\n{form}")?;
    told.extend_from_slice(text.as_str().as_bytes())
}

/// Returns where a kind of text is given.
fn taken_by(kind: Subject) -> &'static str
    ensures { result.now ≡ taken_by kind }
{
    match kind {
        Subject::Bench => "--bench takes",
        Subject::Delays => "--delays takes",
        Subject::Stimuli => "--stimuli takes",
        Subject::Schedule => "--schedule takes",
        _ => "is read from standard input",
    }
}

/// Returns how a line of a text is written.
pub(crate) fn form_of(subject: Subject) -> &'static str
    ensures { result.now ≡ form_of subject }
{
    match subject {
        Subject::Bench => "write a gate as y = NAND(a, b), an input as INPUT(a)\n",
        Subject::Delays => "write a delay as NAME TICKS, such as y 3\n",
        Subject::Stimuli => "write a stimulus as TICK NAME VALUE, such as 10 a 1\n",
        Subject::Schedule => "write a step as advance NAME or deliver NAME PLACE\n",
        _ => "begin with %nullsim and the horizon, such as %nullsim 20\n",
    }
}
