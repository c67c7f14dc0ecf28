//! The suggestion after the place at which a line stops having a form.
ghost use Rattle.std.specs.Prelude.{◌≡◌, ◌==◌, ◌++◌, option_map, IfOk, OnOk};
ghost use Rattle.mistakes.specs.BenchCorrections.{bench_corrections};
ghost use Rattle.mistakes.specs.BenchLines.{is_among};
ghost use Rattle.mistakes.specs.Corrected.{bench_corrected, circuit_of, code_corrected, corrected, if_short, line_corrected, of_corrections, refused_corrected, refused_line, statement_corrected, ticks_told, timing_corrected, uncommented, without_hashes, words_corrected};
ghost use Rattle.mistakes.specs.Corrections.{told_by};
ghost use Rattle.mistakes.specs.Lines.{unless_empty};
ghost use Rattle.mistakes.specs.SeenCorrections.{seen_refused, seen_table, seen_words};
ghost use Rattle.mistakes.specs.TimingCorrections.{schedule_corrections};
ghost use Rattle.mistakes.specs.TimingLines.{deck_marker_told, respelled_told, trace_told};

use crate::corrections::accepted::Refused;
use crate::corrections::applying::push_told_by;
use crate::corrections::bench::bench_corrections;
use crate::corrections::correction::Correction;
use crate::corrections::delays::delay_corrections;
use crate::corrections::first_words::{push_respelled_right, push_respelled_told};
use crate::corrections::formulas::push_formula_told;
use crate::corrections::lists::{push_ended_told, push_list_told};
use crate::corrections::markers::{push_deck_marker_told, push_marker_told};
use crate::corrections::names::push_spaced_told;
use crate::corrections::right::push_right_told;
use crate::corrections::schedule::schedule_corrections;
use crate::corrections::statements::{push_dollar_told, push_part_told, push_two_told};
use crate::corrections::stimuli::stimulus_corrections;
use crate::corrections::ticks::{push_point_told, push_sign_told, push_unit_told};
use crate::corrections::traces::{push_pins_told, push_trace_told};
use crate::corrections::words::{is_shown_whole, marked_words};
use crate::lines::{LONGEST_CORRECTED, line_at};
use crate::places::forms::forms_of;
use crate::subject::Subject;
use std::alloc::{AllocError, Global};
use texts::code_of;

/// Returns the suggestion for the line with a number, if the fault says that it has no form or no gate word, if the
/// text is known and has the line, and if only one correction is known. Otherwise it is empty. `circuit` is the
/// .bench text, if known. A suggested line has a form, and its reader takes its gate, numbers and values.
///
/// # Errors
/// An allocation failed.
#[tactic(auto, unfolding(crate::specs::Corrected::corrected))]
pub fn corrected(
    alloc: Global,
    subject: Subject,
    name: &str,
    number: u64,
    text: Option<&[u8]>,
    circuit: Option<&[u8]>,
) -> Result<Vec<u8>, AllocError>
    ensures { IfOk result (λ told. told.items ≡ corrected subject name.now number
        (option_map (λ text. text.now) text.entry) (option_map (λ circuit. circuit.now) circuit.entry)) }
{
    let Some(text) = text else {
        return Ok(Vec::new(alloc));
    };
    if !is_of_corrections(name) {
        return Ok(Vec::new(alloc));
    }
    match line_at(text, number) {
        Some(line) => line_corrected(alloc, subject, number, text, circuit, line),
        None => Ok(Vec::new(alloc)),
    }
}

/// Returns whether a fault says that a line has no form, or no gate word.
fn is_of_corrections(name: &str) -> bool
    ensures { result ≡ is_among of_corrections name.now }
{
    name == "BadLine" || name == "BadDeck" || name == "UnknownGate"
}

/// Returns the suggestion for a line, or else the line without the `#` of its comment.
fn line_corrected(
    alloc: Global,
    subject: Subject,
    number: u64,
    text: &[u8],
    circuit: Option<&[u8]>,
    line: &[u8],
) -> Result<Vec<u8>, AllocError>
    ensures { IfOk result (λ told. told.items ≡ line_corrected subject number text.now
        (option_map (λ circuit. circuit.now) circuit.entry) line.now) }
{
    let told = code_corrected(alloc, subject, number, text, circuit, code_of(line))?;
    if told.is_empty() {
        let code = without_hashes(alloc, line)?;
        uncommented(alloc, subject, number, text, circuit, code.as_slice())
    } else {
        Ok(told)
    }
}

/// Returns the suggestion for a line without its comment.
#[tactic(auto, unfolding(crate::specs::Corrected::code_corrected))]
fn code_corrected(
    alloc: Global,
    subject: Subject,
    number: u64,
    text: &[u8],
    circuit: Option<&[u8]>,
    code: &[u8],
) -> Result<Vec<u8>, AllocError>
    ensures { IfOk result (λ told. told.items ≡ code_corrected subject number text.now
        (option_map (λ circuit. circuit.now) circuit.entry) code.now) }
{
    if !is_shown_whole(code) {
        return Ok(Vec::new(alloc));
    }
    let words = marked_words(alloc, code)?;
    let refused = refused_line(subject, number, text, circuit, words.as_slice());
    Ok(if_short(alloc, refused_corrected(alloc, refused)?))
}

/// Returns a line without the `#` of its comment, if its reader takes it.
#[tactic(auto, unfolding(crate::specs::Corrected::uncommented))]
fn uncommented(
    alloc: Global,
    subject: Subject,
    number: u64,
    text: &[u8],
    circuit: Option<&[u8]>,
    code: &[u8],
) -> Result<Vec<u8>, AllocError>
    ensures { IfOk result (λ told. told.items ≡ uncommented subject number text.now
        (option_map (λ circuit. circuit.now) circuit.entry) code.now) }
{
    if !is_shown_whole(code) {
        return Ok(Vec::new(alloc));
    }
    let words = marked_words(alloc, code)?;
    let refused = refused_line(subject, number, text, circuit, words.as_slice());
    let mut told = Vec::new(alloc);
    push_right_told(&mut told, refused, b"write ", refused.words)?;
    Ok(if_short(alloc, told))
}

fn without_hashes(alloc: Global, line: &[u8]) -> Result<Vec<u8>, AllocError>
    ensures { IfOk result (λ code. code.items ≡ without_hashes line.now) }
{
    let mut code = Vec::from_slice(alloc, line)?;
    keep_no_hashes(&mut code);
    Ok(code)
}

fn keep_no_hashes(code: &mut Vec<u8>)
    ensures { code.new.items ≡ without_hashes code.old.items }
{
    code.retain(|byte| *byte != b'#');
}

/// Returns a line, of which no form takes these words.
fn refused_line<'a>(
    subject: Subject,
    number: u64,
    text: &'a [u8],
    circuit: Option<&'a [u8]>,
    words: &'a [&'a [u8]],
) -> Refused<'a>
    ensures { seen_refused result ≡ refused_line subject number text.now
        (option_map (λ circuit. circuit.now) circuit.entry) (seen_words words.now) }
{
    Refused {
        subject,
        line: number,
        forms: forms_of(subject, number, text),
        circuit: circuit_of(subject, text, circuit),
        words,
    }
}

/// Returns the text that defines the nets.
fn circuit_of<'a>(subject: Subject, text: &'a [u8], circuit: Option<&'a [u8]>) -> &'a [u8]
    ensures { result.now ≡ circuit_of subject text.now (option_map (λ circuit. circuit.now) circuit.entry) }
{
    match (subject, circuit) {
        (Subject::Bench, _) => text,
        (_, Some(circuit)) => circuit,
        (_, None) => b"",
    }
}

/// Returns a suggestion, or nothing if it is longer than the lines that are shown.
fn if_short(alloc: Global, told: Vec<u8>) -> Vec<u8>
    ensures { result.items ≡ if_short told.items }
{
    if told.len() > LONGEST_CORRECTED + 1 {
        Vec::new(alloc)
    } else {
        told
    }
}

/// Returns the suggestion for a line that is refused.
fn refused_corrected(alloc: Global, refused: Refused<'_>) -> Result<Vec<u8>, AllocError>
    ensures { IfOk result (λ told. told.items ≡ refused_corrected (seen_refused refused.entry)) }
{
    match refused.subject {
        Subject::Bench => bench_corrected(alloc, refused),
        Subject::Delays => timing_corrected(alloc, delay_corrections(), refused),
        Subject::Stimuli => timing_corrected(alloc, stimulus_corrections(), refused),
        Subject::Schedule => schedule_corrected(alloc, refused),
        Subject::Deck => deck_corrected(alloc, refused),
        _ => Ok(Vec::new(alloc)),
    }
}

fn bench_corrected(alloc: Global, refused: Refused<'_>) -> Result<Vec<u8>, AllocError>
    ensures { IfOk result (λ told. told.items ≡ bench_corrected (seen_refused refused.entry)) }
{
    let told = statement_corrected(alloc, refused)?;
    if told.is_empty() {
        words_corrected(alloc, refused)
    } else {
        Ok(told)
    }
}

/// Returns the suggestion for the commas of a .bench line, for its end, for what comes after it, or for its dollar
/// signs.
fn statement_corrected(alloc: Global, refused: Refused<'_>) -> Result<Vec<u8>, AllocError>
    ensures { IfOk result (λ told. told.items ≡ statement_corrected (seen_refused refused.entry)) }
{
    let mut told = Vec::new(alloc);
    push_list_told(alloc, &mut told, refused)?;
    if told.is_empty() {
        push_ended_told(&mut told, refused)?;
    }
    if told.is_empty() {
        push_two_told(alloc, &mut told, refused)?;
    }
    if told.is_empty() {
        push_part_told(alloc, &mut told, refused)?;
    }
    if told.is_empty() {
        push_dollar_told(alloc, &mut told, refused)?;
    }
    Ok(told)
}

/// Returns the suggestion for the marks of a .bench line, for its first word, what a marker is, the only one in the
/// table, or the one for its names.
fn words_corrected(alloc: Global, refused: Refused<'_>) -> Result<Vec<u8>, AllocError>
    ensures { IfOk result (λ told. told.items ≡ words_corrected (seen_refused refused.entry)) }
{
    let mut told = Vec::new(alloc);
    push_formula_told(alloc, &mut told, refused)?;
    if told.is_empty() {
        push_respelled_told(alloc, &mut told, refused)?;
    }
    if told.is_empty() {
        push_marker_told(alloc, &mut told, refused)?;
    }
    if told.is_empty() {
        push_from_table(alloc, &mut told, refused)?;
    }
    if told.is_empty() {
        push_spaced_told(alloc, &mut told, refused)?;
    }
    Ok(told)
}

fn push_from_table(
    alloc: Global,
    told: &mut Vec<u8>,
    refused: Refused<'_>,
) -> Result<(), AllocError>
    ensures { OnOk result (told.new.items ≡ told.old.items ++ told_by bench_corrections (seen_refused refused.entry)) }
{
    let table = bench_corrections(alloc)?;
    push_told_by(alloc, told, table.as_slice(), refused)
}

/// Returns the suggestion for a line of a schedule: for one of a trace, or that for any text.
fn schedule_corrected(alloc: Global, refused: Refused<'_>) -> Result<Vec<u8>, AllocError>
    ensures { IfOk result (λ told. told.items ≡ unless_empty (trace_told (seen_refused refused.entry))
        (timing_corrected schedule_corrections (seen_refused refused.entry))) }
{
    let mut told = Vec::new(alloc);
    push_trace_told(alloc, &mut told, refused)?;
    if told.is_empty() {
        timing_corrected(alloc, schedule_corrections(), refused)
    } else {
        Ok(told)
    }
}

fn deck_corrected(alloc: Global, refused: Refused<'_>) -> Result<Vec<u8>, AllocError>
    ensures { IfOk result (λ told. told.items ≡ unless_empty (respelled_told (seen_refused refused.entry))
        (deck_marker_told (seen_refused refused.entry))) }
{
    let mut told = Vec::new(alloc);
    push_respelled_told(alloc, &mut told, refused)?;
    if told.is_empty() {
        push_deck_marker_told(alloc, &mut told, refused)?;
    }
    Ok(told)
}

/// Returns the only correction of a table that applies, or what is said of the units of a line, of its first
/// word, of its ticks, of markers, or of the pins of its net.
fn timing_corrected(
    alloc: Global,
    table: &'static [Correction],
    refused: Refused<'_>,
) -> Result<Vec<u8>, AllocError>
    ensures { IfOk result (λ told. told.items ≡ timing_corrected (seen_table table.now) (seen_refused refused.entry)) }
{
    let mut told = Vec::new(alloc);
    push_told_by(alloc, &mut told, table, refused)?;
    if told.is_empty() {
        push_unit_told(alloc, &mut told, refused)?;
    }
    if told.is_empty() {
        push_respelled_right(alloc, &mut told, refused)?;
    }
    if told.is_empty() {
        push_ticks_told(alloc, &mut told, refused)?;
    }
    if told.is_empty() {
        push_pins_told(alloc, &mut told, refused)?;
    }
    Ok(told)
}

fn push_ticks_told(
    alloc: Global,
    told: &mut Vec<u8>,
    refused: Refused<'_>,
) -> Result<(), AllocError>
    ensures { OnOk result (told.new.items ≡ told.old.items ++ ticks_told (seen_refused refused.entry)) }
{
    let ticks = ticks_told(alloc, refused)?;
    told.extend_from_slice(&ticks)
}

/// Returns what is said of a point or a sign in the ticks of a line, or of the marker that it may mean.
#[tactic(auto, unfolding(crate::specs::Corrected::ticks_told))]
fn ticks_told(alloc: Global, refused: Refused<'_>) -> Result<Vec<u8>, AllocError>
    ensures { IfOk result (λ told. told.items ≡ ticks_told (seen_refused refused.entry)) }
{
    let mut told = Vec::new(alloc);
    push_point_told(&mut told, refused)?;
    if told.is_empty() {
        push_sign_told(&mut told, refused)?;
    }
    if told.is_empty() {
        push_marker_told(alloc, &mut told, refused)?;
    }
    Ok(told)
}
