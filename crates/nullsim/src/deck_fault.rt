//! What is printed for the fault of a deck.
ghost use Rattle.std.specs.Prelude.{◌≡◌, ◌==◌, ◌++◌, option_map, IfOk, OnOk};
ghost use Rattle.explanations.specs.Seen.{seen_fault};
ghost use Rattle.prepared_runs.specs.Seen.{seen_sections};
ghost use Rattle.nullsim.specs.Decks.{are_just, circuit_in_deck, deck_explanation, deck_fault, deck_line, deck_line_told, horizon_in_run, line_after, line_told, marker_at_fault, marker_in_run, number_in_deck, place_of_marker, section_in_run, section_line, section_line_told, sections_in, text_in_deck};
ghost use Rattle.nullsim.specs.Verbose.{if_given};
ghost use Rattle.texts.specs.Text.{words_of};

use crate::verbose::{reason_of, subject};
use explanations::{AtHand, Table, fault_text};
use prepared_runs::{Sections, SimFault, read_sections};
use program_io::ProgramFault;
use std::alloc::{AllocError, Global};
use texts::{has_words, push_numbered, split_word};
use timing_text::OptionFault;

/// Returns what is printed for the fault of a deck: the number of its line in the deck, if it is in a section,
/// and the message about it. The system's message counts for a read or a write that failed.
pub(crate) fn deck_explanation(
    alloc: Global,
    tables: &[Table],
    deck: &[u8],
    fault: ProgramFault<'_>,
    said: Option<&[u8]>,
) -> Result<Vec<u8>, AllocError>
    ensures { IfOk result (λ text. text.items ≡ deck_explanation tables.now (if_given said.entry) deck.now fault.entry) }
{
    let mut text = deck_line_text(alloc, deck, fault)?;
    let told = fault_text(alloc, tables, deck_fault(deck, fault, said))?;
    text.extend_from_slice(told.as_slice())?;
    Ok(text)
}

/// Returns the fault of a deck with all that is known of it.
fn deck_fault<'a>(deck: &'a [u8], fault: ProgramFault<'a>, said: Option<&'a [u8]>) -> AtHand<'a>
    ensures { seen_fault result ≡ deck_fault (if_given said.entry) deck.now fault.entry }
{
    AtHand {
        subject: subject(fault),
        name: fault.name(),
        line: fault.line(),
        text: text_in_deck(deck, fault),
        word: None,
        number: number_in_deck(deck, fault),
        reason: reason_of(fault, said),
        circuit: circuit_in_deck(deck, fault),
    }
}

/// Returns which line of the deck is at fault, if a section has it.
fn deck_line_text(
    alloc: Global,
    deck: &[u8],
    fault: ProgramFault<'_>,
) -> Result<Vec<u8>, AllocError>
    ensures { IfOk result (λ text. text.items ≡ deck_line_told deck.now fault.entry) }
{
    match marker_at_fault(fault) {
        Some(marker) => section_line_text(alloc, deck, fault.line(), marker),
        None => Ok(Vec::new(alloc)),
    }
}

/// Returns which line of the deck is this line of the section after a marker. The text is empty for line 0.
fn section_line_text(
    alloc: Global,
    deck: &[u8],
    line: u64,
    marker: &str,
) -> Result<Vec<u8>, AllocError>
    ensures { IfOk result (λ text. text.items ≡ section_line_told deck.now line marker.now) }
{
    if line == 0 {
        return Ok(Vec::new(alloc));
    }
    match place_of_marker(deck, marker.as_bytes()) {
        Some(place) => line_text(alloc, marker, line, place),
        None => Ok(Vec::new(alloc)),
    }
}

fn line_text(alloc: Global, marker: &str, line: u64, place: usize) -> Result<Vec<u8>, AllocError>
    ensures { IfOk result (λ text. text.items ≡ line_told marker.now line place) }
{
    let mut text = Vec::new(alloc);
    push_section_line(&mut text, marker, line)?;
    push_deck_line(&mut text, line_after(place, line))?;
    Ok(text)
}

fn push_section_line(text: &mut Vec<u8>, marker: &str, line: u64) -> Result<(), AllocError>
    ensures { OnOk result (text.new.items ≡ text.old.items ++ section_line marker.now line) }
{
    push_numbered(text, b"line ", line)?;
    text.extend_from_slice(b" of ")?;
    text.extend_from_slice(marker.as_bytes())
}

fn push_deck_line(text: &mut Vec<u8>, line: u64) -> Result<(), AllocError>
    ensures { OnOk result (text.new.items ≡ text.old.items ++ deck_line line) }
{
    push_numbered(text, b" is line ", line)?;
    text.extend_from_slice(b" of the deck\n")
}

/// Returns the number of the deck's line that is this line of the section after the marker at a place.
fn line_after(place: usize, line: u64) -> u64
    ensures { result ≡ line_after place line }
{
    (place as u64).saturating_add(1).saturating_add(line)
}

/// Returns the place, from 0, of the deck's line that has this word alone.
fn place_of_marker(deck: &[u8], marker: &[u8]) -> Option<usize>
    ensures { result ≡ place_of_marker deck.now marker.now }
{
    deck.split(|byte| *byte == b'\n')
        .position(|line| is_just(line, marker))
}

/// Returns whether a line has this word alone.
fn is_just(line: &[u8], word: &[u8]) -> bool
    ensures { result ≡ are_just word.now (words_of line.now) }
{
    match split_word(line) {
        Some((first, rest)) => !has_words(rest) && first == word,
        None => false,
    }
}

/// Returns the marker of the section at fault.
fn marker_at_fault(fault: ProgramFault<'_>) -> Option<&'static str>
    ensures { if_given result ≡ marker_at_fault fault.entry }
{
    match fault {
        ProgramFault::Run { fault, .. } => marker_in_run(fault),
        _ => None,
    }
}

fn marker_in_run(fault: SimFault) -> Option<&'static str>
    ensures { if_given result ≡ marker_in_run fault }
{
    match fault {
        SimFault::Bench(_) => Some("%bench"),
        SimFault::Timing(_) => Some("%delays"),
        SimFault::Stimulus(_) => Some("%stimuli"),
        SimFault::Schedule(_) => Some("%schedule"),
        _ => None,
    }
}

/// Returns the sections of a deck, if it is one.
pub(crate) fn sections_in(deck: &[u8]) -> Option<Sections<'_>>
    ensures { option_map seen_sections result ≡ sections_in deck.now }
{
    match read_sections(deck) {
        Ok(sections) => Some(sections),
        Err(_) => None,
    }
}

/// Returns the text at fault: the deck, or a section.
fn text_in_deck<'a>(deck: &'a [u8], fault: ProgramFault<'_>) -> Option<&'a [u8]>
    ensures { if_given result ≡ text_in_deck deck.now fault.entry }
{
    match fault {
        ProgramFault::Deck(_) => Some(deck),
        ProgramFault::Run { fault, .. } => section_in_run(fault, &sections_in(deck)?),
        _ => None,
    }
}

fn section_in_run<'a>(fault: SimFault, sections: &Sections<'a>) -> Option<&'a [u8]>
    ensures { if_given result ≡ section_in_run fault (seen_sections sections.now) }
{
    match fault {
        SimFault::Bench(_) => Some(sections.texts.bench),
        SimFault::Timing(_) => Some(sections.texts.delays),
        SimFault::Stimulus(_) => Some(sections.texts.stimuli),
        SimFault::Schedule(_) => Some(sections.texts.schedule),
        _ => None,
    }
}

/// Returns the circuit of the run at fault.
fn circuit_in_deck<'a>(deck: &'a [u8], fault: ProgramFault<'_>) -> Option<&'a [u8]>
    ensures { if_given result ≡ circuit_in_deck deck.now fault.entry }
{
    match fault {
        ProgramFault::Run { .. } => Some(sections_in(deck)?.texts.bench),
        _ => None,
    }
}

/// Returns the number at fault: the horizon.
fn number_in_deck(deck: &[u8], fault: ProgramFault<'_>) -> Option<u64>
    ensures { result ≡ number_in_deck deck.now fault.entry }
{
    match fault {
        ProgramFault::Run { fault, .. } => horizon_in_run(fault, &sections_in(deck)?),
        _ => None,
    }
}

fn horizon_in_run(fault: SimFault, sections: &Sections<'_>) -> Option<u64>
    ensures { result ≡ horizon_in_run fault (seen_sections sections.now) }
{
    match fault {
        SimFault::Setting(OptionFault::BadHorizon) => Some(sections.horizon),
        _ => None,
    }
}
