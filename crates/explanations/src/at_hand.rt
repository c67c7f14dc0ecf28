//! The message about a fault that occurred.
ghost use Rattle.std.specs.Prelude.{◌≡◌, ◌++◌, flat_map, option_and_then, option_map, string_bytes, IfOk, OnOk};
ghost use Rattle.explanations.specs.AtHand.{corrected_at, corrected_or_name, gate_of_table, hint_if_called, hint_of, hints_in, number_line, part_or_name, sharper, sharper_or_hints, told_at_hand, told_of_kind, told_of_own_kind};
ghost use Rattle.mistakes.specs.Lines.{line_at};
ghost use Rattle.explanations.specs.Seen.{seen_fault};

use crate::at_fault::{push_at_fault, push_word};
use crate::excerpt::push_excerpt;
use crate::explanation::Explanation;
use crate::foreign::foreign_text;
use crate::other_parts::{is_table_at_fault, part_at_fault};
use crate::suggestion::push_suggestion;
use crate::table::Table;
use crate::telling::{push_meaning, push_wanted};
use mistakes::{Subject, corrected, line_at, misplaced};
use std::alloc::{AllocError, Global};

/// A fault that occurred.
#[derive(Clone, Copy, Debug)]
pub struct AtHand<'a> {
    /// The kind of input that it is about.
    pub subject: Subject,
    pub name: &'a str,
    /// Its line, from 1, or 0 for a fault without a line.
    pub line: u64,
    /// The text at fault, if known.
    pub text: Option<&'a [u8]>,
    /// The name at fault, if no text contains it: one from the arguments.
    pub word: Option<&'a [u8]>,
    /// The number at fault, if no text contains it.
    pub number: Option<u64>,
    /// The system's message about a failed read or write, if any.
    pub reason: Option<&'a [u8]>,
    /// The text of the circuit, if known, for a net that it doesn't define.
    pub circuit: Option<&'a [u8]>,
}

/// Returns the message about a fault: the line of its text, if known; the word at fault or the earlier line
/// with the same topic, if the lines determine it; the word or number at fault that no text contains; the
/// system's message; and what else is known of this fault, or if nothing is, what it means and what is needed.
/// Known may be the place at which the line stops having a form, a corrected line, what to write instead of a part
/// that there isn't, and what is suggested for the name at fault. If the text looks to be of another kind, the
/// message is about that.
/// Of a long line the first 100 bytes are shown, and a byte that isn't printable as `?`.
pub fn fault_text(alloc: Global, tables: &[Table], fault: AtHand<'_>) -> Result<Vec<u8>, AllocError>
    ensures { IfOk result (λ told. told.items ≡ told_at_hand tables.now (seen_fault fault.entry)) }
{
    let mut told = Vec::new(alloc);
    push_excerpt(
        alloc,
        &mut told,
        fault.line,
        line_of(fault.line, fault.text),
    )?;
    push_of_kind(alloc, &mut told, tables, fault)?;
    Ok(told)
}

/// Adds the message about a text of another kind, if it looks to be of one, or else about the fault.
fn push_of_kind(
    alloc: Global,
    told: &mut Vec<u8>,
    tables: &[Table],
    fault: AtHand<'_>,
) -> Result<(), AllocError>
    ensures { OnOk result (told.new.items ≡ told.old.items ++ told_of_kind tables.now (seen_fault fault.entry)) }
{
    let foreign = foreign_text(
        alloc,
        fault.subject,
        fault.name,
        fault.line,
        fault.text,
        fault.circuit,
    )?;
    if foreign.is_empty() {
        push_own_kind(alloc, told, tables, fault)
    } else {
        told.extend_from_slice(&foreign)
    }
}

/// Adds the message about a fault of a text of the kind that is read.
fn push_own_kind(
    alloc: Global,
    told: &mut Vec<u8>,
    tables: &[Table],
    fault: AtHand<'_>,
) -> Result<(), AllocError>
    ensures { OnOk result (told.new.items ≡ told.old.items ++ told_of_own_kind tables.now (seen_fault fault.entry)) }
{
    push_at_fault(
        alloc,
        told,
        fault.subject,
        fault.name,
        fault.line,
        fault.text,
    )?;
    push_word(told, b"given: ", fault.word)?;
    push_number(alloc, told, fault.number)?;
    push_word(told, b"system error: ", fault.reason)?;
    push_sharper_or_hints(alloc, told, tables, fault)
}

/// Adds what is known of this fault, or if nothing is, what it means and what is needed.
fn push_sharper_or_hints(
    alloc: Global,
    told: &mut Vec<u8>,
    tables: &[Table],
    fault: AtHand<'_>,
) -> Result<(), AllocError>
    ensures { OnOk result (told.new.items ≡ told.old.items ++ sharper_or_hints tables.now (seen_fault fault.entry)) }
{
    let known = sharper(alloc, fault)?;
    if known.is_empty() {
        let hints = hints_text(alloc, tables, fault.subject, fault.name)?;
        told.extend_from_slice(hints.as_str().as_bytes())
    } else {
        told.extend_from_slice(&known)
    }
}

/// Returns the place at which the line stops having a form, and what may have been meant.
fn sharper(alloc: Global, fault: AtHand<'_>) -> Result<Vec<u8>, AllocError>
    ensures { IfOk result (λ text. text.items ≡ sharper (seen_fault fault.entry)) }
{
    let mut text = misplaced(alloc, fault.subject, fault.name, fault.line, fault.text)?;
    push_part_or_name(alloc, &mut text, fault)?;
    Ok(text)
}

/// Adds what to write instead of a part that there isn't, or else the corrected line or the suggestion.
fn push_part_or_name(alloc: Global, told: &mut Vec<u8>, fault: AtHand<'_>) -> Result<(), AllocError>
    ensures { OnOk result (told.new.items ≡ told.old.items ++ part_or_name (seen_fault fault.entry)) }
{
    let line = line_of(fault.line, fault.text);
    let part = part_at_fault(alloc, fault.subject, fault.name, line)?;
    if part.is_empty() {
        push_corrected_or_name(alloc, told, fault)
    } else {
        push_part(alloc, told, &part, fault)
    }
}

/// Adds what to write instead of a part, and the gate that a look-up table is.
fn push_part(
    alloc: Global,
    told: &mut Vec<u8>,
    part: &[u8],
    fault: AtHand<'_>,
) -> Result<(), AllocError>
    ensures { OnOk result (told.new.items ≡ told.old.items ++ (part.now ++ gate_of_table (seen_fault fault.entry))) }
{
    told.extend_from_slice(part)?;
    push_gate_of_table(alloc, told, fault)
}

/// Adds the gate that a look-up table is, as a corrected line.
#[tactic(auto, unfolding(crate::specs::AtHand::gate_of_table))]
fn push_gate_of_table(
    alloc: Global,
    told: &mut Vec<u8>,
    fault: AtHand<'_>,
) -> Result<(), AllocError>
    ensures { OnOk result (told.new.items ≡ told.old.items ++ gate_of_table (seen_fault fault.entry)) }
{
    if !is_table_at_fault(fault.subject, line_of(fault.line, fault.text)) {
        return Ok(());
    }
    let corrected = corrected_line(alloc, fault)?;
    told.extend_from_slice(&corrected)
}

fn corrected_line(alloc: Global, fault: AtHand<'_>) -> Result<Vec<u8>, AllocError>
    ensures { IfOk result (λ told. told.items ≡ corrected_at (seen_fault fault.entry)) }
{
    corrected(
        alloc,
        fault.subject,
        fault.name,
        fault.line,
        fault.text,
        fault.circuit,
    )
}

/// Adds the corrected line, or the near name.
fn push_corrected_or_name(
    alloc: Global,
    told: &mut Vec<u8>,
    fault: AtHand<'_>,
) -> Result<(), AllocError>
    ensures { OnOk result (told.new.items ≡ told.old.items ++ corrected_or_name (seen_fault fault.entry)) }
{
    let corrected = corrected_line(alloc, fault)?;
    if corrected.is_empty() {
        push_suggestion(
            alloc,
            told,
            fault.subject,
            fault.name,
            fault.line,
            fault.text,
            fault.word,
            fault.circuit,
        )
    } else {
        told.extend_from_slice(&corrected)
    }
}

/// Adds the message about a number, the number, and a line feed, if there is a number.
fn push_number(alloc: Global, told: &mut Vec<u8>, number: Option<u64>) -> Result<(), AllocError>
    ensures { OnOk result (told.new.items ≡ told.old.items ++ number_line number) }
{
    let Some(number) = number else {
        return Ok(());
    };
    let line = format!(in alloc; "given: {number}\n")?;
    told.extend_from_slice(line.as_str().as_bytes())
}

fn line_of<'a>(number: u64, text: Option<&'a [u8]>) -> Option<&'a [u8]>
    ensures { option_map (λ line. line.now) result
        ≡ option_and_then (line_at number) (option_map (λ text. text.now) text.entry) }
{
    match text {
        Some(text) => line_at(text, number),
        None => None,
    }
}

fn hints_text(
    alloc: Global,
    tables: &[Table],
    subject: Subject,
    name: &str,
) -> Result<String, AllocError>
    ensures { IfOk result (λ text. string_bytes text ≡ flat_map (hints_in subject name.now) tables.now) }
{
    let mut text = String::new(alloc);
    for table in tables {
        push_hints_in(&mut text, subject, name, table)?;
    }
    Ok(text)
}

fn push_hints_in(
    text: &mut String,
    subject: Subject,
    name: &str,
    table: &Table,
) -> Result<(), AllocError>
    ensures { OnOk result (string_bytes text.new ≡ string_bytes text.old ++ hints_in subject name.now table.now) }
{
    if table.subject.number() == subject.number() {
        push_hints(text, subject, name, table.explanations)
    } else {
        Ok(())
    }
}

fn push_hints(
    text: &mut String,
    subject: Subject,
    name: &str,
    table: &[Explanation],
) -> Result<(), AllocError>
    ensures { OnOk result (string_bytes text.new ≡ string_bytes text.old ++ flat_map (hint_if_called subject name.now) table.now) }
{
    for one in table {
        push_if_called(text, subject, name, one)?;
    }
    Ok(())
}

/// Adds what a fault means and what is needed, if it has this name.
fn push_if_called(
    text: &mut String,
    subject: Subject,
    name: &str,
    one: &Explanation,
) -> Result<(), AllocError>
    ensures { OnOk result (string_bytes text.new ≡ string_bytes text.old ++ hint_if_called subject name.now one.now) }
{
    if one.name.eq_ignore_ascii_case(name) {
        push_hint(text, subject, one)
    } else {
        Ok(())
    }
}

fn push_hint(text: &mut String, subject: Subject, one: &Explanation) -> Result<(), AllocError>
    ensures { OnOk result (string_bytes text.new ≡ string_bytes text.old ++ hint_of subject one.now) }
{
    push_meaning(text, subject.title(), one)?;
    push_wanted(text, one)
}
