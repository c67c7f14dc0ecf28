//! The suggestion after what is known of a fault: what a name that no line defines may mean, or the only name
//! near to the one at fault.
ghost use Rattle.std.specs.Prelude.{◌≡◌, ◌++◌, option_and_then, option_map, OnOk};
ghost use Rattle.explanations.specs.Suggestion.{code_at, for_gate, for_input, for_missing, for_net, for_other, for_undefined, for_undefined_in, near_input_told, near_net_told, seen_text, suggestion, unknown_net};

use crate::deck_start::push_deck_start;
use crate::gate_words::push_gate;
use crate::missing::missing_text;
use crate::nets::{inputs_in, nets_in, push_defined};
use crate::topic::topic_of;
use crate::undefined::undefined_in;
use mistakes::{Subject, line_at, near_among, nth_name};
use std::alloc::{AllocError, Global};
use texts::code_of;

/// Adds the suggestion for a fault, if any, given the line at fault and its text, the name at fault that no text
/// contains, and the text of the circuit.
pub(crate) fn push_suggestion(
    alloc: Global,
    told: &mut Vec<u8>,
    subject: Subject,
    name: &str,
    number: u64,
    text: Option<&[u8]>,
    word: Option<&[u8]>,
    circuit: Option<&[u8]>,
) -> Result<(), AllocError>
    ensures { OnOk result (told.new.items ≡ told.old.items
        ++ suggestion subject name.now number (seen_text text.entry)
        (seen_text word.entry) (seen_text circuit.entry)) }
{
    if name == "Undefined" {
        push_for_undefined(alloc, told, number, text)
    } else if name == "UnknownGate" {
        push_for_gate(alloc, told, number, text)
    } else if name == "UnknownNet" {
        push_for_net(
            alloc,
            told,
            circuit,
            unknown_net(subject, number, text, word),
        )
    } else {
        push_for_other(alloc, told, name, text, word, circuit)
    }
}

/// Adds the suggestion for a fault of an option's input, or of a deck.
fn push_for_other(
    alloc: Global,
    told: &mut Vec<u8>,
    name: &str,
    text: Option<&[u8]>,
    word: Option<&[u8]>,
    circuit: Option<&[u8]>,
) -> Result<(), AllocError>
    ensures { OnOk result (told.new.items ≡ told.old.items
        ++ for_other name.now (seen_text text.entry)
        (seen_text word.entry) (seen_text circuit.entry)) }
{
    if name == "NotAnInput" {
        push_for_input(alloc, told, circuit, word)
    } else if name == "BadDeck" {
        push_deck_start(alloc, told, text)
    } else {
        Ok(())
    }
}

/// Adds the input of the circuit that is near to a name that no input has.
fn push_for_input(
    alloc: Global,
    told: &mut Vec<u8>,
    circuit: Option<&[u8]>,
    name: Option<&[u8]>,
) -> Result<(), AllocError>
    ensures { OnOk result (told.new.items ≡ told.old.items
        ++ for_input (seen_text circuit.entry) (seen_text name.entry)) }
{
    match (circuit, name) {
        (Some(circuit), Some(name)) => push_near_input(alloc, told, name, circuit),
        _ => Ok(()),
    }
}

fn push_near_input(
    alloc: Global,
    told: &mut Vec<u8>,
    name: &[u8],
    text: &[u8],
) -> Result<(), AllocError>
    ensures { OnOk result (told.new.items ≡ told.old.items ++ near_input_told name.now text.now) }
{
    match near_among(name, inputs_in(alloc, text)?) {
        Some(input) => push_defined(alloc, told, " of the .bench text", text, input),
        None => Ok(()),
    }
}

/// Adds what is suggested for the name that the line uses and no line defines.
fn push_for_undefined(
    alloc: Global,
    told: &mut Vec<u8>,
    number: u64,
    text: Option<&[u8]>,
) -> Result<(), AllocError>
    ensures { OnOk result (told.new.items ≡ told.old.items
        ++ for_undefined number (seen_text text.entry)) }
{
    let Some(text) = text else {
        return Ok(());
    };
    match code_at(text, number) {
        Some(code) => push_for_undefined_in(alloc, told, text, code),
        None => Ok(()),
    }
}

fn push_for_undefined_in(
    alloc: Global,
    told: &mut Vec<u8>,
    text: &[u8],
    code: &[u8],
) -> Result<(), AllocError>
    ensures { OnOk result (told.new.items ≡ told.old.items ++ for_undefined_in text.now code.now) }
{
    match undefined_in(alloc, code, text)? {
        Some(name) => push_for_missing(alloc, told, text, name),
        None => Ok(()),
    }
}

/// Adds what a name that no line defines may mean, or else the net that is near to it.
fn push_for_missing(
    alloc: Global,
    told: &mut Vec<u8>,
    text: &[u8],
    name: &[u8],
) -> Result<(), AllocError>
    ensures { OnOk result (told.new.items ≡ told.old.items ++ for_missing text.now name.now) }
{
    let known = missing_text(alloc, text, name)?;
    if known.is_empty() {
        push_near_net(alloc, told, "", name, text)
    } else {
        told.extend_from_slice(&known)
    }
}

/// Adds the gate word for the word in its place in the line.
fn push_for_gate(
    alloc: Global,
    told: &mut Vec<u8>,
    number: u64,
    text: Option<&[u8]>,
) -> Result<(), AllocError>
    ensures { OnOk result (told.new.items ≡ told.old.items
        ++ for_gate number (seen_text text.entry)) }
{
    let Some(code) = code_in(text, number) else {
        return Ok(());
    };
    match nth_name(code, 1) {
        Some(word) => push_gate(alloc, told, word),
        None => Ok(()),
    }
}

/// Adds the net of the circuit that is near to a name that no net has.
fn push_for_net(
    alloc: Global,
    told: &mut Vec<u8>,
    circuit: Option<&[u8]>,
    name: Option<&[u8]>,
) -> Result<(), AllocError>
    ensures { OnOk result (told.new.items ≡ told.old.items
        ++ for_net (seen_text circuit.entry) (seen_text name.entry)) }
{
    match (circuit, name) {
        (Some(circuit), Some(name)) => push_near_net(
            alloc,
            told,
            " of the .bench text",
            name,
            circuit,
        ),
        _ => Ok(()),
    }
}

/// Returns the name that no net has: one that no text contains, or else that of the line.
fn unknown_net<'a>(
    subject: Subject,
    number: u64,
    text: Option<&'a [u8]>,
    word: Option<&'a [u8]>,
) -> Option<&'a [u8]>
    ensures { option_map (λ name. name.now) result
        ≡ unknown_net subject number (seen_text text.entry) (seen_text word.entry) }
{
    match word {
        Some(word) => Some(word),
        None => Some(topic_of(subject, code_in(text, number)?).net),
    }
}

/// Returns the line with a number, without its comment, if the text is known and has it.
fn code_in(text: Option<&[u8]>, number: u64) -> Option<&[u8]>
    ensures { option_map (λ code. code.now) result
        ≡ option_and_then (code_at number) (seen_text text.entry) }
{
    code_at(text?, number)
}

fn code_at(text: &[u8], number: u64) -> Option<&[u8]>
    ensures { option_map (λ code. code.now) result ≡ code_at number text.now }
{
    match line_at(text, number) {
        Some(line) => Some(code_of(line)),
        None => None,
    }
}

/// Adds the line that defines the net that is near to a name, if there is one; `place` says in which text.
fn push_near_net(
    alloc: Global,
    told: &mut Vec<u8>,
    place: &str,
    name: &[u8],
    text: &[u8],
) -> Result<(), AllocError>
    ensures { OnOk result (told.new.items ≡ told.old.items ++ near_net_told place.now name.now text.now) }
{
    match near_among(name, nets_in(alloc, text)?) {
        Some(net) => push_defined(alloc, told, place, text, net),
        None => Ok(()),
    }
}
