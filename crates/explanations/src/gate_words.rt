//! The gate word that is suggested for another word.
ghost use Rattle.std.specs.Prelude.{◌≡◌, ◌++◌, map, option_map, IfOk, OnOk};
ghost use Rattle.std.specs.Char.{to_ascii_uppercase};
ghost use Rattle.std.specs.List.{find};
ghost use Rattle.mistakes.specs.Near.{near_among};
ghost use Rattle.explanations.specs.Suggestion.{between, gate_told, gate_words, gate_written_out, is_numbered, other_gate_told};

use mistakes::near_among;
use std::alloc::{AllocError, Global};

/// The words for a gate or a flip-flop.
static GATE_WORDS: [&[u8]; 11] = [
    b"AND", b"NAND", b"OR", b"NOR", b"XOR", b"XNOR", b"NOT", b"INV", b"BUF", b"BUFF", b"DFF",
];

/// Adds the gate word for a word that isn't one: a gate word that is followed by digits, a gate's full name, or
/// the only gate word near to it, if any.
pub(crate) fn push_gate(alloc: Global, told: &mut Vec<u8>, word: &[u8]) -> Result<(), AllocError>
    ensures { OnOk result (told.new.items ≡ told.old.items ++ gate_told word.now) }
{
    match numbered_gate(&GATE_WORDS, word) {
        Some(gate) => push_between(
            told,
            b"the number of pins isn't part of a gate word: ",
            gate,
            b"\n",
        ),
        None => push_other_gate(told, gate_written_out(alloc, word)?),
    }
}

fn push_other_gate(told: &mut Vec<u8>, gate: Option<&[u8]>) -> Result<(), AllocError>
    ensures { OnOk result (told.new.items ≡ told.old.items ++ other_gate_told (option_map (λ gate. gate.now) gate.entry)) }
{
    let Some(gate) = gate else {
        return Ok(());
    };
    push_between(told, b"did you mean ", gate, b"?\n")
}

/// Adds a gate word between two texts.
fn push_between(
    told: &mut Vec<u8>,
    before: &[u8],
    gate: &[u8],
    after: &[u8],
) -> Result<(), AllocError>
    ensures { OnOk result (told.new.items ≡ told.old.items ++ between before.now gate.now after.now) }
{
    told.extend_from_slice(before)?;
    told.extend_from_slice(gate)?;
    told.extend_from_slice(after)
}

/// Returns the first of some gate words that the word is, followed by digits.
fn numbered_gate<'g>(gates: &[&'g [u8]], word: &[u8]) -> Option<&'g [u8]>
    ensures { option_map (λ gate. gate.now) result ≡ find (is_numbered word.now) (map (λ gate. gate.now) gates.now) }
{
    for gate in gates {
        if is_numbered(word, gate) {
            return Some(*gate);
        }
    }
    None
}

/// Returns whether a word is a gate word in any case of its letters, followed by digits.
fn is_numbered(word: &[u8], gate: &[u8]) -> bool
    ensures { result ≡ is_numbered word.now gate.now }
{
    match word.split_at_checked(gate.len()) {
        Some((first, digits)) => first.eq_ignore_ascii_case(gate)
            && texts::number(digits).is_some(),
        None => false,
    }
}

/// Returns the gate word for the full name of a gate, or the only one near to a word.
fn gate_written_out(alloc: Global, word: &[u8]) -> Result<Option<&'static [u8]>, AllocError>
    ensures { IfOk result (λ gate. option_map (λ gate. gate.now) gate ≡ gate_written_out word.now) }
{
    if word.eq_ignore_ascii_case(b"INVERTER") {
        Ok(Some(b"NOT"))
    } else if word.eq_ignore_ascii_case(b"BUFFER") {
        Ok(Some(b"BUF"))
    } else {
        near_gate(alloc, word)
    }
}

/// Returns the only gate word that is near to a word in capitals.
fn near_gate(alloc: Global, word: &[u8]) -> Result<Option<&'static [u8]>, AllocError>
    ensures { IfOk result (λ gate. option_map (λ gate. gate.now) gate ≡ near_among (map to_ascii_uppercase word.now) gate_words) }
{
    let word = word.to_ascii_uppercase(alloc)?;
    let gates = Vec::from_slice(alloc, &GATE_WORDS)?;
    Ok(near_among(word.as_slice(), gates))
}
