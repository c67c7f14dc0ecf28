//! The lines of the answers to `check` and `twin`.
ghost use Rattle.std.specs.Prelude.{◌≡◌, ◌++◌, flat_map, string_bytes, IfOk, OnOk};
ghost use Rattle.kernel_runs.specs.AnswerText.{check_text, side_line, twin_text};

use crate::check_run::CheckAnswer;
use crate::twin_run::TwinAnswer;
use logic3::Waveform;
use std::alloc::{AllocError, Global};
use std::fmt::Write;

/// Returns the lines of the answer to `check`: `nets N`, `pins N` and `same N`.
///
/// # Errors
/// An allocation failed.
pub fn check_text(alloc: Global, answer: &CheckAnswer) -> Result<String, AllocError>
    ensures { IfOk result (λ text. string_bytes text ≡ check_text answer.now) }
{
    let (nets, pins, same) = (answer.nets, answer.pins, answer.same);
    format!(in alloc; "nets {nets}\npins {pins}\nsame {same}\n")
}

/// Returns the lines of the answer to `twin`: `agree yes` or `agree no`, a line `first T V` for each change of
/// the first waveform, and a line `second T V` for each change of the second one.
///
/// # Errors
/// An allocation failed.
pub fn twin_text(alloc: Global, answer: &TwinAnswer) -> Result<String, AllocError>
    ensures { IfOk result (λ text. string_bytes text ≡ twin_text answer.now) }
{
    let agree = if answer.agree { "yes" } else { "no" };
    let mut text = format!(in alloc; "agree {agree}\n")?;
    push_changes(&mut text, "first", &answer.first)?;
    push_changes(&mut text, "second", &answer.second)?;
    Ok(text)
}

/// Adds a line `SIDE T V` for each change.
fn push_changes(text: &mut String, side: &str, wave: &Waveform) -> Result<(), AllocError>
    ensures { OnOk result (string_bytes text.new ≡
        string_bytes text.old ++ flat_map (side_line side.now) wave.now.changes) }
{
    for change in wave.changes() {
        let (tick, value) = (change.tick, change.value.text());
        write!(text, "{side} {tick} {value}\n")?;
    }
    Ok(())
}
