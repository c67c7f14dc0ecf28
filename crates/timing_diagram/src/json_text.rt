//! What drawings that are JSON are made of.
ghost use Rattle.std.specs.Prelude.{◌≡◌, map, IfOk, decimal, encode_utf8_all, string_bytes};
ghost use Rattle.serde_json.specs.View.{view};
ghost use Rattle.timing_diagram.specs.WaveJson.{text_data};

use serde_json::Value;
use std::alloc::{AllocError, Global};
use texts::push_number;

/// Returns a text of these characters, each given by its number.
pub(crate) fn text_of(alloc: Global, characters: &[u8]) -> Result<Value, AllocError>
    ensures { IfOk result (λ text. view text ≡ text_data characters.now) }
{
    let mut text = String::with_capacity(alloc, characters.len())?;
    for character in characters {
        text.push(char::from(*character))?;
    }
    Ok(Value::String(text))
}

/// Returns a number's digits as a text.
pub(crate) fn digits_of(alloc: Global, number: u64) -> Result<Value, AllocError>
    ensures { IfOk result (λ text. view text ≡ text_data (decimal number)) }
{
    let mut digits = Vec::new(alloc);
    push_number(&mut digits, number)?;
    text_of(alloc, digits.as_slice())
}
