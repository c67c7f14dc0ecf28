//! The hexadecimal digits of a bus.
ghost use Rattle.std.specs.Prelude.{◌≡◌, ◌<◌, ◌≤◌, ◌++◌, ◌||◌, length, map, OnOk};
ghost use Rattle.logic3.specs.declared.value.Value.TheVariants.{Unknown};
ghost use Rattle.logic3.specs.Value.{is_same};
ghost use Rattle.logic3.specs.Wave.{value_at};
ghost use Rattle.timing_diagram.specs.Bus.{bit_at, bit_number, digit_at, digit_count, digit_of, digits, hex_byte};

use logic3::{Value, Waveform};
use std::alloc::AllocError;

/// Returns the number of digits of a bus with these bits.
pub(crate) fn digit_count(bits: &[Waveform]) -> usize
    ensures { result ≡ digit_count (length bits.now) }
{
    bits.len().div_ceil(4)
}

/// Adds the digits of a bus at a tick, the most significant first.
pub(crate) fn push_digits(
    text: &mut Vec<u8>,
    bits: &[Waveform],
    tick: u64,
) -> Result<(), AllocError>
    ensures { OnOk result (text.new.items ≡ text.old.items ++ digits (map value_at bits.now) tick) }
{
    let count = digit_count(bits);
    for place in 0..count {
        text.push(digit_at(bits, tick, count - 1 - place))?;
    }
    Ok(())
}

/// Returns the digit at a place, counted from the last.
fn digit_at(bits: &[Waveform], tick: u64, place: usize) -> u8
    requires { place < digit_count (length bits.now) }
    ensures { result ≡ digit_at (map value_at bits.now) tick place }
{
    digit_of(
        bit_at(bits, tick, 4 * place + 3),
        bit_at(bits, tick, 4 * place + 2),
        bit_at(bits, tick, 4 * place + 1),
        bit_at(bits, tick, 4 * place),
    )
}

/// Returns the bit at a place, counted from the least significant one, or 0 before the first bit.
fn bit_at(bits: &[Waveform], tick: u64, place: usize) -> Value
    ensures { result ≡ bit_at (map value_at bits.now) tick place }
{
    if place < bits.len() {
        bits[bits.len() - 1 - place].value_at(tick)
    } else {
        Value::Zero
    }
}

/// Returns the digit of four bits: `x` if one of them is X.
fn digit_of(a: Value, b: Value, c: Value, d: Value) -> u8
    ensures { result ≡ digit_of a b c d }
{
    if is_unknown(a, b) || is_unknown(c, d) {
        return b'x';
    }
    hex_byte(8 * bit_number(a) + 4 * bit_number(b) + (2 * bit_number(c) + bit_number(d)))
}

/// Returns whether one of two bits is X.
fn is_unknown(one: Value, other: Value) -> bool
    ensures { result ≡ (is_same one Unknown || is_same other Unknown) }
{
    one == Value::Unknown || other == Value::Unknown
}

fn bit_number(bit: Value) -> u8
    ensures number { result ≡ bit_number bit }
    ensures small { result ≤ 1 }
{
    match bit {
        Value::Zero => 0,
        Value::One => 1,
        Value::Unknown => 0,
    }
}

fn hex_byte(number: u8) -> u8
    requires { number < 16 }
    ensures { result ≡ hex_byte number }
{
    if number < 10 {
        b'0' + number
    } else {
        b'a' - 10 + number
    }
}
