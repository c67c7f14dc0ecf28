//! The columns in which a bus shows the same.
ghost use Rattle.std.specs.Prelude.{◌≡◌, ◌<◌, ◌≤◌, ◌+◌, length, map};
ghost use Rattle.logic3.specs.Wave.{value_at};
ghost use Rattle.timing_diagram.specs.Bus.{are_alike, begins, fits, lasting, shows_bits, shows_same};
ghost use Rattle.timing_diagram.specs.Columns.{column_count};

use crate::columns::Columns;
use crate::digits::digit_count;
use crate::marks::shows_value;
use logic3::Waveform;

/// Returns whether a column shows a value of each bit.
pub(crate) fn shows_bits(bits: &[Waveform], columns: Columns, column: u64) -> bool
    requires { column < column_count columns }
    ensures { result ≡ shows_bits (map value_at bits.now) columns column }
{
    for bit in bits {
        if !shows_value(bit, columns, column) {
            return false;
        }
    }
    true
}

/// Returns whether two columns show the same value of a bit.
pub(crate) fn shows_same(bit: &Waveform, columns: Columns, column: u64, other: u64) -> bool
    requires column { column < column_count columns }
    requires other { other < column_count columns }
    ensures { result ≡ shows_same columns column other (value_at bit.now) }
{
    shows_value(bit, columns, column)
        && shows_value(bit, columns, other)
        && bit.value_at(columns.shown(column)) == bit.value_at(columns.shown(other))
}

/// Returns whether two columns show the same value of each bit.
fn are_alike(bits: &[Waveform], columns: Columns, column: u64, other: u64) -> bool
    requires column { column < column_count columns }
    requires other { other < column_count columns }
    ensures { result ≡ are_alike (map value_at bits.now) columns column other }
{
    for bit in bits {
        if !shows_same(bit, columns, column, other) {
            return false;
        }
    }
    true
}

/// Returns whether a column is the first one, or shows something else than the one before it.
pub(crate) fn begins(bits: &[Waveform], columns: Columns, column: u64) -> bool
    requires { column < column_count columns }
    ensures { result ≡ begins (map value_at bits.now) columns column }
{
    column == 0 || !are_alike(bits, columns, column - 1, column)
}

/// Returns the number of columns from this one on that show what this one shows.
pub(crate) fn lasting(bits: &[Waveform], columns: Columns, column: u64) -> u64
    requires { column < column_count columns }
    ensures exact { result ≡ lasting (map value_at bits.now) columns column }
    ensures within { column + result ≤ column_count columns }
{
    let count = columns.count();
    for later in column + 1..count {
        if !are_alike(bits, columns, column, later) {
            return later - column;
        }
    }
    count - column
}

/// Returns whether the digits that a column shows have as many columns as they need.
pub(crate) fn fits(bits: &[Waveform], columns: Columns, column: u64) -> bool
    requires { column < column_count columns }
    ensures { result ≡ fits (map value_at bits.now) columns column }
{
    digit_count(bits) as u64 <= lasting(bits, columns, column)
}
