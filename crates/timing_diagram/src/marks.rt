ghost use Rattle.std.specs.Prelude.{◌≡◌, ◌<◌};
ghost use Rattle.logic3.specs.Wave.{value_at};
ghost use Rattle.timing_diagram.specs.Columns.{column_count};
ghost use Rattle.timing_diagram.specs.Marks.{is_steady, level_mark, mark_at, shows_value};

use crate::columns::Columns;
use crate::mark::Mark;
use logic3::{Value, Waveform};

/// Returns whether a waveform is constant from one tick to another. Takes logarithmic time.
fn is_steady(wave: &Waveform, first: u64, last: u64) -> bool
    ensures { result ≡ is_steady (value_at wave.now) first last }
{
    wave.next_change_after(first).is_none_or(|next| next > last)
}

/// Returns whether a waveform shows a value in a column: the one at its end, or a value that it has throughout.
pub(crate) fn shows_value(wave: &Waveform, columns: Columns, column: u64) -> bool
    requires { column < column_count columns }
    ensures { result ≡ shows_value (value_at wave.now) columns column }
{
    columns.at_end() || is_steady(wave, columns.first(column), columns.last(column))
}

/// Returns the mark of a value, with an edge before it or without.
fn level_mark(edge: bool, value: Value) -> Mark
    ensures { result ≡ level_mark edge value }
{
    match value {
        Value::Zero if edge => Mark::Fall,
        Value::Zero => Mark::Low,
        Value::One if edge => Mark::Rise,
        Value::One => Mark::High,
        Value::Unknown => Mark::Unsure,
    }
}

/// Returns the mark of a waveform in a column. Takes logarithmic time.
pub fn mark_at(wave: &Waveform, columns: Columns, column: u64) -> Mark
    requires { column < column_count columns }
    ensures { result ≡ mark_at (value_at wave.now) columns column }
{
    if !shows_value(wave, columns, column) {
        return Mark::Changing;
    }
    let value = wave.value_at(columns.shown(column));
    let before = columns.first(column).saturating_sub(1);
    let edge = column != 0 && wave.value_at(before) != value;
    level_mark(edge, value)
}
