//! Buses as SVG.
ghost use Rattle.std.specs.Prelude.{◌≡◌, ◌<◌, ◌≤◌, ◌++◌, ◌+◌, ◌^◌, ◌&&◌, length, map, flat_map, OnOk};
ghost use Rattle.std.specs.List.{enumerate_from};
ghost use Rattle.logic3.specs.Wave.{value_at};
ghost use Rattle.timing_diagram.specs.Bus.{begins, fits, seen_bus, shows_bits};
ghost use Rattle.timing_diagram.specs.Columns.{column_count};
ghost use Rattle.timing_diagram.specs.Picture.{box_path, bus_labels, bus_path, bus_row, path_row, value_label, value_path};

use crate::bus::Bus;
use crate::columns::Columns;
use crate::digits::push_digits;
use crate::mark::Mark;
use crate::picture::{mark_path, push_name};
use crate::spans::{begins, fits, lasting, shows_bits};
use logic3::Waveform;
use std::alloc::AllocError;
use texts::push_numbered;

/// Adds some buses at the places from `first` on.
pub(crate) fn push_bus_rows(
    text: &mut Vec<u8>,
    first: u64,
    buses: &[Bus<'_>],
    left: u64,
    columns: Columns,
) -> Result<(), AllocError>
    requires first { first < 2 ^ 32 }
    requires left { left < 2 ^ 32 }
    ensures { OnOk result (text.new.items ≡ text.old.items
        ++ flat_map (bus_row left columns) (enumerate_from first (map seen_bus buses.now))) }
{
    for (place, bus) in buses.iter().enumerate() {
        push_bus_row(text, first + place as u64, bus, left, columns)?;
    }
    Ok(())
}

fn push_bus_row(
    text: &mut Vec<u8>,
    place: u64,
    bus: &Bus<'_>,
    left: u64,
    columns: Columns,
) -> Result<(), AllocError>
    requires place { place < 2 ^ 58 }
    requires left { left < 2 ^ 32 }
    ensures { OnOk result
        (text.new.items ≡ text.old.items ++ bus_row left columns (place, seen_bus bus.now)) }
{
    let bits = bus.bits.as_slice();
    push_name(text, place, bus.name)?;
    push_shape(text, place, bits, left, columns)?;
    push_labels(text, place, bits, left, columns)?;
    Ok(())
}

fn push_shape(
    text: &mut Vec<u8>,
    place: u64,
    bits: &[Waveform],
    left: u64,
    columns: Columns,
) -> Result<(), AllocError>
    requires place { place < 2 ^ 58 }
    ensures { OnOk result (text.new.items ≡ text.old.items
        ++ path_row left place (bus_path (map value_at bits.now) columns)) }
{
    push_numbered(text, b"<path transform=\"translate(", left)?;
    push_numbered(text, b" ", 30 * place + 30)?;
    text.extend_from_slice(b")\" d=\"")?;
    push_values(text, bits, columns)?;
    text.extend_from_slice(b"\" fill=\"none\" stroke=\"currentColor\"/>\n")?;
    Ok(())
}

fn push_values(text: &mut Vec<u8>, bits: &[Waveform], columns: Columns) -> Result<(), AllocError>
    ensures { OnOk result
        (text.new.items ≡ text.old.items ++ bus_path (map value_at bits.now) columns) }
{
    for column in 0..columns.count() {
        push_value(text, bits, columns, column)?;
    }
    Ok(())
}

/// Adds the lines of the columns from one on that show the same, if that begins there.
fn push_value(
    text: &mut Vec<u8>,
    bits: &[Waveform],
    columns: Columns,
    column: u64,
) -> Result<(), AllocError>
    requires { column < column_count columns }
    ensures { OnOk result
        (text.new.items ≡ text.old.items ++ value_path (map value_at bits.now) columns column) }
{
    if !begins(bits, columns, column) {
        return Ok(());
    }
    if shows_bits(bits, columns, column) {
        return push_box(text, column, lasting(bits, columns, column));
    }
    push_numbered(text, b"M", 10 * column)?;
    text.extend_from_slice(mark_path(Mark::Changing))
}

/// Adds a box around a number of columns.
fn push_box(text: &mut Vec<u8>, column: u64, columns: u64) -> Result<(), AllocError>
    requires column { column < 2 ^ 32 }
    requires columns { columns < 2 ^ 32 }
    ensures { OnOk result (text.new.items ≡ text.old.items ++ box_path column columns) }
{
    push_numbered(text, b"M", 10 * column)?;
    push_numbered(text, b" 0h", 10 * columns)?;
    push_numbered(text, b"v16h-", 10 * columns)?;
    text.push(b'z')?;
    Ok(())
}

fn push_labels(
    text: &mut Vec<u8>,
    place: u64,
    bits: &[Waveform],
    left: u64,
    columns: Columns,
) -> Result<(), AllocError>
    requires place { place < 2 ^ 58 }
    requires left { left < 2 ^ 32 }
    ensures { OnOk result (text.new.items ≡ text.old.items
        ++ bus_labels left place (map value_at bits.now) columns) }
{
    for column in 0..columns.count() {
        push_label(text, place, bits, left, columns, column)?;
    }
    Ok(())
}

/// Adds the digits of the value that begins at a column, if its box has room for them.
fn push_label(
    text: &mut Vec<u8>,
    place: u64,
    bits: &[Waveform],
    left: u64,
    columns: Columns,
    column: u64,
) -> Result<(), AllocError>
    requires place { place < 2 ^ 58 }
    requires left { left < 2 ^ 32 }
    requires column { column < column_count columns }
    ensures { OnOk result (text.new.items ≡ text.old.items
        ++ value_label left place (map value_at bits.now) columns column) }
{
    if !has_label(bits, columns, column) {
        return Ok(());
    }
    push_numbered(text, b"<text x=\"", left + 10 * column + 2)?;
    push_numbered(text, b"\" y=\"", 30 * place + 42)?;
    text.extend_from_slice(b"\">")?;
    push_digits(text, bits, columns.shown(column))?;
    text.extend_from_slice(b"</text>\n")?;
    Ok(())
}

/// Returns whether a value begins at a column, and its box has room for its digits.
fn has_label(bits: &[Waveform], columns: Columns, column: u64) -> bool
    requires { column < column_count columns }
    ensures { result ≡ (begins (map value_at bits.now) columns column
        && (shows_bits (map value_at bits.now) columns column && fits (map value_at bits.now) columns column)) }
{
    begins(bits, columns, column)
        && shows_bits(bits, columns, column)
        && fits(bits, columns, column)
}
