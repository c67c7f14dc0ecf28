//! Buses as text.
ghost use Rattle.std.specs.Prelude.{◌≡◌, ◌<◌, ◌++◌, length, map, flat_map, OnOk};
ghost use Rattle.logic3.specs.Wave.{value_at};
ghost use Rattle.timing_diagram.specs.Bus.{seen_bus};
ghost use Rattle.timing_diagram.specs.Columns.{column_count};
ghost use Rattle.timing_diagram.specs.Drawing.{bus_line, bus_piece, bus_text, value_text};
ghost use Rattle.timing_diagram.specs.Picture.{widest};

use crate::bus::Bus;
use crate::columns::Columns;
use crate::digits::{digit_count, push_digits};
use crate::pieces::push_times;
use crate::spans::{begins, fits, lasting, shows_bits};
use logic3::Waveform;
use std::alloc::AllocError;

/// Returns the length in bytes of the longest name of some buses.
pub(crate) fn widest_bus(buses: &[Bus<'_>]) -> usize
    ensures { result ≡ widest (map seen_bus buses.now) }
{
    let mut width = 0;
    for bus in buses {
        width = bus.name.len().max(width);
    }
    width
}

/// Adds the lines of some buses, whose names are at most as long as the width.
pub(crate) fn push_bus_lines(
    text: &mut Vec<u8>,
    width: usize,
    buses: &[Bus<'_>],
    columns: Columns,
) -> Result<(), AllocError>
    ensures { OnOk result (text.new.items ≡ text.old.items
        ++ flat_map (bus_line width columns) (map seen_bus buses.now)) }
{
    for bus in buses {
        push_bus_line(text, width, bus, columns)?;
    }
    Ok(())
}

fn push_bus_line(
    text: &mut Vec<u8>,
    width: usize,
    bus: &Bus<'_>,
    columns: Columns,
) -> Result<(), AllocError>
    ensures { OnOk result
        (text.new.items ≡ text.old.items ++ bus_line width columns (seen_bus bus.now)) }
{
    text.extend_from_slice(bus.name)?;
    push_times(text, b' ', width.saturating_sub(bus.name.len()))?;
    text.extend_from_slice(b"  ")?;
    push_pieces(text, bus.bits.as_slice(), columns)?;
    text.push(b'\n')?;
    Ok(())
}

fn push_pieces(text: &mut Vec<u8>, bits: &[Waveform], columns: Columns) -> Result<(), AllocError>
    ensures { OnOk result
        (text.new.items ≡ text.old.items ++ bus_text (map value_at bits.now) columns) }
{
    for column in 0..columns.count() {
        push_piece(text, bits, columns, column)?;
    }
    Ok(())
}

/// Adds the characters of the columns from one on that show the same, if that begins there.
fn push_piece(
    text: &mut Vec<u8>,
    bits: &[Waveform],
    columns: Columns,
    column: u64,
) -> Result<(), AllocError>
    requires { column < column_count columns }
    ensures { OnOk result
        (text.new.items ≡ text.old.items ++ bus_piece (map value_at bits.now) columns column) }
{
    if !begins(bits, columns, column) {
        return Ok(());
    }
    if !shows_bits(bits, columns, column) {
        text.push(b'|')?;
        return Ok(());
    }
    push_value(text, bits, columns, column)
}

/// Adds the characters of the value that a column shows, as long as it lasts.
fn push_value(
    text: &mut Vec<u8>,
    bits: &[Waveform],
    columns: Columns,
    column: u64,
) -> Result<(), AllocError>
    requires { column < column_count columns }
    ensures { OnOk result
        (text.new.items ≡ text.old.items ++ value_text (map value_at bits.now) columns column) }
{
    let lasting = lasting(bits, columns, column) as usize;
    if !fits(bits, columns, column) {
        return push_times(text, b'#', lasting);
    }
    push_digits(text, bits, columns.shown(column))?;
    push_times(text, b'.', lasting.saturating_sub(digit_count(bits)))
}
