//! Drawings as WaveJSON, which WaveDrom draws.
ghost use Rattle.std.specs.Prelude.{◌≡◌, ◌<◌, ◌++◌, [], length, map, replicate, All, IfOk, OnOk};
ghost use Rattle.logic3.specs.Wave.{value_at};
ghost use Rattle.serde_json.specs.View.{view};
ghost use Rattle.vcd_dump.specs.Traces.{traces};
ghost use Rattle.timing_diagram.specs.Bus.{seen_bus};
ghost use Rattle.timing_diagram.specs.Columns.{column_count};
ghost use Rattle.timing_diagram.specs.Ruler.{label_count};
ghost use Rattle.timing_diagram.specs.WaveJson.{bus_character, bus_characters, bus_data, bus_value, bus_values, label_data, labels_data, lanes_data, net_data, repeats, text_data, value_character, wave_character, wave_characters, wave_data, wave_json_text};

use crate::bus::Bus;
use crate::columns::Columns;
use crate::digits::push_digits;
use crate::json_text::{digits_of, text_of};
use crate::marks::shows_value;
use crate::spans::{begins, shows_bits, shows_same};
use design::Design;
use logic3::Waveform;
use serde_json::json;
use std::alloc::{AllocError, Global};

/// Adds the drawing of some nets and buses as WaveJSON.
pub(crate) fn push_wave_json(
    alloc: Global,
    text: &mut Vec<u8>,
    design: &Design,
    shown: &[u32],
    waves: &[Waveform],
    buses: &[Bus<'_>],
    columns: Columns,
) -> Result<(), AllocError>
    requires shown_exist { All (λ net. net < length design.now.circuit) shown.now }
    requires one_wave_each { length waves.now ≡ length shown.now }
    ensures { OnOk result (text.new.items ≡ text.old.items
        ++ wave_json_text columns (traces design.now.circuit shown.now waves.now) (map seen_bus buses.now)) }
{
    let data = wave_data(alloc, design, shown, waves, buses, columns)?;
    let json = data.to_vec(alloc)?;
    text.extend_from_slice(json.as_slice())?;
    text.push(b'\n')?;
    Ok(())
}

fn wave_data(
    alloc: Global,
    design: &Design,
    shown: &[u32],
    waves: &[Waveform],
    buses: &[Bus<'_>],
    columns: Columns,
) -> Result<serde_json::Value, AllocError>
    requires shown_exist { All (λ net. net < length design.now.circuit) shown.now }
    requires one_wave_each { length waves.now ≡ length shown.now }
    ensures { IfOk result (λ made. view made
        ≡ wave_data columns (traces design.now.circuit shown.now waves.now) (map seen_bus buses.now)) }
{
    let labels = labels_data(alloc, columns)?;
    let mut lanes = Vec::with_capacity(alloc, shown.len() + buses.len())?;
    push_nets(alloc, &mut lanes, design, shown, waves, columns)?;
    push_buses(alloc, &mut lanes, buses, columns)?;
    json!(in alloc; {"signal": lanes, "foot": {"tick": labels}})
}

/// Adds the lanes of some nets.
fn push_nets(
    alloc: Global,
    lanes: &mut Vec<serde_json::Value>,
    design: &Design,
    shown: &[u32],
    waves: &[Waveform],
    columns: Columns,
) -> Result<(), AllocError>
    requires shown_exist { All (λ net. net < length design.now.circuit) shown.now }
    requires one_wave_each { length waves.now ≡ length shown.now }
    ensures { OnOk result (map view lanes.new.items ≡ map view lanes.old.items
        ++ map (net_data columns) (traces design.now.circuit shown.now waves.now)) }
{
    for (place, net) in shown.iter().enumerate() {
        lanes.push(net_data(alloc, design.name(*net), &waves[place], columns)?)?;
    }
    Ok(())
}

/// Adds the lanes of some buses.
fn push_buses(
    alloc: Global,
    lanes: &mut Vec<serde_json::Value>,
    buses: &[Bus<'_>],
    columns: Columns,
) -> Result<(), AllocError>
    ensures { OnOk result (map view lanes.new.items ≡ map view lanes.old.items
        ++ map (bus_data columns) (map seen_bus buses.now)) }
{
    for bus in buses {
        lanes.push(bus_data(alloc, bus, columns)?)?;
    }
    Ok(())
}

/// Returns the lane of a net.
fn net_data(
    alloc: Global,
    name: &[u8],
    wave: &Waveform,
    columns: Columns,
) -> Result<serde_json::Value, AllocError>
    ensures { IfOk result (λ lane. view lane ≡ net_data columns (name.now, value_at wave.now)) }
{
    let mut characters = Vec::with_capacity(alloc, columns.count() as usize)?;
    push_wave(&mut characters, wave, columns)?;
    let name = text_of(alloc, name)?;
    let wave = text_of(alloc, characters.as_slice())?;
    json!(in alloc; {"name": name, "wave": wave})
}

fn push_wave(characters: &mut Vec<u8>, wave: &Waveform, columns: Columns) -> Result<(), AllocError>
    ensures { OnOk result
        (characters.new.items ≡ characters.old.items ++ wave_characters (value_at wave.now) columns) }
{
    for column in 0..columns.count() {
        characters.push(wave_character(wave, columns, column))?;
    }
    Ok(())
}

/// Returns the character of a column: that of its value, a dot if the column before shows it too, or a bar if the net
/// changes within.
fn wave_character(wave: &Waveform, columns: Columns, column: u64) -> u8
    requires { column < column_count columns }
    ensures { result ≡ wave_character (value_at wave.now) columns column }
{
    if repeats(wave, columns, column) {
        b'.'
    } else if shows_value(wave, columns, column) {
        value_character(wave.value_at(columns.shown(column)))
    } else {
        b'|'
    }
}

/// Returns whether a column shows the same value as the one before it.
fn repeats(wave: &Waveform, columns: Columns, column: u64) -> bool
    requires { column < column_count columns }
    ensures { result ≡ repeats (value_at wave.now) columns column }
{
    column != 0 && shows_same(wave, columns, column - 1, column)
}

pub(crate) fn value_character(value: logic3::Value) -> u8
    ensures { result ≡ value_character value }
{
    match value {
        logic3::Value::Zero => b'0',
        logic3::Value::One => b'1',
        logic3::Value::Unknown => b'x',
    }
}

/// Returns the lane of a bus.
fn bus_data(alloc: Global, bus: &Bus<'_>, columns: Columns) -> Result<serde_json::Value, AllocError>
    ensures { IfOk result (λ lane. view lane ≡ bus_data columns (seen_bus bus.now)) }
{
    let bits = bus.bits.as_slice();
    let values = bus_values(alloc, bits, columns)?;
    let mut characters = Vec::with_capacity(alloc, columns.count() as usize)?;
    push_bus_characters(&mut characters, bits, columns)?;
    let name = text_of(alloc, bus.name)?;
    let wave = text_of(alloc, characters.as_slice())?;
    json!(in alloc; {"name": name, "wave": wave, "data": values})
}

fn push_bus_characters(
    characters: &mut Vec<u8>,
    bits: &[Waveform],
    columns: Columns,
) -> Result<(), AllocError>
    ensures { OnOk result
        (characters.new.items ≡ characters.old.items ++ bus_characters (map value_at bits.now) columns) }
{
    for column in 0..columns.count() {
        characters.push(bus_character(bits, columns, column))?;
    }
    Ok(())
}

/// Returns the character of a column: an equals sign if a value begins there, a bar if a bit changes within, else a
/// dot.
fn bus_character(bits: &[Waveform], columns: Columns, column: u64) -> u8
    requires { column < column_count columns }
    ensures { result ≡ bus_character (map value_at bits.now) columns column }
{
    if !begins(bits, columns, column) {
        b'.'
    } else if shows_bits(bits, columns, column) {
        b'='
    } else {
        b'|'
    }
}

/// Returns the digits of each value of a bus.
fn bus_values(
    alloc: Global,
    bits: &[Waveform],
    columns: Columns,
) -> Result<Vec<serde_json::Value>, AllocError>
    ensures { IfOk result (λ values. map view values.items ≡ bus_values (map value_at bits.now) columns) }
{
    let mut values = Vec::new(alloc);
    for column in 0..columns.count() {
        push_bus_value(alloc, &mut values, bits, columns, column)?;
    }
    Ok(values)
}

/// Adds the digits of the value that begins at a column, if one does.
fn push_bus_value(
    alloc: Global,
    values: &mut Vec<serde_json::Value>,
    bits: &[Waveform],
    columns: Columns,
    column: u64,
) -> Result<(), AllocError>
    requires { column < column_count columns }
    ensures { OnOk result (map view values.new.items ≡ map view values.old.items
        ++ bus_value (map value_at bits.now) columns column) }
{
    if begins(bits, columns, column) && shows_bits(bits, columns, column) {
        let mut digits = Vec::new(alloc);
        push_digits(&mut digits, bits, columns.shown(column))?;
        values.push(text_of(alloc, digits.as_slice())?)?;
    }
    Ok(())
}

/// Returns the ticks above the columns, each at its column, with nothing at the columns between.
fn labels_data(alloc: Global, columns: Columns) -> Result<Vec<serde_json::Value>, AllocError>
    ensures { IfOk result (λ labels. map view labels.items ≡ labels_data columns) }
{
    let mut labels = Vec::new(alloc);
    push_blanks(alloc, &mut labels, columns.label_column(0))?;
    for place in 0..columns.label_count() {
        push_label(alloc, &mut labels, columns, place)?;
    }
    Ok(labels)
}

fn push_label(
    alloc: Global,
    labels: &mut Vec<serde_json::Value>,
    columns: Columns,
    place: u64,
) -> Result<(), AllocError>
    requires { place < label_count columns }
    ensures { OnOk result (map view labels.new.items ≡ map view labels.old.items ++ label_data columns place) }
{
    labels.push(digits_of(alloc, columns.label(place))?)?;
    push_blanks(alloc, labels, 9)
}

/// Adds a number of texts without characters.
fn push_blanks(
    alloc: Global,
    labels: &mut Vec<serde_json::Value>,
    count: u64,
) -> Result<(), AllocError>
    ensures { OnOk result (map view labels.new.items ≡ map view labels.old.items
        ++ replicate count (text_data [])) }
{
    for _blank in 0..count {
        labels.push(text_of(alloc, b"")?)?;
    }
    Ok(())
}
