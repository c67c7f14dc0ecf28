//! What a page of waveforms shows, as JSON.
ghost use Rattle.std.specs.Prelude.{◌≡◌, ◌<◌, ◌++◌, length, map, All, IfOk, OnOk};
ghost use Rattle.logic3.specs.Wave.{value_at};
ghost use Rattle.serde_json.specs.View.{view};
ghost use Rattle.vcd_dump.specs.Traces.{traces};
ghost use Rattle.timing_diagram.specs.Bus.{seen_bus};
ghost use Rattle.logic3.specs.declared.change.Change.{Change};
ghost use Rattle.timing_diagram.specs.WaveJson.{text_data, value_character};
ghost use Rattle.timing_diagram.specs.WavesPage.{begin_ticks, begin_values, bit_lane, bus_lane, later_changes, net_lane, number_data, page_data};

use crate::bus::Bus;
use crate::columns::Columns;
use crate::json_text::text_of;
use crate::wave_json::value_character;
use design::Design;
use logic3::{Change, Waveform};
use serde_json::{Value, json};
use std::alloc::{AllocError, Global};

/// Returns the data of a page.
pub(crate) fn page_data(
    alloc: Global,
    design: &Design,
    shown: &[u32],
    waves: &[Waveform],
    buses: &[Bus<'_>],
    columns: Columns,
) -> Result<Value, AllocError>
    requires shown_exist { All (λ net. net < length design.now.circuit) shown.now }
    requires one_wave_each { length waves.now ≡ length shown.now }
    ensures { IfOk result (λ page. view page
        ≡ page_data columns (traces design.now.circuit shown.now waves.now) (map seen_bus buses.now)) }
{
    let nets = net_lanes(alloc, design, shown, waves, columns)?;
    let buses = bus_lanes(alloc, buses, columns)?;
    let from = columns.from_tick();
    let to = columns.to_tick();
    json!(in alloc; {"form": "nullsim waves 1", "from": from, "to": to, "nets": nets, "buses": buses})
}

fn net_lanes(
    alloc: Global,
    design: &Design,
    shown: &[u32],
    waves: &[Waveform],
    columns: Columns,
) -> Result<Vec<Value>, AllocError>
    requires shown_exist { All (λ net. net < length design.now.circuit) shown.now }
    requires one_wave_each { length waves.now ≡ length shown.now }
    ensures { IfOk result (λ lanes. map view lanes.items
        ≡ map (net_lane columns) (traces design.now.circuit shown.now waves.now)) }
{
    let mut lanes = Vec::with_capacity(alloc, shown.len())?;
    for (place, net) in shown.iter().enumerate() {
        lanes.push(net_lane(alloc, design.name(*net), &waves[place], columns)?)?;
    }
    Ok(lanes)
}

fn bus_lanes(alloc: Global, buses: &[Bus<'_>], columns: Columns) -> Result<Vec<Value>, AllocError>
    ensures { IfOk result (λ lanes. map view lanes.items ≡ map (bus_lane columns) (map seen_bus buses.now)) }
{
    let mut lanes = Vec::with_capacity(alloc, buses.len())?;
    for bus in buses {
        lanes.push(bus_lane(alloc, bus, columns)?)?;
    }
    Ok(lanes)
}

/// Returns the lane of a net: its name, the ticks at which its values begin, and their characters.
fn net_lane(
    alloc: Global,
    name: &[u8],
    wave: &Waveform,
    columns: Columns,
) -> Result<Value, AllocError>
    ensures { IfOk result (λ lane. view lane ≡ net_lane columns (name.now, value_at wave.now)) }
{
    let name = text_of(alloc, name)?;
    let ticks = begin_ticks(alloc, wave, columns)?;
    let values = begin_values(alloc, wave, columns)?;
    json!(in alloc; {"name": name, "ticks": ticks, "values": values})
}

/// Returns the lane of a bus: its name and its bits.
fn bus_lane(alloc: Global, bus: &Bus<'_>, columns: Columns) -> Result<Value, AllocError>
    ensures { IfOk result (λ lane. view lane ≡ bus_lane columns (seen_bus bus.now)) }
{
    let name = text_of(alloc, bus.name)?;
    let bits = bit_lanes(alloc, bus.bits.as_slice(), columns)?;
    json!(in alloc; {"name": name, "bits": bits})
}

fn bit_lanes(alloc: Global, bits: &[Waveform], columns: Columns) -> Result<Vec<Value>, AllocError>
    ensures { IfOk result (λ lanes. map view lanes.items ≡ map (bit_lane columns) (map value_at bits.now)) }
{
    let mut lanes = Vec::with_capacity(alloc, bits.len())?;
    for bit in bits {
        lanes.push(bit_lane(alloc, bit, columns)?)?;
    }
    Ok(lanes)
}

fn bit_lane(alloc: Global, bit: &Waveform, columns: Columns) -> Result<Value, AllocError>
    ensures { IfOk result (λ lane. view lane ≡ bit_lane columns (value_at bit.now)) }
{
    let ticks = begin_ticks(alloc, bit, columns)?;
    let values = begin_values(alloc, bit, columns)?;
    json!(in alloc; {"ticks": ticks, "values": values})
}

/// Returns the changes after the first tick, up to the last.
pub(crate) fn later_changes<'w>(wave: &'w Waveform, columns: Columns) -> &'w [Change]
    ensures { result.now ≡ later_changes (value_at wave.now) columns }
{
    let _alternating = wave.changes();
    wave.changes_within(columns.from_tick() + 1, columns.to_tick() + 1)
}

/// Returns the ticks at which values begin: the first tick, and those of the changes.
fn begin_ticks(alloc: Global, wave: &Waveform, columns: Columns) -> Result<Vec<Value>, AllocError>
    ensures { IfOk result (λ ticks. map view ticks.items ≡ map number_data (begin_ticks (value_at wave.now) columns)) }
{
    let changes = later_changes(wave, columns);
    let mut ticks = Vec::new(alloc);
    ticks.push(Value::from(columns.from_tick()))?;
    for change in changes {
        ticks.push(Value::from(change.tick))?;
    }
    Ok(ticks)
}

/// Returns the characters of these values.
fn begin_values(alloc: Global, wave: &Waveform, columns: Columns) -> Result<Value, AllocError>
    ensures { IfOk result (λ values. view values ≡ text_data (begin_values (value_at wave.now) columns)) }
{
    let mut values = Vec::new(alloc);
    values.push(value_character(wave.value_at(columns.from_tick())))?;
    push_values(&mut values, later_changes(wave, columns))?;
    text_of(alloc, values.as_slice())
}

/// Adds the characters of the values of some changes.
fn push_values(values: &mut Vec<u8>, changes: &[Change]) -> Result<(), AllocError>
    ensures { OnOk result (values.new.items ≡ values.old.items
        ++ map (λ (change : Change). value_character change.value) changes.now) }
{
    for change in changes {
        values.push(value_character(change.value))?;
    }
    Ok(())
}
