//! The plain engine: it computes the defining equations tick by tick and net by net.
//!
//! It serves to check other engines, so it is simple: it looks up earlier values in the waveforms so far,
//! and stores nothing else.
ghost use Rattle.std.specs.Prelude.{◌≡◌, ◌+◌, ◌<◌, ◌≤◌, if◌then◌else◌, [], ◌∷◌, length, slice_get, All, IfOk, OnOk};
ghost use Rattle.std.specs.Option.{option_map_or};
ghost use Rattle.logic3.specs.declared.value.Value.TheVariants.{Unknown};
ghost use Rattle.logic3.specs.Value.{is_same};
ghost use Rattle.logic3.specs.Gate.{HasArity, value_of_gate};
ghost use Rattle.logic3.specs.Wave.{last_value, joined};
ghost use Rattle.timing_text.specs.Ranges.{most_ticks};
ghost use Rattle.design.specs.Design.{IsDesign};
ghost use Rattle.design.specs.Equations.{equation_at, later, pin_signals, signals_in, values_at, waves_of};

use crate::design::Design;
use crate::samples::asked_tick;
use logic3::{Change, GateKind, Value, Waveform, gate, value_after};
use netlist::Part;
use std::alloc::{AllocError, Global};
use timing_text::Horizon;

/// Returns the waveforms of all nets, in their order, from tick 0 to the horizon.
///
/// # Errors
/// `AllocError` if an allocation fails.
pub fn plain_waves(
    alloc: Global,
    design: &Design,
    horizon: Horizon,
) -> Result<Vec<Waveform>, AllocError>
    ensures { IfOk result (λ waves. waves.items ≡ waves_of design.now.circuit (horizon + 1)) }
{
    let mut waves = unknown_waves(alloc, design)?;
    let mut values = Vec::new(alloc);
    for tick in 0..horizon.ticks() + 1 {
        advance(design, tick, &mut waves, &mut values)?;
    }
    Ok(waves)
}

/// Returns a waveform for each net, in their order, before tick 0. [`advance`] continues from there.
///
/// # Errors
/// `AllocError` if an allocation fails.
pub fn unknown_waves(alloc: Global, design: &Design) -> Result<Vec<Waveform>, AllocError>
    ensures { IfOk result (λ waves. waves.items ≡ waves_of design.now.circuit 0) }
{
    let mut waves = Vec::new(alloc);
    for _net in 0..design.nets() {
        waves.push(Waveform::new(alloc))?;
    }
    Ok(waves)
}

/// Extends the waveforms of all nets, which cover the ticks before this one, by this tick. `values` is a
/// buffer for the values at a gate's pins, with any content.
///
/// # Errors
/// `AllocError` if an allocation fails. The waveforms are then not valid for any tick.
pub fn advance(
    design: &Design,
    tick: u64,
    waves: &mut [Waveform],
    values: &mut Vec<Value>,
) -> Result<(), AllocError>
    requires tick { tick ≤ most_ticks }
    requires waves { waves.old ≡ waves_of design.now.circuit tick }
    ensures { OnOk result (waves.new ≡ waves_of design.now.circuit (tick + 1)) }
{
    for net in 0..design.nets() {
        let value = net_value(design, net, tick, waves, values)?;
        extend(&mut waves[net as usize], tick, value)?;
    }
    Ok(())
}

/// Extends a waveform by one tick: with a change if the value differs from the last one.
fn extend(wave: &mut Waveform, tick: u64, value: Value) -> Result<(), AllocError>
    requires tick { tick ≤ most_ticks }
    requires later { All (λ (earlier : Change). earlier.tick < tick) wave.old.changes }
    ensures { OnOk result (wave.new ≡ joined wave.old
        (if is_same value (last_value wave.old) then [] else record { tick = tick; value = value } ∷ [])) }
{
    if value != wave.last_value() {
        wave.push(Change { tick, value })?;
    }
    Ok(())
}

/// Returns the value that a net's equation gives at a tick, from what the waveforms show earlier.
fn net_value(
    design: &Design,
    net: u32,
    tick: u64,
    waves: &[Waveform],
    values: &mut Vec<Value>,
) -> Result<Value, AllocError>
    requires formed { IsDesign design.now }
    requires is_net { net < length design.now.circuit }
    requires all_nets { length waves.now ≡ length design.now.circuit }
    ensures { IfOk result
        (λ value. value ≡ equation_at (slice_get design.now.circuit net) (signals_in waves.now) tick) }
{
    let pins = design.pins_of(net);
    let wires = design.wires_of(net);
    let part = design.part(net);
    let timing = design.timing(net);
    let asked = asked_tick(part, timing, tick);
    match part {
        Part::Input => Ok(value_after(Value::Unknown, design.stimuli(net), tick)),
        Part::Gate(kind) => gate_value(kind, pins, wires, asked, waves, values),
        Part::Flop => Ok(sampled_value(pins[0], wires[0], asked, timing.initial, waves)),
    }
}

/// Returns what a gate shows: its value for its pins at the asked tick, or X if there is none.
fn gate_value(
    kind: GateKind,
    pins: &[u32],
    wires: &[u32],
    asked: Option<u64>,
    waves: &[Waveform],
    values: &mut Vec<Value>,
) -> Result<Value, AllocError>
    requires arity { HasArity kind (length pins.now) }
    requires pins { All (λ pin. pin < length waves.now) pins.now }
    requires wires { length wires.now ≡ length pins.now }
    ensures { IfOk result (λ value. value ≡ option_map_or
        (λ tick. value_of_gate kind (values_at tick (pin_signals (signals_in waves.now) pins.now wires.now))) asked Unknown) }
{
    let Some(tick) = asked else {
        return Ok(Value::Unknown);
    };
    read_pins(pins, wires, waves, tick, values)?;
    Ok(gate(kind, values))
}

/// Fills a buffer with what pins show at a tick.
///
/// # Errors
/// `AllocError` if an allocation fails. The content of the buffer is then unspecified.
pub fn read_pins(
    pins: &[u32],
    wires: &[u32],
    waves: &[Waveform],
    tick: u64,
    values: &mut Vec<Value>,
) -> Result<(), AllocError>
    requires pins { All (λ pin. pin < length waves.now) pins.now }
    requires wires { length wires.now ≡ length pins.now }
    ensures { OnOk result (values.new.items ≡ values_at tick (pin_signals (signals_in waves.now) pins.now wires.now)) }
{
    values.clear();
    for place in 0..pins.len() {
        values.push(pin_value(pins[place], wires[place], waves, tick))?;
    }
    Ok(())
}

/// Returns what a flip-flop shows: its pin at the asked tick, or its initial value if there is none.
fn sampled_value(
    pin: u32,
    wire: u32,
    asked: Option<u64>,
    initial: Value,
    waves: &[Waveform],
) -> Value
    requires { pin < length waves.now }
    ensures { result ≡ option_map_or (later wire (signals_in waves.now pin)) asked initial }
{
    match asked {
        Some(tick) => pin_value(pin, wire, waves, tick),
        None => initial,
    }
}

/// Returns what a pin shows at a tick: the value of its source a wire delay earlier, and X before that.
pub fn pin_value(pin: u32, wire: u32, waves: &[Waveform], tick: u64) -> Value
    requires { pin < length waves.now }
    ensures { result ≡ later wire (signals_in waves.now pin) tick }
{
    match tick.checked_sub(u64::from(wire)) {
        Some(earlier) => shown(waves, pin, earlier),
        None => Value::Unknown,
    }
}

/// Returns what the waveform of a net shows at a tick.
#[tactic(auto, using(crate::proofs::Ticks::signals_in_at))]
pub fn shown(waves: &[Waveform], net: u32, tick: u64) -> Value
    requires { net < length waves.now }
    ensures { result ≡ signals_in waves.now net tick }
{
    waves[net as usize].value_at(tick)
}
