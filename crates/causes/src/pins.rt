//! What pins show, and since when.
ghost use Rattle.std.specs.Prelude.{◌≡◌, ◌<◌, ◌≤◌, length, All, IfOk};
ghost use Rattle.design.specs.Equations.{pin_signals, signals_in, values_at};
ghost use Rattle.causes.specs.Deciding.{pin_since, pins_since, since};

use crate::deciding::last_tick;
use design::plain::read_pins;
use logic3::{Value, Waveform};
use std::alloc::{AllocError, Global};

/// Returns the tick since which a net shows what it shows at a tick.
pub fn since(waves: &[Waveform], net: u32, tick: u64) -> u64
    requires { net < length waves.now }
    ensures since { result ≡ since (signals_in waves.now net) tick }
    ensures within { result ≤ tick }
{
    last_tick(waves[net as usize].changes(), tick).unwrap_or(0)
}

/// Returns the tick since which a pin shows what it shows at a tick; 0 before its wire delay is over.
fn pin_since(waves: &[Waveform], pin: u32, wire: u32, tick: u64) -> u64
    requires { pin < length waves.now }
    ensures { result ≡ pin_since wire (signals_in waves.now pin) tick }
{
    match tick.checked_sub(u64::from(wire)) {
        Some(at) => since(waves, pin, at) + u64::from(wire),
        None => 0,
    }
}

/// Returns what pins show at a tick.
pub fn pin_values(
    alloc: Global,
    waves: &[Waveform],
    pins: &[u32],
    wires: &[u32],
    tick: u64,
) -> Result<Vec<Value>, AllocError>
    requires pins { All (λ pin. pin < length waves.now) pins.now }
    requires wires { length wires.now ≡ length pins.now }
    ensures { IfOk result (λ values. values.items ≡ values_at tick (pin_signals (signals_in waves.now) pins.now wires.now)) }
{
    let mut values = Vec::new(alloc);
    read_pins(pins, wires, waves, tick, &mut values)?;
    Ok(values)
}

/// Returns the ticks since which pins show what they show at a tick.
pub fn pins_since(
    alloc: Global,
    waves: &[Waveform],
    pins: &[u32],
    wires: &[u32],
    tick: u64,
) -> Result<Vec<u64>, AllocError>
    requires pins { All (λ pin. pin < length waves.now) pins.now }
    requires wires { length wires.now ≡ length pins.now }
    ensures { IfOk result (λ ticks. ticks.items ≡ pins_since (signals_in waves.now) tick pins.now wires.now) }
{
    let mut ticks = Vec::new(alloc);
    for place in 0..pins.len() {
        ticks.push(pin_since(waves, pins[place], wires[place], tick))?;
    }
    Ok(ticks)
}
