//! Why a net shows its value at a tick, and the net and tick that this leads to.
ghost use Rattle.std.specs.Prelude.{◌≡◌, ◌<◌, length, slice_get, All, IfOk};
ghost use Rattle.logic3.specs.Gate.{HasArity};
ghost use Rattle.logic3.specs.Rising.{TicksRise};
ghost use Rattle.design.specs.Design.{IsDesign};
ghost use Rattle.design.specs.Equations.{signals_in};
ghost use Rattle.causes.specs.Causes.{leads_to};
ghost use Rattle.causes.specs.Reasons.{flop_reason, gate_reason, input_reason, pin_reason, reason_at, source_of};

use crate::cause::{Cause, Reason};
use crate::deciding::{deciding_place, last_tick};
use crate::pins::{pin_values, pins_since};
use design::{Design, asked_tick};
use logic3::{Change, GateKind, Waveform};
use netlist::Part;
use std::alloc::{AllocError, Global};

/// Returns why a net shows its value at a tick, by its equation.
pub fn reason_at(
    alloc: Global,
    design: &Design,
    waves: &[Waveform],
    net: u32,
    tick: u64,
) -> Result<Reason, AllocError>
    requires formed { IsDesign design.now }
    requires is_net { net < length design.now.circuit }
    requires all_nets { length waves.now ≡ length design.now.circuit }
    ensures { IfOk result (λ reason. reason ≡ reason_at (slice_get design.now.circuit net) (signals_in waves.now) tick) }
{
    let pins = design.pins_of(net);
    let wires = design.wires_of(net);
    let part = design.part(net);
    let asked = asked_tick(part, design.timing(net), tick);
    match part {
        Part::Input => Ok(input_reason(design.stimuli(net), tick)),
        Part::Gate(kind) => gate_reason(alloc, waves, kind, pins, wires, asked),
        Part::Flop => Ok(flop_reason(wires, asked)),
    }
}

/// Returns the last stimulus up to the tick, or that there is none.
fn input_reason(stimuli: &[Change], tick: u64) -> Reason
    requires { TicksRise stimuli.now }
    ensures { result ≡ input_reason stimuli.now tick }
{
    match last_tick(stimuli, tick) {
        Some(at) => Reason::Stimulus(at),
        None => Reason::NoStimulus,
    }
}

/// Returns the pin that decides, or that the delay isn't over.
fn gate_reason(
    alloc: Global,
    waves: &[Waveform],
    kind: GateKind,
    pins: &[u32],
    wires: &[u32],
    asked: Option<u64>,
) -> Result<Reason, AllocError>
    requires arity { HasArity kind (length pins.now) }
    requires pins { All (λ pin. pin < length waves.now) pins.now }
    requires wires { length wires.now ≡ length pins.now }
    ensures { IfOk result (λ reason. reason ≡ gate_reason kind pins.now wires.now (signals_in waves.now) asked) }
{
    let Some(at) = asked else {
        return Ok(Reason::BeforeDelay);
    };
    let values = pin_values(alloc, waves, pins, wires, at)?;
    let since = pins_since(alloc, waves, pins, wires, at)?;
    Ok(pin_reason(
        wires,
        at,
        deciding_place(kind, values.as_slice(), since.as_slice()),
    ))
}

/// Returns the only pin, or that the first sample doesn't show yet.
fn flop_reason(wires: &[u32], asked: Option<u64>) -> Reason
    requires { length wires.now ≡ 1 }
    ensures { result ≡ flop_reason wires.now asked }
{
    match asked {
        Some(at) => pin_reason(wires, at, 0),
        None => Reason::BeforeFirstSample,
    }
}

/// Returns the pin at a place, or that its wire delay isn't over, for a net that reads its pins at a
/// tick.
fn pin_reason(wires: &[u32], asked: u64, place: usize) -> Reason
    requires { place < length wires.now }
    ensures { result ≡ pin_reason wires.now asked place }
{
    if asked < u64::from(wires[place]) {
        Reason::BeforeWire(place)
    } else {
        Reason::Pin(place)
    }
}

/// Returns where a cause leads: the source of the pin that decides, and the tick of it that the pin
/// shows, or where a swing began.
pub fn leads_to(design: &Design, cause: Cause) -> Option<(u32, u64)>
    requires formed { IsDesign design.now }
    requires is_net { cause.net < length design.now.circuit }
    ensures { result ≡ leads_to design.now.circuit cause }
{
    match cause.reason {
        Reason::Pin(place) => source_of(design, cause.net, cause.at, place),
        Reason::Swings { since, .. } if since < cause.at => Some((cause.net, since)),
        _ => None,
    }
}

/// Returns what the pin at a place shows at the asked tick of a net: a net and a tick.
pub fn source_of(design: &Design, net: u32, tick: u64, place: usize) -> Option<(u32, u64)>
    requires formed { IsDesign design.now }
    requires is_net { net < length design.now.circuit }
    ensures { result ≡ source_of (slice_get design.now.circuit net) tick place }
{
    let asked = asked_tick(design.part(net), design.timing(net), tick)?;
    let pin = *design.pins_of(net).get(place)?;
    let at = asked.checked_sub(u64::from(design.wires_of(net)[place]))?;
    Some((pin, at))
}
