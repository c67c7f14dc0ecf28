//! Causes as text, one line each.
ghost use Rattle.std.specs.Prelude.{◌≡◌, ◌<◌, ◌++◌, length, slice_get, All, IfOk, OnOk};
ghost use Rattle.design.specs.Design.{IsDesign};
ghost use Rattle.causes.specs.Causes.{ShowUpTo};
ghost use Rattle.causes.specs.Text.{cause_line, looks_text, moment_text, pin_text, pins_text, reason_text, shown_text, since_text, stimulus_text, swings_text, why_text};

use crate::cause::{Cause, Reason};
use crate::walk::why;
use bench_text::push_statement;
use design::plain::shown;
use design::{Design, asked_tick};
use logic3::{Value, Waveform};
use std::alloc::{AllocError, Global};
use texts::push_numbered;

/// Returns why a net has its value at a tick, by [`why`], with a line for each cause: what the net
/// shows at which tick, and since when if it took the value before; its statement; and what its pins
/// showed when it took the value, or why it needs no other cause. An example is
/// `y@9 = 1 since 7: y = NAND(a, b), a@6 = 0, b@6 = x`, and after it
/// `a@6 = 0 since 5: INPUT(a), stimulus 5 a 0`.
///
/// The waveforms are those of all nets, in order, at least up to the tick.
///
/// # Errors
/// `AllocError` if an allocation fails.
pub fn why_text(
    alloc: Global,
    design: &Design,
    waves: &[Waveform],
    net: u32,
    tick: u64,
) -> Result<Vec<u8>, AllocError>
    requires is_net { net < length design.now.circuit }
    requires waves { ShowUpTo design.now.circuit tick waves.now }
    ensures { IfOk result (λ text. text.items ≡ why_text design.now net tick) }
{
    let causes = why(alloc, design, waves, net, tick)?;
    let mut text = Vec::new(alloc);
    for cause in &causes {
        push_cause(&mut text, design, waves, *cause)?;
    }
    Ok(text)
}

/// Adds the line of a cause.
fn push_cause(
    text: &mut Vec<u8>,
    design: &Design,
    waves: &[Waveform],
    cause: Cause,
) -> Result<(), AllocError>
    requires formed { IsDesign design.now }
    requires is_net { cause.net < length design.now.circuit }
    requires waves { ShowUpTo design.now.circuit cause.at waves.now }
    ensures { OnOk result (text.new.items ≡ text.old.items ++ cause_line design.now cause) }
{
    push_shown(
        text,
        design.netlist().name(cause.net),
        cause.tick,
        cause.value,
    )?;
    push_since(text, cause.tick, cause.since)?;
    text.extend_from_slice(b": ")?;
    push_statement(text, design.netlist(), cause.net)?;
    push_reason(text, design, waves, cause)?;
    text.push(b'\n')?;
    Ok(())
}

/// Adds since when a net shows what it shows at a tick, if not only since this tick.
fn push_since(text: &mut Vec<u8>, tick: u64, since: u64) -> Result<(), AllocError>
    ensures { OnOk result (text.new.items ≡ text.old.items ++ since_text tick since) }
{
    if since == tick {
        return Ok(());
    }
    push_numbered(text, b" since ", since)
}

/// Adds why a net took its value.
fn push_reason(
    text: &mut Vec<u8>,
    design: &Design,
    waves: &[Waveform],
    cause: Cause,
) -> Result<(), AllocError>
    requires formed { IsDesign design.now }
    requires is_net { cause.net < length design.now.circuit }
    requires waves { ShowUpTo design.now.circuit cause.at waves.now }
    ensures { OnOk result (text.new.items ≡ text.old.items ++ reason_text design.now cause cause.reason) }
{
    let name = design.netlist().name(cause.net);
    match cause.reason {
        Reason::Pin(_) => push_looks(text, design, waves, cause.net, cause.at),
        Reason::BeforeWire(_) => {
            push_looks(text, design, waves, cause.net, cause.at)?;
            text.extend_from_slice(b", before the delay of a wire is over")
        }
        Reason::Stimulus(tick) => push_stimulus(text, name, cause.value, tick),
        Reason::NoStimulus => text.extend_from_slice(b", no stimulus yet"),
        Reason::BeforeDelay => text.extend_from_slice(b", before its delay is over"),
        Reason::BeforeFirstSample => text.extend_from_slice(b", before its first sample shows"),
        Reason::Swings { since, period } => {
            push_looks(text, design, waves, cause.net, cause.at)?;
            push_swings(text, since, period)?;
            Ok(())
        }
    }
}

/// Adds the stimulus of an input.
fn push_stimulus(text: &mut Vec<u8>, name: &[u8], value: Value, tick: u64) -> Result<(), AllocError>
    ensures { OnOk result (text.new.items ≡ text.old.items ++ stimulus_text name.now value tick) }
{
    push_numbered(text, b", stimulus ", tick)?;
    text.push(b' ')?;
    text.extend_from_slice(name)?;
    text.push(b' ')?;
    text.extend_from_slice(value.text().as_bytes())?;
    Ok(())
}

/// Adds since when a net swings, and after how many ticks each value comes again.
fn push_swings(text: &mut Vec<u8>, start: u64, period: u64) -> Result<(), AllocError>
    ensures { OnOk result (text.new.items ≡ text.old.items ++ swings_text start period) }
{
    push_numbered(text, b", swings since ", start)?;
    push_numbered(text, b" with period ", period)?;
    Ok(())
}

/// Adds what the pins of a net show at the tick at which it reads them.
fn push_looks(
    text: &mut Vec<u8>,
    design: &Design,
    waves: &[Waveform],
    net: u32,
    tick: u64,
) -> Result<(), AllocError>
    requires formed { IsDesign design.now }
    requires is_net { net < length design.now.circuit }
    requires waves { ShowUpTo design.now.circuit tick waves.now }
    ensures { OnOk result
        (text.new.items ≡ text.old.items ++ looks_text design.now (slice_get design.now.circuit net) tick) }
{
    let Some(asked) = asked_tick(design.part(net), design.timing(net), tick) else {
        return Ok(());
    };
    push_pins(
        text,
        design,
        waves,
        design.pins_of(net),
        design.wires_of(net),
        asked,
    )
}

/// Adds what pins show at a tick.
fn push_pins(
    text: &mut Vec<u8>,
    design: &Design,
    waves: &[Waveform],
    pins: &[u32],
    wires: &[u32],
    asked: u64,
) -> Result<(), AllocError>
    requires formed { IsDesign design.now }
    requires pins { All (λ pin. pin < length design.now.circuit) pins.now }
    requires wires { length wires.now ≡ length pins.now }
    requires waves { ShowUpTo design.now.circuit asked waves.now }
    ensures { OnOk result (text.new.items ≡ text.old.items ++ pins_text design.now pins.now wires.now asked) }
{
    for place in 0..pins.len() {
        push_pin(text, design, waves, pins[place], wires[place], asked)?;
    }
    Ok(())
}

/// Adds what a pin shows at a tick.
fn push_pin(
    text: &mut Vec<u8>,
    design: &Design,
    waves: &[Waveform],
    pin: u32,
    wire: u32,
    asked: u64,
) -> Result<(), AllocError>
    requires formed { IsDesign design.now }
    requires pin { pin < length design.now.circuit }
    requires waves { ShowUpTo design.now.circuit asked waves.now }
    ensures { OnOk result (text.new.items ≡ text.old.items ++ pin_text design.now asked (pin, wire)) }
{
    let name = design.netlist().name(pin);
    text.extend_from_slice(b", ")?;
    match asked.checked_sub(u64::from(wire)) {
        Some(at) => push_shown(text, name, at, shown(waves, pin, at))?,
        None => {
            text.extend_from_slice(name)?;
            text.extend_from_slice(b" = x")?;
        }
    }
    Ok(())
}

/// Adds what a net with a name shows at a tick.
fn push_shown(text: &mut Vec<u8>, name: &[u8], tick: u64, value: Value) -> Result<(), AllocError>
    ensures { OnOk result (text.new.items ≡ text.old.items ++ shown_text name.now tick value) }
{
    push_moment(text, name, tick)?;
    text.extend_from_slice(b" = ")?;
    text.extend_from_slice(value.text().as_bytes())?;
    Ok(())
}

/// Adds a name at a tick.
fn push_moment(text: &mut Vec<u8>, name: &[u8], tick: u64) -> Result<(), AllocError>
    ensures { OnOk result (text.new.items ≡ text.old.items ++ moment_text name.now tick) }
{
    text.extend_from_slice(name)?;
    push_numbered(text, b"@", tick)
}
