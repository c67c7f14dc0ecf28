//! Applying events and adding their lines.
ghost use Rattle.std.specs.Prelude.{◌≡◌, ◌<◌, ◌+◌, ◌∷◌, ◌++◌, false, [], length, IfErr, IfOk, OnOk};
ghost use Rattle.design.specs.Circuit.{pin_count};
ghost use Rattle.cmb_events.specs.Schedule.{Exists};
ghost use Rattle.cmb_events.specs.declared.event.Event.TheVariants.{Deliver, Advance};
ghost use Rattle.cmb_kernel.specs.State.{IsUndrained, fresh};
ghost use Rattle.cmb_kernel.specs.Step.{step};
ghost use Rattle.event_trace.specs.ShownLines.{shown_text};
ghost use Rattle.event_trace.specs.Trace.{line_of};

use crate::lines::{push_advance, push_delivery};
use crate::shown_events::ShownEvents;
use cmb_channels::Logs;
use cmb_events::Event;
use cmb_kernel::Kernel;
use design::Design;
use std::alloc::Global;
use timing_text::Horizon;
use vcd_dump::DumpFault;

/// The kernel of a traced run, with the channels that it uses.
pub type TracedKernel<'d> = Kernel<'d, Logs>;

/// Makes a kernel to which no event has been applied. The fault is `Memory`.
pub fn fresh_kernel<'d>(
    alloc: Global,
    design: &'d Design,
    horizon: Horizon,
) -> Result<TracedKernel<'d>, DumpFault>
    ensures fresh { IfOk result (λ kernel. kernel ≡ fresh design.now.circuit (horizon + 1)) }
    ensures err { IfErr result (λ fault. fault ≡ DumpFault.Memory) }
{
    match TracedKernel::new(alloc, design, horizon) {
        Ok(kernel) => Ok(kernel),
        Err(_) => Err(DumpFault::Memory),
    }
}

/// Applies an event of a pin or a net of the design. The fault is `Memory`.
pub fn apply(kernel: &mut TracedKernel<'_>, event: Event) -> Result<(), DumpFault>
    requires running { kernel.old.failed ≡ false }
    requires exists { Exists kernel.old.circuit event }
    ensures ok { OnOk result (kernel.new ≡ record kernel.old { state = step kernel.old.state event }) }
    ensures err { IfErr result (λ fault. fault ≡ DumpFault.Memory) }
{
    match kernel.apply(event) {
        Ok(_useful) => Ok(()),
        Err(_) => Err(DumpFault::Memory),
    }
}

/// Advances a net and adds its line, if that is shown. The fault is `Memory`.
fn push_advanced(
    kernel: &mut TracedKernel<'_>,
    design: &Design,
    shown: ShownEvents,
    text: &mut Vec<u8>,
    net: u32,
) -> Result<(), DumpFault>
    requires running { kernel.old.failed ≡ false }
    requires circuit { kernel.old.circuit ≡ design.now.circuit }
    requires undrained { IsUndrained kernel.old.state }
    requires exists { net < length design.now.circuit }
    ensures ok { OnOk result (kernel.new ≡ record kernel.old { state = step kernel.old.state (Advance net) }) }
    ensures text { OnOk result (text.new.items ≡
        text.old.items ++ shown_text shown design.now.circuit (line_of kernel.old.state (Advance net) ∷ [])) }
    ensures err { IfErr result (λ fault. fault ≡ DumpFault.Memory) }
{
    prove!(!kernel.is_failed());
    let from = kernel.frontier(net);
    apply(kernel, Event::Advance(net))?;
    let to = kernel.frontier(net);
    let changes = kernel.waveform(net).changes_within(from, to);
    if shown.shows(net, from, to) {
        push_advance(text, design.name(net), from, to, changes)?;
    }
    Ok(())
}

/// Lets a pin take the oldest message that waits there, and adds the line, if that is shown. The fault is
/// `Memory`.
fn push_delivered(
    kernel: &mut TracedKernel<'_>,
    design: &Design,
    shown: ShownEvents,
    text: &mut Vec<u8>,
    pin: u32,
) -> Result<(), DumpFault>
    requires running { kernel.old.failed ≡ false }
    requires circuit { kernel.old.circuit ≡ design.now.circuit }
    requires undrained { IsUndrained kernel.old.state }
    requires exists { pin < pin_count design.now.circuit }
    ensures ok { OnOk result (kernel.new ≡ record kernel.old { state = step kernel.old.state (Deliver pin) }) }
    ensures text { OnOk result (text.new.items ≡
        text.old.items ++ shown_text shown design.now.circuit (line_of kernel.old.state (Deliver pin) ∷ [])) }
    ensures err { IfErr result (λ fault. fault ≡ DumpFault.Memory) }
{
    prove!(!kernel.is_failed());
    let net = design.pin_net(pin);
    let place = pin - design.pin(net, 0);
    let from = kernel.received(pin);
    apply(kernel, Event::Deliver(pin))?;
    let to = kernel.received(pin);
    let source = design.pin_source(pin);
    let changes = kernel.waveform(source).changes_within(from, to);
    if shown.shows(net, from, to) {
        push_delivery(text, design.name(net), place, from, to, changes)?;
    }
    Ok(())
}

/// Applies an event of a pin or a net of the design, and adds its line, if that is shown. The fault is `Memory`.
pub fn push_event(
    kernel: &mut TracedKernel<'_>,
    design: &Design,
    shown: ShownEvents,
    text: &mut Vec<u8>,
    event: Event,
) -> Result<(), DumpFault>
    requires running { kernel.old.failed ≡ false }
    requires circuit { kernel.old.circuit ≡ design.now.circuit }
    requires undrained { IsUndrained kernel.old.state }
    requires exists { Exists design.now.circuit event }
    ensures ok { OnOk result (kernel.new ≡ record kernel.old { state = step kernel.old.state event }) }
    ensures text { OnOk result (text.new.items ≡
        text.old.items ++ shown_text shown design.now.circuit (line_of kernel.old.state event ∷ [])) }
    ensures err { IfErr result (λ fault. fault ≡ DumpFault.Memory) }
{
    match event {
        Event::Deliver(pin) => push_delivered(kernel, design, shown, text, pin),
        Event::Advance(net) => push_advanced(kernel, design, shown, text, net),
    }
}
