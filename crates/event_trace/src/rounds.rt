//! Rounds with their lines.
ghost use Rattle.std.specs.Prelude.{◌≡◌, ◌≢◌, ◌++◌, false, [], length, replicate, slice_index_or, IfErr, IfOk, OnOk, OnErr};
ghost use Rattle.cmb_events.specs.Schedule.{Exists};
ghost use Rattle.cmb_events.specs.declared.event.Event.TheVariants.{Deliver};
ghost use Rattle.cmb_kernel.specs.State.{IsUndrained, most_rounds};
ghost use Rattle.cmb_kernel.specs.Step.{round_events, steps, completed_within};
ghost use Rattle.texts.specs.Written.{AppendsPrefix, GoesOut};
ghost use Rattle.event_trace.specs.ShownLines.{shown_text};
ghost use Rattle.event_trace.specs.Trace.{numbered_round, rounds_lines};

use crate::events::TracedKernel;
use crate::lines::push_round;
use crate::shown_events::ShownEvents;
use crate::walk::walk;
use cmb_events::Event;
use cmb_kernel::Counts;
use cmb_kernel::laws::no_deadlock;
use design::Design;
use std::alloc::{AllocError, Global};
use std::io::Write;
use vcd_dump::DumpFault;

// Adds a delivery for each message that waits at a pin.
fn push_deliveries(
    kernel: &TracedKernel<'_>,
    pin: u32,
    events: &mut Vec<Event>,
) -> Result<(), AllocError>
    requires running { kernel.now.failed ≡ false }
    requires pin { Exists kernel.now.circuit (Deliver pin) }
    ensures { OnOk result (events.new.items ≡
        events.old.items ++ replicate (length (slice_index_or kernel.now.state.lists pin [])) (Deliver pin)) }
{
    for _message in 0..kernel.waiting(pin) {
        events.push(Event::Deliver(pin))?;
    }
    Ok(())
}

/// Returns the events of a round.
fn events_of_round(
    alloc: Global,
    kernel: &TracedKernel<'_>,
    design: &Design,
) -> Result<Vec<Event>, AllocError>
    requires running { kernel.now.failed ≡ false }
    requires circuit { kernel.now.circuit ≡ design.now.circuit }
    ensures events { IfOk result (λ events. events.items ≡ round_events kernel.now.state) }
{
    prove!(!kernel.is_failed());
    let mut events = Vec::new(alloc);
    for pin in 0..design.pins() {
        push_deliveries(kernel, pin, &mut events)?;
    }
    for net in 0..design.nets() {
        events.push(Event::Advance(net))?;
    }
    Ok(events)
}

/// Applies a round, and writes those of its lines that are shown after the waiting text.
fn walk_round<W: Write>(
    alloc: Global,
    kernel: &mut TracedKernel<'_>,
    design: &Design,
    shown: ShownEvents,
    out: &mut W,
    text: &mut Vec<u8>,
    number: u64,
) -> Result<(), DumpFault>
    requires running { kernel.old.failed ≡ false }
    requires circuit { kernel.old.circuit ≡ design.now.circuit }
    requires undrained { IsUndrained kernel.old.state }
    ensures state { OnOk result
        (kernel.new ≡ record kernel.old { state = steps kernel.old.state (round_events kernel.old.state) }) }
    ensures ok { OnOk result (GoesOut (W.contents out.old) (W.contents out.new)
        (text.old.items ++ shown_text shown design.now.circuit (numbered_round number kernel.old.state)) text.new.items) }
    ensures err { OnErr result (AppendsPrefix (W.contents out.old) (W.contents out.new)
        (text.old.items ++ shown_text shown design.now.circuit (numbered_round number kernel.old.state))) }
    ensures fault { IfErr result (λ fault. fault ≢ DumpFault.Failed) }
{
    prove!(!kernel.is_failed());
    push_round(text, number)?;
    let events = events_of_round(alloc, kernel, design)?;
    walk(kernel, design, shown, out, text, events.as_slice())
}

/// Applies rounds until the kernel is complete, writes those of their lines that are shown after the waiting
/// text, and returns the counts of the whole run.
pub fn walk_rounds<W: Write>(
    alloc: Global,
    kernel: &mut TracedKernel<'_>,
    design: &Design,
    shown: ShownEvents,
    out: &mut W,
    text: &mut Vec<u8>,
) -> Result<Counts, DumpFault>
    requires running { kernel.old.failed ≡ false }
    requires circuit { kernel.old.circuit ≡ design.now.circuit }
    requires undrained { IsUndrained kernel.old.state }
    ensures counts { IfOk result (λ counts. counts ≡
        (completed_within (most_rounds kernel.old.end kernel.old.circuit) kernel.old.state).counts) }
    ensures ok { OnOk result (GoesOut (W.contents out.old) (W.contents out.new)
        (text.old.items ++ shown_text shown design.now.circuit (rounds_lines kernel.old)) text.new.items) }
    ensures err { OnErr result (AppendsPrefix (W.contents out.old) (W.contents out.new)
        (text.old.items ++ shown_text shown design.now.circuit (rounds_lines kernel.old))) }
    ensures fault { IfErr result (λ fault. fault ≢ DumpFault.Failed) }
{
    // Each round makes progress.
    no_deadlock();
    prove!(!kernel.is_failed());
    let mut rounds = kernel.counts().rounds;
    while !kernel.is_complete() {
        prove!(!kernel.is_failed());
        rounds = rounds.saturating_add(1);
        walk_round(alloc, kernel, design, shown, out, text, rounds)?;
    }
    let counts = kernel.counts();
    Ok(Counts { rounds, ..counts })
}
