ghost use Rattle.std.specs.Prelude.{◌≡◌, ◌≢◌, ◌+◌, false, All, IfErr, IfOk, OnOk, OnErr};
ghost use Rattle.std.specs.Io.KnownBytes.{Appends};
ghost use Rattle.cmb_events.specs.Schedule.{Exists};
ghost use Rattle.cmb_kernel.specs.State.{IsUndrained, most_rounds};
ghost use Rattle.cmb_kernel.specs.Step.{completed_within, steps};
ghost use Rattle.texts.specs.Written.{AppendsPrefix};
ghost use Rattle.event_trace.specs.ShownLines.{shown_text};
ghost use Rattle.event_trace.specs.Trace.{run_lines, shown_trace, state_at_end, trace_text};

use crate::events::{TracedKernel, fresh_kernel};
use crate::lines::push_counts;
use crate::rounds::walk_rounds;
use crate::shown_events::{EVERY_EVENT, ShownEvents};
use crate::walk::walk;
use cmb_events::Event;
use cmb_kernel::Counts;
use design::Design;
use std::alloc::Global;
use std::io::Write;
use texts::write_all_bytes;
use timing_text::Horizon;
use vcd_dump::DumpFault;

/// Runs a design up to a horizon, and writes a line for each event that the kernel applies: first the
/// given events, each of a pin or a net of the design, in order, and then those of rounds, until each
/// net is known up to the horizon. Returns the counts of the whole run, which are also in the last
/// line.
///
/// - `advance NET OLD -> NEW: WHAT`: the net's frontier before and after, and the messages that it sent
///   in order, each after a space: a change as `VALUE@TICK`, a null message as `null TICK`; or `idle`
///   if it sent none.
/// - `deliver NET PLACE: WHAT`: the pin at a place of the net, counted from 0, and the message that it
///   took, or `idle` if none waited.
/// - `round N` before the events of each round, N counted from 1.
/// - `events E changes C nulls N rounds R` at the end.
///
/// It is written in pieces of about 64 KiB. Nothing is written after a fault, and `out` isn't flushed.
///
/// # Errors
/// [`DumpFault::Write`] if a `write` returns an error, including an interruption,
/// [`DumpFault::WroteNothing`] if a `write` takes none of its bytes, and [`DumpFault::Memory`] if an
/// allocation fails; never [`DumpFault::Failed`]. A prefix of the trace has been written then.
pub fn trace_events<W: Write>(
    alloc: Global,
    out: &mut W,
    design: &Design,
    horizon: Horizon,
    events: &[Event],
) -> Result<Counts, DumpFault>
    requires exist { All (Exists design.now.circuit) events.now }
    ensures counts { IfOk result (λ counts.
        counts ≡ (state_at_end design.now.circuit (horizon + 1) events.now).counts) }
    ensures ok { OnOk result (Appends (W.contents out.old) (W.contents out.new)
        (trace_text design.now.circuit (horizon + 1) events.now)) }
    ensures err { OnErr result (AppendsPrefix (W.contents out.old) (W.contents out.new)
        (trace_text design.now.circuit (horizon + 1) events.now)) }
    ensures fault { IfErr result (λ fault. fault ≢ DumpFault.Failed) }
{
    trace_shown_events(alloc, out, design, horizon, events, EVERY_EVENT)
}

/// Does the same as [`trace_events`], and leaves out the lines of events that aren't shown. The kernel applies
/// these too, and counts them.
///
/// # Errors
/// As for [`trace_events`].
pub fn trace_shown_events<W: Write>(
    alloc: Global,
    out: &mut W,
    design: &Design,
    horizon: Horizon,
    events: &[Event],
    shown: ShownEvents,
) -> Result<Counts, DumpFault>
    requires exist { All (Exists design.now.circuit) events.now }
    ensures counts { IfOk result (λ counts.
        counts ≡ (state_at_end design.now.circuit (horizon + 1) events.now).counts) }
    ensures ok { OnOk result (Appends (W.contents out.old) (W.contents out.new)
        (shown_trace shown design.now.circuit (horizon + 1) events.now)) }
    ensures err { OnErr result (AppendsPrefix (W.contents out.old) (W.contents out.new)
        (shown_trace shown design.now.circuit (horizon + 1) events.now)) }
    ensures fault { IfErr result (λ fault. fault ≢ DumpFault.Failed) }
{
    let mut kernel = fresh_kernel(alloc, design, horizon)?;
    trace_kernel(alloc, out, design, shown, &mut kernel, events)
}

/// Applies some events to a kernel, and then rounds, and writes those of their lines that are shown.
fn trace_kernel<W: Write>(
    alloc: Global,
    out: &mut W,
    design: &Design,
    shown: ShownEvents,
    kernel: &mut TracedKernel<'_>,
    events: &[Event],
) -> Result<Counts, DumpFault>
    requires running { kernel.old.failed ≡ false }
    requires circuit { kernel.old.circuit ≡ design.now.circuit }
    requires undrained { IsUndrained kernel.old.state }
    requires exist { All (Exists design.now.circuit) events.now }
    ensures counts { IfOk result (λ counts. counts ≡
        (completed_within (most_rounds kernel.old.end kernel.old.circuit) (steps kernel.old.state events.now)).counts) }
    ensures ok { OnOk result (Appends (W.contents out.old) (W.contents out.new) (shown_text shown design.now.circuit
        (run_lines kernel.old events.now))) }
    ensures err { OnErr result (AppendsPrefix (W.contents out.old) (W.contents out.new) (shown_text shown design.now.circuit
        (run_lines kernel.old events.now))) }
    ensures fault { IfErr result (λ fault. fault ≢ DumpFault.Failed) }
{
    let mut text = Vec::new(alloc);
    walk(kernel, design, shown, out, &mut text, events)?;
    let counts = walk_rounds(alloc, kernel, design, shown, out, &mut text)?;
    push_counts(&mut text, counts)?;
    write_all_bytes(out, text.as_slice())?;
    Ok(counts)
}
