//! The trace of a run.
ghost use Rattle.std.specs.Prelude.{◌≡◌, All, Err, IfErr, IsOkAnd, OnOk};
ghost use Rattle.std.specs.Io.KnownBytes.{Appends};
ghost use Rattle.cmb_events.specs.Schedule.{Exists};
ghost use Rattle.prepared_runs.specs.Ends.{BreaksOff, RunEndsBy};
ghost use Rattle.prepared_runs.specs.Prepared.{seen_run};
ghost use Rattle.prepared_runs.specs.Source.{seen_source, MayWantMemory};
ghost use Rattle.event_trace.specs.Traced.{EndsComplete, shown_trace_of_run, shown_trace_of_source, trace_of_source};
ghost use Rattle.prepared_runs.specs.declared.fault.SimFault.TheVariants.{Memory};

use crate::shown_events::ShownEvents;
use crate::trace_view::{TraceView, shown_events};
use crate::tracing::trace_shown_events;
use prepared_runs::{PreparedRun, SimFault, Source, prepare_run};
use std::alloc::Global;
use std::io::Write;

/// Runs a source by the kernel, which applies the picked events and then completes by rounds, and writes a
/// line for each event that it applies, as [`trace_events`](crate::trace_events) does; the last line has the counts.
///
/// # Errors
/// A refusal of the settings or of a text comes before the first byte is written. If a write or an allocation
/// fails, a prefix of the trace has been written, which may be empty.
pub fn trace<W: Write>(
    alloc: Global,
    source: &Source<'_>,
    horizon: u64,
    out: &mut W,
) -> Result<(), SimFault>
    ensures ok { OnOk result (IsOkAnd (trace_of_source (seen_source source.now) horizon)
        (Appends (W.contents out.old) (W.contents out.new))) }
    // The run that the source makes ends complete.
    ensures complete { OnOk result (EndsComplete (seen_source source.now) horizon) }
    ensures err { IfErr result (RunEndsBy (trace_of_source (seen_source source.now) horizon)
        (W.contents out.old) (W.contents out.new)) }
    ensures memory { result ≡ Err Memory → MayWantMemory (seen_source source.now) horizon }
{
    let whole = TraceView {
        idle: true,
        net: None,
    };
    trace_shown(alloc, source, horizon, &whole, out)
}

/// Does the same as [`trace`](crate::trace), and leaves out the lines of events that the view doesn't show, as
/// [`trace_shown_events`](crate::trace_shown_events) does.
///
/// # Errors
/// As for [`trace`](crate::trace), and after its refusals [`SimFault::UnknownNet`] if no net has the name that
/// the view gives.
pub fn trace_shown<W: Write>(
    alloc: Global,
    source: &Source<'_>,
    horizon: u64,
    view: &TraceView<'_>,
    out: &mut W,
) -> Result<(), SimFault>
    ensures ok { OnOk result (IsOkAnd (shown_trace_of_source (seen_source source.now) horizon view.now)
        (Appends (W.contents out.old) (W.contents out.new))) }
    // The run that the source makes ends complete.
    ensures complete { OnOk result (EndsComplete (seen_source source.now) horizon) }
    ensures err { IfErr result (RunEndsBy (shown_trace_of_source (seen_source source.now) horizon view.now)
        (W.contents out.old) (W.contents out.new)) }
    ensures memory { result ≡ Err Memory → MayWantMemory (seen_source source.now) horizon }
{
    let run = prepare_run(alloc, source, horizon)?;
    let shown = shown_events(&run.design, view)?;
    trace_prepared(alloc, &run, shown, out)
}

/// Does the same for a prepared run.
fn trace_prepared<W: Write>(
    alloc: Global,
    run: &PreparedRun,
    shown: ShownEvents,
    out: &mut W,
) -> Result<(), SimFault>
    requires exist { All (Exists run.now.design.circuit) run.now.schedule }
    ensures ok { OnOk result
        (Appends (W.contents out.old) (W.contents out.new) (shown_trace_of_run shown (seen_run run.now))) }
    ensures err { IfErr result
        (BreaksOff (W.contents out.old) (W.contents out.new) (shown_trace_of_run shown (seen_run run.now))) }
{
    let events = run.schedule.events();
    trace_shown_events(alloc, out, &run.design, run.horizon, events, shown)?;
    Ok(())
}
