//! A run by the kernel in sweeps.
ghost use Rattle.std.specs.Prelude.{◌≡◌, ◌≤◌, ◌+◌, false, length, All, Err, IfErr, IfOk, IsOkAnd, OnOk};
ghost use Rattle.std.specs.Io.KnownBytes.{Appends};
ghost use Rattle.cmb_events.specs.Schedule.{most_events, Exists};
ghost use Rattle.cmb_kernel.specs.State.{IsUndrained};
ghost use Rattle.cmb_kernel.specs.Sound.{IsSound};
ghost use Rattle.vcd_dump.specs.Dump.{dump_text};
ghost use Rattle.kernel_runs.specs.Alone.{CanShow};
ghost use Rattle.kernel_runs.specs.AtEnd.{IsAtEnd};
ghost use Rattle.prepared_runs.specs.Ends.{BreaksOff, RunEndsBy};
ghost use Rattle.kernel_runs.specs.KnownTicks.{IsProgressOf};
ghost use Rattle.kernel_runs.specs.Paces.{Covers, GoesOn};
ghost use Rattle.kernel_runs.specs.Simulated.{EndsComplete, IsKnown, ShowsRun, dump_in, simulated};
ghost use Rattle.prepared_runs.specs.Prepared.{run_of_source, seen_run};
ghost use Rattle.prepared_runs.specs.Source.{seen_source, signals_of, MayWantMemory};
ghost use Rattle.prepared_runs.specs.Views.{dump_view};
ghost use Rattle.prepared_runs.specs.Reported.{IsProgress, Reported};
ghost use Rattle.prepared_runs.specs.declared.fault.SimFault.TheVariants.{Memory};

use crate::alone::cones_of;
use crate::kernel_calls::kernel_after_events;
use crate::pace::Pace;
use crate::simulation::RunKernel;
use crate::streaming::stream_to_end;
use crate::sweeps::Sweeps;
use prepared_runs::{
    DumpView, PreparedRun, Progress, Silent, SimFault, Source, View, prepare_run, shown_nets,
};
use std::alloc::{AllocError, Global};
use std::io::Write;
use timing_text::Horizon;
use vcd_dump::TimeUnit;

/// Runs a source by the kernel, which applies the picked events and then chooses its own: it sweeps through
/// the nets in the order in which values flow, some ticks at a time. Once enough changes were sent, what every
/// net knows is written and forgotten. If no events are picked and the shown nets don't depend on all others,
/// only the nets in their fan-in cones are run.
///
/// The text is that of [`simulate`](crate::simulate), since neither the order of events nor nets outside the
/// cones show in it. It takes far fewer events, and memory only for what is in flight in a window of ticks.
///
/// # Errors
/// As for [`simulate`](crate::simulate).
pub fn sweep<W: Write>(
    alloc: Global,
    source: &Source<'_>,
    view: &View,
    out: &mut W,
) -> Result<(), SimFault>
    ensures ok { OnOk result (IsOkAnd (dump_in (simulated (seen_source source.now) (dump_view view.now)))
        (Appends (W.contents out.old) (W.contents out.new))) }
    ensures shows { OnOk result (ShowsRun (seen_source source.now) (dump_view view.now) (W.contents out.old) (W.contents out.new)) }
    // The run that the source makes ends complete.
    ensures complete { OnOk result (EndsComplete (seen_source source.now) view.now.horizon) }
    ensures err { IfErr result (RunEndsBy (dump_in (simulated (seen_source source.now) (dump_view view.now)))
        (W.contents out.old) (W.contents out.new)) }
    ensures memory { result ≡ Err Memory → MayWantMemory (seen_source source.now) view.now.horizon }
{
    sweep_with_progress(alloc, source, &DumpView::of(view), out, &mut Silent)
}

/// Runs a source as [`sweep`] does, and reports its progress: after the events, and after each sweep, how
/// many ticks are known of every net. These numbers rise, and end with all ticks of the run.
///
/// # Errors
/// As for [`sweep`], and after its refusals [`SimFault::UnknownNet`] if no net has one of the names to be
/// shown. No progress is reported for a source or a view that is refused.
pub fn sweep_with_progress<W: Write, P: Progress>(
    alloc: Global,
    source: &Source<'_>,
    view: &DumpView<'_>,
    out: &mut W,
    progress: &mut P,
) -> Result<(), SimFault>
    ensures ok { OnOk result (IsOkAnd (dump_in (simulated (seen_source source.now) view.now))
        (Appends (W.contents out.old) (W.contents out.new))) }
    ensures shows { OnOk result (ShowsRun (seen_source source.now) view.now (W.contents out.old) (W.contents out.new)) }
    // The run that the source makes ends complete.
    ensures complete { OnOk result (EndsComplete (seen_source source.now) view.now.horizon) }
    ensures err { IfErr result (RunEndsBy (dump_in (simulated (seen_source source.now) view.now))
        (W.contents out.old) (W.contents out.new)) }
    ensures memory { result ≡ Err Memory → MayWantMemory (seen_source source.now) view.now.horizon }
    ensures reported { Reported (P.reports view.now.horizon) (IsProgress result view.now.horizon) progress.old progress.new }
    // The first number is how many ticks are known after the picked events.
    ensures first { IfOk (run_of_source (seen_source source.now) view.now.horizon) (λ run.
        Reported (P.reports run.horizon) (IsProgressOf run result) progress.old progress.new) }
{
    let run = prepare_run(alloc, source, view.horizon)?;
    let nets = shown_nets(alloc, &run.design, &view.show)?;
    let shown = cones_of(alloc, run, nets)?;
    dump_by_sweeps(
        alloc,
        &shown.run,
        shown.nets.as_slice(),
        view.unit,
        out,
        progress,
    )
}

/// Runs to the end in sweeps, writes the dump of these nets, and reports the progress.
fn dump_by_sweeps<W: Write, P: Progress>(
    alloc: Global,
    run: &PreparedRun,
    nets: &[u32],
    unit: TimeUnit,
    out: &mut W,
    progress: &mut P,
) -> Result<(), SimFault>
    requires can { CanShow run.now nets.now }
    ensures ok { OnOk result (Appends (W.contents out.old) (W.contents out.new)
        (dump_text unit run.now.horizon (signals_of run.now.design.circuit nets.now))) }
    ensures err { IfErr result (BreaksOff (W.contents out.old) (W.contents out.new)
        (dump_text unit run.now.horizon (signals_of run.now.design.circuit nets.now))) }
    ensures reported { Reported (P.reports run.now.horizon) (IsProgressOf (seen_run run.now) result)
        progress.old progress.new }
{
    let mut pace = Pace::sweeps(alloc, &run.design, run.horizon)?;
    let mut kernel = kernel_after_events(alloc, run)?;
    stream_to_end(
        alloc,
        &mut kernel,
        run,
        unit,
        nets,
        &mut pace,
        out,
        progress,
    )
}

/// Returns a run's kernel at the end, when it knows each net up to the horizon: the picked events were
/// applied, and then others. Nothing is drained.
///
/// # Errors
/// [`SimFault::Memory`] only: a prepared run can't cause the kernel's other faults.
pub(crate) fn complete<'r>(alloc: Global, run: &'r PreparedRun) -> Result<RunKernel<'r>, SimFault>
    requires exist { All (Exists run.now.design.circuit) run.now.schedule }
    requires few { length run.now.schedule ≤ most_events }
    ensures ok { IfOk result (IsAtEnd run.now) }
    ensures err { IfErr result (λ fault. fault ≡ SimFault.Memory) }
{
    complete_with_progress(alloc, run, &mut Silent)
}

/// Does the same as [`complete`], and reports the progress: after the events, and after each sweep, how many ticks
/// are known of every net.
///
/// # Errors
/// As for [`complete`].
pub(crate) fn complete_with_progress<'r, P: Progress>(
    alloc: Global,
    run: &'r PreparedRun,
    progress: &mut P,
) -> Result<RunKernel<'r>, SimFault>
    requires exist { All (Exists run.now.design.circuit) run.now.schedule }
    requires few { length run.now.schedule ≤ most_events }
    ensures ok { IfOk result (IsAtEnd run.now) }
    ensures err { IfErr result (λ fault. fault ≡ SimFault.Memory) }
    ensures reported { Reported (P.reports run.now.horizon) (IsProgress result run.now.horizon) progress.old progress.new }
{
    let mut kernel = kernel_after_events(alloc, run)?;
    let mut sweeps = Sweeps::new(alloc, &run.design, run.horizon)?;
    run_to_end(&mut kernel, &mut sweeps, run.horizon, progress)?;
    Ok(kernel)
}

/// Advances by sweeps until each net is known to the end, and reports the progress.
fn run_to_end<P: Progress>(
    kernel: &mut RunKernel<'_>,
    sweeps: &mut Sweeps,
    horizon: Horizon,
    progress: &mut P,
) -> Result<(), AllocError>
    requires running { kernel.old.failed ≡ false }
    requires covers { Covers sweeps.old kernel.old.circuit kernel.old.end }
    requires sound { IsSound kernel.old.circuit kernel.old.end kernel.old.state }
    requires undrained { IsUndrained kernel.old.state }
    requires end { kernel.old.end ≡ horizon + 1 }
    ensures goes { OnOk result (GoesOn kernel.old kernel.new) }
    ensures known { OnOk result (IsKnown kernel.new) }
    ensures undrained { OnOk result (IsUndrained kernel.new.state) }
    ensures reported { Reported (P.reports horizon) (IsProgress result horizon) progress.old progress.new }
{
    loop {
        let known = kernel.least_frontier();
        progress.report(known, horizon);
        if kernel.is_complete() {
            return Ok(());
        }
        sweeps.sweep(kernel, known)?;
    }
}
