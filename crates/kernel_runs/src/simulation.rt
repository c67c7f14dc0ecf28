//! A run by the kernel.
ghost use Rattle.std.specs.Prelude.{◌≡◌, IfOk, IfErr, OnOk, IsOkAnd, Err};
ghost use Rattle.std.specs.Io.KnownBytes.{Appends};
ghost use Rattle.vcd_dump.specs.Dump.{dump_text};
ghost use Rattle.kernel_runs.specs.Alone.{CanShow};
ghost use Rattle.prepared_runs.specs.Source.{seen_source, signals_of, MayWantMemory};
ghost use Rattle.prepared_runs.specs.Ends.{BreaksOff, RunEndsBy};
ghost use Rattle.kernel_runs.specs.KnownTicks.{IsProgressByRounds};
ghost use Rattle.kernel_runs.specs.Simulated.{dump_in, report_of, simulated, EndsComplete, ShowsRun, TakesFewRounds};
ghost use Rattle.prepared_runs.specs.Prepared.{run_of_source, seen_run};
ghost use Rattle.prepared_runs.specs.Views.{dump_view};
ghost use Rattle.prepared_runs.specs.Reported.{IsProgress, Reported};
ghost use Rattle.prepared_runs.specs.declared.fault.SimFault.TheVariants.{Memory};

use crate::kernel_calls::kernel_after_events;
use crate::pace::Pace;
use crate::streaming::stream_to_end;
use cmb_channels::Logs;
use cmb_kernel::{Counts, Kernel};
use gate_process::PackedWave;
use prepared_runs::{
    DumpView, PreparedRun, Progress, Silent, SimFault, Source, View, prepare_run, shown_nets,
};
use std::alloc::Global;
use std::io::Write;
use vcd_dump::TimeUnit;

/// The kernel of a run whose waveforms are read at its end, and the channels that its messages go through.
pub(crate) type RunKernel<'r> = Kernel<'r, Logs>;

/// The kernel of a run whose dump is written as it advances.
pub(crate) type StreamKernel<'r> = Kernel<'r, Logs, PackedWave>;

/// How much happened in a run.
#[derive(Clone, Copy, Debug, PartialEq, Eq)]
pub struct Report {
    /// The counts after the events that were picked.
    pub after: Counts,
    /// How many ticks were known of each net then: at most the horizon and one more.
    pub least: u64,
    /// The counts at the end of the run.
    pub total: Counts,
}

/// Runs a source by the kernel, which applies the picked events and then completes, and writes the dump as
/// the run advances: after the events, and after each round, what every net knows is written and forgotten.
///
/// The text shows each shown net's value at every tick, as the equations give it, whatever was picked: the
/// events show only in the report.
///
/// # Errors
/// A refusal of the settings or of a text comes before the first byte is written; the settings and the length
/// of the netlist's text are checked before any memory is taken. If a write or an allocation fails, a prefix
/// of the dump has been written, which may be empty.
pub fn simulate<W: Write>(
    alloc: Global,
    source: &Source<'_>,
    view: &View,
    out: &mut W,
) -> Result<Report, SimFault>
    ensures ok { IfOk result (λ report. IsOkAnd (simulated (seen_source source.now) (dump_view view.now))
        (λ answer. Appends (W.contents out.old) (W.contents out.new) answer.0 × (report ≡ answer.1))) }
    ensures shows { OnOk result (ShowsRun (seen_source source.now) (dump_view view.now) (W.contents out.old) (W.contents out.new)) }
    // The run ends complete: each net is known up to the horizon.
    ensures complete { OnOk result (EndsComplete (seen_source source.now) view.now.horizon) }
    // It takes at most as many rounds as least delays are needed to cover all its ticks.
    ensures rounds { IfOk result (λ report. TakesFewRounds (seen_source source.now) view.now.horizon report) }
    ensures err { IfErr result (RunEndsBy (dump_in (simulated (seen_source source.now) (dump_view view.now)))
        (W.contents out.old) (W.contents out.new)) }
    ensures memory { result ≡ Err Memory → MayWantMemory (seen_source source.now) view.now.horizon }
{
    simulate_with_progress(alloc, source, &DumpView::of(view), out, &mut Silent)
}

/// Runs a source as [`simulate`] does, and reports its progress: after the events, and after each round, how
/// many ticks are known of every net. These numbers rise, and end with all ticks of the run.
///
/// # Errors
/// As for [`simulate`], and after its refusals [`SimFault::UnknownNet`] if no net has one of the names to be
/// shown. No progress is reported for a source or a view that is refused.
pub fn simulate_with_progress<W: Write, P: Progress>(
    alloc: Global,
    source: &Source<'_>,
    view: &DumpView<'_>,
    out: &mut W,
    progress: &mut P,
) -> Result<Report, SimFault>
    ensures ok { IfOk result (λ report. IsOkAnd (simulated (seen_source source.now) view.now)
        (λ answer. Appends (W.contents out.old) (W.contents out.new) answer.0 × (report ≡ answer.1))) }
    ensures shows { OnOk result (ShowsRun (seen_source source.now) view.now (W.contents out.old) (W.contents out.new)) }
    // The run ends complete: each net is known up to the horizon.
    ensures complete { OnOk result (EndsComplete (seen_source source.now) view.now.horizon) }
    // It takes at most as many rounds as least delays are needed to cover all its ticks.
    ensures rounds { IfOk result (λ report. TakesFewRounds (seen_source source.now) view.now.horizon report) }
    ensures err { IfErr result (RunEndsBy (dump_in (simulated (seen_source source.now) view.now))
        (W.contents out.old) (W.contents out.new)) }
    ensures memory { result ≡ Err Memory → MayWantMemory (seen_source source.now) view.now.horizon }
    ensures reported { Reported (P.reports view.now.horizon) (IsProgress result view.now.horizon) progress.old progress.new }
    // The numbers are how many ticks are known after the picked events, and after each round.
    ensures by_rounds { IfOk (run_of_source (seen_source source.now) view.now.horizon) (λ run.
        Reported (P.reports run.horizon) (IsProgressByRounds run result) progress.old progress.new) }
{
    let run = prepare_run(alloc, source, view.horizon)?;
    let nets = shown_nets(alloc, &run.design, &view.show)?;
    dump_by_rounds(alloc, &run, nets.as_slice(), view.unit, out, progress)
}

/// Runs to the end by rounds, writes the dump of these nets, and reports the progress.
fn dump_by_rounds<W: Write, P: Progress>(
    alloc: Global,
    run: &PreparedRun,
    nets: &[u32],
    unit: TimeUnit,
    out: &mut W,
    progress: &mut P,
) -> Result<Report, SimFault>
    requires can { CanShow run.now nets.now }
    ensures report { IfOk result (λ report. report ≡ report_of (seen_run run.now)) }
    ensures ok { OnOk result (Appends (W.contents out.old) (W.contents out.new)
        (dump_text unit run.now.horizon (signals_of run.now.design.circuit nets.now))) }
    ensures err { IfErr result (BreaksOff (W.contents out.old) (W.contents out.new)
        (dump_text unit run.now.horizon (signals_of run.now.design.circuit nets.now))) }
    ensures reported { Reported (P.reports run.now.horizon) (IsProgressByRounds (seen_run run.now) result)
        progress.old progress.new }
{
    let mut kernel = kernel_after_events(alloc, run)?;
    let after = kernel.counts();
    let least = kernel.least_frontier();
    let mut pace = Pace::Rounds;
    stream_to_end(
        alloc,
        &mut kernel,
        run,
        unit,
        nets,
        &mut pace,
        out,
        progress,
    )?;
    let total = kernel.counts();
    Ok(Report {
        after,
        least,
        total,
    })
}
