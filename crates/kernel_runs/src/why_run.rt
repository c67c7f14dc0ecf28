//! Why a net of a run has its value at a tick.
ghost use Rattle.std.specs.Prelude.{◌≡◌, ◌+◌, ◌<◌, ◌≤◌, length, All, Ok, Err, IfErr, IfOk};
ghost use Rattle.causes.specs.Text.{why_text};
ghost use Rattle.cmb_events.specs.Schedule.{most_events, Exists};
ghost use Rattle.design.specs.Equations.{waves_of};
ghost use Rattle.kernel_runs.specs.AtEnd.{IsAtEnd};
ghost use Rattle.kernel_runs.specs.Explained.{why_of_source};
ghost use Rattle.prepared_runs.specs.Ends.{IsRefusal};
ghost use Rattle.prepared_runs.specs.Reported.{IsProgress, Reported};
ghost use Rattle.prepared_runs.specs.Source.{seen_source, MayWantMemory};
ghost use Rattle.prepared_runs.specs.declared.fault.SimFault.TheVariants.{Memory};

use crate::simulation::RunKernel;
use crate::sweep_run::complete_with_progress;
use causes::why_text;
use cmb_events::Schedule;
use logic3::Waveform;
use prepared_runs::{PreparedRun, Progress, Silent, SimFault, Source, net_named, prepare};
use std::alloc::{AllocError, Global};

/// Returns the lines that state why the net of a name has its value at a tick, as [`causes::why_text`] writes
/// them. The kernel computes the run up to that tick, without picked events.
///
/// # Errors
/// A refusal of the settings or of a text, the tick among them as the horizon, and [`SimFault::UnknownNet`]
/// if there is no net of this name.
pub fn why(alloc: Global, source: &Source<'_>, name: &[u8], tick: u64) -> Result<Vec<u8>, SimFault>
    ensures ok { IfOk result (λ text. why_of_source (seen_source source.now) name.now tick ≡ Ok text.items) }
    ensures err { IfErr result (IsRefusal (why_of_source (seen_source source.now) name.now tick)) }
    ensures memory { result ≡ Err Memory → MayWantMemory (seen_source source.now) tick }
{
    why_with_progress(alloc, source, name, tick, &mut Silent)
}

/// Returns the same lines as [`why`], and reports the progress of the run: at its beginning, and after each sweep,
/// how many ticks are known of every net. These numbers rise, and end with all ticks up to that one.
///
/// # Errors
/// As for [`why`]. No progress is reported for a source or a name that is refused.
pub fn why_with_progress<P: Progress>(
    alloc: Global,
    source: &Source<'_>,
    name: &[u8],
    tick: u64,
    progress: &mut P,
) -> Result<Vec<u8>, SimFault>
    ensures ok { IfOk result (λ text. why_of_source (seen_source source.now) name.now tick ≡ Ok text.items) }
    ensures err { IfErr result (IsRefusal (why_of_source (seen_source source.now) name.now tick)) }
    ensures memory { result ≡ Err Memory → MayWantMemory (seen_source source.now) tick }
    ensures reported { Reported (P.reports tick) (IsProgress result tick) progress.old progress.new }
{
    let (horizon, design) = prepare(alloc, source, tick)?;
    let net = net_named(&design, name)?;
    let run = PreparedRun {
        horizon,
        design,
        schedule: Schedule::empty(alloc),
    };
    why_prepared(alloc, &run, net, progress)
}

/// Does the same for a prepared run and the number of the net, at the horizon.
fn why_prepared<P: Progress>(
    alloc: Global,
    run: &PreparedRun,
    net: u32,
    progress: &mut P,
) -> Result<Vec<u8>, SimFault>
    requires is_net { net < length run.now.design.circuit }
    requires exist { All (Exists run.now.design.circuit) run.now.schedule }
    requires few { length run.now.schedule ≤ most_events }
    ensures ok { IfOk result (λ text. text.items ≡ why_text run.now.design net run.now.horizon) }
    ensures err { IfErr result (λ fault. fault ≡ SimFault.Memory) }
    ensures reported { Reported (P.reports run.now.horizon) (IsProgress result run.now.horizon) progress.old progress.new }
{
    let waves = waves_at_end(alloc, run, progress)?;
    let tick = run.horizon.ticks();
    Ok(why_text(alloc, &run.design, waves.as_slice(), net, tick)?)
}

/// Runs to the end, reports the progress, and returns what each net shows up to the horizon, in their order.
fn waves_at_end<P: Progress>(
    alloc: Global,
    run: &PreparedRun,
    progress: &mut P,
) -> Result<Vec<Waveform>, SimFault>
    requires exist { All (Exists run.now.design.circuit) run.now.schedule }
    requires few { length run.now.schedule ≤ most_events }
    ensures ok { IfOk result (λ waves. waves.items ≡ waves_of run.now.design.circuit (run.now.horizon + 1)) }
    ensures err { IfErr result (λ fault. fault ≡ SimFault.Memory) }
    ensures reported { Reported (P.reports run.now.horizon) (IsProgress result run.now.horizon) progress.old progress.new }
{
    let kernel = complete_with_progress(alloc, run, progress)?;
    Ok(copies(alloc, run, &kernel)?)
}

/// Returns copies of what a run's kernel at its end knows of each net, in their order.
fn copies(
    alloc: Global,
    run: &PreparedRun,
    kernel: &RunKernel<'_>,
) -> Result<Vec<Waveform>, AllocError>
    requires { IsAtEnd run.now kernel.now }
    ensures { IfOk result (λ waves. waves.items ≡ waves_of run.now.design.circuit (run.now.horizon + 1)) }
{
    let mut waves = Vec::with_capacity(alloc, run.design.nets() as usize)?;
    for net in 0..run.design.nets() {
        waves.push(kernel.waveform(net).copy()?)?;
    }
    Ok(waves)
}
