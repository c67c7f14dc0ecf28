//! The kernel and the plain engine, compared.
ghost use Rattle.std.specs.Prelude.{◌≡◌, ◌<◌, ◌≤◌, ◌^◌, length, map, All, IfErr, IfOk, IsOkAnd, OnOk, false, Err};
ghost use Rattle.std.specs.List.{range_with_len};
ghost use Rattle.logic3.specs.Wave.{wave_of};
ghost use Rattle.design.specs.Equations.{value_of};
ghost use Rattle.cmb_events.specs.Schedule.{most_events, Exists};
ghost use Rattle.cmb_kernel.specs.State.{IsUndrained};
ghost use Rattle.kernel_runs.specs.Checked.{checked};
ghost use Rattle.prepared_runs.specs.Ends.{IsRefusal};
ghost use Rattle.prepared_runs.specs.Source.{seen_source, MayWantMemory};
ghost use Rattle.kernel_runs.specs.Simulated.{EndsComplete, IsKnown};
ghost use Rattle.prepared_runs.specs.Prepared.{run_of_source, seen_run};
ghost use Rattle.prepared_runs.specs.declared.fault.SimFault.TheVariants.{Memory};

use crate::simulation::RunKernel;
use crate::sweep_run::complete;
use design::plain_waves;
use logic3::Waveform;
use prepared_runs::{PreparedRun, SimFault, Source, prepare_run};
use std::alloc::Global;

/// How a run by the kernel compares with one by the plain engine.
#[derive(Clone, Copy, Debug, PartialEq, Eq)]
pub struct CheckAnswer {
    /// How many nets there are.
    pub nets: u32,
    /// How many pins they have.
    pub pins: u32,
    /// For how many nets the two engines give the same waveform: for all of them.
    pub same: u32,
}

/// Runs a source by the kernel and by the plain engine, and counts the nets for which they give the same
/// waveform up to the horizon. By the contract these are all nets; this call compares the waveforms.
///
/// # Errors
/// A refusal of the source.
pub fn check(alloc: Global, source: &Source<'_>, horizon: u64) -> Result<CheckAnswer, SimFault>
    ensures ok { IfOk result (λ answer. IsOkAnd (run_of_source (seen_source source.now) horizon)
        (λ run. answer ≡ checked run)) }
    // The run that the source makes ends complete.
    ensures complete { OnOk result (EndsComplete (seen_source source.now) horizon) }
    ensures err { IfErr result (IsRefusal (run_of_source (seen_source source.now) horizon)) }
    ensures memory { result ≡ Err Memory → MayWantMemory (seen_source source.now) horizon }
{
    let run = prepare_run(alloc, source, horizon)?;
    check_prepared(alloc, &run)
}

/// Does the same for a prepared run.
fn check_prepared(alloc: Global, run: &PreparedRun) -> Result<CheckAnswer, SimFault>
    requires exist { All (Exists run.now.design.circuit) run.now.schedule }
    requires few { length run.now.schedule ≤ most_events }
    ensures ok { IfOk result (λ answer. answer ≡ checked (seen_run run.now)) }
    ensures err { IfErr result (λ fault. fault ≡ SimFault.Memory) }
{
    let kernel = complete(alloc, run)?;
    let waves = plain_waves(alloc, &run.design, run.horizon)?;
    Ok(CheckAnswer {
        nets: run.design.nets(),
        pins: run.design.pins(),
        same: same_waves(&kernel, waves.as_slice()),
    })
}

/// Returns for how many nets the kernel gives the same waveform.
fn same_waves(kernel: &RunKernel<'_>, waves: &[Waveform]) -> u32
    requires running { kernel.now.failed ≡ false }
    requires known { IsKnown kernel.now }
    requires undrained { IsUndrained kernel.now.state }
    requires few { length kernel.now.circuit < 2 ^ 32 }
    requires waves { waves.now ≡ map (λ net. wave_of (value_of kernel.now.circuit net) 0 kernel.now.end)
        (range_with_len 0 (length kernel.now.circuit)) }
    ensures { result ≡ length kernel.now.circuit }
{
    let mut same = 0;
    for (net, wave) in waves.iter().enumerate() {
        if kernel.waveform(net as u32) == wave {
            same += 1;
        }
    }
    same
}
