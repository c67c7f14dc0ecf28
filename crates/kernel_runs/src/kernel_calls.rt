//! Calls of a run's kernel, which can only run out of memory: a schedule doesn't have too many events, and each
//! names a pin or a net that exists.
ghost use Rattle.std.specs.Prelude.{◌≡◌, ◌+◌, ◌<◌, ◌≤◌, ◌++◌, All, false, length, IfOk, OnOk};
ghost use Rattle.logic3.specs.Wave.{changes_between};
ghost use Rattle.design.specs.Equations.{value_of};
ghost use Rattle.cmb_events.specs.Schedule.{Exists, most_events};
ghost use Rattle.cmb_kernel.specs.State.{IsUndrained, fresh, floor_at, least_frontier};
ghost use Rattle.cmb_kernel.specs.Step.{after_drain, round_of, steps};
ghost use Rattle.cmb_kernel.specs.Sound.{IsSound};
ghost use Rattle.kernel_runs.specs.Paces.{LeastRises, RaisesLeast};
ghost use Rattle.kernel_runs.specs.Simulated.{kernel_after_events};
ghost use Rattle.prepared_runs.specs.Prepared.{seen_run};

use crate::simulation::StreamKernel;
use cmb_channels::Logs;
use cmb_events::Event;
use cmb_kernel::Kernel;
use gate_process::KeptWave;
use logic3::Change;
use prepared_runs::PreparedRun;
use std::alloc::{AllocError, Global};

/// Returns the kernel of a prepared run after the picked events, over new channels.
pub(crate) fn kernel_after_events<'r, W: KeptWave>(
    alloc: Global,
    run: &'r PreparedRun,
) -> Result<Kernel<'r, Logs, W>, AllocError>
    requires exist { All (Exists run.now.design.circuit) run.now.schedule }
    requires few { length run.now.schedule ≤ most_events }
    ensures ok { IfOk result (λ kernel. kernel ≡ kernel_after_events (seen_run run.now)) }
    ensures sound { IfOk result (λ kernel. IsSound kernel.circuit kernel.end kernel.state) }
    ensures undrained { IfOk result (λ kernel. IsUndrained kernel.state) }
{
    let mut kernel = new_kernel(alloc, run)?;
    apply_all(&mut kernel, run.schedule.events())?;
    Ok(kernel)
}

/// Returns the kernel of a prepared run before any event.
fn new_kernel<'r, W: KeptWave>(
    alloc: Global,
    run: &'r PreparedRun,
) -> Result<Kernel<'r, Logs, W>, AllocError>
    ensures { IfOk result (λ kernel. kernel ≡ fresh run.now.design.circuit (run.now.horizon + 1)) }
{
    match Kernel::keeping(alloc, &run.design, run.horizon) {
        Ok(kernel) => Ok(kernel),
        Err(_) => Err(AllocError),
    }
}

/// Applies the picked events.
fn apply_all<W: KeptWave>(
    kernel: &mut Kernel<'_, Logs, W>,
    events: &[Event],
) -> Result<(), AllocError>
    requires running { kernel.old.failed ≡ false }
    requires exist { All (Exists kernel.old.circuit) events.now }
    requires few { length events.now ≤ most_events }
    ensures ok { OnOk result (kernel.new ≡ record kernel.old { state = steps kernel.old.state events.now }) }
    ensures running { OnOk result (kernel.new.failed ≡ false) }
    ensures sound { OnOk result (IsSound kernel.new.circuit kernel.new.end kernel.new.state) }
{
    match kernel.apply_all(events) {
        Ok(()) => Ok(()),
        Err(_) => Err(AllocError),
    }
}

/// Advances the run by a round.
pub(crate) fn round(kernel: &mut StreamKernel<'_>) -> Result<(), AllocError>
    requires running { kernel.old.failed ≡ false }
    ensures ok { OnOk result (kernel.new ≡ record kernel.old { state = round_of kernel.old.state }) }
    ensures raises { OnOk result (RaisesLeast kernel.old kernel.new) }
    ensures rises { OnOk result (LeastRises kernel.old kernel.new) }
    ensures sound { OnOk result (IsSound kernel.new.circuit kernel.new.end kernel.new.state) }
{
    match kernel.round() {
        Ok(()) => Ok(()),
        Err(_) => Err(AllocError),
    }
}

/// Takes out a net's changes below a tick up to which every net is known, and adds them to the end of a list.
// It is called for each net after each sweep, and mostly there are none.
#[inline(always)]
pub(crate) fn drain_below_into(
    kernel: &mut StreamKernel<'_>,
    net: u32,
    bound: u64,
    changes: &mut Vec<Change>,
) -> Result<(), AllocError>
    requires net { net < length kernel.old.circuit }
    requires running { kernel.old.failed ≡ false }
    requires above { floor_at kernel.old.state net ≤ bound }
    requires known { bound ≤ least_frontier kernel.old.end kernel.old.state }
    ensures changes { OnOk result (changes.new.items ≡ changes.old.items ++
        changes_between (value_of kernel.old.circuit net) (floor_at kernel.old.state net) bound) }
    ensures ok { OnOk result (kernel.new ≡ record kernel.old { state = after_drain kernel.old.state net bound }) }
    ensures floor { OnOk result (floor_at kernel.new.state net ≡ bound) }
    ensures sound { OnOk result (IsSound kernel.new.circuit kernel.new.end kernel.new.state) }
{
    match kernel.drain_below_into(net, bound, changes) {
        Ok(()) => Ok(()),
        Err(_) => Err(AllocError),
    }
}
